//! The order of rows.
ghost use Rattle.std.specs.Prelude.{◌≡◌, length};
ghost use Rattle.cc_defs.specs.Rows.{row_cmp};

use std::cmp::Ordering;

/// Compares two rows of one length: the first position at which they differ decides. It takes no memory.
pub fn compare_rows(a: &[u32], b: &[u32]) -> Ordering
    requires { length a.now ≡ length b.now }
    ensures { result ≡ row_cmp a.now b.now }
{
    a.cmp(b)
}
