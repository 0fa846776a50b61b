//! Rows of a horizon, and keys that a listing can go on after.
ghost use Rattle.std.specs.Prelude.{◌≡◌, ℕ, ◌<◌, ◌≤◌, ◌↔◌, IsTrue, IsNone, length};
ghost use Rattle.cc_arena.specs.GroundViews.{plain_ground_query};
ghost use Rattle.cc_defs.specs.Conditions.{IsSignatureOfDescription};
ghost use Rattle.cc_defs.specs.Description.{Description, sizes_at};
ghost use Rattle.cc_defs.specs.Rows.{IsRow};
ghost use Rattle.cc_form.specs.Places.{position_sizes};
ghost use Rattle.cc_lists.specs.Horizons.{Fits, FitsIn};

use cc_arena::GroundQuery;
use cc_defs::theorems::positions_have_sizes;
use cc_defs::{Key, Sig};

/// Whether a row has an index for each position of a horizon, below the number of its values. It takes no memory.
pub fn is_row(sig: &Sig, horizon: u32, row: &[u32]) -> bool
    ensures is { IsTrue result ↔ IsRow (position_sizes sig.now horizon) row.now }
    ensures described { (d : Description) →
        IsSignatureOfDescription d sig.now → IsTrue result ↔ IsRow (sizes_at d horizon) row.now }
{
    has_indexes(sig, horizon, row)
}

fn has_indexes(sig: &Sig, horizon: u32, row: &[u32]) -> bool
    ensures { IsTrue result ↔ IsRow (position_sizes sig.now horizon) row.now }
{
    positions_have_sizes();
    if row.len() as u64 != sig.positions(horizon) {
        return false;
    }
    for position in 0..row.len() {
        if row[position] >= sig.domain_size(position as u64) {
            return false;
        }
    }
    true
}

/// Whether a horizon is one of a query's.
fn is_tried(query: &GroundQuery<'_>, horizon: u32) -> bool
    ensures { IsTrue result ↔ ((query.now.lo ≤ horizon) × (horizon ≤ query.now.hi)) }
{
    query.lo <= horizon && horizon <= query.hi
}

/// Whether a query has no claim.
fn is_unclaimed(query: &GroundQuery<'_>) -> bool
    ensures { IsTrue result ↔ IsNone (plain_ground_query query.now).claim }
{
    match &query.claim {
        Some(_) => false,
        None => true,
    }
}

/// Whether a key is a row of a horizon of the query, which has no claim.
fn is_fit(sig: &Sig, query: &GroundQuery<'_>, key: &Key) -> bool
    ensures { IsTrue result ↔ Fits sig.now (plain_ground_query query.now) key.now }
{
    is_unclaimed(query) && is_tried(query, key.horizon) && is_row(sig, key.horizon, key.row.items())
}

/// Whether the histories of a query can be listed after a key: the query has no claim, the horizon of the key is one of its
/// range, and the row has an index for each position of that horizon, below the number of its values. It takes no memory.
pub fn fits(sig: &Sig, query: &GroundQuery<'_>, key: &Key) -> bool
    ensures fits { IsTrue result ↔ Fits sig.now (plain_ground_query query.now) key.now }
    ensures described { (d : Description) → IsSignatureOfDescription d sig.now →
        IsTrue result ↔ FitsIn d (plain_ground_query query.now) key.now }
{
    is_fit(sig, query, key)
}
