//! The positions of a horizon.
ghost use Rattle.std.specs.Prelude.{◌≡◌, ◌≤◌, ◌++◌, IfOk, OnOk};
ghost use Rattle.cc_defs.specs.Description.{domain_sizes};
ghost use Rattle.cc_defs.specs.Signatures.{ground_constants};
ghost use Rattle.cc_form.specs.Places.{position_sizes};
ghost use Rattle.cc_theory.specs.Making.{stride_of};

use cc_defs::{OutOfMemory, Sig};
use std::alloc::Global;

/// The number of ground constants: so many positions lie between a constant at a step and the same one at the next.
pub(crate) fn stride(sig: &Sig) -> u64
    ensures value { result ≡ stride_of sig.now }
    ensures bound { result ≤ 8589934592 }
{
    u64::from(sig.fluents()) + u64::from(sig.actions())
}

/// The domain sizes of the ground constants.
fn constant_sizes(alloc: Global, sig: &Sig) -> Result<Vec<u32>, OutOfMemory>
    ensures { IfOk result (λ sizes. sizes.items ≡ domain_sizes (ground_constants sig.now)) }
{
    let mut sizes = Vec::new(alloc);
    let count = u64::from(sig.fluents()) + u64::from(sig.actions());
    for number in 0..count {
        sizes.push(sig.domain_size(number))?;
    }
    Ok(sizes)
}

/// Puts the sizes of the fluents behind others.
fn add_fluents(sig: &Sig, each: &[u32], sizes: &mut Vec<u32>) -> Result<(), OutOfMemory>
    requires { each.now ≡ domain_sizes (ground_constants sig.now) }
    ensures { OnOk result (sizes.new.items ≡ sizes.old.items ++ domain_sizes sig.now.fluents) }
{
    let count = sig.fluents() as usize;
    sizes.extend_from_slice(&each[..count])?;
    Ok(())
}

/// The domain sizes of the positions of a horizon.
pub(crate) fn sizes_of(alloc: Global, sig: &Sig, horizon: u32) -> Result<Vec<u32>, OutOfMemory>
    ensures { IfOk result (λ sizes. sizes.items ≡ position_sizes sig.now horizon) }
{
    let each = constant_sizes(alloc, sig)?;
    let mut sizes = Vec::new(alloc);
    for step in 0..horizon {
        sizes.extend_from_slice(&each)?;
    }
    add_fluents(sig, &each, &mut sizes)?;
    Ok(sizes)
}
