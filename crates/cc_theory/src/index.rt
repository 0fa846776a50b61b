//! Where the rules of each head stand.
ghost use Rattle.std.specs.Prelude.{◌≡◌, ◌≤◌, ◌<◌, IfOk, length};
ghost use Rattle.std.specs.List.{AllByRecursion};
ghost use Rattle.cc_defs.specs.Limits.{most_rules};
ghost use Rattle.cc_theory.specs.Groups.{starts as starts_of, sizes_of, place_of, place_keys, places, HasPlace, AreIndexed};

use crate::groups::{grouped, starts};
use crate::making::stride;
use crate::rule::{TimedHead, TimedRule};
use cc_defs::{OutOfMemory, Sig};
use std::alloc::Global;

/// The domain sizes of the ground constants, by number.
fn sizes(alloc: Global, sig: &Sig) -> Result<Vec<u32>, OutOfMemory>
    ensures { IfOk result (λ sizes. sizes.items ≡ sizes_of sig.now) }
{
    let mut sizes = Vec::new(alloc);
    let constants = stride(sig);
    for number in 0..constants {
        sizes.push(sig.domain_size(number))?;
    }
    Ok(sizes)
}

/// The place of a head: atoms are numbered step by step, at each step constant by constant, value by value; falsity stands
/// behind them. `firsts` has the first atom of each constant at a step, and how many a step has.
pub(crate) fn place(sig: &Sig, firsts: &[usize], horizon: u32, head: TimedHead) -> usize
    requires firsts { firsts.now ≡ starts_of 0 (sizes_of sig.now) }
    requires few { places (sizes_of sig.now) horizon < 18446744073709551616 }
    requires head { HasPlace (sizes_of sig.now) horizon head }
    ensures { result ≡ place_of (sizes_of sig.now) horizon head }
{
    let constants = stride(sig);
    let atoms = firsts[constants as usize];
    match head {
        TimedHead::Atom { position, value } => {
            let step = (position / constants) as usize;
            let constant = (position % constants) as usize;
            step * atoms + firsts[constant] + value as usize
        }
        TimedHead::Falsity => (horizon as usize + 1) * atoms,
    }
}

/// The places of the heads of rules.
fn keys(
    alloc: Global,
    sig: &Sig,
    firsts: &[usize],
    horizon: u32,
    rules: &[TimedRule<'_>],
) -> Result<Vec<usize>, OutOfMemory>
    requires firsts { firsts.now ≡ starts_of 0 (sizes_of sig.now) }
    requires few { places (sizes_of sig.now) horizon < 18446744073709551616 }
    requires heads { AllByRecursion (λ rule.
        HasPlace (sizes_of sig.now) horizon rule.head) rules.now }
    ensures { IfOk result (λ keys. keys.items ≡ place_keys (sizes_of sig.now) horizon rules.now) }
{
    let mut keys = Vec::new(alloc);
    for rule in rules {
        keys.push(place(sig, firsts, horizon, rule.head))?;
    }
    Ok(keys)
}

/// How many places there are.
fn place_count(sig: &Sig, firsts: &[usize], horizon: u32) -> Result<usize, OutOfMemory>
    requires firsts { firsts.now ≡ starts_of 0 (sizes_of sig.now) }
    ensures { IfOk result (λ count. count ≡ places (sizes_of sig.now) horizon) }
{
    let atoms = firsts[stride(sig) as usize];
    let all = (horizon as usize + 1)
        .checked_mul(atoms)
        .ok_or(OutOfMemory)?;
    all.checked_add(1).ok_or(OutOfMemory)
}

/// The numbers of rules by the places of their heads: those of one place stand together, ascending, from where it begins.
#[derive(Drop)]
pub(crate) struct Index {
    pub(crate) firsts: Vec<usize>,
    pub(crate) begins: Vec<usize>,
    pub(crate) numbers: Vec<u32>,
}

/// The index of rules.
pub(crate) fn index_of(
    alloc: Global,
    sig: &Sig,
    horizon: u32,
    rules: &[TimedRule<'_>],
) -> Result<Index, OutOfMemory>
    requires count { length rules.now ≤ most_rules }
    requires heads { AllByRecursion (λ rule.
        HasPlace (sizes_of sig.now) horizon rule.head) rules.now }
    ensures { IfOk result (λ index. AreIndexed
        sig.now horizon rules.now index.firsts.items index.begins.items index.numbers.items) }
{
    let firsts = starts(alloc, &sizes(alloc, sig)?)?;
    let count = place_count(sig, &firsts, horizon)?;
    let keys = keys(alloc, sig, &firsts, horizon, rules)?;
    let groups = grouped(alloc, &keys, count)?;
    Ok(Index {
        firsts,
        begins: groups.begins,
        numbers: groups.numbers,
    })
}
