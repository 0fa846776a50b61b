//! The positions of a horizon, and the variables of their atoms.
ghost use Rattle.std.specs.Prelude.{◌≡◌, ◌+◌, ◌≤◌, ◌<◌, ◌++◌, ◌↔◌, [], length, take, min, sum, IfOk, IfErr, OnOk, IsTrue, Some, slice_get};
ghost use Rattle.cc_defs.specs.Limits.{most_variables};
ghost use Rattle.cc_defs.specs.declared.node.Node.TheVariants as nodes;
ghost use Rattle.cc_defs.specs.ClauseForms.{atom_variable, positive, true_variable};
ghost use Rattle.cc_defs.specs.Description.{domain_sizes};
ghost use Rattle.cc_defs.specs.Rows.{IsRow};
ghost use Rattle.cc_defs.specs.Signatures.{ground_constants};
ghost use Rattle.cc_defs.specs.Terms.{Fits};
ghost use Rattle.cc_form.specs.Machine.{IsPast};
ghost use Rattle.cc_form.specs.Places.{firsts as firsts_from, position_sizes};

use cc_defs::{Fault, LimitAt, Lit, OutOfMemory, Refusal, Sig};
use std::alloc::Global;
use std::marker::Model;

/// The positions of a horizon by the numbers of their values, with the variables of their atoms: from 1 on, for each position
/// in order, one for each value in order. The variable behind them is true.
#[derive(Drop)]
pub(crate) struct Places {
    sizes: Vec<u32>,
    // The first variable of each position.
    firsts: Vec<u32>,
    truth: Lit,
}

impl Model for Places {
    ghost use Rattle.std.specs.Prelude.{List, ℕ};
    ghost use Rattle.cc_form.specs.Places.{ArePlaces};

    ghost Value = { List ℕ };

    ghost view = { λ places. places.sizes.items };

    ghost invariant = { ArePlaces };
}

/// How many values there are, up to one more than the limit of variables.
fn value_count(sizes: &[u32]) -> u32
    ensures { result ≡ min (sum sizes.now) 4000001 }
{
    let mut count: u64 = 0;
    for size in sizes {
        count = (count + u64::from(*size)).min(4_000_001);
    }
    count as u32
}

/// The first variable of each position.
fn firsts_of(alloc: Global, sizes: &[u32]) -> Result<Vec<u32>, OutOfMemory>
    requires { sum sizes.now ≤ most_variables }
    ensures { IfOk result (λ firsts. firsts.items ≡ firsts_from 1 sizes.now) }
{
    let mut firsts = Vec::new(alloc);
    let mut first = 1;
    for size in sizes {
        firsts.push(first)?;
        first += *size;
    }
    Ok(firsts)
}

/// The domain sizes of the ground constants.
fn constant_sizes(alloc: Global, sig: &Sig) -> Result<Vec<u32>, OutOfMemory>
    ensures { IfOk result (λ sizes. sizes.items ≡ domain_sizes (ground_constants sig.now)) }
{
    let mut sizes = Vec::new(alloc);
    let count = u64::from(sig.fluents()) + u64::from(sig.actions());
    for number in 0..count {
        sizes.push(sig.domain_size(number))?;
    }
    Ok(sizes)
}

/// How many values the ground constants have together, up to one more than the limit of variables.
pub(crate) fn value_count_of(alloc: Global, sig: &Sig) -> Result<u32, OutOfMemory>
    ensures { IfOk result (λ count.
        count ≡ min (sum (domain_sizes (ground_constants sig.now))) 4000001) }
{
    let sizes = constant_sizes(alloc, sig)?;
    Ok(value_count(&sizes))
}

/// The domain sizes of the positions of a horizon.
pub(crate) fn sizes_of(alloc: Global, sig: &Sig, horizon: u32) -> Result<Vec<u32>, OutOfMemory>
    ensures { IfOk result (λ sizes. sizes.items ≡ position_sizes sig.now horizon) }
{
    let each = constant_sizes(alloc, sig)?;
    let mut sizes = Vec::new(alloc);
    for step in 0..horizon {
        sizes.extend_from_slice(&each)?;
    }
    add_fluents(sig, &each, &mut sizes)?;
    Ok(sizes)
}

/// Puts the sizes of the fluents behind others.
fn add_fluents(sig: &Sig, each: &[u32], sizes: &mut Vec<u32>) -> Result<(), OutOfMemory>
    requires { each.now ≡ domain_sizes (ground_constants sig.now) }
    ensures { OnOk result (sizes.new.items ≡ sizes.old.items ++ domain_sizes sig.now.fluents) }
{
    let count = sig.fluents() as usize;
    sizes.extend_from_slice(&each[..count])?;
    Ok(())
}

impl Places {
    pub(crate) fn new(alloc: Global, sizes: Vec<u32>) -> Result<Places, Fault>
        ensures sizes { IfOk result (λ places. places ≡ sizes.items) }
        ensures within { OnOk result (true_variable sizes.items ≤ most_variables) }
        ensures refused { IfErr result (IsPast (true_variable sizes.items)) }
    {
        let count = value_count(&sizes);
        if count >= LimitAt::Variables.number() {
            return Err(Fault::Refused(Refusal::past(LimitAt::Variables)));
        }
        let firsts = firsts_of(alloc, &sizes)?;
        Ok(Places {
            sizes,
            firsts,
            truth: Lit::positive(count + 1),
        })
    }

    /// No positions.
    pub(crate) fn none(alloc: Global) -> Places
        ensures { result ≡ [] }
    {
        Places {
            sizes: Vec::new(alloc),
            firsts: Vec::new(alloc),
            truth: Lit::positive(1),
        }
    }

    /// The same positions.
    pub(crate) fn copy(&self, alloc: Global) -> Result<Places, OutOfMemory>
        ensures { IfOk result (λ copy. copy ≡ self.now) }
    {
        let sizes = Vec::from_slice(alloc, self.sizes.as_slice())?;
        let firsts = Vec::from_slice(alloc, self.firsts.as_slice())?;
        Ok(Places {
            sizes,
            firsts,
            truth: self.truth,
        })
    }

    pub(crate) fn sizes(&self) -> &[u32]
        ensures { result.now ≡ self.now }
    {
        self.sizes.as_slice()
    }

    /// The number of the variable that is true.
    pub(crate) fn last(&self) -> u32
        ensures value { result ≡ true_variable self.now }
        ensures most { result ≤ most_variables }
    {
        self.truth.variable()
    }

    pub(crate) fn truth(&self) -> Lit
        ensures { result ≡ positive (true_variable self.now) }
    {
        self.truth
    }

    /// The literal that a position has the value of this index.
    pub(crate) fn atom(&self, position: u64, value: u32) -> Lit
        requires { Fits self.now (nodes.Atom position value) }
        ensures { result ≡ positive (atom_variable self.now position value) }
    {
        Lit::positive(self.firsts[position as usize] + value)
    }

    /// Whether a row has an index for each position, below the number of its values.
    pub(crate) fn is_row(&self, row: &[u32]) -> bool
        ensures { IsTrue result ↔ IsRow self.now row.now }
    {
        is_row(&self.sizes, row)
    }
}

fn is_row(sizes: &[u32], row: &[u32]) -> bool
    ensures { IsTrue result ↔ IsRow sizes.now row.now }
{
    if sizes.len() != row.len() {
        return false;
    }
    for position in 0..sizes.len() {
        if row[position] >= sizes[position] {
            return false;
        }
    }
    true
}
