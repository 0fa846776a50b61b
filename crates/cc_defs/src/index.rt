//! How a ground constant is found among those of its kind.
ghost use Rattle.std.specs.Prelude.{◌≡◌, ◌∷◌, IfOk, None, Some, true};
ghost use Rattle.std.specs.Ordering.{nat_cmp};
ghost use Rattle.std.specs.declared.cmp.Ordering.TheVariants.{Less};
ghost use Rattle.std.specs.Cmp.Lexicographic.{slice_cmp};
ghost use Rattle.cc_defs.specs.Signatures.{AreOrdered, ground_number, place};
ghost use Rattle.cc_defs.specs.Indexes.{IsIndexOf};

use crate::{Const, OutOfMemory};
use std::alloc::Global;
use std::cmp::Ordering;

/// Where the constants of a symbol stand among those of their kind: the first and the last place.
#[derive(Clone, Copy)]
struct Run {
    symbol: u32,
    first: usize,
    last: usize,
}

/// How constants of a kind are found.
#[derive(Drop)]
pub(crate) struct Index {
    // Whether they stand in the order of their symbols and arguments; then one is found by halves.
    is_ordered: bool,
    // Where the constants of each symbol stand, in order. Nothing is claimed of it: it says where to look first.
    runs: Vec<Run>,
}

/// Whether constants stand in the order of their symbols and arguments.
fn are_ordered(constants: &[Const]) -> bool
    ensures { result ≡ true → AreOrdered constants.now }
{
    for i in 1..constants.len() {
        if !is_before(&constants[i - 1], &constants[i]) {
            return false;
        }
    }
    true
}

/// Whether a constant stands before another.
fn is_before(constant: &Const, other: &Const) -> bool
    ensures { result ≡ true → slice_cmp nat_cmp (place constant.now) (place other.now) ≡ Less }
{
    compare(constant, other.symbol, other.args.items()) == Ordering::Less
}

/// Where a constant stands to one with this symbol and these arguments.
fn compare(constant: &Const, symbol: u32, args: &[u32]) -> Ordering
    ensures { result ≡ slice_cmp nat_cmp (place constant.now) (symbol ∷ args.now) }
{
    constant
        .symbol
        .cmp(&symbol)
        .then_with(|| constant.args.items().cmp(args))
}

/// One more constant, at this place behind those of the runs.
fn extend(runs: &mut Vec<Run>, symbol: u32, place: usize) -> Result<(), OutOfMemory> {
    if let Some(run) = runs.last_mut() {
        if run.symbol == symbol {
            run.last = place;
            return Ok(());
        }
    }
    runs.push(Run {
        symbol,
        first: place,
        last: place,
    })?;
    Ok(())
}

/// The runs of constants that stand in order.
fn runs_of(alloc: Global, constants: &[Const]) -> Result<Vec<Run>, OutOfMemory> {
    let mut runs = Vec::new(alloc);
    for place in 0..constants.len() {
        extend(&mut runs, constants[place].symbol, place)?;
    }
    Ok(runs)
}

/// How far behind the first of a box of arguments others stand: all between the least and the most, in order.
fn offset(least: &[u32], most: &[u32], args: &[u32]) -> u32 {
    if least.len() != args.len() || most.len() != args.len() {
        return 0;
    }
    let mut offset = 0u32;
    for i in 0..args.len() {
        let width = most[i].wrapping_sub(least[i]).wrapping_add(1);
        offset = offset
            .wrapping_mul(width)
            .wrapping_add(args[i].wrapping_sub(least[i]));
    }
    offset
}

/// Where a constant stands if the constants of its symbol have all arguments of a box.
fn place_in(run: &Run, constants: &[Const], args: &[u32]) -> Option<usize> {
    let least = constants.get(run.first)?;
    let most = constants.get(run.last)?;
    let offset = offset(least.args.items(), most.args.items(), args);
    Some(run.first.wrapping_add(offset as usize))
}

/// Whether the constant at a place is the one of this symbol with these arguments.
fn stands_at(constants: &[Const], place: usize, symbol: u32, args: &[u32]) -> bool
    requires { AreOrdered constants.now }
    ensures { result ≡ true → ground_number constants.now symbol args.now ≡ Some place }
{
    match constants.get(place) {
        Some(constant) => compare(constant, symbol, args) == Ordering::Equal,
        None => false,
    }
}

/// Whether all constants stand before the one of this symbol with these arguments.
fn are_before(constants: &[Const], symbol: u32, args: &[u32]) -> bool
    requires { AreOrdered constants.now }
    ensures { result ≡ true → ground_number constants.now symbol args.now ≡ None }
{
    match constants.last() {
        Some(last) => compare(last, symbol, args) == Ordering::Less,
        None => true,
    }
}

fn find_by_halves(constants: &[Const], symbol: u32, args: &[u32]) -> Option<usize>
    requires { AreOrdered constants.now }
    ensures { result ≡ ground_number constants.now symbol args.now }
{
    match constants.binary_search_by(|constant| compare(constant, symbol, args)) {
        Ok(number) => Some(number),
        Err(_) => None,
    }
}

fn find_in_turn(constants: &[Const], symbol: u32, args: &[u32]) -> Option<usize>
    ensures { result ≡ ground_number constants.now symbol args.now }
{
    constants.iter().position(|constant| constant.symbol == symbol && constant.args.items() == args)
}

impl Index {
    /// How these constants are found.
    pub(crate) fn of(alloc: Global, constants: &[Const]) -> Result<Index, OutOfMemory>
        ensures { IfOk result (IsIndexOf constants.now) }
    {
        let is_ordered = are_ordered(constants);
        let runs = if is_ordered {
            runs_of(alloc, constants)?
        } else {
            Vec::new(alloc)
        };
        Ok(Index { is_ordered, runs })
    }

    /// Where the constant of this symbol with these arguments may stand; to be looked at.
    fn guess(&self, constants: &[Const], symbol: u32, args: &[u32]) -> Option<usize> {
        match self.runs.binary_search_by(|run| run.symbol.cmp(&symbol)) {
            Ok(number) => place_in(&self.runs[number], constants, args),
            Err(_) => None,
        }
    }

    /// The place of the constant of this symbol with these arguments among those of this index, if there is one.
    pub(crate) fn find(&self, constants: &[Const], symbol: u32, args: &[u32]) -> Option<usize>
        requires { IsIndexOf constants.now self.now }
        ensures { result ≡ ground_number constants.now symbol args.now }
    {
        if !self.is_ordered {
            return find_in_turn(constants, symbol, args);
        }
        match self.guess(constants, symbol, args) {
            Some(place) if stands_at(constants, place, symbol, args) => Some(place),
            _ if are_before(constants, symbol, args) => None,
            _ => find_by_halves(constants, symbol, args),
        }
    }
}
