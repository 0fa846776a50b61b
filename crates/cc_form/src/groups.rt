//! The clauses that each position has exactly one value, of the completion, and of denials.
ghost use Rattle.std.specs.Prelude.{◌≡◌, ℕ, ◌+◌, ◌-◌, ◌≤◌, ◌<◌, [], ◌∷◌, drop, length, map, sum, take, OnOk, slice_get, slice_index, Some};
ghost use Rattle.std.specs.List.{AllByRecursion};
ghost use Rattle.cc_defs.specs.ClauseForms.{all_written, atom_variable, positive};
ghost use Rattle.cc_defs.specs.ClauseLists.{completion_from, completion_of, denials_of, bodies_of, exactly_one as exactly_one_of, pairs_denied, position_completion, position_variables, positions_from};
ghost use Rattle.cc_defs.specs.Clauses.{opposite};
ghost use Rattle.cc_defs.specs.Limits.{most_variables};
ghost use Rattle.cc_theory.specs.Theories.{plain_head};
ghost use Rattle.cc_form.specs.Making.{bodied, picked};
ghost use Rattle.cc_form.specs.Places.{position_sizes};
ghost use Rattle.cc_form.specs.Store.{Gives};

use crate::defining::define_any;
use crate::places::Places;
use crate::store::Store;
use cc_defs::{Lit, OutOfMemory};
use cc_theory::{Theory, TimedHead, TimedRule};

/// The clause that a position has some value.
fn some_value(store: &mut Store, first: u32, size: u32) -> Result<(), OutOfMemory>
    requires some { 1 ≤ first }
    requires most { first + size ≤ 4000001 }
    ensures { OnOk result
        (Gives store.old.kept store.new.kept (position_variables first size ∷ [])) }
{
    store.begin();
    for value in 0..size {
        store.stage(Lit::positive(first + value))?;
    }
    store.keep()
}

/// The clauses that a position does not have a value together with one behind it.
fn no_value_with(store: &mut Store, low: u32, end: u32) -> Result<(), OutOfMemory>
    requires some { 1 ≤ low }
    requires below { low < end }
    requires most { end ≤ 4000001 }
    ensures { OnOk result (Gives store.old.kept store.new.kept (map (λ v. opposite (positive low)
        ∷ opposite v ∷ []) (position_variables (low + 1) (end - (low + 1))))) }
{
    for high in low + 1..end {
        store.keep_two(Lit::negative(low), Lit::negative(high))?;
    }
    Ok(())
}

/// The clauses that a position does not have two values. Where there are more clauses than their limit already, no more are
/// made.
fn no_two_values(store: &mut Store, first: u32, end: u32) -> Result<(), OutOfMemory>
    requires some { 1 ≤ first }
    requires ordered { first ≤ end }
    requires most { end ≤ 4000001 }
    ensures { OnOk result (Gives store.old.kept store.new.kept
        (pairs_denied (position_variables first (end - first)))) }
{
    for low in first..end {
        if store.is_full() {
            return Ok(());
        }
        no_value_with(store, low, end)?;
    }
    Ok(())
}

/// The clauses that a position has exactly one value.
fn exactly_one(store: &mut Store, first: u32, size: u32) -> Result<(), OutOfMemory>
    requires some { 1 ≤ first }
    requires most { first + size ≤ 4000001 }
    ensures { OnOk result
        (Gives store.old.kept store.new.kept (exactly_one_of (position_variables first size))) }
{
    some_value(store, first, size)?;
    no_two_values(store, first, first + size)
}

/// The clauses that each position has exactly one value.
pub(crate) fn positions(store: &mut Store, sizes: &[u32]) -> Result<(), OutOfMemory>
    requires { sum sizes.now ≤ most_variables }
    ensures { OnOk result (Gives store.old.kept store.new.kept (positions_from 1 sizes.now)) }
{
    let mut first = 1;
    for size in sizes {
        exactly_one(store, first, *size)?;
        first += *size;
    }
    Ok(())
}

/// Writes the literals of these numbers in the place of what is there.
fn pick(bodies: &[Lit], numbers: &[u32], out: &mut Vec<Lit>) -> Result<(), OutOfMemory>
    requires { AllByRecursion (λ number. number < length bodies.now) numbers.now }
    ensures { OnOk result (out.new.items ≡ picked bodies.now numbers.now) }
{
    out.clear();
    for number in numbers {
        out.push(bodies[*number as usize])?;
    }
    Ok(())
}

/// The clauses that a position has a value exactly where one of its rules has its body.
fn complete_atom(
    store: &mut Store,
    places: &Places,
    theory: &Theory<'_>,
    bodies: &[Lit],
    causes: &mut Vec<Lit>,
    position: u64,
    value: u32,
) -> Result<(), OutOfMemory>
    requires places { places.now ≡ position_sizes theory.now.signature theory.now.horizon }
    requires bodies { length bodies.now ≡ length theory.now.rules }
    requires within { (size : ℕ) × (slice_get places.now position ≡ Some size) × (value < size) }
    ensures { OnOk result (Gives store.old.kept store.new.kept
        (all_written (completion_of (positive (atom_variable places.now position value))
        (bodies_of position value (bodied theory.now.rules bodies.now))))) }
{
    pick(bodies, theory.completion(position, value), causes)?;
    define_any(store, places.atom(position, value), causes)
}

/// The completion of a position. One with a single value needs no cause.
fn complete_position(
    store: &mut Store,
    places: &Places,
    theory: &Theory<'_>,
    bodies: &[Lit],
    causes: &mut Vec<Lit>,
    position: usize,
) -> Result<(), OutOfMemory>
    requires places { places.now ≡ position_sizes theory.now.signature theory.now.horizon }
    requires bodies { length bodies.now ≡ length theory.now.rules }
    requires within { position < length places.now }
    ensures { OnOk result
        (Gives store.old.kept store.new.kept (all_written (position_completion places.now
        (bodied theory.now.rules bodies.now) position (slice_index places.now position)))) }
{
    let size = places.sizes()[position];
    if size < 2 {
        return Ok(());
    }
    for value in 0..size {
        complete_atom(
            store,
            places,
            theory,
            bodies,
            causes,
            position as u64,
            value,
        )?;
    }
    Ok(())
}

/// The completion of all positions.
pub(crate) fn complete(
    store: &mut Store,
    places: &Places,
    theory: &Theory<'_>,
    bodies: &[Lit],
    causes: &mut Vec<Lit>,
) -> Result<(), OutOfMemory>
    requires places { places.now ≡ position_sizes theory.now.signature theory.now.horizon }
    requires bodies { length bodies.now ≡ length theory.now.rules }
    ensures { OnOk result (Gives store.old.kept store.new.kept (all_written
        (completion_from places.now (bodied theory.now.rules bodies.now) 0 places.now))) }
{
    for position in 0..places.sizes().len() {
        complete_position(store, places, theory, bodies, causes, position)?;
    }
    Ok(())
}

/// No rule with head falsity has its body.
pub(crate) fn deny_falsity(
    store: &mut Store,
    theory: &Theory<'_>,
    bodies: &[Lit],
) -> Result<(), OutOfMemory>
    requires { length bodies.now ≡ length theory.now.rules }
    ensures { OnOk result (Gives store.old.kept store.new.kept
        (all_written (denials_of (bodied theory.now.rules bodies.now)))) }
{
    for number in theory.denials() {
        store.write_one(bodies[*number as usize].opposite())?;
    }
    Ok(())
}

/// The completion of the positions from one to before another.
pub(crate) fn complete_between(
    store: &mut Store,
    places: &Places,
    theory: &Theory<'_>,
    bodies: &[Lit],
    causes: &mut Vec<Lit>,
    start: usize,
    end: usize,
) -> Result<(), OutOfMemory>
    requires places { places.now ≡ position_sizes theory.now.signature theory.now.horizon }
    requires bodies { length bodies.now ≡ length theory.now.rules }
    requires ordered { start ≤ end }
    requires within { end ≤ length places.now }
    ensures { OnOk result
        (Gives store.old.kept store.new.kept (all_written (completion_from places.now
        (bodied theory.now.rules bodies.now) start (take (end - start) (drop start places.now))))) }
{
    for position in start..end {
        complete_position(store, places, theory, bodies, causes, position)?;
    }
    Ok(())
}

/// Where the head of a rule is falsity, that it does not have its body.
fn deny_one(store: &mut Store, head: TimedHead, body: Lit) -> Result<(), OutOfMemory>
    ensures { OnOk result (Gives store.old.kept store.new.kept
        (all_written (denials_of (record { head = plain_head head; body = body } ∷ [])))) }
{
    match head {
        TimedHead::Falsity => store.write_one(body.opposite()),
        TimedHead::Atom { .. } => Ok(()),
    }
}

/// No rule of these with head falsity has its body.
pub(crate) fn deny_each(
    store: &mut Store,
    rules: &[TimedRule<'_>],
    bodies: &[Lit],
) -> Result<(), OutOfMemory>
    requires { length bodies.now ≡ length rules.now }
    ensures { OnOk result (Gives store.old.kept store.new.kept
        (all_written (denials_of (bodied rules.now bodies.now)))) }
{
    for number in 0..rules.len() {
        deny_one(store, rules[number].head, bodies[number])?;
    }
    Ok(())
}
