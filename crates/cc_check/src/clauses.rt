//! The clauses of a section, and what a line says of them.
ghost use Rattle.std.specs.Prelude.{◌≡◌, ℕ, ◌+◌, ◌<◌, ◌≤◌, ◌++◌, ◌↔◌, [], length, Contains, IfOk, IsTrue, OnOk, Some, slice_get};
ghost use Rattle.std.specs.Bool.{MatchBool};
ghost use Rattle.cc_defs.specs.ClauseForms.{positive, atom_variable};
ghost use Rattle.cc_defs.specs.Clauses.{IsBefore, IsNumbered, IsResolvent, Reaches, opposite};
ghost use Rattle.cc_defs.specs.Limits.{most_variables};
ghost use Rattle.cc_defs.specs.Rows.{IsRow};
ghost use Rattle.cc_defs.specs.Sections.{AreNamed, HasNoEmpty, row_denial};
ghost use Rattle.cc_check.specs.Clauses.{IsClauseOver, AreClausesOver, HaveNoResolvent, IsStep, ReachesNothing};
ghost use Rattle.cc_check.specs.Readers.{chain_of, literals_of, numbers_of};

use crate::number::Named;
use crate::reader::{ChainReader, LiteralReader, NumberReader};
use cc_clauses::theorems::resolvents_are_unique;
use cc_clauses::{ClauseArena, clash_on, resolve_into};
use cc_defs::{Lit, OutOfMemory};
use cc_form::Form;
use std::alloc::Global;
use std::mem;

/// The clause that is reached so far, and room for the next one.
#[derive(Drop)]
pub(crate) struct Stage {
    pub(crate) clause: Vec<Lit>,
    pub(crate) spare: Vec<Lit>,
}

impl Stage {
    pub(crate) fn new(alloc: Global) -> Stage {
        Stage {
            clause: Vec::new(alloc),
            spare: Vec::new(alloc),
        }
    }
}

// Whether the literal of a variable and a sign stands before another.
fn is_before(variable: u32, positive: bool, other: Named) -> bool
    ensures { IsTrue result ↔ IsBefore (record { variable = variable; positive = positive }) other }
{
    if variable == other.variable() {
        return !positive && other.is_positive();
    }
    variable < other.variable()
}

// Whether the variable of a literal is one of so many.
fn is_within(variables: u32, literal: Named) -> bool
    ensures { IsTrue result ↔ ((0 < literal.variable) × (literal.variable ≤ variables)) }
{
    0 < literal.variable() && literal.variable() <= variables
}

/// Whether literals ascend, over the variables up to the last.
pub(crate) fn is_clause_over(variables: u32, literals: &LiteralReader<'_>) -> bool
    ensures { IsTrue result ↔ IsClauseOver variables (literals_of literals.now) }
{
    let mut variable = 0;
    let mut positive = false;
    let mut rest = *literals;
    while let Some(literal) = rest.next() {
        if !is_before(variable, positive, literal) || !is_within(variables, literal) {
            return false;
        }
        variable = literal.variable();
        positive = literal.is_positive();
    }
    true
}

fn is_same(literal: Lit, named: Named) -> bool
    ensures { IsTrue result ↔ (literal ≡ named) }
{
    literal.variable() == named.variable() && literal.is_positive() == named.is_positive()
}

/// Whether a clause has just these literals.
pub(crate) fn is_same_clause(clause: &[Lit], literals: &LiteralReader<'_>) -> bool
    ensures { IsTrue result ↔ (clause.now ≡ literals_of literals.now) }
{
    let mut others = *literals;
    for literal in clause {
        let Some(named) = others.next() else {
            return false;
        };
        if !is_same(*literal, named) {
            return false;
        }
    }
    others.next().is_none()
}

// Whether a number is that of a clause.
fn is_named(number: u32, given: u32, own: usize) -> bool
    ensures { IsTrue result ↔ ((0 < number) × (number ≤ given + own)) }
{
    if number <= given {
        return number > 0;
    }
    (number - given) as usize <= own
}

/// Whether each number of a clause in a chain is one of so many.
pub(crate) fn are_named(given: u32, own: usize, chain: &ChainReader<'_>) -> bool
    ensures { IsTrue result ↔ AreNamed (given + own) (chain_of chain.now) }
{
    let mut rest = *chain;
    while let Some(number) = rest.next() {
        if !is_named(number, given, own) {
            return false;
        }
        let Some(_) = rest.next() else {
            return true;
        };
    }
    true
}

// The clause of a number.
fn numbered<'a>(form: &'a Form, own: &'a ClauseArena, number: u32) -> &'a [Lit]
    requires own { AreClausesOver form.now.variables own.now }
    requires some { 0 < number }
    requires most { number ≤ length form.now.clauses + length own.now }
    ensures numbered { IsNumbered (form.now.clauses ++ own.now) number result.now }
    ensures clause { IsClauseOver form.now.variables result.now }
{
    let given = form.count();
    if number <= given {
        return form.clause(number);
    }
    own.clause((number - given) as usize - 1)
}

// Writes the resolvent of two clauses on a pivot into the room, if there is one.
fn resolve_on(
    variables: u32,
    clause: &[Lit],
    other: &[Lit],
    pivot: u32,
    spare: &mut Vec<Lit>,
) -> Result<bool, OutOfMemory>
    requires variables { variables ≤ most_variables }
    requires clause { IsClauseOver variables clause.now }
    requires other { IsClauseOver variables other.now }
    ensures { IfOk result (λ done. MatchBool done (IsResolvent
        clause.now other.now pivot spare.new.items) (HaveNoResolvent clause.now other.now pivot)) }
{
    if pivot == 0 || pivot > variables {
        return Ok(false);
    }
    if !clash_on(clause, other, pivot) {
        return Ok(false);
    }
    resolve_into(clause, other, pivot, spare)?;
    Ok(true)
}

// Puts the clause of a number into the stage.
fn begin(form: &Form, own: &ClauseArena, number: u32, stage: &mut Stage) -> Result<(), OutOfMemory>
    requires own { AreClausesOver form.now.variables own.now }
    requires some { 0 < number }
    requires most { number ≤ length form.now.clauses + length own.now }
    ensures numbered { OnOk result
        (IsNumbered (form.now.clauses ++ own.now) number stage.new.clause.items) }
    ensures clause { OnOk result (IsClauseOver form.now.variables stage.new.clause.items) }
{
    let clause = numbered(form, own, number);
    stage.clause.clear();
    stage.clause.extend_from_slice(clause)?;
    Ok(())
}

// Resolves the staged clause with the clause of a number on a pivot, if there is a resolvent.
fn step(
    form: &Form,
    own: &ClauseArena,
    pivot: u32,
    number: u32,
    stage: &mut Stage,
) -> Result<bool, OutOfMemory>
    requires own { AreClausesOver form.now.variables own.now }
    requires some { 0 < number }
    requires most { number ≤ length form.now.clauses + length own.now }
    requires staged { IsClauseOver form.now.variables stage.old.clause.items }
    ensures { IfOk result (λ done. IsStep (form.now.clauses ++ own.now)
        form.now.variables stage.old.clause.items pivot number done stage.new.clause.items) }
{
    let other = numbered(form, own, number);
    if !resolve_on(
        form.variables(),
        &stage.clause,
        other,
        pivot,
        &mut stage.spare,
    )? {
        return Ok(false);
    }
    mem::swap(&mut stage.clause, &mut stage.spare);
    Ok(true)
}

/// Writes what a chain reaches into the stage, if it reaches a clause.
pub(crate) fn reach(
    form: &Form,
    own: &ClauseArena,
    chain: &ChainReader<'_>,
    stage: &mut Stage,
) -> Result<bool, OutOfMemory>
    requires own { AreClausesOver form.now.variables own.now }
    requires named { AreNamed (length (form.now.clauses ++ own.now)) (chain_of chain.now) }
    ensures { IfOk result (λ done. MatchBool done
        (Reaches (form.now.clauses ++ own.now) (chain_of chain.now) stage.new.clause.items)
        (ReachesNothing (form.now.clauses ++ own.now) (chain_of chain.now))) }
{
    resolvents_are_unique();
    let mut rest = *chain;
    let Some(first) = rest.next() else {
        return Ok(false);
    };
    begin(form, own, first, stage)?;
    while let Some(pivot) = rest.next() {
        let Some(number) = rest.next() else {
            return Ok(false);
        };
        if !step(form, own, pivot, number, stage)? {
            return Ok(false);
        }
    }
    Ok(true)
}

/// Whether one of the clauses of a form is empty.
pub(crate) fn has_empty(form: &Form) -> bool
    ensures { MatchBool result (Contains form.now.clauses []) (HasNoEmpty form.now.clauses) }
{
    for index in 0..form.count() {
        if form.clause(index + 1).is_empty() {
            return true;
        }
    }
    false
}

// The literal that a position has another value than this one.
fn denied(form: &Form, position: u64, value: u32) -> Lit
    requires { (size : ℕ) × (slice_get form.now.sizes position ≡ Some size) × (value < size) }
    ensures literal { result ≡ opposite (positive (atom_variable form.now.sizes position value)) }
    ensures over { result.variable ≤ form.now.variables }
{
    // The variables of atoms are among those of the form.
    let _ = form.variables();
    form.atom(position, value).opposite()
}

/// Whether a row has an index for each position, below the number of its values.
pub(crate) fn is_row(form: &Form, row: &NumberReader<'_>) -> bool
    ensures { IsTrue result ↔ IsRow form.now.sizes (numbers_of row.now) }
{
    let sizes = form.sizes();
    let mut indexes = *row;
    for size in sizes {
        let Some(index) = indexes.next() else {
            return false;
        };
        if index >= *size {
            return false;
        }
    }
    indexes.next().is_none()
}

/// Writes the clause that denies a row in the place of what is there.
pub(crate) fn write_denial(
    form: &Form,
    row: &NumberReader<'_>,
    out: &mut Vec<Lit>,
) -> Result<(), OutOfMemory>
    requires { IsRow form.now.sizes (numbers_of row.now) }
    ensures denial { OnOk result (out.new.items ≡ row_denial form.now.sizes (numbers_of row.now)) }
    ensures clause { OnOk result (IsClauseOver form.now.variables out.new.items) }
{
    out.clear();
    let count = form.sizes().len();
    let mut rest = *row;
    for i in 0..count {
        let Some(index) = rest.next() else {
            return Ok(());
        };
        out.push(denied(form, i as u64, index))?;
    }
    Ok(())
}
