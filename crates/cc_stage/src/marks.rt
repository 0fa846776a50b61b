//! Marks of literals, by their numbers.
ghost use Rattle.std.specs.Prelude.{◌≡◌, ℕ, ◌+◌, ◌<◌, ◌≤◌, ◌↔◌, false, true, length, set, IsTrue, OnOk, Contains, vec_len, vec_capacity};
ghost use Rattle.cc_clauses.specs.Merging.{code};
ghost use Rattle.cc_defs.specs.Clauses.{Literal, Clash, HasAlone, IsClause, opposite};
ghost use Rattle.cc_defs.specs.Limits.{most_variables};
ghost use Rattle.cc_stage.specs.Marks.{HasRoom, IsCovered, SameMarks, clause_of, is_marked, marked_with, with_marks, without};

use cc_defs::{Lit, OutOfMemory};

// The number of a literal: twice its variable, and one more where it is positive.
fn number(literal: Lit) -> usize
    ensures number { result ≡ code literal }
    ensures few { result < 8589934592 }
{
    let double = 2 * literal.variable() as usize;
    if literal.is_positive() {
        double + 1
    } else {
        double
    }
}

// Whether the literal of a number is marked.
fn mark_at(marks: &[bool], number: usize) -> bool
    ensures { result ≡ is_marked marks.now number }
{
    number < marks.len() && marks[number]
}

/// Whether a literal is marked.
pub fn is_marked(marks: &[bool], literal: Lit) -> bool
    ensures { result ≡ is_marked marks.now (code literal) }
{
    mark_at(marks, number(literal))
}

/// Whether a literal is one of those that are marked.
pub fn has(marks: &[bool], literal: Lit) -> bool
    ensures { IsTrue result ↔ Contains (clause_of marks.now) literal }
{
    is_marked(marks, literal)
}

// Whether a literal is marked, and its opposite is not.
fn has_alone(marks: &[bool], literal: Lit) -> bool
    ensures { IsTrue result ↔ HasAlone (clause_of marks.now) literal }
{
    has(marks, literal) && !has(marks, literal.opposite())
}

// Whether a clause has a literal, and not its opposite.
fn is_alone_in(clause: &[Lit], literal: Lit) -> bool
    ensures { IsTrue result ↔ HasAlone clause.now literal }
{
    clause.contains(&literal) && !clause.contains(&literal.opposite())
}

// Whether a literal is marked alone, and a clause has its opposite alone.
fn clash_at(marks: &[bool], clause: &[Lit], literal: Lit) -> bool
    ensures { IsTrue result
        ↔ (HasAlone (clause_of marks.now) literal × HasAlone clause.now (opposite literal)) }
{
    has_alone(marks, literal) && is_alone_in(clause, literal.opposite())
}

/// Whether what is marked and a clause have a resolvent on a variable, the pivot.
pub fn clash_on(marks: &[bool], clause: &[Lit], pivot: u32) -> bool
    requires some { 1 ≤ pivot }
    requires most { pivot ≤ most_variables }
    ensures { IsTrue result ↔ Clash (clause_of marks.now) clause.now pivot }
{
    if clash_at(marks, clause, Lit::positive(pivot)) {
        return true;
    }
    clash_at(marks, clause, Lit::negative(pivot))
}

// Takes the mark of a number away.
fn erase(marks: &mut Vec<bool>, number: usize)
    ensures { marks.new.items ≡ set marks.old.items number false }
{
    if number < marks.len() {
        marks[number] = false;
    }
}

/// Takes the marks of both literals of a variable away.
pub fn unmark(marks: &mut Vec<bool>, variable: u32)
    ensures { marks.new.items ≡ without variable marks.old.items }
{
    let negative = 2 * variable as usize;
    erase(marks, negative);
    erase(marks, negative + 1);
}

/// Takes all marks away.
pub fn clear(marks: &mut Vec<bool>, touched: &[Lit])
    requires { IsCovered marks.old.items touched.now }
    ensures none { (number : ℕ) → is_marked marks.new.items number ≡ false }
    ensures length { length marks.new.items ≡ length marks.old.items }
{
    for literal in touched {
        erase(marks, number(*literal));
    }
}

// Marks a literal.
fn put(marks: &mut Vec<bool>, touched: &mut Vec<Lit>, literal: Lit)
    requires within { code literal < length marks.old.items }
    requires room { vec_len touched.old < vec_capacity touched.old }
    requires covered { IsCovered marks.old.items touched.old.items }
    ensures marks { marks.new.items ≡ set marks.old.items (code literal) true }
    ensures covered { IsCovered marks.new.items touched.new.items }
    ensures length { length marks.new.items ≡ length marks.old.items }
    ensures len { vec_len touched.new ≤ vec_len touched.old + 1 }
    ensures capacity { vec_capacity touched.old ≤ vec_capacity touched.new }
{
    let place = number(literal);
    if marks[place] {
        return;
    }
    marks[place] = true;
    let _ = touched.push(literal);
}

// Marks a literal, unless it is one of a variable.
fn put_but(marks: &mut Vec<bool>, touched: &mut Vec<Lit>, literal: Lit, variable: u32)
    requires within { code literal < length marks.old.items }
    requires room { vec_len touched.old < vec_capacity touched.old }
    requires covered { IsCovered marks.old.items touched.old.items }
    ensures marks { marks.new.items ≡ marked_with variable literal marks.old.items }
    ensures covered { IsCovered marks.new.items touched.new.items }
    ensures length { length marks.new.items ≡ length marks.old.items }
    ensures len { vec_len touched.new ≤ vec_len touched.old + 1 }
    ensures capacity { vec_capacity touched.old ≤ vec_capacity touched.new }
{
    if literal.variable() == variable {
        return;
    }
    put(marks, touched, literal);
}

/// Marks the literals of a clause but those of a variable.
pub fn put_all(marks: &mut Vec<bool>, touched: &mut Vec<Lit>, clause: &[Lit], variable: u32)
    requires within { HasRoom marks.old.items clause.now }
    requires room { vec_len touched.old + length clause.now ≤ vec_capacity touched.old }
    requires covered { IsCovered marks.old.items touched.old.items }
    ensures marks { marks.new.items ≡ with_marks variable clause.now marks.old.items }
    ensures covered { IsCovered marks.new.items touched.new.items }
{
    for literal in clause {
        put_but(marks, touched, *literal, variable);
    }
}

// Makes the marks so long that they have one of a literal.
fn lengthen(marks: &mut Vec<bool>, literal: Lit) -> Result<(), OutOfMemory>
    ensures same { SameMarks marks.new.items marks.old.items }
    ensures within { OnOk result (code literal < length marks.new.items) }
{
    let place = number(literal);
    if place < marks.len() {
        return Ok(());
    }
    marks.resize(place + 1, false)?;
    Ok(())
}

// Makes the marks so long that they have one of each literal of a clause.
fn lengthen_for(marks: &mut Vec<bool>, clause: &[Lit]) -> Result<(), OutOfMemory>
    requires { IsClause clause.now }
    ensures same { SameMarks marks.new.items marks.old.items }
    ensures within { OnOk result (HasRoom marks.new.items clause.now) }
{
    match clause.last() {
        Some(last) => lengthen(marks, *last),
        None => Ok(()),
    }
}

/// Makes room for the literals of a clause: a mark of each, and a place among those that were touched.
pub fn make_room(
    marks: &mut Vec<bool>,
    touched: &mut Vec<Lit>,
    clause: &[Lit],
) -> Result<(), OutOfMemory>
    requires { IsClause clause.now }
    ensures same { SameMarks marks.new.items marks.old.items }
    ensures touched { touched.new.items ≡ touched.old.items }
    ensures within { OnOk result (HasRoom marks.new.items clause.now) }
    ensures room { OnOk result
        (vec_len touched.new + length clause.now ≤ vec_capacity touched.new) }
{
    touched.reserve(clause.len())?;
    lengthen_for(marks, clause)
}
