//! Which examples have an atom, and what is answered of the values of a position.
ghost use Rattle.std.specs.Prelude.{◌≡◌, ◌≢◌, ◌≤◌, ◌<◌, ◌↔◌, ℕ, IfOk, IsTrue, length, slice_get, Some, true, false};
ghost use Rattle.std.specs.Bool.{MatchBool};
ghost use Rattle.cc_defs.specs.Limits.{most_variables};
ghost use Rattle.cc_sure.specs.Outcomes.{AreAnswersFor, IsAnswerFor, SomeHas};
ghost use Rattle.cc_silent.specs.Sought.{HasValue};
ghost use Rattle.cc_sure.specs.SureRuns.{IsFirstWith, IsNew};

use crate::answer::Answer;
use cc_defs::{List, OutOfMemory, Row};
use std::alloc::Global;

/// Whether a row has the value of this index at a position.
fn has(row: &Row, position: u64, value: u32) -> bool
    ensures { IsTrue result ↔ HasValue position value row.now }
{
    match row.items().get(position as usize) {
        Some(index) => *index == value,
        None => false,
    }
}

/// Whether some example has an atom.
pub(crate) fn some_has(examples: &[Row], position: u64, value: u32) -> bool
    ensures { MatchBool result
        (SomeHas examples.now position value) (IsNew examples.now position value) }
{
    for i in 0..examples.len() {
        if has(&examples[i], position, value) {
            return true;
        }
    }
    false
}

/// The number, from 1, of the first example that has an atom.
fn first_with(examples: &[Row], position: u64, value: u32) -> u32
    requires few { length examples.now ≤ most_variables }
    requires some { SomeHas examples.now position value }
    ensures { IsFirstWith examples.now position value result }
{
    for i in 0..examples.len() {
        if has(&examples[i], position, value) {
            return i as u32 + 1;
        }
    }
    unreachable!()
}

/// Whether no history has any other value of a position.
fn is_alone(never: &[bool], value: usize) -> bool
    ensures { MatchBool result ((other : ℕ) → other < length never.now →
        other ≢ value → slice_get never.now other ≡ Some true) ((other : ℕ)
        × (other ≢ value) × (slice_get never.now other ≡ Some false)) }
{
    for other in 0..never.len() {
        if other != value && !never[other] {
            return false;
        }
    }
    true
}

/// What is answered of a value of a position.
fn answer_of(examples: &[Row], position: u64, never: &[bool], value: usize) -> Answer
    requires few { length examples.now ≤ most_variables }
    requires known { slice_get never.now value ≡ Some false → SomeHas examples.now position value }
    requires within { value < length never.now }
    requires short { length never.now ≤ most_variables }
    ensures { IsAnswerFor examples.now position never.now value result }
{
    if never[value] {
        return Answer::Impossible;
    }
    if is_alone(never, value) {
        return Answer::Certain;
    }
    let example = first_with(examples, position, value as u32);
    Answer::Possible { example }
}

/// What is answered of each value of a position.
pub(crate) fn answers_of(
    alloc: Global,
    examples: &[Row],
    position: u64,
    never: &[bool],
) -> Result<List<Answer>, OutOfMemory>
    requires few { length examples.now ≤ most_variables }
    requires known { (value : ℕ) →
        slice_get never.now value ≡ Some false → SomeHas examples.now position value }
    requires short { length never.now ≤ most_variables }
    ensures answers { IfOk result (AreAnswersFor examples.now position never.now 0) }
    ensures all { IfOk result (λ answers. length answers ≡ length never.now) }
{
    let mut answers = Vec::new(alloc);
    for value in 0..never.len() {
        answers.push(answer_of(examples, position, never, value))?;
    }
    Ok(List::of(answers))
}
