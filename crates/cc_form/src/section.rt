//! The clauses of conditions, of a claim that is denied, and that a row lies after a key.
ghost use Rattle.std.specs.Prelude.{◌≡◌, slice_get, ◌*◌, ◌+◌, ◌-◌, ◌≤◌, ◌<◌, ◌++◌, [], ◌∷◌, length, map, IfOk, IfErr, OnOk, Some, None};
ghost use Rattle.std.specs.List.{AllByRecursion};
ghost use Rattle.cc_arena.specs.GroundViews.{plain_ground_condition};
ghost use Rattle.cc_defs.specs.Limits.{most_variables, most_steps};
ghost use Rattle.cc_defs.specs.declared.node.Node.TheVariants as nodes;
ghost use Rattle.cc_defs.specs.ClauseLists.{after_key};
ghost use Rattle.cc_defs.specs.Clauses.{opposite};
ghost use Rattle.cc_defs.specs.Histories.{step_of as step_of_at};
ghost use Rattle.cc_defs.specs.Rows.{IsRow};
ghost use Rattle.cc_defs.specs.Terms.{IsTermOver, postfix};
ghost use Rattle.cc_form.specs.Machine.{made_nodes, moved_nodes, run as run_of, stepped, Adds, IsPast, IsRan, Makes, RunsTo};
ghost use Rattle.cc_form.specs.Making.{asserted_nodes, denied_nodes, key_down, key_part, key_up, nodes_above};
ghost use Rattle.cc_form.specs.Queries.{condition_nodes};

use crate::rules::offset_of;
use crate::writer::Writer;
use cc_arena::GroundCondition;
use cc_defs::{At, Fault, Lit, Node};

/// The step that a condition speaks of.
fn step_of(at: At, horizon: u32) -> u32
    ensures { result ≡ step_of_at at horizon }
{
    match at {
        At::Number(step) => step,
        At::Last => horizon,
    }
}

/// The literal of a condition at its step.
fn literal_at(
    writer: &mut Writer,
    stride: u64,
    horizon: u32,
    condition: GroundCondition<'_>,
) -> Result<Lit, Fault>
    requires last { writer.old.last ≤ most_variables }
    requires stride { stride ≤ 8589934592 }
    requires step { step_of_at condition.at horizon ≤ most_steps }
    requires term { IsTermOver writer.old.places
        (condition_nodes stride horizon (plain_ground_condition condition)) }
    ensures { Makes writer.old writer.new result (made_nodes writer.old.places writer.old.last
        (condition_nodes stride horizon (plain_ground_condition condition.entry))) }
{
    let step = step_of(condition.at, horizon);
    writer.literal(condition.nodes, offset_of(stride, step))
}

/// Each condition holds.
pub(crate) fn assert_all(
    writer: &mut Writer,
    stride: u64,
    horizon: u32,
    conditions: &[GroundCondition<'_>],
) -> Result<(), Fault>
    requires last { writer.old.last ≤ most_variables }
    requires stride { stride ≤ 8589934592 }
    requires fit { AllByRecursion (λ condition.
        (step_of_at condition.at horizon ≤ most_steps) × IsTermOver writer.old.places
        (condition_nodes stride horizon (plain_ground_condition condition))) conditions.now }
    ensures { Adds writer.old writer.new result
        (asserted_nodes writer.old.places writer.old.last (map (λ condition.
        condition_nodes stride horizon (plain_ground_condition condition)) conditions.now)) }
{
    for condition in conditions {
        let literal = literal_at(writer, stride, horizon, *condition)?;
        writer.store.keep_one(literal)?;
    }
    Ok(())
}

/// The claim does not hold.
pub(crate) fn deny(
    writer: &mut Writer,
    stride: u64,
    horizon: u32,
    claim: GroundCondition<'_>,
) -> Result<(), Fault>
    requires last { writer.old.last ≤ most_variables }
    requires stride { stride ≤ 8589934592 }
    requires step { step_of_at claim.at horizon ≤ most_steps }
    requires term { IsTermOver writer.old.places
        (condition_nodes stride horizon (plain_ground_condition claim)) }
    ensures { Adds writer.old writer.new result (denied_nodes writer.old.places writer.old.last
        (Some (condition_nodes stride horizon (plain_ground_condition claim.entry)))) }
{
    let literal = literal_at(writer, stride, horizon, claim)?;
    writer.store.keep_one(literal.opposite())?;
    Ok(())
}

/// Puts the literal on the stack that a position has one of the values above this one.
fn step_above(writer: &mut Writer, position: u64, value: u32, size: u32) -> Result<(), Fault>
    requires last { writer.old.last ≤ most_variables }
    requires size { slice_get writer.old.places position ≡ Some size }
    requires value { value < size }
    ensures runs { RunsTo writer.old writer.new result
        (run_of writer.old.places (nodes_above position value (size - (value + 1))
        ++ nodes.Any (size - (value + 1)) ∷ []) writer.old.stack.items writer.old.last) }
    ensures long { OnOk result (length writer.new.stack.items ≡ length writer.old.stack.items + 1) }
{
    for more in value + 1..size {
        writer.step_atom(position, more)?;
    }
    writer.step(Node::Any(size - (value + 1)), 0)
}

/// The literals on the stack that a position has a value above that of the key, and that it has that of the key.
fn step_part(writer: &mut Writer, position: u64, value: u32, size: u32) -> Result<(), Fault>
    requires last { writer.old.last ≤ most_variables }
    requires size { slice_get writer.old.places position ≡ Some size }
    requires value { value < size }
    ensures runs { RunsTo writer.old writer.new result (run_of writer.old.places
        (key_part position size value) writer.old.stack.items writer.old.last) }
    ensures long { OnOk result (length writer.new.stack.items ≡ length writer.old.stack.items + 2) }
{
    step_above(writer, position, value, size)?;
    writer.step_atom(position, value)
}

/// The parts of all positions.
fn step_down(writer: &mut Writer, row: &[u32]) -> Result<(), Fault>
    requires last { writer.old.last ≤ most_variables }
    requires row { IsRow writer.old.places row.now }
    ensures runs { RunsTo writer.old writer.new result (run_of writer.old.places (key_down
        writer.old.places row.now (length row.now)) writer.old.stack.items writer.old.last) }
    ensures long { OnOk result
        (length writer.new.stack.items ≡ length writer.old.stack.items + 2 * length row.now) }
{
    for position in 0..row.len() {
        let size = writer.places.sizes()[position];
        step_part(writer, position as u64, row[position], size)?;
    }
    Ok(())
}

/// From the last position to the first: a value above that of the key, or that of the key and a row after it from the next
/// position on.
fn step_up(writer: &mut Writer, count: usize) -> Result<(), Fault>
    requires last { writer.old.last ≤ most_variables }
    requires long { 2 * count < length writer.old.stack.items }
    ensures { RunsTo writer.old writer.new result
        (run_of writer.old.places (key_up count) writer.old.stack.items writer.old.last) }
{
    for pair in 0..count {
        step_pair(writer)?;
    }
    Ok(())
}

fn step_pair(writer: &mut Writer) -> Result<(), Fault>
    requires last { writer.old.last ≤ most_variables }
    requires long { 3 ≤ length writer.old.stack.items }
    ensures runs { RunsTo writer.old writer.new result (run_of writer.old.places
        (nodes.All 2 ∷ nodes.Any 2 ∷ []) writer.old.stack.items writer.old.last) }
    ensures long { OnOk result (length writer.new.stack.items + 2 ≡ length writer.old.stack.items) }
{
    writer.step(Node::All(2), 0)?;
    writer.step(Node::Any(2), 0)
}

/// The row lies after that of the key.
pub(crate) fn follow(writer: &mut Writer, row: &[u32]) -> Result<(), Fault>
    requires last { writer.old.last ≤ most_variables }
    requires row { IsRow writer.old.places row.now }
    ensures { Adds writer.old writer.new result (asserted_nodes writer.old.places writer.old.last
        (postfix (after_key 0 writer.old.places row.now) ∷ [])) }
{
    let literal = follow_literal(writer, row)?;
    writer.store.keep_one(literal)?;
    Ok(())
}

fn follow_literal(writer: &mut Writer, row: &[u32]) -> Result<Lit, Fault>
    requires last { writer.old.last ≤ most_variables }
    requires row { IsRow writer.old.places row.now }
    ensures { Makes writer.old writer.new result
        (made_nodes writer.old.places writer.old.last (key_down writer.old.places row.now
        (length row.now) ++ nodes.False ∷ [] ++ key_up (length row.now))) }
{
    writer.begin();
    step_down(writer, row)?;
    writer.step(Node::False, 0)?;
    step_up(writer, row.len())?;
    Ok(writer.end())
}
