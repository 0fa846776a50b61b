//! The bodies of rules in time.
ghost use Rattle.std.specs.Prelude.{◌≡◌, ◌*◌, ◌+◌, ◌≤◌, ◌<◌, ◌++◌, [], ◌∷◌, length, map, IfOk, IfErr, OnOk, Some, None};
ghost use Rattle.std.specs.List.{AllByRecursion};
ghost use Rattle.cc_defs.specs.Limits.{most_steps, most_variables};
ghost use Rattle.cc_defs.specs.declared.node.Node.TheVariants as nodes;
ghost use Rattle.cc_defs.specs.ClauseForms.{positive};
ghost use Rattle.cc_defs.specs.ClauseLists.{is_certain as is_certain_head};
ghost use Rattle.cc_defs.specs.Terms.{IsTermOver};
ghost use Rattle.cc_defs.specs.Signatures.{Signature};
ghost use Rattle.cc_theory.specs.Making.{stride_of};
ghost use Rattle.cc_theory.specs.Theories.{AreRulesAt, plain_head};
ghost use Rattle.cc_form.specs.Places.{position_sizes};
ghost use Rattle.cc_form.specs.Machine.{first_of, made_nodes, IsBuilt, IsPast, Makes};
ghost use Rattle.cc_form.specs.Making.{body_nodes, head_nodes, is_truth as is_truth_of, joined_nodes, made_bodies, made_rule as made_rule_of, part_nodes, IsBodyOver};

use crate::places::Places;
use crate::writer::Writer;
use cc_defs::{Fault, Lit, Node};
use cc_theory::{Timed, TimedHead, TimedRule};
use std::alloc::Global;

/// How many positions a step stands behind the first one.
pub(crate) fn offset_of(stride: u64, step: u32) -> u64
    requires stride { stride ≤ 8589934592 }
    requires step { step ≤ most_steps }
    ensures value { result ≡ step * stride }
    ensures most { result ≤ 9000000000000 }
{
    u64::from(step) * stride
}

/// Whether a term is `true`.
fn is_truth(term: &[Node]) -> bool
    ensures { result ≡ is_truth_of term.now }
{
    matches!(term, [Node::True])
}

/// The literal of the conjunction of both parts.
fn both(writer: &mut Writer, stride: u64, now: Timed<'_>, before: Timed<'_>) -> Result<Lit, Fault>
    requires last { writer.old.last ≤ most_variables }
    requires stride { stride ≤ 8589934592 }
    requires now_step { now.step ≤ most_steps }
    requires before_step { before.step ≤ most_steps }
    requires now { IsTermOver writer.old.places (part_nodes stride now) }
    requires before { IsTermOver writer.old.places (part_nodes stride before) }
    ensures { Makes writer.old writer.new result (made_nodes writer.old.places writer.old.last
        (part_nodes stride now.entry ++ part_nodes stride before.entry ++ nodes.All 2 ∷ [])) }
{
    writer.begin();
    writer.run(now.nodes, offset_of(stride, now.step))?;
    writer.run(before.nodes, offset_of(stride, before.step))?;
    writer.step(Node::All(2), 0)?;
    Ok(writer.end())
}

/// The literal of two parts, each of which may be `true`, which asks nothing.
fn joined(writer: &mut Writer, stride: u64, now: Timed<'_>, before: Timed<'_>) -> Result<Lit, Fault>
    requires last { writer.old.last ≤ most_variables }
    requires stride { stride ≤ 8589934592 }
    requires now_step { now.step ≤ most_steps }
    requires before_step { before.step ≤ most_steps }
    requires now { IsTermOver writer.old.places (part_nodes stride now) }
    requires before { IsTermOver writer.old.places (part_nodes stride before) }
    ensures { Makes writer.old writer.new result (made_nodes writer.old.places writer.old.last
        (joined_nodes (part_nodes stride now.entry) (part_nodes stride before.entry))) }
{
    if is_truth(now.nodes) {
        return writer.literal(before.nodes, offset_of(stride, before.step));
    }
    if is_truth(before.nodes) {
        return writer.literal(now.nodes, offset_of(stride, now.step));
    }
    both(writer, stride, now, before)
}

/// The literal of a head's atom; for falsity, that of `true`.
fn head_literal(writer: &mut Writer, head: TimedHead) -> Lit
    requires head { IsTermOver writer.old.places (head_nodes head) }
    requires last { writer.old.last ≤ most_variables }
    ensures literal { result
        ≡ (made_nodes writer.old.places writer.old.last (head_nodes head)).literal }
    ensures built { IsBuilt writer.old writer.new
        (made_nodes writer.old.places writer.old.last (head_nodes head)).last
        (made_nodes writer.old.places writer.old.last (head_nodes head)).clauses }
{
    match head {
        TimedHead::Atom { position, value } => writer.places.atom(position, value),
        TimedHead::Falsity => writer.places.truth(),
    }
}

/// The literal of the body of a rule.
fn body(writer: &mut Writer, stride: u64, rule: TimedRule<'_>) -> Result<Lit, Fault>
    requires last { writer.old.last ≤ most_variables }
    requires stride { stride ≤ 8589934592 }
    requires fits { IsBodyOver writer.old.places stride rule }
    ensures { Makes writer.old writer.new result
        (made_nodes writer.old.places writer.old.last (body_nodes stride rule.entry)) }
{
    match rule.now {
        None => Ok(head_literal(writer, rule.head)),
        Some(now) => match rule.before {
            None => writer.literal(now.nodes, offset_of(stride, now.step)),
            Some(before) => joined(writer, stride, now, before),
        },
    }
}

/// Whether a head is an atom of a position with one value, which needs no cause.
fn is_certain(places: &Places, head: TimedHead) -> bool
    requires { IsTermOver places.now (head_nodes head) }
    ensures { result ≡ is_certain_head places.now (plain_head head) }
{
    match head {
        TimedHead::Atom { position, .. } => places.sizes()[position as usize] == 1,
        TimedHead::Falsity => false,
    }
}

/// The literal of the body of a rule that counts; of another one, that of `true`.
fn made_rule(writer: &mut Writer, stride: u64, rule: TimedRule<'_>) -> Result<Lit, Fault>
    requires last { writer.old.last ≤ most_variables }
    requires stride { stride ≤ 8589934592 }
    requires fits { IsBodyOver writer.old.places stride rule }
    ensures { Makes writer.old writer.new result
        (made_rule_of writer.old.places stride writer.old.last rule.entry) }
{
    if is_certain(&writer.places, rule.head) {
        return Ok(writer.places.truth());
    }
    body(writer, stride, rule)
}

/// The literals of the bodies of rules, by their numbers.
pub(crate) fn bodies(
    alloc: Global,
    writer: &mut Writer,
    stride: u64,
    rules: &[TimedRule<'_>],
) -> Result<Vec<Lit>, Fault>
    requires last { writer.old.last ≤ most_variables }
    requires stride { stride ≤ 8589934592 }
    requires fits { AllByRecursion (IsBodyOver writer.old.places stride) rules.now }
    ensures literals { IfOk result (λ bodies. bodies.items ≡ map (λ rule. rule.body)
        (made_bodies writer.old.places stride writer.old.last rules.now).rules) }
    ensures built { OnOk result (IsBuilt writer.old writer.new
        (made_bodies writer.old.places stride writer.old.last rules.now).last
        (made_bodies writer.old.places stride writer.old.last rules.now).clauses) }
    ensures refused { IfErr result
        (IsPast (made_bodies writer.old.places stride writer.old.last rules.now).last) }
{
    let mut bodies = Vec::with_capacity(alloc, rules.len())?;
    for rule in rules {
        let literal = made_rule(writer, stride, *rule)?;
        bodies.push(literal)?;
    }
    Ok(bodies)
}

/// The literals of the bodies of the rules of a horizon, by their numbers.
pub(crate) fn bodies_within(
    alloc: Global,
    writer: &mut Writer,
    stride: u64,
    horizon: u32,
    rules: &[TimedRule<'_>],
) -> Result<Vec<Lit>, Fault>
    requires last { writer.old.last ≤ most_variables }
    requires bound { stride ≤ 8589934592 }
    requires horizon { horizon ≤ most_steps }
    requires fits { (signature : Signature) × (stride ≡ stride_of signature) × (writer.old.places
        ≡ position_sizes signature horizon) × AreRulesAt signature horizon rules.now }
    ensures literals { IfOk result (λ bodies. bodies.items ≡ map (λ rule. rule.body)
        (made_bodies writer.old.places stride writer.old.last rules.now).rules) }
    ensures built { OnOk result (IsBuilt writer.old writer.new
        (made_bodies writer.old.places stride writer.old.last rules.now).last
        (made_bodies writer.old.places stride writer.old.last rules.now).clauses) }
    ensures refused { IfErr result
        (IsPast (made_bodies writer.old.places stride writer.old.last rules.now).last) }
{
    bodies(alloc, writer, stride, rules)
}
