//! Why each position of a path has its value, in one pass over the rules of its horizon, none of which is made.
ghost use Rattle.std.specs.Prelude.{◌≡◌, ℕ, ◌+◌, ◌<◌, ◌≤◌, IfOk, IfSome, List as Items, [], ◌∷◌, Some, flat_map, length, map, unwrap_or};
ghost use Rattle.cc_defs.specs.Declarations.{upto};
ghost use Rattle.cc_defs.specs.Description.{Description};
ghost use Rattle.cc_defs.specs.Forms as forms;
ghost use Rattle.cc_defs.specs.Limits.{most_steps};
ghost use Rattle.cc_defs.specs.Paths.{IsPath};
ghost use Rattle.cc_defs.specs.Signatures.{ground_constants};
ghost use Rattle.cc_defs.specs.Terms.{Ground};
ghost use Rattle.cc_defs.specs.TimedRules as timed;
ghost use Rattle.cc_theory.specs.Completion.{holds};
ghost use Rattle.cc_theory.specs.Making.{rule_of};
ghost use Rattle.cc_theory.specs.Theories.{AreLawsFor, AreLawsOf, IsPart, IsRuleOf};
ghost use Rattle.cc_why.specs.declared.cause.Cause.TheVariants as kinds;
ghost use Rattle.cc_why.specs.Causes.{Sourced, causes_at, sourced};
ghost use Rattle.cc_why.specs.Meeting.{IsPartIn, IsRuleIn};
ghost use Rattle.cc_why.specs.Noting.{AreNoted, MeanAt, MeansAt, StandIn, after_at, first_of, head_step};

use crate::cause::{Cause, Causes};
use crate::history::{is_true_at, stride};
use cc_arena::{GroundLaw, Laws};
use cc_defs::theorems::positions_have_sizes;
use cc_defs::{GroundHead, Kind, LawKind, List, OutOfMemory, Sig};
use cc_theory::theorems::{models_are_paths, models_meet_completion};
use std::alloc::Global;

/// Whether a constant is a simple fluent.
fn is_simple(kind: Kind) -> bool
    ensures { result ≡ forms.is_simple kind }
{
    match kind {
        Kind::Simple => true,
        Kind::Determined | Kind::Action => false,
    }
}

/// The cause of a position that needs no law: its constant has one value, or it is a simple fluent of step 0.
fn first_cause(sig: &Sig, position: u64) -> Option<Cause>
    requires { 0 < length (ground_constants sig.now) }
    ensures { result ≡ first_of sig.now position }
{
    if sig.domain_size(position) == 1 {
        return Some(Cause::OneValue);
    }
    if position < u64::from(sig.fluents()) && is_simple(sig.constant(position as u32).kind) {
        return Some(Cause::Initial);
    }
    None
}

/// The causes of positions that need no law.
fn first_causes(alloc: Global, sig: &Sig, count: usize) -> Result<Vec<Option<Cause>>, OutOfMemory>
    requires { 0 < count → 0 < length (ground_constants sig.now) }
    ensures { IfOk result (λ causes. causes.items ≡ map (first_of sig.now) (upto count)) }
{
    let mut causes = Vec::new(alloc);
    for position in 0..count {
        causes.push(first_cause(sig, position as u64))?;
    }
    Ok(causes)
}

/// The step of the head of a law's rule that is taken at a step; none where the law has no rule there.
fn step_of_head(kind: LawKind, horizon: u32, step: u32) -> Option<u32>
    requires step { step ≤ horizon }
    requires horizon { horizon ≤ most_steps }
    ensures { result ≡ head_step kind horizon step }
{
    match kind {
        LawKind::Static => Some(step),
        LawKind::ActionDynamic if step < horizon => Some(step),
        LawKind::FluentDynamic if step < horizon => Some(step + 1),
        LawKind::ActionDynamic | LawKind::FluentDynamic => None,
    }
}

/// Whether the `after` part of a law, if there is one, is true at a step.
fn is_after_true(row: &[u32], stride: usize, law: &GroundLaw<'_>, step: u32) -> bool
    requires { IsPartIn (length row.now) stride (after_at law.now step) }
    ensures { (meant : Ground) →
        IsPart stride (after_at law.now step) meant → result ≡ holds row.now meant }
{
    match law.after {
        Some(nodes) => is_true_at(row, stride, step, nodes),
        None => true,
    }
}

/// Whether both parts of a law are true, where its head stands at one step and its `after` part at another.
fn has_body(row: &[u32], stride: usize, law: &GroundLaw<'_>, now: u32, before: u32) -> bool
    requires { IsRuleIn (length row.now) stride (rule_of stride law.now now before) }
    ensures { (meant : timed.TimedRule) → IsRuleOf stride
        (rule_of stride law.now now before) meant → result ≡ holds row.now meant.body }
{
    is_true_at(row, stride, now, law.body) && is_after_true(row, stride, law, before)
}

/// Notes a law as the cause of the atom of its head at a step, where the row has this atom, no cause of it is known yet, and the
/// law's parts are true.
fn note_law(
    row: &[u32],
    stride: usize,
    law: &GroundLaw<'_>,
    now: u32,
    before: u32,
    causes: &mut [Option<Cause>],
)
    requires fits { IsRuleIn (length row.now) stride (rule_of stride law.now now before) }
    requires long { length causes.old ≡ length row.now }
    ensures long { length causes.new ≡ length row.now }
    ensures noted { (meant : timed.TimedRule) →
        IsRuleOf stride (rule_of stride law.now now before) meant →
        AreNoted row.now (sourced (kinds.Law law.now.base) meant ∷ []) causes.old causes.new }
{
    match law.head {
        GroundHead::Falsity => {}
        GroundHead::Atom { constant, value } => {
            let position = now as usize * stride + constant as usize;
            if row[position] == value
                && causes[position].is_none()
                && has_body(row, stride, law, now, before)
            {
                causes[position] = Some(Cause::Law(law.base));
            }
        }
    }
}

/// Notes a law by the rule that it has at a step, if it has one there.
fn note_law_at(
    row: &[u32],
    stride: usize,
    law: &GroundLaw<'_>,
    horizon: u32,
    step: u32,
    causes: &mut [Option<Cause>],
)
    requires step { step ≤ horizon }
    requires horizon { horizon ≤ most_steps }
    requires fits { IfSome (head_step law.now.kind horizon step) (λ now.
        IsRuleIn (length row.now) stride (rule_of stride law.now now step)) }
    requires long { length causes.old ≡ length row.now }
    ensures long { length causes.new ≡ length row.now }
    ensures noted { (meant : Items Sourced) → MeansAt stride step law.now
        (head_step law.now.kind horizon step) meant → AreNoted row.now meant causes.old causes.new }
{
    match step_of_head(law.kind, horizon, step) {
        Some(now) => note_law(row, stride, law, now, step, causes),
        None => {}
    }
}

/// Notes the causes by the rules that laws have at a step.
fn note_step(
    row: &[u32],
    stride: usize,
    laws: &[GroundLaw<'_>],
    horizon: u32,
    step: u32,
    causes: &mut [Option<Cause>],
)
    requires step { step ≤ horizon }
    requires horizon { horizon ≤ most_steps }
    requires fit { StandIn (length row.now) stride horizon step laws.now }
    requires long { length causes.old ≡ length row.now }
    ensures long { length causes.new ≡ length row.now }
    ensures noted { (meant : Items Sourced) →
        MeanAt stride horizon step laws.now meant → AreNoted row.now meant causes.old causes.new }
{
    for law in laws {
        note_law_at(row, stride, law, horizon, step, causes);
    }
}

/// Notes the causes by the rules that laws have at the steps of a horizon, in order.
fn note_steps(
    row: &[u32],
    stride: usize,
    laws: &[GroundLaw<'_>],
    horizon: u32,
    causes: &mut [Option<Cause>],
)
    requires horizon { horizon ≤ most_steps }
    requires fit { (step : ℕ) →
        step ≤ horizon → StandIn (length row.now) stride horizon step laws.now }
    requires long { length causes.old ≡ length row.now }
    ensures long { length causes.new ≡ length row.now }
    ensures noted { (meant : ℕ → Items Sourced) →
        ((step : ℕ) → MeanAt stride horizon step laws.now (meant step)) →
        AreNoted row.now (flat_map meant (upto (horizon + 1))) causes.old causes.new }
{
    for step in 0..horizon + 1 {
        note_step(row, stride, laws, horizon, step, causes);
    }
}

/// The causes, each of which is there.
fn all_there(alloc: Global, causes: &[Option<Cause>]) -> Result<Vec<Cause>, OutOfMemory>
    ensures { IfOk result (λ there.
        there.items ≡ map (λ cause. unwrap_or cause kinds.OneValue) causes.now) }
{
    let mut there = Vec::new(alloc);
    for cause in causes {
        there.push(cause.unwrap_or(Cause::OneValue))?;
    }
    Ok(there)
}

/// Why each position of a path has its value: its constant has no other one; or the first rule of the theory that causes it, in
/// the order of the theory: an initial rule, or a law, by the number of its base law. The causes are in the order of positions.
pub fn why(
    alloc: Global,
    sig: &Sig,
    laws: &Laws<'_>,
    horizon: u32,
    row: &[u32],
) -> Result<Causes, OutOfMemory>
    requires horizon { horizon ≤ most_steps }
    requires laws { AreLawsFor sig.now laws.now }
    requires path { (d : Description) × AreLawsOf sig.now laws.now d × IsPath d horizon row.now }
    ensures { (d : Description) → AreLawsOf sig.now laws.now d →
        IfOk result (λ causes. map (λ cause. Some cause) causes ≡ causes_at d horizon row.now) }
{
    positions_have_sizes();
    models_meet_completion();
    models_are_paths();
    let mut causes = first_causes(alloc, sig, row.len())?;
    note_steps(row, stride(sig), laws.laws(), horizon, &mut causes);
    Ok(List::of(all_there(alloc, &causes)?))
}
