//! Whether a row is a history: it meets the completion of the theory.
ghost use Rattle.std.specs.Prelude.{◌≡◌, ◌↔◌, ℕ, ◌*◌, ◌<◌, ◌≤◌, IsTrue, List, drop, length, slice_get};
ghost use Rattle.std.specs.List.{AllByRecursion, AllZip, list_all, list_any};
ghost use Rattle.cc_defs.specs.Conditions.{IsSignatureOfDescription};
ghost use Rattle.cc_defs.specs.Declarations.{upto};
ghost use Rattle.cc_defs.specs.Description.{Description, sizes_at};
ghost use Rattle.cc_defs.specs.Paths.{IsPath};
ghost use Rattle.cc_defs.specs.Rows.{IsRow};
ghost use Rattle.cc_defs.specs.Terms.{Ground, postfix};
ghost use Rattle.cc_defs.specs.TimedRules as timed;
ghost use Rattle.cc_defs.specs.TimedRules.{moved};
ghost use Rattle.cc_theory.specs.Completion.{holds};
ghost use Rattle.cc_theory.specs.Making.{stride_of};
ghost use Rattle.cc_theory.specs.Theories.{IsPart, IsRuleOf, IsTheoryOf, plain_head};
ghost use Rattle.cc_why.specs.Meeting.{AreAtoms, IsHeadIn, IsPartIn, IsRuleIn, IsTermFrom, has_head, holds_in, is_settled, meets};

use cc_arena::value;
use cc_defs::theorems::positions_have_sizes;
use cc_defs::{Node, Sig};
use cc_theory::theorems::{models_are_paths, models_meet_completion};
use cc_theory::{Theory, Timed, TimedHead, TimedRule};

/// How many positions lie between a constant at a step and the same one at the next.
pub(crate) fn stride(sig: &Sig) -> usize
    ensures { result ≡ stride_of sig.now }
{
    sig.fluents() as usize + sig.actions() as usize
}

/// The indexes that a row has from a step on.
fn from_step(row: &[u32], stride: usize, step: u32) -> &[u32]
    requires { step * stride ≤ length row.now }
    ensures { result.now ≡ drop (step * stride) row.now }
{
    &row[step as usize * stride..]
}

/// Whether a term is true at a step of a row.
pub(crate) fn is_true_at(row: &[u32], stride: usize, step: u32, nodes: &[Node]) -> bool
    requires { IsTermFrom (length row.now) (step * stride) nodes.now }
    ensures { (term : Ground) →
        nodes.now ≡ postfix term → result ≡ holds row.now (moved (step * stride) term) }
{
    value(nodes, from_step(row, stride, step))
}

/// Whether a part of a body is true; one that is missing asks nothing.
fn is_part_true(row: &[u32], stride: usize, part: Option<Timed<'_>>) -> bool
    requires { IsPartIn (length row.now) stride part }
    ensures { (meant : Ground) → IsPart stride part.entry meant → result ≡ holds row.now meant }
{
    match part {
        Some(timed) => is_true_at(row, stride, timed.step, timed.nodes),
        None => true,
    }
}

/// Whether a row has the atom of a head.
fn is_met(row: &[u32], head: TimedHead) -> bool
    requires { IsHeadIn (length row.now) head }
    ensures { result ≡ has_head row.now (plain_head head) }
{
    match head {
        TimedHead::Atom { position, value } => row[position as usize] == value,
        TimedHead::Falsity => false,
    }
}

/// Whether the body of a rule is true: both its parts, or, where both are missing, the atom of its head.
fn has_body(row: &[u32], stride: usize, rule: &TimedRule<'_>) -> bool
    requires { IsRuleIn (length row.now) stride rule.now }
    ensures { (meant : timed.TimedRule) →
        IsRuleOf stride rule.entry.now meant → result ≡ holds row.now meant.body }
{
    match rule.now {
        Some(_) => { is_part_true(row, stride, rule.now) && is_part_true(row, stride, rule.before) }
        None => is_met(row, rule.head),
    }
}

/// Whether a row meets a rule: it has the rule's head, or the body is not true.
fn meets_rule(row: &[u32], stride: usize, rule: &TimedRule<'_>) -> bool
    requires { IsRuleIn (length row.now) stride rule.now }
    ensures { (meant : timed.TimedRule) →
        IsRuleOf stride rule.entry.now meant → result ≡ meets row.now meant }
{
    !has_body(row, stride, rule) || is_met(row, rule.head)
}

/// Whether a row meets each rule.
fn meets_rules(row: &[u32], stride: usize, rules: &[TimedRule<'_>]) -> bool
    requires { AllByRecursion (IsRuleIn (length row.now) stride) rules.now }
    ensures { (meant : List timed.TimedRule) →
        AllZip (IsRuleOf stride) rules.now meant → result ≡ list_all (meets row.now) meant }
{
    for rule in rules {
        if !meets_rule(row, stride, rule) {
            return false;
        }
    }
    true
}

/// Whether the body of the rule with a number is true.
fn has_body_at(row: &[u32], stride: usize, rules: &[TimedRule<'_>], number: u32) -> bool
    requires rules { AllByRecursion (IsRuleIn (length row.now) stride) rules.now }
    requires number { number < length rules.now }
    ensures { (meant : List timed.TimedRule) → AllZip (IsRuleOf stride) rules.now meant →
        result ≡ holds_in row.now (slice_get meant number) }
{
    has_body(row, stride, &rules[number as usize])
}

/// Whether one of the rules with these numbers has its body.
fn is_caused(row: &[u32], stride: usize, rules: &[TimedRule<'_>], numbers: &[u32]) -> bool
    requires rules { AllByRecursion (IsRuleIn (length row.now) stride) rules.now }
    requires numbers { AllByRecursion (λ number. number < length rules.now) numbers.now }
    ensures { (meant : List timed.TimedRule) → AllZip (IsRuleOf stride) rules.now meant →
        result ≡ list_any (λ number. holds_in row.now (slice_get meant number)) numbers.now }
{
    for number in numbers {
        if has_body_at(row, stride, rules, *number) {
            return true;
        }
    }
    false
}

/// Whether the constant of a position has no two values, or a rule causes the one that the row has there.
fn is_caused_at(theory: &Theory<'_>, row: &[u32], stride: usize, position: usize) -> bool
    requires rules { AllByRecursion (IsRuleIn (length row.now) stride) theory.now.rules }
    requires atoms { AreAtoms theory.now.signature theory.now.horizon row.now }
    requires within { position < length row.now }
    ensures { (meant : List timed.TimedRule) → AllZip (IsRuleOf stride) theory.now.rules meant →
        result ≡ is_settled theory.now.signature meant row.now position }
{
    let place = position as u64;
    if theory.sig().domain_size(place) <= 1 {
        return true;
    }
    let numbers = theory.completion(place, row[position]);
    is_caused(row, stride, theory.rules(), numbers)
}

/// Whether each position with two values or more has a cause for its value.
fn has_causes(theory: &Theory<'_>, row: &[u32], stride: usize) -> bool
    requires rules { AllByRecursion (IsRuleIn (length row.now) stride) theory.now.rules }
    requires atoms { AreAtoms theory.now.signature theory.now.horizon row.now }
    ensures { (meant : List timed.TimedRule) → AllZip (IsRuleOf stride) theory.now.rules meant →
        result ≡ list_all (is_settled theory.now.signature meant row.now) (upto (length row.now)) }
{
    for position in 0..row.len() {
        if !is_caused_at(theory, row, stride, position) {
            return false;
        }
    }
    true
}

/// Whether a row is a path of the transition system, of as many transitions as the horizon of the theory says. It takes no memory but
/// the stack, and reads each step as a part of the row.
pub fn is_history(theory: &Theory<'_>, row: &[u32]) -> bool
    requires row { (d : Description) → IsSignatureOfDescription d theory.now.signature →
        IsRow (sizes_at d theory.now.horizon) row.now }
    ensures { (d : Description) →
        IsTheoryOf theory.now d → IsTrue result ↔ IsPath d theory.now.horizon row.now }
{
    positions_have_sizes();
    models_meet_completion();
    models_are_paths();
    let stride = stride(theory.sig());
    meets_rules(row, stride, theory.rules()) && has_causes(theory, row, stride)
}
