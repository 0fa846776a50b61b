//! Whether a row is a candidate, told without its clause list.
ghost use Rattle.std.specs.Prelude.{◌≡◌, ◌≤◌, ◌↔◌, ◌+◌, ◌&&◌, ℕ, List, flat_map, IfSome, IsTrue};
ghost use Rattle.std.specs.List.{AllByRecursion, list_all};
ghost use Rattle.cc_arena.specs.GroundViews.{plain_ground_query};
ghost use Rattle.cc_defs.specs.GroundLaws.{StandsForQuery};
ghost use Rattle.cc_defs.specs.Histories.{step_of};
ghost use Rattle.cc_defs.specs.Limits.{most_steps};
ghost use Rattle.cc_defs.specs.Resolved.{Query};
ghost use Rattle.cc_defs.specs.Rows.{IsRow};
ghost use Rattle.cc_defs.specs.Rules.{upto};
ghost use Rattle.cc_form.specs.Places.{position_sizes};
ghost use Rattle.cc_form.specs.Queries.{IsQueryAt};
ghost use Rattle.cc_rivals.specs.Making.{IsLawOver, IsPlacedOver, IsRuleOver, placed_at, placed_condition as condition_placed, rules_at_step, rules_for, rules_in, timed_of};
ghost use Rattle.cc_rivals.specs.Meets.{claim_at, claim_denied, conditions_at, query_met, rule_met, rules_met};
ghost use Rattle.cc_rivals.specs.Wides.{AreWideLawsFor, AreWideLawsOf};
ghost use Rattle.cc_theory.specs.Making.{stride_of};
ghost use Rattle.cc_wide.specs.WideLaws.{WideDescription, frame};
ghost use Rattle.cc_wide.specs.WideLists.{holds_in};
ghost use Rattle.cc_wide.specs.WideRules.{IsCandidate};

use crate::positions::stride;
use crate::putting::{is_true, meets_parts};
use crate::timed::{PlacedRule, placed_condition, rule_at};
use cc_arena::theorems::terms_mean_formulas;
use cc_arena::{GroundCondition, GroundQuery};
use cc_defs::Sig;
use cc_defs::theorems::positions_have_sizes;
use cc_wide::{WideGround, WideGroundLaw};

/// Whether a row has an index for each position of a horizon, below the number of its values.
fn has_indexes(sig: &Sig, horizon: u32, row: &[u32]) -> bool
    ensures { IsTrue result ↔ IsRow (position_sizes sig.now horizon) row.now }
{
    positions_have_sizes();
    if row.len() as u64 != sig.positions(horizon) {
        return false;
    }
    for position in 0..row.len() {
        if row[position] >= sig.domain_size(position as u64) {
            return false;
        }
    }
    true
}

/// Whether a row meets a rule: its head is true there, or a part of it is not.
fn meets_rule(row: &[u32], rule: PlacedRule<'_>) -> bool
    requires { (sizes : List ℕ) × IsRow sizes row.now × IsRuleOver sizes rule }
    ensures { result ≡ rule_met row.now (timed_of rule.entry) }
{
    !meets_parts(row, rule) || is_true(row, rule.head)
}

/// Whether a row meets the rule of a law at a step, where it has one.
fn meets_law(row: &[u32], law: &WideGroundLaw<'_>, stride: u64, horizon: u32, step: u32) -> bool
    requires step { step ≤ horizon }
    requires horizon { horizon ≤ most_steps }
    requires stride { stride ≤ 8589934592 }
    requires law { (sizes : List ℕ) × IsRow sizes row.now
        × IsLawOver sizes stride horizon step law.now }
    ensures { result ≡ rules_met row.now (rules_in (placed_at stride horizon step law.now)) }
{
    match rule_at(law, stride, horizon, step) {
        Some(rule) => meets_rule(row, rule),
        None => true,
    }
}

/// Whether a row meets the rules of laws at a step.
fn meets_step(row: &[u32], laws: &[WideGroundLaw<'_>], stride: u64, horizon: u32, step: u32) -> bool
    requires step { step ≤ horizon }
    requires horizon { horizon ≤ most_steps }
    requires stride { stride ≤ 8589934592 }
    requires laws { (sizes : List ℕ) × IsRow sizes row.now
        × AllByRecursion (IsLawOver sizes stride horizon step) laws.now }
    ensures { result ≡ rules_met row.now (rules_at_step stride laws.now horizon step) }
{
    for law in laws {
        if !meets_law(row, law, stride, horizon, step) {
            return false;
        }
    }
    true
}

/// Whether a row meets the rules of laws at all steps.
fn meets_steps(row: &[u32], laws: &[WideGroundLaw<'_>], stride: u64, horizon: u32) -> bool
    requires horizon { horizon ≤ most_steps }
    requires stride { stride ≤ 8589934592 }
    requires laws { (sizes : List ℕ) × IsRow sizes row.now × ((step : ℕ) → step ≤ horizon →
        AllByRecursion (IsLawOver sizes stride horizon step) laws.now) }
    ensures { result ≡ rules_met row.now
        (flat_map (rules_at_step stride laws.now horizon) (upto (horizon + 1))) }
{
    for step in 0..horizon + 1 {
        if !meets_step(row, laws, stride, horizon, step) {
            return false;
        }
    }
    true
}

/// Whether conditions are true in a row.
fn meets_conditions(
    row: &[u32],
    conditions: &[GroundCondition<'_>],
    stride: u64,
    horizon: u32,
) -> bool
    requires stride { stride ≤ 8589934592 }
    requires fit { (sizes : List ℕ) × IsRow sizes row.now
        × AllByRecursion (λ condition. (step_of condition.at horizon ≤ most_steps)
        × IsPlacedOver sizes (condition_placed stride horizon condition)) conditions.now }
    ensures { result ≡ list_all (holds_in row.now) (conditions_at stride horizon conditions.now) }
{
    for condition in conditions {
        if !is_true(row, placed_condition(*condition, stride, horizon)) {
            return false;
        }
    }
    true
}

/// Whether a claim is false in a row. Where there is none, it is.
fn denies_claim(row: &[u32], claim: Option<GroundCondition<'_>>, stride: u64, horizon: u32) -> bool
    requires stride { stride ≤ 8589934592 }
    requires fits { (sizes : List ℕ) × IsRow sizes row.now
        × IfSome claim (λ condition. (step_of condition.at horizon ≤ most_steps)
        × IsPlacedOver sizes (condition_placed stride horizon condition)) }
    ensures { result ≡ claim_denied row.now (claim_at stride horizon claim.entry) }
{
    match claim {
        Some(condition) => !is_true(row, placed_condition(condition, stride, horizon)),
        None => true,
    }
}

/// Whether a row meets the rules of a horizon. The initial ones are met by each row.
fn meets_rules(sig: &Sig, laws: &[WideGroundLaw<'_>], horizon: u32, row: &[u32]) -> bool
    requires laws { AreWideLawsFor sig.now laws.now }
    requires horizon { horizon ≤ most_steps }
    requires row { IsRow (position_sizes sig.now horizon) row.now }
    ensures { result ≡ rules_met row.now (rules_for sig.now laws.now horizon) }
{
    meets_steps(row, laws, stride(sig), horizon)
}

/// Whether a row meets a query.
fn meets_query(sig: &Sig, query: &GroundQuery<'_>, horizon: u32, row: &[u32]) -> bool
    requires horizon { horizon ≤ most_steps }
    requires query { IsQueryAt sig.now horizon (plain_ground_query query.now) }
    requires row { IsRow (position_sizes sig.now horizon) row.now }
    ensures { result ≡ query_met (stride_of sig.now) horizon query.now row.now }
{
    let stride = stride(sig);
    meets_conditions(row, query.conditions.items(), stride, horizon)
        && denies_claim(row, query.claim, stride, horizon)
}

/// Whether a row of a horizon meets its rules and the query.
fn meets_all(
    sig: &Sig,
    laws: &[WideGroundLaw<'_>],
    query: &GroundQuery<'_>,
    horizon: u32,
    row: &[u32],
) -> bool
    requires laws { AreWideLawsFor sig.now laws.now }
    requires horizon { horizon ≤ most_steps }
    requires query { IsQueryAt sig.now horizon (plain_ground_query query.now) }
    requires row { IsRow (position_sizes sig.now horizon) row.now }
    ensures { result ≡ (rules_met row.now (rules_for sig.now laws.now horizon)
        && query_met (stride_of sig.now) horizon query.now row.now) }
{
    meets_rules(sig, laws, horizon, row) && meets_query(sig, query, horizon, row)
}

/// Whether a row is a candidate of a query at a horizon: it has an index for each position, below the number of its values; the
/// head of each rule whose parts it meets is true in it; and it meets the query. It takes no memory but the stack.
pub fn is_candidate(
    sig: &Sig,
    laws: &WideGround<'_>,
    query: &GroundQuery<'_>,
    horizon: u32,
    row: &[u32],
) -> bool
    requires laws { AreWideLawsFor sig.now laws.now }
    requires horizon { horizon ≤ most_steps }
    requires query { IsQueryAt sig.now horizon (plain_ground_query query.now) }
    ensures candidate { (w : WideDescription) (q : Query) → AreWideLawsOf sig.now laws.now w →
        StandsForQuery (plain_ground_query query.now) (frame w) q →
        IsTrue result ↔ IsCandidate w q horizon row.now }
    ensures row { IsTrue result → IsRow (position_sizes sig.now horizon) row.now }
{
    terms_mean_formulas();
    has_indexes(sig, horizon, row) && meets_all(sig, laws.laws(), query, horizon, row)
}
