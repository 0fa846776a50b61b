//! How many rules a horizon has, counted up to one more than their limit.
ghost use Rattle.std.specs.Prelude.{◌≡◌, ◌≤◌, ℕ, length, min, IfErr, OnOk};
ghost use Rattle.cc_defs.specs.Limits.{most_rules, most_steps};
ghost use Rattle.cc_defs.specs.Refusals.{IsRefusedBy};
ghost use Rattle.cc_theory.specs.Making.{turns};
ghost use Rattle.cc_wide.specs.WideLists.{all_initial_wide, initial_wide};
ghost use Rattle.cc_rivals.specs.Making.{rules_for, rules_past};

use cc_defs::{Const, Fault, Kind, LawKind, LimitAt, Refusal, Sig};
use cc_wide::WideGroundLaw;

/// What counts stop at: one more than the limit of rules.
const MANY: usize = 8_000_001;

/// How many initial rules a fluent has.
fn initial_count(constant: &Const) -> usize
    ensures { (number : ℕ) →
        result ≡ length (initial_wide constant.now.kind number (length constant.now.domain)) }
{
    match constant.kind {
        Kind::Simple => constant.domain.items().len(),
        Kind::Determined | Kind::Action => 0,
    }
}

/// How many initial rules there are.
fn all_initial_count(sig: &Sig) -> usize
    ensures { result ≡ min (length (all_initial_wide 0 sig.now.fluents)) 8000001 }
{
    let mut count = 0;
    for number in 0..sig.fluents() {
        count = initial_count(sig.constant(number))
            .saturating_add(count)
            .min(MANY);
    }
    count
}

/// At how many steps of a horizon a law of a kind has a rule.
fn turns_of(kind: LawKind, horizon: u32) -> usize
    requires { horizon ≤ most_steps }
    ensures { result ≡ turns kind horizon }
{
    match kind {
        LawKind::Static => horizon as usize + 1,
        LawKind::ActionDynamic | LawKind::FluentDynamic => horizon as usize,
    }
}

/// How many rules there are.
fn rule_count(sig: &Sig, laws: &[WideGroundLaw<'_>], horizon: u32) -> usize
    requires { horizon ≤ most_steps }
    ensures { result ≡ min (length (rules_for sig.now laws.now horizon)) 8000001 }
{
    let mut count = all_initial_count(sig);
    for law in laws {
        count = turns_of(law.kind, horizon).saturating_add(count).min(MANY);
    }
    count
}

/// Refuses more rules than their limit.
pub(crate) fn few_rules(sig: &Sig, laws: &[WideGroundLaw<'_>], horizon: u32) -> Result<(), Fault>
    requires { horizon ≤ most_steps }
    ensures few { OnOk result (length (rules_for sig.now laws.now horizon) ≤ most_rules) }
    ensures refused { IfErr result (IsRefusedBy (rules_past sig.now laws.now horizon)) }
{
    let count = rule_count(sig, laws, horizon);
    if count > LimitAt::Rules.number() as usize {
        return Err(Fault::Refused(Refusal::past(LimitAt::Rules)));
    }
    Ok(())
}
