//! How many rules a horizon has, counted up to one more than their limit.
ghost use Rattle.std.specs.Prelude.{◌≡◌, ◌≤◌, ℕ, length, min, true};
ghost use Rattle.cc_defs.specs.Limits.{most_rules, most_steps};
ghost use Rattle.cc_theory.specs.Making.{initial_of, all_initial, rules_for, turns};

use cc_arena::{GroundLaw, Laws};
use cc_defs::{Const, Kind, LawKind, LimitAt, Sig};

/// What counts stop at: one more than the limit of rules.
const MANY: usize = 8_000_001;

/// How many initial rules a fluent has.
fn initial_count(constant: &Const) -> usize
    ensures { (number : ℕ) →
        result ≡ length (initial_of constant.now.kind number (length constant.now.domain)) }
{
    match constant.kind {
        Kind::Simple => constant.domain.items().len(),
        Kind::Determined | Kind::Action => 0,
    }
}

/// How many initial rules there are.
fn all_initial_count(sig: &Sig) -> usize
    ensures { result ≡ min (length (all_initial 0 sig.now.fluents)) 8000001 }
{
    let mut count = 0;
    for number in 0..sig.fluents() {
        count = initial_count(sig.constant(number))
            .saturating_add(count)
            .min(MANY);
    }
    count
}

/// At how many steps of a horizon a law of a kind has a rule.
fn turns_of(kind: LawKind, horizon: u32) -> usize
    requires { horizon ≤ most_steps }
    ensures { result ≡ turns kind horizon }
{
    match kind {
        LawKind::Static => horizon as usize + 1,
        LawKind::ActionDynamic | LawKind::FluentDynamic => horizon as usize,
    }
}

/// How many rules there are.
pub(crate) fn rule_count(sig: &Sig, laws: &[GroundLaw<'_>], horizon: u32) -> usize
    requires { horizon ≤ most_steps }
    ensures { result ≡ min (length (rules_for sig.now laws.now horizon)) 8000001 }
{
    let mut count = all_initial_count(sig);
    for law in laws {
        count = turns_of(law.kind, horizon).saturating_add(count).min(MANY);
    }
    count
}

/// Whether a horizon has no more rules than their limit.
pub fn are_rules_few(sig: &Sig, laws: &Laws<'_>, horizon: u32) -> bool
    requires { horizon ≤ most_steps }
    ensures few { result ≡ true → length (rules_for sig.now laws.now horizon) ≤ most_rules }
    ensures all_few { length (rules_for sig.now laws.now horizon) ≤ most_rules → result ≡ true }
{
    rule_count(sig, laws.laws(), horizon) <= LimitAt::Rules.number() as usize
}
