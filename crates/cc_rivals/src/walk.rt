//! The rules of a horizon in order, put into a draft.
ghost use Rattle.std.specs.Prelude.{◌≡◌, ◌≤◌, ◌<◌, [], ◌∷◌, ◌+◌, ℕ, flat_map, map, slice_get, Some, IfSome};
ghost use Rattle.std.specs.List.{AllByRecursion};
ghost use Rattle.std.specs.Option.{option_map};
ghost use Rattle.cc_defs.specs.Limits.{most_steps};
ghost use Rattle.cc_defs.specs.Rows.{IsRow};
ghost use Rattle.cc_defs.specs.Rules.{upto};
ghost use Rattle.cc_form.specs.Places.{position_sizes};
ghost use Rattle.cc_wide.specs.WideLists.{all_initial_wide, initial_wide};
ghost use Rattle.cc_rivals.specs.Making.{IsLawOver, initial_value, placed_at, rules_at_step, rules_for, rules_in};
ghost use Rattle.cc_rivals.specs.Putting.{Puts, put_rules};
ghost use Rattle.cc_rivals.specs.Wides.{AreWideLawsFor};

use crate::positions::stride;
use crate::putting::put_rule_of;
use crate::timed::{Placed, PlacedRule, rule_at};
use cc_defs::{Fault, Kind, Node, Sig};
use cc_form::Draft;
use cc_wide::WideGroundLaw;

/// The initial rule of a fluent and a value: the value is a cause of itself at step 0.
fn put_value(draft: &mut Draft, row: Option<&[u32]>, number: u32, value: u32) -> Result<(), Fault>
    requires size { (size : ℕ) × (slice_get draft.old.places number ≡ Some size) × (value < size) }
    requires row { IfSome row (λ row. IsRow draft.old.places row.now) }
    ensures { Puts draft.old draft.new result (λ sizes made.
        put_rules (option_map (λ row. row.now) row.entry) sizes made
        (initial_value number value ∷ [])) }
{
    let nodes = [Node::Atom {
        constant: number,
        value,
    }];
    let atom = Placed {
        first: 0,
        nodes: &nodes,
    };
    let rule = PlacedRule {
        head: atom,
        body: atom,
        after: None,
    };
    put_rule_of(draft, row, rule)
}

/// The initial rules of a simple fluent with so many values.
fn put_values(draft: &mut Draft, row: Option<&[u32]>, number: u32, size: u32) -> Result<(), Fault>
    requires size { slice_get draft.old.places number ≡ Some size }
    requires row { IfSome row (λ row. IsRow draft.old.places row.now) }
    ensures { Puts draft.old draft.new result (λ sizes made.
        put_rules (option_map (λ row. row.now) row.entry) sizes made
        (map (initial_value number) (upto size))) }
{
    for value in 0..size {
        put_value(draft, row, number, value)?;
    }
    Ok(())
}

/// The initial rules of a constant with so many values.
fn put_initial(
    draft: &mut Draft,
    row: Option<&[u32]>,
    kind: Kind,
    number: u32,
    size: u32,
) -> Result<(), Fault>
    requires size { slice_get draft.old.places number ≡ Some size }
    requires row { IfSome row (λ row. IsRow draft.old.places row.now) }
    ensures { Puts draft.old draft.new result (λ sizes made.
        put_rules (option_map (λ row. row.now) row.entry) sizes made
        (initial_wide kind number size)) }
{
    match kind {
        Kind::Simple => put_values(draft, row, number, size),
        Kind::Determined | Kind::Action => Ok(()),
    }
}

/// The initial rules.
fn put_all_initial(
    draft: &mut Draft,
    row: Option<&[u32]>,
    sig: &Sig,
    horizon: u32,
) -> Result<(), Fault>
    requires places { draft.old.places ≡ position_sizes sig.now horizon }
    requires row { IfSome row (λ row. IsRow draft.old.places row.now) }
    ensures { Puts draft.old draft.new result (λ sizes made.
        put_rules (option_map (λ row. row.now) row.entry) sizes made
        (all_initial_wide 0 sig.now.fluents)) }
{
    for number in 0..sig.fluents() {
        let size = sig.domain_size(u64::from(number));
        put_initial(draft, row, sig.constant(number).kind, number, size)?;
    }
    Ok(())
}

/// The rule of a law at a step, where it has one.
fn put_law(
    draft: &mut Draft,
    row: Option<&[u32]>,
    law: &WideGroundLaw<'_>,
    stride: u64,
    horizon: u32,
    step: u32,
) -> Result<(), Fault>
    requires step { step ≤ horizon }
    requires horizon { horizon ≤ most_steps }
    requires stride { stride ≤ 8589934592 }
    requires law { IsLawOver draft.old.places stride horizon step law.now }
    requires row { IfSome row (λ row. IsRow draft.old.places row.now) }
    ensures { Puts draft.old draft.new result (λ sizes made.
        put_rules (option_map (λ row. row.now) row.entry) sizes made
        (rules_in (placed_at stride horizon step law.now))) }
{
    match rule_at(law, stride, horizon, step) {
        Some(rule) => put_rule_of(draft, row, rule),
        None => Ok(()),
    }
}

/// The rules of laws at a step.
fn put_step(
    draft: &mut Draft,
    row: Option<&[u32]>,
    laws: &[WideGroundLaw<'_>],
    stride: u64,
    horizon: u32,
    step: u32,
) -> Result<(), Fault>
    requires step { step ≤ horizon }
    requires horizon { horizon ≤ most_steps }
    requires stride { stride ≤ 8589934592 }
    requires laws { AllByRecursion (IsLawOver draft.old.places stride horizon step) laws.now }
    requires row { IfSome row (λ row. IsRow draft.old.places row.now) }
    ensures { Puts draft.old draft.new result (λ sizes made.
        put_rules (option_map (λ row. row.now) row.entry) sizes made
        (rules_at_step stride laws.now horizon step)) }
{
    for law in laws {
        put_law(draft, row, law, stride, horizon, step)?;
    }
    Ok(())
}

/// The rules of laws at all steps.
fn put_steps(
    draft: &mut Draft,
    row: Option<&[u32]>,
    laws: &[WideGroundLaw<'_>],
    stride: u64,
    horizon: u32,
) -> Result<(), Fault>
    requires horizon { horizon ≤ most_steps }
    requires stride { stride ≤ 8589934592 }
    requires laws { (step : ℕ) → step ≤ horizon →
        AllByRecursion (IsLawOver draft.old.places stride horizon step) laws.now }
    requires row { IfSome row (λ row. IsRow draft.old.places row.now) }
    ensures { Puts draft.old draft.new result (λ sizes made.
        put_rules (option_map (λ row. row.now) row.entry) sizes made
        (flat_map (rules_at_step stride laws.now horizon) (upto (horizon + 1)))) }
{
    for step in 0..horizon + 1 {
        put_step(draft, row, laws, stride, horizon, step)?;
    }
    Ok(())
}

/// The rules of a horizon.
pub(crate) fn put_rules_of(
    draft: &mut Draft,
    row: Option<&[u32]>,
    sig: &Sig,
    laws: &[WideGroundLaw<'_>],
    horizon: u32,
) -> Result<(), Fault>
    requires horizon { horizon ≤ most_steps }
    requires laws { AreWideLawsFor sig.now laws.now }
    requires places { draft.old.places ≡ position_sizes sig.now horizon }
    requires row { IfSome row (λ row. IsRow draft.old.places row.now) }
    ensures { Puts draft.old draft.new result (λ sizes made.
        put_rules (option_map (λ row. row.now) row.entry) sizes made
        (rules_for sig.now laws.now horizon)) }
{
    put_all_initial(draft, row, sig, horizon)?;
    put_steps(draft, row, laws, stride(sig), horizon)
}
