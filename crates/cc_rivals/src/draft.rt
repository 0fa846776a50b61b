//! Drafts of the clause lists, with the rules of a horizon, and what is put behind these.
ghost use Rattle.std.specs.Prelude.{◌≡◌, ◌≤◌, ◌<◌, map, None, Option, IfOk, IfErr, OnOk, IfSome, sum};
ghost use Rattle.std.specs.List.{AllByRecursion};
ghost use Rattle.std.specs.Option.{option_map, option_or};
ghost use Rattle.cc_defs.specs.declared.refusal.Fault.{Fault};
ghost use Rattle.cc_defs.specs.declared.refusal.Refusal.{Refusal};
ghost use Rattle.cc_defs.specs.Histories.{step_of};
ghost use Rattle.cc_defs.specs.Limits.{most_steps, most_variables};
ghost use Rattle.cc_defs.specs.Refusals.{IsRefusedBy};
ghost use Rattle.cc_defs.specs.Rows.{IsRow};
ghost use Rattle.cc_defs.specs.Sections.{row_denial};
ghost use Rattle.cc_form.specs.Drafts.{IsDraft, with_clause};
ghost use Rattle.cc_form.specs.Machine.{IsPast};
ghost use Rattle.cc_form.specs.Places.{position_sizes};
ghost use Rattle.cc_rivals.specs.Making.{IsPlacedOver, placed_condition as condition_placed, rules_for, rules_past, term_at};
ghost use Rattle.cc_rivals.specs.Putting.{Puts, nothing_put, put_claim, put_rules, put_terms};
ghost use Rattle.cc_rivals.specs.Wides.{AreWideLawsFor};

use crate::counting::few_rules;
use crate::positions::sizes_of;
use crate::putting::{put, put_opposite};
use crate::timed::placed_condition;
use crate::walk::put_rules_of;
use cc_arena::GroundCondition;
use cc_defs::{Fault, Lit, OutOfMemory, Sig};
use cc_form::Draft;
use cc_wide::WideGroundLaw;
use std::alloc::Global;

/// A draft with the rules of a horizon, whose number is within its limit.
fn with_rules(
    alloc: Global,
    sig: &Sig,
    laws: &[WideGroundLaw<'_>],
    horizon: u32,
    row: Option<&[u32]>,
) -> Result<Draft, Fault>
    requires horizon { horizon ≤ most_steps }
    requires laws { AreWideLawsFor sig.now laws.now }
    requires row { IfSome row (λ row. IsRow (position_sizes sig.now horizon) row.now) }
    ensures places { IfOk result (λ draft. draft.places ≡ position_sizes sig.now horizon) }
    ensures draft { IfOk result (λ draft. IsDraft (position_sizes sig.now horizon) draft
        (put_rules (option_map (λ row. row.now) row.entry) (position_sizes sig.now horizon)
        (nothing_put (position_sizes sig.now horizon)) (rules_for sig.now laws.now horizon))) }
    ensures refused { IfErr result (IsPast (put_rules (option_map (λ row. row.now) row.entry)
        (position_sizes sig.now horizon) (nothing_put (position_sizes sig.now horizon))
        (rules_for sig.now laws.now horizon)).last) }
{
    let sizes = sizes_of(alloc, sig, horizon)?;
    let mut draft = Draft::new(alloc, sizes)?;
    put_rules_of(&mut draft, row, sig, laws, horizon)?;
    Ok(draft)
}

/// A draft with the rules of a horizon. Refuses more of them than their limit before any is made.
pub(crate) fn begun(
    alloc: Global,
    sig: &Sig,
    laws: &[WideGroundLaw<'_>],
    horizon: u32,
    row: Option<&[u32]>,
) -> Result<Draft, Fault>
    requires horizon { horizon ≤ most_steps }
    requires laws { AreWideLawsFor sig.now laws.now }
    requires row { IfSome row (λ row. IsRow (position_sizes sig.now horizon) row.now) }
    ensures few { OnOk result (rules_past sig.now laws.now horizon ≡ None) }
    ensures places { IfOk result (λ draft. draft.places ≡ position_sizes sig.now horizon) }
    ensures draft { IfOk result (λ draft. IsDraft (position_sizes sig.now horizon) draft
        (put_rules (option_map (λ row. row.now) row.entry) (position_sizes sig.now horizon)
        (nothing_put (position_sizes sig.now horizon)) (rules_for sig.now laws.now horizon))) }
    ensures refused { (form : Option Refusal) → ((fault : Fault) → IsPast (put_rules
        (option_map (λ row. row.now) row.entry) (position_sizes sig.now horizon)
        (nothing_put (position_sizes sig.now horizon))
        (rules_for sig.now laws.now horizon)).last fault → IsRefusedBy form fault) →
        IfErr result (IsRefusedBy (option_or (rules_past sig.now laws.now horizon) form)) }
{
    few_rules(sig, laws, horizon)?;
    with_rules(alloc, sig, laws, horizon, row)
}

/// Puts there that each condition holds.
pub(crate) fn put_conditions(
    draft: &mut Draft,
    conditions: &[GroundCondition<'_>],
    stride: u64,
    horizon: u32,
) -> Result<(), Fault>
    requires stride { stride ≤ 8589934592 }
    requires fit { AllByRecursion (λ condition. (step_of condition.at horizon ≤ most_steps)
        × IsPlacedOver draft.old.places (condition_placed stride horizon condition))
        conditions.now }
    ensures { Puts draft.old draft.new result (λ sizes made. put_terms sizes made
        (map (λ condition. term_at (condition_placed stride horizon condition)) conditions.now)) }
{
    for condition in conditions {
        put(draft, placed_condition(*condition, stride, horizon))?;
    }
    Ok(())
}

/// Puts there that a claim does not hold.
pub(crate) fn deny_claim(
    draft: &mut Draft,
    claim: Option<GroundCondition<'_>>,
    stride: u64,
    horizon: u32,
) -> Result<(), Fault>
    requires stride { stride ≤ 8589934592 }
    requires fits { IfSome claim (λ condition. (step_of condition.at horizon ≤ most_steps)
        × IsPlacedOver draft.old.places (condition_placed stride horizon condition)) }
    ensures { Puts draft.old draft.new result (λ sizes made. put_claim sizes made (option_map
        (λ condition. term_at (condition_placed stride horizon condition)) claim.entry)) }
{
    match claim {
        Some(condition) => put_opposite(draft, placed_condition(condition, stride, horizon)),
        None => Ok(()),
    }
}

/// The clause that denies a row.
fn denial(alloc: Global, sizes: &[u32], row: &[u32]) -> Result<Vec<Lit>, OutOfMemory>
    requires row { IsRow sizes.now row.now }
    requires sizes { sum sizes.now ≤ most_variables }
    ensures { IfOk result (λ clause. clause.items ≡ row_denial sizes.now row.now) }
{
    let mut clause = Vec::new(alloc);
    let mut first = 1;
    for index in 0..sizes.len() {
        clause.push(Lit::negative(first + row[index]))?;
        first += sizes[index];
    }
    Ok(clause)
}

/// Puts there that a row is another one.
pub(crate) fn deny_row(
    alloc: Global,
    draft: &mut Draft,
    sizes: &[u32],
    row: &[u32],
) -> Result<(), Fault>
    requires places { draft.old.places ≡ sizes.now }
    requires row { IsRow sizes.now row.now }
    requires sizes { sum sizes.now < draft.old.last }
    requires last { draft.old.last ≤ most_variables }
    ensures { Puts draft.old draft.new result (λ sizes_there made.
        with_clause made (row_denial sizes.now row.now)) }
{
    let clause = denial(alloc, sizes, row)?;
    draft.clause(&clause)?;
    Ok(())
}
