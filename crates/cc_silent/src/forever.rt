//! The check of a log of an induction over horizons.
ghost use Rattle.std.specs.Prelude.{◌≡◌, ◌↔◌, ◌≤◌, ◌∷◌, [], ℕ, List, IfErr, IfOk, IsTrue, MatchOption, length};
ghost use Rattle.cc_arena.specs.GroundViews.{plain_ground_query};
ghost use Rattle.cc_check.specs.Silent.{IsSilentFault, IsSilentVerdict, IsSilentVerdictWithin};
ghost use Rattle.cc_defs.specs.Description.{Description};
ghost use Rattle.cc_defs.specs.GroundLaws.{StandsForQuery};
ghost use Rattle.cc_defs.specs.Limits.{most_log_bytes, most_steps};
ghost use Rattle.cc_defs.specs.Resolved.{Query};
ghost use Rattle.cc_form.specs.Queries.{IsQueryAt};
ghost use Rattle.cc_silent.specs.ForeverLogs.{IsForeverHeading, IsInTurnFrom, ProvesNever, as_silent, forever_subject, is_step as is_of_step};
ghost use Rattle.cc_silent.specs.declared.forever.ForeverHeading.TheVariants as headings;
ghost use Rattle.cc_theory.specs.Theories.{AreLawsFor, AreLawsOf};

use crate::forever_verdict::ForeverVerdict;
use crate::parts::last_number;
use cc_arena::{GroundQuery, Laws, Terms};
use cc_check::theorems::silent_sections_have_no_rows;
use cc_check::{Silent, judge_silent};
use cc_defs::{Fault, LimitAt, OutOfMemory, Sig};
use cc_form::Form;
use cc_form::theorems::lists_tell_histories;
use cc_induction::Induction;
use cc_induction::theorems::{induction_holds, queries_are_asked_later, steps_are_asked};
use cc_lists::form_at;
use cc_theory::theorems::laws_give_rules;
use std::alloc::Global;
use std::marker::Model;

/// The heading of a section: a horizon that has no history, or the step of an induction over so many.
#[derive(Clone, Copy)]
pub enum ForeverHeading {
    Horizon(u32),
    Steps(u32),
}

/// The induction of a log: what it is of, and the queries of its steps.
#[derive(Drop)]
struct Inductive<'a> {
    sig: &'a Sig,
    laws: &'a Laws<'a>,
    query: &'a GroundQuery<'a>,
    induction: &'a Induction<'a>,
}

impl<'a> Model for Inductive<'a> {
    ghost use Rattle.std.specs.Prelude.{◌≡◌};
    ghost use Rattle.cc_arena.specs.GroundViews.{plain_ground_query};
    ghost use Rattle.cc_silent.specs.ForeverParts.{InductionView, IsInductive};

    ghost Value = { InductionView };

    ghost view = { λ inductive. record {
      signature = inductive.sig.now;
      laws = inductive.laws.now;
      query = plain_ground_query inductive.query.now;
    } };

    ghost invariant = { λ inductive. IsInductive (record {
      signature = inductive.sig.now;
      laws = inductive.laws.now;
      query = plain_ground_query inductive.query.now;
    }) × (inductive.induction.now ≡ plain_ground_query inductive.query.now) };
}

/// What stands behind the letter of the heading of a horizon and a space.
fn behind_horizon(text: &[u8]) -> Option<&[u8]>
    ensures { MatchOption result ((behind : List ℕ) →
        text.now ≡ 104 ∷ 32 ∷ behind → ⊥) (λ behind. text.now ≡ 104 ∷ 32 ∷ behind.now) }
{
    let [b'h', b' ', behind @ ..] = text else {
        return None;
    };
    Some(behind)
}

/// What stands behind the letter of the heading of a step and a space.
fn behind_step(text: &[u8]) -> Option<&[u8]>
    ensures { MatchOption result ((behind : List ℕ) →
        text.now ≡ 105 ∷ 32 ∷ behind → ⊥) (λ behind. text.now ≡ 105 ∷ 32 ∷ behind.now) }
{
    let [b'i', b' ', behind @ ..] = text else {
        return None;
    };
    Some(behind)
}

/// The horizon whose heading a text is.
fn horizon_of(text: &[u8]) -> Option<u32>
    ensures { MatchOption result
        ((horizon : ℕ) → IsForeverHeading text.now (headings.Horizon horizon) → ⊥)
        (λ horizon. IsForeverHeading text.now (headings.Horizon horizon)) }
{
    let Some(behind) = behind_horizon(text) else {
        return None;
    };
    last_number(behind)
}

/// How many steps the induction is over whose heading a text is.
fn steps_of(text: &[u8]) -> Option<u32>
    ensures { MatchOption result
        ((steps : ℕ) → IsForeverHeading text.now (headings.Steps steps) → ⊥)
        (λ steps. IsForeverHeading text.now (headings.Steps steps)) }
{
    let Some(behind) = behind_step(text) else {
        return None;
    };
    last_number(behind)
}

/// What a text, with its line feed, says as a heading.
fn heading_of(text: &[u8]) -> Option<ForeverHeading>
    ensures { MatchOption result ((heading : ForeverHeading) →
        IsForeverHeading text.now heading → ⊥) (IsForeverHeading text.now) }
{
    match horizon_of(text) {
        Some(horizon) => Some(ForeverHeading::Horizon(horizon)),
        None => match steps_of(text) {
            Some(steps) => Some(ForeverHeading::Steps(steps)),
            None => None,
        },
    }
}

/// Whether a horizon, or a number of steps, is within the limit.
fn is_within(number: u32) -> bool
    ensures { IsTrue result ↔ (number ≤ most_steps) }
{
    number <= LimitAt::Horizon.number()
}

/// Whether a section stands in its turn behind so many: the horizons from a least one on, and then the step over as many.
fn is_in_turn(least: u32, before: u32, heading: ForeverHeading) -> bool
    ensures { IsTrue result ↔ IsInTurnFrom least before heading }
{
    match heading {
        ForeverHeading::Horizon(horizon) => {
            u64::from(horizon) == u64::from(least) + u64::from(before) && is_within(horizon)
        }
        ForeverHeading::Steps(steps) => steps == before && 1 <= steps && is_within(steps),
    }
}

fn is_step(heading: ForeverHeading) -> bool
    ensures { result ≡ is_of_step heading }
{
    match heading {
        ForeverHeading::Horizon(_) => false,
        ForeverHeading::Steps(_) => true,
    }
}

impl<'a> Silent for Inductive<'a> {
    type Heading = ForeverHeading;

    ghost use Rattle.cc_defs.specs.Description.{Description};
    ghost use Rattle.cc_defs.specs.Resolved.{Query};
    ghost use Rattle.cc_silent.specs.ForeverLogs.{forever_subject};
    ghost use Rattle.cc_silent.specs.ForeverParts.{CanBeFormed, IsInductionOf};

    ghost Of = { Description × Query };

    ghost Is = { λ inductive of. IsInductionOf inductive of.0 of.1 };

    ghost subject = { λ of. forever_subject of.0 of.1 };

    ghost can_form = { CanBeFormed };

    fn header(&self) -> &[u8] {
        b"ccalc forever 1\n".as_slice()
    }

    fn read(&self, _alloc: Global, text: &[u8]) -> Result<Option<ForeverHeading>, OutOfMemory> {
        Ok(heading_of(text))
    }

    fn is_right(&self, before: u32, heading: &ForeverHeading) -> bool {
        is_in_turn(self.query.lo, before, *heading)
    }

    fn closes(&self, heading: &ForeverHeading) -> bool {
        is_step(*heading)
    }

    fn may_stay_open(&self) -> bool {
        false
    }

    fn form(&self, alloc: Global, heading: &ForeverHeading) -> Result<Form, Fault> {
        queries_are_asked_later();
        match *heading {
            ForeverHeading::Horizon(horizon) => form_at(
                alloc, self.sig, self.laws, self.query, None, horizon, true,
            ),
            ForeverHeading::Steps(steps) => {
                let step = self.induction.step(alloc, steps)?;
                form_at(alloc, self.sig, self.laws, &step, None, steps, true)
            }
        }
    }
}

/// What a checker says of the bytes of a log of an induction over horizons: that it is accepted where its sections are those of the
/// horizons from the query's least one on, in turn, and behind them that of the step over as many, each right, without a block and
/// ended by `empty`. Then no horizon has a history from the least one on, without an end. How many horizons there are is not bounded
/// by the query's range. Refuses the first limit that the rules or clauses of a section pass which has right sections before it (14).
pub fn check_forever<'a>(
    alloc: Global,
    sig: &Sig,
    laws: &Laws<'_>,
    query: &GroundQuery<'a>,
    terms: &Terms<'a>,
    bytes: &[u8],
) -> Result<ForeverVerdict, Fault>
    requires laws { AreLawsFor sig.now laws.now }
    requires asked { IsQueryAt sig.now query.now.lo (plain_ground_query query.now) }
    requires few { length bytes.now ≤ most_log_bytes }
    ensures verdict { (d : Description) (q : Query) →
        AreLawsOf sig.now laws.now d → StandsForQuery (plain_ground_query query.now) d q →
        IfOk result (λ found. IsSilentVerdict (forever_subject d q) bytes.now (as_silent found)) }
    ensures within { (d : Description) (q : Query) →
        AreLawsOf sig.now laws.now d → StandsForQuery (plain_ground_query query.now) d q →
        IfOk result (λ found. IsSilentVerdictWithin (forever_subject d q) bytes.now (as_silent found)) }
    ensures refused { (d : Description) (q : Query) →
        AreLawsOf sig.now laws.now d → StandsForQuery (plain_ground_query query.now) d q →
        IfErr result (IsSilentFault (forever_subject d q) bytes.now) }
    ensures proves { (d : Description) (q : Query) →
        AreLawsOf sig.now laws.now d → StandsForQuery (plain_ground_query query.now) d q →
        IfOk result (λ found. ProvesNever d q (as_silent found)) }
{
    silent_sections_have_no_rows();
    lists_tell_histories();
    laws_give_rules();
    queries_are_asked_later();
    steps_are_asked();
    induction_holds();
    let induction = Induction::of(alloc, query, terms)?;
    let inductive = Inductive {
        sig,
        laws,
        query,
        induction: &induction,
    };
    let verdict = judge_silent(alloc, &inductive, bytes)?;
    Ok(ForeverVerdict::from(verdict))
}
