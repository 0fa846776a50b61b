//! The check of a log of impossible atoms.
ghost use Rattle.std.specs.Prelude.{◌≡◌, ◌↔◌, ◌<◌, ◌≤◌, ◌∷◌, [], ℕ, List, IfErr, IfOk, IsTrue, MatchOption, None, OnOk, length, slice_get, Some, true};
ghost use Rattle.cc_arena.specs.GroundViews.{plain_ground_query};
ghost use Rattle.cc_check.specs.Silent.{IsSilentFault, IsSilentVerdict, IsSilentVerdictWithin};
ghost use Rattle.cc_defs.specs.Conditions.{IsSignatureOfDescription};
ghost use Rattle.cc_defs.specs.Description.{Description};
ghost use Rattle.cc_defs.specs.GroundLaws.{StandsForQuery};
ghost use Rattle.cc_defs.specs.Limits.{most_log_bytes, most_steps};
ghost use Rattle.cc_defs.specs.Refusals.{IsRefusedBy};
ghost use Rattle.cc_defs.specs.Resolved.{Query};
ghost use Rattle.cc_form.specs.Building.{count_refusal};
ghost use Rattle.cc_form.specs.Forms.{with_atom};
ghost use Rattle.cc_form.specs.Queries.{IsQueryAt};
ghost use Rattle.cc_silent.specs.Sought.{IsAtomAt};
ghost use Rattle.cc_silent.specs.SureLogs.{IsAtomHeading, RefutesAtoms, as_silent, sure_subject};
ghost use Rattle.cc_silent.specs.SureParts.{HasAtom, HasNoPart, IsPart};
ghost use Rattle.cc_theory.specs.Theories.{AreLawsFor, AreLawsOf};

use crate::parts::{is_tried, last_number};
use crate::sure_verdict::SureVerdict;
use cc_arena::{GroundQuery, Laws};
use cc_check::theorems::silent_sections_have_no_rows;
use cc_check::{Silent, judge_silent, number_at};
use cc_defs::theorems::positions_have_sizes;
use cc_defs::{Fault, OutOfMemory, Sig};
use cc_form::Form;
use cc_form::theorems::lists_tell_histories;
use cc_lists::form_at;
use std::alloc::Global;
use std::marker::Model;

/// The heading of a section: an atom by its horizon, its position and the index of its value.
#[derive(Clone, Copy)]
pub struct AtomHeading {
    pub horizon: u32,
    pub position: u32,
    pub value: u32,
}

/// What the atoms of a log are of.
#[derive(Drop)]
struct Atoms<'a> {
    sig: &'a Sig,
    laws: &'a Laws<'a>,
    query: &'a GroundQuery<'a>,
}

impl<'a> Model for Atoms<'a> {
    ghost use Rattle.cc_arena.specs.GroundViews.{plain_ground_query};
    ghost use Rattle.cc_silent.specs.SureParts.{AtomsView, AreAtoms};

    ghost Value = { AtomsView };

    ghost view = { λ atoms. record {
      signature = atoms.sig.now;
      laws = atoms.laws.now;
      query = plain_ground_query atoms.query.now;
    } };

    ghost invariant = { λ atoms. AreAtoms (record {
      signature = atoms.sig.now;
      laws = atoms.laws.now;
      query = plain_ground_query atoms.query.now;
    }) };
}

/// What stands behind the letter of a heading and a space.
fn behind_letter(text: &[u8]) -> Option<&[u8]>
    ensures { MatchOption result ((behind : List ℕ) →
        text.now ≡ 97 ∷ 32 ∷ behind → ⊥) (λ behind. text.now ≡ 97 ∷ 32 ∷ behind.now) }
{
    let [b'a', b' ', behind @ ..] = text else {
        return None;
    };
    Some(behind)
}

/// What stands behind a space.
fn behind_space(text: &[u8]) -> Option<&[u8]>
    ensures { MatchOption result
        ((behind : List ℕ) → text.now ≡ 32 ∷ behind → ⊥) (λ behind. text.now ≡ 32 ∷ behind.now) }
{
    let [b' ', behind @ ..] = text else {
        return None;
    };
    Some(behind)
}

/// The number that a text begins with, and what stands behind the space behind it.
fn number_and_space(text: &[u8]) -> Option<(u32, &[u8])>
    ensures { MatchOption result (HasNoPart text.now) (λ read. IsPart text.now read.0 read.1.now) }
{
    let Some((number, rest)) = number_at(text) else {
        return None;
    };
    let Some(behind) = behind_space(rest) else {
        return None;
    };
    Some((number, behind))
}

/// What a text, with its line feed, says as the heading of an atom.
fn heading_of(text: &[u8]) -> Option<AtomHeading>
    ensures { MatchOption result ((heading : AtomHeading) →
        IsAtomHeading text.now heading → ⊥) (IsAtomHeading text.now) }
{
    let Some(numbers) = behind_letter(text) else {
        return None;
    };
    let Some((horizon, behind)) = number_and_space(numbers) else {
        return None;
    };
    let Some((position, last)) = number_and_space(behind) else {
        return None;
    };
    let Some(value) = last_number(last) else {
        return None;
    };
    Some(AtomHeading {
        horizon,
        position,
        value,
    })
}

/// Whether a horizon has an atom.
fn is_atom(sig: &Sig, heading: &AtomHeading) -> bool
    ensures { (d : Description) → IsSignatureOfDescription d sig.now →
        IsTrue result ↔ IsAtomAt d heading.now.horizon heading.now.position heading.now.value }
{
    positions_have_sizes();
    let position = u64::from(heading.position);
    position < sig.positions(heading.horizon) && heading.value < sig.domain_size(position)
}

/// How many values a position has, where the axioms have it.
fn size_at(form: &Form, position: u64) -> Option<u32>
    ensures { result ≡ slice_get form.now.sizes position }
{
    form.sizes().get(position as usize).copied()
}

/// The axioms with that of an atom, where they have it.
fn form_with(alloc: Global, form: Form, position: u32, value: u32) -> Result<Form, Fault>
    ensures made { HasAtom form position value →
        IfOk result (λ made. made ≡ with_atom form position value) }
    ensures within { HasAtom form position value →
        OnOk result (count_refusal (with_atom form position value).clauses ≡ None) }
    ensures refused { HasAtom form position value →
        IfErr result (IsRefusedBy (count_refusal (with_atom form position value).clauses)) }
{
    match size_at(&form, u64::from(position)) {
        Some(size) => {
            if value < size {
                return form.with_atom(alloc, u64::from(position), value);
            }
            Ok(form)
        }
        None => Ok(form),
    }
}

impl<'a> Silent for Atoms<'a> {
    type Heading = AtomHeading;

    ghost use Rattle.std.specs.Prelude.{◌≤◌};
    ghost use Rattle.cc_defs.specs.Description.{Description};
    ghost use Rattle.cc_defs.specs.Resolved.{Query};
    ghost use Rattle.cc_silent.specs.SureLogs.{sure_subject};
    ghost use Rattle.cc_silent.specs.SureParts.{AreAtomsOf};

    ghost Of = { Description × Query };

    ghost Is = { λ atoms of. AreAtomsOf atoms of.0 of.1 };

    ghost subject = { λ of. sure_subject of.0 of.1 };

    ghost can_form = { λ atoms heading.
        (atoms.query.lo ≤ heading.horizon) × (heading.horizon ≤ atoms.query.hi) };

    fn header(&self) -> &[u8] {
        b"ccalc sure 1\n".as_slice()
    }

    fn read(&self, _alloc: Global, text: &[u8]) -> Result<Option<AtomHeading>, OutOfMemory> {
        Ok(heading_of(text))
    }

    fn is_right(&self, _before: u32, heading: &AtomHeading) -> bool {
        is_tried(self.query, heading.horizon) && is_atom(self.sig, heading)
    }

    fn closes(&self, _heading: &AtomHeading) -> bool {
        false
    }

    fn may_stay_open(&self) -> bool {
        true
    }

    fn form(&self, alloc: Global, heading: &AtomHeading) -> Result<Form, Fault> {
        let form = form_at(
            alloc,
            self.sig,
            self.laws,
            self.query,
            None,
            heading.horizon,
            true,
        )?;
        form_with(alloc, form, heading.position, heading.value)
    }
}

/// What a checker says of the bytes of a log of impossible atoms: that it is accepted where each section is right, has no block and
/// ends with `empty`, under the heading of an atom of a horizon of the range. A heading may come twice, and there may be no section.
/// Refuses the first limit that the clauses of a section pass which has right sections before it (14).
pub fn check_sure(
    alloc: Global,
    sig: &Sig,
    laws: &Laws<'_>,
    query: &GroundQuery<'_>,
    bytes: &[u8],
) -> Result<SureVerdict, Fault>
    requires laws { AreLawsFor sig.now laws.now }
    requires ordered { query.now.lo ≤ query.now.hi }
    requires most { query.now.hi ≤ most_steps }
    requires steps { (horizon : ℕ) → query.now.lo ≤ horizon →
        horizon ≤ query.now.hi → IsQueryAt sig.now horizon (plain_ground_query query.now) }
    requires few { length bytes.now ≤ most_log_bytes }
    ensures verdict { (d : Description) (q : Query) →
        AreLawsOf sig.now laws.now d → StandsForQuery (plain_ground_query query.now) d q →
        IfOk result (λ found. IsSilentVerdict (sure_subject d q) bytes.now (as_silent found)) }
    ensures within { (d : Description) (q : Query) →
        AreLawsOf sig.now laws.now d → StandsForQuery (plain_ground_query query.now) d q →
        IfOk result (λ found. IsSilentVerdictWithin (sure_subject d q) bytes.now (as_silent found)) }
    ensures refused { (d : Description) (q : Query) →
        AreLawsOf sig.now laws.now d → StandsForQuery (plain_ground_query query.now) d q →
        IfErr result (IsSilentFault (sure_subject d q) bytes.now) }
    ensures refutes { (d : Description) (q : Query) → AreLawsOf sig.now laws.now d → StandsForQuery
        (plain_ground_query query.now) d q →
        IfOk result (λ found. RefutesAtoms d q bytes.now (as_silent found)) }
{
    silent_sections_have_no_rows();
    lists_tell_histories();
    let verdict = judge_silent(alloc, &Atoms { sig, laws, query }, bytes)?;
    Ok(SureVerdict::from(verdict))
}
