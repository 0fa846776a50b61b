//! The check of a log of rivals.
ghost use Rattle.std.specs.Prelude.{◌≡◌, ◌↔◌, ◌≤◌, ◌∷◌, [], ℕ, List, IfErr, IfOk, IsTrue, MatchOption, length};
ghost use Rattle.cc_arena.specs.GroundViews.{plain_ground_query};
ghost use Rattle.cc_check.specs.Silent.{IsSilentFault, IsSilentVerdict, IsSilentVerdictWithin};
ghost use Rattle.cc_defs.specs.GroundLaws.{StandsForQuery};
ghost use Rattle.cc_defs.specs.Limits.{most_log_bytes, most_steps};
ghost use Rattle.cc_defs.specs.Resolved.{Query};
ghost use Rattle.cc_form.specs.Queries.{IsQueryAt};
ghost use Rattle.cc_silent.specs.GeneralLogs.{IsRivalsHeading, ProvesHistories, as_silent, general_subject};
ghost use Rattle.cc_silent.specs.RivalParts.{AreIndexes, IsHorizonAt, IsRowText};
ghost use Rattle.cc_rivals.specs.Wides.{AreWideLawsFor, AreWideLawsOf};
ghost use Rattle.cc_wide.specs.WideLaws.{WideDescription, frame};

use crate::general_verdict::GeneralVerdict;
use crate::parts::{is_line_feed, is_tried};
use cc_arena::GroundQuery;
use cc_check::theorems::silent_sections_have_no_rows;
use cc_check::{Silent, judge_silent, number_at};
use cc_defs::{Fault, Key, OutOfMemory, Row, Sig};
use cc_form::Form;
use cc_rivals::theorems::{histories_have_no_rivals, rival_lists_tell_rivals};
use cc_rivals::{candidates, is_candidate, rivals};
use cc_wide::WideGround;
use std::alloc::Global;
use std::marker::Model;

/// The laws and the query whose candidates a log names.
#[derive(Drop)]
struct Rivals<'a> {
    sig: &'a Sig,
    laws: &'a WideGround<'a>,
    query: &'a GroundQuery<'a>,
}

impl<'a> Model for Rivals<'a> {
    ghost use Rattle.cc_arena.specs.GroundViews.{plain_ground_query};
    ghost use Rattle.cc_silent.specs.RivalParts.{AreRivals, RivalsView};

    ghost Value = { RivalsView };

    ghost view = { λ rivals. record {
      signature = rivals.sig.now;
      laws = rivals.laws.now;
      query = plain_ground_query rivals.query.now;
    } };

    ghost invariant = { λ rivals. AreRivals (record {
      signature = rivals.sig.now;
      laws = rivals.laws.now;
      query = plain_ground_query rivals.query.now;
    }) };
}

/// What stands behind the letter of a heading and a space.
fn behind_letter(text: &[u8]) -> Option<&[u8]>
    ensures { MatchOption result ((behind : List ℕ) →
        text.now ≡ 117 ∷ 32 ∷ behind → ⊥) (λ behind. text.now ≡ 117 ∷ 32 ∷ behind.now) }
{
    let [b'u', b' ', behind @ ..] = text else {
        return None;
    };
    Some(behind)
}

/// What stands behind a colon.
fn behind_colon(text: &[u8]) -> Option<&[u8]>
    ensures { MatchOption result
        ((behind : List ℕ) → text.now ≡ 58 ∷ behind → ⊥) (λ behind. text.now ≡ 58 ∷ behind.now) }
{
    let [b':', behind @ ..] = text else {
        return None;
    };
    Some(behind)
}

/// What stands behind a comma.
fn behind_comma(text: &[u8]) -> Option<&[u8]>
    ensures { MatchOption result
        ((behind : List ℕ) → text.now ≡ 44 ∷ behind → ⊥) (λ behind. text.now ≡ 44 ∷ behind.now) }
{
    let [b',', behind @ ..] = text else {
        return None;
    };
    Some(behind)
}

/// The number that a text begins with, and what stands behind the colon behind it.
fn horizon_at(text: &[u8]) -> Option<(u32, &[u8])>
    ensures { MatchOption result ((number : ℕ) (behind : List ℕ) →
        IsHorizonAt text.now number behind → ⊥) (λ read. IsHorizonAt text.now read.0 read.1.now) }
{
    let Some((number, rest)) = number_at(text) else {
        return None;
    };
    let Some(behind) = behind_colon(rest) else {
        return None;
    };
    Some((number, behind))
}

/// The indexes, at least one, that are all of a text but its line feed.
fn indexes_of(alloc: Global, text: &[u8]) -> Result<Option<Vec<u32>>, OutOfMemory>
    ensures { IfOk result (λ row. MatchOption row ((row : List ℕ) →
        AreIndexes text.now row → ⊥) (λ row. AreIndexes text.now row.items)) }
{
    let mut row = Vec::new(alloc);
    let mut rest = text;
    loop {
        let Some((index, behind)) = number_at(rest) else {
            return Ok(None);
        };
        row.push(index)?;
        if is_line_feed(behind) {
            return Ok(Some(row));
        }
        let Some(next) = behind_comma(behind) else {
            return Ok(None);
        };
        rest = next;
    }
}

/// The row whose indexes are all of a text but its line feed.
fn row_of(alloc: Global, text: &[u8]) -> Result<Option<Row>, OutOfMemory>
    ensures { IfOk result (λ row. MatchOption row ((row : List ℕ) →
        IsRowText text.now row → ⊥) (IsRowText text.now)) }
{
    if is_line_feed(text) {
        return Ok(Some(Row::of(Vec::new(alloc))));
    }
    match indexes_of(alloc, text)? {
        Some(row) => Ok(Some(Row::of(row))),
        None => Ok(None),
    }
}

/// What a text, with its line feed, says as the heading of the rivals of a row.
fn heading_of(alloc: Global, text: &[u8]) -> Result<Option<Key>, OutOfMemory>
    ensures { IfOk result (λ heading. MatchOption heading ((key : Key) →
        IsRivalsHeading text.now key → ⊥) (IsRivalsHeading text.now)) }
{
    let Some(numbers) = behind_letter(text) else {
        return Ok(None);
    };
    let Some((horizon, indexes)) = horizon_at(numbers) else {
        return Ok(None);
    };
    match row_of(alloc, indexes)? {
        Some(row) => Ok(Some(Key { horizon, row })),
        None => Ok(None),
    }
}

impl<'a> Silent for Rivals<'a> {
    type Heading = Key;

    ghost use Rattle.cc_defs.specs.Resolved.{Query};
    ghost use Rattle.cc_silent.specs.GeneralLogs.{general_subject};
    ghost use Rattle.cc_silent.specs.RivalParts.{AreRivalsOf, IsRowKey};
    ghost use Rattle.cc_wide.specs.WideLaws.{WideDescription};

    ghost Of = { WideDescription × Query };

    ghost Is = { λ rivals of. AreRivalsOf rivals of.0 of.1 };

    ghost subject = { λ of. general_subject of.0 of.1 };

    ghost can_form = { IsRowKey };

    fn header(&self) -> &[u8] {
        b"ccalc general 1\n".as_slice()
    }

    fn read(&self, alloc: Global, text: &[u8]) -> Result<Option<Key>, OutOfMemory> {
        heading_of(alloc, text)
    }

    fn is_right(&self, _before: u32, key: &Key) -> bool {
        let row = key.row.items();
        is_tried(self.query, key.horizon)
            && is_candidate(self.sig, self.laws, self.query, key.horizon, row)
    }

    fn closes(&self, _key: &Key) -> bool {
        false
    }

    fn may_stay_open(&self) -> bool {
        true
    }

    fn form(&self, alloc: Global, key: &Key) -> Result<Form, Fault> {
        let listed = candidates(alloc, self.sig, self.laws, self.query, key.horizon)?;
        drop(listed);
        rivals(alloc, self.sig, self.laws, key.horizon, key.row.items())
    }
}

/// What a checker says of the bytes of a log of rivals: that it is accepted where each section is right, has no block and ends with
/// `empty`, under the heading of a candidate of a horizon of the range. Each row that an accepted log names is a history; that they
/// are all is not said. A heading may come twice, and there may be no section. Refuses the first limit that the rules or clauses of
/// the candidates of a heading's horizon, or of its row's rivals, pass where right sections stand before it (14).
pub fn check_general(
    alloc: Global,
    sig: &Sig,
    laws: &WideGround<'_>,
    query: &GroundQuery<'_>,
    bytes: &[u8],
) -> Result<GeneralVerdict, Fault>
    requires laws { AreWideLawsFor sig.now laws.now }
    requires ordered { query.now.lo ≤ query.now.hi }
    requires most { query.now.hi ≤ most_steps }
    requires steps { (horizon : ℕ) → query.now.lo ≤ horizon →
        horizon ≤ query.now.hi → IsQueryAt sig.now horizon (plain_ground_query query.now) }
    requires few { length bytes.now ≤ most_log_bytes }
    ensures verdict { (w : WideDescription) (q : Query) → AreWideLawsOf sig.now laws.now w →
        StandsForQuery (plain_ground_query query.now) (frame w) q →
        IfOk result (λ found. IsSilentVerdict (general_subject w q) bytes.now (as_silent found)) }
    ensures within { (w : WideDescription) (q : Query) → AreWideLawsOf sig.now laws.now w →
        StandsForQuery (plain_ground_query query.now) (frame w) q →
        IfOk result (λ found. IsSilentVerdictWithin (general_subject w q) bytes.now (as_silent found)) }
    ensures refused { (w : WideDescription) (q : Query) → AreWideLawsOf sig.now laws.now w →
        StandsForQuery (plain_ground_query query.now) (frame w) q →
        IfErr result (IsSilentFault (general_subject w q) bytes.now) }
    ensures proves { (w : WideDescription) (q : Query) → AreWideLawsOf sig.now laws.now w →
        StandsForQuery (plain_ground_query query.now) (frame w) q →
        IfOk result (λ found. ProvesHistories w q bytes.now (as_silent found)) }
{
    silent_sections_have_no_rows();
    histories_have_no_rivals();
    rival_lists_tell_rivals();
    let verdict = judge_silent(alloc, &Rivals { sig, laws, query }, bytes)?;
    Ok(GeneralVerdict::from(verdict))
}
