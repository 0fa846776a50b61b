//! What no clause says of logs of silent sections: that they are accepted, and refused, while there is memory.
ghost use Rattle.std.specs.Prelude.{◌≡◌, ◌↔◌, ◌<◌, ◌≤◌, Bool, IfErr, IfOk, IsTrue, MatchOption, None, OnOk, length};
ghost use Rattle.cc_check.specs.Silent.{IsUnread, SilentSubject};
ghost use Rattle.cc_defs.specs.Refusals.{IsRefusedBy};
ghost use Rattle.cc_arena.specs.GroundViews.{plain_ground_query};
ghost use Rattle.cc_defs.specs.GroundLaws.{StandsForQuery};
ghost use Rattle.cc_form.specs.Queries.{IsKeyAt, IsQueryAt};
ghost use Rattle.cc_theory.specs.Theories.{AreLawsFor, AreLawsOf};
ghost use Rattle.cc_tests_clauses.specs.Digits.{axioms_behind, digits, no_description, no_question, only_row};

use crate::check::{no_laws, no_query, no_signature};
use cc_arena::{GroundQuery, Laws};
use cc_check::{Silent, SilentVerdict, judge_silent, theorems};
use cc_defs::{Cause, Fault, Key, OutOfMemory, Row, Sig, is_digit_byte};
use cc_form::{Form, clauses};
use cc_theory::Theory;
use std::alloc::Global;

// Headings of one digit, over clauses that no row meets; a right one is below 9, and 8 closes the log.
#[derive(Drop)]
struct Digits {
    may_stay_open: bool,
}

// The digit that a text is, with a line feed.
fn digit_of(text: &[u8]) -> Option<u32>
    ensures { (stays : Bool) →
        MatchOption result (IsUnread (digits stays) text.now) ((digits stays).Reads text.now) }
{
    let [digit, last] = text else {
        return None;
    };
    if *last != b'\n' || !is_digit_byte(*digit) {
        return None;
    }
    Some(u32::from(*digit - 48))
}

fn only_key(alloc: Global) -> Key
    ensures { result ≡ only_row }
{
    Key {
        horizon: 0,
        row: Row::of(Vec::new(alloc)),
    }
}

// The clauses of a description without constants, whose row is to lie behind a key.
fn clauses_after(
    alloc: Global,
    sig: &Sig,
    laws: &Laws<'_>,
    query: &GroundQuery<'_>,
    key: &Key,
) -> Result<Form, Fault>
    requires for_laws { AreLawsFor sig.now laws.now }
    requires of_laws { AreLawsOf sig.now laws.now no_description }
    requires query { IsQueryAt sig.now 0 (plain_ground_query query.now) }
    requires stands { StandsForQuery (plain_ground_query query.now) no_description no_question }
    requires fits { IsKeyAt sig.now 0 key.now }
    requires key { key.now ≡ only_row }
    ensures made { IfOk result (λ form. form ≡ axioms_behind) }
    ensures refused { IfErr result (IsRefusedBy None) }
{
    let theory = Theory::at(alloc, sig, laws, 0)?;
    clauses(alloc, &theory, query, false, Some(key))
}

// No row lies behind the only one.
pub(crate) fn clauses_behind(alloc: Global) -> Result<Form, Fault>
    ensures made { IfOk result (λ form. form ≡ axioms_behind) }
    ensures refused { IfErr result (IsRefusedBy None) }
{
    let sig = no_signature(alloc)?;
    let laws = no_laws(alloc);
    let query = no_query(alloc);
    let key = only_key(alloc);
    clauses_after(alloc, &sig, &laws, &query, &key)
}

impl Silent for Digits {
    type Heading = u32;

    ghost use Rattle.std.specs.Prelude.{◌≡◌, Bool};

    ghost Of = { Bool };

    ghost Is = { λ kind of. kind.may_stay_open ≡ of };

    ghost subject = { digits };

    ghost can_form = { λ _ heading. Unit {0} };

    fn header(&self) -> &[u8] {
        b"digits\n".as_slice()
    }

    fn read(&self, _alloc: Global, text: &[u8]) -> Result<Option<u32>, OutOfMemory> {
        Ok(digit_of(text))
    }

    fn is_right(&self, _before: u32, heading: &u32) -> bool {
        *heading < 9
    }

    fn closes(&self, heading: &u32) -> bool {
        *heading == 8
    }

    fn may_stay_open(&self) -> bool {
        self.may_stay_open
    }

    fn form(&self, alloc: Global, heading: &u32) -> Result<Form, Fault> {
        let _digit = *heading;
        clauses_behind(alloc)
    }
}

fn judged(alloc: Global, may_stay_open: bool, text: &str) -> Result<SilentVerdict, Fault>
    requires { length text.now ≤ 100 }
{
    judge_silent(alloc, &Digits { may_stay_open }, text.as_bytes())
}

fn is_accepted(alloc: Global, may_stay_open: bool, text: &str, count: u32) -> bool
    requires { length text.now ≤ 100 }
{
    match judged(alloc, may_stay_open, text) {
        Ok(verdict) => verdict == SilentVerdict::Accepted { sections: count },
        Err(_) => false,
    }
}

fn is_refused(alloc: Global, may_stay_open: bool, text: &str, line: u32, cause: Cause) -> bool
    requires { length text.now ≤ 100 }
{
    match judged(alloc, may_stay_open, text) {
        Ok(verdict) => verdict == SilentVerdict::Refused { line, cause },
        Err(_) => false,
    }
}

#[test]
fn logs_are_accepted(rt: HostRuntime) {
    for (text, count) in [
        ("digits\n", 0),
        ("digits\n0\nd 0 1 1 2 0\ne empty\n", 1),
        (
            "digits\n3\nd 0 1 1 2 0\ne empty\n3\nd 0 1 1 2 0\ne empty\n",
            2,
        ),
    ] {
        if text.len() <= 100 {
            assert!(rt; is_accepted(rt.alloc(), true, text, count), "{text}");
        }
    }
}

#[test]
fn logs_are_refused(rt: HostRuntime) {
    for (text, line, cause) in [
        ("", 1, Cause::Header),
        ("digits", 1, Cause::Header),
        ("ccalc log 1\n", 1, Cause::Header),
        ("digits\n10\n", 2, Cause::Form),
        ("digits\nh 0\n", 2, Cause::Section),
        ("digits\n9\ne spent\n", 2, Cause::Section),
        ("digits\n0\n", 3, Cause::Section),
        ("digits\n0\nb\ne empty\n", 3, Cause::Section),
        ("digits\n0\ne spent\n", 3, Cause::NotRefuted),
        ("digits\n0\ne found\nh 0\n", 3, Cause::NotRefuted),
        ("digits\n0\nd 0 1 1 2 0\ne empty\nh 0\n", 5, Cause::Section),
        ("digits\n0\nd 0 1 1 2 0\ne empty\n1", 5, Cause::Form),
        ("digits\n0\nd 0 1 2 2 0\ne empty\n", 3, Cause::Pivot),
    ] {
        if text.len() <= 100 {
            assert!(rt; is_refused(rt.alloc(), true, text, line, cause), "{text}");
        }
    }
}

#[test]
fn nothing_stands_behind_a_closed_log(rt: HostRuntime) {
    for may_stay_open in [false, true] {
        let text = "digits\n3\nd 0 1 1 2 0\ne empty\n8\nd 0 1 1 2 0\ne empty\n";
        if text.len() <= 100 {
            assert!(rt; is_accepted(rt.alloc(), may_stay_open, text, 2));
        }
        let text = "digits\n8\nd 0 1 1 2 0\ne empty\n3\nd 0 1 1 2 0\ne empty\n";
        if text.len() <= 100 {
            assert!(rt; is_refused(rt.alloc(), may_stay_open, text, 5, Cause::Section));
        }
    }
}

#[test]
fn a_log_is_to_be_closed(rt: HostRuntime) {
    for (text, line) in [("digits\n", 2), ("digits\n3\nd 0 1 1 2 0\ne empty\n", 5)] {
        if text.len() <= 100 {
            assert!(rt;
                is_refused(rt.alloc(), false, text, line, Cause::Section),
                "{text}"
            );
        }
    }
}

#[test]
fn a_law_is_called(_rt: HostRuntime) {
    theorems::silent_sections_have_no_rows();
}
