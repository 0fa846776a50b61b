//! What no clause says: that calls succeed while there is memory, and what lines look like.
ghost use Rattle.std.specs.Prelude.{◌≡◌, ◌≤◌, IfOk, None, [], length};
ghost use Rattle.cc_arena.specs.GroundViews.{plain_ground_query};
ghost use Rattle.cc_defs.specs.LogTexts.{IsFormed};
ghost use Rattle.cc_form.specs.Queries.{IsQueryAt};
ghost use Rattle.cc_theory.specs.Theories.{AreLawsFor};

use cc_arena::{GroundQuery, Laws};
use cc_check::{CheckFault, Finding, Section, Sections, Verdict, check, find, put_line, theorems};
use cc_defs::{
    Cause, EndWord, Fault, List, Lit, Lits, LogLine, Nums, OutOfMemory, Row, Sig, Version,
};
use cc_form::{Form, clauses};
use cc_theory::Theory;
use std::alloc::Global;
use std::test::Fail;

fn heading(conditions: bool) -> LogLine
    ensures { IsFormed result }
{
    LogLine::Section {
        conditions,
        horizon: 12,
    }
}

fn derived(alloc: Global) -> Result<LogLine, OutOfMemory>
    ensures { IfOk result (λ line. IsFormed line) }
{
    let clause = Vec::from_slice(alloc, &[Lit::negative(3), Lit::positive(40)])?;
    let chain = Vec::from_slice(alloc, &[5, 2, 19])?;
    Ok(LogLine::Derived {
        clause: Lits::of(clause),
        chain: Nums::of(chain),
    })
}

fn block(alloc: Global) -> Result<LogLine, OutOfMemory>
    ensures { IfOk result (λ line. IsFormed line) }
{
    let row = Vec::from_slice(alloc, &[0, 3, 10])?;
    Ok(LogLine::Block { row: Row::of(row) })
}

#[test]
fn lines_are_written(rt: HostRuntime) -> Result<(), Fail> {
    let alloc = rt.alloc();
    assert!(rt; put_line(alloc, &heading(false))?.text() == "h 12\n");
    assert!(rt; put_line(alloc, &heading(true))?.text() == "w 12\n");
    assert!(rt; put_line(alloc, &derived(alloc)?)?.text() == "d -3 40 0 5 2 19 0\n");
    assert!(rt; put_line(alloc, &block(alloc)?)?.text() == "b 0 3 10\n");
    let end = LogLine::End(EndWord::Empty);
    assert!(rt; put_line(alloc, &end)?.text() == "e empty\n");
    Ok(())
}

const LOG: &str = "ccalc log 1\nw 0\nd 0 1 2 3 0\ne empty\nh 0\nb 0 1\ne empty\n";

pub(crate) fn is_at(section: &Section<'_>, conditions: bool, line: u32) -> bool {
    section.conditions == conditions && section.line == line && section.horizon == 0
}

// Whether a section comes next, and is at this line.
fn is_next_at(sections: &mut Sections<'_>, conditions: bool, line: u32) -> bool {
    match sections.next() {
        Some(section) => is_at(&section, conditions, line),
        None => false,
    }
}

// Whether a section is at this place among those that are ahead, and at this line.
fn is_at_place(sections: &Sections<'_>, place: usize, conditions: bool, line: u32) -> bool {
    place < sections.count() && is_at(&sections.section(place), conditions, line)
}

// Whether no section comes next.
pub(crate) fn is_last(sections: &mut Sections<'_>) -> bool {
    sections.next().is_none()
}

#[test]
fn logs_are_split(rt: HostRuntime) -> Result<(), Fail> {
    let bytes = LOG.as_bytes();
    if bytes.len() <= 1000 {
        match Sections::read(rt.alloc(), bytes) {
            Ok(mut sections) => {
                assert!(rt; sections.count() == 2);
                assert!(rt; is_at_place(&sections, 0, true, 2));
                assert!(rt; is_at_place(&sections, 1, false, 5));
                assert!(rt; is_next_at(&mut sections, true, 2));
                assert!(rt; sections.count() == 1);
                assert!(rt; is_at_place(&sections, 0, false, 5));
                assert!(rt; is_next_at(&mut sections, false, 5));
                assert!(rt; is_last(&mut sections));
            }
            Err(_) => assert!(rt; false),
        }
    }
    Ok(())
}

#[test]
fn logs_are_misread(rt: HostRuntime) {
    for (text, line, cause) in [
        ("", 1, Cause::Header),
        ("ccalc log 1", 1, Cause::Header),
        ("ccalc log 1\n", 2, Cause::Section),
        ("ccalc log 1\nh 0", 2, Cause::Form),
        ("ccalc log 1\nh 01\n", 2, Cause::Form),
        ("ccalc log 1\ne found\n", 2, Cause::Section),
    ] {
        let bytes = text.as_bytes();
        if bytes.len() <= 1000 {
            match Sections::read(rt.alloc(), bytes) {
                Ok(_) => assert!(rt; false, "{text}"),
                Err(fault) => assert!(rt; fault == CheckFault::Refused { line, cause }, "{text}"),
            }
        }
    }
}

// That of a description without constants.
pub(crate) fn no_signature(alloc: Global) -> Result<Sig, OutOfMemory>
    ensures { IfOk result (λ sig.
        sig ≡ record { fluents = []; actions = []; numbers = [] }) }
{
    Sig::of(alloc, Vec::new(alloc), Vec::new(alloc), Vec::new(alloc))
}

pub(crate) fn no_laws<'a>(alloc: Global) -> Laws<'a>
    ensures { result ≡ [] }
{
    Laws::of(Vec::new(alloc))
}

// It asks nothing.
pub(crate) fn no_query<'a>(alloc: Global) -> GroundQuery<'a>
    ensures conditions { (plain_ground_query result).conditions ≡ [] }
    ensures claim { (plain_ground_query result).claim ≡ None }
    ensures horizons { ((plain_ground_query result).lo ≡ 0) × ((plain_ground_query result).hi ≡ 0) }
{
    GroundQuery {
        lo: 0,
        hi: 0,
        conditions: List::of(Vec::new(alloc)),
        claim: None,
    }
}

// The clauses of a query at horizon 0.
fn clauses_at_start(
    alloc: Global,
    sig: &Sig,
    laws: &Laws<'_>,
    query: &GroundQuery<'_>,
) -> Result<Form, Fault>
    requires laws { AreLawsFor sig.now laws.now }
    requires query { IsQueryAt sig.now 0 (plain_ground_query query.now) }
{
    let theory = Theory::at(alloc, sig, laws, 0)?;
    clauses(alloc, &theory, query, false, None)
}

// There is no clause, and the only row is empty.
pub(crate) fn no_clauses(alloc: Global) -> Result<Form, Fault> {
    let sig = no_signature(alloc)?;
    let laws = no_laws(alloc);
    let query = no_query(alloc);
    clauses_at_start(alloc, &sig, &laws, &query)
}

// A section behind the heading on line 2.
fn section_of(text: &str) -> Section<'_>
    ensures bytes { result.bytes.now ≡ text.now }
    ensures line { result.line ≡ 2 }
{
    Section {
        version: Version::First,
        conditions: false,
        horizon: 0,
        line: 2,
        bytes: text.as_bytes(),
    }
}

fn checked(alloc: Global, text: &str) -> Result<Verdict, Fault>
    requires { length text.now ≤ 100 }
{
    let form = no_clauses(alloc)?;
    Ok(check(alloc, &form, &section_of(text))?)
}

fn found(alloc: Global, text: &str) -> Result<Finding, Fault>
    requires { length text.now ≤ 100 }
{
    let form = no_clauses(alloc)?;
    Ok(find(alloc, &form, &section_of(text))?)
}

const BLOCKED: &str = "b\ne empty\n";

#[test]
fn sections_are_checked(rt: HostRuntime) {
    let right = Verdict::Right {
        ending: EndWord::Empty,
        blocks: 1,
        line: 4,
    };
    match checked(rt.alloc(), BLOCKED) {
        Ok(verdict) => assert!(rt; verdict == right),
        Err(_) => assert!(rt; false),
    }
}

const TRAILED: &str = "e found\nh 1\n";

#[test]
fn lines_behind_an_end_are_found(rt: HostRuntime) {
    let trailed = Finding::Trailed {
        ending: EndWord::Found,
        line: 3,
        cause: Cause::Section,
    };
    match found(rt.alloc(), TRAILED) {
        Ok(finding) => assert!(rt; finding == trailed),
        Err(_) => assert!(rt; false),
    }
}

#[test]
fn laws_are_called(_rt: HostRuntime) {
    cc_log::theorems::lines_are_unique();
    cc_log::theorems::logs_tell_their_lines();
    theorems::misreads_are_verdicts();
    theorems::sections_give_verdicts();
}
