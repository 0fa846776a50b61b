//! The calls between a description and a run, each with memory enough: what tables have, laws with heads of any form, the events of a
//! search, and whether and why a history is one.
ghost use Rattle.std.specs.Prelude.{◌≡◌, ◌≢◌, ◌<◌, ◌≤◌, ◌↔◌, IfOk, IfSome, IsTrue, false, length, true};
ghost use Rattle.cc_arena.specs.GroundViews.{plain_ground_query};
ghost use Rattle.cc_defs.specs.Conditions.{IsSignatureOfDescription};
ghost use Rattle.cc_defs.specs.Description.{Description, sizes_at};
ghost use Rattle.cc_defs.specs.Paths.{IsPath};
ghost use Rattle.cc_defs.specs.Rows.{IsRow};
ghost use Rattle.cc_defs.specs.declared.event.Ending.{Ending as EndingSeen};
ghost use Rattle.cc_defs.specs.declared.event.Event.TheVariants as events;
ghost use Rattle.cc_describe.specs.declared.heads.Heads.TheVariants as heads;
ghost use Rattle.cc_describe.specs.Describing.{AsksFormulas, HasForms, SaysAll};
ghost use Rattle.cc_list.specs.Asking.{AreSearchable};
ghost use Rattle.cc_query.specs.Lefts.{left_of};
ghost use Rattle.cc_query.specs.Sessions.{HasMore};
ghost use Rattle.cc_sorts.specs.Tables.{IsSignatureFor};
ghost use Rattle.cc_syntax.specs.Views.{AreReadable};
ghost use Rattle.cc_text.specs.Views.{token_views};
ghost use Rattle.cc_theory.specs.Theories.{AreLawsFor, AreLawsOf};

use crate::runs::{TWO_FLUENTS, described_text};
use bumpalo::Bump;
use cc_arena::{GroundQuery, Laws, Terms};
use cc_defs::{Event, Fault, LogLine, OutOfMemory, Sig, Text, Token};
use cc_describe::Described;
use cc_laws::expand_wide;
use cc_list::{Prepared, laws_of, prepare, query_asked};
use cc_print::{event_text, history_text, key_text};
use cc_query::{Ask, Session, is_row};
use cc_sorts::Table;
use cc_syntax::{discard, parse};
use cc_text::Tokens;
use cc_theory::Theory;
use cc_why::{Cause, Causes, is_history, why};
use cc_wide::{WideBase, WideLaws};
use std::alloc::Global;
use std::test::Fail;

// What is told of a line of the log; of a derived one nothing, since which they are is the search's own.
fn word_of(line: &LogLine) -> &'static str {
    match line {
        LogLine::Section { .. } => "heading\n",
        LogLine::Derived { .. } => "",
        LogLine::Block { .. } => "block\n",
        LogLine::End(_) => "end\n",
    }
}

fn push_event(
    alloc: Global,
    told: &mut String,
    event: &Event,
    row: &[u32],
) -> Result<(), OutOfMemory> {
    match event {
        Event::Log(line) => told.push_str(word_of(line))?,
        Event::History { horizon, .. } => {
            told.push_str(event_text(alloc, event)?.text())?;
            told.push_str(key_text(alloc, *horizon, row)?.text())?;
            told.push_str("\n")?;
        }
        _ => told.push_str(event_text(alloc, event)?.text())?,
    }
    Ok(())
}

fn is_last(event: &Event) -> bool
    ensures { result ≡ false → (ending : EndingSeen) → event.now ≢ events.Ended ending }
{
    match event {
        Event::Ended(_) => true,
        Event::Log(_) => false,
        Event::History { .. } => false,
        Event::Counterexample { .. } => false,
        Event::NoHistory { .. } => false,
        Event::NoConditions { .. } => false,
        Event::Holds { .. } => false,
    }
}

// The next event, and whether more are to come.
fn tell_next(alloc: Global, session: &mut Session<'_>, told: &mut String) -> Result<bool, Fault>
    requires { HasMore session.old }
    ensures { IfOk result (λ more. more ≡ true →
        HasMore session.new × (left_of session.new < left_of session.old)) }
{
    let event = session.next()?;
    let pushed = push_event(alloc, told, &event, session.row());
    let last = is_last(&event);
    drop(event);
    pushed?;
    Ok(!last)
}

fn tell_all(alloc: Global, session: &mut Session<'_>) -> Result<String, Fault>
    requires { HasMore session.old }
{
    let mut told = String::new(alloc);
    'events: while tell_next(alloc, session, &mut told)? {}
    Ok(told)
}

fn told_of(
    alloc: Global,
    described: &Described,
    laws: &Laws<'_>,
    query: GroundQuery<'_>,
    ask: Ask,
) -> Result<String, Fault>
    requires searchable { AreSearchable described.now.sig laws.now
        (plain_ground_query query) ask.after }
    requires count { IfSome ask.count (λ most. 1 ≤ most) }
    requires budget { ask.budget ≤ 2000000 }
{
    let mut session = Session::new(alloc, &described.sig, laws, query, ask)?;
    tell_all(alloc, &mut session)
}

// What a search tells of a description's first query.
fn search_told(alloc: Global, described: &Described) -> Result<String, Fault>
    requires signature { IsSignatureFor described.now.table described.now.sig }
    requires forms { HasForms described.now }
    requires formulas { AsksFormulas described.now }
{
    let arena = Bump::new(alloc);
    let terms = Terms::new(&arena);
    let Prepared { laws, query, key } = prepare(alloc, described, None, None, &terms)?;
    let ask = Ask {
        count: None,
        budget: 200_000,
        after: key,
    };
    told_of(alloc, described, &laws, query, ask)
}

const TOLD: &str = "heading
horizon 0: history 1
0:0,0
block
horizon 0: history 2
0:0,1
block
horizon 0: history 3
0:1,0
block
horizon 0: history 4
0:1,1
block
end
horizon 0: complete, 4 listed
";

#[test]
fn searches_tell_their_events(rt: HostRuntime) -> Result<(), Fail> {
    let alloc = rt.alloc();
    let described = described_text(alloc, TWO_FLUENTS)?;
    let told = search_told(alloc, &described);
    drop(described);
    assert!(rt; told?.as_str() == TOLD);
    Ok(())
}

const LAMP: &str = ":- constants on :: inertialFluent; flip :: exogenousAction.
flip causes on if -on.
flip causes -on if on.
:- query maxstep :: 0..1; 0: -on; maxstep: on.";

// Whether a row is a history of one transition.
fn is_path(alloc: Global, sig: &Sig, laws: &Laws<'_>, row: &[u32]) -> Result<bool, Fault>
    requires laws { AreLawsFor sig.now laws.now }
    requires row { (d : Description) →
        IsSignatureOfDescription d sig.now → IsRow (sizes_at d 1) row.now }
    ensures { (d : Description) → AreLawsOf sig.now laws.now d →
        IfOk result (λ is. IsTrue is ↔ IsPath d 1 row.now) }
{
    let theory = Theory::at(alloc, sig, laws, 1)?;
    Ok(is_history(&theory, row))
}

// Why a row is a history of one transition; none where it is no history.
fn causes_over(
    alloc: Global,
    sig: &Sig,
    laws: &Laws<'_>,
    row: &[u32],
) -> Result<Option<Causes>, Fault>
    requires laws { AreLawsFor sig.now laws.now }
    requires of { (d : Description) × AreLawsOf sig.now laws.now d }
{
    if !is_row(sig, 1, row) {
        return Ok(None);
    }
    let is = is_path(alloc, sig, laws, row)?;
    if is {
        let causes = why(alloc, sig, laws, 1, row)?;
        return Ok(Some(causes));
    }
    Ok(None)
}

fn causes_of(alloc: Global, described: &Described, row: &[u32]) -> Result<Option<Causes>, Fault>
    requires signature { IsSignatureFor described.now.table described.now.sig }
    requires says { SaysAll heads.Definite described.now }
    requires forms { HasForms described.now }
{
    let arena = Bump::new(alloc);
    let terms = Terms::new(&arena);
    let laws = laws_of(alloc, described, &terms)?;
    causes_over(alloc, &described.sig, &laws, row)
}

// Whether a row is a history with these causes.
fn has_causes(
    alloc: Global,
    described: &Described,
    row: &[u32],
    wanted: &[Cause],
) -> Result<bool, Fault>
    requires signature { IsSignatureFor described.now.table described.now.sig }
    requires says { SaysAll heads.Definite described.now }
    requires forms { HasForms described.now }
{
    match causes_of(alloc, described, row)? {
        Some(causes) => Ok(causes.items() == wanted),
        None => Ok(false),
    }
}

fn has_no_causes(alloc: Global, described: &Described, row: &[u32]) -> Result<bool, Fault>
    requires signature { IsSignatureFor described.now.table described.now.sig }
    requires says { SaysAll heads.Definite described.now }
    requires forms { HasForms described.now }
{
    Ok(causes_of(alloc, described, row)?.is_none())
}

// It is dark at first; it is flipped, as it may be by the second law of its declarations; and the first law of flips puts it on.
#[test]
fn the_lamp_is_on_because_it_was_flipped(rt: HostRuntime) -> Result<(), Fail> {
    let alloc = rt.alloc();
    let described = described_text(alloc, LAMP)?;
    let wanted = [Cause::Initial, Cause::Law(1), Cause::Law(2)];
    let has = has_causes(alloc, &described, &[0, 1, 1], &wanted);
    let lacks = has_no_causes(alloc, &described, &[0, 0, 1]);
    drop(described);
    assert!(rt; has?);
    assert!(rt; lacks?);
    Ok(())
}

fn text_of(alloc: Global, described: &Described, row: &[u32]) -> Result<Text, OutOfMemory>
    requires { IsSignatureFor described.now.table described.now.sig }
{
    if !is_row(&described.sig, 1, row) {
        return Ok(Text::of(String::new(alloc)));
    }
    history_text(alloc, &described.table, &described.sig, 1, row)
}

#[test]
fn histories_are_written(rt: HostRuntime) -> Result<(), Fail> {
    let alloc = rt.alloc();
    let described = described_text(alloc, LAMP)?;
    let text = text_of(alloc, &described, &[0, 1, 1]);
    drop(described);
    assert!(rt; text?.text() == "0:\nACTIONS:  flip\n1:  on\n");
    Ok(())
}

// Whether two queries have the same range, and as many conditions and claims.
fn are_alike(one: &GroundQuery<'_>, other: &GroundQuery<'_>) -> bool {
    one.lo == other.lo
        && one.hi == other.hi
        && one.conditions.items().len() == other.conditions.items().len()
        && one.claim.is_some() == other.claim.is_some()
}

// Whether the lamp's query, from horizon 0 to 1 and with two conditions, is copied.
fn is_copied(alloc: Global, described: &Described) -> Result<bool, Fault>
    requires signature { IsSignatureFor described.now.table described.now.sig }
    requires formulas { AsksFormulas described.now }
{
    let arena = Bump::new(alloc);
    let terms = Terms::new(&arena);
    let query = query_asked(alloc, described, None, &terms)?;
    let copy = query.copy(alloc)?;
    Ok(are_alike(&query, &copy) && copy.hi == 1 && copy.conditions.items().len() == 2)
}

#[test]
fn queries_are_copied(rt: HostRuntime) -> Result<(), Fail> {
    let alloc = rt.alloc();
    let described = described_text(alloc, LAMP)?;
    let is = is_copied(alloc, &described);
    drop(described);
    assert!(rt; is?);
    Ok(())
}

const SORTS: &str = ":- sorts thing >> box. :- objects a :: thing; b, c :: box.";

// Whether the second object of a sort and of those below it has this name.
fn has_second(described: &Described, sort: &str, name: &str) -> bool {
    match described.table.sort(sort) {
        Some(number) if (number as usize) < described.table.sort_count() => {
            described.table.objects(number).get(1).copied() == described.table.object(name)
        }
        _ => false,
    }
}

#[test]
fn tables_have_the_objects_of_sorts(rt: HostRuntime) -> Result<(), Fail> {
    let described = described_text(rt.alloc(), SORTS)?;
    let thing = has_second(&described, "thing", "b");
    let inside = has_second(&described, "box", "c");
    drop(described);
    assert!(rt; thing);
    assert!(rt; inside);
    Ok(())
}

fn is_one_law(laws: &[WideBase], wanted: u32) -> bool {
    match laws {
        [WideBase::One(law)] => law.line == wanted,
        _ => false,
    }
}

// The laws of a statement, for the names of a description; the tree is let go by the crate that made it.
fn wide_laws_said(alloc: Global, table: &Table, tokens: &[Token<'_>]) -> Result<WideLaws, Fault>
    requires some { 0 < length tokens.now }
    requires are { AreReadable (token_views tokens.now) }
{
    match parse(alloc, 0, tokens) {
        Ok(statement) => {
            let laws = expand_wide(alloc, 0, table, &statement);
            discard(statement);
            laws
        }
        Err(fault) => Err(fault),
    }
}

// Whether a text is a law that stands whole, for the names of a description.
fn stands_whole(alloc: Global, described: &Described, bytes: &[u8]) -> Result<bool, Fault> {
    if bytes.len() > 1000 {
        return Ok(false);
    }
    let tokens = Tokens::read(alloc, 0, bytes)?;
    if tokens.count() != 1 {
        return Ok(false);
    }
    let laws = wide_laws_said(alloc, &described.table, tokens.statement(0))?;
    Ok(is_one_law(laws.items(), 2))
}

const EITHER: &[u8] = b"\ncaused p ++ q.";

#[test]
fn laws_with_other_heads_stand_whole(rt: HostRuntime) -> Result<(), Fail> {
    let alloc = rt.alloc();
    let described = described_text(alloc, TWO_FLUENTS)?;
    let stands = stands_whole(alloc, &described, EITHER);
    drop(described);
    assert!(rt; stands?);
    Ok(())
}
