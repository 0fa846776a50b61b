//! The engines of sure and general mode and the judges of their logs, over descriptions of two fluents, with memory enough.
ghost use Rattle.std.specs.Prelude.{◌≡◌, ◌≤◌, ℕ, IfOk, IsNone, true};
ghost use Rattle.cc_arena.specs.GroundViews.{plain_ground_query};
ghost use Rattle.cc_defs.specs.Limits.{most_steps};
ghost use Rattle.cc_describe.specs.Describing.{AsksFormulas, HasForms, HasWideForms};
ghost use Rattle.cc_form.specs.Queries.{IsQueryAt};
ghost use Rattle.cc_rivals.specs.Wides.{AreWideLawsFor};
ghost use Rattle.cc_sorts.specs.Tables.{IsSignatureFor};
ghost use Rattle.cc_sure.specs.SureEvents.{HasMoreEvents, IsEnd};
ghost use Rattle.cc_theory.specs.Theories.{AreLawsFor};

use crate::runs::{TWO_FLUENTS, described_text, one_file};
use bumpalo::Bump;
use cc_arena::{GroundQuery, Laws, Terms};
use cc_defs::{Event, Fault, LogLine, Node, Nums, Sig};
use cc_describe::{DescribeStop, Described, DescribedWide, Heads, describe_with};
use cc_general::{General, GeneralVerdict, check_general};
use cc_ground::theorems::declared_have_own_values;
use cc_list::{prepare, query_asked};
use cc_ports::MemoryDesk;
use cc_query::Ask;
use cc_sure::{Answer, Sure, SureEvent, SureVerdict, check_sure};
use cc_wide::WideGround;
use cc_wide_ground::ground_wide;
use std::alloc::Global;
use std::test::Fail;

// What is told at horizon 0: an example, with its number and its row; or a position, a value and the first example that has it.
enum Wanted {
    Example(u32, [u32; 2]),
    Possible(u64, u32, u32),
}

// Two fluents that are free: the least history is the first example, and the other value of each fluent has one of its own.
const TOLD: &[Wanted] = &[
    Wanted::Example(1, [0, 0]),
    Wanted::Example(2, [1, 0]),
    Wanted::Possible(0, 0, 1),
    Wanted::Possible(0, 1, 2),
    Wanted::Example(3, [0, 1]),
    Wanted::Possible(1, 0, 1),
    Wanted::Possible(1, 1, 3),
];

fn is_example(event: &SureEvent, number: u32, row: &[u32]) -> bool
    ensures { result ≡ true → IsEnd event.now → ⊥ }
{
    match event {
        SureEvent::Example {
            horizon,
            number: told,
            row: found,
        } => *horizon == 0 && *told == number && found.items() == row,
        _ => false,
    }
}

fn is_possible(event: &SureEvent, position: u64, value: u32, first: u32) -> bool
    ensures { result ≡ true → IsEnd event.now → ⊥ }
{
    match event {
        SureEvent::Answer {
            position: at,
            value: of,
            answer: Answer::Possible { example },
        } => *at == position && *of == value && *example == first,
        _ => false,
    }
}

fn is_wanted(event: &SureEvent, wanted: &Wanted) -> bool
    ensures { result ≡ true → IsEnd event.now → ⊥ }
{
    match wanted {
        Wanted::Example(number, row) => is_example(event, *number, row),
        Wanted::Possible(position, value, first) => is_possible(event, *position, *value, *first),
    }
}

// Whether the next event is the one that is wanted.
fn is_next(sure: &mut Sure<'_>, wanted: &Wanted) -> Result<bool, Fault>
    requires { HasMoreEvents sure.old }
    ensures { IfOk result (λ is. is ≡ true → HasMoreEvents sure.new) }
{
    let event = sure.next()?;
    let is = is_wanted(&event, wanted);
    drop(event);
    Ok(is)
}

fn is_ending(event: &SureEvent) -> bool {
    match event {
        SureEvent::Complete => true,
        _ => false,
    }
}

fn is_told_right(sure: &mut Sure<'_>) -> Result<bool, Fault>
    requires { HasMoreEvents sure.old }
{
    for wanted in TOLD {
        if !is_next(sure, wanted)? {
            return Ok(false);
        }
    }
    let event = sure.next()?;
    let is = is_ending(&event);
    drop(event);
    Ok(is)
}

fn sure_told_over(
    alloc: Global,
    sig: &Sig,
    laws: &Laws<'_>,
    query: &GroundQuery<'_>,
) -> Result<bool, Fault>
    requires laws { AreLawsFor sig.now laws.now }
    requires ordered { query.now.lo ≤ query.now.hi }
    requires most { query.now.hi ≤ most_steps }
    requires steps { (horizon : ℕ) → query.now.lo ≤ horizon →
        horizon ≤ query.now.hi → IsQueryAt sig.now horizon (plain_ground_query query.now) }
    requires claim { IsNone query.now.claim }
{
    let mut sure = Sure::new(alloc, sig, laws, query, 200_000);
    is_told_right(&mut sure)
}

fn is_sure_told_right(alloc: Global, described: &Described) -> Result<bool, Fault>
    requires signature { IsSignatureFor described.now.table described.now.sig }
    requires forms { HasForms described.now }
    requires formulas { AsksFormulas described.now }
{
    let arena = Bump::new(alloc);
    let terms = Terms::new(&arena);
    let prepared = prepare(alloc, described, None, None, &terms)?;
    match prepared.query.claim {
        Some(_) => Ok(false),
        None => sure_told_over(alloc, &described.sig, &prepared.laws, &prepared.query),
    }
}

#[test]
fn sure_mode_gives_examples_and_answers(rt: HostRuntime) -> Result<(), Fail> {
    let alloc = rt.alloc();
    let described = described_text(alloc, TWO_FLUENTS)?;
    let right = is_sure_told_right(alloc, &described);
    drop(described);
    assert!(rt; right?);
    Ok(())
}

// Whether a log is accepted that shows of no atom that it is impossible.
fn accepts_sure(alloc: Global, described: &Described, log: &[u8]) -> Result<bool, Fault>
    requires signature { IsSignatureFor described.now.table described.now.sig }
    requires forms { HasForms described.now }
    requires formulas { AsksFormulas described.now }
{
    if log.len() > 1000 {
        return Ok(false);
    }
    let arena = Bump::new(alloc);
    let terms = Terms::new(&arena);
    let prepared = prepare(alloc, described, None, None, &terms)?;
    let verdict = check_sure(alloc, &described.sig, &prepared.laws, &prepared.query, log)?;
    Ok(verdict == SureVerdict::Accepted { impossible: 0 })
}

const SURE_LOG: &[u8] = b"ccalc sure 1\n";

#[test]
fn sure_logs_may_have_no_section(rt: HostRuntime) -> Result<(), Fail> {
    let alloc = rt.alloc();
    let described = described_text(alloc, TWO_FLUENTS)?;
    let accepts = accepts_sure(alloc, &described, SURE_LOG);
    drop(described);
    assert!(rt; accepts?);
    Ok(())
}

const EITHER: &str = ":- constants p, q :: simpleFluent. caused p ++ q. :- query maxstep :: 0.";

// The description of a text, whose heads may be of any form.
fn described_wide(alloc: Global, text: &str) -> Result<DescribedWide, DescribeStop>
    ensures signature { IfOk result (λ said. IsSignatureFor said.described.table said.described.sig) }
    ensures forms { IfOk result HasWideForms }
    ensures formulas { IfOk result (λ said. AsksFormulas said.described) }
{
    let Ok(files) = one_file(alloc, text) else {
        return Err(DescribeStop::OutOfMemory);
    };
    let fails = Nums::of(Vec::new(alloc));
    let Ok(mut desk) = MemoryDesk::new(alloc, files, fails, 4096, [0, 0, 0]) else {
        return Err(DescribeStop::OutOfMemory);
    };
    let answer = describe_with(alloc, &mut desk, "f.cc", Heads::Any);
    drop(desk);
    answer
}

// The ground laws of a description, as candidates and rivals ask for them.
fn wide_laws_of<'a>(
    alloc: Global,
    said: &DescribedWide,
    terms: &Terms<'a>,
) -> Result<WideGround<'a>, Fault>
    requires signature { IsSignatureFor said.now.described.table said.now.described.sig }
    requires forms { HasWideForms said.now }
    ensures { IfOk result (λ laws. AreWideLawsFor said.now.described.sig laws) }
{
    declared_have_own_values();
    ground_wide(
        alloc,
        &said.described.table,
        &said.described.sig,
        &said.wide,
        terms,
    )
}

// Whether a term is that one of two constants has the value 1.
fn is_either(term: &[Node]) -> bool {
    match term {
        [
            Node::Atom {
                constant: 0,
                value: 1,
            },
            Node::Atom {
                constant: 1,
                value: 1,
            },
            Node::Any(2),
        ] => true,
        _ => false,
    }
}

fn is_ground(alloc: Global, said: &DescribedWide) -> Result<bool, Fault>
    requires signature { IsSignatureFor said.now.described.table said.now.described.sig }
    requires forms { HasWideForms said.now }
{
    let arena = Bump::new(alloc);
    let terms = Terms::new(&arena);
    let laws = wide_laws_of(alloc, said, &terms)?;
    match laws.laws() {
        [law] => Ok(is_either(law.head) && law.base == 0),
        _ => Ok(false),
    }
}

#[test]
fn heads_of_any_form_are_ground(rt: HostRuntime) -> Result<(), Fail> {
    let alloc = rt.alloc();
    let said = described_wide(alloc, EITHER)?;
    let is = is_ground(alloc, &said);
    drop(said);
    assert!(rt; is?);
    Ok(())
}

// Whether this is the heading of a section of horizon 0.
fn is_heading(event: &Event) -> bool {
    match event {
        Event::Log(LogLine::Section { horizon, .. }) => *horizon == 0,
        _ => false,
    }
}

// Whether the first section is that of this candidate.
fn general_begins_over(
    alloc: Global,
    sig: &Sig,
    laws: &WideGround<'_>,
    query: &GroundQuery<'_>,
    row: &[u32],
) -> Result<bool, Fault>
    requires laws { AreWideLawsFor sig.now laws.now }
    requires ordered { query.now.lo ≤ query.now.hi }
    requires most { query.now.hi ≤ most_steps }
    requires steps { (horizon : ℕ) → query.now.lo ≤ horizon →
        horizon ≤ query.now.hi → IsQueryAt sig.now horizon (plain_ground_query query.now) }
    requires claim { IsNone query.now.claim }
{
    let ask = Ask {
        count: None,
        budget: 200_000,
        after: None,
    };
    let mut general = General::new(alloc, sig, laws, query, ask)?;
    let event = general.next()?;
    let is = is_heading(&event);
    drop(event);
    Ok(is && general.row() == row)
}

fn general_begins_with(alloc: Global, said: &DescribedWide, row: &[u32]) -> Result<bool, Fault>
    requires signature { IsSignatureFor said.now.described.table said.now.described.sig }
    requires forms { HasWideForms said.now }
    requires formulas { AsksFormulas said.now.described }
{
    let arena = Bump::new(alloc);
    let terms = Terms::new(&arena);
    let laws = wide_laws_of(alloc, said, &terms)?;
    let query = query_asked(alloc, &said.described, None, &terms)?;
    if let Some(_) = query.claim {
        return Ok(false);
    }
    general_begins_over(alloc, &said.described.sig, &laws, &query, row)
}

// Two free fluents, and a law that one of them holds.
#[test]
fn general_mode_gives_the_first_history(rt: HostRuntime) -> Result<(), Fail> {
    let alloc = rt.alloc();
    let free = described_wide(alloc, TWO_FLUENTS)?;
    let least = general_begins_with(alloc, &free, &[0, 0]);
    drop(free);
    assert!(rt; least?);
    let either = described_wide(alloc, EITHER)?;
    let first = general_begins_with(alloc, &either, &[0, 1]);
    drop(either);
    assert!(rt; first?);
    Ok(())
}

// Whether a log is accepted that shows no history.
fn accepts_general(alloc: Global, said: &DescribedWide, log: &[u8]) -> Result<bool, Fault>
    requires signature { IsSignatureFor said.now.described.table said.now.described.sig }
    requires forms { HasWideForms said.now }
    requires formulas { AsksFormulas said.now.described }
{
    if log.len() > 1000 {
        return Ok(false);
    }
    let arena = Bump::new(alloc);
    let terms = Terms::new(&arena);
    let laws = wide_laws_of(alloc, said, &terms)?;
    let query = query_asked(alloc, &said.described, None, &terms)?;
    let verdict = check_general(alloc, &said.described.sig, &laws, &query, log)?;
    Ok(verdict == GeneralVerdict::Accepted { histories: 0 })
}

const GENERAL_LOG: &[u8] = b"ccalc general 1\n";

#[test]
fn general_logs_may_have_no_section(rt: HostRuntime) -> Result<(), Fail> {
    let alloc = rt.alloc();
    let said = described_wide(alloc, TWO_FLUENTS)?;
    let accepts = accepts_general(alloc, &said, GENERAL_LOG);
    drop(said);
    assert!(rt; accepts?);
    Ok(())
}
