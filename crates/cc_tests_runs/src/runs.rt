//! What books of cases do not show: laws, other desks, desks that fail, long files, many nodes, and calls on values that are made
//! here. What is expected is taken from the description of the language.
ghost use Rattle.std.specs.Prelude.{◌<◌, IfOk};
ghost use Rattle.cc_describe.specs.declared.heads.Heads.TheVariants as heads;
ghost use Rattle.cc_describe.specs.Describing.{AsksFormulas, HasForms, SaysAll};
ghost use Rattle.cc_sorts.specs.Tables.{IsSignatureFor};

use bumpalo::Bump;
use cc_arena::Terms;
use cc_defs::{
    BaseLaw, Bytes, Fault, Formula, Head, Law, LawKind, LimitAt, List, Name, Nums, OutOfMemory,
    Term,
};
use cc_describe::{DescribeStop, Described, describe};
use cc_ground::ground;
use cc_laws::{classify, definite};
use cc_list::run_list;
use cc_ports::{Files, MemoryDesk, RealDesk, To};
use cc_run::{Status, run, run_still};
use cc_tell::end_run;
use std::alloc::Global;
use std::test::Fail;

pub(crate) const TWO_FLUENTS: &str = ":- constants p, q :: simpleFluent. :- query maxstep :: 0.";

const CLASH: &str = ":- constants p :: simpleFluent. caused p. caused -p. :- query maxstep :: 0.";

#[test]
fn laws_may_be_called() {
    cc_syntax::theorems::one_tree();
}

#[test]
fn endings_have_their_codes(rt: HostRuntime) {
    for (status, code) in [
        (Status::Right, 0),
        (Status::Not, 1),
        (Status::Refused, 2),
        (Status::Spent, 3),
        (Status::ReadFault, 4),
        (Status::WriteFault, 5),
        (Status::OutOfMemory, 6),
        (Status::Asked, 7),
    ] {
        assert!(rt; status.code() == code);
    }
}

/// A name and a text, with so many spaces behind it that it has this length, if it is shorter.
fn padded(
    alloc: Global,
    name: &str,
    text: &str,
    length: usize,
) -> Result<(Name, Bytes), OutOfMemory> {
    let mut bytes = Vec::with_capacity(alloc, length)?;
    bytes.extend_from_slice(text.as_bytes())?;
    for _ in bytes.len()..length {
        bytes.push(b' ')?;
    }
    Ok((Name::of(String::from_str(alloc, name)?), Bytes::of(bytes)))
}

/// A file with this name and text, and one of this name with so many spaces.
fn two_files(
    alloc: Global,
    first: (&str, &str),
    second: (&str, &str, usize),
) -> Result<Files, OutOfMemory> {
    let mut files = Vec::new(alloc);
    files.push(padded(alloc, first.0, first.1, 0)?)?;
    files.push(padded(alloc, second.0, second.1, second.2)?)?;
    Ok(Files::of(files))
}

pub(crate) fn one_file(alloc: Global, text: &str) -> Result<Files, OutOfMemory> {
    let mut files = Vec::new(alloc);
    files.push(padded(alloc, "f.cc", text, 0)?)?;
    Ok(Files::of(files))
}

fn all_words(alloc: Global, texts: &[&str]) -> Result<Vec<String>, OutOfMemory> {
    let mut words = Vec::new(alloc);
    for text in texts {
        words.push(String::from_str(alloc, text)?)?;
    }
    Ok(words)
}

fn words_of(alloc: Global, word: &str) -> Result<Vec<String>, OutOfMemory> {
    all_words(alloc, &[word])
}

#[test]
fn other_desks_run_too(rt: HostRuntime) -> Result<(), Fail> {
    let alloc = rt.alloc();
    let there = words_of(alloc, "f.cc")?;
    let absent = words_of(alloc, "absent.cc")?;
    assert!(rt; run_still(alloc, &there, one_file(alloc, TWO_FLUENTS)?) == Status::Right);
    assert!(rt; run_still(alloc, &absent, one_file(alloc, TWO_FLUENTS)?) == Status::Refused);
    std::fs::write(&rt, "f.cc", CLASH)?;
    let mut desk = RealDesk::new(rt.clone()?);
    assert!(rt; run(alloc, &there, &mut desk) == Status::Not);
    assert!(rt; run(alloc, &absent, &mut desk) == Status::ReadFault);
    Ok(())
}

/// A desk in memory with this text in a file, none of whose calls fails.
fn calm_desk(alloc: Global, text: &str) -> Result<MemoryDesk, OutOfMemory> {
    let fails = Nums::of(Vec::new(alloc));
    let room = [65536, 65536, 65536];
    MemoryDesk::new(alloc, one_file(alloc, text)?, fails, 4096, room)
}

/// Whether a desk in memory has this log behind a run of the words.
fn logs_in_memory(
    alloc: Global,
    words: &[String],
    text: &str,
    log: &[u8],
) -> Result<bool, OutOfMemory> {
    let mut desk = calm_desk(alloc, text)?;
    let status = run(alloc, words, &mut desk);
    let same = desk.written(To::Log) == log;
    drop(desk);
    Ok(status == Status::Right && same)
}

/// Whether list mode alone has the status of a run of the words, and gives what that gives.
fn says_the_same_alone(alloc: Global, texts: &[&str]) -> Result<bool, OutOfMemory> {
    let words = all_words(alloc, texts)?;
    let mut alone = calm_desk(alloc, TWO_FLUENTS)?;
    let mut desk = calm_desk(alloc, TWO_FLUENTS)?;
    let same = run_list(alloc, &words, &mut alone) == Some(run(alloc, &words, &mut desk));
    Ok(
        same && alone.written(To::Out) == desk.written(To::Out)
            && alone.written(To::Err) == desk.written(To::Err)
            && alone.written(To::Log) == desk.written(To::Log),
    )
}

#[test]
fn list_mode_alone_says_the_same(rt: HostRuntime) -> Result<(), Fail> {
    let alloc = rt.alloc();
    assert!(rt; says_the_same_alone(alloc, &["--log", "l", "f.cc"])?);
    assert!(rt; says_the_same_alone(alloc, &["--query", "none", "f.cc"])?);
    assert!(rt; says_the_same_alone(alloc, &["absent.cc"])?);
    assert!(rt; says_the_same_alone(alloc, &["--size", "1"])?);
    Ok(())
}

/// What a run gives to Err over a file of so many spaces.
fn err_of_spaces(alloc: Global, count: usize) -> Result<Vec<u8>, OutOfMemory> {
    let mut files = Vec::new(alloc);
    files.push(padded(alloc, "f.cc", "", count)?)?;
    let fails = Nums::of(Vec::new(alloc));
    let mut desk = MemoryDesk::new(alloc, Files::of(files), fails, 65536, [64, 64, 64])?;
    let words = words_of(alloc, "f.cc")?;
    let status = run(alloc, &words, &mut desk);
    let err = Vec::from_slice(alloc, desk.written(To::Err))?;
    drop(desk);
    if status == Status::Refused {
        Ok(err)
    } else {
        Ok(Vec::new(alloc))
    }
}

// A file may have 1,048,576 bytes, and not one more.
#[test]
fn files_have_a_limit(rt: HostRuntime) -> Result<(), Fail> {
    let alloc = rt.alloc();
    let within = err_of_spaces(alloc, 1_048_576)?;
    assert!(rt; within.as_slice() == b"ccalc: 15 NoQuery\n".as_slice());
    let past = err_of_spaces(alloc, 1_048_577)?;
    assert!(rt; past.as_slice() == b"ccalc: f.cc:1: 14 Limit file bytes 1048576\n".as_slice());
    Ok(())
}

// A log is begun at no file that was read, whatever its name, and that file stays as it was.
#[test]
fn a_log_is_no_file_that_was_read(rt: HostRuntime) -> Result<(), Fail> {
    let alloc = rt.alloc();
    std::fs::write(
        &rt,
        "g.cc",
        ":- include 'f.cc'. :- query label :: 1; maxstep :: 0.",
    )?;
    std::fs::write(&rt, "f.cc", ":- constants p :: simpleFluent.")?;
    std::fs::hard_link(&rt, "f.cc", "other")?;
    for name in ["f.cc", "./f.cc", "other", "g.cc"] {
        let mut desk = RealDesk::new(rt.clone()?);
        let words = all_words(alloc, &["--log", name, "g.cc"])?;
        assert!(rt; run(alloc, &words, &mut desk) == Status::WriteFault);
    }
    let text = std::fs::read_to_string(&rt, "f.cc")?;
    assert!(rt; text.as_str() == ":- constants p :: simpleFluent.");
    Ok(())
}

// A fault of reading is not taken for the end of the file.
#[test]
fn a_folder_is_no_description(rt: HostRuntime) -> Result<(), Fail> {
    let alloc = rt.alloc();
    let words = words_of(alloc, ".")?;
    let mut desk = RealDesk::new(rt.clone()?);
    assert!(rt; run(alloc, &words, &mut desk) == Status::ReadFault);
    Ok(())
}

// What stands at the log's name stays there when a run is cut short.
#[test]
fn a_run_that_is_cut_short_leaves_the_log(rt: HostRuntime) -> Result<(), Fail> {
    let alloc = rt.alloc();
    std::fs::write(&rt, "f.cc", TWO_FLUENTS)?;
    std::fs::write(&rt, "cut", "old")?;
    let words = all_words(alloc, &["--log", "cut", "f.cc"])?;
    let mut desk = RealDesk::new(rt.clone()?);
    assert!(rt; run(alloc, &words, &mut desk) == Status::Right);
    assert!(rt; end_run(&mut desk, Status::OutOfMemory) == Status::OutOfMemory);
    let log = std::fs::read_to_string(&rt, "cut")?;
    assert!(rt; log.as_str() == "old");
    let unfinished = std::fs::read_to_string(&rt, "cut.unfinished")?;
    assert!(rt; unfinished.as_str().starts_with("ccalc log 1\n"));
    Ok(())
}

#[test]
fn list_mode_alone_leaves_other_modes(rt: HostRuntime) -> Result<(), Fail> {
    let alloc = rt.alloc();
    let words = all_words(alloc, &["--mode", "make", "--size", "1"])?;
    let mut desk = calm_desk(alloc, TWO_FLUENTS)?;
    assert!(rt; run_list(alloc, &words, &mut desk).is_none());
    assert!(rt; desk.written(To::Out).len() == 0 && desk.written(To::Err).len() == 0);
    Ok(())
}

// The machine's log holds what a desk in memory is given, and the description stays as it was.
#[test]
fn real_logs_are_those_in_memory(rt: HostRuntime) -> Result<(), Fail> {
    let alloc = rt.alloc();
    let words = all_words(alloc, &["--log", "l", "f.cc"])?;
    std::fs::write(&rt, "f.cc", TWO_FLUENTS)?;
    let mut desk = RealDesk::new(rt.clone()?);
    assert!(rt; run(alloc, &words, &mut desk) == Status::Right);
    assert!(rt; std::fs::read(&rt, "l").is_err());
    assert!(rt; end_run(&mut desk, Status::Right) == Status::Right);
    let log = std::fs::read(&rt, "l")?;
    assert!(rt; log.len() > 0);
    assert!(rt; std::fs::read(&rt, "l.unfinished").is_err());
    assert!(rt; logs_in_memory(alloc, &words, TWO_FLUENTS, &log)?);
    let text = std::fs::read_to_string(&rt, "f.cc")?;
    assert!(rt; text.as_str() == TWO_FLUENTS);
    Ok(())
}

/// What is wanted of a description.
#[derive(Clone, Copy)]
enum Wanted {
    /// A refusal: its number, its line and its limit.
    Refused(u8, u32, LimitAt),
    Fault,
    /// The number of files.
    Files(usize),
}

fn stops(stop: &DescribeStop, wanted: Wanted) -> bool {
    match (stop, wanted) {
        (DescribeStop::ReadFault, Wanted::Fault) => true,
        (DescribeStop::Refused { refusal, .. }, Wanted::Refused(number, line, limit)) => {
            refusal.number == number && refusal.line == line && refusal.limit == Some(limit)
        }
        _ => false,
    }
}

fn says(described: &Described, wanted: Wanted) -> bool {
    match wanted {
        Wanted::Files(count) => described.files.items().len() == count,
        Wanted::Refused(..) | Wanted::Fault => false,
    }
}

/// Whether describing the file `m.cc` over a desk with these files, whose reads give at most so many bytes and whose calls
/// with these numbers fail, gives what is wanted.
fn gives(
    alloc: Global,
    files: Files,
    most: usize,
    fails: &[u32],
    wanted: Wanted,
) -> Result<bool, OutOfMemory>
    requires { 0 < most }
{
    let fails = Nums::of(Vec::from_slice(alloc, fails)?);
    let mut desk = MemoryDesk::new(alloc, files, fails, most, [0, 0, 0])?;
    let answer = describe(alloc, &mut desk, "m.cc");
    drop(desk);
    match answer {
        Ok(described) => {
            let is = says(&described, wanted);
            drop(described);
            Ok(is)
        }
        Err(stop) => {
            let is = stops(&stop, wanted);
            drop(stop);
            Ok(is)
        }
    }
}

const MAIN: (&str, &str) = ("m.cc", ":- include 'd.cc'.\n:- query maxstep :: 0.");

const INCLUDED: (&str, &str, usize) = ("d.cc", ":- constants p :: simpleFluent.", 0);

// Two files: each is opened, read, and read to its end.
#[test]
fn hostile_desks_give_the_same_or_a_fault(rt: HostRuntime) -> Result<(), Fail> {
    let alloc = rt.alloc();
    let files = two_files(alloc, MAIN, INCLUDED)?;
    assert!(rt; gives(alloc, files, 1, &[], Wanted::Files(2))?);
    for call in 1..7 {
        let files = two_files(alloc, MAIN, INCLUDED)?;
        assert!(rt;
            gives(alloc, files, 4096, &[call], Wanted::Fault)?,
            "{call}"
        );
    }
    let files = two_files(alloc, MAIN, INCLUDED)?;
    assert!(rt; gives(alloc, files, 4096, &[7], Wanted::Files(2))?);
    Ok(())
}

/// The main file has 84 bytes here; so four times 1,048,555 are the greatest total, and a fifth file passes it.
const LENGTHS: &[(&str, usize, Wanted)] = &[
    (":- include 'big'.", 1_048_576, Wanted::Files(2)),
    (
        ":- include 'big'.",
        1_048_577,
        Wanted::Refused(14, 1, LimitAt::FileBytes),
    ),
    (
        "  % 84 bytes\n:- include 'big'. :- include 'big'.\n:- include 'big'. :- include 'big'.",
        1_048_555,
        Wanted::Files(5),
    ),
    (
        "  % 84 bytes\n:- include 'big'. :- include 'big'.\n:- include 'big'. :- include 'big'.",
        1_048_556,
        Wanted::Refused(14, 1, LimitAt::TotalBytes),
    ),
];

#[test]
fn bytes_have_their_limits(rt: HostRuntime) -> Result<(), Fail> {
    let alloc = rt.alloc();
    for (text, length, wanted) in LENGTHS {
        let files = two_files(alloc, ("m.cc", text), ("big", "", *length))?;
        assert!(rt; gives(alloc, files, 4096, &[], *wanted)?, "{length}");
    }
    Ok(())
}

/// The description of a text; none where there is none.
pub(crate) fn described_text(alloc: Global, text: &str) -> Result<Described, DescribeStop>
    ensures signature { IfOk result (λ described. IsSignatureFor described.table described.sig) }
    ensures says { IfOk result (SaysAll heads.Definite) }
    ensures forms { IfOk result HasForms }
    ensures formulas { IfOk result AsksFormulas }
{
    let Ok(files) = one_file(alloc, text) else {
        return Err(DescribeStop::OutOfMemory);
    };
    let fails = Nums::of(Vec::new(alloc));
    let Ok(mut desk) = MemoryDesk::new(alloc, files, fails, 4096, [0, 0, 0]) else {
        return Err(DescribeStop::OutOfMemory);
    };
    let answer = describe(alloc, &mut desk, "f.cc");
    drop(desk);
    answer
}

/// How many ground laws a description has; none where they pass the limit of nodes.
fn count_ground(alloc: Global, described: &Described) -> Option<usize>
    requires { IsSignatureFor described.now.table described.now.sig }
{
    let arena = Bump::new(alloc);
    let terms = Terms::new(&arena);
    match ground(
        alloc,
        &described.table,
        &described.sig,
        &described.laws,
        &terms,
    ) {
        Ok(laws) => {
            let count = laws.laws().len();
            drop(laws);
            Some(count)
        }
        Err(Fault::Refused(refusal)) if refusal.limit == Some(LimitAt::GroundNodes) => None,
        Err(_) => Some(usize::MAX),
    }
}

/// The same of a text.
fn count_ground_of(alloc: Global, text: &str) -> Option<usize> {
    match described_text(alloc, text) {
        Ok(described) => {
            let count = count_ground(alloc, &described);
            drop(described);
            count
        }
        Err(stop) => {
            drop(stop);
            Some(usize::MAX)
        }
    }
}

/// A sort with so many objects, the variables X and Y of it, a constant q without arguments; then a text.
fn with_objects(alloc: Global, count: usize, text: &str) -> Result<String, OutOfMemory> {
    let mut out = String::from_str(alloc, ":- sorts s. :- objects k0")?;
    for number in 1..count {
        out.push_str(&format!(in alloc; ", k{number}")?)?;
    }
    out.push_str(" :: s. :- variables X, Y :: s. :- constants q :: simpleFluent.\n")?;
    out.push_str(text)?;
    Ok(out)
}

// A bracket inside a bracket over 3,998 objects has 15,988,003 nodes, a single one 3,999.
#[test]
fn nodes_have_their_limit(rt: HostRuntime) -> Result<(), Fail> {
    let alloc = rt.alloc();
    let laws =
        "caused q if [/\\X | [/\\Y | q]]. caused q if [/\\X | q]. caused q if [/\\X | q]. caused q if [/\\X | q].";
    let mut text = with_objects(alloc, 3998, laws)?;
    assert!(rt; count_ground_of(alloc, &text) == Some(4));
    text.push_str(" caused q if q.")?;
    assert!(rt; count_ground_of(alloc, &text) == None);
    Ok(())
}

/// A constant q, and a law whose body denies it so many times.
fn with_denials(alloc: Global, count: usize) -> Result<String, OutOfMemory> {
    let mut out = String::from_str(alloc, ":- constants q :: simpleFluent. caused q if ")?;
    for _ in 0..count {
        out.push_str("-")?;
    }
    out.push_str("q.")?;
    Ok(out)
}

// The deepest formula that a statement can have, one inside another 1,995 times.
#[test]
fn the_deepest_formula_is_ground(rt: HostRuntime) -> Result<(), Fail> {
    let alloc = rt.alloc();
    let text = with_denials(alloc, 1995)?;
    assert!(rt; count_ground_of(alloc, &text) == Some(1));
    Ok(())
}

/// A law with this head and this `after` part.
fn law(alloc: Global, head: Head, after: Option<Formula>) -> Law {
    Law {
        ranges: List::of(Vec::new(alloc)),
        head,
        body: Formula::True,
        after,
        test: Formula::True,
        kind: LawKind::Static,
        file: 0,
        line: 1,
    }
}

/// That a constant without arguments has a value.
fn atom(alloc: Global, symbol: u32, value: Term) -> Head {
    Head::Atom {
        symbol,
        args: List::of(Vec::new(alloc)),
        value,
    }
}

/// The class of a law about a fluent, whose symbol is 0, and an action, whose symbol is 1.
fn class_of(alloc: Global, head: Head, after: Option<Formula>) -> Option<LawKind> {
    let law = law(alloc, head, after);
    match described_text(alloc, ":- constants q :: simpleFluent; go :: action.") {
        Ok(described) => {
            let class = classify(&described.table, &law);
            drop(described);
            drop(law);
            Some(class)
        }
        Err(stop) => {
            drop(stop);
            drop(law);
            None
        }
    }
}

#[test]
fn laws_have_their_classes(rt: HostRuntime) {
    let alloc = rt.alloc();
    for (symbol, wanted) in [(0, LawKind::Static), (1, LawKind::ActionDynamic)] {
        let head = atom(alloc, symbol, Term::Object(1));
        assert!(rt; class_of(alloc, head, None) == Some(wanted));
    }
    assert!(rt; class_of(alloc, Head::Falsity, None) == Some(LawKind::Static));
    assert!(rt;
        class_of(alloc, Head::Falsity, Some(Formula::True)) == Some(LawKind::FluentDynamic)
    );
}

fn is_definite(alloc: Global, head: Head) -> bool {
    let law = BaseLaw::One(law(alloc, head, None));
    let answer = definite(&law);
    drop(law);
    answer
}

#[test]
fn atoms_and_falsity_are_definite(rt: HostRuntime) {
    let alloc = rt.alloc();
    assert!(rt; is_definite(alloc, Head::Falsity));
    assert!(rt; is_definite(alloc, atom(alloc, 3, Term::Object(2))));
    assert!(rt; is_definite(alloc, atom(alloc, 3, Term::Nothing)));
    let constant = Term::Constant {
        symbol: 2,
        args: Vec::new(alloc),
    };
    assert!(rt; !is_definite(alloc, atom(alloc, 3, constant)));
    assert!(rt; definite(&BaseLaw::NoConcurrency { file: 0, line: 1 }));
}
