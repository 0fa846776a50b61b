//! Descriptions: a file with the files that it includes, as a table of names, a signature, base laws and queries.
ghost use Rattle.std.specs.Prelude.{◌≡◌, ◌≢◌, ◌≤◌, ℕ, List as Items, None, option_map, IfOk, IfErr, IfSome, IsErrOf, []};
ghost use Rattle.cc_defs.specs.DeclarationFaults.{signature_refusal};
ghost use Rattle.cc_ports.specs.Calls.{AreActs, Call, names_begun, names_opened, with_calls};
ghost use Rattle.cc_ports.specs.Contents.{with_rest, Rose};
ghost use Rattle.cc_describe.specs.Describing.{AsksFormulas, Describes, DescribesWide, HasForms, HasStopped, HasWideForms, IsDescribedWide, IsOfSome, IsRefusedWhole, OpensFor, SaysAll, SaysAllWide};
ghost use Rattle.cc_describe.specs.declared.heads.Heads.{Heads as Which};
ghost use Rattle.cc_describe.specs.FirstRefusal.{declared_in, file_named};
ghost use Rattle.cc_describe.specs.Places.{Place};
ghost use Rattle.cc_describe.specs.ProgressViews.{IsProgress, StopsAs};

use crate::files::{Halt, read_file};
use crate::heads::Heads;
use crate::progress::Progress;
use crate::theorems::has_places;
use cc_defs::{BaseLaws, LimitAt, List, Name, Names, OutOfMemory, Queries, Refusal, Sig};
use cc_laws::theorems::{
    constants_have_forms, laws_have_forms, queries_have_formulas, wide_constants_have_forms,
    wide_laws_have_forms,
};
use cc_ports::Desk;
use cc_sorts::Table;
use cc_wide::WideLaws;
use std::alloc::Global;
use std::fmt::{self, Debug, Formatter, Write};
use thiserror::Error;

/// What a description says. Laws and queries stand in the order of its text, those of an included file in place of its
/// include; their names are numbers of the table. A file's number is its place in `files`, which has each file as often as
/// it was opened, the main file first.
#[derive(Drop)]
pub struct Described {
    pub table: Table,
    pub sig: Sig,
    pub laws: BaseLaws,
    pub queries: Queries,
    pub files: Names,
}

/// What a description says whose heads are of the form that was asked for. Where they have to be definite, `described` has
/// all laws and `wide` none; where they may be of any form, `wide` has them, in the order of the text, and `described` none.
#[derive(Drop)]
pub struct DescribedWide {
    pub described: Described,
    pub wide: WideLaws,
}

/// Why a file is no description.
#[derive(Drop, Error)]
pub enum DescribeStop {
    /// The first refusal, and the name of the file that it speaks of; an empty one where the refusal has no place.
    #[error("refused")]
    Refused { refusal: Refusal, file: Name },
    /// The desk failed, or a file is not there.
    #[error("read fault")]
    ReadFault,
    #[error("out of memory")]
    OutOfMemory,
}

impl Debug for DescribeStop {
    fn fmt<W: Write>(&self, f: &mut Formatter<W>) -> fmt::Result {
        match self {
            DescribeStop::Refused { refusal, file } => f
                .debug_struct("Refused")
                .field("refusal", refusal)
                .field("file", &file.text())
                .finish(),
            DescribeStop::ReadFault => f.write_str("ReadFault"),
            DescribeStop::OutOfMemory => f.write_str("OutOfMemory"),
        }
    }
}

/// Reads a description: the file with this name and the files that it includes, each in place of its include. Each file is
/// read once for each time it is opened, to its end, before its statements are looked at. Refuses the first place that has a
/// fault: a file that is too long (14, file bytes or total bytes), a token (2, 14), then each statement (14, 3, then the
/// least of 4 to 11; an include 17, then 14, include depth); then all declarations together (12, then 14, domain values or
/// ground constants).
pub fn describe<D: Desk>(alloc: Global, desk: &mut D, name: &str) -> Result<Described, DescribeStop>
    // Where the desk tells its files, Ok is what they describe, and a refusal is exactly the first that they have; the files
    // that were opened are there.
    ensures described { IfSome (D.seen desk.old).told
        (λ contents. IfOk result (Describes Heads.Definite contents.files name.now)) }
    ensures refused { IfSome (D.seen desk.old).told
        (λ contents. IfErr result (HasStopped Heads.Definite contents.files name.now)) }
    // Whatever it told, Ok is what some places say, and a refusal is the first of some places.
    ensures whole { IfOk result (SaysAll Heads.Definite) }
    ensures stopped { IfErr result (IsOfSome Heads.Definite) }
    ensures forms { IfOk result HasForms }
    ensures formulas { IfOk result AsksFormulas }
    // A fault is answered only where the desk counted one.
    ensures failed { IsErrOf result DescribeStop.ReadFault →
        Rose (D.seen desk.old).reads (D.seen desk.new).reads }
    ensures after { (rest : Items ℕ) × ((D.seen desk.new).told
        ≡ option_map (with_rest rest) (D.seen desk.old).told) }
    ensures begun { (D.seen desk.new).begun ≡ (D.seen desk.old).begun }
    // The names that are opened are those of its files, in their order, and no others, and each file is read when it was opened; no
    // log is begun.
    ensures calls { (more : Items Call) × ((D.seen desk.new).calls
        ≡ with_calls more (D.seen desk.old).calls) × (names_begun more ≡ [])
        × IfSome (D.seen desk.old).told (λ contents. OpensFor Heads.Definite contents.files name.now result
        (names_opened more)) × AreActs more }
    // Where no fault is answered, the desk counted none.
    ensures calm { (IsErrOf result DescribeStop.ReadFault → ⊥) →
        ((D.seen desk.new).reads ≡ (D.seen desk.old).reads)
        × ((D.seen desk.new).writes ≡ (D.seen desk.old).writes) }
    ensures reads_count { (D.seen desk.old).reads ≤ (D.seen desk.new).reads }
    ensures writes_count { (D.seen desk.old).writes ≤ (D.seen desk.new).writes }
{
    match describe_with(alloc, desk, name, Heads::Definite) {
        Ok(read) => Ok(definite(read)),
        Err(stop) => Err(stop),
    }
}

/// Reads a description whose heads are of the form that is asked for. It is read and refused as by `describe`, but for 11,
/// which no law is where heads may be of any form.
pub fn describe_with<D: Desk>(
    alloc: Global,
    desk: &mut D,
    name: &str,
    heads: Heads,
) -> Result<DescribedWide, DescribeStop>
    // Where the desk tells its files, Ok is what they describe, and a refusal is exactly the first that they have; the files
    // that were opened are there.
    ensures described { IfSome (D.seen desk.old).told
        (λ contents. IfOk result (DescribesWide heads contents.files name.now)) }
    ensures refused { IfSome (D.seen desk.old).told
        (λ contents. IfErr result (HasStopped heads contents.files name.now)) }
    // Whatever it told, Ok is what some places say, and a refusal is the first of some places.
    ensures whole { IfOk result (SaysAllWide heads) }
    ensures stopped { IfErr result (IsOfSome heads) }
    ensures forms { IfOk result (λ read. HasForms read.described) }
    ensures wide_forms { IfOk result HasWideForms }
    ensures formulas { IfOk result (λ read. AsksFormulas read.described) }
    // A fault is answered only where the desk counted one.
    ensures failed { IsErrOf result DescribeStop.ReadFault →
        Rose (D.seen desk.old).reads (D.seen desk.new).reads }
    ensures after { (rest : Items ℕ) × ((D.seen desk.new).told
        ≡ option_map (with_rest rest) (D.seen desk.old).told) }
    ensures begun { (D.seen desk.new).begun ≡ (D.seen desk.old).begun }
    // The names that are opened are those of its files, in their order, and no others, and each file is read when it was opened; no
    // log is begun.
    ensures calls { (more : Items Call) × ((D.seen desk.new).calls
        ≡ with_calls more (D.seen desk.old).calls) × (names_begun more ≡ [])
        × IfSome (D.seen desk.old).told (λ contents. OpensFor heads contents.files name.now result
        (names_opened more)) × AreActs more }
    // Where no fault is answered, the desk counted none.
    ensures calm { (IsErrOf result DescribeStop.ReadFault → ⊥) →
        ((D.seen desk.new).reads ≡ (D.seen desk.old).reads)
        × ((D.seen desk.new).writes ≡ (D.seen desk.old).writes) }
    ensures reads_count { (D.seen desk.old).reads ≤ (D.seen desk.new).reads }
    ensures writes_count { (D.seen desk.old).writes ≤ (D.seen desk.new).writes }
{
    has_places();
    laws_have_forms();
    constants_have_forms();
    wide_laws_have_forms();
    wide_constants_have_forms();
    queries_have_formulas();
    let mut progress = match Progress::new(alloc, heads) {
        Ok(progress) => progress,
        Err(_) => return Err(DescribeStop::OutOfMemory),
    };
    match read_file(
        alloc,
        desk,
        &mut progress,
        name,
        LimitAt::IncludeDepth.number(),
    ) {
        Ok(()) => finish(alloc, progress),
        Err(halt) => {
            let stop = stop_of(alloc, &progress.names, halt);
            drop(progress);
            Err(stop)
        }
    }
}

/// What was read where heads have to be definite.
fn definite(read: DescribedWide) -> Described
    ensures { result ≡ read.described }
{
    let DescribedWide { described, wide: _ } = read;
    described
}

/// The name of the file that a refusal speaks of.
fn file_of(alloc: Global, names: &[Name], refusal: Refusal) -> Result<Name, OutOfMemory>
    ensures { IfOk result (λ name. name ≡ file_named names.now refusal) }
{
    let mut text = String::new(alloc);
    if refusal.line > 0 {
        if let Some(name) = names.get(refusal.file as usize) {
            text.push_str(name.text())?;
        }
    }
    Ok(Name::of(text))
}

/// Why a description stops, by why its reading ended.
fn stop_of(alloc: Global, names: &[Name], halt: Halt) -> DescribeStop
    ensures { StopsAs names.now halt result }
{
    match halt {
        Halt::Refused(refusal) => match file_of(alloc, names, refusal) {
            Ok(file) => DescribeStop::Refused { refusal, file },
            Err(OutOfMemory) => DescribeStop::OutOfMemory,
        },
        Halt::ReadFault => DescribeStop::ReadFault,
        Halt::OutOfMemory => DescribeStop::OutOfMemory,
    }
}

/// What was read, with its signature.
fn said_by(progress: Progress, sig: Sig) -> DescribedWide
    ensures { result ≡ record {
      described = record {
        table = progress.table;
        sig = sig;
        laws = progress.laws.items;
        queries = progress.queries.items;
        files = progress.names.items;
      };
      wide = progress.wide.items;
    } }
{
    let described = Described {
        table: progress.table,
        sig,
        laws: List::of(progress.laws),
        queries: List::of(progress.queries),
        files: List::of(progress.names),
    };
    let wide = List::of(progress.wide);
    DescribedWide { described, wide }
}

/// What all statements say together.
fn finish(alloc: Global, progress: Progress) -> Result<DescribedWide, DescribeStop>
    ensures described { (which : Which) (places : Items Place) →
        IsProgress which progress places → IfOk result (λ read.
        (signature_refusal (declared_in places) ≡ None) × IsDescribedWide which places read) }
    ensures refused { (which : Which) (places : Items Place) →
        IsProgress which progress places → IfErr result (IsRefusedWhole places) }
    ensures no_read_fault { IfErr result (λ stop. stop ≢ DescribeStop.ReadFault) }
{
    match progress.table.signature(alloc) {
        Ok(sig) => Ok(said_by(progress, sig)),
        Err(fault) => {
            let stop = stop_of(alloc, &progress.names, Halt::from(fault));
            drop(progress);
            Err(stop)
        }
    }
}
