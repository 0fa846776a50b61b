//! The sections of a log, each checked over a clause list of its own.
ghost use Rattle.std.specs.Prelude.{◌+◌, ◌≤◌, length};
ghost use Rattle.cc_arena.specs.GroundViews.{plain_ground_query};
ghost use Rattle.cc_defs.specs.Limits.{most_log_bytes};
ghost use Rattle.cc_sections.specs.Asked.{AreAskable};

use crate::ask::Ask;
use crate::clauses::form_at;
use crate::halt::Halt;
use cc_arena::{GroundQuery, Laws};
use cc_check::{CheckFault, Section, Sections, Verdict, check};
use cc_defs::{Cause, EndWord, LimitAt, OutOfMemory, Sig};
use std::alloc::Global;
use std::fmt::Write;

fn end_name(word: EndWord) -> &'static str {
    match word {
        EndWord::Empty => "empty",
        EndWord::Found => "found",
        EndWord::Spent => "spent",
    }
}

fn show_wrong(out: &mut String, line: u32, cause: Cause) -> Result<(), OutOfMemory> {
    write!(out, "wrong {line} ")?;
    out.push_str(cause.words())?;
    out.push_str("\n")?;
    Ok(())
}

fn show_verdict(out: &mut String, verdict: Verdict) -> Result<(), OutOfMemory> {
    match verdict {
        Verdict::Right {
            ending,
            blocks,
            line,
        } => {
            out.push_str("right ")?;
            out.push_str(end_name(ending))?;
            write!(out, " blocks {blocks} line {line}\n")?;
            Ok(())
        }
        Verdict::Refused { line, cause } => show_wrong(out, line, cause),
    }
}

fn show_heading(out: &mut String, section: &Section<'_>) -> Result<(), OutOfMemory> {
    let Section { horizon, line, .. } = *section;
    out.push_str("section ")?;
    out.push_str(if section.conditions { "w" } else { "h" })?;
    write!(out, " {horizon} line {line}: ")?;
    Ok(())
}

/// What a section is found to be.
fn judged(
    alloc: Global,
    sig: &Sig,
    laws: &Laws<'_>,
    query: &GroundQuery<'_>,
    after: Option<&Vec<u32>>,
    section: &Section<'_>,
) -> Result<Verdict, Halt>
    requires askable { AreAskable sig.now laws.now (plain_ground_query query.now) }
    requires few { length section.now.bytes.now ≤ most_log_bytes }
    requires line { section.now.line ≤ most_log_bytes + 1 }
{
    let denies = !section.conditions;
    let form = form_at(alloc, sig, laws, query, section.horizon, denies, after)?;
    Ok(check(alloc, &form, section)?)
}

fn show_section(
    alloc: Global,
    out: &mut String,
    sig: &Sig,
    laws: &Laws<'_>,
    query: &GroundQuery<'_>,
    after: Option<&Vec<u32>>,
    section: &Section<'_>,
) -> Result<(), Halt>
    requires askable { AreAskable sig.now laws.now (plain_ground_query query.now) }
    requires few { length section.now.bytes.now ≤ most_log_bytes }
    requires line { section.now.line ≤ most_log_bytes + 1 }
{
    show_heading(out, section)?;
    let verdict = judged(alloc, sig, laws, query, after, section)?;
    Ok(show_verdict(out, verdict)?)
}

fn show_sections(
    alloc: Global,
    out: &mut String,
    sig: &Sig,
    laws: &Laws<'_>,
    query: &GroundQuery<'_>,
    after: Option<&Vec<u32>>,
    sections: &mut Sections<'_>,
) -> Result<(), Halt>
    requires { AreAskable sig.now laws.now (plain_ground_query query.now) }
{
    while let Some(section) = sections.next() {
        show_section(alloc, out, sig, laws, query, after, &section)?;
    }
    Ok(())
}

/// A log without so many bytes at its end.
fn cut_log(log: &[u8], cut: u32) -> &[u8] {
    log.get(..log.len().saturating_sub(cut as usize))
        .unwrap_or(&[])
}

/// The sections of a log, as many of its bytes as are asked for.
pub(crate) fn show_log(
    alloc: Global,
    out: &mut String,
    sig: &Sig,
    laws: &Laws<'_>,
    query: &GroundQuery<'_>,
    ask: &Ask,
    log: &[u8],
) -> Result<(), Halt>
    requires { AreAskable sig.now laws.now (plain_ground_query query.now) }
{
    let log = cut_log(log, ask.cut);
    if log.len() > LimitAt::LogBytes.number() as usize {
        return Err(Halt::Log);
    }
    match Sections::read(alloc, log) {
        Ok(mut sections) => {
            let after = ask.after.as_ref();
            show_sections(alloc, out, sig, laws, query, after, &mut sections)
        }
        Err(CheckFault::Refused { line, cause }) => Ok(show_wrong(out, line, cause)?),
        Err(CheckFault::OutOfMemory) => Err(Halt::OutOfMemory),
    }
}
