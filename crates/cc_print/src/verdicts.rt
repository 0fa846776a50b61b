//! The line of a checker's verdict.
ghost use Rattle.std.specs.Prelude.{◌≡◌, IfOk};
ghost use Rattle.cc_print.specs.Verdicts.{verdict_line};
ghost use Rattle.cc_defs.specs.declared.log.LogVerdict.TheVariants.{Accepted, Refused};

use cc_defs::{Cause, LogVerdict, OutOfMemory, Text};
use std::alloc::Global;

/// What a checker says of a log, as a line with its line feed: the horizons that are shown to have no history but the
/// blocked rows, or the first wrong line and what is wrong with it.
pub fn verdict_text(alloc: Global, verdict: &LogVerdict) -> Result<Text, OutOfMemory>
    ensures { IfOk result (λ text. text ≡ verdict_line verdict.now) }
{
    match verdict {
        LogVerdict::Accepted { from, to, blocked } => accepted(alloc, *from, *to, *blocked),
        LogVerdict::Refused { line, cause } => refused(alloc, *line, *cause),
    }
}

fn accepted(alloc: Global, from: u32, to: u32, blocked: u64) -> Result<Text, OutOfMemory>
    ensures { IfOk result (λ text. text ≡ verdict_line (Accepted from to blocked)) }
{
    let text = format!(in alloc; "log accepted: horizons {from} to {to}, blocked {blocked}\n")?;
    Ok(Text::of(text))
}

fn refused(alloc: Global, line: u32, cause: Cause) -> Result<Text, OutOfMemory>
    ensures { IfOk result (λ text. text ≡ verdict_line (Refused line cause)) }
{
    let words = cause.words();
    let text = format!(in alloc; "log refused: line {line}, {words}\n")?;
    Ok(Text::of(text))
}
