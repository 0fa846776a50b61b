//! The verdict of a log of silent sections, as it is told.
ghost use Rattle.std.specs.Prelude.{◌≡◌, IfOk, string_bytes};
ghost use Rattle.cc_tell_modes.specs.SilentVerdicts.{silent_verdict_line, silent_verdict_status};
ghost use Rattle.cc_tell.specs.Steps.{Step};
ghost use Rattle.cc_tell.specs.Givens.{only_out};

use crate::causes::push_number;
use cc_check::SilentVerdict;
use cc_defs::OutOfMemory;
use cc_ports::{Desk, To};
use cc_tell::{Status, Stop, give};
use std::alloc::Global;

/// The line of a verdict. `counted` says what the sections of an accepted log are of.
fn verdict_text(alloc: Global, counted: &str, verdict: SilentVerdict) -> Result<String, OutOfMemory>
    ensures { IfOk result (λ text. string_bytes text ≡ silent_verdict_line counted.now verdict) }
{
    match verdict {
        SilentVerdict::Accepted { sections } => {
            let mut text = String::from_str(alloc, "log accepted: ")?;
            text.push_str(counted)?;
            text.push_str(" ")?;
            push_number(&mut text, sections)?;
            text.push_str("\n")?;
            Ok(text)
        }
        SilentVerdict::Refused { line, cause } => {
            let mut text = String::from_str(alloc, "log refused: line ")?;
            push_number(&mut text, line)?;
            text.push_str(", ")?;
            text.push_str(cause.words())?;
            text.push_str("\n")?;
            Ok(text)
        }
    }
}

/// The status of a run with this verdict.
fn verdict_status(verdict: SilentVerdict) -> Status
    ensures { result ≡ silent_verdict_status verdict }
{
    match verdict {
        SilentVerdict::Accepted { .. } => Status::Right,
        SilentVerdict::Refused { .. } => Status::Not,
    }
}

/// Tells a verdict by its line. `counted` says what the sections of an accepted log are of.
pub fn tell_silent_verdict<D: Desk>(
    alloc: Global,
    desk: &mut D,
    counted: &str,
    verdict: SilentVerdict,
) -> Result<Status, Stop>
    ensures told { Step (only_out (silent_verdict_line counted.now verdict)) (D.seen desk.old)
        (D.seen desk.new) result }
    ensures status { IfOk result (λ status. status ≡ silent_verdict_status verdict) }
{
    let text = verdict_text(alloc, counted, verdict)?;
    give(desk, To::Out, text.as_bytes())?;
    Ok(verdict_status(verdict))
}
