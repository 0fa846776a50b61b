//! The lines of Err, each given by one call: refusals, and why a run stops.
ghost use Rattle.std.specs.Prelude.{◌≡◌, [], ℕ, List, IfOk, Some, if◌then◌else◌, ◌==◌, slice_index_or};
ghost use Rattle.cc_ports.specs.declared.desk.To.TheVariants as outputs;
ghost use Rattle.cc_print.specs.Refusals.{refusal_line};
ghost use Rattle.cc_tell.specs.ErrLines.{refusal_text as whole_refusal_text, usage_line};
ghost use Rattle.cc_tell.specs.Givens.{only_err, given_to};
ghost use Rattle.cc_tell.specs.Steps.{Step};
ghost use Rattle.cc_tell.specs.StopLines.{TellsStop, stop_line, stop_status, cut_status as status_when_cut};

use crate::status::{Status, Stop};
use cc_defs::{Name, OutOfMemory, Refusal, Text};
use cc_ports::{Desk, To, give_all};
use cc_print::refusal_text;
use std::alloc::Global;

/// The second line of a refusal of the words.
const USAGE: &str =
    "usage: ccalc [--mode list|check|make|convert|why|export|models|modelscheck|sure|surecheck|general|generalcheck|forever|forevercheck] [--query LABEL] [--count N] [--budget B] [--after KEY] [--log NAME] [--form 1|2] [--to NAME] [--key KEY] [--horizon M] [--size N] [FILE]\n";

/// Gives bytes to an output. Stops by a write fault where not all of them could be given.
pub fn give<D: Desk>(desk: &mut D, to: To, bytes: &[u8]) -> Result<(), Stop>
    ensures { Step (given_to to bytes.now) (D.seen desk.old) (D.seen desk.new) result }
{
    match give_all(desk, to, bytes) {
        Ok(()) => Ok(()),
        Err(_) => Err(Stop::WriteFault),
    }
}

/// Gives a text that was made to an output.
pub fn give_made<D: Desk>(desk: &mut D, to: To, made: Result<Text, OutOfMemory>) -> Result<(), Stop>
    ensures { (text : List ℕ) → IfOk made (λ given. given ≡ text) →
        Step (given_to to text) (D.seen desk.old) (D.seen desk.new) result }
{
    match made {
        Ok(given) => give(desk, to, given.text().as_bytes()),
        Err(OutOfMemory) => Err(Stop::OutOfMemory),
    }
}

/// The name of the file that a refusal speaks of, among those that were opened; an empty one where it has no place.
pub fn file_named<'n>(names: &'n [Name], refusal: &Refusal) -> &'n str
    ensures { result.now ≡ (if refusal.now.line == 0 then []
        else slice_index_or names.now refusal.now.file []) }
{
    if refusal.line == 0 {
        return "";
    }
    match names.get(refusal.file as usize) {
        Some(name) => name.text(),
        None => "",
    }
}

/// Tells a refusal by its line; one of the words by the usage too. `file` is the name of the file that it speaks of.
pub fn refuse<D: Desk>(
    alloc: Global,
    desk: &mut D,
    refusal: &Refusal,
    file: &str,
) -> Result<Status, Stop>
    ensures told { Step (only_err (whole_refusal_text refusal.now file.now)) (D.seen desk.old)
        (D.seen desk.new) result }
    ensures status { IfOk result (λ status. status ≡ Status.Refused) }
{
    tell_refusal(alloc, desk, refusal, file)?;
    tell_usage(desk, refusal.number)?;
    Ok(Status::Refused)
}

fn tell_refusal<D: Desk>(
    alloc: Global,
    desk: &mut D,
    refusal: &Refusal,
    file: &str,
) -> Result<(), Stop>
    ensures { Step (given_to outputs.Err (refusal_line refusal.now file.now)) (D.seen desk.old)
        (D.seen desk.new) result }
{
    give_made(desk, To::Err, refusal_text(alloc, refusal, file))
}

/// Tells how the words are to be, where they were refused.
fn tell_usage<D: Desk>(desk: &mut D, number: u8) -> Result<(), Stop>
    ensures { Step (given_to outputs.Err (if number == 1 then usage_line else [])) (D.seen desk.old)
        (D.seen desk.new) result }
{
    if number != 1 {
        return Ok(());
    }
    give(desk, To::Err, USAGE.as_bytes())
}

/// Tells a limit that a horizon passes, and answers that the run is refused.
pub fn tell_limit<D: Desk>(
    alloc: Global,
    desk: &mut D,
    refusal: &Refusal,
) -> Result<Option<Status>, Stop>
    ensures told { Step (only_err (whole_refusal_text refusal.now [])) (D.seen desk.old)
        (D.seen desk.new) result }
    ensures status { IfOk result (λ status. status ≡ Some Status.Refused) }
{
    let status = refuse(alloc, desk, refusal, "")?;
    Ok(Some(status))
}

/// Tells why a run stops, by a fixed line, which takes no memory; and answers the run's status.
pub fn tell_stop<D: Desk>(desk: &mut D, stop: Stop) -> Status
    ensures { TellsStop stop (D.seen desk.old) (D.seen desk.new) result }
{
    match give_all(desk, To::Err, line_of(stop).as_bytes()) {
        Ok(()) => whole_status(stop),
        Err(_) => cut_status(stop),
    }
}

fn line_of(stop: Stop) -> &'static str
    ensures { result.now ≡ stop_line stop }
{
    match stop {
        Stop::ReadFault => "ccalc: read fault\n",
        Stop::WriteFault => "ccalc: write fault\n",
        Stop::OutOfMemory => "ccalc: out of memory\n",
    }
}

fn whole_status(stop: Stop) -> Status
    ensures { result ≡ stop_status stop }
{
    match stop {
        Stop::ReadFault => Status::ReadFault,
        Stop::WriteFault => Status::WriteFault,
        Stop::OutOfMemory => Status::OutOfMemory,
    }
}

/// The status where the stop's line could not be given whole.
fn cut_status(stop: Stop) -> Status
    ensures { result ≡ status_when_cut stop }
{
    match stop {
        Stop::ReadFault | Stop::WriteFault => Status::WriteFault,
        Stop::OutOfMemory => Status::OutOfMemory,
    }
}
