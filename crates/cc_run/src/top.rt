//! The top call, and the way of each run up to its mode.
ghost use Rattle.std.specs.Prelude.{◌≡◌, ◌≢◌, List, false, map, IfSome, IsSomeAnd, string_bytes};
ghost use Rattle.cc_ports.specs.Calls.{AreActs, Call, names_begun, names_opened, with_calls};
ghost use Rattle.cc_ports.specs.Contents.{Rose};
ghost use Rattle.cc_list.specs.Answers.{Answered, counts};
ghost use Rattle.cc_list.specs.Names.{BeginsAsked, OpensAsked};
ghost use Rattle.cc_run.specs.Promised.{promise_of, promised};
ghost use Rattle.cc_list.specs.Promises.{IsEndStatus, names_log};
ghost use Rattle.cc_words.specs.Requests.{IsWithin};
ghost use Rattle.cc_list.specs.Stops.{PrintsAsked};
ghost use Rattle.cc_tell.specs.Steps.{IsFresh};
ghost use Rattle.cc_words.specs.Views.{plain_request};

use crate::mode::answer_file;
use crate::modes::make::make;
use crate::modes::models::models;
use crate::modes::models_check::check as check_models;
use cc_defs::Refusal;
use cc_describe::theorems::has_places;
use cc_list::list;
use cc_ports::{Desk, Files, StillDesk};
use cc_tell::{Status, Stop, refuse, tell_stop};
use cc_words::{Asked, read};
use std::alloc::Global;

/// Reads the words, and does the one thing that they ask for: with a file that they name and a query of its description, it lists the
/// histories of the query at the first of its horizons that has any, or judges the claim of the query, or judges a log of it, which
/// the words name too, or writes that in its other version, or prints the clause list of one of its horizons; or it makes a description
/// of a size, searches for all its histories, and sums up the search; or it tells why each value of a history holds, whose key the
/// words name; or it lists the models of a CNF, or judges a log of them; or it tells of each atom of the first horizon that has a history
/// whether all of them have it, some or none, or judges a log of what is impossible; or it lists histories by the definition
/// of a model itself, where heads may be of any form, or judges a log of that; or it proves by induction that a claim holds, or that
/// there is no history, at every horizon, or judges a log of that.
///
/// `words` are the program's words without its name. Each line of an output is given by one `give_all`. The lines of the log
/// are given to Log whether or not the words name a file for it, unless the desk drops what is given there. After a fault of the
/// desk or want of memory one fixed line is given to Err, which takes no memory.
pub fn run<D: Desk>(alloc: Global, words: &[String], desk: &mut D) -> Status
    // Where the desk tells its contents, nothing was written yet and no log was begun, the files, the three outputs, whether a
    // log was begun, and the status are the answer to the words: exactly the first refusal; or the first histories of the
    // query, in ascending order, each once, marked complete only where they are all, and a horizon said to be empty only where
    // it has none, with the log of the search; or, where a horizon passes a limit, that refusal behind what was told before; or
    // what a checker says of the log that they name; or why the values of a history hold; or that no horizon has a history, without
    // an end; or, after a fault, fronts of these.
    ensures answer { IfSome (D.seen desk.old).told (λ before. IsFresh before →
        (D.seen desk.old).begun ≡ false → IsSomeAnd (D.seen desk.new).told
        (λ after. Answered before after (D.seen desk.new).begun (promised (map string_bytes words.now)) result
        (counts (D.seen desk.old) (D.seen desk.new)))) }
    // The names that are opened are those of the words and of the description, in their order, and no others; the log that is begun
    // has the name that the words give it. A file is read when it was opened, and never later.
    ensures names { (more : List Call) × ((D.seen desk.new).calls
        ≡ with_calls more (D.seen desk.old).calls)
        × BeginsAsked (promised (map string_bytes words.now)) result (names_begun more)
        × IfSome (D.seen desk.old).told (λ before. OpensAsked before.files
        (promised (map string_bytes words.now)) result (names_opened more)) × AreActs more }
    // Where it comes to its end, it is with a status that its request may have, and the desk counted no fault.
    ensures ends { IsEndStatus result →
        (promised (map string_bytes words.now)).MayEnd result }
    ensures calm { IsEndStatus result → ((D.seen desk.new).reads ≡ (D.seen desk.old).reads)
        × ((D.seen desk.new).writes ≡ (D.seen desk.old).writes) }
    // A log is begun only where the words name one.
    ensures no_log { names_log (promised (map string_bytes words.now)) ≡ false →
        (D.seen desk.new).begun ≡ (D.seen desk.old).begun }
    // A fault is answered only where the desk counted one.
    ensures read_fault { result ≡ Status.ReadFault →
        Rose (D.seen desk.old).reads (D.seen desk.new).reads }
    ensures write_fault { result ≡ Status.WriteFault →
        Rose (D.seen desk.old).writes (D.seen desk.new).writes }
{
    match answer(alloc, words, desk) {
        Ok(status) => status,
        Err(stop) => tell_stop(desk, stop),
    }
}

/// The answer up to its end, or to where it stops.
fn answer<D: Desk>(alloc: Global, words: &[String], desk: &mut D) -> Result<Status, Stop>
    ensures { PrintsAsked (promised (map string_bytes words.now))
        (names_log (promised (map string_bytes words.now))) (D.seen desk.old) (D.seen desk.new)
        result }
{
    has_places();
    match read(alloc, words)? {
        Some(asked) => answer_asked(alloc, desk, &asked),
        None => refuse(alloc, desk, &Refusal::at(1, 0, 0), ""),
    }
}

/// The answer to words that ask for something: one line a mode.
fn answer_asked<D: Desk>(alloc: Global, desk: &mut D, asked: &Asked<'_>) -> Result<Status, Stop>
    requires within { IsWithin (plain_request asked.now) }
    ensures { PrintsAsked (promise_of (plain_request asked.now))
        (names_log (promise_of (plain_request asked.now))) (D.seen desk.old) (D.seen desk.new)
        result }
{
    match asked {
        Asked::List(asked) => list(alloc, desk, asked),
        Asked::Check(asked) => answer_file(alloc, desk, asked),
        Asked::Make { size, budget } => make(alloc, desk, *size, *budget),
        Asked::Why(asked) => answer_file(alloc, desk, asked),
        Asked::Convert(asked) => answer_file(alloc, desk, asked),
        Asked::Export(asked) => answer_file(alloc, desk, asked),
        Asked::Models(asked) => models(alloc, desk, asked),
        Asked::CheckModels(asked) => check_models(alloc, desk, asked),
        Asked::Sure(asked) => answer_file(alloc, desk, asked),
        Asked::CheckSure(asked) => answer_file(alloc, desk, asked),
        Asked::General(asked) => answer_file(alloc, desk, asked),
        Asked::CheckGeneral(asked) => answer_file(alloc, desk, asked),
        Asked::Forever(asked) => answer_file(alloc, desk, asked),
        Asked::CheckForever(asked) => answer_file(alloc, desk, asked),
    }
}

/// Runs over a desk that never fails: neither fault is answered, since its counts of faults stay 0; and words that ask for nothing
/// are refused.
pub fn run_still(alloc: Global, words: &[String], files: Files) -> Status
    ensures ends { IsEndStatus result →
        (promised (map string_bytes words.now)).MayEnd result }
    ensures no_read_fault { result ≢ Status.ReadFault }
    ensures no_write_fault { result ≢ Status.WriteFault }
{
    let mut desk = StillDesk::new(files);
    run(alloc, words, &mut desk)
}
