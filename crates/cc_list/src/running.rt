//! A run from its words to its exit, where the words ask for list mode.
ghost use Rattle.std.specs.Prelude.{◌≤◌, IfSome, map, string_bytes};
ghost use Rattle.cc_list.specs.Listing.{listing_promise};
ghost use Rattle.cc_words.specs.Views.{listing_by};
ghost use Rattle.cc_list.specs.Promises.{refused_words};
ghost use Rattle.cc_list.specs.WholeRuns.{AnswersWords, RunsBy};

use crate::listing::list;
use cc_defs::{OutOfMemory, Refusal};
use cc_describe::theorems::has_places;
use cc_ports::Desk;
use cc_tell::{Status, Stop, refuse, tell_stop};
use cc_words::{Asked, ListAsked, read};
use std::alloc::Global;

/// Lists, and tells why where it stops.
fn list_to_end<D: Desk>(alloc: Global, desk: &mut D, asked: &ListAsked<'_>) -> Status
    requires count { IfSome asked.now.count (λ count. 1 ≤ count) }
    requires budget { asked.now.budget ≤ 2000000 }
    ensures { RunsBy (listing_promise (listing_by asked.now)) (D.seen desk.old) (D.seen desk.new)
        result }
{
    match list(alloc, desk, asked) {
        Ok(status) => status,
        Err(stop) => tell_stop(desk, stop),
    }
}

/// Refuses words that ask for nothing, and tells why where it stops.
fn refuse_words<D: Desk>(alloc: Global, desk: &mut D) -> Status
    ensures { RunsBy refused_words (D.seen desk.old) (D.seen desk.new) result }
{
    match refuse(alloc, desk, &Refusal::at(1, 0, 0), "") {
        Ok(status) => status,
        Err(stop) => tell_stop(desk, stop),
    }
}

/// Reads the words, and lists the first histories of the query that they name, as `list` does, or refuses the words. Answers None where
/// they ask for another mode, and has done nothing then. `words` are the program's words without its name.
pub fn run_list<D: Desk>(alloc: Global, words: &[String], desk: &mut D) -> Option<Status>
    ensures { AnswersWords (map string_bytes words.now) (D.seen desk.old) (D.seen desk.new) result }
{
    has_places();
    match read(alloc, words) {
        Ok(Some(Asked::List(asked))) => Some(list_to_end(alloc, desk, &asked)),
        Ok(Some(_)) => None,
        Ok(None) => Some(refuse_words(alloc, desk)),
        Err(OutOfMemory) => Some(tell_stop(desk, Stop::OutOfMemory)),
    }
}
