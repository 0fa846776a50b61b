//! Theorems on what a run leaves behind, each the contract of a function that calls those that it rests on.
ghost use Rattle.cc_list.specs.Laws.{LogLaws, TextsTellOneRun};

use cc_log::theorems::{
    accepted_logs_are_sayable, logs_tell_their_lines, other_versions_are_judged_alike,
    written_lines_are_entries,
};
use cc_query::theorems::{texts_tell_runs, written_logs_are_accepted};

/// The printed text and the log of a run say which run of its task it was.
pub fn texts_tell_one_run()
    ensures { TextsTellOneRun }
{
    logs_tell_their_lines();
    texts_tell_runs();
}

/// What the log of a search rests on, in either version.
pub(crate) fn log_laws()
    ensures { LogLaws }
{
    written_logs_are_accepted();
    written_lines_are_entries();
    accepted_logs_are_sayable();
    other_versions_are_judged_alike();
}
