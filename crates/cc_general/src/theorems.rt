//! Theorems on runs, each the contract of a function that does nothing, or calls one that it rests on.
ghost use Rattle.cc_general.specs.Accepted.{GeneralLogsAreAccepted};

use cc_rivals::theorems::histories_have_no_rivals;

/// The log of a general run is accepted unless a search was spent, with a section for each history.
pub fn general_logs_are_accepted()
    ensures { GeneralLogsAreAccepted }
{
    histories_have_no_rivals();
}
