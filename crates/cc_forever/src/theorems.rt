//! Theorems on runs on every horizon, each the contract of a function that calls those that it rests on.
ghost use Rattle.cc_forever.specs.Accepted.{ForeverLogsAreAccepted};
ghost use Rattle.cc_forever.specs.ForeverRuns.{FairRunsProveNever, FairRunsTellTheFirst};

use cc_induction::theorems::induction_holds;
use cc_theory::theorems::laws_give_rules;

/// Where the induction of a fair run holds, no horizon has a history from the query's least one on, without an end.
pub fn fair_runs_prove_never()
    ensures { FairRunsProveNever }
{
    induction_holds();
    laws_give_rules();
}

/// No horizon below the one that a fair run is at has a history.
pub fn fair_runs_tell_the_first()
    ensures { FairRunsTellTheFirst }
{}

/// A checker accepts the log of a fair run whose induction holds.
pub fn forever_logs_are_accepted()
    ensures { ForeverLogsAreAccepted }
{}
