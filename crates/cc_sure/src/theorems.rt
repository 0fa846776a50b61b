//! Theorems on runs, each the contract of a function that does nothing.
ghost use Rattle.cc_sure.specs.Accepted.{SureLogsAreAccepted};

/// The log of a run is accepted unless a search was spent, with a section for each atom that was told to be impossible.
pub fn sure_logs_are_accepted()
    ensures { SureLogsAreAccepted }
{}
