//! Theorems on logs in both versions, each the contract of a function that does nothing.
ghost use Rattle.cc_convert.specs.Laws.{AcceptedLogsSayLines};

/// An accepted log whose sections pass no limit has its lines, and both versions can say them.
pub fn accepted_logs_say_lines()
    ensures { AcceptedLogsSayLines }
{}
