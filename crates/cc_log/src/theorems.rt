//! Theorems on written logs, each the contract of a function that does nothing.
ghost use Rattle.cc_log.specs.Laws.{LinesAreUnique, LogsTellTheirLines, OneEntry, WrittenLinesAreEntries};
ghost use Rattle.cc_log.specs.Versions.{AcceptedLogsAreSayable, OtherVersionsAreJudgedAlike};

/// No text is that of two lines.
pub fn lines_are_unique()
    ensures { LinesAreUnique }
{}

/// Bytes begin with one entry of version 2 at most.
pub fn one_entry()
    ensures { OneEntry }
{}

/// What is written of a line in version 2 is an entry, and it says that line.
pub fn written_lines_are_entries()
    ensures { WrittenLinesAreEntries }
{}

/// The text of a log tells its lines.
pub fn logs_tell_their_lines()
    ensures { LogsTellTheirLines }
{}

/// One log in two versions has one verdict, where both versions can say its lines.
pub fn other_versions_are_judged_alike()
    ensures { OtherVersionsAreJudgedAlike }
{}

/// An accepted log names earlier clauses alone, so that both versions can say its lines, where their numbers allow it.
pub fn accepted_logs_are_sayable()
    ensures { AcceptedLogsAreSayable }
{}
