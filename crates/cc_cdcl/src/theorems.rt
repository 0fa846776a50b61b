//! Theorems on conflict-driven search, each the contract of a function with no body; those on the clause that denies a row are of
//! clauses alone (cc_clauses).
ghost use Rattle.cc_cdcl.specs.Laws.{ChoicesAreKept, ClosedMeet, EarnedClausesAreNew, EarnedLinesAreFew, FalseClauseHasTwo, FullClosedMeets, LearnedIsEarned, LeastRowIsFound, OpenVariablesExist, OtherIsFalse, ResolventIsFalse};

pub use cc_clauses::theorems::{denial_denies, denial_leaves_others};

/// What two closed assignments give alike is closed.
pub fn closed_meet()
    ensures { ClosedMeet }
{}

/// A closed assignment that gives every variable a value meets the clauses.
pub fn full_closed_meets()
    ensures { FullClosedMeets }
{}

/// Derived lines that are earned, where k variables are open, are fewer than 3 ^ k.
pub fn earned_lines_are_few()
    ensures { EarnedLinesAreFew }
{}

/// An earned clause is none of the clauses before it, and contains none of them.
pub fn earned_clauses_are_new()
    ensures { EarnedClausesAreNew }
{}

/// Of any clauses, so and so many variables are open.
pub fn open_variables_exist()
    ensures { OpenVariablesExist }
{}

/// The row of a closed trail that gives every variable a value is the least one, if each decision was the least value that
/// is not false of the first position with no true value.
pub fn least_row_is_found()
    ensures { LeastRowIsFound }
{}

/// Propagation, such decisions and going back keep that each decision was one.
pub fn choices_are_kept()
    ensures { ChoicesAreKept }
{}

/// A clause that is false by a settled trail has two literals of the last level, unless no level was opened.
pub fn false_clause_has_two()
    ensures { FalseClauseHasTwo }
{}

/// A false clause and the reason of the last step clash on its variable, and the resolvent is false by the steps before.
pub fn resolvent_is_false()
    ensures { ResolventIsFalse }
{}

/// A false clause that does not have the opposite of the last step's literal is false by the steps before.
pub fn other_is_false()
    ensures { OtherIsFalse }
{}

/// A learned clause is earned, and adding it keeps the trail settled once the higher levels are gone back.
pub fn learned_is_earned()
    ensures { LearnedIsEarned }
{}
