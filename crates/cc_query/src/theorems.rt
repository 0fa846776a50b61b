//! Theorems on listings, each the contract of a function that does nothing, or calls those that it rests on.
ghost use Rattle.cc_query.specs.Accepted.{WrittenLogsAreAccepted};
ghost use Rattle.cc_query.specs.Laws.{ListingsJoin, ListingsResume, SearchLaws, SpentBudgetsAreSmall, TextsTellRuns};

use cc_cdcl::theorems::earned_lines_are_few;
use cc_clauses::theorems::{denial_denies, denial_leaves_others, resolvents_are_sound};

/// A listing that stopped at its asked number, and the one that goes on after its last key, make up the whole.
pub fn listings_resume()
    ensures { ListingsResume }
{}

/// Two runs, one of which goes on behind the last history of the other, have told all histories of their horizon.
pub fn listings_join()
    ensures { ListingsJoin }
{
    listings_resume();
}

/// What is printed and the lines of the log tell one run.
pub fn texts_tell_runs()
    ensures { TextsTellRuns }
{}

/// What searches rest on: resolvents follow, and a denied row is denied, and no other.
pub fn search_laws()
    ensures { SearchLaws }
{
    resolvents_are_sound();
    denial_denies();
    denial_leaves_others();
}

/// The log of a search is accepted up to each horizon that it reported to have no history, or whose listing is complete.
pub fn written_logs_are_accepted()
    ensures { WrittenLogsAreAccepted }
{}

/// Where the budget of a section is spent, it is less than the power of 3 to the number of variables that its axioms leave open.
pub fn spent_budgets_are_small()
    ensures { SpentBudgetsAreSmall }
{
    earned_lines_are_few();
}
