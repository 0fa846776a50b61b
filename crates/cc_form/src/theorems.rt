//! Theorems on clause lists, each the contract of a function that does nothing, or calls those that it rests on.
ghost use Rattle.cc_form.specs.Laws.{ClausesTellRows};
ghost use Rattle.cc_form.specs.ListLaws.{ListsTellHistories};

use cc_arena::one_formula;
use cc_arena::theorems::terms_mean_formulas;
use cc_theory::theorems::{laws_give_rules, models_are_paths, models_meet_completion};

/// The rows that meet the clauses of rules, conditions, a claim that is denied, and a key, are those that meet the completion
/// of the rules and the conditions, do not meet the claim, and lie after the key; each with exactly one assignment to the
/// variables.
pub fn clauses_tell_rows()
    ensures { ClausesTellRows }
{}

/// The rows of the clause list of a query at a horizon are its histories.
pub fn lists_tell_histories()
    ensures { ListsTellHistories }
{
    clauses_tell_rows();
    models_meet_completion();
    models_are_paths();
    terms_mean_formulas();
    one_formula();
    laws_give_rules();
}
