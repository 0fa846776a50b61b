//! Theorems on every horizon, each the contract of a function that calls those that it rests on.
ghost use Rattle.cc_induction.specs.Induction.{InductionHolds};
ghost use Rattle.cc_induction.specs.Laws.{QueriesAreAskedLater, StepsAreAsked};

use cc_arena::theorems::terms_mean_formulas;
use cc_theory::theorems::{paths_have_parts, terms_rest_on_their_constants};

/// Induction: where so many horizons from the least one on have no history, and no path of so many transitions whose earlier states
/// are none that the query looks for ends in one that it does, then no horizon has a history.
pub fn induction_holds()
    ensures { InductionHolds }
{
    terms_mean_formulas();
    terms_rest_on_their_constants();
    paths_have_parts();
}

/// A query that is asked at a horizon is asked at each later one.
pub fn queries_are_asked_later()
    ensures { QueriesAreAskedLater }
{}

/// The ground query of a step is asked over so many steps, and stands for the step of what its query stands for.
pub fn steps_are_asked()
    ensures { StepsAreAsked }
{}
