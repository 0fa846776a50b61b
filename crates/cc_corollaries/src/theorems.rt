//! The corollaries, each the contract of a function that calls what it rests on.
ghost use Rattle.cc_corollaries.specs.AcceptedLogs.{AcceptedMeansForEver, AcceptedMeansImpossible, AcceptedMeansModels, AcceptedMeansNoOtherModels, AcceptedMeansNoOthers};
ghost use Rattle.cc_corollaries.specs.Cnfs.{AskedMeansTheFirstOfThem, CompleteMeansAllOfThem, NoModelMeansNone};
ghost use Rattle.cc_corollaries.specs.Corollaries.{AskedMeansTheFirst, ClaimFailsMeansOneDoesNot, ClaimHoldsMeansAllMeetIt, CompleteMeansAll, ForeverFailsMeansOneDoesNot, ForeverFindsTheFirst, ForeverMeansAlways, ForeverMeansNoPlan, NoHistoryMeansNone};
ghost use Rattle.cc_corollaries.specs.Models.{AskedMeansTheFirstModels, CompleteMeansAllModels, NoHistoryMeansNoModel};
ghost use Rattle.cc_corollaries.specs.Values.{NothingSureMeansNone, SureMeansSo};

use cc_describe::theorems::one_list_of_places;
use cc_dimacs::theorems::one_cnf;

/// List mode ends with code 1 over a query without a claim only where no path of a length of its range meets the conditions.
pub fn no_history_means_none()
    ensures { NoHistoryMeansNone }
{
    one_list_of_places();
}

/// List mode ends with code 0 over a query without a claim only where what it printed is all histories of the first horizon that has one.
pub fn complete_means_all()
    ensures { CompleteMeansAll }
{
    one_list_of_places();
}

/// List mode ends with code 0 over a query with a claim only where every path that meets the conditions meets the claim.
pub fn claim_holds_means_all_meet_it()
    ensures { ClaimHoldsMeansAllMeetIt }
{
    one_list_of_places();
}

/// List mode ends with code 1 over a query with a claim only where some path meets the conditions and not the claim.
pub fn claim_fails_means_one_does_not()
    ensures { ClaimFailsMeansOneDoesNot }
{
    one_list_of_places();
}

/// Forever mode ends with code 0 over a query with a claim only where every path meets it, of whatever length.
pub fn forever_means_always()
    ensures { ForeverMeansAlways }
{
    one_list_of_places();
}

/// Forever mode ends with code 1 over a query without a claim only where no path meets its conditions, of whatever length.
pub fn forever_means_no_plan()
    ensures { ForeverMeansNoPlan }
{
    one_list_of_places();
}

/// List mode ends where as many were listed as were asked for only where what it printed is the first so many histories.
pub fn asked_means_the_first()
    ensures { AskedMeansTheFirst }
{
    one_list_of_places();
}

/// Forever mode ends with code 0 over a query without a claim only where the history that it found is the least of the first horizon that has one.
pub fn forever_finds_the_first()
    ensures { ForeverFindsTheFirst }
{
    one_list_of_places();
}

/// Forever mode ends with code 1 over a query with a claim only where some path meets the conditions and not the claim.
pub fn forever_fails_means_one_does_not()
    ensures { ForeverFailsMeansOneDoesNot }
{
    one_list_of_places();
}

/// Sure mode ends with code 0 only where each value is certain, possible or impossible as it told.
pub fn sure_means_so()
    ensures { SureMeansSo }
{
    one_list_of_places();
}

/// Sure mode ends with code 1 only where no path of a length of the range meets the conditions.
pub fn nothing_sure_means_none()
    ensures { NothingSureMeansNone }
{
    one_list_of_places();
}

/// General mode ends with code 0 only where what it printed is all models of the first horizon that has one which meets the query.
pub fn complete_means_all_models()
    ensures { CompleteMeansAllModels }
{
    one_list_of_places();
}

/// General mode ends where as many were listed as were asked for only where what it printed is the first so many models.
pub fn asked_means_the_first_models()
    ensures { AskedMeansTheFirstModels }
{
    one_list_of_places();
}

/// General mode ends with code 1 only where no model of a horizon of the range meets the query.
pub fn no_history_means_no_model()
    ensures { NoHistoryMeansNoModel }
{
    one_list_of_places();
}

/// Check mode ends with code 0 only where the log blocks all histories of the horizons that it told.
pub fn accepted_means_no_others()
    ensures { AcceptedMeansNoOthers }
{
    one_list_of_places();
}

/// Forevercheck mode ends with code 0 only where each path that meets the conditions meets the claim, of whatever length.
pub fn accepted_means_for_ever()
    ensures { AcceptedMeansForEver }
{
    one_list_of_places();
}

/// Surecheck mode ends with code 0 only where no path that meets the conditions has a value that the log names.
pub fn accepted_means_impossible()
    ensures { AcceptedMeansImpossible }
{
    one_list_of_places();
}

/// Generalcheck mode ends with code 0 only where each row that the log names is a model.
pub fn accepted_means_models()
    ensures { AcceptedMeansModels }
{
    one_list_of_places();
}

/// Modelscheck mode ends with code 0 only where the log blocks all models of the CNF.
pub fn accepted_means_no_other_models()
    ensures { AcceptedMeansNoOtherModels }
{
    one_cnf();
}

/// Models mode ends with code 0 only where what it printed is all models of the CNF.
pub fn complete_means_all_of_them()
    ensures { CompleteMeansAllOfThem }
{
    one_cnf();
}

/// Models mode ends where as many were listed as were asked for only where what it printed is the first so many models.
pub fn asked_means_the_first_of_them()
    ensures { AskedMeansTheFirstOfThem }
{
    one_cnf();
}

/// Models mode ends with code 1 only where the CNF has no model.
pub fn no_model_means_none()
    ensures { NoModelMeansNone }
{
    one_cnf();
}
