//! Theorems on what statements stand for, each the contract of a function with no body.
ghost use Rattle.cc_laws.specs.Laws.{ConstantsHaveForms, LawsHaveForms, QueriesHaveFormulas, StepsFit, WideConstantsHaveForms, WideLawsHaveForms};

/// The base laws of a law without a fault have the forms of their kinds.
pub fn laws_have_forms()
    ensures { LawsHaveForms }
{}

/// The base laws of declared constants have the forms of their kinds.
pub fn constants_have_forms()
    ensures { ConstantsHaveForms }
{}

/// The laws of a law without a fault, whose head may be of any form, have the forms of their kinds.
pub fn wide_laws_have_forms()
    ensures { WideLawsHaveForms }
{}

/// So have those of declared constants.
pub fn wide_constants_have_forms()
    ensures { WideConstantsHaveForms }
{}

/// What a query asks are formulas of declared constants.
pub fn queries_have_formulas()
    ensures { QueriesHaveFormulas }
{}

/// The steps of a query that is not refused are those of each of its horizons.
pub fn steps_fit()
    ensures { StepsFit }
{}
