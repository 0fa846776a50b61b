//! Theorems on histories with heads of any form, each the contract of a function that does nothing, or calls one that it rests on.
ghost use Rattle.cc_rivals.specs.Supports.{ModelsAreSupported};
ghost use Rattle.cc_rivals.specs.Wides.{HistoriesHaveNoRivals, RivalListsTellRivals};

use cc_arena::theorems::terms_mean_formulas;

/// A row is a history exactly where it is a candidate that has no rival.
pub fn histories_have_no_rivals()
    ensures { HistoriesHaveNoRivals }
{}

/// The rows of the clause list of a row's rivals are these.
pub fn rival_lists_tell_rivals()
    ensures { RivalListsTellRivals }
{
    terms_mean_formulas();
}

/// The values of a model have causes: at each position with at least two values some rule whose test it meets has this atom for its
/// head, or a head of another form that names the position.
pub fn models_are_supported()
    ensures { ModelsAreSupported }
{
    terms_mean_formulas();
}
