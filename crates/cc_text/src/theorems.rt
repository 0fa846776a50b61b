//! Theorems on the cut of a text, each the contract of a function with no body.
ghost use Rattle.cc_text.specs.Laws.{OneCut, OneStop, CutsOrStops, CutOrStop, StatementsAreTokens};

/// A text has at most one cut.
pub fn one_cut()
    ensures { OneCut }
{}

/// A text stops at one place at most, for one reason.
pub fn one_stop()
    ensures { OneStop }
{}

/// A text that has a cut into short tokens does not stop.
pub fn cuts_or_stops()
    ensures { CutsOrStops }
{}

/// Each text has a cut into short tokens, or stops.
pub fn cut_or_stop()
    ensures { CutOrStop }
{}

/// The statements of a text that has a cut into short tokens are of such tokens.
pub fn statements_are_tokens()
    ensures { StatementsAreTokens }
{}
