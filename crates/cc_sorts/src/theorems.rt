//! A theorem on declarations, the contract of a function with no body.
ghost use Rattle.cc_sorts.specs.Laws.{BelowIsLeast};

/// To be the same sort or below it is the least relation that has the pairs, and is reflexive and transitive.
pub fn below_is_least()
    ensures { BelowIsLeast }
{}
