//! Theorems on causes, each the contract of a function with no body.
ghost use Rattle.cc_why.specs.Laws.{SourcedAreRules};

/// The rules of a horizon with their causes are the rules of the horizon, in the same order.
pub fn sourced_are_rules()
    ensures { SourcedAreRules }
{}
