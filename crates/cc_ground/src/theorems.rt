//! Theorems on what is grounded, each the contract of a function with no body.
ghost use Rattle.cc_ground.specs.Laws.{DeclaredHaveOwnValues, DeclaredHaveTheirKinds, DeclaredHaveTheirValues};

/// The values of a declared constant are different.
pub fn declared_have_own_values()
    ensures { DeclaredHaveOwnValues }
{}

/// A declared constant has the kind of its symbol.
pub fn declared_have_their_kinds()
    ensures { DeclaredHaveTheirKinds }
{}

/// A declared constant has the values of its symbol, and `boolean` begins with `false` and `true`.
pub fn declared_have_their_values()
    ensures { DeclaredHaveTheirValues }
{}
