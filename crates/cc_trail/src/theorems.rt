//! Theorems on trails, each the contract of a function with no body.
ghost use Rattle.cc_trail.specs.TrailLaws.{AddingKeepsFit, AddingKeepsSettled};

/// A clause that is added to a kernel keeps the fit of a trail.
pub fn adding_keeps_fit()
    ensures { AddingKeepsFit }
{}

/// A clause that is added to a kernel keeps a trail settled where, at each level below the last one, what is true up to
/// that level makes one of its literals true or leaves two of them without a value.
pub fn adding_keeps_settled()
    ensures { AddingKeepsSettled }
{}
