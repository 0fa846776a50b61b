//! Theorems on the grammar, each the contract of a function with no body.
ghost use Rattle.cc_syntax.specs.Parsing.{OneTree, TreeOrRefusal};

/// A list of tokens is spelled by one tree at most.
pub fn one_tree()
    ensures { OneTree }
{}

/// Each list of tokens has a tree, or is refused.
pub fn tree_or_refusal()
    ensures { TreeOrRefusal }
{}
