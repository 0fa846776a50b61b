//! Theorems on clauses, on resolution and on the clause that denies a row, each the contract of a function with no body.
ghost use Rattle.cc_clauses.specs.Laws.{DenialDenies, DenialLeavesOthers, ResolventsAreSound, ResolventsAreUnique, SameLiteralsAreOneClause};

/// Each assignment that meets both parents meets their resolvent.
pub fn resolvents_are_sound()
    ensures { ResolventsAreSound }
{}

/// Two clauses have one resolvent on a variable.
pub fn resolvents_are_unique()
    ensures { ResolventsAreUnique }
{}

/// Two clauses with the same literals are one clause.
pub fn same_literals_are_one_clause()
    ensures { SameLiteralsAreOneClause }
{}

/// An assignment with a row does not meet the clause that denies the row.
pub fn denial_denies()
    ensures { DenialDenies }
{}

/// An assignment with another row meets it.
pub fn denial_leaves_others()
    ensures { DenialLeavesOthers }
{}
