//! Theorems on CNF texts and clauses, each the contract of a function that does nothing.
ghost use Rattle.cc_dimacs.specs.Laws.{AxiomsTellModels, ExportsAreCnf, FaultsSpellNothing, OneCnf};

/// A text spells one list of clauses at most.
pub fn one_cnf()
    ensures { OneCnf }
{}

/// A text with a fault spells nothing.
pub fn faults_spell_nothing()
    ensures { FaultsSpellNothing }
{}

/// The rows of the clause list are the models, each with exactly one assignment to the variables.
pub fn axioms_tell_models()
    ensures { AxiomsTellModels }
{}

/// The text of clauses over at most 999,999,999 variables, as an export writes it, spells them.
pub fn exports_are_cnf()
    ensures { ExportsAreCnf }
{}
