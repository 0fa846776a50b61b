//! Theorems on ground laws and queries, each the contract of a function that does nothing.
ghost use Rattle.cc_arena.specs.Laws.{FluentTermsFit, GroundLawsFit, GroundLawsMeanLaws, GroundQueriesFit, GroundQueriesMeanQueries, HeadsMeanHeads, HeadsThereAreGround, TermsMeanFormulas};

/// The term of a formula under an environment is true where the formula is, for every valuation.
pub fn terms_mean_formulas()
    ensures { TermsMeanFormulas }
{}

/// The head of a ground law is true where the law's head is.
pub fn heads_mean_heads()
    ensures { HeadsMeanHeads }
{}

/// A head is there exactly where it has a ground head.
pub fn heads_there_are_ground()
    ensures { HeadsThereAreGround }
{}

/// The ground laws of base laws mean these: there is one for each instance, in order.
pub fn ground_laws_mean_laws()
    ensures { GroundLawsMeanLaws }
{}

/// The conditions and the claim of a ground query mean those of the query.
pub fn ground_queries_mean_queries()
    ensures { GroundQueriesMeanQueries }
{}

/// The term of a fluent formula is one of fluents.
pub fn fluent_terms_fit()
    ensures { FluentTermsFit }
{}

/// The ground laws of base laws that have the forms of their kinds have these forms too: their heads and terms are of
/// fluents or of actions as theirs are, and each value index is below the number of its constant's values.
pub fn ground_laws_fit()
    ensures { GroundLawsFit }
{}

/// The terms of a ground query are of ground constants, with value indexes that these have.
pub fn ground_queries_fit()
    ensures { GroundQueriesFit }
{}
