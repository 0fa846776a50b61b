//! Where a session stands.
use cc_cdcl::Solver;
use cc_defs::EndWord;

/// What a section of a horizon searches for.
#[derive(Clone, Copy)]
pub(crate) enum Part {
    /// The histories of a query without a claim.
    Histories,
    /// A path that meets the conditions of a query with a claim.
    Conditions,
    /// One that does not meet the claim either.
    Claim,
}

/// What comes next.
#[derive(Drop)]
pub(crate) enum Phase {
    /// The heading of a section, or the ending behind the last horizon.
    Opening {
        part: Part,
    },
    /// A line of a section, or its next history. `listed` counts the histories that were told at the horizon.
    Searching {
        part: Part,
        solver: Solver,
        listed: u32,
    },
    /// The line that denies the history that was told.
    Denying {
        solver: Solver,
        listed: u32,
    },
    /// The end line of a section with an empty clause.
    Refuted {
        part: Part,
        listed: u32,
    },
    /// What is said of a section that has ended.
    Closed {
        part: Part,
        word: EndWord,
        listed: u32,
    },
    /// The ending behind a counterexample.
    Failing,
    /// Nothing: the ending was given, or a call failed.
    Ended,
}
