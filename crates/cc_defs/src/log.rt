//! The lines of a log: what a search tells of its derivations, so that another program can check them.
ghost use Rattle.std.specs.Prelude.{◌≡◌};
ghost use Rattle.cc_defs.specs.LogTexts.{cause_words};

use crate::{Lits, Nums, Row};

/// The word that ends a section of a log.
#[derive(Clone, Copy, PartialEq, Eq)]
pub enum EndWord {
    /// One of its clauses is empty: there is nothing more to be found.
    Empty,
    /// A row was found, and the search went no further.
    Found,
    /// The budget of derived lines was spent.
    Spent,
}

/// How the lines of a log are written.
#[derive(Clone, Copy, PartialEq, Eq)]
pub enum Version {
    /// As text, for reading.
    First,
    /// As entries of numbers in bytes, for keeping.
    Second,
}

/// A line of a log.
#[derive(Drop)]
pub enum LogLine {
    /// The heading of a section: the search for histories at a horizon; or, with `conditions`, that for a path that meets
    /// the conditions of a query with a claim.
    Section { conditions: bool, horizon: u32 },
    /// A clause that is got by resolution. The chain is the number of an earlier clause, from 1, and then pairs of a pivot
    /// variable and the number of the earlier clause that is resolved with on it.
    Derived { clause: Lits, chain: Nums },
    /// A row that was found. It adds the clause that denies it.
    Block { row: Row },
    /// The end of a section.
    End(EndWord),
}

/// What is wrong with a line of a log, in the order in which it is looked for.
#[derive(Clone, Copy, Debug, PartialEq, Eq)]
pub enum Cause {
    /// The first line is not the header.
    Header,
    /// It is no line of a log, or has no line feed at its end.
    Form,
    /// It is out of its place, or an end word is against the clauses.
    Section,
    /// A literal's variable is past the last, or the literals do not ascend.
    Literal,
    /// A clause that is named is not an earlier one.
    Number,
    /// There is no resolvent on a pivot.
    Pivot,
    /// The resolvent is another clause.
    Clause,
    /// The indexes are no row of the horizon.
    Row,
    /// The section does not show that there is nothing to be found.
    NotRefuted,
}

impl Cause {
    /// What is wrong, in the words that are printed.
    pub fn words(self) -> &'static str
        ensures { result.now ≡ cause_words self }
    {
        match self {
            Cause::Header => "header",
            Cause::Form => "form",
            Cause::Section => "section",
            Cause::Literal => "literal",
            Cause::Number => "number",
            Cause::Pivot => "pivot",
            Cause::Clause => "clause",
            Cause::Row => "row",
            Cause::NotRefuted => "not refuted",
        }
    }
}

/// What a checker says of a log.
#[derive(Clone, Copy)]
pub enum LogVerdict {
    /// Each line is right: the horizons from the first to the last have no history but the blocked rows, all sections
    /// together.
    Accepted { from: u32, to: u32, blocked: u64 },
    /// The first wrong line, from 1, and the first cause that it has.
    Refused { line: u32, cause: Cause },
}
