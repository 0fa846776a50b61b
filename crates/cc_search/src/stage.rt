//! Where the search of one section stands, and what it tells.
use cc_cdcl::Solver;
use cc_defs::{EndWord, LogLine};

/// What a search of one section tells next.
#[derive(Drop)]
pub enum Find {
    /// A derived line, or a block of the row that was told last.
    Line(LogLine),
    /// A row.
    Row,
    /// The end of the section.
    End(EndWord),
}

/// What comes next.
#[derive(Drop)]
pub(crate) enum Stage {
    /// A derived line, a row, or the end. `listed` counts the rows that were told.
    Searching { solver: Solver, listed: u32 },
    /// The line that denies the row that was told.
    Denying { solver: Solver, listed: u32 },
    /// The end of a section with an empty clause.
    Refuted,
    /// Nothing: the end was told, or a call failed.
    Ended,
}
