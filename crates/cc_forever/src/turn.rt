//! What a run on every horizon tells, turn by turn.
use cc_defs::{List, LogLine, Row};
use cc_silent::ForeverHeading;

/// What is told next.
#[derive(Drop)]
pub enum ForeverTurn {
    /// A horizon has no history; with the lines of the section that shows it, its heading aside.
    NoHistory {
        horizon: u32,
        lines: List<LogLine>,
    },
    /// The induction over so many steps fails.
    Fails {
        steps: u32,
    },
    /// The induction over so many steps holds, so no horizon has a history; with the lines of the section that shows it, its heading
    /// aside.
    Holds {
        steps: u32,
        lines: List<LogLine>,
    },
    /// The first horizon that has a history, and the least one.
    Found {
        horizon: u32,
        row: Row,
    },
    /// No horizon is left to look at, and the induction over so many steps failed last: the least history of its step.
    Unsettled {
        steps: u32,
        example: Row,
    },
    /// The budget was spent in the search for a history of a horizon or of a step; with the lines of its section, its heading aside.
    Spent {
        heading: ForeverHeading,
        lines: List<LogLine>,
    },
}
