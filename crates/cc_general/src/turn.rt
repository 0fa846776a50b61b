//! What a run over candidates tells.
use cc_defs::{Ending, List, LogLine, Row};

/// What is told next.
#[derive(Drop)]
pub enum GeneralTurn {
    /// A horizon has no history.
    NoHistory {
        horizon: u32,
    },
    /// The next history of the horizon, numbered from 1; with the lines of the section that shows that it has no rival, its
    /// heading aside.
    History {
        horizon: u32,
        number: u32,
        row: Row,
        lines: List<LogLine>,
    },
    /// The listing has ended, and no search was spent.
    Ended(Ending),
    /// The budget was spent: among the candidates of the horizon, or over the rivals of this one; with the lines of its section,
    /// its heading aside. `listed` counts the histories that were told.
    Spent {
        horizon: u32,
        listed: u32,
        rivals_of: Option<Row>,
        lines: List<LogLine>,
    },
}
