//! What the walk over the candidates of a horizon stops at.
use cc_defs::{List, LogLine, Row};

/// What the walk over candidates stops at.
#[derive(Drop)]
pub(crate) enum Halt {
    /// A candidate without a rival, as these lines show.
    Alone { row: Row, lines: List<LogLine> },
    /// A candidate over whose rivals the budget was spent in these lines.
    SpentOver { row: Row, lines: List<LogLine> },
    /// There are no more candidates.
    Exhausted,
    /// The budget was spent among the candidates.
    SpentAmong,
}
