//! What a run on certain and possible atoms tells, turn by turn.
use crate::answer::Answer;
use cc_defs::{List, LogLine, Row};

/// What is told next.
#[derive(Drop)]
pub enum SureTurn {
    /// A horizon has no history.
    NoHistory {
        horizon: u32,
    },
    /// A further example: the least history, or the least one that has an atom which no example before it has. They are
    /// numbered from 1.
    Example {
        number: u32,
        row: Row,
    },
    /// No history has the atom; with the lines of the section that shows it, its heading aside.
    Impossible {
        position: u64,
        value: u32,
        lines: List<LogLine>,
    },
    /// What is answered of each value of a position, in their order.
    Answers {
        position: u64,
        answers: List<Answer>,
    },
    /// All positions have their answers.
    Complete,
    /// No horizon has a history.
    NoneAtAll,
    /// The budget was spent in the search for a history of the horizon, or for one that has this atom; with the lines of its
    /// section, its heading aside.
    Spent {
        atom: Option<(u64, u32)>,
        lines: List<LogLine>,
    },
}

/// A turn, with the horizon that the run is at.
#[derive(Drop)]
pub struct SureStep {
    pub horizon: u32,
    pub turn: SureTurn,
}
