//! What a run on certain and possible atoms tells, event by event, with the lines of its log.
use crate::answer::Answer;
use cc_defs::{LogLine, Row};

/// What is told next.
#[derive(Drop)]
pub enum SureEvent {
    /// A line of a section, or the heading of a search for a history of the horizon that was spent.
    Log(LogLine),
    /// The heading of a section on an atom: no history of the horizon has it, or the search for one that has it was spent.
    Heading {
        horizon: u32,
        position: u64,
        value: u32,
    },
    /// A horizon has no history.
    NoHistory {
        horizon: u32,
    },
    /// A further example: the least history of the horizon, or the least one that has an atom which no example before it has. They
    /// are numbered from 1.
    Example {
        horizon: u32,
        number: u32,
        row: Row,
    },
    /// What is answered of a value of a position.
    Answer {
        position: u64,
        value: u32,
        answer: Answer,
    },
    /// All positions have their answers.
    Complete,
    /// No horizon has a history.
    NoneAtAll,
    /// The budget was spent in a search at the horizon, whose section stands before this.
    Spent {
        horizon: u32,
    },
}
