//! Causal laws whose names are resolved, with heads of any form.
use cc_defs::{Formula, LawKind, List, Range};

/// A causal law `caused head if body after after`, for all values of its variables for which the test is true, but for those
/// where the head is one definite atom that is not there. Variable number k goes over range number k. The place is that of its
/// statement: the number of the file, from 0, and the line, from 1.
#[derive(Drop)]
pub struct WideLaw {
    pub ranges: List<Range>,
    pub head: Formula,
    pub body: Formula,
    /// There exactly for a fluent dynamic law.
    pub after: Option<Formula>,
    pub test: Formula,
    pub kind: LawKind,
    pub file: u32,
    pub line: u32,
}

/// A law of a description: a causal law, or that no two Boolean actions are done at once.
#[derive(Drop)]
pub enum WideBase {
    One(WideLaw),
    NoConcurrency { file: u32, line: u32 },
}

/// The laws of a description, in the order of its text.
pub type WideLaws = List<WideBase>;
