//! Causal laws and queries whose names are resolved.
use crate::{At, Formula, LawKind, List, Name, Term};

/// What a variable of a law goes over: the objects of a sort and of those below it, or the values of a symbol.
#[derive(Clone, Copy)]
pub enum Range {
    Sort(u32),
    Domain(u32),
}

/// The head of a causal law: a constant has a value, or falsity.
#[derive(Drop)]
pub enum Head {
    Atom {
        symbol: u32,
        args: List<Term>,
        value: Term,
    },
    Falsity,
}

/// A causal law `caused head if body after after`, for all values of its variables for which the test is true. Variable
/// number k goes over range number k. The place is that of its statement: the number of the file, from 0, and the line,
/// from 1.
#[derive(Drop)]
pub struct Law {
    pub ranges: List<Range>,
    pub head: Head,
    pub body: Formula,
    /// There exactly for a fluent dynamic law.
    pub after: Option<Formula>,
    pub test: Formula,
    pub kind: LawKind,
    pub file: u32,
    pub line: u32,
}

/// A law of a description: a causal law, or that no two Boolean actions are done at once.
#[derive(Drop)]
pub enum BaseLaw {
    One(Law),
    NoConcurrency { file: u32, line: u32 },
}

/// The laws of a description, in the order of its text.
pub type BaseLaws = List<BaseLaw>;

/// A formula that is to hold at a step.
#[derive(Drop)]
pub struct Condition {
    pub at: At,
    pub formula: Formula,
}

/// A query: the least and the greatest horizon that are tried, the conditions that histories are to meet, and the claim
/// that is asked of them. Its formulas have no free variable. The place is that of its statement.
pub struct Query {
    pub label: Option<Name>,
    pub range: Option<(u32, u32)>,
    pub conditions: List<Condition>,
    pub claim: Option<Condition>,
    pub file: u32,
    pub line: u32,
}

// By hand, so that whoever lets a query go has one call there, and not a drop for each field.
impl Drop for Query {
    fn drop(self) {
        let Query {
            label: _,
            range: _,
            conditions: _,
            claim: _,
            file: _,
            line: _,
        } = self;
    }
}

/// The queries of a description, in the order of its text.
pub type Queries = List<Query>;
