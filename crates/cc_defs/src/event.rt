//! What a search tells, in order.
use crate::{List, LogLine, Row};

/// How a listing, or the search for a counterexample to a claim, ends. Horizons are those that it ended at; `listed` counts
/// the histories that were told.
#[derive(Clone, Copy)]
pub enum Ending {
    /// Every history of the horizon was told.
    Complete { horizon: u32, listed: u32 },
    /// The asked number of histories was told.
    Asked { horizon: u32, listed: u32 },
    /// The budget of derived clauses was spent.
    Spent { horizon: u32, listed: u32 },
    /// No horizon of the range has a history.
    NoHistory,
    /// No path that meets the conditions goes against the claim, and there is such a path.
    ClaimHolds,
    /// No path meets the conditions.
    ClaimEmpty,
    /// A path that meets the conditions goes against the claim: it was told as the counterexample.
    ClaimFails,
}

/// One event of a search.
#[derive(Drop)]
pub enum Event {
    /// A line of the log.
    Log(LogLine),
    /// The horizon has no history.
    NoHistory { horizon: u32 },
    /// The next history of the horizon, numbered from 1.
    History { horizon: u32, number: u32 },
    /// No path of the horizon meets the conditions of the query with a claim.
    NoConditions { horizon: u32 },
    /// Every path of the horizon that meets the conditions meets the claim, and there is one.
    Holds { horizon: u32 },
    /// The least path of the horizon that meets the conditions and not the claim.
    Counterexample { horizon: u32 },
    /// The search has ended.
    Ended(Ending),
}

/// An event, with its row where it is a history or a counterexample.
#[derive(Drop)]
pub struct Told {
    pub event: Event,
    pub row: Option<Row>,
}

/// The events of a search without those of its log.
pub type Outcome = List<Told>;
