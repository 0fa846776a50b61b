//! What comes next in a run over candidates.
use cc_defs::LogLine;
use cc_search::Search;

/// What comes next.
#[derive(Drop)]
pub(crate) enum Phase {
    /// A horizon is opened, if there is one more.
    Opening,
    /// The next candidate of the horizon. The lines are those of the search among the candidates so far, blocks with them.
    Listing { search: Search, lines: Vec<LogLine> },
    /// Nothing: the ending was told, or a call failed.
    Ended,
}
