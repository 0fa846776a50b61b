//! Histories where the heads of laws are formulas of any form: candidates, and the rivals of a row.
#![tactic(auto)]

mod candidate;
mod candidate_clauses;
mod counting;
mod draft;
mod positions;
mod putting;
mod rival_clauses;
pub mod theorems;
mod timed;
mod walk;

pub use candidate::is_candidate;
pub use candidate_clauses::candidates;
pub use rival_clauses::rivals;
