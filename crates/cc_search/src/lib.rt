//! The search of one section by itself (`Search`), and that for its least row (`search_one`).
#![tactic(auto)]

mod least;
mod search;
mod stage;

pub use least::{Outcome, search_one};
pub use search::Search;
pub use stage::Find;
