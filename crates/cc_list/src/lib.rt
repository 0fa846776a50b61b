//! List mode, and what the modes have in common: what each promises, what words name of a description and what of it is asked, ground,
//! and a search that is told event by event.
#![tactic(auto)]

mod asked;
mod asking;
mod listing;
mod running;
mod searching;
pub mod theorems;

pub use asked::{laws_of, query_of};
pub use asking::{Prepared, prepare, query_asked, query_named};
pub use listing::list;
pub use running::run_list;
pub use searching::search;
