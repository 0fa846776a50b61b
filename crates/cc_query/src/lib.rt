//! The session of a search, with its log: horizons, claims, keys (`Session`); and what every search of a section shares: the solver
//! over its clauses (`solver_of`), the lines that it tells, and how much is asked for. The clause list of a section (`form_at`), and
//! which keys and rows fit, are those of cc_lists.
#![tactic(auto)]

mod ask;
mod opening;
mod phase;
mod session;
mod shared;
pub mod theorems;

pub use ask::Ask;
pub use cc_lists::{fits, form_at, is_row};
pub use opening::solver_of;
pub use session::Session;
pub use shared::{block_line, budget_of, derived_line, is_asked, is_refuted};
