//! The clause list of a section, at each horizon of a query and behind a key, and what its search and its judges both say of a query:
//! which horizons are tried (specs/Horizons), what a log is about (specs/Subjects), and the lines of its sections (specs/Sections).
#![tactic(auto)]

mod forming;
mod keys;
mod lists;

pub use forming::form_at;
pub use keys::{fits, is_row};
pub use lists::Lists;
