//! CNF in the DIMACS form: its texts as clauses, clauses as the axioms of a section, and the clause list of a section as such a text.
#![tactic(auto)]

mod cnf;
mod export;
mod form;
mod lines;
mod progress;
mod read;
pub mod theorems;
mod words;

pub use cnf::{Clauses, Cnf};
pub use export::{export_heading, export_line, export_text};
pub use form::cnf_form;
pub use read::read_cnf;
