//! The clause list of a section: completion and query as clauses, each term with a variable of its own.
#![tactic(auto)]

mod builder;
mod copies;
mod defining;
mod draft;
mod form;
mod groups;
mod moving;
mod places;
mod rules;
mod section;
mod steps;
mod store;
mod template;
pub mod theorems;
mod writer;

pub use builder::Builder;
pub use draft::Draft;
pub use form::{Form, clauses};
pub use template::Template;
