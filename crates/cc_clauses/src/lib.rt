//! Clauses in one arena, and resolution.
#![tactic(auto)]

mod arena;
mod resolution;
pub mod theorems;

pub use arena::ClauseArena;
pub use resolution::{clash_on, resolve_into};
