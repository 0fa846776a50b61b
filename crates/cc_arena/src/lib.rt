//! Ground terms in an arena, their truth, and the ground laws and queries that hold them.
#![tactic(auto)]

mod ground_laws;
mod terms;
pub mod theorems;

pub use ground_laws::{GroundCondition, GroundLaw, GroundQuery, Laws};
pub use terms::{Terms, one_formula, value};
