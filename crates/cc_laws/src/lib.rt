//! Laws and queries: whether their statements have a fault, and what they say, with numbers in place of names.
//!
//! What a function takes apart (a statement, a law, a formula, a term) is lent to it first, and where there are two, both have
//! the same lifetimes: a call that leaves such lifetimes at their places is proved in a fraction of the time.
#![tactic(auto)]

mod checks;
mod classes;
mod expansion;
mod forms;
mod head_parts;
mod heads;
mod made;
mod meaning;
mod mention;
mod misfits;
mod names;
mod pieces;
mod questions;
mod resolving;
mod steps;
mod sums;
pub mod theorems;
mod values;
mod variables;
mod walk;
mod wide;

pub use classes::{classify, definite};
pub use expansion::expand;
pub use questions::question;
pub use steps::query_steps;
pub use wide::expand_wide;
