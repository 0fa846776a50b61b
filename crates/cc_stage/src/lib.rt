//! A clause that is being derived, kept as marks of literals.
#![tactic(auto)]

mod marks;
mod order;
mod stage;

pub use stage::Stage;
