//! Every horizon at once: what an induction over the last states of a path proves.
#![tactic(auto)]

mod induction;
pub mod theorems;

pub use induction::Induction;
