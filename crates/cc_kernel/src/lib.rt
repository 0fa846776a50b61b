//! Clauses by number, and resolution in stages.
#![tactic(auto)]

mod kernel;

pub use kernel::{Kernel, Origin};
