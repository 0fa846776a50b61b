//! A run, from words and files to the printed answer.
#![tactic(auto)]

mod cnfs;
mod judging;
mod mode;
mod modes;
mod rows;
mod top;
mod unclaimed;
mod wide;
mod wide_laws;

pub use cc_tell::Status;
pub use top::{run, run_still};
