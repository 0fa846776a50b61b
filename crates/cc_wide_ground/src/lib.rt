//! Grounding of laws with heads of any form.
#![tactic(auto)]

mod bases;
mod copies;
mod grounding;
mod joining;

pub use grounding::ground_wide;
