//! Listing by the definition of a model, for laws with heads of any form (`General`). The check of a log of what it found
//! (`check_general`) is that of cc_silent.
#![tactic(auto)]

mod general;
mod halt;
mod phase;
mod queue;
mod steps;
pub mod theorems;
mod turn;
mod turns;

pub use cc_silent::{GeneralVerdict, check_general};
pub use general::General;
pub use turn::GeneralTurn;
pub use turns::GeneralTurns;
