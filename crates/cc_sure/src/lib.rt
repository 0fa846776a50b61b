//! What is certain, possible and impossible at the first horizon that has a history (`Sure`). The check of a log of what is impossible
//! (`check_sure`) is that of cc_silent.
#![tactic(auto)]

mod answer;
mod event;
mod examples;
mod phase;
mod queue;
mod steps;
mod sure;
pub mod theorems;
mod turn;
mod turns;

pub use answer::Answer;
pub use cc_silent::{AtomHeading, SureVerdict, check_sure};
pub use event::SureEvent;
pub use sure::Sure;
pub use turn::{SureStep, SureTurn};
pub use turns::SureTurns;
