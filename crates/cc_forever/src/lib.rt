//! Every horizon at once: a run that looks at one horizon after another, and after each tries an induction over as many steps, until the
//! induction holds or a horizon has a history.
#![tactic(auto)]

mod forever;
mod phase;
pub mod theorems;
mod turn;

pub use forever::Forever;
pub use turn::ForeverTurn;
