//! The theory of a horizon: its rules in time, their completion, and what models have to do with both.
#![tactic(auto)]

mod counting;
mod groups;
mod index;
mod making;
mod rule;
pub mod theorems;
mod theory;

pub use counting::are_rules_few;
pub use making::{initial_rules, step_rules};
pub use rule::{Timed, TimedHead, TimedRule};
pub use theory::Theory;
