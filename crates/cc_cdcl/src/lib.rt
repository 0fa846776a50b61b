//! Conflict-driven search for the rows of clauses (Marques-Silva and Sakallah, GRASP, 1999; Moskewicz and others, Chaff, 2001; Eén and
//! Sörensson, MiniSat, 2003). What MiniSat's readers look for: `search` is search.rt (`search_on`), `analyze` is `learn` (analysis.rt),
//! `litRedundant` `is_redundant` (redundancy.rt), `pickBranchLit` choice.rt and, in the phase with restarts with which a section begins,
//! probe.rt, whose activities are those of VSIDS (order.rt); the conflict clause that analysis leaves has one literal of the last level
//! (the first unique implication point). A derived line is *earned*: an assignment that is closed under unit propagation over the clauses
//! before makes it unit, so it says what propagation did not give.
#![tactic(auto)]

mod analysis;
mod choice;
mod order;
mod places;
mod probe;
mod redundancy;
mod search;
mod shortening;
mod solver;
pub mod theorems;

pub use solver::{Solver, Step};
