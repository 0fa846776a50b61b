//! Grounding: the laws of ground constants that base laws stand for, one for each instance, and the same of a query. Which
//! these are is said in cc_defs: `specs/Environments.antt` has the instances, `specs/Nodes.antt` the terms of formulas and
//! `specs/GroundLaws.antt` the ground laws. That they mean what they stand for are laws of cc_arena.
#![tactic(auto)]

mod bindings;
mod choosing;
mod conditions;
mod counting;
mod counts;
mod heads;
mod instances;
mod judged;
mod maker;
mod outermost;
mod pairs;
mod pieces;
mod queries;
mod sides;
mod sums;
pub mod theorems;
mod values;

pub use counts::{count_choices, count_instances};
pub use instances::{ground, ground_within};
pub use queries::ground_query;
