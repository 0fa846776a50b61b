//! Values of variables by decision levels, and unit propagation over watch links. What MiniSat calls `newDecisionLevel` with
//! `uncheckedEnqueue` is `decide`, `cancelUntil` is `back_to`, `propagate` has its name, and `attachClause` is `attach`; the reason of a
//! value is the number of the clause that was unit. A level is opened by each decision; level 0 has what is true by propagation alone.
#![tactic(auto)]

mod entries;
mod links;
mod nodes;
mod pairs;
mod propagation;
pub mod theorems;
mod trail;
mod visits;
mod watches;

pub use trail::Trail;
