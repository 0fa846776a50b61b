//! The grammar: `parse` gives the one tree of a statement, or refuses it exactly where there is none. Readers of single
//! tokens (`tokens`), terms, formulas, declarations, queries and laws are each proved equal to a plain function on lists
//! (specs/), and these are proved to meet the grammar of cc_defs in both directions (proofs/).
#![tactic(auto)]

mod causal_laws;
mod declarations;
mod formulas;
mod frames;
mod items;
mod operators;
mod queries;
mod reading;
mod statement;
mod stop;
mod terms;
pub mod theorems;
mod tokens;
mod words;

pub use statement::{discard, parse};
