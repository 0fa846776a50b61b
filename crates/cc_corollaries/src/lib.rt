//! What the answers of the program mean, each the contract of a function: from what `run` promises to what one would quote.
#![tactic(auto)]

pub mod theorems;
