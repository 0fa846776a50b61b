//! Tables of names: what a description declares, and its signature.
#![tactic(auto)]

mod declaration;
mod dictionary;
mod entering;
mod fault;
mod left;
mod lists;
mod numbers;
mod objects;
mod puts;
mod register;
mod shown;
mod signature;
mod sorts;
mod table;
pub mod theorems;

pub use table::Table;
