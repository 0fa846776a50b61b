//! Why a query has no history at a horizon: which conditions, laws, and values without causes exclude each other.
#![tactic(auto)]

pub mod theorems;
