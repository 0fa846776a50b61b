//! Whether a row is a history, and why each of its positions has its value: the first rule of the theory that causes it.
#![tactic(auto)]

mod cause;
mod history;
mod reasons;
pub mod theorems;

pub use cause::{Cause, Causes};
pub use history::is_history;
pub use reasons::why;
