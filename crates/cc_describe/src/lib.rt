//! Descriptions of several files: what they say, or the first refusal.
#![tactic(auto)]

mod description;
mod files;
mod heads;
mod labels;
mod progress;
pub mod theorems;

pub use description::{DescribeStop, Described, DescribedWide, describe, describe_with};
pub use heads::Heads;
