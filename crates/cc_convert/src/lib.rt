//! The lines of an accepted log, one after another, so that it can be written in its other version, and those of a right section.
#![tactic(auto)]

mod held;
mod lines;
mod said;
pub mod theorems;

pub use lines::{LogLines, lines_of};
pub use said::{behind_header, said_line, version_of};
