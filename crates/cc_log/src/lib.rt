//! The lines of a log as they are written, as text or in bytes, and what a written log tells: its lines, in either version, and the
//! verdict that both versions have. What reads and judges logs is cc_check's.
#![tactic(auto)]

mod binary;
mod put;
pub mod theorems;

pub use binary::put_binary;
pub use put::put_line;
