//! Made descriptions, of any size: their text, and a desk that it is read from.
#![tactic(auto)]

mod desk;
mod text;

pub use desk::TextDesk;
pub use text::make_text;
