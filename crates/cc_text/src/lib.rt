//! The tokens of a text.
//! A text is any bytes. `Tokens::read` cuts it into its tokens and its statements, whose words are slices of the text, or
//! says what is wrong first. `specs/Reading.antt` says what callers see, by the definitions of `cc_defs`.
#![tactic(auto)]

mod classes;
mod fronts;
mod marks;
mod scanner;
pub mod theorems;
mod tokens;

pub use tokens::Tokens;
