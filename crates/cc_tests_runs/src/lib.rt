//! Tests alone: the calls of words, made descriptions and printed texts, and of `run` and what it stands on. They stand apart from the
//! crates that they call, since a crate with tests is proved twice.
#![tactic(auto)]

#[cfg(test)]
mod calls;
#[cfg(test)]
mod engines;
#[cfg(test)]
mod make;
#[cfg(test)]
mod print;
#[cfg(test)]
mod runs;
#[cfg(test)]
mod words;
