//! Tests alone: the examples of the definitions, and the calls of plain data, ports and tokens, each with memory enough. They stand
//! apart from the crates that they call, since a crate with tests is proved twice.
#![tactic(auto)]

#[cfg(test)]
mod defs;
#[cfg(test)]
mod examples;
#[cfg(test)]
mod number_examples;
#[cfg(test)]
mod ports;
#[cfg(test)]
mod search_examples;
#[cfg(test)]
mod text;
