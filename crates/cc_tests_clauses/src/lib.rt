//! Tests alone: the calls of terms, clauses, the kernel, the trail, the search and logs, each with memory enough. They stand apart from
//! the crates that they call, since a crate with tests is proved twice.
#![tactic(auto)]

#[cfg(test)]
mod arena;
#[cfg(test)]
mod binary;
#[cfg(test)]
mod cdcl;
#[cfg(test)]
mod check;
#[cfg(test)]
mod clauses;
#[cfg(test)]
mod entries;
#[cfg(test)]
mod forms;
#[cfg(test)]
mod kernel;
#[cfg(test)]
mod lines;
#[cfg(test)]
mod silent;
#[cfg(test)]
mod template;
#[cfg(test)]
mod trail;
