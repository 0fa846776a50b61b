//! Books of cases.
//!
//! A book is a file of cases. A line that begins with `=== ` begins a case; the rest of the line is its title. A line that
//! begins with `--- ` begins a file of the case; the rest of the line is its name, and the lines up to the next line that
//! begins with `=== ` or `--- ` are its bytes, each with its line feed. What stands before the first case, or in a case
//! before its first file, is left out. Of files of one name the first counts.
#![tactic(auto)]

mod book;

pub use book::{body, bytes_named, cases, files, head, parts};
