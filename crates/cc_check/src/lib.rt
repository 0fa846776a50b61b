//! The lines of a log as they are read, from text or from bytes; logs of both versions, split into their sections; a checker of one
//! section, with blocks or without; and a checker of whole logs whose sections are silent, for each kind of heading. How lines are
//! written is cc_log's, whose calls are handed out here too; the verdict of a query's log is cc_judge's.
#![tactic(auto)]

mod clauses;
mod entry;
mod fault;
mod front;
mod judge;
mod line;
mod number;
mod reader;
mod sections;
mod silent;
mod text;
pub mod theorems;

pub use cc_log::{put_binary, put_line};
pub use entry::{heading_in, read_entry};
pub use fault::CheckFault;
pub use judge::{Finding, Verdict, check, find};
pub use line::{Heading, Kind, LineParts, heading_of, read_line};
pub use number::{Named, number_at};
pub use reader::{ChainReader, LiteralReader, NumberReader};
pub use sections::{Section, Sections};
pub use silent::{Silent, SilentVerdict, judge_silent};
pub use text::first_line;
