//! Why no more of a case is shown.
use cc_defs::{Fault, OutOfMemory, Refusal};
use std::alloc::{AllocError, AllocFailed};
use std::fmt::Write;

/// Why no more of a case is shown.
#[derive(Clone, Copy)]
pub(crate) enum Halt {
    Refused(Refusal),
    ReadFault,
    /// There is no query of the number that is asked for.
    Query,
    /// The horizon is none of the query's.
    Horizon,
    /// The histories of the query cannot be listed after the row.
    Key,
    /// The search went on for too long.
    Search,
    /// A template puts together another clause list than the one that is made rule by rule.
    Ways,
    /// The log has more bytes than a log may have.
    Log,
    OutOfMemory,
}

impl From<Fault> for Halt {
    fn from(fault: Fault) -> Self {
        match fault {
            Fault::Refused(refusal) => Halt::Refused(refusal),
            Fault::OutOfMemory => Halt::OutOfMemory,
        }
    }
}

impl From<OutOfMemory> for Halt {
    fn from(_: OutOfMemory) -> Self {
        Halt::OutOfMemory
    }
}

impl From<AllocError> for Halt {
    fn from(_: AllocError) -> Self {
        Halt::OutOfMemory
    }
}

impl<T: Drop> From<AllocFailed<T>> for Halt {
    fn from(_: AllocFailed<T>) -> Self {
        Halt::OutOfMemory
    }
}

fn show_refusal(out: &mut String, refusal: Refusal) -> Result<(), OutOfMemory> {
    let number = refusal.number;
    write!(out, "refused {number}")?;
    if let Some(limit) = refusal.limit {
        let most = limit.number();
        out.push_str(" ")?;
        out.push_str(limit.name())?;
        write!(out, " {most}")?;
    }
    out.push_str("\n")?;
    Ok(())
}

fn show_words(out: &mut String, words: &str) -> Result<(), OutOfMemory> {
    out.push_str(words)?;
    out.push_str("\n")?;
    Ok(())
}

/// Why no more is shown, in a line.
pub(crate) fn show_halt(out: &mut String, halt: Halt) -> Result<(), OutOfMemory> {
    match halt {
        Halt::Refused(refusal) => show_refusal(out, refusal),
        Halt::ReadFault => show_words(out, "read fault"),
        Halt::Query => show_words(out, "no such query"),
        Halt::Horizon => show_words(out, "horizon outside the range"),
        Halt::Key => show_words(out, "no key of the query"),
        Halt::Search => show_words(out, "search unfinished"),
        Halt::Ways => show_words(out, "two clause lists"),
        Halt::Log => show_words(out, "log too long"),
        Halt::OutOfMemory => Err(OutOfMemory),
    }
}
