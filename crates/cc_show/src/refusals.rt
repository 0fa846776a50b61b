//! Refusals.
use cc_defs::{Fault, LimitAt, OutOfMemory, Refusal};
use cc_describe::DescribeStop;
use std::fmt::Write;

fn show_limit(out: &mut String, limit: Option<LimitAt>) -> Result<(), OutOfMemory> {
    if let Some(limit) = limit {
        let number = limit.number();
        out.push_str(" ")?;
        out.push_str(limit.name())?;
        write!(out, " {number}")?;
    }
    Ok(())
}

/// A refusal behind what it refuses, with the name of its file, in a line.
pub(crate) fn show_refusal(
    out: &mut String,
    part: &str,
    refusal: &Refusal,
    file: &str,
) -> Result<(), OutOfMemory> {
    let number = refusal.number;
    let line = refusal.line;
    out.push_str(part)?;
    write!(out, "refused {number} ")?;
    out.push_str(refusal.name())?;
    show_limit(out, refusal.limit)?;
    if line > 0 {
        out.push_str(" ")?;
        out.push_str(file)?;
        write!(out, ":{line}")?;
    }
    out.push_str("\n")?;
    Ok(())
}

/// Why there is no description, in a line.
pub(crate) fn show_stop(out: &mut String, stop: &DescribeStop) -> Result<(), OutOfMemory> {
    match stop {
        DescribeStop::Refused { refusal, file } => show_refusal(out, "", refusal, file.text()),
        DescribeStop::ReadFault => {
            out.push_str("read fault\n")?;
            Ok(())
        }
        DescribeStop::OutOfMemory => Err(OutOfMemory),
    }
}

/// Why there are no ground laws or conditions, in a line.
pub(crate) fn show_fault(out: &mut String, part: &str, fault: &Fault) -> Result<(), OutOfMemory> {
    match fault {
        Fault::Refused(refusal) => show_refusal(out, part, refusal, ""),
        Fault::OutOfMemory => Err(OutOfMemory),
    }
}
