//! The text of a made description.
ghost use Rattle.std.specs.Prelude.{◌≡◌, ◌≤◌, ◌++◌, ◌-◌, IfOk, OnOk, decimal, string_bytes};
ghost use Rattle.cc_make.specs.Locks.{law_behind, line, made_text, name_behind, of_each, query_line};

use cc_defs::{OutOfMemory, Text};
use std::alloc::Global;
use std::fmt::Write;

/// A description of locks in a row, `k1` to `kN` for the size N. A lock can be turned once, and each but the first only
/// where the one before it is unlocked. The query begins with all of them locked, and asks at horizons 0 to N for the last
/// one unlocked.
pub fn make_text(alloc: Global, size: u32) -> Result<Text, OutOfMemory>
    requires { 1 ≤ size }
    ensures { IfOk result (λ text. text ≡ made_text size) }
{
    let mut text = String::from_str(alloc, ":- sorts lock.\n:- objects k1")?;
    push_names(&mut text, size)?;
    text.push_str(HEAD)?;
    push_laws(&mut text, size)?;
    push_query(&mut text, size)?;
    Ok(Text::of(text))
}

/// What stands between the names of the locks and the laws of those behind others.
const HEAD: &str =
    " :: lock.\n:- variables L :: lock.\n:- constants unlocked(lock) :: inertialFluent; turn(lock) :: exogenousAction.\nturn(L) causes unlocked(L).\nnonexecutable turn(L) if unlocked(L).\n";

/// Writes the names of the locks behind the first one.
fn push_names(text: &mut String, size: u32) -> Result<(), OutOfMemory>
    requires { 1 ≤ size }
    ensures { OnOk result
        (string_bytes text.new ≡ string_bytes text.old ++ of_each name_behind (size - 1)) }
{
    for lock in 0..size - 1 {
        push_name(text, lock + 1)?;
    }
    Ok(())
}

/// Writes the name of the lock behind this one.
fn push_name(text: &mut String, lock: u32) -> Result<(), OutOfMemory>
    requires { lock ≤ 4294967294 }
    ensures { OnOk result (string_bytes text.new ≡ string_bytes text.old ++ name_behind lock) }
{
    text.push_str(", k")?;
    push_number(text, lock + 1)
}

/// Writes the laws of the locks behind the first one.
fn push_laws(text: &mut String, size: u32) -> Result<(), OutOfMemory>
    requires { 1 ≤ size }
    ensures { OnOk result
        (string_bytes text.new ≡ string_bytes text.old ++ of_each law_behind (size - 1)) }
{
    for lock in 0..size - 1 {
        push_law(text, lock + 1)?;
    }
    Ok(())
}

/// Writes the law of the lock behind this one.
fn push_law(text: &mut String, lock: u32) -> Result<(), OutOfMemory>
    requires { lock ≤ 4294967294 }
    ensures { OnOk result (string_bytes text.new ≡ string_bytes text.old ++ law_behind lock) }
{
    push_line(
        text,
        "nonexecutable turn(k",
        lock + 1,
        ") if -unlocked(k",
        lock,
        ").",
    )
}

/// Writes the query.
fn push_query(text: &mut String, size: u32) -> Result<(), OutOfMemory>
    ensures { OnOk result (string_bytes text.new ≡ string_bytes text.old ++ query_line size) }
{
    push_line(
        text,
        ":- query maxstep :: 0..",
        size,
        "; 0: [/\\L | -unlocked(L)]; maxstep: unlocked(k",
        size,
        ").",
    )
}

/// Writes a line with two numbers.
fn push_line(
    text: &mut String,
    front: &str,
    first: u32,
    middle: &str,
    second: u32,
    last: &str,
) -> Result<(), OutOfMemory>
    ensures { OnOk result (string_bytes text.new ≡ string_bytes text.old
        ++ line (front.now ++ decimal first ++ middle.now ++ decimal second ++ last.now)) }
{
    text.push_str(front)?;
    push_number(text, first)?;
    text.push_str(middle)?;
    push_number(text, second)?;
    text.push_str(last)?;
    text.push_str("\n")?;
    Ok(())
}

/// Writes a number in decimal.
fn push_number(text: &mut String, number: u32) -> Result<(), OutOfMemory>
    ensures { OnOk result (string_bytes text.new ≡ string_bytes text.old ++ decimal number) }
{
    write!(text, "{number}")?;
    Ok(())
}
