//! The rules of a theory, by their heads.
ghost use Rattle.std.specs.Prelude.{◌<◌, ◌≤◌, length};
ghost use Rattle.cc_defs.specs.Signatures.{position_count};
ghost use Rattle.cc_theory.specs.Theories.{IsAtom};

use cc_defs::{Const, OutOfMemory};
use cc_theory::Theory;
use std::fmt::Write;

/// How many rules a theory has.
pub(crate) fn show_rules(out: &mut String, theory: &Theory<'_>) -> Result<(), OutOfMemory> {
    let count = theory.rules().len();
    write!(out, "rules {count}\n")?;
    Ok(())
}

/// Numbers, each behind a space, in a line.
fn show_numbers(out: &mut String, numbers: &[u32]) -> Result<(), OutOfMemory> {
    for number in numbers {
        write!(out, " {number}")?;
    }
    out.push_str("\n")?;
    Ok(())
}

/// The rules whose head is an atom.
fn show_atom(
    out: &mut String,
    theory: &Theory<'_>,
    position: u64,
    value: u32,
) -> Result<(), OutOfMemory>
    requires { IsAtom theory.now.signature theory.now.horizon position value }
{
    write!(out, "causes {position} {value}:")?;
    show_numbers(out, theory.completion(position, value))
}

/// How many values a constant has.
fn size_of(constant: &Const) -> u32
    ensures { result ≤ length constant.now.domain }
{
    match u32::try_from(constant.domain.items().len()) {
        Ok(size) => size,
        Err(_) => 0,
    }
}

/// The rules whose heads are the atoms of a position.
fn show_position(out: &mut String, theory: &Theory<'_>, position: u64) -> Result<(), OutOfMemory>
    requires { position < position_count theory.now.signature theory.now.horizon }
{
    let sig = theory.sig();
    let Some(count) = sig.fluents().checked_add(sig.actions()) else {
        return Ok(());
    };
    if count == 0 {
        return Ok(());
    }
    let constant = sig.constant((position % u64::from(count)) as u32);
    for value in 0..size_of(constant) {
        show_atom(out, theory, position, value)?;
    }
    Ok(())
}

/// The rules whose head is an atom, for each atom, and those whose head is falsity.
pub(crate) fn show_causes(out: &mut String, theory: &Theory<'_>) -> Result<(), OutOfMemory> {
    for position in 0..theory.sig().positions(theory.horizon()) {
        show_position(out, theory, position)?;
    }
    out.push_str("denials:")?;
    show_numbers(out, theory.denials())
}
