//! Tells why the positions of a row have their values, each by a line.
ghost use Rattle.std.specs.Prelude.{◌≡◌, ◌++◌, ◌<◌, ℕ, [], IfOk, OnOk, Some, decimal, length, map, option_map, slice_index, slice_index_or, string_bytes};
ghost use Rattle.cc_defs.specs.Description.{Description};
ghost use Rattle.cc_defs.specs.Resolved.{plain_base_law};
ghost use Rattle.cc_ports.specs.declared.desk.To.TheVariants as outputs;
ghost use Rattle.cc_print.specs.Atoms.{IsAtomOf};
ghost use Rattle.cc_sorts.specs.Tables.{IsSignatureFor};
ghost use Rattle.cc_tell.specs.Names.{AreNamesOf};
ghost use Rattle.cc_tell_modes.specs.CauseTexts as texts;
ghost use Rattle.cc_tell_modes.specs.CauseTexts.{why_text};
ghost use Rattle.cc_tell.specs.Steps.{Step};
ghost use Rattle.cc_tell.specs.Givens.{given_to};
ghost use Rattle.cc_why.specs.Causes.{causes_at};

use cc_defs::{BaseLaw, Name, OutOfMemory, Sig};
use cc_ports::{Desk, To};
use cc_print::atom_text;
use cc_sorts::Table;
use cc_tell::{Stop, give};
use cc_why::Cause;
use std::alloc::Global;

/// The name of the file with a number; an empty one where there is none.
fn file_name<'n>(names: &'n [Name], file: u32) -> &'n str
    ensures { result.now ≡ slice_index_or names.now file [] }
{
    match names.get(file as usize) {
        Some(name) => name.text(),
        None => "",
    }
}

/// Writes a number in decimal.
pub(crate) fn push_number(text: &mut String, number: u32) -> Result<(), OutOfMemory>
    ensures { OnOk result (string_bytes text.new ≡ string_bytes text.old ++ decimal number) }
{
    write!(text, "{number}")?;
    Ok(())
}

/// The place of a law: its file and its line.
fn place_text(alloc: Global, names: &[Name], file: u32, line: u32) -> Result<String, OutOfMemory>
    ensures { IfOk result (λ text. string_bytes text ≡ texts.place_text names.now file line) }
{
    let mut text = String::from_str(alloc, file_name(names, file))?;
    text.push_str(":")?;
    push_number(&mut text, line)?;
    Ok(text)
}

/// The place of a law; an empty text where there is none.
fn law_text(alloc: Global, names: &[Name], law: Option<&BaseLaw>) -> Result<String, OutOfMemory>
    ensures { IfOk result (λ text. string_bytes text
        ≡ texts.law_text names.now (option_map (λ law. plain_base_law law.now) law.entry)) }
{
    match law {
        Some(BaseLaw::One(law)) => place_text(alloc, names, law.file, law.line),
        Some(BaseLaw::NoConcurrency { file, line }) => place_text(alloc, names, *file, *line),
        None => Ok(String::new(alloc)),
    }
}

/// The words of a cause.
fn cause_text(
    alloc: Global,
    files: &[Name],
    laws: &[BaseLaw],
    cause: Cause,
) -> Result<String, OutOfMemory>
    ensures { IfOk result (λ text. string_bytes text ≡ texts.cause_text files.now
        (map plain_base_law laws.now) (Some cause)) }
{
    match cause {
        Cause::OneValue => Ok(String::from_str(alloc, "one value")?),
        Cause::Initial => Ok(String::from_str(alloc, "initial")?),
        Cause::Law(base) => law_text(alloc, files, laws.get(base as usize)),
    }
}

/// The line that says why a position has the value of an index.
fn cause_line(
    alloc: Global,
    table: &Table,
    sig: &Sig,
    files: &[Name],
    laws: &[BaseLaw],
    position: u64,
    value: u32,
    cause: Cause,
) -> Result<String, OutOfMemory>
    requires signature { IsSignatureFor table.now sig.now }
    requires atom { IsAtomOf sig.now position value }
    ensures { (d : Description) → AreNamesOf table.now sig.now d →
        d.laws ≡ map plain_base_law laws.now → IfOk result (λ line.
        string_bytes line ≡ texts.cause_line d files.now position value (Some cause)) }
{
    let atom = atom_text(alloc, table, sig, position, value)?;
    let cause = cause_text(alloc, files, laws, cause)?;
    let mut line = String::from_str(alloc, atom.text())?;
    line.push_str(": ")?;
    line.push_str(&cause)?;
    line.push_str("\n")?;
    Ok(line)
}

/// Tells why a position has the value of an index.
fn tell_cause<D: Desk>(
    alloc: Global,
    desk: &mut D,
    table: &Table,
    sig: &Sig,
    files: &[Name],
    laws: &[BaseLaw],
    position: u64,
    value: u32,
    cause: Cause,
) -> Result<(), Stop>
    requires signature { IsSignatureFor table.now sig.now }
    requires atom { IsAtomOf sig.now position value }
    ensures { (d : Description) → AreNamesOf table.now sig.now d →
        d.laws ≡ map plain_base_law laws.now →
        Step (given_to outputs.Out (texts.cause_line d files.now position value
        (Some cause))) (D.seen desk.old) (D.seen desk.new) result }
{
    let line = cause_line(alloc, table, sig, files, laws, position, value, cause)?;
    give(desk, To::Out, line.as_bytes())
}

/// Tells why each position of a row has its value, in order, each by one of the causes. `files` are the names of the files that were
/// opened, `laws` the base laws that causes name by number.
pub fn tell_causes<D: Desk>(
    alloc: Global,
    desk: &mut D,
    table: &Table,
    sig: &Sig,
    files: &[Name],
    laws: &[BaseLaw],
    row: &[u32],
    causes: &[Cause],
) -> Result<(), Stop>
    requires signature { IsSignatureFor table.now sig.now }
    requires atoms { (position : ℕ) → position < length row.now →
        IsAtomOf sig.now position (slice_index row.now position) }
    requires each { length causes.now ≡ length row.now }
    ensures { (d : Description) (horizon : ℕ) → AreNamesOf table.now sig.now d →
        d.laws ≡ map plain_base_law laws.now →
        map (λ cause. Some cause) causes.now ≡ causes_at d horizon row.now →
        Step (given_to outputs.Out (why_text d files.now horizon row.now))
        (D.seen desk.old) (D.seen desk.new) result }
{
    for position in 0..row.len() {
        let value = row[position];
        tell_cause(
            alloc,
            desk,
            table,
            sig,
            files,
            laws,
            position as u64,
            value,
            causes[position],
        )?;
    }
    Ok(())
}
