//! The bytes of log lines in version 2 of a log.
ghost use Rattle.std.specs.Prelude.{◌≡◌, ℕ, ◌++◌, ◌-◌, ◌<◌, ◌≤◌, ◌∷◌, [], Bool, true, IfOk, OnOk, flat_map, length, if◌then◌else◌};
ghost use Rattle.std.specs.List.{AllByRecursion};
ghost use Rattle.cc_defs.specs.declared.log.LogLine.TheVariants as lines;
ghost use Rattle.cc_defs.specs.LogBytes.{chain_behind, end_word_bytes, entry_bytes, line_behind, literal_bytes, number_bytes};
ghost use Rattle.cc_defs.specs.LogTexts.{IsFormed, IsShort, IsShortLiteral};
ghost use Rattle.cc_log.specs.Entries.{AreBefore, HasShortLists, NamesBefore};

use cc_defs::{Bytes, EndWord, Lit, LogLine, OutOfMemory};
use std::alloc::Global;

/// The bytes of a line in version 2 of a log, where its own clause would have this number: a chain is written as distances
/// from it.
pub fn put_binary(alloc: Global, line: &LogLine, own: u32) -> Result<Bytes, OutOfMemory>
    requires formed { IsFormed line.now }
    requires few { HasShortLists line.now }
    requires own { own ≤ 999999999 }
    requires before { NamesBefore own line.now }
    ensures { IfOk result (λ bytes. bytes ≡ entry_bytes (line_behind own line.now)) }
{
    let mut bytes = Vec::new(alloc);
    push_entry(&mut bytes, line, own)?;
    Ok(Bytes::of(bytes))
}

// Writes the bytes of a line.
fn push_entry(bytes: &mut Vec<u8>, line: &LogLine, own: u32) -> Result<(), OutOfMemory>
    requires formed { IsFormed line.now }
    requires few { HasShortLists line.now }
    requires before { NamesBefore own line.now }
    ensures { OnOk result
        (bytes.new.items ≡ bytes.old.items ++ entry_bytes (line_behind own line.now)) }
{
    match line {
        LogLine::Section {
            conditions: true,
            horizon,
        } => push_kind(bytes, 2, *horizon),
        LogLine::Section {
            conditions: false,
            horizon,
        } => push_kind(bytes, 1, *horizon),
        LogLine::Derived { clause, chain } => push_derived(
            bytes,
            clause.items(),
            chain.items(),
            own,
        ),
        LogLine::Block { row } => push_block(bytes, row.items()),
        LogLine::End(word) => push_end(bytes, *word),
    }
}

// Writes the byte of a kind of line, and the number behind it.
fn push_kind(bytes: &mut Vec<u8>, kind: u8, number: u32) -> Result<(), OutOfMemory>
    ensures { OnOk result (bytes.new.items ≡ bytes.old.items ++ (kind ∷ number_bytes number)) }
{
    bytes.push(kind)?;
    push_number(bytes, number)
}

fn push_derived(
    bytes: &mut Vec<u8>,
    clause: &[Lit],
    chain: &[u32],
    own: u32,
) -> Result<(), OutOfMemory>
    requires formed { AllByRecursion IsShortLiteral clause.now }
    requires few { IsShort (length clause.now) }
    requires short { IsShort (length chain.now) }
    requires before { AreBefore own chain.now }
    ensures { OnOk result (bytes.new.items
        ≡ bytes.old.items ++ entry_bytes (lines.Derived clause.now (chain_behind own chain.now))) }
{
    push_kind(bytes, 3, clause.len() as u32)?;
    push_literals(bytes, clause)?;
    push_number(bytes, (chain.len() / 2) as u32)?;
    push_chain(bytes, chain, own)
}

fn push_block(bytes: &mut Vec<u8>, row: &[u32]) -> Result<(), OutOfMemory>
    requires { IsShort (length row.now) }
    ensures { OnOk result (bytes.new.items ≡ bytes.old.items ++ entry_bytes (lines.Block row.now)) }
{
    push_kind(bytes, 4, row.len() as u32)?;
    push_numbers(bytes, row)
}

fn push_end(bytes: &mut Vec<u8>, word: EndWord) -> Result<(), OutOfMemory>
    ensures { OnOk result (bytes.new.items ≡ bytes.old.items ++ end_word_bytes word) }
{
    bytes.push(byte_of(word))?;
    Ok(())
}

fn byte_of(word: EndWord) -> u8
    ensures { end_word_bytes word ≡ result ∷ [] }
{
    match word {
        EndWord::Empty => 5,
        EndWord::Found => 6,
        EndWord::Spent => 7,
    }
}

// Writes seven bits of a number a byte, low bits first, with the high bit in all bytes but the last.
fn push_number(bytes: &mut Vec<u8>, number: u32) -> Result<(), OutOfMemory>
    ensures { OnOk result (bytes.new.items ≡ bytes.old.items ++ number_bytes number) }
{
    let mut left = number;
    while left >= 128 {
        bytes.push(128 + (left % 128) as u8)?;
        left /= 128;
    }
    bytes.push(left as u8)?;
    Ok(())
}

fn push_numbers(bytes: &mut Vec<u8>, numbers: &[u32]) -> Result<(), OutOfMemory>
    ensures { OnOk result (bytes.new.items ≡ bytes.old.items ++ flat_map number_bytes numbers.now) }
{
    for number in numbers {
        push_number(bytes, *number)?;
    }
    Ok(())
}

fn push_literals(bytes: &mut Vec<u8>, literals: &[Lit]) -> Result<(), OutOfMemory>
    requires { AllByRecursion IsShortLiteral literals.now }
    ensures { OnOk result
        (bytes.new.items ≡ bytes.old.items ++ flat_map literal_bytes literals.now) }
{
    for literal in literals {
        push_literal(bytes, *literal)?;
    }
    Ok(())
}

fn push_literal(bytes: &mut Vec<u8>, literal: Lit) -> Result<(), OutOfMemory>
    requires { IsShort literal.variable }
    ensures { OnOk result (bytes.new.items ≡ bytes.old.items ++ literal_bytes literal) }
{
    let variable = literal.variable();
    if literal.is_positive() {
        return push_number(bytes, 2 * variable);
    }
    push_number(bytes, 2 * variable + 1)
}

// Writes a chain: clauses by their distance from the own number, and pivots as they are.
fn push_chain(bytes: &mut Vec<u8>, chain: &[u32], own: u32) -> Result<(), OutOfMemory>
    requires { AreBefore own chain.now }
    ensures { OnOk result
        (bytes.new.items ≡ bytes.old.items ++ flat_map number_bytes (chain_behind own chain.now)) }
{
    let mut names = true;
    for number in chain {
        push_number(bytes, link_of(*number, own, names))?;
        names = !names;
    }
    Ok(())
}

// What stands for a number of a chain: where it names a clause its distance from the own number.
fn link_of(number: u32, own: u32, names: bool) -> u32
    requires { names ≡ true → number < own }
    ensures { result ≡ (if names then own - number else number) }
{
    if names { own - number } else { number }
}
