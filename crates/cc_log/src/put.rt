//! The texts of log lines.
ghost use Rattle.std.specs.Prelude.{◌≡◌, ◌++◌, ◌∷◌, ◌<◌, IfOk, OnOk, codes, decimal, flat_map, string_bytes};
ghost use Rattle.std.specs.List.{join_with_byte};
ghost use Rattle.cc_defs.specs.LogTexts.{IsFormed, end_word_text, line_parts, line_text, literal_text};

use cc_defs::{EndWord, Lit, LogLine, OutOfMemory, Text};
use itoa::Buffer;
use std::alloc::Global;

/// The text of a line, its line feed included.
pub fn put_line(alloc: Global, line: &LogLine) -> Result<Text, OutOfMemory>
    requires { IsFormed line.now }
    ensures { IfOk result (λ text. text ≡ line_text line.now) }
{
    let mut text = String::with_capacity(alloc, room_of(line))?;
    push_parts(&mut text, line)?;
    text.push('\n')?;
    Ok(Text::of(text))
}

// How many bytes a line mostly takes at the least.
fn room_of(line: &LogLine) -> usize {
    match line {
        LogLine::Section { .. } => 4,
        LogLine::Derived { clause, chain } => {
            let count = clause.items().len().saturating_add(chain.items().len());
            count.saturating_mul(4).saturating_add(8)
        }
        LogLine::Block { row } => row.items().len().saturating_mul(2).saturating_add(4),
        LogLine::End(_) => 8,
    }
}

// Writes the parts of a line, with a space between each two.
fn push_parts(text: &mut String, line: &LogLine) -> Result<(), OutOfMemory>
    ensures { OnOk result
        (string_bytes text.new ≡ string_bytes text.old ++ join_with_byte 32 (line_parts line.now)) }
{
    match line {
        LogLine::Section {
            conditions: true,
            horizon,
        } => push_after(text, "w", &[*horizon]),
        LogLine::Section {
            conditions: false,
            horizon,
        } => push_after(text, "h", &[*horizon]),
        LogLine::Derived { clause, chain } => push_derived(text, clause.items(), chain.items()),
        LogLine::Block { row } => push_after(text, "b", row.items()),
        LogLine::End(word) => push_end(text, *word),
    }
}

// Writes a letter, and a space and a number for each of the numbers.
fn push_after(text: &mut String, letter: &str, numbers: &[u32]) -> Result<(), OutOfMemory>
    ensures { OnOk result (string_bytes text.new ≡ string_bytes text.old
        ++ (letter.now ++ flat_map (λ number. 32 ∷ decimal number) numbers.now)) }
{
    text.push_str(letter)?;
    push_numbers(text, numbers)
}

fn push_derived(text: &mut String, clause: &[Lit], chain: &[u32]) -> Result<(), OutOfMemory>
    ensures { OnOk result (string_bytes text.new ≡ string_bytes text.old
        ++ (codes "d" ++ (flat_map (λ literal. 32 ∷ literal_text literal) clause.now
        ++ (codes " 0" ++ (flat_map (λ number. 32 ∷ decimal number) chain.now ++ codes " 0"))))) }
{
    text.push_str("d")?;
    push_literals(text, clause)?;
    text.push_str(" 0")?;
    push_numbers(text, chain)?;
    text.push_str(" 0")?;
    Ok(())
}

fn push_end(text: &mut String, word: EndWord) -> Result<(), OutOfMemory>
    ensures { OnOk result
        (string_bytes text.new ≡ string_bytes text.old ++ codes "e " ++ end_word_text word) }
{
    text.push_str("e ")?;
    text.push_str(text_of(word))?;
    Ok(())
}

fn text_of(word: EndWord) -> &'static str
    ensures { result.now ≡ end_word_text word }
{
    match word {
        EndWord::Empty => "empty",
        EndWord::Found => "found",
        EndWord::Spent => "spent",
    }
}

// Writes a space and a number, for each of the numbers.
fn push_numbers(text: &mut String, numbers: &[u32]) -> Result<(), OutOfMemory>
    ensures { OnOk result (string_bytes text.new
        ≡ string_bytes text.old ++ flat_map (λ number. 32 ∷ decimal number) numbers.now) }
{
    for number in numbers {
        text.push(' ')?;
        push_number(text, *number)?;
    }
    Ok(())
}

// Writes a number of one digit.
fn push_digit(text: &mut String, digit: u32) -> Result<(), OutOfMemory>
    requires { digit < 10 }
    ensures { OnOk result (string_bytes text.new ≡ string_bytes text.old ++ decimal digit) }
{
    text.push(char::from(b'0' + digit as u8))?;
    Ok(())
}

// Writes the digits of a number.
fn push_number(text: &mut String, number: u32) -> Result<(), OutOfMemory>
    ensures { OnOk result (string_bytes text.new ≡ string_bytes text.old ++ decimal number) }
{
    if number < 10 {
        return push_digit(text, number);
    }
    let mut digits = Buffer::new();
    text.push_str(digits.format(number))?;
    Ok(())
}

// Writes a space and a literal, for each of the literals.
fn push_literals(text: &mut String, literals: &[Lit]) -> Result<(), OutOfMemory>
    ensures { OnOk result (string_bytes text.new
        ≡ string_bytes text.old ++ flat_map (λ literal. 32 ∷ literal_text literal) literals.now) }
{
    for literal in literals {
        push_literal(text, *literal)?;
    }
    Ok(())
}

fn push_literal(text: &mut String, literal: Lit) -> Result<(), OutOfMemory>
    ensures { OnOk result
        (string_bytes text.new ≡ string_bytes text.old ++ 32 ∷ literal_text literal) }
{
    let sign = if literal.is_positive() { " " } else { " -" };
    text.push_str(sign)?;
    push_number(text, literal.variable())
}
