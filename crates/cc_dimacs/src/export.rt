//! The clause list of a section as a text in the DIMACS form.
ghost use Rattle.std.specs.Prelude.{◌≡◌, ◌++◌, ◌∷◌, [], IfOk, OnOk, codes, decimal, flat_map, length, string_bytes};
ghost use Rattle.cc_defs.specs.LogTexts.{literal_text};
ghost use Rattle.cc_dimacs.specs.CnfTexts.{clause_line, export_of, heading_text};

use cc_defs::{Lit, OutOfMemory, Text};
use cc_form::Form;
use itoa::Buffer;
use std::alloc::Global;

// Writes the digits of a number.
fn push_number(text: &mut String, number: u32) -> Result<(), OutOfMemory>
    ensures { OnOk result (string_bytes text.new ≡ string_bytes text.old ++ decimal number) }
{
    let mut digits = Buffer::new();
    text.push_str(digits.format(number))?;
    Ok(())
}

// Writes a literal, and a space.
fn push_literal(text: &mut String, literal: Lit) -> Result<(), OutOfMemory>
    ensures { OnOk result
        (string_bytes text.new ≡ string_bytes text.old ++ (literal_text literal ++ codes " ")) }
{
    let sign = if literal.is_positive() { "" } else { "-" };
    text.push_str(sign)?;
    push_number(text, literal.variable())?;
    text.push_str(" ")?;
    Ok(())
}

// Writes each of the literals, and a space.
fn push_literals(text: &mut String, clause: &[Lit]) -> Result<(), OutOfMemory>
    ensures { OnOk result (string_bytes text.new ≡ string_bytes text.old
        ++ flat_map (λ literal. literal_text literal ++ codes " ") clause.now) }
{
    for literal in clause {
        push_literal(text, *literal)?;
    }
    Ok(())
}

// Writes the line of a clause.
fn push_clause(text: &mut String, clause: &[Lit]) -> Result<(), OutOfMemory>
    ensures { OnOk result
        (string_bytes text.new ≡ string_bytes text.old ++ clause_line clause.now) }
{
    push_literals(text, clause)?;
    text.push_str("0\n")?;
    Ok(())
}

// Writes the comment with the horizon, and the heading.
fn push_heading(
    text: &mut String,
    horizon: u32,
    variables: u32,
    count: u32,
) -> Result<(), OutOfMemory>
    ensures { OnOk result
        (string_bytes text.new ≡ string_bytes text.old ++ heading_text horizon variables count) }
{
    text.push_str("c ccalc horizon ")?;
    push_number(text, horizon)?;
    text.push_str("\np cnf ")?;
    push_number(text, variables)?;
    text.push_str(" ")?;
    push_number(text, count)?;
    text.push_str("\n")?;
    Ok(())
}

/// The first lines of the text of a clause list: a comment with the horizon, and the heading with the numbers of variables and
/// of clauses.
pub fn export_heading(alloc: Global, form: &Form, horizon: u32) -> Result<Text, OutOfMemory>
    ensures { IfOk result (λ text.
        text ≡ heading_text horizon form.now.variables (length form.now.clauses)) }
{
    let mut text = String::new(alloc);
    push_heading(&mut text, horizon, form.variables(), form.count())?;
    Ok(Text::of(text))
}

/// The line of a clause: its literals, a negation with a hyphen, a 0 behind them, and a line feed.
pub fn export_line(alloc: Global, clause: &[Lit]) -> Result<Text, OutOfMemory>
    ensures { IfOk result (λ text. text ≡ clause_line clause.now) }
{
    let mut text = String::new(alloc);
    push_clause(&mut text, clause)?;
    Ok(Text::of(text))
}

/// A clause list in the DIMACS form (1993): the heading with a comment on the horizon, and a line a clause, in order. Near the
/// limits it is some 400 MB; `export_heading` and `export_line` give it in pieces.
pub fn export_text(alloc: Global, form: &Form, horizon: u32) -> Result<Text, OutOfMemory>
    ensures { IfOk result (λ text. text ≡ export_of horizon
        (record { variables = form.now.variables; clauses = form.now.clauses })) }
{
    let mut text = String::new(alloc);
    push_heading(&mut text, horizon, form.variables(), form.count())?;
    for index in 0..form.count() {
        push_clause(&mut text, form.clause(index + 1))?;
    }
    Ok(Text::of(text))
}
