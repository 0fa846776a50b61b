//! Terms and formulas.
use crate::names::{object_name, sort_name, symbol_name};
use cc_defs::{Formula, OutOfMemory, Term};
use cc_sorts::Table;
use std::fmt::Write;

fn show_variable(out: &mut String, number: u32) -> Result<(), OutOfMemory> {
    write!(out, "X{number}")?;
    Ok(())
}

/// A term; a sum stands in parentheses, so that its groups are seen.
pub(crate) fn show_term(out: &mut String, table: &Table, term: &Term) -> Result<(), OutOfMemory> {
    match term {
        Term::Constant { symbol, args } => {
            out.push_str(symbol_name(table, *symbol))?;
            for (place, argument) in args.iter().enumerate() {
                out.push_str(if place == 0 { "(" } else { "," })?;
                show_term(out, table, argument)?;
            }
            if !args.is_empty() {
                out.push_str(")")?;
            }
        }
        Term::Object(object) => out.push_str(object_name(table, *object))?,
        Term::Variable(number) => show_variable(out, *number)?,
        Term::Nothing => out.push_str("none")?,
        Term::Number(number) => write!(out, "{number}")?,
        Term::Plus(left, right) => {
            out.push_str("(")?;
            show_term(out, table, left)?;
            out.push_str("+")?;
            show_term(out, table, right)?;
            out.push_str(")")?;
        }
        Term::Minus(left, right) => {
            out.push_str("(")?;
            show_term(out, table, left)?;
            out.push_str("-")?;
            show_term(out, table, right)?;
            out.push_str(")")?;
        }
    }
    Ok(())
}

fn show_sides(
    out: &mut String,
    table: &Table,
    left: &Term,
    sign: &str,
    right: &Term,
) -> Result<(), OutOfMemory> {
    show_term(out, table, left)?;
    out.push_str(sign)?;
    show_term(out, table, right)
}

/// The operator between two formulas, or what a bracket begins with.
fn sign_of(formula: &Formula) -> &'static str {
    match formula {
        Formula::Both(..) => " & ",
        Formula::Either(..) => " ++ ",
        Formula::Implies(..) => " ->> ",
        Formula::Same(..) => " <-> ",
        Formula::ForAll(..) => "[/\\",
        Formula::Exists(..) => "[\\/",
        _ => "",
    }
}

/// A bracket up to its formula.
fn show_opening(
    out: &mut String,
    table: &Table,
    sign: &str,
    number: u32,
    sort: u32,
) -> Result<(), OutOfMemory> {
    out.push_str(sign)?;
    show_variable(out, number)?;
    out.push_str(":")?;
    out.push_str(sort_name(table, sort))?;
    out.push_str(" | ")?;
    Ok(())
}

pub(crate) fn show_formula(
    out: &mut String,
    table: &Table,
    formula: &Formula,
) -> Result<(), OutOfMemory> {
    match formula {
        Formula::True => out.push_str("true")?,
        Formula::False => out.push_str("false")?,
        Formula::Equal(left, right) => show_sides(out, table, left, "=", right)?,
        Formula::Less(left, right) => show_sides(out, table, left, "<", right)?,
        Formula::AtMost(left, right) => show_sides(out, table, left, "=<", right)?,
        Formula::Not(inner) => {
            out.push_str("-")?;
            show_formula(out, table, inner)?;
        }
        Formula::Both(left, right)
        | Formula::Either(left, right)
        | Formula::Implies(left, right)
        | Formula::Same(left, right) => {
            out.push_str("(")?;
            show_formula(out, table, left)?;
            out.push_str(sign_of(formula))?;
            show_formula(out, table, right)?;
            out.push_str(")")?;
        }
        Formula::ForAll(number, sort, inner) | Formula::Exists(number, sort, inner) => {
            show_opening(out, table, sign_of(formula), *number, *sort)?;
            show_formula(out, table, inner)?;
            out.push_str("]")?;
        }
    }
    Ok(())
}
