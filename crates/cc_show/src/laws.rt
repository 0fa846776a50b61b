//! Base laws.
use crate::formulas::{show_formula, show_term};
use crate::names::{file_name, law_kind_name, sort_name, symbol_name};
use cc_defs::{BaseLaw, Head, Law, Name, OutOfMemory, Range};
use cc_sorts::Table;
use std::fmt::Write;

/// A file's name and a line.
pub(crate) fn show_place(
    out: &mut String,
    files: &[Name],
    file: u32,
    line: u32,
) -> Result<(), OutOfMemory> {
    out.push_str(file_name(files, file))?;
    write!(out, ":{line}")?;
    Ok(())
}

fn show_head(out: &mut String, table: &Table, head: &Head) -> Result<(), OutOfMemory> {
    match head {
        Head::Falsity => {
            out.push_str("false")?;
            Ok(())
        }
        Head::Atom {
            symbol,
            args,
            value,
        } => {
            out.push_str(symbol_name(table, *symbol))?;
            let arguments = args.items();
            for (place, argument) in arguments.iter().enumerate() {
                out.push_str(if place == 0 { "(" } else { "," })?;
                show_term(out, table, argument)?;
            }
            out.push_str(if arguments.is_empty() { "=" } else { ")=" })?;
            show_term(out, table, value)
        }
    }
}

fn show_ranges(out: &mut String, table: &Table, ranges: &[Range]) -> Result<(), OutOfMemory> {
    for (place, range) in ranges.iter().enumerate() {
        out.push_str(if place == 0 { " over " } else { " " })?;
        match range {
            Range::Sort(sort) => {
                out.push_str("sort ")?;
                out.push_str(sort_name(table, *sort))?;
            }
            Range::Domain(symbol) => {
                out.push_str("domain ")?;
                out.push_str(symbol_name(table, *symbol))?;
            }
        }
    }
    Ok(())
}

/// A law behind its place.
fn show_law(out: &mut String, table: &Table, law: &Law) -> Result<(), OutOfMemory> {
    out.push_str(law_kind_name(law.kind))?;
    out.push_str(" ")?;
    show_head(out, table, &law.head)?;
    out.push_str(" if ")?;
    show_formula(out, table, &law.body)?;
    if let Some(after) = &law.after {
        out.push_str(" after ")?;
        show_formula(out, table, after)?;
    }
    out.push_str(" where ")?;
    show_formula(out, table, &law.test)?;
    show_ranges(out, table, law.ranges.items())
}

fn show_base_law(
    out: &mut String,
    table: &Table,
    files: &[Name],
    law: &BaseLaw,
) -> Result<(), OutOfMemory> {
    match law {
        BaseLaw::One(law) => {
            show_place(out, files, law.file, law.line)?;
            out.push_str(" ")?;
            show_law(out, table, law)
        }
        BaseLaw::NoConcurrency { file, line } => {
            show_place(out, files, *file, *line)?;
            out.push_str(" noconcurrency")?;
            Ok(())
        }
    }
}

pub(crate) fn show_laws(
    out: &mut String,
    table: &Table,
    files: &[Name],
    laws: &[BaseLaw],
) -> Result<(), OutOfMemory> {
    for law in laws {
        out.push_str("law ")?;
        show_base_law(out, table, files, law)?;
        out.push_str("\n")?;
    }
    Ok(())
}
