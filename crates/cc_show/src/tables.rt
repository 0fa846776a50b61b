//! The files and the declarations of a description.
use crate::names::{constant_at, kind_name, object_name, show_constant, sort_name, symbol_name};
use cc_defs::{Const, Name, OutOfMemory, Sig, Symbol};
use cc_sorts::Table;

pub(crate) fn show_files(out: &mut String, files: &[Name]) -> Result<(), OutOfMemory> {
    for name in files {
        out.push_str("file ")?;
        out.push_str(name.text())?;
        out.push_str("\n")?;
    }
    Ok(())
}

/// Objects or values, each behind a space.
fn show_objects(out: &mut String, table: &Table, objects: &[u32]) -> Result<(), OutOfMemory> {
    for object in objects {
        out.push_str(" ")?;
        out.push_str(object_name(table, *object))?;
    }
    Ok(())
}

fn show_sort(out: &mut String, table: &Table, sort: u32) -> Result<(), OutOfMemory> {
    out.push_str("sort ")?;
    out.push_str(sort_name(table, sort))?;
    out.push_str(":")?;
    show_objects(out, table, table.members(sort))?;
    out.push_str("\n")?;
    Ok(())
}

pub(crate) fn show_sorts(out: &mut String, table: &Table) -> Result<(), OutOfMemory> {
    for number in 0..table.sort_count() {
        if let Ok(sort) = u32::try_from(number) {
            show_sort(out, table, sort)?;
        }
    }
    Ok(())
}

fn show_variable(out: &mut String, table: &Table, variable: u32) -> Result<(), OutOfMemory> {
    if (variable as usize) < table.variable_count() {
        out.push_str("variable ")?;
        out.push_str(table.variable_name(variable))?;
        out.push_str(": ")?;
        out.push_str(sort_name(table, table.sort_of(variable)))?;
        out.push_str("\n")?;
    }
    Ok(())
}

pub(crate) fn show_variables(out: &mut String, table: &Table) -> Result<(), OutOfMemory> {
    for number in 0..table.variable_count() {
        if let Ok(variable) = u32::try_from(number) {
            show_variable(out, table, variable)?;
        }
    }
    Ok(())
}

/// The name of a symbol and the sorts of its arguments.
fn show_shape(out: &mut String, table: &Table, symbol: &Symbol) -> Result<(), OutOfMemory> {
    out.push_str(symbol.name.text())?;
    let sorts = symbol.sorts.items();
    for (place, sort) in sorts.iter().enumerate() {
        out.push_str(if place == 0 { "(" } else { "," })?;
        out.push_str(sort_name(table, *sort))?;
    }
    if !sorts.is_empty() {
        out.push_str(")")?;
    }
    Ok(())
}

fn show_symbol(out: &mut String, table: &Table, symbol: &Symbol) -> Result<(), OutOfMemory> {
    out.push_str("symbol ")?;
    show_shape(out, table, symbol)?;
    out.push_str(": ")?;
    out.push_str(kind_name(symbol.kind))?;
    out.push_str(" ")?;
    out.push_str(sort_name(table, symbol.domain))?;
    if let Some(action) = symbol.attribute {
        out.push_str(" of ")?;
        out.push_str(symbol_name(table, action))?;
    }
    out.push_str("\n")?;
    Ok(())
}

pub(crate) fn show_symbols(out: &mut String, table: &Table) -> Result<(), OutOfMemory> {
    for number in 0..table.symbol_count() {
        show_symbol(out, table, table.symbol_of(number as u32))?;
    }
    Ok(())
}

/// A ground constant, its kind and its values, in a line.
fn show_values(out: &mut String, table: &Table, constant: &Const) -> Result<(), OutOfMemory> {
    out.push_str("constant ")?;
    show_constant(out, table, constant)?;
    out.push_str(": ")?;
    out.push_str(kind_name(constant.kind))?;
    out.push_str(":")?;
    show_objects(out, table, constant.domain.items())?;
    out.push_str("\n")?;
    Ok(())
}

pub(crate) fn show_constants(
    out: &mut String,
    table: &Table,
    sig: &Sig,
) -> Result<(), OutOfMemory> {
    for number in 0..u32::MAX {
        match constant_at(sig, number) {
            Some(constant) => show_values(out, table, constant)?,
            None => return Ok(()),
        }
    }
    Ok(())
}
