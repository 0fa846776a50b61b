//! Names in place of numbers. A number without a name, of which a description has none, is shown as `?`.
use cc_defs::{Const, Kind, LawKind, Name, OutOfMemory, Sig};
use cc_sorts::Table;

/// The number that stands for the value `none`.
const NONE: u32 = 4_294_967_295;

pub(crate) fn sort_name(table: &Table, sort: u32) -> &str {
    if (sort as usize) < table.sort_count() {
        table.sort_name(sort)
    } else {
        "?"
    }
}

/// The name of an object, or `none`.
pub(crate) fn object_name(table: &Table, object: u32) -> &str {
    if (object as usize) < table.object_count() {
        table.object_name(object)
    } else if object == NONE {
        "none"
    } else {
        "?"
    }
}

pub(crate) fn symbol_name(table: &Table, symbol: u32) -> &str {
    if (symbol as usize) < table.symbol_count() {
        table.symbol_of(symbol).name.text()
    } else {
        "?"
    }
}

pub(crate) fn file_name(files: &[Name], file: u32) -> &str {
    match files.get(file as usize) {
        Some(name) => name.text(),
        None => "?",
    }
}

pub(crate) fn kind_name(kind: Kind) -> &'static str {
    match kind {
        Kind::Simple => "simple",
        Kind::Determined => "determined",
        Kind::Action => "action",
    }
}

pub(crate) fn law_kind_name(kind: LawKind) -> &'static str {
    match kind {
        LawKind::Static => "static",
        LawKind::ActionDynamic => "action",
        LawKind::FluentDynamic => "fluent",
    }
}

/// The ground constant of a number.
pub(crate) fn constant_at(sig: &Sig, number: u32) -> Option<&Const> {
    if u64::from(number) < u64::from(sig.fluents()) + u64::from(sig.actions()) {
        Some(sig.constant(number))
    } else {
        None
    }
}

/// A ground constant: the name of its symbol, and its arguments.
pub(crate) fn show_constant(
    out: &mut String,
    table: &Table,
    constant: &Const,
) -> Result<(), OutOfMemory> {
    out.push_str(symbol_name(table, constant.symbol))?;
    let arguments = constant.args.items();
    for (place, object) in arguments.iter().enumerate() {
        out.push_str(if place == 0 { "(" } else { "," })?;
        out.push_str(object_name(table, *object))?;
    }
    if !arguments.is_empty() {
        out.push_str(")")?;
    }
    Ok(())
}

/// That the ground constant of a number has the value of an index.
pub(crate) fn show_atom(
    out: &mut String,
    table: &Table,
    sig: &Sig,
    number: u32,
    value: u32,
) -> Result<(), OutOfMemory> {
    let Some(constant) = constant_at(sig, number) else {
        out.push_str("?")?;
        return Ok(());
    };
    show_constant(out, table, constant)?;
    out.push_str("=")?;
    match constant.domain.items().get(value as usize) {
        Some(object) => out.push_str(object_name(table, *object))?,
        None => out.push_str("?")?,
    }
    Ok(())
}
