//! The text of a history.
ghost use Rattle.std.specs.Prelude.{◌≡◌, ◌+◌, ◌*◌, ◌^◌, ◌<◌, ◌≤◌, ◌++◌, ◌∷◌, [], List, IfOk, OnOk, codes, encode_utf8, flat_map, length, map, slice_get, slice_index, string_bytes};
ghost use Rattle.std.specs.List.{AllByRecursion};
ghost use Rattle.cc_defs.specs.Conditions.{IsSignatureOfDescription};
ghost use Rattle.cc_defs.specs.Declarations.{Declaration, objects};
ghost use Rattle.cc_defs.specs.Description.{Description, sizes_at, stride};
ghost use Rattle.cc_defs.specs.Rows.{IsRow};
ghost use Rattle.cc_defs.specs.Signatures.{ground_constants};
ghost use Rattle.cc_defs.specs.Texts as texts;
ghost use Rattle.cc_defs.specs.Universe.{is_boolean_symbol, universe};
ghost use Rattle.cc_sorts.specs.Tables.{IsSignatureFor, IsSignatureOf, IsTable};
ghost use Rattle.cc_print.specs.Histories.{AreGiven, AreNamed, IsNamed, IsNamedValue, constants_between, described, named_by};

use crate::texts::{push_line_feed, push_number, written};
use cc_defs::{Const, OutOfMemory, Sig, Text};
use cc_sorts::Table;
use std::alloc::Global;

/// The number that stands for the value `none`.
const NONE: u32 = 4_294_967_295;

/// The text of a history, a line each: for a state its step, `:` and its fluents; between two states `ACTIONS:` and the
/// actions of the step. Two spaces stand before a constant. A Boolean one is written where it is true, another with `=` and
/// its value; arguments stand in parentheses with `,` between them. A row has an index into the values of its constant
/// for each fluent of step 0, each action of step 0, each fluent of step 1, and so on.
pub fn history_text(
    alloc: Global,
    table: &Table,
    sig: &Sig,
    horizon: u32,
    row: &[u32],
) -> Result<Text, OutOfMemory>
    requires signature { IsSignatureFor table.now sig.now }
    requires row { (d : Description) →
        IsSignatureOfDescription d sig.now → IsRow (sizes_at d horizon) row.now }
    ensures { (d : Description) (declarations : List Declaration) → IsTable table.now declarations →
        IsSignatureOf declarations sig.now → d.universe ≡ universe declarations →
        d.objects ≡ map (λ object. object.0) (objects declarations) →
        IfOk result (λ text. text ≡ texts.history_text d horizon row.now) }
{
    named_text(alloc, table, sig, horizon, row)
}

/// The text of a history, by the names of the table.
fn named_text(
    alloc: Global,
    table: &Table,
    sig: &Sig,
    horizon: u32,
    row: &[u32],
) -> Result<Text, OutOfMemory>
    requires named { AreNamed table.now sig.now }
    requires row { IsRow (sizes_at (described table.now sig.now) horizon) row.now }
    ensures { IfOk result (λ text.
        text ≡ texts.history_text (described table.now sig.now) horizon row.now) }
{
    let mut text = String::with_capacity(alloc, row.len().saturating_mul(4).saturating_add(16))?;
    let pushed = push_history(&mut text, table, sig, horizon, row);
    written(text, pushed)
}

/// Writes the states, with the actions between them.
fn push_history(
    text: &mut String,
    table: &Table,
    sig: &Sig,
    horizon: u32,
    row: &[u32],
) -> Result<(), OutOfMemory>
    requires named { AreNamed table.now sig.now }
    requires row { IsRow (sizes_at (described table.now sig.now) horizon) row.now }
    ensures { OnOk result (string_bytes text.new ≡ string_bytes text.old
        ++ texts.history_text (described table.now sig.now) horizon row.now) }
{
    let stride = sig.fluents() as usize + sig.actions() as usize;
    push_state(text, table, sig, row, 0, 0)?;
    let mut place = 0;
    for step in 0..horizon {
        push_actions(text, table, sig, row, step, place)?;
        place += stride;
        push_state(text, table, sig, row, step + 1, place)?;
    }
    Ok(())
}

/// Writes the line of a state, whose fluents have their indexes from a place of the row on.
fn push_state(
    text: &mut String,
    table: &Table,
    sig: &Sig,
    row: &[u32],
    step: u32,
    place: usize,
) -> Result<(), OutOfMemory>
    requires at { place ≡ step * stride (described table.now sig.now) }
    requires given { AreGiven table.now row.now sig.now.fluents place }
    ensures { OnOk result (string_bytes text.new
        ≡ string_bytes text.old ++ texts.state_text (described table.now sig.now) row.now step) }
{
    push_number(text, step)?;
    text.push_str(":")?;
    push_constants(text, table, sig, (0, sig.fluents()), row, place)?;
    push_line_feed(text)
}

/// Writes the line of the actions of a step, whose indexes stand behind those of the fluents.
fn push_actions(
    text: &mut String,
    table: &Table,
    sig: &Sig,
    row: &[u32],
    step: u32,
    place: usize,
) -> Result<(), OutOfMemory>
    requires at { place ≡ step * stride (described table.now sig.now) }
    requires few { length sig.now.fluents + length sig.now.actions < 2 ^ 32 }
    requires given { AreGiven table.now row.now sig.now.actions (place + length sig.now.fluents) }
    ensures { OnOk result (string_bytes text.new
        ≡ string_bytes text.old ++ texts.actions_text (described table.now sig.now) row.now step) }
{
    let fluents = sig.fluents();
    text.push_str("ACTIONS:")?;
    push_constants(
        text,
        table,
        sig,
        (fluents, fluents + sig.actions()),
        row,
        place,
    )?;
    push_line_feed(text)
}

/// Writes the constants with numbers from one on, as far as another; the index of a constant stands as far behind the place
/// as its number says.
fn push_constants(
    text: &mut String,
    table: &Table,
    sig: &Sig,
    numbers: (u32, u32),
    row: &[u32],
    place: usize,
) -> Result<(), OutOfMemory>
    requires within { numbers.1 ≤ length (ground_constants sig.now) }
    requires given { AreGiven table.now row.now
        (constants_between sig.now numbers.0 numbers.1) (place + numbers.0) }
    ensures { OnOk result (string_bytes text.new ≡ string_bytes text.old ++ texts.constants_shown
        (named_by table.now) (constants_between sig.now numbers.0 numbers.1) numbers.0
        (λ number. slice_index row.now (place + number))) }
{
    let (from, to) = numbers;
    for number in from..to {
        let index = row[place + number as usize];
        push_shown(text, table, sig.constant(number), index)?;
    }
    Ok(())
}

/// Writes a constant with the value of an index.
fn push_shown(
    text: &mut String,
    table: &Table,
    constant: &Const,
    index: u32,
) -> Result<(), OutOfMemory>
    requires named { IsNamed table.now constant.now }
    requires within { index < length constant.now.domain }
    ensures { OnOk result (string_bytes text.new ≡ string_bytes text.old
        ++ texts.shown (named_by table.now) constant.now (slice_index constant.now.domain index)) }
{
    let value = constant.domain.items()[index as usize];
    if !is_boolean(table, constant.symbol) {
        push_indented(text, table, constant)?;
        push_object(text, '=', table, value)
    } else if value == 1 {
        push_indented(text, table, constant)
    } else {
        Ok(())
    }
}

/// Writes two spaces and a constant.
fn push_indented(text: &mut String, table: &Table, constant: &Const) -> Result<(), OutOfMemory>
    requires { IsNamed table.now constant.now }
    ensures { OnOk result (string_bytes text.new ≡ string_bytes text.old
        ++ (codes "  " ++ texts.constant_text (named_by table.now) constant.now)) }
{
    text.push_str("  ")?;
    push_constant(text, table, constant)
}

/// Writes a constant.
pub(crate) fn push_constant(
    text: &mut String,
    table: &Table,
    constant: &Const,
) -> Result<(), OutOfMemory>
    requires { IsNamed table.now constant.now }
    ensures { OnOk result (string_bytes text.new
        ≡ string_bytes text.old ++ texts.constant_text (named_by table.now) constant.now) }
{
    text.push_str(symbol_name(table, constant.symbol))?;
    push_arguments(text, table, constant.args.items())
}

/// Writes arguments in parentheses.
fn push_arguments(text: &mut String, table: &Table, args: &[u32]) -> Result<(), OutOfMemory>
    requires { AllByRecursion (IsNamedValue table.now) args.now }
    ensures { OnOk result (string_bytes text.new
        ≡ string_bytes text.old ++ texts.arguments_text (named_by table.now) args.now) }
{
    match args {
        [] => Ok(()),
        [first, others @ ..] => {
            push_object(text, '(', table, *first)?;
            push_other_arguments(text, table, others)?;
            text.push(')')?;
            Ok(())
        }
    }
}

/// Writes a `,` and an argument, for each argument.
fn push_other_arguments(text: &mut String, table: &Table, args: &[u32]) -> Result<(), OutOfMemory>
    requires { AllByRecursion (IsNamedValue table.now) args.now }
    ensures { OnOk result (string_bytes text.new ≡ string_bytes text.old
        ++ flat_map (λ name. 44 ∷ name) (map (texts.object_text (named_by table.now)) args.now)) }
{
    for object in args {
        push_object(text, ',', table, *object)?;
    }
    Ok(())
}

/// Writes a character, and the name of an object or `none`.
pub(crate) fn push_object(
    text: &mut String,
    before: char,
    table: &Table,
    object: u32,
) -> Result<(), OutOfMemory>
    requires { IsNamedValue table.now object }
    ensures { OnOk result (string_bytes text.new ≡ string_bytes text.old
        ++ encode_utf8 before ++ texts.object_text (named_by table.now) object) }
{
    text.push(before)?;
    text.push_str(object_name(table, object))?;
    Ok(())
}

/// Whether the constants of a symbol are Boolean: they have the sort `boolean`, which is sort 0, and are no attributes.
fn is_boolean(table: &Table, symbol: u32) -> bool
    requires { symbol < length table.now.symbols }
    ensures { result
        ≡ is_boolean_symbol (slice_get (map (λ placed. placed.symbol) table.now.symbols) symbol) }
{
    let symbol = table.symbol_of(symbol);
    symbol.attribute.is_none() && symbol.domain == 0
}

/// The name of a symbol.
fn symbol_name<'t>(table: &'t Table, symbol: u32) -> &'t str
    requires { symbol < length table.now.symbols }
    ensures { result.now ≡ texts.symbol_text (named_by table.now) symbol }
{
    table.symbol_of(symbol).name.text()
}

/// The name of an object, or `none`.
fn object_name<'t>(table: &'t Table, object: u32) -> &'t str
    requires { IsNamedValue table.now object }
    ensures { result.now ≡ texts.object_text (named_by table.now) object }
{
    if object == NONE {
        "none"
    } else {
        table.object_name(object)
    }
}
