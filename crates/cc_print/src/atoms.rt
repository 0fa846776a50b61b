//! The text of an atom at its step.
ghost use Rattle.std.specs.Prelude.{◌≡◌, ◌<◌, ◌++◌, IfOk, List, OnOk, Some, length, map, string_bytes};
ghost use Rattle.cc_defs.specs.Declarations.{Declaration, objects};
ghost use Rattle.cc_defs.specs.Description.{Description};
ghost use Rattle.cc_defs.specs.Universe.{universe};
ghost use Rattle.cc_sorts.specs.Tables.{IsSignatureFor, IsSignatureOf, IsTable};
ghost use Rattle.cc_print.specs.Atoms as atoms;
ghost use Rattle.cc_print.specs.Atoms.{IsAtomOf};
ghost use Rattle.cc_print.specs.Histories.{AreNamed, IsNamed, described, named_by};

use crate::histories::{push_constant, push_object};
use crate::texts::{push_count, written};
use cc_defs::{Const, OutOfMemory, Sig, Text};
use cc_sorts::Table;
use std::alloc::Global;

/// The text of an atom at its step, without a line feed: the step of a position, `:`, a space, its constant, `=` and the value of an
/// index into its domain. A Boolean constant is written with its value, too.
pub fn atom_text(
    alloc: Global,
    table: &Table,
    sig: &Sig,
    position: u64,
    value: u32,
) -> Result<Text, OutOfMemory>
    requires signature { IsSignatureFor table.now sig.now }
    requires atom { IsAtomOf sig.now position value }
    ensures { (d : Description) (declarations : List Declaration) → IsTable table.now declarations →
        IsSignatureOf declarations sig.now → d.universe ≡ universe declarations →
        d.objects ≡ map (λ object. object.0) (objects declarations) →
        IfOk result (λ text. text ≡ atoms.atom_text d position value) }
{
    named_text(alloc, table, sig, position, value)
}

/// The text of an atom, by the names of the table.
fn named_text(
    alloc: Global,
    table: &Table,
    sig: &Sig,
    position: u64,
    value: u32,
) -> Result<Text, OutOfMemory>
    requires named { AreNamed table.now sig.now }
    requires atom { IsAtomOf sig.now position value }
    ensures { IfOk result (λ text.
        text ≡ atoms.atom_text (described table.now sig.now) position value) }
{
    let mut text = String::new(alloc);
    let pushed = push_atom(&mut text, table, sig, position, value);
    written(text, pushed)
}

/// Writes the step of a position, and its constant with the value of an index.
fn push_atom(
    text: &mut String,
    table: &Table,
    sig: &Sig,
    position: u64,
    value: u32,
) -> Result<(), OutOfMemory>
    requires named { AreNamed table.now sig.now }
    requires atom { IsAtomOf sig.now position value }
    ensures { OnOk result (string_bytes text.new
        ≡ string_bytes text.old ++ atoms.atom_text (described table.now sig.now) position value) }
{
    let stride = u64::from(sig.fluents()) + u64::from(sig.actions());
    push_count(text, position / stride)?;
    text.push_str(": ")?;
    push_value(text, table, sig.constant((position % stride) as u32), value)
}

/// Writes a constant, `=`, and its value of an index.
fn push_value(
    text: &mut String,
    table: &Table,
    constant: &Const,
    index: u32,
) -> Result<(), OutOfMemory>
    requires named { IsNamed table.now constant.now }
    requires within { index < length constant.now.domain }
    ensures { OnOk result (string_bytes text.new ≡ string_bytes text.old
        ++ atoms.value_text (named_by table.now) (Some constant.now) index) }
{
    push_constant(text, table, constant)?;
    let object = constant.domain.items()[index as usize];
    push_object(text, '=', table, object)
}
