//! Ground laws.
ghost use Rattle.cc_sorts.specs.Tables.{IsSignatureFor};

use crate::names::{law_kind_name, show_atom};
use crate::refusals::show_fault;
use bumpalo::Bump;
use cc_arena::{GroundHead, GroundLaw, Terms};
use cc_defs::{Node, OutOfMemory, Sig};
use cc_describe::Described;
use cc_ground::ground;
use cc_sorts::Table;
use std::alloc::Global;
use std::fmt::Write;

fn show_node(out: &mut String, table: &Table, sig: &Sig, node: Node) -> Result<(), OutOfMemory> {
    match node {
        Node::True => out.push_str("true")?,
        Node::False => out.push_str("false")?,
        Node::Atom { constant, value } => show_atom(out, table, sig, constant, value)?,
        Node::Not => out.push_str("-")?,
        Node::All(count) => write!(out, "&{count}")?,
        Node::Any(count) => write!(out, "|{count}")?,
        Node::Same => out.push_str("<->")?,
    }
    Ok(())
}

/// Nodes, each behind a space.
pub(crate) fn show_nodes(
    out: &mut String,
    table: &Table,
    sig: &Sig,
    nodes: &[Node],
) -> Result<(), OutOfMemory> {
    for node in nodes {
        out.push_str(" ")?;
        show_node(out, table, sig, *node)?;
    }
    Ok(())
}

fn show_ground_law(
    out: &mut String,
    table: &Table,
    sig: &Sig,
    law: &GroundLaw<'_>,
) -> Result<(), OutOfMemory> {
    let base = law.base;
    write!(out, "ground {base} ")?;
    out.push_str(law_kind_name(law.kind))?;
    out.push_str(" ")?;
    match law.head {
        GroundHead::Atom { constant, value } => show_atom(out, table, sig, constant, value)?,
        GroundHead::Falsity => out.push_str("false")?,
    }
    out.push_str(" if")?;
    show_nodes(out, table, sig, law.body)?;
    if let Some(after) = law.after {
        out.push_str(" after")?;
        show_nodes(out, table, sig, after)?;
    }
    out.push_str("\n")?;
    Ok(())
}

fn show_ground_laws(
    out: &mut String,
    table: &Table,
    sig: &Sig,
    laws: &[GroundLaw<'_>],
) -> Result<(), OutOfMemory> {
    for law in laws {
        show_ground_law(out, table, sig, law)?;
    }
    Ok(())
}

pub(crate) fn show_ground(
    alloc: Global,
    out: &mut String,
    described: &Described,
) -> Result<(), OutOfMemory>
    requires { IsSignatureFor described.now.table described.now.sig }
{
    let arena = Bump::new(alloc);
    let terms = Terms::new(&arena);
    let table = &described.table;
    let sig = &described.sig;
    match ground(alloc, table, sig, &described.laws, &terms) {
        Ok(laws) => {
            let shown = show_ground_laws(out, table, sig, laws.laws());
            drop(laws);
            shown
        }
        Err(fault) => show_fault(out, "ground ", &fault),
    }
}
