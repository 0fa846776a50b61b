//! Queries.
ghost use Rattle.cc_sorts.specs.Tables.{IsSignatureFor};

use crate::formulas::show_formula;
use crate::ground_laws::show_nodes;
use crate::laws::show_place;
use crate::names::file_name;
use crate::refusals::{show_fault, show_refusal};
use bumpalo::Bump;
use cc_arena::{GroundCondition, GroundQuery, Terms};
use cc_defs::{At, Condition, Name, OutOfMemory, Query, Sig};
use cc_describe::Described;
use cc_ground::ground_query;
use cc_laws::query_steps;
use cc_sorts::Table;
use std::alloc::Global;
use std::fmt::Write;

fn show_heading(out: &mut String, files: &[Name], query: &Query) -> Result<(), OutOfMemory> {
    out.push_str("query ")?;
    match &query.label {
        Some(label) => out.push_str(label.text())?,
        None => out.push_str("-")?,
    }
    match query.range {
        Some((lo, hi)) => write!(out, " {lo}..{hi} ")?,
        None => out.push_str(" - ")?,
    }
    show_place(out, files, query.file, query.line)?;
    out.push_str("\n")?;
    Ok(())
}

fn show_at(out: &mut String, at: At) -> Result<(), OutOfMemory> {
    match at {
        At::Number(step) => write!(out, "{step}:")?,
        At::Last => out.push_str("maxstep:")?,
    }
    Ok(())
}

fn show_condition(
    out: &mut String,
    table: &Table,
    part: &str,
    condition: &Condition,
) -> Result<(), OutOfMemory> {
    out.push_str(part)?;
    show_at(out, condition.at)?;
    out.push_str(" ")?;
    show_formula(out, table, &condition.formula)?;
    out.push_str("\n")?;
    Ok(())
}

fn show_conditions(out: &mut String, table: &Table, query: &Query) -> Result<(), OutOfMemory> {
    for condition in query.conditions.items() {
        show_condition(out, table, "condition ", condition)?;
    }
    if let Some(claim) = &query.claim {
        show_condition(out, table, "claim ", claim)?;
    }
    Ok(())
}

fn show_ground_condition(
    out: &mut String,
    table: &Table,
    sig: &Sig,
    part: &str,
    condition: &GroundCondition<'_>,
) -> Result<(), OutOfMemory> {
    out.push_str(part)?;
    show_at(out, condition.at)?;
    show_nodes(out, table, sig, condition.nodes)?;
    out.push_str("\n")?;
    Ok(())
}

fn show_ground_query(
    out: &mut String,
    table: &Table,
    sig: &Sig,
    query: &GroundQuery<'_>,
) -> Result<(), OutOfMemory> {
    for condition in query.conditions.items() {
        show_ground_condition(out, table, sig, "asks ", condition)?;
    }
    if let Some(claim) = &query.claim {
        show_ground_condition(out, table, sig, "denies ", claim)?;
    }
    Ok(())
}

/// The ground conditions of a query that has a range.
fn show_asked(
    alloc: Global,
    out: &mut String,
    described: &Described,
    query: &Query,
) -> Result<(), OutOfMemory>
    requires { IsSignatureFor described.now.table described.now.sig }
{
    if query.range.is_none() {
        return Ok(());
    }
    let arena = Bump::new(alloc);
    let terms = Terms::new(&arena);
    let table = &described.table;
    let sig = &described.sig;
    match ground_query(alloc, table, sig, query, &terms) {
        Ok(asked) => {
            let shown = show_ground_query(out, table, sig, &asked);
            drop(asked);
            shown
        }
        Err(fault) => show_fault(out, "asks ", &fault),
    }
}

fn show_query(
    alloc: Global,
    out: &mut String,
    described: &Described,
    query: &Query,
) -> Result<(), OutOfMemory>
    requires { IsSignatureFor described.now.table described.now.sig }
{
    let files = described.files.items();
    let refusal = query_steps(&described.table, query);
    show_heading(out, files, query)?;
    if let Some(refusal) = &refusal {
        show_refusal(out, "steps ", refusal, file_name(files, refusal.file))?;
    }
    show_conditions(out, &described.table, query)?;
    match refusal {
        Some(_) => Ok(()),
        None => show_asked(alloc, out, described, query),
    }
}

pub(crate) fn show_queries(
    alloc: Global,
    out: &mut String,
    described: &Described,
) -> Result<(), OutOfMemory>
    requires { IsSignatureFor described.now.table described.now.sig }
{
    for query in described.queries.items() {
        show_query(alloc, out, described, query)?;
    }
    Ok(())
}
