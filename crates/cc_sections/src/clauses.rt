//! Clause lists, each made in both ways.
ghost use Rattle.std.specs.Prelude.{◌≤◌, IfSome};
ghost use Rattle.cc_arena.specs.GroundViews.{plain_ground_query};
ghost use Rattle.cc_defs.specs.Limits.{most_steps};
ghost use Rattle.cc_form.specs.Queries.{IsKeyAt, IsQueryAt};
ghost use Rattle.cc_sections.specs.Asked.{AreAskable};
ghost use Rattle.cc_theory.specs.Theories.{AreLawsFor};

use crate::halt::Halt;
use cc_arena::{GroundQuery, Laws};
use cc_defs::{Key, Lit, OutOfMemory, Row, Sig};
use cc_form::{Form, Template, clauses};
use cc_lists::fits;
use cc_theory::Theory;
use std::alloc::Global;
use std::fmt::Write;

/// The theory of a horizon of the query.
pub(crate) fn theory_at<'a>(
    alloc: Global,
    sig: &'a Sig,
    laws: &'a Laws<'a>,
    query: &GroundQuery<'_>,
    horizon: u32,
) -> Result<Theory<'a>, Halt>
    requires { AreAskable sig.now laws.now (plain_ground_query query.now) }
{
    if horizon < query.lo || horizon > query.hi {
        return Err(Halt::Horizon);
    }
    Ok(Theory::at(alloc, sig, laws, horizon)?)
}

/// The clause list that a template puts together.
fn from_template(
    alloc: Global,
    sig: &Sig,
    laws: &Laws<'_>,
    query: &GroundQuery<'_>,
    horizon: u32,
    with_claim: bool,
    after: Option<&Key>,
) -> Result<Form, Halt>
    requires laws { AreLawsFor sig.now laws.now }
    requires horizon { horizon ≤ most_steps }
    requires query { IsQueryAt sig.now horizon (plain_ground_query query.now) }
    requires key { IfSome after (λ key. IsKeyAt sig.now horizon key.now) }
{
    let template = Template::new(alloc, sig, laws)?;
    Ok(template.clauses(horizon, query, with_claim, after)?)
}

/// Whether two clause lists are the same, clause by clause.
fn is_same(form: &Form, other: &Form) -> bool {
    if form.variables() != other.variables() || form.count() != other.count() {
        return false;
    }
    for index in 0..form.count() {
        if form.clause(index + 1) != other.clause(index + 1) {
            return false;
        }
    }
    true
}

/// A clause list that was made rule by rule and from a template, where both are the same.
fn both(form: Form, other: Form) -> Result<Form, Halt> {
    if is_same(&form, &other) {
        Ok(form)
    } else {
        Err(Halt::Ways)
    }
}

/// The clause list of the histories of a query at a horizon.
fn form_of(
    alloc: Global,
    sig: &Sig,
    laws: &Laws<'_>,
    query: &GroundQuery<'_>,
    horizon: u32,
    with_claim: bool,
) -> Result<Form, Halt>
    requires { AreAskable sig.now laws.now (plain_ground_query query.now) }
{
    if horizon < query.lo || horizon > query.hi {
        return Err(Halt::Horizon);
    }
    let theory = Theory::at(alloc, sig, laws, horizon)?;
    let form = clauses(alloc, &theory, query, with_claim, None)?;
    let other = from_template(alloc, sig, laws, query, horizon, with_claim, None)?;
    both(form, other)
}

/// The clause list of those that come after a key.
fn form_behind(
    alloc: Global,
    sig: &Sig,
    laws: &Laws<'_>,
    query: &GroundQuery<'_>,
    key: &Key,
    with_claim: bool,
) -> Result<Form, Halt>
    requires { AreAskable sig.now laws.now (plain_ground_query query.now) }
{
    if !fits(sig, query, key) {
        return Err(Halt::Key);
    }
    let theory = Theory::at(alloc, sig, laws, key.horizon)?;
    let form = clauses(alloc, &theory, query, with_claim, Some(key))?;
    let other = from_template(alloc, sig, laws, query, key.horizon, with_claim, Some(key))?;
    both(form, other)
}

/// The clause list of the histories of a query at a horizon; of those that come after a row, where there is one.
pub(crate) fn form_at(
    alloc: Global,
    sig: &Sig,
    laws: &Laws<'_>,
    query: &GroundQuery<'_>,
    horizon: u32,
    with_claim: bool,
    after: Option<&Vec<u32>>,
) -> Result<Form, Halt>
    requires { AreAskable sig.now laws.now (plain_ground_query query.now) }
{
    match after {
        Some(row) => {
            let row = Row::of(Vec::from_slice(alloc, row)?);
            let key = Key { horizon, row };
            form_behind(alloc, sig, laws, query, &key, with_claim)
        }
        None => form_of(alloc, sig, laws, query, horizon, with_claim),
    }
}

fn show_literal(out: &mut String, literal: Lit) -> Result<(), OutOfMemory> {
    let variable = literal.variable();
    if literal.is_positive() {
        write!(out, " {variable}")?;
    } else {
        write!(out, " -{variable}")?;
    }
    Ok(())
}

fn show_clause(out: &mut String, number: u32, clause: &[Lit]) -> Result<(), OutOfMemory> {
    write!(out, "clause {number}:")?;
    for literal in clause {
        show_literal(out, *literal)?;
    }
    out.push_str("\n")?;
    Ok(())
}

/// A clause list.
pub(crate) fn show_form(out: &mut String, form: &Form) -> Result<(), OutOfMemory> {
    let variables = form.variables();
    write!(out, "variables {variables}\n")?;
    for index in 0..form.count() {
        show_clause(out, index + 1, form.clause(index + 1))?;
    }
    Ok(())
}

/// How many variables and clauses a clause list has.
pub(crate) fn show_size(out: &mut String, form: &Form) -> Result<(), OutOfMemory> {
    let variables = form.variables();
    let count = form.count();
    write!(out, "variables {variables}, clauses {count}\n")?;
    Ok(())
}
