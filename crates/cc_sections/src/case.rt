//! A case: what is asked of its description.
ghost use Rattle.std.specs.Prelude.{ℕ, ◌≤◌, IfOk};
ghost use Rattle.cc_defs.specs.Limits.{most_steps};
ghost use Rattle.cc_arena.specs.GroundViews.{plain_ground_query};
ghost use Rattle.cc_describe.specs.Describing.{AsksFormulas, HasForms};
ghost use Rattle.cc_form.specs.Queries.{IsQueryAt};
ghost use Rattle.cc_sections.specs.Asked.{AreAskable};
ghost use Rattle.cc_sorts.specs.Tables.{IsSignatureFor};

use crate::ask::{Ask, Show};
use crate::clauses::{form_at, show_form, show_size, theory_at};
use crate::halt::{Halt, show_halt};
use crate::logs::show_log;
use crate::rows::show_rows;
use crate::rules::{show_causes, show_rules};
use bumpalo::Bump;
use cc_arena::{GroundQuery, Laws, Terms};
use cc_books::{bytes_named, files, head, parts};
use cc_defs::{Nums, OutOfMemory, Query, Sig};
use cc_describe::{DescribeStop, Described, describe};
use cc_form::Form;
use cc_laws::query_steps;
use cc_list::{laws_of, query_of};
use cc_ports::{Files, MemoryDesk};
use std::alloc::Global;

/// The most bytes that a read gives.
const MOST: usize = 65_536;

/// The clause list that is asked for.
fn form_asked(
    alloc: Global,
    sig: &Sig,
    laws: &Laws<'_>,
    query: &GroundQuery<'_>,
    ask: &Ask,
) -> Result<Form, Halt>
    requires { AreAskable sig.now laws.now (plain_ground_query query.now) }
{
    form_at(
        alloc,
        sig,
        laws,
        query,
        ask.horizon,
        ask.claim,
        ask.after.as_ref(),
    )
}

/// What a word asks for.
fn show_one(
    alloc: Global,
    out: &mut String,
    sig: &Sig,
    laws: &Laws<'_>,
    query: &GroundQuery<'_>,
    ask: &Ask,
    log: &[u8],
    show: Show,
) -> Result<(), Halt>
    requires { AreAskable sig.now laws.now (plain_ground_query query.now) }
{
    match show {
        Show::Rules => {
            let theory = theory_at(alloc, sig, laws, query, ask.horizon)?;
            Ok(show_rules(out, &theory)?)
        }
        Show::Causes => {
            let theory = theory_at(alloc, sig, laws, query, ask.horizon)?;
            Ok(show_causes(out, &theory)?)
        }
        Show::Rows => show_rows(alloc, out, form_asked(alloc, sig, laws, query, ask)?),
        Show::Clauses => {
            let form = form_asked(alloc, sig, laws, query, ask)?;
            Ok(show_form(out, &form)?)
        }
        Show::Size => {
            let form = form_asked(alloc, sig, laws, query, ask)?;
            Ok(show_size(out, &form)?)
        }
        Show::Log => show_log(alloc, out, sig, laws, query, ask, log),
    }
}

/// What the words ask for, one after another.
fn show_all(
    alloc: Global,
    out: &mut String,
    sig: &Sig,
    laws: &Laws<'_>,
    query: &GroundQuery<'_>,
    ask: &Ask,
    log: &[u8],
) -> Result<(), Halt>
    requires { AreAskable sig.now laws.now (plain_ground_query query.now) }
{
    for show in &ask.show {
        show_one(alloc, out, sig, laws, query, ask, log, *show)?;
    }
    Ok(())
}

/// The query of a description that is asked for, ground.
fn query_asked<'a>(
    alloc: Global,
    described: &Described,
    number: u32,
    terms: &Terms<'a>,
) -> Result<GroundQuery<'a>, Halt>
    requires signature { IsSignatureFor described.now.table described.now.sig }
    requires formulas { AsksFormulas described.now }
    ensures most { IfOk result (λ made. made.hi ≤ most_steps) }
    ensures steps { IfOk result (λ made. (horizon : ℕ) → made.lo ≤ horizon →
        horizon ≤ made.hi → IsQueryAt described.now.sig horizon (plain_ground_query made)) }
{
    let Some(query) = described.queries.items().get(number as usize) else {
        return Err(Halt::Query);
    };
    if let Some(refusal) = query_steps(&described.table, query) {
        return Err(Halt::Refused(refusal));
    }
    Ok(query_of(alloc, described, query, terms)?)
}

/// What is asked of a description.
fn show_described(
    alloc: Global,
    out: &mut String,
    described: &Described,
    ask: &Ask,
    log: &[u8],
) -> Result<(), Halt>
    requires signature { IsSignatureFor described.now.table described.now.sig }
    requires forms { HasForms described.now }
    requires formulas { AsksFormulas described.now }
{
    let arena = Bump::new(alloc);
    let terms = Terms::new(&arena);
    let laws = laws_of(alloc, described, &terms)?;
    let query = query_asked(alloc, described, ask.query, &terms)?;
    show_all(alloc, out, &described.sig, &laws, &query, ask, log)
}

/// Why there is no description.
fn halt_of(stop: &DescribeStop) -> Halt {
    match stop {
        DescribeStop::Refused { refusal, .. } => Halt::Refused(*refusal),
        DescribeStop::ReadFault => Halt::ReadFault,
        DescribeStop::OutOfMemory => Halt::OutOfMemory,
    }
}

/// What is asked of the description whose main file has this name.
fn show_description(
    alloc: Global,
    out: &mut String,
    files: Files,
    name: &str,
    ask: &Ask,
    log: &[u8],
) -> Result<(), Halt> {
    let fails = Nums::of(Vec::new(alloc));
    let mut desk = MemoryDesk::new(alloc, files, fails, MOST, [0, 0, 0])?;
    let answer = describe(alloc, &mut desk, name);
    drop(desk);
    match answer {
        Ok(described) => {
            let shown = show_described(alloc, out, &described, ask, log);
            drop(described);
            shown
        }
        Err(stop) => {
            let halt = halt_of(&stop);
            drop(stop);
            Err(halt)
        }
    }
}

/// The name of the main file.
fn main_name<'b>(parts: &[&'b [u8]]) -> &'b str {
    match parts.first() {
        Some(part) => head(part),
        None => "",
    }
}

/// What is asked of the files of a case.
fn show_parts(alloc: Global, out: &mut String, parts: &[&[u8]]) -> Result<(), Halt> {
    let text = std::str::from_utf8(bytes_named(parts, "ask")).unwrap_or("");
    let ask = Ask::read(alloc, text)?;
    let log = bytes_named(parts, "log");
    let files = files(alloc, parts)?;
    show_description(alloc, out, files, main_name(parts), &ask, log)
}

/// What is printed of the part of a book that is a case.
pub(crate) fn shown(alloc: Global, case: &[u8]) -> Result<String, OutOfMemory> {
    let mut out = String::from_str(alloc, "=== ")?;
    out.push_str(head(case))?;
    out.push_str("\n")?;
    let parts = parts(alloc, case)?;
    if let Err(halt) = show_parts(alloc, &mut out, &parts) {
        show_halt(&mut out, halt)?;
    }
    Ok(out)
}
