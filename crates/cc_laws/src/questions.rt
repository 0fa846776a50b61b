//! Queries: their faults, and what they ask.
ghost use Rattle.std.specs.Prelude.{◌≡◌, ◌+◌, List as Items, [], length, map, flat_map, None, IfOk, IfErr, OnOk, string_bytes};
ghost use Rattle.std.specs.List.{list_any};
ghost use Rattle.std.specs.Option.{option_map};
ghost use Rattle.cc_defs.specs.Declarations.{Declaration as Declared};
ghost use Rattle.cc_defs.specs.Refusals.{IsRefusedBy, least, refused_if};
ghost use Rattle.cc_defs.specs.Resolved.{Both as both, plain_condition, plain_formula, plain_query};
ghost use Rattle.cc_defs.specs.Trees.{plain_tree, plain_part, plain_query_item, plain_statement};
ghost use Rattle.cc_laws.specs.FormulaFaults.{has_unknown};
ghost use Rattle.cc_laws.specs.Questions as words;
ghost use Rattle.cc_laws.specs.Questions.{Asks, query_refusal};
ghost use Rattle.cc_laws.specs.Resolving as resolving;
ghost use Rattle.cc_laws.specs.Views.{fails};
ghost use Rattle.cc_laws.specs.Vocabulary.{vocabulary, vocabulary_of};
ghost use Rattle.cc_sorts.specs.Tables.{IsTable};

use crate::checks::passed;
use crate::made::{given, some};
use crate::mention::Property;
use crate::names::Names;
use crate::resolving::resolve;
use crate::variables::free;
use crate::walk::{Check, formula_fails};
use cc_defs::{
    At, Condition, Fault, Formula, List, Name, OutOfMemory, Part, Query, QueryItem, Statement, Tree,
};
use cc_sorts::Table;
use std::alloc::Global;

/// The parts of a query; a statement that is none has no part.
fn items_of<'t, 's>(part: &'t Part<'s>) -> &'t [QueryItem<'s>]
    ensures { map plain_query_item result.now ≡ words.items_of (plain_part part.now) }
{
    match part {
        Part::Query(items) => items.items(),
        _ => &[],
    }
}

fn count_labels(items: &[QueryItem<'_>]) -> usize
    ensures { result ≡ length (flat_map words.labels_in (map plain_query_item items.now)) }
{
    let mut count = 0;
    for item in items {
        if let QueryItem::Label(_) = item {
            count += 1;
        }
    }
    count
}

fn count_ranges(items: &[QueryItem<'_>]) -> usize
    ensures { result ≡ length (flat_map words.ranges_in (map plain_query_item items.now)) }
{
    let mut count = 0;
    for item in items {
        if let QueryItem::Range(..) = item {
            count += 1;
        }
    }
    count
}

fn count_claims(items: &[QueryItem<'_>]) -> usize
    ensures { result ≡ length (flat_map words.claims_in (map plain_query_item items.now)) }
{
    let mut count = 0;
    for item in items {
        if let QueryItem::Condition { claim: true, .. } = item {
            count += 1;
        }
    }
    count
}

/// Whether a label, a range of horizons or a claim is given a second time.
fn gives_twice(items: &[QueryItem<'_>]) -> bool
    ensures { result ≡ words.gives_twice (map plain_query_item items.now) }
{
    count_labels(items) > 1 || (count_ranges(items) > 1 || count_claims(items) > 1)
}

/// Whether a formula fails the check.
fn some_fails(formulas: &[Tree<'_>], table: &Table, check: Check) -> bool
    ensures { result
        ≡ list_any (fails (vocabulary_of table.now) check) (map plain_tree formulas.now) }
{
    for formula in formulas {
        if formula_fails(formula, table, check) {
            return true;
        }
    }
    false
}

/// The formulas of a part of a query.
fn formulas_in<'t, 's>(item: &'t QueryItem<'s>) -> &'t [Tree<'s>]
    ensures { map plain_tree result.now ≡ words.formulas_in (plain_query_item item.now) }
{
    match item {
        QueryItem::Condition { parts, .. } => parts.items(),
        _ => &[],
    }
}

/// Whether a formula of a query fails the check.
fn query_fails(items: &[QueryItem<'_>], table: &Table, check: Check) -> bool
    ensures { result ≡ list_any (fails (vocabulary_of table.now) check)
        (flat_map words.formulas_in (map plain_query_item items.now)) }
{
    for item in items {
        if some_fails(formulas_in(item), table, check) {
            return true;
        }
    }
    false
}

#[tactic(auto, using(crate::proofs::Failing::some_unknown))]
fn query_has_unknown(items: &[QueryItem<'_>], table: &Table) -> bool
    ensures { result ≡ list_any (has_unknown (vocabulary_of table.now))
        (flat_map words.formulas_in (map plain_query_item items.now)) }
{
    query_fails(items, table, Check::Unknown)
}

/// Whether a formula has a free variable.
fn has_free(alloc: Global, formula: &Tree<'_>, table: &Table) -> Result<bool, OutOfMemory>
    ensures { IfOk result (λ found.
        found ≡ words.has_free (vocabulary_of table.now) (plain_tree formula.now)) }
{
    Ok(!free(alloc, formula, table)?.is_empty())
}

/// Whether one of the formulas has a free variable.
fn some_has_free(alloc: Global, formulas: &[Tree<'_>], table: &Table) -> Result<bool, OutOfMemory>
    ensures { IfOk result (λ found.
        found ≡ list_any (words.has_free (vocabulary_of table.now)) (map plain_tree formulas.now)) }
{
    for formula in formulas {
        if has_free(alloc, formula, table)? {
            return Ok(true);
        }
    }
    Ok(false)
}

/// Whether a query has a free variable.
fn query_has_free(
    alloc: Global,
    items: &[QueryItem<'_>],
    table: &Table,
) -> Result<bool, OutOfMemory>
    ensures { IfOk result (λ found. found ≡ list_any (words.has_free (vocabulary_of table.now))
        (flat_map words.formulas_in (map plain_query_item items.now))) }
{
    for item in items {
        if some_has_free(alloc, formulas_in(item), table)? {
            return Ok(true);
        }
    }
    Ok(false)
}

/// The least number of a fault of a query, if it has one.
fn query_fault(
    alloc: Global,
    items: &[QueryItem<'_>],
    table: &Table,
) -> Result<Option<u8>, OutOfMemory>
    ensures { IfOk result (λ fault. fault
        ≡ least (words.query_faults (vocabulary_of table.now) (map plain_query_item items.now))) }
{
    if gives_twice(items) {
        return Ok(Some(4));
    }
    if query_has_unknown(items, table) {
        return Ok(Some(5));
    }
    if query_fails(items, table, Check::Mentions(Property::Miscounted)) {
        return Ok(Some(6));
    }
    if query_fails(items, table, Check::Misfits) {
        return Ok(Some(7));
    }
    if query_has_free(alloc, items, table)? {
        return Ok(Some(8));
    }
    Ok(None)
}

/// The first label.
fn label_of(alloc: Global, items: &[QueryItem<'_>]) -> Result<Option<Name>, OutOfMemory>
    ensures { IfOk result (λ label.
        label ≡ words.first (flat_map words.labels_in (map plain_query_item items.now))) }
{
    for item in items {
        if let QueryItem::Label(label) = item {
            return Ok(Some(Name::of(String::from_str(alloc, label)?)));
        }
    }
    Ok(None)
}

/// The first range of horizons.
fn range_of(items: &[QueryItem<'_>]) -> Option<(u32, u32)>
    ensures { result ≡ words.first (flat_map words.ranges_in (map plain_query_item items.now)) }
{
    for item in items {
        if let QueryItem::Range(lo, hi) = item {
            return Some((*lo, *hi));
        }
    }
    None
}

/// A formula that was made and another one, joined by `&`.
fn and_next(
    alloc: Global,
    formula: &Tree<'_>,
    table: &Table,
    names: &mut Names,
    made: Formula,
) -> Result<Formula, OutOfMemory>
    requires { names.old.bindings.items ≡ [] }
    ensures made { IfOk result (λ joined. plain_formula joined ≡ both (plain_formula made)
        (resolving.resolve (vocabulary_of table.now) [] names.old.next (plain_tree formula.now))) }
    ensures kept { OnOk result (names.new.bindings.items ≡ []) }
    ensures next { OnOk result
        (names.new.next ≡ names.old.next + resolving.brackets (plain_tree formula.now)) }
{
    let made = Box::new(alloc, made)?;
    let next = Box::new(alloc, resolve(alloc, formula, table, names)?)?;
    Ok(Formula::Both(made, next))
}

/// The formulas, joined by `&`, which groups to the left. Their brackets are numbered on.
fn joined(
    alloc: Global,
    formulas: &[Tree<'_>],
    table: &Table,
    names: &mut Names,
) -> Result<Formula, OutOfMemory>
    requires { names.old.bindings.items ≡ [] }
    ensures made { IfOk result (λ made. plain_formula made ≡ words.joined (resolving.resolve_all
        (vocabulary_of table.now) names.old.next (map plain_tree formulas.now))) }
    ensures kept { OnOk result (names.new.bindings.items ≡ []) }
    ensures next { OnOk result
        (names.new.next ≡ names.old.next + resolving.brackets_in (map plain_tree formulas.now)) }
{
    let Some((first, others)) = formulas.split_first() else {
        return Ok(Formula::True);
    };
    let mut made = resolve(alloc, first, table, names)?;
    for formula in others {
        made = and_next(alloc, formula, table, names, made)?;
    }
    Ok(made)
}

/// A condition of a query or its claim.
fn condition(
    alloc: Global,
    formulas: &[Tree<'_>],
    table: &Table,
    names: &mut Names,
    at: At,
) -> Result<Condition, OutOfMemory>
    requires { names.old.bindings.items ≡ [] }
    ensures made { IfOk result (λ made. plain_condition made ≡ words.condition_asked
        (vocabulary_of table.now) names.old.next (words.asked at (map plain_tree formulas.now))) }
    ensures kept { OnOk result (names.new.bindings.items ≡ []) }
    ensures next { OnOk result
        (names.new.next ≡ names.old.next + resolving.brackets_in (map plain_tree formulas.now)) }
{
    Ok(Condition {
        at,
        formula: joined(alloc, formulas, table, names)?,
    })
}

/// The conditions of a query. Their brackets are numbered on.
fn conditions_of(
    alloc: Global,
    items: &[QueryItem<'_>],
    table: &Table,
    names: &mut Names,
) -> Result<Vec<Condition>, OutOfMemory>
    requires { names.old.bindings.items ≡ [] }
    ensures made { IfOk result (λ made.
        map plain_condition made.items ≡ words.conditions_asked (vocabulary_of table.now)
        names.old.next (flat_map words.conditions_in (map plain_query_item items.now))) }
    ensures kept { OnOk result (names.new.bindings.items ≡ []) }
    ensures next { OnOk result (names.new.next ≡ names.old.next + words.brackets_asked
        (flat_map words.conditions_in (map plain_query_item items.now))) }
{
    let mut made = Vec::new(alloc);
    for item in items {
        if let QueryItem::Condition {
            claim: false,
            at,
            parts,
        } = item
        {
            made.push(condition(alloc, parts.items(), table, names, *at)?)?;
        }
    }
    Ok(made)
}

/// The first claim of a query.
fn claim_of(
    alloc: Global,
    items: &[QueryItem<'_>],
    table: &Table,
    names: &mut Names,
) -> Result<Option<Condition>, OutOfMemory>
    requires { names.old.bindings.items ≡ [] }
    ensures { IfOk result (λ made. option_map plain_condition made
        ≡ option_map (words.condition_asked (vocabulary_of table.now) names.old.next)
        (words.first (flat_map words.claims_in (map plain_query_item items.now)))) }
{
    for item in items {
        if let QueryItem::Condition {
            claim: true,
            at,
            parts,
        } = item
        {
            return some(condition(alloc, parts.items(), table, names, *at));
        }
    }
    Ok(None)
}

/// What a query asks. Each of its brackets has a number of its own: those of the claim come behind those of the conditions.
fn query_of(
    alloc: Global,
    items: &[QueryItem<'_>],
    file: u32,
    table: &Table,
    line: u32,
) -> Result<Query, OutOfMemory>
    ensures { IfOk result (λ query. plain_query query
        ≡ words.query_of file (vocabulary_of table.now) line (map plain_query_item items.now)) }
{
    let label = label_of(alloc, items)?;
    let mut names = Names {
        bindings: Vec::new(alloc),
        next: 0,
    };
    let conditions = List::of(conditions_of(alloc, items, table, &mut names)?);
    let claim = claim_of(alloc, items, table, &mut names)?;
    Ok(Query {
        label,
        range: range_of(items),
        conditions,
        claim,
        file,
        line,
    })
}

/// What a query asks, where it has no fault.
fn ask(
    alloc: Global,
    items: &[QueryItem<'_>],
    file: u32,
    table: &Table,
    line: u32,
) -> Result<Query, Fault>
    ensures checked { IfOk result (λ query.
        least (words.query_faults (vocabulary_of table.now) (map plain_query_item items.now)) ≡ None) }
    ensures asked { IfOk result (λ query. plain_query query
        ≡ words.query_of file (vocabulary_of table.now) line (map plain_query_item items.now)) }
    ensures refused { IfErr result (IsRefusedBy (refused_if file line (least
        (words.query_faults (vocabulary_of table.now) (map plain_query_item items.now))))) }
{
    passed(query_fault(alloc, items, table), file, line)?;
    given(query_of(alloc, items, file, table, line))
}

/// What a query asks, at the table as it stands. Refuses, at the statement's line, the least number of a fault: a label, a
/// range of horizons or a claim given twice (4), an unknown name (5), another number of arguments (6), a term where its sort
/// or kind does not fit (7), a free variable (8). A statement that is no query asks nothing. `file` is the number of the
/// file in refusals.
pub fn question(
    alloc: Global,
    file: u32,
    table: &Table,
    statement: &Statement<'_>,
) -> Result<Query, Fault>
    ensures asked { (left : Items Declared) → IsTable table.now left →
        IfOk result (λ query. Asks file left (plain_statement statement.now) (plain_query query)) }
    ensures refused { (left : Items Declared) → IsTable table.now left → IfErr result
        (IsRefusedBy (query_refusal file (vocabulary left) (plain_statement statement.now))) }
{
    let items = items_of(&statement.part);
    ask(alloc, items, file, table, statement.line)
}
