//! The heads that a definite formula stands for.
ghost use Rattle.std.specs.Prelude.{◌≡◌, [], Some, map, unwrap_or, IfOk};
ghost use Rattle.cc_defs.specs.Resolved.{plain_head, plain_term as resolved_term};
ghost use Rattle.cc_defs.specs.Trees.{plain_sum, plain_term, plain_tree, Bare as bare, Compared as comparison, IsEqual as equal, Differs as differs};
ghost use Rattle.cc_laws.specs.Heads as words;
ghost use Rattle.cc_laws.specs.Heads.{both_heads, only_if};
ghost use Rattle.cc_laws.specs.Resolving as resolving;
ghost use Rattle.cc_laws.specs.Views.{scope_of};
ghost use Rattle.cc_laws.specs.Vocabulary.{vocabulary_of};

use crate::heads::{constant_beside, is_boolean_term, is_falsity_term, truth_beside};
use crate::meaning::{Meaning, meaning_of_term};
use crate::names::Names;
use crate::resolving::{resolve_sum, resolve_term};
use cc_defs::{Head, List, OutOfMemory, SumTree, Term, TermTree, Tree};
use cc_sorts::Table;
use std::alloc::Global;

/// The other one of `false` and `true`.
fn opposite(value: &TermTree<'_>, table: &Table) -> Term
    ensures { resolved_term result
        ≡ words.opposite (vocabulary_of table.now) (plain_term value.now) }
{
    match meaning_of_term(value, table) {
        Meaning::Object(0, _) => Term::Object(1),
        _ => Term::Object(0),
    }
}

/// Adds the head that a constant has a value; answers whether the term is a constant.
fn add_atom(
    alloc: Global,
    constant: &TermTree<'_>,
    table: &Table,
    names: &Names,
    value: Term,
    found: &mut Vec<Head>,
) -> Result<bool, OutOfMemory>
    ensures { IfOk result (λ definite. only_if definite (Some (map plain_head found.new.items))
        ≡ both_heads (Some (map plain_head found.old.items)) (words.atom (vocabulary_of table.now)
        (scope_of names.now) (plain_term constant.now) (resolved_term value))) }
{
    match resolve_term(alloc, constant, table, names)? {
        Term::Constant { symbol, args } => {
            let args = List::of(args);
            found.push(Head::Atom {
                symbol,
                args,
                value,
            })?;
            Ok(true)
        }
        _ => Ok(false),
    }
}

/// Adds the head of a term alone: falsity, or that a Boolean constant is true.
fn add_bare(
    alloc: Global,
    term: &TermTree<'_>,
    table: &Table,
    names: &Names,
    found: &mut Vec<Head>,
) -> Result<bool, OutOfMemory>
    ensures { IfOk result (λ definite. only_if definite (Some (map plain_head found.new.items))
        ≡ both_heads (Some (map plain_head found.old.items)) (words.definite_heads
        (vocabulary_of table.now) (scope_of names.now) (bare (plain_term term.now)))) }
{
    if is_falsity_term(term, table) {
        found.push(Head::Falsity)?;
        return Ok(true);
    }
    if is_boolean_term(term, table) {
        return add_atom(alloc, term, table, names, Term::Object(1), found);
    }
    Ok(false)
}

/// Adds the head that a constant has the value of a sum.
fn add_value<'t, 's>(
    alloc: Global,
    constant: &'t TermTree<'s>,
    value: &'t SumTree<'s>,
    table: &Table,
    names: &Names,
    found: &mut Vec<Head>,
) -> Result<bool, OutOfMemory>
    ensures { IfOk result (λ definite. only_if definite (Some (map plain_head found.new.items))
        ≡ both_heads (Some (map plain_head found.old.items)) (words.atom (vocabulary_of table.now)
        (scope_of names.now) (plain_term constant.now) (resolving.resolve_sum
        (vocabulary_of table.now) (scope_of names.now) (plain_sum value.now)))) }
{
    let value = resolve_sum(alloc, value, table, names)?;
    add_atom(alloc, constant, table, names, value, found)
}

#[tactic(auto, using(crate::proofs::HeadTests::valued_left, crate::proofs::HeadTests::valued_right))]
/// Adds the head of an equation: the constant alone on one side has the value on the other, which has no constant.
fn add_equation<'t, 's>(
    alloc: Global,
    left: &'t SumTree<'s>,
    right: &'t SumTree<'s>,
    table: &Table,
    names: &Names,
    found: &mut Vec<Head>,
) -> Result<bool, OutOfMemory>
    ensures { IfOk result (λ definite.
        only_if definite (Some (map plain_head found.new.items)) ≡ both_heads
        (Some (map plain_head found.old.items)) (words.definite_heads (vocabulary_of table.now)
        (scope_of names.now) (comparison equal (plain_sum left.now) (plain_sum right.now)))) }
{
    match constant_beside(left, right, table) {
        Some(first) => add_value(alloc, first, right, table, names, found),
        None => match constant_beside(right, left, table) {
            Some(second) => add_value(alloc, second, left, table, names, found),
            None => Ok(false),
        },
    }
}

/// Adds the head that a Boolean constant has the other one of `false` and `true` than the term beside it.
fn add_opposite<'t, 's>(
    alloc: Global,
    constant: &'t TermTree<'s>,
    truth: &'t TermTree<'s>,
    table: &Table,
    names: &Names,
    found: &mut Vec<Head>,
) -> Result<bool, OutOfMemory>
    ensures { IfOk result (λ definite. only_if definite (Some (map plain_head found.new.items))
        ≡ both_heads (Some (map plain_head found.old.items))
        (words.atom (vocabulary_of table.now) (scope_of names.now) (plain_term constant.now)
        (words.opposite (vocabulary_of table.now) (plain_term truth.now)))) }
{
    add_atom(alloc, constant, table, names, opposite(truth, table), found)
}

/// Adds the head of the denial of an equation of a Boolean constant with a truth value.
fn add_denial<'t, 's>(
    alloc: Global,
    left: &'t SumTree<'s>,
    right: &'t SumTree<'s>,
    table: &Table,
    names: &Names,
    found: &mut Vec<Head>,
) -> Result<bool, OutOfMemory>
    ensures { IfOk result (λ definite.
        only_if definite (Some (map plain_head found.new.items)) ≡ both_heads
        (Some (map plain_head found.old.items)) (words.definite_heads (vocabulary_of table.now)
        (scope_of names.now) (comparison differs (plain_sum left.now) (plain_sum right.now)))) }
{
    match truth_beside(left, right, table) {
        Some(pair) => add_opposite(alloc, pair.0, pair.1, table, names, found),
        None => Ok(false),
    }
}

/// Adds the head of `-c`, c a Boolean constant.
fn add_denied_term(
    alloc: Global,
    term: &TermTree<'_>,
    table: &Table,
    names: &Names,
    found: &mut Vec<Head>,
) -> Result<bool, OutOfMemory>
    ensures { IfOk result (λ definite. only_if definite (Some (map plain_head found.new.items))
        ≡ both_heads (Some (map plain_head found.old.items)) (words.denied_heads
        (vocabulary_of table.now) (scope_of names.now) (bare (plain_term term.now)))) }
{
    if is_boolean_term(term, table) {
        return add_atom(alloc, term, table, names, Term::Object(0), found);
    }
    Ok(false)
}

/// Adds the head of `-s=t`, one of s and t a Boolean constant and the other a truth value.
fn add_denied_equation<'t, 's>(
    alloc: Global,
    left: &'t SumTree<'s>,
    right: &'t SumTree<'s>,
    table: &Table,
    names: &Names,
    found: &mut Vec<Head>,
) -> Result<bool, OutOfMemory>
    ensures { IfOk result (λ definite.
        only_if definite (Some (map plain_head found.new.items)) ≡ both_heads
        (Some (map plain_head found.old.items)) (words.denied_heads (vocabulary_of table.now)
        (scope_of names.now) (comparison equal (plain_sum left.now) (plain_sum right.now)))) }
{
    match truth_beside(left, right, table) {
        Some(pair) => add_opposite(alloc, pair.0, pair.1, table, names, found),
        None => match truth_beside(right, left, table) {
            Some(pair) => add_opposite(alloc, pair.0, pair.1, table, names, found),
            None => Ok(false),
        },
    }
}

/// Adds the head of what a `-` stands before; answers whether it may stand there.
fn add_denied(
    alloc: Global,
    formula: &Tree<'_>,
    table: &Table,
    names: &Names,
    found: &mut Vec<Head>,
) -> Result<bool, OutOfMemory>
    ensures { IfOk result (λ definite. only_if definite (Some (map plain_head found.new.items))
        ≡ both_heads (Some (map plain_head found.old.items)) (words.denied_heads
        (vocabulary_of table.now) (scope_of names.now) (plain_tree formula.now))) }
{
    match formula {
        Tree::Bare(term) => add_denied_term(alloc, term, table, names, found),
        Tree::Equal(left, right) => add_denied_equation(alloc, left, right, table, names, found),
        Tree::Paren(inner) => add_denied(alloc, inner, table, names, found),
        _ => Ok(false),
    }
}

/// Adds the heads of a definite formula, in order; answers whether it is definite.
fn add_heads(
    alloc: Global,
    formula: &Tree<'_>,
    table: &Table,
    names: &Names,
    found: &mut Vec<Head>,
) -> Result<bool, OutOfMemory>
    ensures { IfOk result (λ definite. only_if definite (Some (map plain_head found.new.items))
        ≡ both_heads (Some (map plain_head found.old.items)) (words.definite_heads
        (vocabulary_of table.now) (scope_of names.now) (plain_tree formula.now))) }
{
    match formula {
        Tree::Bare(term) => add_bare(alloc, term, table, names, found),
        Tree::Equal(left, right) => add_equation(alloc, left, right, table, names, found),
        Tree::Differ(left, right) => add_denial(alloc, left, right, table, names, found),
        Tree::Paren(inner) => add_heads(alloc, inner, table, names, found),
        Tree::Not(inner) => add_denied(alloc, inner, table, names, found),
        Tree::Both(first, second) => {
            if add_heads(alloc, first, table, names, found)? {
                add_heads(alloc, second, table, names, found)
            } else {
                Ok(false)
            }
        }
        _ => Ok(false),
    }
}

/// The heads of a definite formula, in order; none of one that is not.
pub(crate) fn heads_of(
    alloc: Global,
    formula: &Tree<'_>,
    table: &Table,
    names: &Names,
) -> Result<Vec<Head>, OutOfMemory>
    ensures { IfOk result (λ heads. map plain_head heads.items ≡ unwrap_or (words.definite_heads
        (vocabulary_of table.now) (scope_of names.now) (plain_tree formula.now)) []) }
{
    let mut found = Vec::new(alloc);
    if add_heads(alloc, formula, table, names, &mut found)? {
        return Ok(found);
    }
    Ok(Vec::new(alloc))
}
