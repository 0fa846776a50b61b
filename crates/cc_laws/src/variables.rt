//! The free variables of formulas, by their numbers in the table.
ghost use Rattle.std.specs.Prelude.{◌≡◌, ◌++◌, [], IfOk, OnOk};
ghost use Rattle.cc_defs.specs.Trees.{plain_piece, plain_sum, plain_term, plain_tree};
ghost use Rattle.cc_laws.specs.FreeVariables as words;
ghost use Rattle.cc_laws.specs.Views.{piece_variables, plain_meaning};
ghost use Rattle.cc_laws.specs.Vocabulary as vocabulary;
ghost use Rattle.cc_laws.specs.Vocabulary.{vocabulary_of};

use crate::meaning::{Meaning, meaning_of};
use cc_defs::{OutOfMemory, Piece, SumTree, TermTree, Tree};
use cc_sorts::Table;
use std::alloc::Global;

pub(crate) fn is_among(numbers: &[u32], number: u32) -> bool
    ensures { result ≡ words.is_among numbers.now number }
{
    for other in numbers {
        if number == *other {
            return true;
        }
    }
    false
}

/// The number of the variable that a name is.
pub(crate) fn variable(table: &Table, name: &str) -> Option<u32>
    ensures { words.variable_meant (vocabulary.meaning (vocabulary_of table.now) name.now)
        ≡ words.optional result }
{
    match meaning_of(table, name) {
        Meaning::Variable(number, _) => Some(number),
        _ => None,
    }
}

/// Adds the variable that a name is, unless a bracket binds it.
fn add_name(
    table: &Table,
    bound: &[u32],
    name: &str,
    found: &mut Vec<u32>,
) -> Result<(), OutOfMemory>
    ensures { OnOk result (found.new.items ≡ found.old.items ++ words.unbound bound.now
        (words.variable_meant (vocabulary.meaning (vocabulary_of table.now) name.now))) }
{
    let Some(number) = variable(table, name) else {
        return Ok(());
    };
    if is_among(bound, number) {
        return Ok(());
    }
    found.push(number)?;
    Ok(())
}

/// Adds the variables of a term that no bracket binds.
#[cycle(unbound)]
pub(crate) fn add_unbound(
    term: &TermTree<'_>,
    table: &Table,
    bound: &[u32],
    found: &mut Vec<u32>,
) -> Result<(), OutOfMemory>
    ensures { OnOk result (found.new.items ≡ found.old.items ++ words.unbound bound.now
        (words.term_variables (vocabulary_of table.now) (plain_term term.now))) }
{
    add_name(table, bound, term.name, found)?;
    for argument in &term.args {
        add_unbound_sum(argument, table, bound, found)?;
    }
    Ok(())
}

/// Adds those of a sum.
#[cycle(unbound)]
fn add_unbound_sum(
    sum: &SumTree<'_>,
    table: &Table,
    bound: &[u32],
    found: &mut Vec<u32>,
) -> Result<(), OutOfMemory>
    ensures { OnOk result (found.new.items ≡ found.old.items ++ words.unbound bound.now
        (words.sum_variables (vocabulary_of table.now) (plain_sum sum.now))) }
{
    add_unbound_piece(&sum.first, table, bound, found)?;
    for addend in &sum.rest {
        add_unbound_piece(&addend.piece, table, bound, found)?;
    }
    Ok(())
}

/// Adds those of a piece.
#[cycle(unbound)]
fn add_unbound_piece(
    piece: &Piece<'_>,
    table: &Table,
    bound: &[u32],
    found: &mut Vec<u32>,
) -> Result<(), OutOfMemory>
    ensures { OnOk result (found.new.items ≡ found.old.items ++ words.unbound bound.now
        (piece_variables (vocabulary_of table.now) (plain_piece piece.now))) }
{
    match piece {
        Piece::Number(_) => Ok(()),
        Piece::Name(term) => add_unbound(term, table, bound, found),
    }
}

/// Adds those of two sums, one after the other.
fn add_unbound_sides<'t, 's>(
    left: &'t SumTree<'s>,
    right: &'t SumTree<'s>,
    table: &Table,
    bound: &[u32],
    found: &mut Vec<u32>,
) -> Result<(), OutOfMemory>
    ensures { OnOk result (found.new.items ≡ found.old.items ++ (words.unbound bound.now
        (words.sum_variables (vocabulary_of table.now) (plain_sum left.now)) ++ words.unbound
        bound.now (words.sum_variables (vocabulary_of table.now) (plain_sum right.now)))) }
{
    add_unbound_sum(left, table, bound, found)?;
    add_unbound_sum(right, table, bound, found)
}

/// Adds the free occurrences of variables in a formula inside a bracket, which binds what its name is.
#[cycle(brackets)]
fn add_inside(
    inner: &Tree<'_>,
    table: &Table,
    bound: &mut Vec<u32>,
    name: &str,
    found: &mut Vec<u32>,
) -> Result<(), OutOfMemory>
    ensures added { OnOk result (found.new.items ≡ found.old.items
        ++ words.free (vocabulary_of table.now) (bound.old.items ++ words.variable_meant
        (vocabulary.meaning (vocabulary_of table.now) name.now)) (plain_tree inner.now)) }
    ensures closed { OnOk result (bound.new.items ≡ bound.old.items) }
{
    let Some(number) = variable(table, name) else {
        return add_free(inner, table, bound, found);
    };
    bound.push(number)?;
    add_free(inner, table, bound, found)?;
    bound.pop();
    Ok(())
}

/// Adds the free occurrences of variables in a formula, in the order of its text, inside brackets with these variables.
#[cycle(brackets)]
pub(crate) fn add_free(
    formula: &Tree<'_>,
    table: &Table,
    bound: &mut Vec<u32>,
    found: &mut Vec<u32>,
) -> Result<(), OutOfMemory>
    ensures added { OnOk result (found.new.items ≡ found.old.items
        ++ words.free (vocabulary_of table.now) bound.old.items (plain_tree formula.now)) }
    ensures closed { OnOk result (bound.new.items ≡ bound.old.items) }
{
    match formula {
        Tree::Bare(term) => add_unbound(term, table, bound, found),
        Tree::Equal(left, right)
        | Tree::Differ(left, right)
        | Tree::Less(left, right)
        | Tree::AtMost(left, right)
        | Tree::More(left, right)
        | Tree::AtLeast(left, right) => add_unbound_sides(left, right, table, bound, found),
        Tree::Paren(inner) | Tree::Not(inner) => add_free(inner, table, bound, found),
        Tree::Both(first, second)
        | Tree::Either(first, second)
        | Tree::Implies(first, second)
        | Tree::Same(first, second) => {
            add_free(first, table, bound, found)?;
            add_free(second, table, bound, found)
        }
        Tree::ForAll(name, inner) | Tree::Exists(name, inner) => {
            add_inside(inner, table, bound, name, found)
        }
    }
}

/// The free occurrences of variables in a formula.
pub(crate) fn free(
    alloc: Global,
    formula: &Tree<'_>,
    table: &Table,
) -> Result<Vec<u32>, OutOfMemory>
    ensures { IfOk result (λ found.
        found.items ≡ words.free (vocabulary_of table.now) [] (plain_tree formula.now)) }
{
    let mut found = Vec::new(alloc);
    let mut bound = Vec::new(alloc);
    add_free(formula, table, &mut bound, &mut found)?;
    Ok(found)
}

/// Each number at its first place.
pub(crate) fn firsts(alloc: Global, numbers: &[u32]) -> Result<Vec<u32>, OutOfMemory>
    ensures { IfOk result (λ kept. kept.items ≡ words.firsts numbers.now) }
{
    let mut kept = Vec::new(alloc);
    for number in numbers {
        if !is_among(&kept, *number) {
            kept.push(*number)?;
        }
    }
    Ok(kept)
}

/// Whether a number is not among the others.
pub(crate) fn some_is_new(numbers: &[u32], others: &[u32]) -> bool
    ensures { result ≡ words.some_is_new others.now numbers.now }
{
    for number in numbers {
        if !is_among(others, *number) {
            return true;
        }
    }
    false
}
