//! A walk over the terms and brackets of a formula.
ghost use Rattle.std.specs.Prelude.{◌≡◌, ◌||◌};
ghost use Rattle.cc_defs.specs.Trees.{plain_sum, plain_term, plain_tree};
ghost use Rattle.cc_laws.specs.FormulaFaults as faults;
ghost use Rattle.cc_laws.specs.Leaves.{Bare, Compared, Bracket};
ghost use Rattle.cc_laws.specs.Views.{asks, comparison_of, fails, leaf_test};
ghost use Rattle.cc_laws.specs.Vocabulary.{vocabulary_of};

use crate::meaning::meaning_of;
use crate::mention::{Property, sum_has, term_has};
use crate::misfits::{bare_misfits, bracket_misfits, comparison_misfits};
use crate::sums::{Comparison, comparison_in};
use cc_defs::{SumTree, TermTree, Tree};
use cc_sorts::Table;

/// What is asked of the terms and brackets of a formula.
#[derive(Clone, Copy)]
pub(crate) enum Check {
    /// That a name in a term has the property.
    Mentions(Property),
    /// That a name is unknown, in a term or of a bracket.
    Unknown,
    /// That it does not fit.
    Misfits,
}

fn bare_fails(term: &TermTree<'_>, table: &Table, check: Check) -> bool
    ensures { result ≡ leaf_test (vocabulary_of table.now) check (Bare (plain_term term.now)) }
{
    match check {
        Check::Mentions(property) => term_has(term, table, property),
        Check::Unknown => term_has(term, table, Property::Unknown),
        Check::Misfits => bare_misfits(term, table),
    }
}

/// Whether one of two sums has a name with the property.
fn sides_have<'t, 's>(
    left: &'t SumTree<'s>,
    right: &'t SumTree<'s>,
    table: &Table,
    property: Property,
) -> bool
    ensures { result ≡ faults.sum_has (vocabulary_of table.now) (asks property) (plain_sum left.now)
        || faults.sum_has (vocabulary_of table.now) (asks property) (plain_sum right.now) }
{
    sum_has(left, table, property) || sum_has(right, table, property)
}

fn comparison_fails<'t, 's>(
    left: &'t SumTree<'s>,
    right: &'t SumTree<'s>,
    table: &Table,
    check: Check,
    comparison: Comparison,
) -> bool
    ensures { result ≡ leaf_test (vocabulary_of table.now) check
        (Compared (comparison_of comparison) (plain_sum left.now) (plain_sum right.now)) }
{
    match check {
        Check::Mentions(property) => sides_have(left, right, table, property),
        Check::Unknown => sides_have(left, right, table, Property::Unknown),
        Check::Misfits => comparison_misfits(left, right, table, comparison),
    }
}

fn bracket_fails(table: &Table, check: Check, name: &str) -> bool
    ensures { result ≡ leaf_test (vocabulary_of table.now) check (Bracket name.now) }
{
    match check {
        Check::Mentions(_) => false,
        Check::Unknown => meaning_of(table, name).is_unknown(),
        Check::Misfits => bracket_misfits(table, name),
    }
}

/// Whether a term or a bracket of a formula fails the check.
pub(crate) fn formula_fails(formula: &Tree<'_>, table: &Table, check: Check) -> bool
    ensures { result ≡ fails (vocabulary_of table.now) check (plain_tree formula.now) }
{
    match formula {
        Tree::Bare(term) => bare_fails(term, table, check),
        Tree::Equal(left, right)
        | Tree::Differ(left, right)
        | Tree::Less(left, right)
        | Tree::AtMost(left, right)
        | Tree::More(left, right)
        | Tree::AtLeast(left, right) => {
            comparison_fails(left, right, table, check, comparison_in(formula))
        }
        Tree::Paren(inner) | Tree::Not(inner) => formula_fails(inner, table, check),
        Tree::Both(first, second)
        | Tree::Either(first, second)
        | Tree::Implies(first, second)
        | Tree::Same(first, second) => {
            formula_fails(first, table, check) || formula_fails(second, table, check)
        }
        Tree::ForAll(name, inner) | Tree::Exists(name, inner) => {
            bracket_fails(table, check, name) || formula_fails(inner, table, check)
        }
    }
}
