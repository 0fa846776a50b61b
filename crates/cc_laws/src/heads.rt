//! Which formulas are definite: conjunctions of what a head may be.
ghost use Rattle.std.specs.Prelude.{◌≡◌, [], is_some, option_map};
ghost use Rattle.cc_defs.specs.Trees.{plain_sum, plain_term, plain_tree, Bare as bare, Compared as comparison, IsEqual as equal, Differs as differs};
ghost use Rattle.cc_laws.specs.Heads as words;
ghost use Rattle.cc_laws.specs.LawFaults as faults;
ghost use Rattle.cc_laws.specs.Leaves.{lone as alone};
ghost use Rattle.cc_laws.specs.Views.{constant_beside as is_beside, truth_beside as are_beside};
ghost use Rattle.cc_laws.specs.Vocabulary.{vocabulary_of};

use crate::meaning::meaning_of_term;
use crate::mention::{Property, sum_has};
use crate::sums::lone;
use cc_defs::{SumTree, TermTree, Tree};
use cc_sorts::Table;

fn is_constant_term(term: &TermTree<'_>, table: &Table) -> bool
    ensures { result ≡ words.is_constant_term (vocabulary_of table.now) (plain_term term.now) }
{
    meaning_of_term(term, table).is_constant()
}

pub(crate) fn is_boolean_term(term: &TermTree<'_>, table: &Table) -> bool
    ensures { result ≡ words.is_boolean_term (vocabulary_of table.now) (plain_term term.now) }
{
    meaning_of_term(term, table).is_boolean_constant()
}

fn is_truth_term(term: &TermTree<'_>, table: &Table) -> bool
    ensures { result ≡ words.is_truth_term (vocabulary_of table.now) (plain_term term.now) }
{
    meaning_of_term(term, table).is_truth_value()
}

pub(crate) fn is_falsity_term(term: &TermTree<'_>, table: &Table) -> bool
    ensures { result ≡ words.is_falsity_term (vocabulary_of table.now) (plain_term term.now) }
{
    meaning_of_term(term, table).is_falsity()
}

/// The constant that a sum is alone, where the other sum has no constant.
pub(crate) fn constant_beside<'t, 's>(
    constant: &'t SumTree<'s>,
    value: &'t SumTree<'s>,
    table: &Table,
) -> Option<&'t TermTree<'s>>
    ensures { option_map (λ term. plain_term term.now) result ≡ is_beside
        (vocabulary_of table.now) (alone (plain_sum constant.now)) (plain_sum value.now) }
{
    match lone(constant) {
        Some(term) => {
            if is_constant_term(term, table) && !sum_has(value, table, Property::Constant) {
                Some(term)
            } else {
                None
            }
        }
        None => None,
    }
}

fn has_constant_beside<'t, 's>(
    constant: &'t SumTree<'s>,
    value: &'t SumTree<'s>,
    table: &Table,
) -> bool
    ensures { result ≡ is_some (is_beside
        (vocabulary_of table.now) (alone (plain_sum constant.now)) (plain_sum value.now)) }
{
    match constant_beside(constant, value, table) {
        Some(_) => true,
        None => false,
    }
}

/// Both terms, where a Boolean constant is compared with `false` or `true`.
pub(crate) fn truth_beside<'t, 's>(
    constant: &'t SumTree<'s>,
    value: &'t SumTree<'s>,
    table: &Table,
) -> Option<(&'t TermTree<'s>, &'t TermTree<'s>)>
    ensures { option_map (λ pair. (plain_term pair.0.now, plain_term pair.1.now)) result
        ≡ are_beside
        (vocabulary_of table.now) (alone (plain_sum constant.now)) (alone (plain_sum value.now)) }
{
    let Some(term) = lone(constant) else {
        return None;
    };
    let Some(truth) = lone(value) else {
        return None;
    };
    if is_boolean_term(term, table) && is_truth_term(truth, table) {
        Some((term, truth))
    } else {
        None
    }
}

fn has_truth_beside<'t, 's>(
    constant: &'t SumTree<'s>,
    value: &'t SumTree<'s>,
    table: &Table,
) -> bool
    ensures { result ≡ is_some (are_beside
        (vocabulary_of table.now) (alone (plain_sum constant.now)) (alone (plain_sum value.now))) }
{
    match truth_beside(constant, value, table) {
        Some(_) => true,
        None => false,
    }
}

/// Whether a term alone is a head: `false` or a Boolean constant.
#[tactic(auto, using(crate::proofs::HeadTests::bare_definite))]
fn is_definite_term(term: &TermTree<'_>, table: &Table) -> bool
    ensures { result ≡ faults.is_definite (vocabulary_of table.now) (bare (plain_term term.now)) }
{
    is_falsity_term(term, table) || is_boolean_term(term, table)
}

/// Whether an equation is an atom: one side is a constant alone and the other has none.
#[tactic(auto, using(crate::proofs::HeadTests::equation_definite))]
fn is_atom<'t, 's>(left: &'t SumTree<'s>, right: &'t SumTree<'s>, table: &Table) -> bool
    ensures { result ≡ faults.is_definite
        (vocabulary_of table.now) (comparison equal (plain_sum left.now) (plain_sum right.now)) }
{
    has_constant_beside(left, right, table) || has_constant_beside(right, left, table)
}

/// Whether the denial of an equation is a head: a Boolean constant is compared with `false` or `true`.
#[tactic(auto, using(crate::proofs::HeadTests::denial_definite))]
fn is_definite_denial<'t, 's>(left: &'t SumTree<'s>, right: &'t SumTree<'s>, table: &Table) -> bool
    ensures { result ≡ faults.is_definite
        (vocabulary_of table.now) (comparison differs (plain_sum left.now) (plain_sum right.now)) }
{
    has_truth_beside(left, right, table)
}

#[tactic(auto, using(crate::proofs::HeadTests::bare_deniable))]
fn is_deniable_term(term: &TermTree<'_>, table: &Table) -> bool
    ensures { result
        ≡ is_some (words.denied_heads (vocabulary_of table.now) [] (bare (plain_term term.now))) }
{
    is_boolean_term(term, table)
}

#[tactic(auto, using(crate::proofs::HeadTests::equation_deniable))]
fn is_deniable_equation<'t, 's>(
    left: &'t SumTree<'s>,
    right: &'t SumTree<'s>,
    table: &Table,
) -> bool
    ensures { result ≡ is_some (words.denied_heads (vocabulary_of table.now) []
        (comparison equal (plain_sum left.now) (plain_sum right.now))) }
{
    has_truth_beside(left, right, table) || has_truth_beside(right, left, table)
}

/// Whether a head may be the denial of the formula.
fn is_deniable(formula: &Tree<'_>, table: &Table) -> bool
    ensures { result
        ≡ is_some (words.denied_heads (vocabulary_of table.now) [] (plain_tree formula.now)) }
{
    match formula {
        Tree::Bare(term) => is_deniable_term(term, table),
        Tree::Equal(left, right) => is_deniable_equation(left, right, table),
        Tree::Paren(inner) => is_deniable(inner, table),
        _ => false,
    }
}

/// Whether a formula is a conjunction of heads: `false`, a Boolean constant, an atom, or a denial of one with a Boolean
/// constant.
#[tactic(auto, using(crate::proofs::HeadTests::both_definite))]
pub(crate) fn is_definite(formula: &Tree<'_>, table: &Table) -> bool
    ensures { result ≡ faults.is_definite (vocabulary_of table.now) (plain_tree formula.now) }
{
    match formula {
        Tree::Bare(term) => is_definite_term(term, table),
        Tree::Equal(left, right) => is_atom(left, right, table),
        Tree::Differ(left, right) => is_definite_denial(left, right, table),
        Tree::Paren(inner) => is_definite(inner, table),
        Tree::Not(inner) => is_deniable(inner, table),
        Tree::Both(first, second) => is_definite(first, table) && is_definite(second, table),
        _ => false,
    }
}
