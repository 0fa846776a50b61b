//! Sums: the signs between two of them, and those of one piece.
ghost use Rattle.std.specs.Prelude.{◌≡◌};
ghost use Rattle.std.specs.Option.{option_map};
ghost use Rattle.cc_defs.specs.Trees.{plain_piece, plain_sum, plain_term, plain_tree};
ghost use Rattle.cc_laws.specs.FormulaFaults as faults;
ghost use Rattle.cc_laws.specs.Leaves as leaves;
ghost use Rattle.cc_laws.specs.Views as views;
ghost use Rattle.cc_laws.specs.Views.{plain_meaning};
ghost use Rattle.cc_laws.specs.Vocabulary.{vocabulary_of};

use crate::meaning::{Meaning, meaning_of_term};
use cc_defs::{Piece, SumTree, TermTree, Tree};
use cc_sorts::Table;

/// The sign between two sums.
#[derive(Clone, Copy)]
pub(crate) enum Comparison {
    /// `=`
    Equal,
    /// `\=`
    Differs,
    /// `<`
    Less,
    /// `=<`
    AtMost,
    /// `>`
    More,
    /// `>=`
    AtLeast,
}

/// The sign between the two sums that a formula is; of another formula nothing is said.
pub(crate) fn comparison_in(formula: &Tree<'_>) -> Comparison
    ensures { views.comparison_of result ≡ views.sign_in (plain_tree formula.now) }
{
    match formula {
        Tree::Equal(..) => Comparison::Equal,
        Tree::Differ(..) => Comparison::Differs,
        Tree::Less(..) => Comparison::Less,
        Tree::AtMost(..) => Comparison::AtMost,
        Tree::More(..) => Comparison::More,
        _ => Comparison::AtLeast,
    }
}

/// Whether a sum is one piece alone.
pub(crate) fn is_single(sum: &SumTree<'_>) -> bool
    ensures { result ≡ views.is_single (plain_sum sum.now) }
{
    sum.rest.as_slice().is_empty()
}

fn piece_name<'t, 's>(piece: &'t Piece<'s>) -> Option<&'t TermTree<'s>>
    ensures { option_map (λ term. plain_term term.now) result
        ≡ views.piece_name (plain_piece piece.now) }
{
    match piece {
        Piece::Number(_) => None,
        Piece::Name(term) => Some(term),
    }
}

/// The term that a sum is, where it is one alone.
pub(crate) fn lone<'t, 's>(sum: &'t SumTree<'s>) -> Option<&'t TermTree<'s>>
    ensures { option_map (λ term. plain_term term.now) result ≡ leaves.lone (plain_sum sum.now) }
{
    if is_single(sum) {
        return piece_name(&sum.first);
    }
    None
}

/// The meaning of the term that a sum is, where it is one alone.
pub(crate) fn lone_meaning<'t>(sum: &SumTree<'_>, table: &'t Table) -> Option<Meaning<'t>>
    ensures { option_map plain_meaning result
        ≡ faults.lone_meaning (vocabulary_of table.now) (plain_sum sum.now) }
{
    match lone(sum) {
        Some(term) => Some(meaning_of_term(term, table)),
        None => None,
    }
}
