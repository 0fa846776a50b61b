//! The names in terms and sums.
ghost use Rattle.std.specs.Prelude.{◌≡◌};
ghost use Rattle.cc_defs.specs.Trees.{plain_piece, plain_sum, plain_term};
ghost use Rattle.cc_laws.specs.FormulaFaults as faults;
ghost use Rattle.cc_laws.specs.Views.{asks, piece_has as has_named};
ghost use Rattle.cc_laws.specs.Vocabulary.{vocabulary_of};

use crate::meaning::meaning_of;
use cc_defs::{Piece, SumTree, TermTree};
use cc_sorts::Table;

/// What is asked of a name.
#[derive(Clone, Copy)]
pub(crate) enum Property {
    /// It is not declared.
    Unknown,
    /// It has another number of arguments than it may have.
    Miscounted,
    /// It is a constant.
    Constant,
    /// It is an action.
    Action,
    /// It is a fluent.
    Fluent,
    /// It is a statically determined fluent.
    Determined,
}

/// Whether a term has a name with the property, in its arguments too.
#[cycle(has)]
pub(crate) fn term_has(term: &TermTree<'_>, table: &Table, property: Property) -> bool
    ensures { result
        ≡ faults.term_has (vocabulary_of table.now) (asks property) (plain_term term.now) }
{
    if meaning_of(table, term.name).has(property, term.args.len()) {
        return true;
    }
    for argument in &term.args {
        if sum_has(argument, table, property) {
            return true;
        }
    }
    false
}

/// Whether a sum has such a name.
#[cycle(has)]
pub(crate) fn sum_has(sum: &SumTree<'_>, table: &Table, property: Property) -> bool
    ensures { result
        ≡ faults.sum_has (vocabulary_of table.now) (asks property) (plain_sum sum.now) }
{
    if piece_has(&sum.first, table, property) {
        return true;
    }
    for addend in &sum.rest {
        if piece_has(&addend.piece, table, property) {
            return true;
        }
    }
    false
}

/// Whether a piece has such a name; a number has none.
#[cycle(has)]
fn piece_has(piece: &Piece<'_>, table: &Table, property: Property) -> bool
    ensures { result ≡ has_named (vocabulary_of table.now) (asks property) (plain_piece piece.now) }
{
    match piece {
        Piece::Number(_) => false,
        Piece::Name(term) => term_has(term, table, property),
    }
}
