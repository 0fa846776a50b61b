//! Terms and brackets that stand where their sort or kind does not fit.
ghost use Rattle.std.specs.Prelude.{◌≡◌, option_map};
ghost use Rattle.std.specs.List.{list_any};
ghost use Rattle.cc_defs.specs.Trees.{plain_piece, plain_sum, plain_term};
ghost use Rattle.cc_laws.specs.FormulaFaults as faults;
ghost use Rattle.cc_laws.specs.Leaves.{Bare, Compared, pieces};
ghost use Rattle.cc_laws.specs.Views.{comparison_of, plain_meaning, plain_sums};
ghost use Rattle.cc_laws.specs.Vocabulary as words;
ghost use Rattle.cc_laws.specs.Vocabulary.{vocabulary_of};

use crate::meaning::{Meaning, meaning_of, meaning_of_term};
use crate::mention::{Property, sum_has};
use crate::sums::{Comparison, is_single, lone_meaning};
use cc_defs::{Piece, SumTree, Symbol, TermTree};
use cc_sorts::Table;

/// Whether a sort is the other or below it; one that is not there is below none.
fn sort_below(table: &Table, lower: u32, upper: u32) -> bool
    ensures { result ≡ words.sort_below (vocabulary_of table.now) lower upper }
{
    let count = table.sort_count();
    if (lower as usize) < count && (upper as usize) < count {
        table.below(lower, upper)
    } else {
        false
    }
}

/// Whether a term with this meaning may be no part of a sum of two or more, and no side of an order.
fn part_misfits(means: &Meaning<'_>) -> bool
    ensures { result ≡ faults.part_misfits (plain_meaning means.now) }
{
    match means {
        Meaning::Nothing | Meaning::Object(..) => true,
        Meaning::Constant(..) => means.is_boolean_constant(),
        _ => false,
    }
}

fn piece_misfits(piece: &Piece<'_>, table: &Table) -> bool
    ensures { result ≡ faults.piece_misfits (vocabulary_of table.now) (plain_piece piece.now) }
{
    match piece {
        Piece::Number(_) => false,
        Piece::Name(term) => part_misfits(&meaning_of_term(term, table)),
    }
}

fn some_piece_misfits(sum: &SumTree<'_>, table: &Table) -> bool
    ensures { result
        ≡ list_any (faults.piece_misfits (vocabulary_of table.now)) (pieces (plain_sum sum.now)) }
{
    if piece_misfits(&sum.first, table) {
        return true;
    }
    for addend in &sum.rest {
        if piece_misfits(&addend.piece, table) {
            return true;
        }
    }
    false
}

/// Whether a sum of two pieces or more has one that may be no part of it.
fn sum_misfits(sum: &SumTree<'_>, table: &Table) -> bool
    ensures { result ≡ faults.sum_misfits (vocabulary_of table.now) (plain_sum sum.now) }
{
    if is_single(sum) {
        return false;
    }
    some_piece_misfits(sum, table)
}

/// Whether a name alone with this meaning is no argument of the sort; what is no name alone has none.
fn name_misfits(table: &Table, sort: u32, name: &Option<Meaning<'_>>) -> bool
    ensures { result
        ≡ faults.name_misfits (vocabulary_of table.now) sort (option_map plain_meaning name.now) }
{
    match name {
        None => false,
        Some(Meaning::Object(_, own)) | Some(Meaning::Variable(_, own)) => {
            !sort_below(table, *own, sort)
        }
        Some(_) => true,
    }
}

/// Whether a sum is no argument of the sort.
fn argument_misfits(argument: &SumTree<'_>, table: &Table, sort: u32) -> bool
    ensures { result
        ≡ faults.argument_misfits (vocabulary_of table.now) sort (plain_sum argument.now) }
{
    sum_has(argument, table, Property::Constant)
        || (sum_misfits(argument, table)
            || name_misfits(table, sort, &lone_meaning(argument, table)))
}

/// Whether an argument does not fit its sort, as far as there are sorts.
fn some_argument_misfits(args: &[SumTree<'_>], table: &Table, sorts: &[u32]) -> bool
    ensures { result
        ≡ faults.some_argument_misfits (vocabulary_of table.now) sorts.now (plain_sums args.now) }
{
    for place in 0..sorts.len() {
        let Some(argument) = args.get(place) else {
            return false;
        };
        if argument_misfits(argument, table, sorts[place]) {
            return true;
        }
    }
    false
}

/// Whether an argument of a name with this meaning does not fit.
fn arguments_misfit(args: &[SumTree<'_>], table: &Table, means: &Meaning<'_>) -> bool
    ensures { result ≡ faults.arguments_misfit
        (vocabulary_of table.now) (plain_meaning means.now) (plain_sums args.now) }
{
    match means {
        Meaning::Constant(_, symbol) => some_argument_misfits(args, table, symbol.sorts.items()),
        _ => false,
    }
}

/// Whether an argument of a term does not fit.
pub(crate) fn term_misfits(term: &TermTree<'_>, table: &Table) -> bool
    ensures { result ≡ faults.term_misfits (vocabulary_of table.now) (plain_term term.now) }
{
    arguments_misfit(&term.args, table, &meaning_of_term(term, table))
}

fn piece_term_misfits(piece: &Piece<'_>, table: &Table) -> bool
    ensures { result ≡ faults.piece_term_misfits (vocabulary_of table.now) (plain_piece piece.now) }
{
    match piece {
        Piece::Number(_) => false,
        Piece::Name(term) => term_misfits(term, table),
    }
}

/// Whether an argument of a piece does not fit.
fn some_term_misfits(sum: &SumTree<'_>, table: &Table) -> bool
    ensures { result ≡ list_any
        (faults.piece_term_misfits (vocabulary_of table.now)) (pieces (plain_sum sum.now)) }
{
    if piece_term_misfits(&sum.first, table) {
        return true;
    }
    for addend in &sum.rest {
        if piece_term_misfits(&addend.piece, table) {
            return true;
        }
    }
    false
}

/// Whether a piece of a sum does not fit, or an argument of one.
fn side_misfits(sum: &SumTree<'_>, table: &Table) -> bool
    ensures { result ≡ faults.side_misfits (vocabulary_of table.now) (plain_sum sum.now) }
{
    sum_misfits(sum, table) || some_term_misfits(sum, table)
}

/// Whether a term with this meaning is no value of the symbol.
fn value_misfits(table: &Table, symbol: &Symbol, value: &Meaning<'_>) -> bool
    ensures { result
        ≡ faults.value_misfits (vocabulary_of table.now) symbol.now (plain_meaning value.now) }
{
    match value {
        Meaning::Unknown | Meaning::Constant(..) => false,
        Meaning::Nothing => symbol.attribute.is_none(),
        Meaning::Object(_, own) | Meaning::Variable(_, own) => {
            !sort_below(table, *own, symbol.domain)
        }
    }
}

fn nothing_misfits(means: &Meaning<'_>) -> bool
    ensures { result ≡ faults.nothing_misfits (plain_meaning means.now) }
{
    match means {
        Meaning::Nothing => true,
        _ => false,
    }
}

/// Whether two terms with these meanings may not be compared.
fn sides_misfit(table: &Table, left: &Meaning<'_>, right: &Meaning<'_>) -> bool
    ensures { result ≡ faults.sides_misfit
        (vocabulary_of table.now) (plain_meaning left.now) (plain_meaning right.now) }
{
    match (left, right) {
        (Meaning::Constant(_, symbol), other) => value_misfits(table, symbol, other),
        (other, Meaning::Constant(_, symbol)) => value_misfits(table, symbol, other),
        (one, other) => nothing_misfits(one) || nothing_misfits(other),
    }
}

/// Whether two sums, of which a name alone has a meaning, may not be said to be equal.
fn equal_sides_misfit(
    table: &Table,
    left: &Option<Meaning<'_>>,
    right: &Option<Meaning<'_>>,
) -> bool
    ensures { result ≡ faults.equal_sides_misfit (vocabulary_of table.now)
        (option_map plain_meaning left.now) (option_map plain_meaning right.now) }
{
    match (left, right) {
        (Some(one), Some(other)) => sides_misfit(table, one, other),
        (Some(one), None) => nothing_misfits(one),
        (None, Some(other)) => nothing_misfits(other),
        (None, None) => false,
    }
}

fn is_part_misfit(name: &Option<Meaning<'_>>) -> bool
    ensures { result ≡ faults.is_part_misfit (option_map plain_meaning name.now) }
{
    match name {
        Some(means) => part_misfits(means),
        None => false,
    }
}

/// Whether an order may not stand between them.
fn order_sides_misfit(left: &Option<Meaning<'_>>, right: &Option<Meaning<'_>>) -> bool
    ensures { result ≡ faults.order_sides_misfit
        (option_map plain_meaning left.now) (option_map plain_meaning right.now) }
{
    is_part_misfit(left) || is_part_misfit(right)
}

/// Whether the sign may not stand between them.
fn compared_misfit(
    table: &Table,
    comparison: Comparison,
    left: &Option<Meaning<'_>>,
    right: &Option<Meaning<'_>>,
) -> bool
    ensures { result ≡ faults.compared_misfit (comparison_of comparison) (vocabulary_of table.now)
        (option_map plain_meaning left.now) (option_map plain_meaning right.now) }
{
    match comparison {
        Comparison::Equal | Comparison::Differs => equal_sides_misfit(table, left, right),
        _ => order_sides_misfit(left, right),
    }
}

/// Whether a term does not fit as a formula.
pub(crate) fn bare_misfits(term: &TermTree<'_>, table: &Table) -> bool
    ensures { result ≡ faults.leaf_misfits (vocabulary_of table.now) (Bare (plain_term term.now)) }
{
    !meaning_of_term(term, table).stands_alone() || term_misfits(term, table)
}

/// Whether two sums with a sign between them do not fit.
pub(crate) fn comparison_misfits<'t, 's>(
    left: &'t SumTree<'s>,
    right: &'t SumTree<'s>,
    table: &Table,
    comparison: Comparison,
) -> bool
    ensures { result ≡ faults.leaf_misfits (vocabulary_of table.now)
        (Compared (comparison_of comparison) (plain_sum left.now) (plain_sum right.now)) }
{
    compared_misfit(
        table,
        comparison,
        &lone_meaning(left, table),
        &lone_meaning(right, table),
    ) || (side_misfits(left, table) || side_misfits(right, table))
}

/// Whether a bracket's name does not fit.
pub(crate) fn bracket_misfits(table: &Table, name: &str) -> bool
    ensures { result ≡ faults.bracket_misfits (words.meaning (vocabulary_of table.now) name.now) }
{
    match meaning_of(table, name) {
        Meaning::Unknown | Meaning::Variable(..) => false,
        _ => true,
    }
}
