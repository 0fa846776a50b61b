//! Formulas with numbers in place of names.
ghost use Rattle.std.specs.Prelude.{◌≡◌, ◌+◌, ◌∷◌, IfOk, OnOk};
ghost use Rattle.cc_defs.specs.Resolved.{plain_term as resolved_term, plain_formula};
ghost use Rattle.cc_defs.specs.Resolved as resolved;
ghost use Rattle.cc_defs.specs.Trees.{plain_piece, plain_sum, plain_term, plain_tree};
ghost use Rattle.cc_laws.specs.Resolving as words;
ghost use Rattle.cc_laws.specs.Views.{bracket_before, bracket_over, comparison_of, joined_by, joint_of, plain_binding, plain_meaning, row_terms, scope_of};
ghost use Rattle.cc_laws.specs.Vocabulary as vocabulary;
ghost use Rattle.cc_laws.specs.Vocabulary.{vocabulary_of};

use crate::made::gone;
use crate::meaning::{Meaning, meaning_of};
use crate::names::{Binding, Names};
use crate::sums::{Comparison, comparison_in};
use cc_defs::{Formula, OutOfMemory, Piece, SumTree, Term, TermTree, Tree};
use cc_sorts::Table;
use std::alloc::Global;

/// A term that has this meaning and these arguments.
#[tactic(auto, using(crate::proofs::TermRows::row_made))]
fn term_meant(names: &Names, means: Meaning<'_>, args: Vec<Term>) -> Term
    ensures { resolved_term result
        ≡ words.term_meant (scope_of names.now) (plain_meaning means.entry) (row_terms args.items) }
{
    match means {
        Meaning::Unknown | Meaning::Nothing => Term::Nothing,
        Meaning::Object(number, _) => Term::Object(number),
        Meaning::Variable(number, _) => match names.number_in(number) {
            Some(number) => Term::Variable(number),
            None => Term::Nothing,
        },
        Meaning::Constant(symbol, _) => Term::Constant { symbol, args },
    }
}

/// A term with another that is added, or taken away.
fn joined(made: Box<Term>, minus: bool, piece: Box<Term>) -> Term
    ensures { resolved_term result
        ≡ words.joined minus (resolved_term made.value) (resolved_term piece.value) }
{
    if minus {
        Term::Minus(made, piece)
    } else {
        Term::Plus(made, piece)
    }
}

/// The term with numbers in place of names.
#[cycle(terms)]
pub(crate) fn resolve_term(
    alloc: Global,
    term: &TermTree<'_>,
    table: &Table,
    names: &Names,
) -> Result<Term, OutOfMemory>
    ensures { IfOk result (λ made. resolved_term made
        ≡ words.resolve_term (vocabulary_of table.now) (scope_of names.now) (plain_term term.now)) }
{
    let mut args = Vec::with_capacity(alloc, term.args.len())?;
    for argument in &term.args {
        args.push(resolve_sum(alloc, argument, table, names)?)?;
    }
    Ok(term_meant(names, meaning_of(table, term.name), args))
}

/// The sum with numbers in place of names, grouped to the left.
#[cycle(terms)]
pub(crate) fn resolve_sum(
    alloc: Global,
    sum: &SumTree<'_>,
    table: &Table,
    names: &Names,
) -> Result<Term, OutOfMemory>
    ensures { IfOk result (λ made. resolved_term made
        ≡ words.resolve_sum (vocabulary_of table.now) (scope_of names.now) (plain_sum sum.now)) }
{
    let mut made = resolve_piece(alloc, &sum.first, table, names)?;
    for addend in &sum.rest {
        let first = Box::new(alloc, made)?;
        let second = Box::new(alloc, resolve_piece(alloc, &addend.piece, table, names)?)?;
        made = joined(first, addend.minus, second);
    }
    Ok(made)
}

/// The piece with numbers in place of names. A number asks no table.
#[cycle(terms)]
fn resolve_piece(
    alloc: Global,
    piece: &Piece<'_>,
    table: &Table,
    names: &Names,
) -> Result<Term, OutOfMemory>
    ensures { IfOk result (λ made. resolved_term made ≡ words.resolve_piece
        (vocabulary_of table.now) (scope_of names.now) (plain_piece piece.now)) }
{
    match piece {
        Piece::Number(number) => Ok(Term::Number(*number)),
        Piece::Name(term) => resolve_term(alloc, term, table, names),
    }
}

/// The formula that a term alone is.
fn alone(term: Term) -> Formula
    ensures { plain_formula result ≡ words.alone (resolved_term term) }
{
    match term {
        Term::Object(0) => Formula::False,
        Term::Object(1) => Formula::True,
        term => Formula::Equal(term, Term::Object(1)),
    }
}

pub(crate) fn negated(alloc: Global, formula: Formula) -> Result<Formula, OutOfMemory>
    ensures { IfOk result (λ made. plain_formula made ≡ resolved.Not (plain_formula formula)) }
{
    Ok(Formula::Not(Box::new(alloc, formula)?))
}

/// How two formulas are joined.
#[derive(Clone, Copy)]
pub(crate) enum Joint {
    Both,
    Either,
    Implies,
    Same,
}

/// Whether a bracket is over all objects or over some.
#[derive(Clone, Copy)]
pub(crate) enum Bracket {
    ForAll,
    Exists,
}

/// How the parts of a formula are joined; of one that is not joined nothing is said.
fn joint_in(formula: &Tree<'_>) -> Joint
    ensures { result ≡ joint_of (plain_tree formula.now) }
{
    match formula {
        Tree::Both(..) => Joint::Both,
        Tree::Either(..) => Joint::Either,
        Tree::Implies(..) => Joint::Implies,
        _ => Joint::Same,
    }
}

/// Which bracket a formula begins with; of another formula nothing is said.
fn bracket_in(formula: &Tree<'_>) -> Bracket
    ensures { result ≡ bracket_before (plain_tree formula.now) }
{
    match formula {
        Tree::ForAll(..) => Bracket::ForAll,
        _ => Bracket::Exists,
    }
}

fn bracket_of(bracket: Bracket, variable: u32, sort: u32, inside: Box<Formula>) -> Formula
    ensures { plain_formula result
        ≡ bracket_over bracket variable sort (plain_formula inside.value) }
{
    match bracket {
        Bracket::ForAll => Formula::ForAll(variable, sort, inside),
        Bracket::Exists => Formula::Exists(variable, sort, inside),
    }
}

/// Two terms with a sign between them: an order is said by the two that are less, or not greater.
fn compared(
    alloc: Global,
    comparison: Comparison,
    left: Term,
    right: Term,
) -> Result<Formula, OutOfMemory>
    ensures { IfOk result (λ made. plain_formula made
        ≡ words.compared (comparison_of comparison) (resolved_term left) (resolved_term right)) }
{
    match comparison {
        Comparison::Equal => Ok(Formula::Equal(left, right)),
        Comparison::Differs => negated(alloc, Formula::Equal(left, right)),
        Comparison::Less => Ok(Formula::Less(left, right)),
        Comparison::AtMost => Ok(Formula::AtMost(left, right)),
        Comparison::More => Ok(Formula::Less(right, left)),
        Comparison::AtLeast => Ok(Formula::AtMost(right, left)),
    }
}

#[inline(never)]
fn resolve_compared<'t, 's>(
    alloc: Global,
    left: &'t SumTree<'s>,
    right: &'t SumTree<'s>,
    table: &Table,
    names: &Names,
    comparison: Comparison,
) -> Result<Formula, OutOfMemory>
    ensures { IfOk result (λ made. plain_formula made ≡ words.compared (comparison_of comparison)
        (words.resolve_sum (vocabulary_of table.now) (scope_of names.now) (plain_sum left.now))
        (words.resolve_sum (vocabulary_of table.now) (scope_of names.now) (plain_sum right.now))) }
{
    let left = resolve_sum(alloc, left, table, names)?;
    let right = resolve_sum(alloc, right, table, names)?;
    compared(alloc, comparison, left, right)
}

fn resolve_alone(
    alloc: Global,
    term: &TermTree<'_>,
    table: &Table,
    names: &Names,
) -> Result<Formula, OutOfMemory>
    ensures { IfOk result (λ made. plain_formula made ≡ words.alone
        (words.resolve_term (vocabulary_of table.now) (scope_of names.now) (plain_term term.now))) }
{
    Ok(alone(resolve_term(alloc, term, table, names)?))
}

#[cycle(resolve)]
#[inline(never)]
pub(crate) fn resolve_not(
    alloc: Global,
    inner: &Tree<'_>,
    table: &Table,
    names: &mut Names,
) -> Result<Formula, OutOfMemory>
    ensures made { IfOk result (λ made. plain_formula made ≡ resolved.Not (words.resolve
        (vocabulary_of table.now) (scope_of names.old) names.old.next (plain_tree inner.now))) }
    ensures kept { OnOk result (names.new.bindings.items ≡ names.old.bindings.items) }
    ensures next { OnOk result
        (names.new.next ≡ names.old.next + words.brackets (plain_tree inner.now)) }
{
    let inner = Box::new(alloc, resolve(alloc, inner, table, names)?)?;
    Ok(Formula::Not(inner))
}

/// Two formulas, joined.
#[cycle(resolve)]
#[inline(never)]
pub(crate) fn resolve_two<'t, 's>(
    alloc: Global,
    first: &'t Tree<'s>,
    second: &'t Tree<'s>,
    table: &Table,
    names: &mut Names,
    joint: Joint,
) -> Result<Formula, OutOfMemory>
    ensures made { IfOk result (λ made. plain_formula made ≡ joined_by joint
        (words.resolve (vocabulary_of table.now) (scope_of names.old) names.old.next
        (plain_tree first.now)) (words.resolve (vocabulary_of table.now) (scope_of names.old)
        (names.old.next + words.brackets (plain_tree first.now)) (plain_tree second.now))) }
    ensures kept { OnOk result (names.new.bindings.items ≡ names.old.bindings.items) }
    ensures next { OnOk result (names.new.next ≡ names.old.next + (words.brackets
        (plain_tree first.now) + words.brackets (plain_tree second.now))) }
{
    let first = Box::new(alloc, resolve(alloc, first, table, names)?)?;
    let second = Box::new(alloc, resolve(alloc, second, table, names)?)?;
    Ok(match joint {
        Joint::Both => Formula::Both(first, second),
        Joint::Either => Formula::Either(first, second),
        Joint::Implies => Formula::Implies(first, second),
        Joint::Same => Formula::Same(first, second),
    })
}

/// A formula inside a bracket, which sees the variable of the bracket.
#[cycle(resolve)]
fn resolve_inside(
    alloc: Global,
    inner: &Tree<'_>,
    table: &Table,
    names: &mut Names,
    binding: Binding,
) -> Result<Box<Formula>, OutOfMemory>
    ensures made { IfOk result (λ made. plain_formula made.value
        ≡ words.resolve (vocabulary_of table.now)
        (plain_binding binding ∷ scope_of names.old) names.old.next (plain_tree inner.now)) }
    ensures kept { OnOk result (names.new.bindings.items ≡ names.old.bindings.items) }
    ensures next { OnOk result
        (names.new.next ≡ names.old.next + words.brackets (plain_tree inner.now)) }
{
    names.bindings.push(binding)?;
    let made = Box::new(alloc, resolve(alloc, inner, table, names)?)?;
    names.bindings.pop();
    Ok(made)
}

/// A bracket, which gets a number of its own. Where its name is no variable, which is refused before, its formula is
/// resolved for the numbers of the brackets behind it alone.
#[cycle(resolve)]
#[inline(never)]
fn resolve_bracket(
    alloc: Global,
    inner: &Tree<'_>,
    table: &Table,
    names: &mut Names,
    bracket: Bracket,
    name: &str,
) -> Result<Formula, OutOfMemory>
    ensures made { IfOk result (λ made. plain_formula made
        ≡ words.resolve_bracket (bracket_over bracket) (scope_of names.old) names.old.next
        (vocabulary.meaning (vocabulary_of table.now) name.now) (λ scope. words.resolve
        (vocabulary_of table.now) scope (names.old.next + 1) (plain_tree inner.now))) }
    ensures kept { OnOk result (names.new.bindings.items ≡ names.old.bindings.items) }
    ensures next { OnOk result
        (names.new.next ≡ names.old.next + (words.brackets (plain_tree inner.now) + 1)) }
{
    let number = names.fresh()?;
    match meaning_of(table, name) {
        Meaning::Variable(variable, sort) => {
            let inner = resolve_inside(alloc, inner, table, names, Binding { variable, number })?;
            Ok(bracket_of(bracket, number, sort, inner))
        }
        _ => {
            gone(resolve(alloc, inner, table, names))?;
            Ok(Formula::False)
        }
    }
}

/// The formula with numbers in place of names. Each bracket gets a number of its own, in the order in which they stand.
/// What allocates or joins is a function of its own, since formulas may be deep, and a level is to take little stack.
#[cycle(resolve)]
pub(crate) fn resolve(
    alloc: Global,
    formula: &Tree<'_>,
    table: &Table,
    names: &mut Names,
) -> Result<Formula, OutOfMemory>
    ensures made { IfOk result (λ made. plain_formula made ≡ words.resolve
        (vocabulary_of table.now) (scope_of names.old) names.old.next (plain_tree formula.now)) }
    ensures kept { OnOk result (names.new.bindings.items ≡ names.old.bindings.items) }
    ensures next { OnOk result
        (names.new.next ≡ names.old.next + words.brackets (plain_tree formula.now)) }
{
    match formula {
        Tree::Bare(term) => resolve_alone(alloc, term, table, names),
        Tree::Equal(left, right)
        | Tree::Differ(left, right)
        | Tree::Less(left, right)
        | Tree::AtMost(left, right)
        | Tree::More(left, right)
        | Tree::AtLeast(left, right) => {
            resolve_compared(alloc, left, right, table, names, comparison_in(formula))
        }
        Tree::Paren(inner) => resolve(alloc, inner, table, names),
        Tree::Not(inner) => resolve_not(alloc, inner, table, names),
        Tree::Both(first, second)
        | Tree::Either(first, second)
        | Tree::Implies(first, second)
        | Tree::Same(first, second) => {
            resolve_two(alloc, first, second, table, names, joint_in(formula))
        }
        Tree::ForAll(name, inner) | Tree::Exists(name, inner) => {
            resolve_bracket(alloc, inner, table, names, bracket_in(formula), name)
        }
    }
}
