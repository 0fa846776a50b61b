//! The pieces of sums, and the constants among them.
ghost use Rattle.std.specs.Prelude.{◌≡◌, ◌++◌, ◌∷◌, ◌||◌, [], IfOk, OnOk, is_some, map, option_and_then};
ghost use Rattle.cc_defs.specs.Judged.{all_meant, constants_of, is_sum as is_sum_of, those_meant, some_meant};
ghost use Rattle.cc_defs.specs.Resolved.{plain_term, terms_of};
ghost use Rattle.cc_defs.specs.Resolved as resolved;
ghost use Rattle.cc_defs.specs.Signatures.{number_at};
ghost use Rattle.cc_ground.specs.Bindings.{environment_of};
ghost use Rattle.cc_ground.specs.Pieces.{constant_piece, gathered, number_piece as piece_of, pieces_between, pieces_of, signed, with_new};
ghost use Rattle.cc_ground.specs.Views.{universe_of};

use crate::bindings::Bindings;
use crate::outermost::is_minus;
use crate::sides::constant_meant;
use cc_defs::{OutOfMemory, Sig, Term};
use cc_sorts::Table;
use std::alloc::Global;

/// What stands between two sums.
#[derive(Clone, Copy)]
pub(crate) enum Sign {
    Equal,
    Less,
    AtMost,
}

/// A piece of a sum.
#[derive(Clone, Copy)]
pub(crate) enum Piece {
    /// What is no number.
    Nothing,
    Number(u32),
    /// The ground constant of this number.
    Constant(u32),
}

/// A piece that is added, or taken.
#[derive(Clone, Copy)]
pub(crate) struct Signed {
    pub(crate) minus: bool,
    pub(crate) piece: Piece,
}

/// Whether a term is a number, or a sum of two pieces or more.
fn is_sum(term: &Term) -> bool
    ensures { result ≡ is_sum_of (plain_term term.now) }
{
    match term {
        Term::Number(_) | Term::Plus(..) | Term::Minus(..) => true,
        Term::Constant { .. } | Term::Object(_) | Term::Variable(_) | Term::Nothing => false,
    }
}

/// Whether one of two terms is.
pub(crate) fn has_sum(left: &Term, right: &Term) -> bool
    ensures { result ≡ (is_sum_of (plain_term left.now) || is_sum_of (plain_term right.now)) }
{
    is_sum(left) || is_sum(right)
}

/// A number behind others, if it is none of them.
fn add_new(numbers: &mut Vec<u32>, number: u32) -> Result<(), OutOfMemory>
    ensures { OnOk result (numbers.new.items ≡ with_new numbers.old.items number) }
{
    if numbers.contains(&number) {
        return Ok(());
    }
    numbers.push(number)?;
    Ok(())
}

/// The constant that is meant behind others, if it is there, and none of them. Answers whether it is there.
fn add_meant(constants: &mut Vec<u32>, found: Option<u32>) -> Result<bool, OutOfMemory>
    ensures constants { OnOk result
        (constants.new.items ≡ gathered constants.old.items (some_meant found [])) }
    ensures all { IfOk result (λ all. all ≡ is_some found) }
{
    let Some(number) = found else {
        return Ok(false);
    };
    add_new(constants, number)?;
    Ok(true)
}

/// A constant behind others, if it is there, and none of them. Answers whether it is there.
fn gather_constant(
    alloc: Global,
    table: &Table,
    sig: &Sig,
    env: &Bindings,
    symbol: u32,
    terms: &[Term],
    constants: &mut Vec<u32>,
) -> Result<bool, OutOfMemory>
    ensures constants { OnOk result (constants.new.items ≡ gathered constants.old.items
        (those_meant (universe_of table.now sig.now) (environment_of env.now)
        (constants_of (resolved.Constant symbol (terms_of (map plain_term terms.now)))))) }
    ensures all { IfOk result (λ all.
        all ≡ is_some (all_meant (universe_of table.now sig.now) (environment_of env.now)
        (constants_of (resolved.Constant symbol (terms_of (map plain_term terms.now)))))) }
{
    let found = constant_meant(alloc, table, sig, env, symbol, terms)?;
    add_meant(constants, found)
}

/// The constants that are pieces of a term and are there, from left to right behind others, each where it is none of them.
/// Answers whether all are there.
#[cycle(gathering)]
fn gather(
    alloc: Global,
    table: &Table,
    sig: &Sig,
    env: &Bindings,
    term: &Term,
    constants: &mut Vec<u32>,
) -> Result<bool, OutOfMemory>
    ensures constants { OnOk result (constants.new.items
        ≡ gathered constants.old.items (those_meant (universe_of table.now sig.now)
        (environment_of env.now) (constants_of (plain_term term.now)))) }
    ensures all { IfOk result (λ all. all ≡ is_some (all_meant (universe_of table.now sig.now)
        (environment_of env.now) (constants_of (plain_term term.now)))) }
{
    match term {
        Term::Constant { symbol, args } => {
            gather_constant(alloc, table, sig, env, *symbol, args, constants)
        }
        Term::Plus(left, right) | Term::Minus(left, right) => {
            gather_both(alloc, table, sig, env, left, right, constants)
        }
        Term::Object(_) | Term::Variable(_) | Term::Nothing | Term::Number(_) => Ok(true),
    }
}

/// Those of two terms.
#[cycle(gathering)]
#[tactic(auto, using(crate::proofs::Gathering::gathered_both, crate::proofs::Gathering::all_both))]
pub(crate) fn gather_both(
    alloc: Global,
    table: &Table,
    sig: &Sig,
    env: &Bindings,
    left: &Term,
    right: &Term,
    constants: &mut Vec<u32>,
) -> Result<bool, OutOfMemory>
    ensures constants { OnOk result (constants.new.items ≡ gathered constants.old.items
        (those_meant (universe_of table.now sig.now) (environment_of env.now)
        (constants_of (plain_term left.now) ++ constants_of (plain_term right.now)))) }
    ensures all { IfOk result (λ all.
        all ≡ is_some (all_meant (universe_of table.now sig.now) (environment_of env.now)
        (constants_of (plain_term left.now) ++ constants_of (plain_term right.now)))) }
{
    let one = gather(alloc, table, sig, env, left, constants)?;
    let other = gather(alloc, table, sig, env, right, constants)?;
    Ok(one && other)
}

fn number_piece(number: Option<u32>) -> Piece
    ensures { result ≡ piece_of number }
{
    match number {
        Some(number) => Piece::Number(number),
        None => Piece::Nothing,
    }
}

/// The piece that an object is, if there is one.
fn object_piece(table: &Table, object: Option<u32>) -> Piece
    ensures { result ≡ piece_of (option_and_then (number_at table.now.numbers) object) }
{
    match object {
        Some(object) => number_piece(table.number_of(object)),
        None => Piece::Nothing,
    }
}

fn meant_piece(found: Option<u32>) -> Piece
    ensures { result ≡ constant_piece found }
{
    match found {
        Some(constant) => Piece::Constant(constant),
        None => Piece::Nothing,
    }
}

fn add_piece(pieces: &mut Vec<Signed>, minus: bool, piece: Piece) -> Result<(), OutOfMemory>
    ensures { OnOk result (pieces.new.items ≡ pieces.old.items ++ signed minus piece ∷ []) }
{
    pieces.push(Signed { minus, piece })?;
    Ok(())
}

/// The piece that a constant is.
fn add_constant(
    alloc: Global,
    table: &Table,
    sig: &Sig,
    env: &Bindings,
    minus: bool,
    symbol: u32,
    terms: &[Term],
    pieces: &mut Vec<Signed>,
) -> Result<(), OutOfMemory>
    ensures { OnOk result (pieces.new.items ≡ pieces.old.items
        ++ pieces_of (universe_of table.now sig.now) (environment_of env.now) minus
        (resolved.Constant symbol (terms_of (map plain_term terms.now)))) }
{
    let found = constant_meant(alloc, table, sig, env, symbol, terms)?;
    add_piece(pieces, minus, meant_piece(found))
}

/// The pieces of a term, which is added or taken, behind others.
fn add_pieces(
    alloc: Global,
    table: &Table,
    sig: &Sig,
    env: &Bindings,
    minus: bool,
    term: &Term,
    pieces: &mut Vec<Signed>,
) -> Result<(), OutOfMemory>
    ensures { OnOk result (pieces.new.items ≡ pieces.old.items ++ pieces_of
        (universe_of table.now sig.now) (environment_of env.now) minus (plain_term term.now)) }
{
    match term {
        Term::Constant { symbol, args } => {
            add_constant(alloc, table, sig, env, minus, *symbol, args, pieces)
        }
        Term::Object(object) => add_piece(pieces, minus, number_piece(table.number_of(*object))),
        Term::Variable(variable) => {
            add_piece(pieces, minus, object_piece(table, env.value(*variable)))
        }
        Term::Nothing => add_piece(pieces, minus, Piece::Nothing),
        Term::Number(number) => add_piece(pieces, minus, Piece::Number(*number)),
        Term::Plus(left, right) | Term::Minus(left, right) => {
            add_pieces(alloc, table, sig, env, minus, left, pieces)?;
            add_pieces(
                alloc,
                table,
                sig,
                env,
                minus != is_minus(term),
                right,
                pieces,
            )
        }
    }
}

/// The pieces of both sides: what is on the right is taken from what is on the left.
pub(crate) fn add_both(
    alloc: Global,
    table: &Table,
    sig: &Sig,
    env: &Bindings,
    left: &Term,
    right: &Term,
    pieces: &mut Vec<Signed>,
) -> Result<(), OutOfMemory>
    ensures { OnOk result
        (pieces.new.items ≡ pieces.old.items ++ pieces_between (universe_of table.now sig.now)
        (environment_of env.now) (plain_term left.now) (plain_term right.now)) }
{
    add_pieces(alloc, table, sig, env, false, left, pieces)?;
    add_pieces(alloc, table, sig, env, true, right, pieces)
}
