//! Terms under an environment, and the sides of equations.
ghost use Rattle.std.specs.Prelude.{◌≡◌, IfOk, Some, [], length, map, nat_lt, option_and_then, option_map};
ghost use Rattle.cc_defs.specs.Signatures.{ground_constants, ground_number};
ghost use Rattle.cc_defs.specs.Resolved.{plain_term, terms_of};
ghost use Rattle.cc_defs.specs.Resolved as resolved;
ghost use Rattle.cc_defs.specs.Nodes.{side as side_of, numbered_side as numbered, value_side as side_with};
ghost use Rattle.cc_sorts.specs.Tables.{TableView};
ghost use Rattle.cc_defs.specs.Satisfaction.{cons_both};
ghost use Rattle.cc_defs.specs.Satisfaction as words;
ghost use Rattle.cc_ground.specs.Bindings.{environment_of};
ghost use Rattle.cc_ground.specs.Views.{bare_universe, plain_side, some_if, universe_of};

use crate::bindings::Bindings;
use crate::sums::object_given;
use crate::values::NONE;
use cc_defs::{OutOfMemory, Sig, Term};
use cc_sorts::Table;
use std::alloc::Global;

/// What a side of an equation stands for.
#[derive(Clone, Copy)]
pub(crate) enum Side<'t> {
    /// The ground constant with this number, and its values.
    Constant { number: u32, values: &'t [u32] },
    /// A value.
    Value(u32),
    /// Nothing: there is no such constant, or no such variable.
    Absent,
}

/// The object that an argument stands for.
fn argument(table: &Table, env: &Bindings, term: &Term) -> Result<Option<u32>, OutOfMemory>
    ensures { IfOk result (λ found. found
        ≡ words.argument (bare_universe table.now) (environment_of env.now) (plain_term term.now)) }
{
    match term {
        Term::Object(object) => Ok(Some(*object)),
        Term::Variable(variable) => Ok(env.value(*variable)),
        Term::Constant { .. } | Term::Nothing => Ok(None),
        Term::Number(_) | Term::Plus(..) | Term::Minus(..) => object_given(table, env, term),
    }
}

/// The objects that arguments stand for, in a list that is empty before, where all of them stand for one. Answers whether they
/// do.
fn add_arguments(
    table: &Table,
    env: &Bindings,
    terms: &[Term],
    args: &mut Vec<u32>,
) -> Result<bool, OutOfMemory>
    requires { args.now.items ≡ [] }
    ensures { IfOk result (λ all. some_if all args.new.items ≡ words.arguments
        (bare_universe table.now) (environment_of env.now) (terms_of (map plain_term terms.now))) }
{
    for term in terms {
        let Some(object) = argument(table, env, term)? else {
            return Ok(false);
        };
        args.push(object)?;
    }
    Ok(true)
}

/// The number of the ground constant of a symbol with one argument, where that is there.
fn meant_at(sig: &Sig, symbol: u32, arg: Option<u32>) -> Option<u32>
    ensures { result ≡ option_and_then (ground_number (ground_constants sig.now) symbol)
        (cons_both arg (Some [])) }
{
    match arg {
        Some(object) => sig.ground_number(symbol, &[object]),
        None => None,
    }
}

/// The number of the ground constant of a symbol with these arguments, where all of them stand for an object.
#[tactic(auto, using(crate::proofs::Bare::arguments_same))]
fn meant_with(
    alloc: Global,
    table: &Table,
    sig: &Sig,
    env: &Bindings,
    symbol: u32,
    terms: &[Term],
) -> Result<Option<u32>, OutOfMemory>
    ensures { IfOk result (λ found. found ≡ words.constant_meant (universe_of table.now sig.now)
        (environment_of env.now) symbol (terms_of (map plain_term terms.now))) }
{
    let mut args = Vec::new(alloc);
    if add_arguments(table, env, terms, &mut args)? {
        return Ok(sig.ground_number(symbol, &args));
    }
    Ok(None)
}

/// The number of the ground constant that a constant with its arguments stands for. One argument takes no memory.
#[tactic(auto, using(crate::proofs::Bare::arguments_same))]
pub(crate) fn constant_meant(
    alloc: Global,
    table: &Table,
    sig: &Sig,
    env: &Bindings,
    symbol: u32,
    terms: &[Term],
) -> Result<Option<u32>, OutOfMemory>
    ensures { IfOk result (λ found. found ≡ words.constant_meant (universe_of table.now sig.now)
        (environment_of env.now) symbol (terms_of (map plain_term terms.now))) }
{
    match terms {
        [term] => Ok(meant_at(sig, symbol, argument(table, env, term)?)),
        _ => meant_with(alloc, table, sig, env, symbol, terms),
    }
}

/// Whether there is a ground constant with the number.
pub(crate) fn is_constant(sig: &Sig, number: u32) -> bool
    ensures { result ≡ nat_lt number (length (ground_constants sig.now)) }
{
    u64::from(number) < u64::from(sig.fluents()) + u64::from(sig.actions())
}

/// The side that a ground constant is, if there is one.
fn numbered_side<'t>(sig: &'t Sig, found: Option<u32>) -> Side<'t>
    ensures { (table : TableView) → plain_side result ≡ numbered (universe_of table sig.now) found }
{
    match found {
        Some(number) if is_constant(sig, number) => Side::Constant {
            number,
            values: sig.constant(number).domain.items(),
        },
        _ => Side::Absent,
    }
}

/// The side that a constant with arguments stands for.
pub(crate) fn constant_side<'t>(
    alloc: Global,
    table: &Table,
    sig: &'t Sig,
    env: &Bindings,
    symbol: u32,
    terms: &[Term],
) -> Result<Side<'t>, OutOfMemory>
    ensures { IfOk result (λ side. plain_side side ≡ side_of (universe_of table.now sig.now)
        (environment_of env.now) (resolved.Constant symbol (terms_of (map plain_term terms.now)))) }
{
    Ok(numbered_side(sig, constant_meant(alloc, table, sig, env, symbol, terms)?))
}

/// The side that a value is, if there is one.
fn value_side<'t>(value: Option<u32>) -> Side<'t>
    ensures { plain_side result ≡ side_with value }
{
    match value {
        Some(value) => Side::Value(value),
        None => Side::Absent,
    }
}

/// The side that a number or a sum stands for.
#[tactic(auto, using(crate::proofs::Bare::given_same))]
fn sum_side<'t>(
    table: &Table,
    sig: &Sig,
    env: &Bindings,
    term: &Term,
) -> Result<Side<'t>, OutOfMemory>
    ensures { IfOk result (λ side. plain_side side ≡ side_with
        (option_and_then (words.object_of_value (universe_of table.now sig.now)) (words.given_value
        (universe_of table.now sig.now) (environment_of env.now) (plain_term term.now)))) }
{
    Ok(value_side(object_given(table, env, term)?))
}

/// What a term stands for as a side.
pub(crate) fn term_side<'t>(
    alloc: Global,
    table: &Table,
    sig: &'t Sig,
    env: &Bindings,
    term: &Term,
) -> Result<Side<'t>, OutOfMemory>
    ensures { IfOk result (λ side. plain_side side
        ≡ side_of (universe_of table.now sig.now) (environment_of env.now) (plain_term term.now)) }
{
    match term {
        Term::Constant { symbol, args } => constant_side(alloc, table, sig, env, *symbol, args),
        Term::Object(object) => Ok(Side::Value(*object)),
        Term::Variable(variable) => Ok(value_side(env.value(*variable))),
        Term::Nothing => Ok(Side::Value(NONE)),
        Term::Number(_) | Term::Plus(..) | Term::Minus(..) => sum_side(table, sig, env, term),
    }
}
