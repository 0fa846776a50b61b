//! Copies of terms and formulas.
ghost use Rattle.std.specs.Prelude.{◌≡◌, map, IfOk};
ghost use Rattle.std.specs.Option.{option_map};
ghost use Rattle.cc_defs.specs.Resolved.{plain_formula, plain_term};

use cc_defs::{Formula, OutOfMemory, Term};
use std::alloc::Global;

/// The same term.
pub(crate) fn copy_term(alloc: Global, term: &Term) -> Result<Term, OutOfMemory>
    ensures { IfOk result (λ copy. plain_term copy ≡ plain_term term.now) }
{
    match term {
        Term::Constant { symbol, args } => {
            let mut copies = Vec::with_capacity(alloc, args.len())?;
            for argument in args {
                copies.push(copy_term(alloc, argument)?)?;
            }
            Ok(Term::Constant {
                symbol: *symbol,
                args: copies,
            })
        }
        Term::Object(number) => Ok(Term::Object(*number)),
        Term::Variable(place) => Ok(Term::Variable(*place)),
        Term::Nothing => Ok(Term::Nothing),
        Term::Number(number) => Ok(Term::Number(*number)),
        Term::Plus(first, second) => {
            let first = Box::new(alloc, copy_term(alloc, first)?)?;
            let second = Box::new(alloc, copy_term(alloc, second)?)?;
            Ok(Term::Plus(first, second))
        }
        Term::Minus(first, second) => {
            let first = Box::new(alloc, copy_term(alloc, first)?)?;
            let second = Box::new(alloc, copy_term(alloc, second)?)?;
            Ok(Term::Minus(first, second))
        }
    }
}

/// The same terms.
pub(crate) fn copy_terms(alloc: Global, terms: &[Term]) -> Result<Vec<Term>, OutOfMemory>
    ensures { IfOk result (λ copies. map plain_term copies.items ≡ map plain_term terms.now) }
{
    let mut copies = Vec::with_capacity(alloc, terms.len())?;
    for term in terms {
        copies.push(copy_term(alloc, term)?)?;
    }
    Ok(copies)
}

/// The same formula.
pub(crate) fn copy_formula(alloc: Global, formula: &Formula) -> Result<Formula, OutOfMemory>
    ensures { IfOk result (λ copy. plain_formula copy ≡ plain_formula formula.now) }
{
    match formula {
        Formula::True => Ok(Formula::True),
        Formula::False => Ok(Formula::False),
        Formula::Equal(left, right) => {
            let left = copy_term(alloc, left)?;
            let right = copy_term(alloc, right)?;
            Ok(Formula::Equal(left, right))
        }
        Formula::Less(left, right) => {
            let left = copy_term(alloc, left)?;
            let right = copy_term(alloc, right)?;
            Ok(Formula::Less(left, right))
        }
        Formula::AtMost(left, right) => {
            let left = copy_term(alloc, left)?;
            let right = copy_term(alloc, right)?;
            Ok(Formula::AtMost(left, right))
        }
        Formula::Not(inner) => {
            let inner = Box::new(alloc, copy_formula(alloc, inner)?)?;
            Ok(Formula::Not(inner))
        }
        Formula::Both(left, right) => {
            let left = Box::new(alloc, copy_formula(alloc, left)?)?;
            let right = Box::new(alloc, copy_formula(alloc, right)?)?;
            Ok(Formula::Both(left, right))
        }
        Formula::Either(left, right) => {
            let left = Box::new(alloc, copy_formula(alloc, left)?)?;
            let right = Box::new(alloc, copy_formula(alloc, right)?)?;
            Ok(Formula::Either(left, right))
        }
        Formula::Implies(left, right) => {
            let left = Box::new(alloc, copy_formula(alloc, left)?)?;
            let right = Box::new(alloc, copy_formula(alloc, right)?)?;
            Ok(Formula::Implies(left, right))
        }
        Formula::Same(left, right) => {
            let left = Box::new(alloc, copy_formula(alloc, left)?)?;
            let right = Box::new(alloc, copy_formula(alloc, right)?)?;
            Ok(Formula::Same(left, right))
        }
        Formula::ForAll(variable, sort, inner) => {
            let inner = Box::new(alloc, copy_formula(alloc, inner)?)?;
            Ok(Formula::ForAll(*variable, *sort, inner))
        }
        Formula::Exists(variable, sort, inner) => {
            let inner = Box::new(alloc, copy_formula(alloc, inner)?)?;
            Ok(Formula::Exists(*variable, *sort, inner))
        }
    }
}

/// The same part of a law, which may be missing.
pub(crate) fn copy_part(
    alloc: Global,
    part: &Option<Formula>,
) -> Result<Option<Formula>, OutOfMemory>
    ensures { IfOk result (λ copy.
        option_map plain_formula copy ≡ option_map plain_formula part.now) }
{
    match part {
        Some(formula) => Ok(Some(copy_formula(alloc, formula)?)),
        None => Ok(None),
    }
}
