//! Laws about each value of a constant.
ghost use Rattle.std.specs.Prelude.{◌≡◌, ◌++◌, ◌∷◌, [], length, IfOk};
ghost use Rattle.std.specs.Option.{option_map};
ghost use Rattle.cc_defs.specs.declared.law.Range.TheVariants as variants;
ghost use Rattle.cc_defs.specs.Resolved.{plain_base_law, plain_formula, plain_term as resolved_term};
ghost use Rattle.cc_defs.specs.Resolved as resolved;
ghost use Rattle.cc_laws.specs.Expansion as words;
ghost use Rattle.cc_laws.specs.Views.{frame_of, persistence_of, row_terms};
ghost use Rattle.cc_laws.specs.Vocabulary.{vocabulary_of};

use crate::classes::class;
use crate::names::Names;
use cc_defs::{BaseLaw, Formula, Head, Law, List, OutOfMemory, Range, Term};
use cc_sorts::Table;
use std::alloc::Global;

/// Which parts of a law say that a constant has the value of its head.
#[derive(Clone, Copy)]
pub(crate) enum Persistence {
    /// The `if` part.
    Exogenous,
    /// Both parts.
    Inertial,
    /// The `after` part.
    Rigid,
}

/// What the base laws of a statement have in common: what their variables go over, their test, what their formulas see
/// behind the test, and their place.
#[derive(Drop)]
pub(crate) struct Frame {
    pub(crate) ranges: Vec<Range>,
    pub(crate) test: Formula,
    pub(crate) names: Names,
    pub(crate) file: u32,
    pub(crate) line: u32,
}

/// The parts `if` and `after` of a law.
#[derive(Drop)]
pub(crate) struct Parts {
    pub(crate) body: Formula,
    pub(crate) after: Option<Formula>,
}

/// A base law of its parts.
pub(crate) fn base_law(table: &Table, frame: Frame, head: Head, parts: Parts) -> BaseLaw
    ensures { plain_base_law result ≡ words.base_law (vocabulary_of table.now) (frame_of frame)
        (resolved.plain_head head) (plain_formula parts.body)
        (option_map plain_formula parts.after) }
{
    let kind = class(&parts.after, table, &head);
    BaseLaw::One(Law {
        ranges: List::of(frame.ranges),
        head,
        body: parts.body,
        after: parts.after,
        test: frame.test,
        kind,
        file: frame.file,
        line: frame.line,
    })
}

/// The same term.
pub(crate) fn copy_term(alloc: Global, term: &Term) -> Result<Term, OutOfMemory>
    ensures { IfOk result (λ copy. resolved_term copy ≡ resolved_term term.now) }
{
    match term {
        Term::Constant { symbol, args } => {
            let mut copies = Vec::with_capacity(alloc, args.len())?;
            for argument in args {
                copies.push(copy_term(alloc, argument)?)?;
            }
            Ok(Term::Constant {
                symbol: *symbol,
                args: copies,
            })
        }
        Term::Object(number) => Ok(Term::Object(*number)),
        Term::Variable(place) => Ok(Term::Variable(*place)),
        Term::Nothing => Ok(Term::Nothing),
        Term::Number(number) => Ok(Term::Number(*number)),
        Term::Plus(first, second) => {
            let first = Box::new(alloc, copy_term(alloc, first)?)?;
            let second = Box::new(alloc, copy_term(alloc, second)?)?;
            Ok(Term::Plus(first, second))
        }
        Term::Minus(first, second) => {
            let first = Box::new(alloc, copy_term(alloc, first)?)?;
            let second = Box::new(alloc, copy_term(alloc, second)?)?;
            Ok(Term::Minus(first, second))
        }
    }
}

/// The same terms.
pub(crate) fn copy_terms(alloc: Global, terms: &[Term]) -> Result<Vec<Term>, OutOfMemory>
    ensures { IfOk result (λ copies. row_terms copies.items ≡ row_terms terms.now) }
{
    let mut copies = Vec::with_capacity(alloc, terms.len())?;
    for term in terms {
        copies.push(copy_term(alloc, term)?)?;
    }
    Ok(copies)
}

/// That a constant with these arguments has a value.
pub(crate) fn equation_of(symbol: u32, args: Vec<Term>, value: Term) -> Formula
    ensures { plain_formula result
        ≡ resolved.Equal (resolved.Constant symbol (row_terms args.items)) (resolved_term value) }
{
    Formula::Equal(Term::Constant { symbol, args }, value)
}

/// The parts of a law about a value.
fn value_parts(
    alloc: Global,
    args: &[Term],
    persistence: Persistence,
    symbol: u32,
    variable: u32,
) -> Result<Parts, OutOfMemory>
    ensures body { IfOk result (λ made.
        plain_formula made.body ≡ words.body_of (persistence_of persistence) (resolved.Equal
        (resolved.Constant symbol (row_terms args.now)) (resolved.Variable variable))) }
    ensures after { IfOk result (λ made. option_map plain_formula made.after
        ≡ words.after_of (persistence_of persistence) (resolved.Equal
        (resolved.Constant symbol (row_terms args.now)) (resolved.Variable variable))) }
{
    let copies = copy_terms(alloc, args)?;
    match persistence {
        Persistence::Exogenous => Ok(Parts {
            body: equation_of(symbol, copies, Term::Variable(variable)),
            after: None,
        }),
        Persistence::Inertial => {
            let others = copy_terms(alloc, args)?;
            Ok(Parts {
                body: equation_of(symbol, copies, Term::Variable(variable)),
                after: Some(equation_of(symbol, others, Term::Variable(variable))),
            })
        }
        Persistence::Rigid => Ok(Parts {
            body: Formula::True,
            after: Some(equation_of(symbol, copies, Term::Variable(variable))),
        }),
    }
}

/// Adds the range of a constant's value; answers the place of its variable, which is behind the others.
fn add_domain(ranges: &mut Vec<Range>, symbol: u32) -> Result<u32, OutOfMemory>
    ensures added { IfOk result (λ place.
        ranges.new.items ≡ ranges.old.items ++ variants.Domain symbol ∷ []) }
    ensures place { IfOk result (λ place. place ≡ length ranges.old.items) }
{
    let count = ranges.len();
    if count >= 4_000_000_000 {
        return Err(OutOfMemory);
    }
    ranges.push(Range::Domain(symbol))?;
    Ok(count as u32)
}

/// The law about each value of a constant; the variable of the value stands behind the others.
pub(crate) fn value_law(
    alloc: Global,
    table: &Table,
    mut frame: Frame,
    persistence: Persistence,
    symbol: u32,
    args: Vec<Term>,
) -> Result<BaseLaw, OutOfMemory>
    ensures { IfOk result (λ made. plain_base_law made ≡ words.value_law (vocabulary_of table.now)
        (frame_of frame) (persistence_of persistence) symbol (row_terms args.items)) }
{
    let variable = add_domain(&mut frame.ranges, symbol)?;
    let parts = value_parts(alloc, &args, persistence, symbol, variable)?;
    let head = Head::Atom {
        symbol,
        args: List::of(args),
        value: Term::Variable(variable),
    };
    Ok(base_law(table, frame, head, parts))
}
