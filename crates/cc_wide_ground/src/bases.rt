//! The base laws by which laws with heads of any form are grounded.
ghost use Rattle.std.specs.Prelude.{◌≡◌, ◌==◌, if◌then◌else◌, length, map, IfOk};
ghost use Rattle.std.specs.Option.{option_map};
ghost use Rattle.cc_defs.specs.Judged.{constants_of};
ghost use Rattle.cc_defs.specs.Resolved.{plain_base_law, plain_formula, plain_head, plain_law, plain_term};
ghost use Rattle.cc_defs.specs.Resolved as resolved;
ghost use Rattle.cc_wide.specs.WideLaws.{plain_wide_base, plain_wide_law};
ghost use Rattle.cc_wide.specs.WideLaws as words;
ghost use Rattle.cc_wide_ground.specs.Shares.{base_by, law_by};

use crate::copies::{copy_formula, copy_part, copy_term, copy_terms};
use cc_defs::{BaseLaw, BaseLaws, Formula, Head, Law, List, OutOfMemory, Term};
use cc_wide::{WideBase, WideLaw};
use std::alloc::Global;

/// What of a law is grounded.
#[derive(Clone, Copy)]
pub(crate) enum Share {
    /// Its parts `if` and `after`.
    Parts,
    /// Its head, as the `if` part of another law.
    Head,
}

/// Whether no constant stands in a term.
fn is_free(term: &Term) -> bool
    ensures { result ≡ (length (constants_of (plain_term term.now)) == 0) }
{
    match term {
        Term::Constant { .. } => false,
        Term::Object(_) | Term::Variable(_) | Term::Nothing | Term::Number(_) => true,
        Term::Plus(first, second) => is_free(first) && is_free(second),
        Term::Minus(first, second) => is_free(first) && is_free(second),
    }
}

/// That a constant has a value, where no constant stands in the value.
fn head_of_constant(
    alloc: Global,
    symbol: u32,
    args: &[Term],
    value: &Term,
) -> Result<Head, OutOfMemory>
    ensures { IfOk result (λ head. plain_head head
        ≡ (if length (constants_of (plain_term value.now)) == 0
        then resolved.Atom symbol (map plain_term args.now) (plain_term value.now)
        else resolved.Falsity)) }
{
    if !is_free(value) {
        return Ok(Head::Falsity);
    }
    let args = copy_terms(alloc, args)?;
    let value = copy_term(alloc, value)?;
    Ok(Head::Atom {
        symbol,
        args: List::of(args),
        value,
    })
}

/// The atom of an equation, where it is definite.
fn head_of_sides(alloc: Global, side: &Term, value: &Term) -> Result<Head, OutOfMemory>
    ensures { IfOk result (λ head.
        plain_head head ≡ words.atom_of_sides (plain_term side.now) (plain_term value.now)) }
{
    match side {
        Term::Constant { symbol, args } => head_of_constant(alloc, *symbol, args, value),
        Term::Object(_)
        | Term::Variable(_)
        | Term::Nothing
        | Term::Number(_)
        | Term::Plus(_, _)
        | Term::Minus(_, _) => Ok(Head::Falsity),
    }
}

/// The head, where it is one definite atom, and else falsity.
fn atom_head(alloc: Global, head: &Formula) -> Result<Head, OutOfMemory>
    ensures { IfOk result (λ atom. plain_head atom ≡ words.atom_head (plain_formula head.now)) }
{
    match head {
        Formula::Equal(side, value) => head_of_sides(alloc, side, value),
        Formula::True
        | Formula::False
        | Formula::Less(_, _)
        | Formula::AtMost(_, _)
        | Formula::Not(_)
        | Formula::Both(_, _)
        | Formula::Either(_, _)
        | Formula::Implies(_, _)
        | Formula::Same(_, _)
        | Formula::ForAll(_, _, _)
        | Formula::Exists(_, _, _) => Ok(Head::Falsity),
    }
}

/// What stands in the `if` part of the law by which a share of a law is grounded.
fn body_of_share(share: Share, law: &WideLaw) -> &Formula
    ensures { plain_formula result.now ≡ (law_by share (plain_wide_law law.now)).body }
{
    match share {
        Share::Parts => &law.body,
        Share::Head => &law.head,
    }
}

/// A copy of its `after` part.
fn after_of_share(
    alloc: Global,
    share: Share,
    law: &WideLaw,
) -> Result<Option<Formula>, OutOfMemory>
    ensures { IfOk result (λ after.
        option_map plain_formula after ≡ (law_by share (plain_wide_law law.now)).after) }
{
    match share {
        Share::Parts => copy_part(alloc, &law.after),
        Share::Head => Ok(None),
    }
}

/// The law by which a share of a law is grounded.
fn law_of_share(alloc: Global, share: Share, law: &WideLaw) -> Result<Law, OutOfMemory>
    ensures { IfOk result (λ made. plain_law made ≡ law_by share (plain_wide_law law.now)) }
{
    let ranges = Vec::from_slice(alloc, law.ranges.items())?;
    let head = atom_head(alloc, &law.head)?;
    let body = copy_formula(alloc, body_of_share(share, law))?;
    let after = after_of_share(alloc, share, law)?;
    let test = copy_formula(alloc, &law.test)?;
    Ok(Law {
        ranges: List::of(ranges),
        head,
        body,
        after,
        test,
        kind: law.kind,
        file: law.file,
        line: law.line,
    })
}

/// The base law by which a share of a law is grounded.
fn base_of_share(alloc: Global, share: Share, law: &WideBase) -> Result<BaseLaw, OutOfMemory>
    ensures { IfOk result (λ made. plain_base_law made ≡ base_by share (plain_wide_base law.now)) }
{
    match law {
        WideBase::One(law) => Ok(BaseLaw::One(law_of_share(alloc, share, law)?)),
        WideBase::NoConcurrency { file, line } => Ok(BaseLaw::NoConcurrency {
            file: *file,
            line: *line,
        }),
    }
}

/// The base laws by which a share of each law is grounded.
pub(crate) fn bases_of_share(
    alloc: Global,
    share: Share,
    laws: &[WideBase],
) -> Result<BaseLaws, OutOfMemory>
    ensures { IfOk result (λ made.
        map plain_base_law made ≡ map (base_by share) (map plain_wide_base laws.now)) }
{
    let mut made = Vec::with_capacity(alloc, laws.len())?;
    for law in laws {
        made.push(base_of_share(alloc, share, law)?)?;
    }
    Ok(List::of(made))
}
