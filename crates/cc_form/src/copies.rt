//! Copies of clauses, and whether one literal more is within their limits.
ghost use Rattle.std.specs.Prelude.{◌≡◌, ◌<◌, ◌++◌, ◌∷◌, [], IfOk, IfErr, OnOk, None, length};
ghost use Rattle.cc_defs.specs.Clauses.{Literal};
ghost use Rattle.cc_defs.specs.Limits.{most_clauses};
ghost use Rattle.cc_defs.specs.Refusals.{IsRefusedBy};
ghost use Rattle.cc_form.specs.Building.{count_refusal};

use cc_clauses::ClauseArena;
use cc_defs::{Fault, LimitAt, Lit, OutOfMemory, Refusal};
use std::alloc::Global;

/// The same clauses.
pub(crate) fn copy_of(alloc: Global, clauses: &ClauseArena) -> Result<ClauseArena, OutOfMemory>
    ensures { IfOk result (λ copy. copy ≡ clauses.now) }
{
    let mut copy = ClauseArena::new(alloc);
    copy.reserve(clauses.count(), clauses.literals())?;
    for index in 0..clauses.count() {
        copy.push(clauses.clause(index))?;
    }
    Ok(copy)
}

/// The same clauses, and one behind them.
pub(crate) fn copy_with(
    alloc: Global,
    clauses: &ClauseArena,
    more: &[Lit],
) -> Result<ClauseArena, OutOfMemory>
    ensures { IfOk result (λ copy. copy ≡ clauses.now ++ more.now ∷ []) }
{
    let mut copy = copy_of(alloc, clauses)?;
    copy.push(more)?;
    Ok(copy)
}

/// Whether one clause of one literal more keeps the clauses and their literals within their limits.
pub(crate) fn fits_one(clauses: &ClauseArena) -> Result<(), Fault>
    ensures few { OnOk result (length clauses.now < most_clauses) }
    ensures within { (literal : Literal) →
        OnOk result (count_refusal (clauses.now ++ (literal ∷ []) ∷ []) ≡ None) }
    ensures refused { (literal : Literal) →
        IfErr result (IsRefusedBy (count_refusal (clauses.now ++ (literal ∷ []) ∷ []))) }
{
    if clauses.count() >= LimitAt::AxiomClauses.number() as usize {
        return Err(Fault::Refused(Refusal::past(LimitAt::AxiomClauses)));
    }
    if clauses.literals() >= LimitAt::AxiomLiterals.number() as usize {
        return Err(Fault::Refused(Refusal::past(LimitAt::AxiomLiterals)));
    }
    Ok(())
}
