//! What is done with what was made, or with the want of memory. All is of any type, so that its drop is one call.
ghost use Rattle.std.specs.Prelude.{◌≡◌, ◌∷◌, [], Ok, Err, Some, unwrap_or, IfOk, IfErr, IsErr, IsOk};
ghost use Rattle.std.specs.Result.{MatchResult};
ghost use Rattle.cc_defs.specs.declared.refusal.Fault.TheVariants as faults;

use cc_defs::{Fault, List, OutOfMemory};
use std::alloc::Global;

/// What was made, as a part that is there.
pub(crate) fn some<T: Drop>(made: Result<T, OutOfMemory>) -> Result<Option<T>, OutOfMemory>
    ensures { MatchResult made (λ value. result ≡ Ok (Some value)) (λ error. IsErr result) }
{
    let value = made?;
    Ok(Some(value))
}

/// What was made; another where nothing was.
pub(crate) fn some_or<T: Drop>(
    made: Result<Option<T>, OutOfMemory>,
    other: T,
) -> Result<T, OutOfMemory>
    ensures { MatchResult made (λ value. result ≡ Ok (unwrap_or value other)) (λ error. IsErr result) }
{
    match made? {
        Some(value) => Ok(value),
        None => Ok(other),
    }
}

/// Lets what was made go.
pub(crate) fn gone<T: Drop>(made: Result<T, OutOfMemory>) -> Result<(), OutOfMemory>
    ensures { MatchResult made (λ value. IsOk result) (λ error. IsErr result) }
{
    made?;
    Ok(())
}

/// A list of one.
pub(crate) fn only<T: Drop>(alloc: Global, item: T) -> Result<Vec<T>, OutOfMemory>
    ensures { IfOk result (λ list. list.items ≡ item ∷ []) }
{
    let mut list = Vec::new(alloc);
    list.push(item)?;
    Ok(list)
}

/// What was made, where a fault may be told in its place.
pub(crate) fn given<T: Drop>(made: Result<T, OutOfMemory>) -> Result<T, Fault>
    ensures given { IfOk result (λ value. made ≡ Ok value) }
    ensures fault { IfErr result (λ fault. fault ≡ faults.OutOfMemory) }
{
    let value = made?;
    Ok(value)
}

/// What was made, as a list that stays as it is.
pub(crate) fn listed<T: Drop>(made: Result<Vec<T>, Fault>) -> Result<List<T>, Fault>
    ensures { MatchResult made (λ items. result ≡ Ok items.items) (λ fault. result ≡ Err fault) }
{
    Ok(List::of(made?))
}
