//! What is made of what was read.
ghost use Rattle.std.specs.Prelude.{◌≡◌, Ok, Err, IsOk, IfOk};
ghost use Rattle.std.specs.Result.{MatchResult};
ghost use Rattle.cc_syntax.specs.declared.stop.Stop.TheVariants as stops;

use crate::stop::Stop;
use std::alloc::Global;

/// What is made of a value that was read, with the place behind it.
pub(crate) fn made<T: Drop, U: Drop, F: FnOnce(T) -> U>(
    read: Result<(T, usize), Stop>,
    make: F,
) -> Result<(U, usize), Stop>
    requires { (value : T) → F.pre make value }
    ensures { MatchResult read (λ r. IfOk result (λ w. F.post make r.0 w.0 × (w.1 ≡ r.1))
        × IsOk result) (λ stop. result ≡ Err stop) }
{
    let (value, next) = read?;
    Ok((make(value), next))
}

/// A value in a box, and the place behind it.
fn boxed_at<T: Drop>(alloc: Global, value: T, next: usize) -> Result<(Box<T>, usize), Stop>
    ensures { MatchResult result (λ w. (w.0.value ≡ value) × (w.1 ≡ next)) (λ stop. stop ≡ stops.OutOfMemory) }
{
    let place = Box::new(alloc, value)?;
    Ok((place, next))
}

/// What is made of a value that was read, in a box, with the place behind it.
pub(crate) fn made_boxed<T: Drop, U: Drop, F: FnOnce(T) -> U>(
    alloc: Global,
    read: Result<(T, usize), Stop>,
    make: F,
) -> Result<(Box<U>, usize), Stop>
    requires { (value : T) → F.pre make value }
    ensures { MatchResult read (λ r. MatchResult result
        (λ w. F.post make r.0 w.0.value × (w.1 ≡ r.1)) (λ stop. stop ≡ stops.OutOfMemory))
        (λ stop. result ≡ Err stop) }
{
    let (value, next) = read?;
    boxed_at(alloc, make(value), next)
}

/// What is kept, beside what was read behind it. Both are of any type, so that their drops are calls.
pub(crate) fn beside<K: Drop, T: Drop>(
    kept: K,
    read: Result<(T, usize), Stop>,
) -> Result<((K, T), usize), Stop>
    ensures { MatchResult read (λ r. result ≡ Ok ((kept, r.0), r.1)) (λ stop. result ≡ Err stop) }
{
    let (value, next) = read?;
    Ok(((kept, value), next))
}
