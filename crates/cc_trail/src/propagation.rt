//! Propagation: clauses of fewer than two literals, and then the steps that have not been visited.
ghost use Rattle.std.specs.Prelude.{◌≡◌, ℕ, ◌<◌, ◌⊎◌, length, take, IfSome, IfNone};
ghost use Rattle.cc_kernel.specs.Kernels.{clauses_of};
ghost use Rattle.cc_defs.specs.Clauses.{IsIn};
ghost use Rattle.cc_trail.specs.Watches.{IsShort};
ghost use Rattle.cc_trail.specs.Trails.{IsFailedClause};
ghost use Rattle.cc_trail.specs.Visits.{AreSound, AreGrown, IsPropagating, IsMet};

use crate::entries::Entries;
use crate::links::Links;
use crate::pairs::Pairs;
use crate::visits::{make_true, visit_pairs, visit_step};
use cc_kernel::Kernel;

// Makes the literal of a clause of fewer than two literals true. The clause's number where it is false.
fn make_short(kernel: &Kernel, number: u32, entries: &mut Entries) -> Option<u32>
    requires short { IsShort (clauses_of kernel.now) number }
    requires sound { AreSound kernel.now entries.old }
    ensures grown { AreGrown entries.old entries.new }
    ensures sound { AreSound kernel.now entries.new }
    ensures met { IfNone result (IsMet (clauses_of kernel.now) entries.new.steps number) }
    ensures failed { IfSome result (λ failed.
        IsFailedClause (clauses_of kernel.now) entries.new.steps failed) }
{
    match kernel.clause(number).first() {
        Some(lit) => if make_true(entries, *lit, number) {
            None
        } else {
            Some(number)
        },
        None => Some(number),
    }
}

/// Makes the literals of the clauses of fewer than two literals true, where so many of these are met already. The number of a
/// clause that is false, if there is one.
pub fn make_shorts(
    kernel: &Kernel,
    shorts: &[u32],
    met: usize,
    entries: &mut Entries,
) -> Option<u32>
    requires short { (number : ℕ) →
        IsIn shorts.now number → IsShort (clauses_of kernel.now) number }
    requires sound { AreSound kernel.now entries.old }
    requires known { (number : ℕ) →
        IsIn (take met shorts.now) number → IsMet (clauses_of kernel.now) entries.old.steps number }
    ensures grown { AreGrown entries.old entries.new }
    ensures sound { AreSound kernel.now entries.new }
    ensures met { IfNone result ((number : ℕ) →
        IsIn shorts.now number → IsMet (clauses_of kernel.now) entries.new.steps number) }
    ensures failed { IfSome result (λ failed.
        IsFailedClause (clauses_of kernel.now) entries.new.steps failed) }
{
    for index in met..shorts.len() {
        if let Some(number) = make_short(kernel, shorts[index], entries) {
            return Some(number);
        }
    }
    None
}

/// How many clauses are met for good, where all of them are met: at level 0 all, and else those that were so before.
pub fn met_for_good(entries: &Entries, met: usize, count: usize) -> usize
    ensures { (result ≡ met) ⊎ ((result ≡ count) × (entries.now.level_count ≡ 0)) }
{
    if entries.level_count() == 0 {
        count
    } else {
        met
    }
}

/// Visits the steps that have not been visited, those that become so on the way included. The number of a clause that is
/// false, if one is met.
pub fn visit_steps(
    kernel: &Kernel,
    longs: &[u32],
    entries: &mut Entries,
    links: &mut Links,
    pairs: &Pairs,
    visited: &mut usize,
) -> Option<u32>
    requires { IsPropagating
        kernel.now longs.now pairs.now visited.old entries.old links.old }
    ensures propagating { IsPropagating
        kernel.now longs.now pairs.now visited.new entries.new links.new }
    ensures grown { AreGrown entries.old entries.new }
    ensures all { IfNone result (visited.new ≡ length entries.new.steps) }
    ensures failed { IfSome result (λ number.
        IsFailedClause (clauses_of kernel.now) entries.new.steps number) }
{
    while *visited < entries.count() {
        if let Some(number) = visit_step(kernel, longs, *visited, entries, links) {
            return Some(number);
        }
        if let Some(number) = visit_pairs(kernel, pairs, *visited, entries) {
            return Some(number);
        }
        *visited += 1;
    }
    None
}
