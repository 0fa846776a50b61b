//! Visits of the nodes that watch a literal that became false.
ghost use Rattle.std.specs.Prelude.{◌≡◌, ◌≢◌, ℕ, ◌+◌, ◌<◌, ◌≤◌, true, false, IsTrue, [], length, take, drop, All, Contains, IfSome, IfNone, Some, None};
ghost use Rattle.cc_kernel.specs.Kernels.{KernelView, clauses_of};
ghost use Rattle.cc_defs.specs.Clauses.{IsIn, IsLiteralOver};
ghost use Rattle.cc_trail.specs.Links.{BeginsWith, watched_at};
ghost use Rattle.cc_trail.specs.Watches.{IsTrueBy, HasReason, partner};
ghost use Rattle.cc_trail.specs.Trails.{IsFailedClause};
ghost use Rattle.cc_trail.specs.Pairs.{AreFollowed, ArePaired};
ghost use Rattle.cc_trail.specs.Visits.{IsFalseAt, IsBest, IsValue, AreSound, AreGrown, AreWatched, IsVisiting};

use crate::entries::{Entries, Step};
use crate::links::Links;
use crate::pairs::Pairs;
use cc_defs::Lit;
use cc_kernel::Kernel;

/// A literal that may be watched: one that is not false, or one that became false at this level.
#[derive(Clone, Copy)]
pub struct Watch {
    pub lit: Lit,
    pub level: u32,
    pub is_false: bool,
}

// The node of the other watched literal of the same clause.
fn partner_of(node: u32) -> u32
    ensures { result ≡ partner node }
{
    if node % 2 == 1 { node - 1 } else { node + 1 }
}

// Whether the other watched literal of a clause meets it where a step is visited.
enum Met {
    // It is true at level 0.
    ForGood,
    // It became true at a level not above that of the step.
    Here,
    // As far as is known it does not.
    No,
}

// Whether a literal meets the clauses that it is in where a step of this level is visited.
#[inline(always)]
fn met_by(entries: &Entries, lit: Lit, level: u32) -> Met
    requires { lit.variable ≤ entries.now.variables }
    ensures good { result ≡ Met.ForGood → IsTrueBy entries.now.steps lit 0 }
    ensures here { result ≡ Met.Here → IsTrueBy entries.now.steps lit level }
{
    match entries.standing(lit) {
        Some(standing) => if !standing.is_true {
            Met::No
        } else if standing.level == 0 {
            Met::ForGood
        } else if standing.level <= level {
            Met::Here
        } else {
            Met::No
        },
        None => Met::No,
    }
}

/// Makes a literal true by the clause of a number, if its variable has no value. False where the literal is false.
pub fn make_true(entries: &mut Entries, lit: Lit, number: u32) -> bool
    requires over { IsLiteralOver entries.old.variables lit }
    ensures grown { AreGrown entries.old entries.new }
    ensures sound { (kernel : KernelView) → HasReason (clauses_of kernel)
        entries.old.steps lit number → AreSound kernel entries.old → AreSound kernel entries.new }
    ensures value { IsValue entries.new.steps entries.new.level_count lit result }
{
    match entries.standing(lit) {
        Some(standing) => standing.is_true,
        None => {
            entries.push(lit, Some(number));
            true
        },
    }
}

// The literal at an index, where it is better to watch than what was found.
fn better(entries: &Entries, clause: &[Lit], index: usize, found: Watch, except: Lit) -> Watch
    requires over { All (λ literal. IsLiteralOver entries.now.variables literal) clause.now }
    requires within { index < length clause.now }
    requires member { Contains clause.now found.lit }
    requires apart { found.lit ≢ except }
    requires best { IsBest entries.now.steps
        (take index clause.now) except found.lit found.level true }
    ensures member { Contains clause.now result.lit }
    ensures apart { result.lit ≢ except }
    ensures best { IsBest entries.now.steps
        (take (index + 1) clause.now) except result.lit result.level result.is_false }
{
    let lit = clause[index];
    if lit == except {
        return Watch {
            is_false: true,
            ..found
        };
    }
    match entries.standing(lit) {
        Some(standing) => if standing.is_true {
            Watch {
                lit,
                level: 0,
                is_false: false,
            }
        } else if standing.level > found.level {
            Watch {
                lit,
                level: standing.level,
                is_false: true,
            }
        } else {
            Watch {
                is_false: true,
                ..found
            }
        },
        None => Watch {
            lit,
            level: 0,
            is_false: false,
        },
    }
}

/// The literal of a clause that is best to watch beside `except`. It begins with one that became false at this level. In a clause
/// of two there is no other, and it is not read.
pub fn best_beside(entries: &Entries, clause: &[Lit], start: Lit, level: u32, except: Lit) -> Watch
    requires over { All (λ literal. IsLiteralOver entries.now.variables literal) clause.now }
    requires member { Contains clause.now start }
    requires there { Contains clause.now except }
    requires apart { start ≢ except }
    requires fallen { IsFalseAt entries.now.steps start level }
    ensures member { Contains clause.now result.lit }
    ensures apart { result.lit ≢ except }
    ensures best { IsBest
        entries.now.steps clause.now except result.lit result.level result.is_false }
{
    let mut found = Watch {
        lit: start,
        level,
        is_false: true,
    };
    if clause.len() <= 2 {
        return found;
    }
    for index in 0..clause.len() {
        found = better(entries, clause, index, found, except);
        if !found.is_false {
            return found;
        }
    }
    found
}

// Whether a clause that is met is read all the same: one time in 16, as if by chance (multiplicative hashing), since clauses
// are added all the while.
fn is_due(count: usize, node: u32) -> bool {
    let number = (count as u64).wrapping_add(u64::from(node / 2));
    number.wrapping_mul(0x9E37_79B9_7F4A_7C15) < 0x1000_0000_0000_0000
}

// Visits the first of the nodes that are ahead. The other watched literal is looked at first, and the clause is mostly
// left unread where that is true. But clauses that deny rows are met for long and wait at literals that change often, and would
// be visited ever again: so now and then such a clause is read, and watches a literal that is not false. Where the other one is
// true at level 0 the clause is met for good: both nodes watch that literal then, so that it is not visited any more. The number
// of the clause where it is false, and then no node is moved.
fn visit(
    kernel: &Kernel,
    longs: &[u32],
    place: usize,
    step: &Step,
    node: u32,
    entries: &mut Entries,
    links: &mut Links,
) -> Option<u32>
    requires visiting { IsVisiting kernel.now longs.now place step.now entries.old links.old }
    requires first { BeginsWith links.old.ahead node }
    requires once { IsIn (drop 1 links.old.ahead) node → ⊥ }
    ensures visiting { IsVisiting kernel.now longs.now place step.now entries.new links.new }
    ensures grown { AreGrown entries.old entries.new }
    ensures fewer { IfNone result (links.new.ahead ≡ drop 1 links.old.ahead) }
    ensures failed { IfSome result (λ number.
        IsFailedClause (clauses_of kernel.now) entries.new.steps number) }
{
    let fallen = step.lit.opposite();
    let other = links.watched(partner_of(node));
    match met_by(entries, other, step.level) {
        Met::ForGood => {
            links.put(node, other);
            return None;
        },
        Met::Here => if !is_due(longs.len(), node) {
            links.pass(node);
            return None;
        },
        Met::No => {},
    }
    let number = longs[node as usize / 2];
    let watch = best_beside(entries, kernel.clause(number), fallen, step.level, other);
    if !watch.is_false {
        links.put(node, watch.lit);
        return None;
    }
    if make_true(entries, other, number) {
        links.put(node, watch.lit);
        return None;
    }
    Some(number)
}

/// Visits the nodes that watch the literal that a step made false. The number of a clause that is false, if one is met.
pub fn visit_step(
    kernel: &Kernel,
    longs: &[u32],
    place: usize,
    entries: &mut Entries,
    links: &mut Links,
) -> Option<u32>
    requires within { place < length entries.old.steps }
    requires sound { AreSound kernel.now entries.old }
    requires watched { AreWatched kernel.now longs.now place entries.old links.old }
    requires none { links.old.ahead ≡ [] }
    ensures grown { AreGrown entries.old entries.new }
    ensures sound { AreSound kernel.now entries.new }
    ensures here { AreWatched kernel.now longs.now place entries.new links.new }
    ensures next { IfNone result
        (AreWatched kernel.now longs.now (place + 1) entries.new links.new) }
    ensures none { links.new.ahead ≡ [] }
    ensures failed { IfSome result (λ number.
        IsFailedClause (clauses_of kernel.now) entries.new.steps number) }
{
    let step = entries.step(place);
    let fallen = step.lit.opposite();
    links.begin(fallen);
    while let Some(node) = links.current() {
        if let Some(number) = visit(kernel, longs, place, &step, node, entries, links) {
            links.end();
            return Some(number);
        }
    }
    None
}

/// Visits what stands beside the literal that a step made false, in clauses of two: it is true from then on. The number of a clause
/// that is false, if one is met. This comes behind the visit of nodes, since the reasons that those give are better ones to learn from.
pub fn visit_pairs(
    kernel: &Kernel,
    pairs: &Pairs,
    place: usize,
    entries: &mut Entries,
) -> Option<u32>
    requires within { place < length entries.old.steps }
    requires variables { pairs.now.variables ≡ entries.old.variables }
    requires sound { AreSound kernel.now entries.old }
    requires paired { ArePaired (clauses_of kernel.now) pairs.now }
    requires followed { AreFollowed pairs.now (take place entries.old.steps) entries.old.steps }
    ensures grown { AreGrown entries.old entries.new }
    ensures sound { AreSound kernel.now entries.new }
    ensures here { AreFollowed pairs.now (take place entries.new.steps) entries.new.steps }
    ensures next { IfNone result
        (AreFollowed pairs.now (take (place + 1) entries.new.steps) entries.new.steps) }
    ensures failed { IfSome result (λ number.
        IsFailedClause (clauses_of kernel.now) entries.new.steps number) }
{
    // Opens the kernel's invariant for the proof.
    let _variables = kernel.variables();
    let fallen = entries.step(place).lit.opposite();
    for other in pairs.beside(fallen) {
        if !make_true(entries, other.lit, other.number) {
            return Some(other.number);
        }
    }
    None
}
