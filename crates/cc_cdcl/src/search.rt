//! Propagation and choices, down to a false clause or to an assignment that gives every variable a value.
ghost use Rattle.std.specs.Prelude.{◌≡◌, ◌≢◌, ℕ, ◌+◌, ◌<◌, ◌≤◌, List, IfSome, IfNone, OnOk, length, sum};
ghost use Rattle.cc_defs.specs.Assignments.{IsClosed};
ghost use Rattle.cc_kernel.specs.Kernels.{KernelView, clauses_of};
ghost use Rattle.cc_trail.specs.Steps.{AreSteps, values_of};
ghost use Rattle.cc_trail.specs.Trails.{Fits, IsFailedClause, IsPropagated, IsSettled, decided};
ghost use Rattle.cc_cdcl.specs.Cursors.{AreCursors, IsChoice, IsCursor};
ghost use Rattle.cc_cdcl.specs.Descents.{IsRoundOf};
ghost use Rattle.cc_cdcl.specs.Searches.{IsInPhase, IsSearching, IsTrailOf};
ghost use Rattle.cc_cdcl.specs.Sets.{IsFull};
ghost use Rattle.cc_cdcl.specs.Solvers.{HasPositions};

use crate::choice::{Cursor, next_choice};
use crate::probe::{After, Phase, Probe};
use cc_defs::{Lit, OutOfMemory};
use cc_kernel::Kernel;
use cc_trail::Trail;

// How a round of propagation ends.
enum Round {
    Conflict(u32),
    Full,
    Decided,
}

// Opens a level with a literal, and keeps the cursor that led to it.
fn decide(trail: &mut Trail, cursors: &mut [Cursor], cursor: Cursor, lit: Lit, sizes: &[u32])
    requires choice { IsChoice sizes.now trail.old.variables trail.old.steps lit }
    requires cursor { IsCursor sizes.now trail.old.variables (values_of trail.old.steps) cursor }
    requires cursors { AreCursors
        sizes.now trail.old.variables trail.old.steps trail.old.level_count cursors.old }
    ensures decided { trail.new ≡ decided trail.old lit }
    ensures fits { (kernel : KernelView) → Fits trail.old kernel → Fits trail.new kernel }
    ensures settled { (kernel : KernelView) → IsClosed (values_of trail.old.steps)
        (clauses_of kernel) → IsSettled trail.old kernel → IsSettled trail.new kernel }
    ensures steps { AreSteps trail.old.variables trail.old.steps trail.old.level_count }
    ensures more { length trail.old.steps < length trail.new.steps }
    ensures most { length trail.new.steps ≤ trail.new.variables }
    ensures cursors { AreCursors
        sizes.now trail.new.variables trail.new.steps trail.new.level_count cursors.new }
{
    // A slice has no more items than memory has bytes, which the proof needs.
    let _count = sizes.len();
    cursors[trail.level_count() as usize] = cursor;
    trail.decide(lit);
    cursors[trail.level_count() as usize] = cursor;
}

// Propagates, and then makes the next choice.
fn next_round(trail: &mut Trail, cursors: &mut [Cursor], kernel: &Kernel, sizes: &[u32]) -> Round
    requires searching { IsSearching sizes.now kernel.now trail.old cursors.old }
    requires positions { HasPositions sizes.now kernel.now }
    requires sizes { sum sizes.now ≤ kernel.now.variables }
    ensures searching { IsSearching sizes.now kernel.now trail.new cursors.new }
    ensures round { IsRoundOf kernel.now trail.old trail.new result }
{
    match trail.propagate(kernel) {
        Some(id) => return Round::Conflict(id),
        None => {},
    }
    let level = trail.level_count();
    let (cursor, choice) = next_choice(trail, kernel, sizes, cursors[level as usize]);
    match choice {
        Some(lit) => {
            decide(trail, cursors, cursor, lit, sizes);
            Round::Decided
        },
        None => Round::Full,
    }
}

// Propagates and chooses until a clause is false, which is returned, or until every variable has a value.
fn descend(trail: &mut Trail, cursors: &mut [Cursor], kernel: &Kernel, sizes: &[u32]) -> Option<u32>
    requires searching { IsSearching sizes.now kernel.now trail.old cursors.old }
    requires positions { HasPositions sizes.now kernel.now }
    requires sizes { sum sizes.now ≤ kernel.now.variables }
    ensures searching { IsSearching sizes.now kernel.now trail.new cursors.new }
    ensures failed { IfSome result (λ id.
        IsFailedClause (clauses_of kernel.now) trail.new.steps id) }
    ensures full { IfNone result (IsFull kernel.now.variables (values_of trail.new.steps)) }
    ensures closed { IfNone result (IsClosed (values_of trail.new.steps) (clauses_of kernel.now)) }
{
    loop {
        match next_round(trail, cursors, kernel, sizes) {
            Round::Conflict(id) => return Some(id),
            Round::Full => return None,
            Round::Decided => {},
        }
    }
}

// Propagates, and then decides what the probe says.
fn probe_round(trail: &mut Trail, probe: &mut Probe, kernel: &Kernel) -> Round
    requires { IsTrailOf kernel.now trail.old }
    ensures trail { IsTrailOf kernel.now trail.new }
    ensures round { IsRoundOf kernel.now trail.old trail.new result }
    ensures phase { probe.new.phase ≡ probe.old.phase }
{
    match trail.propagate(kernel) {
        Some(id) => return Round::Conflict(id),
        None => {},
    }
    // Opens the trail's invariant for the proof.
    let _before = trail.level_count();
    match probe.choose(trail, kernel.variables()) {
        Some(lit) => {
            trail.decide(lit);
            // Opens the trail's invariant for the proof.
            let _after = trail.level_count();
            Round::Decided
        },
        None => Round::Full,
    }
}

// Probes until a clause is false, which is returned, or until every variable has a value.
fn descend_by_probe(trail: &mut Trail, probe: &mut Probe, kernel: &Kernel) -> Option<u32>
    requires { IsTrailOf kernel.now trail.old }
    ensures trail { IsTrailOf kernel.now trail.new }
    ensures failed { IfSome result (λ id.
        IsFailedClause (clauses_of kernel.now) trail.new.steps id) }
    ensures phase { probe.new.phase ≡ probe.old.phase }
{
    loop {
        match probe_round(trail, probe, kernel) {
            Round::Conflict(id) => return Some(id),
            Round::Full => return None,
            Round::Decided => {},
        }
    }
}

// Takes all decisions back, so that the rows are searched in order from here.
fn begin_listing(trail: &mut Trail, cursors: &mut [Cursor])
    requires { length cursors.old ≡ trail.old.variables + 1 }
    ensures { (sizes : List ℕ) (kernel : KernelView) →
        IsTrailOf kernel trail.old → IsSearching sizes kernel trail.new cursors.new }
{
    // Opens the trail's invariant for the proof.
    let _level = trail.level_count();
    trail.back_to(0);
    cursors[0] = Cursor::start();
}

// Propagates, and tells whether there is something to decide then.
fn leaves_open(trail: &mut Trail, kernel: &Kernel) -> bool
    requires { IsTrailOf kernel.now trail.old }
    ensures propagated { IsPropagated trail.old trail.new }
    ensures fits { Fits trail.new kernel.now }
    ensures settled { IsSettled trail.new kernel.now }
{
    match trail.propagate(kernel) {
        Some(_id) => false,
        None => trail.entries().len() < kernel.variables() as usize,
    }
}

/// Begins with a section: it is to be probed where propagation leaves a variable without a value, and else its rows are listed.
pub fn begin(trail: &mut Trail, probe: &mut Probe, kernel: &Kernel) -> Result<(), OutOfMemory>
    requires { IsTrailOf kernel.now trail.old }
    ensures { OnOk result ((sizes : List ℕ) (cursors : List Cursor) →
        IsInPhase probe.old.phase sizes kernel.now trail.old cursors →
        IsInPhase probe.new.phase sizes kernel.now trail.new cursors) }
{
    match probe.phase {
        Phase::New => {
            if leaves_open(trail, kernel) {
                return probe.begin(kernel.variables(), kernel.count());
            }
            probe.phase = Phase::Listing;
            Ok(())
        },
        _ => Ok(()),
    }
}

/// Searches on, by the probe or in the order of rows, until a clause is false, which is returned, or until the assignment is there that
/// has the next row. Where the probe gives every variable a value, the rows are listed from then on.
pub fn search_on(
    trail: &mut Trail,
    cursors: &mut [Cursor],
    probe: &mut Probe,
    kernel: &Kernel,
    sizes: &[u32],
) -> Option<u32>
    requires phase { IsInPhase probe.old.phase sizes.now kernel.now trail.old cursors.old }
    requires positions { HasPositions sizes.now kernel.now }
    requires sizes { sum sizes.now ≤ kernel.now.variables }
    ensures phase { IsInPhase probe.new.phase sizes.now kernel.now trail.new cursors.new }
    ensures failed { IfSome result (λ id.
        IsFailedClause (clauses_of kernel.now) trail.new.steps id) }
    ensures searching { IfNone result (IsSearching sizes.now kernel.now trail.new cursors.new) }
    ensures full { IfNone result (IsFull kernel.now.variables (values_of trail.new.steps)) }
    ensures closed { IfNone result (IsClosed (values_of trail.new.steps) (clauses_of kernel.now)) }
{
    if !probe.is_on() {
        return descend(trail, cursors, kernel, sizes);
    }
    match descend_by_probe(trail, probe, kernel) {
        Some(id) => Some(id),
        None => {
            begin_listing(trail, cursors);
            probe.phase = Phase::Listing;
            descend(trail, cursors, kernel, sizes)
        },
    }
}

/// Counts a line: while the section is probed, all decisions are taken back after some lines, and after others the probe is over.
pub fn count_line(trail: &mut Trail, cursors: &mut [Cursor], probe: &mut Probe)
    requires { length cursors.old ≡ trail.old.variables + 1 }
    ensures { (sizes : List ℕ) (kernel : KernelView) → IsInPhase probe.old.phase sizes kernel
        trail.old cursors.old → IsInPhase probe.new.phase sizes kernel trail.new cursors.new }
{
    if !probe.is_on() {
        return;
    }
    match probe.count_line() {
        After::More => {},
        After::Restart => {
            let _level = trail.level_count();
            probe.take_back(trail, 0);
            trail.back_to(0);
        },
        After::End => {
            begin_listing(trail, cursors);
            probe.phase = Phase::Listing;
        },
    }
}
