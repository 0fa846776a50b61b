//! Conflict analysis: from a false clause back along the trail to the first unique implication point.
ghost use Rattle.std.specs.Prelude.{◌≡◌, ◌≢◌, ◌&&◌, if◌then◌else◌, List, ℕ, ◌+◌, ◌<◌, ◌≤◌, ◌⊎◌, Some, None, IfOk, IfSome, IfNone, OnOk, OnErr, IsSome, IsTrue, Contains, [], length, option_and_then};
ghost use Rattle.std.specs.Bool.{MatchBool};
ghost use Rattle.cc_defs.specs.Assignments.{IsFailed};
ghost use Rattle.cc_defs.specs.Clauses.{Literal, IsClause, IsOver, opposite};
ghost use Rattle.cc_kernel.specs.Kernels.{ClashesWith, IsStepped, IsThere, added, clauses_of};
ghost use Rattle.cc_trail.specs.Steps.{AreSteps, step_of, steps_to, values_of};
ghost use Rattle.cc_trail.specs.Trails.{Fits, IsFailedClause, KeepsSettled, IsSettled, reason_of_step};
ghost use Rattle.cc_cdcl.specs.Analysis.{IsFinal, IsUnfinished, IsWalking, OpenLevels, highest_but, is_level, is_level_below, level_but, level_count_in, level_of, level_or_zero, second_level};
ghost use Rattle.cc_cdcl.specs.Brought.{IsCounted, fresh_of, has_literal, is_fresh};
ghost use Rattle.cc_cdcl.specs.Derivations.{IsBackOver, IsDerived, IsDeriving, IsShortening, Learns};
ghost use Rattle.cc_cdcl.specs.Searches.{KeepsEntries};
ghost use Rattle.cc_cdcl.specs.Solvers.{AddsBlock, AddsDerived};

use crate::probe::Probe;
use crate::redundancy::{DEEPEST, Mark, is_redundant};
use crate::shortening::Shortening;
use crate::theorems::learned_is_earned;
use cc_defs::{Lit, OutOfMemory};
use cc_kernel::{Kernel, Origin};
use cc_trail::Trail;
use cc_trail::theorems::{adding_keeps_fit, adding_keeps_settled};

// Whether a variable got its value at a level.
fn is_of(trail: &Trail, level: u32, variable: u32) -> bool
    requires { variable ≤ trail.now.variables }
    ensures { result ≡ is_level level (level_of trail.now.steps variable) }
{
    match trail.level_of(variable) {
        Some(other) => other == level,
        None => false,
    }
}

// The level of a variable, or 0 where it is this one.
fn level_except(trail: &Trail, level: u32, variable: u32) -> u32
    requires { variable ≤ trail.now.variables }
    ensures { result ≡ level_but level (level_of trail.now.steps variable) }
{
    match trail.level_of(variable) {
        Some(other) => if other == level { 0 } else { other },
        None => 0,
    }
}

// How many literals of a clause are of a level.
fn level_count_in(trail: &Trail, level: u32, clause: &[Lit]) -> usize
    requires { IsOver trail.now.variables clause.now }
    ensures { result ≡ level_count_in trail.now.steps level clause.now }
{
    let mut count = 0;
    for lit in clause {
        if is_of(trail, level, lit.variable()) {
            count += 1;
        }
    }
    count
}

// The highest level but this one of a clause's literals, or 0.
fn highest_but(trail: &Trail, level: u32, clause: &[Lit]) -> u32
    requires { IsOver trail.now.variables clause.now }
    ensures { result ≡ highest_but trail.now.steps level clause.now }
{
    let mut highest = 0;
    for lit in clause {
        highest = level_except(trail, level, lit.variable()).max(highest);
    }
    highest
}

// The level of a variable, or 0 where it has no value.
fn level_or_zero(trail: &Trail, variable: u32) -> u32
    requires { variable ≤ trail.now.variables }
    ensures { result ≡ level_or_zero trail.now.steps variable }
{
    trail.level_of(variable).unwrap_or(0)
}

// The highest level but one of a clause's literals, where each literal counts, or 0.
fn second_level(trail: &Trail, clause: &[Lit]) -> u32
    requires { IsOver trail.now.variables clause.now }
    ensures { result ≡ second_level trail.now.steps clause.now }
{
    let mut first = 0;
    let mut second = 0;
    for lit in clause {
        let level = level_or_zero(trail, lit.variable());
        second = level.min(first).max(second);
        first = level.max(first);
    }
    second
}

// Whether a literal is staged.
fn is_staged(kernel: &Kernel, lit: Lit) -> bool
    requires { IsSome kernel.now.staged }
    ensures { (staged : List Literal) →
        kernel.now.staged ≡ Some staged → result ≡ has_literal staged lit }
{
    kernel.stages(lit)
}

// Whether a step of resolution on the pivot brings a literal of a level to the staged clause.
fn is_brought(trail: &Trail, kernel: &Kernel, level: u32, pivot: u32, lit: Lit) -> bool
    requires within { lit.variable ≤ trail.now.variables }
    requires staged { IsSome kernel.now.staged }
    ensures { (staged : List Literal) → kernel.now.staged ≡ Some staged → result
        ≡ (is_fresh pivot staged lit && is_level level (level_of trail.now.steps lit.variable)) }
{
    lit.variable() != pivot && !is_staged(kernel, lit) && is_of(trail, level, lit.variable())
}

// How many literals of a level a step of resolution with a clause on the pivot brings to the staged clause.
fn brought(trail: &Trail, kernel: &Kernel, level: u32, pivot: u32, clause: &[Lit]) -> usize
    requires over { IsOver trail.now.variables clause.now }
    requires staged { IsSome kernel.now.staged }
    ensures brought { (staged : List Literal) → kernel.now.staged ≡ Some staged →
        result ≡ level_count_in trail.now.steps level (fresh_of pivot staged clause.now) }
    ensures few { result ≤ length clause.now }
{
    let mut count = 0;
    for lit in clause {
        if is_brought(trail, kernel, level, pivot, *lit) {
            count += 1;
        }
    }
    count
}

// 1 where a variable got its value at a level, else 0.
fn weight(trail: &Trail, level: u32, variable: u32) -> usize
    requires { variable ≤ trail.now.variables }
    ensures { result ≡ (if is_level level (level_of trail.now.steps variable) then 1 else 0) }
{
    usize::from(is_of(trail, level, variable))
}

// Resolves the staged clause with the clause of a number on the pivot, and returns how many literals of the last level it has
// then; it had so many.
fn step_counted(
    trail: &Trail,
    kernel: &mut Kernel,
    pivot: u32,
    id: u32,
    held: usize,
) -> Result<usize, OutOfMemory>
    requires within { pivot ≤ trail.now.variables }
    requires variables { trail.now.variables ≡ kernel.old.variables }
    requires clash { ClashesWith kernel.old pivot id }
    requires counted { IsCounted trail.now.steps trail.now.level_count kernel.old held }
    ensures stepped { OnOk result (IsStepped kernel.old kernel.new pivot id) }
    ensures counted { IfOk result (λ now.
        IsCounted trail.now.steps trail.now.level_count kernel.new now) }
    ensures kept { OnErr result (kernel.new ≡ kernel.old) }
{
    // Opens the kernel's invariant for the proof.
    let _variables = kernel.variables();
    let level = trail.level_count();
    let brought = brought(trail, kernel, level, pivot, kernel.clause(id));
    let lost = weight(trail, level, pivot);
    kernel.step(pivot, id)?;
    Ok(held + brought - lost)
}

// Whether the staged clause, which has so many literals of the last level, is what analysis derives: where no level was opened
// the empty one, else one with one literal of the last level.
fn is_final(trail: &Trail, kernel: &Kernel, held: usize) -> bool
    requires { IsCounted trail.now.steps trail.now.level_count kernel.now held }
    ensures { (clause : List Literal) (place : ℕ) → kernel.now.staged ≡ Some clause →
        IsWalking trail.now.steps trail.now.level_count place clause →
        MatchBool result (IsFinal trail.now.steps trail.now.level_count clause)
        (IsUnfinished trail.now.steps trail.now.level_count clause) }
{
    // Opens the kernel's invariant for the proof.
    let _variables = kernel.variables();
    let level = trail.level_count();
    if level == 0 {
        return held == 0;
    }
    held == 1
}

// The reason of the value of a true literal's variable, the pivot, where the staged clause has the opposite of the literal: then,
// and only then, the two clash.
fn clashing_reason(trail: &Trail, kernel: &Kernel, pivot: u32, lit: Lit) -> Option<u32>
    requires within { pivot ≤ trail.now.variables }
    requires staged { IsSome kernel.now.staged }
    requires clash { (id : ℕ) (clause : List Literal) → option_and_then reason_of_step
        (step_of trail.now.steps pivot) ≡ Some id → kernel.now.staged ≡ Some clause →
        Contains clause (opposite lit) → ClashesWith kernel.now pivot id }
    requires only { (id : ℕ) (clause : List Literal) → option_and_then reason_of_step
        (step_of trail.now.steps pivot) ≡ Some id → kernel.now.staged ≡ Some clause →
        ClashesWith kernel.now pivot id → Contains clause (opposite lit) }
    ensures some { IfSome result (λ id. ClashesWith kernel.now pivot id) }
    ensures reason { IfSome result (λ id.
        option_and_then reason_of_step (step_of trail.now.steps pivot) ≡ Some id) }
    ensures none { IfNone result ((id : ℕ) → option_and_then reason_of_step
        (step_of trail.now.steps pivot) ≡ Some id → ClashesWith kernel.now pivot id → ⊥) }
{
    if !kernel.stages(lit.opposite()) {
        return None;
    }
    trail.reason(pivot)
}

// Where the walk back along the trail stands: in front of a place, with so many staged literals of the last level.
#[derive(Clone, Copy)]
struct Walk {
    place: usize,
    held: usize,
}

// Resolves the staged clause with the reason of the last true literal in front of a place whose opposite it has, and returns
// the place of that one, and how many literals of the last level the clause has then; it had so many.
fn resolve_next(trail: &Trail, kernel: &mut Kernel, start: Walk) -> Result<Walk, OutOfMemory>
    requires fits { Fits trail.now kernel.old }
    requires opened { OpenLevels trail.now.steps }
    requires derivation { IsDeriving kernel.old trail.now start.place }
    requires unfinished { (clause : List Literal) → kernel.old.staged ≡ Some clause →
        IsUnfinished trail.now.steps trail.now.level_count clause }
    requires counted { IsCounted trail.now.steps trail.now.level_count kernel.old start.held }
    ensures derivation { IfOk result (λ walk. IsDeriving kernel.new trail.now walk.place) }
    ensures counted { IfOk result (λ walk.
        IsCounted trail.now.steps trail.now.level_count kernel.new walk.held) }
    ensures fewer { IfOk result (λ walk. walk.place < start.place) }
    ensures kept { KeepsEntries kernel.old kernel.new }
{
    let entries = trail.entries();
    for place in (0..start.place).rev() {
        let lit = entries[place];
        let pivot = lit.variable();
        match clashing_reason(trail, kernel, pivot, lit) {
            Some(id) => {
                let held = step_counted(trail, kernel, pivot, id, start.held)?;
                return Ok(Walk { place, held });
            },
            None => {},
        }
    }
    Ok(start)
}

// Resolves the staged clause, which has so many literals of the last level, back along the trail, until it is what analysis
// derives, and returns the place in front of which the walk stands.
fn resolve_back(trail: &Trail, kernel: &mut Kernel, held: usize) -> Result<usize, OutOfMemory>
    requires fits { Fits trail.now kernel.old }
    requires opened { OpenLevels trail.now.steps }
    requires derivation { IsDeriving kernel.old trail.now (length trail.now.steps) }
    requires counted { IsCounted trail.now.steps trail.now.level_count kernel.old held }
    ensures derived { IfOk result (λ place. IsShortening kernel.new trail.now place) }
    ensures kept { KeepsEntries kernel.old kernel.new }
{
    let mut walk = Walk {
        place: trail.entries().len(),
        held,
    };
    while !is_final(trail, kernel, walk.held) {
        walk = resolve_next(trail, kernel, walk)?;
    }
    Ok(walk.place)
}

// Whether a step of resolution with a clause on the pivot brings at most one literal to the staged clause.
fn brings_few(kernel: &Kernel, pivot: u32, clause: &[Lit]) -> bool
    requires { IsSome kernel.now.staged }
{
    let mut is_first = true;
    for lit in clause {
        if lit.variable() == pivot || kernel.stages(*lit) {
            continue;
        }
        if !is_first {
            return false;
        }
        is_first = false;
    }
    true
}

// Whether a variable got its value at a level below the last one.
fn is_below_last(trail: &Trail, variable: u32) -> bool
    requires { variable ≤ trail.now.variables }
    ensures { result ≡ is_level_below trail.now.level_count (level_of trail.now.steps variable) }
{
    match trail.level_of(variable) {
        Some(level) => level < trail.level_count(),
        None => false,
    }
}

// Whether a step that resolves a literal of a level below the last one away shortens the staged clause: at level 0 where it brings
// at most one literal, and at another level where the literal is redundant.
fn is_worth(trail: &Trail, kernel: &Kernel, marks: &mut [Mark], variable: u32, id: u32) -> bool
    requires fits { Fits trail.now kernel.now }
    requires staged { IsSome kernel.now.staged }
    requires within { variable ≤ trail.now.variables }
    requires there { IsThere kernel.now id }
{
    if is_of(trail, 0, variable) {
        return brings_few(kernel, variable, kernel.clause(id));
    }
    is_redundant(trail, kernel, marks, variable, DEEPEST)
}

// The reason of a literal that is true by a level below the last one, where the staged clause has its opposite, and a step with
// the reason shortens it.
fn shortening_reason(trail: &Trail, kernel: &Kernel, marks: &mut [Mark], lit: Lit) -> Option<u32>
    requires fits { Fits trail.now kernel.now }
    requires within { lit.variable ≤ trail.now.variables }
    requires staged { IsSome kernel.now.staged }
    requires there { (id : ℕ) → option_and_then reason_of_step
        (step_of trail.now.steps lit.variable) ≡ Some id → IsThere kernel.now id }
    requires clash { (id : ℕ) (clause : List Literal) → option_and_then reason_of_step
        (step_of trail.now.steps lit.variable) ≡ Some id → kernel.now.staged ≡ Some clause →
        Contains clause (opposite lit) → ClashesWith kernel.now lit.variable id }
    ensures clash { IfSome result (λ id. ClashesWith kernel.now lit.variable id) }
    ensures reason { IfSome result (λ id.
        option_and_then reason_of_step (step_of trail.now.steps lit.variable) ≡ Some id) }
    ensures below { IfSome result (λ id.
        IsTrue (is_level_below trail.now.level_count (level_of trail.now.steps lit.variable))) }
{
    let pivot = lit.variable();
    if !kernel.stages(lit.opposite()) {
        return None;
    }
    if !is_below_last(trail, pivot) {
        return None;
    }
    match trail.reason(pivot) {
        Some(id) => if is_worth(trail, kernel, marks, pivot, id) {
            Some(id)
        } else {
            None
        },
        None => None,
    }
}

// Resolves literals of lower levels away from what analysis derives, where the clause gets shorter by it. What a step brings is false
// earlier, so that each place is looked at once.
fn shorten(
    trail: &Trail,
    kernel: &mut Kernel,
    shortening: &mut Shortening,
    start: usize,
) -> Result<(), OutOfMemory>
    requires fits { Fits trail.now kernel.old }
    requires opened { OpenLevels trail.now.steps }
    requires derivation { IsShortening kernel.old trail.now start }
    ensures derived { OnOk result (IsDerived kernel.new trail.now) }
    ensures kept { KeepsEntries kernel.old kernel.new }
{
    let entries = trail.entries();
    shortening.begin();
    shortening.take_in(trail, kernel);
    let mut place = start;
    while let Some(next) = shortening.next(place) {
        place = next;
        let lit = entries[place];
        match shortening_reason(trail, kernel, &mut shortening.marks, lit) {
            Some(id) => {
                kernel.step(lit.variable(), id)?;
                shortening.take_in(trail, kernel);
            },
            None => {},
        }
    }
    Ok(())
}

// Derives the clause at the implication point from a false one, leaves it staged, and returns the place of the trail in front of which
// it is false.
fn derive_first(trail: &Trail, kernel: &mut Kernel, id: u32) -> Result<usize, OutOfMemory>
    requires fits { Fits trail.now kernel.old }
    requires opened { OpenLevels trail.now.steps }
    requires settled { IsSettled trail.now kernel.old }
    requires failed { IsFailedClause (clauses_of kernel.old) trail.now.steps id }
    ensures derived { IfOk result (λ place. IsShortening kernel.new trail.now place) }
    ensures kept { KeepsEntries kernel.old kernel.new }
{
    kernel.start(id)?;
    let level = trail.level_count();
    let held = level_count_in(trail, level, kernel.clause(id));
    resolve_back(trail, kernel, held)
}

// Derives the clause that is learned from a false one, and leaves it staged.
fn derive(
    trail: &Trail,
    kernel: &mut Kernel,
    shortening: &mut Shortening,
    probe: &mut Probe,
    id: u32,
) -> Result<(), OutOfMemory>
    requires fits { Fits trail.now kernel.old }
    requires opened { OpenLevels trail.now.steps }
    requires settled { IsSettled trail.now kernel.old }
    requires failed { IsFailedClause (clauses_of kernel.old) trail.now.steps id }
    ensures derived { OnOk result (IsDerived kernel.new trail.now) }
    ensures kept { KeepsEntries kernel.old kernel.new }
    ensures phase { probe.new.phase ≡ probe.old.phase }
{
    let place = derive_first(trail, kernel, id)?;
    probe.note_met(trail, kernel);
    shorten(trail, kernel, shortening, place)
}

/// Derives the empty clause from a clause that is false where no level was opened.
pub fn refute(trail: &Trail, kernel: &mut Kernel, id: u32) -> Result<(), OutOfMemory>
    requires level { trail.now.level_count ≡ 0 }
    requires fits { Fits trail.now kernel.old }
    requires opened { OpenLevels trail.now.steps }
    requires settled { IsSettled trail.now kernel.old }
    requires failed { IsFailedClause (clauses_of kernel.old) trail.now.steps id }
    requires few { length kernel.old.entries < 4000000000 }
    ensures refuted { OnOk result (AddsDerived kernel.old kernel.new []) }
    ensures kept { OnErr result (KeepsEntries kernel.old kernel.new) }
{
    derive_first(trail, kernel, id)?;
    // Opens the trail's invariant for the proof.
    let _level = trail.level_count();
    kernel.finish()?;
    Ok(())
}

/// Derives a clause from one that is false, goes back to the level at which it leaves one literal, and attaches it. Where there are
/// marks, redundant literals are resolved away. The probe takes notice of what the line had to do with, and of what is taken back.
pub fn learn(
    trail: &mut Trail,
    kernel: &mut Kernel,
    shortening: &mut Shortening,
    probe: &mut Probe,
    id: u32,
) -> Result<(), OutOfMemory>
    requires level { 0 < trail.old.level_count }
    requires fits { Fits trail.old kernel.old }
    requires all { trail.old.attached ≡ length kernel.old.entries }
    requires opened { OpenLevels trail.old.steps }
    requires settled { IsSettled trail.old kernel.old }
    requires failed { IsFailedClause (clauses_of kernel.old) trail.old.steps id }
    requires few { length kernel.old.entries < 4000000000 }
    ensures learned { OnOk result (Learns kernel.old kernel.new) }
    ensures back { OnOk result (IsBackOver trail.old trail.new kernel.new) }
    ensures broken { OnErr result (KeepsEntries kernel.old kernel.new
        ⊎ Learns kernel.old kernel.new) }
    ensures phase { probe.new.phase ≡ probe.old.phase }
{
    learned_is_earned();
    adding_keeps_fit();
    adding_keeps_settled();
    derive(trail, kernel, shortening, probe, id)?;
    let level = trail.level_count();
    let number = kernel.finish()?;
    let back = highest_but(trail, level, kernel.clause(number));
    probe.weigh(kernel.clause(number).len(), kernel.chain().len() / 2);
    probe.take_back(trail, back);
    trail.back_to(back);
    trail.attach_over(kernel, number)
}

// The level to go back to before a false clause is attached: its highest one where two literals are of it, else the second
// highest one.
fn block_level(trail: &Trail, clause: &[Lit]) -> u32
    requires clause { IsClause clause.now }
    requires over { IsOver trail.now.variables clause.now }
    requires failed { IsFailed (values_of trail.now.steps) clause.now }
    ensures low { result ≤ trail.now.level_count }
    ensures steps { AreSteps trail.now.variables trail.now.steps trail.now.level_count }
    ensures mild { KeepsSettled (steps_to result trail.now.steps) result clause.now }
{
    // Opens the trail's invariant for the proof.
    let _level = trail.level_count();
    second_level(trail, clause)
}

/// Adds a false clause as a block, and goes back to a level at which search goes on from it.
pub fn block(trail: &mut Trail, kernel: &mut Kernel, clause: &[Lit]) -> Result<u32, OutOfMemory>
    requires clause { IsClause clause.now }
    requires over { IsOver kernel.old.variables clause.now }
    requires failed { IsFailed (values_of trail.old.steps) clause.now }
    requires fits { Fits trail.old kernel.old }
    requires all { trail.old.attached ≡ length kernel.old.entries }
    requires settled { IsSettled trail.old kernel.old }
    requires few { length kernel.old.entries < 4000000000 }
    ensures number { IfOk result (λ number. number ≡ length kernel.old.entries + 1) }
    ensures blocked { OnOk result (kernel.new ≡ added kernel.old clause.now Origin.Block) }
    ensures back { OnOk result (IsBackOver trail.old trail.new kernel.new) }
    ensures steps { AreSteps trail.old.variables trail.old.steps trail.old.level_count }
    ensures broken { OnErr result (KeepsEntries kernel.old kernel.new
        ⊎ AddsBlock kernel.old kernel.new clause.now) }
{
    adding_keeps_fit();
    adding_keeps_settled();
    let back = block_level(trail, clause);
    let number = kernel.block(clause)?;
    trail.back_to(back);
    trail.attach(kernel, number)?;
    Ok(number)
}
