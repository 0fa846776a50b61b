//! Clauses of a step as those of a later step, or of a step of a longer horizon.
ghost use Rattle.std.specs.Prelude.{◌≡◌, ℕ, [], ◌∷◌, ◌+◌, ◌-◌, ◌*◌, ◌<◌, ◌≤◌, ◌++◌, map, flat_map, OnOk};
ghost use Rattle.cc_defs.specs.Clauses.{IsLiteralOver, IsOver};
ghost use Rattle.cc_defs.specs.Limits.{most_steps, most_variables};
ghost use Rattle.cc_defs.specs.Rules.{upto};
ghost use Rattle.cc_form.specs.Moving.{renamed};
ghost use Rattle.cc_form.specs.Steps.{AreOver, CanMove, CanPlace, moved_clauses, moved_variable as variable_of, placed_by, way_at};
ghost use Rattle.cc_form.specs.Store.{Gives};

use crate::store::Store;
use cc_clauses::ClauseArena;
use cc_defs::{Lit, OutOfMemory};

/// How far the variables of clauses move: those of atoms, which are so many, the one behind them, which is true, and those of
/// terms.
#[derive(Clone, Copy)]
pub(crate) struct Move {
    pub(crate) atoms: u32,
    pub(crate) low: u32,
    pub(crate) middle: u32,
    pub(crate) high: u32,
}

/// How far they move for each step: those of atoms by the values that a step has, those of terms by the variables that are
/// made at a step, and the one that is true, with those of terms, by the distance of the two that are true.
#[derive(Clone, Copy)]
pub(crate) struct Way {
    pub(crate) atoms: u32,
    pub(crate) values: u32,
    pub(crate) middle: u32,
    pub(crate) own: u32,
}

/// So many steps later.
fn move_by(way: &Way, steps: u32) -> Move
    requires low { steps * way.now.values ≤ most_variables }
    requires high { way.now.middle + steps * way.now.own ≤ most_variables }
    ensures { result ≡ way_at way.now steps }
{
    Move {
        atoms: way.atoms,
        low: steps * way.values,
        middle: way.middle,
        high: way.middle + steps * way.own,
    }
}

/// A variable where it has moved to.
fn moved_variable(by: &Move, variable: u32) -> u32
    requires { (top : ℕ) × (variable ≤ top) × CanMove by.now top }
    ensures { result ≡ variable_of by.now variable }
{
    if by.atoms < variable {
        if by.atoms + 1 < variable {
            variable + by.high
        } else {
            variable + by.middle
        }
    } else {
        variable + by.low
    }
}

/// A literal where its variable has moved to.
fn moved(by: &Move, literal: Lit) -> Lit
    requires { (top : ℕ) × IsLiteralOver top literal × CanMove by.now top }
    ensures { result ≡ renamed (variable_of by.now) literal }
{
    let variable = moved_variable(by, literal.variable());
    if literal.is_positive() {
        Lit::positive(variable)
    } else {
        Lit::negative(variable)
    }
}

/// Goes on with the literals of a clause where they have moved to.
fn stage_moved(store: &mut Store, by: &Move, clause: &[Lit]) -> Result<(), OutOfMemory>
    requires { (top : ℕ) × IsOver top clause.now × CanMove by.now top }
    ensures kept { OnOk result (store.new.kept ≡ store.old.kept) }
    ensures staged { OnOk result (store.new.staged.items
        ≡ store.old.staged.items ++ map (renamed (variable_of by.now)) clause.now) }
{
    for literal in clause {
        store.stage(moved(by, *literal))?;
    }
    Ok(())
}

/// Keeps a clause where it has moved to.
fn keep_moved(store: &mut Store, by: &Move, clause: &[Lit]) -> Result<(), OutOfMemory>
    requires { (top : ℕ) × IsOver top clause.now × CanMove by.now top }
    ensures { OnOk result
        (Gives store.old.kept store.new.kept (map (renamed (variable_of by.now)) clause.now ∷ [])) }
{
    store.begin();
    stage_moved(store, by, clause)?;
    store.keep()
}

/// Keeps clauses where they have moved to. Where there are more clauses than their limit already, no more are made.
fn keep_all_moved(store: &mut Store, by: &Move, clauses: &ClauseArena) -> Result<(), OutOfMemory>
    requires { (top : ℕ) × AreOver top clauses.now × CanMove by.now top }
    ensures { OnOk result (Gives store.old.kept store.new.kept (moved_clauses by.now clauses.now)) }
{
    for index in 0..clauses.count() {
        if store.is_full() {
            return Ok(());
        }
        keep_moved(store, by, clauses.clause(index))?;
    }
    Ok(())
}

/// Keeps clauses of a step where they have moved to so many steps later.
fn keep_later(
    store: &mut Store,
    way: &Way,
    horizon: u32,
    steps: u32,
    clauses: &ClauseArena,
) -> Result<(), OutOfMemory>
    requires steps { steps + 2 ≤ horizon }
    requires can { (top : ℕ) × AreOver top clauses.now × CanPlace way.now horizon top }
    ensures { OnOk result
        (Gives store.old.kept store.new.kept (moved_clauses (way_at way.now steps) clauses.now)) }
{
    keep_all_moved(store, &move_by(way, steps), clauses)
}

/// Keeps clauses of a step at each step behind the first and before the last.
fn keep_each(
    store: &mut Store,
    way: &Way,
    horizon: u32,
    clauses: &ClauseArena,
) -> Result<(), OutOfMemory>
    requires { (top : ℕ) × AreOver top clauses.now × CanPlace way.now horizon top }
    ensures { OnOk result (Gives store.old.kept store.new.kept (flat_map (λ steps.
        moved_clauses (way_at way.now steps) clauses.now) (upto (horizon - 1)))) }
{
    for steps in 0..horizon - 1 {
        keep_later(store, way, horizon, steps, clauses)?;
    }
    Ok(())
}

/// Keeps clauses of the first step, of one behind it and of the last, of a horizon of two, at the steps of a longer one.
pub(crate) fn place(
    store: &mut Store,
    way: &Way,
    horizon: u32,
    first: &ClauseArena,
    later: &ClauseArena,
    last: &ClauseArena,
) -> Result<(), OutOfMemory>
    requires { (top : ℕ) × AreOver top first.now
        × AreOver top later.now × AreOver top last.now × CanPlace way.now horizon top }
    ensures { OnOk result (Gives store.old.kept store.new.kept
        (placed_by way.now horizon first.now later.now last.now)) }
{
    keep_later(store, way, horizon, 0, first)?;
    keep_each(store, way, horizon, later)?;
    keep_later(store, way, horizon, horizon - 2, last)
}
