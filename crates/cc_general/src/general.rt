//! A listing by the definition of a model, event by event.
ghost use Rattle.std.specs.Prelude.{◌≡◌, ◌≤◌, ◌++◌, ◌∷◌, [], ℕ, IfErr, IfOk, IfSome, IsNone, List, OnOk};
ghost use Rattle.cc_arena.specs.GroundViews.{plain_ground_query};
ghost use Rattle.cc_defs.specs.declared.event.Told.{Told};
ghost use Rattle.cc_defs.specs.Limits.{most_steps};
ghost use Rattle.cc_defs.specs.Resolved.{Query};
ghost use Rattle.cc_form.specs.Queries.{IsQueryAt};
ghost use Rattle.cc_general.specs.GeneralEvents.{After, HandsOut, HasMoreEvents, IsEnd, IsLess, IsRightFaultBehind, with_candidate};
ghost use Rattle.cc_general.specs.Generals.{HasMore, IsGeneralOf, IsSame};
ghost use Rattle.cc_rivals.specs.Wides.{AreWideLawsFor};
ghost use Rattle.cc_wide.specs.WideLaws.{WideDescription};

use crate::queue::{Queue, queue_of};
use crate::turns::GeneralTurns;
use cc_arena::GroundQuery;
use cc_defs::{Event, Fault, OutOfMemory, Row, Sig};
use cc_query::Ask;
use cc_wide::WideGround;
use std::alloc::Global;
use std::marker::Model;

/// A listing by the definition of a model itself, for laws with heads of any form, as `GeneralTurns`, whose turns it hands out
/// event by event, with the lines of its log: for each history the heading of the section over its rivals, the lines of it, and the
/// history; and where a search was spent, the heading and the lines of its section before the ending.
#[derive(Drop)]
pub struct General<'a> {
    alloc: Global,
    turns: GeneralTurns<'a>,
    // The row of the last history or of its heading.
    row: Row,
    queued: Queue,
}

impl<'a> Model for General<'a> {
    ghost use Rattle.cc_general.specs.GeneralEvents.{GeneralQueue, IsQueue};

    ghost Value = { GeneralQueue };

    ghost view = { λ g. record { turns = g.turns; row = g.row; queued = g.queued } };

    ghost invariant = { λ g.
        IsQueue (record { turns = g.turns; row = g.row; queued = g.queued }) };
}

impl<'a> General<'a> {
    /// A listing of a query without a claim, and without a key. A count is at least 1, and the budget of derived lines, which each
    /// search has for itself, at most 2,000,000.
    pub fn new(
        alloc: Global,
        sig: &'a Sig,
        laws: &'a WideGround<'a>,
        query: &'a GroundQuery<'a>,
        ask: Ask,
    ) -> Result<General<'a>, OutOfMemory>
        requires laws { AreWideLawsFor sig.now laws.now }
        requires ordered { query.now.lo ≤ query.now.hi }
        requires most { query.now.hi ≤ most_steps }
        requires steps { (horizon : ℕ) → query.now.lo ≤ horizon →
            horizon ≤ query.now.hi → IsQueryAt sig.now horizon (plain_ground_query query.now) }
        requires claim { IsNone query.now.claim }
        requires key { IsNone ask.after }
        requires count { IfSome ask.count (λ most. 1 ≤ most) }
        requires budget { ask.budget ≤ 2000000 }
        ensures signature { IfOk result (λ general. general.turns.signature ≡ sig.now) }
        ensures laws { IfOk result (λ general. general.turns.laws ≡ laws.now) }
        ensures query { IfOk result
            (λ general. general.turns.query ≡ plain_ground_query query.now) }
        ensures count { IfOk result (λ general. general.turns.count ≡ ask.count) }
        ensures budget { IfOk result (λ general. general.turns.budget ≡ ask.budget) }
        ensures begun { (w : WideDescription) (q : Query) → IfOk result (λ general.
            IsGeneralOf general.turns w q → After w q general []) }
        ensures more { IfOk result HasMoreEvents }
    {
        let turns = GeneralTurns::new(alloc, sig, laws, query, ask.count, ask.budget);
        Ok(General {
            alloc,
            turns,
            row: Row::of(Vec::new(alloc)),
            queued: Queue::new(alloc),
        })
    }

    /// The row of the last event where it is a history: a value index for each position. After the heading of the rivals of a
    /// candidate, and after each line of its section, it is this candidate.
    pub fn row(&self) -> &[u32]
        ensures { result.now ≡ self.now.row }
    {
        self.row.items()
    }

    // The first event of the next turn.
    fn turn(&mut self) -> Result<Event, Fault>
        requires told { self.old.queued ≡ [] }
        requires more { HasMore self.old.turns }
        ensures hands { IfOk result (HandsOut self.old self.new) }
        ensures refused { IfErr result (IsRightFaultBehind self.old) }
    {
        let turn = self.turns.next()?;
        let (row, queued) = queue_of(self.alloc, turn);
        self.row = row;
        self.queued = queued;
        match self.queued.next() {
            Some(event) => Ok(event),
            None => unreachable!(),
        }
    }

    /// The next event: a line of the log, a horizon without a history, a history, or the ending. Refuses as `GeneralTurns::next`
    /// does, once all events of the turns before were handed out. After the ending, as after an error, nothing more is told.
    pub fn next(&mut self) -> Result<Event, Fault>
        requires { HasMoreEvents self.old }
        ensures event { (w : WideDescription) (q : Query) (given : List Told) →
            IsGeneralOf self.old.turns w q → After w q self.old given → IfOk result
            (λ event. After w q self.new (given ++ with_candidate event self.new.row ∷ [])) }
        ensures same { OnOk result (IsSame self.old.turns self.new.turns) }
        ensures refused { IfErr result (IsRightFaultBehind self.old) }
        ensures more { IfOk result (λ event. (IsEnd event → ⊥) → HasMoreEvents self.new) }
        ensures less { OnOk result (IsLess self.new self.old) }
    {
        match self.queued.next() {
            Some(event) => Ok(event),
            None => self.turn(),
        }
    }
}
