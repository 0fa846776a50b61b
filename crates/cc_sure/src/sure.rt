//! A run on certain and possible atoms, event by event.
ghost use Rattle.std.specs.Prelude.{◌≡◌, ◌≤◌, ◌<◌, ◌++◌, ◌∷◌, [], ℕ, IfErr, IfOk, IsNone, List, OnOk};
ghost use Rattle.cc_arena.specs.GroundViews.{plain_ground_query};
ghost use Rattle.cc_defs.specs.Description.{Description};
ghost use Rattle.cc_defs.specs.Limits.{most_steps};
ghost use Rattle.cc_defs.specs.Resolved.{Query};
ghost use Rattle.cc_form.specs.Queries.{IsQueryAt};
ghost use Rattle.cc_sure.specs.SureEvents.{After, HasMoreEvents, IsEnd, IsLess, IsRightFaultBehind, TakesTurn};
ghost use Rattle.cc_sure.specs.Sures.{HasMore, IsSame, IsSureOf};
ghost use Rattle.cc_sure.specs.declared.event.SureEvent.{SureEvent as Event};
ghost use Rattle.cc_theory.specs.Theories.{AreLawsFor};

use crate::event::SureEvent;
use crate::queue::{Queue, queue_of};
use crate::turns::SureTurns;
use cc_arena::{GroundQuery, Laws};
use cc_defs::{Fault, Sig};
use std::alloc::Global;
use std::marker::Model;

/// A run on what is certain, possible and impossible at the first horizon of a query that has a history, as `SureTurns`, whose
/// turns it hands out event by event, with the lines of its log: for each atom that no history has the heading of its section and
/// the lines of it, the answers of a position value by value, and where a search was spent, its heading and its lines before the
/// ending.
#[derive(Drop)]
pub struct Sure<'a> {
    alloc: Global,
    turns: SureTurns<'a>,
    queued: Queue,
}

impl<'a> Model for Sure<'a> {
    ghost use Rattle.cc_sure.specs.SureEvents.{SureQueue, IsQueue};

    ghost Value = { SureQueue };

    ghost view = { λ s. record { turns = s.turns; queued = s.queued } };

    ghost invariant = { λ s. IsQueue (record { turns = s.turns; queued = s.queued }) };
}

impl<'a> Sure<'a> {
    /// A run on a query without a claim. `budget` is how many derived lines each search may have, at most 2,000,000.
    pub fn new(
        alloc: Global,
        sig: &'a Sig,
        laws: &'a Laws<'a>,
        query: &'a GroundQuery<'a>,
        budget: u32,
    ) -> Sure<'a>
        requires laws { AreLawsFor sig.now laws.now }
        requires ordered { query.now.lo ≤ query.now.hi }
        requires most { query.now.hi ≤ most_steps }
        requires steps { (horizon : ℕ) → query.now.lo ≤ horizon →
            horizon ≤ query.now.hi → IsQueryAt sig.now horizon (plain_ground_query query.now) }
        requires claim { IsNone query.now.claim }
        requires budget { budget ≤ 2000000 }
        ensures signature { result.turns.signature ≡ sig.now }
        ensures laws { result.turns.laws ≡ laws.now }
        ensures query { result.turns.query ≡ plain_ground_query query.now }
        ensures budget { result.turns.budget ≡ budget }
        ensures begun { (d : Description) (q : Query) → IsSureOf result.turns d q → After d q result [] }
        ensures more { HasMoreEvents result }
    {
        Sure {
            alloc,
            turns: SureTurns::new(alloc, sig, laws, query, budget),
            queued: Queue::new(alloc),
        }
    }

    // Takes the next turn.
    fn turn(&mut self) -> Result<(), Fault>
        requires told { self.old.queued ≡ [] }
        requires more { HasMore self.old.turns }
        ensures takes { OnOk result (TakesTurn self.old self.new) }
        ensures refused { IfErr result (IsRightFaultBehind self.old) }
    {
        let turn = self.turns.next()?;
        let queued = queue_of(self.alloc, self.turns.horizon(), turn);
        self.queued = queued;
        Ok(())
    }

    /// The next event. Refuses as `SureTurns::next` does, once all events of the turns before were handed out. After the ending, as
    /// after an error, nothing more is told.
    pub fn next(&mut self) -> Result<SureEvent, Fault>
        requires { HasMoreEvents self.old }
        ensures event { (d : Description) (q : Query) (given : List Event) →
            IsSureOf self.old.turns d q → After d q self.old given →
            IfOk result (λ event. After d q self.new (given ++ event ∷ [])) }
        ensures same { OnOk result (IsSame self.old.turns self.new.turns) }
        ensures refused { IfErr result (IsRightFaultBehind self.old) }
        ensures more { IfOk result (λ event. (IsEnd event → ⊥) → HasMoreEvents self.new) }
        ensures less { OnOk result (IsLess self.new self.old) }
    {
        match self.queued.next() {
            Some(event) => Ok(event),
            None => {
                self.turn()?;
                self.next()
            }
        }
    }
}
