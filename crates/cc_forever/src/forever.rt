//! A run on every horizon, turn by turn.
ghost use Rattle.std.specs.Prelude.{◌≡◌, ◌≤◌, ◌<◌, ◌+◌, true, Some, None, IfErr, IfOk};
ghost use Rattle.cc_arena.specs.GroundViews.{plain_ground_query};
ghost use Rattle.cc_defs.specs.Description.{Description};
ghost use Rattle.cc_defs.specs.GroundLaws.{StandsForQuery};
ghost use Rattle.cc_defs.specs.Limits.{most_steps};
ghost use Rattle.cc_defs.specs.Refusals.{IsRefusedBy};
ghost use Rattle.cc_defs.specs.Resolved.{Query};
ghost use Rattle.cc_form.specs.Forms.{section_refusal};
ghost use Rattle.cc_form.specs.Queries.{IsQueryAt};
ghost use Rattle.cc_forever.specs.Forevers.{ForeverSubject, Gives, HasMore, IsAbout, IsOver, IsReady, IsRightFault, IsSame, IsSearched, IsSearchedUnder, Stands, nothing_told};
ghost use Rattle.cc_forever.specs.declared.phase.Phase.TheVariants as phases;
ghost use Rattle.cc_silent.specs.declared.forever.ForeverHeading.TheVariants as headings;
ghost use Rattle.cc_theory.specs.Theories.{AreLawsFor, AreLawsOf};

use crate::phase::Phase;
use crate::turn::ForeverTurn;
use cc_arena::{GroundQuery, Laws, Terms};
use cc_defs::{Fault, OutOfMemory, Row, Sig};
use cc_induction::Induction;
use cc_induction::theorems::queries_are_asked_later;
use cc_lists::Lists;
use cc_search::{Outcome, search_one};
use cc_silent::ForeverHeading;
use cc_turns::Turns;
use std::alloc::Global;
use std::marker::Model;
use std::mem;

/// The greatest number of steps that an induction is tried over.
const MOST_STEPS: u32 = 1000;

/// A run on every horizon of a query, by induction: it looks for a history of the least horizon, and where there is none, for one of
/// the step over one transition; then of the next horizon, and of the step over two; and so on, as far as the query's range and 1000
/// steps go. Where a step has none the induction holds, and no horizon has a history. Each call makes one search at most, within the
/// budget.
#[derive(Drop)]
pub struct Forever<'a> {
    alloc: Global,
    query: &'a GroundQuery<'a>,
    induction: Induction<'a>,
    lists: Lists<'a>,
    budget: u32,
    // Over how many steps the induction has failed, and the least history of the last such step.
    failed: u32,
    example: Option<Row>,
    phase: Phase,
}

impl<'a> Model for Forever<'a> {
    ghost use Rattle.std.specs.Prelude.{◌≡◌};
    ghost use Rattle.cc_arena.specs.GroundViews.{plain_ground_query};
    ghost use Rattle.cc_forever.specs.Forevers.{ForeverView, IsForever};

    ghost Value = { ForeverView };

    ghost view = { λ f. record {
      signature = f.lists.signature;
      laws = f.lists.laws;
      query = plain_ground_query f.query.now;
      budget = f.budget;
      failed = f.failed;
      example = f.example;
      phase = f.phase;
    } };

    ghost invariant = { λ f. (f.induction ≡ plain_ground_query f.query.now) × IsForever (record {
      signature = f.lists.signature;
      laws = f.lists.laws;
      query = plain_ground_query f.query.now;
      budget = f.budget;
      failed = f.failed;
      example = f.example;
      phase = f.phase;
    }) };
}

impl<'a> Forever<'a> {
    /// A run on a query, with a claim or without one. `budget` is how many derived lines each search may have, at most 2,000,000. The
    /// nodes of the steps are placed beside those of the query.
    pub fn new(
        alloc: Global,
        sig: &'a Sig,
        laws: &'a Laws<'a>,
        query: &'a GroundQuery<'a>,
        terms: &Terms<'a>,
        budget: u32,
    ) -> Result<Forever<'a>, OutOfMemory>
        requires laws { AreLawsFor sig.now laws.now }
        requires ordered { query.now.lo ≤ query.now.hi }
        requires most { query.now.hi ≤ most_steps }
        requires asked { IsQueryAt sig.now query.now.lo (plain_ground_query query.now) }
        requires budget { budget ≤ 2000000 }
        ensures signature { IfOk result (λ forever. forever.signature ≡ sig.now) }
        ensures laws { IfOk result (λ forever. forever.laws ≡ laws.now) }
        ensures query { IfOk result (λ forever. forever.query ≡ plain_ground_query query.now) }
        ensures budget { IfOk result (λ forever. forever.budget ≡ budget) }
        ensures begun { (of : ForeverSubject) → IfOk result (λ forever.
            IsAbout forever of → Stands forever of nothing_told) }
        ensures more { IfOk result HasMore }
    {
        Ok(Forever {
            alloc,
            query,
            induction: Induction::of(alloc, query, terms)?,
            lists: Lists::new(sig, laws),
            budget,
            failed: 0,
            example: None,
            phase: Phase::Looking,
        })
    }

    // What was to come next.
    fn take(&mut self) -> Phase
        ensures taken { result ≡ self.old.phase }
        ensures left { self.new ≡ record self.old { phase = phases.Ended } }
        ensures ready { IsReady self.old result }
    {
        mem::replace(&mut self.phase, Phase::Ended)
    }

    // Searches for the least history of a query at a horizon.
    fn search(&mut self, query: &GroundQuery<'_>, horizon: u32) -> Result<Outcome, Fault>
        requires horizon { horizon ≤ most_steps }
        requires asked { IsQueryAt self.old.signature horizon (plain_ground_query query.now) }
        ensures same { self.new ≡ self.old }
        ensures searched { (d : Description) (q : Query) →
            AreLawsOf self.old.signature self.old.laws d →
            StandsForQuery (plain_ground_query query.now) d q →
            IfOk result (IsSearched d q horizon self.old.budget) }
        ensures refused { (d : Description) (q : Query) →
            AreLawsOf self.old.signature self.old.laws d →
            StandsForQuery (plain_ground_query query.now) d q →
            IfErr result (IsRefusedBy (section_refusal d q horizon true None)) }
    {
        self.lists.prepare(self.alloc, horizon)?;
        let form = self.lists.form(self.alloc, query, None, horizon, true)?;
        search_one(self.alloc, form, self.budget)
    }

    // No horizon is left to look at.
    fn leave_open(&mut self) -> ForeverTurn
        requires over { IsOver self.old }
        requires ready { IsReady self.old phases.Looking }
        requires past { self.old.query.lo + self.old.failed ≤ self.old.query.hi →
            self.old.failed ≡ most_steps }
        ensures gives { Gives (record self.old { phase = phases.Looking }) self.new result }
        ensures same { IsSame self.old self.new }
    {
        match self.example.take() {
            Some(example) => ForeverTurn::Unsettled {
                steps: self.failed,
                example,
            },
            None => unreachable!(),
        }
    }

    // What is told of the search for a history of a horizon.
    fn looked(&mut self, horizon: u32, outcome: Outcome) -> ForeverTurn
        requires over { IsOver self.old }
        requires ready { IsReady self.old phases.Looking }
        requires horizon { horizon ≡ self.old.query.lo + self.old.failed }
        requires low { horizon ≤ self.old.query.hi }
        requires few { self.old.failed < most_steps }
        requires outcome { IsSearchedUnder self.old (headings.Horizon horizon) outcome }
        ensures gives { Gives (record self.old { phase = phases.Looking }) self.new result }
        ensures same { IsSame self.old self.new }
    {
        match outcome {
            Outcome::Found(row) => ForeverTurn::Found { horizon, row },
            Outcome::Empty(lines) => {
                self.phase = Phase::Inducing;
                ForeverTurn::NoHistory { horizon, lines }
            }
            Outcome::Spent(lines) => ForeverTurn::Spent {
                heading: ForeverHeading::Horizon(horizon),
                lines,
            },
        }
    }

    // Looks for a history of a horizon.
    fn look_at(&mut self, horizon: u32) -> Result<ForeverTurn, Fault>
        requires over { IsOver self.old }
        requires ready { IsReady self.old phases.Looking }
        requires horizon { horizon ≡ self.old.query.lo + self.old.failed }
        requires low { horizon ≤ self.old.query.hi }
        requires few { self.old.failed < most_steps }
        ensures gives { IfOk result (Gives (record self.old { phase = phases.Looking }) self.new) }
        ensures fault { IfErr result (IsRightFault (record self.old { phase = phases.Looking })) }
        ensures same { IsSame self.old self.new }
    {
        queries_are_asked_later();
        let query = self.query;
        let outcome = self.search(query, horizon)?;
        Ok(self.looked(horizon, outcome))
    }

    // Looks for a history of the next horizon, if there is one more.
    fn look(&mut self) -> Result<ForeverTurn, Fault>
        requires over { IsOver self.old }
        requires ready { IsReady self.old phases.Looking }
        ensures gives { IfOk result (Gives (record self.old { phase = phases.Looking }) self.new) }
        ensures fault { IfErr result (IsRightFault (record self.old { phase = phases.Looking })) }
        ensures same { IsSame self.old self.new }
    {
        let horizon = self.query.lo + self.failed;
        if horizon > self.query.hi || self.failed == MOST_STEPS {
            return Ok(self.leave_open());
        }
        self.look_at(horizon)
    }

    // The induction over so many steps fails: the next horizon is looked at.
    fn fail(&mut self, steps: u32, row: Row)
        requires over { IsOver self.old }
        requires steps { steps ≡ self.old.failed + 1 }
        requires ready { IsReady self.old phases.Inducing }
        ensures { self.new ≡ record self.old {
          failed = steps;
          example = Some row;
          phase = phases.Looking;
        } }
    {
        self.failed = steps;
        self.example = Some(row);
        self.phase = Phase::Looking;
    }

    // What is told of the search for a history of a step.
    fn induced(&mut self, steps: u32, outcome: Outcome) -> ForeverTurn
        requires over { IsOver self.old }
        requires ready { IsReady self.old phases.Inducing }
        requires steps { steps ≡ self.old.failed + 1 }
        requires outcome { IsSearchedUnder self.old (headings.Steps steps) outcome }
        ensures gives { Gives (record self.old { phase = phases.Inducing }) self.new result }
        ensures same { IsSame self.old self.new }
    {
        match outcome {
            Outcome::Found(row) => {
                self.fail(steps, row);
                ForeverTurn::Fails { steps }
            }
            Outcome::Empty(lines) => ForeverTurn::Holds { steps, lines },
            Outcome::Spent(lines) => ForeverTurn::Spent {
                heading: ForeverHeading::Steps(steps),
                lines,
            },
        }
    }

    // Looks for a history of the step over as many transitions as horizons have none.
    fn induce(&mut self) -> Result<ForeverTurn, Fault>
        requires over { IsOver self.old }
        requires ready { IsReady self.old phases.Inducing }
        ensures gives { IfOk result (Gives (record self.old { phase = phases.Inducing }) self.new) }
        ensures fault { IfErr result (IsRightFault (record self.old { phase = phases.Inducing })) }
        ensures same { IsSame self.old self.new }
    {
        let steps = self.failed + 1;
        let query = self.induction.step(self.alloc, steps)?;
        let outcome = self.search(&query, steps)?;
        Ok(self.induced(steps, outcome))
    }

    // The next turn.
    fn turn(&mut self) -> Result<ForeverTurn, Fault>
        requires { HasMore self.old }
        ensures gives { IfOk result (Gives self.old self.new) }
        ensures fault { IfErr result (IsRightFault self.old) }
        ensures same { IsSame self.old self.new }
    {
        match self.take() {
            Phase::Looking => self.look(),
            Phase::Inducing => self.induce(),
            Phase::Ended => unreachable!(),
        }
    }
}

impl<'a> Turns for Forever<'a> {
    type Event = ForeverTurn;

    ghost use Rattle.cc_forever.specs.ForeverRuns.{ForeverRun, ReachesForeverLimit};
    ghost use Rattle.cc_forever.specs.Forevers.{ForeverSubject, HasMore, IsAbout, IsFitTurn, IsRightRun, Stands, Steps, is_last, left_of, right_run};

    ghost Of = { ForeverSubject };

    ghost Run = { ForeverRun };

    ghost Is = { IsAbout };

    ghost Stands = { Stands };

    ghost Fair = { IsRightRun };

    ghost Limit = { λ of run refusal. ReachesForeverLimit of.description of.query run refusal };

    ghost Says = { Steps };

    ghost Fit = { λ forever turn. IsFitTurn forever.signature turn };

    ghost more = { HasMore };

    ghost left = { left_of };

    ghost last = { is_last };

    ghost fair = { right_run };

    fn next(&mut self) -> Result<ForeverTurn, Fault> {
        self.turn()
    }
}
