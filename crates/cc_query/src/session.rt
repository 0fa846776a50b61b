//! A search for the histories of a query, or for a path that goes against its claim.
ghost use Rattle.std.specs.Prelude.{◌≡◌, ◌≢◌, ◌⊎◌, Bool, ℕ, ◌+◌, ◌<◌, ◌≤◌, ◌++◌, [], ◌∷◌, List, length, IfOk, IfErr, IfSome, IsNone, IsSome, OnErr, OnOk, Some, None, true, false};
ghost use Rattle.std.specs.Option.{option_map};
ghost use Rattle.cc_arena.specs.GroundViews.{plain_ground_query};
ghost use Rattle.cc_cdcl.specs.Solvers.{SolverView, IsStep, Ready};
ghost use Rattle.cc_cdcl.specs.declared.solver.Step.TheVariants as answers;
ghost use Rattle.cc_defs.specs.Description.{Description};
ghost use Rattle.cc_defs.specs.Limits.{most_histories, most_steps};
ghost use Rattle.cc_defs.specs.Refusals.{IsRefusedBy, past};
ghost use Rattle.cc_defs.specs.declared.refusal.Fault.TheVariants as faults;
ghost use Rattle.cc_defs.specs.declared.refusal.LimitAt.TheVariants as limits;
ghost use Rattle.cc_defs.specs.Resolved.{Query};
ghost use Rattle.cc_defs.specs.Runs.{axioms_of};
ghost use Rattle.cc_defs.specs.declared.event.Event.TheVariants as events;
ghost use Rattle.cc_defs.specs.declared.event.Told.{Told};
ghost use Rattle.cc_defs.specs.declared.log.EndWord.TheVariants as words;
ghost use Rattle.cc_defs.specs.declared.log.LogLine.TheVariants as lines;
ghost use Rattle.cc_form.specs.Queries.{IsQueryAt};
ghost use Rattle.cc_kernel.specs.Kernels.{derived_count};
ghost use Rattle.cc_lists.specs.Horizons.{Fits, first_at, last_at, opening_refusal};
ghost use Rattle.cc_lists.specs.Subjects.{AreGoodAxioms, IsFewEvent, IsShortEvent, with_row};
ghost use Rattle.cc_query.specs.Parts.{axioms_at, is_conditions};
ghost use Rattle.cc_defs.specs.declared.event.Ending.{Ending as EndingSeen};
ghost use Rattle.cc_query.specs.declared.phase.Phase.{Phase as PhaseSeen};
ghost use Rattle.cc_query.specs.Events.{Gives};
ghost use Rattle.cc_query.specs.Lefts.{left_of};
ghost use Rattle.cc_query.specs.Sessions.{After, HasFound, HasMore, Holds, IsReady, IsRightFault, IsOpened, IsSame, IsSessionOf, IsWithin, OpensGood, OpensWithin, RowsAreHistories, SessionView, StandsOpened, Tells, ending_behind, opens_at};
ghost use Rattle.cc_query.specs.declared.phase.Part.TheVariants as parts;
ghost use Rattle.cc_query.specs.declared.phase.Phase.TheVariants as phases;
ghost use Rattle.cc_theory.specs.Theories.{AreLawsFor};

use crate::ask::Ask;
use crate::opening::{denies_claim, solver_of};
use crate::phase::{Part, Phase};
use crate::shared::{budget_of, derived_line, is_asked, is_refuted};
use crate::theorems::search_laws;
use cc_arena::{GroundQuery, Laws};
use cc_cdcl::{Solver, Step};
use cc_defs::{
    EndWord, Ending, Event, Fault, Key, LimitAt, LogLine, OutOfMemory, Refusal, Row, Sig,
};
use cc_lists::Lists;
use std::alloc::Global;
use std::marker::Model;
use std::mem;

/// A search for the histories of a query at its horizons, one after another; for a query with a claim, for a path that meets
/// the conditions and not the claim. It tells its events one by one, those of its log included, and keeps no list of them.
/// What a horizon needs is let go before the next one begins.
pub struct Session<'a> {
    alloc: Global,
    lists: Lists<'a>,
    query: GroundQuery<'a>,
    ask: Ask,
    // The horizon that is tried.
    horizon: u32,
    // Whether a path met the conditions of a query with a claim at an earlier horizon.
    met: bool,
    // The last history, or the counterexample.
    row: Vec<u32>,
    phase: Phase,
}

impl<'a> Model for Session<'a> {
    ghost use Rattle.cc_arena.specs.GroundViews.{plain_ground_query};
    ghost use Rattle.cc_query.specs.Sessions.{SessionView, IsSession};

    ghost Value = { SessionView };

    ghost view = { λ s. record {
      signature = s.lists.signature;
      laws = s.lists.laws;
      query = plain_ground_query s.query;
      ask = s.ask;
      horizon = s.horizon;
      met = s.met;
      row = s.row.items;
      phase = s.phase;
    } };

    ghost invariant = { λ s. IsSession (record {
      signature = s.lists.signature;
      laws = s.lists.laws;
      query = plain_ground_query s.query;
      ask = s.ask;
      horizon = s.horizon;
      met = s.met;
      row = s.row.items;
      phase = s.phase;
    }) };
}

// By hand, so that whoever lets a session go has one call there, and not a drop for each field.
impl<'a> Drop for Session<'a> {
    fn drop(self) {
        let Session {
            alloc: _,
            lists,
            query: _,
            ask: _,
            horizon: _,
            met: _,
            row: _,
            phase: _,
        } = self;
        drop(lists);
    }
}

/// The first horizon that is tried.
fn first_horizon(query: &GroundQuery<'_>, ask: &Ask) -> u32
    ensures { result ≡ first_at (plain_ground_query query.now) ask.now.after }
{
    match &ask.after {
        Some(key) => key.horizon,
        None => query.lo,
    }
}

/// The last one.
fn last_horizon(query: &GroundQuery<'_>, ask: &Ask) -> u32
    ensures { result ≡ last_at (plain_ground_query query.now) ask.now.after }
{
    match &ask.after {
        Some(key) => key.horizon,
        None => query.hi,
    }
}

/// The key that the histories come after.
fn key_of(ask: &Ask) -> Option<&Key>
    ensures { option_map (λ key. key.now) result ≡ ask.now.after }
{
    ask.after.as_ref()
}

/// Whether no history was told at a horizon, and none lies before a key.
fn has_none(ask: &Ask, listed: u32) -> bool
    ensures none { result ≡ true → listed ≡ 0 }
    ensures no_key { result ≡ true → ask.now.after ≡ None }
    ensures some { result ≡ false → (0 < listed) ⊎ IsSome ask.now.after }
{
    match &ask.after {
        Some(_) => false,
        None => listed == 0,
    }
}

/// Whether a part tells the rows that it finds.
fn is_listing(part: Part) -> bool
    ensures is { result ≡ true → part ≡ parts.Histories }
    ensures other { result ≡ false → part ≢ parts.Histories }
{
    match part {
        Part::Histories => true,
        Part::Conditions | Part::Claim => false,
    }
}

/// The heading of a section.
fn heading(part: Part, horizon: u32) -> Event
    ensures { result ≡ events.Log (lines.Section (is_conditions part) horizon) }
{
    let conditions = match part {
        Part::Conditions => true,
        Part::Histories | Part::Claim => false,
    };
    Event::Log(LogLine::Section {
        conditions,
        horizon,
    })
}

/// The ending behind the last horizon.
fn last_ending(met: bool, part: Part) -> Ending
    ensures { result ≡ ending_behind met part }
{
    match part {
        Part::Histories => Ending::NoHistory,
        Part::Conditions | Part::Claim => {
            if met {
                Ending::ClaimHolds
            } else {
                Ending::ClaimEmpty
            }
        }
    }
}

/// What the first section of a horizon searches for.
fn first_part(query: &GroundQuery<'_>) -> Part
    ensures histories { IsNone query.now.claim → result ≡ parts.Histories }
    ensures conditions { IsSome query.now.claim → result ≡ parts.Conditions }
{
    match &query.claim {
        Some(_) => Part::Conditions,
        None => Part::Histories,
    }
}

impl<'a> Session<'a> {
    /// A search for a query: the horizons of its range, or the key's alone. What is asked is `ask`.
    pub fn new(
        alloc: Global,
        sig: &'a Sig,
        laws: &'a Laws<'a>,
        query: GroundQuery<'a>,
        ask: Ask,
    ) -> Result<Session<'a>, OutOfMemory>
        requires laws { AreLawsFor sig.now laws.now }
        requires ordered { query.lo ≤ query.hi }
        requires most { query.hi ≤ most_steps }
        requires steps { (horizon : ℕ) → query.lo ≤ horizon →
            horizon ≤ query.hi → IsQueryAt sig.now horizon (plain_ground_query query) }
        requires key { IfSome ask.after (Fits sig.now (plain_ground_query query)) }
        requires count { IfSome ask.count (λ most. 1 ≤ most) }
        requires budget { ask.budget ≤ 2000000 }
        ensures signature { IfOk result (λ session. session.signature ≡ sig.now) }
        ensures laws { IfOk result (λ session. session.laws ≡ laws.now) }
        ensures query { IfOk result (λ session. session.query ≡ plain_ground_query query.entry) }
        ensures ask { IfOk result (λ session. session.ask ≡ ask) }
        ensures begun { (d : Description) (q : Query) →
            IfOk result (λ session. IsSessionOf session d q → After d q session []) }
        ensures more { IfOk result (λ session. HasMore session) }
    {
        let horizon = first_horizon(&query, &ask);
        let part = first_part(&query);
        let row = Vec::new(alloc);
        Ok(Session {
            alloc,
            lists: Lists::new(sig, laws),
            query,
            ask,
            horizon,
            met: false,
            row,
            phase: Phase::Opening { part },
        })
    }

    /// The row of the last event: a value index for each position.
    pub fn row(&self) -> &[u32]
        ensures { result.now ≡ self.now.row }
    {
        &self.row
    }

    /// How many axioms the section has whose heading was the last event: the clauses of its own lines are numbered behind them.
    pub fn axioms(&self) -> u32
        requires { (conditions : Bool) × (horizon : ℕ) × IsOpened self.now conditions horizon }
        ensures { (d : Description) (q : Query) (given : List Told) (conditions : Bool)
            (horizon : ℕ) → After d q self.now given → IsOpened self.now conditions horizon →
            result ≡ length ((axioms_of d q self.now.ask.after conditions horizon).clauses) }
    {
        match &self.phase {
            Phase::Searching { solver, .. } => solver.kernel().count(),
            _ => unreachable!(),
        }
    }

    // The search over the clauses of a section, at the horizon that is tried.
    fn solver(&self, part: Part) -> Result<Solver, Fault>
        requires { self.now.horizon ≤ last_at self.now.query self.now.ask.after }
        ensures made { (d : Description) (q : Query) → IsSessionOf self.now d q → IfOk result
            (λ solver. Holds (axioms_at d q self.now.ask self.now.horizon part) [] solver) }
        ensures rows { (d : Description) (q : Query) → IsSessionOf self.now d q →
            OnOk result (RowsAreHistories d q self.now.ask self.now.horizon part) }
        ensures within { (d : Description) (q : Query) → IsSessionOf self.now d q → OnOk result
            (opening_refusal d q self.now.ask self.now.horizon (is_conditions part) ≡ None) }
        ensures refused { (d : Description) (q : Query) → IsSessionOf self.now d q → IfErr result
            (IsRefusedBy (opening_refusal d q self.now.ask self.now.horizon (is_conditions part))) }
        ensures good { (d : Description) (q : Query) → IsSessionOf self.now d q →
            OnOk result (AreGoodAxioms (axioms_at d q self.now.ask self.now.horizon part)) }
        ensures ready { IfOk result (λ solver. solver.standing ≡ Ready) }
        ensures few { IfOk result (λ solver. IsWithin self.now.ask solver 0) }
        ensures fresh { IfOk result (λ solver. derived_count solver.kernel.entries ≡ 0) }
    {
        let key = key_of(&self.ask);
        let denies = denies_claim(part);
        let form = self
            .lists
            .form(self.alloc, &self.query, key, self.horizon, denies)?;
        Ok(solver_of(self.alloc, form)?)
    }

    // What comes next.
    fn stand(&mut self, phase: Phase)
        requires { IsReady self.old.ask self.old.horizon
            (last_at self.old.query self.old.ask.after) phase }
        ensures { self.new ≡ record self.old { phase = phase } }
    {
        let before = mem::replace(&mut self.phase, phase);
        drop(before);
    }

    // The end line of a section.
    fn close(&mut self, part: Part, word: EndWord, listed: u32) -> Event
        requires { self.old.horizon ≤ last_at self.old.query self.old.ask.after }
        ensures closed { self.new ≡ record self.old { phase = phases.Closed part word listed } }
        ensures event { result ≡ events.Log (lines.End word) }
    {
        self.stand(Phase::Closed { part, word, listed });
        Event::Log(LogLine::End(word))
    }

    // The heading of the section of a part, with all that its search needs.
    fn open(&mut self, part: Part) -> Result<Event, Fault>
        requires { self.old.horizon ≤ last_at self.old.query self.old.ask.after }
        ensures gives { (phase : PhaseSeen) → opens_at phase ≡ Some part →
            IfOk result (Gives (record self.old { phase = phase }) self.new) }
        ensures fault { (phase : PhaseSeen) → opens_at phase ≡ Some part →
            IfErr result (IsRightFault (record self.old { phase = phase })) }
    {
        search_laws();
        self.prepare()?;
        let solver = self.solver(part)?;
        self.stand(Phase::Searching {
            part,
            solver,
            listed: 0,
        });
        Ok(heading(part, self.horizon))
    }

    // Makes what the clause lists of longer horizons are put together from.
    fn prepare(&mut self) -> Result<(), OutOfMemory>
        ensures { self.new ≡ self.old }
    {
        self.lists.prepare(self.alloc, self.horizon)
    }

    // The heading of the next horizon's first section, or the ending behind the last one.
    fn begin(&mut self, part: Part) -> Result<Event, Fault>
        requires { self.old.phase ≡ phases.Ended }
        ensures gives { IfOk result
            (Gives (record self.old { phase = phases.Opening part }) self.new) }
        ensures fault { IfErr result
            (IsRightFault (record self.old { phase = phases.Opening part })) }
    {
        search_laws();
        if self.horizon > last_horizon(&self.query, &self.ask) {
            Ok(Event::Ended(last_ending(self.met, part)))
        } else {
            self.open(part)
        }
    }

    // The next history. It is not denied yet.
    fn history(&mut self, solver: Solver, listed: u32, row: Vec<u32>) -> Result<Event, Fault>
        requires low { self.old.horizon ≤ last_at self.old.query self.old.ask.after }
        requires found { HasFound solver }
        requires within { IsWithin self.old.ask solver listed }
        ensures event { IfOk result (λ event.
            event ≡ events.History self.old.horizon (listed + 1)) }
        ensures stands { OnOk result (self.new
            ≡ record self.old { row = row.items; phase = phases.Denying solver (listed + 1) }) }
        ensures fault { IfErr result (λ fault. fault ≡ faults.Refused (past limits.Histories)) }
        ensures many { OnErr result (listed ≡ most_histories) }
        ensures few { OnOk result (listed + 1 ≤ most_histories) }
    {
        if listed == LimitAt::Histories.number() {
            return Err(Fault::Refused(Refusal::past(LimitAt::Histories)));
        }
        self.row = row;
        self.stand(Phase::Denying {
            solver,
            listed: listed + 1,
        });
        Ok(Event::History {
            horizon: self.horizon,
            number: listed + 1,
        })
    }

    // Behind a history: it is the last one that was asked for, or it is denied.
    fn deny(&mut self, mut solver: Solver, listed: u32) -> Result<Event, Fault>
        requires { IsReady self.old.ask self.old.horizon
            (last_at self.old.query self.old.ask.after) (phases.Denying solver listed) }
        ensures gives { IfOk result
            (Gives (record self.old { phase = phases.Denying solver listed }) self.new) }
        ensures fault { IfErr result (λ fault. fault ≡ faults.OutOfMemory) }
    {
        search_laws();
        if is_asked(&self.ask, listed) {
            return Ok(self.close(Part::Histories, EndWord::Found, listed));
        }
        let row = Vec::from_slice(self.alloc, solver.row())?;
        solver.block_row()?;
        self.stand(Phase::Searching {
            part: Part::Histories,
            solver,
            listed,
        });
        Ok(Event::Log(LogLine::Block { row: Row::of(row) }))
    }

    // A row that was found: the next history; for a query with a claim the path that was looked for, and the end line.
    fn found(&mut self, part: Part, solver: Solver, listed: u32) -> Result<Event, Fault>
        requires low { self.old.horizon ≤ last_at self.old.query self.old.ask.after }
        requires found { HasFound solver }
        requires within { IsWithin self.old.ask solver listed }
        ensures gives { (before : SolverView) →
            IsStep self.old.ask.budget before solver answers.Found → IfOk result
            (Gives (record self.old { phase = phases.Searching part before listed }) self.new) }
        ensures fault { (before : SolverView) →
            IsStep self.old.ask.budget before solver answers.Found → IfErr result
            (IsRightFault (record self.old { phase = phases.Searching part before listed })) }
    {
        search_laws();
        let row = Vec::from_slice(self.alloc, solver.row())?;
        if is_listing(part) {
            return self.history(solver, listed, row);
        }
        self.row = row;
        Ok(self.close(part, EndWord::Found, listed))
    }

    // The next line of a section, or its next history.
    fn search(&mut self, part: Part, mut solver: Solver, listed: u32) -> Result<Event, Fault>
        requires { IsReady self.old.ask self.old.horizon
            (last_at self.old.query self.old.ask.after) (phases.Searching part solver listed) }
        ensures gives { IfOk result
            (Gives (record self.old { phase = phases.Searching part solver listed }) self.new) }
        ensures fault { IfErr result
            (IsRightFault (record self.old { phase = phases.Searching part solver listed })) }
    {
        search_laws();
        let budget = budget_of(&self.ask);
        if is_refuted(&solver) {
            return Ok(self.close(part, EndWord::Empty, listed));
        }
        match solver.next(budget)? {
            Step::Line => {
                let line = derived_line(self.alloc, solver.kernel())?;
                self.stand(Phase::Searching {
                    part,
                    solver,
                    listed,
                });
                Ok(Event::Log(line))
            }
            Step::Found => self.found(part, solver, listed),
            Step::Refuted => {
                let line = derived_line(self.alloc, solver.kernel())?;
                self.stand(Phase::Refuted { part, listed });
                Ok(Event::Log(line))
            }
            Step::Spent => Ok(self.close(part, EndWord::Spent, listed)),
        }
    }

    // The next horizon, whose first section is of this part.
    fn pass(&mut self, part: Part, met: bool)
        requires { self.old.horizon ≤ last_at self.old.query self.old.ask.after }
        ensures { self.new ≡ record self.old {
          horizon = self.old.horizon + 1;
          met = met;
          phase = phases.Opening part;
        } }
    {
        self.stand(Phase::Opening { part });
        self.horizon += 1;
        self.met = met;
    }

    // What is said of a horizon that has no path to be found.
    fn exhaust(&mut self, part: Part, listed: u32) -> Event
        requires low { self.old.horizon ≤ last_at self.old.query self.old.ask.after }
        requires over { self.old.phase ≡ phases.Ended }
        ensures { Gives
            (record self.old { phase = phases.Closed part words.Empty listed }) self.new result }
    {
        search_laws();
        let horizon = self.horizon;
        let met = self.met;
        match part {
            Part::Histories => {
                if has_none(&self.ask, listed) {
                    self.pass(Part::Histories, met);
                    Event::NoHistory { horizon }
                } else {
                    Event::Ended(Ending::Complete { horizon, listed })
                }
            }
            Part::Conditions => {
                self.pass(Part::Conditions, met);
                Event::NoConditions { horizon }
            }
            Part::Claim => {
                self.pass(Part::Conditions, true);
                Event::Holds { horizon }
            }
        }
    }

    // What comes behind an end line that says that a row was found.
    fn stop(&mut self, part: Part, listed: u32) -> Result<Event, Fault>
        requires low { self.old.horizon ≤ last_at self.old.query self.old.ask.after }
        requires over { self.old.phase ≡ phases.Ended }
        ensures gives { IfOk result
            (Gives (record self.old { phase = phases.Closed part words.Found listed }) self.new) }
        ensures fault { IfErr result
            (IsRightFault (record self.old { phase = phases.Closed part words.Found listed })) }
    {
        search_laws();
        let horizon = self.horizon;
        match part {
            Part::Histories => Ok(Event::Ended(Ending::Asked { horizon, listed })),
            Part::Conditions => self.open(Part::Claim),
            Part::Claim => {
                self.stand(Phase::Failing);
                Ok(Event::Counterexample { horizon })
            }
        }
    }

    // What comes behind an end line.
    fn conclude(&mut self, part: Part, word: EndWord, listed: u32) -> Result<Event, Fault>
        requires low { self.old.horizon ≤ last_at self.old.query self.old.ask.after }
        requires over { self.old.phase ≡ phases.Ended }
        ensures gives { IfOk result
            (Gives (record self.old { phase = phases.Closed part word listed }) self.new) }
        ensures fault { IfErr result
            (IsRightFault (record self.old { phase = phases.Closed part word listed })) }
    {
        search_laws();
        let horizon = self.horizon;
        match word {
            EndWord::Empty => Ok(self.exhaust(part, listed)),
            EndWord::Found => self.stop(part, listed),
            EndWord::Spent => Ok(Event::Ended(Ending::Spent { horizon, listed })),
        }
    }

    // What was to come next.
    fn take(&mut self) -> Phase
        ensures taken { result ≡ self.old.phase }
        ensures left { self.new ≡ record self.old { phase = phases.Ended } }
        ensures ready { IsReady self.old.ask self.old.horizon
            (last_at self.old.query self.old.ask.after) result }
    {
        mem::replace(&mut self.phase, Phase::Ended)
    }

    // The next event.
    fn step(&mut self) -> Result<Event, Fault>
        requires { HasMore self.old }
        ensures gives { IfOk result (Gives self.old self.new) }
        ensures fault { IfErr result (IsRightFault self.old) }
    {
        search_laws();
        let _ = &self.alloc;
        match self.take() {
            Phase::Opening { part } => self.begin(part),
            Phase::Searching {
                part,
                solver,
                listed,
            } => self.search(part, solver, listed),
            Phase::Denying { solver, listed } => self.deny(solver, listed),
            Phase::Refuted { part, listed } => Ok(self.close(part, EndWord::Empty, listed)),
            Phase::Closed { part, word, listed } => self.conclude(part, word, listed),
            Phase::Failing => Ok(Event::Ended(Ending::ClaimFails)),
            Phase::Ended => unreachable!(),
        }
    }

    /// The next event. Where it is a history or a counterexample, `row` has its row. Refuses the first limit that the rules or
    /// clauses of a section pass when it opens (14, rules, variables, axiom clauses or axiom literals), and a history past the
    /// 100,000,000 that may be told at a horizon (14, histories). After an error, as after the ending, nothing more is told.
    pub fn next(&mut self) -> Result<Event, Fault>
        requires { HasMore self.old }
        ensures event { (d : Description) (q : Query) (given : List Told) →
            IsSessionOf self.old d q → After d q self.old given → IfOk result (λ event. After
            d q self.new (given ++ with_row event self.new.row ∷ []) × IsSessionOf self.new d q) }
        ensures refused { IfErr result (IsRightFault self.old) }
        ensures opened { IfOk result (OpensWithin self.old) }
        ensures same { OnOk result (IsSame self.old self.new) }
        ensures more { IfOk result (λ event. ((ending : EndingSeen) → event ≢ events.Ended ending) →
            HasMore self.new) }
        ensures less { OnOk result (left_of self.new < left_of self.old) }
        ensures short { IfOk result IsShortEvent }
        ensures good { IfOk result (OpensGood self.old) }
        ensures few { IfOk result IsFewEvent }
        ensures heading { IfOk result (StandsOpened self.new) }
    {
        self.step()
    }
}
