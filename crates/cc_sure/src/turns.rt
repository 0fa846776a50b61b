//! A run on certain and possible atoms, turn by turn.
ghost use Rattle.std.specs.Prelude.{◌≡◌, ◌≤◌, ◌<◌, ◌+◌, ◌++◌, ◌∷◌, [], ℕ, Bool, List, length, IfOk, IfErr, IsNone, OnOk, OnErr, Some, None, slice_get, true, false};
ghost use Rattle.cc_arena.specs.GroundViews.{plain_ground_query};
ghost use Rattle.cc_defs.specs.Description.{Description};
ghost use Rattle.cc_defs.specs.Limits.{most_steps, most_variables};
ghost use Rattle.cc_defs.specs.Refusals.{IsRefusedBy};
ghost use Rattle.cc_defs.specs.Resolved.{Query};
ghost use Rattle.cc_defs.specs.Sections.{Axioms};
ghost use Rattle.cc_defs.specs.declared.refusal.Fault.TheVariants as faults;
ghost use Rattle.cc_form.specs.Building.{count_refusal};
ghost use Rattle.cc_form.specs.Forms.{section_refusal, with_atom};
ghost use Rattle.cc_form.specs.Queries.{IsQueryAt};
ghost use Rattle.cc_search.specs.declared.least.Outcome.TheVariants as outcomes;
ghost use Rattle.cc_search.specs.Outcomes.{IsOutcome};
ghost use Rattle.cc_sure.specs.Outcomes.{AreAnswersFor, SomeHas};
ghost use Rattle.cc_sure.specs.SureRuns.{SureRun, IsNew};
ghost use Rattle.cc_sure.specs.Sures.{AreKnown, Gives, GoesOn, HasMore, IsAsking, IsFewTurn, IsFormOf, IsGoodTurn, IsOpened, IsOver, IsReady, IsRightFault, IsSame, IsShortTurn, IsSureOf, PassesTo, Stands, TellsNext, left_of, nothing_told};
ghost use Rattle.cc_sure.specs.declared.turn.SureTurn.TheVariants as turns;
ghost use Rattle.cc_sure.specs.declared.phase.Phase.TheVariants as phases;
ghost use Rattle.cc_theory.specs.Theories.{AreLawsFor};

use crate::answer::Answer;
use crate::examples::{answers_of, some_has};
use crate::phase::Phase;
use crate::turn::SureTurn;
use cc_arena::{GroundQuery, Laws};
use cc_defs::{Fault, List, LogLine, OutOfMemory, Row, Sig};
use cc_form::Form;
use cc_lists::form_at;
use cc_search::{Outcome, search_one};
use std::alloc::Global;
use std::marker::Model;
use std::mem;

/// A run on what is certain, possible and impossible at the first horizon of a query that has a history: which atoms all of its
/// histories have, which only some, and which none. It tells what it finds turn by turn, and each call makes one search at most,
/// within the budget. Of the horizon it holds the axioms and the examples.
#[derive(Drop)]
pub struct SureTurns<'a> {
    alloc: Global,
    sig: &'a Sig,
    laws: &'a Laws<'a>,
    query: &'a GroundQuery<'a>,
    budget: u32,
    horizon: u32,
    examples: Vec<Row>,
    position: u64,
    // Of the values of the position that were tried: whether no history has it.
    never: Vec<bool>,
    phase: Phase,
}

impl<'a> Model for SureTurns<'a> {
    ghost use Rattle.cc_arena.specs.GroundViews.{plain_ground_query};
    ghost use Rattle.cc_sure.specs.Sures.{SureView, IsSure};

    ghost Value = { SureView };

    ghost view = { λ s. record {
      signature = s.sig.now;
      laws = s.laws.now;
      query = plain_ground_query s.query.now;
      budget = s.budget;
      horizon = s.horizon;
      examples
          = s.examples.items;
      position = s.position;
      never = s.never.items;
      phase = s.phase;
    } };

    ghost invariant = { λ s. IsSure (record {
      signature = s.sig.now;
      laws = s.laws.now;
      query = plain_ground_query s.query.now;
      budget = s.budget;
      horizon = s.horizon;
      examples
          = s.examples.items;
      position = s.position;
      never = s.never.items;
      phase = s.phase;
    }) };
}

/// How many values a position has, where the axioms have it.
fn size_at(form: &Form, position: u64) -> Option<u32>
    ensures { result ≡ slice_get form.now.sizes position }
{
    form.sizes().get(position as usize).copied()
}

impl<'a> SureTurns<'a> {
    /// A run on a query without a claim. `budget` is how many derived lines each search may have, at most 2,000,000.
    pub fn new(
        alloc: Global,
        sig: &'a Sig,
        laws: &'a Laws<'a>,
        query: &'a GroundQuery<'a>,
        budget: u32,
    ) -> SureTurns<'a>
        requires laws { AreLawsFor sig.now laws.now }
        requires ordered { query.now.lo ≤ query.now.hi }
        requires most { query.now.hi ≤ most_steps }
        requires steps { (horizon : ℕ) → query.now.lo ≤ horizon →
            horizon ≤ query.now.hi → IsQueryAt sig.now horizon (plain_ground_query query.now) }
        requires claim { IsNone query.now.claim }
        requires budget { budget ≤ 2000000 }
        ensures signature { result.signature ≡ sig.now }
        ensures laws { result.laws ≡ laws.now }
        ensures query { result.query ≡ plain_ground_query query.now }
        ensures budget { result.budget ≡ budget }
        ensures begun { (d : Description) (q : Query) →
            IsSureOf result d q → Stands d q result nothing_told }
        ensures more { HasMore result }
    {
        SureTurns {
            alloc,
            sig,
            laws,
            query,
            budget,
            horizon: query.lo,
            examples: Vec::new(alloc),
            position: 0,
            never: Vec::new(alloc),
            phase: Phase::Looking,
        }
    }

    /// The horizon that it is at.
    pub fn horizon(&self) -> u32
        ensures { result ≡ self.now.horizon }
    {
        self.horizon
    }

    // What was to come next.
    fn take(&mut self) -> Phase
        ensures taken { result ≡ self.old.phase }
        ensures left { self.new ≡ record self.old { phase = phases.Ended } }
        ensures ready { IsReady self.old result }
    {
        mem::replace(&mut self.phase, Phase::Ended)
    }

    // What comes next.
    fn stand(&mut self, phase: Phase)
        requires { IsReady self.old phase }
        ensures { self.new ≡ record self.old { phase = phase } }
    {
        self.phase = phase;
    }

    // The axioms of the horizon.
    fn form(&self) -> Result<Form, Fault>
        requires { self.now.horizon ≤ self.now.query.hi }
        ensures made { (d : Description) (q : Query) →
            IsSureOf self.now d q → IfOk result (IsFormOf d q self.now.horizon) }
        ensures refused { (d : Description) (q : Query) → IsSureOf self.now d q →
            IfErr result (IsRefusedBy (section_refusal d q self.now.horizon true None)) }
    {
        form_at(
            self.alloc,
            self.sig,
            self.laws,
            self.query,
            None,
            self.horizon,
            true,
        )
    }

    // Adds an example, and returns a copy of it.
    fn add_example(&mut self, row: Row) -> Result<Row, OutOfMemory>
        requires over { IsOver self.old }
        ensures copied { IfOk result (λ copy. copy ≡ row) }
        ensures added { OnOk result
            (self.new ≡ record self.old { examples = self.old.examples ++ row ∷ [] }) }
        ensures over { IsOver self.new }
        ensures same { IsSame self.old self.new }
    {
        let copy = row.copy(self.alloc)?;
        self.examples.push(row)?;
        Ok(copy)
    }

    // Notes of the value that is next whether no history has it.
    fn add_tried(&mut self, never: bool) -> Result<(), OutOfMemory>
        requires over { IsOver self.old }
        ensures added { OnOk result
            (self.new ≡ record self.old { never = self.old.never ++ never ∷ [] }) }
        ensures over { IsOver self.new }
        ensures same { IsSame self.old self.new }
    {
        self.never.push(never)?;
        Ok(())
    }

    // Goes to the next position.
    fn pass_position(&mut self)
        requires over { IsOver self.old }
        requires most { self.old.position < most_variables }
        ensures { self.new ≡ record self.old { position = self.old.position + 1; never = [] } }
    {
        self.position += 1;
        self.never.clear();
    }

    // How many examples there are.
    fn count(&self) -> u32
        requires { length self.now.examples ≤ most_variables }
        ensures { result ≡ length self.now.examples }
    {
        self.examples.len() as u32
    }

    // The position, and the value that is next.
    fn atom(&self) -> (u64, u32)
        requires { length self.now.never ≤ most_variables }
        ensures position { result.0 ≡ self.now.position }
        ensures value { result.1 ≡ length self.now.never }
    {
        (self.position, self.never.len() as u32)
    }

    // The first example of the horizon.
    fn begin(&mut self, form: Form, row: Row) -> Result<SureTurn, OutOfMemory>
        requires over { IsOver self.old }
        requires ready { IsReady self.old phases.Looking }
        requires low { self.old.horizon ≤ self.old.query.hi }
        requires opened { IsOpened self.old form }
        requires found { IsOutcome form self.old.budget (outcomes.Found row) }
        ensures gives { IfOk result (Gives (record self.old { phase = phases.Looking }) self.new) }
        ensures over { OnErr result (IsOver self.new) }
        ensures same { IsSame self.old self.new }
    {
        let _last = form.variables();
        let row = self.add_example(row)?;
        self.stand(Phase::Asking(form));
        Ok(SureTurn::Example { number: 1, row })
    }

    // The horizon has no history.
    fn pass(&mut self) -> SureTurn
        requires over { IsOver self.old }
        requires ready { IsReady self.old phases.Looking }
        requires low { self.old.horizon ≤ self.old.query.hi }
        ensures turn { result ≡ turns.NoHistory self.old.horizon }
        ensures few { self.old.horizon ≤ most_steps }
        ensures new { self.new
            ≡ record self.old { horizon = self.old.horizon + 1; phase = phases.Looking } }
    {
        let horizon = self.horizon;
        self.horizon = horizon + 1;
        self.stand(Phase::Looking);
        SureTurn::NoHistory { horizon }
    }

    // What is told of the search for a history.
    fn looked(&mut self, form: Form, outcome: Outcome) -> Result<SureTurn, OutOfMemory>
        requires over { IsOver self.old }
        requires ready { IsReady self.old phases.Looking }
        requires low { self.old.horizon ≤ self.old.query.hi }
        requires opened { IsOpened self.old form }
        requires outcome { IsOutcome form self.old.budget outcome }
        ensures gives { IfOk result (Gives (record self.old { phase = phases.Looking }) self.new) }
        ensures over { OnErr result (IsOver self.new) }
        ensures same { IsSame self.old self.new }
    {
        match outcome {
            Outcome::Found(row) => self.begin(form, row),
            Outcome::Empty(_) => Ok(self.pass()),
            Outcome::Spent(lines) => Ok(SureTurn::Spent { atom: None, lines }),
        }
    }

    // Searches for the least history by the axioms.
    fn search(&self, form: &Form) -> Result<Outcome, Fault>
        ensures outcome { IfOk result (IsOutcome form.now self.now.budget) }
        ensures fault { IfErr result (λ fault. fault ≡ faults.OutOfMemory) }
    {
        let searched = form.copy(self.alloc)?;
        search_one(self.alloc, searched, self.budget)
    }

    // Looks for a history of the horizon.
    fn look_at(&mut self) -> Result<SureTurn, Fault>
        requires over { IsOver self.old }
        requires ready { IsReady self.old phases.Looking }
        requires low { self.old.horizon ≤ self.old.query.hi }
        ensures gives { IfOk result (Gives (record self.old { phase = phases.Looking }) self.new) }
        ensures fault { IfErr result (IsRightFault (record self.old { phase = phases.Looking })) }
        ensures over { OnErr result (IsOver self.new) }
        ensures same { IsSame self.old self.new }
    {
        let form = self.form()?;
        let outcome = self.search(&form)?;
        Ok(self.looked(form, outcome)?)
    }

    // Looks for a history, where there is one more horizon.
    fn look(&mut self) -> Result<SureTurn, Fault>
        requires over { IsOver self.old }
        requires ready { IsReady self.old phases.Looking }
        ensures gives { IfOk result (Gives (record self.old { phase = phases.Looking }) self.new) }
        ensures fault { IfErr result (IsRightFault (record self.old { phase = phases.Looking })) }
        ensures over { OnErr result (IsOver self.new) }
        ensures same { IsSame self.old self.new }
    {
        if self.horizon > self.query.hi {
            Ok(SureTurn::NoneAtAll)
        } else {
            self.look_at()
        }
    }

    // Whether an example has the next value of a position with so many.
    fn is_known(&self, size: u32) -> bool
        ensures known { result ≡ true → (length self.now.never < size)
            × SomeHas self.now.examples self.now.position (length self.now.never) }
        ensures new { result ≡ false → length self.now.never < size →
            IsNew self.now.examples self.now.position (length self.now.never) }
    {
        let value = self.never.len();
        value < size as usize && some_has(&self.examples, self.position, value as u32)
    }

    // Goes over the values that an example has.
    fn skip(&mut self, form: &Form, size: u32) -> Result<(), OutOfMemory>
        requires over { IsOver self.old }
        requires asking { IsAsking self.old form.now }
        requires size { slice_get form.now.sizes self.old.position ≡ Some size }
        ensures passes { OnOk result (PassesTo form.now self.old self.new) }
        ensures new { OnOk result (length self.new.never < size →
            IsNew self.new.examples self.new.position (length self.new.never)) }
        ensures over { IsOver self.new }
        ensures same { IsSame self.old self.new }
    {
        while self.is_known(size) {
            self.add_tried(false)?;
        }
        Ok(())
    }

    // Adds an example, which has the value that is next, and returns a copy of it.
    fn add_found(&mut self, row: Row) -> Result<Row, OutOfMemory>
        requires over { IsOver self.old }
        ensures copied { IfOk result (λ copy. copy ≡ row) }
        ensures added { OnOk result (self.new ≡ record self.old {
          examples = self.old.examples ++ row ∷ [];
          never = self.old.never ++ false ∷ [];
        }) }
        ensures over { IsOver self.new }
        ensures same { IsSame self.old self.new }
    {
        self.add_tried(false)?;
        self.add_example(row)
    }

    // A further example, which has the value that is next.
    fn add(&mut self, form: Form, row: Row) -> Result<SureTurn, OutOfMemory>
        requires over { IsOver self.old }
        requires asking { IsAsking self.old form }
        requires next { (size : ℕ) × (slice_get form.sizes self.old.position ≡ Some size)
            × (length self.old.never < size) }
        requires new { IsNew self.old.examples self.old.position (length self.old.never) }
        requires within { count_refusal
            (with_atom form self.old.position (length self.old.never)).clauses ≡ None }
        requires found { IsOutcome (with_atom form self.old.position (length self.old.never))
            self.old.budget (outcomes.Found row) }
        ensures gives { IfOk result
            (Gives (record self.old { phase = phases.Asking form }) self.new) }
        ensures over { OnErr result (IsOver self.new) }
        ensures same { IsSame self.old self.new }
    {
        let row = self.add_found(row)?;
        let number = self.count();
        self.stand(Phase::Asking(form));
        Ok(SureTurn::Example { number, row })
    }

    // No history has the value that is next.
    fn deny(&mut self, form: Form, lines: List<LogLine>) -> Result<SureTurn, OutOfMemory>
        requires over { IsOver self.old }
        requires asking { IsAsking self.old form }
        requires next { (size : ℕ) × (slice_get form.sizes self.old.position ≡ Some size)
            × (length self.old.never < size) }
        requires new { IsNew self.old.examples self.old.position (length self.old.never) }
        requires within { count_refusal
            (with_atom form self.old.position (length self.old.never)).clauses ≡ None }
        requires none { IsOutcome (with_atom form self.old.position (length self.old.never))
            self.old.budget (outcomes.Empty lines) }
        ensures gives { IfOk result
            (Gives (record self.old { phase = phases.Asking form }) self.new) }
        ensures over { OnErr result (IsOver self.new) }
        ensures same { IsSame self.old self.new }
    {
        let (position, value) = self.atom();
        self.add_tried(true)?;
        self.stand(Phase::Asking(form));
        Ok(SureTurn::Impossible {
            position,
            value,
            lines,
        })
    }

    // What is told of the search for a history that has the value that is next.
    fn tried(&mut self, form: Form, outcome: Outcome) -> Result<SureTurn, OutOfMemory>
        requires over { IsOver self.old }
        requires asking { IsAsking self.old form }
        requires next { (size : ℕ) × (slice_get form.sizes self.old.position ≡ Some size)
            × (length self.old.never < size) }
        requires new { IsNew self.old.examples self.old.position (length self.old.never) }
        requires within { count_refusal
            (with_atom form self.old.position (length self.old.never)).clauses ≡ None }
        requires outcome { IsOutcome
            (with_atom form self.old.position (length self.old.never)) self.old.budget outcome }
        ensures gives { IfOk result
            (Gives (record self.old { phase = phases.Asking form }) self.new) }
        ensures over { OnErr result (IsOver self.new) }
        ensures same { IsSame self.old self.new }
    {
        let (position, value) = self.atom();
        match outcome {
            Outcome::Found(row) => self.add(form, row),
            Outcome::Empty(lines) => self.deny(form, lines),
            Outcome::Spent(lines) => Ok(SureTurn::Spent {
                atom: Some((position, value)),
                lines,
            }),
        }
    }

    // Searches for the least history that has an atom.
    fn search_with(&self, form: &Form, position: u64, value: u32) -> Result<Outcome, Fault>
        requires { (size : ℕ)
            × (slice_get form.now.sizes position ≡ Some size) × (value < size) }
        ensures outcome { IfOk result
            (IsOutcome (with_atom form.now position value) self.now.budget) }
        ensures within { OnOk result
            (count_refusal (with_atom form.now position value).clauses ≡ None) }
        ensures refused { IfErr result
            (IsRefusedBy (count_refusal (with_atom form.now position value).clauses)) }
    {
        let searched = form.with_atom(self.alloc, position, value)?;
        search_one(self.alloc, searched, self.budget)
    }

    // Looks for a history that has the value that is next.
    fn try_value(&mut self, form: Form) -> Result<SureTurn, Fault>
        requires over { IsOver self.old }
        requires asking { IsAsking self.old form }
        requires next { (size : ℕ) × (slice_get form.sizes self.old.position ≡ Some size)
            × (length self.old.never < size) }
        requires new { IsNew self.old.examples self.old.position (length self.old.never) }
        ensures gives { IfOk result
            (Gives (record self.old { phase = phases.Asking form }) self.new) }
        ensures fault { IfErr result
            (IsRightFault (record self.old { phase = phases.Asking form })) }
        ensures over { OnErr result (IsOver self.new) }
        ensures same { IsSame self.old self.new }
    {
        let (position, value) = self.atom();
        let outcome = self.search_with(&form, position, value)?;
        Ok(self.tried(form, outcome)?)
    }

    // What is answered of each value of the position.
    fn settled(&self) -> Result<List<Answer>, OutOfMemory>
        requires few { length self.now.examples ≤ most_variables }
        requires short { length self.now.never ≤ most_variables }
        requires known { AreKnown self.now }
        ensures answers { IfOk result
            (AreAnswersFor self.now.examples self.now.position self.now.never 0) }
        ensures all { IfOk result (λ answers. length answers ≡ length self.now.never) }
    {
        answers_of(self.alloc, &self.examples, self.position, &self.never)
    }

    // The answers of a position all of whose values were tried.
    fn settle(&mut self, form: Form) -> Result<SureTurn, OutOfMemory>
        requires over { IsOver self.old }
        requires asking { IsAsking self.old form }
        requires all { slice_get form.sizes self.old.position ≡ Some (length self.old.never) }
        ensures gives { IfOk result
            (Gives (record self.old { phase = phases.Asking form }) self.new) }
        ensures over { OnErr result (IsOver self.new) }
        ensures same { IsSame self.old self.new }
    {
        let (position, _) = self.atom();
        let answers = self.settled()?;
        self.pass_position();
        self.stand(Phase::Asking(form));
        Ok(SureTurn::Answers { position, answers })
    }

    // The next value, or the answers of the position.
    fn ask_at(&mut self, form: Form, size: u32) -> Result<SureTurn, Fault>
        requires over { IsOver self.old }
        requires asking { IsAsking self.old form }
        requires size { slice_get form.sizes self.old.position ≡ Some size }
        requires new { length self.old.never < size →
            IsNew self.old.examples self.old.position (length self.old.never) }
        ensures gives { IfOk result
            (Gives (record self.old { phase = phases.Asking form }) self.new) }
        ensures fault { IfErr result
            (IsRightFault (record self.old { phase = phases.Asking form })) }
        ensures over { OnErr result (IsOver self.new) }
        ensures same { IsSame self.old self.new }
    {
        if self.never.len() < size as usize {
            self.try_value(form)
        } else {
            Ok(self.settle(form)?)
        }
    }

    // What is told next of the position.
    fn ask_size(&mut self, form: Form, size: u32) -> Result<SureTurn, Fault>
        requires over { IsOver self.old }
        requires asking { IsAsking self.old form }
        requires size { slice_get form.sizes self.old.position ≡ Some size }
        ensures gives { IfOk result
            (Gives (record self.old { phase = phases.Asking form }) self.new) }
        ensures fault { IfErr result
            (IsRightFault (record self.old { phase = phases.Asking form })) }
        ensures over { OnErr result (IsOver self.new) }
        ensures same { IsSame self.old self.new }
    {
        self.skip(&form, size)?;
        self.ask_at(form, size)
    }

    // What is told next of the positions.
    fn ask(&mut self, form: Form) -> Result<SureTurn, Fault>
        requires over { IsOver self.old }
        requires asking { IsAsking self.old form }
        ensures gives { IfOk result
            (Gives (record self.old { phase = phases.Asking form }) self.new) }
        ensures fault { IfErr result
            (IsRightFault (record self.old { phase = phases.Asking form })) }
        ensures over { OnErr result (IsOver self.new) }
        ensures same { IsSame self.old self.new }
    {
        match size_at(&form, self.position) {
            Some(size) => self.ask_size(form, size),
            None => Ok(SureTurn::Complete),
        }
    }

    // The next turn.
    fn step(&mut self) -> Result<SureTurn, Fault>
        requires { HasMore self.old }
        ensures gives { IfOk result (Gives self.old self.new) }
        ensures fault { IfErr result (IsRightFault self.old) }
        ensures over { OnErr result (IsOver self.new) }
        ensures same { IsSame self.old self.new }
    {
        match self.take() {
            Phase::Looking => self.look(),
            Phase::Asking(form) => self.ask(form),
            Phase::Ended => unreachable!(),
        }
    }

    /// The next turn. Refuses the first limit that the rules or clauses of a horizon pass (14, rules, variables, axiom clauses or
    /// axiom literals), or its clauses with that of an atom (14, axiom clauses or axiom literals). After an error, as after the
    /// ending, nothing more is told.
    pub fn next(&mut self) -> Result<SureTurn, Fault>
        requires { HasMore self.old }
        ensures tells { (d : Description) (q : Query) (run : SureRun) → IsSureOf self.old d q →
            Stands d q self.old run → IfOk result (TellsNext d q self.new run) }
        ensures same { IsSame self.old self.new }
        ensures refused { IfErr result (IsRightFault self.old) }
        ensures less { OnOk result (left_of self.new < left_of self.old) }
        ensures goes { IfOk result (GoesOn self.new) }
        ensures over { OnErr result (IsOver self.new) }
        ensures short { IfOk result IsShortTurn }
        ensures few { IfOk result IsFewTurn }
        ensures good { (d : Description) (q : Query) → IsSureOf self.old d q →
            IfOk result (IsGoodTurn d q self.new.horizon) }
    {
        self.step()
    }
}
