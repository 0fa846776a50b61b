//! A search for the rows of one section's clauses, whatever they stand for.
ghost use Rattle.std.specs.Prelude.{◌≡◌, ℕ, ◌+◌, ◌<◌, ◌≤◌, [], Option, length, IfOk, IfErr, IfSome, OnErr, OnOk};
ghost use Rattle.cc_cdcl.specs.Solvers.{SolverView, IsStep};
ghost use Rattle.cc_cdcl.specs.declared.solver.Step.TheVariants as answers;
ghost use Rattle.cc_defs.specs.Limits.{most_histories};
ghost use Rattle.cc_defs.specs.Refusals.{past};
ghost use Rattle.cc_defs.specs.Runs.{Section};
ghost use Rattle.cc_defs.specs.Sections.{Axioms};
ghost use Rattle.cc_defs.specs.declared.log.LogLine.TheVariants as lines;
ghost use Rattle.cc_defs.specs.declared.refusal.Fault.TheVariants as faults;
ghost use Rattle.cc_defs.specs.declared.refusal.LimitAt.TheVariants as limits;
ghost use Rattle.cc_lists.specs.Sections.{open_section};
ghost use Rattle.cc_lists.specs.Subjects.{AreGoodAxioms};
ghost use Rattle.cc_query.specs.Sessions.{HasFound, IsWithin};
ghost use Rattle.cc_search.specs.declared.stage.Find.TheVariants as finds;
ghost use Rattle.cc_search.specs.declared.stage.Stage.TheVariants as stages;
ghost use Rattle.cc_search.specs.Searches.{Gives, GoesOn, HasMore, IsBehind, IsOver, IsReady, IsRightFault, IsShortFind, Stands, found_behind, left_of};

use crate::stage::{Find, Stage};
use cc_cdcl::{Solver, Step};
use cc_defs::{EndWord, Fault, LimitAt, LogLine, OutOfMemory, Refusal, Row};
use cc_form::Form;
use cc_query::theorems::search_laws;
use cc_query::{Ask, budget_of, derived_line, is_asked, is_refuted, solver_of};
use std::alloc::Global;
use std::marker::Model;
use std::mem;

/// A search for the rows of one section's clauses in ascending order, each once, within a budget of derived lines. It tells the
/// lines of its log and its rows one by one, and keeps no list of them.
pub struct Search {
    alloc: Global,
    // It asks for no key.
    ask: Ask,
    axioms: u32,
    // The last row.
    row: Vec<u32>,
    stage: Stage,
}

impl Model for Search {
    ghost use Rattle.cc_search.specs.Searches.{SearchView, IsSearch};

    ghost Value = { SearchView };

    ghost view = { λ s.
        record { ask = s.ask; axioms = s.axioms; row = s.row.items; stage = s.stage } };

    ghost invariant = { λ s.
        IsSearch (record { ask = s.ask; axioms = s.axioms; row = s.row.items; stage = s.stage }) };
}

// By hand, so that whoever lets a search go has one call there, and not a drop for each field.
impl Drop for Search {
    fn drop(self) {
        let Search {
            alloc: _,
            ask: _,
            axioms: _,
            row: _,
            stage,
        } = self;
        drop(stage);
    }
}

impl Search {
    /// A search over the clauses of a form, whose place it takes. `count` is how many rows are asked for, from 1, and without it
    /// all are; `budget` is how many derived lines the section may have, at most 2,000,000.
    pub fn of(
        alloc: Global,
        form: Form,
        count: Option<u32>,
        budget: u32,
    ) -> Result<Search, OutOfMemory>
        requires count { IfSome count (λ most. 1 ≤ most) }
        requires budget { budget ≤ 2000000 }
        ensures stands { IfOk result (λ made. Stands form count budget made (open_section [])) }
        ensures more { IfOk result (λ made. HasMore made) }
        ensures axioms { IfOk result (λ made. made.axioms ≡ length form.clauses) }
        ensures good { OnOk result (AreGoodAxioms form) }
    {
        search_laws();
        let axioms = form.count();
        let row = Vec::new(alloc);
        let solver = solver_of(alloc, form)?;
        Ok(Search {
            alloc,
            ask: Ask {
                count,
                budget,
                after: None,
            },
            axioms,
            row,
            stage: Stage::Searching { solver, listed: 0 },
        })
    }

    /// The row that was told last: a value index for each position.
    pub fn row(&self) -> &[u32]
        ensures { result.now ≡ self.now.row }
    {
        &self.row
    }

    /// How many axioms the section has: the clauses of its own lines are numbered behind them.
    pub fn axioms(&self) -> u32
        ensures value { result ≡ self.now.axioms }
        ensures axioms { (axioms : Axioms) (count : Option ℕ) (budget : ℕ) (section : Section) →
            Stands axioms count budget self.now section → result ≡ length axioms.clauses }
    {
        self.axioms
    }

    // What comes next.
    fn stand(&mut self, stage: Stage)
        requires { IsReady self.old.ask stage }
        ensures { self.new ≡ record self.old { stage = stage } }
    {
        self.stage = stage;
    }

    // The next row. It is not denied yet.
    fn tell(&mut self, solver: Solver, listed: u32, row: Vec<u32>) -> Result<Find, Fault>
        requires found { HasFound solver }
        requires within { IsWithin self.old.ask solver listed }
        requires over { IsOver self.old }
        ensures find { IfOk result (λ find. find ≡ finds.Row) }
        ensures stands { OnOk result (self.new
            ≡ record self.old { row = row.items; stage = stages.Denying solver (listed + 1) }) }
        ensures fault { IfErr result (λ fault. fault ≡ faults.Refused (past limits.Histories)) }
        ensures many { OnErr result (listed ≡ most_histories) }
        ensures few { OnOk result (listed + 1 ≤ most_histories) }
        ensures over { OnErr result (IsOver self.new) }
    {
        if listed == LimitAt::Histories.number() {
            return Err(Fault::Refused(Refusal::past(LimitAt::Histories)));
        }
        self.row = row;
        self.stand(Stage::Denying {
            solver,
            listed: listed + 1,
        });
        Ok(Find::Row)
    }

    // A row that was found.
    fn found(&mut self, solver: Solver, listed: u32) -> Result<Find, Fault>
        requires found { HasFound solver }
        requires within { IsWithin self.old.ask solver listed }
        requires over { IsOver self.old }
        ensures gives { (before : SolverView) →
            IsStep self.old.ask.budget before solver answers.Found → IfOk result
            (Gives (record self.old { stage = stages.Searching before listed }) self.new) }
        ensures fault { (before : SolverView) →
            IsStep self.old.ask.budget before solver answers.Found → IfErr result
            (IsRightFault (record self.old { stage = stages.Searching before listed })) }
        ensures over { OnErr result (IsOver self.new) }
    {
        search_laws();
        let row = Vec::from_slice(self.alloc, solver.row())?;
        self.tell(solver, listed, row)
    }

    // Behind a row: it is the last one that was asked for, or it is denied.
    fn deny(&mut self, mut solver: Solver, listed: u32) -> Result<Find, Fault>
        requires ready { IsReady self.old.ask (stages.Denying solver listed) }
        requires over { IsOver self.old }
        ensures gives { IfOk result
            (Gives (record self.old { stage = stages.Denying solver listed }) self.new) }
        ensures fault { IfErr result (λ fault. fault ≡ faults.OutOfMemory) }
        ensures over { OnErr result (IsOver self.new) }
    {
        search_laws();
        if is_asked(&self.ask, listed) {
            return Ok(Find::End(EndWord::Found));
        }
        let row = Vec::from_slice(self.alloc, solver.row())?;
        solver.block_row()?;
        self.stand(Stage::Searching { solver, listed });
        Ok(Find::Line(LogLine::Block { row: Row::of(row) }))
    }

    // The next line of the section, its next row, or its end.
    fn go_on(&mut self, mut solver: Solver, listed: u32) -> Result<Find, Fault>
        requires ready { IsReady self.old.ask (stages.Searching solver listed) }
        requires over { IsOver self.old }
        ensures gives { IfOk result
            (Gives (record self.old { stage = stages.Searching solver listed }) self.new) }
        ensures fault { IfErr result
            (IsRightFault (record self.old { stage = stages.Searching solver listed })) }
        ensures over { OnErr result (IsOver self.new) }
    {
        search_laws();
        let budget = budget_of(&self.ask);
        if is_refuted(&solver) {
            return Ok(Find::End(EndWord::Empty));
        }
        match solver.next(budget)? {
            Step::Line => {
                let line = derived_line(self.alloc, solver.kernel())?;
                self.stand(Stage::Searching { solver, listed });
                Ok(Find::Line(line))
            }
            Step::Found => self.found(solver, listed),
            Step::Refuted => {
                let line = derived_line(self.alloc, solver.kernel())?;
                self.stand(Stage::Refuted);
                Ok(Find::Line(line))
            }
            Step::Spent => Ok(Find::End(EndWord::Spent)),
        }
    }

    // What was to come next.
    fn take(&mut self) -> Stage
        ensures taken { result ≡ self.old.stage }
        ensures left { self.new ≡ record self.old { stage = stages.Ended } }
        ensures ready { IsReady self.old.ask result }
    {
        mem::replace(&mut self.stage, Stage::Ended)
    }

    // What is told next.
    fn step(&mut self) -> Result<Find, Fault>
        requires { HasMore self.old }
        ensures gives { IfOk result (Gives self.old self.new) }
        ensures fault { IfErr result (IsRightFault self.old) }
        ensures over { OnErr result (IsOver self.new) }
    {
        search_laws();
        let _ = &self.alloc;
        match self.take() {
            Stage::Searching { solver, listed } => self.go_on(solver, listed),
            Stage::Denying { solver, listed } => self.deny(solver, listed),
            Stage::Refuted => Ok(Find::End(EndWord::Empty)),
            Stage::Ended => unreachable!(),
        }
    }

    /// A derived line; a row, which `row` then lends; a block of the row that was told last; or the end of the section. Refuses
    /// only a row past the 100,000,000 that may be told (14, histories). After an error, as after the end, nothing more is told.
    pub fn next(&mut self) -> Result<Find, Fault>
        requires { HasMore self.old }
        ensures tells { (axioms : Axioms) (count : Option ℕ) (budget : ℕ) (section : Section) →
            Stands axioms count budget self.old section → IfOk result (λ find. IsBehind section find
            × Stands axioms count budget self.new (found_behind section self.new.row find)) }
        ensures refused { IfErr result (IsRightFault self.old) }
        ensures short { IfOk result IsShortFind }
        ensures less { OnOk result (left_of self.new < left_of self.old) }
        ensures goes { IfOk result (GoesOn self.new) }
        ensures over { OnErr result (IsOver self.new) }
    {
        self.step()
    }
}
