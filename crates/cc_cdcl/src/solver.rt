//! The search for the rows of clauses: derived clauses, and the least row that no block denies yet.
ghost use Rattle.std.specs.Prelude.{◌≡◌, ◌≢◌, ℕ, ◌+◌, ◌<◌, ◌≤◌, ◌^◌, List, IfOk, OnOk, OnErr, length, sum};
ghost use Rattle.cc_defs.specs.Assignments.{HasOpen};
ghost use Rattle.cc_defs.specs.Limits.{most_variables};
ghost use Rattle.cc_defs.specs.Rows.{IsRow};
ghost use Rattle.cc_defs.specs.Sections.{row_denial};
ghost use Rattle.cc_kernel.specs.Kernels.{AreAxioms, added, derived_count};
ghost use Rattle.cc_trail.specs.Steps.{values_of};
ghost use Rattle.cc_cdcl.specs.LeastRows.{row_of};
ghost use Rattle.cc_cdcl.specs.Sets.{assignment_of};
ghost use Rattle.cc_cdcl.specs.Solvers.{AreEarned, HasPositions, IsLeftByFailure, IsLeftByFailedBlock, IsStep, Ready, Found, axiom_clauses};

use crate::analysis::{block, learn, refute};
use crate::choice::{Cursor, true_value};
use crate::probe::Probe;
use crate::search::{begin, count_line, search_on};
use crate::shortening::Shortening;
use crate::theorems::{earned_lines_are_few, least_row_is_found};
use cc_defs::{Lit, OutOfMemory};
use cc_kernel::{Kernel, Origin};
use cc_trail::Trail;
use std::alloc::Global;
use std::marker::Model;

/// What a search came to.
#[derive(Clone, Copy, PartialEq, Eq)]
pub enum Step {
    /// A clause was derived that is not empty.
    Line,
    /// A row was found, which is the least one.
    Found,
    /// The empty clause is there, so there is no row.
    Refuted,
    /// One more derived clause would be more than the budget.
    Spent,
}

// Where a search stands.
#[derive(Clone, Copy)]
enum State {
    Ready,
    Found,
    Refuted,
    Failed,
}

// A search by its parts.
#[derive(Drop)]
struct Parts {
    sizes: Vec<u32>,
    kernel: Kernel,
    trail: Trail,
    // By level: where the choice behind it is looked for.
    cursors: Vec<Cursor>,
    // What shortening a line needs.
    shortening: Shortening,
    // What is decided first, and whether that is over.
    probe: Probe,
    // The row that was found; its room is taken at once.
    row: Vec<u32>,
    // Room for the clause that denies the row.
    denial: Vec<Lit>,
    // How many clauses are derived.
    derived: u32,
    state: State,
}

impl Model for Parts {
    ghost use Rattle.cc_cdcl.specs.Solvers.{SolverView};

    ghost Value = { SolverView };

    ghost use Rattle.cc_cdcl.specs.SolverParts.{view_of, IsSolver};

    ghost view = { view_of };

    ghost invariant = { IsSolver };
}

/// A search for rows of positions, by derived clauses, over a kernel of its own.
#[derive(Drop)]
pub struct Solver {
    // They are large; in a box, a search that is moved is no more than an address.
    parts: Box<Parts>,
}

impl Model for Solver {
    ghost use Rattle.cc_cdcl.specs.Solvers.{SolverView};

    ghost Value = { SolverView };

    ghost view = { λ solver. solver.parts.value };
}

// Writes the first true value of each position.
fn write_row(trail: &Trail, sizes: &[u32], row: &mut [u32])
    requires room { length row.old ≡ length sizes.now }
    requires sizes { sum sizes.now ≤ trail.now.variables }
    ensures { row.new ≡ row_of sizes.now (assignment_of (values_of trail.now.steps)) }
{
    // Opens the trail's invariant for the proof.
    let _level = trail.level_count();
    let mut first = 1;
    for index in 0..sizes.len() {
        row[index] = true_value(trail, first, sizes[index]);
        first += sizes[index];
    }
}

// Writes the clause that denies a row.
fn write_denial(sizes: &[u32], row: &[u32], clause: &mut Vec<Lit>) -> Result<(), OutOfMemory>
    requires row { IsRow sizes.now row.now }
    requires sizes { sum sizes.now ≤ most_variables }
    ensures { OnOk result (clause.new.items ≡ row_denial sizes.now row.now) }
{
    clause.clear();
    let mut first = 1;
    for index in 0..sizes.len() {
        clause.push(Lit::negative(first + row[index]))?;
        first += sizes[index];
    }
    Ok(())
}

impl Parts {
    // The parts of a search that begins.
    fn new(alloc: Global, kernel: Kernel, sizes: &[u32]) -> Result<Parts, OutOfMemory>
        requires axioms { AreAxioms kernel.entries }
        requires positions { HasPositions sizes.now kernel }
        ensures { IfOk result (λ parts.
            parts ≡ record { sizes = sizes.now; kernel = kernel; standing = Ready }) }
    {
        let own_sizes = Vec::from_slice(alloc, sizes)?;
        let row = vec![in alloc; 0u32; sizes.len()]?;
        let cursors = vec![in alloc; Cursor::start(); kernel.variables() as usize + 1]?;
        let shortening = Shortening::new(alloc, kernel.variables())?;
        let trail = Trail::new(alloc, &kernel)?;
        Ok(Parts {
            sizes: own_sizes,
            kernel,
            trail,
            cursors,
            shortening,
            probe: Probe::new(alloc),
            row,
            denial: Vec::new(alloc),
            derived: 0,
            state: State::Ready,
        })
    }

    // Searches on, up to the next derived clause or row.
    fn next(&mut self, budget: u32) -> Result<Step, OutOfMemory>
        requires ready { self.old.standing ≡ Ready }
        requires budget { derived_count self.old.kernel.entries ≤ budget }
        requires few { length self.old.kernel.entries < 4000000000 }
        ensures step { IfOk result (λ step. IsStep budget self.old self.new step) }
        ensures enough { IfOk result (λ step. (opens : ℕ) → HasOpen self.old.kernel.variables
            (axiom_clauses self.old.kernel) opens → 3 ^ opens ≤ budget → step ≢ Step.Spent) }
        ensures broken { OnErr result (IsLeftByFailure self.old self.new) }
    {
        earned_lines_are_few();
        least_row_is_found();
        if self.kernel.refuted().is_some() {
            self.state = State::Refuted;
            return Ok(Step::Refuted);
        }
        self.state = State::Failed;
        begin(&mut self.trail, &mut self.probe, &self.kernel)?;
        let failed = search_on(
            &mut self.trail,
            &mut self.cursors,
            &mut self.probe,
            &self.kernel,
            &self.sizes,
        );
        match failed {
            None => {
                write_row(&self.trail, &self.sizes, &mut self.row);
                self.state = State::Found;
                Ok(Step::Found)
            },
            Some(id) => {
                if self.trail.level_count() == 0 {
                    refute(&self.trail, &mut self.kernel, id)?;
                    self.state = State::Refuted;
                    return Ok(Step::Refuted);
                }
                if self.derived == budget {
                    self.state = State::Ready;
                    return Ok(Step::Spent);
                }
                learn(
                    &mut self.trail,
                    &mut self.kernel,
                    &mut self.shortening,
                    &mut self.probe,
                    id,
                )?;
                self.derived += 1;
                count_line(&mut self.trail, &mut self.cursors, &mut self.probe);
                self.state = State::Ready;
                Ok(Step::Line)
            },
        }
    }

    // The row that was found.
    fn row(&self) -> &[u32]
        requires found { (row : List ℕ) × (self.now.standing ≡ Found row) }
        ensures { self.now.standing ≡ Found result.now }
    {
        // Opens the invariant of the parts for the proof.
        let _state = &self.state;
        &self.row
    }

    // Denies the row that was found.
    fn block_row(&mut self) -> Result<u32, OutOfMemory>
        requires found { (row : List ℕ) × (self.old.standing ≡ Found row) }
        requires few { length self.old.kernel.entries < 4000000000 }
        ensures number { IfOk result (λ number. number ≡ length self.old.kernel.entries + 1) }
        ensures blocked { OnOk result ((row : List ℕ) → self.old.standing ≡ Found row →
            self.new ≡ record self.old {
              kernel = added self.old.kernel
                  (row_denial self.old.sizes row) Origin.Block;
              standing = Ready;
            }) }
        ensures broken { OnErr result (IsLeftByFailedBlock self.old self.new) }
    {
        self.state = State::Failed;
        // Opens the kernel's invariant for the proof.
        let _variables = self.kernel.variables();
        write_denial(&self.sizes, &self.row, &mut self.denial)?;
        let number = block(&mut self.trail, &mut self.kernel, &self.denial)?;
        self.shortening.marks.clear();
        self.state = State::Ready;
        Ok(number)
    }

    // The kernel, with all clauses so far.
    fn kernel(&self) -> &Kernel
        ensures kernel { result.now ≡ self.now.kernel }
        ensures earned { AreEarned self.now.kernel }
    {
        &self.kernel
    }
}

impl Solver {
    /// A search over a kernel of axioms, for rows of positions with these sizes. The variables of the positions are the first
    /// ones, position by position, and that each has exactly one value is among the axioms.
    pub fn new(alloc: Global, kernel: Kernel, sizes: &[u32]) -> Result<Solver, OutOfMemory>
        requires axioms { AreAxioms kernel.entries }
        requires positions { HasPositions sizes.now kernel }
        ensures { IfOk result (λ solver.
            solver ≡ record { sizes = sizes.now; kernel = kernel; standing = Ready }) }
    {
        let parts = Box::new(alloc, Parts::new(alloc, kernel, sizes)?)?;
        Ok(Solver { parts })
    }

    /// Searches on, up to the next derived clause or row. At most `budget` clauses are derived in all.
    pub fn next(&mut self, budget: u32) -> Result<Step, OutOfMemory>
        requires ready { self.old.standing ≡ Ready }
        requires budget { derived_count self.old.kernel.entries ≤ budget }
        requires few { length self.old.kernel.entries < 4000000000 }
        ensures step { IfOk result (λ step. IsStep budget self.old self.new step) }
        ensures enough { IfOk result (λ step. (opens : ℕ) → HasOpen self.old.kernel.variables
            (axiom_clauses self.old.kernel) opens → 3 ^ opens ≤ budget → step ≢ Step.Spent) }
        ensures broken { OnErr result (IsLeftByFailure self.old self.new) }
    {
        self.parts.next(budget)
    }

    /// The row that was found: a value index for each position.
    pub fn row(&self) -> &[u32]
        requires found { (row : List ℕ) × (self.now.standing ≡ Found row) }
        ensures { self.now.standing ≡ Found result.now }
    {
        self.parts.row()
    }

    /// Denies the row that was found, and returns the number of the clause that does.
    pub fn block_row(&mut self) -> Result<u32, OutOfMemory>
        requires found { (row : List ℕ) × (self.old.standing ≡ Found row) }
        requires few { length self.old.kernel.entries < 4000000000 }
        ensures number { IfOk result (λ number. number ≡ length self.old.kernel.entries + 1) }
        ensures blocked { OnOk result ((row : List ℕ) → self.old.standing ≡ Found row →
            self.new ≡ record self.old {
              kernel = added self.old.kernel
                  (row_denial self.old.sizes row) Origin.Block;
              standing = Ready;
            }) }
        ensures broken { OnErr result (IsLeftByFailedBlock self.old self.new) }
    {
        self.parts.block_row()
    }

    /// The kernel, with all clauses so far.
    pub fn kernel(&self) -> &Kernel
        ensures kernel { result.now ≡ self.now.kernel }
        ensures earned { AreEarned self.now.kernel }
    {
        self.parts.kernel()
    }
}
