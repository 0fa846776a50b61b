//! The rows that the search finds for a clause list.
ghost use Rattle.std.specs.Prelude.{◌≡◌, ℕ, List, IfOk, OnOk, true};
ghost use Rattle.cc_cdcl.specs.Solvers.{Found as IsFound, Ready};
ghost use Rattle.cc_cdcl.specs.declared.solver.Step.TheVariants as steps;

use crate::halt::Halt;
use cc_cdcl::{Solver, Step};
use cc_defs::OutOfMemory;
use cc_form::Form;
use cc_kernel::Kernel;
use std::alloc::Global;
use std::fmt::Write;

/// More clauses than a search is let to have here.
const MOST_CLAUSES: u32 = 4_000_000_000;

/// The most steps up to the next row, and the most rows.
const MOST_STEPS: u32 = 100_000_000;

/// The search over a clause list.
pub(crate) fn solver_of(alloc: Global, form: Form) -> Result<Solver, OutOfMemory>
    ensures { IfOk result (λ solver. solver.standing ≡ Ready) }
{
    let variables = form.variables();
    let sizes = Vec::from_slice(alloc, form.sizes())?;
    let kernel = Kernel::of(alloc, variables, form.into_clauses());
    Solver::new(alloc, kernel, &sizes)
}

/// The next step of a search that has room for one more clause.
fn step(solver: &mut Solver) -> Result<Step, Halt>
    requires { solver.old.standing ≡ Ready }
    ensures line { IfOk result (λ step. step ≡ steps.Line → solver.new.standing ≡ Ready) }
    ensures found { IfOk result (λ step. step ≡ steps.Found →
        (row : List ℕ) × (solver.new.standing ≡ IsFound row)) }
{
    if solver.kernel().count() >= MOST_CLAUSES {
        return Err(Halt::Search);
    }
    Ok(solver.next(MOST_CLAUSES)?)
}

/// Searches up to the next row, and answers whether there is one.
fn find(solver: &mut Solver) -> Result<bool, Halt>
    requires { solver.old.standing ≡ Ready }
    ensures { IfOk result (λ found. found ≡ true →
        (row : List ℕ) × (solver.new.standing ≡ IsFound row)) }
{
    for turn in 0..MOST_STEPS {
        match step(solver)? {
            Step::Line => {}
            Step::Found => return Ok(true),
            Step::Refuted => return Ok(false),
            Step::Spent => return Err(Halt::Search),
        }
    }
    Err(Halt::Search)
}

/// Denies the row that was found.
fn deny(solver: &mut Solver) -> Result<(), Halt>
    requires { (row : List ℕ) × (solver.old.standing ≡ IsFound row) }
    ensures { OnOk result (solver.new.standing ≡ Ready) }
{
    if solver.kernel().count() >= MOST_CLAUSES {
        return Err(Halt::Search);
    }
    solver.block_row()?;
    Ok(())
}

fn show_row(out: &mut String, row: &[u32]) -> Result<(), OutOfMemory> {
    out.push_str("row ")?;
    for (position, index) in row.iter().enumerate() {
        if position > 0 {
            out.push_str(",")?;
        }
        write!(out, "{index}")?;
    }
    out.push_str("\n")?;
    Ok(())
}

/// The rows that a search finds, each denied before the next is looked for.
fn show_found(out: &mut String, mut solver: Solver) -> Result<(), Halt>
    requires { solver.standing ≡ Ready }
{
    for number in 0..MOST_STEPS {
        if !find(&mut solver)? {
            return Ok(());
        }
        show_row(out, solver.row())?;
        deny(&mut solver)?;
    }
    Err(Halt::Search)
}

/// The rows of a clause list.
pub(crate) fn show_rows(alloc: Global, out: &mut String, form: Form) -> Result<(), Halt> {
    show_found(out, solver_of(alloc, form)?)
}
