//! What all searches share: derived lines, and how much is asked for.
ghost use Rattle.std.specs.Prelude.{◌≡◌, ◌≢◌, ℕ, ◌<◌, [], List, length, Contains, IfOk, IsOk, OnOk, Some, true, false};
ghost use Rattle.cc_defs.specs.Clauses.{Literal, IsNumbered};
ghost use Rattle.cc_defs.specs.Sections.{HasNoEmpty};
ghost use Rattle.cc_defs.specs.declared.log.LogLine.TheVariants as lines;
ghost use Rattle.cc_kernel.specs.Kernels.{clauses_of};

use crate::ask::Ask;
use cc_cdcl::Solver;
use cc_defs::{Lits, LogLine, Nums, OutOfMemory, Row};
use cc_kernel::Kernel;
use std::alloc::{AllocError, Global};

/// The line of the clause that was derived last.
pub fn derived_line(alloc: Global, kernel: &Kernel) -> Result<LogLine, OutOfMemory>
    requires { 0 < length kernel.now.entries }
    ensures { (clause : List Literal) →
        IsNumbered (clauses_of kernel.now) (length kernel.now.entries) clause →
        IfOk result (λ line. line ≡ lines.Derived clause kernel.now.chain) }
{
    let clause = Vec::from_slice(alloc, kernel.clause(kernel.count()))?;
    let chain = Vec::from_slice(alloc, kernel.chain())?;
    Ok(LogLine::Derived {
        clause: Lits::of(clause),
        chain: Nums::of(chain),
    })
}

/// The line that denies a row, where the row was copied, and denied.
pub fn block_line(
    row: Result<Vec<u32>, AllocError>,
    denied: Result<u32, OutOfMemory>,
) -> Result<LogLine, OutOfMemory>
    ensures line { (items : List ℕ) →
        IfOk row (λ row. row.items ≡ items) → IfOk result (λ line. line ≡ lines.Block items) }
    ensures denied { OnOk result (IsOk denied) }
{
    match row {
        Ok(row) => match denied {
            Ok(_) => Ok(LogLine::Block { row: Row::of(row) }),
            Err(error) => Err(error),
        },
        Err(AllocError) => Err(OutOfMemory),
    }
}

/// How many derived clauses a section may have.
pub fn budget_of(ask: &Ask) -> u32
    ensures { result ≡ ask.now.budget }
{
    ask.budget
}

/// Whether just so many rows are asked for.
pub fn is_asked(ask: &Ask, listed: u32) -> bool
    ensures is { result ≡ true → ask.now.count ≡ Some listed }
    ensures other { result ≡ false → ask.now.count ≢ Some listed }
{
    match ask.count {
        Some(count) => count == listed,
        None => false,
    }
}

/// Whether one of the clauses is empty.
pub fn is_refuted(solver: &Solver) -> bool
    ensures some { result ≡ true → Contains (clauses_of solver.now.kernel) [] }
    ensures none { result ≡ false → HasNoEmpty (clauses_of solver.now.kernel) }
{
    solver.kernel().refuted().is_some()
}
