//! What no clause says: that calls succeed while there is memory, and what the search gives for some lists of clauses.
ghost use Rattle.std.specs.Prelude.{◌≡◌, ◌≢◌, ◌+◌, ◌-◌, ◌≤◌, ◌<◌, ◌∷◌, [], map, List, IsSome, IsTrue, IfOk, OnOk, Contains};
ghost use Rattle.cc_defs.specs.ClauseForms.{positive};
ghost use Rattle.cc_defs.specs.ClauseLists.{pairs_denied, position_variables};
ghost use Rattle.cc_defs.specs.Clauses.{Literal, IsClause, IsOver, opposite};
ghost use Rattle.cc_kernel.specs.Kernels.{AreAxioms, IsThere, clauses_of, derived_count};
ghost use Rattle.cc_cdcl.specs.Solvers.{HasPositions, Ready};

use cc_cdcl::{Solver, Step};
use cc_defs::{Lit, OutOfMemory};
use cc_kernel::Kernel;
use std::alloc::Global;
use std::test::Fail;

// A clause of at most three literals: variables, negated ones below 0, and 0 where there is none.
type Row = [i32; 3];

// All clauses of three signs over the variables of value 1 of three positions.
const SIGNS: [Row; 8] = [
    [2, 4, 6],
    [2, 4, -6],
    [2, -4, 6],
    [2, -4, -6],
    [-2, 4, 6],
    [-2, 4, -6],
    [-2, -4, 6],
    [-2, -4, -6],
];

// No two of five pigeons are in one of four holes. The position of a pigeon has its holes for values.
const PIGEONS: [Row; 40] = [
    [-1, -5, 0],
    [-1, -9, 0],
    [-1, -13, 0],
    [-1, -17, 0],
    [-5, -9, 0],
    [-5, -13, 0],
    [-5, -17, 0],
    [-9, -13, 0],
    [-9, -17, 0],
    [-13, -17, 0],
    [-2, -6, 0],
    [-2, -10, 0],
    [-2, -14, 0],
    [-2, -18, 0],
    [-6, -10, 0],
    [-6, -14, 0],
    [-6, -18, 0],
    [-10, -14, 0],
    [-10, -18, 0],
    [-14, -18, 0],
    [-3, -7, 0],
    [-3, -11, 0],
    [-3, -15, 0],
    [-3, -19, 0],
    [-7, -11, 0],
    [-7, -15, 0],
    [-7, -19, 0],
    [-11, -15, 0],
    [-11, -19, 0],
    [-15, -19, 0],
    [-4, -8, 0],
    [-4, -12, 0],
    [-4, -16, 0],
    [-4, -20, 0],
    [-8, -12, 0],
    [-8, -16, 0],
    [-8, -20, 0],
    [-12, -16, 0],
    [-12, -20, 0],
    [-16, -20, 0],
];

fn literal(number: i32) -> Option<Lit> {
    let variable = number.unsigned_abs();
    if variable == 0 || variable > 4_000_000 {
        return None;
    }
    Some(if number > 0 {
        Lit::positive(variable)
    } else {
        Lit::negative(variable)
    })
}

// Whether the variables of literals ascend, and are among so many.
fn is_clause(variables: u32, literals: &[Lit]) -> bool
    ensures clause { IsTrue result → IsClause literals.now }
    ensures over { IsTrue result → IsOver variables literals.now }
{
    let mut variable = 0;
    for literal in literals {
        if literal.variable() <= variable || literal.variable() > variables {
            return false;
        }
        variable = literal.variable();
    }
    true
}

// Adds an axiom. What is no clause over the variables is not added.
fn add(kernel: &mut Kernel, literals: &[Lit]) -> Result<(), OutOfMemory>
    requires { AreAxioms kernel.old.entries }
    ensures { OnOk result (AreAxioms kernel.new.entries) }
{
    if kernel.count() >= 4_000_000_000 || !is_clause(kernel.variables(), literals) {
        return Err(OutOfMemory);
    }
    kernel.axiom(literals)?;
    Ok(())
}

fn add_row(kernel: &mut Kernel, row: Row) -> Result<(), OutOfMemory>
    requires { AreAxioms kernel.old.entries }
    ensures { OnOk result (AreAxioms kernel.new.entries) }
{
    match (literal(row[0]), literal(row[1]), literal(row[2])) {
        (Some(a), Some(b), Some(c)) => add(kernel, &[a, b, c]),
        (Some(a), Some(b), None) => add(kernel, &[a, b]),
        (Some(a), None, _) => add(kernel, &[a]),
        (None, _, _) => add(kernel, &[]),
    }
}

fn add_rows(kernel: &mut Kernel, rows: &[Row]) -> Result<(), OutOfMemory>
    requires { AreAxioms kernel.old.entries }
    ensures { OnOk result (AreAxioms kernel.new.entries) }
{
    for index in 0..rows.len() {
        add_row(kernel, rows[index])?;
    }
    Ok(())
}

// Writes the variables of a position.
fn write_values(first: u32, end: u32, values: &mut Vec<Lit>) -> Result<(), OutOfMemory>
    requires some { 1 ≤ first }
    requires ordered { first ≤ end }
    requires most { end ≤ 4000001 }
    ensures { OnOk result (values.new.items ≡ position_variables first (end - first)) }
{
    values.clear();
    for variable in first..end {
        values.push(Lit::positive(variable))?;
    }
    Ok(())
}

// Adds the clauses that no two of these variables are true.
fn add_pairs(kernel: &mut Kernel, first: u32, end: u32) -> Result<(), OutOfMemory>
    requires some { 1 ≤ first }
    requires most { end ≤ 4000001 }
    requires axioms { AreAxioms kernel.old.entries }
    ensures { OnOk result (AreAxioms kernel.new.entries) }
{
    for low in first..end {
        add_pairs_of(kernel, low, end)?;
    }
    Ok(())
}

fn add_pairs_of(kernel: &mut Kernel, low: u32, end: u32) -> Result<(), OutOfMemory>
    requires some { 1 ≤ low }
    requires below { low < end }
    requires most { end ≤ 4000001 }
    requires axioms { AreAxioms kernel.old.entries }
    ensures { OnOk result (AreAxioms kernel.new.entries) }
{
    for high in low + 1..end {
        add(kernel, &[Lit::negative(low), Lit::negative(high)])?;
    }
    Ok(())
}

// Adds the clauses that each position has exactly one value.
fn add_positions(
    kernel: &mut Kernel,
    sizes: &[u32],
    values: &mut Vec<Lit>,
) -> Result<(), OutOfMemory>
    requires { AreAxioms kernel.old.entries }
    ensures { OnOk result (AreAxioms kernel.new.entries) }
{
    let mut first: u32 = 1;
    for index in 0..sizes.len() {
        let end = first.saturating_add(sizes[index]);
        if end > 4_000_001 {
            return Err(OutOfMemory);
        }
        write_values(first, end, values)?;
        add(kernel, values)?;
        add_pairs(kernel, first, end)?;
        first = end;
    }
    Ok(())
}

fn is_same(a: Lit, b: Lit) -> bool
    ensures { IsTrue result → a ≡ b }
{
    a.variable() == b.variable() && a.is_positive() == b.is_positive()
}

fn is_same_clause(a: &[Lit], b: &[Lit]) -> bool
    ensures { IsTrue result → a.now ≡ b.now }
{
    if a.len() != b.len() {
        return false;
    }
    for index in 0..a.len() {
        if !is_same(a[index], b[index]) {
            return false;
        }
    }
    true
}

// Whether a clause is among those of a kernel.
fn has(kernel: &Kernel, clause: &[Lit]) -> bool
    ensures { IsTrue result → Contains (clauses_of kernel.now) clause.now }
{
    for index in 0..kernel.count() {
        if is_same_clause(kernel.clause(index + 1), clause) {
            return true;
        }
    }
    false
}

fn has_pairs_of(kernel: &Kernel, low: u32, end: u32) -> bool
    requires some { 1 ≤ low }
    requires below { low < end }
    requires most { end ≤ 4000001 }
    ensures { IsTrue result →
        (clause : List Literal) → Contains (map (λ v. opposite (positive low) ∷ opposite v ∷ [])
        (position_variables (low + 1) (end - (low + 1)))) clause →
        Contains (clauses_of kernel.now) clause }
{
    for high in low + 1..end {
        if !has(kernel, &[Lit::negative(low), Lit::negative(high)]) {
            return false;
        }
    }
    true
}

fn has_pairs(kernel: &Kernel, first: u32, end: u32) -> bool
    requires some { 1 ≤ first }
    requires most { end ≤ 4000001 }
    ensures { IsTrue result → (clause : List Literal) → Contains (pairs_denied
        (position_variables first (end - first))) clause → Contains (clauses_of kernel.now) clause }
{
    for low in first..end {
        if !has_pairs_of(kernel, low, end) {
            return false;
        }
    }
    true
}

// Whether the clauses that each position has exactly one value are among those of a kernel.
fn has_positions(kernel: &Kernel, sizes: &[u32], values: &mut Vec<Lit>) -> Result<bool, OutOfMemory>
    ensures { IfOk result (λ has. IsTrue has → HasPositions sizes.now kernel.now) }
{
    let mut first: u32 = 1;
    for index in 0..sizes.len() {
        let end = first.saturating_add(sizes[index]);
        if end > 4_000_001 {
            return Ok(false);
        }
        write_values(first, end, values)?;
        if !has(kernel, values) || !has_pairs(kernel, first, end) {
            return Ok(false);
        }
        first = end;
    }
    Ok(true)
}

fn kernel_of(
    alloc: Global,
    variables: u32,
    sizes: &[u32],
    rows: &[Row],
) -> Result<Kernel, OutOfMemory>
    requires { variables ≤ 4000000 }
    ensures { IfOk result (λ kernel. AreAxioms kernel.entries) }
{
    let mut values = Vec::new(alloc);
    let mut kernel = Kernel::new(alloc, variables)?;
    add_positions(&mut kernel, sizes, &mut values)?;
    add_rows(&mut kernel, rows)?;
    Ok(kernel)
}

// A search over a kernel, if the clauses of the positions are there.
fn solver_of(alloc: Global, kernel: Kernel, sizes: &[u32]) -> Result<Solver, OutOfMemory>
    requires { AreAxioms kernel.entries }
    ensures ready { IfOk result (λ solver. solver.standing ≡ Ready) }
    ensures none { IfOk result (λ solver. derived_count solver.kernel.entries ≡ 0) }
{
    let mut values = Vec::new(alloc);
    if !has_positions(&kernel, sizes, &mut values)? {
        return Err(OutOfMemory);
    }
    Solver::new(alloc, kernel, sizes)
}

// What a search told.
#[derive(Drop)]
struct Told {
    steps: Vec<Step>,
    // The rows, one behind the other.
    rows: Vec<u32>,
}

// The next answer of a search. A row is kept, and denied.
fn turn(solver: &mut Solver, budget: u32, rows: &mut Vec<u32>) -> Result<Step, OutOfMemory>
    requires ready { solver.old.standing ≡ Ready }
    requires budget { derived_count solver.old.kernel.entries ≤ budget }
    ensures ready { IfOk result (λ step. step ≢ Step.Refuted →
        step ≢ Step.Spent → solver.new.standing ≡ Ready) }
    ensures budget { IfOk result (λ step. step ≢ Step.Refuted →
        step ≢ Step.Spent → derived_count solver.new.kernel.entries ≤ budget) }
{
    if solver.kernel().count() >= 4_000_000_000 {
        return Err(OutOfMemory);
    }
    let step = solver.next(budget)?;
    match step {
        Step::Found => {
            rows.extend_from_slice(solver.row())?;
            solver.block_row()?;
            Ok(Step::Found)
        },
        _ => Ok(step),
    }
}

// What a search tells in so many answers, or until it ends.
fn tell(alloc: Global, solver: &mut Solver, budget: u32, most: u32) -> Result<Told, OutOfMemory>
    requires ready { solver.old.standing ≡ Ready }
    requires budget { derived_count solver.old.kernel.entries ≤ budget }
{
    let mut told = Told {
        steps: Vec::new(alloc),
        rows: Vec::new(alloc),
    };
    for _ in 0..most {
        let step = turn(solver, budget, &mut told.rows)?;
        told.steps.push(step)?;
        if step == Step::Refuted || step == Step::Spent {
            return Ok(told);
        }
    }
    Ok(told)
}

fn told_of(
    alloc: Global,
    variables: u32,
    sizes: &[u32],
    rows: &[Row],
    budget: u32,
) -> Result<Told, OutOfMemory>
    requires { variables ≤ 4000000 }
{
    let kernel = kernel_of(alloc, variables, sizes, rows)?;
    let mut solver = solver_of(alloc, kernel, sizes)?;
    tell(alloc, &mut solver, budget, 1000)
}

// How many answers were this one.
fn count_of(told: &Told, step: Step) -> usize {
    let mut count = 0;
    for index in 0..told.steps.len() {
        if told.steps[index] == step {
            count += 1;
        }
    }
    count
}

#[test]
fn each_row_is_told_once(rt: HostRuntime) -> Result<(), Fail> {
    // The denial of the first row has one literal of its highest level, that of the second row two.
    let told = told_of(rt.alloc(), 5, &[2, 2], &[[5, 0, 0]], 81)?;
    assert!(rt; told.rows.as_slice() == [0, 0, 0, 1, 1, 0, 1, 1].as_slice());
    assert!(rt; count_of(&told, Step::Found) == 4);
    assert!(rt; count_of(&told, Step::Refuted) == 1);
    assert!(rt; count_of(&told, Step::Spent) == 0);
    // Two positions of which the first gives the second its value.
    let told = told_of(rt.alloc(), 4, &[2, 2], &[[-2, 4, 0], [2, -4, 0]], 81)?;
    assert!(rt; told.rows.as_slice() == [0, 0, 1, 1].as_slice());
    assert!(rt; count_of(&told, Step::Refuted) == 1);
    Ok(())
}

#[test]
fn the_budget_is_spent(rt: HostRuntime) -> Result<(), Fail> {
    let told = told_of(rt.alloc(), 6, &[2, 2, 2], &SIGNS, 1)?;
    assert!(rt; told.steps.as_slice() == [Step::Line, Step::Spent].as_slice());
    Ok(())
}

#[test]
fn no_position_and_no_choice(rt: HostRuntime) -> Result<(), Fail> {
    let none = told_of(rt.alloc(), 1, &[], &[[1, 0, 0]], 0)?;
    assert!(rt; none.steps.as_slice() == [Step::Found, Step::Refuted].as_slice());
    assert!(rt; none.rows.is_empty());
    let one = told_of(rt.alloc(), 3, &[1, 1], &[[3, 0, 0]], 0)?;
    assert!(rt; one.steps.as_slice() == [Step::Found, Step::Refuted].as_slice());
    assert!(rt; one.rows.as_slice() == [0, 0].as_slice());
    let empty = told_of(rt.alloc(), 4, &[2, 2], &[[0, 0, 0]], 0)?;
    assert!(rt; empty.steps.as_slice() == [Step::Refuted].as_slice());
    Ok(())
}

fn is_there(kernel: &Kernel, id: u32) -> bool
    ensures { IsTrue result → IsThere kernel.now id }
{
    0 < id && id <= kernel.count()
}

fn resolve(kernel: &mut Kernel, pivot: u32, id: u32) -> Result<(), OutOfMemory>
    requires { IsSome kernel.old.staged }
    ensures { OnOk result (IsSome kernel.new.staged) }
{
    if pivot == 0 || pivot > kernel.variables() || !is_there(kernel, id) {
        return Err(OutOfMemory);
    }
    if !kernel.clashes(pivot, id) {
        return Err(OutOfMemory);
    }
    kernel.step(pivot, id)?;
    Ok(())
}

// Derives a clause by its chain, and returns its number.
fn derive(kernel: &mut Kernel, chain: &[u32]) -> Result<u32, OutOfMemory>
    ensures { IfOk result (λ number. IsThere kernel.new number) }
{
    if chain.is_empty() || !is_there(kernel, chain[0]) {
        return Err(OutOfMemory);
    }
    kernel.start(chain[0])?;
    for index in 0..(chain.len() - 1) / 2 {
        resolve(kernel, chain[2 * index + 1], chain[2 * index + 2])?;
    }
    if kernel.count() >= 4_000_000_000 {
        return Err(OutOfMemory);
    }
    kernel.finish()
}

// Whether the last chain of a search gives its last clause in a second kernel too.
fn is_derived_again(solver: &Solver, second: &mut Kernel) -> Result<bool, OutOfMemory> {
    let kernel = solver.kernel();
    let number = derive(second, kernel.chain())?;
    if number != kernel.count() {
        return Ok(false);
    }
    Ok(is_same_clause(second.clause(number), kernel.clause(number)))
}

// How many lines there are up to the refutation, if each of them is derived again.
fn lines_again(
    alloc: Global,
    solver: &mut Solver,
    second: &mut Kernel,
    budget: u32,
) -> Result<u32, OutOfMemory>
    requires ready { solver.old.standing ≡ Ready }
    requires budget { derived_count solver.old.kernel.entries ≤ budget }
{
    let mut rows = Vec::new(alloc);
    for line in 0..budget {
        let step = turn(solver, budget, &mut rows)?;
        if step == Step::Spent || step == Step::Found || !is_derived_again(solver, second)? {
            return Ok(0);
        }
        if step == Step::Refuted {
            return Ok(line + 1);
        }
    }
    Ok(0)
}

#[test]
fn each_line_is_derived_again(rt: HostRuntime) -> Result<(), Fail> {
    let kernel = kernel_of(rt.alloc(), 20, &[4, 4, 4, 4, 4], &PIGEONS)?;
    let mut second = kernel_of(rt.alloc(), 20, &[4, 4, 4, 4, 4], &PIGEONS)?;
    let mut solver = solver_of(rt.alloc(), kernel, &[4, 4, 4, 4, 4])?;
    let lines = lines_again(rt.alloc(), &mut solver, &mut second, 10000)?;
    assert!(rt; lines > 1);
    assert!(rt; second.refuted() == Some(second.count()));
    Ok(())
}
