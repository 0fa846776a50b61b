//! What no clause says: that calls succeed while there is memory, and what propagation gives for some lists of clauses.
ghost use Rattle.std.specs.Prelude.{◌≡◌, IsTrue, length, IfNone, OnOk};
ghost use Rattle.cc_defs.specs.Clauses.{IsBefore, IsClause, IsOver, IsLiteralOver};
ghost use Rattle.cc_defs.specs.Assignments.{IsClosed};
ghost use Rattle.cc_kernel.specs.Kernels.{clauses_of};
ghost use Rattle.cc_trail.specs.Steps.{values_of};
ghost use Rattle.cc_trail.specs.Trails.{Fits, IsSettled};

use cc_defs::{Lit, OutOfMemory};
use cc_kernel::Kernel;
use cc_trail::Trail;
use cc_trail::theorems::adding_keeps_fit;
use std::alloc::Global;
use std::test::Fail;

// A clause of at most three literals: variables, negated ones below 0, and 0 where there is none.
type Row = [i32; 3];

// A lamp that a switch turns on, at one step: it was on, and the switch is not touched.
const LAMP: [Row; 27] = [
    [7, 0, 0],
    [1, 2, 0],
    [-1, -2, 0],
    [3, 4, 0],
    [-3, -4, 0],
    [5, 6, 0],
    [-5, -6, 0],
    [5, -8, 0],
    [1, -8, 0],
    [-1, -5, 8],
    [6, -9, 0],
    [2, -9, 0],
    [-2, -6, 9],
    [4, -10, 0],
    [-2, -10, 0],
    [2, -4, 10],
    [4, -11, 0],
    [2, -11, 0],
    [-2, -4, 11],
    [-5, 8, 11],
    [5, -8, 0],
    [5, -11, 0],
    [-6, 9, 10],
    [6, -9, 0],
    [6, -10, 0],
    [-2, 0, 0],
    [6, 0, 0],
];

fn literal(number: i32) -> Option<Lit> {
    let variable = number.unsigned_abs();
    if variable == 0 || variable > 4_000_000 {
        return None;
    }
    Some(if number > 0 {
        Lit::positive(variable)
    } else {
        Lit::negative(variable)
    })
}

fn is_before(a: Lit, b: Lit) -> bool
    ensures { IsTrue result → IsBefore a b }
{
    a.variable() < b.variable()
}

fn is_over(kernel: &Kernel, lit: Lit) -> bool
    ensures { IsTrue result → IsLiteralOver kernel.now.variables lit }
{
    0 < lit.variable() && lit.variable() <= kernel.variables()
}

// Adds a clause to a kernel, and attaches it.
fn add(kernel: &mut Kernel, trail: &mut Trail, clause: &[Lit]) -> Result<u32, OutOfMemory>
    requires clause { IsClause clause.now }
    requires over { IsOver kernel.old.variables clause.now }
    requires fits { Fits trail.old kernel.old }
    requires all { trail.old.attached ≡ length kernel.old.entries }
    ensures fits { OnOk result (Fits trail.new kernel.new) }
    ensures all { OnOk result (trail.new.attached ≡ length kernel.new.entries) }
{
    adding_keeps_fit();
    if kernel.count() >= 4_000_000_000 {
        return Err(OutOfMemory);
    }
    let id = kernel.block(clause)?;
    trail.attach(kernel, id)?;
    Ok(id)
}

fn add_two(kernel: &mut Kernel, trail: &mut Trail, a: Lit, b: Lit) -> Result<u32, OutOfMemory>
    requires fits { Fits trail.old kernel.old }
    requires all { trail.old.attached ≡ length kernel.old.entries }
    ensures fits { OnOk result (Fits trail.new kernel.new) }
    ensures all { OnOk result (trail.new.attached ≡ length kernel.new.entries) }
{
    if is_before(a, b) && is_over(kernel, a) && is_over(kernel, b) {
        return add(kernel, trail, &[a, b]);
    }
    Err(OutOfMemory)
}

fn add_three(
    kernel: &mut Kernel,
    trail: &mut Trail,
    a: Lit,
    b: Lit,
    c: Lit,
) -> Result<u32, OutOfMemory>
    requires fits { Fits trail.old kernel.old }
    requires all { trail.old.attached ≡ length kernel.old.entries }
    ensures fits { OnOk result (Fits trail.new kernel.new) }
    ensures all { OnOk result (trail.new.attached ≡ length kernel.new.entries) }
{
    if is_before(a, b)
        && is_before(b, c)
        && is_over(kernel, a)
        && is_over(kernel, b)
        && is_over(kernel, c)
    {
        return add(kernel, trail, &[a, b, c]);
    }
    Err(OutOfMemory)
}

fn add_row(kernel: &mut Kernel, trail: &mut Trail, row: Row) -> Result<u32, OutOfMemory>
    requires fits { Fits trail.old kernel.old }
    requires all { trail.old.attached ≡ length kernel.old.entries }
    ensures fits { OnOk result (Fits trail.new kernel.new) }
    ensures all { OnOk result (trail.new.attached ≡ length kernel.new.entries) }
{
    match (literal(row[0]), literal(row[1]), literal(row[2])) {
        (Some(a), Some(b), Some(c)) => add_three(kernel, trail, a, b, c),
        (Some(a), Some(b), None) => add_two(kernel, trail, a, b),
        (Some(a), None, _) => if is_over(kernel, a) {
            add(kernel, trail, &[a])
        } else {
            Err(OutOfMemory)
        },
        (None, _, _) => add(kernel, trail, &[]),
    }
}

fn add_rows(kernel: &mut Kernel, trail: &mut Trail, rows: &[Row]) -> Result<(), OutOfMemory>
    requires fits { Fits trail.old kernel.old }
    requires all { trail.old.attached ≡ length kernel.old.entries }
    ensures fits { OnOk result (Fits trail.new kernel.new) }
    ensures all { OnOk result (trail.new.attached ≡ length kernel.new.entries) }
{
    for index in 0..rows.len() {
        add_row(kernel, trail, rows[index])?;
    }
    Ok(())
}

// Propagation at level 0.
fn begun(kernel: &Kernel, trail: &mut Trail) -> Option<u32>
    requires fits { Fits trail.old kernel.now }
    requires all { trail.old.attached ≡ length kernel.now.entries }
    ensures fits { Fits trail.new kernel.now }
    ensures all { trail.new.attached ≡ length kernel.now.entries }
    ensures settled { IsSettled trail.new kernel.now }
    ensures closed { IfNone result (IsClosed (values_of trail.new.steps) (clauses_of kernel.now)) }
{
    trail.back_to(0);
    trail.propagate(kernel)
}

// Propagation at level 0, a decision, and propagation at level 1. 0 where it does not come so far.
fn decided(kernel: &Kernel, trail: &mut Trail, number: i32) -> Option<u32>
    requires fits { Fits trail.old kernel.now }
    requires all { trail.old.attached ≡ length kernel.now.entries }
    ensures fits { Fits trail.new kernel.now }
    ensures all { trail.new.attached ≡ length kernel.now.entries }
{
    match begun(kernel, trail) {
        Some(_) => Some(0),
        None => match literal(number) {
            Some(lit) => {
                if is_over(kernel, lit) && trail.level_of(lit.variable()).is_none() {
                    trail.decide(lit);
                    return trail.propagate(kernel);
                }
                Some(0)
            },
            None => Some(0),
        },
    }
}

fn either(kernel: &Kernel, trail: &mut Trail, number: i32) -> Option<u32>
    requires fits { Fits trail.old kernel.now }
    requires all { trail.old.attached ≡ length kernel.now.entries }
    ensures fits { Fits trail.new kernel.now }
    ensures all { trail.new.attached ≡ length kernel.now.entries }
{
    if number == 0 {
        return begun(kernel, trail);
    }
    decided(kernel, trail, number)
}

// Propagation before and after one more clause: a false clause at last, and how many entries there are.
fn with_one_more(
    alloc: Global,
    rows: &[Row],
    before: i32,
    row: Row,
    after: i32,
) -> Result<(Option<u32>, usize), OutOfMemory> {
    let mut kernel = Kernel::new(alloc, 11)?;
    let mut trail = Trail::new(alloc, &kernel)?;
    add_rows(&mut kernel, &mut trail, rows)?;
    let _ = either(&kernel, &mut trail, before);
    add_row(&mut kernel, &mut trail, row)?;
    let failed = either(&kernel, &mut trail, after);
    Ok((failed, trail.entries().len()))
}

#[test]
fn a_clause_more_is_attached(rt: HostRuntime) -> Result<(), Fail> {
    // An empty one, a unit one that is false, and a unit one that was attached at level 1.
    assert!(rt; with_one_more(rt.alloc(), &[], 0, [0, 0, 0], 0)? == (Some(1), 0));
    assert!(rt; with_one_more(rt.alloc(), &[[1, 0, 0]], 0, [-1, 0, 0], 0)? == (Some(2), 1));
    assert!(rt; with_one_more(rt.alloc(), &[[1, 2, 0]], 3, [-3, 0, 0], 0)? == (None, 1));
    // One whose literals are all false, one with two literals of level 1, and one whose literal is made true by it.
    assert!(rt;
        with_one_more(rt.alloc(), &[[-1, 0, 0], [-2, 0, 0]], 0, [1, 2, 0], 0)? == (Some(3), 2)
    );
    assert!(rt;
        with_one_more(rt.alloc(), &[[-1, 3, 0], [-2, 3, 0]], -3, [1, 2, 0], -3)? == (Some(3), 3)
    );
    assert!(rt; with_one_more(rt.alloc(), &[[1, 2, 0]], -1, [1, -2, 0], 2)? == (None, 2));
    Ok(())
}

fn lamp(alloc: Global) -> Result<Kernel, OutOfMemory> {
    let mut kernel = Kernel::new(alloc, 11)?;
    let mut trail = Trail::new(alloc, &kernel)?;
    add_rows(&mut kernel, &mut trail, &LAMP)?;
    Ok(kernel)
}

// The level and the reason of a literal that is true.
fn true_by(kernel: &Kernel, trail: &Trail, number: i32) -> Option<(u32, u32)>
    requires fits { Fits trail.now kernel.now }
{
    let lit = literal(number)?;
    if lit.variable() > kernel.variables() || trail.value(lit) != Some(true) {
        return None;
    }
    let level = trail.level_of(lit.variable())?;
    let reason = trail.reason(lit.variable())?;
    Some((level, reason))
}

#[test]
fn the_lamp_is_on(rt: HostRuntime) -> Result<(), Fail> {
    let kernel = lamp(rt.alloc())?;
    let mut trail = Trail::new(rt.alloc(), &kernel)?;
    let failed = trail.propagate(&kernel);
    assert!(rt; failed == None);
    assert!(rt; trail.entries().len() == 11);
    assert!(rt; trail.level_count() == 0);
    let reasons = (
        true_by(&kernel, &trail, -2),
        true_by(&kernel, &trail, 6),
        true_by(&kernel, &trail, 1),
    );
    assert!(rt; reasons == (Some((0, 26)), Some((0, 27)), Some((0, 2))));
    let fourth = true_by(&kernel, &trail, 4).is_some();
    assert!(rt; fourth);
    Ok(())
}
