//! What no clause says: that calls succeed while there is memory, and that a refutation goes through.
ghost use Rattle.std.specs.Prelude.{◌≡◌, ◌+◌, ◌<◌, ◌≤◌, length, IfOk, IsSome, OnOk};
ghost use Rattle.cc_kernel.specs.Kernels.{AreAxioms, ClashesWith, IsFinished, IsStarted, IsStepped, IsThere};

use cc_clauses::ClauseArena;
use cc_defs::{Lit, OutOfMemory};
use cc_kernel::Kernel;
use std::process::Abort;
use std::test::Fail;

#[test]
fn axioms_are_refuted(rt: HostRuntime) -> Result<(), Fail> {
    let mut axioms = ClauseArena::new(rt.alloc());
    axioms.push(&[Lit::positive(1), Lit::positive(2)])?;
    axioms.push(&[Lit::negative(1), Lit::positive(2)])?;
    let mut kernel = Kernel::of(rt.alloc(), 2, axioms);
    assert!(rt; kernel.axiom(&[Lit::negative(2)])? == 3);
    assert!(rt; kernel.refuted() == None);
    assert!(rt; kernel.count() == 3);
    kernel.start(1)?;
    assert!(rt; kernel.clashes(1, 2));
    kernel.step(1, 2)?;
    assert!(rt; kernel.stages(Lit::positive(2)));
    assert!(rt; kernel.clashes(2, 3));
    kernel.step(2, 3)?;
    assert!(rt; !kernel.stages(Lit::positive(2)));
    assert!(rt; kernel.finish()? == 4);
    assert!(rt; kernel.refuted() == Some(4));
    assert!(rt; kernel.chain() == [1, 1, 2, 2, 3].as_slice());
    Ok(())
}

#[test]
fn clauses_are_numbered(rt: HostRuntime) -> Result<(), Fail> {
    let mut kernel = Kernel::new(rt.alloc(), 5)?;
    assert!(rt; kernel.variables() == 5);
    assert!(rt; kernel.axiom(&[Lit::positive(3)])? == 1);
    assert!(rt; kernel.block(&[])? == 2);
    assert!(rt; kernel.count() == 2);
    assert!(rt; kernel.clause(1) == [Lit::positive(3)].as_slice());
    assert!(rt; kernel.refuted() == Some(2));
    Ok(())
}

// A derivation is begun, once more where memory was refused.
fn start_again(kernel: &mut Kernel, id: u32) -> Result<(), OutOfMemory>
    requires { IsThere kernel.old id }
    ensures { OnOk result (IsStarted kernel.old kernel.new id) }
{
    match kernel.start(id) {
        Ok(()) => Ok(()),
        Err(_) => kernel.start(id),
    }
}

// A step is made, once more where memory was refused.
fn step_again(kernel: &mut Kernel, pivot: u32, id: u32) -> Result<(), OutOfMemory>
    requires { ClashesWith kernel.old pivot id }
    ensures { OnOk result (IsStepped kernel.old kernel.new pivot id) }
{
    match kernel.step(pivot, id) {
        Ok(()) => Ok(()),
        Err(_) => kernel.step(pivot, id),
    }
}

// A derivation is ended, once more where memory was refused.
fn finish_again(kernel: &mut Kernel) -> Result<u32, OutOfMemory>
    requires staged { IsSome kernel.old.staged }
    requires few { length kernel.old.entries < 4000000000 }
    ensures number { IfOk result (λ number. number ≡ length kernel.old.entries + 1) }
    ensures added { OnOk result (IsFinished kernel.old kernel.new) }
{
    match kernel.finish() {
        Ok(number) => Ok(number),
        Err(_) => kernel.finish(),
    }
}

// The lamp at horizon 1: T, and that each of its three positions has one of two values.
fn give_positions(kernel: &mut Kernel) -> Result<(), OutOfMemory>
    requires axioms { AreAxioms kernel.old.entries }
    requires variables { kernel.old.variables ≡ 11 }
    requires few { length kernel.old.entries ≤ 100 }
    ensures axioms { AreAxioms kernel.new.entries }
    ensures variables { OnOk result (kernel.new.variables ≡ 11) }
    ensures count { OnOk result
        (length kernel.new.entries ≡ length kernel.old.entries + 7) }
{
    kernel.axiom(&[Lit::positive(7)])?;
    kernel.axiom(&[Lit::positive(1), Lit::positive(2)])?;
    kernel.axiom(&[Lit::negative(1), Lit::negative(2)])?;
    kernel.axiom(&[Lit::positive(3), Lit::positive(4)])?;
    kernel.axiom(&[Lit::negative(3), Lit::negative(4)])?;
    kernel.axiom(&[Lit::positive(5), Lit::positive(6)])?;
    kernel.axiom(&[Lit::negative(5), Lit::negative(6)])?;
    Ok(())
}

// What stands for the lamp's staying dark and staying lit.
fn give_light(kernel: &mut Kernel) -> Result<(), OutOfMemory>
    requires axioms { AreAxioms kernel.old.entries }
    requires variables { kernel.old.variables ≡ 11 }
    requires few { length kernel.old.entries ≤ 100 }
    ensures axioms { AreAxioms kernel.new.entries }
    ensures variables { OnOk result (kernel.new.variables ≡ 11) }
    ensures count { OnOk result
        (length kernel.new.entries ≡ length kernel.old.entries + 6) }
{
    kernel.axiom(&[Lit::positive(5), Lit::negative(8)])?;
    kernel.axiom(&[Lit::positive(1), Lit::negative(8)])?;
    kernel.axiom(&[Lit::negative(1), Lit::negative(5), Lit::positive(8)])?;
    kernel.axiom(&[Lit::positive(6), Lit::negative(9)])?;
    kernel.axiom(&[Lit::positive(2), Lit::negative(9)])?;
    kernel.axiom(&[Lit::negative(2), Lit::negative(6), Lit::positive(9)])?;
    Ok(())
}

// What stands for its being turned on and off.
fn give_flips(kernel: &mut Kernel) -> Result<(), OutOfMemory>
    requires axioms { AreAxioms kernel.old.entries }
    requires variables { kernel.old.variables ≡ 11 }
    requires few { length kernel.old.entries ≤ 100 }
    ensures axioms { AreAxioms kernel.new.entries }
    ensures variables { OnOk result (kernel.new.variables ≡ 11) }
    ensures count { OnOk result
        (length kernel.new.entries ≡ length kernel.old.entries + 6) }
{
    kernel.axiom(&[Lit::positive(4), Lit::negative(10)])?;
    kernel.axiom(&[Lit::negative(2), Lit::negative(10)])?;
    kernel.axiom(&[Lit::positive(2), Lit::negative(4), Lit::positive(10)])?;
    kernel.axiom(&[Lit::positive(4), Lit::negative(11)])?;
    kernel.axiom(&[Lit::positive(2), Lit::negative(11)])?;
    kernel.axiom(&[Lit::negative(2), Lit::negative(4), Lit::positive(11)])?;
    Ok(())
}

// That it is dark or lit where something causes it.
fn give_causes(kernel: &mut Kernel) -> Result<(), OutOfMemory>
    requires axioms { AreAxioms kernel.old.entries }
    requires variables { kernel.old.variables ≡ 11 }
    requires few { length kernel.old.entries ≤ 100 }
    ensures axioms { AreAxioms kernel.new.entries }
    ensures variables { OnOk result (kernel.new.variables ≡ 11) }
    ensures count { OnOk result
        (length kernel.new.entries ≡ length kernel.old.entries + 6) }
{
    kernel.axiom(&[Lit::negative(5), Lit::positive(8), Lit::positive(11)])?;
    kernel.axiom(&[Lit::positive(5), Lit::negative(8)])?;
    kernel.axiom(&[Lit::positive(5), Lit::negative(11)])?;
    kernel.axiom(&[Lit::negative(6), Lit::positive(9), Lit::positive(10)])?;
    kernel.axiom(&[Lit::positive(6), Lit::negative(9)])?;
    kernel.axiom(&[Lit::positive(6), Lit::negative(10)])?;
    Ok(())
}

// A step that clashes, made once more where memory was refused.
fn step_on(rt: &impl Abort, kernel: &mut Kernel, pivot: u32, id: u32) -> Result<(), OutOfMemory>
    requires { IsSome kernel.old.staged }
    ensures { OnOk result (IsSome kernel.new.staged) }
{
    assert!(rt; 1 <= id && id <= kernel.count());
    assert!(rt; 1 <= pivot && pivot <= kernel.variables());
    assert!(rt; kernel.clashes(pivot, id));
    step_again(kernel, pivot, id)
}

// Whether the staged clause has none of the literals over eleven variables.
fn is_empty(kernel: &Kernel) -> bool
    requires { IsSome kernel.now.staged }
{
    for variable in 1..=11 {
        if kernel.stages(Lit::positive(variable)) || kernel.stages(Lit::negative(variable)) {
            return false;
        }
    }
    true
}

// The lamp, dark at first and lit in the end, whose one history is blocked: no other is left.
#[test]
fn refused_calls_are_made_again(rt: HostRuntime) -> Result<(), Fail> {
    let mut kernel = Kernel::new(rt.alloc(), 11)?;
    give_positions(&mut kernel)?;
    give_light(&mut kernel)?;
    give_flips(&mut kernel)?;
    give_causes(&mut kernel)?;
    kernel.axiom(&[Lit::negative(2)])?;
    kernel.axiom(&[Lit::positive(6)])?;
    let block = [Lit::negative(1), Lit::negative(4), Lit::negative(6)];
    assert!(rt; kernel.block(&block)? == 28);
    assert!(rt; kernel.refuted() == None);
    start_again(&mut kernel, 28)?;
    step_on(&rt, &mut kernel, 1, 2)?;
    step_on(&rt, &mut kernel, 2, 26)?;
    step_on(&rt, &mut kernel, 4, 14)?;
    step_on(&rt, &mut kernel, 10, 23)?;
    step_on(&rt, &mut kernel, 9, 12)?;
    step_on(&rt, &mut kernel, 2, 26)?;
    step_on(&rt, &mut kernel, 6, 27)?;
    assert!(rt; is_empty(&kernel));
    assert!(rt; kernel.count() == 28);
    assert!(rt; finish_again(&mut kernel)? == 29);
    assert!(rt; kernel.refuted() == Some(29));
    assert!(rt; kernel.chain() == [28, 1, 2, 2, 26, 4, 14, 10, 23, 9, 12, 2, 26, 6, 27].as_slice());
    Ok(())
}
