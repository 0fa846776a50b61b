//! The faults of declarations.
ghost use Rattle.std.specs.Prelude.{◌≡◌, IfOk, ℕ, List as Items};
ghost use Rattle.cc_defs.specs.DeclarationFaults.{any_has, declaration_fault};
ghost use Rattle.cc_defs.specs.Declarations.{Declaration as Declared};
ghost use Rattle.cc_sorts.specs.Declaring.{plain_declaration, plain_declarations};
ghost use Rattle.cc_sorts.specs.Lefts.{IsLeft, fault_of};
ghost use Rattle.cc_sorts.specs.Entered.{IsEntered};

use crate::declaration::Declaration;
use crate::left::Left;
use crate::register::Register;
use cc_defs::OutOfMemory;
use std::alloc::Global;

/// A fault that a declaration can have by what stands to its left.
#[derive(Clone, Copy)]
enum FaultKind {
    /// It was made before.
    Twice,
    /// It names a sort or an action that is not declared.
    Unknown,
    /// An action has another number of arguments than its declaration, or than its attribute.
    WrongCount,
    /// A sort does not fit.
    WrongSort,
}

/// The least number of a fault that one of the declarations has behind those of the table and those before it.
pub(crate) fn least_fault(
    alloc: Global,
    table: &Register,
    new: &[Declaration],
) -> Result<Option<u8>, OutOfMemory>
    ensures { (file line : ℕ) (left : Items Declared) → IsEntered table.now left → IfOk result
        (λ fault. fault ≡ declaration_fault left (plain_declarations file line new.now)) }
{
    if any_in(alloc, table, FaultKind::Twice, new)? {
        return Ok(Some(4));
    }
    if any_in(alloc, table, FaultKind::Unknown, new)? {
        return Ok(Some(5));
    }
    if any_in(alloc, table, FaultKind::WrongCount, new)? {
        return Ok(Some(6));
    }
    if any_in(alloc, table, FaultKind::WrongSort, new)? {
        return Ok(Some(7));
    }
    Ok(None)
}

/// Whether one of the declarations has the fault behind those of the table and those before it.
fn any_in(
    alloc: Global,
    table: &Register,
    fault: FaultKind,
    new: &[Declaration],
) -> Result<bool, OutOfMemory>
    ensures { (file line : ℕ) (left : Items Declared) → IsEntered table.now left → IfOk result
        (λ any. any ≡ any_has (fault_of fault) left (plain_declarations file line new.now)) }
{
    let mut left = Left::new(alloc, table);
    any_behind(alloc, &mut left, fault, new)
}

/// Whether one of the declarations has the fault behind those to the left and those before it.
fn any_behind<'t, 's>(
    alloc: Global,
    left: &mut Left<'_, 't, 's>,
    fault: FaultKind,
    new: &[Declaration<'t, 's>],
) -> Result<bool, OutOfMemory>
    ensures { (file line : ℕ) (declared : Items Declared) → IsLeft left.old declared → IfOk result
        (λ any. any ≡ any_has (fault_of fault) declared (plain_declarations file line new.now)) }
{
    for declaration in new {
        if has(alloc, left, fault, declaration)? {
            return Ok(true);
        }
        left.add(alloc, declaration)?;
    }
    Ok(false)
}

/// Whether a declaration has the fault behind those to its left.
fn has<'t, 's>(
    alloc: Global,
    left: &Left<'_, 't, 's>,
    fault: FaultKind,
    declaration: &Declaration<'t, 's>,
) -> Result<bool, OutOfMemory>
    ensures { (file line : ℕ) (declared : Items Declared) →
        IsLeft left.now declared → IfOk result (λ has.
        has ≡ any_has (fault_of fault) declared (plain_declaration file line declaration.now)) }
{
    match fault {
        FaultKind::Twice => Ok(left.is_twice(declaration)),
        FaultKind::Unknown => Ok(left.is_unknown(declaration)),
        FaultKind::WrongCount => Ok(left.has_wrong_count(declaration)),
        FaultKind::WrongSort => left.has_wrong_sort(alloc, declaration),
    }
}
