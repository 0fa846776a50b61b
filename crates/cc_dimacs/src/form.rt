//! Clauses over numbered variables as the axioms of a section.
ghost use Rattle.std.specs.Prelude.{◌≡◌, ◌+◌, ◌*◌, ◌<◌, ◌≤◌, ℕ, List, map, None, IfOk, IfErr, OnOk};
ghost use Rattle.std.specs.List.{AllByRecursion};
ghost use Rattle.cc_clauses.specs.Tells.{Tells};
ghost use Rattle.cc_defs.specs.ClauseLists.{Asserted};
ghost use Rattle.cc_defs.specs.Clauses.{IsLiteralOver};
ghost use Rattle.cc_defs.specs.Refusals.{IsRefusedBy};
ghost use Rattle.cc_form.specs.Drafts.{IsDraft};
ghost use Rattle.cc_dimacs.specs.Cnfs.{AreOver, IsModelOf, atom_of, cnf_axioms, cnf_refusal, plain_cnf, twos, with_clauses};

use crate::cnf::Cnf;
use cc_clauses::ClauseArena;
use cc_defs::{Fault, LimitAt, Lit, OutOfMemory, Refusal};
use cc_form::{Draft, Form};
use std::alloc::Global;

/// So many positions with two values each.
fn two_values(alloc: Global, count: u32) -> Result<Vec<u32>, OutOfMemory>
    ensures { IfOk result (λ sizes. sizes.items ≡ twos count) }
{
    let mut sizes = Vec::new(alloc);
    for _ in 0..count {
        sizes.push(2)?;
    }
    Ok(sizes)
}

/// The literal of a variable as one of the atom of value 1 of its position.
fn atom(literal: Lit) -> Lit
    requires some { 0 < literal.variable }
    requires most { literal.variable ≤ 1999999 }
    ensures { result ≡ atom_of literal }
{
    let variable = 2 * literal.variable();
    if literal.is_positive() {
        Lit::positive(variable)
    } else {
        Lit::negative(variable)
    }
}

/// The literals of a clause as those of atoms, in place of what was there.
fn fill_atoms(atoms: &mut Vec<Lit>, clause: &[Lit]) -> Result<(), OutOfMemory>
    requires { AllByRecursion (IsLiteralOver 1999999) clause.now }
    ensures { OnOk result (atoms.new.items ≡ map atom_of clause.now) }
{
    atoms.clear();
    for literal in clause {
        atoms.push(atom(*literal))?;
    }
    Ok(())
}

/// Puts the clauses behind those of the positions of so many variables.
fn write_clauses(
    alloc: Global,
    draft: &mut Draft,
    variables: u32,
    clauses: &ClauseArena,
) -> Result<(), OutOfMemory>
    requires over { AreOver variables clauses.now }
    requires most { variables ≤ 1999999 }
    requires last { draft.old.last ≡ 2 * variables + 1 }
    ensures { (sizes : List ℕ) (made : Asserted) → IsDraft sizes draft.old made →
        OnOk result (IsDraft sizes draft.new (with_clauses made clauses.now)) }
{
    let mut atoms = Vec::new(alloc);
    for index in 0..clauses.count() {
        fill_atoms(&mut atoms, clauses.clause(index))?;
        draft.clause(&atoms)?;
    }
    Ok(())
}

/// The clause list whose rows are the models of the clauses: a position with the values 0 and 1 for each variable, and the
/// clauses behind those of the positions, each literal once and ascending, one with a variable in both signs left out.
/// Refuses, in this order, more than 4,000,000 variables, 8,000,000 clauses and 40,000,000 literals (14, with the limit); for
/// n variables there are 2 n + 1 of the list.
pub fn cnf_form(alloc: Global, cnf: &Cnf) -> Result<Form, Fault>
    requires { AreOver cnf.now.variables cnf.now.clauses }
    ensures form { IfOk result (λ form. form ≡ cnf_axioms (plain_cnf cnf.now)) }
    ensures tells { IfOk result (λ form. Tells form (IsModelOf (plain_cnf cnf.now))) }
    ensures within { OnOk result (cnf_refusal (plain_cnf cnf.now) ≡ None) }
    ensures refused { IfErr result (IsRefusedBy (cnf_refusal (plain_cnf cnf.now))) }
{
    if cnf.variables > 1_999_999 {
        return Err(Fault::Refused(Refusal::past(LimitAt::Variables)));
    }
    let sizes = two_values(alloc, cnf.variables)?;
    let mut draft = Draft::new(alloc, sizes)?;
    write_clauses(alloc, &mut draft, cnf.variables, &cnf.clauses)?;
    draft.close()
}
