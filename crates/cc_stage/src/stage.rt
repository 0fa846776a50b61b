//! A clause that is being derived.
ghost use Rattle.std.specs.Prelude.{◌≡◌, ◌<◌, ◌≤◌, ◌↔◌, [], IsTrue, OnOk, OnErr, Contains};
ghost use Rattle.cc_defs.specs.Clauses.{Literal, Clash, IsClause, IsIn, IsResolvent};
ghost use Rattle.cc_defs.specs.Limits.{most_variables};
ghost use Rattle.cc_stage.specs.Marks.{IsCovered, clause_of};

use crate::marks::{clash_on, clear, has, make_room, put_all, unmark};
use crate::order::write_marked;
use cc_defs::{Lit, OutOfMemory};
use std::alloc::Global;
use std::marker::Model;

/// A clause, kept as marks of its literals: a step of resolution reads the other clause once, however wide this one is. Its
/// literals are put in order only where it is written.
#[derive(Drop)]
pub struct Stage {
    // By the number of a literal, whether the clause has it; it has none that there is no mark of.
    marks: Vec<bool>,
    // Where marks may be.
    touched: Vec<Lit>,
}

impl Model for Stage {
    ghost use Rattle.std.specs.Prelude.{List};
    ghost use Rattle.cc_defs.specs.Clauses.{Literal};

    ghost Value = { List Literal };

    ghost use Rattle.cc_stage.specs.Parts.{view_of, IsStage};

    ghost view = { view_of };

    ghost invariant = { IsStage };
}

// Marks the literals of a clause in the place of those that are marked.
fn begin_with(
    marks: &mut Vec<bool>,
    touched: &mut Vec<Lit>,
    clause: &[Lit],
) -> Result<(), OutOfMemory>
    requires clause { IsClause clause.now }
    requires some { (literal : Literal) → Contains clause.now literal → 0 < literal.variable }
    requires covered { IsCovered marks.old.items touched.old.items }
    ensures covered { IsCovered marks.new.items touched.new.items }
    ensures begun { OnOk result (clause_of marks.new.items ≡ clause.now) }
    ensures kept { OnErr result (clause_of marks.new.items ≡ clause_of marks.old.items) }
{
    make_room(marks, touched, clause)?;
    clear(marks, touched);
    touched.clear();
    put_all(marks, touched, clause, 0);
    Ok(())
}

// Resolves what is marked with a clause on the pivot.
fn resolve_with(
    marks: &mut Vec<bool>,
    touched: &mut Vec<Lit>,
    clause: &[Lit],
    pivot: u32,
) -> Result<(), OutOfMemory>
    requires clause { IsClause clause.now }
    requires clash { Clash (clause_of marks.old.items) clause.now pivot }
    requires covered { IsCovered marks.old.items touched.old.items }
    ensures covered { IsCovered marks.new.items touched.new.items }
    ensures resolved { OnOk result
        (IsResolvent (clause_of marks.old.items) clause.now pivot (clause_of marks.new.items)) }
    ensures kept { OnErr result (clause_of marks.new.items ≡ clause_of marks.old.items) }
{
    make_room(marks, touched, clause)?;
    unmark(marks, pivot);
    put_all(marks, touched, clause, pivot);
    Ok(())
}

impl Stage {
    /// The empty clause, which takes no memory.
    pub fn new(alloc: Global) -> Stage
        ensures { result ≡ [] }
    {
        Stage {
            marks: Vec::new(alloc),
            touched: Vec::new(alloc),
        }
    }

    /// Whether the clause has a literal.
    pub fn has(&self, literal: Lit) -> bool
        ensures { IsTrue result ↔ Contains self.now literal }
    {
        has(&self.marks, literal)
    }

    /// The literals of the clause, and perhaps others. Those that a step brought stand behind those that were there before.
    pub fn touched(&self) -> &[Lit]
        ensures { (literal : Literal) →
            Contains self.now literal → IsIn result.now literal }
    {
        &self.touched
    }

    /// Whether the clause and another one have a resolvent on a variable, the pivot. The other one is read only where this
    /// clause has the pivot in one sign alone.
    pub fn clashes(&self, clause: &[Lit], pivot: u32) -> bool
        requires some { 1 ≤ pivot }
        requires most { pivot ≤ most_variables }
        ensures { IsTrue result ↔ Clash self.now clause.now pivot }
    {
        clash_on(&self.marks, clause, pivot)
    }

    /// Puts another clause in the place of this one. It takes time for the literals of both, and not for each variable.
    pub fn begin(&mut self, clause: &[Lit]) -> Result<(), OutOfMemory>
        requires clause { IsClause clause.now }
        requires some { (literal : Literal) → Contains clause.now literal → 0 < literal.variable }
        ensures begun { OnOk result (self.new ≡ clause.now) }
        ensures kept { OnErr result (self.new ≡ self.old) }
    {
        begin_with(&mut self.marks, &mut self.touched, clause)
    }

    /// Resolves the clause with another one on the pivot. It takes time for the literals of the other one alone.
    pub fn resolve(&mut self, clause: &[Lit], pivot: u32) -> Result<(), OutOfMemory>
        requires clause { IsClause clause.now }
        requires clash { Clash self.old clause.now pivot }
        ensures resolved { OnOk result (IsResolvent self.old clause.now pivot self.new) }
        ensures kept { OnErr result (self.new ≡ self.old) }
    {
        resolve_with(&mut self.marks, &mut self.touched, clause, pivot)
    }

    /// Writes the clause in the place of what is there, which after want of memory may be anything.
    pub fn write_to(&self, out: &mut Vec<Lit>) -> Result<(), OutOfMemory>
        ensures { OnOk result (out.new.items ≡ self.now) }
    {
        write_marked(&self.marks, &self.touched, out)
    }
}
