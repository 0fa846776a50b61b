//! Clauses over positions, one after another, whose limits are looked at in the end.
ghost use Rattle.std.specs.Prelude.{◌≡◌, ◌≤◌, ℕ, List, [], sum, IfOk, IfErr, OnOk, OnErr, None};
ghost use Rattle.std.specs.List.{AllByRecursion};
ghost use Rattle.cc_defs.specs.ClauseForms.{true_variable};
ghost use Rattle.cc_defs.specs.ClauseLists.{Asserted};
ghost use Rattle.cc_defs.specs.Clauses.{IsLiteralOver};
ghost use Rattle.cc_defs.specs.Limits.{most_variables};
ghost use Rattle.cc_defs.specs.Refusals.{IsRefusedBy};
ghost use Rattle.cc_defs.specs.Terms.{IsTermOver};
ghost use Rattle.cc_form.specs.Building.{IsBuiltForm, count_refusal};
ghost use Rattle.cc_form.specs.Drafts.{IsDraft, IsWhole, with_clause, with_nodes};
ghost use Rattle.cc_form.specs.Machine.{IsPast, made_nodes, moved_nodes};
ghost use Rattle.cc_form.specs.Parts.{axioms_behind, first_clauses};
ghost use Rattle.cc_form.specs.Store.{Gives};

use crate::defining::write_all;
use crate::form::{Form, close};
use crate::groups::positions;
use crate::writer::Writer;
use cc_defs::{Fault, Lit, Node, OutOfMemory};
use std::alloc::Global;
use std::marker::Model;

/// A clause list over positions in the making: that a variable is true, that each position has exactly one value, and then
/// what its calls put behind. More clauses or literals than their limits are counted and no longer kept, and refused by
/// `close`; more variables are refused at once. After an `Err` it is a draft of no positions and without clauses.
#[derive(Drop)]
pub struct Draft {
    writer: Writer,
    alloc: Global,
}

impl Model for Draft {
    ghost use Rattle.cc_form.specs.declared.writer.Writer.{Writer};
    ghost use Rattle.cc_form.specs.Building.{IsBuiltForm};

    ghost Value = { Writer };

    ghost view = { λ draft. draft.writer };

    ghost invariant = { λ draft. IsBuiltForm draft.writer };
}

/// Writes that a variable is true, and that each position has exactly one value.
pub(crate) fn write_first(writer: &mut Writer) -> Result<(), OutOfMemory>
    requires { sum writer.old.places ≤ most_variables }
    ensures places { writer.new.places ≡ writer.old.places }
    ensures last { writer.new.last ≡ writer.old.last }
    ensures clauses { OnOk result
        (Gives writer.old.store.kept writer.new.store.kept (first_clauses writer.old.places)) }
{
    let truth = writer.places.truth();
    writer.store.keep_one(truth)?;
    positions(&mut writer.store, writer.places.sizes())
}

/// After an error a writer is one of no positions and with no clauses.
pub(crate) fn emptied<X: Drop, E: Drop>(
    writer: &mut Writer,
    alloc: Global,
    made: Result<X, E>,
) -> Result<X, E>
    ensures made { result ≡ made }
    ensures kept { OnOk made (writer.new ≡ writer.old) }
    ensures form { OnErr made (IsBuiltForm writer.new) }
    ensures whole { OnErr made (IsWhole writer.new) }
{
    if made.is_err() {
        *writer = Writer::none(alloc);
    }
    made
}

impl Draft {
    /// A draft over positions with so many values each. Refuses more than 4,000,000 variables (14).
    pub fn new(alloc: Global, sizes: Vec<u32>) -> Result<Draft, Fault>
        ensures draft { IfOk result (λ draft.
            IsDraft sizes.items draft (record { last = true_variable sizes.items; clauses = [] })) }
        ensures places { IfOk result (λ draft. draft.places ≡ sizes.items) }
        ensures refused { IfErr result (IsPast (true_variable sizes.items)) }
    {
        let mut writer = Writer::new(alloc, sizes)?;
        write_first(&mut writer)?;
        Ok(Draft { writer, alloc })
    }

    /// The writer, with what was put behind.
    pub(crate) fn into_writer(self) -> Writer
        ensures { result ≡ self }
    {
        let Draft { writer, .. } = self;
        writer
    }

    /// The literal of a term, whose constants stand so many positions behind their numbers. Each conjunction, disjunction and
    /// equivalence gets a variable of its own, and its clauses come behind the others. Refuses more than 4,000,000 variables
    /// (14).
    pub fn literal(&mut self, nodes: &[Node], first: u64) -> Result<Lit, Fault>
        requires first { first ≤ 9000000000000 }
        requires term { IsTermOver self.old.places (moved_nodes first nodes.now) }
        ensures literal { (sizes : List ℕ) (made : Asserted) →
            IsDraft sizes self.old made → IfOk result (λ literal.
            literal ≡ (made_nodes sizes made.last (moved_nodes first nodes.now)).literal) }
        ensures draft { (sizes : List ℕ) (made : Asserted) → IsDraft sizes self.old made → OnOk
            result (IsDraft sizes self.new (with_nodes sizes made (moved_nodes first nodes.now))) }
        ensures over { IfOk result (λ literal. IsLiteralOver self.new.last literal) }
        ensures rises { OnOk result (self.old.last ≤ self.new.last) }
        ensures places { OnOk result (self.new.places ≡ self.old.places) }
        ensures refused { (sizes : List ℕ) (made : Asserted) → IsDraft sizes self.old made →
            IfErr result (IsPast (made_nodes sizes made.last (moved_nodes first nodes.now)).last) }
    {
        let made = self.writer.literal(nodes, first);
        emptied(&mut self.writer, self.alloc, made)
    }

    /// Puts a clause behind the others: each literal once, ascending; one with a variable in both signs is left out.
    pub fn clause(&mut self, literals: &[Lit]) -> Result<(), OutOfMemory>
        requires { AllByRecursion (IsLiteralOver self.old.last) literals.now }
        ensures draft { (sizes : List ℕ) (made : Asserted) → IsDraft sizes self.old made →
            OnOk result (IsDraft sizes self.new (with_clause made literals.now)) }
        ensures last { OnOk result (self.new.last ≡ self.old.last) }
        ensures places { OnOk result (self.new.places ≡ self.old.places) }
    {
        let written = write_all(&mut self.writer.store, literals);
        emptied(&mut self.writer, self.alloc, written)
    }

    /// The clause list. Refuses, in this order, more than 8,000,000 clauses and 40,000,000 literals (14, with the limit).
    pub fn close(self) -> Result<Form, Fault>
        ensures form { (sizes : List ℕ) (made : Asserted) →
            IsDraft sizes self made → IfOk result (λ form. form ≡ axioms_behind sizes made) }
        ensures within { (sizes : List ℕ) (made : Asserted) → IsDraft sizes self made →
            OnOk result (count_refusal (axioms_behind sizes made).clauses ≡ None) }
        ensures refused { (sizes : List ℕ) (made : Asserted) → IsDraft sizes self made →
            IfErr result (IsRefusedBy (count_refusal (axioms_behind sizes made).clauses)) }
    {
        let Draft { writer, alloc: _ } = self;
        close(writer)
    }
}
