//! Clauses over positions, one after another, that are always within their limits.
ghost use Rattle.std.specs.Prelude.{◌≡◌, ◌≤◌, ℕ, List, [], ◌∷◌, Contains, IsOk, IfOk, IfErr, OnOk, None, slice_index};
ghost use Rattle.std.specs.List.{AllByRecursion};
ghost use Rattle.cc_defs.specs.ClauseForms.{positive, true_variable};
ghost use Rattle.cc_defs.specs.Clauses.{IsLiteralOver};
ghost use Rattle.cc_defs.specs.Refusals.{IsRefusedBy};
ghost use Rattle.cc_defs.specs.declared.refusal.Fault.TheVariants as faults;
ghost use Rattle.cc_defs.specs.Terms.{Ground, IsTermOver, postfix, truth};
ghost use Rattle.cc_form.specs.Drafts.{Extends, IsDraft, axioms_refusal, clause_behind, nodes_behind};
ghost use Rattle.cc_form.specs.Machine.{made_nodes, moved_nodes};
ghost use Rattle.cc_form.specs.Parts.{axioms_behind};

use crate::defining::write_all;
use crate::draft::{Draft, emptied};
use crate::form::{Form, form_of_whole};
use crate::writer::Writer;
use cc_defs::{Fault, Lit, Node, OutOfMemory};
use std::alloc::Global;
use std::marker::Model;

/// A clause list over positions that grows and is within its limits after each call: that a variable is true, that each
/// position has exactly one value, and after these what its calls add. After an `Err` it is one of no positions and without
/// clauses.
#[derive(Drop)]
pub struct Builder {
    writer: Writer,
    alloc: Global,
}

impl Model for Builder {
    ghost use Rattle.cc_defs.specs.Sections.{Axioms};
    ghost use Rattle.cc_form.specs.Drafts.{IsWhole};

    ghost Value = { Axioms };

    ghost view = { λ builder. record {
      sizes = builder.writer.places;
      variables = builder.writer.last;
      clauses = builder.writer.store.kept.arena;
    } };

    ghost invariant = { λ builder. IsWhole builder.writer };
}

/// What was written; else the fault that memory was wanting.
fn fault_of(written: Result<(), OutOfMemory>) -> Result<(), Fault>
    ensures written { OnOk result (IsOk written) }
    ensures fault { IfErr result (λ fault. fault ≡ faults.OutOfMemory) }
{
    written?;
    Ok(())
}

/// The list of a draft that has the first clauses alone, where it is within its limits.
fn begun(alloc: Global, draft: Draft, sizes: &[u32]) -> Result<Builder, Fault>
    requires { IsDraft
        sizes.now draft (record { last = true_variable sizes.now; clauses = [] }) }
    ensures built { IfOk result (λ builder. builder
        ≡ axioms_behind sizes.now (record { last = true_variable sizes.now; clauses = [] })) }
    ensures within { OnOk result (axioms_refusal (axioms_behind sizes.now
        (record { last = true_variable sizes.now; clauses = [] })) ≡ None) }
    ensures refused { IfErr result (IsRefusedBy (axioms_refusal
        (axioms_behind sizes.now (record { last = true_variable sizes.now; clauses = [] })))) }
{
    let writer = draft.into_writer();
    writer.fits()?;
    Ok(Builder { writer, alloc })
}

impl Builder {
    /// A list over positions with so many values each. Refuses, in this order, more than 4,000,000 variables, 8,000,000
    /// clauses and 40,000,000 literals (14, with the limit), as each call does that adds something.
    pub fn new(alloc: Global, sizes: &[u32]) -> Result<Builder, Fault>
        ensures built { IfOk result (λ builder. builder
            ≡ axioms_behind sizes.now (record { last = true_variable sizes.now; clauses = [] })) }
        ensures within { OnOk result (axioms_refusal (axioms_behind sizes.now
            (record { last = true_variable sizes.now; clauses = [] })) ≡ None) }
        ensures refused { IfErr result (IsRefusedBy (axioms_refusal
            (axioms_behind sizes.now (record { last = true_variable sizes.now; clauses = [] })))) }
    {
        let own = Vec::from_slice(alloc, sizes)?;
        let draft = Draft::new(alloc, own)?;
        begun(alloc, draft, sizes)
    }

    /// The literal of a term in postfix order, whose constants are numbered from the position `first` on. Each conjunction,
    /// disjunction and equivalence gets a variable of its own, after the others, with the clauses that define it (Tseitin's
    /// translation). The rows of the clauses stay, and in each of them the literal is true exactly where the term is.
    pub fn literal(&mut self, nodes: &[Node], first: u64) -> Result<Lit, Fault>
        requires first { first ≤ 9000000000000 }
        requires term { IsTermOver self.old.sizes (moved_nodes first nodes.now) }
        ensures literal { IfOk result (λ literal. literal ≡ (made_nodes
            self.old.sizes self.old.variables (moved_nodes first nodes.now)).literal) }
        ensures built { OnOk result
            (self.new ≡ nodes_behind self.old (moved_nodes first nodes.now)) }
        ensures over { IfOk result (λ literal. IsLiteralOver self.new.variables literal) }
        ensures rises { OnOk result (self.old.variables ≤ self.new.variables) }
        ensures extends { (term : Ground) → postfix term ≡ moved_nodes first nodes.now →
            Contains self.old.clauses (positive (true_variable self.old.sizes) ∷ []) →
            IfOk result (λ literal. Extends self.old self.new literal (λ row.
            truth (λ position. slice_index row position) term)) }
        ensures within { OnOk result
            (axioms_refusal (nodes_behind self.old (moved_nodes first nodes.now)) ≡ None) }
        ensures refused { IfErr result
            (IsRefusedBy (axioms_refusal (nodes_behind self.old (moved_nodes first nodes.now)))) }
    {
        let made = self.writer.literal(nodes, first);
        let fits = self.writer.within(made);
        emptied(&mut self.writer, self.alloc, fits)
    }

    /// Adds a clause at the end: each literal once, ascending by variable; one with a variable in both signs is left out.
    pub fn clause(&mut self, lits: &[Lit]) -> Result<(), Fault>
        requires { AllByRecursion (IsLiteralOver self.old.variables) lits.now }
        ensures built { OnOk result (self.new ≡ clause_behind self.old lits.now) }
        ensures within { OnOk result (axioms_refusal (clause_behind self.old lits.now) ≡ None) }
        ensures refused { IfErr result
            (IsRefusedBy (axioms_refusal (clause_behind self.old lits.now))) }
    {
        let written = fault_of(write_all(&mut self.writer.store, lits));
        let fits = self.writer.within(written);
        emptied(&mut self.writer, self.alloc, fits)
    }

    /// The clause list that was built.
    pub fn close(self) -> Form
        ensures { result ≡ self }
    {
        let Builder { writer, alloc: _ } = self;
        form_of_whole(writer)
    }
}
