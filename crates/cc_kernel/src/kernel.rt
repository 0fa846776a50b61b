//! A kernel of clauses: axioms and blocks are given, and a derived clause is only ever the resolvent of a chain.
ghost use Rattle.std.specs.Prelude.{◌≡◌, ℕ, ◌+◌, ◌<◌, ◌≤◌, ◌++◌, ◌∷◌, [], length, All, Contains, Some, None, IfOk, IfSome, OnOk, OnErr, IsTrue, IsSome, ◌↔◌, Ok};
ghost use Rattle.cc_defs.specs.Clauses.{Literal, Clash, IsClause, IsIn, IsOver, IsNumbered, IsResolvent, Reaches};
ghost use Rattle.cc_defs.specs.Limits.{most_variables};
ghost use Rattle.cc_kernel.specs.Kernels.{KernelView, Entry, clauses_of, added, axioms_of, AreClauses, IsThere, AreAxioms, IsStarted, ClashesWith, IsStepped, IsFinished, first_empty, DerivedFollow, empty_after, StageIsReached};
ghost use Rattle.cc_kernel.specs.Parts.{entries_of};

use cc_clauses::ClauseArena;
use cc_clauses::theorems::resolvents_are_sound;
use cc_defs::{Lit, OutOfMemory};
use cc_stage::Stage;
use std::alloc::Global;
use std::marker::Model;

/// Where a clause comes from.
#[derive(Clone, Copy)]
pub enum Origin {
    /// It is one of the clauses that the search starts from.
    Axiom,
    /// It denies a row that was found.
    Block,
    /// It is the resolvent of a chain of earlier clauses.
    Derived,
}

// Where a clause behind the axioms comes from.
#[derive(Clone, Copy)]
enum Later {
    Block,
    Derived,
}

/// Clauses by number, from 1, and one clause that is being derived from them.
#[derive(Drop)]
pub struct Kernel {
    variables: u32,
    // The axioms, and behind them the other clauses.
    clauses: ClauseArena,
    // Where each clause behind the axioms comes from.
    later: Vec<Later>,
    is_staged: bool,
    stage: Stage,
    // Where the staged clause is written when it is added.
    spare: Vec<Lit>,
    chain: Vec<u32>,
    // The number of the first empty clause.
    empty: Option<u32>,
}

// The clause of a number.
fn numbered(clauses: &ClauseArena, id: u32) -> &[Lit]
    requires some { 0 < id }
    requires most { id ≤ length clauses.now }
    ensures { IsNumbered clauses.now id result.now }
{
    clauses.clause(id as usize - 1)
}

// Puts a clause that is no axiom behind those that are there.
fn add(
    clauses: &mut ClauseArena,
    later: &mut Vec<Later>,
    clause: &[Lit],
    origin: Later,
) -> Result<(), OutOfMemory>
    ensures clauses { OnOk result (clauses.new ≡ clauses.old ++ clause.now ∷ []) }
    ensures later { OnOk result (later.new.items ≡ later.old.items ++ origin ∷ []) }
    ensures clauses_kept { OnErr result (clauses.new ≡ clauses.old) }
    ensures later_kept { OnErr result (later.new.items ≡ later.old.items) }
{
    later.reserve(1)?;
    clauses.push(clause)?;
    later.push(origin)?;
    Ok(())
}

// The number of the first empty clause, once there is one more clause.
fn empty_with(empty: Option<u32>, clause: &[Lit], number: u32) -> Option<u32>
    ensures { result ≡ empty_after empty clause.now number }
{
    match empty {
        Some(first) => Some(first),
        None => match clause {
            [] => Some(number),
            _ => None,
        },
    }
}

// The number of the first empty clause.
fn first_empty_of(clauses: &ClauseArena) -> Option<u32>
    requires { length clauses.now ≤ 4000000000 }
    ensures { result ≡ first_empty 1 (axioms_of clauses.now) }
{
    let count = clauses.count();
    for index in 0..count {
        if clauses.clause(index).is_empty() {
            return Some(index as u32 + 1);
        }
    }
    None
}

// Begins a chain with the number of a clause, in the place of an old chain, and a stage with that clause.
fn begin_with(
    stage: &mut Stage,
    chain: &mut Vec<u32>,
    clause: &[Lit],
    id: u32,
) -> Result<(), OutOfMemory>
    requires clause { IsClause clause.now }
    requires some { (literal : Literal) → Contains clause.now literal → 0 < literal.variable }
    ensures stage { OnOk result (stage.new ≡ clause.now) }
    ensures chain { OnOk result (chain.new.items ≡ id ∷ []) }
    ensures stage_kept { OnErr result (stage.new ≡ stage.old) }
    ensures chain_kept { OnErr result (chain.new.items ≡ chain.old.items) }
{
    chain.reserve(1)?;
    stage.begin(clause)?;
    chain.clear();
    chain.push(id)?;
    Ok(())
}

// Resolves a stage with a clause on the pivot, and writes the pair behind its chain.
fn resolve_with(
    stage: &mut Stage,
    chain: &mut Vec<u32>,
    clause: &[Lit],
    pivot: u32,
    id: u32,
) -> Result<(), OutOfMemory>
    requires clause { IsClause clause.now }
    requires clash { Clash stage.old clause.now pivot }
    ensures stage { OnOk result (IsResolvent stage.old clause.now pivot stage.new) }
    ensures chain { OnOk result (chain.new.items ≡ chain.old.items ++ pivot ∷ id ∷ []) }
    ensures stage_kept { OnErr result (stage.new ≡ stage.old) }
    ensures chain_kept { OnErr result (chain.new.items ≡ chain.old.items) }
{
    chain.reserve(2)?;
    stage.resolve(clause, pivot)?;
    chain.push(pivot)?;
    chain.push(id)?;
    Ok(())
}

impl Model for Kernel {
    ghost use Rattle.cc_kernel.specs.Kernels.{KernelView};

    ghost Value = { KernelView };

    ghost use Rattle.cc_kernel.specs.Parts.{view_of, IsKernel};

    ghost view = { view_of };

    ghost invariant = { IsKernel };
}

impl Kernel {
    /// A kernel of no clauses over the variables 1, .., `variables`.
    pub fn new(alloc: Global, variables: u32) -> Result<Kernel, OutOfMemory>
        requires { variables ≤ most_variables }
        ensures { result
            ≡ Ok (record { variables = variables; entries = []; staged = None; chain = [] }) }
    {
        Ok(Kernel::of(alloc, variables, ClauseArena::new(alloc)))
    }

    /// A kernel over the variables 1, .., `variables` whose axioms are these clauses. It takes no memory.
    pub fn of(alloc: Global, variables: u32, axioms: ClauseArena) -> Kernel
        requires variables { variables ≤ most_variables }
        requires few { length axioms ≤ 4000000000 }
        requires clauses { All IsClause axioms }
        requires over { All (IsOver variables) axioms }
        ensures kernel { result ≡ record {
          variables = variables;
          entries = axioms_of axioms;
          staged = None;
          chain = [];
        } }
        ensures axioms { AreAxioms result.entries }
    {
        let first = first_empty_of(&axioms);
        Kernel {
            variables,
            clauses: axioms,
            later: Vec::new(alloc),
            is_staged: false,
            stage: Stage::new(alloc),
            spare: Vec::new(alloc),
            chain: Vec::new(alloc),
            empty: first,
        }
    }

    /// How many variables there are.
    pub fn variables(&self) -> u32
        ensures variables { result ≡ self.now.variables }
        ensures most { result ≤ most_variables }
        ensures clauses { AreClauses self.now.variables self.now.entries }
        ensures reached { StageIsReached self.now }
    {
        self.variables
    }

    /// How many clauses there are.
    pub fn count(&self) -> u32
        ensures { result ≡ length self.now.entries }
    {
        self.clauses.count() as u32
    }

    /// Adds a clause that the search starts from, and returns its number.
    pub fn axiom(&mut self, clause: &[Lit]) -> Result<u32, OutOfMemory>
        requires clause { IsClause clause.now }
        requires over { IsOver self.old.variables clause.now }
        requires few { length self.old.entries < 4000000000 }
        requires axioms { AreAxioms self.old.entries }
        ensures number { IfOk result (λ number. number ≡ length self.old.entries + 1) }
        ensures added { OnOk result (self.new ≡ added self.old clause.now Origin.Axiom) }
        ensures axioms { AreAxioms self.new.entries }
        ensures kept { OnErr result (self.new ≡ self.old) }
    {
        let number = self.count() + 1;
        self.clauses.push(clause)?;
        self.empty = empty_with(self.empty, clause, number);
        Ok(number)
    }

    /// Adds a clause that denies a row that was found, and returns its number.
    pub fn block(&mut self, clause: &[Lit]) -> Result<u32, OutOfMemory>
        requires clause { IsClause clause.now }
        requires over { IsOver self.old.variables clause.now }
        requires few { length self.old.entries < 4000000000 }
        ensures number { IfOk result (λ number. number ≡ length self.old.entries + 1) }
        ensures added { OnOk result (self.new ≡ added self.old clause.now Origin.Block) }
        ensures kept { OnErr result (self.new ≡ self.old) }
    {
        let number = self.count() + 1;
        add(&mut self.clauses, &mut self.later, clause, Later::Block)?;
        self.empty = empty_with(self.empty, clause, number);
        Ok(number)
    }

    /// The clause of a number.
    pub fn clause(&self, id: u32) -> &[Lit]
        requires { IsThere self.now id }
        ensures clause { IsNumbered (clauses_of self.now) id result.now }
        ensures is_clause { IsClause result.now }
        ensures over { IsOver self.now.variables result.now }
        ensures follow { DerivedFollow self.now.entries }
    {
        numbered(&self.clauses, id)
    }

    /// Begins a derivation with the clause of a number. One that had begun is given up.
    pub fn start(&mut self, id: u32) -> Result<(), OutOfMemory>
        requires { IsThere self.old id }
        ensures started { OnOk result (IsStarted self.old self.new id) }
        ensures kept { OnErr result (self.new ≡ self.old) }
    {
        let clause = numbered(&self.clauses, id);
        begin_with(&mut self.stage, &mut self.chain, clause, id)?;
        self.is_staged = true;
        Ok(())
    }

    /// Whether the staged clause and the clause of a number have a resolvent on the pivot.
    pub fn clashes(&self, pivot: u32, id: u32) -> bool
        requires staged { IsSome self.now.staged }
        requires there { IsThere self.now id }
        requires some { 1 ≤ pivot }
        requires most { pivot ≤ self.now.variables }
        ensures { IsTrue result ↔ ClashesWith self.now pivot id }
    {
        self.stage.clashes(numbered(&self.clauses, id), pivot)
    }

    /// Resolves the staged clause with the clause of a number on the pivot.
    pub fn step(&mut self, pivot: u32, id: u32) -> Result<(), OutOfMemory>
        requires { ClashesWith self.old pivot id }
        ensures resolved { OnOk result (IsStepped self.old self.new pivot id) }
        ensures kept { OnErr result (self.new ≡ self.old) }
    {
        let other = numbered(&self.clauses, id);
        resolve_with(&mut self.stage, &mut self.chain, other, pivot, id)?;
        Ok(())
    }

    /// Whether the staged clause has a literal.
    pub fn stages(&self, lit: Lit) -> bool
        requires { IsSome self.now.staged }
        ensures { IfSome self.now.staged (λ clause. IsTrue result ↔ Contains clause lit) }
    {
        self.stage.has(lit)
    }

    /// The literals of the staged clause, and perhaps others. Those that a step brought stand behind those that were there before.
    pub fn touched(&self) -> &[Lit]
        ensures touched { IfSome self.now.staged (λ clause. (literal : Literal) →
            Contains clause literal → IsIn result.now literal) }
        ensures reached { StageIsReached self.now }
    {
        self.stage.touched()
    }

    /// The chain of the staged clause, or else of the last one that was finished: the number of the clause that it
    /// began with, and then each pivot and the number of the clause that was resolved with.
    pub fn chain(&self) -> &[u32]
        ensures { result.now ≡ self.now.chain }
    {
        &self.chain
    }

    /// Ends the derivation: adds the staged clause, and returns its number.
    pub fn finish(&mut self) -> Result<u32, OutOfMemory>
        requires staged { IsSome self.old.staged }
        requires few { length self.old.entries < 4000000000 }
        ensures number { IfOk result (λ number. number ≡ length self.old.entries + 1) }
        ensures added { OnOk result (IsFinished self.old self.new) }
        ensures reached { IfSome self.old.staged (λ clause.
            Reaches (clauses_of self.old) self.old.chain clause) }
        ensures follow { DerivedFollow self.new.entries }
        ensures kept { OnErr result (self.new ≡ self.old) }
    {
        resolvents_are_sound();
        let number = self.count() + 1;
        self.stage.write_to(&mut self.spare)?;
        let stage = self.spare.as_slice();
        add(&mut self.clauses, &mut self.later, stage, Later::Derived)?;
        self.empty = empty_with(self.empty, stage, number);
        self.is_staged = false;
        Ok(number)
    }

    /// The number of the first empty clause, if there is one.
    pub fn refuted(&self) -> Option<u32>
        ensures { result ≡ first_empty 1 self.now.entries }
    {
        self.empty
    }
}
