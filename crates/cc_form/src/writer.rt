//! Clauses over the positions of a horizon: the literals of terms, and clauses of literals.
ghost use Rattle.std.specs.Prelude.{◌≡◌, ◌+◌, ◌≤◌, ◌<◌, ◌++◌, ◌⊎◌, [], ◌∷◌, List, length, Ok, Err, IsOk, IfOk, IfErr, OnOk};
ghost use Rattle.std.specs.List.{AllByRecursion};
ghost use Rattle.cc_arena.specs.Walks.{arity as arity_of};
ghost use Rattle.cc_defs.specs.Limits.{most_variables};
ghost use Rattle.cc_defs.specs.declared.node.Node.TheVariants as nodes;
ghost use Rattle.cc_defs.specs.ClauseForms.{made_all as made_all_of, made_any as made_any_of, made_same as made_same_of, positive, true_variable};
ghost use Rattle.cc_defs.specs.Clauses.{Literal};
ghost use Rattle.cc_defs.specs.Refusals.{IsRefusedBy};
ghost use Rattle.cc_defs.specs.Terms.{Fits, IsTermOver};
ghost use Rattle.cc_form.specs.Building.{IsBuiltForm, count_refusal};
ghost use Rattle.cc_form.specs.Drafts.{IsWhole};
ghost use Rattle.cc_form.specs.Machine.{first_of, made_node, made_nodes, moved_node, moved_nodes, plain_made, run as run_of, stepped, IsBuilt, IsPast, IsRan, IsReady};
ghost use Rattle.cc_form.specs.Places.{position_sizes};
ghost use Rattle.cc_form.specs.Store.{AreFew, Gives, Holds};

use crate::defining::{define_all, define_any, define_same};
use crate::places::{Places, sizes_of};
use crate::store::Store;
use cc_clauses::ClauseArena;
use cc_defs::{Fault, LimitAt, Lit, Node, Refusal, Sig};
use std::alloc::Global;

/// Makes clauses over the positions of a horizon. Each conjunction, disjunction and equivalence gets a variable of its own
/// (Tseitin, 1968).
#[derive(Drop)]
pub(crate) struct Writer {
    pub(crate) places: Places,
    // The number of the last variable.
    pub(crate) last: u32,
    // The literals of the operands that wait for their node.
    stack: Vec<Lit>,
    pub(crate) store: Store,
}

/// How many operands stand before a node.
fn arity(node: Node) -> usize
    ensures { result ≡ arity_of node }
{
    match node {
        Node::True | Node::False | Node::Atom { .. } => 0,
        Node::Not => 1,
        Node::Same => 2,
        Node::All(count) | Node::Any(count) => count as usize,
    }
}

/// A new variable.
fn fresh(last: &mut u32) -> Result<Lit, Fault>
    requires { last.old ≤ most_variables }
    ensures literal { IfOk result (λ literal. literal ≡ positive (last.old + 1)) }
    ensures last { OnOk result (last.new ≡ last.old + 1) }
    ensures within { OnOk result (last.old + 1 ≤ most_variables) }
    ensures refused { IfErr result (IsPast (last.old + 1)) }
{
    if *last == LimitAt::Variables.number() {
        return Err(Fault::Refused(Refusal::past(LimitAt::Variables)));
    }
    *last += 1;
    Ok(Lit::positive(*last))
}

/// The literal of all of these.
fn made_all(truth: Lit, operands: &[Lit], last: &mut u32, store: &mut Store) -> Result<Lit, Fault>
    requires { last.old ≤ most_variables }
    ensures literal { IfOk result (λ literal. literal ≡ (made_all_of truth
        (record { literals = operands.now; last = last.old; clauses = [] }) operands.now).literal) }
    ensures last { OnOk result (last.new ≡ (made_all_of truth
        (record { literals = operands.now; last = last.old; clauses = [] }) operands.now).last) }
    ensures within { OnOk result (last.new ≤ most_variables) }
    ensures clauses { OnOk result (Gives store.old.kept store.new.kept (made_all_of truth
        (record { literals = operands.now; last = last.old; clauses = [] }) operands.now).clauses) }
    ensures refused { IfErr result (IsPast (made_all_of truth
        (record { literals = operands.now; last = last.old; clauses = [] }) operands.now).last) }
{
    match operands {
        [] => Ok(truth),
        [only] => Ok(*only),
        _ => {
            let x = fresh(last)?;
            define_all(store, x, operands)?;
            Ok(x)
        }
    }
}

/// The literal of one of these.
fn made_any(truth: Lit, operands: &[Lit], last: &mut u32, store: &mut Store) -> Result<Lit, Fault>
    requires { last.old ≤ most_variables }
    ensures literal { IfOk result (λ literal. literal ≡ (made_any_of truth
        (record { literals = operands.now; last = last.old; clauses = [] }) operands.now).literal) }
    ensures last { OnOk result (last.new ≡ (made_any_of truth
        (record { literals = operands.now; last = last.old; clauses = [] }) operands.now).last) }
    ensures within { OnOk result (last.new ≤ most_variables) }
    ensures clauses { OnOk result (Gives store.old.kept store.new.kept (made_any_of truth
        (record { literals = operands.now; last = last.old; clauses = [] }) operands.now).clauses) }
    ensures refused { IfErr result (IsPast (made_any_of truth
        (record { literals = operands.now; last = last.old; clauses = [] }) operands.now).last) }
{
    match operands {
        [] => Ok(truth.opposite()),
        [only] => Ok(*only),
        _ => {
            let x = fresh(last)?;
            define_any(store, x, operands)?;
            Ok(x)
        }
    }
}

/// The literal of both of these, or neither.
fn made_same(f: Lit, g: Lit, last: &mut u32, store: &mut Store) -> Result<Lit, Fault>
    requires { last.old ≤ most_variables }
    ensures literal { IfOk result (λ literal.
        literal ≡ (made_same_of (plain_made f last.old) (plain_made g last.old)).literal) }
    ensures last { OnOk result
        (last.new ≡ (made_same_of (plain_made f last.old) (plain_made g last.old)).last) }
    ensures within { OnOk result (last.new ≤ most_variables) }
    ensures clauses { OnOk result (Gives store.old.kept store.new.kept
        (made_same_of (plain_made f last.old) (plain_made g last.old)).clauses) }
    ensures refused { IfErr result
        (IsPast (made_same_of (plain_made f last.old) (plain_made g last.old)).last) }
{
    let x = fresh(last)?;
    define_same(store, x, f, g)?;
    Ok(x)
}

/// The literal of a node over those of its operands.
fn made(
    places: &Places,
    node: Node,
    offset: u64,
    operands: &[Lit],
    last: &mut u32,
    store: &mut Store,
) -> Result<Lit, Fault>
    requires last { last.old ≤ most_variables }
    requires offset { offset ≤ 9000000000000 }
    requires fits { Fits places.now (moved_node offset node) }
    requires operands { length operands.now ≡ arity_of node }
    ensures literal { IfOk result (λ literal.
        literal ≡ (made_node places.now (moved_node offset node) operands.now last.old).literal) }
    ensures last { OnOk result
        (last.new ≡ (made_node places.now (moved_node offset node) operands.now last.old).last) }
    ensures within { OnOk result (last.new ≤ most_variables) }
    ensures clauses { OnOk result (Gives store.old.kept store.new.kept
        (made_node places.now (moved_node offset node) operands.now last.old).clauses) }
    ensures refused { IfErr result
        (IsPast (made_node places.now (moved_node offset node) operands.now last.old).last) }
{
    match node {
        Node::True => Ok(places.truth()),
        Node::False => Ok(places.truth().opposite()),
        Node::Atom { constant, value } => Ok(places.atom(offset + u64::from(constant), value)),
        Node::Not => Ok(operands[0].opposite()),
        Node::All(_) => made_all(places.truth(), operands, last, store),
        Node::Any(_) => made_any(places.truth(), operands, last, store),
        Node::Same => made_same(operands[0], operands[1], last, store),
    }
}

impl Writer {
    /// One with no clauses.
    pub(crate) fn new(alloc: Global, sizes: Vec<u32>) -> Result<Writer, Fault>
        ensures places { IfOk result (λ writer. writer.places ≡ sizes.items) }
        ensures last { IfOk result (λ writer. writer.last ≡ true_variable sizes.items) }
        ensures within { OnOk result (true_variable sizes.items ≤ most_variables) }
        ensures clauses { IfOk result (λ writer. Holds writer.store.kept []) }
        ensures refused { IfErr result (IsPast (true_variable sizes.items)) }
    {
        let places = Places::new(alloc, sizes)?;
        let last = places.last();
        Ok(Writer {
            places,
            last,
            stack: Vec::new(alloc),
            store: Store::new(alloc),
        })
    }

    /// One over the positions of a horizon, with no clauses.
    pub(crate) fn over(alloc: Global, sig: &Sig, horizon: u32) -> Result<Writer, Fault>
        ensures places { IfOk result (λ writer.
            writer.places ≡ position_sizes sig.now horizon) }
        ensures last { IfOk result (λ writer.
            writer.last ≡ true_variable (position_sizes sig.now horizon)) }
        ensures within { OnOk result
            (true_variable (position_sizes sig.now horizon) ≤ most_variables) }
        ensures clauses { IfOk result (λ writer. Holds writer.store.kept []) }
        ensures refused { IfErr result (IsPast (true_variable (position_sizes sig.now horizon))) }
    {
        let sizes = sizes_of(alloc, sig, horizon)?;
        Writer::new(alloc, sizes)
    }

    /// One of no positions and with no clauses.
    pub(crate) fn none(alloc: Global) -> Writer
        ensures form { IsBuiltForm result }
        ensures whole { IsWhole result }
    {
        Writer {
            places: Places::none(alloc),
            last: 1,
            stack: Vec::new(alloc),
            store: Store::new(alloc),
        }
    }

    /// A node takes the literals of its operands from the stack, and puts its own there.
    pub(crate) fn step(&mut self, node: Node, offset: u64) -> Result<(), Fault>
        requires last { self.old.last ≤ most_variables }
        requires offset { offset ≤ 9000000000000 }
        requires fits { Fits self.old.places (moved_node offset node) }
        requires operands { arity_of node ≤ length self.old.stack.items }
        ensures ran { OnOk result (IsRan self.old self.new
            (stepped self.old.places (moved_node offset node) self.old.stack.items self.old.last)) }
        ensures refused { IfErr result (IsPast (stepped self.old.places
            (moved_node offset node) self.old.stack.items self.old.last).last) }
    {
        let start = self.stack.len() - arity(node);
        let operands = &self.stack[start..];
        let literal = made(
            &self.places,
            node,
            offset,
            operands,
            &mut self.last,
            &mut self.store,
        )?;
        self.stack.truncate(start);
        self.stack.push(literal)?;
        Ok(())
    }

    /// Puts the literal of an atom of a position on the stack.
    pub(crate) fn step_atom(&mut self, position: u64, value: u32) -> Result<(), Fault>
        requires last { self.old.last ≤ most_variables }
        requires fits { Fits self.old.places (nodes.Atom position value) }
        ensures ran { OnOk result (IsRan self.old self.new (stepped self.old.places
            (nodes.Atom position value) self.old.stack.items self.old.last)) }
        ensures refused { IfErr result (IsPast (stepped self.old.places
            (nodes.Atom position value) self.old.stack.items self.old.last).last) }
    {
        self.stack.push(self.places.atom(position, value))?;
        Ok(())
    }

    /// Puts the literal of a term on the stack, whose constants stand so many positions behind their numbers.
    pub(crate) fn run(&mut self, term: &[Node], offset: u64) -> Result<(), Fault>
        requires last { self.old.last ≤ most_variables }
        requires offset { offset ≤ 9000000000000 }
        requires fits { AllByRecursion (Fits self.old.places) (moved_nodes offset term.now) }
        requires ready { IsReady (length self.old.stack.items) (moved_nodes offset term.now) }
        ensures ran { OnOk result (IsRan self.old self.new (run_of self.old.places
            (moved_nodes offset term.now) self.old.stack.items self.old.last)) }
        ensures refused { IfErr result (IsPast (run_of self.old.places
            (moved_nodes offset term.now) self.old.stack.items self.old.last).last) }
    {
        for node in term {
            self.step(*node, offset)?;
        }
        Ok(())
    }

    /// Begins with a term.
    pub(crate) fn begin(&mut self)
        ensures places { self.new.places ≡ self.old.places }
        ensures last { self.new.last ≡ self.old.last }
        ensures kept { self.new.store ≡ self.old.store }
        ensures stack { self.new.stack.items ≡ [] }
    {
        self.stack.clear();
    }

    /// The literal of the term that was begun.
    pub(crate) fn end(&self) -> Lit
        requires { 0 < length self.now.stack.items }
        ensures { result ≡ first_of self.now.stack.items }
    {
        self.stack[0]
    }

    /// The literal of a term, whose constants stand so many positions behind their numbers.
    pub(crate) fn literal(&mut self, term: &[Node], offset: u64) -> Result<Lit, Fault>
        requires last { self.old.last ≤ most_variables }
        requires offset { offset ≤ 9000000000000 }
        requires term { IsTermOver self.old.places (moved_nodes offset term.now) }
        ensures literal { IfOk result (λ literal. literal
            ≡ (made_nodes self.old.places self.old.last (moved_nodes offset term.now)).literal) }
        ensures built { OnOk result (IsBuilt self.old self.new
            (made_nodes self.old.places self.old.last (moved_nodes offset term.now)).last
            (made_nodes self.old.places self.old.last (moved_nodes offset term.now)).clauses) }
        ensures refused { IfErr result
            (IsPast (made_nodes self.old.places self.old.last (moved_nodes offset term.now)).last) }
    {
        self.begin();
        self.run(term, offset)?;
        Ok(self.end())
    }

    /// Refuses more clauses or literals than their limits.
    pub(crate) fn fits(&self) -> Result<(), Fault>
        ensures kept { (clauses : List (List Literal)) →
            Holds self.now.store.kept clauses → OnOk result (self.now.store.kept.arena ≡ clauses) }
        ensures few { (clauses : List (List Literal)) →
            Holds self.now.store.kept clauses → OnOk result (AreFew clauses) }
        ensures refused { (clauses : List (List Literal)) →
            Holds self.now.store.kept clauses → IfErr result (IsRefusedBy (count_refusal clauses)) }
    {
        if self.store.is_full() {
            return Err(Fault::Refused(Refusal::past(LimitAt::AxiomClauses)));
        }
        if self.store.kept.is_long {
            return Err(Fault::Refused(Refusal::past(LimitAt::AxiomLiterals)));
        }
        Ok(())
    }

    /// What was made, where the clauses and literals are within their limits.
    pub(crate) fn within<X: Drop>(&self, made: Result<X, Fault>) -> Result<X, Fault>
        ensures made { IfOk result (λ it. made ≡ Ok it) }
        ensures kept { (clauses : List (List Literal)) →
            Holds self.now.store.kept clauses → OnOk result (self.now.store.kept.arena ≡ clauses) }
        ensures few { (clauses : List (List Literal)) →
            Holds self.now.store.kept clauses → OnOk result (AreFew clauses) }
        ensures refused { IfErr result (λ fault. (made ≡ Err fault)
            ⊎ (IsOk made × ((clauses : List (List Literal)) → Holds self.now.store.kept clauses →
            IsRefusedBy (count_refusal clauses) fault))) }
    {
        let it = made?;
        self.fits()?;
        Ok(it)
    }

    /// The positions, the number of the last variable, and the clauses.
    pub(crate) fn close(self) -> (Places, u32, ClauseArena)
        ensures places { result.0 ≡ self.places }
        ensures last { result.1 ≡ self.last }
        ensures clauses { result.2 ≡ self.store.kept.arena }
    {
        let Writer {
            places,
            last,
            stack: _,
            store,
        } = self;
        (places, last, store.close())
    }
}
