//! Makes the nodes of terms, in one list that grows.
ghost use Rattle.std.specs.Prelude.{◌≡◌, ◌∷◌, ◌++◌, ◌+◌, ◌<◌, [], ℕ, length, map, position, nat_eq, OnOk, IfErr, IfOk};
ghost use Rattle.cc_defs.specs.Terms.{all_of, postfix, postfixes, operand_count, operands_behind, nothing};
ghost use Rattle.cc_defs.specs.Terms as terms;
ghost use Rattle.cc_defs.specs.Resolved.{plain_formula, plain_term};
ghost use Rattle.cc_defs.specs.Resolved as resolved;
ghost use Rattle.cc_defs.specs.Nodes.{nodes_of};
ghost use Rattle.cc_defs.specs.Nodes as words;
ghost use Rattle.cc_defs.specs.Universe.{objects_of as objects_in};
ghost use Rattle.cc_defs.specs.Satisfaction.{bind};
ghost use Rattle.cc_ground.specs.Bindings.{environment_of, no_bindings};
ghost use Rattle.cc_ground.specs.Views.{HasPut, IsLike, LacksRoom, fault_by, plain_side, universe_in};

use crate::bindings::Bindings;
use crate::outermost::{joining_node, sign_in};
use crate::pieces::{Sign, has_sum};
use crate::sides::{Side, term_side};
use crate::values::{index_in, objects_of};
use cc_arena::Terms;
use cc_defs::{Fault, Formula, LimitAt, Node, OutOfMemory, Refusal, Sig, Term};
use cc_sorts::Table;
use std::alloc::{AllocFailed, Global};

/// Why nodes are not made.
#[derive(Clone, Copy)]
pub(crate) enum Halt {
    /// There would be more of them than the limit.
    Full,
    OutOfMemory,
}

impl<T: Drop> From<AllocFailed<T>> for Halt {
    ghost use Rattle.std.specs.Prelude.{◌≡◌};
    ghost use Rattle.cc_ground.specs.declared.maker.Halt.TheVariants as halts;

    ghost from_gives = { λ _ halt. halt ≡ halts.OutOfMemory };

    fn from(_: AllocFailed<T>) -> Self {
        Halt::OutOfMemory
    }
}

impl From<OutOfMemory> for Halt {
    ghost use Rattle.std.specs.Prelude.{◌≡◌};
    ghost use Rattle.cc_ground.specs.declared.maker.Halt.TheVariants as halts;

    ghost from_gives = { λ _ halt. halt ≡ halts.OutOfMemory };

    fn from(_: OutOfMemory) -> Self {
        Halt::OutOfMemory
    }
}

/// The fault by which a call ends that stopped making nodes.
pub(crate) fn fault_of(halt: Halt) -> Fault
    ensures { result ≡ fault_by halt }
{
    match halt {
        Halt::Full => Fault::Refused(Refusal::past(LimitAt::GroundNodes)),
        Halt::OutOfMemory => Fault::OutOfMemory,
    }
}

/// A number of 32 bits. What would be larger does not fit in memory.
pub(crate) fn narrow(number: usize) -> Result<u32, OutOfMemory>
    ensures { IfOk result (λ narrow. narrow ≡ number) }
{
    u32::try_from(number).map_err(|_| OutOfMemory)
}

/// Makes the nodes of terms.
pub(crate) struct Maker<'t> {
    pub(crate) table: &'t Table,
    pub(crate) sig: &'t Sig,
    /// What the variables stand for.
    pub(crate) env: Bindings,
    /// The nodes of the term that is being made.
    pub(crate) nodes: Vec<Node>,
    /// How many nodes may still be made.
    pub(crate) room: usize,
}

// By hand, so that whoever lets one go has one call there, and not a drop for each field.
impl<'t> Drop for Maker<'t> {
    fn drop(self) {
        let Maker {
            table: _,
            sig: _,
            env: _,
            nodes: _,
            room: _,
        } = self;
    }
}

impl<'t> Maker<'t> {
    /// With room for so many nodes.
    pub(crate) fn new(alloc: Global, table: &'t Table, sig: &'t Sig, room: usize) -> Maker<'t>
        ensures table { result.table.now ≡ table.now }
        ensures sig { result.sig.now ≡ sig.now }
        ensures env { result.env ≡ no_bindings }
        ensures nodes { result.nodes.items ≡ [] }
        ensures room { result.room ≡ room }
    {
        Maker {
            table,
            sig,
            env: Bindings::new(alloc),
            nodes: Vec::new(alloc),
            room,
        }
    }

    pub(crate) fn push(&mut self, node: Node) -> Result<(), Halt>
        ensures put { OnOk result (HasPut (node ∷ []) self.old self.new) }
        ensures full { IfErr result (LacksRoom 1 self.old.room) }
    {
        if self.room == 0 {
            return Err(Halt::Full);
        }
        self.nodes.push(node)?;
        self.room -= 1;
        Ok(())
    }

    /// A constant has a value, which may be none of its own.
    fn put_atom(&mut self, constant: u32, values: &[u32], value: u32) -> Result<(), Halt>
        ensures put { OnOk result
            (HasPut (postfix (words.atom constant values.now value)) self.old self.new) }
        ensures full { IfErr result
            (LacksRoom (length (postfix (words.atom constant values.now value))) self.old.room) }
    {
        match index_in(values, value) {
            Some(index) => {
                let value = narrow(index)?;
                self.push(Node::Atom { constant, value })
            }
            None => self.push(Node::False),
        }
    }

    /// Both constants have the value with these indexes.
    pub(crate) fn put_both(
        &mut self,
        constant: u32,
        value: u32,
        other: u32,
        place: u32,
    ) -> Result<(), Halt>
        ensures put { OnOk result (HasPut (postfix
            (all_of (terms.Atom constant value ∷ terms.Atom other place ∷ []))) self.old self.new) }
        ensures full { IfErr result (LacksRoom 3 self.old.room) }
    {
        self.push(Node::Atom { constant, value })?;
        self.push(Node::Atom {
            constant: other,
            value: place,
        })?;
        self.push(Node::All(2))
    }

    /// Both constants have the value at these places.
    fn put_common(
        &mut self,
        constant: u32,
        index: usize,
        other: u32,
        place: usize,
    ) -> Result<(), Halt>
        ensures put { OnOk result (HasPut (postfix
            (all_of (terms.Atom constant index ∷ terms.Atom other place ∷ []))) self.old self.new) }
        ensures full { IfErr result (LacksRoom 3 self.old.room) }
    {
        let value = narrow(index)?;
        let place = narrow(place)?;
        self.put_both(constant, value, other, place)
    }

    /// For each common value, in the order of the first constant's: both have it. Answers how many there are.
    fn put_commons(
        &mut self,
        constant: u32,
        values: &[u32],
        other: u32,
        others: &[u32],
    ) -> Result<u32, Halt>
        ensures put { OnOk result (HasPut (postfixes (operands_behind nothing
            (words.common_values constant 0 values.now other others.now))) self.old self.new) }
        ensures count { IfOk result (λ count. count ≡ operand_count (operands_behind nothing
            (words.common_values constant 0 values.now other others.now))) }
        ensures full { IfErr result (LacksRoom (length (postfixes (operands_behind nothing
            (words.common_values constant 0 values.now other others.now)))) self.old.room) }
    {
        let mut count: usize = 0;
        for (index, value) in values.iter().enumerate() {
            if let Some(place) = index_in(others, *value) {
                self.put_common(constant, index, other, place)?;
                count += 1;
            }
        }
        Ok(narrow(count)?)
    }

    /// The equation of two constants: for some common value both have it.
    fn put_constants(
        &mut self,
        constant: u32,
        values: &[u32],
        other: u32,
        others: &[u32],
    ) -> Result<(), Halt>
        ensures put { OnOk result
            (HasPut (postfix (words.equation (words.Constant constant values.now)
            (words.Constant other others.now))) self.old self.new) }
        ensures full { IfErr result
            (LacksRoom (length (postfix (words.equation (words.Constant constant values.now)
            (words.Constant other others.now)))) self.old.room) }
    {
        let count = self.put_commons(constant, values, other, others)?;
        self.push(Node::Any(count))
    }

    /// The equation of a constant and a side.
    fn put_constant(&mut self, constant: u32, values: &[u32], side: Side<'_>) -> Result<(), Halt>
        ensures put { OnOk result (HasPut (postfix (words.equation
            (words.Constant constant values.now) (plain_side side.entry))) self.old self.new) }
        ensures full { IfErr result (LacksRoom (length (postfix (words.equation
            (words.Constant constant values.now) (plain_side side.entry)))) self.old.room) }
    {
        match side {
            Side::Absent => self.push(Node::False),
            Side::Value(value) => self.put_atom(constant, values, value),
            Side::Constant {
                number,
                values: others,
            } => self.put_constants(constant, values, number, others),
        }
    }

    /// The equation of a value and a side.
    fn put_value(&mut self, value: u32, side: Side<'_>) -> Result<(), Halt>
        ensures put { OnOk result (HasPut
            (postfix (words.equation (words.Value value) (plain_side side.entry))) self.old self.new) }
        ensures full { IfErr result (LacksRoom (length
            (postfix (words.equation (words.Value value) (plain_side side.entry)))) self.old.room) }
    {
        match side {
            Side::Absent => self.push(Node::False),
            Side::Value(other) => self.put_truth(value == other),
            Side::Constant { number, values } => self.put_atom(number, values, value),
        }
    }

    /// The equation of two sides.
    fn put_sides(&mut self, left: Side<'_>, right: Side<'_>) -> Result<(), Halt>
        ensures put { OnOk result (HasPut (postfix
            (words.equation (plain_side left.entry) (plain_side right.entry))) self.old self.new) }
        ensures full { IfErr result (LacksRoom (length (postfix
            (words.equation (plain_side left.entry) (plain_side right.entry)))) self.old.room) }
    {
        match left {
            Side::Absent => self.push(Node::False),
            Side::Value(value) => self.put_value(value, right),
            Side::Constant { number, values } => self.put_constant(number, values, right),
        }
    }

    fn put_equation(&mut self, alloc: Global, left: &Term, right: &Term) -> Result<(), Halt>
        ensures put { OnOk result
            (HasPut (postfix (words.equation (words.side (universe_in self.old)
            (environment_of self.old.env) (plain_term left.now)) (words.side (universe_in self.old)
            (environment_of self.old.env) (plain_term right.now)))) self.old self.new) }
        ensures full { IfErr result
            (LacksRoom (length (postfix (words.equation (words.side (universe_in self.old)
            (environment_of self.old.env) (plain_term left.now)) (words.side (universe_in self.old)
            (environment_of self.old.env) (plain_term right.now))))) self.old.room) }
    {
        let left = term_side(alloc, self.table, self.sig, &self.env, left)?;
        let right = term_side(alloc, self.table, self.sig, &self.env, right)?;
        self.put_sides(left, right)
    }

    /// An equation, which is judged where it has a sum.
    fn put_equal(&mut self, alloc: Global, left: &Term, right: &Term) -> Result<(), Halt>
        ensures put { OnOk result
            (HasPut (nodes_of (universe_in self.old) (environment_of self.old.env)
            (resolved.Equal (plain_term left.now) (plain_term right.now))) self.old self.new) }
        ensures full { IfErr result
            (LacksRoom (length (nodes_of (universe_in self.old) (environment_of self.old.env)
            (resolved.Equal (plain_term left.now) (plain_term right.now)))) self.old.room) }
    {
        if has_sum(left, right) {
            return self.put_judged(alloc, Sign::Equal, left, right);
        }
        self.put_equation(alloc, left, right)
    }

    /// The instances of a formula, one for each object of a sort. Answers how many there are.
    #[cycle(formula)]
    fn put_instances(
        &mut self,
        alloc: Global,
        variable: u32,
        sort: u32,
        formula: &Formula,
    ) -> Result<u32, Halt>
        ensures put { OnOk result (HasPut
            (postfixes (operands_behind nothing (map (λ object. words.term_of (universe_in self.old)
            (bind variable object (environment_of self.old.env)) (plain_formula formula.now))
            (objects_in (universe_in self.old) sort)))) self.old self.new) }
        ensures count { IfOk result (λ count.
            count ≡ length (objects_in (universe_in self.old) sort)) }
        ensures full { IfErr result (LacksRoom (length
            (postfixes (operands_behind nothing (map (λ object. words.term_of (universe_in self.old)
            (bind variable object (environment_of self.old.env)) (plain_formula formula.now))
            (objects_in (universe_in self.old) sort))))) self.old.room) }
    {
        let objects = objects_of(self.table, sort);
        for object in objects {
            self.env.bind(variable, *object)?;
            self.put(alloc, formula)?;
            self.env.unbind();
        }
        Ok(narrow(objects.len())?)
    }

    /// The nodes of a formula under the environment, and this one behind them.
    #[cycle(formula)]
    fn put_with(&mut self, alloc: Global, formula: &Formula, node: Node) -> Result<(), Halt>
        ensures put { OnOk result (HasPut (nodes_of (universe_in self.old)
            (environment_of self.old.env) (plain_formula formula.now) ++ node ∷ []) self.old self.new) }
        ensures full { IfErr result (LacksRoom (length (nodes_of (universe_in self.old)
            (environment_of self.old.env) (plain_formula formula.now) ++ node ∷ [])) self.old.room) }
    {
        self.put(alloc, formula)?;
        self.push(node)
    }

    /// The nodes of a formula under the environment, behind those that are there.
    #[cycle(formula)]
    pub(crate) fn put(&mut self, alloc: Global, formula: &Formula) -> Result<(), Halt>
        ensures put { OnOk result (HasPut (nodes_of (universe_in self.old)
            (environment_of self.old.env) (plain_formula formula.now)) self.old self.new) }
        ensures full { IfErr result (LacksRoom (length (nodes_of (universe_in self.old)
            (environment_of self.old.env) (plain_formula formula.now))) self.old.room) }
    {
        match formula {
            Formula::True => self.push(Node::True),
            Formula::False => self.push(Node::False),
            Formula::Equal(left, right) => self.put_equal(alloc, left, right),
            Formula::Less(left, right) | Formula::AtMost(left, right) => {
                self.put_judged(alloc, sign_in(formula), left, right)
            }
            Formula::Not(inner) => self.put_with(alloc, inner, Node::Not),
            Formula::Implies(left, right) => {
                self.put_with(alloc, left, Node::Not)?;
                self.put_with(alloc, right, Node::Any(2))
            }
            Formula::Both(left, right)
            | Formula::Either(left, right)
            | Formula::Same(left, right) => {
                self.put(alloc, left)?;
                self.put_with(alloc, right, joining_node(formula, 2))
            }
            Formula::ForAll(variable, sort, inner) | Formula::Exists(variable, sort, inner) => {
                let count = self.put_instances(alloc, *variable, *sort, inner)?;
                self.push(joining_node(formula, count))
            }
        }
    }

    /// Makes the term of a formula under the environment, and places it.
    pub(crate) fn term<'a>(
        &mut self,
        alloc: Global,
        terms: Terms<'a>,
        formula: &Formula,
    ) -> Result<&'a [Node], Halt>
        ensures term { IfOk result (λ term. term.now ≡ nodes_of
            (universe_in self.old) (environment_of self.old.env) (plain_formula formula.now)) }
        ensures room { OnOk result (self.new.room + length (nodes_of (universe_in self.old)
            (environment_of self.old.env) (plain_formula formula.now)) ≡ self.old.room) }
        ensures like { OnOk result (IsLike self.old self.new) }
        ensures full { IfErr result (LacksRoom (length (nodes_of (universe_in self.old)
            (environment_of self.old.env) (plain_formula formula.now))) self.old.room) }
    {
        self.nodes.clear();
        self.put(alloc, formula)?;
        Ok(terms.place(&self.nodes)?)
    }
}
