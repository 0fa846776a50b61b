//! The ground laws of base laws.
ghost use Rattle.std.specs.Prelude.{◌≡◌, ◌+◌, ◌∷◌, [], List as Items, None, Some, length, map, IfOk, IfErr, OnOk};
ghost use Rattle.std.specs.Option.{option_map};
ghost use Rattle.cc_arena.specs.GroundViews.{plain_ground_laws};
ghost use Rattle.cc_arena.specs.Meanings.{MeanLaws};
ghost use Rattle.cc_defs.specs.Conditions.{AreGroundLaws};
ghost use Rattle.cc_defs.specs.Declarations.{Declaration, symbols};
ghost use Rattle.cc_defs.specs.Forms.{HaveForms};
ghost use Rattle.cc_defs.specs.GroundLaws as words;
ghost use Rattle.cc_defs.specs.Nodes.{nodes_of};
ghost use Rattle.cc_defs.specs.Refusals.{IsRefusedBy};
ghost use Rattle.cc_defs.specs.Resolved.{plain_base_law, plain_formula, plain_law};
ghost use Rattle.cc_defs.specs.Universe.{boolean_actions, universe};
ghost use Rattle.cc_sorts.specs.Tables.{IsTable, IsSignatureOf};
ghost use Rattle.cc_ground.specs.Bindings.{environment_of, no_bindings};
ghost use Rattle.cc_ground.specs.Counting.{length_of_part, laws_refusal, node_refusal, nodes_in};
ghost use Rattle.cc_ground.specs.Views.{HasMade, IsLike, LacksRoom, fault_by, laws_behind, laws_of, laws_under, universe_in, universe_of};
ghost use Rattle.cc_sorts.specs.Tables.{IsSignatureFor};

use crate::choosing::choices_of_laws;
use crate::conditions::passes;
use crate::counting::{choice_count, count_all};
use crate::heads::head_under;
use crate::maker::{Halt, Maker, fault_of, narrow};
use crate::pairs::boolean_actions_of;
use crate::theorems::{
    declared_have_own_values, declared_have_their_kinds, declared_have_their_values,
};
use crate::values::values_in_range;
use cc_arena::theorems::{ground_laws_fit, ground_laws_mean_laws, heads_there_are_ground};
use cc_arena::{GroundLaw, Laws, Terms};
use cc_defs::{
    BaseLaw, BaseLaws, Fault, Formula, GroundHead, Law, LimitAt, Node, OutOfMemory, Range, Refusal,
    Sig,
};
use cc_sorts::Table;
use std::alloc::Global;

impl<'t> Maker<'t> {
    /// The term of a part of a law that may be missing.
    fn part<'a>(
        &mut self,
        alloc: Global,
        terms: Terms<'a>,
        part: &Option<Formula>,
    ) -> Result<Option<&'a [Node]>, Halt>
        ensures term { IfOk result (λ term.
            option_map (λ nodes. nodes.now) term ≡ option_map (λ f. nodes_of
            (universe_in self.old) (environment_of self.old.env) (plain_formula f)) part.now) }
        ensures room { OnOk result
            (self.new.room + length_of_part (option_map (λ f. nodes_of (universe_in self.old)
            (environment_of self.old.env) (plain_formula f)) part.now) ≡ self.old.room) }
        ensures like { OnOk result (IsLike self.old self.new) }
        ensures full { IfErr result
            (LacksRoom (length_of_part (option_map (λ f. nodes_of (universe_in self.old)
            (environment_of self.old.env) (plain_formula f)) part.now)) self.old.room) }
    {
        match part {
            Some(formula) => Ok(Some(self.term(alloc, terms, formula)?)),
            None => Ok(None),
        }
    }

    /// The law with this head and its parts under the environment.
    fn add_law<'a>(
        &mut self,
        alloc: Global,
        terms: Terms<'a>,
        made: &mut Vec<GroundLaw<'a>>,
        base: u32,
        law: &Law,
        head: GroundHead,
    ) -> Result<(), Halt>
        ensures made { OnOk result (HasMade (words.law_with (universe_in self.old) base
            (plain_law law.now) (environment_of self.old.env) (Some head))
            made.old.items made.new.items self.old self.new) }
        ensures full { IfErr result (LacksRoom (nodes_in (words.law_with (universe_in self.old) base
            (plain_law law.now) (environment_of self.old.env) (Some head))) self.old.room) }
    {
        let body = self.term(alloc, terms, &law.body)?;
        let after = self.part(alloc, terms, &law.after)?;
        made.push(GroundLaw {
            head,
            body,
            after,
            kind: law.kind,
            base,
        })?;
        Ok(())
    }

    /// The instance of a law for these values of its variables, if they make one: where the law's test is true, and its head
    /// is there.
    fn add_instance<'a>(
        &mut self,
        alloc: Global,
        terms: Terms<'a>,
        made: &mut Vec<GroundLaw<'a>>,
        base: u32,
        law: &Law,
    ) -> Result<(), Halt>
        requires { self.now.env.bound ≡ [] }
        ensures made { OnOk result
            (HasMade (laws_under (universe_in self.old) base (plain_law law.now)
            (self.old.env.values ∷ [])) made.old.items made.new.items self.old self.new) }
        ensures full { IfErr result (LacksRoom (nodes_in (laws_under (universe_in self.old) base
            (plain_law law.now) (self.old.env.values ∷ []))) self.old.room) }
    {
        heads_there_are_ground();
        if !passes(self.table, &mut self.env, &law.test)? {
            return Ok(());
        }
        match head_under(alloc, self.table, self.sig, &self.env, &law.head)? {
            Some(head) => self.add_law(alloc, terms, made, base, law, head),
            None => Ok(()),
        }
    }

    /// The instances of a law for all values of the ranges that are left, behind those that are given.
    fn add_choices<'a>(
        &mut self,
        alloc: Global,
        terms: Terms<'a>,
        made: &mut Vec<GroundLaw<'a>>,
        base: u32,
        law: &Law,
        ranges: &[Range],
    ) -> Result<(), Halt>
        requires { self.now.env.bound ≡ [] }
        ensures made { OnOk result
            (HasMade (laws_behind (universe_in self.old) base (plain_law law.now)
            self.old.env.values ranges.now) made.old.items made.new.items self.old self.new) }
        ensures full { IfErr result (LacksRoom (nodes_in (laws_behind (universe_in self.old) base
            (plain_law law.now) self.old.env.values ranges.now)) self.old.room) }
    {
        let Some((range, others)) = ranges.split_first() else {
            return self.add_instance(alloc, terms, made, base, law);
        };
        let values = values_in_range(self.table, self.sig, *range);
        for index in 0..values.len() {
            self.env.give(values.at(index))?;
            self.add_choices(alloc, terms, made, base, law, others)?;
            self.env.take_back();
        }
        Ok(())
    }

    /// The instances of a law. Where there is no list of values none is looked for, value by value of the first ranges.
    fn add_instances<'a>(
        &mut self,
        alloc: Global,
        terms: Terms<'a>,
        made: &mut Vec<GroundLaw<'a>>,
        base: u32,
        law: &Law,
    ) -> Result<(), Halt>
        requires { self.now.env ≡ no_bindings }
        ensures made { OnOk result
            (HasMade (laws_behind (universe_in self.old) base (plain_law law.now) [] law.now.ranges)
            made.old.items made.new.items self.old self.new) }
        ensures full { IfErr result (LacksRoom (nodes_in (laws_behind
            (universe_in self.old) base (plain_law law.now) [] law.now.ranges)) self.old.room) }
    {
        if choice_count(self.table, self.sig, law.ranges.items()) == 0 {
            return Ok(());
        }
        self.add_choices(alloc, terms, made, base, law, law.ranges.items())
    }

    /// The ground laws of a base law; the actions are the Boolean ones. No variable has a value yet.
    fn add_base_law<'a>(
        &mut self,
        alloc: Global,
        terms: Terms<'a>,
        made: &mut Vec<GroundLaw<'a>>,
        base: u32,
        actions: &[u32],
        law: &BaseLaw,
    ) -> Result<(), Halt>
        requires empty { self.now.env ≡ no_bindings }
        requires actions { actions.now ≡ boolean_actions (universe_in self.now) }
        ensures made { OnOk result (HasMade (laws_of (universe_in self.old) base
            (plain_base_law law.now)) made.old.items made.new.items self.old self.new) }
        ensures full { IfErr result (LacksRoom (nodes_in
            (laws_of (universe_in self.old) base (plain_base_law law.now))) self.old.room) }
    {
        match law {
            BaseLaw::One(law) => self.add_instances(alloc, terms, made, base, law),
            BaseLaw::NoConcurrency { .. } => self.add_pairs(terms, made, base, actions),
        }
    }

    /// The ground laws of base laws, in order; the actions are the Boolean ones.
    fn add_all<'a>(
        &mut self,
        alloc: Global,
        terms: Terms<'a>,
        made: &mut Vec<GroundLaw<'a>>,
        actions: &[u32],
        laws: &[BaseLaw],
    ) -> Result<(), Halt>
        requires empty { self.now.env ≡ no_bindings }
        requires actions { actions.now ≡ boolean_actions (universe_in self.now) }
        ensures made { OnOk result (HasMade (words.ground_laws (universe_in self.old)
            (map plain_base_law laws.now)) made.old.items made.new.items self.old self.new) }
        ensures full { IfErr result (LacksRoom (nodes_in (words.ground_laws
            (universe_in self.old) (map plain_base_law laws.now))) self.old.room) }
    {
        for (base, law) in laws.iter().enumerate() {
            self.add_base_law(alloc, terms, made, narrow(base)?, actions, law)?;
        }
        Ok(())
    }
}

/// The ground laws of base laws, where there is room for their nodes; the actions are the Boolean ones.
fn laws_within<'a>(
    alloc: Global,
    table: &Table,
    sig: &Sig,
    actions: &[u32],
    laws: &[BaseLaw],
    terms: Terms<'a>,
) -> Result<Laws<'a>, Halt>
    requires { actions.now ≡ boolean_actions (universe_of table.now sig.now) }
    ensures made { IfOk result (λ made. plain_ground_laws made
        ≡ words.ground_laws (universe_of table.now sig.now) (map plain_base_law laws.now)) }
    ensures unrefused { OnOk result (node_refusal (nodes_in (words.ground_laws
        (universe_of table.now sig.now) (map plain_base_law laws.now))) ≡ None) }
    ensures refused { IfErr result (λ halt. IsRefusedBy (node_refusal (nodes_in (words.ground_laws
        (universe_of table.now sig.now) (map plain_base_law laws.now)))) (fault_by halt)) }
{
    let mut made = Vec::new(alloc);
    let mut maker = Maker::new(alloc, table, sig, LimitAt::GroundNodes.number() as usize);
    maker.add_all(alloc, terms, &mut made, actions, laws)?;
    Ok(Laws::of(made))
}

/// The ground laws of base laws, or exactly the refusal of too many nodes; the actions are the Boolean ones.
fn laws_in_room<'a>(
    alloc: Global,
    table: &Table,
    sig: &Sig,
    actions: &[u32],
    laws: &[BaseLaw],
    terms: Terms<'a>,
) -> Result<Laws<'a>, Fault>
    requires { actions.now ≡ boolean_actions (universe_of table.now sig.now) }
    ensures made { IfOk result (λ made. plain_ground_laws made
        ≡ words.ground_laws (universe_of table.now sig.now) (map plain_base_law laws.now)) }
    ensures unrefused { OnOk result (node_refusal (nodes_in (words.ground_laws
        (universe_of table.now sig.now) (map plain_base_law laws.now))) ≡ None) }
    ensures refused { IfErr result (IsRefusedBy (node_refusal (nodes_in (words.ground_laws
        (universe_of table.now sig.now) (map plain_base_law laws.now))))) }
{
    match laws_within(alloc, table, sig, actions, laws, terms) {
        Ok(made) => Ok(made),
        Err(halt) => Err(fault_of(halt)),
    }
}

/// The ground laws of base laws, as `ground` answers them; the actions are the Boolean ones.
fn laws_with<'a>(
    alloc: Global,
    table: &Table,
    sig: &Sig,
    actions: &[u32],
    laws: &[BaseLaw],
    terms: Terms<'a>,
) -> Result<Laws<'a>, Fault>
    requires { actions.now ≡ boolean_actions (universe_of table.now sig.now) }
    ensures made { IfOk result (λ made. plain_ground_laws made
        ≡ words.ground_laws (universe_of table.now sig.now) (map plain_base_law laws.now)) }
    ensures unrefused { OnOk result
        (laws_refusal (universe_of table.now sig.now) (map plain_base_law laws.now) ≡ None) }
    ensures refused { IfErr result
        (IsRefusedBy (laws_refusal (universe_of table.now sig.now) (map plain_base_law laws.now))) }
{
    if count_all(table, sig, actions, laws) > LimitAt::LawInstances.number() as usize {
        return Err(Fault::Refused(Refusal::past(LimitAt::LawInstances)));
    }
    if choices_of_laws(alloc, table, sig, laws)? > LimitAt::Choices.number() as usize {
        return Err(Fault::Refused(Refusal::past(LimitAt::Choices)));
    }
    laws_in_room(alloc, table, sig, actions, laws, terms)
}

/// The ground laws of base laws, as `ground` answers them.
fn ground_laws<'a>(
    alloc: Global,
    table: &Table,
    sig: &Sig,
    laws: &BaseLaws,
    terms: &Terms<'a>,
) -> Result<Laws<'a>, Fault>
    requires { IsSignatureFor table.now sig.now }
    ensures made { IfOk result (λ made. plain_ground_laws made
        ≡ words.ground_laws (universe_of table.now sig.now) (map plain_base_law laws.now)) }
    ensures unrefused { OnOk result
        (laws_refusal (universe_of table.now sig.now) (map plain_base_law laws.now) ≡ None) }
    ensures refused { IfErr result
        (IsRefusedBy (laws_refusal (universe_of table.now sig.now) (map plain_base_law laws.now))) }
{
    let actions = boolean_actions_of(alloc, table, sig)?;
    laws_with(alloc, table, sig, &actions, laws.items(), *terms)
}

/// The ground laws of base laws: for each base law in order, and each instance of it in order, the instance's law. A causal law
/// has an instance for each list of a value for each range of it for which its test is true and its head is there; the values
/// of a sort are the objects of it and of those below it in declared order, and earlier variables change slowest.
/// `noconcurrency` has one for each two Boolean actions. Each part of a ground law is true exactly where that of its base law
/// is satisfied. Laws of base laws that have the forms of their kinds have these forms too.
/// Terms are placed in the arena; none is longer than what is left of the limit of ground nodes.
/// Refuses more than 1,000,000 lists of values before the tests (14, law instances), then more than 16,000,000 lists of values of
/// the constants of equations with sums and of comparisons (14, choices), then more than 16,000,000 nodes (14, ground nodes).
pub fn ground<'a>(
    alloc: Global,
    table: &Table,
    sig: &Sig,
    laws: &BaseLaws,
    terms: &Terms<'a>,
) -> Result<Laws<'a>, Fault>
    requires { IsSignatureFor table.now sig.now }
    ensures made { (declarations : Items Declaration) → IsTable table.now declarations →
        IsSignatureOf declarations sig.now → IfOk result (λ made. plain_ground_laws made
        ≡ words.ground_laws (universe declarations) (map plain_base_law laws.now)) }
    ensures unrefused { (declarations : Items Declaration) →
        IsTable table.now declarations → IsSignatureOf declarations sig.now →
        OnOk result (laws_refusal (universe declarations) (map plain_base_law laws.now) ≡ None) }
    ensures refused { (declarations : Items Declaration) →
        IsTable table.now declarations → IsSignatureOf declarations sig.now → IfErr result
        (IsRefusedBy (laws_refusal (universe declarations) (map plain_base_law laws.now))) }
    ensures meant { (declarations : Items Declaration) →
        IsTable table.now declarations → IsSignatureOf declarations sig.now → IfOk result (λ made.
        MeanLaws (universe declarations) (map plain_base_law laws.now) (plain_ground_laws made)) }
    ensures fits { (declarations : Items Declaration) →
        IsTable table.now declarations → IsSignatureOf declarations sig.now →
        HaveForms (symbols declarations) (map plain_base_law laws.now) →
        IfOk result (λ made. AreGroundLaws (universe declarations) (plain_ground_laws made)) }
{
    declared_have_own_values();
    declared_have_their_kinds();
    declared_have_their_values();
    ground_laws_mean_laws();
    ground_laws_fit();
    ground_laws(alloc, table, sig, laws, terms)
}

/// The ground laws of base laws as `ground` has them, for who has counted their instances and lists of values: it refuses more than
/// 16,000,000 nodes alone (14, ground nodes).
pub fn ground_within<'a>(
    alloc: Global,
    table: &Table,
    sig: &Sig,
    laws: &BaseLaws,
    terms: &Terms<'a>,
) -> Result<Laws<'a>, Fault>
    requires { IsSignatureFor table.now sig.now }
    ensures made { (declarations : Items Declaration) → IsTable table.now declarations →
        IsSignatureOf declarations sig.now → IfOk result (λ made. plain_ground_laws made
        ≡ words.ground_laws (universe declarations) (map plain_base_law laws.now)) }
    ensures unrefused { (declarations : Items Declaration) →
        IsTable table.now declarations → IsSignatureOf declarations sig.now → OnOk result
        (node_refusal (nodes_in (words.ground_laws (universe declarations) (map plain_base_law laws.now))) ≡ None) }
    ensures refused { (declarations : Items Declaration) →
        IsTable table.now declarations → IsSignatureOf declarations sig.now → IfErr result
        (IsRefusedBy (node_refusal (nodes_in (words.ground_laws (universe declarations) (map plain_base_law laws.now))))) }
{
    let actions = boolean_actions_of(alloc, table, sig)?;
    laws_in_room(alloc, table, sig, &actions, laws.items(), *terms)
}
