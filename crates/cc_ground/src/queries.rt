//! The ground query of a query.
ghost use Rattle.std.specs.Prelude.{◌≡◌, ◌≤◌, ◌+◌, [], ℕ, List as Items, None, Some, length, map, IfOk, IfErr, IsSome, OnOk};
ghost use Rattle.std.specs.Option.{option_map};
ghost use Rattle.cc_defs.specs.Declarations.{Declaration};
ghost use Rattle.cc_defs.specs.Resolved.{plain_condition, plain_query};
ghost use Rattle.cc_sorts.specs.Tables.{IsTable, IsSignatureOf};
ghost use Rattle.cc_defs.specs.Conditions.{IsGroundQuery};
ghost use Rattle.cc_defs.specs.Refusals.{IsRefusedBy};
ghost use Rattle.cc_ground.specs.Bindings.{no_bindings};
ghost use Rattle.cc_ground.specs.Counting.{node_refusal, nodes_in_query, nodes_of_claim, nodes_of_conditions, query_refusal};
ghost use Rattle.cc_defs.specs.GroundLaws as words;
ghost use Rattle.cc_arena.specs.Meanings.{MeansQuery};
ghost use Rattle.cc_defs.specs.Universe.{universe};
ghost use Rattle.cc_arena.specs.GroundViews.{plain_ground_condition, plain_ground_query};
ghost use Rattle.cc_ground.specs.Views.{IsLike, LacksRoom, fault_by, universe_in, universe_of};
ghost use Rattle.cc_sorts.specs.Tables.{IsSignatureFor};

use crate::choosing::choices_of_asked;
use crate::maker::{Halt, Maker, fault_of};
use crate::theorems::declared_have_own_values;
use cc_arena::theorems::{ground_queries_fit, ground_queries_mean_queries};
use cc_arena::{GroundCondition, GroundQuery, Terms};
use cc_defs::{Condition, Fault, LimitAt, List, Query, Refusal, Sig};
use cc_sorts::Table;
use std::alloc::Global;

impl<'t> Maker<'t> {
    /// A condition; the environment is empty.
    fn condition<'a>(
        &mut self,
        alloc: Global,
        terms: Terms<'a>,
        condition: &Condition,
    ) -> Result<GroundCondition<'a>, Halt>
        requires { self.now.env ≡ no_bindings }
        ensures made { IfOk result (λ made. plain_ground_condition made
            ≡ words.ground_condition (universe_in self.old) (plain_condition condition.now)) }
        ensures room { OnOk result (self.new.room + length (words.ground_condition
            (universe_in self.old) (plain_condition condition.now)).nodes ≡ self.old.room) }
        ensures like { OnOk result (IsLike self.old self.new) }
        ensures full { IfErr result (LacksRoom (length (words.ground_condition
            (universe_in self.old) (plain_condition condition.now)).nodes) self.old.room) }
    {
        Ok(GroundCondition {
            at: condition.at,
            nodes: self.term(alloc, terms, &condition.formula)?,
        })
    }

    /// Conditions in order.
    fn conditions<'a>(
        &mut self,
        alloc: Global,
        terms: Terms<'a>,
        conditions: &[Condition],
    ) -> Result<Vec<GroundCondition<'a>>, Halt>
        requires { self.now.env ≡ no_bindings }
        ensures made { IfOk result (λ made. map plain_ground_condition made.items ≡ map
            (words.ground_condition (universe_in self.old)) (map plain_condition conditions.now)) }
        ensures room { OnOk result (self.new.room + nodes_of_conditions (map (words.ground_condition
            (universe_in self.old)) (map plain_condition conditions.now)) ≡ self.old.room) }
        ensures like { OnOk result (IsLike self.old self.new) }
        ensures full { IfErr result
            (LacksRoom (nodes_of_conditions (map (words.ground_condition (universe_in self.old))
            (map plain_condition conditions.now))) self.old.room) }
    {
        let mut made = Vec::new(alloc);
        for condition in conditions {
            made.push(self.condition(alloc, terms, condition)?)?;
        }
        Ok(made)
    }

    /// The claim, if there is one.
    fn claim<'a>(
        &mut self,
        alloc: Global,
        terms: Terms<'a>,
        claim: &Option<Condition>,
    ) -> Result<Option<GroundCondition<'a>>, Halt>
        requires { self.now.env ≡ no_bindings }
        ensures made { IfOk result (λ made. option_map plain_ground_condition made
            ≡ option_map (words.ground_condition (universe_in self.old))
            (option_map plain_condition claim.now)) }
        ensures full { IfErr result
            (LacksRoom (nodes_of_claim (option_map (words.ground_condition (universe_in self.old))
            (option_map plain_condition claim.now))) self.old.room) }
        ensures within { OnOk result
            (nodes_of_claim (option_map (words.ground_condition (universe_in self.old))
            (option_map plain_condition claim.now)) ≤ self.old.room) }
    {
        match claim {
            Some(claim) => Ok(Some(self.condition(alloc, terms, claim)?)),
            None => Ok(None),
        }
    }

    /// A query with this range.
    fn query<'a>(
        &mut self,
        alloc: Global,
        terms: Terms<'a>,
        range: (u32, u32),
        query: &Query,
    ) -> Result<GroundQuery<'a>, Halt>
        requires { self.now.env ≡ no_bindings }
        ensures made { IfOk result (λ made. plain_ground_query made
            ≡ words.ground_query (universe_in self.old) range (plain_query query.now)) }
        ensures within { OnOk result (nodes_in_query (words.ground_query
            (universe_in self.old) range (plain_query query.now)) ≤ self.old.room) }
        ensures full { IfErr result (LacksRoom (nodes_in_query (words.ground_query
            (universe_in self.old) range (plain_query query.now))) self.old.room) }
    {
        let conditions = self.conditions(alloc, terms, query.conditions.items())?;
        let claim = self.claim(alloc, terms, &query.claim)?;
        Ok(GroundQuery {
            lo: range.0,
            hi: range.1,
            conditions: List::of(conditions),
            claim,
        })
    }
}
/// The ground query of a query with this range, where there is room for its nodes.
fn query_within<'a>(
    alloc: Global,
    table: &Table,
    sig: &Sig,
    range: (u32, u32),
    query: &Query,
    terms: Terms<'a>,
) -> Result<GroundQuery<'a>, Halt>
    ensures made { IfOk result (λ made. plain_ground_query made
        ≡ words.ground_query (universe_of table.now sig.now) range (plain_query query.now)) }
    ensures unrefused { OnOk result (node_refusal (nodes_in_query (words.ground_query
        (universe_of table.now sig.now) range (plain_query query.now))) ≡ None) }
    ensures refused { IfErr result (λ halt. IsRefusedBy (node_refusal (nodes_in_query
        (words.ground_query (universe_of table.now sig.now) range (plain_query query.now))))
        (fault_by halt)) }
{
    let mut maker = Maker::new(alloc, table, sig, LimitAt::GroundNodes.number() as usize);
    maker.query(alloc, terms, range, query)
}

/// The ground query of a query that has its range of horizons. Its conditions and its claim have the terms of their formulas,
/// which are true exactly where these are satisfied.
/// Refuses more than 16,000,000 lists of values of the constants of equations with sums and of comparisons (14, choices), then more than
/// 16,000,000 nodes of these (14, ground nodes).
pub fn ground_query<'a>(
    alloc: Global,
    table: &Table,
    sig: &Sig,
    query: &Query,
    terms: &Terms<'a>,
) -> Result<GroundQuery<'a>, Fault>
    requires signature { IsSignatureFor table.now sig.now }
    requires range { IsSome query.now.range }
    ensures made { (declarations : Items Declaration) (range : ℕ × ℕ) →
        IsTable table.now declarations → IsSignatureOf declarations sig.now →
        query.now.range ≡ Some range → IfOk result (λ made. plain_ground_query made
        ≡ words.ground_query (universe declarations) range (plain_query query.now)) }
    ensures unrefused { (declarations : Items Declaration) (range : ℕ × ℕ) → IsTable
        table.now declarations → IsSignatureOf declarations sig.now → query.now.range ≡ Some range →
        OnOk result (query_refusal (universe declarations) range (plain_query query.now) ≡ None) }
    ensures refused { (declarations : Items Declaration) (range : ℕ × ℕ) → IsTable table.now
        declarations → IsSignatureOf declarations sig.now → query.now.range ≡ Some range → IfErr
        result (IsRefusedBy (query_refusal (universe declarations) range (plain_query query.now))) }
    ensures meant { (declarations : Items Declaration) (range : ℕ × ℕ) →
        IsTable table.now declarations →
        IsSignatureOf declarations sig.now → query.now.range ≡ Some range → IfOk result (λ made.
        MeansQuery (universe declarations) (plain_query query.now) (plain_ground_query made)) }
    ensures fits { (declarations : Items Declaration) (range : ℕ × ℕ) → IsTable
        table.now declarations → IsSignatureOf declarations sig.now → query.now.range ≡ Some range →
        IfOk result (λ made. IsGroundQuery (universe declarations) (plain_ground_query made)) }
{
    declared_have_own_values();
    ground_queries_mean_queries();
    ground_queries_fit();
    let range = query.range.unwrap_or((0, 0));
    if choices_of_asked(alloc, table, sig, query)? > LimitAt::Choices.number() as usize {
        return Err(Fault::Refused(Refusal::past(LimitAt::Choices)));
    }
    match query_within(alloc, table, sig, range, query, *terms) {
        Ok(made) => Ok(made),
        Err(halt) => Err(fault_of(halt)),
    }
}
