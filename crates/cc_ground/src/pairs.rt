//! The Boolean actions, and the ground laws of `noconcurrency`.
ghost use Rattle.std.specs.Prelude.{◌≡◌, ◌∷◌, [], length, map, slice_get, IfOk, IfErr, OnOk};
ghost use Rattle.cc_defs.specs.Signatures.{Signature, ground_constants};
ghost use Rattle.cc_ground.specs.Counting.{nodes_in};
ghost use Rattle.cc_defs.specs.GroundLaws.{pair_law};
ghost use Rattle.cc_defs.specs.Environments.{pairs_of};
ghost use Rattle.cc_defs.specs.Universe.{boolean_actions, is_boolean_action as is_boolean, is_boolean_symbol as is_boolean_kind};
ghost use Rattle.cc_ground.specs.Views.{universe_of, HasMade, LacksRoom};

use crate::maker::{Halt, Maker, narrow};
use cc_arena::{GroundLaw, Terms};
use cc_defs::{Const, GroundHead, Kind, LawKind, Node, OutOfMemory, Sig};
use cc_sorts::Table;
use std::alloc::Global;

/// Whether the values of a symbol are `false` and `true`. The first sort is `boolean`; an attribute has values of another
/// kind.
fn is_boolean_symbol(table: &Table, symbol: u32) -> bool
    ensures { (sig : Signature) →
        result ≡ is_boolean_kind (slice_get (universe_of table.now sig).symbols symbol) }
{
    if (symbol as usize) >= table.symbol_count() {
        return false;
    }
    let symbol = table.symbol_of(symbol);
    symbol.attribute.is_none() && symbol.domain == 0
}

fn is_boolean_action(table: &Table, constant: &Const) -> bool
    ensures { (sig : Signature) → result ≡ is_boolean (universe_of table.now sig) constant.now }
{
    match constant.kind {
        Kind::Action => is_boolean_symbol(table, constant.symbol),
        Kind::Simple | Kind::Determined => false,
    }
}

/// How many ground constants there are.
fn constant_count(sig: &Sig) -> Result<u32, OutOfMemory>
    ensures { IfOk result (λ count. count ≡ length (ground_constants sig.now)) }
{
    narrow(sig.fluents() as usize + sig.actions() as usize)
}

/// The numbers of the Boolean actions, in order.
pub(crate) fn boolean_actions_of(
    alloc: Global,
    table: &Table,
    sig: &Sig,
) -> Result<Vec<u32>, OutOfMemory>
    ensures { IfOk result (λ numbers.
        numbers.items ≡ boolean_actions (universe_of table.now sig.now)) }
{
    let mut numbers = Vec::new(alloc);
    for number in 0..constant_count(sig)? {
        if is_boolean_action(table, sig.constant(number)) {
            numbers.push(number)?;
        }
    }
    Ok(numbers)
}

impl<'t> Maker<'t> {
    /// The law that two actions are not done at once.
    fn add_pair<'a>(
        &mut self,
        terms: Terms<'a>,
        made: &mut Vec<GroundLaw<'a>>,
        base: u32,
        one: u32,
        other: u32,
    ) -> Result<(), Halt>
        ensures made { OnOk result (HasMade
            (pair_law base (one, other) ∷ []) made.old.items made.new.items self.old self.new) }
        ensures full { IfErr result (LacksRoom 4 self.old.room) }
    {
        self.nodes.clear();
        self.put_both(one, 1, other, 1)?;
        let after = terms.place(&self.nodes)?;
        self.nodes.clear();
        self.push(Node::True)?;
        let body = terms.place(&self.nodes)?;
        made.push(GroundLaw {
            head: GroundHead::Falsity,
            body,
            after: Some(after),
            kind: LawKind::FluentDynamic,
            base,
        })?;
        Ok(())
    }

    /// The laws of an action with each of those behind it.
    fn add_pairs_with<'a>(
        &mut self,
        terms: Terms<'a>,
        made: &mut Vec<GroundLaw<'a>>,
        base: u32,
        one: u32,
        others: &[u32],
    ) -> Result<(), Halt>
        ensures made { OnOk result (HasMade (map (λ other. pair_law base (one, other)) others.now)
            made.old.items made.new.items self.old self.new) }
        ensures full { IfErr result (LacksRoom
            (nodes_in (map (λ other. pair_law base (one, other)) others.now)) self.old.room) }
    {
        for other in others {
            self.add_pair(terms, made, base, one, *other)?;
        }
        Ok(())
    }

    /// The laws of each two actions, an earlier one first.
    pub(crate) fn add_pairs<'a>(
        &mut self,
        terms: Terms<'a>,
        made: &mut Vec<GroundLaw<'a>>,
        base: u32,
        actions: &[u32],
    ) -> Result<(), Halt>
        ensures made { OnOk result (HasMade (map (pair_law base) (pairs_of actions.now))
            made.old.items made.new.items self.old self.new) }
        ensures full { IfErr result
            (LacksRoom (nodes_in (map (pair_law base) (pairs_of actions.now))) self.old.room) }
    {
        let mut left = actions;
        while let Some((one, others)) = left.split_first() {
            self.add_pairs_with(terms, made, base, *one, others)?;
            left = others;
        }
        Ok(())
    }
}
