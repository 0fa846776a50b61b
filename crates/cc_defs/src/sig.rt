//! The ground constants of a description.
ghost use Rattle.std.specs.Prelude.{◌≡◌, ◌<◌, ◌++◌, ◌%◌, IfOk, length, slice_get, option_map, Some};
ghost use Rattle.cc_defs.specs.Signatures.{Signature, IsSignature, ground_constants, ground_number, position_count, number_at};
ghost use Rattle.cc_defs.specs.Indexes.{IsIndexOf};

use crate::index::Index;
use crate::{Const, OutOfMemory};
use std::alloc::Global;
use std::marker::Model;

/// The ground constants of a description by number: the fluents in order, then the actions. At a horizon m they stand
/// at positions: the constant with number g at step i has the position i times their number plus g; fluents stand at
/// steps 0 to m, actions at steps below m.
#[derive(Drop)]
pub struct Sig {
    fluents: Vec<Const>,
    actions: Vec<Const>,
    // The number that each object is, where it is one.
    numbers: Vec<Option<u32>>,
    fluents_index: Index,
    actions_index: Index,
}

impl Model for Sig {
    ghost use Rattle.cc_defs.specs.Signatures.{Signature, IsSignature};
    ghost use Rattle.cc_defs.specs.Indexes.{IsIndexOf};

    ghost Value = { Signature };

    ghost view = { λ sig. record {
      fluents = sig.fluents.items;
      actions = sig.actions.items;
      numbers = sig.numbers.items;
    } };

    ghost invariant = { λ sig.
        IsSignature (record {
          fluents = sig.fluents.items;
          actions = sig.actions.items;
          numbers = sig.numbers.items;
        }) × IsIndexOf sig.fluents.items sig.fluents_index
        × IsIndexOf sig.actions.items sig.actions_index };
}

impl Sig {
    /// The signature of these fluents and actions, and of objects that are these numbers.
    pub fn of(
        alloc: Global,
        fluents: Vec<Const>,
        actions: Vec<Const>,
        numbers: Vec<Option<u32>>,
    ) -> Result<Sig, OutOfMemory>
        requires { IsSignature
            (record { fluents = fluents.items; actions = actions.items; numbers = numbers.items }) }
        ensures { IfOk result (λ sig. sig ≡
            record { fluents = fluents.items; actions = actions.items; numbers = numbers.items }) }
    {
        let fluents_index = Index::of(alloc, &fluents)?;
        let actions_index = Index::of(alloc, &actions)?;
        Ok(Sig {
            fluents,
            actions,
            numbers,
            fluents_index,
            actions_index,
        })
    }

    /// The number that an object is; none where it is no number.
    pub fn number_of(&self, object: u32) -> Option<u32>
        ensures { result ≡ number_at self.now.numbers object }
    {
        match self.numbers.get(object as usize) {
            Some(number) => *number,
            None => None,
        }
    }

    /// How many ground fluents there are.
    pub fn fluents(&self) -> u32
        ensures { result ≡ length self.now.fluents }
    {
        self.fluents.len() as u32
    }

    /// How many ground actions there are.
    pub fn actions(&self) -> u32
        ensures { result ≡ length self.now.actions }
    {
        self.actions.len() as u32
    }

    /// The ground constant with a number.
    pub fn constant(&self, g: u32) -> &Const
        requires { g < length (ground_constants self.now) }
        ensures { Some result.now ≡ slice_get (ground_constants self.now) g }
    {
        let g = g as usize;
        if g < self.fluents.len() {
            &self.fluents[g]
        } else {
            &self.actions[g - self.fluents.len()]
        }
    }

    /// How many positions a horizon has.
    pub fn positions(&self, horizon: u32) -> u64
        ensures { result ≡ position_count self.now horizon }
    {
        let fluents = self.fluents.len() as u64;
        let actions = self.actions.len() as u64;
        let horizon = u64::from(horizon);
        fluents * (horizon + 1) + actions * horizon
    }

    /// How many values the ground constant at a position has.
    pub fn domain_size(&self, position: u64) -> u32
        requires { 0 < length (ground_constants self.now) }
        ensures { option_map (λ constant. length constant.domain)
            (slice_get (ground_constants self.now) (position % length (ground_constants self.now)))
            ≡ Some result }
    {
        let count = self.fluents.len() as u64 + self.actions.len() as u64;
        let constant = self.constant((position % count) as u32);
        constant.domain.items().len() as u32
    }

    /// The number of the ground constant of this symbol with these arguments, if there is one. Where the constants of its kind are in
    /// order it is looked for where it stands among all arguments of its symbol, then by halves; else in turn.
    pub fn ground_number(&self, symbol: u32, args: &[u32]) -> Option<u32>
        ensures { result ≡ ground_number (ground_constants self.now) symbol args.now }
    {
        match place_of(
            &self.fluents,
            &self.fluents_index,
            &self.actions,
            &self.actions_index,
            symbol,
            args,
        ) {
            Some(number) => Some(number as u32),
            None => None,
        }
    }
}

/// Where the constant of this symbol with these arguments stands, where the actions stand behind the fluents.
fn place_of(
    fluents: &[Const],
    fluents_index: &Index,
    actions: &[Const],
    actions_index: &Index,
    symbol: u32,
    args: &[u32],
) -> Option<usize>
    requires fluents { IsIndexOf fluents.now fluents_index.now }
    requires actions { IsIndexOf actions.now actions_index.now }
    ensures { result ≡ ground_number (fluents.now ++ actions.now) symbol args.now }
{
    match fluents_index.find(fluents, symbol, args) {
        Some(number) => Some(number),
        None => match actions_index.find(actions, symbol, args) {
            Some(number) => Some(fluents.len() + number),
            None => None,
        },
    }
}
