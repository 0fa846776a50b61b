//! Ground laws and queries, whose terms lie in an arena.
ghost use Rattle.std.specs.Prelude.{◌≡◌, IfOk};

use cc_defs::{At, GroundHead, LawKind, List, Node, OutOfMemory};
use std::alloc::Global;
use std::marker::Model;

/// A ground law. `after` is there exactly for a fluent dynamic law; `base` is the number of the law that it is an
/// instance of.
#[derive(Clone, Copy)]
pub struct GroundLaw<'a> {
    pub head: GroundHead,
    pub body: &'a [Node],
    pub after: Option<&'a [Node]>,
    pub kind: LawKind,
    pub base: u32,
}

/// A condition at a step.
#[derive(Clone, Copy)]
pub struct GroundCondition<'a> {
    pub at: At,
    pub nodes: &'a [Node],
}

/// A query: the horizons that are tried, and the conditions and the claim at their steps.
#[derive(Drop)]
pub struct GroundQuery<'a> {
    pub lo: u32,
    pub hi: u32,
    pub conditions: List<GroundCondition<'a>>,
    pub claim: Option<GroundCondition<'a>>,
}

impl<'a> GroundQuery<'a> {
    /// Another one with the same range, conditions and claim, over the same nodes.
    pub fn copy(&self, alloc: Global) -> Result<GroundQuery<'a>, OutOfMemory>
        ensures { IfOk result (λ copy. copy ≡ self.now) }
    {
        let conditions = Vec::from_slice(alloc, self.conditions.items())?;
        Ok(GroundQuery {
            lo: self.lo,
            hi: self.hi,
            conditions: List::of(conditions),
            claim: self.claim,
        })
    }
}

/// Ground laws, in order.
#[derive(Drop)]
pub struct Laws<'a> {
    laws: Vec<GroundLaw<'a>>,
}

impl<'a> Model for Laws<'a> {
    ghost use Rattle.std.specs.Prelude.{List as Items};
    ghost use Rattle.cc_arena.specs.declared.ground_laws.GroundLaw.{GroundLaw as Ground};

    ghost Value = { Items Ground };

    ghost view = { λ value. value.laws.items };
}

impl<'a> Laws<'a> {
    /// These laws.
    pub fn of(laws: Vec<GroundLaw<'a>>) -> Laws<'a>
        ensures { result ≡ laws.entry.items }
    {
        Laws { laws }
    }

    /// The laws, in order.
    pub fn laws(&self) -> &[GroundLaw<'a>]
        ensures { result.now ≡ self.now }
    {
        self.laws.as_slice()
    }
}
