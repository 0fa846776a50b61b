//! Ground laws with heads of any form, whose terms lie in an arena.
ghost use Rattle.std.specs.Prelude.{◌≡◌};

use cc_defs::{LawKind, Node};
use std::alloc::Global;
use std::marker::Model;

/// A ground law, whose head is a term as its parts are. `after` is there exactly for a fluent dynamic law; `base` is the number of
/// the law that it is an instance of.
#[derive(Clone, Copy)]
pub struct WideGroundLaw<'a> {
    pub head: &'a [Node],
    pub body: &'a [Node],
    pub after: Option<&'a [Node]>,
    pub kind: LawKind,
    pub base: u32,
}

/// Ground laws, in order.
#[derive(Drop)]
pub struct WideGround<'a> {
    laws: Vec<WideGroundLaw<'a>>,
}

impl<'a> Model for WideGround<'a> {
    ghost use Rattle.std.specs.Prelude.{List as Items};
    ghost use Rattle.cc_wide.specs.declared.ground.WideGroundLaw.{WideGroundLaw as Ground};

    ghost Value = { Items Ground };

    ghost view = { λ value. value.laws.items };
}

impl<'a> WideGround<'a> {
    /// These laws.
    pub fn of(laws: Vec<WideGroundLaw<'a>>) -> WideGround<'a>
        ensures { result ≡ laws.entry.items }
    {
        WideGround { laws }
    }

    /// The laws, in order.
    pub fn laws(&self) -> &[WideGroundLaw<'a>]
        ensures { result.now ≡ self.now }
    {
        self.laws.as_slice()
    }
}
