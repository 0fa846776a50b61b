//! Lists of values: the objects of a sort, and for an attribute `none` before them.
ghost use Rattle.std.specs.Prelude.{◌≡◌, ◌<◌, length, position, nat_eq, slice_get, slice_index_or, Some, []};
ghost use Rattle.cc_defs.specs.Signatures.{none_value};
ghost use Rattle.cc_defs.specs.Environments.{range_values};
ghost use Rattle.cc_defs.specs.Universe.{objects_of, values_of as values_in};
ghost use Rattle.cc_ground.specs.Views.{universe_of};

use cc_defs::{Range, Sig};
use cc_sorts::Table;
use std::marker::Model;

/// The number that stands for `none` among values.
pub(crate) const NONE: u32 = 4_294_967_295;

/// Values in order.
#[derive(Drop)]
pub(crate) struct Values<'t> {
    with_none: bool,
    objects: &'t [u32],
}

impl<'t> Model for Values<'t> {
    ghost use Rattle.std.specs.Prelude.{List, ℕ, ◌∷◌, if◌then◌else◌};
    ghost use Rattle.cc_defs.specs.Signatures.{none_value};

    ghost Value = { List ℕ };

    ghost view = { λ values.
        if values.with_none then none_value ∷ values.objects.now else values.objects.now };
}

impl<'t> Values<'t> {
    pub(crate) fn len(&self) -> usize
        ensures { result ≡ length self.now }
    {
        usize::from(self.with_none) + self.objects.len()
    }

    /// The value with this index.
    pub(crate) fn at(&self, index: usize) -> u32
        requires { index < length self.now }
        ensures { slice_get self.now index ≡ Some result }
    {
        if !self.with_none {
            return self.objects[index];
        }
        if index == 0 {
            NONE
        } else {
            self.objects[index - 1]
        }
    }
}

/// The objects of a sort and of the sorts below it; none where there is no such sort.
pub(crate) fn objects_of<'t>(table: &'t Table, sort: u32) -> &'t [u32]
    ensures { result.now ≡ slice_index_or table.now.sorts.members sort [] }
{
    table.members(sort)
}

/// The values of a symbol; none where there is no such symbol.
pub(crate) fn values_of<'t>(table: &'t Table, sig: &Sig, symbol: u32) -> Values<'t>
    ensures { result ≡ values_in (universe_of table.now sig.now) symbol }
{
    if (symbol as usize) >= table.symbol_count() {
        return Values {
            with_none: false,
            objects: &[],
        };
    }
    let symbol = table.symbol_of(symbol);
    Values {
        with_none: symbol.attribute.is_some(),
        objects: objects_of(table, symbol.domain),
    }
}

/// What a variable goes over.
pub(crate) fn values_in_range<'t>(table: &'t Table, sig: &Sig, range: Range) -> Values<'t>
    ensures { result ≡ range_values (universe_of table.now sig.now) range }
{
    match range {
        Range::Sort(sort) => Values {
            with_none: false,
            objects: objects_of(table, sort),
        },
        Range::Domain(symbol) => values_of(table, sig, symbol),
    }
}

/// The index of a value among those of a constant, which is looked for in turn.
pub(crate) fn index_in(values: &[u32], value: u32) -> Option<usize>
    ensures { result ≡ position (nat_eq value) values.now }
{
    values.iter().position(|other| value == *other)
}
