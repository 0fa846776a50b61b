//! Entries by number, each under a name of its own, found by a hash of the name.
ghost use Rattle.std.specs.Prelude.{◌≡◌, ◌-◌, ◌<◌, ◌++◌, ◌∷◌, [], None, length, take, slice_get, option_map, OnOk, OnErr, Some};
ghost use Rattle.cc_sorts.specs.Dictionaries.{number_of, names_of, values_of};

use crate::puts::put_indexed;
use cc_defs::OutOfMemory;
use indexmap::IndexMap;
use std::alloc::Global;
use std::marker::Model;

/// Entries by number, in the order in which they came, each under a name of its own.
#[derive(Drop)]
pub(crate) struct Dictionary<V: Drop> {
    entries: IndexMap<String, V>,
}

impl<V: Drop> Model for Dictionary<V> {
    ghost use Rattle.std.specs.Prelude.{List, ℕ, map, string_bytes};

    ghost Value = { List (List ℕ × V) };

    ghost view = { λ dictionary.
        map (λ entry. (string_bytes entry.0, entry.1)) dictionary.entries.entries };
}

impl<V: Drop> Dictionary<V> {
    pub(crate) fn new(alloc: Global) -> Dictionary<V>
        ensures { result ≡ [] }
    {
        Dictionary {
            entries: IndexMap::new(alloc),
        }
    }

    pub(crate) fn len(&self) -> usize
        ensures { result ≡ length self.now }
    {
        self.entries.len()
    }

    /// The number of a name.
    pub(crate) fn find(&self, name: &str) -> Option<usize>
        ensures { result ≡ number_of (names_of self.now) name.now }
    {
        self.entries.get_index_of(name)
    }

    /// The name of a number.
    pub(crate) fn name(&self, number: usize) -> &str
        requires { number < length self.now }
        ensures { Some result.now ≡ slice_get (names_of self.now) number }
    {
        match self.entries.get_index(number) {
            Some((name, _)) => name.as_str(),
            None => "",
        }
    }

    /// The entry of a number.
    pub(crate) fn value(&self, number: usize) -> Option<&V>
        ensures { option_map (λ value. value.now) result ≡ slice_get (values_of self.now) number }
    {
        match self.entries.get_index(number) {
            Some((_, value)) => Some(value),
            None => None,
        }
    }

    /// Adds an entry under a name that is not there; after want of memory nothing is changed.
    pub(crate) fn push(&mut self, alloc: Global, name: &str, value: V) -> Result<(), OutOfMemory>
        requires { number_of (names_of self.now) name.now ≡ None }
        ensures added { OnOk result (self.new ≡ self.old ++ (name.now, value) ∷ []) }
        ensures unchanged { OnErr result (self.new ≡ self.old) }
    {
        let name = String::from_str(alloc, name)?;
        put_indexed(&mut self.entries, name, value)
    }

    /// Takes the last entry out again.
    pub(crate) fn pop(&mut self)
        ensures { self.new ≡ take (length self.old - 1) self.old }
    {
        let last = self.entries.len().saturating_sub(1);
        self.entries.truncate(last);
    }
}
