//! The labels of queries, each once, found by a hash.
ghost use Rattle.std.specs.Prelude.{◌≡◌, ◌++◌, ◌∷◌, [], if◌then◌else◌, OnOk, OnErr};
ghost use Rattle.cc_describe.specs.FirstRefusal.{is_among};

use cc_defs::OutOfMemory;
use indexmap::IndexSet;
use std::alloc::Global;
use std::marker::Model;

/// Labels in the order in which they came.
#[derive(Drop)]
pub(crate) struct Labels {
    labels: IndexSet<String>,
}

impl Model for Labels {
    ghost use Rattle.std.specs.Prelude.{List, ℕ, map, string_bytes};

    ghost Value = { List (List ℕ) };

    ghost view = { λ value. map string_bytes value.labels.keys };
}

impl Labels {
    pub(crate) fn new(alloc: Global) -> Labels
        ensures { result ≡ [] }
    {
        Labels {
            labels: IndexSet::new(alloc),
        }
    }

    /// Whether the label is there.
    pub(crate) fn has(&self, label: &str) -> bool
        ensures { result ≡ is_among self.now label.now }
    {
        self.labels.contains(label)
    }

    /// Adds a label, if it is not there.
    pub(crate) fn add(&mut self, alloc: Global, label: &str) -> Result<(), OutOfMemory>
        ensures added { OnOk result (self.new
            ≡ (if is_among self.old label.now then self.old else self.old ++ label.now ∷ [])) }
        ensures unchanged { OnErr result (self.new ≡ self.old) }
    {
        let label = String::from_str(alloc, label)?;
        self.labels.insert(label)?;
        Ok(())
    }
}
