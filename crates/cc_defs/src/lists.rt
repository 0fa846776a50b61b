//! Small types over `Vec` and `String` that contracts see as lists.
ghost use Rattle.std.specs.Prelude.{◌≡◌, IfOk, string_bytes};

use crate::{List, Lit, OutOfMemory};
use std::alloc::Global;
use std::marker::Model;

/// A list of numbers.
#[derive(Drop)]
pub struct Nums {
    numbers: Vec<u32>,
}

impl Model for Nums {
    ghost use Rattle.std.specs.Prelude.{List, ℕ};

    ghost Value = { List ℕ };

    ghost view = { λ value. value.numbers.items };
}

impl Nums {
    /// The list of these numbers, in their order.
    pub fn of(items: Vec<u32>) -> Self
        ensures { result ≡ items.items }
    {
        Nums { numbers: items }
    }

    /// The numbers, in their order.
    pub fn items(&self) -> &[u32]
        ensures { result.now ≡ self.now }
    {
        self.numbers.as_slice()
    }
}

/// An interpretation of a horizon: a value index for each position, the fluents of step 0 first, then the actions of
/// step 0, the fluents of step 1, and so on.
#[derive(Drop)]
pub struct Row {
    indexes: Vec<u32>,
}

impl Model for Row {
    ghost use Rattle.std.specs.Prelude.{List, ℕ};

    ghost Value = { List ℕ };

    ghost view = { λ value. value.indexes.items };
}

impl Row {
    /// The row with these value indexes, position by position.
    pub fn of(items: Vec<u32>) -> Self
        ensures { result ≡ items.items }
    {
        Row { indexes: items }
    }

    /// The value index of each position, in their order.
    pub fn items(&self) -> &[u32]
        ensures { result.now ≡ self.now }
    {
        self.indexes.as_slice()
    }

    /// An equal row.
    pub fn copy(&self, alloc: Global) -> Result<Row, OutOfMemory>
        ensures { IfOk result (λ copy. copy ≡ self.now) }
    {
        let indexes = Vec::from_slice(alloc, self.indexes.as_slice())?;
        Ok(Row { indexes })
    }
}

/// Where a listing goes on: after this row of this horizon.
#[derive(Drop)]
pub struct Key {
    pub horizon: u32,
    pub row: Row,
}

impl Key {
    /// An equal key.
    pub fn copy(&self, alloc: Global) -> Result<Key, OutOfMemory>
        ensures { IfOk result (λ copy. copy ≡ self.now) }
    {
        let row = self.row.copy(alloc)?;
        Ok(Key {
            horizon: self.horizon,
            row,
        })
    }
}

/// The bytes of a file.
#[derive(Drop)]
pub struct Bytes {
    bytes: Vec<u8>,
}

impl Model for Bytes {
    ghost use Rattle.std.specs.Prelude.{List, ℕ};

    ghost Value = { List ℕ };

    ghost view = { λ value. value.bytes.items };
}

impl Bytes {
    /// The list of these bytes, in their order.
    pub fn of(items: Vec<u8>) -> Self
        ensures { result ≡ items.items }
    {
        Bytes { bytes: items }
    }

    /// The bytes, in their order.
    pub fn items(&self) -> &[u8]
        ensures { result.now ≡ self.now }
    {
        self.bytes.as_slice()
    }
}

/// The name of a sort, an object, a constant or a file.
#[derive(Drop)]
pub struct Name {
    name: String,
}

impl Model for Name {
    ghost use Rattle.std.specs.Prelude.{List, ℕ, string_bytes};

    ghost Value = { List ℕ };

    ghost view = { λ value. string_bytes value.name };
}

impl Name {
    /// The name that is spelled so, without quotes.
    pub fn of(text: String) -> Self
        ensures { result ≡ string_bytes text }
    {
        Name { name: text }
    }

    /// How the name is spelled, without quotes.
    pub fn text(&self) -> &str
        ensures { result.now ≡ self.now }
    {
        self.name.as_str()
    }
}

/// Names in order.
pub type Names = List<Name>;

/// A text that is to be printed.
#[derive(Drop)]
pub struct Text {
    bytes: String,
}

impl Model for Text {
    ghost use Rattle.std.specs.Prelude.{List, ℕ, string_bytes};

    ghost Value = { List ℕ };

    ghost view = { λ value. string_bytes value.bytes };
}

impl Text {
    /// The text with these characters.
    pub fn of(text: String) -> Self
        ensures { result ≡ string_bytes text }
    {
        Text { bytes: text }
    }

    /// The characters of the text; a line feed ends each line.
    pub fn text(&self) -> &str
        ensures { result.now ≡ self.now }
    {
        self.bytes.as_str()
    }
}

/// A list of literals.
#[derive(Drop)]
pub struct Lits {
    literals: Vec<Lit>,
}

impl Model for Lits {
    ghost use Rattle.std.specs.Prelude.{List};
    ghost use Rattle.cc_defs.specs.Clauses.{Literal};

    ghost Value = { List Literal };

    ghost view = { λ value. value.literals.items };
}

impl Lits {
    /// The list of these literals, in their order.
    pub fn of(items: Vec<Lit>) -> Self
        ensures { result ≡ items.items }
    {
        Lits { literals: items }
    }

    /// The literals, in their order.
    pub fn items(&self) -> &[Lit]
        ensures { result.now ≡ self.now }
    {
        self.literals.as_slice()
    }
}
