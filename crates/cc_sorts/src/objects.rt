//! Objects by number: their names, and the number that each is, where it is one.
ghost use Rattle.std.specs.Prelude.{◌≡◌, ◌-◌, ◌<◌, ◌++◌, ◌∷◌, [], None, Some, length, take, position, slice_get, OnOk, OnErr};
ghost use Rattle.cc_defs.specs.DeclarationFaults.{is_that};
ghost use Rattle.cc_defs.specs.Signatures.{number_at};
ghost use Rattle.cc_sorts.specs.Dictionaries.{number_of, names_of, values_of};
ghost use Rattle.cc_sorts.specs.Objects.{no_objects, more_objects, checked_at, AreFound};

use crate::dictionary::Dictionary;
use crate::puts::put_indexed;
use cc_defs::OutOfMemory;
use indexmap::IndexMap;
use std::alloc::Global;
use std::marker::Model;

/// Objects by number, each under a name of its own.
pub(crate) struct Objects {
    /// Each with the number of the sort that it was first put into.
    names: Dictionary<u32>,
    numbers: Vec<Option<u32>>,
    /// The object of each number. An entry may be of an object that was taken out again.
    places: IndexMap<u32, u32>,
}

// By hand, so that whoever lets them go has one call there, and not a drop for each field.
impl Drop for Objects {
    fn drop(self) {
        let Objects {
            names: _,
            numbers: _,
            places: _,
        } = self;
    }
}

impl Model for Objects {
    ghost use Rattle.cc_sorts.specs.Objects.{ObjectsView, AreObjects};

    ghost Value = { ObjectsView };

    ghost view = { λ objects. record { named = objects.names; numbers = objects.numbers.items } };

    ghost invariant = { λ objects.
        AreObjects objects.names objects.numbers.items objects.places.entries };
}

impl Objects {
    pub(crate) fn new(alloc: Global) -> Objects
        ensures { result ≡ no_objects }
    {
        Objects {
            names: Dictionary::new(alloc),
            numbers: Vec::new(alloc),
            places: IndexMap::new(alloc),
        }
    }

    pub(crate) fn len(&self) -> usize
        ensures { result ≡ length self.now.named }
    {
        self.names.len()
    }

    /// The number of a name.
    pub(crate) fn find(&self, name: &str) -> Option<usize>
        ensures { result ≡ number_of (names_of self.now.named) name.now }
    {
        self.names.find(name)
    }

    pub(crate) fn name(&self, object: usize) -> &str
        requires { object < length self.now.named }
        ensures { Some result.now ≡ slice_get (names_of self.now.named) object }
    {
        self.names.name(object)
    }

    /// The sort that an object was first put into.
    pub(crate) fn sort(&self, object: usize) -> u32
        requires { object < length self.now.named }
        ensures { Some result ≡ slice_get (values_of self.now.named) object }
    {
        *self.names.value(object).unwrap()
    }

    /// The number that each object is, where it is one.
    pub(crate) fn numbers(&self) -> &[Option<u32>]
        ensures { result.now ≡ self.now.numbers }
    {
        &self.numbers
    }

    /// The number that an object is.
    pub(crate) fn number_of(&self, object: usize) -> Option<u32>
        ensures { result ≡ number_at self.now.numbers object }
    {
        match self.numbers.get(object) {
            Some(number) => *number,
            None => None,
        }
    }

    /// The object that is this number.
    pub(crate) fn numbered(&self, number: u32) -> Option<u32>
        ensures { result ≡ position (is_that number) self.now.numbers }
    {
        find_number(&self.numbers, &self.places, number)
    }

    /// Adds an object under a name that is not there; after want of memory nothing is changed.
    pub(crate) fn push(
        &mut self,
        alloc: Global,
        name: &str,
        sort: u32,
        number: Option<u32>,
    ) -> Result<(), OutOfMemory>
        requires new { number_of (names_of self.old.named) name.now ≡ None }
        requires few { length self.old.named < 4000000000 }
        ensures added { OnOk result (self.new ≡ more_objects self.old name.now sort number) }
        ensures unchanged { OnErr result (self.new ≡ self.old) }
    {
        let object = self.names.len() as u32;
        self.numbers.reserve(1)?;
        note(&self.numbers, &mut self.places, number, object)?;
        self.names.push(alloc, name, sort)?;
        self.numbers.push(number)?;
        Ok(())
    }

    /// Takes the last object out again.
    pub(crate) fn pop(&mut self)
        ensures named { self.new.named ≡ take (length self.old.named - 1) self.old.named }
        ensures numbers { self.new.numbers ≡ take (length self.old.numbers - 1) self.old.numbers }
    {
        self.names.pop();
        self.numbers.pop();
    }
}

/// The object, if it is this number.
fn checked(numbers: &[Option<u32>], number: u32, object: u32) -> Option<u32>
    ensures { result ≡ checked_at number object (slice_get numbers.now object) }
{
    match numbers.get(object as usize) {
        Some(Some(other)) => (*other == number).then_some(object),
        Some(None) => None,
        None => None,
    }
}

fn find_number(numbers: &[Option<u32>], places: &IndexMap<u32, u32>, number: u32) -> Option<u32>
    requires { AreFound numbers.now places.now.entries }
    ensures { result ≡ position (is_that number) numbers.now }
{
    match places.get(&number) {
        Some(object) => checked(numbers, number, *object),
        None => None,
    }
}

/// Notes the object of a number that is to go behind the others, unless there is one before it.
fn note(
    numbers: &[Option<u32>],
    places: &mut IndexMap<u32, u32>,
    number: Option<u32>,
    object: u32,
) -> Result<(), OutOfMemory>
    requires found { AreFound numbers.now places.old.entries }
    requires last { object ≡ length numbers.now }
    ensures kept { AreFound numbers.now places.new.entries }
    ensures noted { OnOk result (AreFound (numbers.now ++ number ∷ []) places.new.entries) }
{
    let Some(number) = number else {
        return Ok(());
    };
    if find_number(numbers, places, number).is_some() {
        return Ok(());
    }
    put_indexed(places, number, object)
}
