//! The sorts, objects, variables and constants that were entered, each by number.
ghost use Rattle.std.specs.Prelude.{◌≡◌, ◌<◌, [], Some, length, position, slice_get, option_map, IfOk};
ghost use Rattle.cc_defs.specs.Declarations.{is_below};
ghost use Rattle.cc_defs.specs.DeclarationFaults.{is_that};
ghost use Rattle.cc_defs.specs.Signatures.{number_at};
ghost use Rattle.std.specs.List.{list_any};
ghost use Rattle.cc_sorts.specs.Dictionaries.{number_of, names_of, values_of};
ghost use Rattle.cc_sorts.specs.Entered.{IsEntered};
ghost use Rattle.cc_sorts.specs.Lefts.{is_put_as, table_has_from};
ghost use Rattle.cc_sorts.specs.Lists.{lists_of};
ghost use Rattle.cc_sorts.specs.SortViews.{name_at};
ghost use Rattle.cc_sorts.specs.Tables.{first_table, symbol_names};

use crate::dictionary::Dictionary;
use crate::objects::Objects;
use crate::shown::{has_put_from, is_put_as};
use crate::sorts::Sorts;
use crate::table::{Placed, PutAt};
use cc_defs::{OutOfMemory, Symbol};
use std::alloc::Global;
use std::marker::Model;

/// What a table keeps, whatever order it was entered in.
#[derive(Drop)]
pub(crate) struct Register {
    /// Each with the numbers of the puts into it and into those below it.
    pub(crate) sorts: Sorts,
    /// In the order of the text.
    pub(crate) puts: Vec<PutAt>,
    /// What is shown of each sort: the objects of its puts, each at its first place.
    pub(crate) lists: Vec<Vec<u32>>,
    pub(crate) objects: Objects,
    /// Each with the number of its sort.
    pub(crate) variables: Dictionary<u32>,
    pub(crate) symbols: Dictionary<Placed>,
}

impl Model for Register {
    ghost use Rattle.cc_sorts.specs.Dictionaries.{values_of};
    ghost use Rattle.cc_sorts.specs.Entered.{Fits};
    ghost use Rattle.cc_sorts.specs.Lists.{lists_of};
    ghost use Rattle.cc_sorts.specs.Tables.{TableView};

    ghost Value = { TableView };

    ghost view = { λ register. record {
      sorts = register.sorts;
      puts = register.puts.items;
      objects = register.objects.named;
      numbers = register.objects.numbers;
      variables = register.variables;
      symbols = values_of register.symbols;
    } };

    ghost invariant = { λ register.
        Fits register.sorts register.puts.items (lists_of register.lists.items)
        register.objects.named register.variables register.symbols };
}

const FALSE: PutAt = PutAt {
    object: 0,
    sort: 0,
    number: None,
};

const TRUE: PutAt = PutAt {
    object: 1,
    sort: 0,
    number: None,
};

fn first_puts(alloc: Global) -> Result<Vec<PutAt>, OutOfMemory>
    ensures { IfOk result (λ puts. puts.items ≡ first_table.puts) }
{
    Ok(Vec::from_slice(alloc, &[FALSE, TRUE])?)
}

fn first_lists(alloc: Global) -> Result<Vec<Vec<u32>>, OutOfMemory>
    ensures { IfOk result (λ lists. lists_of lists.items ≡ first_table.sorts.members) }
{
    let mut lists = Vec::new(alloc);
    lists.push(Vec::from_slice(alloc, &[0, 1])?)?;
    Ok(lists)
}

fn first_objects(alloc: Global) -> Result<Objects, OutOfMemory>
    ensures named { IfOk result (λ objects. objects.named ≡ first_table.objects) }
    ensures numbers { IfOk result (λ objects. objects.numbers ≡ first_table.numbers) }
{
    let mut objects = Objects::new(alloc);
    objects.push(alloc, "false", 0, None)?;
    objects.push(alloc, "true", 0, None)?;
    Ok(objects)
}

impl Register {
    /// The sort `boolean`, into which the objects `false` and `true` are put.
    pub(crate) fn new(alloc: Global) -> Result<Register, OutOfMemory>
        ensures first { IfOk result (λ register. register ≡ first_table) }
        ensures nothing { IfOk result (λ register. IsEntered register []) }
    {
        let puts = first_puts(alloc)?;
        let lists = first_lists(alloc)?;
        let objects = first_objects(alloc)?;
        let sorts = Sorts::new(alloc)?;
        Ok(Register {
            sorts,
            puts,
            lists,
            objects,
            variables: Dictionary::new(alloc),
            symbols: Dictionary::new(alloc),
        })
    }

    /// The number of a sort.
    pub(crate) fn sort(&self, name: &str) -> Option<u32>
        ensures { result ≡ number_of self.now.sorts.names name.now }
    {
        match self.sorts.find(name) {
            Some(number) => Some(number as u32),
            None => None,
        }
    }

    /// The number of an object.
    pub(crate) fn object(&self, name: &str) -> Option<u32>
        ensures { result ≡ number_of (names_of self.now.objects) name.now }
    {
        match self.objects.find(name) {
            Some(number) => Some(number as u32),
            None => None,
        }
    }

    /// The number of a variable.
    pub(crate) fn variable(&self, name: &str) -> Option<u32>
        ensures { result ≡ number_of (names_of self.now.variables) name.now }
    {
        match self.variables.find(name) {
            Some(number) => Some(number as u32),
            None => None,
        }
    }

    /// The number of a constant's symbol.
    pub(crate) fn symbol(&self, name: &str) -> Option<u32>
        ensures { result ≡ number_of (symbol_names self.now) name.now }
    {
        match self.symbols.find(name) {
            Some(number) => Some(number as u32),
            None => None,
        }
    }

    /// The name of a sort.
    pub(crate) fn sort_name(&self, sort: u32) -> &str
        requires { sort < length self.now.sorts.names }
        ensures { result.now ≡ name_at self.now.sorts sort }
    {
        self.sorts.name(sort as usize)
    }

    /// The name of a variable.
    pub(crate) fn variable_name(&self, variable: u32) -> &str
        requires { variable < length self.now.variables }
        ensures { Some result.now ≡ slice_get (names_of self.now.variables) variable }
    {
        self.variables.name(variable as usize)
    }

    /// How many objects there are.
    pub(crate) fn object_count(&self) -> usize
        ensures { result ≡ length self.now.objects }
    {
        self.objects.len()
    }

    /// The name of an object.
    pub(crate) fn object_name(&self, object: u32) -> &str
        requires { object < length self.now.objects }
        ensures { Some result.now ≡ slice_get (names_of self.now.objects) object }
    {
        self.objects.name(object as usize)
    }

    /// The number that an object is.
    pub(crate) fn number_of(&self, object: u32) -> Option<u32>
        ensures { result ≡ number_at self.now.numbers object }
    {
        self.objects.number_of(object as usize)
    }

    /// The object that is this number.
    pub(crate) fn numbered(&self, number: u32) -> Option<u32>
        ensures { result ≡ position (is_that number) self.now.numbers }
    {
        self.objects.numbered(number)
    }

    /// Whether a name was put under this name.
    pub(crate) fn has_put_as(&self, name: &str) -> bool
        ensures { result
            ≡ list_any (is_put_as (number_of (names_of self.now.objects) name.now)) self.now.puts }
    {
        match self.objects.find(name) {
            Some(object) => is_put_as(&self.puts, object as u32),
            None => false,
        }
    }

    /// Whether a number from the one to the other was put into the sort itself.
    pub(crate) fn has_put_from(&self, low: u32, high: u32, sort: &str) -> bool
        ensures { result ≡ table_has_from self.now low high sort.now }
    {
        match self.sorts.find(sort) {
            Some(sort) => has_put_from(&self.puts, low, high, sort as u32),
            None => false,
        }
    }

    /// The sort that an object was declared with.
    pub(crate) fn object_sort(&self, object: u32) -> u32
        requires { object < length self.now.objects }
        ensures { Some result ≡ slice_get (values_of self.now.objects) object }
    {
        self.objects.sort(object as usize)
    }

    /// The symbol of a constant.
    pub(crate) fn symbol_of(&self, symbol: u32) -> &Symbol
        requires { symbol < length self.now.symbols }
        ensures { Some result.now
            ≡ option_map (λ placed. placed.symbol) (slice_get self.now.symbols symbol) }
    {
        &self.symbols.value(symbol as usize).unwrap().symbol
    }

    /// The sort of a variable.
    pub(crate) fn sort_of(&self, variable: u32) -> u32
        requires { variable < length self.now.variables }
        ensures { Some result ≡ slice_get (values_of self.now.variables) variable }
    {
        *self.variables.value(variable as usize).unwrap()
    }

    /// How many variables there are.
    pub(crate) fn variable_count(&self) -> usize
        ensures { result ≡ length self.now.variables }
    {
        self.variables.len()
    }

    /// How many sorts there are.
    pub(crate) fn sort_count(&self) -> usize
        ensures { result ≡ length self.now.sorts.names }
    {
        self.sorts.len()
    }

    /// Whether a sort is the other or below it. It takes no memory.
    pub(crate) fn below(&self, lower: u32, upper: u32) -> bool
        requires lower { lower < length self.now.sorts.names }
        requires upper { upper < length self.now.sorts.names }
        ensures { result ≡ is_below self.now.sorts.pairs
            (name_at self.now.sorts lower) (name_at self.now.sorts upper) }
    {
        self.sorts.below(lower as usize, upper as usize)
    }
}
