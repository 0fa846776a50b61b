//! What a description declares: sorts, objects, variables and constants, each by number.
ghost use Rattle.std.specs.Prelude.{◌≡◌, ◌<◌, [], List as Items, Some, length, slice_get, option_map, position, IfOk, IfErr, OnOk};
ghost use Rattle.cc_defs.specs.Declarations.{is_below};
ghost use Rattle.cc_defs.specs.Declarations.{Declaration as Declared};
ghost use Rattle.cc_defs.specs.DeclarationFaults.{signature_refusal};
ghost use Rattle.cc_defs.specs.Refusals.{IsRefusedBy};
ghost use Rattle.cc_defs.specs.Trees.{plain_statement};
ghost use Rattle.cc_sorts.specs.Dictionaries.{number_of, names_of, values_of};
ghost use Rattle.cc_defs.specs.DeclarationFaults.{is_that};
ghost use Rattle.cc_defs.specs.Signatures.{number_at};
ghost use Rattle.cc_sorts.specs.SortViews.{name_at, members_at};
ghost use Rattle.cc_sorts.specs.Tables.{symbol_names, IsTable, IsOfDeclarations, Declares, HasRefused, IsUnchangedBy, IsSignatureOf, IsSignatureFor};

use crate::entering::enter;
use crate::register::Register;
use cc_defs::{Fault, OutOfMemory, Sig, Statement, Symbol};
use std::alloc::Global;
use std::marker::Model;

/// A symbol and the place of its declaration.
#[derive(Drop)]
pub(crate) struct Placed {
    pub(crate) symbol: Symbol,
    pub(crate) file: u32,
    pub(crate) line: u32,
}

/// What was put into a sort: an object, and which number it is, where it was put as one.
#[derive(Clone, Copy)]
pub(crate) struct PutAt {
    pub(crate) object: u32,
    pub(crate) sort: u32,
    pub(crate) number: Option<u32>,
}

/// The sorts, objects, variables and constants of a description, each by its number in declared order: `boolean` is sort 0,
/// `false` is object 0 and `true` object 1. Objects, variables and constants share one set of names.
#[derive(Drop)]
pub struct Table {
    register: Register,
    alloc: Global,
}

impl Model for Table {
    ghost use Rattle.cc_sorts.specs.Entered.{IsOfEntered};
    ghost use Rattle.cc_sorts.specs.Shown.{shown};
    ghost use Rattle.cc_sorts.specs.Tables.{TableView};

    ghost Value = { TableView };

    ghost view = { λ table. shown table.register };

    ghost invariant = { λ table. IsOfEntered table.register };
}

impl Table {
    /// The sort `boolean` with the objects `false` and `true`.
    pub fn new(alloc: Global) -> Result<Table, OutOfMemory>
        ensures { IfOk result (λ table. IsTable table []) }
    {
        Ok(Table {
            register: Register::new(alloc)?,
            alloc,
        })
    }

    /// Declares what a statement of sorts, objects, variables or constants says; `file` is the number of the file in
    /// refusals. Refuses, at the statement's line, the least number of a fault: a name or a pair given twice (4), an unknown
    /// sort or action (5), an attribute whose action has another number of arguments (6), or a sort that does not fit (7);
    /// then too many objects (14, with the limit objects). After a refusal nothing is changed; after want of memory a front
    /// of a statement without a fault is there.
    pub fn declare(&mut self, file: u32, statement: &Statement<'_>) -> Result<(), Fault>
        ensures declared { (left : Items Declared) → IsTable self.old left →
            OnOk result (Declares file left (plain_statement statement.now) self.new) }
        ensures refused { (left : Items Declared) → IsTable self.old left →
            IfErr result (HasRefused file left (plain_statement statement.now) self.old self.new) }
        ensures unchanged { IfErr result (IsUnchangedBy self.old self.new) }
    {
        let alloc = self.alloc;
        enter(alloc, statement, file, &mut self.register)
    }

    /// The ground constants of all that was declared: instances in the order of their arguments, fluents before actions.
    /// Refuses the first of them without a value, at its declaration (12), then more values of one than the limit domain
    /// values, then more of them than the limit ground constants (14); nothing that passes a limit is made.
    pub fn signature(&self, alloc: Global) -> Result<Sig, Fault>
        ensures its { IfOk result (IsSignatureFor self.now) }
        ensures made { (declarations : Items Declared) →
            IsTable self.now declarations → IfOk result (IsSignatureOf declarations) }
        ensures refused { (declarations : Items Declared) → IsTable self.now declarations →
            IfErr result (IsRefusedBy (signature_refusal declarations)) }
    {
        self.register.signature(alloc)
    }

    /// It does nothing. A caller that is to know that a table is that of some declarations calls it.
    pub fn has_declarations(&self)
        ensures { IsOfDeclarations self.now }
    {
        // Opens the table's invariant for the proof.
        let _register = &self.register;
    }

    /// The number of a sort.
    pub fn sort(&self, name: &str) -> Option<u32>
        ensures { result ≡ number_of self.now.sorts.names name.now }
    {
        self.register.sort(name)
    }

    /// The number of an object.
    pub fn object(&self, name: &str) -> Option<u32>
        ensures { result ≡ number_of (names_of self.now.objects) name.now }
    {
        self.register.object(name)
    }

    /// The number of a variable.
    pub fn variable(&self, name: &str) -> Option<u32>
        ensures { result ≡ number_of (names_of self.now.variables) name.now }
    {
        self.register.variable(name)
    }

    /// The number of a constant's symbol.
    pub fn symbol(&self, name: &str) -> Option<u32>
        ensures { result ≡ number_of (symbol_names self.now) name.now }
    {
        self.register.symbol(name)
    }

    /// The objects of a sort and of all sorts below it, in the order in which they were put there, each at its first place. It takes no
    /// memory.
    pub fn objects(&self, sort: u32) -> &[u32]
        requires { sort < length self.now.sorts.names }
        ensures { result.now ≡ members_at self.now.sorts sort }
    {
        self.register.members(sort)
    }

    /// The objects of a sort; none, where there is no such sort.
    pub fn members(&self, sort: u32) -> &[u32]
        ensures { result.now ≡ members_at self.now.sorts sort }
    {
        self.register.members(sort)
    }

    /// The number that an object is; none where it is no number.
    pub fn number_of(&self, object: u32) -> Option<u32>
        ensures { result ≡ number_at self.now.numbers object }
    {
        self.register.number_of(object)
    }

    /// The object that is this number, if there is one.
    pub fn numbered(&self, number: u32) -> Option<u32>
        ensures { result ≡ position (is_that number) self.now.numbers }
    {
        self.register.numbered(number)
    }

    /// The name of a sort.
    pub fn sort_name(&self, sort: u32) -> &str
        requires { sort < length self.now.sorts.names }
        ensures { result.now ≡ name_at self.now.sorts sort }
    {
        self.register.sort_name(sort)
    }

    /// The name of a variable.
    pub fn variable_name(&self, variable: u32) -> &str
        requires { variable < length self.now.variables }
        ensures { Some result.now ≡ slice_get (names_of self.now.variables) variable }
    {
        self.register.variable_name(variable)
    }

    /// How many objects there are.
    pub fn object_count(&self) -> usize
        ensures { result ≡ length self.now.objects }
    {
        self.register.object_count()
    }

    /// The name of an object.
    pub fn object_name(&self, object: u32) -> &str
        requires { object < length self.now.objects }
        ensures { Some result.now ≡ slice_get (names_of self.now.objects) object }
    {
        self.register.object_name(object)
    }

    /// The sort that an object was declared with.
    pub fn object_sort(&self, object: u32) -> u32
        requires { object < length self.now.objects }
        ensures { Some result ≡ slice_get (values_of self.now.objects) object }
    {
        self.register.object_sort(object)
    }

    /// The symbol of a constant.
    pub fn symbol_of(&self, symbol: u32) -> &Symbol
        requires { symbol < length self.now.symbols }
        ensures { Some result.now
            ≡ option_map (λ placed. placed.symbol) (slice_get self.now.symbols symbol) }
    {
        self.register.symbol_of(symbol)
    }

    /// The sort of a variable.
    pub fn sort_of(&self, variable: u32) -> u32
        requires { variable < length self.now.variables }
        ensures { Some result ≡ slice_get (values_of self.now.variables) variable }
    {
        self.register.sort_of(variable)
    }

    /// How many symbols there are.
    pub fn symbol_count(&self) -> usize
        ensures count { result ≡ length self.now.symbols }
        ensures few { result < 4000000000 }
    {
        self.register.symbol_count()
    }

    /// How many variables there are.
    pub fn variable_count(&self) -> usize
        ensures { result ≡ length self.now.variables }
    {
        self.register.variable_count()
    }

    /// How many sorts there are.
    pub fn sort_count(&self) -> usize
        ensures { result ≡ length self.now.sorts.names }
    {
        self.register.sort_count()
    }

    /// Whether a sort is the other or below it. It takes no memory.
    pub fn below(&self, lower: u32, upper: u32) -> bool
        requires lower { lower < length self.now.sorts.names }
        requires upper { upper < length self.now.sorts.names }
        ensures { result ≡ is_below self.now.sorts.pairs
            (name_at self.now.sorts lower) (name_at self.now.sorts upper) }
    {
        self.register.below(lower, upper)
    }
}
