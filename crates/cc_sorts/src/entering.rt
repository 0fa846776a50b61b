//! Declaring what a statement says.
ghost use Rattle.std.specs.Prelude.{◌≡◌, ◌+◌, ◌-◌, ◌<◌, ◌≤◌, ℕ, List as Items, None, decimal, min, length, map, flat_map, IfOk, IfErr, OnOk, OnErr};
ghost use Rattle.cc_defs.specs.Declarations.{number_in, kind_of_constant, put_declared, from_to};
ghost use Rattle.cc_defs.specs.Declarations as words;
ghost use Rattle.cc_defs.specs.Declarations.{Declaration as Declared};
ghost use Rattle.cc_defs.specs.Trees.{PlainPart, plain_kind, plain_shape, plain_statement};
ghost use Rattle.cc_sorts.specs.Declaring.{numbers_of, plain_declaration, plain_declarations, statement_of, AreOfPart};
ghost use Rattle.cc_sorts.specs.Dictionaries.{number_of, names_of};
ghost use Rattle.cc_sorts.specs.Entered.{IsEntered, Enters, IsRefusedFor};
ghost use Rattle.cc_sorts.specs.Steps.{IsFrontOf, behind_all, put_sort as sort_put, put_pair as pair_put, put_object as object_put, put_variable as variable_put, put_symbol as symbol_put, new_put, new_object, placed_in, action_in, judged_refusal};
ghost use Rattle.cc_sorts.specs.Tables.{symbol_names};

use crate::declaration::{Declaration, add_declarations};
use crate::fault::least_fault;
use crate::register::Register;
use crate::shown::{add_pair, add_put, add_sort};
use crate::table::{Placed, PutAt};
use cc_defs::{
    Fault, Kind, KindTree, KindWord, LimitAt, Name, Nums, OutOfMemory, Refusal, Shape, Statement,
    Symbol,
};
use std::alloc::Global;

/// How many sorts, puts, objects, variables and constants there are at most, so that each has a number.
const MOST_ENTRIES: usize = 3_999_999_999;

/// What the count of what is put stops at: more than the limit of objects, so that a count that stopped is seen to pass it.
const MANY: usize = 10_000;

fn kind_of_word(word: KindWord) -> Kind
    ensures { result ≡ words.kind_of_word word }
{
    match word {
        KindWord::Simple | KindWord::Inertial | KindWord::Rigid => Kind::Simple,
        KindWord::Determined => Kind::Determined,
        KindWord::Action | KindWord::ExogenousAction => Kind::Action,
    }
}

/// What a constant is. An attribute is an action.
fn kind_of(kind: &KindTree<'_>) -> Kind
    ensures { result ≡ kind_of_constant (plain_kind kind.now) }
{
    match kind {
        KindTree::Plain(word, _) => kind_of_word(*word),
        KindTree::Attribute(..) => Kind::Action,
    }
}

/// The sort of a constant's values.
fn value_sort<'s>(kind: &KindTree<'s>) -> &'s str
    ensures { result.now ≡ words.value_sort (plain_kind kind.now) }
{
    match kind {
        KindTree::Plain(_, None) => "boolean",
        KindTree::Plain(_, Some(sort)) => sort,
        KindTree::Attribute(sort, _) => sort,
    }
}

/// How many numbers there are from the one to the other.
fn count_of(low: u32, high: u32) -> usize
    ensures within { result ≤ 4294967296 }
    ensures counted { result ≡ high + 1 - low }
{
    (high as usize + 1).saturating_sub(low as usize)
}

/// How much a declaration puts into sorts.
fn puts_of(declaration: &Declaration<'_, '_>) -> usize
    ensures within { result ≤ 4294967296 }
    ensures counted { (file line : ℕ) →
        result ≡ length (flat_map put_declared (plain_declaration file line declaration.now)) }
{
    match declaration {
        Declaration::Object(..) => 1,
        Declaration::Numbers(low, high, _) => count_of(*low, *high),
        Declaration::Sort(..)
        | Declaration::Link(..)
        | Declaration::Subsort(..)
        | Declaration::Variable(..)
        | Declaration::Constant(..)
        | Declaration::Kinds(..) => 0,
    }
}

/// How much is put into sorts; counting stops at MANY.
fn count_puts(new: &[Declaration<'_, '_>]) -> usize
    ensures { (file line : ℕ) →
        result ≡ min (length (flat_map put_declared (plain_declarations file line new.now))) 10000 }
{
    let mut count = 0;
    for declaration in new {
        count = (count + puts_of(declaration)).min(MANY);
    }
    count
}

impl Register {
    /// Adds a sort, if it is not there.
    fn put_sort(&mut self, alloc: Global, name: &str) -> Result<(), OutOfMemory>
        ensures put { OnOk result (self.new ≡ sort_put self.old name.now) }
        ensures unchanged { OnErr result (self.new ≡ self.old) }
    {
        if self.sorts.find(name).is_some() {
            return Ok(());
        }
        if self.sorts.len() >= MOST_ENTRIES {
            return Err(OutOfMemory);
        }
        add_sort(alloc, &mut self.sorts, &mut self.lists, name)
    }

    /// Puts a sort below another, where both are there and this makes no circle.
    fn put_pair(&mut self, alloc: Global, upper: &str, lower: &str) -> Result<(), OutOfMemory>
        ensures put { OnOk result (self.new ≡ pair_put self.old upper.now lower.now) }
        ensures unchanged { OnErr result (self.new ≡ self.old) }
    {
        let (Some(upper), Some(lower)) = (self.sorts.find(upper), self.sorts.find(lower)) else {
            return Ok(());
        };
        if self.sorts.below(upper, lower) {
            return Ok(());
        }
        if self.sorts.below(lower, upper) {
            return self.sorts.add_implied(upper, lower);
        }
        add_pair(
            alloc,
            &mut self.sorts,
            &self.puts,
            &mut self.lists,
            upper,
            lower,
        )
    }

    /// Puts an object that is there into a sort.
    fn put_again(
        &mut self,
        object: usize,
        sort: usize,
        number: Option<u32>,
    ) -> Result<(), OutOfMemory>
        requires object { object < length self.old.objects }
        requires sort { sort < length self.old.sorts.names }
        ensures put { OnOk result (self.new ≡ new_put self.old object sort number) }
        ensures unchanged { OnErr result (self.new ≡ self.old) }
    {
        if self.puts.len() >= MOST_ENTRIES {
            return Err(OutOfMemory);
        }
        let put = PutAt {
            object: object as u32,
            sort: sort as u32,
            number,
        };
        add_put(&mut self.sorts, &mut self.puts, &mut self.lists, put, false)
    }

    /// Adds an object under its name, and puts it into its sort; if memory is wanting then, the name is taken out again.
    fn put_new(
        &mut self,
        alloc: Global,
        name: &str,
        sort: usize,
        number: Option<u32>,
    ) -> Result<(), OutOfMemory>
        requires sort { sort < length self.old.sorts.names }
        requires new { number_of (names_of self.old.objects) name.now ≡ None }
        ensures put { OnOk result (self.new ≡ new_object self.old name.now sort number) }
        ensures unchanged { OnErr result (self.new ≡ self.old) }
    {
        if self.puts.len() >= MOST_ENTRIES || self.objects.len() >= MOST_ENTRIES {
            return Err(OutOfMemory);
        }
        let put = PutAt {
            object: self.objects.len() as u32,
            sort: sort as u32,
            number,
        };
        self.objects.push(alloc, name, sort as u32, number)?;
        match add_put(&mut self.sorts, &mut self.puts, &mut self.lists, put, true) {
            Ok(()) => Ok(()),
            Err(error) => {
                self.objects.pop();
                Err(error)
            }
        }
    }

    /// Puts a name, or a number by its digits, into a sort that is there.
    fn put_object(
        &mut self,
        alloc: Global,
        name: &str,
        sort: &str,
        number: Option<u32>,
    ) -> Result<(), OutOfMemory>
        ensures put { OnOk result (self.new ≡ object_put self.old name.now sort.now number) }
        ensures unchanged { OnErr result (self.new ≡ self.old) }
    {
        match (self.sorts.find(sort), self.objects.find(name)) {
            (Some(sort), Some(object)) => self.put_again(object, sort, number),
            (Some(sort), None) => self.put_new(alloc, name, sort, number),
            (None, _) => Ok(()),
        }
    }

    fn put_number(&mut self, alloc: Global, number: u32, sort: &str) -> Result<(), OutOfMemory>
        ensures put { OnOk result
            (self.new ≡ object_put self.old (decimal number) sort.now (Some number)) }
        ensures unchanged { OnErr result (self.new ≡ self.old) }
    {
        let digits = format!(in alloc; "{number}")?;
        self.put_object(alloc, &digits, sort, Some(number))
    }

    /// Puts the numbers from the one to the other into a sort; after want of memory a front of them is there.
    fn put_numbers(
        &mut self,
        alloc: Global,
        low: u32,
        high: u32,
        sort: &str,
    ) -> Result<(), OutOfMemory>
        ensures put { OnOk result
            (self.new ≡ behind_all self.old (numbers_of sort.now (from_to low high))) }
        ensures front { OnErr result
            (IsFrontOf self.old (numbers_of sort.now (from_to low high)) self.new) }
    {
        for more in 0..count_of(low, high) {
            self.put_number(alloc, (low as usize + more) as u32, sort)?;
        }
        Ok(())
    }

    /// Adds a variable whose sort is there.
    fn put_variable(&mut self, alloc: Global, name: &str, sort: &str) -> Result<(), OutOfMemory>
        ensures put { OnOk result (self.new ≡ variable_put self.old name.now sort.now) }
        ensures unchanged { OnErr result (self.new ≡ self.old) }
    {
        if self.variables.len() >= MOST_ENTRIES {
            return Err(OutOfMemory);
        }
        match (self.sorts.find(sort), self.variables.find(name)) {
            (Some(sort), None) => self.variables.push(alloc, name, sort as u32),
            _ => Ok(()),
        }
    }

    /// The number of a sort, 0 if it is not there.
    fn sort_number(&self, name: &str) -> u32
        ensures { result ≡ number_in self.now.sorts.names name.now }
    {
        match self.sorts.find(name) {
            Some(sort) => sort as u32,
            None => 0,
        }
    }

    fn sort_numbers(&self, alloc: Global, names: &[&str]) -> Result<Vec<u32>, OutOfMemory>
        ensures { IfOk result (λ numbers. numbers.items
            ≡ map (number_in self.now.sorts.names) (map (λ name. name.now) names.now)) }
    {
        let mut numbers = Vec::new(alloc);
        for name in names {
            numbers.push(self.sort_number(name))?;
        }
        Ok(numbers)
    }

    /// The symbol of the action of an attribute.
    fn action_of(&self, kind: &KindTree<'_>) -> Option<u32>
        ensures { result ≡ action_in (symbol_names self.now) (plain_kind kind.now) }
    {
        match kind {
            KindTree::Plain(..) => None,
            KindTree::Attribute(_, action) => match self.symbol(action.name) {
                Some(symbol) => Some(symbol),
                None => Some(0),
            },
        }
    }

    /// The symbol of a constant.
    fn placed(
        &self,
        alloc: Global,
        shape: &Shape<'_>,
        kind: &KindTree<'_>,
        file: u32,
        line: u32,
    ) -> Result<Placed, OutOfMemory>
        ensures { IfOk result (λ placed.
            placed ≡ placed_in self.now (plain_shape shape.now) (plain_kind kind.now) file line) }
    {
        let name = String::from_str(alloc, shape.name)?;
        let sorts = self.sort_numbers(alloc, shape.sorts.items())?;
        let symbol = Symbol {
            name: Name::of(name),
            sorts: Nums::of(sorts),
            kind: kind_of(kind),
            domain: self.sort_number(value_sort(kind)),
            attribute: self.action_of(kind),
        };
        Ok(Placed { symbol, file, line })
    }

    /// Adds the symbol of a constant whose name is not that of another symbol.
    fn put_symbol(
        &mut self,
        alloc: Global,
        shape: &Shape<'_>,
        kind: &KindTree<'_>,
        file: u32,
        line: u32,
    ) -> Result<(), OutOfMemory>
        ensures put { OnOk result (self.new
            ≡ symbol_put self.old (plain_shape shape.now) (plain_kind kind.now) file line) }
        ensures unchanged { OnErr result (self.new ≡ self.old) }
    {
        if self.symbols.find(shape.name).is_some() {
            return Ok(());
        }
        if self.symbols.len() >= MOST_ENTRIES {
            return Err(OutOfMemory);
        }
        let placed = self.placed(alloc, shape, kind, file, line)?;
        self.symbols.push(alloc, shape.name, placed)
    }

    /// Puts a declaration into the table. What is there already, or names what is not there, changes nothing.
    fn put(
        &mut self,
        alloc: Global,
        file: u32,
        line: u32,
        declaration: &Declaration<'_, '_>,
    ) -> Result<(), OutOfMemory>
        ensures put { OnOk result
            (self.new ≡ behind_all self.old (plain_declaration file line declaration.now)) }
        ensures front { OnErr result
            (IsFrontOf self.old (plain_declaration file line declaration.now) self.new) }
    {
        match declaration {
            Declaration::Sort(name) => self.put_sort(alloc, name),
            Declaration::Link(name) => self.put_sort(alloc, name),
            Declaration::Subsort(upper, lower) => self.put_pair(alloc, upper, lower),
            Declaration::Object(name, sort) => self.put_object(alloc, name, sort, None),
            Declaration::Numbers(low, high, sort) => self.put_numbers(alloc, *low, *high, sort),
            Declaration::Variable(name, sort) => self.put_variable(alloc, name, sort),
            Declaration::Constant(shape, kind) => self.put_symbol(alloc, shape, kind, file, line),
            Declaration::Kinds(..) => Ok(()),
        }
    }

    /// Puts declarations into the table, in their order; after want of memory a front of them is there.
    fn put_all(
        &mut self,
        alloc: Global,
        file: u32,
        line: u32,
        new: &[Declaration<'_, '_>],
    ) -> Result<(), OutOfMemory>
        ensures put { OnOk result
            (self.new ≡ behind_all self.old (plain_declarations file line new.now)) }
        ensures front { OnErr result
            (IsFrontOf self.old (plain_declarations file line new.now) self.new) }
    {
        for declaration in new {
            self.put(alloc, file, line, declaration)?;
        }
        Ok(())
    }

    /// The refusal of new declarations, if there is one.
    fn refusal_of(
        &self,
        alloc: Global,
        file: u32,
        line: u32,
        new: &[Declaration<'_, '_>],
    ) -> Result<Option<Refusal>, OutOfMemory>
        ensures { (left : Items Declared) → IsEntered self.now left → IfOk result (λ refusal.
            refusal ≡ judged_refusal file line left (plain_declarations file line new.now)) }
    {
        if let Some(number) = least_fault(alloc, self, new)? {
            return Ok(Some(Refusal::at(number, file, line)));
        }
        let count = self.puts.len() + count_puts(new);
        if count.saturating_sub(2) > LimitAt::Objects.number() as usize {
            return Ok(Some(Refusal::past_at(LimitAt::Objects, file, line)));
        }
        Ok(None)
    }

    /// Declares these declarations of a statement, or refuses them.
    fn declare_all(
        &mut self,
        alloc: Global,
        file: u32,
        line: u32,
        new: &[Declaration<'_, '_>],
    ) -> Result<(), Fault>
        ensures declared { (left : Items Declared) (part : PlainPart) →
            IsEntered self.old left → AreOfPart file line part new.now →
            OnOk result (Enters file left (statement_of line part) self.new) }
        ensures refused { (left : Items Declared) (part : PlainPart) →
            IsEntered self.old left → AreOfPart file line part new.now →
            IfErr result (IsRefusedFor file left (statement_of line part) self.old self.new) }
    {
        if let Some(refusal) = self.refusal_of(alloc, file, line, new)? {
            return Err(Fault::Refused(refusal));
        }
        self.put_all(alloc, file, line, new)?;
        Ok(())
    }
}

/// Declares what a statement says, or refuses it: `Table::declare`.
pub(crate) fn enter(
    alloc: Global,
    statement: &Statement<'_>,
    file: u32,
    register: &mut Register,
) -> Result<(), Fault>
    ensures declared { (left : Items Declared) → IsEntered register.old left →
        OnOk result (Enters file left (plain_statement statement.now) register.new) }
    ensures refused { (left : Items Declared) → IsEntered register.old left → IfErr result
        (IsRefusedFor file left (plain_statement statement.now) register.old register.new) }
{
    let mut new = Vec::new(alloc);
    add_declarations(statement, &mut new)?;
    register.declare_all(alloc, file, statement.line, &new)
}
