//! What stands to the left of a declaration.
ghost use Rattle.std.specs.Prelude.{◌≡◌, ◌++◌, ◌∷◌, ◌&&◌, ◌==◌, [], ℕ, length, map, IfOk, OnOk, Some, List as Items};
ghost use Rattle.std.specs.List.{list_all, list_any};
ghost use Rattle.std.specs.Option.{option_map};
ghost use Rattle.cc_defs.specs.DeclarationFaults.{is_sort, are_sorts, is_taken, is_unknown, has_unknown, declared_sorts, has_other_count, has_wrong_count, has_wrong_sort, has_other_sorts, constant_named, same_sorts};
ghost use Rattle.cc_defs.specs.Declarations.{Declaration as Declared, Link, Subsort, Object, Span, from_to, Variable, Constant as ConstantOf};
ghost use Rattle.cc_defs.specs.Declarations.{is_below, pairs, boolean};
ghost use Rattle.cc_defs.specs.Grammar.{same_text};
ghost use Rattle.cc_defs.specs.Trees.{plain_shape, plain_kind};
ghost use Rattle.cc_sorts.specs.Declaring.{numbers_of, plain_head, plain_declaration};
ghost use Rattle.cc_sorts.specs.Dictionaries.{number_of};
ghost use Rattle.cc_sorts.specs.Lefts.{twice_by, left_has_from, meets as have_together, IsLeft, Adds, AddsUpper, new_uppers, has_sort as table_has_sort, has_name as table_has_name, left_has_sort, left_has_name, left_has_pair, left_has_upper, table_symbol, left_constant, arguments_of, plain_constant, action_fits, shaped_fits, numbers_fit, is_boolean_kind, is_boolean_action_symbol, is_numbered, are_numbered};
ghost use Rattle.indexmap.specs.IndexSet.{insert_key};
ghost use Rattle.cc_sorts.specs.Lists.{AreBelow};
ghost use Rattle.cc_sorts.specs.Searches.{same_key, Grows, IsClosed, AreClosed, table_uppers, all_uppers};
ghost use Rattle.cc_sorts.specs.SortViews.{name_at};
ghost use Rattle.cc_sorts.specs.Entered.{IsEntered};

use crate::declaration::Declaration;
use crate::puts::{put_entry, put_key};
use crate::register::Register;
use crate::sorts::Sorts;
use cc_defs::{Kind, KindTree, KindWord, List, OutOfMemory, Shape, Symbol};
use indexmap::IndexSet;
use std::alloc::Global;
use std::collections::{HashMap, HashSet};

/// A sort and one below it.
#[derive(Clone, Copy, PartialEq, Eq, Hash, Drop)]
pub(crate) struct SortPair<'s> {
    upper: &'s str,
    lower: &'s str,
}

/// A constant of the statement.
#[derive(Clone, Copy, Drop)]
pub(crate) struct Constant<'t, 's> {
    shape: &'t Shape<'s>,
    kind: &'t KindTree<'s>,
}

/// The numbers from one to another, and their sort.
#[derive(Clone, Copy, Drop)]
pub(crate) struct Range<'s> {
    low: u32,
    high: u32,
    sort: &'s str,
}

/// The declarations of a table, and those of a statement that were added. A name is found by its hash.
pub(crate) struct Left<'d, 't, 's> {
    table: &'d Register,
    sorts: HashSet<&'s str>,
    /// Of objects that are no numbers, variables and constants.
    names: HashSet<&'s str>,
    ranges: Vec<Range<'s>>,
    /// Each at its first declaration.
    constants: HashMap<&'s str, Constant<'t, 's>>,
    pairs: HashSet<SortPair<'s>>,
    /// The upper sorts of the pairs.
    uppers: HashSet<&'s str>,
    /// The upper sorts of the pairs of each lower sort.
    uppers_of: HashMap<&'s str, Vec<&'s str>>,
}

// By hand, so that whoever lets one go has one call there, and not a drop for each field.
impl<'d, 't, 's> Drop for Left<'d, 't, 's> {
    fn drop(self) {
        let Left {
            table: _,
            sorts: _,
            names: _,
            ranges: _,
            constants: _,
            pairs: _,
            uppers: _,
            uppers_of: _,
        } = self;
    }
}

impl<'d, 't, 's> Left<'d, 't, 's> {
    /// The declarations of the table.
    pub(crate) fn new(alloc: Global, table: &'d Register) -> Self
        ensures { (left : Items Declared) → IsEntered table.now left → IsLeft result left }
    {
        Left {
            table,
            sorts: HashSet::new(alloc),
            names: HashSet::new(alloc),
            ranges: Vec::new(alloc),
            constants: HashMap::new(alloc),
            pairs: HashSet::new(alloc),
            uppers: HashSet::new(alloc),
            uppers_of: HashMap::new(alloc),
        }
    }

    fn is_sort(&self, name: &str) -> bool
        ensures { result ≡ left_has_sort self.now name.now }
    {
        has_sort(self.table, name) || self.sorts.contains(name)
    }

    fn is_taken(&self, name: &str) -> bool
        ensures { result ≡ left_has_name self.now name.now }
    {
        has_name(self.table, name) || self.names.contains(name)
    }

    fn has_pair(&self, upper: &'s str, lower: &'s str) -> bool
        ensures { result ≡ left_has_pair self.now (upper.now, lower.now) }
    {
        let table: &Register = self.table;
        table.sorts.has_named(upper, lower) || self.pairs.contains(&SortPair { upper, lower })
    }

    /// Whether one of the numbers was put into the sort itself.
    fn has_from(&self, low: u32, high: u32, sort: &str) -> bool
        ensures { result ≡ left_has_from self.now low high sort.now }
    {
        let table: &Register = self.table;
        table.has_put_from(low, high, sort) || any_meets(&self.ranges, low, high, sort)
    }

    /// Whether the declaration, or one of the numbers of a range, was made before.
    pub(crate) fn is_twice(&self, declaration: &Declaration<'t, 's>) -> bool
        ensures { result ≡ twice_by self.now declaration.now }
    {
        match declaration {
            Declaration::Sort(name) => self.is_sort(name),
            Declaration::Link(_) => false,
            Declaration::Subsort(upper, lower) => self.has_pair(upper, lower),
            Declaration::Object(name, _) => self.is_taken(name),
            Declaration::Numbers(low, high, sort) => self.has_from(*low, *high, sort),
            Declaration::Variable(name, _) => self.is_taken(name),
            Declaration::Constant(shape, _) => self.is_taken(shape.name),
            Declaration::Kinds(_, _) => false,
        }
    }

    fn has_each(&self, names: &[&str]) -> bool
        ensures { result ≡ list_all (λ name. left_has_sort self.now name.now) names.now }
    {
        for name in names {
            if !self.is_sort(name) {
                return false;
            }
        }
        true
    }

    fn are_sorts(&self, names: &'t List<&'s str>) -> bool
        ensures { (left : Items Declared) →
            IsLeft self.now left → result ≡ are_sorts left (map (λ name. name.now) names.now) }
    {
        self.has_each(names.items())
    }

    /// Whether the sort of an attribute, its action and the sorts of that one were declared.
    fn knows_attribute(&self, sort: &str, action: &'t Shape<'s>) -> bool
        ensures { (left : Items Declared) →
            IsLeft self.now left → result ≡ (is_sort left sort.now && (are_sorts left
            (map (λ sort. sort.now) action.now.sorts) && is_taken left action.now.name.now)) }
    {
        self.is_sort(sort) && (self.are_sorts(&action.sorts) && self.is_taken(action.name))
    }

    fn has_unknown(&self, kind: &'t KindTree<'s>) -> bool
        ensures { (left : Items Declared) →
            IsLeft self.now left → result ≡ has_unknown left (plain_kind kind.now) }
    {
        match kind {
            KindTree::Plain(_, Some(sort)) => !self.is_sort(sort),
            KindTree::Plain(_, None) => !self.is_sort("boolean"),
            KindTree::Attribute(sort, action) => !self.knows_attribute(sort, action),
        }
    }

    /// Whether the declaration names a sort or an action that was not declared.
    pub(crate) fn is_unknown(&self, declaration: &Declaration<'t, 's>) -> bool
        ensures { (file line : ℕ) (left : Items Declared) →
            IsLeft self.now left → result ≡ is_unknown left (plain_head file line declaration.now) }
    {
        match declaration {
            Declaration::Object(_, sort)
            | Declaration::Numbers(_, _, sort)
            | Declaration::Variable(_, sort) => !self.is_sort(sort),
            Declaration::Constant(shape, _) => !self.are_sorts(&shape.sorts),
            Declaration::Kinds(_, kind) => self.has_unknown(kind),
            Declaration::Sort(_) | Declaration::Link(_) | Declaration::Subsort(_, _) => false,
        }
    }

    /// How many arguments a constant has. Objects and variables have none.
    fn sort_count(&self, name: &str) -> usize
        ensures { (left : Items Declared) →
            IsLeft self.now left → result ≡ length (declared_sorts left name.now) }
    {
        match symbol_named(self.table, name) {
            Some(symbol) => symbol.sorts.items().len(),
            None => self.new_count(name),
        }
    }

    fn new_count(&self, name: &str) -> usize
        ensures { result ≡ length (arguments_of (left_constant self.now name.now)) }
    {
        match self.constants.get(name) {
            Some(constant) => constant.shape.sorts.items().len(),
            None => 0,
        }
    }

    /// Whether the action was declared with as many arguments as it has here, and the attribute has as many.
    fn has_count(&self, shapes: &'t List<Shape<'s>>, action: &'t Shape<'s>) -> bool
        ensures { (left : Items Declared) → IsLeft self.now left → result ≡ ((length
            action.now.sorts == length (declared_sorts left action.now.name.now)) && list_all
            (λ shape. length shape.sorts == length action.now.sorts) (map plain_shape shapes.now)) }
    {
        let count = action.sorts.items().len();
        count == self.sort_count(action.name) && have_count(shapes, count)
    }

    fn has_other_count(&self, shapes: &'t List<Shape<'s>>, kind: &'t KindTree<'s>) -> bool
        ensures { (left : Items Declared) → IsLeft self.now left →
            result ≡ has_other_count left (map plain_shape shapes.now) (plain_kind kind.now) }
    {
        match kind {
            KindTree::Plain(_, _) => false,
            KindTree::Attribute(_, action) => !self.has_count(shapes, action),
        }
    }

    /// Whether an action has another number of arguments than its declaration, or than its attribute.
    pub(crate) fn has_wrong_count(&self, declaration: &Declaration<'t, 's>) -> bool
        ensures { (file line : ℕ) (left : Items Declared) → IsLeft self.now left →
            result ≡ has_wrong_count left (plain_head file line declaration.now) }
    {
        match declaration {
            Declaration::Kinds(shapes, kind) => self.has_other_count(shapes, kind),
            Declaration::Sort(_) | Declaration::Link(_) | Declaration::Subsort(_, _) => false,
            Declaration::Object(_, _) | Declaration::Numbers(_, _, _) => false,
            Declaration::Variable(_, _) | Declaration::Constant(_, _) => false,
        }
    }

    /// Whether a sort of the declaration does not fit.
    pub(crate) fn has_wrong_sort(
        &self,
        alloc: Global,
        declaration: &Declaration<'t, 's>,
    ) -> Result<bool, OutOfMemory>
        ensures { (file line : ℕ) (left : Items Declared) → IsLeft self.now left → IfOk result
            (λ wrong. wrong ≡ has_wrong_sort left (plain_head file line declaration.now)) }
    {
        match declaration {
            Declaration::Subsort(upper, lower) => self.is_below(alloc, upper, lower),
            Declaration::Link(sort) | Declaration::Object(_, sort) => Ok(is_boolean(sort)),
            Declaration::Numbers(low, high, sort) => Ok(is_boolean(sort) || high < low),
            Declaration::Kinds(shapes, kind) => Ok(self.has_other_sorts(shapes, kind)),
            Declaration::Sort(_) | Declaration::Variable(_, _) | Declaration::Constant(_, _) => Ok(
                false,
            ),
        }
    }

    /// Whether a sort is the other or below it. Only a sort with others below it asks for a search.
    fn is_below(&self, alloc: Global, lower: &'s str, upper: &'s str) -> Result<bool, OutOfMemory>
        ensures { (left : Items Declared) → IsLeft self.now left →
            IfOk result (λ below. below ≡ is_below (pairs left) lower.now upper.now) }
    {
        if self.has_lower(upper) {
            return self.is_found_above(alloc, lower, upper);
        }
        Ok(lower == upper)
    }

    /// Whether a sort is the upper one of a pair.
    fn has_lower(&self, sort: &str) -> bool
        ensures { result ≡ left_has_upper self.now sort.now }
    {
        let table: &Register = self.table;
        table.sorts.has_lower(sort) || self.uppers.contains(sort)
    }

    /// Whether a search upwards from a sort finds the other.
    fn is_found_above<'a>(
        &'a self,
        alloc: Global,
        lower: &'a str,
        upper: &'a str,
    ) -> Result<bool, OutOfMemory>
        ensures { (left : Items Declared) → IsLeft self.now left →
            IfOk result (λ below. below ≡ is_below (pairs left) lower.now upper.now) }
    {
        let mut found: IndexSet<&'a str> = IndexSet::new(alloc);
        let mut closed: IndexSet<&'a str> = IndexSet::new(alloc);
        self.search_above(lower, &mut found, &mut closed)?;
        Ok(found.contains(upper))
    }

    /// Finds a sort and all sorts above it.
    fn search_above<'a>(
        &'a self,
        lower: &'a str,
        found: &mut IndexSet<&'a str>,
        closed: &mut IndexSet<&'a str>,
    ) -> Result<(), OutOfMemory>
        requires found { found.old.keys ≡ [] }
        requires closed { closed.old.keys ≡ [] }
        ensures { OnOk result (IsClosed self.now lower.now found.new.keys) }
    {
        put_found(lower, found)?;
        let mut done = 0;
        'search: while done < found.len() {
            let sort: &'a str = found[done];
            self.add_above(sort, found, closed)?;
            done += 1;
        }
        Ok(())
    }

    /// Adds the sorts above a sort by the table, and its new upper sorts.
    fn add_above<'a>(
        &'a self,
        sort: &str,
        found: &mut IndexSet<&'a str>,
        closed: &mut IndexSet<&'a str>,
    ) -> Result<(), OutOfMemory>
        requires { AreClosed self.now closed.old.keys found.old.keys }
        ensures grown { OnOk result
            (Grows found.old.keys found.new.keys (all_uppers self.now sort.now)) }
        ensures closed { OnOk result (AreClosed self.now closed.new.keys found.new.keys) }
    {
        self.add_by_table(sort, found, closed)?;
        self.add_new_uppers(sort, found)?;
        Ok(())
    }

    /// Adds the sorts above a sort by the table. Those above one of these are among them, and are not asked for again.
    fn add_by_table<'a>(
        &'a self,
        sort: &str,
        found: &mut IndexSet<&'a str>,
        closed: &mut IndexSet<&'a str>,
    ) -> Result<(), OutOfMemory>
        requires { AreClosed self.now closed.old.keys found.old.keys }
        ensures grown { OnOk result
            (Grows found.old.keys found.new.keys (table_uppers self.now.table.now.sorts sort.now)) }
        ensures closed { OnOk result (AreClosed self.now closed.new.keys found.new.keys) }
    {
        if closed.contains(sort) {
            return Ok(());
        }
        let table: &'a Register = self.table;
        add_table_uppers(&table.sorts, sort, found)?;
        add_table_uppers(&table.sorts, sort, closed)?;
        Ok(())
    }

    fn add_new_uppers<'a>(
        &'a self,
        sort: &str,
        found: &mut IndexSet<&'a str>,
    ) -> Result<(), OutOfMemory>
        ensures { OnOk result (Grows found.old.keys found.new.keys (new_uppers self.now sort.now)) }
    {
        match self.uppers_of.get(sort) {
            Some(uppers) => add_names(uppers, found),
            None => Ok(()),
        }
    }

    fn has_other_sorts(&self, shapes: &'t List<Shape<'s>>, kind: &'t KindTree<'s>) -> bool
        ensures { (left : Items Declared) → IsLeft self.now left →
            result ≡ has_other_sorts left (map plain_shape shapes.now) (plain_kind kind.now) }
    {
        match kind {
            KindTree::Plain(_, _) => false,
            KindTree::Attribute(_, action) => !self.has_sorts(shapes, action),
        }
    }

    /// Whether the action was declared as a Boolean action with the sorts that it has here, and the attribute has these too.
    fn has_sorts(&self, shapes: &'t List<Shape<'s>>, action: &'t Shape<'s>) -> bool
        ensures { (left : Items Declared) →
            IsLeft self.now left → result ≡ action_fits (constant_named left action.now.name.now)
            (map (λ sort. sort.now) action.now.sorts) (map plain_shape shapes.now) }
    {
        match symbol_named(self.table, action.name) {
            Some(symbol) => symbol_fits(self.table, symbol, shapes, action),
            None => self.new_fits(shapes, action),
        }
    }

    fn new_fits(&self, shapes: &'t List<Shape<'s>>, action: &'t Shape<'s>) -> bool
        ensures { result ≡ shaped_fits (left_constant self.now action.now.name.now)
            (map (λ sort. sort.now) action.now.sorts) (map plain_shape shapes.now) }
    {
        match self.constants.get(action.name) {
            Some(constant) => constant_fits(constant, shapes, action),
            None => false,
        }
    }

    /// Adds a declaration, which the tests behind it know.
    pub(crate) fn add(
        &mut self,
        alloc: Global,
        declaration: &Declaration<'t, 's>,
    ) -> Result<(), OutOfMemory>
        ensures { (file line : ℕ) →
            OnOk result (Adds self.old self.new (plain_declaration file line declaration.now)) }
    {
        match declaration {
            Declaration::Sort(name) | Declaration::Link(name) => self.add_sort(name),
            Declaration::Subsort(upper, lower) => self.add_pair(alloc, upper, lower),
            Declaration::Object(name, _) | Declaration::Variable(name, _) => self.add_name(name),
            Declaration::Numbers(low, high, sort) => self.add_range(*low, *high, sort),
            Declaration::Constant(shape, kind) => self.add_constant(shape, kind),
            Declaration::Kinds(_, _) => Ok(()),
        }
    }

    fn add_sort(&mut self, name: &'s str) -> Result<(), OutOfMemory>
        ensures { OnOk result (Adds self.old self.new (Link name.now ∷ [])) }
    {
        put_key(&mut self.sorts, name)
    }

    fn add_name(&mut self, name: &'s str) -> Result<(), OutOfMemory>
        ensures object { (sort : Items ℕ) →
            OnOk result (Adds self.old self.new (Object name.now sort ∷ [])) }
        ensures variable { (sort : Items ℕ) →
            OnOk result (Adds self.old self.new (Variable name.now sort ∷ [])) }
    {
        put_key(&mut self.names, name)
    }

    fn add_range(&mut self, low: u32, high: u32, sort: &'s str) -> Result<(), OutOfMemory>
        ensures { OnOk result (Adds self.old self.new
            (Span low high sort.now ∷ numbers_of sort.now (from_to low high))) }
    {
        self.ranges.push(Range { low, high, sort })?;
        Ok(())
    }

    fn add_constant(
        &mut self,
        shape: &'t Shape<'s>,
        kind: &'t KindTree<'s>,
    ) -> Result<(), OutOfMemory>
        ensures { (file line : ℕ) → OnOk result (Adds self.old self.new
            (ConstantOf (plain_shape shape.now) (plain_kind kind.now) file line ∷ [])) }
    {
        put_key(&mut self.names, shape.name)?;
        if self.constants.contains_key(shape.name) {
            return Ok(());
        }
        put_entry(&mut self.constants, shape.name, Constant { shape, kind })
    }

    fn add_pair(&mut self, alloc: Global, upper: &'s str, lower: &'s str) -> Result<(), OutOfMemory>
        ensures { OnOk result (Adds self.old self.new (Subsort upper.now lower.now ∷ [])) }
    {
        put_key(&mut self.pairs, SortPair { upper, lower })?;
        put_key(&mut self.uppers, upper)?;
        add_upper(alloc, &mut self.uppers_of, upper, lower)
    }
}

/// Whether two ranges of one sort have a number together.
fn meets(range: &Range<'_>, low: u32, high: u32, sort: &str) -> bool
    ensures { result ≡ have_together low high sort.now range.now }
{
    (low <= high && range.low <= range.high)
        && (low <= range.high && range.low <= high && sort == range.sort)
}

fn any_meets(ranges: &[Range<'_>], low: u32, high: u32, sort: &str) -> bool
    ensures { result ≡ list_any (have_together low high sort.now) ranges.now }
{
    for range in ranges {
        if meets(range, low, high, sort) {
            return true;
        }
    }
    false
}

/// Adds a pair to the upper sorts by lower sort.
fn add_upper<'s>(
    alloc: Global,
    uppers_of: &mut HashMap<&'s str, Vec<&'s str>>,
    upper: &'s str,
    lower: &'s str,
) -> Result<(), OutOfMemory>
    ensures { OnOk result
        (AddsUpper uppers_of.old.entries uppers_of.new.entries (upper.now, lower.now)) }
{
    if let Some(uppers) = uppers_of.get_mut(lower) {
        uppers.push(upper)?;
        return Ok(());
    }
    let uppers = Vec::from_slice(alloc, &[upper])?;
    put_entry(uppers_of, lower, uppers)
}

/// Adds the sorts above a sort by a table, and itself if it is one of them.
fn add_table_uppers<'a>(
    sorts: &'a Sorts,
    sort: &str,
    found: &mut IndexSet<&'a str>,
) -> Result<(), OutOfMemory>
    ensures { OnOk result (Grows found.old.keys found.new.keys (table_uppers sorts.now sort.now)) }
{
    match sorts.find(sort) {
        Some(number) => add_numbered(sorts, sorts.above(number), found),
        None => Ok(()),
    }
}

fn add_numbered<'a>(
    sorts: &'a Sorts,
    numbers: &[u32],
    found: &mut IndexSet<&'a str>,
) -> Result<(), OutOfMemory>
    requires { AreBelow (length sorts.now.names) numbers.now }
    ensures { OnOk result
        (Grows found.old.keys found.new.keys (map (name_at sorts.now) numbers.now)) }
{
    for number in numbers {
        put_found(sorts.name(*number as usize), found)?;
    }
    Ok(())
}

/// Adds a name, unless it was found.
fn put_found<'a>(name: &'a str, found: &mut IndexSet<&'a str>) -> Result<(), OutOfMemory>
    ensures { OnOk result (found.new.keys ≡ insert_key same_key found.old.keys name.entry) }
{
    found.insert(name)?;
    Ok(())
}

fn add_names<'a>(names: &'a [&'a str], found: &mut IndexSet<&'a str>) -> Result<(), OutOfMemory>
    ensures { OnOk result (Grows found.old.keys found.new.keys (map (λ name. name.now) names.now)) }
{
    for name in names {
        put_found(*name, found)?;
    }
    Ok(())
}

/// Whether a table has the sort.
#[tactic(auto, using(crate::proofs::Decided::is_some_number))]
fn has_sort(table: &Register, name: &str) -> bool
    ensures { result ≡ table_has_sort table.now name.now }
{
    table.sort(name).is_some()
}

/// Whether an object, a variable or a constant of a table has the name.
#[tactic(auto, using(crate::proofs::Decided::is_some_number))]
fn has_name(table: &Register, name: &str) -> bool
    ensures { result ≡ table_has_name table.now name.now }
{
    table.has_put_as(name) || table.variable(name).is_some() || table.symbol(name).is_some()
}

/// The symbol of a constant of a table.
fn symbol_named<'a>(table: &'a Register, name: &str) -> Option<&'a Symbol>
    ensures { option_map (λ symbol. symbol.now) result ≡ table_symbol table.now name.now }
{
    match table.symbol(name) {
        Some(symbol) => Some(table.symbol_of(symbol)),
        None => None,
    }
}

/// Whether each shape has so many arguments.
fn have_count(shapes: &List<Shape>, count: usize) -> bool
    ensures { result
        ≡ list_all (λ shape. length shape.sorts == count) (map plain_shape shapes.now) }
{
    let items = shapes.items();
    for shape in items {
        if shape.sorts.items().len() != count {
            return false;
        }
    }
    true
}

fn is_boolean(sort: &str) -> bool
    ensures { result ≡ same_text sort.now boolean }
{
    sort == "boolean"
}

/// Whether a symbol of the table is a Boolean action with these sorts.
fn symbol_fits<'t, 's>(
    table: &Register,
    symbol: &Symbol,
    shapes: &'t List<Shape<'s>>,
    action: &'t Shape<'s>,
) -> bool
    ensures { result ≡ numbers_fit table.now symbol.now
        (map (λ sort. sort.now) action.now.sorts) (map plain_shape shapes.now) }
{
    is_boolean_action_symbol(symbol)
        && (are_numbered(table, action.sorts.items(), symbol.sorts.items())
            && have_numbers(table, symbol.sorts.items(), shapes))
}

/// Whether a symbol is an action with Boolean values, and no attribute.
fn is_boolean_action_symbol(symbol: &Symbol) -> bool
    ensures { result ≡ is_boolean_action_symbol symbol.now }
{
    symbol.attribute.is_none() && (matches!(symbol.kind, Kind::Action) && symbol.domain == 0)
}

fn has_number(table: &Register, sort: &str, number: u32) -> bool
    ensures { result ≡ is_numbered (number_of table.now.sorts.names sort.now) number }
{
    match table.sort(sort) {
        Some(other) => other == number,
        None => false,
    }
}

/// Whether these are the numbers of the sorts.
fn are_numbered(table: &Register, sorts: &[&str], numbers: &[u32]) -> bool
    ensures { result
        ≡ are_numbered table.now.sorts.names (map (λ sort. sort.now) sorts.now) numbers.now }
{
    if sorts.len() != numbers.len() {
        return false;
    }
    for (i, sort) in sorts.iter().enumerate() {
        if !has_number(table, sort, numbers[i]) {
            return false;
        }
    }
    true
}

fn have_numbers(table: &Register, numbers: &[u32], shapes: &List<Shape>) -> bool
    ensures { result ≡ list_all (λ shape.
        are_numbered table.now.sorts.names shape.sorts numbers.now) (map plain_shape shapes.now) }
{
    let items = shapes.items();
    for shape in items {
        if !are_numbered(table, shape.sorts.items(), numbers) {
            return false;
        }
    }
    true
}

/// Whether a new constant is a Boolean action with these sorts.
fn constant_fits<'t, 's>(
    constant: &Constant<'t, 's>,
    shapes: &'t List<Shape<'s>>,
    action: &'t Shape<'s>,
) -> bool
    ensures { result ≡ shaped_fits (Some (plain_constant constant.now))
        (map (λ sort. sort.now) action.now.sorts) (map plain_shape shapes.now) }
{
    is_boolean_action(constant.kind)
        && (same_sorts(action.sorts.items(), constant.shape.sorts.items())
            && each_has_sorts(shapes, constant.shape.sorts.items()))
}

/// Whether the kind is that of an action with Boolean values, and no attribute.
fn is_boolean_action(kind: &KindTree) -> bool
    ensures { result ≡ is_boolean_kind (plain_kind kind.now) }
{
    match kind {
        KindTree::Plain(KindWord::Action, Some(sort)) => is_boolean(sort),
        KindTree::Plain(KindWord::ExogenousAction, Some(sort)) => is_boolean(sort),
        KindTree::Plain(KindWord::Action, None) => true,
        KindTree::Plain(KindWord::ExogenousAction, None) => true,
        _ => false,
    }
}

fn same_sorts(sorts: &[&str], others: &[&str]) -> bool
    ensures { result
        ≡ same_sorts (map (λ sort. sort.now) sorts.now) (map (λ sort. sort.now) others.now) }
{
    sorts == others
}

fn each_has_sorts(shapes: &List<Shape>, sorts: &[&str]) -> bool
    ensures { result ≡ list_all (λ shape.
        same_sorts shape.sorts (map (λ sort. sort.now) sorts.now)) (map plain_shape shapes.now) }
{
    let items = shapes.items();
    for shape in items {
        if !same_sorts(shape.sorts.items(), sorts) {
            return false;
        }
    }
    true
}
