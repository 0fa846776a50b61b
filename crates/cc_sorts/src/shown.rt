//! What is put into sorts, and what is shown of it: the objects of each sort, each at its first place.
ghost use Rattle.std.specs.Prelude.{◌≡◌, ◌≢◌, ◌+◌, ◌<◌, ◌≤◌, ◌++◌, ◌∷◌, [], ℕ, true, false, None, length, slice_index_or, slice_set, IsOk, OnOk, OnErr};
ghost use Rattle.std.specs.List.{AllByRecursion, list_any};
ghost use Rattle.std.specs.Vec.{vec_len, vec_capacity};
ghost use Rattle.cc_defs.specs.Declarations.{is_below, numbers_where};
ghost use Rattle.cc_sorts.specs.Dictionaries.{number_of};
ghost use Rattle.cc_sorts.specs.Lefts.{is_number_from, is_put_as, is_put_from};
ghost use Rattle.cc_sorts.specs.Lists.{lists_of, capacities_of, list_at, at_each, AreBelow};
ghost use Rattle.cc_sorts.specs.Numbers.{Ascends, has as is_among};
ghost use Rattle.cc_sorts.specs.Shown.{shown_list, shown_lists, put_end, set_each, HasSpace};
ghost use Rattle.cc_sorts.specs.SortViews.{name_at, members_at, with_sort, with_pair, with_object, IsPast};

use crate::sorts::Sorts;
use crate::table::PutAt;
use cc_defs::OutOfMemory;
use std::alloc::Global;

/// Whether the object was put as a name.
pub(crate) fn is_put_as(puts: &[PutAt], object: u32) -> bool
    ensures { result ≡ list_any (is_put_as (Some object)) puts.now }
{
    for put in puts {
        if put.number.is_none() && object == put.object {
            return true;
        }
    }
    false
}

fn is_number_from(low: u32, high: u32, number: Option<u32>) -> bool
    ensures { result ≡ is_number_from low high number }
{
    match number {
        Some(number) => low <= number && number <= high,
        None => false,
    }
}

/// Whether a number from the one to the other was put into the sort itself.
pub(crate) fn has_put_from(puts: &[PutAt], low: u32, high: u32, sort: u32) -> bool
    ensures { result ≡ list_any (is_put_from low high (Some sort)) puts.now }
{
    for put in puts {
        if is_number_from(low, high, put.number) && sort == put.sort {
            return true;
        }
    }
    false
}

// Makes room for more in one of the lists.
fn reserve_at(lists: &mut Vec<Vec<u32>>, number: u32, more: usize) -> Result<(), OutOfMemory>
    requires { number < vec_len lists.old }
    ensures same { lists_of lists.new.items ≡ lists_of lists.old.items }
    ensures grown { (k : ℕ) → slice_index_or
        (capacities_of lists.old.items) k 0 ≤ slice_index_or (capacities_of lists.new.items) k 0 }
    ensures room { OnOk result (HasSpace lists.new.items more number) }
{
    let list = &mut lists[number as usize];
    list.reserve(more)?;
    Ok(())
}

// Makes room for one more in each of the lists at these numbers.
fn reserve_each(lists: &mut Vec<Vec<u32>>, numbers: &[u32]) -> Result<(), OutOfMemory>
    requires { AreBelow (vec_len lists.old) numbers.now }
    ensures same { lists_of lists.new.items ≡ lists_of lists.old.items }
    ensures room { OnOk result ((k : ℕ) →
        k < length numbers.now → HasSpace lists.new.items 1 (slice_index_or numbers.now k 0)) }
{
    'widening: for number in numbers {
        reserve_at(lists, *number, 1)?;
    }
    Ok(())
}

// Makes room in the lists of the sorts above a sort for as many more as their puts and others are.
fn reserve_above(
    lists: &mut Vec<Vec<u32>>,
    sorts: &Sorts,
    numbers: &[u32],
    more: usize,
) -> Result<(), OutOfMemory>
    requires within { AreBelow (vec_len lists.old) numbers.now }
    requires known { AreBelow (length sorts.now.names) numbers.now }
    ensures same { lists_of lists.new.items ≡ lists_of lists.old.items }
    ensures room { OnOk result ((k : ℕ) → k < length numbers.now →
        length (members_at sorts.now (slice_index_or numbers.now k 0)) + more ≤ slice_index_or
        (capacities_of lists.new.items) (slice_index_or numbers.now k 0) 0) }
{
    'widening: for number in numbers {
        let members = sorts.members(*number as usize);
        let Some(room) = members.len().checked_add(more) else {
            return Err(OutOfMemory);
        };
        reserve_at(lists, *number, room)?;
    }
    Ok(())
}

fn lists_object(list: &[u32], object: u32) -> bool
    ensures { result ≡ is_among object list.now }
{
    for other in list {
        if *other == object {
            return true;
        }
    }
    false
}

// Whether the object is in the list. One that is known not to be is not looked for.
fn is_shown(list: &[u32], object: u32, fresh: bool) -> bool
    requires { fresh ≡ true → is_among object list.now ≡ false }
    ensures { result ≡ is_among object list.now }
{
    if fresh {
        return false;
    }
    lists_object(list, object)
}

// Puts an object behind the others, if it is not among them.
fn show(list: &mut Vec<u32>, object: u32, fresh: bool) -> Result<(), OutOfMemory>
    requires room { vec_len list.old < vec_capacity list.old }
    requires fresh { fresh ≡ true → is_among object list.old.items ≡ false }
    ensures done { IsOk result }
    ensures shown { list.new.items ≡ put_end object list.old.items }
    ensures kept { vec_capacity list.old ≤ vec_capacity list.new }
{
    if is_shown(list, object, fresh) {
        return Ok(());
    }
    list.push(object)?;
    Ok(())
}

fn show_at(
    lists: &mut Vec<Vec<u32>>,
    number: u32,
    object: u32,
    fresh: bool,
) -> Result<(), OutOfMemory>
    requires number { number < vec_len lists.old }
    requires room { HasSpace lists.old.items 1 number }
    requires fresh { fresh ≡ true →
        is_among object (list_at (lists_of lists.old.items) number) ≡ false }
    ensures done { IsOk result }
    ensures shown { lists_of lists.new.items ≡ slice_set (lists_of lists.old.items) number
        (put_end object (list_at (lists_of lists.old.items) number)) }
    ensures kept { (k : ℕ) → k ≢ number → slice_index_or (capacities_of lists.new.items) k 0
        ≡ slice_index_or (capacities_of lists.old.items) k 0 }
{
    let list = &mut lists[number as usize];
    show(list, object, fresh)
}

// Shows an object in the lists at these numbers, where there is room for it.
fn show_each(
    lists: &mut Vec<Vec<u32>>,
    numbers: &[u32],
    object: u32,
    fresh: bool,
) -> Result<(), OutOfMemory>
    requires within { AreBelow (vec_len lists.old) numbers.now }
    requires numbers { Ascends numbers.now }
    requires room { (k : ℕ) →
        k < length numbers.now → HasSpace lists.old.items 1 (slice_index_or numbers.now k 0) }
    requires fresh { fresh ≡ true →
        AllByRecursion (λ list. is_among object list ≡ false) (lists_of lists.old.items) }
    ensures done { IsOk result }
    ensures shown { lists_of lists.new.items
        ≡ at_each numbers.now (put_end object) (lists_of lists.old.items) }
{
    'showing: for number in numbers {
        show_at(lists, *number, object, fresh)?;
    }
    Ok(())
}

fn is_past(object: u32, bound: usize) -> bool
    ensures { result ≡ true → bound ≤ object }
{
    object as usize >= bound
}

// Fills a list anew with the objects of puts. An object that is past all before it is not looked for.
fn fill(list: &mut Vec<u32>, numbers: &[u32], puts: &[PutAt]) -> Result<(), OutOfMemory>
    requires room { length numbers.now ≤ vec_capacity list.old }
    requires within { AreBelow (length puts.now) numbers.now }
    ensures done { IsOk result }
    ensures filled { list.new.items ≡ shown_list puts.now numbers.now }
{
    list.clear();
    let mut bound = 0;
    'filling: for number in numbers {
        let object = puts[*number as usize].object;
        show(list, object, is_past(object, bound))?;
        bound = bound.max(object as usize + 1);
    }
    Ok(())
}

fn fill_at(
    lists: &mut Vec<Vec<u32>>,
    number: u32,
    numbers: &[u32],
    puts: &[PutAt],
) -> Result<(), OutOfMemory>
    requires number { number < vec_len lists.old }
    requires room { length numbers.now ≤ slice_index_or (capacities_of lists.old.items) number 0 }
    requires within { AreBelow (length puts.now) numbers.now }
    ensures done { IsOk result }
    ensures filled { lists_of lists.new.items
        ≡ slice_set (lists_of lists.old.items) number (shown_list puts.now numbers.now) }
    ensures kept { (k : ℕ) → k ≢ number → slice_index_or (capacities_of lists.new.items) k 0
        ≡ slice_index_or (capacities_of lists.old.items) k 0 }
{
    let list = &mut lists[number as usize];
    fill(list, numbers, puts)
}

// Fills the lists of sorts anew from their puts, where there is room for it.
fn fill_each(
    lists: &mut Vec<Vec<u32>>,
    sorts: &Sorts,
    numbers: &[u32],
    puts: &[PutAt],
) -> Result<(), OutOfMemory>
    requires within { AreBelow (vec_len lists.old) numbers.now }
    requires known { AreBelow (length sorts.now.names) numbers.now }
    requires numbers { Ascends numbers.now }
    requires past { IsPast (length puts.now) sorts.now }
    requires room { (k : ℕ) → k < length numbers.now →
        length (members_at sorts.now (slice_index_or numbers.now k 0)) ≤ slice_index_or
        (capacities_of lists.old.items) (slice_index_or numbers.now k 0) 0 }
    ensures done { IsOk result }
    ensures filled { lists_of lists.new.items ≡ set_each numbers.now (λ number.
        shown_list puts.now (members_at sorts.now number)) (lists_of lists.old.items) }
{
    'filling: for number in numbers {
        fill_at(lists, *number, sorts.members(*number as usize), puts)?;
    }
    Ok(())
}

/// Adds a sort, and the list of what is shown of it; after want of memory nothing is changed.
pub(crate) fn add_sort(
    alloc: Global,
    sorts: &mut Sorts,
    lists: &mut Vec<Vec<u32>>,
    name: &str,
) -> Result<(), OutOfMemory>
    requires new { number_of sorts.old.names name.now ≡ None }
    requires few { length sorts.old.names < 4000000000 }
    ensures added { OnOk result (sorts.new ≡ with_sort sorts.old name.now) }
    ensures unchanged { OnErr result (sorts.new ≡ sorts.old) }
    ensures listed { OnOk result (lists_of lists.new.items ≡ lists_of lists.old.items ++ [] ∷ []) }
    ensures lists_kept { OnErr result (lists_of lists.new.items ≡ lists_of lists.old.items) }
{
    lists.reserve(1)?;
    sorts.add(alloc, name)?;
    lists.push(Vec::new(alloc))?;
    Ok(())
}

/// Puts a sort below another that is not below it; after want of memory nothing is changed.
pub(crate) fn add_pair(
    alloc: Global,
    sorts: &mut Sorts,
    puts: &[PutAt],
    lists: &mut Vec<Vec<u32>>,
    upper: usize,
    lower: usize,
) -> Result<(), OutOfMemory>
    requires upper { upper < length sorts.old.names }
    requires lower { lower < length sorts.old.names }
    requires apart { is_below sorts.old.pairs (name_at sorts.old upper) (name_at sorts.old lower)
        ≡ false }
    requires past { IsPast (length puts.now) sorts.old }
    requires as_many { length sorts.old.members ≡ length sorts.old.names }
    requires shown { lists_of lists.old.items ≡ shown_lists puts.now sorts.old.members }
    ensures added { OnOk result (sorts.new ≡ with_pair sorts.old upper lower) }
    ensures unchanged { OnErr result (sorts.new ≡ sorts.old) }
    ensures lists { lists_of lists.new.items ≡ shown_lists puts.now sorts.new.members }
{
    let more = sorts.members(lower).len();
    reserve_above(lists, sorts, sorts.above(upper), more)?;
    sorts.put_below(alloc, upper, lower)?;
    fill_each(lists, sorts, sorts.above(upper), puts)
}

/// Puts an object into a sort and into all above it; after want of memory nothing is changed. A fresh one was never put.
pub(crate) fn add_put(
    sorts: &mut Sorts,
    puts: &mut Vec<PutAt>,
    lists: &mut Vec<Vec<u32>>,
    put: PutAt,
    fresh: bool,
) -> Result<(), OutOfMemory>
    requires sort { put.sort < length sorts.old.names }
    requires few { vec_len puts.old < 4000000000 }
    requires past { IsPast (length puts.old.items) sorts.old }
    requires as_many { length sorts.old.members ≡ length sorts.old.names }
    requires shown { lists_of lists.old.items ≡ shown_lists puts.old.items sorts.old.members }
    requires fresh { fresh ≡ true →
        AllByRecursion (λ other. other.object < put.object) puts.old.items }
    ensures added { OnOk result
        (sorts.new ≡ with_object sorts.old put.sort (length puts.old.items)) }
    ensures unchanged { OnErr result (sorts.new ≡ sorts.old) }
    ensures put { OnOk result (puts.new.items ≡ puts.old.items ++ put ∷ []) }
    ensures puts_kept { OnErr result (puts.new.items ≡ puts.old.items) }
    ensures lists { lists_of lists.new.items ≡ shown_lists puts.new.items sorts.new.members }
{
    let sort = put.sort as usize;
    let number = puts.len() as u32;
    puts.reserve(1)?;
    reserve_each(lists, sorts.above(sort))?;
    sorts.add_object(sort, number)?;
    // From here on there is room for all.
    puts.push(put)?;
    show_each(lists, sorts.above(sort), put.object, fresh)
}
