//! Lists of numbers by number, those at some numbers widened in place. What needs memory is done before anything is changed.
ghost use Rattle.std.specs.Prelude.{◌≡◌, ◌≢◌, ◌<◌, ◌≤◌, ◌++◌, ◌∷◌, [], ℕ, length, slice_index_or, slice_set, is_ok, if◌then◌else◌, IsOk, IfOk, OnOk};
ghost use Rattle.std.specs.Vec.{vec_len, vec_capacity};
ghost use Rattle.cc_sorts.specs.Lists.{lists_of, capacities_of, list_at, at_each, HasRoom, HaveRoom, AreBelow, AllAscend};
ghost use Rattle.cc_sorts.specs.Numbers.{Ascends, union};

use crate::numbers::unite;
use cc_defs::OutOfMemory;
use std::alloc::Global;

// Makes room for more in one of the lists, and room to move what it has.
fn make_room_at(
    lists: &mut Vec<Vec<u32>>,
    number: u32,
    more: usize,
    moved: &mut Vec<u32>,
) -> Result<(), OutOfMemory>
    requires { number < vec_len lists.old }
    ensures same { lists_of lists.new.items ≡ lists_of lists.old.items }
    ensures grown { (k : ℕ) → slice_index_or
        (capacities_of lists.old.items) k 0 ≤ slice_index_or (capacities_of lists.new.items) k 0 }
    ensures grown_to_move { vec_capacity moved.old ≤ vec_capacity moved.new }
    ensures room { OnOk result (HasRoom lists.new.items more (vec_capacity moved.new) number) }
{
    let list = &mut lists[number as usize];
    list.reserve(more)?;
    moved.clear();
    moved.reserve(list.len())?;
    Ok(())
}

/// Makes room for more in the lists at these numbers, and room to move what they have.
pub(crate) fn make_room(
    lists: &mut Vec<Vec<u32>>,
    numbers: &[u32],
    more: usize,
    moved: &mut Vec<u32>,
) -> Result<(), OutOfMemory>
    requires { AreBelow (vec_len lists.old) numbers.now }
    ensures same { lists_of lists.new.items ≡ lists_of lists.old.items }
    ensures grown { vec_capacity moved.old ≤ vec_capacity moved.new }
    ensures room { OnOk result
        (HaveRoom lists.new.items more (vec_capacity moved.new) numbers.now) }
{
    'widening: for number in numbers {
        make_room_at(lists, *number, more, moved)?;
    }
    Ok(())
}

// Puts numbers into one of the lists.
fn unite_at(
    lists: &mut Vec<Vec<u32>>,
    number: u32,
    others: &[u32],
    moved: &mut Vec<u32>,
) -> Result<(), OutOfMemory>
    requires number { number < vec_len lists.old }
    requires lists { Ascends (list_at (lists_of lists.old.items) number) }
    requires others { Ascends others.now }
    requires room { HasRoom lists.old.items (length others.now) (vec_capacity moved.old) number }
    ensures done { IsOk result }
    ensures united { lists_of lists.new.items ≡ slice_set (lists_of lists.old.items) number
        (union (list_at (lists_of lists.old.items) number) others.now) }
    ensures kept { (k : ℕ) → k ≢ number → slice_index_or (capacities_of lists.new.items) k 0
        ≡ slice_index_or (capacities_of lists.old.items) k 0 }
    ensures kept_to_move { vec_capacity moved.old ≤ vec_capacity moved.new }
{
    let list = &mut lists[number as usize];
    unite(list, others, moved)
}

/// Puts numbers into the lists at these numbers, where there is room for it.
pub(crate) fn unite_each(
    lists: &mut Vec<Vec<u32>>,
    numbers: &[u32],
    others: &[u32],
    moved: &mut Vec<u32>,
) -> Result<(), OutOfMemory>
    requires within { AreBelow (vec_len lists.old) numbers.now }
    requires numbers { Ascends numbers.now }
    requires lists { AllAscend (lists_of lists.old.items) }
    requires others { Ascends others.now }
    requires room { HaveRoom lists.old.items
        (length others.now) (vec_capacity moved.old) numbers.now }
    ensures done { IsOk result }
    ensures kept { vec_capacity moved.old ≤ vec_capacity moved.new }
    ensures united { lists_of lists.new.items
        ≡ at_each numbers.now (λ list. union list others.now) (lists_of lists.old.items) }
{
    'widening: for number in numbers {
        unite_at(lists, *number, others, moved)?;
    }
    Ok(())
}

fn copy_at(alloc: Global, lists: &[Vec<u32>], number: usize) -> Result<Vec<u32>, OutOfMemory>
    requires { number < length lists.now }
    ensures { IfOk result (λ copy. copy.items ≡ list_at (lists_of lists.now) number) }
{
    Ok(Vec::from_slice(alloc, &lists[number])?)
}

/// Makes room in all lists, and then puts numbers into them. After want of memory nothing is changed.
fn widen(
    above: &mut Vec<Vec<u32>>,
    below: &mut Vec<Vec<u32>>,
    members: &mut Vec<Vec<u32>>,
    moved: &mut Vec<u32>,
    uppers: &[u32],
    lowers: &[u32],
    objects: &[u32],
) -> Result<(), OutOfMemory>
    requires within_above { AreBelow (vec_len above.old) lowers.now }
    requires within_below { AreBelow (vec_len below.old) uppers.now }
    requires within_members { AreBelow (vec_len members.old) uppers.now }
    requires uppers { Ascends uppers.now }
    requires lowers { Ascends lowers.now }
    requires objects { Ascends objects.now }
    requires above { AllAscend (lists_of above.old.items) }
    requires below { AllAscend (lists_of below.old.items) }
    requires members { AllAscend (lists_of members.old.items) }
    ensures above { lists_of above.new.items ≡ (if is_ok result then at_each lowers.now
        (λ list. union list uppers.now) (lists_of above.old.items) else lists_of above.old.items) }
    ensures below { lists_of below.new.items ≡ (if is_ok result then at_each uppers.now
        (λ list. union list lowers.now) (lists_of below.old.items) else lists_of below.old.items) }
    ensures members { lists_of members.new.items ≡ (if is_ok result then at_each uppers.now (λ list.
        union list objects.now) (lists_of members.old.items) else lists_of members.old.items) }
{
    make_room(above, lowers, uppers.len(), moved)?;
    make_room(below, uppers, lowers.len(), moved)?;
    make_room(members, uppers, objects.len(), moved)?;
    // From here on there is room for all.
    unite_each(above, lowers, uppers, moved)?;
    unite_each(below, uppers, lowers, moved)?;
    unite_each(members, uppers, objects, moved)
}

/// What a new pair of sorts puts into the lists of other sorts.
#[derive(Drop)]
pub(crate) struct Moves {
    /// The upper sort and those above it.
    uppers: Vec<u32>,
    /// The lower sort and those below it.
    lowers: Vec<u32>,
    /// The objects of the lower sort.
    objects: Vec<u32>,
}

impl Moves {
    pub(crate) fn of(
        alloc: Global,
        above: &[Vec<u32>],
        below: &[Vec<u32>],
        members: &[Vec<u32>],
        upper: usize,
        lower: usize,
    ) -> Result<Moves, OutOfMemory>
        requires upper { upper < length above.now }
        requires lower { lower < length below.now }
        requires members { lower < length members.now }
        ensures uppers { IfOk result (λ moves.
            moves.uppers.items ≡ list_at (lists_of above.now) upper) }
        ensures lowers { IfOk result (λ moves.
            moves.lowers.items ≡ list_at (lists_of below.now) lower) }
        ensures objects { IfOk result (λ moves.
            moves.objects.items ≡ list_at (lists_of members.now) lower) }
    {
        let uppers = copy_at(alloc, above, upper)?;
        let lowers = copy_at(alloc, below, lower)?;
        let objects = copy_at(alloc, members, lower)?;
        Ok(Moves {
            uppers,
            lowers,
            objects,
        })
    }

    /// Puts the sorts above the pair into the lists of those below it, the sorts below it into the lists of those above it,
    /// and the objects too. After want of memory nothing is changed.
    pub(crate) fn put(
        &self,
        above: &mut Vec<Vec<u32>>,
        below: &mut Vec<Vec<u32>>,
        members: &mut Vec<Vec<u32>>,
        moved: &mut Vec<u32>,
    ) -> Result<(), OutOfMemory>
        requires within_above { AreBelow (vec_len above.old) self.now.lowers.items }
        requires within_below { AreBelow (vec_len below.old) self.now.uppers.items }
        requires within_members { AreBelow (vec_len members.old) self.now.uppers.items }
        requires uppers { Ascends self.now.uppers.items }
        requires lowers { Ascends self.now.lowers.items }
        requires objects { Ascends self.now.objects.items }
        requires above { AllAscend (lists_of above.old.items) }
        requires below { AllAscend (lists_of below.old.items) }
        requires members { AllAscend (lists_of members.old.items) }
        ensures above { lists_of above.new.items ≡ (if is_ok
            result then at_each self.now.lowers.items (λ list. union list self.now.uppers.items)
            (lists_of above.old.items) else lists_of above.old.items) }
        ensures below { lists_of below.new.items ≡ (if is_ok
            result then at_each self.now.uppers.items (λ list. union list self.now.lowers.items)
            (lists_of below.old.items) else lists_of below.old.items) }
        ensures members { lists_of members.new.items ≡ (if is_ok
            result then at_each self.now.uppers.items (λ list. union list self.now.objects.items)
            (lists_of members.old.items) else lists_of members.old.items) }
    {
        widen(
            above,
            below,
            members,
            moved,
            &self.uppers,
            &self.lowers,
            &self.objects,
        )
    }
}

/// Adds a list of one number to the lists of two kinds, and an empty one to those of a third; after want of memory nothing is
/// changed.
pub(crate) fn put_lists(
    alloc: Global,
    above: &mut Vec<Vec<u32>>,
    below: &mut Vec<Vec<u32>>,
    members: &mut Vec<Vec<u32>>,
    number: u32,
) -> Result<(), OutOfMemory>
    ensures above { lists_of above.new.items ≡ (if is_ok result then lists_of above.old.items
        ++ (number ∷ []) ∷ [] else lists_of above.old.items) }
    ensures below { lists_of below.new.items ≡ (if is_ok result then lists_of below.old.items
        ++ (number ∷ []) ∷ [] else lists_of below.old.items) }
    ensures members { lists_of members.new.items ≡ (if is_ok result then lists_of members.old.items
        ++ [] ∷ [] else lists_of members.old.items) }
{
    above.reserve(1)?;
    below.reserve(1)?;
    members.reserve(1)?;
    let uppers = Vec::from_slice(alloc, &[number])?;
    let lowers = Vec::from_slice(alloc, &[number])?;
    // From here on there is room for all.
    above.push(uppers)?;
    below.push(lowers)?;
    members.push(Vec::new(alloc))?;
    Ok(())
}
