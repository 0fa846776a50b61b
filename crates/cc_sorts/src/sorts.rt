//! Sorts by number, which of them stand below which, and the objects of each.
ghost use Rattle.std.specs.Prelude.{◌≡◌, ◌<◌, ◌++◌, ◌∷◌, [], true, false, None, length, IfOk, IsOk, OnOk, OnErr};
ghost use Rattle.std.specs.Vec.{vec_len, vec_capacity};
ghost use Rattle.std.specs.List.{list_any};
ghost use Rattle.cc_defs.specs.DeclarationFaults.{same_pair};
ghost use Rattle.cc_defs.specs.Declarations.{is_below, numbers_where};
ghost use Rattle.cc_defs.specs.Grammar.{same_text};
ghost use Rattle.cc_sorts.specs.Dictionaries.{number_of};
ghost use Rattle.std.specs.HashSet.{spare};
ghost use Rattle.cc_sorts.specs.SortParts.{AreKnown};
ghost use Rattle.cc_sorts.specs.SortViews.{SortsView, no_sorts, first_sorts, name_at, members_at, with_sort, with_pair, with_implied, with_object, IsPast};

use crate::dictionary::Dictionary;
use crate::lists::{Moves, make_room, put_lists, unite_each};
use crate::numbers::has;
use crate::puts::put_key;
use cc_defs::OutOfMemory;
use std::alloc::Global;
use std::collections::HashSet;
use std::marker::Model;

/// The numbers of two sorts, of which the lower was put below the upper.
#[derive(Clone, Copy, PartialEq, Eq, Hash)]
struct SortPair {
    upper: u32,
    lower: u32,
}

/// Sorts by number, `boolean` first. A sort has the objects declared of it and of the sorts below it.
pub(crate) struct Sorts {
    names: Dictionary<()>,
    /// In the order in which they were put.
    pairs: Vec<SortPair>,
    /// The same pairs, which are found in it by a hash.
    known: HashSet<SortPair>,
    /// For each sort itself and the sorts that it is below, ascending.
    above: Vec<Vec<u32>>,
    /// For each sort itself and the sorts below it, ascending.
    below: Vec<Vec<u32>>,
    /// For each sort its objects, ascending.
    members: Vec<Vec<u32>>,
    /// Room to move numbers when others are put before them. It is kept here so that an object that is added finds it.
    moved: Vec<u32>,
}

// By hand, so that whoever lets them go has one call there, and not a drop for each field.
impl Drop for Sorts {
    fn drop(self) {
        let Sorts {
            names: _,
            pairs: _,
            known: _,
            above: _,
            below: _,
            members: _,
            moved: _,
        } = self;
    }
}

fn make_room_for_pair(
    pairs: &mut Vec<SortPair>,
    known: &mut HashSet<SortPair>,
) -> Result<(), OutOfMemory>
    ensures pairs { pairs.new.items ≡ pairs.old.items }
    ensures known { AreKnown known.new.keys known.old.keys }
    ensures room { OnOk result (vec_len pairs.new < vec_capacity pairs.new) }
    ensures room_to_know { OnOk result (0 < spare known.new) }
{
    pairs.reserve(1)?;
    known.reserve(1)?;
    Ok(())
}

/// Adds a pair for which there is room.
fn record_pair(
    pairs: &mut Vec<SortPair>,
    known: &mut HashSet<SortPair>,
    pair: SortPair,
) -> Result<(), OutOfMemory>
    requires room { vec_len pairs.old < vec_capacity pairs.old }
    requires room_to_know { 0 < spare known.old }
    ensures done { IsOk result }
    ensures pairs { pairs.new.items ≡ pairs.old.items ++ pair ∷ [] }
    ensures known { AreKnown known.new.keys (known.old.keys ++ pair ∷ []) }
{
    pairs.push(pair)?;
    put_key(known, pair)
}

impl Model for Sorts {
    ghost use Rattle.cc_sorts.specs.SortViews.{SortsView};

    ghost Value = { SortsView };

    ghost use Rattle.cc_sorts.specs.Dictionaries.{names_of};
    ghost use Rattle.cc_sorts.specs.Lists.{lists_of};
    ghost use Rattle.cc_sorts.specs.SortParts.{named_pairs, AreKept};

    ghost view = { λ sorts. record {
      names = names_of sorts.names;
      pairs = named_pairs
          (names_of sorts.names) sorts.pairs.items;
      members = lists_of sorts.members.items;
    } };

    ghost invariant = { λ sorts. AreKept (names_of sorts.names) sorts.pairs.items sorts.known.keys
        (lists_of sorts.above.items) (lists_of sorts.below.items) (lists_of sorts.members.items) };
}

impl Sorts {
    fn empty(alloc: Global) -> Sorts
        ensures { result ≡ no_sorts }
    {
        Sorts {
            names: Dictionary::new(alloc),
            pairs: Vec::new(alloc),
            known: HashSet::new(alloc),
            above: Vec::new(alloc),
            below: Vec::new(alloc),
            members: Vec::new(alloc),
            moved: Vec::new(alloc),
        }
    }

    /// The sort `boolean`, with its objects 0 and 1.
    pub(crate) fn new(alloc: Global) -> Result<Sorts, OutOfMemory>
        ensures { IfOk result (λ sorts. sorts ≡ first_sorts) }
    {
        let mut sorts = Sorts::empty(alloc);
        sorts.add_boolean(alloc)?;
        Ok(sorts)
    }

    fn add_boolean(&mut self, alloc: Global) -> Result<(), OutOfMemory>
        requires { self.old ≡ no_sorts }
        ensures { OnOk result (self.new ≡ first_sorts) }
    {
        self.add(alloc, "boolean")?;
        self.add_object(0, 0)?;
        self.add_object(0, 1)
    }

    pub(crate) fn len(&self) -> usize
        ensures { result ≡ length self.now.names }
    {
        self.names.len()
    }

    /// The number of a sort.
    pub(crate) fn find(&self, name: &str) -> Option<usize>
        ensures { result ≡ number_of self.now.names name.now }
    {
        self.names.find(name)
    }

    /// The objects of a sort and of those below it, in declared order. It takes no memory.
    pub(crate) fn members(&self, sort: usize) -> &[u32]
        requires { sort < length self.now.names }
        ensures { result.now ≡ members_at self.now sort }
    {
        &self.members[sort]
    }

    /// Whether a sort is the other or below it, looked for by halves. It takes no memory.
    pub(crate) fn below(&self, lower: usize, upper: usize) -> bool
        requires lower { lower < length self.now.names }
        requires upper { upper < length self.now.names }
        ensures { result
            ≡ is_below self.now.pairs (name_at self.now lower) (name_at self.now upper) }
    {
        has(&self.above[lower], upper as u32)
    }

    /// Whether the pair of an upper and a lower sort is there. It takes no memory.
    pub(crate) fn has_pair(&self, upper: usize, lower: usize) -> bool
        requires upper { upper < length self.now.names }
        requires lower { lower < length self.now.names }
        ensures { result
            ≡ list_any (same_pair (name_at self.now upper, name_at self.now lower)) self.now.pairs }
    {
        let known = &self.known;
        known.contains(&SortPair {
            upper: upper as u32,
            lower: lower as u32,
        })
    }

    /// Whether the pair of an upper and a lower sort of these names is there. It takes no memory.
    pub(crate) fn has_named(&self, upper: &str, lower: &str) -> bool
        ensures { result ≡ list_any (same_pair (upper.now, lower.now)) self.now.pairs }
    {
        match self.names.find(upper) {
            Some(upper) => match self.names.find(lower) {
                Some(lower) => self.has_pair(upper, lower),
                None => false,
            },
            None => false,
        }
    }

    /// The numbers of the sorts that a sort is below, and its own, ascending. It takes no memory.
    pub(crate) fn above(&self, sort: usize) -> &[u32]
        requires { sort < length self.now.names }
        ensures { result.now ≡ numbers_where (λ name.
            is_below self.now.pairs (name_at self.now sort) name) 0 self.now.names }
    {
        &self.above[sort]
    }

    /// The name of a sort. It takes no memory.
    pub(crate) fn name(&self, sort: usize) -> &str
        requires { sort < length self.now.names }
        ensures { result.now ≡ name_at self.now sort }
    {
        self.names.name(sort)
    }

    /// Whether a sort is the upper one of a pair. It takes no memory.
    pub(crate) fn has_lower(&self, name: &str) -> bool
        ensures { result ≡ list_any (λ pair. same_text name.now pair.0) self.now.pairs }
    {
        match self.names.find(name) {
            Some(sort) => {
                let below: &[u32] = &self.below[sort];
                below.len() > 1
            }
            None => false,
        }
    }

    /// Adds a sort whose name is not there; if memory is wanting for its lists, the name is taken out again.
    pub(crate) fn add(&mut self, alloc: Global, name: &str) -> Result<(), OutOfMemory>
        requires new { number_of self.now.names name.now ≡ None }
        requires few { length self.now.names < 4000000000 }
        ensures added { OnOk result (self.new ≡ with_sort self.old name.now) }
        ensures unchanged { OnErr result (self.new ≡ self.old) }
    {
        let number = self.names.len() as u32;
        self.names.push(alloc, name, ())?;
        match put_lists(
            alloc,
            &mut self.above,
            &mut self.below,
            &mut self.members,
            number,
        ) {
            Ok(()) => Ok(()),
            Err(error) => {
                self.names.pop();
                Err(error)
            }
        }
    }

    /// Adds the pair of a sort that is below the other already; after want of memory nothing is changed.
    pub(crate) fn add_implied(&mut self, upper: usize, lower: usize) -> Result<(), OutOfMemory>
        requires upper { upper < length self.now.names }
        requires lower { lower < length self.now.names }
        requires apart { is_below self.now.pairs (name_at self.now upper) (name_at self.now lower)
            ≡ false }
        requires implied { is_below self.now.pairs (name_at self.now lower) (name_at self.now upper)
            ≡ true }
        ensures added { OnOk result (self.new ≡ with_implied self.old upper lower) }
        ensures unchanged { OnErr result (self.new ≡ self.old) }
    {
        make_room_for_pair(&mut self.pairs, &mut self.known)?;
        let pair = SortPair {
            upper: upper as u32,
            lower: lower as u32,
        };
        record_pair(&mut self.pairs, &mut self.known, pair)
    }

    /// Puts a sort below another that is not below it; after want of memory nothing is changed.
    pub(crate) fn put_below(
        &mut self,
        alloc: Global,
        upper: usize,
        lower: usize,
    ) -> Result<(), OutOfMemory>
        requires upper { upper < length self.now.names }
        requires lower { lower < length self.now.names }
        requires apart { is_below self.now.pairs (name_at self.now upper) (name_at self.now lower)
            ≡ false }
        ensures added { OnOk result (self.new ≡ with_pair self.old upper lower) }
        ensures unchanged { OnErr result (self.new ≡ self.old) }
    {
        // They are copied, since they stand among the lists that they are put into.
        let moves = Moves::of(alloc, &self.above, &self.below, &self.members, upper, lower)?;
        make_room_for_pair(&mut self.pairs, &mut self.known)?;
        moves.put(
            &mut self.above,
            &mut self.below,
            &mut self.members,
            &mut self.moved,
        )?;
        let pair = SortPair {
            upper: upper as u32,
            lower: lower as u32,
        };
        record_pair(&mut self.pairs, &mut self.known, pair)
    }

    /// Adds an object to a sort and to all above it; after want of memory nothing is changed.
    pub(crate) fn add_object(&mut self, sort: usize, object: u32) -> Result<(), OutOfMemory>
        requires sort { sort < length self.now.names }
        requires last { IsPast object self.now }
        ensures added { OnOk result (self.new ≡ with_object self.old sort object) }
        ensures unchanged { OnErr result (self.new ≡ self.old) }
    {
        let above: &[u32] = &self.above[sort];
        make_room(&mut self.members, above, 1, &mut self.moved)?;
        unite_each(&mut self.members, above, &[object], &mut self.moved)?;
        Ok(())
    }
}
