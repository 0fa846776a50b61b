//! A list of clauses, kept in one list of literals.
ghost use Rattle.std.specs.Prelude.{◌≡◌, ℕ, ◌+◌, ◌<◌, ◌≤◌, ◌++◌, [], ◌∷◌, length, sum_by, Some, OnOk, OnErr, IfSome, IfNone, slice_get, slice_index, slice_range};
ghost use Rattle.cc_clauses.specs.Parts.{AreEnds, clauses_between};

use cc_defs::{Lit, OutOfMemory};
use std::alloc::Global;
use std::marker::Model;

/// A list of clauses, each a list of literals. It takes four bytes a clause and four bytes a literal, and has fewer than 2^32 literals
/// together: memory is wanting for more.
pub struct ClauseArena {
    // The clauses, one after another.
    all: Vec<Lit>,
    // Where each clause ends among the literals.
    ends: Vec<u32>,
}

impl Model for ClauseArena {
    ghost use Rattle.std.specs.Prelude.{List};
    ghost use Rattle.cc_defs.specs.Clauses.{Literal};

    ghost Value = { List (List Literal) };

    ghost use Rattle.cc_clauses.specs.Parts.{view_of, IsArena};

    ghost view = { view_of };

    ghost invariant = { IsArena };
}

// By hand, so that whoever lets clauses go has one call there, and not a drop for each field.
impl Drop for ClauseArena {
    fn drop(self) {
        let ClauseArena { all, ends: _ } = self;
        drop(all);
    }
}

// The literals between two places.
fn part(all: &[Lit], start: usize, end: usize) -> &[Lit]
    requires ordered { start ≤ end }
    requires within { end ≤ length all.now }
    ensures { result.now ≡ slice_range all.now start end }
{
    &all[start..end]
}

// Where the clause of an index begins: at the end of the one before it.
fn start_of(ends: &[u32], index: usize) -> usize
    requires { index ≤ length ends.now }
    ensures { result ≡ slice_index (0 ∷ ends.now) index }
{
    match index.checked_sub(1) {
        Some(before) => ends[before] as usize,
        None => 0,
    }
}

// The clause of an index.
fn clause_at<'a>(all: &'a [Lit], ends: &[u32], index: usize) -> &'a [Lit]
    requires ends { AreEnds 0 ends.now (length all.now) }
    requires within { index < length ends.now }
    ensures { slice_get (clauses_between all.now 0 ends.now) index ≡ Some result.now }
{
    let start = start_of(ends, index);
    let end = ends[index] as usize;
    part(all, start, end)
}

// Where a clause ends behind so many literals, where four bytes hold it.
fn end_behind(before: usize, clause: &[Lit]) -> Option<u32>
    ensures end { IfSome result (λ end. end ≡ before + length clause.now) }
    ensures none { IfNone result (4294967295 < before + length clause.now) }
{
    let end = before.checked_add(clause.len())?;
    u32::try_from(end).ok()
}

impl ClauseArena {
    /// The empty list, which takes no memory.
    pub fn new(alloc: Global) -> ClauseArena
        ensures { result ≡ [] }
    {
        ClauseArena {
            all: Vec::new(alloc),
            ends: Vec::new(alloc),
        }
    }

    /// How many clauses there are.
    pub fn count(&self) -> usize
        ensures { result ≡ length self.now }
    {
        self.ends.len()
    }

    /// How many literals all clauses have together.
    pub fn literals(&self) -> usize
        ensures { result ≡ sum_by (λ clause. length clause) self.now }
    {
        self.all.len()
    }

    /// The clause of an index, from 0.
    #[inline(always)]
    pub fn clause(&self, index: usize) -> &[Lit]
        requires { index < length self.now }
        ensures { slice_get self.now index ≡ Some result.now }
    {
        clause_at(&self.all, &self.ends, index)
    }

    /// Makes room for so many more clauses with so many literals together.
    pub fn reserve(&mut self, clauses: usize, literals: usize) -> Result<(), OutOfMemory>
        ensures { self.new ≡ self.old }
    {
        self.ends.reserve(clauses)?;
        self.all.reserve(literals)?;
        Ok(())
    }

    /// Puts a clause behind the others.
    pub fn push(&mut self, clause: &[Lit]) -> Result<(), OutOfMemory>
        ensures pushed { OnOk result (self.new ≡ self.old ++ clause.now ∷ []) }
        ensures kept { OnErr result (self.new ≡ self.old) }
    {
        let Some(end) = end_behind(self.all.len(), clause) else {
            return Err(OutOfMemory);
        };
        self.ends.reserve(1)?;
        self.all.extend_from_slice(clause)?;
        self.ends.push(end)?;
        Ok(())
    }
}
