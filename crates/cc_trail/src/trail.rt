//! A trail: what is true and false, by levels of decisions, and propagation over the clauses of a kernel.
ghost use Rattle.std.specs.Prelude.{◌≡◌, ◌≢◌, ℕ, ◌+◌, ◌*◌, ◌<◌, ◌≤◌, false, [], ◌∷◌, ◌++◌, length, map, take, Some, None, IsTrue, All, Contains, IfOk, IfSome, IfNone, OnOk, OnErr, option_map, option_and_then, slice_get};
ghost use Rattle.cc_defs.specs.Assignments.{IsClosed};
ghost use Rattle.cc_kernel.specs.Kernels.{KernelView, clauses_of, IsThere};
ghost use Rattle.cc_trail.specs.EntryParts.{literal_of_step};
ghost use Rattle.cc_defs.specs.Clauses.{Literal, IsLiteralOver};
ghost use Rattle.cc_trail.specs.Visits.{IsFalseAt, IsLeft};
ghost use Rattle.cc_trail.specs.Steps.{AreSteps, step_of, values_of};
ghost use Rattle.cc_trail.specs.Trails.{TrailView, IsTrail, Fits, IsSettled, IsNew, IsEmptyOver, IsAttached, IsAttachedOver, IsLong, IsLongTrue, IsPairLong, IsLastCovered, IsDropped, IsPropagated, IsFailedClause, HasNoStepOf, value_of, level_of_step, reason_of_step, decided, back_at, without_last};

use crate::entries::Entries;
use crate::links::Links;
use crate::pairs::Pairs;
use crate::propagation::{make_shorts, met_for_good, visit_steps};
use crate::visits::best_beside;
use crate::watches::{Pair, best_two};
use cc_defs::{Lit, OutOfMemory};
use cc_kernel::Kernel;
use std::alloc::Global;
use std::marker::Model;

// Whether a clause has all literals of another one. Both are in order, so one walk meets them all.
fn is_part(part: &[Lit], clause: &[Lit]) -> bool
    ensures { IsTrue result → (literal : Literal) →
        Contains part.now literal → Contains clause.now literal }
{
    let mut met = 0;
    for lit in clause {
        if met < part.len() && part[met] == *lit {
            met += 1;
        }
    }
    met == part.len()
}

// A literal of a clause that has no value.
fn open_in(entries: &Entries, clause: &[Lit]) -> Option<Lit>
    requires { All (λ literal. IsLiteralOver entries.now.variables literal) clause.now }
    ensures member { IfSome result (λ lit. Contains clause.now lit) }
    ensures open { IfSome result (λ lit. step_of entries.now.steps lit.variable ≡ None) }
{
    for lit in clause {
        if entries.standing(*lit).is_none() {
            return Some(*lit);
        }
    }
    None
}

// Whether a literal became false at a level.
fn is_false_at(entries: &Entries, lit: Lit, level: u32) -> bool
    requires { lit.variable ≤ entries.now.variables }
    ensures { IsTrue result → IsFalseAt entries.now.steps lit level }
{
    match entries.standing(lit) {
        Some(standing) => !standing.is_true && standing.level == level,
        None => false,
    }
}

// The last literal of a clause that became false at the last level.
fn fallen_in(entries: &Entries, clause: &[Lit]) -> Option<Lit>
    requires { All (λ literal. IsLiteralOver entries.now.variables literal) clause.now }
    ensures member { IfSome result (λ lit. Contains clause.now lit) }
    ensures fallen { IfSome result (λ lit.
        IsFalseAt entries.now.steps lit entries.now.level_count) }
{
    let level = entries.level_count();
    for index in (0..clause.len()).rev() {
        if is_false_at(entries, clause[index], level) {
            return Some(clause[index]);
        }
    }
    None
}

// How many of so many first entries come before those of the variables of two literals.
fn entries_before(entries: &Entries, most: usize, one: Lit, two: Lit) -> usize
    requires one { one.variable ≤ entries.now.variables }
    requires two { two.variable ≤ entries.now.variables }
    ensures fewer { result ≤ most }
    ensures one { HasNoStepOf (take result entries.now.steps) one }
    ensures two { HasNoStepOf (take result entries.now.steps) two }
{
    if most == 0 {
        return 0;
    }
    most.min(entries.place(one.variable()))
        .min(entries.place(two.variable()))
}

/// What is true and false, in the order in which it became so, and the watch links of the attached clauses.
#[derive(Drop)]
pub struct Trail {
    entries: Entries,
    links: Links,
    // The clauses of two literals that were there at first.
    pairs: Pairs,
    // How many clauses are attached.
    attached: u32,
    // The numbers of the attached clauses of fewer than two literals, and of the others.
    shorts: Vec<u32>,
    longs: Vec<u32>,
    // So many of the short ones have a literal that is true at level 0, and are not looked at any more.
    met: usize,
    // How many entries have been visited by propagation.
    visited: usize,
}

impl Model for Trail {
    ghost use Rattle.cc_trail.specs.Trails.{TrailView};

    ghost Value = { TrailView };

    ghost use Rattle.cc_trail.specs.TrailParts.{view_of, AreParts};

    ghost view = { view_of };

    ghost invariant = { AreParts };
}

impl Trail {
    // A trail to which no clause is attached, with room for the clauses of a kernel that have two literals.
    fn empty(alloc: Global, kernel: &Kernel) -> Result<Trail, OutOfMemory>
        ensures { IfOk result (λ trail. IsEmptyOver kernel.now.variables trail) }
    {
        let variables = kernel.variables();
        Ok(Trail {
            entries: Entries::new(alloc, variables)?,
            links: Links::new(alloc, variables)?,
            pairs: Pairs::over(alloc, kernel)?,
            attached: 0,
            shorts: Vec::new(alloc),
            longs: Vec::new(alloc),
            met: 0,
            visited: 0,
        })
    }

    /// A trail to which every clause of a kernel is attached, and in which no variable has a value.
    pub fn new(alloc: Global, kernel: &Kernel) -> Result<Trail, OutOfMemory>
        ensures new { IfOk result (λ trail. IsNew trail kernel.now) }
        ensures fits { IfOk result (λ trail. Fits trail kernel.now) }
        ensures settled { IfOk result (λ trail. IsSettled trail kernel.now) }
    {
        let mut trail = Trail::empty(alloc, kernel)?;
        for index in 0..kernel.count() {
            trail.attach(kernel, index + 1)?;
        }
        Ok(trail)
    }

    // Attaches a clause of fewer than two literals.
    fn attach_short(&mut self, id: u32) -> Result<(), OutOfMemory>
        requires { id ≡ self.old.attached + 1 }
        ensures attached { OnOk result
            (self.new ≡ record self.old { attached = id; shorts = self.old.shorts ++ id ∷ [] }) }
        ensures kept { OnErr result (self.new ≡ self.old) }
    {
        self.shorts.push(id)?;
        self.attached = id;
        Ok(())
    }

    // Attaches a clause of two literals that stand beside one another from then on, where there is room; else nothing is done.
    fn attach_pair(&mut self, id: u32, first: Lit, second: Lit) -> bool
        requires next { id ≡ self.old.attached + 1 }
        requires first { IsLiteralOver self.old.variables first }
        requires second { IsLiteralOver self.old.variables second }
        requires apart { first ≢ second }
        ensures attached { IsTrue result → IsPairLong self.old self.new id first second }
        ensures kept { result ≡ false → self.new ≡ self.old }
    {
        if !self.pairs.add(first, second, id) {
            return false;
        }
        self.visited = entries_before(&self.entries, self.visited, first, second);
        self.attached = id;
        true
    }

    // Attaches a clause of two or more literals, which watches two of them.
    fn attach_long(&mut self, id: u32, pair: Pair) -> Result<(), OutOfMemory>
        requires next { id ≡ self.old.attached + 1 }
        requires first { IsLiteralOver self.old.variables pair.first }
        requires second { IsLiteralOver self.old.variables pair.second }
        requires apart { pair.first ≢ pair.second }
        ensures attached { OnOk result (IsLong self.old self.new id pair.first pair.second) }
        ensures kept { OnErr result (self.new ≡ self.old) }
    {
        self.longs.reserve(1)?;
        self.links.add_two(pair.first, pair.second)?;
        self.longs.push(id)?;
        self.visited = entries_before(&self.entries, self.visited, pair.first, pair.second);
        self.attached = id;
        Ok(())
    }

    /// Attaches the next clause of a kernel, and takes the memory for its nodes: propagation takes none. After want of memory the
    /// trail is as before.
    pub fn attach(&mut self, kernel: &Kernel, id: u32) -> Result<(), OutOfMemory>
        requires fits { Fits self.old kernel.now }
        requires next { id ≡ self.old.attached + 1 }
        requires there { IsThere kernel.now id }
        ensures attached { OnOk result (IsAttached self.old self.new) }
        ensures fits { OnOk result (Fits self.new kernel.now) }
        ensures settled { OnOk result ((other : KernelView) →
            IsSettled self.old other → IsSettled self.new other) }
        ensures kept { OnErr result (self.new ≡ self.old) }
    {
        let clause = kernel.clause(id);
        if clause.len() < 2 {
            return self.attach_short(id);
        }
        if clause.len() == 2 && self.attach_pair(id, clause[0], clause[1]) {
            return Ok(());
        }
        let pair = best_two(&self.entries, clause);
        self.attach_long(id, pair)
    }

    // Whether the last clause that has nodes contains the clause of a number, and its nodes are easily taken out.
    fn is_last_covered(&self, kernel: &Kernel, id: u32) -> bool
        requires fits { Fits self.now kernel.now }
        requires there { IsThere kernel.now id }
        requires behind { self.now.attached < id }
        ensures { IsTrue result → IsLastCovered (clauses_of kernel.now) self.now }
    {
        match self.longs.last() {
            Some(number) => {
                let node = self.links.count() as u32 - 2;
                *number < id
                    && is_part(kernel.clause(id), kernel.clause(*number))
                    && self.links.is_near(node)
                    && self.links.is_near(node + 1)
            },
            None => false,
        }
    }

    // Takes the nodes of the last clause that has some out.
    fn drop_last(&mut self)
        requires { 0 < length self.old.longs }
        ensures dropped { self.new ≡ without_last self.old }
        ensures nodes { length self.old.watched ≡ 2 * length self.old.longs }
    {
        let _ = self.longs.pop();
        self.links.remove_last();
        self.links.remove_last();
    }

    // Takes the nodes out of the last clauses that contain the clause of a number, which is to be attached next and stands for
    // them then: where one of them is false, or leaves one literal, its part is false, or leaves the same one. So a row that
    // was denied costs nothing any more once a line denies it with others.
    fn drop_covered(&mut self, kernel: &Kernel, id: u32)
        requires fits { Fits self.old kernel.now }
        requires there { IsThere kernel.now id }
        requires behind { self.old.attached < id }
        ensures dropped { IsDropped self.old self.new }
        ensures fits { Fits self.new kernel.now }
        ensures settled { (other : KernelView) →
            IsSettled self.old other → IsSettled self.new other }
    {
        while self.is_last_covered(kernel, id) {
            self.drop_last();
        }
    }

    // A literal of a clause that has no value, and one that became false at the last level, where there are both and all others
    // are false.
    fn left_by(&self, clause: &[Lit]) -> Option<Pair>
        requires { All (λ literal. IsLiteralOver self.now.variables literal) clause.now }
        ensures { IfSome result (λ pair.
            IsLeft self.now.steps self.now.level_count clause.now pair.first pair.second) }
    {
        match (
            open_in(&self.entries, clause),
            fallen_in(&self.entries, clause),
        ) {
            (Some(first), Some(second)) => {
                let level = self.entries.level_count();
                if best_beside(&self.entries, clause, second, level, first).is_false {
                    Some(Pair { first, second })
                } else {
                    None
                }
            },
            _ => None,
        }
    }

    // Attaches a clause of two or more literals that leaves the first one of a pair, which is true by it then.
    fn attach_true(&mut self, id: u32, pair: Pair) -> Result<(), OutOfMemory>
        requires next { id ≡ self.old.attached + 1 }
        requires first { IsLiteralOver self.old.variables pair.first }
        requires second { IsLiteralOver self.old.variables pair.second }
        requires apart { pair.first ≢ pair.second }
        requires open { step_of self.old.steps pair.first.variable ≡ None }
        ensures attached { OnOk result
            (IsLongTrue self.old self.new id pair.first pair.second) }
        ensures trail { IsTrail self.old }
    {
        self.longs.reserve(1)?;
        self.links.add_two(pair.first, pair.second)?;
        self.longs.push(id)?;
        self.entries.push(pair.first, Some(id));
        self.attached = id;
        Ok(())
    }

    /// Attaches the next clause of a kernel, which stands for the last ones that contain it from then on. Where it leaves one literal
    /// at the last level, that is true by it then, and no step has to be visited again.
    pub fn attach_over(&mut self, kernel: &Kernel, id: u32) -> Result<(), OutOfMemory>
        requires fits { Fits self.old kernel.now }
        requires next { id ≡ self.old.attached + 1 }
        requires there { IsThere kernel.now id }
        ensures attached { OnOk result (IsAttachedOver self.old self.new) }
        ensures fits { OnOk result (Fits self.new kernel.now) }
        ensures settled { OnOk result ((other : KernelView) →
            IsSettled self.old other → IsSettled self.new other) }
    {
        self.drop_covered(kernel, id);
        match self.left_by(kernel.clause(id)) {
            Some(pair) => self.attach_true(id, pair),
            None => self.attach(kernel, id),
        }
    }

    /// Opens a level, and makes a literal true at it.
    pub fn decide(&mut self, lit: Lit)
        requires over { IsLiteralOver self.old.variables lit }
        requires open { step_of self.old.steps lit.variable ≡ None }
        ensures decided { self.new ≡ decided self.old lit }
        ensures fits { (kernel : KernelView) → Fits self.old kernel → Fits self.new kernel }
        ensures settled { (kernel : KernelView) → IsClosed (values_of self.old.steps)
            (clauses_of kernel) → IsSettled self.old kernel → IsSettled self.new kernel }
    {
        self.entries.decide(lit);
    }

    /// Takes the entries of the levels above this one away.
    pub fn back_to(&mut self, level: u32)
        requires { level ≤ self.old.level_count }
        ensures back { self.new ≡ back_at self.old level }
        ensures fits { (kernel : KernelView) → Fits self.old kernel → Fits self.new kernel }
        ensures settled { (kernel : KernelView) →
            IsSettled self.old kernel → IsSettled self.new kernel }
    {
        self.entries.back_to(level);
        self.visited = self.visited.min(self.entries.count());
    }

    /// Unit propagation: makes literals true at the last level, each by a clause whose other literals are false, for as
    /// long as there is such a clause. None where no clause is false and none is left with one literal that has no value
    /// and all others false; else the number of a clause that is false. It takes no memory: a node that is moved has a link of its
    /// own, and all entries have their places from the beginning.
    pub fn propagate(&mut self, kernel: &Kernel) -> Option<u32>
        requires fits { Fits self.old kernel.now }
        requires all { self.old.attached ≡ length kernel.now.entries }
        requires settled { IsSettled self.old kernel.now }
        ensures propagated { IsPropagated self.old self.new }
        ensures fits { Fits self.new kernel.now }
        ensures settled { IsSettled self.new kernel.now }
        ensures failed { IfSome result (λ id.
            IsFailedClause (clauses_of kernel.now) self.new.steps id) }
        ensures closed { IfNone result
            (IsClosed (values_of self.new.steps) (clauses_of kernel.now)) }
    {
        if let Some(number) = make_shorts(kernel, &self.shorts, self.met, &mut self.entries) {
            return Some(number);
        }
        self.met = met_for_good(&self.entries, self.met, self.shorts.len());
        visit_steps(
            kernel,
            &self.longs,
            &mut self.entries,
            &mut self.links,
            &self.pairs,
            &mut self.visited,
        )
    }

    /// Whether a literal is true, if its variable has a value.
    pub fn value(&self, lit: Lit) -> Option<bool>
        requires { lit.variable ≤ self.now.variables }
        ensures { result ≡ value_of self.now.steps lit }
    {
        self.entries.value(lit)
    }

    /// The level at which a variable got its value.
    pub fn level_of(&self, variable: u32) -> Option<u32>
        requires { variable ≤ self.now.variables }
        ensures { result ≡ option_map level_of_step (step_of self.now.steps variable) }
    {
        self.entries.level_of(variable)
    }

    /// The number of the clause by which a variable got its value; none for a decision.
    pub fn reason(&self, variable: u32) -> Option<u32>
        requires { variable ≤ self.now.variables }
        ensures { result ≡ option_and_then reason_of_step (step_of self.now.steps variable) }
    {
        match self.entries.find(variable) {
            Some(step) => step.reason,
            None => None,
        }
    }

    /// Whether every variable has a value.
    pub fn is_full(&self) -> bool
        ensures { IsTrue result → (variable : ℕ) → 0 < variable →
            variable ≤ self.now.variables → values_of self.now.steps variable ≢ None }
    {
        self.entries.count() == self.entries.variables() as usize
    }

    /// The place of a variable's step among the entries; where it has no value, their end.
    pub fn place(&self, variable: u32) -> usize
        requires { variable ≤ self.now.variables }
        ensures some { IfSome (step_of self.now.steps variable)
            (λ step. slice_get self.now.steps result ≡ Some step) }
        ensures none { IfNone (step_of self.now.steps variable)
            (result ≡ length self.now.steps) }
    {
        self.entries.place(variable)
    }

    /// How many levels were opened.
    pub fn level_count(&self) -> u32
        ensures level_count { result ≡ self.now.level_count }
        ensures steps { AreSteps self.now.variables self.now.steps self.now.level_count }
    {
        self.entries.level_count()
    }

    /// The true literals, in the order in which they became so.
    pub fn entries(&self) -> &[Lit]
        ensures entries { result.now ≡ map literal_of_step self.now.steps }
        ensures steps { AreSteps self.now.variables self.now.steps self.now.level_count }
    {
        // Opens the trail's invariant for the proof.
        let _count = self.entries.count();
        self.entries.literals()
    }
}
