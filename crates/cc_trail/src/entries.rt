//! The entries of a trail: the literals that became true, in order, each with its level and its reason.
ghost use Rattle.std.specs.Prelude.{◌≡◌, ◌≢◌, ℕ, ◌+◌, ◌*◌, ◌<◌, if◌then◌else◌, ◌≤◌, ◌++◌, [], ◌∷◌, length, map, take, Some, None, IfOk, IfSome, IfNone, option_map, slice_get};
ghost use Rattle.cc_defs.specs.Clauses.{IsIn, IsLiteralOver};
ghost use Rattle.cc_defs.specs.Limits.{most_variables};
ghost use Rattle.cc_trail.specs.Steps.{EntriesView, AreSteps, step_of, level_after};
ghost use Rattle.cc_trail.specs.EntryParts.{literal_of_step};
ghost use Rattle.cc_trail.specs.Trails.{level_of_step, value_of};
ghost use Rattle.cc_trail.specs.EntrySteps.{IsPopped, IsBack, is_true_by, Stands};

use cc_defs::{Lit, OutOfMemory};
use std::alloc::Global;
use std::marker::Model;

/// A literal that became true.
#[derive(Clone, Copy)]
pub struct Step {
    pub lit: Lit,
    pub level: u32,
    // The clause that it was propagated by; none where it was decided.
    pub reason: Option<u32>,
}

/// What a literal is, and at which level it became so.
#[derive(Clone, Copy)]
pub struct Standing {
    pub is_true: bool,
    pub level: u32,
}

/// The steps of a trail, with the place of each variable's step. All memory is taken at once.
#[derive(Drop)]
pub struct Entries {
    variables: u32,
    // What stands behind the first `count` steps and literals means nothing.
    count: usize,
    steps: Vec<Step>,
    literals: Vec<Lit>,
    // By variable: one more than the place of its step, or 0.
    places: Vec<u32>,
    // By variable: 0 where it has no value; else twice one more than the level, and one more where it is true.
    marks: Vec<u32>,
    level_count: u32,
}

impl Model for Entries {
    ghost use Rattle.cc_trail.specs.Steps.{EntriesView};

    ghost Value = { EntriesView };

    ghost use Rattle.cc_trail.specs.EntryParts.{view_of, AreEntries};

    ghost view = { view_of };

    ghost invariant = { AreEntries };
}

// The level of the last of so many steps.
fn last_level(steps: &[Step], count: usize) -> u32
    requires { count ≤ length steps.now }
    ensures { result ≡ level_after 0 (take count steps.now) }
{
    match count.checked_sub(1) {
        Some(last) => steps[last].level,
        None => 0,
    }
}

// The level and the sign of a step in one number.
fn mark(level: u32, is_positive: bool) -> u32
    requires { level ≤ 4000001 }
    ensures { result ≡ 2 * (level + 1) + (if is_positive then 1 else 0) }
{
    2 * (level + 1) + u32::from(is_positive)
}

// Whether a mark tells that the literal of this sign is true.
fn is_true(mark: u32, is_positive: bool) -> bool
    ensures { result ≡ is_true_by mark is_positive }
{
    if is_positive {
        mark % 2 == 1
    } else {
        mark % 2 == 0
    }
}

impl Entries {
    /// No entries, with room for one of each variable.
    pub fn new(alloc: Global, variables: u32) -> Result<Entries, OutOfMemory>
        requires { variables ≤ most_variables }
        ensures { IfOk result (λ entries.
            entries ≡ record { variables = variables; steps = []; level_count = 0 }) }
    {
        let lit = Lit::positive(1);
        let step = Step {
            lit,
            level: 0,
            reason: None,
        };
        let steps = vec![in alloc; step; variables as usize]?;
        let literals = vec![in alloc; lit; variables as usize]?;
        let places = vec![in alloc; 0u32; variables as usize + 1]?;
        let marks = vec![in alloc; 0u32; variables as usize + 1]?;
        Ok(Entries {
            variables,
            count: 0,
            steps,
            literals,
            places,
            marks,
            level_count: 0,
        })
    }

    /// How many variables there are.
    pub fn variables(&self) -> u32
        ensures variables { result ≡ self.now.variables }
        ensures steps { AreSteps self.now.variables self.now.steps self.now.level_count }
    {
        self.variables
    }

    /// How many entries there are.
    pub fn count(&self) -> usize
        ensures count { result ≡ length self.now.steps }
        ensures most { result ≤ self.now.variables }
        ensures steps { AreSteps self.now.variables self.now.steps self.now.level_count }
    {
        self.count
    }

    /// How many levels were opened.
    pub fn level_count(&self) -> u32
        ensures levels { result ≡ self.now.level_count }
        ensures steps { AreSteps self.now.variables self.now.steps self.now.level_count }
    {
        self.level_count
    }

    /// The literals that became true, in order.
    pub fn literals(&self) -> &[Lit]
        ensures { result.now ≡ map literal_of_step self.now.steps }
    {
        &self.literals[..self.count]
    }

    /// The step at a place.
    pub fn step(&self, place: usize) -> Step
        requires { place < length self.now.steps }
        ensures { slice_get self.now.steps place ≡ Some result }
    {
        self.steps[place]
    }

    /// The step of a variable, if it has a value.
    pub fn find(&self, variable: u32) -> Option<Step>
        requires { variable ≤ self.now.variables }
        ensures found { result ≡ step_of self.now.steps variable }
        ensures steps { AreSteps self.now.variables self.now.steps self.now.level_count }
    {
        match self.places[variable as usize].checked_sub(1) {
            Some(place) => Some(self.steps[place as usize]),
            None => None,
        }
    }

    /// Whether a literal is true, and since which level, if its variable has a value.
    pub fn standing(&self, lit: Lit) -> Option<Standing>
        requires { lit.variable ≤ self.now.variables }
        ensures stands { Stands self.now.steps lit result }
        ensures steps { AreSteps self.now.variables self.now.steps self.now.level_count }
    {
        let mark = self.marks[lit.variable() as usize];
        if mark < 2 {
            return None;
        }
        Some(Standing {
            is_true: is_true(mark, lit.is_positive()),
            level: mark / 2 - 1,
        })
    }

    /// The level at which a variable got its value.
    pub fn level_of(&self, variable: u32) -> Option<u32>
        requires { variable ≤ self.now.variables }
        ensures { result ≡ option_map level_of_step (step_of self.now.steps variable) }
    {
        let mark = self.marks[variable as usize];
        if mark < 2 {
            return None;
        }
        Some(mark / 2 - 1)
    }

    /// Whether a literal is true, if its variable has a value.
    pub fn value(&self, lit: Lit) -> Option<bool>
        requires { lit.variable ≤ self.now.variables }
        ensures { result ≡ value_of self.now.steps lit }
    {
        let mark = self.marks[lit.variable() as usize];
        if mark < 2 {
            return None;
        }
        Some(is_true(mark, lit.is_positive()))
    }

    /// The place of a variable's step; where it has no value, the end. No step before it is one of the variable.
    pub fn place(&self, variable: u32) -> usize
        requires { variable ≤ self.now.variables }
        ensures some { IfSome (step_of self.now.steps variable)
            (λ step. slice_get self.now.steps result ≡ Some step) }
        ensures none { IfNone (step_of self.now.steps variable)
            (result ≡ length self.now.steps) }
        ensures within { result ≤ length self.now.steps }
        ensures before { (step : Step) →
            IsIn (take result self.now.steps) step → step.lit.variable ≢ variable }
    {
        match self.places[variable as usize].checked_sub(1) {
            Some(place) => place as usize,
            None => self.count,
        }
    }

    /// Makes a literal true at the last level.
    pub fn push(&mut self, lit: Lit, reason: Option<u32>)
        requires over { IsLiteralOver self.old.variables lit }
        requires open { step_of self.old.steps lit.variable ≡ None }
        ensures { self.new ≡ record self.old {
          steps = self.old.steps
              ++ (record { lit = lit; level = self.old.level_count; reason = reason }) ∷ [];
        } }
    {
        let step = Step {
            lit,
            level: self.level_count,
            reason,
        };
        self.steps[self.count] = step;
        self.literals[self.count] = lit;
        self.places[lit.variable() as usize] = self.count as u32 + 1;
        self.marks[lit.variable() as usize] = mark(self.level_count, lit.is_positive());
        self.count += 1;
    }

    /// Opens a level, and makes a literal true at it.
    pub fn decide(&mut self, lit: Lit)
        requires over { IsLiteralOver self.old.variables lit }
        requires open { step_of self.old.steps lit.variable ≡ None }
        ensures { self.new ≡ record self.old {
          steps = self.old.steps
              ++ (record { lit = lit; level = self.old.level_count + 1; reason = None }) ∷ [];
          level_count = self.old.level_count + 1;
        } }
    {
        let step = Step {
            lit,
            level: self.level_count + 1,
            reason: None,
        };
        self.steps[self.count] = step;
        self.literals[self.count] = lit;
        self.places[lit.variable() as usize] = self.count as u32 + 1;
        self.marks[lit.variable() as usize] = mark(self.level_count + 1, lit.is_positive());
        self.count += 1;
        self.level_count += 1;
    }

    // Takes the last step away.
    fn pop(&mut self)
        requires { 0 < self.old.level_count }
        ensures { IsPopped self.old self.new }
    {
        let last = self.count - 1;
        let step = self.steps[last];
        self.places[step.lit.variable() as usize] = 0;
        self.marks[step.lit.variable() as usize] = 0;
        self.count = last;
        self.level_count = last_level(&self.steps, last);
    }

    /// Takes the entries of the levels above this one away.
    pub fn back_to(&mut self, level: u32)
        requires { level ≤ self.old.level_count }
        ensures back { IsBack self.old self.new level }
        ensures steps { AreSteps self.new.variables self.new.steps self.new.level_count }
    {
        while self.level_count() > level {
            self.pop();
        }
    }
}
