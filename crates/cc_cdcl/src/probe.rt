//! The probe with which a section begins: for as many lines as it has clauses then, what is decided is what had most to do with
//! the lines before, and not what leads to the least row. Where its first fifty lines have more than two literals to three steps,
//! it is over with them. The lines that it derives are there when the rows are listed. Nothing is claimed of what it decides but
//! that it had no value.
ghost use Rattle.std.specs.Prelude.{◌≡◌, ◌<◌, ◌≤◌, None, IsTrue, IsSome, IfSome, IfNone, length, OnOk};
ghost use Rattle.cc_defs.specs.Clauses.{IsLiteralOver};
ghost use Rattle.cc_defs.specs.Limits.{most_variables};
ghost use Rattle.cc_trail.specs.Steps.{step_of, values_of};
ghost use Rattle.cc_trail.specs.Trails.{Fits};
ghost use Rattle.cc_cdcl.specs.Searches.{is_probing};
ghost use Rattle.cc_cdcl.specs.Sets.{IsFull};

use crate::choice::{first_open, has_value};
use crate::order::Order;
use cc_defs::{Lit, OutOfMemory};
use cc_kernel::Kernel;
use cc_trail::Trail;
use std::alloc::Global;

/// After so many lines all decisions are taken back, then after twice, three times as many, and so on.
const RUN: u32 = 56;

/// After so many lines it is seen whether they are wide.
const TRIAL: u32 = 50;

/// What is done with a section.
#[derive(Clone, Copy)]
pub enum Phase {
    /// Nothing yet.
    New,
    /// It is probed.
    Probing,
    /// Its rows are listed.
    Listing,
}

/// What comes after a line of a probe.
pub enum After {
    /// It goes on.
    More,
    /// It goes on from level 0.
    Restart,
    /// It is over.
    End,
}

/// A probe of a section, and whether it is on. Before it begins it takes no memory.
#[derive(Drop)]
pub struct Probe {
    /// What is done with the section.
    pub phase: Phase,
    // The active ones of the variables to decide on, and perhaps others.
    order: Order,
    // Of the variables that are not active those below this one have a value.
    idle: u32,
    // By variable: the sign that it had last, at first the negative one.
    signs: Vec<bool>,
    // How many lines it has left, how many until all decisions are taken back, and how many were to come then.
    lines: u32,
    left: u32,
    run: u32,
    // How many literals its lines have, and by how many steps they were derived.
    literals: usize,
    steps: usize,
}

// Whether a variable is one of a trail and has no value.
fn is_open(trail: &Trail, variables: u32, variable: u32) -> bool
    requires variables { variables ≡ trail.now.variables }
    requires few { trail.now.variables ≤ most_variables }
    ensures { IsTrue result →
        (0 < variable) × (variable ≤ variables) × (values_of trail.now.steps variable ≡ None) }
{
    0 < variable && variable <= variables && !has_value(trail, variable)
}

// Whether a variable got its value at a level above this one.
fn is_above(trail: &Trail, level: u32, variable: u32) -> bool
    requires { variable ≤ trail.now.variables }
{
    match trail.level_of(variable) {
        Some(other) => other > level,
        None => false,
    }
}

impl Probe {
    /// A probe that was not begun.
    pub fn new(alloc: Global) -> Probe
        ensures { result.phase ≡ Phase.New }
    {
        Probe {
            phase: Phase::New,
            order: Order::new(alloc),
            idle: 1,
            signs: Vec::new(alloc),
            lines: 0,
            left: RUN,
            run: RUN,
            literals: 0,
            steps: 0,
        }
    }

    /// Begins, over the variables 1, .., `variables`, and for so many lines. Where these are as many as there are clauses, the lines
    /// come to no more than these, and looking at all of them takes twice as long at most.
    pub fn begin(&mut self, variables: u32, lines: u32) -> Result<(), OutOfMemory> {
        self.order.fill(variables)?;
        self.signs.resize(variables as usize + 1, false)?;
        self.lines = lines;
        self.phase = Phase::Probing;
        Ok(())
    }

    /// Whether the section is probed.
    pub fn is_on(&self) -> bool
        ensures { result ≡ is_probing self.now.phase }
    {
        match self.phase {
            Phase::New => false,
            Phase::Probing => true,
            Phase::Listing => false,
        }
    }

    // The first variable of the order that has no value; it, and those before it, are taken out.
    fn first(&mut self, trail: &Trail, variables: u32) -> Option<u32>
        requires variables { variables ≡ trail.now.variables }
        requires few { trail.now.variables ≤ most_variables }
        ensures open { IfSome result (λ variable.
            (0 < variable) × (variable ≤ variables) × (values_of trail.now.steps variable ≡ None)) }
        ensures phase { self.new.phase ≡ self.old.phase }
    {
        for _ in 0..self.order.len() {
            match self.order.pop() {
                Some(variable) => if is_open(trail, variables, variable) {
                    return Some(variable);
                },
                None => return None,
            }
        }
        None
    }

    // The first variable that has no value and is not active. Those up to it are passed.
    fn first_idle(&mut self, trail: &Trail, variables: u32) -> Option<u32>
        requires variables { variables ≡ trail.now.variables }
        requires few { trail.now.variables ≤ most_variables }
        ensures open { IfSome result (λ variable.
            (0 < variable) × (variable ≤ variables) × (values_of trail.now.steps variable ≡ None)) }
        ensures phase { self.new.phase ≡ self.old.phase }
    {
        for variable in self.idle..variables + 1 {
            if is_open(trail, variables, variable) {
                self.idle = variable + 1;
                return Some(variable);
            }
        }
        self.idle = variables + 1;
        None
    }

    // The literal of a variable, with the sign that it had last.
    fn signed(&self, variable: u32) -> Lit
        requires some { 0 < variable }
        requires few { variable ≤ most_variables }
        ensures { result.variable ≡ variable }
    {
        let sign = self.signs.get(variable as usize).copied();
        if sign.unwrap_or(false) {
            Lit::positive(variable)
        } else {
            Lit::negative(variable)
        }
    }

    /// What to decide: the most active variable that has no value, of equally active ones the lowest, with the sign that it had last.
    /// None where each has a value.
    pub fn choose(&mut self, trail: &Trail, variables: u32) -> Option<Lit>
        requires variables { variables ≡ trail.now.variables }
        requires few { trail.now.variables ≤ most_variables }
        ensures some { IfSome result (λ lit.
            IsLiteralOver trail.now.variables lit × (step_of trail.now.steps lit.variable ≡ None)) }
        ensures none { IfNone result (IsFull trail.now.variables (values_of trail.now.steps)) }
        ensures phase { self.new.phase ≡ self.old.phase }
    {
        match self.first(trail, variables) {
            Some(variable) => return Some(self.signed(variable)),
            None => {},
        }
        match self.first_idle(trail, variables) {
            Some(variable) => return Some(self.signed(variable)),
            None => {},
        }
        let variable = first_open(trail, variables, 1);
        if variable > variables {
            return None;
        }
        Some(self.signed(variable))
    }

    // Makes the variables more active on which a clause was resolved.
    fn note_pivots(&mut self, chain: &[u32])
        ensures { self.new.phase ≡ self.old.phase }
    {
        for index in 0..chain.len() {
            if index % 2 == 1 {
                self.order.bump(chain[index]);
            }
        }
    }

    // Makes the variables above level 0 more active that have a staged literal.
    fn note_staged(&mut self, trail: &Trail, kernel: &Kernel)
        requires fits { Fits trail.now kernel.now }
        requires staged { IsSome kernel.now.staged }
        ensures { self.new.phase ≡ self.old.phase }
    {
        for lit in kernel.touched() {
            if kernel.stages(*lit) && is_above(trail, 0, lit.variable()) {
                self.order.bump(lit.variable());
            }
        }
    }

    /// Makes the variables above level 0 more active that were met on the way from a false clause to the staged one.
    pub fn note_met(&mut self, trail: &Trail, kernel: &Kernel)
        requires fits { Fits trail.now kernel.now }
        requires staged { IsSome kernel.now.staged }
        ensures { self.new.phase ≡ self.old.phase }
    {
        if !self.is_on() {
            return;
        }
        self.note_pivots(kernel.chain());
        self.note_staged(trail, kernel);
        self.order.grow();
    }

    // Keeps the sign of a literal whose variable is to be decided on again.
    fn put_back(&mut self, lit: Lit)
        ensures { self.new.phase ≡ self.old.phase }
    {
        let index = lit.variable() as usize;
        if index < self.signs.len() {
            self.signs[index] = lit.is_positive();
        }
        if self.order.is_active(lit.variable()) {
            self.order.insert(lit.variable());
        } else {
            self.idle = self.idle.min(lit.variable());
        }
    }

    /// Takes in what will have no value when a trail goes back to a level.
    pub fn take_back(&mut self, trail: &Trail, level: u32)
        ensures { self.new.phase ≡ self.old.phase }
    {
        if !self.is_on() {
            return;
        }
        let entries = trail.entries();
        for place in (0..entries.len()).rev() {
            let lit = entries[place];
            if !is_above(trail, level, lit.variable()) {
                return;
            }
            self.put_back(lit);
        }
    }

    /// Takes in how many literals a line has, and by how many steps it was derived.
    pub fn weigh(&mut self, literals: usize, steps: usize)
        ensures { self.new.phase ≡ self.old.phase }
    {
        self.literals = self.literals.saturating_add(literals);
        self.steps = self.steps.saturating_add(steps);
    }

    // Whether the lines have more than two literals to three steps: few are resolved away, so the lines lead nowhere.
    fn is_wide(&self) -> bool {
        self.literals / 2 > self.steps / 3
    }

    /// Counts a line. The probe is over where there were as many as it was begun for, or where the first ones of its first run are
    /// wide.
    pub fn count_line(&mut self) -> After
        ensures { self.new.phase ≡ self.old.phase }
    {
        self.lines = self.lines.saturating_sub(1);
        if self.lines == 0 {
            return After::End;
        }
        self.left = self.left.saturating_sub(1);
        if self.run == RUN && self.left == RUN - TRIAL && self.is_wide() {
            return After::End;
        }
        if self.left > 0 {
            return After::More;
        }
        self.run = self.run.saturating_add(RUN);
        self.left = self.run;
        After::Restart
    }
}
