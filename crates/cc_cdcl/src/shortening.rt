//! What shortening a line needs: the places of the trail whose literals may be resolved away from it, the last one first, so that the trail
//! is not looked through; and what was found of variables.
ghost use Rattle.std.specs.Prelude.{◌<◌, IfSome, IsSome};
ghost use Rattle.cc_trail.specs.Trails.{Fits};

use crate::places::Places;
use crate::redundancy::Mark;
use cc_defs::{Lit, OutOfMemory};
use cc_kernel::Kernel;
use cc_trail::Trail;
use std::alloc::Global;

/// What is kept for the lines of a search. Nothing is claimed of it but that places come from in front of where they are wanted.
#[derive(Drop)]
pub struct Shortening {
    // The places of staged literals that were not looked at.
    places: Places,
    // So many of the literals that the kernel touched were taken in.
    seen: usize,
    /// By variable: what was found of its literal; none once a row was denied, since a line that comes from a denial would take a
    /// step more for each literal that it loses.
    pub marks: Vec<Mark>,
}

impl Shortening {
    /// Nothing is known of the variables 1, .., `variables`.
    pub fn new(alloc: Global, variables: u32) -> Result<Shortening, OutOfMemory> {
        Ok(Shortening {
            places: Places::up_to(alloc, variables as usize)?,
            seen: 0,
            marks: vec![in alloc; Mark::none(); variables as usize + 1]?,
        })
    }

    /// Forgets the places of the line before.
    pub fn begin(&mut self) {
        self.places.clear();
        self.seen = 0;
    }

    // Takes in the place of a literal, where that is staged.
    fn put(&mut self, trail: &Trail, kernel: &Kernel, lit: Lit)
        requires fits { Fits trail.now kernel.now }
        requires staged { IsSome kernel.now.staged }
    {
        // Opens the kernel's invariant for the proof.
        let _variables = kernel.variables();
        if kernel.stages(lit) {
            self.places.put(trail.place(lit.variable()));
        }
    }

    /// Takes in the places of the literals that were staged since the last call.
    pub fn take_in(&mut self, trail: &Trail, kernel: &Kernel)
        requires fits { Fits trail.now kernel.now }
        requires staged { IsSome kernel.now.staged }
    {
        let touched = kernel.touched();
        for index in self.seen..touched.len() {
            self.put(trail, kernel, touched[index]);
        }
        self.seen = touched.len();
    }

    /// The last of the places, which is taken out. It is in front of this one, behind which none is put in.
    pub fn next(&mut self, end: usize) -> Option<usize>
        ensures { IfSome result (λ place. place < end) }
    {
        match self.places.take() {
            Some(place) if place < end => Some(place),
            _ => None,
        }
    }
}
