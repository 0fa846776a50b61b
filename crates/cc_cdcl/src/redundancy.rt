//! Which literals of a derived clause follow from its others (Sörensson and Biere 2009). What is found is only asked where a step of
//! resolution could be taken anyway, so nothing is claimed of it.
ghost use Rattle.std.specs.Prelude.{◌≤◌, IsSome};
ghost use Rattle.cc_kernel.specs.Kernels.{IsThere};
ghost use Rattle.cc_trail.specs.Trails.{Fits};

use cc_defs::Lit;
use cc_kernel::Kernel;
use cc_trail::Trail;

/// So many reasons deep it is looked at most.
pub const DEEPEST: u32 = 1000;

/// What was found of a variable. It counts only while the clause of this number is derived.
#[derive(Clone, Copy)]
pub struct Mark {
    number: u32,
    is_redundant: bool,
}

impl Mark {
    /// Nothing was found of a variable.
    pub fn none() -> Mark {
        Mark {
            number: 0,
            is_redundant: false,
        }
    }
}

// What is known of a variable.
enum Known {
    Redundant,
    Kept,
    Nothing,
}

// What is known of a variable while the clause of a number is derived. Where there are no marks, each literal is kept.
fn found_of(marks: &[Mark], number: u32, variable: u32) -> Known {
    match marks.get(variable as usize) {
        Some(mark) => if mark.number != number {
            Known::Nothing
        } else if mark.is_redundant {
            Known::Redundant
        } else {
            Known::Kept
        },
        None => Known::Kept,
    }
}

// Marks a variable.
fn put_mark(marks: &mut [Mark], number: u32, variable: u32, is_redundant: bool) {
    let place = variable as usize;
    if place < marks.len() {
        marks[place] = Mark {
            number,
            is_redundant,
        };
    }
}

// Whether a literal of the reason of a variable is the variable's own, or staged, or false before a level was opened.
fn is_covered(trail: &Trail, kernel: &Kernel, variable: u32, lit: Lit) -> bool
    requires within { lit.variable ≤ trail.now.variables }
    requires staged { IsSome kernel.now.staged }
{
    lit.variable() == variable || kernel.stages(lit) || trail.level_of(lit.variable()) == Some(0)
}

/// Whether the false literal of a variable follows from staged literals and from what was false before a level was opened, as far as its
/// reasons and marks say, so many of them deep.
pub fn is_redundant(
    trail: &Trail,
    kernel: &Kernel,
    marks: &mut [Mark],
    variable: u32,
    depth: u32,
) -> bool
    requires fits { Fits trail.now kernel.now }
    requires staged { IsSome kernel.now.staged }
    requires within { variable ≤ trail.now.variables }
{
    let number = kernel.count();
    match found_of(marks, number, variable) {
        Known::Redundant => return true,
        Known::Kept => return false,
        Known::Nothing => {},
    }
    if depth == 0 {
        return false;
    }
    match trail.reason(variable) {
        Some(id) => for lit in kernel.clause(id) {
            let other = lit.variable();
            if !is_covered(trail, kernel, variable, *lit)
                && !is_redundant(trail, kernel, marks, other, depth - 1)
            {
                put_mark(marks, number, variable, false);
                return false;
            }
        },
        None => return false,
    }
    put_mark(marks, number, variable, true);
    true
}
