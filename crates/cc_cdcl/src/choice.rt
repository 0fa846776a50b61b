//! The choice of the next literal: the least value that is not false of the first position that has no true value.
ghost use Rattle.std.specs.Prelude.{◌≡◌, ◌≢◌, ℕ, ◌+◌, ◌<◌, ◌≤◌, ◌↔◌, IsTrue, Some, None, IfSome, IfNone, false, sum, length, slice_index};
ghost use Rattle.cc_defs.specs.Assignments.{IsClosed};
ghost use Rattle.cc_defs.specs.Limits.{most_variables};
ghost use Rattle.cc_kernel.specs.Kernels.{clauses_of};
ghost use Rattle.cc_trail.specs.Steps.{values_of};
ghost use Rattle.cc_cdcl.specs.Choices.{HasTrueValue};
ghost use Rattle.cc_cdcl.specs.Cursors.{IsCursor, IsChoice};
ghost use Rattle.cc_cdcl.specs.LeastRows.{true_index};
ghost use Rattle.cc_cdcl.specs.Sets.{assignment_of, IsFull};
ghost use Rattle.cc_cdcl.specs.Solvers.{HasPositions};

use cc_defs::Lit;
use cc_kernel::Kernel;
use cc_trail::Trail;

/// Where the next choice is looked for.
#[derive(Clone, Copy)]
pub struct Cursor {
    /// Each position before this one has a true value.
    pub position: usize,
    /// The first variable of that position.
    pub first: u32,
    /// Each variable below this one has a value.
    pub variable: u32,
}

impl Cursor {
    /// Where it is looked for while no variable has a value.
    pub fn start() -> Cursor
        ensures { result ≡ record { position = 0; first = 1; variable = 1 } }
    {
        Cursor {
            position: 0,
            first: 1,
            variable: 1,
        }
    }
}

// Whether a variable has this value.
fn is_given(trail: &Trail, variable: u32, sign: bool) -> bool
    requires some { 1 ≤ variable }
    requires within { variable ≤ trail.now.variables }
    requires few { trail.now.variables ≤ most_variables }
    ensures { IsTrue result ↔ (values_of trail.now.steps variable ≡ Some sign) }
{
    match trail.value(Lit::positive(variable)) {
        Some(value) => value == sign,
        None => false,
    }
}

/// Whether a variable has a value.
pub fn has_value(trail: &Trail, variable: u32) -> bool
    requires some { 1 ≤ variable }
    requires within { variable ≤ trail.now.variables }
    requires few { trail.now.variables ≤ most_variables }
    ensures { IsTrue result ↔ (values_of trail.now.steps variable ≢ None) }
{
    match trail.value(Lit::positive(variable)) {
        Some(_value) => true,
        None => false,
    }
}

/// The first true value of a position whose first variable this is, or its size.
pub fn true_value(trail: &Trail, first: u32, size: u32) -> u32
    requires some { 1 ≤ first }
    requires within { first + size ≤ trail.now.variables + 1 }
    requires few { trail.now.variables ≤ most_variables }
    ensures { result ≡ true_index (assignment_of (values_of trail.now.steps)) first size }
{
    for value in 0..size {
        if is_given(trail, first + value, true) {
            return value;
        }
    }
    size
}

// The least value of a position that is not false.
fn least_open(trail: &Trail, first: u32, size: u32) -> u32
    requires some { 1 ≤ first }
    requires within { first + size ≤ trail.now.variables + 1 }
    requires few { trail.now.variables ≤ most_variables }
    requires open { ((value : ℕ) →
        value < size → values_of trail.now.steps (first + value) ≡ Some false) → ⊥ }
    ensures within { result < size }
    ensures open { values_of trail.now.steps (first + result) ≢ Some false }
    ensures lower { (lower : ℕ) →
        lower < result → values_of trail.now.steps (first + lower) ≡ Some false }
{
    let mut value = 0;
    while is_given(trail, first + value, false) {
        value += 1;
    }
    value
}

// Moves a cursor behind the positions that have a true value.
fn pass_positions(trail: &Trail, sizes: &[u32], start: Cursor) -> Cursor
    requires few { trail.now.variables ≤ most_variables }
    requires sizes { sum sizes.now ≤ trail.now.variables }
    requires cursor { IsCursor sizes.now trail.now.variables (values_of trail.now.steps) start }
    ensures cursor { IsCursor sizes.now trail.now.variables (values_of trail.now.steps) result }
    ensures none { result.position < length sizes.now → HasTrueValue result.first
        (slice_index sizes.now result.position) (values_of trail.now.steps) → ⊥ }
{
    let mut cursor = start;
    while cursor.position < sizes.len() {
        let size = sizes[cursor.position];
        if true_value(trail, cursor.first, size) == size {
            return cursor;
        }
        cursor = Cursor {
            position: cursor.position + 1,
            first: cursor.first + size,
            variable: cursor.variable,
        };
    }
    cursor
}

/// The first variable from this one on that has no value, or the one behind the last.
pub fn first_open(trail: &Trail, variables: u32, start: u32) -> u32
    requires variables { variables ≡ trail.now.variables }
    requires few { trail.now.variables ≤ most_variables }
    requires some { 1 ≤ start }
    requires most { start ≤ variables + 1 }
    requires before { (variable : ℕ) →
        0 < variable → variable < start → values_of trail.now.steps variable ≢ None }
    ensures some { 1 ≤ result }
    ensures most { result ≤ variables + 1 }
    ensures before { (variable : ℕ) →
        0 < variable → variable < result → values_of trail.now.steps variable ≢ None }
    ensures open { result ≤ variables → values_of trail.now.steps result ≡ None }
{
    let mut variable = start;
    while variable <= variables {
        if !has_value(trail, variable) {
            return variable;
        }
        variable += 1;
    }
    variable
}

/// The next choice, and the cursor that leads to it; none where every variable has a value.
pub fn next_choice(
    trail: &Trail,
    kernel: &Kernel,
    sizes: &[u32],
    start: Cursor,
) -> (Cursor, Option<Lit>)
    requires variables { trail.now.variables ≡ kernel.now.variables }
    requires closed { IsClosed (values_of trail.now.steps) (clauses_of kernel.now) }
    requires positions { HasPositions sizes.now kernel.now }
    requires sizes { sum sizes.now ≤ trail.now.variables }
    requires cursor { IsCursor sizes.now trail.now.variables (values_of trail.now.steps) start }
    ensures cursor { IsCursor sizes.now trail.now.variables (values_of trail.now.steps) result.0 }
    ensures some { IfSome result.1 (λ lit.
        IsChoice sizes.now trail.now.variables trail.now.steps lit) }
    ensures none { IfNone result.1 (IsFull trail.now.variables (values_of trail.now.steps)) }
{
    if trail.is_full() {
        return (start, None);
    }
    let variables = kernel.variables();
    let cursor = pass_positions(trail, sizes, start);
    if cursor.position < sizes.len() {
        let value = least_open(trail, cursor.first, sizes[cursor.position]);
        return (cursor, Some(Lit::positive(cursor.first + value)));
    }
    let variable = first_open(trail, variables, cursor.variable);
    let cursor = Cursor {
        position: cursor.position,
        first: cursor.first,
        variable,
    };
    if variable > variables {
        return (cursor, None);
    }
    (cursor, Some(Lit::negative(variable)))
}
