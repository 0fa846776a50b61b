//! The numbers of the variables that a place of a formula sees.
ghost use Rattle.std.specs.Prelude.{◌≡◌, ◌+◌, ◌<◌, length, IfOk, OnOk};
ghost use Rattle.cc_laws.specs.Resolving as words;
ghost use Rattle.cc_laws.specs.Views.{scope_of};

use cc_defs::OutOfMemory;
use std::alloc::Global;

/// A variable, by its number in the table, and the number that it has in its law or query.
#[derive(Clone, Copy, Drop)]
pub(crate) struct Binding {
    pub(crate) variable: u32,
    pub(crate) number: u32,
}

/// What a place of a formula sees: the variables of the law, and behind them those of the brackets around the place, the
/// innermost last. The next bracket gets the number `next`.
#[derive(Drop)]
pub(crate) struct Names {
    pub(crate) bindings: Vec<Binding>,
    pub(crate) next: u32,
}

/// The names of a law with these variables, before its first bracket. The number behind those of the variables is left for
/// the variable of a value.
pub(crate) fn names_of(alloc: Global, variables: &[u32]) -> Result<Names, OutOfMemory>
    ensures scope { IfOk result (λ names. scope_of names ≡ words.numbered_from 0 variables.now) }
    ensures next { IfOk result (λ names. names.next ≡ length variables.now + 1) }
{
    let count = variables.len();
    if count >= 4_000_000_000 {
        return Err(OutOfMemory);
    }
    let mut bindings = Vec::with_capacity(alloc, count)?;
    for place in (0..count).rev() {
        bindings.push(Binding {
            variable: variables[place],
            number: place as u32,
        })?;
    }
    Ok(Names {
        bindings,
        next: count as u32 + 1,
    })
}

impl Names {
    /// A number of its own for a bracket.
    pub(crate) fn fresh(&mut self) -> Result<u32, OutOfMemory>
        ensures number { IfOk result (λ number. number ≡ self.old.next) }
        ensures next { OnOk result (self.new.next ≡ self.old.next + 1) }
        ensures kept { OnOk result (self.new.bindings.items ≡ self.old.bindings.items) }
    {
        let number = self.next;
        if number >= 4_000_000_000 {
            return Err(OutOfMemory);
        }
        self.next = number + 1;
        Ok(number)
    }

    /// The number that a variable has by its innermost binding.
    pub(crate) fn number_in(&self, variable: u32) -> Option<u32>
        ensures { result ≡ words.number_in (scope_of self.now) variable }
    {
        let mut found = None;
        for binding in &self.bindings {
            if binding.variable == variable {
                found = Some(binding.number);
            }
        }
        found
    }
}
