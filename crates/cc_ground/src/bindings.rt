//! What variables stand for while formulas are walked.
ghost use Rattle.std.specs.Prelude.{◌≡◌, ℕ, slice_get, OnOk};
ghost use Rattle.cc_defs.specs.Satisfaction.{bind as bind_in};
ghost use Rattle.cc_ground.specs.Bindings.{BindingsView, bound_over, environment_of, no_bindings, with_bound, with_value};

use cc_defs::OutOfMemory;
use std::alloc::Global;
use std::marker::Model;

/// The values of a law's variables, by number, and what the brackets around bind, the innermost last: a variable, and the
/// object that it stands for.
#[derive(Drop)]
pub(crate) struct Bindings {
    values: Vec<u32>,
    bound: Vec<(u32, u32)>,
}

impl Model for Bindings {
    ghost use Rattle.cc_ground.specs.Bindings.{BindingsView};

    ghost Value = { BindingsView };

    ghost view = { λ value. record { values = value.values.items; bound = value.bound.items } };
}

/// The value of a variable of a law.
fn given(values: &[u32], variable: u32) -> Option<u32>
    ensures { result ≡ slice_get values.now variable }
{
    values.get(variable as usize).copied()
}

impl Bindings {
    /// No variable stands for anything.
    pub(crate) fn new(alloc: Global) -> Bindings
        ensures { result ≡ no_bindings }
    {
        Bindings {
            values: Vec::new(alloc),
            bound: Vec::new(alloc),
        }
    }

    /// What a variable stands for: what the innermost bracket gives it that binds it, or else its value in the law.
    pub(crate) fn value(&self, variable: u32) -> Option<u32>
        ensures { result ≡ environment_of self.now variable }
    {
        let mut left = self.bound.as_slice();
        while let Some((last, others)) = left.split_last() {
            if variable == last.0 {
                return Some(last.1);
            }
            left = others;
        }
        given(&self.values, variable)
    }

    /// One more variable of the law has a value.
    pub(crate) fn give(&mut self, value: u32) -> Result<(), OutOfMemory>
        ensures { OnOk result (self.new ≡ with_value value self.old) }
    {
        self.values.push(value)?;
        Ok(())
    }

    /// The last variable of the law that has a value has none.
    pub(crate) fn take_back(&mut self)
        ensures { (value : ℕ) (before : BindingsView) →
            self.old ≡ with_value value before → self.new ≡ before }
    {
        self.values.pop();
    }

    /// A bracket binds a variable to an object.
    pub(crate) fn bind(&mut self, variable: u32, object: u32) -> Result<(), OutOfMemory>
        ensures bound { OnOk result (self.new ≡ with_bound variable object self.old) }
        ensures binds { OnOk result
            (environment_of self.new ≡ bind_in variable object (environment_of self.old)) }
    {
        self.bound.push((variable, object))?;
        Ok(())
    }

    /// The innermost bracket is left.
    pub(crate) fn unbind(&mut self)
        ensures { (variable object : ℕ) (before : BindingsView) →
            self.old ≡ with_bound variable object before → self.new ≡ before }
    {
        self.bound.pop();
    }
}
