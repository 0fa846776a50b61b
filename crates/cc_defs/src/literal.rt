//! Literals of propositional variables.
ghost use Rattle.std.specs.Prelude.{◌≡◌, ◌≤◌, Bool, true, false, not};
ghost use Rattle.cc_defs.specs.Limits.{most_variables};

use std::marker::Model;

/// A variable, from 1, or its negation. Literals ascend by variable, the negative one of a variable first.
#[derive(Clone, Copy, PartialEq, Eq, PartialOrd, Ord)]
pub struct Lit {
    /// Twice the variable, and one more where the literal is positive.
    code: u32,
}

impl Model for Lit {
    ghost use Rattle.cc_defs.specs.Clauses.{Literal};

    ghost Value = { Literal };

    ghost use Rattle.cc_defs.specs.LitCodes.{literal_of, IsCode, lit_of, lit_of-literal_of};

    ghost view = { literal_of };

    ghost invariant = { IsCode };

    ghost inverse = { lit_of };

    ghost inverse_ok = { lit_of-literal_of };
}

impl Lit {
    /// The positive literal of a variable.
    pub fn positive(variable: u32) -> Lit
        requires some { 1 ≤ variable }
        requires most { variable ≤ most_variables }
        ensures { result ≡ record { variable = variable; positive = true } }
    {
        Lit {
            code: 2 * variable + 1,
        }
    }

    /// The negative literal of a variable.
    pub fn negative(variable: u32) -> Lit
        requires some { 1 ≤ variable }
        requires most { variable ≤ most_variables }
        ensures { result ≡ record { variable = variable; positive = false } }
    {
        Lit { code: 2 * variable }
    }

    /// The variable, from 1.
    pub fn variable(self) -> u32
        ensures { result ≡ self.variable }
    {
        self.code / 2
    }

    /// Whether the literal is the variable, and not its negation.
    pub fn is_positive(self) -> bool
        ensures { result ≡ self.positive }
    {
        self.code % 2 == 1
    }

    /// The literal of the same variable in the other sign.
    pub fn opposite(self) -> Lit
        ensures { result ≡ record self { positive = not self.positive } }
    {
        Lit {
            code: self.code ^ 1,
        }
    }
}
