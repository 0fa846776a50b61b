//! Numbers and literals at the front of a text.
ghost use Rattle.std.specs.Prelude.{◌≡◌, ℕ, ◌<◌, List, false, MatchOption};
ghost use Rattle.cc_log.specs.Fronts.{IsNumberAt, HasNoNumber, IsSignedAt, HasNoSigned};

use cc_defs::is_digit_byte;
use std::marker::Model;

/// A literal as a line names it: its variable has at most nine digits, and may be past the last.
#[derive(Clone, Copy)]
pub struct Named {
    pub variable: u32,
    pub positive: bool,
}

impl Model for Named {
    ghost use Rattle.cc_defs.specs.Clauses.{Literal};

    ghost Value = { Literal };

    ghost view = { λ named. record { variable = named.variable; positive = named.positive } };

    ghost inverse = { λ literal.
        record { variable = literal.variable; positive = literal.positive } };
}

impl Named {
    pub(crate) fn variable(self) -> u32
        ensures { result ≡ self.variable }
    {
        self.variable
    }

    pub(crate) fn is_positive(self) -> bool
        ensures { result ≡ self.positive }
    {
        self.positive
    }
}

/// The number of at most nine digits, with no zero before another digit, that a text begins with, and what stands
/// behind it.
pub fn number_at(bytes: &[u8]) -> Option<(u32, &[u8])>
    ensures { MatchOption result
        (HasNoNumber bytes.now) (λ read. IsNumberAt bytes.now read.0 read.1.now) }
{
    let [first, behind @ ..] = bytes else {
        return None;
    };
    if !is_digit_byte(*first) {
        return None;
    }
    let mut number = u32::from(*first - 48);
    let mut rest = behind;
    while let [digit, others @ ..] = rest {
        if !is_digit_byte(*digit) {
            break;
        }
        if number == 0 || number > 99_999_999 {
            return None;
        }
        number = 10 * number + u32::from(*digit - 48);
        rest = others;
    }
    Some((number, rest))
}

/// The literal that a text begins with, or the number 0 as one that is positive: its variable and whether it is positive,
/// and what stands behind it.
pub(crate) fn signed_at(bytes: &[u8]) -> Option<(u32, bool, &[u8])>
    ensures { MatchOption result (HasNoSigned bytes.now) (λ read.
        IsSignedAt bytes.now (record { variable = read.0; positive = read.1 }) read.2.now) }
{
    let [first, behind @ ..] = bytes else {
        return None;
    };
    if *first == b'-' {
        return negative_at(behind);
    }
    match number_at(bytes) {
        Some((variable, rest)) => Some((variable, true, rest)),
        None => None,
    }
}

// The negative literal whose variable a text begins with.
fn negative_at(bytes: &[u8]) -> Option<(u32, bool, &[u8])>
    ensures { MatchOption result ((number : ℕ) (rest : List ℕ) →
        0 < number → IsNumberAt bytes.now number rest →
        ⊥) (λ read. (read.1 ≡ false) × (0 < read.0) × IsNumberAt bytes.now read.0 read.2.now) }
{
    let (variable, rest) = number_at(bytes)?;
    if variable == 0 {
        return None;
    }
    Some((variable, false, rest))
}
