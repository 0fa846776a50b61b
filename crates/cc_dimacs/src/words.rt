//! The words of a line, and the numbers and literals that they spell.
ghost use Rattle.std.specs.Prelude.{◌≡◌, ◌<◌, ◌≤◌, ◌↔◌, ◌∷◌, [], MatchOption, IsTrue, length};
ghost use Rattle.cc_dimacs.specs.CnfTexts.{is_space, words_in};
ghost use Rattle.cc_dimacs.specs.Reading.{BeginWith, BeginWithNone, BeginWithNumber, BeginsBare, IsFirstWord, named_of, negative_of, number_of, positive_of};

use cc_defs::is_digit_byte;
use std::marker::Model;

/// A literal as a text names it: its variable has at most nine digits, and may be past the last. The 0 behind a clause is one
/// of variable 0.
#[derive(Clone, Copy)]
pub(crate) struct Named {
    pub(crate) variable: u32,
    pub(crate) positive: bool,
}

impl Model for Named {
    ghost use Rattle.cc_defs.specs.Clauses.{Literal};

    ghost Value = { Literal };

    ghost view = { λ named. record { variable = named.variable; positive = named.positive } };

    ghost inverse = { λ literal.
        record { variable = literal.variable; positive = literal.positive } };
}

impl Named {
    pub(crate) fn variable(self) -> u32
        ensures { result ≡ self.variable }
    {
        self.variable
    }

    pub(crate) fn is_positive(self) -> bool
        ensures { result ≡ self.positive }
    {
        self.positive
    }
}

fn is_space_byte(byte: u8) -> bool
    ensures { result ≡ is_space byte }
{
    byte == 32 || (byte == 9 || (byte == 13 || byte == 10))
}

/// A line without the spaces in front.
fn without_spaces(line: &[u8]) -> &[u8]
    ensures words { words_in result.now ≡ words_in line.now }
    ensures begins { BeginsBare result.now }
    ensures within { length result.now ≤ length line.now }
{
    let mut rest = line;
    while let [byte, others @ ..] = rest {
        if !is_space_byte(*byte) {
            break;
        }
        rest = others;
    }
    rest
}

/// The word that a text begins with, and what stands behind it.
fn cut_word(text: &[u8]) -> (&[u8], &[u8])
    requires some { 0 < length text.now }
    requires begins { BeginsBare text.now }
    ensures words { words_in text.now ≡ result.0.now ∷ words_in result.1.now }
    ensures shorter { length result.1.now < length text.now }
{
    for (i, byte) in text.iter().enumerate() {
        if is_space_byte(*byte) {
            return text.split_at(i);
        }
    }
    text.split_at(text.len())
}

/// The first word of a line, and what stands behind it.
pub(crate) fn next_word(line: &[u8]) -> Option<(&[u8], &[u8])>
    ensures { MatchOption result (words_in line.now ≡ []) (λ word.
        IsFirstWord line.now word.0.now word.1.now) }
{
    let text = without_spaces(line);
    if text.is_empty() {
        return None;
    }
    Some(cut_word(text))
}

/// The number that a word spells: one to nine digits, with no zero before another digit.
fn number_in(word: &[u8]) -> Option<u32>
    ensures { result ≡ number_of word.now }
{
    let [first, behind @ ..] = word else {
        return None;
    };
    if !is_digit_byte(*first) {
        return None;
    }
    let mut number = u32::from(*first - 48);
    let mut rest = behind;
    while let [digit, others @ ..] = rest {
        if !is_digit_byte(*digit) || number == 0 || number > 99_999_999 {
            return None;
        }
        number = 10 * number + u32::from(*digit - 48);
        rest = others;
    }
    Some(number)
}

fn positive(number: Option<u32>) -> Option<Named>
    ensures { result ≡ positive_of number }
{
    match number {
        None => None,
        Some(variable) => Some(Named {
            variable,
            positive: true,
        }),
    }
}

fn negative(number: Option<u32>) -> Option<Named>
    ensures { result ≡ negative_of number }
{
    match number {
        None | Some(0) => None,
        Some(variable) => Some(Named {
            variable,
            positive: false,
        }),
    }
}

/// The literal that a word spells, a negation with a hyphen, or the 0 behind a clause.
pub(crate) fn named_in(word: &[u8]) -> Option<Named>
    ensures { result ≡ named_of word.now }
{
    match word {
        [b'-', digits @ ..] => negative(number_in(digits)),
        _ => positive(number_in(word)),
    }
}

/// What stands behind the first word of a line, where it is this one.
pub(crate) fn behind_word<'t>(line: &'t [u8], expected: &[u8]) -> Option<&'t [u8]>
    ensures { MatchOption result (BeginWith expected.now (words_in line.now) → ⊥) (λ rest.
        words_in line.now ≡ expected.now ∷ words_in rest.now) }
{
    let (word, rest) = next_word(line)?;
    if word == expected { Some(rest) } else { None }
}

/// The number that the first word of a line spells, and what stands behind it.
pub(crate) fn behind_number(line: &[u8]) -> Option<(u32, &[u8])>
    ensures { MatchOption result (BeginWithNone line.now) (λ read.
        BeginWithNumber line.now read.0 read.1.now) }
{
    let (word, rest) = next_word(line)?;
    let number = number_in(word)?;
    Some((number, rest))
}

/// Whether a line has no words.
pub(crate) fn is_blank(line: &[u8]) -> bool
    ensures { IsTrue result ↔ (words_in line.now ≡ []) }
{
    next_word(line).is_none()
}
