//! The longest token at the front of a text.
ghost use Rattle.std.specs.Prelude.{◌≡◌, ◌+◌, ◌<◌, ◌^◌, ◌∷◌, length, MatchOption};
ghost use Rattle.cc_defs.specs.Tokens.{is_letter, is_digit};
ghost use Rattle.cc_defs.specs.declared.token.TokenKind.TheVariants as kinds;
ghost use Rattle.cc_text.specs.Fronts.{IsFront, NoFront, IsMarkFront, NoMark, IsQuotedFront, NoQuoted};

use crate::classes::{is_letter_byte, run_of_digits, run_of_quoted, run_of_word};
use crate::marks::{mark_of_one, mark_of_three, mark_of_two};
use cc_defs::{Mark, TokenKind, is_digit_byte};

/// The token at the front of a text: what it is, and how many bytes it has.
#[derive(Clone, Copy)]
pub(crate) struct Front {
    pub(crate) kind: TokenKind,
    pub(crate) length: usize,
}

/// The longest mark at the front, and how many bytes it has.
fn mark_front(bytes: &[u8]) -> Option<(Mark, usize)>
    ensures { MatchOption result
        (NoMark bytes.now) (λ found. IsMarkFront bytes.now found.0 found.1) }
{
    if let [a, b, c, ..] = bytes {
        if let Some(mark) = mark_of_three(*a, *b, *c) {
            return Some((mark, 3));
        }
    }
    if let [a, b, ..] = bytes {
        if let Some(mark) = mark_of_two(*a, *b) {
            return Some((mark, 2));
        }
    }
    if let [a, ..] = bytes {
        if let Some(mark) = mark_of_one(*a) {
            return Some((mark, 1));
        }
    }
    None
}

/// How many bytes the quoted name has whose opening quote stands before the bytes, without that quote.
fn quoted_front(bytes: &[u8]) -> Option<usize>
    requires { length bytes.now < 2 ^ 31 }
    ensures { MatchOption result (NoQuoted bytes.now) (IsQuotedFront bytes.now) }
{
    let run = run_of_quoted(bytes);
    if 0 < run && run < bytes.len() && bytes[run] == 39 {
        return Some(run + 1);
    }
    None
}

/// The longest token at the front.
pub(crate) fn front_of(bytes: &[u8]) -> Option<Front>
    requires { length bytes.now < 2 ^ 31 }
    ensures { MatchOption result (NoFront bytes.now) (λ found.
        IsFront bytes.now found.kind found.length) }
{
    let [first, more @ ..] = bytes else {
        return None;
    };
    if is_letter_byte(*first) {
        return Some(Front {
            kind: TokenKind::Word,
            length: run_of_word(more) + 1,
        });
    }
    if is_digit_byte(*first) {
        return Some(Front {
            kind: TokenKind::Number,
            length: run_of_digits(more) + 1,
        });
    }
    if *first == 39 {
        return match quoted_front(more) {
            Some(length) => Some(Front {
                kind: TokenKind::Quoted,
                length: length + 1,
            }),
            None => None,
        };
    }
    match mark_front(bytes) {
        Some((mark, length)) => Some(Front {
            kind: TokenKind::Mark(mark),
            length,
        }),
        None => None,
    }
}
