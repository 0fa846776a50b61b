//! Goes from token to token.
ghost use Rattle.std.specs.Prelude.{◌≡◌, ◌≤◌, ◌<◌, ◌+◌, ◌^◌, length, take, drop, MatchOption};
ghost use Rattle.std.specs.Str.{IsAscii};
ghost use Rattle.cc_defs.specs.Tokens.{counted, limit_of};
ghost use Rattle.cc_text.specs.Fronts.{IsFront, IsGapOf};
ghost use Rattle.cc_text.specs.Steps.{goes_in_gap, stays_inside, feed_of, Passes, PassesNone, IsStep};

use crate::classes::is_space_byte;
use crate::fronts::{Front, front_of};
use cc_defs::{LimitAt, Refusal, Token, TokenKind};

/// Space and comments: how many bytes, and how many lines end in them.
#[derive(Clone, Copy)]
struct Gap {
    length: usize,
    lines: u32,
}

/// What comes first in a text.
#[derive(Clone, Copy)]
pub(crate) enum Step<'s> {
    /// Space and comments up to the end.
    End,
    /// A token, and how many bytes there are up to its end.
    Goes(Token<'s>, usize),
    Stops(Refusal),
}

/// The bytes behind the first so many.
pub(crate) fn behind<'s>(bytes: &'s [u8], count: usize) -> &'s [u8]
    requires { count ≤ length bytes.now }
    ensures { result.now ≡ drop count bytes.now }
{
    &bytes[count..]
}

/// The first so many bytes.
fn ahead<'s>(bytes: &'s [u8], count: usize) -> &'s [u8]
    requires { count ≤ length bytes.now }
    ensures { result.now ≡ take count bytes.now }
{
    &bytes[..count]
}

fn goes_on(inside: bool, byte: u8) -> bool
    ensures { result ≡ goes_in_gap inside byte }
{
    inside || is_space_byte(byte) || byte == 37
}

fn is_inside_behind(inside: bool, byte: u8) -> bool
    ensures { result ≡ stays_inside inside byte }
{
    byte != 10 && (inside || byte == 37)
}

/// How many lines end with the byte.
fn lines_in(byte: u8) -> u32
    ensures { result ≡ feed_of byte }
{
    if byte == 10 { 1 } else { 0 }
}

/// Space and comments at the front of the bytes.
fn gap_of(bytes: &[u8]) -> Gap
    requires { length bytes.now < 2 ^ 31 }
    ensures { IsGapOf bytes.now result.length result.lines }
{
    let mut inside = false;
    let mut lines = 0;
    for (i, byte) in bytes.iter().enumerate() {
        if !goes_on(inside, *byte) {
            return Gap { length: i, lines };
        }
        inside = is_inside_behind(inside, *byte);
        lines += lines_in(*byte);
    }
    Gap {
        length: bytes.len(),
        lines,
    }
}

fn limit_for(kind: TokenKind) -> Option<LimitAt>
    ensures { result ≡ limit_of kind }
{
    match kind {
        TokenKind::Word | TokenKind::Quoted => Some(LimitAt::TokenBytes),
        TokenKind::Number => Some(LimitAt::NumberDigits),
        TokenKind::Mark(_) => None,
    }
}

/// How many of the bytes count towards the limit: the quotes do not.
fn counted_bytes(kind: TokenKind, text: &[u8]) -> usize
    ensures { result ≡ counted kind text.now }
{
    match kind {
        TokenKind::Word | TokenKind::Number => text.len(),
        TokenKind::Quoted => text.len().saturating_sub(2),
        TokenKind::Mark(_) => 0,
    }
}

/// The limit that a token of this kind with these bytes passes.
fn passed_limit(kind: TokenKind, text: &[u8]) -> Option<LimitAt>
    ensures { MatchOption result (PassesNone kind text.now) (Passes kind text.now) }
{
    match limit_for(kind) {
        None => None,
        Some(limit) => {
            if (limit.number() as usize) < counted_bytes(kind, text) {
                Some(limit)
            } else {
                None
            }
        }
    }
}

/// The bytes as text.
fn text_of<'s>(bytes: &'s [u8]) -> &'s str
    requires { IsAscii bytes.now }
    ensures { result.now ≡ bytes.now }
{
    match str::from_utf8(bytes) {
        Ok(text) => text,
        Err(_) => unreachable!(),
    }
}

/// What comes first in the text, whose first byte stands in the line.
pub(crate) fn step_of<'s>(file: u32, line: u32, text: &'s [u8]) -> Step<'s>
    requires { line + length text.now < 2 ^ 31 }
    ensures { IsStep file line text.now result }
{
    let gap = gap_of(text);
    if gap.length == text.len() {
        return Step::End;
    }
    let line = line + gap.lines;
    let rest = behind(text, gap.length);
    let Some(Front { kind, length }) = front_of(rest) else {
        return Step::Stops(Refusal::at(2, file, line));
    };
    let piece = ahead(rest, length);
    if let Some(limit) = passed_limit(kind, piece) {
        return Step::Stops(Refusal::past_at(limit, file, line));
    }
    Step::Goes(
        Token {
            kind,
            text: text_of(piece),
            line,
        },
        gap.length + length,
    )
}
