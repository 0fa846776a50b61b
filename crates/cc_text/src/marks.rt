//! Marks by their bytes.
ghost use Rattle.std.specs.Prelude.{◌≡◌, ◌∷◌, []};
ghost use Rattle.cc_defs.specs.Tokens.{mark_of};

use cc_defs::Mark;

/// The mark of one byte.
pub(crate) fn mark_of_one(a: u8) -> Option<Mark>
    ensures { result ≡ mark_of (a ∷ []) }
{
    match a {
        b':' => Some(Mark::Colon),
        b';' => Some(Mark::Semicolon),
        b',' => Some(Mark::Comma),
        b'.' => Some(Mark::Dot),
        b'(' => Some(Mark::LeftParen),
        b')' => Some(Mark::RightParen),
        b'[' => Some(Mark::LeftBracket),
        b']' => Some(Mark::RightBracket),
        b'|' => Some(Mark::Bar),
        b'&' => Some(Mark::And),
        b'+' => Some(Mark::Plus),
        b'-' => Some(Mark::Minus),
        b'<' => Some(Mark::Less),
        b'=' => Some(Mark::Equal),
        b'>' => Some(Mark::More),
        _ => None,
    }
}

/// The mark of two bytes.
pub(crate) fn mark_of_two(a: u8, b: u8) -> Option<Mark>
    ensures { result ≡ mark_of (a ∷ b ∷ []) }
{
    match (a, b) {
        (b':', b'-') => Some(Mark::Turn),
        (b':', b':') => Some(Mark::DoubleColon),
        (b'.', b'.') => Some(Mark::DotDot),
        (b'/', b'\\') => Some(Mark::AllSign),
        (b'\\', b'/') => Some(Mark::AnySign),
        (b'\\', b'=') => Some(Mark::NotEqual),
        (b'+', b'+') => Some(Mark::Or),
        (b'=', b'<') => Some(Mark::AtMost),
        (b'>', b'>') => Some(Mark::Above),
        (b'>', b'=') => Some(Mark::AtLeast),
        _ => None,
    }
}

/// The mark of three bytes.
pub(crate) fn mark_of_three(a: u8, b: u8, c: u8) -> Option<Mark>
    ensures { result ≡ mark_of (a ∷ b ∷ c ∷ []) }
{
    match (a, b, c) {
        (b'-', b'>', b'>') => Some(Mark::Arrow),
        (b'<', b'-', b'>') => Some(Mark::DoubleArrow),
        _ => None,
    }
}
