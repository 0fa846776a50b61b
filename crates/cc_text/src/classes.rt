//! Kinds of bytes, and how far bytes of one kind go on.
ghost use Rattle.std.specs.Prelude.{◌≡◌};
ghost use Rattle.cc_defs.specs.Tokens.{is_space, is_letter, is_digit, is_word_byte, is_quotable};
ghost use Rattle.cc_text.specs.Fronts.{IsRun};

use cc_defs::is_digit_byte;

pub(crate) fn is_space_byte(byte: u8) -> bool
    ensures { result ≡ is_space byte }
{
    byte == 32 || byte == 9 || byte == 13 || byte == 10
}

pub(crate) fn is_letter_byte(byte: u8) -> bool
    ensures { result ≡ is_letter byte }
{
    97 <= byte && byte <= 122 || 65 <= byte && byte <= 90
}

/// A letter, a digit or `_`.
fn is_byte_of_word(byte: u8) -> bool
    ensures { result ≡ is_word_byte byte }
{
    is_letter_byte(byte) || is_digit_byte(byte) || byte == 95
}

/// A printable byte other than the quote.
fn is_byte_of_quoted(byte: u8) -> bool
    ensures { result ≡ is_quotable byte }
{
    32 <= byte && byte <= 126 && byte != 39
}

/// How many bytes of words stand at the front.
pub(crate) fn run_of_word(bytes: &[u8]) -> usize
    ensures { IsRun is_word_byte bytes.now result }
{
    for (i, byte) in bytes.iter().enumerate() {
        if !is_byte_of_word(*byte) {
            return i;
        }
    }
    bytes.len()
}

/// How many digits stand at the front.
pub(crate) fn run_of_digits(bytes: &[u8]) -> usize
    ensures { IsRun is_digit bytes.now result }
{
    for (i, byte) in bytes.iter().enumerate() {
        if !is_digit_byte(*byte) {
            return i;
        }
    }
    bytes.len()
}

/// How many printable bytes other than the quote stand at the front.
pub(crate) fn run_of_quoted(bytes: &[u8]) -> usize
    ensures { IsRun is_quotable bytes.now result }
{
    for (i, byte) in bytes.iter().enumerate() {
        if !is_byte_of_quoted(*byte) {
            return i;
        }
    }
    bytes.len()
}
