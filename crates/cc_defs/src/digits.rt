//! Numbers that decimal digits spell.
ghost use Rattle.std.specs.Prelude.{◌≡◌, ◌≤◌, IsTrue, length};
ghost use Rattle.std.specs.List.{list_all};
ghost use Rattle.cc_defs.specs.Grammar.{number_of};
ghost use Rattle.cc_defs.specs.Tokens.{is_digit, is_number};

/// Whether a byte is a decimal digit.
pub fn is_digit_byte(byte: u8) -> bool
    ensures { result ≡ is_digit byte }
{
    48 <= byte && byte <= 57
}

/// Whether all of the bytes are decimal digits.
fn are_digits(text: &[u8]) -> bool
    ensures { result ≡ list_all is_digit text.now }
{
    text.iter().all(|byte| is_digit_byte(*byte))
}

/// Whether a text is one or more decimal digits.
pub fn is_numeral(text: &[u8]) -> bool
    ensures { result ≡ is_number text.now }
{
    match text {
        [] => false,
        [first, others @ ..] => is_digit_byte(*first) && are_digits(others),
    }
}

/// The number that one to nine decimal digits spell, leading zeros included. It is less than a billion.
pub fn number_of_digits(digits: &str) -> u32
    requires digits { IsTrue (is_number digits.now) }
    requires few { length digits.now ≤ 9 }
    ensures { result ≡ number_of digits.now }
{
    match digits.parse::<u32>() {
        Ok(number) => number,
        Err(_) => unreachable!(),
    }
}
