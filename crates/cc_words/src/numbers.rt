//! Numbers, and versions of logs.
ghost use Rattle.std.specs.Prelude.{◌≡◌};
ghost use Rattle.cc_words.specs.Requests.{number_from_zero, number_up_to, optional, version_named};
ghost use Rattle.cc_words.specs.Views.{plain_text};

use cc_defs::{Version, is_numeral, number_of_digits};

/// The number from 1 to `most` that one to seven digits spell.
pub(crate) fn up_to(most: u32, text: &str) -> Option<u32>
    ensures { result ≡ number_up_to most text.now }
{
    if !is_numeral(text.as_bytes()) || text.len() > 7 {
        return None;
    }
    let number = number_of_digits(text);
    if 1 <= number && number <= most {
        Some(number)
    } else {
        None
    }
}

/// The same of a value that may be left out.
pub(crate) fn optional_up_to(most: u32, text: Option<&str>) -> Option<Option<u32>>
    ensures { result ≡ optional (number_up_to most) (plain_text text.entry) }
{
    match text {
        None => Some(None),
        Some(text) => Some(Some(up_to(most, text)?)),
    }
}

/// The number that one to seven digits spell.
pub(crate) fn from_zero(text: &str) -> Option<u32>
    ensures { result ≡ number_from_zero text.now }
{
    if !is_numeral(text.as_bytes()) || text.len() > 7 {
        return None;
    }
    Some(number_of_digits(text))
}

/// The version of a log that a digit names.
fn version(text: &str) -> Option<Version>
    ensures { result ≡ version_named text.now }
{
    match text {
        "1" => Some(Version::First),
        "2" => Some(Version::Second),
        _ => None,
    }
}

/// The same of a value that may be left out.
pub(crate) fn optional_version(text: Option<&str>) -> Option<Option<Version>>
    ensures { result ≡ optional version_named (plain_text text.entry) }
{
    match text {
        None => Some(None),
        Some(text) => Some(Some(version(text)?)),
    }
}
