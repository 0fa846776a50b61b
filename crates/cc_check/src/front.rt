//! The first line of bytes, read in either version of a log.
ghost use Rattle.std.specs.Prelude.{◌<◌, length};
ghost use Rattle.cc_defs.specs.declared.log.Version.TheVariants as versions;
ghost use Rattle.cc_check.specs.Reading.{IsFirstRead};

use crate::entry::read_entry;
use crate::line::{LineParts, read_line};
use crate::text::first_line;
use cc_defs::Version;

// The line of version 1 at the front of bytes.
fn read_first_line(bytes: &[u8]) -> (Option<LineParts<'_>>, &[u8])
    requires { 0 < length bytes.now }
    ensures { IsFirstRead versions.First bytes.now result.0 result.1.now }
{
    let (text, rest) = first_line(bytes);
    (read_line(text), rest)
}

// The entry of version 2 at the front of bytes. Where none stands there, all of them are one text that is no line.
fn read_first_entry(bytes: &[u8]) -> (Option<LineParts<'_>>, &[u8])
    requires { 0 < length bytes.now }
    ensures { IsFirstRead versions.Second bytes.now result.0 result.1.now }
{
    match read_entry(bytes) {
        Some((line, rest)) => (Some(line), rest),
        None => (None, &[]),
    }
}

/// The line at the front of bytes that are not empty, and what stands behind it. Nothing: a text stands there that is no line.
pub(crate) fn read_text(version: Version, bytes: &[u8]) -> (Option<LineParts<'_>>, &[u8])
    requires { 0 < length bytes.now }
    ensures { IsFirstRead version bytes.now result.0 result.1.now }
{
    match version {
        Version::First => read_first_line(bytes),
        Version::Second => read_first_entry(bytes),
    }
}
