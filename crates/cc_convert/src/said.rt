//! The lines of a log that was accepted.
ghost use Rattle.std.specs.Prelude.{◌≡◌, ◌++◌, ◌↔◌, ℕ, List, IfOk};
ghost use Rattle.cc_defs.specs.declared.log.LogLine.{LogLine as Line};
ghost use Rattle.cc_defs.specs.declared.log.LogLine.TheVariants as lines;
ghost use Rattle.cc_defs.specs.declared.log.Version.{Version as Written};
ghost use Rattle.cc_defs.specs.declared.log.Version.TheVariants as versions;
ghost use Rattle.cc_defs.specs.LogTexts.{IsFormed, IsLine, line_text};
ghost use Rattle.cc_defs.specs.LogBytes.{binary_header, entry_bytes, line_behind};
ghost use Rattle.cc_defs.specs.LogVersions.{header_of, line_bytes};
ghost use Rattle.cc_convert.specs.Saying.{IsOverMost, IsSayableAt};

use crate::held::line_of;
use cc_check::{Heading, first_line, heading_in, heading_of, read_entry, read_line};
use cc_defs::{LogLine, OutOfMemory, Version};
use std::alloc::Global;

// The first bytes of a log of version 2.
const BINARY_HEADER: &[u8] = b"ccalclg2";

/// The version of a log, by its first eight bytes: the second exactly where they are those of version 2.
pub fn version_of(bytes: &[u8]) -> Version
    ensures second { (result ≡ versions.Second)
        ↔ ((rest : List ℕ) × (bytes.now ≡ binary_header ++ rest)) }
    ensures of { (version : Written) (rest : List ℕ) →
        bytes.now ≡ header_of version ++ rest → result ≡ version }
{
    match bytes.strip_prefix(BINARY_HEADER) {
        Some(_) => Version::Second,
        None => Version::First,
    }
}

/// What stands behind the header of a log of a version.
pub fn behind_header(version: Version, bytes: &[u8]) -> &[u8]
    requires { (rest : List ℕ) × (bytes.now ≡ header_of version ++ rest) }
    ensures { (rest : List ℕ) → bytes.now ≡ header_of version ++ rest → result.now ≡ rest }
{
    match version {
        Version::First => bytes.split_at(12).1,
        Version::Second => bytes.split_at(8).1,
    }
}

fn section_of(heading: Heading) -> LogLine
    ensures { result ≡ lines.Section heading.conditions heading.horizon }
{
    LogLine::Section {
        conditions: heading.conditions,
        horizon: heading.horizon,
    }
}

// The line that a text of version 1 is, its line feed included.
fn text_line(alloc: Global, text: &[u8]) -> Result<LogLine, OutOfMemory>
    requires { (line : Line) × IsLine text.now line × IsOverMost line }
    ensures { (line : Line) →
        IsLine text.now line → IsOverMost line → IfOk result (λ found. found ≡ line) }
{
    if let Some(heading) = heading_of(text) {
        return Ok(section_of(heading));
    }
    match read_line(text) {
        Some(line) => line_of(alloc, Version::First, 0, &line),
        None => unreachable!(),
    }
}

// The first line of bytes of version 1, and what stands behind it.
fn said_text<'b>(alloc: Global, bytes: &'b [u8]) -> Result<(LogLine, &'b [u8]), OutOfMemory>
    requires { (line : Line)
        × (rest : List ℕ) × IsFormed line × IsOverMost line × (bytes.now ≡ line_text line ++ rest) }
    ensures { (line : Line) (rest : List ℕ) → IsFormed line → IsOverMost line → bytes.now
        ≡ line_text line ++ rest → IfOk result (λ found. (found.0 ≡ line) × (found.1.now ≡ rest)) }
{
    let (text, rest) = first_line(bytes);
    let line = text_line(alloc, text)?;
    Ok((line, rest))
}

// The first line of bytes of version 2, and what stands behind it.
fn said_entry<'b>(
    alloc: Global,
    own: u32,
    bytes: &'b [u8],
) -> Result<(LogLine, &'b [u8]), OutOfMemory>
    requires { (line : Line) × (rest : List ℕ)
        × IsSayableAt own line × (bytes.now ≡ entry_bytes (line_behind own line) ++ rest) }
    ensures { (line : Line) (rest : List ℕ) →
        IsSayableAt own line → bytes.now ≡ entry_bytes (line_behind own line) ++ rest →
        IfOk result (λ found. (found.0 ≡ line) × (found.1.now ≡ rest)) }
{
    if let Some((heading, rest)) = heading_in(bytes) {
        return Ok((section_of(heading), rest));
    }
    match read_entry(bytes) {
        Some((line, rest)) => {
            let said = line_of(alloc, Version::Second, own, &line)?;
            Ok((said, rest))
        }
        None => unreachable!(),
    }
}

/// The first line of bytes that are lines of a version, and what stands behind it. The own clause of the line has the number `own`.
pub fn said_line<'b>(
    alloc: Global,
    version: Version,
    own: u32,
    bytes: &'b [u8],
) -> Result<(LogLine, &'b [u8]), OutOfMemory>
    requires { (line : Line) × (rest : List ℕ)
        × IsSayableAt own line × (bytes.now ≡ line_bytes version own line ++ rest) }
    ensures { (line : Line) (rest : List ℕ) → IsSayableAt own line → bytes.now ≡ line_bytes
        version own line ++ rest → IfOk result (λ found. (found.0 ≡ line) × (found.1.now ≡ rest)) }
{
    match version {
        Version::First => said_text(alloc, bytes),
        Version::Second => said_entry(alloc, own, bytes),
    }
}
