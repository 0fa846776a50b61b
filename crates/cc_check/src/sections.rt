//! A log split into its sections.
ghost use Rattle.std.specs.Prelude.{◌≡◌, ◌+◌, ◌-◌, ◌≤◌, ◌<◌, List, length, take, IfOk, IfErr, IfSome};
ghost use Rattle.cc_defs.specs.declared.log.Version.TheVariants as versions;
ghost use Rattle.cc_defs.specs.Limits.{most_log_bytes};
ghost use Rattle.cc_defs.specs.Logs.{SectionText};
ghost use Rattle.cc_check.specs.declared.fault.CheckFault.TheVariants as faults;
ghost use Rattle.cc_check.specs.Parts.{AreSectionsBehind, AreSectionsOf, IsCut, IsInside, IsRefusal, IsRefusalBehind, IsSecond, IsSecondAt};
ghost use Rattle.cc_check.specs.SectionTexts.{AreAhead, HasAhead, IsAheadAt, IsAheadBehind, length_ahead};

use crate::CheckFault;
use crate::entry::{heading_in, read_entry};
use crate::front::read_text;
use crate::line::{Heading, heading_of, read_line};
use crate::text::first_line;
use cc_defs::{Cause, Version};
use std::alloc::Global;
use std::marker::Model;

// The first line of a log of version 1.
const HEADER: &[u8] = b"ccalc log 1\n";

// The first bytes of a log of version 2.
const BINARY_HEADER: &[u8] = b"ccalclg2";

// The lines of a section, how many they are, and the heading that follows, with what stands behind it.
#[derive(Clone, Copy)]
struct Inside<'b> {
    bytes: &'b [u8],
    count: u32,
    next: Option<(Heading, &'b [u8])>,
}

/// A section of a log: what its heading says, and the lines up to the next heading.
#[derive(Clone, Copy)]
pub struct Section<'b> {
    /// How its lines are written.
    pub version: Version,
    /// Whether it is the search for a path that meets the conditions of a query with a claim.
    pub conditions: bool,
    /// The horizon that its heading names.
    pub horizon: u32,
    /// The line of its heading in the log, from 1.
    pub line: u32,
    /// The bytes of its lines, up to the next heading.
    pub bytes: &'b [u8],
}

// The front of a text of which so many bytes are left.
pub(crate) fn ahead(text: &[u8], left: usize) -> &[u8]
    requires { left ≤ length text.now }
    ensures { result.now ≡ take (length text.now - left) text.now }
{
    text.split_at(text.len() - left).0
}

// The heading that the first line of bytes is, if it is one, and what stands behind that line.
fn cut_line(bytes: &[u8]) -> (Option<Heading>, &[u8])
    requires { 0 < length bytes.now }
    ensures { IsCut versions.First bytes.now result.0 result.1.now }
{
    let (text, rest) = first_line(bytes);
    (heading_of(text), rest)
}

// The heading that the first entry of bytes is, if it is one, and what stands behind that entry: nothing, where none stands there.
fn cut_entry(bytes: &[u8]) -> (Option<Heading>, &[u8])
    requires { 0 < length bytes.now }
    ensures { IsCut versions.Second bytes.now result.0 result.1.now }
{
    if let Some((heading, rest)) = heading_in(bytes) {
        return (Some(heading), rest);
    }
    match read_entry(bytes) {
        Some((_, rest)) => (None, rest),
        None => (None, &[]),
    }
}

// The heading that the first text of bytes is, if it is one, and what stands behind that text.
fn cut_text(version: Version, bytes: &[u8]) -> (Option<Heading>, &[u8])
    requires { 0 < length bytes.now }
    ensures { IsCut version bytes.now result.0 result.1.now }
{
    match version {
        Version::First => cut_line(bytes),
        Version::Second => cut_entry(bytes),
    }
}

// The lines up to the next heading.
fn inside_of(version: Version, all: &[u8]) -> Inside<'_>
    requires { length all.now ≤ most_log_bytes }
    ensures { IsInside version all.now result.bytes.now result.count result.next }
{
    let mut rest = all;
    let mut count = 0;
    while !rest.is_empty() {
        let (heading, behind) = cut_text(version, rest);
        if let Some(heading) = heading {
            let next = Some((heading, behind));
            let bytes = ahead(all, rest.len());
            return Inside { bytes, count, next };
        }
        count += 1;
        rest = behind;
    }
    let next = None;
    Inside {
        bytes: all,
        count,
        next,
    }
}

// What is wrong with a text of version 1 that stands where a heading has to.
pub(crate) fn second_cause(text: &[u8]) -> Cause
    ensures { IsSecond text.now result }
{
    match read_line(text) {
        None => Cause::Form,
        Some(_) => Cause::Section,
    }
}

// What is wrong with the first text of bytes, where a heading has to stand.
fn second_cause_at(version: Version, body: &[u8]) -> Cause
    requires { 0 < length body.now }
    ensures { IsSecondAt version body.now result }
{
    let (line, _) = read_text(version, body);
    match line {
        None => Cause::Form,
        Some(_) => Cause::Section,
    }
}

/// The sections of a log, read one after another: the heading that comes next is read, with the number of its line and what
/// stands behind it. It takes no memory between two sections.
#[derive(Drop)]
pub struct Sections<'b> {
    version: Version,
    line: u32,
    next: Option<(Heading, &'b [u8])>,
}

impl<'b> Model for Sections<'b> {
    ghost use Rattle.cc_check.specs.SectionTexts.{SectionsAhead};

    ghost Value = { SectionsAhead };

    ghost use Rattle.cc_check.specs.Parts.{ahead_view, AreAheadInside};

    ghost view = { ahead_view };

    ghost invariant = { AreAheadInside };
}

// The sections of the bytes behind a header.
fn read_behind(version: Version, body: &[u8]) -> Result<Sections<'_>, CheckFault>
    requires { length body.now ≤ 268435448 }
    ensures read { IfOk result (λ sections. AreSectionsBehind version body.now sections) }
    ensures refused { IfErr result (IsRefusalBehind version body.now) }
{
    if body.is_empty() {
        return Err(refused(2, Cause::Section));
    }
    let (heading, behind) = cut_text(version, body);
    let Some(heading) = heading else {
        let cause = second_cause_at(version, body);
        return Err(refused(2, cause));
    };
    Ok(Sections {
        version,
        line: 2,
        next: Some((heading, behind)),
    })
}

impl<'b> Sections<'b> {
    /// Reads the header of a log, which tells its version, and its first heading. Refuses a log without its header, or without a
    /// heading on its second line. In version 2 what begins with no entry is one line, to the end.
    pub fn read(alloc: Global, bytes: &'b [u8]) -> Result<Sections<'b>, CheckFault>
        requires { length bytes.now ≤ most_log_bytes }
        ensures read { IfOk result (λ sections. AreSectionsOf bytes.now sections) }
        ensures refused { IfErr result (IsRefusal bytes.now) }
    {
        // It takes no memory.
        let _ = alloc;
        if let Some(body) = bytes.strip_prefix(BINARY_HEADER) {
            return read_behind(Version::Second, body);
        }
        let Some(body) = bytes.strip_prefix(HEADER) else {
            return Err(refused(1, Cause::Header));
        };
        read_behind(Version::First, body)
    }

    /// Reads the section that comes next, up to the heading after it; a section is a part of the bytes. Nothing: none is left.
    /// It takes no memory.
    pub fn next(&mut self) -> Option<Section<'b>>
        ensures next { (all : List SectionText) → AreAhead self.old all →
            IsAheadBehind all result self.new }
        ensures shorter { IfSome result (λ _. length_ahead self.new < length_ahead self.old) }
        ensures few { IfSome result (λ section. length section.bytes.now ≤ most_log_bytes) }
        ensures line { IfSome result (λ section. section.line ≤ most_log_bytes + 1) }
    {
        let Some((heading, behind)) = self.next else {
            return None;
        };
        let inside = inside_of(self.version, behind);
        let section = Section {
            version: self.version,
            conditions: heading.conditions,
            horizon: heading.horizon,
            line: self.line,
            bytes: inside.bytes,
        };
        self.line = self.line + 1 + inside.count;
        self.next = inside.next;
        Some(section)
    }

    // The same sections, to be read another time.
    fn again(&self) -> Sections<'b>
        ensures same { result ≡ self.now }
        ensures there { (all : List SectionText) × AreAhead result all }
        ensures few { length_ahead result ≤ most_log_bytes + 1 }
    {
        Sections {
            version: self.version,
            line: self.line,
            next: self.next,
        }
    }

    /// How many sections are ahead. It reads the bytes that are ahead once, so its time is linear in them, and takes no memory.
    pub fn count(&self) -> usize
        ensures { (all : List SectionText) → AreAhead self.now all → result ≡ length all }
    {
        let mut rest = self.again();
        let mut count = 0;
        while let Some(_) = rest.next() {
            count += 1;
        }
        count
    }

    /// The section at a place among those that are ahead, from 0. It reads the bytes up to its end, so its time is linear in
    /// them, and takes no memory; a pass over all sections is made by `next`, which reads each of them once.
    pub fn section(&self, i: usize) -> Section<'b>
        requires { HasAhead self.now i }
        ensures section { (all : List SectionText) → AreAhead self.now all →
            IsAheadAt all i result }
        ensures few { length result.bytes.now ≤ most_log_bytes }
        ensures line { result.line ≤ most_log_bytes + 1 }
    {
        let mut rest = self.again();
        for _ in 0..i {
            let _ = rest.next();
        }
        match rest.next() {
            Some(section) => section,
            None => unreachable!(),
        }
    }
}

fn refused(line: u32, cause: Cause) -> CheckFault
    ensures { result ≡ faults.Refused line cause }
{
    CheckFault::Refused { line, cause }
}
