//! What no clause says of the lines of a section: that they are given while there is memory.
ghost use Rattle.std.specs.Prelude.{◌≡◌, ◌+◌, ◌≤◌, length};
ghost use Rattle.cc_defs.specs.Limits.{most_log_bytes};

use crate::silent::clauses_behind;
use cc_check::{Section, Verdict, check};
use cc_convert::{LogLines, lines_of, version_of};
use cc_defs::{EndWord, Fault, LogLine, Version};
use cc_form::Form;
use std::alloc::Global;

// The lines of a section, where it is right.
fn lines_over(alloc: Global, form: &Form, section: &Section<'_>) -> Result<Option<LogLines>, Fault>
    requires few { length section.now.bytes.now ≤ most_log_bytes }
    requires line { section.now.line ≤ most_log_bytes + 1 }
{
    match check(alloc, form, section)? {
        Verdict::Right { .. } => Ok(Some(lines_of(alloc, form, section)?)),
        Verdict::Refused { .. } => Ok(None),
    }
}

// Over two clauses, whose resolvent on variable 1 is empty.
fn lines(alloc: Global, version: Version, bytes: &[u8]) -> Result<Option<LogLines>, Fault>
    requires { length bytes.now ≤ 100 }
{
    let form = clauses_behind(alloc)?;
    let section = Section {
        version,
        conditions: false,
        horizon: 0,
        line: 2,
        bytes,
    };
    lines_over(alloc, &form, &section)
}

fn is_heading(line: &LogLine) -> bool {
    match line {
        LogLine::Section {
            conditions,
            horizon,
        } => !*conditions && *horizon == 0,
        LogLine::Derived { .. } | LogLine::Block { .. } | LogLine::End(_) => false,
    }
}

// Whether a line derives the empty clause along this chain.
fn refutes_along(line: &LogLine, numbers: &[u32]) -> bool {
    match line {
        LogLine::Derived { clause, chain } => {
            clause.items().is_empty() && chain.items() == numbers
        }
        LogLine::Section { .. } | LogLine::Block { .. } | LogLine::End(_) => false,
    }
}

fn is_end(line: &LogLine) -> bool {
    match line {
        LogLine::End(word) => *word == EndWord::Empty,
        LogLine::Section { .. } | LogLine::Derived { .. } | LogLine::Block { .. } => false,
    }
}

fn are_three(lines: &[LogLine]) -> bool {
    lines.len() == 3
        && is_heading(&lines[0])
        && refutes_along(&lines[1], &[1, 1, 2])
        && is_end(&lines[2])
}

// The same lines in both versions.
const TEXT: &[u8] = b"d 0 1 1 2 0\ne empty\n";

const ENTRIES: &[u8] = b"\x03\x00\x01\x02\x01\x01\x05";

#[test]
fn lines_of_a_right_section_are_given(rt: HostRuntime) {
    for (version, bytes) in [(Version::First, TEXT), (Version::Second, ENTRIES)] {
        if bytes.len() <= 100 {
            match lines(rt.alloc(), version, bytes) {
                Ok(Some(lines)) => assert!(rt; are_three(lines.items())),
                Ok(None) | Err(_) => assert!(rt; false),
            }
        }
    }
}

#[test]
fn the_first_eight_bytes_tell_the_version(rt: HostRuntime) {
    assert!(rt; version_of(b"ccalclg2") == Version::Second);
    assert!(rt; version_of(b"ccalclg") == Version::First);
    assert!(rt; version_of(b"") == Version::First);
}
