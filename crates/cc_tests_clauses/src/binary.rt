//! Logs of version 2: how they are split, and what is found of their sections.
ghost use Rattle.std.specs.Prelude.{◌≤◌, length};

use crate::check::{is_at, is_last, no_clauses};
use crate::silent::clauses_behind;
use cc_check::{CheckFault, Finding, Section, Sections, find};
use cc_defs::{Cause, EndWord, Fault, Version};
use cc_form::Form;
use std::alloc::Global;
use std::test::Fail;

// The lines `w 0`, `d 0 1 2 3 0`, `e empty`, `h 0`, `b 0 1` and `e empty`, and an entry that is cut.
const LOG: &[u8] =
    b"ccalclg2\x02\x00\x03\x00\x01\x02\x02\x00\x05\x01\x00\x04\x02\x00\x01\x05\x03\x01";

// Whether a section comes next, is at this line, and has these bytes.
fn is_next(sections: &mut Sections<'_>, conditions: bool, line: u32, bytes: &[u8]) -> bool {
    match sections.next() {
        Some(section) => {
            is_at(&section, conditions, line)
                && section.version == Version::Second
                && section.bytes == bytes
        }
        None => false,
    }
}

#[test]
fn logs_are_split(rt: HostRuntime) -> Result<(), Fail> {
    if LOG.len() <= 1000 {
        match Sections::read(rt.alloc(), LOG) {
            Ok(mut sections) => {
                assert!(rt; is_next(&mut sections, true, 2, &LOG[10..17]));
                assert!(rt; is_next(&mut sections, false, 5, &LOG[19..]));
                assert!(rt; is_last(&mut sections));
            }
            Err(_) => assert!(rt; false),
        }
    }
    Ok(())
}

#[test]
fn logs_are_misread(rt: HostRuntime) {
    for (bytes, line, cause) in [
        (b"ccalclg".as_slice(), 1, Cause::Header),
        (b"ccalclg2".as_slice(), 2, Cause::Section),
        (b"ccalclg2\x08".as_slice(), 2, Cause::Form),
        (b"ccalclg2\x01".as_slice(), 2, Cause::Form),
        (b"ccalclg2\x05\x01\x00".as_slice(), 2, Cause::Section),
    ] {
        if bytes.len() <= 1000 {
            match Sections::read(rt.alloc(), bytes) {
                Ok(_) => assert!(rt; false),
                Err(fault) => assert!(rt; fault == CheckFault::Refused { line, cause }),
            }
        }
    }
}

fn found_over(alloc: Global, form: &Form, bytes: &[u8]) -> Result<Finding, Fault>
    requires { length bytes.now ≤ 100 }
{
    let section = Section {
        version: Version::Second,
        conditions: false,
        horizon: 0,
        line: 2,
        bytes,
    };
    Ok(find(alloc, form, &section)?)
}

// Over the one clause of a query that asks nothing.
fn found(alloc: Global, bytes: &[u8]) -> Result<Finding, Fault>
    requires { length bytes.now ≤ 100 }
{
    let form = no_clauses(alloc)?;
    found_over(alloc, &form, bytes)
}

// Over two clauses, whose resolvent on variable 1 is empty.
fn found_behind(alloc: Global, bytes: &[u8]) -> Result<Finding, Fault>
    requires { length bytes.now ≤ 100 }
{
    let form = clauses_behind(alloc)?;
    found_over(alloc, &form, bytes)
}

#[test]
fn wrong_lines_are_found(rt: HostRuntime) {
    for (bytes, line, cause) in [
        (b"".as_slice(), 3, Cause::Section),
        (b"\x04".as_slice(), 3, Cause::Form),
        (b"\x03\x00\x00\x00".as_slice(), 3, Cause::Number),
        (b"\x03\x00\x00\x01".as_slice(), 3, Cause::Clause),
        (b"\x03\x00\x00\x02".as_slice(), 3, Cause::Number),
        (b"\x03\x00\x00\x7f".as_slice(), 3, Cause::Number),
        (b"\x04\x00\x06".as_slice(), 4, Cause::Section),
    ] {
        if bytes.len() <= 100 {
            match found(rt.alloc(), bytes) {
                Ok(finding) => assert!(rt; finding == Finding::Wrong { line, cause }),
                Err(_) => assert!(rt; false),
            }
        }
    }
}

#[test]
fn what_stands_behind_an_end_is_found(rt: HostRuntime) {
    for (bytes, cause) in [
        (b"\x06\x09\x01".as_slice(), Cause::Form),
        (b"\x06\x05".as_slice(), Cause::Section),
    ] {
        if bytes.len() <= 100 {
            let trailed = Finding::Trailed {
                ending: EndWord::Found,
                line: 3,
                cause,
            };
            match found(rt.alloc(), bytes) {
                Ok(finding) => assert!(rt; finding == trailed),
                Err(_) => assert!(rt; false),
            }
        }
    }
}

// The chain `1 1 2` of clause 3.
const DERIVED: &[u8] = b"\x03\x00\x01\x02\x01\x01\x05";

#[test]
fn clauses_are_named_by_distances(rt: HostRuntime) {
    let right = Finding::Right {
        ending: EndWord::Empty,
        blocks: 0,
        line: 4,
    };
    if DERIVED.len() <= 100 {
        match found_behind(rt.alloc(), DERIVED) {
            Ok(finding) => assert!(rt; finding == right),
            Err(_) => assert!(rt; false),
        }
    }
}
