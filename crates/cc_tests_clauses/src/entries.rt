//! A line of version 2 of a log, in bytes both ways.
ghost use Rattle.std.specs.Prelude.{IfOk};
ghost use Rattle.cc_defs.specs.LogTexts.{IsFormed};
ghost use Rattle.cc_log.specs.Entries.{HasShortLists, NamesBefore};

use cc_check::{Kind, LineParts, read_entry};
use cc_defs::{Lits, LogLine, Nums, OutOfMemory};
use cc_log::put_binary;
use std::alloc::Global;
use std::test::Fail;

const ENTRY: [u8; 18] = [3, 0, 7, 1, 1, 27, 2, 3, 4, 15, 10, 6, 9, 17, 2, 3, 6, 2];

// The line `d 0 28 1 2 2 26 4 14 10 23 9 12 2 26 6 27 0`.
fn line(alloc: Global) -> Result<LogLine, OutOfMemory>
    ensures { IfOk result (λ line. IsFormed line × HasShortLists line × NamesBefore 29 line) }
{
    let chain = Vec::from_slice(
        alloc,
        &[28, 1, 2, 2, 26, 4, 14, 10, 23, 9, 12, 2, 26, 6, 27],
    )?;
    Ok(LogLine::Derived {
        clause: Lits::of(Vec::new(alloc)),
        chain: Nums::of(chain),
    })
}

#[test]
fn a_line_is_written(rt: HostRuntime) -> Result<(), Fail> {
    let line = line(rt.alloc())?;
    let bytes = put_binary(rt.alloc(), &line, 29)?;
    assert!(rt; bytes.items() == ENTRY.as_slice());
    Ok(())
}

// Whether a line has no literals and just these numbers.
fn is_chain(line: &LineParts<'_>, chain: &[u32]) -> bool {
    let mut literals = line.literals;
    let mut numbers = line.numbers;
    for number in chain {
        if numbers.next() != Some(*number) {
            return false;
        }
    }
    literals.next().is_none() && numbers.next().is_none()
}

#[test]
fn an_entry_is_read(rt: HostRuntime) {
    match read_entry(ENTRY.as_slice()) {
        Some((line, rest)) => {
            assert!(rt; rest.is_empty());
            assert!(rt; matches!(line.kind, Kind::Derived));
            assert!(rt; is_chain(&line, &[1, 1, 27, 2, 3, 4, 15, 10, 6, 9, 17, 2, 3, 6, 2]));
        }
        None => assert!(rt; false),
    }
}

#[test]
fn a_cut_entry_is_none(rt: HostRuntime) {
    for length in 0..ENTRY.len() {
        assert!(rt; read_entry(&ENTRY[..length]).is_none());
    }
}
