//! Reading the entries of version 2 of a log.
ghost use Rattle.std.specs.Prelude.{◌≡◌, ℕ, ◌<◌, ◌≤◌, ◌↔◌, List, [], ◌∷◌, IsTrue, MatchOption};
ghost use Rattle.cc_defs.specs.declared.log.LogLine.TheVariants as lines;
ghost use Rattle.cc_defs.specs.declared.log.Version.TheVariants as versions;
ghost use Rattle.cc_defs.specs.Clauses.{Literal};
ghost use Rattle.cc_defs.specs.LogBytes.{end_word_bytes};
ghost use Rattle.cc_defs.specs.LogBytes.{BeginsWith, HasNoEntry};
ghost use Rattle.cc_log.specs.Entries.{AreLiteralsIn, AreNumbersIn, HasNoEnd, HasNoHeading, HasNoLiteralIn, HasNoLiteralsIn, HasNoNumberIn, HasNoNumberWithin, HasNoNumbersIn, IsLiteralIn, IsNoWord, IsNumberIn, IsNumberWithin};
ghost use Rattle.cc_check.specs.Reading.{IsEntryRead};
ghost use Rattle.cc_check.specs.Readers.{literals_in, literals_of, numbers_in, numbers_of};

use crate::line::{Heading, Kind, LineParts};
use crate::reader::{LiteralReader, NumberReader};
use cc_defs::{EndWord, Version};

// Whether a number can have this above its lowest seven bits: with 0 it would be one byte shorter, with more it is past 1999999999.
fn is_high_part(high: u32) -> bool
    ensures { IsTrue result ↔ ((0 < high) × (high ≤ 15624999)) }
{
    0 < high && high <= 15_624_999
}

// The number in the fewest bytes, at most so many behind the first, that bytes begin with, and what stands behind it.
fn number_within(more: u32, bytes: &[u8]) -> Option<(u32, &[u8])>
    ensures { MatchOption result (HasNoNumberWithin more bytes.now) (λ read.
        IsNumberWithin more bytes.now read.0 read.1.now) }
{
    let [first, behind @ ..] = bytes else {
        return None;
    };
    if *first < 128 {
        return Some((u32::from(*first), behind));
    }
    if more == 0 {
        return None;
    }
    let Some((high, rest)) = number_within(more - 1, behind) else {
        return None;
    };
    if !is_high_part(high) {
        return None;
    }
    Some((128 * high + u32::from(*first - 128), rest))
}

// The number that bytes begin with, and what stands behind it.
pub(crate) fn number_in(bytes: &[u8]) -> Option<(u32, &[u8])>
    ensures { MatchOption result
        (HasNoNumberIn bytes.now) (λ read. IsNumberIn bytes.now read.0 read.1.now) }
{
    number_within(4, bytes)
}

// The literal that bytes begin with: its variable and whether it is positive, and what stands behind it.
pub(crate) fn literal_in(bytes: &[u8]) -> Option<(u32, bool, &[u8])>
    ensures { MatchOption result (HasNoLiteralIn bytes.now) (λ read.
        IsLiteralIn bytes.now (record { variable = read.0; positive = read.1 }) read.2.now) }
{
    let Some((number, rest)) = number_in(bytes) else {
        return None;
    };
    if number < 2 {
        return None;
    }
    Some((number / 2, number % 2 == 0, rest))
}

// What stands behind so many numbers.
fn behind_numbers(bytes: &[u8], count: usize) -> Option<&[u8]>
    ensures { MatchOption result (HasNoNumbersIn count bytes.now) (λ rest.
        AreNumbersIn count bytes.now (numbers_in versions.Second count bytes.now) rest.now) }
{
    let mut rest = bytes;
    for _ in 0..count {
        let Some((_, next)) = number_in(rest) else {
            return None;
        };
        rest = next;
    }
    Some(rest)
}

// What stands behind so many literals.
fn behind_literals(bytes: &[u8], count: usize) -> Option<&[u8]>
    ensures { MatchOption result (HasNoLiteralsIn count bytes.now) (λ rest.
        AreLiteralsIn count bytes.now (literals_in versions.Second count bytes.now) rest.now) }
{
    let mut rest = bytes;
    for _ in 0..count {
        let Some((_, _, next)) = literal_in(rest) else {
            return None;
        };
        rest = next;
    }
    Some(rest)
}

// What stands behind the kind of a derived line, and behind that line.
fn derived_in(body: &[u8]) -> Option<(LineParts<'_>, &[u8])>
    ensures { MatchOption result (HasNoEntry (3 ∷ body.now)) (λ read. IsEntryRead (3 ∷ body.now)
        (literals_of read.0.literals) (numbers_of read.0.numbers) read.0.kind read.1.now) }
{
    let Some((count, clause)) = number_in(body) else {
        return None;
    };
    let Some(behind) = behind_literals(clause, count as usize) else {
        return None;
    };
    let Some((pairs, chain)) = number_in(behind) else {
        return None;
    };
    let Some(rest) = behind_numbers(chain, 2 * pairs as usize + 1) else {
        return None;
    };
    let line = LineParts {
        kind: Kind::Derived,
        literals: LiteralReader {
            version: Version::Second,
            count: count as usize,
            bytes: clause,
        },
        numbers: NumberReader {
            version: Version::Second,
            count: 2 * pairs as usize + 1,
            bytes: chain,
        },
    };
    Some((line, rest))
}

// What stands behind the kind of a block, and behind that block.
fn block_in(body: &[u8]) -> Option<(LineParts<'_>, &[u8])>
    ensures { MatchOption result (HasNoEntry (4 ∷ body.now)) (λ read. IsEntryRead (4 ∷ body.now)
        (literals_of read.0.literals) (numbers_of read.0.numbers) read.0.kind read.1.now) }
{
    let Some((count, row)) = number_in(body) else {
        return None;
    };
    let Some(rest) = behind_numbers(row, count as usize) else {
        return None;
    };
    let line = LineParts {
        kind: Kind::Block,
        literals: LiteralReader::none(),
        numbers: NumberReader {
            version: Version::Second,
            count: count as usize,
            bytes: row,
        },
    };
    Some((line, rest))
}

fn word_of(byte: u8) -> Option<EndWord>
    ensures { MatchOption result (IsNoWord byte) (λ word. end_word_bytes word ≡ byte ∷ []) }
{
    if byte == 5 {
        return Some(EndWord::Empty);
    }
    if byte == 6 {
        return Some(EndWord::Found);
    }
    if byte == 7 {
        return Some(EndWord::Spent);
    }
    None
}

// The end word that bytes begin with, and what stands behind it.
fn end_in(bytes: &[u8]) -> Option<(EndWord, &[u8])>
    ensures { MatchOption result (HasNoEnd bytes.now) (λ read.
        BeginsWith bytes.now (lines.End read.0) read.1.now) }
{
    let [kind, rest @ ..] = bytes else {
        return None;
    };
    let Some(word) = word_of(*kind) else {
        return None;
    };
    Some((word, rest))
}

/// The heading that bytes of version 2 begin with, and what stands behind it. Nothing: no heading stands there.
pub fn heading_in(bytes: &[u8]) -> Option<(Heading, &[u8])>
    ensures { MatchOption result (HasNoHeading bytes.now) (λ read.
        BeginsWith bytes.now (lines.Section read.0.conditions read.0.horizon) read.1.now) }
{
    let [kind, behind @ ..] = bytes else {
        return None;
    };
    let conditions = *kind == 2;
    if !conditions && *kind != 1 {
        return None;
    }
    let Some((horizon, rest)) = number_in(behind) else {
        return None;
    };
    Some((
        Heading {
            conditions,
            horizon,
        },
        rest,
    ))
}

/// The entry at the front of bytes, whose literals and numbers are left where they stand (a chain has distances in place of the
/// numbers of clauses), and what stands behind it. Nothing: no entry stands there. It takes no memory, whatever the counts are.
pub fn read_entry(bytes: &[u8]) -> Option<(LineParts<'_>, &[u8])>
    ensures { MatchOption result (HasNoEntry bytes.now) (λ read. IsEntryRead bytes.now
        (literals_of read.0.literals) (numbers_of read.0.numbers) read.0.kind read.1.now) }
{
    let [kind, body @ ..] = bytes else {
        return None;
    };
    if *kind == 3 {
        return derived_in(body);
    }
    if *kind == 4 {
        return block_in(body);
    }
    match other_in(bytes) {
        Some((kind, rest)) => Some((LineParts::bare(kind), rest)),
        None => None,
    }
}

// An entry that is neither a derived line nor a block.
fn other_in(bytes: &[u8]) -> Option<(Kind, &[u8])>
    ensures { MatchOption result (HasNoHeading bytes.now × HasNoEnd bytes.now) (λ entry.
        (literals : List Literal) (numbers : List ℕ) →
        IsEntryRead bytes.now literals numbers entry.0 entry.1.now) }
{
    if let Some((word, rest)) = end_in(bytes) {
        return Some((Kind::End(word), rest));
    }
    match heading_in(bytes) {
        Some((_, rest)) => Some((Kind::Heading, rest)),
        None => None,
    }
}
