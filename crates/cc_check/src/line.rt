//! Reading a line.
ghost use Rattle.std.specs.Prelude.{◌≡◌, ℕ, ◌<◌, ◌%◌, List, [], ◌∷◌, ◌↔◌, IsTrue, MatchOption};
ghost use Rattle.cc_defs.specs.declared.log.LogLine.TheVariants as lines;
ghost use Rattle.cc_defs.specs.declared.log.Version.TheVariants.{First};
ghost use Rattle.cc_defs.specs.LogTexts.{IsLine};
ghost use Rattle.cc_defs.specs.Clauses.{Literal};
ghost use Rattle.cc_defs.specs.Logs.{IsNoHeading};
ghost use Rattle.cc_defs.specs.Sections.{HasNoForm};
ghost use Rattle.cc_check.specs.Readers.{literals_in, literals_of, numbers_in, numbers_of};
ghost use Rattle.cc_check.specs.Reading.{AreCounted, IsRead, IsNoEnd};
ghost use Rattle.cc_log.specs.Fronts.{AreLiterals, HasNoChain, HasNoNumbers, HasNoLiterals, IsChainIn, IsLast};

use crate::number::{number_at, signed_at};
use crate::reader::{LiteralReader, NumberReader};
use cc_defs::{EndWord, Version};

/// What a line is.
#[derive(Clone, Copy)]
pub enum Kind {
    Heading,
    Derived,
    Block,
    End(EndWord),
}

/// A line, whose literals and numbers are left in the bytes that they stand in.
#[derive(Clone, Copy)]
pub struct LineParts<'b> {
    pub kind: Kind,
    /// Those of a derived line's clause.
    pub literals: LiteralReader<'b>,
    /// The chain of a derived line, or the row of a block.
    pub numbers: NumberReader<'b>,
}

/// The heading of a section.
#[derive(Clone, Copy)]
pub struct Heading {
    pub conditions: bool,
    pub horizon: u32,
}

impl<'b> LineParts<'b> {
    /// A line that has no literals and no numbers.
    pub(crate) fn bare(kind: Kind) -> LineParts<'b>
        ensures { result.kind ≡ kind }
    {
        LineParts {
            kind,
            literals: LiteralReader::none(),
            numbers: NumberReader::none(),
        }
    }
}

fn is_line_feed(text: &[u8]) -> bool
    ensures { IsTrue result ↔ (text.now ≡ 10 ∷ []) }
{
    text == b"\n".as_slice()
}

// How many numbers stand before the line feed, and the last of them.
fn count_numbers(text: &[u8]) -> Option<(usize, u32)>
    ensures { MatchOption result (HasNoNumbers text.now) (λ read. AreCounted text.now read.0 read.1) }
{
    let mut rest = text;
    let mut count = 0;
    let mut last = 0;
    while let [byte, behind @ ..] = rest {
        if *byte != b' ' {
            break;
        }
        let Some((number, next)) = number_at(behind) else {
            return None;
        };
        count += 1;
        last = number;
        rest = next;
    }
    if !is_line_feed(rest) {
        return None;
    }
    Some((count, last))
}

// How many literals stand before a 0, and what stands behind that.
fn count_literals(text: &[u8]) -> Option<(usize, &[u8])>
    ensures { MatchOption result (HasNoLiterals text.now) (λ read.
        AreLiterals text.now (literals_in First read.0 text.now) read.1.now) }
{
    let mut rest = text;
    let mut count = 0;
    while let [byte, behind @ ..] = rest {
        if *byte != b' ' {
            return None;
        }
        let Some((variable, _, next)) = signed_at(behind) else {
            return None;
        };
        if variable == 0 {
            return Some((count, next));
        }
        count += 1;
        rest = next;
    }
    None
}

// Whether so many numbers, of which this is the last, are a chain and a 0 behind it.
fn is_ended(count: usize, last: u32) -> bool
    ensures { IsTrue result ↔ ((0 < count) × (count % 2 ≡ 0) × (last ≡ 0)) }
{
    count > 0 && count % 2 == 0 && last == 0
}

// How many numbers a chain has that stands before the line feed: a 0 stands behind them.
fn count_chain(text: &[u8]) -> Option<usize>
    ensures { MatchOption result (HasNoChain text.now) (λ count.
        IsChainIn text.now (numbers_in First count text.now)) }
{
    let Some((count, last)) = count_numbers(text) else {
        return None;
    };
    if !is_ended(count, last) {
        return None;
    }
    Some(count - 1)
}

// What stands behind the letter of a derived line.
fn derived_of(body: &[u8]) -> Option<LineParts<'_>>
    ensures { MatchOption result (HasNoForm First (100 ∷ body.now)) (λ read. IsRead
        (100 ∷ body.now) (literals_of read.literals) (numbers_of read.numbers) read.kind) }
{
    let Some((count, tail)) = count_literals(body) else {
        return None;
    };
    let Some(links) = count_chain(tail) else {
        return None;
    };
    Some(LineParts {
        kind: Kind::Derived,
        literals: LiteralReader {
            version: Version::First,
            count,
            bytes: body,
        },
        numbers: NumberReader {
            version: Version::First,
            count: links,
            bytes: tail,
        },
    })
}

// What stands behind the letter of a block.
fn block_of(body: &[u8]) -> Option<LineParts<'_>>
    ensures { MatchOption result (HasNoForm First (98 ∷ body.now)) (λ read. IsRead
        (98 ∷ body.now) (literals_of read.literals) (numbers_of read.numbers) read.kind) }
{
    let Some((count, _)) = count_numbers(body) else {
        return None;
    };
    Some(LineParts {
        kind: Kind::Block,
        literals: LiteralReader::none(),
        numbers: NumberReader {
            version: Version::First,
            count,
            bytes: body,
        },
    })
}

fn end_of(text: &[u8]) -> Option<EndWord>
    ensures { MatchOption result (IsNoEnd text.now) (λ word. IsLine text.now (lines.End word)) }
{
    if text == b"e empty\n".as_slice() {
        return Some(EndWord::Empty);
    }
    if text == b"e found\n".as_slice() {
        return Some(EndWord::Found);
    }
    if text == b"e spent\n".as_slice() {
        return Some(EndWord::Spent);
    }
    None
}

// The number that is all of a text but its line feed.
fn last_number(text: &[u8]) -> Option<u32>
    ensures { MatchOption result ((number : ℕ) → IsLast text.now number → ⊥) (IsLast text.now) }
{
    let (number, rest) = number_at(text)?;
    if !is_line_feed(rest) {
        return None;
    }
    Some(number)
}

/// What a line, its line feed included, says as a heading. Nothing: it is none.
pub fn heading_of(text: &[u8]) -> Option<Heading>
    ensures { MatchOption result (IsNoHeading First text.now) (λ heading.
        IsLine text.now (lines.Section heading.conditions heading.horizon)) }
{
    let [letter, space, behind @ ..] = text else {
        return None;
    };
    if *space != b' ' {
        return None;
    }
    let conditions = *letter == b'w';
    if !conditions && *letter != b'h' {
        return None;
    }
    let horizon = last_number(behind)?;
    Some(Heading {
        conditions,
        horizon,
    })
}

/// A line, its line feed included, whose literals and numbers are left where they stand. Nothing: it is no line of a log. A line's
/// variables may be past those that a `LogLine` can hold. It takes no memory.
pub fn read_line(text: &[u8]) -> Option<LineParts<'_>>
    ensures { MatchOption result (HasNoForm First text.now) (λ read. IsRead
        text.now (literals_of read.literals) (numbers_of read.numbers) read.kind) }
{
    let [letter, body @ ..] = text else {
        return None;
    };
    if *letter == b'd' {
        return derived_of(body);
    }
    if *letter == b'b' {
        return block_of(body);
    }
    match other_of(text) {
        Some(kind) => Some(LineParts::bare(kind)),
        None => None,
    }
}

// A line that is neither a derived one nor a block.
fn other_of(text: &[u8]) -> Option<Kind>
    ensures { MatchOption result (IsNoHeading First text.now × IsNoEnd text.now) (λ kind.
        (literals : List Literal) (numbers : List ℕ) → IsRead text.now literals numbers kind) }
{
    match end_of(text) {
        Some(word) => Some(Kind::End(word)),
        None => match heading_of(text) {
            Some(_) => Some(Kind::Heading),
            None => None,
        },
    }
}
