//! Numbers and literals that are left where they stand, and are read one after another.
ghost use Rattle.std.specs.Prelude.{◌≡◌, ◌∷◌, [], true, MatchOption};
ghost use Rattle.cc_defs.specs.declared.log.Version.TheVariants as versions;
ghost use Rattle.cc_check.specs.Readers.{chain_of, link, links, literal_taken, literals_of, number_taken, numbers_of, plain_literal, plain_number};

use crate::entry::{literal_in, number_in};
use crate::number::{Named, number_at, signed_at};
use cc_defs::Version;

/// So many numbers of a line, in the bytes that they stand in.
#[derive(Clone, Copy)]
pub struct NumberReader<'b> {
    pub(crate) version: Version,
    pub(crate) count: usize,
    pub(crate) bytes: &'b [u8],
}

/// So many literals of a line, in the bytes that they stand in.
#[derive(Clone, Copy)]
pub struct LiteralReader<'b> {
    pub(crate) version: Version,
    pub(crate) count: usize,
    pub(crate) bytes: &'b [u8],
}

/// The chain of a derived line whose own clause has the number `own`: clauses by their numbers, each but the first behind its pivot.
#[derive(Clone, Copy)]
pub struct ChainReader<'b> {
    pub(crate) version: Version,
    pub(crate) own: u32,
    /// Whether the next number names a clause.
    pub(crate) names: bool,
    pub(crate) numbers: NumberReader<'b>,
}

// The number in a list that bytes begin with: in version 1 it stands behind a space.
fn take_number(version: Version, bytes: &[u8]) -> Option<(u32, &[u8])>
    ensures { plain_number result ≡ number_taken version bytes.now }
{
    match version {
        Version::First => spaced_number(bytes),
        Version::Second => number_in(bytes),
    }
}

fn spaced_number(bytes: &[u8]) -> Option<(u32, &[u8])>
    ensures { plain_number result ≡ number_taken versions.First bytes.now }
{
    let [_, behind @ ..] = bytes else {
        return None;
    };
    number_at(behind)
}

// The literal in a list that bytes begin with: its variable, whether it is positive, and what stands behind it.
fn take_literal(version: Version, bytes: &[u8]) -> Option<(u32, bool, &[u8])>
    ensures { plain_literal result ≡ literal_taken version bytes.now }
{
    match version {
        Version::First => spaced_literal(bytes),
        Version::Second => literal_in(bytes),
    }
}

fn spaced_literal(bytes: &[u8]) -> Option<(u32, bool, &[u8])>
    ensures { plain_literal result ≡ literal_taken versions.First bytes.now }
{
    let [_, behind @ ..] = bytes else {
        return None;
    };
    signed_at(behind)
}

impl<'b> NumberReader<'b> {
    /// One that has nothing to read.
    pub(crate) fn none() -> NumberReader<'b> {
        NumberReader {
            version: Version::First,
            count: 0,
            bytes: &[],
        }
    }

    /// Reads the next number. Nothing: none is left.
    pub fn next(&mut self) -> Option<u32>
        ensures { MatchOption result (numbers_of self.old ≡ [])
            (λ number. numbers_of self.old ≡ number ∷ numbers_of self.new) }
    {
        if self.count == 0 {
            return None;
        }
        let (number, rest) = take_number(self.version, self.bytes)?;
        self.count -= 1;
        self.bytes = rest;
        Some(number)
    }
}

impl<'b> LiteralReader<'b> {
    /// One that has nothing to read.
    pub(crate) fn none() -> LiteralReader<'b> {
        LiteralReader {
            version: Version::First,
            count: 0,
            bytes: &[],
        }
    }

    /// Reads the next literal. Nothing: none is left.
    pub fn next(&mut self) -> Option<Named>
        ensures { MatchOption result (literals_of self.old ≡ [])
            (λ literal. literals_of self.old ≡ literal ∷ literals_of self.new) }
    {
        if self.count == 0 {
            return None;
        }
        let (variable, positive, rest) = take_literal(self.version, self.bytes)?;
        self.count -= 1;
        self.bytes = rest;
        Some(Named { variable, positive })
    }
}

// What a number of a chain says, where its own clause has this number: version 2 names a clause by its distance from there. 0, where
// the distance is not below it.
fn link_of(version: Version, own: u32, names: bool, number: u32) -> u32
    ensures { result ≡ link version own names number }
{
    match version {
        Version::First => number,
        Version::Second => {
            if names {
                own.saturating_sub(number)
            } else {
                number
            }
        }
    }
}

impl<'b> ChainReader<'b> {
    /// A chain whose numbers are written so in a version: in version 2 a clause by its distance from the own number.
    pub fn of(version: Version, own: u32, numbers: NumberReader<'b>) -> ChainReader<'b>
        ensures { chain_of result ≡ links version own true (numbers_of numbers.entry) }
    {
        ChainReader {
            version,
            own,
            names: true,
            numbers,
        }
    }

    /// Reads the next number. Nothing: none is left.
    pub fn next(&mut self) -> Option<u32>
        ensures { MatchOption result (chain_of self.old ≡ [])
            (λ number. chain_of self.old ≡ number ∷ chain_of self.new) }
    {
        let number = self.numbers.next()?;
        let said = link_of(self.version, self.own, self.names, number);
        self.names = !self.names;
        Some(said)
    }
}
