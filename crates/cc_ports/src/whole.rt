//! Reading a file whole, and giving bytes whole.
ghost use Rattle.std.specs.Prelude.{◌≡◌, ℕ, ◌<◌, ◌≤◌, List, [], length, Some, option_map, IfOk, OnOk, OnErr, IfSome, IsErrOf};
ghost use Rattle.cc_ports.specs.Calls.{Call, AreReadings, AreGivings, with_calls};
ghost use Rattle.cc_ports.specs.Contents.{Contents, with_rest, appended, IsPrefix, Rose};

use crate::{Desk, Failed, To};
use cc_defs::Bytes;
use std::alloc::{AllocError, Global};
use thiserror::Error;

/// The most bytes that are asked for at once.
const PIECE: usize = 4096;

/// Why a file was not read to its end.
#[derive(Clone, Copy, Debug, PartialEq, Eq, Error)]
pub enum ReadStop {
    /// The desk failed, or the file is not there.
    #[error("read fault")]
    Failed,
    /// The file is longer than the limit.
    #[error("too long")]
    Limit,
    #[error("out of memory")]
    OutOfMemory,
}

impl From<Failed> for ReadStop {
    ghost use Rattle.std.specs.Prelude.{◌≡◌};
    ghost use Rattle.cc_ports.specs.declared.whole.ReadStop.TheVariants as stops;

    ghost from_gives = { λ _ stop. stop ≡ stops.Failed };

    fn from(_: Failed) -> Self {
        ReadStop::Failed
    }
}

impl From<AllocError> for ReadStop {
    ghost use Rattle.std.specs.Prelude.{◌≡◌};
    ghost use Rattle.cc_ports.specs.declared.whole.ReadStop.TheVariants as stops;

    ghost from_gives = { λ _ stop. stop ≡ stops.OutOfMemory };

    fn from(_: AllocError) -> Self {
        ReadStop::OutOfMemory
    }
}

/// Opens a file and reads it to its end, in pieces of at most 4,096 bytes. It takes at most one turn more than `most`, since
/// each turn but the last takes at least one byte.
pub fn read_all<D: Desk>(
    alloc: Global,
    desk: &mut D,
    name: &str,
    most: usize,
) -> Result<Bytes, ReadStop>
    ensures bytes { IfOk result (λ bytes. IfSome (D.seen desk.old).told
        (λ c. c.files name.now ≡ Some bytes)) }
    ensures within { IfOk result (λ bytes. length bytes ≤ most) }
    ensures limit { IsErrOf result ReadStop.Limit →
        IfSome (D.seen desk.old).told (λ c. (bytes : List ℕ) × (c.files name.now ≡ Some bytes)
        × (most < length bytes)) }
    ensures failed { IsErrOf result ReadStop.Failed →
        Rose (D.seen desk.old).reads (D.seen desk.new).reads }
    ensures after { (rest : List ℕ) × ((D.seen desk.new).told
        ≡ option_map (with_rest rest) (D.seen desk.old).told) }
    ensures begun { (D.seen desk.new).begun ≡ (D.seen desk.old).begun }
    ensures calls { (more : List Call) × AreReadings name.now most more
        × ((D.seen desk.new).calls ≡ with_calls more (D.seen desk.old).calls) }
    ensures calm { (IsErrOf result ReadStop.Failed → ⊥) →
        ((D.seen desk.new).reads ≡ (D.seen desk.old).reads)
        × ((D.seen desk.new).writes ≡ (D.seen desk.old).writes) }
    ensures reads_count { (D.seen desk.old).reads ≤ (D.seen desk.new).reads }
    ensures writes_count { (D.seen desk.old).writes ≤ (D.seen desk.new).writes }
{
    desk.open_file(name)?;
    let mut bytes = Vec::new(alloc);
    let mut piece = [0u8; PIECE];
    loop {
        let n = desk.read(&mut piece)?;
        if n == 0 {
            return Ok(Bytes::of(bytes));
        }
        if n > most - bytes.len() {
            return Err(ReadStop::Limit);
        }
        bytes.extend_from_slice(&piece[..n])?;
    }
}

/// Gives all the bytes to an output. It takes no memory.
pub fn give_all<D: Desk>(desk: &mut D, to: To, bytes: &[u8]) -> Result<(), Failed>
    ensures all { OnOk result ((D.seen desk.new).told
        ≡ option_map (appended to bytes.now) (D.seen desk.old).told) }
    ensures some { OnErr result ((front : List ℕ) × IsPrefix front bytes.now
        × ((D.seen desk.new).told ≡ option_map (appended to front) (D.seen desk.old).told)) }
    ensures failed { OnErr result (Rose (D.seen desk.old).writes (D.seen desk.new).writes) }
    ensures begun { (D.seen desk.new).begun ≡ (D.seen desk.old).begun }
    ensures calls { (more : List Call) × AreGivings to more
        × ((D.seen desk.new).calls ≡ with_calls more (D.seen desk.old).calls) }
    ensures calm { OnOk result (((D.seen desk.new).reads ≡ (D.seen desk.old).reads)
        × ((D.seen desk.new).writes ≡ (D.seen desk.old).writes)) }
    ensures reads_count { (D.seen desk.old).reads ≤ (D.seen desk.new).reads }
    ensures writes_count { (D.seen desk.old).writes ≤ (D.seen desk.new).writes }
{
    let mut given = 0;
    while given < bytes.len() {
        given += desk.give(to, &bytes[given..])?;
    }
    Ok(())
}
