//! An output in memory.
ghost use Rattle.std.specs.Prelude.{◌≡◌, ◌-◌, ◌≤◌, ◌<◌, ◌↔◌, min, [], ◌++◌, length, take, IfOk, OnOk, OnErr, IsErr};

use crate::Failed;
use cc_defs::OutOfMemory;
use std::alloc::Global;
use std::marker::Model;

/// An output with room for so many bytes, for which memory is kept from the start.
#[derive(Drop)]
pub(crate) struct Sheet {
    bytes: Vec<u8>,
    room: usize,
}

impl Model for Sheet {
    ghost use Rattle.std.specs.Prelude.{◌≤◌, vec_len, vec_capacity};
    ghost use Rattle.cc_ports.specs.Sheet.{Sheet as Written};

    ghost Value = { Written };

    ghost view = { λ value. record { bytes = value.bytes.items; room = value.room } };

    ghost invariant = { λ value.
        (vec_len value.bytes ≤ value.room) × (value.room ≤ vec_capacity value.bytes) };
}

impl Sheet {
    pub(crate) fn new(alloc: Global, room: usize) -> Result<Sheet, OutOfMemory>
        ensures { IfOk result (λ sheet. sheet ≡ record { bytes = []; room = room }) }
    {
        let bytes = Vec::with_capacity(alloc, room)?;
        Ok(Sheet { bytes, room })
    }

    pub(crate) fn bytes(&self) -> &[u8]
        ensures { result.now ≡ self.now.bytes }
    {
        self.bytes.as_slice()
    }

    pub(crate) fn clear(&mut self)
        ensures { self.new ≡ record { bytes = []; room = self.old.room } }
    {
        self.bytes.clear();
    }

    /// Appends the piece, or as much of it as there is room for. It fails only where there is none.
    pub(crate) fn append(&mut self, piece: &[u8]) -> Result<usize, Failed>
        requires { 0 < length piece.now }
        ensures fails { IsErr result ↔ (self.old.room ≤ length self.old.bytes) }
        ensures most { IfOk result (λ n.
            n ≡ min (length piece.now) (self.old.room - length self.old.bytes)) }
        ensures after { IfOk result (λ n. self.new
            ≡ record { bytes = self.old.bytes ++ take n piece.now; room = self.old.room }) }
        ensures full { OnErr result (self.new ≡ self.old) }
    {
        let n = piece.len().min(self.room - self.bytes.len());
        if n == 0 {
            return Err(Failed);
        }
        match self.bytes.extend_from_slice(&piece[..n]) {
            Ok(()) => Ok(n),
            Err(_) => Err(Failed),
        }
    }
}
