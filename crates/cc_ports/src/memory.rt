//! A desk in memory, whose calls fail where they are told to.
ghost use Rattle.std.specs.Prelude.{◌≡◌, ℕ, ◌-◌, ◌<◌, ◌≤◌, ◌⊎◌, ◌↔◌, min, Bool, true, false, List, length, Option, option_map, Some, None, IfOk, OnOk, OnErr, IfSome, IsSome, IsNone, IsErr, IsTrue, is_ok, if◌then◌else◌};
ghost use Rattle.cc_ports.specs.Contents.{Contents, with_rest, content_of, after_read, ReadsFrom, after_create, after_give, output_of, Rose};
ghost use Rattle.cc_ports.specs.Memory.{Memory, new_memory, contents_of, file_in, room_of, next, CallFails, IsFull, KeepsSetting};

use crate::files::Files;
use crate::sheet::Sheet;
use crate::{Desk, Failed, To};
use cc_defs::{Nums, OutOfMemory};
use std::alloc::Global;
use std::marker::Model;

/// A desk in memory. Its calls, of all four kinds, are counted from 1, and those with the numbers in `fails` fail. Its
/// calls take no memory.
#[derive(Drop)]
pub struct MemoryDesk {
    files: Files,
    fails: Nums,
    /// The most bytes that a read gives.
    most: usize,
    calls: u64,
    /// The place in `files` of the file being read.
    reading: Option<usize>,
    /// How much of it was read.
    at: usize,
    out: Sheet,
    err: Sheet,
    log: Sheet,
    begun: bool,
    read_faults: u64,
    write_faults: u64,
}

impl Model for MemoryDesk {
    ghost use Rattle.cc_ports.specs.Memory.{Memory};

    ghost Value = { Memory };

    ghost use Rattle.cc_ports.specs.MemoryFields.{memory_of, IsKept};

    ghost view = { memory_of };

    ghost invariant = { IsKept };
}

impl MemoryDesk {
    /// A desk with these files, whose calls with these numbers fail, whose reads give at most `most` bytes, and whose
    /// outputs Out, Err and Log have room for so many bytes.
    pub fn new(
        alloc: Global,
        files: Files,
        fails: Nums,
        most: usize,
        room: [usize; 3],
    ) -> Result<MemoryDesk, OutOfMemory>
        requires { 0 < most }
        ensures { IfOk result (λ desk. desk ≡ new_memory files fails most room) }
    {
        let out = Sheet::new(alloc, room[0])?;
        let err = Sheet::new(alloc, room[1])?;
        let log = Sheet::new(alloc, room[2])?;
        Ok(MemoryDesk {
            files,
            fails,
            most,
            calls: 0,
            reading: None,
            at: 0,
            out,
            err,
            log,
            begun: false,
            read_faults: 0,
            write_faults: 0,
        })
    }

    /// What was written to an output.
    pub fn written(&self, to: To) -> &[u8]
        ensures { result.now ≡ output_of to (contents_of self.now) }
    {
        match to {
            To::Out => self.out.bytes(),
            To::Err => self.err.bytes(),
            To::Log => self.log.bytes(),
        }
    }

    /// Whether a log was begun.
    pub fn has_begun(&self) -> bool
        ensures { result ≡ self.now.begun }
    {
        self.begun
    }

    /// Counts a call, and answers whether it is to fail.
    fn begin_call(&mut self) -> bool
        ensures fails { IsTrue result ↔ CallFails self.old }
        ensures after { self.new ≡ record self.old { calls = next self.old.calls } }
    {
        self.calls = self.calls.saturating_add(1);
        let call = self.calls;
        self.fails
            .items()
            .iter()
            .any(|number| u64::from(*number) == call)
    }

    fn read_failed(&mut self) -> Failed
        ensures after { self.new ≡ record self.old { read_faults = next self.old.read_faults } }
        ensures count { self.old.read_faults ≤ self.new.read_faults }
    {
        self.read_faults = self.read_faults.saturating_add(1);
        Failed
    }

    fn write_failed(&mut self) -> Failed
        ensures after { self.new ≡ record self.old { write_faults = next self.old.write_faults } }
        ensures count { self.old.write_faults ≤ self.new.write_faults }
    {
        self.write_faults = self.write_faults.saturating_add(1);
        Failed
    }
}

impl Desk for MemoryDesk {
    ghost seen = { λ m. record {
      told = Some (contents_of m);
      begun = m.begun;
      reads = m.read_faults;
      writes = m.write_faults;
      calls = None;
    } };

    fn open_file(&mut self, name: &str) -> Result<(), Failed>
        ensures opened { OnOk result (Some (contents_of self.new)
            ≡ option_map (λ c. with_rest (content_of c name.now) c) (Some (contents_of self.old))) }
        ensures there { OnOk result (IsSome (file_in self.old.files name.now)) }
        ensures failed { OnErr result ((rest : List ℕ) × (Some (contents_of self.new)
            ≡ option_map (with_rest rest) (Some (contents_of self.old)))) }
        ensures cause { OnErr result (Rose self.old.read_faults self.new.read_faults) }
        ensures begun { self.new.begun ≡ self.old.begun }
        ensures reads_count { self.old.read_faults ≤ self.new.read_faults }
        ensures writes_count { self.old.write_faults ≤ self.new.write_faults }
        ensures kept { OnErr result (contents_of self.new ≡ contents_of self.old) }
        ensures fails { IsErr result
            ↔ (CallFails self.old ⊎ IsNone (file_in self.old.files name.now)) }
        ensures read_faults { self.new.read_faults
            ≡ (if is_ok result then self.old.read_faults else next self.old.read_faults) }
        ensures write_faults { self.new.write_faults ≡ self.old.write_faults }
        ensures calls { self.new.calls ≡ next self.old.calls }
        ensures setting { KeepsSetting self.old self.new }
    {
        if self.begin_call() {
            return Err(self.read_failed());
        }
        match self.files.place_of(name) {
            Some(place) => {
                self.reading = Some(place);
                self.at = 0;
                Ok(())
            }
            None => Err(self.read_failed()),
        }
    }

    fn read(&mut self, buffer: &mut [u8]) -> Result<usize, Failed>
        requires { 0 < length buffer.old }
        ensures count { IfOk result (λ n. n ≤ length buffer.old) }
        ensures after { Some (contents_of self.new)
            ≡ option_map (after_read result) (Some (contents_of self.old)) }
        ensures bytes { IfOk result (λ n. ReadsFrom self.old.rest n buffer.new) }
        ensures cause { OnErr result (Rose self.old.read_faults self.new.read_faults) }
        ensures begun { self.new.begun ≡ self.old.begun }
        ensures reads_count { self.old.read_faults ≤ self.new.read_faults }
        ensures writes_count { self.old.write_faults ≤ self.new.write_faults }
        ensures fails { IsErr result ↔ CallFails self.old }
        ensures least { IfOk result (λ n.
            n ≡ min (length buffer.old) (min self.old.most (length self.old.rest))) }
        ensures read_faults { self.new.read_faults
            ≡ (if is_ok result then self.old.read_faults else next self.old.read_faults) }
        ensures write_faults { self.new.write_faults ≡ self.old.write_faults }
        ensures calls { self.new.calls ≡ next self.old.calls }
        ensures setting { KeepsSetting self.old self.new }
    {
        if self.begin_call() {
            return Err(self.read_failed());
        }
        let Some(place) = self.reading else {
            return Ok(0);
        };
        Ok(self.files.read_at(place, &mut self.at, buffer, self.most))
    }

    fn create_file(&mut self, _name: &str) -> Result<(), Failed>
        ensures after { Some (contents_of self.new)
            ≡ option_map (after_create (is_ok result)) (Some (contents_of self.old)) }
        ensures begun { self.new.begun ≡ (if is_ok result then true else self.old.begun) }
        ensures cause { OnErr result (Rose self.old.write_faults self.new.write_faults) }
        ensures reads_count { self.old.read_faults ≤ self.new.read_faults }
        ensures writes_count { self.old.write_faults ≤ self.new.write_faults }
        ensures fails { IsErr result ↔ CallFails self.old }
        ensures read_faults { self.new.read_faults ≡ self.old.read_faults }
        ensures write_faults { self.new.write_faults
            ≡ (if is_ok result then self.old.write_faults else next self.old.write_faults) }
        ensures calls { self.new.calls ≡ next self.old.calls }
        ensures setting { KeepsSetting self.old self.new }
    {
        if self.begin_call() {
            return Err(self.write_failed());
        }
        self.log.clear();
        self.begun = true;
        Ok(())
    }

    fn give(&mut self, to: To, bytes: &[u8]) -> Result<usize, Failed>
        requires { 0 < length bytes.now }
        ensures some { IfOk result (λ n. 0 < n) }
        ensures count { IfOk result (λ n. n ≤ length bytes.now) }
        ensures after { Some (contents_of self.new)
            ≡ option_map (after_give to result bytes.now) (Some (contents_of self.old)) }
        ensures begun { self.new.begun ≡ self.old.begun }
        ensures cause { OnErr result (Rose self.old.write_faults self.new.write_faults) }
        ensures reads_count { self.old.read_faults ≤ self.new.read_faults }
        ensures writes_count { self.old.write_faults ≤ self.new.write_faults }
        ensures fails { IsErr result ↔ (CallFails self.old ⊎ IsFull to self.old) }
        ensures most { IfOk result (λ n. n ≡ min (length bytes.now)
            (room_of to self.old - length (output_of to (contents_of self.old)))) }
        ensures read_faults { self.new.read_faults ≡ self.old.read_faults }
        ensures write_faults { self.new.write_faults
            ≡ (if is_ok result then self.old.write_faults else next self.old.write_faults) }
        ensures calls { self.new.calls ≡ next self.old.calls }
        ensures setting { KeepsSetting self.old self.new }
    {
        if self.begin_call() {
            return Err(self.write_failed());
        }
        let given = match to {
            To::Out => self.out.append(bytes),
            To::Err => self.err.append(bytes),
            To::Log => self.log.append(bytes),
        };
        match given {
            Ok(n) => Ok(n),
            Err(_) => Err(self.write_failed()),
        }
    }

    fn drops_log(&self) -> bool
        ensures { result ≡ false }
    {
        false
    }
}
