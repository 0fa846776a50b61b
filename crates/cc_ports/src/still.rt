//! A desk that never fails.
ghost use Rattle.std.specs.Prelude.{◌≡◌, ◌<◌, min, true, false, [], length, take, drop, unwrap_or, IfOk, IsOk};
ghost use Rattle.cc_ports.specs.Memory.{file_in};

use crate::files::Files;
use crate::{Desk, Failed, To};
use std::marker::Model;

/// Reads the files of its list; a name that is not there is an empty file. It drops what it is given, tells nothing of
/// its contents, and its counts of faults are always 0.
#[derive(Drop)]
pub struct StillDesk {
    files: Files,
    /// The place in `files` of the file being read.
    reading: Option<usize>,
    /// How much of it was read.
    at: usize,
    begun: bool,
}

impl Model for StillDesk {
    ghost use Rattle.cc_ports.specs.Still.{Still};

    ghost Value = { Still };

    ghost use Rattle.cc_ports.specs.MemoryFields.{rest_of};

    ghost view = { λ desk. record {
      files = desk.files;
      rest = rest_of desk.files desk.reading desk.at;
      begun = desk.begun;
    } };
}

impl StillDesk {
    /// A desk with these files.
    pub fn new(files: Files) -> StillDesk
        ensures { result ≡ record { files = files; rest = []; begun = false } }
    {
        StillDesk {
            files,
            reading: None,
            at: 0,
            begun: false,
        }
    }
}

impl Desk for StillDesk {
    ghost use Rattle.std.specs.Prelude.{None};

    ghost seen = { λ desk. record {
      told = None;
      begun = desk.begun;
      reads = 0;
      writes = 0;
      calls = None;
    } };

    fn open_file(&mut self, name: &str) -> Result<(), Failed>
        ensures ok { IsOk result }
        ensures begun { self.new.begun ≡ self.old.begun }
        ensures after { self.new
            ≡ record self.old { rest = unwrap_or (file_in self.old.files name.now) [] } }
    {
        self.reading = self.files.place_of(name);
        self.at = 0;
        Ok(())
    }

    fn read(&mut self, buffer: &mut [u8]) -> Result<usize, Failed>
        requires { 0 < length buffer.old }
        ensures count { IfOk result (λ n. n ≡ min (length buffer.old) (length self.old.rest)) }
        ensures front { IfOk result (λ n. take n buffer.new ≡ take n self.old.rest) }
        ensures ok { IsOk result }
        ensures begun { self.new.begun ≡ self.old.begun }
        ensures after { IfOk result (λ n.
            self.new ≡ record self.old { rest = drop n self.old.rest }) }
    {
        let Some(place) = self.reading else {
            return Ok(0);
        };
        Ok(self.files.read_at(place, &mut self.at, buffer, usize::MAX))
    }

    fn create_file(&mut self, _name: &str) -> Result<(), Failed>
        ensures ok { IsOk result }
        ensures after { self.new ≡ record self.old { begun = true } }
    {
        self.begun = true;
        Ok(())
    }

    fn give(&mut self, _to: To, bytes: &[u8]) -> Result<usize, Failed>
        requires { 0 < length bytes.now }
        ensures all { IfOk result (λ n. n ≡ length bytes.now) }
        ensures ok { IsOk result }
        ensures after { self.new ≡ self.old }
    {
        Ok(bytes.len())
    }

    fn drops_log(&self) -> bool
        ensures { result ≡ false }
    {
        false
    }
}
