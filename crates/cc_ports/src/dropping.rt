//! A desk in memory that drops the lines of a log which was not begun.
ghost use Rattle.std.specs.Prelude.{◌≡◌, Some};
ghost use Rattle.cc_ports.specs.Memory.{dropping_contents_of};

use crate::memory::MemoryDesk;
use crate::{Desk, Failed, To};

/// A desk in memory that acts as the machine's does: it drops what is given to Log until a log was begun, and keeps it from then
/// on. All else is done by the desk in memory that it is made of; a piece that is dropped is no call of that one.
#[derive(Drop)]
pub struct DroppingDesk {
    desk: MemoryDesk,
}

impl DroppingDesk {
    /// A desk that does by this one what it does not drop.
    pub fn of(desk: MemoryDesk) -> DroppingDesk
        ensures { result.desk ≡ desk }
    {
        DroppingDesk { desk }
    }

    /// The desk that it is made of, with what was written.
    pub fn desk(&self) -> &MemoryDesk
        ensures { result.now ≡ self.now.desk }
    {
        &self.desk
    }
}

impl Desk for DroppingDesk {
    ghost seen = { λ d. record {
      told = Some (dropping_contents_of d.desk);
      begun = d.desk.begun;
      reads = d.desk.read_faults;
      writes = d.desk.write_faults;
      calls = None;
    } };

    ghost use Rattle.std.specs.Prelude.{None};

    fn open_file(&mut self, name: &str) -> Result<(), Failed> {
        self.desk.open_file(name)
    }

    fn read(&mut self, buffer: &mut [u8]) -> Result<usize, Failed> {
        self.desk.read(buffer)
    }

    fn create_file(&mut self, name: &str) -> Result<(), Failed> {
        self.desk.create_file(name)
    }

    fn give(&mut self, to: To, bytes: &[u8]) -> Result<usize, Failed> {
        match to {
            To::Out => self.desk.give(To::Out, bytes),
            To::Err => self.desk.give(To::Err, bytes),
            To::Log if !self.desk.has_begun() => Ok(bytes.len()),
            To::Log => self.desk.give(To::Log, bytes),
        }
    }

    fn drops_log(&self) -> bool {
        !self.desk.has_begun()
    }
}
