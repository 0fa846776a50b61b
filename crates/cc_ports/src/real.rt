//! The machine's own desk: the trusted edge.
ghost use Rattle.std.specs.Prelude.{◌≡◌, ◌≤◌, false, is_some};
ghost use Rattle.cc_ports.specs.Contents.{Rose};

use crate::log_file::{FileNumber, LogFile};
use crate::{Desk, Failed, To};
use std::fs::File;
use std::io;
use std::io::{Read, Write};
use std::os::fd::AsRawFd;

/// Files and standard streams of the machine. It counts its faults, tells nothing of its contents, and drops what is
/// given to the log while no log was begun. Any error of the machine counts as a fault, want of memory included.
///
/// A log is begun at no plain file that was read. It is written beside its place, as `NAME.unfinished`, and `end_log` puts it
/// there; the kinds of place of which this can't be done are written at once.
#[derive(Drop)]
pub struct RealDesk {
    rt: HostRuntime,
    reading: Option<File>,
    /// The plain files that were opened to be read.
    read: Vec<FileNumber>,
    log: Option<LogFile>,
    read_faults: u64,
    write_faults: u64,
}

impl RealDesk {
    /// A desk of the machine, with no log and no faults.
    pub fn new(rt: HostRuntime) -> RealDesk
        ensures begun { is_some result.log ≡ false }
        ensures read_faults { result.read_faults ≡ 0 }
        ensures write_faults { result.write_faults ≡ 0 }
    {
        let read = Vec::new(rt.alloc());
        RealDesk {
            rt,
            reading: None,
            read,
            log: None,
            read_faults: 0,
            write_faults: 0,
        }
    }

    /// Ends the log that was begun, if one was: it is brought to the disk and put into its place. It is no call of the desk; a run
    /// that was cut short by a fault leaves its log unfinished. A fault of writing where the machine fails: then the log may stand
    /// beside its place, under the name that it was written by.
    pub fn end_log(&mut self) -> Result<(), Failed>
        ensures { self.old.write_faults ≤ self.new.write_faults }
    {
        let Some(log) = self.log.take() else {
            return Ok(());
        };
        match log.end(&self.rt) {
            Ok(()) => Ok(()),
            Err(_) => Err(fault(&mut self.write_faults)),
        }
    }

    /// Opens a file to be read, and notes which one it is.
    fn open(&mut self, name: &str) -> io::Result<File>
        ensures log { self.new.log ≡ self.old.log }
        ensures read_faults { self.new.read_faults ≡ self.old.read_faults }
        ensures write_faults { self.new.write_faults ≡ self.old.write_faults }
    {
        let file = std::fs::open(&self.rt, name)?;
        if let Some(number) = FileNumber::of(&file.metadata()?) {
            self.read.push(number)?;
        }
        Ok(file)
    }
}

/// Counts a fault.
fn fault(count: &mut u64) -> Failed
    ensures rose { Rose count.old count.new }
    ensures count { count.old ≤ count.new }
{
    *count = count.saturating_add(1);
    Failed
}

/// Files that are held open so that what is opened next gets none of the numbers 0 to 2, which are those of the standard streams: a
/// program whose caller has closed one of them would else write what it prints into the next file that it opens.
#[derive(Drop)]
pub struct StandardStreams {
    held: [Option<File>; 3],
}

impl StandardStreams {
    /// Takes those of the three numbers that are free. A fault where no file can be opened for it.
    pub fn hold(rt: &HostRuntime) -> Result<StandardStreams, Failed> {
        let mut held = [None, None, None];
        for place in &mut held {
            let Ok(file) = any_file(rt) else {
                return Err(Failed);
            };
            if file.as_raw_fd() > 2 {
                break;
            }
            *place = Some(file);
        }
        Ok(StandardStreams { held })
    }
}

/// A file that is there on every machine.
fn any_file(rt: &HostRuntime) -> io::Result<File> {
    match std::fs::open(rt, "/dev/null") {
        Ok(file) => Ok(file),
        Err(_) => std::fs::open(rt, "/"),
    }
}

impl Desk for RealDesk {
    ghost use Rattle.std.specs.Prelude.{None, is_some};

    ghost seen = { λ desk. record {
      told = None;
      begun = is_some desk.log;
      reads = desk.read_faults;
      writes = desk.write_faults;
      calls = None;
    } };

    fn open_file(&mut self, name: &str) -> Result<(), Failed> {
        self.reading = None;
        match self.open(name) {
            Ok(file) => {
                self.reading = Some(file);
                Ok(())
            }
            Err(_) => Err(fault(&mut self.read_faults)),
        }
    }

    fn read(&mut self, buffer: &mut [u8]) -> Result<usize, Failed> {
        let Some(file) = &mut self.reading else {
            return Ok(0);
        };
        match file.read(buffer) {
            Ok(n) => Ok(n),
            Err(_) => Err(fault(&mut self.read_faults)),
        }
    }

    fn create_file(&mut self, name: &str) -> Result<(), Failed> {
        match LogFile::begin(&self.rt, name, &self.read) {
            Ok(log) => {
                self.log = Some(log);
                Ok(())
            }
            Err(_) => Err(fault(&mut self.write_faults)),
        }
    }

    fn give(&mut self, to: To, bytes: &[u8]) -> Result<usize, Failed> {
        let written = match to {
            To::Out => self.rt.stdout().write(bytes),
            To::Err => self.rt.stderr().write(bytes),
            To::Log => match &mut self.log {
                Some(log) => log.file().write(bytes),
                None => Ok(bytes.len()),
            },
        };
        match written {
            Ok(n) if n > 0 => Ok(n),
            _ => Err(fault(&mut self.write_faults)),
        }
    }

    fn drops_log(&self) -> bool {
        self.log.is_none()
    }
}
