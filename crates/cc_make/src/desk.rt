//! A desk with one text.
ghost use Rattle.std.specs.Prelude.{◌≡◌, ◌≤◌, None, Some, false};
ghost use Rattle.cc_make.specs.Single.{contents_of};
ghost use Rattle.cc_ports.specs.Contents.{Rose};

use cc_ports::{Desk, Failed, To};
use std::marker::Model;

/// A desk on which each name is that of a file with one text. Its reads never fail. It takes nothing: each give, and each log
/// that is to be begun, is a fault.
#[derive(Drop)]
pub struct TextDesk<'a> {
    text: &'a [u8],
    /// How much of it was read.
    at: usize,
    write_faults: u64,
}

impl<'a> Model for TextDesk<'a> {
    ghost use Rattle.std.specs.Prelude.{drop};
    ghost use Rattle.cc_make.specs.Single.{Single};

    ghost Value = { Single };

    ghost view = { λ desk. record {
      text = desk.text.now;
      rest = drop desk.at desk.text.now;
      write_faults = desk.write_faults;
    } };
}

impl<'a> TextDesk<'a> {
    /// A desk with this text.
    pub fn of(text: &'a [u8]) -> TextDesk<'a>
        ensures text { result.text ≡ text.entry.now }
        ensures faults { result.write_faults ≡ 0 }
    {
        TextDesk {
            text,
            at: 0,
            write_faults: 0,
        }
    }

    fn write_failed(&mut self) -> Failed
        ensures text { self.new.text ≡ self.old.text }
        ensures rest { self.new.rest ≡ self.old.rest }
        ensures rose { Rose self.old.write_faults self.new.write_faults }
        ensures count { self.old.write_faults ≤ self.new.write_faults }
    {
        self.write_faults = self.write_faults.saturating_add(1);
        Failed
    }
}

impl<'a> Desk for TextDesk<'a> {
    ghost seen = { λ desk. record {
      told = Some (contents_of desk);
      begun = false;
      reads = 0;
      writes = desk.write_faults;
      calls = None;
    } };

    fn open_file(&mut self, _name: &str) -> Result<(), Failed> {
        self.at = 0;
        Ok(())
    }

    fn read(&mut self, buffer: &mut [u8]) -> Result<usize, Failed> {
        if self.at >= self.text.len() {
            return Ok(0);
        }
        let rest = &self.text[self.at..];
        let n = buffer.len().min(rest.len());
        buffer[..n].copy_from_slice(&rest[..n]);
        self.at += n;
        Ok(n)
    }

    fn create_file(&mut self, _name: &str) -> Result<(), Failed> {
        Err(self.write_failed())
    }

    fn give(&mut self, _to: To, _bytes: &[u8]) -> Result<usize, Failed> {
        Err(self.write_failed())
    }

    fn drops_log(&self) -> bool {
        false
    }
}
