//! Files in memory.
ghost use Rattle.std.specs.Prelude.{◌≡◌, ◌+◌, ◌-◌, min, length, take, drop};
ghost use Rattle.cc_ports.specs.Memory.{place_in, bytes_at};

use cc_defs::{Bytes, Name};
use std::marker::Model;

/// Files by name: of several files of one name the first counts.
#[derive(Drop)]
pub struct Files {
    files: Vec<(Name, Bytes)>,
}

impl Model for Files {
    ghost use Rattle.std.specs.Prelude.{List, ℕ};

    ghost Value = { List (List ℕ × List ℕ) };

    ghost view = { λ value. value.files.items };
}

impl Files {
    /// These files.
    pub fn of(items: Vec<(Name, Bytes)>) -> Self
        ensures { result ≡ items.items }
    {
        Files { files: items }
    }

    /// The files in order.
    pub fn items(&self) -> &[(Name, Bytes)]
        ensures { result.now ≡ self.now }
    {
        self.files.as_slice()
    }

    /// The place of the first file of this name.
    pub(crate) fn place_of(&self, name: &str) -> Option<usize>
        ensures { result ≡ place_in self.now name.now }
    {
        self.files.iter().position(|file| file.0.text() == name)
    }

    /// The bytes of the file at a place; none past the last file.
    fn bytes_at(&self, place: usize) -> &[u8]
        ensures { result.now ≡ bytes_at self.now place }
    {
        match self.files.get(place) {
            Some(file) => file.1.items(),
            None => &[],
        }
    }

    /// Copies what the file at a place has from `at` on into the front of a buffer, at most so many bytes. It moves `at`
    /// past them, and answers how many.
    pub(crate) fn read_at(
        &self,
        place: usize,
        at: &mut usize,
        buffer: &mut [u8],
        most: usize,
    ) -> usize
        ensures count { result
            ≡ min (length buffer.old) (min most (length (bytes_at self.now place) - at.old)) }
        ensures front { take result buffer.new
            ≡ take result (drop at.old (bytes_at self.now place)) }
        ensures at { at.new ≡ at.old + result }
    {
        let bytes = self.bytes_at(place);
        if *at >= bytes.len() {
            return 0;
        }
        let rest = &bytes[*at..];
        let n = buffer.len().min(most).min(rest.len());
        buffer[..n].copy_from_slice(&rest[..n]);
        *at += n;
        n
    }
}
