//! The desk of a case.
ghost use Rattle.std.specs.Prelude.{◌<◌};

use cc_defs::OutOfMemory;
use std::alloc::Global;

/// How a desk behaves: which of its calls fail, the most bytes that a read gives, the room of Out, Err and Log, and whether it drops
/// a log that was not begun.
#[derive(Drop)]
pub(crate) struct Setting {
    pub(crate) fails: Vec<u32>,
    most: u32,
    pub(crate) room: [usize; 3],
    /// How many bytes less the file `log` has at its end.
    cut: u32,
    /// Whether the lines of the log are counted, and not shown.
    pub(crate) counted: bool,
    /// Whether what is given to Log is dropped until a log was begun.
    pub(crate) drops: bool,
}

/// The numbers in a line, behind its first word.
fn numbers(alloc: Global, line: &str) -> Result<Vec<u32>, OutOfMemory> {
    let mut numbers = Vec::new(alloc);
    for word in line.split_whitespace().skip(1) {
        if let Ok(number) = word.parse::<u32>() {
            numbers.push(number)?;
        }
    }
    Ok(numbers)
}

impl Setting {
    fn new(alloc: Global) -> Setting {
        Setting {
            fails: Vec::new(alloc),
            most: 4096,
            room: [1_048_576; 3],
            cut: 0,
            counted: false,
            drops: false,
        }
    }

    /// The most bytes that a read gives, at least one.
    pub(crate) fn most(&self) -> usize
        ensures { 0 < result }
    {
        if self.most == 0 {
            1
        } else {
            self.most as usize
        }
    }

    /// The bytes that the desk has of a file.
    pub(crate) fn kept<'b>(&self, name: &str, bytes: &'b [u8]) -> &'b [u8] {
        if name != "log" {
            return bytes;
        }
        let length = bytes.len().saturating_sub(self.cut as usize);
        bytes.get(..length).unwrap_or(bytes)
    }

    /// Takes in what a line says.
    fn read_line(&mut self, alloc: Global, line: &str) -> Result<(), OutOfMemory> {
        let numbers = numbers(alloc, line)?;
        match (line.split_whitespace().next(), numbers.as_slice()) {
            (Some("fails"), fails) => self.fails.extend_from_slice(fails)?,
            (Some("reads"), [most]) => self.most = *most,
            (Some("cut"), [cut]) => self.cut = *cut,
            (Some("counted"), []) => self.counted = true,
            (Some("drops"), []) => self.drops = true,
            (Some("room"), [out, err, log]) => {
                self.room = [*out as usize, *err as usize, *log as usize];
            }
            _ => {}
        }
        Ok(())
    }

    /// The setting that a text says.
    pub(crate) fn read(alloc: Global, text: &str) -> Result<Setting, OutOfMemory> {
        let mut setting = Setting::new(alloc);
        for line in text.lines() {
            setting.read_line(alloc, line)?;
        }
        Ok(setting)
    }
}
