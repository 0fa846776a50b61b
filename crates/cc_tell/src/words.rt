//! The words of the program, as the machine has them.
ghost use Rattle.std.specs.Prelude.{◌≢◌};
ghost use Rattle.cc_tell.specs.Codes as codes;

use crate::status::Status;
use std::io;

/// The code where the machine does not hand the words over as texts.
const NO_WORDS: u8 = 8;

/// It is that of no status.
fn no_words() -> u8
    ensures { (status : Status) → codes.code_of status ≢ result }
{
    NO_WORDS
}

fn code_of(error: io::Error) -> u8 {
    match error.kind() {
        io::ErrorKind::OutOfMemory => Status::OutOfMemory.code(),
        _ => no_words(),
    }
}

/// The words behind the program's own name, or the exit code to end with where there are none to be had: 8 where the machine does not
/// hand them over as texts, and that of want of memory.
pub fn words_of(rt: &HostRuntime) -> Result<Vec<String>, u8> {
    let args = std::env::args(rt).map_err(code_of)?;
    args.skip(1)
        .collect(rt.alloc())
        .map_err(|_| Status::OutOfMemory.code())
}
