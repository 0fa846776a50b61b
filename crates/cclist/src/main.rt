//! List mode of the causal calculator as a program of its own, which stands on fewer crates than the whole: what `ccalc` answers first on
//! a machine that has no proofs yet. Words that ask for another mode it does not answer; it ends with 9 then, and has done nothing.
#![tactic(auto)]

ghost use Rattle.std.specs.Prelude.{◌≢◌};
ghost use Rattle.cc_tell.specs.Codes as codes;

pub use cc_list::run_list;
use cc_ports::{RealDesk, StandardStreams};
use cc_tell::{Status, end_run, words_of};
use std::process::ExitCode;

/// The code where the words ask for another mode.
const OTHER_MODE: u8 = 9;

/// It is that of no status.
fn other_mode() -> u8
    ensures { (status : Status) → codes.code_of status ≢ result }
{
    OTHER_MODE
}

fn code_of(desk: &mut RealDesk, ended: Option<Status>) -> u8 {
    match ended {
        Some(status) => end_run(desk, status).code(),
        None => other_mode(),
    }
}

fn main(rt: HostRuntime) -> ExitCode {
    let Ok(_streams) = StandardStreams::hold(&rt) else {
        return ExitCode::from(Status::WriteFault.code());
    };
    let alloc = rt.alloc();
    match words_of(&rt) {
        Ok(words) => {
            let mut desk = RealDesk::new(rt);
            let ended = run_list(alloc, &words, &mut desk);
            ExitCode::from(code_of(&mut desk, ended))
        }
        Err(code) => ExitCode::from(code),
    }
}
