//! The causal calculator: reads a description of actions and change, and lists its histories.
#![tactic(auto)]

pub use cc_describe::{DescribeStop, Described, describe};
pub use cc_make::make_text;
use cc_ports::{RealDesk, StandardStreams};
pub use cc_run::{Status, run, run_still};
use cc_tell::{end_run, words_of};
use std::process::ExitCode;

fn main(rt: HostRuntime) -> ExitCode {
    let Ok(_streams) = StandardStreams::hold(&rt) else {
        return ExitCode::from(Status::WriteFault.code());
    };
    let alloc = rt.alloc();
    match words_of(&rt) {
        Ok(words) => {
            let mut desk = RealDesk::new(rt);
            let status = run(alloc, &words, &mut desk);
            ExitCode::from(end_run(&mut desk, status).code())
        }
        Err(code) => ExitCode::from(code),
    }
}
