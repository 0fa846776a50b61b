//! The end of a program over the machine's desk.
use crate::refusing::tell_stop;
use crate::status::{Status, Stop};
use cc_ports::RealDesk;

/// Puts the log of a run into its place, and answers the run's status; where the machine fails at that, it is a fault of writing,
/// told as one within the run. A run that was cut short by a fault leaves its log beside the place, under the name of one that is
/// not finished.
pub fn end_run(desk: &mut RealDesk, status: Status) -> Status {
    match status {
        Status::ReadFault | Status::WriteFault | Status::OutOfMemory => status,
        Status::Right | Status::Not | Status::Refused | Status::Spent | Status::Asked => {
            match desk.end_log() {
                Ok(()) => status,
                Err(_) => tell_stop(desk, Stop::WriteFault),
            }
        }
    }
}
