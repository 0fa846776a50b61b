//! How a run ends.
ghost use Rattle.std.specs.Prelude.{◌≡◌};
ghost use Rattle.cc_tell.specs.Codes.{code_of};
ghost use Rattle.cc_tell.specs.Statuses as statuses;

use cc_defs::{Ending, OutOfMemory};
use std::alloc::{AllocError, AllocFailed};

/// How a run ends.
#[derive(Clone, Copy, PartialEq, Eq)]
pub enum Status {
    /// The listing is complete, the claim holds, a checker accepts the log, or the history is explained.
    Right,
    /// No horizon of the range has a history, the claim fails, a checker refuses the log, or the row is not a history.
    Not,
    /// The words, the description, the query or the key were refused, the log is too long, or a limit was passed.
    Refused,
    /// The budget of derived clauses is spent.
    Spent,
    /// A file is not there, or could not be read.
    ReadFault,
    /// An output could not be written.
    WriteFault,
    /// Memory was wanting.
    OutOfMemory,
    /// As many histories as were asked for were told.
    Asked,
}

impl Status {
    /// The exit code of the program.
    pub fn code(self) -> u8
        ensures { result ≡ code_of self }
    {
        match self {
            Status::Right => 0,
            Status::Not => 1,
            Status::Refused => 2,
            Status::Spent => 3,
            Status::ReadFault => 4,
            Status::WriteFault => 5,
            Status::OutOfMemory => 6,
            Status::Asked => 7,
        }
    }
}

/// Why a run stops before its end.
#[derive(Clone, Copy)]
pub enum Stop {
    /// A file is not there, or could not be read.
    ReadFault,
    /// An output could not be written, or a log not be begun.
    WriteFault,
    /// Memory was wanting.
    OutOfMemory,
}

impl From<OutOfMemory> for Stop {
    ghost use Rattle.std.specs.Prelude.{◌≡◌};
    ghost use Rattle.cc_tell.specs.declared.status.Stop.TheVariants as stops;

    ghost from_gives = { λ _ stop. stop ≡ stops.OutOfMemory };

    fn from(_: OutOfMemory) -> Self {
        Stop::OutOfMemory
    }
}

impl From<AllocError> for Stop {
    ghost use Rattle.std.specs.Prelude.{◌≡◌};
    ghost use Rattle.cc_tell.specs.declared.status.Stop.TheVariants as stops;

    ghost from_gives = { λ _ stop. stop ≡ stops.OutOfMemory };

    fn from(_: AllocError) -> Self {
        Stop::OutOfMemory
    }
}

impl<T: Drop> From<AllocFailed<T>> for Stop {
    ghost use Rattle.std.specs.Prelude.{◌≡◌};
    ghost use Rattle.cc_tell.specs.declared.status.Stop.TheVariants as stops;

    ghost from_gives = { λ _ stop. stop ≡ stops.OutOfMemory };

    fn from(_: AllocFailed<T>) -> Self {
        Stop::OutOfMemory
    }
}

/// The status of a run that ends so.
pub fn status_of(ending: Ending) -> Status
    ensures { result ≡ statuses.status_of ending }
{
    match ending {
        Ending::Complete { .. } | Ending::ClaimHolds | Ending::ClaimEmpty => Status::Right,
        Ending::NoHistory | Ending::ClaimFails => Status::Not,
        Ending::Spent { .. } => Status::Spent,
        Ending::Asked { .. } => Status::Asked,
    }
}
