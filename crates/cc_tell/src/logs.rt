//! The log of a run, begun where one is named.
ghost use Rattle.std.specs.Prelude.{is_some, option_map};
ghost use Rattle.cc_defs.specs.Runs.{optional};
ghost use Rattle.cc_tell.specs.Steps.{Begins};

use crate::status::Stop;
use cc_ports::Desk;

/// Begins a log where one is named. Stops by a write fault where it could not be begun.
pub fn begin_log<D: Desk>(desk: &mut D, name: Option<&str>) -> Result<(), Stop>
    ensures { Begins (is_some name.entry) (optional (option_map (λ text. text.now) name.entry))
        (D.seen desk.old) (D.seen desk.new) result }
{
    match name {
        Some(name) => match desk.create_file(name) {
            Ok(()) => Ok(()),
            Err(_) => Err(Stop::WriteFault),
        },
        None => Ok(()),
    }
}
