//! A run is told, event by event, up to its end.
ghost use Rattle.std.specs.Prelude.{◌≡◌, IsNone, false};
ghost use Rattle.cc_tell.specs.Givens.{Given};
ghost use Rattle.cc_tell_modes.specs.RunsTold.{GivesBy, StopsFor, TellsRun};

use crate::voice::Voice;
use cc_defs::Fault;
use cc_ports::Desk;
use cc_tell::{Status, Stop, refuse};
use cc_turns::Turns;
use std::alloc::Global;

/// Tells why a run goes no further.
fn stop_for<D: Desk>(alloc: Global, desk: &mut D, fault: Fault) -> Result<Status, Stop>
    ensures { StopsFor fault (D.seen desk.old) (D.seen desk.new) result }
{
    match fault {
        Fault::Refused(refusal) => refuse(alloc, desk, &refusal, ""),
        Fault::OutOfMemory => Err(Stop::OutOfMemory),
    }
}

/// Tells all events of a run, one after another, up to the last one or to a limit that the run comes to, and answers its status.
/// `given` is what is given of a run in all, where `GivesBy` says that it grows by what the voice gives of each event.
pub fn tell_all<E: Turns + Drop, V: Voice<Event = E::Event> + Drop, D: Desk>(
    alloc: Global,
    desk: &mut D,
    mut engine: E,
    mut voice: V,
) -> Result<Status, Stop>
    requires more { E.more engine }
    requires about { (of : E.Of) × (run : E.Run) × E.Is engine of × E.Stands engine of run }
    requires ends { (event : E.Event) → IsNone (V.status event) → E.last event ≡ false }
    requires fits { (event : E.Event) → E.Fit engine event → V.can voice event }
    ensures { (of : E.Of) (run : E.Run) (words : V.Of) (state : E.Run → V.State) (given : E.Run → Given) →
        E.Is engine of → E.Stands engine of run → V.Speaks voice words (state run) →
        GivesBy (E.Fair of) (E.Says of) (V.text words) V.after state given →
        TellsRun (E.Fair of) (E.Limit of) (E.Says of) V.status given (given run) (D.seen desk.old)
        (D.seen desk.new) result }
{
    loop {
        match engine.next() {
            Ok(event) => {
                if let Some(status) = voice.tell(alloc, desk, &event)? {
                    return Ok(status);
                }
            }
            Err(fault) => return stop_for(alloc, desk, fault),
        }
    }
}
