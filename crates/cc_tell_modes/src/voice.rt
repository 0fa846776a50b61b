//! What tells the events of a run, one by one.
ghost use Rattle.std.specs.Prelude.{◌≡◌, IfOk, OnOk, Option};
ghost use Rattle.cc_tell.specs.declared.status.Status.{Status as StatusOf};
ghost use Rattle.cc_tell.specs.Givens.{Given};
ghost use Rattle.cc_tell.specs.Steps.{Step};

use cc_ports::Desk;
use cc_tell::{Status, Stop};
use std::alloc::Global;

/// Tells the events of a run.
pub trait Voice {
    /// What is told.
    type Event;

    /// What it names, as a description, what it has counted, and when it speaks of these.
    ghost Of: { Type 0 };

    ghost State: { Type 0 };

    ghost Speaks: { Self → Of → State → Type 0 };

    /// What is given of an event, what is counted behind it, and the status of a run whose last event it is.
    ghost text: { Of → State → Self.Event → Given };

    ghost after: { State → Self.Event → State };

    ghost status: { Self.Event → Option StatusOf };

    /// Which events it can tell.
    ghost can: { Self → Self.Event → Type 0 };

    /// Gives all that an event is told by, each line by one call, and answers the run's status where it is the last one.
    fn tell<D: Desk>(
        &mut self,
        alloc: Global,
        desk: &mut D,
        event: &Self::Event,
    ) -> Result<Option<Status>, Stop>
        requires { can self.old event.now }
        ensures tells { (of : Of) (state : State) → Speaks self.old of state →
            Step (text of state event.now) (D.seen desk.old) (D.seen desk.new) result }
        ensures moves { (of : Of) (state : State) → Speaks self.old of state →
            OnOk result (Speaks self.new of (after state event.now)) }
        ensures keeps { (other : Self.Event) → can self.old other → can self.new other }
        ensures ends { IfOk result (λ ends. ends ≡ status event.now) };
}
