//! What engines have in common that tell a run event by event.
#![tactic(auto)]

ghost use Rattle.std.specs.Prelude.{ℕ, Bool, IfErr, IfOk};
ghost use Rattle.cc_defs.specs.declared.refusal.Refusal.{Refusal};
ghost use Rattle.cc_turns.specs.Turns.{Behind, GoesOnBy, IsFaultBy};

use cc_defs::Fault;

/// A run, told event by event.
pub trait Turns {
    /// What is told next.
    type Event: Drop;

    /// What a run may be about, with what is asked of it; and a run so far.
    ghost Of: { Type 0 };

    ghost Run: { Type 0 };

    /// What this one is about; and at which run it stands: a fair one, whose events it told.
    ghost Is: { Self → Of → Type 0 };

    ghost Stands: { Self → Of → Run → Type 0 };

    /// Which runs tell the truth; which limit a run comes to; and which event leads from a run to another one.
    ghost Fair: { Of → Run → Type 0 };

    ghost Limit: { Of → Run → Refusal → Type 0 };

    ghost Says: { Of → Run → Self.Event → Run → Type 0 };

    /// Which events can be printed: numbers are short, rows are of their horizon.
    ghost Fit: { Self → Self.Event → Type 0 };

    /// Whether there is more to come, and how much at most; and whether an event is the last.
    ghost more: { Self → Type 0 };

    ghost left: { Self → ℕ };

    ghost last: { Self.Event → Bool };

    /// The next event. Refuses the limit that the run comes to. After the last event, as after an error, nothing more is told.
    fn next(&mut self) -> Result<Self::Event, Fault>
        requires { more self.old }
        ensures tells { IfOk result (Behind Is Stands Says left self.old self.new) }
        ensures same { (of : Of) → Is self.old of → Is self.new of }
        ensures refused { (of : Of) (run : Run) → Is self.old of → Stands self.old of run →
            IfErr result (IsFaultBy (Limit of run)) }
        ensures fit { (of : Of) (run : Run) → Is self.old of → Stands self.old of run →
            IfOk result (Fit self.old) }
        ensures fits { (event : Self.Event) → Fit self.new event → Fit self.old event }
        ensures goes { IfOk result (λ event. GoesOnBy (last event) (more self.new)) };

    /// A run at which it stands is fair.
    ghost fair: { (engine : Self) (of : Of) (run : Run) → Is engine of → Stands engine of run →
        Fair of run };
}
