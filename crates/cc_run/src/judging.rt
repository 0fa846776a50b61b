//! A log that words name: what judges it, and how its verdict is told.
ghost use Rattle.std.specs.Prelude.{◌≡◌, ◌≤◌, ℕ, List, length, IfErr, IfOk};
ghost use Rattle.cc_defs.specs.declared.refusal.Refusal.{Refusal as RefusalAt};
ghost use Rattle.cc_defs.specs.Limits.{most_log_bytes};
ghost use Rattle.cc_run.specs.Judging.{IsLogFault, TellsJudged, TellsVerdict};
ghost use Rattle.cc_tell.specs.declared.status.Status.{Status as Ends};
ghost use Rattle.cc_tell.specs.Givens.{only_out};
ghost use Rattle.cc_tell.specs.Steps.{Step};

use cc_defs::{Fault, LimitAt, Refusal};
use cc_ports::{Desk, ReadStop, read_all};
use cc_tell::{Status, Stop, refuse};
use std::alloc::Global;

/// What judges logs of one kind.
pub(crate) trait Judge {
    /// What it says of a log.
    type Verdict: Drop;

    // What its logs are of, and that they are to be of this; that it can judge.
    ghost Subject: { Type 0 };

    ghost about: { Self → Subject → Type 0 };

    ghost ready: { Self → Type 0 };
    // That this is the verdict on a log, and that a log reaches a section that passes a limit; the line and the status of a verdict.
    ghost Is: { Subject → List ℕ → Self.Verdict → Type 0 };

    ghost Passes: { Subject → List ℕ → RefusalAt → Type 0 };

    ghost line: { Self.Verdict → List ℕ };

    ghost ends: { Self.Verdict → Ends };

    /// The verdict on the bytes of a log. Refuses a section that passes a limit.
    fn judge(&self, alloc: Global, bytes: &[u8]) -> Result<Self::Verdict, Fault>
        requires ready { ready self.now }
        requires few { length bytes.now ≤ most_log_bytes }
        ensures verdict { (subject : Subject) → about self.now subject →
            IfOk result (Is subject bytes.now) }
        ensures refused { (subject : Subject) → about self.now subject →
            IfErr result (IsLogFault (Passes subject bytes.now)) };

    /// Tells a verdict by its line, and answers its status.
    fn tell<D: Desk>(alloc: Global, desk: &mut D, verdict: &Self::Verdict) -> Result<Status, Stop>
        ensures told { Step (only_out (line verdict.now)) (D.seen desk.old) (D.seen desk.new)
            result }
        ensures status { IfOk result (λ status. status ≡ ends verdict.now) };
}

// Judges the bytes of a log, and tells the verdict.
fn tell_judged<J: Judge, D: Desk>(
    alloc: Global,
    desk: &mut D,
    judge: &J,
    bytes: &[u8],
) -> Result<Status, Stop>
    requires ready { J.ready judge.now }
    requires few { length bytes.now ≤ most_log_bytes }
    ensures { (subject : J.Subject) → J.about judge.now subject →
        TellsJudged (J.Is subject bytes.now) (J.Passes subject bytes.now) J.line J.ends
        (D.seen desk.old) (D.seen desk.new) result }
{
    match judge.judge(alloc, bytes) {
        Ok(verdict) => J::tell(alloc, desk, &verdict),
        Err(Fault::Refused(refusal)) => refuse(alloc, desk, &refusal, ""),
        Err(Fault::OutOfMemory) => Err(Stop::OutOfMemory),
    }
}

/// Reads a log, judges it, and tells the verdict.
pub(crate) fn judge_log<J: Judge, D: Desk>(
    alloc: Global,
    desk: &mut D,
    log: &str,
    judge: &J,
) -> Result<Status, Stop>
    requires ready { J.ready judge.now }
    ensures { (subject : J.Subject) → J.about judge.now subject →
        TellsVerdict (J.Is subject) (J.Passes subject) J.line J.ends log.now (D.seen desk.old)
        (D.seen desk.new) result }
{
    match read_all(alloc, desk, log, LimitAt::LogBytes.number() as usize) {
        Ok(bytes) => tell_judged(alloc, desk, judge, bytes.items()),
        Err(ReadStop::Limit) => refuse(alloc, desk, &Refusal::past(LimitAt::LogBytes), ""),
        Err(ReadStop::Failed) => Err(Stop::ReadFault),
        Err(ReadStop::OutOfMemory) => Err(Stop::OutOfMemory),
    }
}
