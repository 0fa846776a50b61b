//! What a mode is that works on a description, and how it is answered.
ghost use Rattle.std.specs.Prelude.{◌≡◌, List, IfSome};
ghost use Rattle.cc_describe.specs.declared.heads.Heads.{Heads as WhichHeads};
ghost use Rattle.cc_describe.specs.Describing.{DescribesWide};
ghost use Rattle.cc_list.specs.Promises.{Promise, names_log};
ghost use Rattle.cc_list.specs.Stops.{Prints, PrintsAsked};
ghost use Rattle.cc_run.specs.Reading.{BeginsByReading, IsReadWell, TellsFault};
ghost use Rattle.cc_words.specs.Words.{Text};

use cc_defs::Fault;
use cc_describe::{DescribeStop, Described, DescribedWide, Heads, describe_with};
use cc_ports::Desk;
use cc_tell::{Status, Stop, file_named, refuse};
use std::alloc::Global;

/// A mode that works on a description, with what its words ask for.
pub(crate) trait Mode {
    // What it promises; which heads the laws may have; the name of the description; and the files that it opens behind those of
    // the description.
    ghost promise: { Self → Promise };

    ghost which: { Self → WhichHeads };

    ghost file: { Self → Text };

    ghost behind: { Self → List Text };
    // That its numbers are within their bounds.
    ghost within: { Self → Type 0 };

    /// Which heads the laws of the description may have.
    fn heads(&self) -> Heads
        ensures { result ≡ which self.now };

    /// The name of the description's file.
    fn file(&self) -> &str
        ensures { result.now ≡ file self.now };

    /// The answer over the description that was read.
    fn answer<D: Desk>(
        &self,
        alloc: Global,
        desk: &mut D,
        said: &DescribedWide,
    ) -> Result<Status, Stop>
        requires within { within self.now }
        requires read { IsReadWell (which self.now) said.now }
        ensures { IfSome (D.seen desk.old).told
            (λ before. DescribesWide (which self.now) before.files (file self.now) said.now) →
            Prints (promise self.now) (names_log (promise self.now)) (behind self.now)
            (D.seen desk.old) (D.seen desk.new) result };
}

/// The answer of a mode: it reads the description, and tells its first refusal or goes on with it.
pub(crate) fn answer_file<M: Mode, D: Desk>(
    alloc: Global,
    desk: &mut D,
    mode: &M,
) -> Result<Status, Stop>
    requires within { M.within mode.now }
    requires begins { BeginsByReading (M.promise mode.now) (M.which mode.now) (M.file mode.now)
        (M.behind mode.now) }
    ensures { PrintsAsked (M.promise mode.now) (names_log (M.promise mode.now)) (D.seen desk.old)
        (D.seen desk.new) result }
{
    match describe_with(alloc, desk, mode.file(), mode.heads()) {
        Ok(said) => mode.answer(alloc, desk, &said),
        Err(DescribeStop::Refused { refusal, file }) => refuse(alloc, desk, &refusal, file.text()),
        Err(DescribeStop::ReadFault) => Err(Stop::ReadFault),
        Err(DescribeStop::OutOfMemory) => Err(Stop::OutOfMemory),
    }
}

/// Tells what is refused of a description that was read, with the name of the file that the refusal speaks of; or stops for want of
/// memory.
pub(crate) fn refuse_fault<D: Desk>(
    alloc: Global,
    desk: &mut D,
    described: &Described,
    fault: &Fault,
) -> Result<Status, Stop>
    ensures { TellsFault described.now.files fault.now (D.seen desk.old) (D.seen desk.new) result }
{
    match fault {
        Fault::Refused(refusal) => {
            let file = file_named(described.files.items(), refusal);
            refuse(alloc, desk, refusal, file)
        }
        Fault::OutOfMemory => Err(Stop::OutOfMemory),
    }
}
