//! Reads a file and the files that it includes.
ghost use Rattle.std.specs.Prelude.{◌≡◌, ◌++◌, ◌∷◌, ◌≤◌, ◌+◌, [], ℕ, List as Items, Some, length, option_map, IfOk, IfErr, OnOk, IsErrOf};
ghost use Rattle.cc_defs.specs.Limits.{limit_number};
ghost use Rattle.cc_defs.specs.declared.refusal.LimitAt.TheVariants as limits;
ghost use Rattle.cc_ports.specs.Contents.{Contents, with_rest, Rose};
ghost use Rattle.cc_describe.specs.FirstRefusal.{opening_refusal};
ghost use Rattle.cc_describe.specs.Places.{Place, ArePlaces, AreThere, content, opened_in};
ghost use Rattle.cc_describe.specs.declared.heads.Heads.{Heads as Which};
ghost use Rattle.cc_describe.specs.ProgressViews.{FindsFiles, GoesSomewhere, GoesThrough, IsOpened, IsProgress, IsRefusedOpening, OpensAsKept};

use crate::progress::{Progress, take_up};
use cc_defs::{Bytes, Fault, LimitAt, OutOfMemory, Refusal};
use cc_ports::{Desk, ReadStop, read_all};
use cc_syntax::theorems::tree_or_refusal;
use cc_text::Tokens;
use cc_text::theorems::{cut_or_stop, statements_are_tokens};
use std::alloc::Global;

/// Why the reading of a description ends before its end.
#[derive(Clone, Copy)]
pub(crate) enum Halt {
    Refused(Refusal),
    ReadFault,
    OutOfMemory,
}

impl From<Fault> for Halt {
    ghost use Rattle.std.specs.Prelude.{◌≡◌};
    ghost use Rattle.cc_describe.specs.ProgressViews.{halt_of};

    ghost from_gives = { λ fault halt. halt ≡ halt_of fault };

    fn from(fault: Fault) -> Self {
        match fault {
            Fault::Refused(refusal) => Halt::Refused(refusal),
            Fault::OutOfMemory => Halt::OutOfMemory,
        }
    }
}

impl From<OutOfMemory> for Halt {
    ghost use Rattle.std.specs.Prelude.{◌≡◌};
    ghost use Rattle.cc_describe.specs.declared.files.Halt.TheVariants as halts;

    ghost from_gives = { λ _ halt. halt ≡ halts.OutOfMemory };

    fn from(_: OutOfMemory) -> Self {
        Halt::OutOfMemory
    }
}

/// Opens a file and reads its bytes; answers them with its number.
fn open<D: Desk>(
    alloc: Global,
    desk: &mut D,
    progress: &mut Progress,
    name: &str,
) -> Result<(Bytes, u32), Halt>
    ensures opened { (contents : Contents) (which : Which) (before : Items Place) →
        (D.seen desk.old).told ≡ Some contents → IsProgress which progress.old before →
        IfOk result (λ read. (read.0 ≡ content contents.files name.now)
        × IsOpened which before name.now read.0 progress.new
        × (read.1 ≡ length (opened_in before))) }
    ensures refused { (contents : Contents) (which : Which) (before : Items Place) →
        (D.seen desk.old).told ≡ Some contents → IsProgress which progress.old before →
        IfErr result (λ halt. IsRefusedOpening before name.now (content contents.files name.now)
        halt progress.new) }
    // Whatever the desk told, some bytes were read.
    ensures kept { (which : Which) (before : Items Place) → IsProgress which progress.old before →
        IfOk result (λ read. IsOpened which before name.now read.0 progress.new) }
    ensures stopped { (which : Which) (before : Items Place) →
        IsProgress which progress.old before → IfErr result (λ halt.
        (bytes : Items ℕ) × IsRefusedOpening before name.now bytes halt progress.new) }
    ensures there { (contents : Contents) → (D.seen desk.old).told ≡ Some contents →
        AreThere contents.files progress.old.names.items →
        FindsFiles contents.files result progress.new.names.items }
    ensures within { IfOk result (λ read. length read.0 ≤ limit_number limits.FileBytes) }
    ensures around { OnOk result
        (progress.new.around.items ≡ progress.old.around.items ++ name.now ∷ []) }
    ensures failed { IsErrOf result Halt.ReadFault →
        Rose (D.seen desk.old).reads (D.seen desk.new).reads }
    ensures after { (rest : Items ℕ) × ((D.seen desk.new).told
        ≡ option_map (with_rest rest) (D.seen desk.old).told) }
    ensures begun { (D.seen desk.new).begun ≡ (D.seen desk.old).begun }
    // Each file whose name is kept was opened, and no other; no log was begun.
    ensures calls { OpensAsKept progress.old.names.items progress.new.names.items
        (D.seen desk.old).calls (D.seen desk.new).calls }
    ensures calm { (IsErrOf result Halt.ReadFault → ⊥) →
        ((D.seen desk.new).reads ≡ (D.seen desk.old).reads)
        × ((D.seen desk.new).writes ≡ (D.seen desk.old).writes) }
    ensures reads_count { (D.seen desk.old).reads ≤ (D.seen desk.new).reads }
    ensures writes_count { (D.seen desk.old).writes ≤ (D.seen desk.new).writes }
{
    let file = progress.enter(alloc, name)?;
    let bytes = match read_all(alloc, desk, name, LimitAt::FileBytes.number() as usize) {
        Ok(bytes) => bytes,
        Err(ReadStop::Limit) => return Err(Halt::Refused(Refusal::past_at(
            LimitAt::FileBytes,
            file,
            1,
        ))),
        Err(ReadStop::Failed) => return Err(Halt::ReadFault),
        Err(ReadStop::OutOfMemory) => return Err(Halt::OutOfMemory),
    };
    progress.count(file, bytes.items().len())?;
    Ok((bytes, file))
}

/// Reads a file to its end, statement by statement, and where a statement includes a file that one before the next
/// statement. `deep` is how many files deep includes may still go.
pub(crate) fn read_file<D: Desk>(
    alloc: Global,
    desk: &mut D,
    progress: &mut Progress,
    name: &str,
    deep: u32,
) -> Result<(), Halt>
    requires { length progress.now.around.items + deep ≡ limit_number limits.IncludeDepth }
    ensures gone { (contents : Contents) (which : Which) (before : Items Place) →
        (D.seen desk.old).told ≡ Some contents → IsProgress which progress.old before →
        GoesThrough which (ArePlaces deep contents.files progress.old.around.items
        (length (opened_in before)) name.now) before result progress.new }
    ensures kept { (which : Which) (before : Items Place) →
        IsProgress which progress.old before → GoesSomewhere which before result progress.new }
    ensures there { (contents : Contents) → (D.seen desk.old).told ≡ Some contents →
        AreThere contents.files progress.old.names.items →
        FindsFiles contents.files result progress.new.names.items }
    ensures around { OnOk result (progress.new.around.items ≡ progress.old.around.items) }
    ensures failed { IsErrOf result Halt.ReadFault →
        Rose (D.seen desk.old).reads (D.seen desk.new).reads }
    ensures after { (rest : Items ℕ) × ((D.seen desk.new).told
        ≡ option_map (with_rest rest) (D.seen desk.old).told) }
    ensures begun { (D.seen desk.new).begun ≡ (D.seen desk.old).begun }
    // Each file whose name is kept was opened, and no other; no log was begun.
    ensures calls { OpensAsKept progress.old.names.items progress.new.names.items
        (D.seen desk.old).calls (D.seen desk.new).calls }
    ensures calm { (IsErrOf result Halt.ReadFault → ⊥) →
        ((D.seen desk.new).reads ≡ (D.seen desk.old).reads)
        × ((D.seen desk.new).writes ≡ (D.seen desk.old).writes) }
    ensures reads_count { (D.seen desk.old).reads ≤ (D.seen desk.new).reads }
    ensures writes_count { (D.seen desk.old).writes ≤ (D.seen desk.new).writes }
{
    cut_or_stop();
    statements_are_tokens();
    tree_or_refusal();
    let (bytes, file) = open(alloc, desk, progress, name)?;
    let tokens = match Tokens::read(alloc, file, bytes.items()) {
        Ok(tokens) => tokens,
        Err(fault) => return Err(Halt::from(fault)),
    };
    for i in 0..tokens.count() {
        match take_up(alloc, tokens.statement(i), file, progress)? {
            // A deeper include was refused.
            Some(included) => {
                if deep > 0 {
                    read_file(alloc, desk, progress, included, deep - 1)?;
                }
            }
            None => {}
        }
    }
    progress.leave();
    Ok(())
}
