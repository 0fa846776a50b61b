//! A CNF that words name, read as a clause list.
ghost use Rattle.std.specs.Prelude.{◌≡◌, ◌≤◌, ℕ, List, [], ◌∷◌, IfOk, IfErr, IfSome, IsErrOf, length, option_map};
ghost use Rattle.cc_defs.specs.declared.refusal.Refusal.{Refusal as RefusalSeen};
ghost use Rattle.cc_defs.specs.Limits.{most_log_bytes};
ghost use Rattle.cc_describe.specs.FirstRefusal as refusals;
ghost use Rattle.cc_dimacs.specs.Cnfs.{PlainCnf};
ghost use Rattle.cc_ports.specs.Contents.{Rose, with_rest};
ghost use Rattle.cc_run.specs.CnfForms.{HasForm, IsFormFault, IsFormOf};
ghost use Rattle.cc_run.specs.Modes.Modelling.{IsCnfIn, RefusesCnf};
ghost use Rattle.cc_tell.specs.Steps.{Called, IsCalm};

use cc_defs::{Fault, LimitAt, Refusal};
use cc_dimacs::{cnf_form, read_cnf};
use cc_form::Form;
use cc_ports::{Desk, ReadStop, read_all};
use std::alloc::Global;

/// Why there is no clause list.
pub(crate) enum CnfStop {
    /// The file, its text or the clause list is refused.
    Refused(Refusal),
    ReadFault,
    OutOfMemory,
}

/// The name of the file that a refusal speaks of, where it is this one; an empty one where it has no place.
pub(crate) fn name_of<'n>(file: &'n str, refusal: &Refusal) -> &'n str
    ensures { result.now ≡ refusals.file_named (file.now ∷ []) refusal.now }
{
    if refusal.line == 0 {
        return "";
    }
    if refusal.file == 0 { file } else { "" }
}

/// The clause list of a text.
fn form_of(alloc: Global, bytes: &[u8]) -> Result<Form, Fault>
    requires { length bytes.now ≤ most_log_bytes }
    ensures form { IfOk result (HasForm bytes.now) }
    ensures refused { IfErr result (IsFormFault bytes.now) }
{
    let cnf = read_cnf(alloc, bytes)?;
    cnf_form(alloc, &cnf)
}

/// Reads the CNF of a file. Refuses more than 1,048,576 bytes (14, at line 1), a text that is none (19, at its line), and what
/// passes a limit (14, without a place).
pub(crate) fn read_form<D: Desk>(alloc: Global, desk: &mut D, file: &str) -> Result<Form, CnfStop>
    ensures form { IfOk result (λ form. (cnf : PlainCnf) × IsFormOf cnf form
        × IfSome (D.seen desk.old).told (λ c. IsCnfIn c.files file.now cnf)) }
    ensures refused { IfErr result (λ stop. (refusal : RefusalSeen) →
        stop ≡ CnfStop.Refused refusal → IfSome (D.seen desk.old).told
        (λ c. RefusesCnf c.files file.now refusal (refusals.file_named (file.now ∷ []) refusal))) }
    ensures failed { IsErrOf result CnfStop.ReadFault →
        Rose (D.seen desk.old).reads (D.seen desk.new).reads }
    ensures after { (rest : List ℕ) × ((D.seen desk.new).told
        ≡ option_map (with_rest rest) (D.seen desk.old).told) }
    ensures begun { (D.seen desk.new).begun ≡ (D.seen desk.old).begun }
    ensures called { Called (file.now ∷ []) [] (D.seen desk.old) (D.seen desk.new) }
    ensures calm { (IsErrOf result CnfStop.ReadFault → ⊥) →
        IsCalm (D.seen desk.old) (D.seen desk.new) }
    ensures reads_count { (D.seen desk.old).reads ≤ (D.seen desk.new).reads }
    ensures writes_count { (D.seen desk.old).writes ≤ (D.seen desk.new).writes }
{
    let bytes = match read_all(alloc, desk, file, LimitAt::FileBytes.number() as usize) {
        Ok(bytes) => bytes,
        Err(ReadStop::Limit) => {
            return Err(CnfStop::Refused(Refusal::past_at(LimitAt::FileBytes, 0, 1)));
        }
        Err(ReadStop::Failed) => return Err(CnfStop::ReadFault),
        Err(ReadStop::OutOfMemory) => return Err(CnfStop::OutOfMemory),
    };
    match form_of(alloc, bytes.items()) {
        Ok(form) => Ok(form),
        Err(Fault::Refused(refusal)) => Err(CnfStop::Refused(refusal)),
        Err(Fault::OutOfMemory) => Err(CnfStop::OutOfMemory),
    }
}
