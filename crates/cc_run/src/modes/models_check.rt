//! Modelscheck mode: a log of the models of a CNF is judged.
ghost use Rattle.std.specs.Prelude.{◌≡◌, false, IfOk};
ghost use Rattle.cc_dimacs.specs.Cnfs.{PlainCnf};
ghost use Rattle.cc_print.specs.Models.{models_verdict_line};
ghost use Rattle.cc_run.specs.CnfForms.{IsFormOf};
ghost use Rattle.cc_run.specs.Modes.Checking as checks;
ghost use Rattle.cc_run.specs.Modes.CheckingModels.{models_checking_promise, models_judging};
ghost use Rattle.cc_list.specs.Stops.{PrintsAsked};
ghost use Rattle.cc_tell.specs.Steps.{Step};
ghost use Rattle.cc_tell.specs.Givens.{only_out};
ghost use Rattle.cc_words.specs.Requests.{ModelChecking, ToCheckModels};
ghost use Rattle.cc_words.specs.Views.{plain_request};
ghost use Rattle.cc_words.specs.declared.asked.Asked.TheVariants as requests;

use crate::cnfs::{CnfStop, name_of, read_form};
use crate::judging::{Judge, judge_log};
use crate::modes::check::verdict_status;
use cc_defs::{Fault, LogVerdict};
use cc_form::Form;
use cc_judge::judge_over;
use cc_ports::{Desk, To};
use cc_print::models_verdict_text;
use cc_tell::{Status, Stop, give, refuse};
use cc_words::CheckModelsAsked;
use std::alloc::Global;

/// Tells a verdict by its line.
fn tell_verdict<D: Desk>(alloc: Global, desk: &mut D, verdict: &LogVerdict) -> Result<Status, Stop>
    ensures told { Step (only_out (models_verdict_line verdict.now)) (D.seen desk.old)
        (D.seen desk.new) result }
    ensures status { IfOk result (λ status. status ≡ checks.verdict_status verdict.now) }
{
    let text = models_verdict_text(alloc, verdict)?;
    give(desk, To::Out, text.text().as_bytes())?;
    Ok(verdict_status(verdict))
}

/// Logs of the models of a clause list.
#[derive(Clone, Copy)]
struct ModelsLog<'b> {
    form: &'b Form,
}

impl<'b> Judge for ModelsLog<'b> {
    type Verdict = LogVerdict;

    ghost Subject = { PlainCnf };

    ghost about = { λ judge cnf. IsFormOf cnf judge.form.now };

    ghost ready = { λ judge. Unit {0} };

    ghost Is = { models_judging.Is };

    ghost Passes = { models_judging.Passes };

    ghost line = { models_judging.line };

    ghost ends = { models_judging.status };

    fn judge(&self, alloc: Global, bytes: &[u8]) -> Result<LogVerdict, Fault> {
        Ok(judge_over(alloc, self.form, bytes)?)
    }

    fn tell<D: Desk>(alloc: Global, desk: &mut D, verdict: &LogVerdict) -> Result<Status, Stop>
        ensures told { Step (only_out (models_verdict_line verdict.now)) (D.seen desk.old)
            (D.seen desk.new) result }
        ensures status { IfOk result (λ status. status ≡ checks.verdict_status verdict.now) }
    {
        tell_verdict(alloc, desk, verdict)
    }
}

/// Reads the CNF and the log, and judges that.
pub(crate) fn check<D: Desk>(
    alloc: Global,
    desk: &mut D,
    asked: &CheckModelsAsked<'_>,
) -> Result<Status, Stop>
    ensures { (checking : ModelChecking) →
        plain_request (requests.CheckModels asked.now) ≡ ToCheckModels checking →
        PrintsAsked (models_checking_promise checking) false (D.seen desk.old) (D.seen desk.new) result }
{
    match read_form(alloc, desk, asked.file) {
        Ok(form) => judge_log(alloc, desk, asked.log, &ModelsLog { form: &form }),
        Err(CnfStop::Refused(refusal)) => {
            refuse(alloc, desk, &refusal, name_of(asked.file, &refusal))
        }
        Err(CnfStop::ReadFault) => Err(Stop::ReadFault),
        Err(CnfStop::OutOfMemory) => Err(Stop::OutOfMemory),
    }
}
