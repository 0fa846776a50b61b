//! Check mode: a log that words name is judged.
ghost use Rattle.std.specs.Prelude.{◌≡◌, [], ◌∷◌, IfOk};
ghost use Rattle.cc_print.specs.Verdicts.{verdict_line};
ghost use Rattle.cc_run.specs.Modes.Checking as checks;
ghost use Rattle.cc_run.specs.Modes.Checking.{checking_promise, query_judging};
ghost use Rattle.cc_list.specs.Preparing.{IsSearchable, StandsFor};
ghost use Rattle.cc_list.specs.Tasks.{Task};
ghost use Rattle.cc_tell.specs.Steps.{Step};
ghost use Rattle.cc_tell.specs.Givens.{only_out};
ghost use Rattle.cc_describe.specs.declared.heads.Heads.TheVariants as heads;
ghost use Rattle.cc_words.specs.Views.{checking_by};

use crate::judging::{Judge, judge_log};
use crate::mode::{Mode, refuse_fault};
use bumpalo::Bump;
use cc_arena::Terms;
use cc_defs::{Fault, LogVerdict};
use cc_describe::{Described, DescribedWide, Heads};
use cc_judge::judge;
use cc_list::{Prepared, prepare};
use cc_ports::{Desk, To};
use cc_print::verdict_text;
use cc_tell::{Status, Stop, give};
use cc_words::CheckAsked;
use std::alloc::Global;

/// The status of a run with this verdict.
pub(crate) fn verdict_status(verdict: &LogVerdict) -> Status
    ensures { result ≡ checks.verdict_status verdict.now }
{
    match verdict {
        LogVerdict::Accepted { .. } => Status::Right,
        LogVerdict::Refused { .. } => Status::Not,
    }
}

/// Tells a verdict by its line.
pub(crate) fn tell_verdict<D: Desk>(
    alloc: Global,
    desk: &mut D,
    verdict: &LogVerdict,
) -> Result<Status, Stop>
    ensures told { Step (only_out (verdict_line verdict.now)) (D.seen desk.old) (D.seen desk.new)
        result }
    ensures status { IfOk result (λ status. status ≡ checks.verdict_status verdict.now) }
{
    let text = verdict_text(alloc, verdict)?;
    give(desk, To::Out, text.text().as_bytes())?;
    Ok(verdict_status(verdict))
}

/// Logs of a query that is prepared.
#[derive(Clone, Copy)]
struct QueryLog<'a, 'b> {
    described: &'b Described,
    prepared: &'b Prepared<'a>,
}

impl<'a, 'b> Judge for QueryLog<'a, 'b> {
    type Verdict = LogVerdict;

    ghost Subject = { Task };

    ghost about = { λ judge task. StandsFor judge.described.now judge.prepared.now task.description
        task.query × (task.ask.after ≡ judge.prepared.now.key) };

    ghost ready = { λ judge. IsSearchable judge.described.now judge.prepared.now
        judge.prepared.now.key };

    ghost Is = { query_judging.Is };

    ghost Passes = { query_judging.Passes };

    ghost line = { query_judging.line };

    ghost ends = { query_judging.status };

    fn judge(&self, alloc: Global, bytes: &[u8]) -> Result<LogVerdict, Fault> {
        judge(
            alloc,
            &self.described.sig,
            &self.prepared.laws,
            &self.prepared.query,
            self.prepared.key.as_ref(),
            bytes,
        )
    }

    fn tell<D: Desk>(alloc: Global, desk: &mut D, verdict: &LogVerdict) -> Result<Status, Stop> {
        tell_verdict(alloc, desk, verdict)
    }
}

impl<'a> Mode for CheckAsked<'a> {
    ghost promise = { λ asked. checking_promise (checking_by asked) };

    ghost which = { λ asked. heads.Definite };

    ghost file = { λ asked. asked.file.now };

    ghost behind = { λ asked. asked.log.now ∷ [] };

    ghost within = { λ asked. Unit {0} };

    fn heads(&self) -> Heads {
        Heads::Definite
    }

    fn file(&self) -> &str {
        self.file
    }

    // Judges a log of a query.
    fn answer<D: Desk>(
        &self,
        alloc: Global,
        desk: &mut D,
        said: &DescribedWide,
    ) -> Result<Status, Stop> {
        let described = &said.described;
        let arena = Bump::new(alloc);
        let terms = Terms::new(&arena);
        match prepare(alloc, described, self.query, self.after, &terms) {
            Ok(prepared) => judge_log(
                alloc,
                desk,
                self.log,
                &QueryLog {
                    described,
                    prepared: &prepared,
                },
            ),
            Err(fault) => refuse_fault(alloc, desk, described, &fault),
        }
    }
}
