//! Generalcheck mode: a log of rivals is judged.
ghost use Rattle.std.specs.Prelude.{[], ◌∷◌};
ghost use Rattle.cc_defs.specs.Resolved.{Query};
ghost use Rattle.cc_describe.specs.declared.heads.Heads.TheVariants as heads;
ghost use Rattle.cc_run.specs.Modes.CheckingGeneral.{general_checking_promise, general_judging};
ghost use Rattle.cc_run.specs.Generals.{IsSearchableWide, StandsForWide};
ghost use Rattle.cc_wide.specs.WideLaws.{WideDescription};
ghost use Rattle.cc_words.specs.Views.{general_checking_by};

use crate::judging::{Judge, judge_log};
use crate::mode::{Mode, refuse_fault};
use crate::wide::{PreparedWide, prepare_wide};
use bumpalo::Bump;
use cc_arena::Terms;
use cc_check::SilentVerdict;
use cc_defs::Fault;
use cc_describe::{DescribedWide, Heads};
use cc_general::check_general;
use cc_ports::Desk;
use cc_tell::{Status, Stop};
use cc_tell_modes::tell_silent_verdict;
use cc_words::CheckGeneralAsked;
use std::alloc::Global;

/// Logs of rivals by a query that is prepared.
#[derive(Clone, Copy)]
struct GeneralLog<'a, 'b> {
    said: &'b DescribedWide,
    prepared: &'b PreparedWide<'a>,
}

impl<'a, 'b> Judge for GeneralLog<'a, 'b> {
    type Verdict = SilentVerdict;

    ghost Subject = { WideDescription × Query };

    ghost about = { λ judge of. StandsForWide judge.said.now.described judge.prepared.now of.0 of.1 };

    ghost ready = { λ judge. IsSearchableWide judge.said.now.described judge.prepared.now };

    ghost Is = { general_judging.Is };

    ghost Passes = { general_judging.Passes };

    ghost line = { general_judging.line };

    ghost ends = { general_judging.status };

    fn judge(&self, alloc: Global, bytes: &[u8]) -> Result<SilentVerdict, Fault> {
        let verdict = check_general(
            alloc,
            &self.said.described.sig,
            &self.prepared.laws,
            &self.prepared.query,
            bytes,
        )?;
        Ok(SilentVerdict::from(verdict))
    }

    fn tell<D: Desk>(alloc: Global, desk: &mut D, verdict: &SilentVerdict) -> Result<Status, Stop> {
        tell_silent_verdict(alloc, desk, "histories", *verdict)
    }
}

impl<'a> Mode for CheckGeneralAsked<'a> {
    ghost promise = { λ asked. general_checking_promise (general_checking_by asked) };

    ghost which = { λ asked. heads.Any };

    ghost file = { λ asked. asked.file.now };

    ghost behind = { λ asked. asked.log.now ∷ [] };

    ghost within = { λ asked. Unit {0} };

    fn heads(&self) -> Heads {
        Heads::Any
    }

    fn file(&self) -> &str {
        self.file
    }

    // Judges a log of rivals.
    fn answer<D: Desk>(
        &self,
        alloc: Global,
        desk: &mut D,
        said: &DescribedWide,
    ) -> Result<Status, Stop> {
        let arena = Bump::new(alloc);
        let terms = Terms::new(&arena);
        match prepare_wide(alloc, said, self.query, &terms) {
            Ok(prepared) => judge_log(
                alloc,
                desk,
                self.log,
                &GeneralLog {
                    said,
                    prepared: &prepared,
                },
            ),
            Err(fault) => refuse_fault(alloc, desk, &said.described, &fault),
        }
    }
}
