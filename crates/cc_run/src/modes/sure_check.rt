//! Surecheck mode: a log of impossible atoms is judged.
ghost use Rattle.std.specs.Prelude.{[], ◌∷◌, None};
ghost use Rattle.cc_defs.specs.Description.{Description};
ghost use Rattle.cc_defs.specs.Resolved.{Query};
ghost use Rattle.cc_describe.specs.declared.heads.Heads.TheVariants as heads;
ghost use Rattle.cc_run.specs.Modes.CheckingSure.{sure_checking_promise, sure_judging};
ghost use Rattle.cc_list.specs.Preparing.{IsSearchable, StandsFor};
ghost use Rattle.cc_words.specs.Views.{sure_checking_by};

use crate::judging::{Judge, judge_log};
use crate::mode::{Mode, refuse_fault};
use crate::unclaimed::prepare_unclaimed;
use bumpalo::Bump;
use cc_arena::Terms;
use cc_check::SilentVerdict;
use cc_defs::Fault;
use cc_describe::{Described, DescribedWide, Heads};
use cc_list::Prepared;
use cc_ports::Desk;
use cc_sure::check_sure;
use cc_tell::{Status, Stop};
use cc_tell_modes::tell_silent_verdict;
use cc_words::CheckSureAsked;
use std::alloc::Global;

/// Logs of what is impossible by a query that is prepared.
#[derive(Clone, Copy)]
struct SureLog<'a, 'b> {
    described: &'b Described,
    prepared: &'b Prepared<'a>,
}

impl<'a, 'b> Judge for SureLog<'a, 'b> {
    type Verdict = SilentVerdict;

    ghost Subject = { Description × Query };

    ghost about = { λ judge of. StandsFor judge.described.now judge.prepared.now of.0 of.1 };

    ghost ready = { λ judge. IsSearchable judge.described.now judge.prepared.now None };

    ghost Is = { sure_judging.Is };

    ghost Passes = { sure_judging.Passes };

    ghost line = { sure_judging.line };

    ghost ends = { sure_judging.status };

    fn judge(&self, alloc: Global, bytes: &[u8]) -> Result<SilentVerdict, Fault> {
        let verdict = check_sure(
            alloc,
            &self.described.sig,
            &self.prepared.laws,
            &self.prepared.query,
            bytes,
        )?;
        Ok(SilentVerdict::from(verdict))
    }

    fn tell<D: Desk>(alloc: Global, desk: &mut D, verdict: &SilentVerdict) -> Result<Status, Stop> {
        tell_silent_verdict(alloc, desk, "impossible", *verdict)
    }
}

impl<'a> Mode for CheckSureAsked<'a> {
    ghost promise = { λ asked. sure_checking_promise (sure_checking_by asked) };

    ghost which = { λ asked. heads.Definite };

    ghost file = { λ asked. asked.file.now };

    ghost behind = { λ asked. asked.log.now ∷ [] };

    ghost within = { λ asked. Unit {0} };

    fn heads(&self) -> Heads {
        Heads::Definite
    }

    fn file(&self) -> &str {
        self.file
    }

    // Judges a log of what is impossible.
    fn answer<D: Desk>(
        &self,
        alloc: Global,
        desk: &mut D,
        said: &DescribedWide,
    ) -> Result<Status, Stop> {
        let described = &said.described;
        let arena = Bump::new(alloc);
        let terms = Terms::new(&arena);
        match prepare_unclaimed(alloc, described, self.query, &terms) {
            Ok(prepared) => judge_log(
                alloc,
                desk,
                self.log,
                &SureLog {
                    described,
                    prepared: &prepared,
                },
            ),
            Err(fault) => refuse_fault(alloc, desk, described, &fault),
        }
    }
}
