//! Forevercheck mode: a log of an induction over horizons is judged.
ghost use Rattle.std.specs.Prelude.{[], ◌∷◌, None};
ghost use Rattle.cc_defs.specs.Description.{Description};
ghost use Rattle.cc_defs.specs.Resolved.{Query};
ghost use Rattle.cc_describe.specs.declared.heads.Heads.TheVariants as heads;
ghost use Rattle.cc_run.specs.Modes.CheckingForever.{forever_checking_promise, forever_judging};
ghost use Rattle.cc_list.specs.Preparing.{IsSearchable, StandsFor};
ghost use Rattle.cc_words.specs.Views.{forever_checking_by};

use crate::judging::{Judge, judge_log};
use crate::mode::{Mode, refuse_fault};
use bumpalo::Bump;
use cc_arena::Terms;
use cc_defs::Fault;
use cc_describe::{Described, DescribedWide, Heads};
use cc_list::{Prepared, prepare};
use cc_ports::Desk;
use cc_silent::check_forever;
use cc_tell::{Status, Stop};
use cc_tell_modes::{JudgedForever, tell_forever_verdict};
use cc_words::CheckForeverAsked;
use std::alloc::Global;

/// Logs of an induction over the horizons of a query that is prepared; the nodes of its steps are placed beside those of the query.
#[derive(Clone, Copy)]
struct ForeverLog<'a, 'b> {
    described: &'b Described,
    prepared: &'b Prepared<'a>,
    terms: &'b Terms<'a>,
}

impl<'a, 'b> Judge for ForeverLog<'a, 'b> {
    type Verdict = JudgedForever;

    ghost Subject = { Description × Query };

    ghost about = { λ judge of. StandsFor judge.described.now judge.prepared.now of.0 of.1 };

    ghost ready = { λ judge. IsSearchable judge.described.now judge.prepared.now None };

    ghost Is = { forever_judging.Is };

    ghost Passes = { forever_judging.Passes };

    ghost line = { forever_judging.line };

    ghost ends = { forever_judging.status };

    fn judge(&self, alloc: Global, bytes: &[u8]) -> Result<JudgedForever, Fault> {
        let query = &self.prepared.query;
        let found = check_forever(
            alloc,
            &self.described.sig,
            &self.prepared.laws,
            query,
            self.terms,
            bytes,
        )?;
        Ok(JudgedForever {
            least: query.lo,
            found,
        })
    }

    fn tell<D: Desk>(alloc: Global, desk: &mut D, judged: &JudgedForever) -> Result<Status, Stop> {
        tell_forever_verdict(alloc, desk, *judged)
    }
}

impl<'a> Mode for CheckForeverAsked<'a> {
    ghost promise = { λ asked. forever_checking_promise (forever_checking_by asked) };

    ghost which = { λ asked. heads.Definite };

    ghost file = { λ asked. asked.file.now };

    ghost behind = { λ asked. asked.log.now ∷ [] };

    ghost within = { λ asked. Unit {0} };

    fn heads(&self) -> Heads {
        Heads::Definite
    }

    fn file(&self) -> &str {
        self.file
    }

    // Judges a log of an induction.
    fn answer<D: Desk>(
        &self,
        alloc: Global,
        desk: &mut D,
        said: &DescribedWide,
    ) -> Result<Status, Stop> {
        let described = &said.described;
        let arena = Bump::new(alloc);
        let terms = Terms::new(&arena);
        match prepare(alloc, described, self.query, None, &terms) {
            Ok(prepared) => judge_log(
                alloc,
                desk,
                self.log,
                &ForeverLog {
                    described,
                    prepared: &prepared,
                    terms: &terms,
                },
            ),
            Err(fault) => refuse_fault(alloc, desk, described, &fault),
        }
    }
}
