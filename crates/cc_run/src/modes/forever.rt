//! Forever mode: whether a claim holds, or there is no history, at every horizon.
ghost use Rattle.std.specs.Prelude.{◌≡◌, ◌≤◌, [], IfSome, None, is_some};
ghost use Rattle.cc_list.specs.Descriptions.{IsDescriptionOf};
ghost use Rattle.cc_defs.specs.Description.{Description};
ghost use Rattle.cc_defs.specs.Resolved.{Query};
ghost use Rattle.cc_describe.specs.declared.heads.Heads.TheVariants as heads;
ghost use Rattle.cc_run.specs.Modes.Proving.{NamesQuery, named_to_prove, proving_promise};
ghost use Rattle.cc_list.specs.Preparing.{IsSearchable, StandsFor};
ghost use Rattle.cc_list.specs.Stops.{Prints};
ghost use Rattle.cc_sorts.specs.Tables.{IsSignatureFor};
ghost use Rattle.cc_words.specs.Requests.{Proving, ToProve};
ghost use Rattle.cc_words.specs.declared.asked.Asked.TheVariants as requests;
ghost use Rattle.cc_words.specs.Views.{plain_request, proving_by};

use crate::mode::{Mode, refuse_fault};
use bumpalo::Bump;
use cc_arena::Terms;
use cc_describe::{Described, DescribedWide, Heads};
use cc_forever::Forever;
use cc_forever::theorems::{
    fair_runs_prove_never, fair_runs_tell_the_first, forever_logs_are_accepted,
};
use cc_list::{Prepared, prepare};
use cc_ports::{Desk, To};
use cc_tell::{Status, Stop, begin_log, give};
use cc_tell_modes::{ClaimVoice, PlanVoice, tell_all};
use cc_words::ForeverAsked;
use std::alloc::Global;

/// Begins the log where one is named, gives it its header, and tells all turns of a run.
fn prove<'t, D: Desk>(
    alloc: Global,
    desk: &mut D,
    described: &Described,
    asked: &ForeverAsked<'_>,
    prepared: &Prepared<'t>,
    terms: &Terms<'t>,
) -> Result<Status, Stop>
    requires signature { IsSignatureFor described.now.table described.now.sig }
    requires searchable { IsSearchable described.now prepared.now None }
    requires budget { asked.now.budget ≤ 2000000 }
    requires of { (d : Description) × (q : Query) × IsDescriptionOf described.now d
        × StandsFor described.now prepared.now d q }
    ensures { (proving : Proving) (d : Description) (q : Query) →
        plain_request (requests.Forever asked.now) ≡ ToProve proving →
        IsDescriptionOf described.now d → StandsFor described.now prepared.now d q →
        IfSome (D.seen desk.old).told (λ before. NamesQuery before.files (named_to_prove proving)
        d q) → Prints (proving_promise proving) (is_some proving.log) [] (D.seen desk.old) (D.seen desk.new) result }
{
    forever_logs_are_accepted();
    fair_runs_prove_never();
    fair_runs_tell_the_first();
    let sig = &described.sig;
    let query = &prepared.query;
    let forever = Forever::new(alloc, sig, &prepared.laws, query, terms, asked.budget)?;
    begin_log(desk, asked.log)?;
    give(desk, To::Log, b"ccalc forever 1\n")?;
    let table = &described.table;
    let least = query.lo;
    match query.claim {
        Some(_) => tell_all(alloc, desk, forever, ClaimVoice { table, sig, least }),
        None => tell_all(alloc, desk, forever, PlanVoice { table, sig, least }),
    }
}

impl<'a> Mode for ForeverAsked<'a> {
    ghost promise = { λ asked. proving_promise (proving_by asked) };

    ghost which = { λ asked. heads.Definite };

    ghost file = { λ asked. asked.file.now };

    ghost behind = { λ asked. [] };

    ghost within = { λ asked. asked.budget ≤ 2000000 };

    fn heads(&self) -> Heads {
        Heads::Definite
    }

    fn file(&self) -> &str {
        self.file
    }

    // Tells whether the claim of a query holds, or it has no history, at every horizon.
    fn answer<D: Desk>(
        &self,
        alloc: Global,
        desk: &mut D,
        said: &DescribedWide,
    ) -> Result<Status, Stop> {
        let described = &said.described;
        let arena = Bump::new(alloc);
        let terms = Terms::new(&arena);
        match prepare(alloc, described, self.query, None, &terms) {
            Ok(prepared) => prove(alloc, desk, described, self, &prepared, &terms),
            Err(fault) => refuse_fault(alloc, desk, described, &fault),
        }
    }
}
