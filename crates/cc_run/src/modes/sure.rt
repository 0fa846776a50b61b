//! Sure mode: what is certain, possible and impossible at the first horizon of a query that has a history.
ghost use Rattle.std.specs.Prelude.{◌≡◌, ◌≤◌, [], IfSome, IsNone, None, is_some};
ghost use Rattle.cc_list.specs.Descriptions.{IsDescriptionOf};
ghost use Rattle.cc_defs.specs.Description.{Description};
ghost use Rattle.cc_defs.specs.Resolved.{Query};
ghost use Rattle.cc_describe.specs.declared.heads.Heads.TheVariants as heads;
ghost use Rattle.cc_describe.specs.Describing.{AsksFormulas, Describes, HasForms, SaysAll};
ghost use Rattle.cc_run.specs.Modes.Surely.{sure_promise, NamesUnclaimed, named_surely};
ghost use Rattle.cc_list.specs.Preparing.{IsSearchable, StandsFor};
ghost use Rattle.cc_list.specs.Stops.{Prints};
ghost use Rattle.cc_sorts.specs.Tables.{IsSignatureFor};
ghost use Rattle.cc_words.specs.Requests.{Surely, ToBeSure};
ghost use Rattle.cc_words.specs.declared.asked.Asked.TheVariants as requests;
ghost use Rattle.cc_words.specs.Views.{plain_request, surely_by};

use crate::mode::{Mode, refuse_fault};
use crate::unclaimed::prepare_unclaimed;
use bumpalo::Bump;
use cc_arena::Terms;
use cc_defs::Fault;
use cc_describe::{Described, DescribedWide, Heads};
use cc_list::Prepared;
use cc_ports::{Desk, To};
use cc_sure::SureTurns;
use cc_sure::theorems::sure_logs_are_accepted;
use cc_tell::{Status, Stop, begin_log, give};
use cc_tell_modes::{SureVoice, tell_all};
use cc_words::SureAsked;
use std::alloc::Global;

/// Begins the log where one is named, gives it its header, and tells all events of a run.
fn be_sure<D: Desk>(
    alloc: Global,
    desk: &mut D,
    described: &Described,
    asked: &SureAsked<'_>,
    prepared: &Prepared<'_>,
) -> Result<Status, Stop>
    requires signature { IsSignatureFor described.now.table described.now.sig }
    requires searchable { IsSearchable described.now prepared.now None }
    requires claim { IsNone prepared.now.query.claim }
    requires budget { asked.now.budget ≤ 2000000 }
    requires of { (d : Description) × (q : Query) × IsDescriptionOf described.now d
        × StandsFor described.now prepared.now d q }
    ensures { (surely : Surely) (d : Description) (q : Query) →
        plain_request (requests.Sure asked.now) ≡ ToBeSure surely →
        IsDescriptionOf described.now d → StandsFor described.now prepared.now d q →
        IfSome (D.seen desk.old).told (λ before. NamesUnclaimed before.files (named_surely surely)
        d q) → Prints (sure_promise surely) (is_some surely.log) [] (D.seen desk.old) (D.seen desk.new) result }
{
    sure_logs_are_accepted();
    begin_log(desk, asked.log)?;
    let sig = &described.sig;
    let sure = SureTurns::new(alloc, sig, &prepared.laws, &prepared.query, asked.budget);
    give(desk, To::Log, b"ccalc sure 1\n")?;
    let table = &described.table;
    tell_all(alloc, desk, sure, SureVoice { table, sig })
}

impl<'a> Mode for SureAsked<'a> {
    ghost promise = { λ asked. sure_promise (surely_by asked) };

    ghost which = { λ asked. heads.Definite };

    ghost file = { λ asked. asked.file.now };

    ghost behind = { λ asked. [] };

    ghost within = { λ asked. asked.budget ≤ 2000000 };

    fn heads(&self) -> Heads {
        Heads::Definite
    }

    fn file(&self) -> &str {
        self.file
    }

    // Tells of each atom of the first horizon that has a history whether all of them have it, some or none.
    fn answer<D: Desk>(
        &self,
        alloc: Global,
        desk: &mut D,
        said: &DescribedWide,
    ) -> Result<Status, Stop> {
        let described = &said.described;
        let arena = Bump::new(alloc);
        let terms = Terms::new(&arena);
        match prepare_unclaimed(alloc, described, self.query, &terms) {
            Ok(prepared) => be_sure(alloc, desk, described, self, &prepared),
            Err(fault) => refuse_fault(alloc, desk, described, &fault),
        }
    }
}
