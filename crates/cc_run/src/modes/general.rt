//! General mode: the first histories of a query by the definition of a model itself, where heads may be of any form.
ghost use Rattle.std.specs.Prelude.{◌≡◌, ◌≤◌, [], IfSome, is_some};
ghost use Rattle.cc_list.specs.Descriptions.{IsWideDescriptionOf};
ghost use Rattle.cc_defs.specs.Resolved.{Query};
ghost use Rattle.cc_describe.specs.declared.heads.Heads.TheVariants as heads;
ghost use Rattle.cc_describe.specs.Describing.{AsksFormulas, DescribesWide, HasWideForms, SaysAllWide};
ghost use Rattle.cc_run.specs.Generals.{IsSearchableWide, StandsForWide};
ghost use Rattle.cc_run.specs.Modes.Generally.{general_promise, NamesWide, named_generally};
ghost use Rattle.cc_list.specs.Stops.{Prints};
ghost use Rattle.cc_sorts.specs.Tables.{IsSignatureFor};
ghost use Rattle.cc_wide.specs.WideLaws.{WideDescription};
ghost use Rattle.cc_words.specs.Requests.{Generally, ToListGenerally};
ghost use Rattle.cc_words.specs.declared.asked.Asked.TheVariants as requests;
ghost use Rattle.cc_words.specs.Views.{generally_by, plain_request};

use crate::mode::{Mode, refuse_fault};
use crate::wide::{PreparedWide, prepare_wide};
use bumpalo::Bump;
use cc_arena::Terms;
use cc_defs::Fault;
use cc_describe::{DescribedWide, Heads};
use cc_general::GeneralTurns;
use cc_general::theorems::general_logs_are_accepted;
use cc_ports::{Desk, To};
use cc_tell::{Status, Stop, begin_log, give};
use cc_tell_modes::{GeneralVoice, tell_all};
use cc_words::GeneralAsked;
use std::alloc::Global;

/// Begins the log where one is named, gives it its header, and tells all events of a run.
fn list_generally<D: Desk>(
    alloc: Global,
    desk: &mut D,
    said: &DescribedWide,
    asked: &GeneralAsked<'_>,
    prepared: &PreparedWide<'_>,
) -> Result<Status, Stop>
    requires signature { IsSignatureFor said.now.described.table said.now.described.sig }
    requires searchable { IsSearchableWide said.now.described prepared.now }
    requires count { IfSome asked.now.count (λ count. 1 ≤ count) }
    requires budget { asked.now.budget ≤ 2000000 }
    requires of { (w : WideDescription) × (q : Query) × IsWideDescriptionOf said.now w
        × StandsForWide said.now.described prepared.now w q }
    ensures { (generally : Generally) (w : WideDescription) (q : Query) →
        plain_request (requests.General asked.now) ≡ ToListGenerally generally →
        IsWideDescriptionOf said.now w → StandsForWide said.now.described prepared.now w q →
        IfSome (D.seen desk.old).told (λ before. NamesWide before.files (named_generally generally)
        w q) → Prints (general_promise generally) (is_some generally.log) [] (D.seen desk.old) (D.seen desk.new) result }
{
    general_logs_are_accepted();
    begin_log(desk, asked.log)?;
    let sig = &said.described.sig;
    let general = GeneralTurns::new(
        alloc,
        sig,
        &prepared.laws,
        &prepared.query,
        asked.count,
        asked.budget,
    );
    give(desk, To::Log, b"ccalc general 1\n")?;
    let table = &said.described.table;
    tell_all(alloc, desk, general, GeneralVoice { table, sig })
}

impl<'a> Mode for GeneralAsked<'a> {
    ghost promise = { λ asked. general_promise (generally_by asked) };

    ghost which = { λ asked. heads.Any };

    ghost file = { λ asked. asked.file.now };

    ghost behind = { λ asked. [] };

    ghost within = { λ asked. IfSome asked.count (λ count. 1 ≤ count) × (asked.budget ≤ 2000000) };

    fn heads(&self) -> Heads {
        Heads::Any
    }

    fn file(&self) -> &str {
        self.file
    }

    // Lists the first histories of a query by the definition of a model itself.
    fn answer<D: Desk>(
        &self,
        alloc: Global,
        desk: &mut D,
        said: &DescribedWide,
    ) -> Result<Status, Stop> {
        let arena = Bump::new(alloc);
        let terms = Terms::new(&arena);
        match prepare_wide(alloc, said, self.query, &terms) {
            Ok(prepared) => list_generally(alloc, desk, said, self, &prepared),
            Err(fault) => refuse_fault(alloc, desk, &said.described, &fault),
        }
    }
}
