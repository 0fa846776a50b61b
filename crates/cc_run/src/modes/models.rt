//! Models mode: the first models of a CNF.
ghost use Rattle.std.specs.Prelude.{◌≡◌, ◌<◌, ◌≤◌, ℕ, [], IfOk, IfSome, IsNone, Option, Some, is_some};
ghost use Rattle.cc_defs.specs.Runs.{Section};
ghost use Rattle.cc_defs.specs.Sections.{Axioms};
ghost use Rattle.cc_dimacs.specs.Cnfs.{PlainCnf};
ghost use Rattle.cc_lists.specs.Sections.{open_section};
ghost use Rattle.cc_run.specs.CnfForms.{IsFormOf};
ghost use Rattle.cc_run.specs.Modes.Modelling.{modelling_promise, IsCnfIn};
ghost use Rattle.cc_run.specs.ModelsTold.{AreAt, AreWithin, IsAt, TellsFind, TellsListing, told_of};
ghost use Rattle.cc_list.specs.Stops.{Prints, PrintsAsked};
ghost use Rattle.cc_search.specs.Searches.{HasMore, Stands, left_of};
ghost use Rattle.cc_tell.specs.Givens.{nothing};
ghost use Rattle.cc_words.specs.Requests.{Modelling, ToModel};
ghost use Rattle.cc_words.specs.Views.{plain_request};
ghost use Rattle.cc_words.specs.declared.asked.Asked.TheVariants as requests;

use crate::cnfs::{CnfStop, name_of, read_form};
use cc_defs::{Fault, Version};
use cc_form::Form;
use cc_ports::Desk;
use cc_search::{Find, Search};
use cc_tell::{Status, Stop, begin_log, refuse, tell_limit};
use cc_tell_modes::{Lister, give_heading, tell_clause, tell_end, tell_model};
use cc_words::ModelsAsked;
use std::alloc::Global;

/// Tells what a search finds next, or that there are more models than may be listed, and answers the run's status where that was
/// the last.
fn tell_find<D: Desk>(
    alloc: Global,
    desk: &mut D,
    lister: &mut Lister,
    search: &mut Search,
) -> Result<Option<Status>, Stop>
    requires more { HasMore search.old }
    requires at { IsAt lister.old.own lister.old.listed search.old }
    ensures tells { (axioms : Axioms) (count : Option ℕ) (budget : ℕ) (section : Section) →
        AreAt axioms count budget section lister.old.own lister.old.listed search.old →
        TellsFind axioms lister.old.version count budget section lister.new.own lister.new.listed
        search.new (D.seen desk.old) (D.seen desk.new) result }
    ensures next { IfOk result (λ status. IsNone status →
        HasMore search.new × (left_of search.new < left_of search.old)) }
    ensures version { lister.new.version ≡ lister.old.version }
{
    match search.next() {
        Ok(Find::Line(line)) => tell_clause(alloc, desk, lister, &line),
        Ok(Find::Row) => tell_model(alloc, desk, lister, search.row()),
        Ok(Find::End(word)) => tell_end(alloc, desk, *lister, word),
        Err(Fault::Refused(refusal)) => tell_limit(alloc, desk, &refusal),
        Err(Fault::OutOfMemory) => Err(Stop::OutOfMemory),
    }
}

/// Tells all that a search finds.
fn tell_finds<D: Desk>(
    alloc: Global,
    desk: &mut D,
    mut lister: Lister,
    mut search: Search,
) -> Result<Status, Stop>
    requires more { HasMore search }
    requires at { IsAt lister.own lister.listed search }
    ensures { (axioms : Axioms) (count : Option ℕ) (budget : ℕ) (section : Section) →
        AreAt axioms count budget section lister.own lister.listed search →
        TellsListing axioms lister.version count budget (told_of axioms lister.version section)
        (D.seen desk.old) (D.seen desk.new) result }
{
    loop {
        match tell_find(alloc, desk, &mut lister, &mut search)? {
            Some(status) => return Ok(status),
            None => {}
        }
    }
}

/// Gives the log its beginning, and tells all that a search finds.
fn tell_section<D: Desk>(
    alloc: Global,
    desk: &mut D,
    version: Version,
    search: Search,
) -> Result<Status, Stop>
    requires more { HasMore search }
    requires at { (axioms : Axioms) × (count : Option ℕ) × (budget : ℕ)
        × AreWithin axioms budget × Stands axioms count budget search (open_section []) }
    ensures { (axioms : Axioms) (count : Option ℕ) (budget : ℕ) → AreWithin axioms budget →
        Stands axioms count budget search (open_section []) →
        TellsListing axioms version count budget nothing (D.seen desk.old) (D.seen desk.new)
        result }
{
    give_heading(alloc, desk, version)?;
    let lister = Lister {
        version,
        own: search.axioms() + 1,
        listed: 0,
    };
    tell_finds(alloc, desk, lister, search)
}

/// Begins the log where one is named, and lists the models.
fn list_models<D: Desk>(
    alloc: Global,
    desk: &mut D,
    asked: &ModelsAsked<'_>,
    form: Form,
) -> Result<Status, Stop>
    requires count { IfSome asked.now.count (λ count. 1 ≤ count) }
    requires budget { asked.now.budget ≤ 2000000 }
    requires form { (cnf : PlainCnf) × IsFormOf cnf form }
    ensures { (modelling : Modelling) (cnf : PlainCnf) →
        plain_request (requests.Models asked.now) ≡ ToModel modelling → IsFormOf cnf form →
        IfSome (D.seen desk.old).told (λ c. IsCnfIn c.files modelling.file cnf) →
        Prints (modelling_promise modelling) (is_some modelling.log) [] (D.seen desk.old) (D.seen desk.new) result }
{
    let search = Search::of(alloc, form, asked.count, asked.budget)?;
    begin_log(desk, asked.log)?;
    tell_section(alloc, desk, asked.form, search)
}

/// Reads the CNF, begins the log where one is named, and lists the models.
pub(crate) fn models<D: Desk>(
    alloc: Global,
    desk: &mut D,
    asked: &ModelsAsked<'_>,
) -> Result<Status, Stop>
    requires count { IfSome asked.now.count (λ count. 1 ≤ count) }
    requires budget { asked.now.budget ≤ 2000000 }
    ensures { (modelling : Modelling) →
        plain_request (requests.Models asked.now) ≡ ToModel modelling →
        PrintsAsked (modelling_promise modelling) (is_some modelling.log) (D.seen desk.old) (D.seen desk.new) result }
{
    match read_form(alloc, desk, asked.file) {
        Ok(form) => list_models(alloc, desk, asked, form),
        Err(CnfStop::Refused(refusal)) => {
            refuse(alloc, desk, &refusal, name_of(asked.file, &refusal))
        }
        Err(CnfStop::ReadFault) => Err(Stop::ReadFault),
        Err(CnfStop::OutOfMemory) => Err(Stop::OutOfMemory),
    }
}
