//! Export mode: the clause list of a query at a horizon, as a text of clauses.
ghost use Rattle.std.specs.Prelude.{◌≡◌, ◌≤◌, [], false, flat_map, IfErr, IfOk, IfSome, map, None, OnOk, Some};
ghost use Rattle.cc_arena.specs.GroundViews.{plain_ground_query};
ghost use Rattle.cc_list.specs.Descriptions.{IsDescriptionOf};
ghost use Rattle.cc_defs.specs.Description.{Description};
ghost use Rattle.cc_defs.specs.Limits.{most_steps};
ghost use Rattle.cc_defs.specs.Refusals.{IsRefusedBy};
ghost use Rattle.cc_defs.specs.Resolved.{plain_query};
ghost use Rattle.cc_describe.specs.declared.heads.Heads.TheVariants as heads;
ghost use Rattle.cc_describe.specs.Describing.{AsksFormulas, Describes, HasForms, SaysAll};
ghost use Rattle.cc_dimacs.specs.CnfTexts.{clause_line, export_of};
ghost use Rattle.cc_form.specs.Queries.{IsQueryAt};
ghost use Rattle.cc_laws.specs.Questions.{steps_refusal};
ghost use Rattle.cc_laws.specs.Vocabulary.{vocabulary_of};
ghost use Rattle.cc_ports.specs.declared.desk.To.TheVariants as outputs;
ghost use Rattle.cc_run.specs.Exported.{IsAskedAt, IsExported, IsExportFault, tried_refusal};
ghost use Rattle.cc_run.specs.Modes.Exporting.{exporting_promise, horizon_refusal, is_outside};
ghost use Rattle.cc_list.specs.Stops.{Prints};
ghost use Rattle.cc_list.specs.Tasks as tasks;
ghost use Rattle.cc_sorts.specs.Tables.{IsSignatureFor};
ghost use Rattle.cc_tell.specs.Steps.{Step};
ghost use Rattle.cc_tell.specs.Givens.{given_to, only_out};
ghost use Rattle.cc_words.specs.Requests.{Exporting, ToExport};
ghost use Rattle.cc_words.specs.declared.asked.Asked.TheVariants as requests;
ghost use Rattle.cc_words.specs.Views.{exporting_by, plain_text};

use crate::mode::{Mode, refuse_fault};
use bumpalo::Bump;
use cc_arena::{GroundQuery, Terms};
use cc_defs::{Fault, Query, Refusal};
use cc_describe::{Described, DescribedWide, Heads};
use cc_dimacs::{export_heading, export_line};
use cc_form::Form;
use cc_laws::query_steps;
use cc_list::{laws_of, query_named, query_of};
use cc_ports::{Desk, To};
use cc_query::form_at;
use cc_tell::{Status, Stop, give, give_lines};
use cc_words::ExportAsked;
use std::alloc::Global;

/// Whether a query does not try a horizon.
fn is_outside_of(query: &Query, horizon: u32) -> bool
    ensures { result ≡ is_outside (plain_query query.now) horizon }
{
    match query.range {
        Some((least, greatest)) => horizon < least || greatest < horizon,
        None => true,
    }
}

/// The query that is named. Refuses an absent one (15), a horizon that it does not try or a step that does not fit (16), and a
/// greatest horizon that is too great (14).
fn query_tried<'q>(
    described: &'q Described,
    label: Option<&str>,
    horizon: u32,
) -> Result<&'q Query, Fault>
    ensures named { IfOk result (λ query. tasks.query_named (plain_text label.entry)
        (map plain_query described.now.queries) ≡ Some (plain_query query.now)) }
    ensures inside { IfOk result (λ query. is_outside (plain_query query.now) horizon ≡ false) }
    ensures steps { IfOk result (λ query.
        steps_refusal (vocabulary_of described.now.table).symbols (plain_query query.now) ≡ None) }
    ensures refused { IfErr result
        (IsRefusedBy (tried_refusal (vocabulary_of described.now.table).symbols (tasks.query_named
        (plain_text label.entry) (map plain_query described.now.queries)) horizon)) }
{
    let Some(query) = query_named(described.queries.items(), label) else {
        return Err(Fault::Refused(Refusal::at(15, 0, 0)));
    };
    if is_outside_of(query, horizon) {
        return Err(Fault::Refused(Refusal::at(16, query.file, query.line)));
    }
    match query_steps(&described.table, query) {
        Some(refusal) => Err(Fault::Refused(refusal)),
        None => Ok(query),
    }
}

/// The query that is named, ground. Refuses what `query_tried` does, and then too many nodes (14).
fn query_at<'a>(
    alloc: Global,
    described: &Described,
    label: Option<&str>,
    horizon: u32,
    terms: &Terms<'a>,
) -> Result<GroundQuery<'a>, Fault>
    requires signature { IsSignatureFor described.now.table described.now.sig }
    requires formulas { AsksFormulas described.now }
    requires of { (d : Description) × IsDescriptionOf described.now d }
    ensures most { OnOk result (horizon ≤ most_steps) }
    ensures at { IfOk result (λ made.
        IsQueryAt described.now.sig horizon (plain_ground_query made)) }
    ensures named { (d : Description) → IsDescriptionOf described.now d →
        IfOk result (λ made. IsAskedAt d (map plain_query described.now.queries)
        (plain_text label.entry) horizon (plain_ground_query made)) }
    ensures refused { (d : Description) → IsDescriptionOf described.now d →
        IfErr result (IsRefusedBy (horizon_refusal d (tasks.query_named
        (plain_text label.entry) (map plain_query described.now.queries)) horizon)) }
{
    let query = query_tried(described, label, horizon)?;
    query_of(alloc, described, query, terms)
}

/// The clause list of the horizon, with the claim of the query denied where it has one. Refuses too many instances or nodes of the
/// laws (14), what `query_at` does, and a limit that the rules or the clauses pass (14), in this order.
fn exported_form(
    alloc: Global,
    described: &Described,
    asked: &ExportAsked<'_>,
    terms: &Terms<'_>,
) -> Result<Form, Fault>
    requires signature { IsSignatureFor described.now.table described.now.sig }
    requires forms { HasForms described.now }
    requires formulas { AsksFormulas described.now }
    requires of { (d : Description) × IsDescriptionOf described.now d }
    ensures exported { (d : Description) → IsDescriptionOf described.now d →
        IfOk result (λ form. IsExported d (map plain_query described.now.queries)
        (plain_text asked.now.query) asked.now.horizon form) }
    ensures refused { (d : Description) →
        IsDescriptionOf described.now d → IfErr result (IsExportFault d
        (map plain_query described.now.queries) (plain_text asked.now.query) asked.now.horizon) }
{
    let laws = laws_of(alloc, described, terms)?;
    let query = query_at(alloc, described, asked.query, asked.horizon, terms)?;
    form_at(
        alloc,
        &described.sig,
        &laws,
        &query,
        None,
        asked.horizon,
        true,
    )
}

/// Gives the clauses to Out, each by its line.
fn tell_clauses<D: Desk>(alloc: Global, desk: &mut D, form: &Form) -> Result<(), Stop>
    ensures { Step (given_to outputs.Out (flat_map clause_line form.now.clauses)) (D.seen desk.old)
        (D.seen desk.new) result }
{
    for index in 0..form.count() {
        let line = export_line(alloc, form.clause(index + 1))?;
        give(desk, To::Out, line.text().as_bytes())?;
    }
    Ok(())
}

/// Gives a clause list to Out.
fn tell_form<D: Desk>(
    alloc: Global,
    desk: &mut D,
    horizon: u32,
    form: &Form,
) -> Result<Status, Stop>
    ensures told { Step (only_out (export_of horizon (record {
      variables = form.now.variables;
      clauses = form.now.clauses;
    }))) (D.seen desk.old) (D.seen desk.new) result }
    ensures status { IfOk result (λ status. status ≡ Status.Right) }
{
    let heading = export_heading(alloc, form, horizon)?;
    give_lines(desk, heading.text())?;
    tell_clauses(alloc, desk, form)?;
    Ok(Status::Right)
}

impl<'a> Mode for ExportAsked<'a> {
    ghost promise = { λ asked. exporting_promise (exporting_by asked) };

    ghost which = { λ asked. heads.Definite };

    ghost file = { λ asked. asked.file.now };

    ghost behind = { λ asked. [] };

    ghost within = { λ asked. Unit {0} };

    fn heads(&self) -> Heads {
        Heads::Definite
    }

    fn file(&self) -> &str {
        self.file
    }

    // Gives the clause list of a horizon of a query to Out.
    fn answer<D: Desk>(
        &self,
        alloc: Global,
        desk: &mut D,
        said: &DescribedWide,
    ) -> Result<Status, Stop> {
        let described = &said.described;
        let arena = Bump::new(alloc);
        let terms = Terms::new(&arena);
        match exported_form(alloc, described, self, &terms) {
            Ok(form) => tell_form(alloc, desk, self.horizon, &form),
            Err(fault) => refuse_fault(alloc, desk, described, &fault),
        }
    }
}
