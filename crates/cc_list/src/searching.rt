//! A search, told event by event: what all modes that search share.
ghost use Rattle.std.specs.Prelude.{◌≡◌, ◌<◌, ◌≤◌, ℕ, Bool, List, ◌∷◌, ◌++◌, [], IfOk, IfSome, IsNone};
ghost use Rattle.cc_arena.specs.GroundViews.{plain_ground_query};
ghost use Rattle.cc_list.specs.Descriptions.{IsDescriptionOf};
ghost use Rattle.cc_defs.specs.Description.{Description};
ghost use Rattle.cc_defs.specs.declared.event.Told.{Told};
ghost use Rattle.cc_defs.specs.Limits.{most_clauses};
ghost use Rattle.cc_defs.specs.Resolved.{Query as QueryAsked};
ghost use Rattle.cc_lists.specs.Subjects.{IsShortEvent, with_row};
ghost use Rattle.cc_query.specs.Lefts.{left_of};
ghost use Rattle.cc_query.specs.Sessions.{After, HasMore, IsSame, IsSessionOf, StandsOpened};
ghost use Rattle.cc_list.specs.Asking.{AreOf, AreSearchable};
ghost use Rattle.cc_list.specs.Stops.{Searches};
ghost use Rattle.cc_list.specs.Telling.{GoesOn, HasFewAxioms, HasGoodLines, IsOfSome, counts_of};
ghost use Rattle.cc_sorts.specs.Tables.{IsSignatureFor};
ghost use Rattle.cc_tell.specs.Manners.{header_told};
ghost use Rattle.cc_tell.specs.Steps.{Step};
ghost use Rattle.cc_tell.specs.EventTexts.{IsRowOfEvent, texts_behind};
ghost use Rattle.cc_tell.specs.Tellers.{IsCounted, IsWritableBy, KeepsUp, manner_of};
ghost use Rattle.cc_tell.specs.Statuses.{status_told};
ghost use Rattle.cc_tell.specs.Givens.{nothing, only_log};

use crate::theorems::log_laws;
use cc_arena::{GroundQuery, Laws};
use cc_defs::{Event, Fault, LogLine};
use cc_describe::Described;
use cc_ports::Desk;
use cc_query::theorems::spent_budgets_are_small;
use cc_query::{Ask, Session};
use cc_tell::{Status, Stop, Teller, give_header, status_of, tell_by, tell_limit};
use std::alloc::Global;

/// The status of a run whose last event this is; none where more is to come.
fn status_behind(event: &Event) -> Option<Status>
    ensures { result ≡ status_told event.now }
{
    match event {
        Event::Ended(ending) => Some(status_of(*ending)),
        Event::Log(_) => None,
        Event::History { .. } => None,
        Event::Counterexample { .. } => None,
        Event::NoHistory { .. } => None,
        Event::NoConditions { .. } => None,
        Event::Holds { .. } => None,
    }
}

/// How many axioms the section has whose heading an event is; 0 of another event.
fn axioms_behind(session: &Session<'_>, event: &Event) -> u32
    requires opened { StandsOpened session.now event.now }
    requires few { HasFewAxioms session.now event.now }
    ensures counted { (d : Description) (q : QueryAsked) (given : List Told) → After
        d q session.now given → IsCounted (counts_of d q session.now.ask.after) event.now result }
    ensures few { result ≤ most_clauses }
{
    match event {
        Event::Log(LogLine::Section { .. }) => session.axioms(),
        Event::Log(LogLine::Derived { .. }) => 0,
        Event::Log(LogLine::Block { .. }) => 0,
        Event::Log(LogLine::End(_)) => 0,
        Event::History { .. } => 0,
        Event::Counterexample { .. } => 0,
        Event::NoHistory { .. } => 0,
        Event::NoConditions { .. } => 0,
        Event::Holds { .. } => 0,
        Event::Ended(_) => 0,
    }
}

/// Tells an event, and answers the run's status where it is the last one.
fn tell_next<D: Desk>(
    alloc: Global,
    desk: &mut D,
    described: &Described,
    teller: &mut Teller,
    event: &Event,
    row: &[u32],
    axioms: u32,
) -> Result<Option<Status>, Stop>
    requires signature { IsSignatureFor described.now.table described.now.sig }
    requires row { IsRowOfEvent described.now.sig event.now row.now }
    requires short { IsShortEvent event.now }
    requires writable { IsWritableBy teller.old event.now }
    requires few { axioms ≤ most_clauses }
    ensures told { (d : Description) (counts : Bool → ℕ → ℕ) (before : List Told) →
        IsDescriptionOf described.now d → KeepsUp counts teller.old before →
        Step (texts_behind (manner_of counts teller.old) d before (with_row event.now row.now))
        (D.seen desk.old) (D.seen desk.new) result }
    ensures keeps { IfOk result (λ _. (counts : Bool → ℕ → ℕ) (before : List Told) →
        IsCounted counts event.now axioms →
        KeepsUp counts teller.old before → IsNone (status_told event.now) →
        KeepsUp counts teller.new (before ++ with_row event.now row.now ∷ [])) }
    ensures manner { (counts : Bool → ℕ → ℕ) →
        manner_of counts teller.new ≡ manner_of counts teller.old }
    ensures status { IfOk result (λ status. status ≡ status_told event.now) }
{
    tell_by(
        alloc,
        desk,
        &described.table,
        &described.sig,
        teller,
        event,
        row,
        axioms,
    )?;
    Ok(status_behind(event))
}

/// Tells the next event of a search, or the limit that a horizon passes, and answers the run's status where that was the last.
fn list_event<D: Desk>(
    alloc: Global,
    desk: &mut D,
    described: &Described,
    teller: &mut Teller,
    session: &mut Session<'_>,
) -> Result<Option<Status>, Stop>
    requires signature { IsSignatureFor described.now.table described.now.sig }
    requires same { described.now.sig ≡ session.old.signature }
    requires more { HasMore session.old }
    requires budget { session.old.ask.budget ≤ 2000000 }
    requires of { IsOfSome described.now teller.old session.old }
    ensures goes { (d : Description) (q : QueryAsked) (given : List Told) →
        IsDescriptionOf described.now d → IsSessionOf session.old d q →
        After d q session.old given → HasGoodLines d q session.old.ask.after given →
        KeepsUp (counts_of d q session.old.ask.after) teller.old given →
        GoesOn (manner_of (counts_of d q session.old.ask.after) teller.old)
        d q given teller.new session.old session.new (D.seen desk.old) (D.seen desk.new) result }
    ensures next { IfOk result (λ status. IsNone status → IsSame session.old session.new
        × HasMore session.new × (left_of session.new < left_of session.old)) }
    ensures manner { (counts : Bool → ℕ → ℕ) →
        manner_of counts teller.new ≡ manner_of counts teller.old }
{
    log_laws();
    spent_budgets_are_small();
    match session.next() {
        Ok(event) => {
            let axioms = axioms_behind(session, &event);
            tell_next(
                alloc,
                desk,
                described,
                teller,
                &event,
                session.row(),
                axioms,
            )
        }
        Err(Fault::Refused(refusal)) => tell_limit(alloc, desk, &refusal),
        Err(Fault::OutOfMemory) => Err(Stop::OutOfMemory),
    }
}

/// Tells the events of a search, one after another, up to its ending or to a limit that a horizon passes.
fn list_events<D: Desk>(
    alloc: Global,
    desk: &mut D,
    described: &Described,
    mut teller: Teller,
    mut session: Session<'_>,
) -> Result<Status, Stop>
    requires signature { IsSignatureFor described.now.table described.now.sig }
    requires same { described.now.sig ≡ session.signature }
    requires more { HasMore session }
    requires budget { session.ask.budget ≤ 2000000 }
    requires of { (d : Description) × (q : QueryAsked)
        × IsDescriptionOf described.now d × IsSessionOf session d q × After d q session [] }
    requires keeps { (counts : Bool → ℕ → ℕ) → KeepsUp counts teller [] }
    ensures { (d : Description) (q : QueryAsked) → IsDescriptionOf described.now d →
        IsSessionOf session.entry d q → After d q session.entry [] →
        Searches (manner_of (counts_of d q session.entry.ask.after) teller)
        (record { description = d; query = q; ask = session.entry.ask })
        (only_log (header_told (manner_of (counts_of d q session.entry.ask.after) teller)))
        (D.seen desk.old)
        (D.seen desk.new) result }
{
    loop {
        match list_event(alloc, desk, described, &mut teller, &mut session)? {
            Some(status) => return Ok(status),
            None => {}
        }
    }
}

/// Lists the first histories of a query at the first of its horizons that has any, or looks for a path that goes against its
/// claim, and gives the log beside it. Refuses a limit that a horizon passes.
pub fn search<D: Desk>(
    alloc: Global,
    desk: &mut D,
    described: &Described,
    laws: &Laws<'_>,
    query: GroundQuery<'_>,
    ask: Ask,
    teller: Teller,
) -> Result<Status, Stop>
    requires signature { IsSignatureFor described.now.table described.now.sig }
    requires searchable { AreSearchable described.now.sig laws.now
        (plain_ground_query query) ask.after }
    requires count { IfSome ask.count (λ most. 1 ≤ most) }
    requires budget { ask.budget ≤ 2000000 }
    requires of { (d : Description) × (q : QueryAsked) × IsDescriptionOf described.now d
        × AreOf described.now.sig laws.now (plain_ground_query query) d q }
    requires keeps { (counts : Bool → ℕ → ℕ) → KeepsUp counts teller [] }
    ensures { (d : Description) (q : QueryAsked) → IsDescriptionOf described.now d →
        AreOf described.now.sig laws.now (plain_ground_query query.entry) d q →
        Searches (manner_of (counts_of d q ask.after) teller)
        (record { description = d; query = q; ask = ask }) nothing
        (D.seen desk.old)
        (D.seen desk.new) result }
{
    give_header(desk, &teller)?;
    let session = Session::new(alloc, &described.sig, laws, query, ask)?;
    list_events(alloc, desk, described, teller, session)
}
