//! Tells the events of a run over candidates, each line of an output by one call of the desk.
ghost use Rattle.std.specs.Prelude.{◌≡◌, ◌∷◌, ◌++◌, [], ℕ, List, IfOk, None, Some};
ghost use Rattle.std.specs.List.{AllByRecursion};
ghost use Rattle.cc_defs.specs.Description.{Description};
ghost use Rattle.cc_defs.specs.Events.{out_text};
ghost use Rattle.cc_defs.specs.LogTexts.{IsFormed};
ghost use Rattle.cc_defs.specs.Rows.{IsRow};
ghost use Rattle.cc_defs.specs.Runs.{told};
ghost use Rattle.cc_form.specs.Places.{position_sizes};
ghost use Rattle.cc_general.specs.declared.turn.GeneralTurn.TheVariants as events;
ghost use Rattle.cc_silent.specs.GeneralLogs.{rivals_heading};
ghost use Rattle.cc_general.specs.Generals.{IsWritable};
ghost use Rattle.cc_ports.specs.declared.desk.To.TheVariants as outputs;
ghost use Rattle.cc_sorts.specs.Tables.{IsSignatureFor};
ghost use Rattle.cc_tell.specs.Names.{AreNamesOf};
ghost use Rattle.cc_tell_modes.specs.GeneralTexts.{given_generally, general_status_behind, heading_for, lines_text};
ghost use Rattle.cc_tell.specs.Steps.{Step};
ghost use Rattle.cc_tell.specs.Givens.{given_to};

use crate::certain::{horizon_line, tell_lines};
use cc_defs::{Ending, Event, LogLine, OutOfMemory, Row, Sig, Text};
use cc_general::GeneralTurn;
use cc_ports::{Desk, To};
use cc_print::key_line;
use cc_sorts::Table;
use cc_tell::{Status, Stop, give_made, status_of, tell_event, tell_history};
use std::alloc::Global;

/// The heading of the search for a rival of a row.
fn rivals_line(alloc: Global, horizon: u32, row: &[u32]) -> Result<Text, OutOfMemory>
    ensures { IfOk result (λ line. line ≡ rivals_heading horizon row.now) }
{
    key_line(alloc, "u ", horizon, row)
}

/// The heading of a search: that for a rival of a row, or that among the candidates of a horizon.
fn heading_text(alloc: Global, horizon: u32, row: &Option<Row>) -> Result<Text, OutOfMemory>
    ensures { IfOk result (λ text. text ≡ heading_for horizon row.now) }
{
    match row {
        Some(row) => rivals_line(alloc, horizon, row.items()),
        None => horizon_line(alloc, horizon),
    }
}

/// Gives the lines of a section to Log, behind its heading, which was made.
fn tell_section<D: Desk>(
    alloc: Global,
    desk: &mut D,
    heading: Result<Text, OutOfMemory>,
    lines: &[LogLine],
) -> Result<(), Stop>
    requires formed { AllByRecursion IsFormed lines.now }
    ensures { (text : List ℕ) → IfOk heading (λ given. given ≡ text) →
        Step (given_to outputs.Log (text ++ lines_text lines.now)) (D.seen desk.old)
        (D.seen desk.new) result }
{
    give_made(desk, To::Log, heading)?;
    tell_lines(alloc, desk, lines)
}

/// Gives the line of an event without a row to Out.
fn tell_alone<D: Desk>(alloc: Global, desk: &mut D, event: &Event) -> Result<(), Stop>
    ensures { (d : Description) → Step (given_to outputs.Out (out_text d (told event.now ∷ [])))
        (D.seen desk.old) (D.seen desk.new) result }
{
    tell_event(alloc, desk, event)
}

/// Gives the section of a history to Log, and then its line, the history and its key to Out.
fn tell_shown<D: Desk>(
    alloc: Global,
    desk: &mut D,
    table: &Table,
    sig: &Sig,
    horizon: u32,
    number: u32,
    row: &[u32],
    lines: &[LogLine],
) -> Result<(), Stop>
    requires signature { IsSignatureFor table.now sig.now }
    requires row { IsRow (position_sizes sig.now horizon) row.now }
    requires formed { AllByRecursion IsFormed lines.now }
    ensures { (d : Description) → AreNamesOf table.now sig.now d →
        Step (given_generally d (events.History horizon number row.now lines.now)) (D.seen desk.old)
        (D.seen desk.new) result }
{
    tell_section(alloc, desk, rivals_line(alloc, horizon, row), lines)?;
    let event = Event::History { horizon, number };
    tell_history(alloc, desk, table, sig, &event, horizon, row)
}

/// Gives the section of a search that was spent to Log, and the line of that end to Out.
fn tell_spent<D: Desk>(
    alloc: Global,
    desk: &mut D,
    horizon: u32,
    listed: u32,
    rivals_of: &Option<Row>,
    lines: &[LogLine],
) -> Result<(), Stop>
    requires formed { AllByRecursion IsFormed lines.now }
    ensures { (d : Description) →
        Step (given_generally d (events.Spent horizon listed rivals_of.now lines.now))
        (D.seen desk.old) (D.seen desk.new) result }
{
    tell_section(alloc, desk, heading_text(alloc, horizon, rivals_of), lines)?;
    let ending = Ending::Spent { horizon, listed };
    tell_alone(alloc, desk, &Event::Ended(ending))
}

/// Gives what an event is told by: to Log first the section of a history, or of a search that was spent, and then to Out its line,
/// with the history and its key.
fn tell<D: Desk>(
    alloc: Global,
    desk: &mut D,
    table: &Table,
    sig: &Sig,
    event: &GeneralTurn,
) -> Result<(), Stop>
    requires signature { IsSignatureFor table.now sig.now }
    requires writable { IsWritable sig.now event.now }
    ensures { (d : Description) → AreNamesOf table.now sig.now d →
        Step (given_generally d event.now) (D.seen desk.old) (D.seen desk.new) result }
{
    match event {
        GeneralTurn::NoHistory { horizon } => {
            tell_alone(alloc, desk, &Event::NoHistory { horizon: *horizon })
        }
        GeneralTurn::History {
            horizon,
            number,
            row,
            lines,
        } => tell_shown(
            alloc,
            desk,
            table,
            sig,
            *horizon,
            *number,
            row.items(),
            lines.items(),
        ),
        GeneralTurn::Ended(ending) => tell_alone(alloc, desk, &Event::Ended(*ending)),
        GeneralTurn::Spent {
            horizon,
            listed,
            rivals_of,
            lines,
        } => tell_spent(alloc, desk, *horizon, *listed, rivals_of, lines.items()),
    }
}

/// The status of a run whose last event this is; none where more is to come.
fn status_behind(event: &GeneralTurn) -> Option<Status>
    ensures { result ≡ general_status_behind event.now }
{
    match event {
        GeneralTurn::NoHistory { .. } | GeneralTurn::History { .. } => None,
        GeneralTurn::Ended(ending) => Some(status_of(*ending)),
        GeneralTurn::Spent { .. } => Some(Status::Spent),
    }
}

/// Tells an event, and answers the run's status where it is the last one.
pub fn tell_general<D: Desk>(
    alloc: Global,
    desk: &mut D,
    table: &Table,
    sig: &Sig,
    event: &GeneralTurn,
) -> Result<Option<Status>, Stop>
    requires signature { IsSignatureFor table.now sig.now }
    requires writable { IsWritable sig.now event.now }
    ensures told { (d : Description) → AreNamesOf table.now sig.now d →
        Step (given_generally d event.now) (D.seen desk.old) (D.seen desk.new) result }
    ensures status { IfOk result (λ status. status ≡ general_status_behind event.now) }
{
    tell(alloc, desk, table, sig, event)?;
    Ok(status_behind(event))
}
