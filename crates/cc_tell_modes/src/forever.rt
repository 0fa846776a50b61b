//! Tells the turns of a run on every horizon, and the verdict on its log, each line of an output by one call of the desk.
ghost use Rattle.std.specs.Prelude.{◌≡◌, ◌++◌, ◌∷◌, [], IfOk, codes, if◌then◌else◌, string_bytes};
ghost use Rattle.std.specs.List.{AllByRecursion};
ghost use Rattle.cc_defs.specs.Conditions.{IsSignatureOfDescription};
ghost use Rattle.cc_defs.specs.Description.{Description, sizes_at};
ghost use Rattle.cc_defs.specs.LogTexts.{IsFormed};
ghost use Rattle.cc_defs.specs.Rows.{IsRow};
ghost use Rattle.cc_forever.specs.Forevers.{IsFitTurn};
ghost use Rattle.cc_ports.specs.declared.desk.To.TheVariants as outputs;
ghost use Rattle.cc_silent.specs.ForeverLogs as logs;
ghost use Rattle.cc_silent.specs.declared.forever.ForeverHeading.TheVariants as headings;
ghost use Rattle.cc_sorts.specs.Tables.{IsSignatureFor};
ghost use Rattle.cc_tell.specs.declared.status.Status.TheVariants as statuses;
ghost use Rattle.cc_tell.specs.Names.{AreNamesOf};
ghost use Rattle.cc_tell.specs.Givens.{given_to, only_out};
ghost use Rattle.cc_tell.specs.Steps.{Step};
ghost use Rattle.cc_tell_modes.specs.ForeverTexts.{forever_status, forever_verdict_line, forever_verdict_status, found_line, given_forever, lines_under, met_line, none_line, of_steps, proved_line, row_lines};

use crate::causes::push_number;
use crate::certain::tell_lines;
use cc_defs::{Event, LogLine, OutOfMemory, Sig, Text};
use cc_forever::ForeverTurn;
use cc_ports::{Desk, To};
use cc_silent::{ForeverHeading, ForeverVerdict};
use cc_sorts::Table;
use cc_tell::{Status, Stop, give, give_made, tell_event, tell_row};
use std::alloc::Global;

/// What is asked of every horizon: whether the query has a claim, and its least horizon.
#[derive(Clone, Copy)]
pub struct AskedForever {
    pub claim: bool,
    pub least: u32,
}

// The heading of a section.
fn heading_line(alloc: Global, heading: ForeverHeading) -> Result<Text, OutOfMemory>
    ensures { IfOk result (λ line. line ≡ logs.forever_heading heading) }
{
    let line = match heading {
        ForeverHeading::Horizon(horizon) => format!(in alloc; "h {horizon}\n")?,
        ForeverHeading::Steps(steps) => format!(in alloc; "i {steps}\n")?,
    };
    Ok(Text::of(line))
}

// The line of an induction over so many steps.
fn steps_line(alloc: Global, steps: u32, said: &str) -> Result<Text, OutOfMemory>
    ensures { IfOk result (λ line. line ≡ of_steps steps said.now) }
{
    let mut line = String::from_str(alloc, "induction over ")?;
    push_number(&mut line, steps)?;
    line.push_str(" steps: ")?;
    line.push_str(said)?;
    line.push_str("\n")?;
    Ok(Text::of(line))
}

// The line of what is proved.
fn proved_text(alloc: Global, asked: AskedForever) -> Result<Text, OutOfMemory>
    ensures { IfOk result (λ line. line ≡ proved_line asked.claim asked.least) }
{
    let least = asked.least;
    let line = if asked.claim {
        format!(in alloc; "claim holds at every horizon from {least} on\n")?
    } else {
        format!(in alloc; "no history at any horizon from {least} on\n")?
    };
    Ok(Text::of(line))
}

// Gives what is said of a horizon that has no history to Out.
fn tell_none<D: Desk>(alloc: Global, desk: &mut D, claim: bool, horizon: u32) -> Result<(), Stop>
    ensures { Step (given_to outputs.Out (none_line claim horizon)) (D.seen desk.old)
        (D.seen desk.new) result }
{
    if claim {
        tell_event(alloc, desk, &Event::Holds { horizon })
    } else {
        tell_event(alloc, desk, &Event::NoHistory { horizon })
    }
}

// Gives what is said of a horizon that has one to Out.
fn tell_found<D: Desk>(alloc: Global, desk: &mut D, claim: bool, horizon: u32) -> Result<(), Stop>
    ensures { Step (given_to outputs.Out (found_line claim horizon)) (D.seen desk.old)
        (D.seen desk.new) result }
{
    if claim {
        tell_event(alloc, desk, &Event::Counterexample { horizon })
    } else {
        tell_event(alloc, desk, &Event::History { horizon, number: 1 })
    }
}

// Gives the line with which a run ends that has found a history.
fn tell_met<D: Desk>(desk: &mut D, claim: bool) -> Result<(), Stop>
    ensures { Step (given_to outputs.Out (met_line claim)) (D.seen desk.old) (D.seen desk.new)
        result }
{
    if claim {
        give(desk, To::Out, b"claim fails\n")
    } else {
        give(desk, To::Out, b"history found\n")
    }
}

// Gives the lines of a section to Log, behind its heading.
fn tell_section<D: Desk>(
    alloc: Global,
    desk: &mut D,
    heading: ForeverHeading,
    lines: &[LogLine],
) -> Result<(), Stop>
    requires formed { AllByRecursion IsFormed lines.now }
    ensures { Step (given_to outputs.Log (lines_under heading lines.now)) (D.seen desk.old)
        (D.seen desk.new) result }
{
    give_made(desk, To::Log, heading_line(alloc, heading))?;
    tell_lines(alloc, desk, lines)
}

// Gives the section of a horizon without a history to Log, and what is said of it to Out.
fn tell_passed<D: Desk>(
    alloc: Global,
    desk: &mut D,
    claim: bool,
    horizon: u32,
    lines: &[LogLine],
) -> Result<(), Stop>
    requires formed { AllByRecursion IsFormed lines.now }
    ensures { Step (record {
      out = none_line claim horizon;
      err = [];
      log = lines_under (headings.Horizon horizon) lines.now;
    })
        (D.seen desk.old)
        (D.seen desk.new) result }
{
    tell_section(alloc, desk, ForeverHeading::Horizon(horizon), lines)?;
    tell_none(alloc, desk, claim, horizon)
}

// Gives the section of a step without a history to Log, and what that proves to Out.
fn tell_proved<D: Desk>(
    alloc: Global,
    desk: &mut D,
    asked: AskedForever,
    steps: u32,
    lines: &[LogLine],
) -> Result<(), Stop>
    requires formed { AllByRecursion IsFormed lines.now }
    ensures { Step (record {
      out = of_steps steps (codes "holds") ++ proved_line asked.claim asked.least;
      err = [];
      log = lines_under (headings.Steps steps) lines.now;
    })
        (D.seen desk.old)
        (D.seen desk.new) result }
{
    tell_section(alloc, desk, ForeverHeading::Steps(steps), lines)?;
    give_made(desk, To::Out, steps_line(alloc, steps, "holds"))?;
    give_made(desk, To::Out, proved_text(alloc, asked))
}

// Gives the least history of a horizon to Out, behind what is said of the horizon, and the line of the end.
fn tell_history<D: Desk>(
    alloc: Global,
    desk: &mut D,
    table: &Table,
    sig: &Sig,
    claim: bool,
    horizon: u32,
    row: &[u32],
) -> Result<(), Stop>
    requires signature { IsSignatureFor table.now sig.now }
    requires row { (d : Description) →
        IsSignatureOfDescription d sig.now → IsRow (sizes_at d horizon) row.now }
    ensures { (d : Description) → AreNamesOf table.now sig.now d →
        Step (given_to outputs.Out (found_line claim horizon ++ row_lines d horizon row.now
        ++ met_line claim)) (D.seen desk.old) (D.seen desk.new) result }
{
    tell_found(alloc, desk, claim, horizon)?;
    tell_row(alloc, desk, table, sig, horizon, row)?;
    tell_met(desk, claim)
}

// Gives the least history of the last step to Out, behind what is said of the induction, and the line of the end.
fn tell_open<D: Desk>(
    alloc: Global,
    desk: &mut D,
    table: &Table,
    sig: &Sig,
    steps: u32,
    example: &[u32],
) -> Result<(), Stop>
    requires signature { IsSignatureFor table.now sig.now }
    requires row { (d : Description) →
        IsSignatureOfDescription d sig.now → IsRow (sizes_at d steps) example.now }
    ensures { (d : Description) → AreNamesOf table.now sig.now d →
        Step (given_to outputs.Out (of_steps steps (codes "example") ++ row_lines d steps example.now
        ++ (codes "not settled" ++ 10 ∷ []))) (D.seen desk.old) (D.seen desk.new) result }
{
    give_made(desk, To::Out, steps_line(alloc, steps, "example"))?;
    tell_row(alloc, desk, table, sig, steps, example)?;
    give(desk, To::Out, b"not settled\n")
}

// Gives the section of a search that was spent to Log, and the line of that end to Out.
fn tell_spent<D: Desk>(
    alloc: Global,
    desk: &mut D,
    heading: ForeverHeading,
    lines: &[LogLine],
) -> Result<(), Stop>
    requires formed { AllByRecursion IsFormed lines.now }
    ensures { Step (record {
      out = codes "budget spent" ++ 10 ∷ [];
      err = [];
      log = lines_under heading lines.now;
    })
        (D.seen desk.old)
        (D.seen desk.new) result }
{
    tell_section(alloc, desk, heading, lines)?;
    give(desk, To::Out, b"budget spent\n")
}

// Gives all that a turn is told by.
fn tell<D: Desk>(
    alloc: Global,
    desk: &mut D,
    table: &Table,
    sig: &Sig,
    asked: AskedForever,
    turn: &ForeverTurn,
) -> Result<(), Stop>
    requires signature { IsSignatureFor table.now sig.now }
    requires fit { IsFitTurn sig.now turn.now }
    ensures { (d : Description) → AreNamesOf table.now sig.now d →
        Step (given_forever d asked.claim asked.least turn.now) (D.seen desk.old) (D.seen desk.new)
        result }
{
    match turn {
        ForeverTurn::NoHistory { horizon, lines } => {
            tell_passed(alloc, desk, asked.claim, *horizon, lines.items())
        }
        ForeverTurn::Fails { steps } => {
            give_made(desk, To::Out, steps_line(alloc, *steps, "fails"))
        }
        ForeverTurn::Holds { steps, lines } => {
            tell_proved(alloc, desk, asked, *steps, lines.items())
        }
        ForeverTurn::Found { horizon, row } => tell_history(
            alloc,
            desk,
            table,
            sig,
            asked.claim,
            *horizon,
            row.items(),
        ),
        ForeverTurn::Unsettled { steps, example } => {
            tell_open(alloc, desk, table, sig, *steps, example.items())
        }
        ForeverTurn::Spent { heading, lines } => tell_spent(alloc, desk, *heading, lines.items()),
    }
}

// The status of a run whose last turn this is; none where more is to come.
fn status_behind(claim: bool, turn: &ForeverTurn) -> Option<Status>
    ensures { result ≡ forever_status claim turn.now }
{
    match turn {
        ForeverTurn::NoHistory { .. } => None,
        ForeverTurn::Fails { .. } => None,
        ForeverTurn::Holds { .. } => Some(holds_as(claim)),
        ForeverTurn::Found { .. } => Some(holds_as(!claim)),
        ForeverTurn::Unsettled { .. } => Some(Status::Spent),
        ForeverTurn::Spent { .. } => Some(Status::Spent),
    }
}

// The status of an answer.
fn holds_as(right: bool) -> Status
    ensures { result ≡ (if right then statuses.Right else statuses.Not) }
{
    if right { Status::Right } else { Status::Not }
}

/// Tells a turn, and answers the run's status where it is the last one. An open question has the status of a spent budget.
pub fn tell_forever<D: Desk>(
    alloc: Global,
    desk: &mut D,
    table: &Table,
    sig: &Sig,
    asked: AskedForever,
    turn: &ForeverTurn,
) -> Result<Option<Status>, Stop>
    requires signature { IsSignatureFor table.now sig.now }
    requires fit { IsFitTurn sig.now turn.now }
    ensures told { (d : Description) → AreNamesOf table.now sig.now d →
        Step (given_forever d asked.claim asked.least turn.now) (D.seen desk.old) (D.seen desk.new)
        result }
    ensures status { IfOk result (λ status. status ≡ forever_status asked.claim turn.now) }
{
    tell(alloc, desk, table, sig, asked, turn)?;
    Ok(status_behind(asked.claim, turn))
}

// ---- verdicts

/// What a checker says of a log, of a query with this least horizon.
#[derive(Clone, Copy)]
pub struct JudgedForever {
    pub least: u32,
    pub found: ForeverVerdict,
}

// The line of a verdict.
fn verdict_text(alloc: Global, judged: JudgedForever) -> Result<String, OutOfMemory>
    ensures { IfOk result (λ text. string_bytes text ≡ forever_verdict_line judged.least judged.found) }
{
    match judged.found {
        ForeverVerdict::Accepted { steps } => {
            let mut text = String::from_str(alloc, "log accepted: every horizon from ")?;
            push_number(&mut text, judged.least)?;
            text.push_str(" on, by induction over ")?;
            push_number(&mut text, steps)?;
            text.push_str(" steps\n")?;
            Ok(text)
        }
        ForeverVerdict::Refused { line, cause } => {
            let mut text = String::from_str(alloc, "log refused: line ")?;
            push_number(&mut text, line)?;
            text.push_str(", ")?;
            text.push_str(cause.words())?;
            text.push_str("\n")?;
            Ok(text)
        }
    }
}

// The status of a run with this verdict.
fn verdict_status(verdict: ForeverVerdict) -> Status
    ensures { result ≡ forever_verdict_status verdict }
{
    match verdict {
        ForeverVerdict::Accepted { .. } => Status::Right,
        ForeverVerdict::Refused { .. } => Status::Not,
    }
}

/// Tells a verdict by its line.
pub fn tell_forever_verdict<D: Desk>(
    alloc: Global,
    desk: &mut D,
    judged: JudgedForever,
) -> Result<Status, Stop>
    ensures told { Step (only_out (forever_verdict_line judged.least judged.found)) (D.seen desk.old)
        (D.seen desk.new) result }
    ensures status { IfOk result (λ status. status ≡ forever_verdict_status judged.found) }
{
    let text = verdict_text(alloc, judged)?;
    give(desk, To::Out, text.as_bytes())?;
    Ok(verdict_status(judged.found))
}
