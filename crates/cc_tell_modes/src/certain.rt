//! Tells the events of a run on certain and possible atoms, each line of an output by one call of the desk.
ghost use Rattle.std.specs.Prelude.{◌≡◌, ◌∷◌, ◌++◌, ◌<◌, ◌≤◌, ℕ, [], IfOk, Some, false, codes, decimal, flat_map, length};
ghost use Rattle.std.specs.List.{AllByRecursion};
ghost use Rattle.cc_defs.specs.Conditions.{IsSignatureOfDescription};
ghost use Rattle.cc_defs.specs.Description.{Description, sizes_at};
ghost use Rattle.cc_defs.specs.Events.{of_horizon};
ghost use Rattle.cc_defs.specs.Limits.{most_variables};
ghost use Rattle.cc_defs.specs.LogTexts.{IsFormed, line_text};
ghost use Rattle.cc_defs.specs.declared.log.LogLine.TheVariants as lines;
ghost use Rattle.cc_defs.specs.Rows.{IsRow};
ghost use Rattle.cc_defs.specs.Texts.{history_text, key_line};
ghost use Rattle.cc_ports.specs.declared.desk.To.TheVariants as outputs;
ghost use Rattle.cc_print.specs.Atoms.{IsAtomOf};
ghost use Rattle.cc_print.specs.Atoms as atoms;
ghost use Rattle.cc_sorts.specs.Tables.{IsSignatureFor};
ghost use Rattle.cc_silent.specs.SureLogs.{atom_heading};
ghost use Rattle.cc_tell.specs.Names.{AreNamesOf};
ghost use Rattle.cc_tell_modes.specs.SureTexts.{answer_lines, answer_words, IsPrintable, given_of, heading_of};
ghost use Rattle.cc_tell.specs.Steps.{Step};
ghost use Rattle.cc_tell.specs.Givens.{given_to};
ghost use Rattle.cc_tell_modes.specs.SureTexts as sures;

use cc_defs::{Event, LogLine, OutOfMemory, Sig, Text};
use cc_ports::{Desk, To};
use cc_print::{atom_text, example_text};
use cc_sorts::Table;
use cc_sure::{Answer, SureTurn};
use cc_tell::{Status, Stop, give, give_made, tell_event, tell_line, tell_row};
use std::alloc::Global;

/// Gives an example and its key to Out, behind the line with its number.
fn tell_example<D: Desk>(
    alloc: Global,
    desk: &mut D,
    table: &Table,
    sig: &Sig,
    horizon: u32,
    number: u32,
    row: &[u32],
) -> Result<(), Stop>
    requires signature { IsSignatureFor table.now sig.now }
    requires row { (d : Description) →
        IsSignatureOfDescription d sig.now → IsRow (sizes_at d horizon) row.now }
    ensures { (d : Description) → AreNamesOf table.now sig.now d →
        Step (given_to outputs.Out (of_horizon horizon (codes "example " ++ decimal number)
        ++ (history_text d horizon row.now ++ key_line horizon row.now))) (D.seen desk.old)
        (D.seen desk.new) result }
{
    give_made(desk, To::Out, example_text(alloc, horizon, number))?;
    tell_row(alloc, desk, table, sig, horizon, row)
}

/// The line of an atom, and these words behind it.
fn said_of(alloc: Global, atom: &str, said: &str) -> Result<Text, OutOfMemory>
    ensures { IfOk result (λ line. line ≡ atom.now ++ said.now ++ 10 ∷ []) }
{
    let line = format!(in alloc; "{atom}{said}\n")?;
    Ok(Text::of(line))
}

/// The line of an atom that is possible, as this example shows.
fn possible_line(alloc: Global, atom: &str, example: u32) -> Result<Text, OutOfMemory>
    ensures { IfOk result (λ line.
        line ≡ atom.now ++ (codes " possible, example " ++ decimal example) ++ 10 ∷ []) }
{
    let line = format!(in alloc; "{atom} possible, example {example}\n")?;
    Ok(Text::of(line))
}

/// The line of an atom, and what is answered of it.
fn answered(alloc: Global, atom: &str, answer: Answer) -> Result<Text, OutOfMemory>
    ensures { IfOk result (λ line. line ≡ atom.now ++ answer_words answer ++ 10 ∷ []) }
{
    match answer {
        Answer::Certain => said_of(alloc, atom, " certain"),
        Answer::Possible { example } => possible_line(alloc, atom, example),
        Answer::Impossible => said_of(alloc, atom, " impossible"),
    }
}

/// The line of an answer.
fn answer_line(
    alloc: Global,
    table: &Table,
    sig: &Sig,
    position: u64,
    value: u32,
    answer: Answer,
) -> Result<Text, OutOfMemory>
    requires signature { IsSignatureFor table.now sig.now }
    requires atom { IsAtomOf sig.now position value }
    ensures { (d : Description) → AreNamesOf table.now sig.now d → IfOk result (λ line.
        line ≡ atoms.atom_text d position value ++ answer_words answer ++ 10 ∷ []) }
{
    let atom = atom_text(alloc, table, sig, position, value)?;
    answered(alloc, atom.text(), answer)
}

/// Gives the line of an answer to Out.
fn tell_answer<D: Desk>(
    alloc: Global,
    desk: &mut D,
    table: &Table,
    sig: &Sig,
    position: u64,
    value: u32,
    answer: Answer,
) -> Result<(), Stop>
    requires signature { IsSignatureFor table.now sig.now }
    requires atom { IsAtomOf sig.now position value }
    ensures { (d : Description) → AreNamesOf table.now sig.now d →
        Step (given_to outputs.Out (atoms.atom_text d position value ++ answer_words answer
        ++ 10 ∷ [])) (D.seen desk.old) (D.seen desk.new) result }
{
    let line = answer_line(alloc, table, sig, position, value, answer);
    give_made(desk, To::Out, line)
}

/// Gives what is answered of each value of a position to Out, a line each.
fn tell_answers<D: Desk>(
    alloc: Global,
    desk: &mut D,
    table: &Table,
    sig: &Sig,
    position: u64,
    answers: &[Answer],
) -> Result<(), Stop>
    requires signature { IsSignatureFor table.now sig.now }
    requires few { length answers.now ≤ most_variables }
    requires atoms { (value : ℕ) →
        value < length answers.now → IsAtomOf sig.now position value }
    ensures { (d : Description) → AreNamesOf table.now sig.now d →
        Step (given_to outputs.Out (answer_lines d position 0 answers.now)) (D.seen desk.old)
        (D.seen desk.new) result }
{
    for value in 0..answers.len() {
        tell_answer(
            alloc,
            desk,
            table,
            sig,
            position,
            value as u32,
            answers[value],
        )?;
    }
    Ok(())
}

/// The heading of the search for an atom at a horizon.
fn atom_line(alloc: Global, horizon: u32, position: u64, value: u32) -> Result<Text, OutOfMemory>
    ensures { IfOk result (λ line. line ≡ atom_heading horizon position value) }
{
    let line = format!(in alloc; "a {horizon} {position} {value}\n")?;
    Ok(Text::of(line))
}

/// The heading of the search for a history of a horizon.
pub(crate) fn horizon_line(alloc: Global, horizon: u32) -> Result<Text, OutOfMemory>
    ensures { IfOk result (λ line. line ≡ line_text (lines.Section false horizon)) }
{
    let line = format!(in alloc; "h {horizon}\n")?;
    Ok(Text::of(line))
}

/// The heading of a search: of an atom at a horizon, or of a horizon.
fn heading_text(alloc: Global, horizon: u32, atom: Option<(u64, u32)>) -> Result<Text, OutOfMemory>
    ensures { IfOk result (λ text. text ≡ heading_of horizon atom) }
{
    match atom {
        Some(at) => atom_line(alloc, horizon, at.0, at.1),
        None => horizon_line(alloc, horizon),
    }
}

/// Gives the heading of a search to Log.
fn tell_heading<D: Desk>(
    alloc: Global,
    desk: &mut D,
    horizon: u32,
    atom: Option<(u64, u32)>,
) -> Result<(), Stop>
    ensures { Step (given_to outputs.Log (heading_of horizon atom)) (D.seen desk.old)
        (D.seen desk.new) result }
{
    give_made(desk, To::Log, heading_text(alloc, horizon, atom))
}

/// Gives lines to Log.
pub(crate) fn tell_lines<D: Desk>(
    alloc: Global,
    desk: &mut D,
    lines: &[LogLine],
) -> Result<(), Stop>
    requires formed { AllByRecursion IsFormed lines.now }
    ensures { Step (given_to outputs.Log (flat_map line_text lines.now)) (D.seen desk.old)
        (D.seen desk.new) result }
{
    for i in 0..lines.len() {
        tell_line(alloc, desk, &lines[i])?;
    }
    Ok(())
}

/// Gives the lines of a section to Log, behind its heading.
fn tell_section<D: Desk>(
    alloc: Global,
    desk: &mut D,
    horizon: u32,
    atom: Option<(u64, u32)>,
    lines: &[LogLine],
) -> Result<(), Stop>
    requires formed { AllByRecursion IsFormed lines.now }
    ensures { Step (given_to outputs.Log (heading_of horizon atom ++ flat_map line_text lines.now))
        (D.seen desk.old) (D.seen desk.new) result }
{
    tell_heading(alloc, desk, horizon, atom)?;
    tell_lines(alloc, desk, lines)
}

/// Gives the section of a search that was spent to Log, and the line of that end to Out.
fn tell_spent<D: Desk>(
    alloc: Global,
    desk: &mut D,
    horizon: u32,
    atom: Option<(u64, u32)>,
    lines: &[LogLine],
) -> Result<(), Stop>
    requires formed { AllByRecursion IsFormed lines.now }
    ensures { Step (record {
      out = codes "budget spent" ++ 10 ∷ [];
      err = [];
      log = heading_of horizon atom ++ flat_map line_text lines.now;
    })
        (D.seen desk.old)
        (D.seen desk.new) result }
{
    tell_section(alloc, desk, horizon, atom, lines)?;
    give(desk, To::Out, b"budget spent\n")
}

/// Gives the line of a horizon without a history to Out.
fn tell_none<D: Desk>(alloc: Global, desk: &mut D, horizon: u32) -> Result<(), Stop>
    ensures { Step (given_to outputs.Out (of_horizon horizon (codes "no history")))
        (D.seen desk.old) (D.seen desk.new) result }
{
    tell_event(alloc, desk, &Event::NoHistory { horizon })
}

/// Gives what an event is told by, where the run is at this horizon.
fn tell<D: Desk>(
    alloc: Global,
    desk: &mut D,
    table: &Table,
    sig: &Sig,
    horizon: u32,
    event: &SureTurn,
) -> Result<(), Stop>
    requires signature { IsSignatureFor table.now sig.now }
    requires printable { IsPrintable sig.now horizon event.now }
    ensures { (d : Description) → AreNamesOf table.now sig.now d →
        Step (given_of d horizon event.now) (D.seen desk.old) (D.seen desk.new) result }
{
    match event {
        SureTurn::NoHistory { horizon: empty } => tell_none(alloc, desk, *empty),
        SureTurn::Example { number, row } => {
            tell_example(alloc, desk, table, sig, horizon, *number, row.items())
        }
        SureTurn::Impossible {
            position,
            value,
            lines,
        } => tell_section(
            alloc,
            desk,
            horizon,
            Some((*position, *value)),
            lines.items(),
        ),
        SureTurn::Answers { position, answers } => {
            tell_answers(alloc, desk, table, sig, *position, answers.items())
        }
        SureTurn::Complete => give(desk, To::Out, b"complete\n"),
        SureTurn::NoneAtAll => give(desk, To::Out, b"no history\n"),
        SureTurn::Spent { atom, lines } => {
            tell_spent(alloc, desk, horizon, *atom, lines.items())
        }
    }
}

/// The status of a run whose last event this is; none where more is to come.
fn status_behind(event: &SureTurn) -> Option<Status>
    ensures { result ≡ sures.status_behind event.now }
{
    match event {
        SureTurn::NoHistory { .. } => None,
        SureTurn::Example { .. } => None,
        SureTurn::Impossible { .. } => None,
        SureTurn::Answers { .. } => None,
        SureTurn::Complete => Some(Status::Right),
        SureTurn::NoneAtAll => Some(Status::Not),
        SureTurn::Spent { .. } => Some(Status::Spent),
    }
}

/// Tells an event, where the run is at this horizon, and answers the run's status where it is the last one.
pub fn tell_sure<D: Desk>(
    alloc: Global,
    desk: &mut D,
    table: &Table,
    sig: &Sig,
    horizon: u32,
    event: &SureTurn,
) -> Result<Option<Status>, Stop>
    requires signature { IsSignatureFor table.now sig.now }
    requires printable { IsPrintable sig.now horizon event.now }
    ensures told { (d : Description) → AreNamesOf table.now sig.now d →
        Step (given_of d horizon event.now) (D.seen desk.old) (D.seen desk.new) result }
    ensures status { IfOk result (λ status. status ≡ sures.status_behind event.now) }
{
    tell(alloc, desk, table, sig, horizon, event)?;
    Ok(status_behind(event))
}
