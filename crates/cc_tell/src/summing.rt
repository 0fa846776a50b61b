//! Sums up the events of a search.
ghost use Rattle.std.specs.Prelude.{◌≡◌, List, ◌∷◌, ◌++◌, [], IfOk, IsNone, OnOk, None, ℕ};
ghost use Rattle.cc_defs.specs.Description.{Description};
ghost use Rattle.cc_defs.specs.declared.event.Told.{Told as ToldEvent};
ghost use Rattle.cc_ports.specs.declared.desk.To.TheVariants as outputs;
ghost use Rattle.cc_print.specs.Summaries.{endings_told, summary};
ghost use Rattle.cc_lists.specs.Subjects.{IsShortEvent, with_row};
ghost use Rattle.cc_tell.specs.Manners.{Summed};
ghost use Rattle.cc_tell.specs.Steps.{Step};
ghost use Rattle.cc_tell.specs.Givens.{given_to};
ghost use Rattle.cc_tell.specs.EventTexts.{texts_behind};
ghost use Rattle.cc_tell.specs.Tellers.{SumUp};
ghost use Rattle.cc_tell.specs.Statuses.{status_told};

use crate::status::Stop;
use crate::telling::{give_lines, tell_line};
use cc_defs::{Event, List as Items, OutOfMemory, Told};
use cc_ports::Desk;
use cc_print::summary_text;
use std::alloc::Global;
use std::mem::replace;

/// Gives a line of the log; keeps an event that the summary speaks of; and behind the last event gives the summary.
pub(crate) fn sum<D: Desk>(
    alloc: Global,
    desk: &mut D,
    size: u32,
    outcome: &mut Vec<Told>,
    event: &Event,
) -> Result<(), Stop>
    requires short { IsShortEvent event.now }
    ensures told { (d : Description) (before : List ToldEvent) (row : List ℕ) →
        SumUp outcome.old.items before → endings_told before ≡ [] →
        Step (texts_behind (Summed size) d before (with_row event.now row)) (D.seen desk.old)
        (D.seen desk.new) result }
    ensures keeps { IfOk result (λ _. (before : List ToldEvent) (row : List ℕ) →
        SumUp outcome.old.items before → IsNone (status_told event.now) →
        SumUp outcome.new.items (before ++ with_row event.now row ∷ [])) }
{
    match event {
        Event::Log(line) => tell_line(alloc, desk, line),
        Event::NoHistory { horizon } => {
            keep(outcome, Event::NoHistory { horizon: *horizon })?;
            Ok(())
        }
        Event::Ended(ending) => {
            keep(outcome, Event::Ended(*ending))?;
            tell_summary(alloc, desk, size, outcome)
        }
        Event::History { .. } => Ok(()),
        Event::NoConditions { .. } => Ok(()),
        Event::Holds { .. } => Ok(()),
        Event::Counterexample { .. } => Ok(()),
    }
}

/// Keeps an event.
fn keep(outcome: &mut Vec<Told>, event: Event) -> Result<(), OutOfMemory>
    ensures { OnOk result
        (outcome.new.items ≡ outcome.old.items ++ record { event = event; row = None } ∷ []) }
{
    outcome.push(Told { event, row: None })?;
    Ok(())
}

/// Gives the summary of the events that were kept, which are gone then.
fn tell_summary<D: Desk>(
    alloc: Global,
    desk: &mut D,
    size: u32,
    outcome: &mut Vec<Told>,
) -> Result<(), Stop>
    ensures { Step (given_to outputs.Out (summary size outcome.old.items)) (D.seen desk.old)
        (D.seen desk.new) result }
{
    let told = Items::of(replace(outcome, Vec::new(alloc)));
    let text = summary_text(alloc, size, &told)?;
    give_lines(desk, text.text())
}
