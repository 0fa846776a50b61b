//! The events of a turn, handed out one after another.
ghost use Rattle.std.specs.Prelude.{◌≡◌, ◌≤◌, ◌++◌, ◌∷◌, [], IfSome, IsNone, length, option_to_list};
ghost use Rattle.cc_defs.specs.Limits.{most_variables};
ghost use Rattle.cc_sure.specs.SureEvents.{answer_events, heading_event, log_lines, sought_of, turn_events};
ghost use Rattle.cc_sure.specs.Sures.{IsFewTurn};

use crate::answer::Answer;
use crate::event::SureEvent;
use crate::turn::SureTurn;
use cc_defs::{List, LogLine};
use std::alloc::Global;
use std::marker::Model;
use std::vec::IntoIter;

/// The events of a turn that were not handed out yet: a heading, the lines of its section, the answers of a position, and what
/// comes last.
#[derive(Drop)]
pub(crate) struct Queue {
    heading: Option<SureEvent>,
    lines: IntoIter<LogLine>,
    position: u64,
    // The value that the next answer is of.
    value: u32,
    answers: IntoIter<Answer>,
    last: Option<SureEvent>,
}

impl Model for Queue {
    ghost use Rattle.std.specs.Prelude.{◌+◌, ◌≤◌, List, ◌++◌, length, option_to_list};
    ghost use Rattle.std.specs.Vec.Iter.{into_iter_items};
    ghost use Rattle.cc_defs.specs.Limits.{most_variables};
    ghost use Rattle.cc_sure.specs.declared.event.SureEvent.{SureEvent};
    ghost use Rattle.cc_sure.specs.SureEvents.{answer_events, log_lines};

    ghost Value = { List SureEvent };

    ghost view = { λ queue. option_to_list queue.heading ++ (log_lines (into_iter_items queue.lines)
        ++ (answer_events queue.position queue.value (into_iter_items queue.answers) ++ option_to_list queue.last)) };

    ghost invariant = { λ queue.
        queue.value + length (into_iter_items queue.answers) ≤ most_variables };
}

impl Queue {
    /// No events.
    pub(crate) fn new(alloc: Global) -> Queue
        ensures { result ≡ [] }
    {
        Queue {
            heading: None,
            lines: Vec::new(alloc).into_iter(),
            position: 0,
            value: 0,
            answers: Vec::new(alloc).into_iter(),
            last: None,
        }
    }

    // One event alone.
    fn alone(alloc: Global, event: SureEvent) -> Queue
        ensures { result ≡ event ∷ [] }
    {
        Queue {
            heading: None,
            lines: Vec::new(alloc).into_iter(),
            position: 0,
            value: 0,
            answers: Vec::new(alloc).into_iter(),
            last: Some(event),
        }
    }

    // The heading of a section, its lines, and what comes of it where that is told.
    fn section(
        alloc: Global,
        heading: SureEvent,
        lines: List<LogLine>,
        last: Option<SureEvent>,
    ) -> Queue
        ensures { result ≡ heading ∷ (log_lines lines ++ option_to_list last) }
    {
        Queue {
            heading: Some(heading),
            lines: lines.into_items().into_iter(),
            position: 0,
            value: 0,
            answers: Vec::new(alloc).into_iter(),
            last,
        }
    }

    // The answers of a position.
    fn answers(alloc: Global, position: u64, answers: List<Answer>) -> Queue
        requires { length answers ≤ most_variables }
        ensures { result ≡ answer_events position 0 answers }
    {
        Queue {
            heading: None,
            lines: Vec::new(alloc).into_iter(),
            position,
            value: 0,
            answers: answers.into_items().into_iter(),
            last: None,
        }
    }

    /// The next event.
    pub(crate) fn next(&mut self) -> Option<SureEvent>
        ensures none { IsNone result → self.old ≡ [] }
        ensures rest { IsNone result → self.new ≡ [] }
        ensures some { IfSome result (λ event. self.old ≡ event ∷ self.new) }
    {
        if let Some(heading) = self.heading.take() {
            return Some(heading);
        }
        if let Some(line) = self.lines.next() {
            return Some(SureEvent::Log(line));
        }
        if let Some(answer) = self.answers.next() {
            let value = self.value;
            self.value += 1;
            return Some(SureEvent::Answer {
                position: self.position,
                value,
                answer,
            });
        }
        self.last.take()
    }
}

/// The heading of a section that was spent: in the search for a history of the horizon, or for one that has this atom.
fn spent_heading(horizon: u32, atom: Option<(u64, u32)>) -> SureEvent
    ensures { result ≡ heading_event horizon (sought_of atom) }
{
    match atom {
        Some((position, value)) => SureEvent::Heading {
            horizon,
            position,
            value,
        },
        None => SureEvent::Log(LogLine::Section {
            conditions: false,
            horizon,
        }),
    }
}

/// The events of a turn, where the run is at this horizon.
pub(crate) fn queue_of(alloc: Global, horizon: u32, turn: SureTurn) -> Queue
    requires { IsFewTurn turn }
    ensures { result ≡ turn_events horizon turn }
{
    match turn {
        SureTurn::NoHistory { horizon } => Queue::alone(alloc, SureEvent::NoHistory { horizon }),
        SureTurn::Example { number, row } => {
            let example = SureEvent::Example {
                horizon,
                number,
                row,
            };
            Queue::alone(alloc, example)
        }
        SureTurn::Impossible {
            position,
            value,
            lines,
        } => {
            let heading = SureEvent::Heading {
                horizon,
                position,
                value,
            };
            Queue::section(alloc, heading, lines, None)
        }
        SureTurn::Answers { position, answers } => Queue::answers(alloc, position, answers),
        SureTurn::Complete => Queue::alone(alloc, SureEvent::Complete),
        SureTurn::NoneAtAll => Queue::alone(alloc, SureEvent::NoneAtAll),
        SureTurn::Spent { atom, lines } => {
            let heading = spent_heading(horizon, atom);
            Queue::section(alloc, heading, lines, Some(SureEvent::Spent { horizon }))
        }
    }
}
