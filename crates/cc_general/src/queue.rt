//! The events of a turn, handed out one after another.
ghost use Rattle.std.specs.Prelude.{◌≡◌, ◌++◌, ◌∷◌, [], IfSome, IsNone, map, option_to_list};
ghost use Rattle.cc_defs.specs.declared.event.Event.TheVariants as events;
ghost use Rattle.cc_defs.specs.declared.log.LogLine.TheVariants as said;
ghost use Rattle.cc_general.specs.GeneralEvents.{log_lines, turn_events, turn_row};

use crate::turn::GeneralTurn;
use cc_defs::{Ending, Event, List, LogLine, Row};
use std::alloc::Global;
use std::marker::Model;
use std::vec::IntoIter;

/// The events of a turn that were not handed out yet.
#[derive(Drop)]
pub(crate) struct Queue {
    heading: Option<LogLine>,
    lines: IntoIter<LogLine>,
    last: Option<Event>,
}

impl Model for Queue {
    ghost use Rattle.std.specs.Prelude.{List, ◌++◌, option_to_list};
    ghost use Rattle.std.specs.Vec.Iter.{into_iter_items};
    ghost use Rattle.cc_defs.specs.declared.event.Event.{Event};
    ghost use Rattle.cc_general.specs.GeneralEvents.{log_lines};

    ghost Value = { List Event };

    ghost view = { λ queue. log_lines (option_to_list queue.heading)
        ++ (log_lines (into_iter_items queue.lines) ++ option_to_list queue.last) };
}

impl Queue {
    /// No events.
    pub(crate) fn new(alloc: Global) -> Queue
        ensures { result ≡ [] }
    {
        Queue {
            heading: None,
            lines: Vec::new(alloc).into_iter(),
            last: None,
        }
    }

    // One event alone.
    fn alone(alloc: Global, event: Event) -> Queue
        ensures { result ≡ event ∷ [] }
    {
        Queue {
            heading: None,
            lines: Vec::new(alloc).into_iter(),
            last: Some(event),
        }
    }

    // The heading of a section, its lines, and what they show.
    fn section(conditions: bool, horizon: u32, lines: List<LogLine>, last: Event) -> Queue
        ensures { result ≡ events.Log (said.Section conditions horizon) ∷ (log_lines lines ++ last ∷ []) }
    {
        Queue {
            heading: Some(LogLine::Section {
                conditions,
                horizon,
            }),
            lines: lines.into_items().into_iter(),
            last: Some(last),
        }
    }

    /// The next event.
    pub(crate) fn next(&mut self) -> Option<Event>
        ensures none { IsNone result → self.old ≡ [] }
        ensures rest { IsNone result → self.new ≡ [] }
        ensures some { IfSome result (λ event. self.old ≡ event ∷ self.new) }
    {
        if let Some(line) = self.heading.take() {
            return Some(Event::Log(line));
        }
        if let Some(line) = self.lines.next() {
            return Some(Event::Log(line));
        }
        self.last.take()
    }
}

/// The events of a turn, and the row of its history or of its heading.
pub(crate) fn queue_of(alloc: Global, turn: GeneralTurn) -> (Row, Queue)
    ensures row { result.0 ≡ turn_row turn }
    ensures queue { result.1 ≡ turn_events turn }
{
    match turn {
        GeneralTurn::NoHistory { horizon } => {
            let queue = Queue::alone(alloc, Event::NoHistory { horizon });
            (Row::of(Vec::new(alloc)), queue)
        }
        GeneralTurn::History {
            horizon,
            number,
            row,
            lines,
        } => {
            let history = Event::History { horizon, number };
            (row, Queue::section(true, horizon, lines, history))
        }
        GeneralTurn::Ended(ending) => {
            let queue = Queue::alone(alloc, Event::Ended(ending));
            (Row::of(Vec::new(alloc)), queue)
        }
        GeneralTurn::Spent {
            horizon,
            listed,
            rivals_of,
            lines,
        } => {
            let ended = Event::Ended(Ending::Spent { horizon, listed });
            match rivals_of {
                Some(row) => (row, Queue::section(true, horizon, lines, ended)),
                None => {
                    let queue = Queue::section(false, horizon, lines, ended);
                    (Row::of(Vec::new(alloc)), queue)
                }
            }
        }
    }
}
