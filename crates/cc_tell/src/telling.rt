//! Tells the events of a search, each line of an output by one call of the desk.
ghost use Rattle.std.specs.Prelude.{◌≡◌, ◌≤◌, ℕ, Bool, List, ◌∷◌, ◌++◌, [], IfOk, IsNone, OnOk};
ghost use Rattle.cc_defs.specs.Conditions.{IsSignatureOfDescription};
ghost use Rattle.cc_defs.specs.Description.{Description, sizes_at};
ghost use Rattle.cc_defs.specs.declared.event.Told.{Told as ToldEvent};
ghost use Rattle.cc_defs.specs.Events.{event_text as event_line, line_told};
ghost use Rattle.cc_defs.specs.LogBytes.{entry_bytes, line_behind};
ghost use Rattle.cc_defs.specs.LogTexts.{line_text, IsFormed};
ghost use Rattle.cc_defs.specs.Limits.{most_clauses};
ghost use Rattle.cc_defs.specs.LogVersions.{line_bytes, own_behind};
ghost use Rattle.cc_defs.specs.Rows.{IsRow};
ghost use Rattle.cc_defs.specs.Texts as texts;
ghost use Rattle.cc_ports.specs.declared.desk.To.TheVariants as outputs;
ghost use Rattle.cc_lists.specs.Subjects.{IsShortEvent, with_row};
ghost use Rattle.cc_sorts.specs.Tables.{IsSignatureFor};
ghost use Rattle.cc_tell.specs.Names.{AreNamesOf};
ghost use Rattle.cc_tell.specs.Manners.{header_told};
ghost use Rattle.cc_tell.specs.EventTexts.{IsRowOfEvent, own_after, texts_at, texts_behind};
ghost use Rattle.cc_tell.specs.Steps.{Step};
ghost use Rattle.cc_tell.specs.Givens.{given_to};
ghost use Rattle.cc_tell.specs.Tellers.{IsCounted, IsWritable, IsWritableBy, IsWritableEvent, KeepsUp, manner_of};
ghost use Rattle.cc_tell.specs.Statuses.{status_told};

use crate::refusing::{give, give_made};
use crate::status::Stop;
use crate::summing::sum;
use cc_defs::{Event, LogLine, OutOfMemory, Sig, Text, Told, Version};
use cc_log::{put_binary, put_line};
use cc_ports::{Desk, To};
use cc_print::{event_text, history_text, key_line};
use cc_sorts::Table;
use std::alloc::Global;

/// The first line of a log of version 1.
const HEADER: &str = "ccalc log 1\n";

/// How the events of a search are told.
#[derive(Drop)]
pub enum Teller {
    /// Each as it comes, with a log in this version; `own` is the number that the next clause has in its section.
    OneByOne { version: Version, own: u32 },
    /// By a summary behind the last one, as that of a made description of this size; with the events so far that it speaks of.
    Summed { size: u32, outcome: Vec<Told> },
}

/// Gives the header of a log.
pub fn give_header<D: Desk>(desk: &mut D, teller: &Teller) -> Result<(), Stop>
    ensures { (counts : Bool → ℕ → ℕ) →
        Step (given_to outputs.Log (header_told (manner_of counts teller.now))) (D.seen desk.old)
        (D.seen desk.new) result }
{
    match teller {
        Teller::OneByOne {
            version: Version::Second,
            ..
        } => give(desk, To::Log, b"ccalclg2"),
        Teller::OneByOne {
            version: Version::First,
            ..
        } => give(desk, To::Log, HEADER.as_bytes()),
        Teller::Summed { .. } => give(desk, To::Log, HEADER.as_bytes()),
    }
}

/// Gives the lines of a text to Out, one after another.
pub fn give_lines<D: Desk>(desk: &mut D, text: &str) -> Result<(), Stop>
    ensures { Step (given_to outputs.Out text.now) (D.seen desk.old) (D.seen desk.new) result }
{
    for line in text.split_inclusive('\n') {
        give(desk, To::Out, line.as_bytes())?;
    }
    Ok(())
}

/// Gives the lines of a text that was made to Out, one after another.
pub(crate) fn give_made_lines<D: Desk>(
    desk: &mut D,
    made: Result<Text, OutOfMemory>,
) -> Result<(), Stop>
    ensures { (text : List ℕ) → IfOk made (λ given. given ≡ text) →
        Step (given_to outputs.Out text) (D.seen desk.old) (D.seen desk.new) result }
{
    match made {
        Ok(given) => give_lines(desk, given.text()),
        Err(OutOfMemory) => Err(Stop::OutOfMemory),
    }
}

/// Gives a history and its key to Out.
pub fn tell_row<D: Desk>(
    alloc: Global,
    desk: &mut D,
    table: &Table,
    sig: &Sig,
    horizon: u32,
    row: &[u32],
) -> Result<(), Stop>
    requires signature { IsSignatureFor table.now sig.now }
    requires row { (d : Description) →
        IsSignatureOfDescription d sig.now → IsRow (sizes_at d horizon) row.now }
    ensures { (d : Description) → AreNamesOf table.now sig.now d →
        Step (given_to outputs.Out (texts.history_text d horizon row.now
        ++ texts.key_line horizon row.now)) (D.seen desk.old) (D.seen desk.new) result }
{
    let history = history_text(alloc, table, sig, horizon, row);
    give_made_lines(desk, history)?;
    tell_key(alloc, desk, horizon, row)
}

/// Gives the line of a key to Out.
fn tell_key<D: Desk>(alloc: Global, desk: &mut D, horizon: u32, row: &[u32]) -> Result<(), Stop>
    ensures { Step (given_to outputs.Out (texts.key_line horizon row.now)) (D.seen desk.old)
        (D.seen desk.new) result }
{
    give_made(desk, To::Out, key_line(alloc, "key ", horizon, row))
}

/// Gives the line of an event to Out.
pub fn tell_event<D: Desk>(alloc: Global, desk: &mut D, event: &Event) -> Result<(), Stop>
    ensures { Step (given_to outputs.Out (event_line event.now)) (D.seen desk.old) (D.seen desk.new)
        result }
{
    give_made(desk, To::Out, event_text(alloc, event))
}

/// Gives a line of the log to Log; where it would be dropped, it is not made.
pub fn tell_line<D: Desk>(alloc: Global, desk: &mut D, line: &LogLine) -> Result<(), Stop>
    requires { IsFormed line.now }
    ensures { Step (given_to outputs.Log (line_text line.now)) (D.seen desk.old) (D.seen desk.new)
        result }
{
    if desk.drops_log() {
        return Ok(());
    }
    give_made(desk, To::Log, put_line(alloc, line))
}

/// The same in version 2, where the line's own clause has this number.
fn tell_entry<D: Desk>(alloc: Global, desk: &mut D, own: u32, line: &LogLine) -> Result<(), Stop>
    requires formed { IsFormed line.now }
    requires writable { IsWritable own line.now }
    ensures { Step (given_to outputs.Log (entry_bytes (line_behind own line.now))) (D.seen desk.old)
        (D.seen desk.new) result }
{
    if desk.drops_log() {
        return Ok(());
    }
    let bytes = put_binary(alloc, line, own)?;
    give(desk, To::Log, bytes.items())
}

/// Gives a line of the log to Log, in this version; its own clause has the number `own`.
pub fn tell_line_in<D: Desk>(
    alloc: Global,
    desk: &mut D,
    version: Version,
    own: u32,
    line: &LogLine,
) -> Result<(), Stop>
    requires formed { IsFormed line.now }
    requires writable { IsWritable own line.now }
    ensures { Step (given_to outputs.Log (line_bytes version own line.now)) (D.seen desk.old)
        (D.seen desk.new) result }
{
    match version {
        Version::First => tell_line(alloc, desk, line),
        Version::Second => tell_entry(alloc, desk, own, line),
    }
}

/// Gives the line of a history or a counterexample to Out, and behind it the history and its key.
pub fn tell_history<D: Desk>(
    alloc: Global,
    desk: &mut D,
    table: &Table,
    sig: &Sig,
    event: &Event,
    horizon: u32,
    row: &[u32],
) -> Result<(), Stop>
    requires signature { IsSignatureFor table.now sig.now }
    requires row { (d : Description) →
        IsSignatureOfDescription d sig.now → IsRow (sizes_at d horizon) row.now }
    ensures { (d : Description) → AreNamesOf table.now sig.now d →
        Step (given_to outputs.Out (event_line event.now
        ++ (texts.history_text d horizon row.now ++ texts.key_line horizon row.now)))
        (D.seen desk.old) (D.seen desk.new) result }
{
    tell_event(alloc, desk, event)?;
    tell_row(alloc, desk, table, sig, horizon, row)
}

/// Gives what an event is told by: to Out its line, and behind it the history and its key; or to Log its line, whose own clause has
/// this number. The row is that of a history or a counterexample.
fn tell<D: Desk>(
    alloc: Global,
    desk: &mut D,
    table: &Table,
    sig: &Sig,
    version: Version,
    own: u32,
    event: &Event,
    row: &[u32],
) -> Result<(), Stop>
    requires signature { IsSignatureFor table.now sig.now }
    requires row { IsRowOfEvent sig.now event.now row.now }
    requires short { IsShortEvent event.now }
    requires writable { IsWritableEvent own event.now }
    ensures { (d : Description) → AreNamesOf table.now sig.now d →
        Step (texts_at version own d (with_row event.now row.now)) (D.seen desk.old)
        (D.seen desk.new) result }
{
    match event {
        Event::Log(line) => tell_line_in(alloc, desk, version, own, line),
        Event::History { horizon, .. } => tell_history(
            alloc, desk, table, sig, event, *horizon, row,
        ),
        Event::Counterexample { horizon } => {
            tell_history(alloc, desk, table, sig, event, *horizon, row)
        }
        Event::NoHistory { .. } => tell_event(alloc, desk, event),
        Event::NoConditions { .. } => tell_event(alloc, desk, event),
        Event::Holds { .. } => tell_event(alloc, desk, event),
        Event::Ended(_) => tell_event(alloc, desk, event),
    }
}

/// The number that the next clause has behind a line, where a section has so many axioms whose heading it is.
pub fn own_behind_line(own: u32, axioms: u32, line: &LogLine) -> u32
    requires low { own ≤ 999999999 }
    requires few { axioms ≤ most_clauses }
    ensures { (counts : Bool → ℕ → ℕ) →
        IsCounted counts (Event.Log line.now) axioms → result ≡ own_behind counts own line.now }
{
    match line {
        LogLine::Section { .. } => axioms + 1,
        LogLine::Derived { .. } => own + 1,
        LogLine::Block { .. } => own + 1,
        LogLine::End(_) => own,
    }
}

/// The same behind an event.
fn own_behind_event(own: u32, axioms: u32, event: &Event) -> u32
    requires writable { IsWritableEvent own event.now }
    requires few { axioms ≤ most_clauses }
    ensures { (counts : Bool → ℕ → ℕ) →
        IsCounted counts event.now axioms → result ≡ own_after counts own (line_told event.now) }
{
    match event {
        Event::Log(line) => own_behind_line(own, axioms, line),
        Event::History { .. } => own,
        Event::Counterexample { .. } => own,
        Event::NoHistory { .. } => own,
        Event::NoConditions { .. } => own,
        Event::Holds { .. } => own,
        Event::Ended(_) => own,
    }
}

/// Tells an event, and numbers the next clause.
fn tell_numbered<D: Desk>(
    alloc: Global,
    desk: &mut D,
    table: &Table,
    sig: &Sig,
    version: Version,
    own: &mut u32,
    event: &Event,
    row: &[u32],
    axioms: u32,
) -> Result<(), Stop>
    requires signature { IsSignatureFor table.now sig.now }
    requires row { IsRowOfEvent sig.now event.now row.now }
    requires short { IsShortEvent event.now }
    requires writable { IsWritableEvent own.old event.now }
    requires few { axioms ≤ most_clauses }
    ensures told { (d : Description) → AreNamesOf table.now sig.now d →
        Step (texts_at version own.old d (with_row event.now row.now)) (D.seen desk.old)
        (D.seen desk.new) result }
    ensures number { OnOk result ((counts : Bool → ℕ → ℕ) → IsCounted counts event.now axioms →
        own.new ≡ own_after counts own.old (line_told event.now)) }
{
    tell(alloc, desk, table, sig, version, *own, event, row)?;
    *own = own_behind_event(*own, axioms, event);
    Ok(())
}

/// Tells an event by a teller. `row` is that of a history or a counterexample; `axioms`, of a heading, is how many axioms its section
/// has.
pub fn tell_by<D: Desk>(
    alloc: Global,
    desk: &mut D,
    table: &Table,
    sig: &Sig,
    teller: &mut Teller,
    event: &Event,
    row: &[u32],
    axioms: u32,
) -> Result<(), Stop>
    requires signature { IsSignatureFor table.now sig.now }
    requires row { IsRowOfEvent sig.now event.now row.now }
    requires short { IsShortEvent event.now }
    requires writable { IsWritableBy teller.old event.now }
    requires few { axioms ≤ most_clauses }
    ensures told { (d : Description) (counts : Bool → ℕ → ℕ) (before : List ToldEvent) →
        AreNamesOf table.now sig.now d → KeepsUp counts teller.old before →
        Step (texts_behind (manner_of counts teller.old) d before (with_row event.now row.now))
        (D.seen desk.old) (D.seen desk.new) result }
    ensures keeps { IfOk result (λ _. (counts : Bool → ℕ → ℕ) (before : List ToldEvent) →
        IsCounted counts event.now axioms →
        KeepsUp counts teller.old before → IsNone (status_told event.now) →
        KeepsUp counts teller.new (before ++ with_row event.now row.now ∷ [])) }
    ensures manner { (counts : Bool → ℕ → ℕ) →
        manner_of counts teller.new ≡ manner_of counts teller.old }
{
    match teller {
        Teller::OneByOne { version, own } => tell_numbered(
            alloc, desk, table, sig, *version, own, event, row, axioms,
        ),
        Teller::Summed { size, outcome } => sum(alloc, desk, *size, outcome, event),
    }
}
