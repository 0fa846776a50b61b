//! The printed texts of keys, events and refusals.
ghost use Rattle.std.specs.Prelude.{◌≡◌, ◌++◌, ◌∷◌, ◌<◌, [], IfOk, Ok, OnOk, codes, decimal, string_bytes, map, flat_map};
ghost use Rattle.std.specs.List.{join_with_byte};
ghost use Rattle.cc_defs.specs.Events as events;
ghost use Rattle.cc_defs.specs.Texts as texts;
ghost use Rattle.cc_defs.specs.Refusals.{refusal_name};
ghost use Rattle.cc_print.specs.Refusals.{refusal_line, place_text, limit_text};

use cc_defs::{Ending, Event, LimitAt, OutOfMemory, Refusal, Text};
use itoa::Buffer;
use std::alloc::Global;

/// A key: the horizon, `:`, and the indexes of the row with `,` between them. It is what `--after` takes.
pub fn key_text(alloc: Global, horizon: u32, row: &[u32]) -> Result<Text, OutOfMemory>
    ensures { IfOk result (λ text. text ≡ texts.key_text horizon row.now) }
{
    let mut text = String::with_capacity(alloc, row.len().saturating_mul(2).saturating_add(12))?;
    let pushed = push_key(&mut text, horizon, row);
    written(text, pushed)
}

/// The line of a key behind some words, its line feed included.
pub fn key_line(alloc: Global, before: &str, horizon: u32, row: &[u32]) -> Result<Text, OutOfMemory>
    ensures { IfOk result (λ text.
        text ≡ before.now ++ texts.key_text horizon row.now ++ 10 ∷ []) }
{
    let indexes = row.len().saturating_mul(2);
    let room = indexes.saturating_add(before.len()).saturating_add(13);
    let mut text = String::with_capacity(alloc, room)?;
    text.push_str(before)?;
    push_key(&mut text, horizon, row)?;
    text.push('\n')?;
    Ok(Text::of(text))
}

/// The line of an event, its line feed included. For a history and a counterexample it is the line that stands before the
/// history. A line of the log is not printed: its text is empty.
pub fn event_text(alloc: Global, event: &Event) -> Result<Text, OutOfMemory>
    ensures { IfOk result (λ text. text ≡ events.event_text event.now) }
{
    match event {
        Event::Log(_) => Ok(Text::of(String::new(alloc))),
        Event::NoHistory { horizon } => horizon_line(alloc, *horizon, "no history"),
        Event::History { horizon, number } => history_line(alloc, *horizon, *number),
        Event::NoConditions { horizon } => {
            horizon_line(alloc, *horizon, "no history of the conditions")
        }
        Event::Holds { horizon } => horizon_line(alloc, *horizon, "claim holds"),
        Event::Counterexample { horizon } => horizon_line(alloc, *horizon, "counterexample"),
        Event::Ended(ending) => ending_text(alloc, *ending),
    }
}

/// A line that speaks of a horizon.
fn horizon_line(alloc: Global, horizon: u32, said: &str) -> Result<Text, OutOfMemory>
    ensures { IfOk result (λ text. text ≡ events.of_horizon horizon said.now) }
{
    let text = format!(in alloc; "horizon {horizon}: {said}\n")?;
    Ok(Text::of(text))
}

/// The line before a history.
fn history_line(alloc: Global, horizon: u32, number: u32) -> Result<Text, OutOfMemory>
    ensures { IfOk result (λ text.
        text ≡ events.of_horizon horizon (codes "history " ++ decimal number)) }
{
    let mut said = String::from_str(alloc, "history ")?;
    push_number(&mut said, number)?;
    horizon_line(alloc, horizon, &said)
}

/// The line before an example, its line feed included. Examples are numbered from 1.
pub fn example_text(alloc: Global, horizon: u32, number: u32) -> Result<Text, OutOfMemory>
    ensures { IfOk result (λ text.
        text ≡ events.of_horizon horizon (codes "example " ++ decimal number)) }
{
    let text = format!(in alloc; "horizon {horizon}: example {number}\n")?;
    Ok(Text::of(text))
}

/// A line that says how many histories were listed at a horizon.
fn listed_line(alloc: Global, horizon: u32, said: &str, listed: u32) -> Result<Text, OutOfMemory>
    ensures { IfOk result (λ text.
        text ≡ events.of_horizon horizon (said.now ++ decimal listed ++ codes " listed")) }
{
    let line = format!(in alloc; "{said}{listed} listed")?;
    horizon_line(alloc, horizon, &line)
}

/// A line of these words.
fn line(alloc: Global, said: &str) -> Result<Text, OutOfMemory>
    ensures { IfOk result (λ text. text ≡ said.now ++ 10 ∷ []) }
{
    let text = format!(in alloc; "{said}\n")?;
    Ok(Text::of(text))
}

fn ending_text(alloc: Global, ending: Ending) -> Result<Text, OutOfMemory>
    ensures { IfOk result (λ text. text ≡ events.ending_text ending) }
{
    match ending {
        Ending::Complete { horizon, listed } => listed_line(alloc, horizon, "complete, ", listed),
        Ending::Asked { horizon, listed } => {
            listed_line(alloc, horizon, "asked number reached, ", listed)
        }
        Ending::Spent { horizon, listed } => {
            listed_line(alloc, horizon, "budget spent, ", listed)
        }
        Ending::NoHistory => line(alloc, "no history"),
        Ending::ClaimHolds => line(alloc, "claim holds"),
        Ending::ClaimEmpty => line(alloc, "claim holds, no history meets the conditions"),
        Ending::ClaimFails => line(alloc, "claim fails"),
    }
}

/// The line of a refusal, its line feed included; `file` is the name of the refusal's file.
pub fn refusal_text(alloc: Global, refusal: &Refusal, file: &str) -> Result<Text, OutOfMemory>
    ensures { IfOk result (λ text. text ≡ refusal_line refusal.now file.now) }
{
    let mut text = String::from_str(alloc, "ccalc: ")?;
    let pushed = push_refusal(&mut text, refusal, file);
    written(text, pushed)
}

/// The text, where all of it was pushed.
pub(crate) fn written(text: String, pushed: Result<(), OutOfMemory>) -> Result<Text, OutOfMemory>
    ensures { IfOk result (λ made. (made ≡ string_bytes text) × (pushed ≡ Ok tt)) }
{
    match pushed {
        Ok(()) => Ok(Text::of(text)),
        Err(error) => Err(error),
    }
}

/// Writes a line feed.
pub(crate) fn push_line_feed(text: &mut String) -> Result<(), OutOfMemory>
    ensures { OnOk result (string_bytes text.new ≡ string_bytes text.old ++ 10 ∷ []) }
{
    text.push('\n')?;
    Ok(())
}

/// Writes a key: the horizon, `:`, and the indexes of the row with `,` between them.
fn push_key(text: &mut String, horizon: u32, row: &[u32]) -> Result<(), OutOfMemory>
    ensures { OnOk result
        (string_bytes text.new ≡ string_bytes text.old ++ texts.key_text horizon row.now) }
{
    push_number(text, horizon)?;
    text.push(':')?;
    push_row(text, row)
}

/// Writes the indexes of a row with `,` between them.
fn push_row(text: &mut String, row: &[u32]) -> Result<(), OutOfMemory>
    ensures { OnOk result
        (string_bytes text.new ≡ string_bytes text.old ++ join_with_byte 44 (map decimal row.now)) }
{
    match row {
        [] => Ok(()),
        [first, others @ ..] => {
            push_number(text, *first)?;
            push_others(text, others)
        }
    }
}

/// Writes a `,` and an index, for each index.
fn push_others(text: &mut String, others: &[u32]) -> Result<(), OutOfMemory>
    ensures { OnOk result (string_bytes text.new
        ≡ string_bytes text.old ++ flat_map (λ digits. 44 ∷ digits) (map decimal others.now)) }
{
    for index in others {
        text.push(',')?;
        push_number(text, *index)?;
    }
    Ok(())
}

/// Writes what stands in the line of a refusal behind the program's name.
fn push_refusal(text: &mut String, refusal: &Refusal, file: &str) -> Result<(), OutOfMemory>
    ensures { OnOk result (string_bytes text.new ≡ string_bytes text.old
        ++ place_text refusal.now file.now ++ decimal refusal.now.number ++ codes " "
        ++ refusal_name refusal.now.number ++ limit_text refusal.now.limit ++ 10 ∷ []) }
{
    let number = refusal.number;
    let name = refusal.name();
    push_place(text, refusal, file)?;
    write!(text, "{number} {name}")?;
    push_limit(text, refusal.limit)
}

/// Writes the file and the line of a refusal that has a place.
fn push_place(text: &mut String, refusal: &Refusal, file: &str) -> Result<(), OutOfMemory>
    ensures { OnOk result
        (string_bytes text.new ≡ string_bytes text.old ++ place_text refusal.now file.now) }
{
    if refusal.line == 0 {
        return Ok(());
    }
    let line = refusal.line;
    write!(text, "{file}:{line}: ")?;
    Ok(())
}

/// Writes the limit of a refusal that has one, and its number; and a line feed.
fn push_limit(text: &mut String, limit: Option<LimitAt>) -> Result<(), OutOfMemory>
    ensures { OnOk result
        (string_bytes text.new ≡ string_bytes text.old ++ limit_text limit ++ 10 ∷ []) }
{
    match limit {
        None => push_line_feed(text),
        Some(limit) => {
            let name = limit.name();
            let number = limit.number();
            write!(text, " {name} {number}\n")?;
            Ok(())
        }
    }
}

/// Writes a number in decimal at the end of a text.
pub(crate) fn push_number(text: &mut String, number: u32) -> Result<(), OutOfMemory>
    ensures { OnOk result (string_bytes text.new ≡ string_bytes text.old ++ decimal number) }
{
    push_count(text, u64::from(number))
}

/// Writes a number of one digit at the end of a text.
fn push_digit(text: &mut String, digit: u64) -> Result<(), OutOfMemory>
    requires { digit < 10 }
    ensures { OnOk result (string_bytes text.new ≡ string_bytes text.old ++ decimal digit) }
{
    text.push(char::from(b'0' + digit as u8))?;
    Ok(())
}

/// Writes a count in decimal at the end of a text.
pub(crate) fn push_count(text: &mut String, count: u64) -> Result<(), OutOfMemory>
    ensures { OnOk result (string_bytes text.new ≡ string_bytes text.old ++ decimal count) }
{
    if count < 10 {
        return push_digit(text, count);
    }
    let mut digits = Buffer::new();
    text.push_str(digits.format(count))?;
    Ok(())
}
