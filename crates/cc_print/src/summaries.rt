//! The summary of a listing.
ghost use Rattle.std.specs.Prelude.{◌≡◌, ◌++◌, ◌∷◌, [], IfOk, OnOk, None, flat_map, length, string_bytes, unwrap_or};
ghost use Rattle.std.specs.List.{last_or};
ghost use Rattle.cc_print.specs.Summaries.{empty_horizons, ended_lines, ending_lines, endings_told, number_line, summary};

use cc_defs::{Ending, Event, OutOfMemory, Outcome, Text, Told};
use std::alloc::Global;

/// The summary of a listing over the made text of a size, a line each: its number of locks, how many horizons have no
/// history, the last horizon that was tried, how many histories were listed, and the ending (`complete`, `spent`, or `none`
/// where no horizon has a history). The last three lines are there only where the search has ended so.
pub fn summary_text(alloc: Global, size: u32, outcome: &Outcome) -> Result<Text, OutOfMemory>
    ensures { IfOk result (λ text. text ≡ summary size outcome.now) }
{
    let mut text = String::new(alloc);
    push_summary(&mut text, size, outcome.items())?;
    Ok(Text::of(text))
}

/// Writes the lines of the summary.
fn push_summary(text: &mut String, size: u32, told: &[Told]) -> Result<(), OutOfMemory>
    ensures { OnOk result (string_bytes text.new ≡ string_bytes text.old ++ summary size told.now) }
{
    push_line(text, "locks", u64::from(size))?;
    push_line(text, "empty horizons", empty_count(told) as u64)?;
    push_endings(text, told)
}

/// Writes a line of a name and a number.
fn push_line(text: &mut String, name: &str, number: u64) -> Result<(), OutOfMemory>
    ensures { OnOk result
        (string_bytes text.new ≡ string_bytes text.old ++ number_line name.now number) }
{
    write!(text, "{name} {number}\n")?;
    Ok(())
}

/// Writes what is said of the ending, where there is one.
fn push_endings(text: &mut String, told: &[Told]) -> Result<(), OutOfMemory>
    ensures { OnOk result (string_bytes text.new ≡ string_bytes text.old ++ flat_map (ending_lines
        (unwrap_or (last_or None (empty_horizons told.now)) 0)) (endings_told told.now)) }
{
    let tried = last_empty(told).unwrap_or(0);
    for one in told {
        if let Event::Ended(ending) = one.event {
            push_ending(text, tried, ending)?;
        }
    }
    Ok(())
}

/// Writes what is said of an ending; `tried` is the last horizon without a history.
fn push_ending(text: &mut String, tried: u32, ending: Ending) -> Result<(), OutOfMemory>
    ensures { OnOk result
        (string_bytes text.new ≡ string_bytes text.old ++ ending_lines tried ending) }
{
    match ending {
        Ending::Complete { horizon, listed } => push_ended(text, horizon, listed, "complete"),
        Ending::Spent { horizon, listed } => push_ended(text, horizon, listed, "spent"),
        Ending::NoHistory => push_ended(text, tried, 0, "none"),
        Ending::Asked { .. } => Ok(()),
        Ending::ClaimHolds => Ok(()),
        Ending::ClaimEmpty => Ok(()),
        Ending::ClaimFails => Ok(()),
    }
}

/// Writes the last horizon that was tried, how many histories were listed, and the word of the ending.
fn push_ended(text: &mut String, horizon: u32, listed: u32, word: &str) -> Result<(), OutOfMemory>
    ensures { OnOk result
        (string_bytes text.new ≡ string_bytes text.old ++ ended_lines horizon listed word.now) }
{
    push_line(text, "horizon", u64::from(horizon))?;
    push_line(text, "histories", u64::from(listed))?;
    write!(text, "ending {word}\n")?;
    Ok(())
}

/// How many horizons have no history.
fn empty_count(told: &[Told]) -> usize
    ensures { result ≡ length (empty_horizons told.now) }
{
    let mut count = 0;
    for one in told {
        if let Event::NoHistory { .. } = one.event {
            count += 1;
        }
    }
    count
}

/// The last horizon without a history.
fn last_empty(told: &[Told]) -> Option<u32>
    ensures { result ≡ last_or None (empty_horizons told.now) }
{
    let mut last = None;
    for one in told {
        if let Event::NoHistory { horizon } = one.event {
            last = Some(horizon);
        }
    }
    last
}
