//! The texts, each form once.
ghost use Rattle.std.specs.Prelude.{IfOk};

use cc_defs::{
    Cause, Ending, Event, LimitAt, List, LogVerdict, OutOfMemory, Outcome, Refusal, Text, Told,
};
use cc_print::{event_text, key_text, read_key, refusal_text, summary_text, verdict_text};
use std::alloc::Global;
use std::test::Fail;

#[test]
fn keys_are_written(rt: HostRuntime) -> Result<(), Fail> {
    let alloc = rt.alloc();
    let none: [u32; 0] = [];
    for (horizon, row, text) in [
        (0, none.as_slice(), "0:"),
        (1, [0, 1, 1].as_slice(), "1:0,1,1"),
        (12, [345].as_slice(), "12:345"),
    ] {
        assert!(rt; key_text(alloc, horizon, row)?.text() == text);
    }
    Ok(())
}

/// The written text of the key that a text is read as; empty where there is none.
fn written_again(alloc: Global, text: &str) -> Result<Text, OutOfMemory> {
    match read_key(alloc, text)? {
        Some(key) => key_text(alloc, key.horizon, key.row.items()),
        None => Ok(Text::of(String::new(alloc))),
    }
}

#[test]
fn keys_are_read(rt: HostRuntime) -> Result<(), Fail> {
    let alloc = rt.alloc();
    for (text, written) in [
        ("0:", "0:"),
        ("1:0,1,1", "1:0,1,1"),
        ("01:00,1", "1:0,1"),
        ("999999999:7", "999999999:7"),
        ("", ""),
        (":", ""),
        ("1", ""),
        ("1:,", ""),
        ("1:0,", ""),
        ("1:0 ,1", ""),
        ("1:0:1", ""),
        ("1234567890:", ""),
        ("+1:0", ""),
        ("-1:0", ""),
    ] {
        assert!(rt; written_again(alloc, text)?.text() == written);
    }
    Ok(())
}

fn is_verdict_text(alloc: Global, verdict: &LogVerdict, text: &str) -> Result<bool, OutOfMemory> {
    Ok(verdict_text(alloc, verdict)?.text() == text)
}

#[test]
fn verdicts_are_written(rt: HostRuntime) -> Result<(), Fail> {
    let alloc = rt.alloc();
    let accepted = LogVerdict::Accepted {
        from: 0,
        to: 3,
        blocked: 4096,
    };
    let text = "log accepted: horizons 0 to 3, blocked 4096\n";
    assert!(rt; is_verdict_text(alloc, &accepted, text)?);
    for (cause, text) in [
        (Cause::Header, "log refused: line 7, header\n"),
        (Cause::Form, "log refused: line 7, form\n"),
        (Cause::Section, "log refused: line 7, section\n"),
        (Cause::Literal, "log refused: line 7, literal\n"),
        (Cause::Number, "log refused: line 7, number\n"),
        (Cause::Pivot, "log refused: line 7, pivot\n"),
        (Cause::Clause, "log refused: line 7, clause\n"),
        (Cause::Row, "log refused: line 7, row\n"),
        (Cause::NotRefuted, "log refused: line 7, not refuted\n"),
    ] {
        let refused = LogVerdict::Refused { line: 7, cause };
        assert!(rt; is_verdict_text(alloc, &refused, text)?, "{text}");
    }
    Ok(())
}

/// Two horizons without a history, and one with four.
fn listing(alloc: Global) -> Result<Outcome, OutOfMemory> {
    let told = vec![in alloc;
        Told {
            event: Event::NoHistory { horizon: 0 },
            row: None
        },
        Told {
            event: Event::NoHistory { horizon: 1 },
            row: None
        },
        Told {
            event: Event::Ended(Ending::Complete {
                horizon: 2,
                listed: 4
            }),
            row: None
        },
    ]?;
    Ok(List::of(told))
}

#[test]
fn listings_are_summed_up(rt: HostRuntime) -> Result<(), Fail> {
    let alloc = rt.alloc();
    let outcome = listing(alloc)?;
    let text = "locks 12\nempty horizons 2\nhorizon 2\nhistories 4\nending complete\n";
    assert!(rt; summary_text(alloc, 12, &outcome)?.text() == text);
    Ok(())
}

fn is_event_text(alloc: Global, event: &Event, text: &str) -> Result<bool, OutOfMemory> {
    Ok(event_text(alloc, event)?.text() == text)
}

#[test]
fn events_are_written(rt: HostRuntime) -> Result<(), Fail> {
    let alloc = rt.alloc();
    for (event, text) in [
        (Event::NoHistory { horizon: 3 }, "horizon 3: no history\n"),
        (
            Event::History {
                horizon: 4,
                number: 21,
            },
            "horizon 4: history 21\n",
        ),
        (
            Event::Ended(Ending::Complete {
                horizon: 0,
                listed: 4096,
            }),
            "horizon 0: complete, 4096 listed\n",
        ),
        (
            Event::NoConditions { horizon: 2 },
            "horizon 2: no history of the conditions\n",
        ),
        (Event::Holds { horizon: 5 }, "horizon 5: claim holds\n"),
        (
            Event::Counterexample { horizon: 6 },
            "horizon 6: counterexample\n",
        ),
        (
            Event::Ended(Ending::Asked {
                horizon: 1,
                listed: 7,
            }),
            "horizon 1: asked number reached, 7 listed\n",
        ),
        (
            Event::Ended(Ending::Spent {
                horizon: 9,
                listed: 0,
            }),
            "horizon 9: budget spent, 0 listed\n",
        ),
        (Event::Ended(Ending::NoHistory), "no history\n"),
        (Event::Ended(Ending::ClaimHolds), "claim holds\n"),
        (
            Event::Ended(Ending::ClaimEmpty),
            "claim holds, no history meets the conditions\n",
        ),
        (Event::Ended(Ending::ClaimFails), "claim fails\n"),
    ] {
        assert!(rt; is_event_text(alloc, &event, text)?, "{text}");
    }
    Ok(())
}

#[test]
fn refusals_are_written(rt: HostRuntime) -> Result<(), Fail> {
    let alloc = rt.alloc();
    for (number, line, limit, text) in [
        (1, 0, None, "ccalc: 1 Words\n"),
        (12, 0, None, "ccalc: 12 EmptyDomain\n"),
        (5, 12, None, "ccalc: f.cc:12: 5 UnknownName\n"),
        (
            14,
            1,
            Some(LimitAt::FileBytes),
            "ccalc: f.cc:1: 14 Limit file bytes 1048576\n",
        ),
    ] {
        let refusal = Refusal {
            number,
            file: 0,
            line,
            limit,
        };
        assert!(rt; refusal_text(alloc, &refusal, "f.cc")?.text() == text);
    }
    Ok(())
}
