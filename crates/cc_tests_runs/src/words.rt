//! A table of words.
use cc_defs::{OutOfMemory, Version};
use cc_words::{Asked, CheckAsked, ListAsked, WhyAsked, read};
use std::alloc::Global;
use std::test::Fail;

const LIST: ListAsked<'static> = ListAsked {
    file: "f.cc",
    query: None,
    count: None,
    budget: 200_000,
    after: None,
    log: None,
    form: Version::First,
};

fn lists_alike(one: ListAsked, other: ListAsked) -> bool {
    one.file == other.file
        && one.query == other.query
        && one.count == other.count
        && one.budget == other.budget
        && one.after == other.after
        && one.log == other.log
        && one.form == other.form
}

fn checks_alike(one: CheckAsked, other: CheckAsked) -> bool {
    one.file == other.file
        && one.query == other.query
        && one.after == other.after
        && one.log == other.log
}

// Whether both ask for the same, of the four modes that the table has.
fn ask_alike(one: Asked, other: Asked) -> bool {
    match (one, other) {
        (Asked::List(one), Asked::List(other)) => lists_alike(one, other),
        (Asked::Check(one), Asked::Check(other)) => checks_alike(one, other),
        (Asked::Why(one), Asked::Why(other)) => { one.file == other.file && one.key == other.key }
        (
            Asked::Make { size, budget },
            Asked::Make {
                size: other_size,
                budget: other_budget,
            },
        ) => size == other_size && budget == other_budget,
        _ => false,
    }
}

fn are_read_as(alloc: Global, words: &[&str], wanted: Option<Asked>) -> Result<bool, OutOfMemory> {
    let mut owned = Vec::new(alloc);
    for word in words {
        owned.push(String::from_str(alloc, word)?)?;
    }
    Ok(match (read(alloc, owned.as_slice())?, wanted) {
        (Some(asked), Some(wanted)) => ask_alike(asked, wanted),
        (None, None) => true,
        _ => false,
    })
}

#[test]
fn words_are_read(rt: HostRuntime) -> Result<(), Fail> {
    let alloc = rt.alloc();
    let three = ListAsked {
        count: Some(3),
        ..LIST
    };
    let bytes = ListAsked {
        form: Version::Second,
        ..LIST
    };
    let log = CheckAsked {
        file: "f.cc",
        query: Some("a"),
        after: None,
        log: "l",
    };
    let why = WhyAsked {
        file: "f.cc",
        key: "0:0",
    };
    for (words, wanted) in [
        (["f.cc"].as_slice(), Some(Asked::List(LIST))),
        (["--", "f.cc"].as_slice(), Some(Asked::List(LIST))),
        (
            ["--count", "0000003", "f.cc"].as_slice(),
            Some(Asked::List(three)),
        ),
        (["f.cc", "--count=3"].as_slice(), Some(Asked::List(three))),
        (["--form", "2", "f.cc"].as_slice(), Some(Asked::List(bytes))),
        (["--form", "3", "f.cc"].as_slice(), None),
        (
            ["--mode", "check", "--query", "a", "--log", "l", "f.cc"].as_slice(),
            Some(Asked::Check(log)),
        ),
        (
            ["--mode", "make", "--size", "100"].as_slice(),
            Some(Asked::Make {
                size: 100,
                budget: 200_000,
            }),
        ),
        (
            ["--mode", "why", "--key", "0:0", "f.cc"].as_slice(),
            Some(Asked::Why(why)),
        ),
        (
            ["--mode", "list", "--mode", "list", "f.cc"].as_slice(),
            None,
        ),
        (["--mode", "check", "f.cc"].as_slice(), None),
        (["--mode", "why", "f.cc"].as_slice(), None),
        (["--key", "0:0", "f.cc"].as_slice(), None),
        (["--mode", "make", "--size", "101"].as_slice(), None),
        (["--count", "0", "f.cc"].as_slice(), None),
        (["--count", "-3", "f.cc"].as_slice(), None),
        (["--size", "3", "f.cc"].as_slice(), None),
        (["--help"].as_slice(), None),
        ([].as_slice(), None),
    ] {
        assert!(rt; are_read_as(alloc, words, wanted)?);
    }
    Ok(())
}
