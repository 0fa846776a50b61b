//! Prints what descriptions say, case by case, in a form that a second implementation can print too.
//!
//! The form of a book stands at the head of the library of books. The first file of a case is the main one.
//!
//! # What is printed
//!
//! For each case `=== ` and its title. Where the title begins with `tree`, a line `tree LINE TREE` for each statement of
//! the main file up to the first that has no tree; an operator stands before its operands, in parentheses. Where it begins
//! with `count`, a line `count WORD N` stands in place of each N lines that follow each other and begin with the same word,
//! refusals left as they are. Then, where describing the main file stops, one of these lines:
//!
//! ```text
//! refused NUMBER NAME FILE:LINE
//! refused 14 Limit LIMITNAME LIMITNUMBER FILE:LINE      (without FILE:LINE where the refusal has no place)
//! read fault
//! ```
//!
//! Otherwise these lines, in this order:
//!
//! ```text
//! file NAME                                      each file opened, as often as it was opened
//! sort NAME: OBJECT OBJECT                       each sort, with the objects of it and of the sorts below it
//! variable NAME: SORT
//! symbol NAME(SORT,SORT): KIND SORT              ` of ACTION` behind an attribute
//! constant NAME(OBJECT,OBJECT): KIND: VALUE VALUE     each ground constant, fluents first, with its values
//! law FILE:LINE KIND HEAD if FORMULA after FORMULA where FORMULA over RANGE RANGE     each base law
//! law FILE:LINE noconcurrency
//! ground NUMBER KIND HEAD if NODES after NODES   each ground law, with the number of its base law from 0
//! ground refused 14 Limit LIMITNAME LIMITNUMBER
//! query LABEL LO..HI FILE:LINE                   each query; `-` in place of what it does not give
//! steps refused NUMBER NAME FILE:LINE            or `steps refused 14 Limit horizon 1000`
//! condition AT: FORMULA                          AT is a number or `maxstep`
//! claim AT: FORMULA
//! asks AT: NODES                                 these where there is a range and the steps are not refused
//! denies AT: NODES
//! asks refused 14 Limit LIMITNAME LIMITNUMBER
//! ```
//!
//! NODES stand behind their operands, and names are those of the description; a variable is `X` and its number. The variables
//! of a law are numbered from 0 in the order in which they first come before `where`; behind these n the variable of a value has
//! the number n; those of brackets are numbered from n + 1 on as they stand, first those of the `where` part, then of the `if`
//! part, then of the `after` part. In a query those of brackets are numbered from 0 on, the claim last.
//!
//! Want of memory ends the program.
#![tactic(auto)]

mod case;
mod counts;
mod formulas;
mod ground_laws;
mod laws;
mod names;
mod queries;
mod refusals;
mod tables;
mod trees;

use anyhow::Result;
use cc_books::cases;

/// Prints what the cases of a book say.
fn show_book(rt: &HostRuntime, name: &str) -> Result<()> {
    let alloc = rt.alloc();
    let bytes = std::fs::read(rt, name)?;
    for part in cases(alloc, &bytes)? {
        rt.print(case::shown(alloc, part)?)?;
    }
    Ok(())
}

fn main(rt: HostRuntime) -> Result<()> {
    for name in std::env::args(&rt)?.skip(1) {
        show_book(&rt, name.as_str())?;
    }
    Ok(())
}
