//! Prints the rules, histories, clause lists and checked logs of descriptions, case by case, as a plain second reading of
//! docs/formats.md prints them too.
//!
//! The form of a book stands at the head of the library of books. Of the files of a case the first is the main one of its
//! description. Two more are read here: `ask`, with lines of these forms, and `log`.
//!
//! ```text
//! horizon M           at which horizon; 0 where it is not said
//! query N             which query, from 0; the first where it is not said
//! claim               the clause list denies the claim
//! after I,I,..        the clause list has the key of this row
//! cut N               the log has so many bytes less at its end
//! show WORD WORD      what is printed: rules, causes, rows, clauses, size, log
//! ```
//!
//! # What is printed
//!
//! For each case `=== ` and its title, and then for each word of `show` these lines:
//!
//! ```text
//! rules N                                            how many rules the theory has
//! causes POSITION VALUE: RULE RULE                   for each atom, the rules whose head it is, from 0
//! denials: RULE RULE                                 the rules whose head is falsity
//! row I,I,..                                         each row that the search finds for the clause list, one after another
//! variables N                                        of the clause list
//! clause NUMBER: LITERAL LITERAL                     each of its clauses, from 1
//! variables N, clauses N                             its size alone
//! section WORD HORIZON line LINE: right END blocks N line LINE     of a log, each section over a clause list of its own
//! section WORD HORIZON line LINE: wrong LINE CAUSE
//! wrong LINE CAUSE                                   where the log has no sections
//! ```
//!
//! Where something cannot be shown, a line says so, and nothing more of the case is shown:
//!
//! ```text
//! refused NUMBER                                     by the description or its query; ` LIMITNAME LIMITNUMBER` behind 14
//! read fault
//! no such query
//! horizon outside the range
//! no key of the query                                the query has a claim, the row is not one of the horizon, or as above
//! two clause lists                                   that of a template is another than that made rule by rule
//! search unfinished                                  after more steps than this program makes
//! log too long
//! ```
//!
//! Want of memory ends the program.
#![tactic(auto)]

mod ask;
mod case;
mod clauses;
mod halt;
mod logs;
mod rows;
mod rules;

use anyhow::Result;
use cc_books::cases;

/// Prints what is asked of the cases of a book.
fn show_book(rt: &HostRuntime, name: &str) -> Result<()> {
    let alloc = rt.alloc();
    let bytes = std::fs::read(rt, name)?;
    for part in cases(alloc, &bytes)? {
        rt.print(case::shown(alloc, part)?)?;
    }
    Ok(())
}

fn main(rt: HostRuntime) -> Result<()> {
    for name in std::env::args(&rt)?.skip(1) {
        show_book(&rt, name.as_str())?;
    }
    Ok(())
}
