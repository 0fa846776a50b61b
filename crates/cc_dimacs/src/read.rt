//! A text in the DIMACS form, read.
ghost use Rattle.std.specs.Prelude.{◌≡◌, ◌+◌, ◌<◌, ◌≤◌, List, ℕ, IfOk, IfErr, OnOk, Ok, Err, length};
ghost use Rattle.cc_defs.specs.Limits.{most_cnf_variables, most_log_bytes};
ghost use Rattle.cc_dimacs.specs.Cnfs.{plain_cnf};
ghost use Rattle.cc_dimacs.specs.CnfTexts.{IsCnfRefusal, IsCnfText};
ghost use Rattle.cc_dimacs.specs.Reading.{IsTextFrom, IsWrongLine, last_from, lines_read, told_from};

use crate::cnf::Cnf;
use crate::lines::{Told, next_told};
use crate::progress::{Heading, Progress, heading_in, is_kept};
use cc_defs::{Fault, LimitAt, Refusal};
use std::alloc::Global;

/// A line that is wrong.
fn wrong(line: u32) -> Fault
    ensures { IsWrongLine (Err line) result }
{
    Fault::Refused(Refusal::at(19, 0, line))
}

/// Takes the words of a text whose first line has this number, and gives the number of the last line.
fn take_text(
    progress: &mut Progress,
    heading: Heading,
    text: &[u8],
    first: u32,
) -> Result<u32, Fault>
    requires count { heading.count ≤ 999999999 }
    requires some { 0 < first }
    requires most { first + length text.now ≤ most_log_bytes + 1 }
    ensures taken { OnOk result (lines_read heading.variables heading.count progress.old
        (told_from first text.now) ≡ Ok progress.new) }
    ensures last { IfOk result (λ last. last ≡ last_from first text.now) }
    ensures refused { IfErr result (IsWrongLine
        (lines_read heading.variables heading.count progress.old (told_from first text.now))) }
{
    let mut rest = text;
    let mut number = first;
    loop {
        match next_told(rest, number) {
            Told::End { last } => return Ok(last),
            Told::Line {
                number: at,
                line,
                behind,
            } => {
                if !progress.take_line(heading, line)? {
                    return Err(wrong(at));
                }
                rest = behind;
                number = at + 1;
            }
        }
    }
}

/// Reads what begins with this line, the first that is no comment.
fn read_behind(alloc: Global, number: u32, line: &[u8], behind: &[u8]) -> Result<Cnf, Fault>
    requires some { 0 < number }
    requires most { number + length behind.now ≤ most_log_bytes }
    ensures text { (bytes : List ℕ) → IsTextFrom bytes number line.now behind.now →
        IfOk result (λ cnf. IsCnfText bytes (plain_cnf cnf)) }
    ensures few { IfOk result (λ cnf. cnf.variables ≤ most_cnf_variables) }
    ensures refused { (bytes : List ℕ) →
        IsTextFrom bytes number line.now behind.now → IfErr result (IsCnfRefusal bytes) }
{
    let Some(heading) = heading_in(line) else {
        return Err(wrong(number));
    };
    let mut progress = Progress::new(alloc);
    let last = take_text(&mut progress, heading, behind, number + 1)?;
    if progress.is_open() || progress.done() != heading.count {
        return Err(wrong(last));
    }
    if !is_kept(heading.variables) {
        return Err(Fault::Refused(Refusal::past(LimitAt::CnfVariables)));
    }
    Ok(Cnf {
        variables: heading.variables,
        clauses: progress.into_clauses(),
    })
}

/// The clauses that a text in the DIMACS form of CNF spells (the format of the second DIMACS challenge, 1993): a line
/// `p cnf` with the numbers of variables and of clauses, and behind it the literals of each clause with a 0. Lines that begin
/// with `c` are comments, and one that begins with `%` ends the text.
///
/// Refuses a text that is none, at the line of its first fault (19), and a whole one with more than 1,000,000 variables (14).
/// A text has at most 268,435,456 bytes, so that the number of each line is a `u32`. Takes memory for the clauses that there
/// are, whatever the first line says.
pub fn read_cnf(alloc: Global, bytes: &[u8]) -> Result<Cnf, Fault>
    requires { length bytes.now ≤ most_log_bytes }
    ensures text { IfOk result (λ cnf. IsCnfText bytes.now (plain_cnf cnf)) }
    ensures few { IfOk result (λ cnf. cnf.variables ≤ most_cnf_variables) }
    ensures refused { IfErr result (IsCnfRefusal bytes.now) }
{
    match next_told(bytes, 1) {
        Told::End { last: 0 } => Err(wrong(1)),
        Told::End { last } => Err(wrong(last)),
        Told::Line {
            number,
            line,
            behind,
        } => read_behind(alloc, number, line, behind),
    }
}
