//! One search: the least row of clauses, or the lines that show that there is none.
ghost use Rattle.std.specs.Prelude.{◌≡◌, ◌≢◌, ◌<◌, ◌≤◌, ◌∷◌, ◌++◌, [], ℕ, IfOk, IfErr, IsNone};
ghost use Rattle.cc_defs.specs.declared.log.EndWord.TheVariants as words;
ghost use Rattle.cc_defs.specs.declared.log.LogLine.TheVariants as ends;
ghost use Rattle.cc_defs.specs.declared.refusal.Fault.TheVariants as faults;
ghost use Rattle.cc_defs.specs.Sections.{Axioms};
ghost use Rattle.cc_search.specs.declared.least.Outcome.TheVariants as outcomes;
ghost use Rattle.cc_search.specs.Outcomes.{HasTold, IsOutcome, TellsOutcome};
ghost use Rattle.cc_search.specs.Searches.{HasMore, left_of};

use crate::search::Search;
use crate::stage::Find;
use cc_defs::{EndWord, Fault, List, LogLine, OutOfMemory, Row};
use cc_form::Form;
use std::alloc::Global;
use std::mem;

/// What comes of a search for one row.
#[derive(Drop)]
pub enum Outcome {
    /// The least row.
    Found(Row),
    /// There is none, as these lines show.
    Empty(List<LogLine>),
    /// The budget was spent in these lines.
    Spent(List<LogLine>),
}

/// The lines, and behind them the end line.
fn ended(mut lines: Vec<LogLine>, word: EndWord) -> Result<List<LogLine>, OutOfMemory>
    ensures { IfOk result (λ list. list ≡ lines.items ++ ends.End word ∷ []) }
{
    lines.push(LogLine::End(word))?;
    Ok(List::of(lines))
}

/// What comes of a search that ends so, and has found no row.
fn outcome_of(lines: Vec<LogLine>, word: EndWord) -> Result<Outcome, Fault>
    requires { word ≢ words.Found }
    ensures empty { word ≡ words.Empty →
        IfOk result (λ outcome. outcome ≡ outcomes.Empty (lines.items ++ ends.End word ∷ [])) }
    ensures spent { word ≡ words.Spent →
        IfOk result (λ outcome. outcome ≡ outcomes.Spent (lines.items ++ ends.End word ∷ [])) }
    ensures fault { IfErr result (λ fault. fault ≡ faults.OutOfMemory) }
{
    let list = ended(lines, word)?;
    match word {
        EndWord::Empty => Ok(Outcome::Empty(list)),
        EndWord::Spent => Ok(Outcome::Spent(list)),
        EndWord::Found => unreachable!(),
    }
}

/// The row that a search has found.
fn row_of(alloc: Global, search: &Search) -> Result<Row, OutOfMemory>
    ensures { IfOk result (λ row. row ≡ search.now.row) }
{
    let row = Vec::from_slice(alloc, search.row())?;
    Ok(Row::of(row))
}

/// Takes in what a search tells next; what comes of it, where it ends or has found a row.
fn follow(
    alloc: Global,
    search: &mut Search,
    lines: &mut Vec<LogLine>,
) -> Result<Option<Outcome>, Fault>
    requires more { HasMore search.old }
    requires told { (axioms : Axioms)
        × (budget : ℕ) × HasTold axioms budget search.old lines.old.items }
    ensures tells { (axioms : Axioms) (budget : ℕ) → HasTold axioms budget search.old
        lines.old.items → IfOk result (TellsOutcome axioms budget search.new lines.new.items) }
    ensures next { IfOk result (λ outcome. IsNone outcome →
        HasMore search.new × (left_of search.new < left_of search.old)) }
    ensures fault { IfErr result (λ fault. fault ≡ faults.OutOfMemory) }
{
    match search.next()? {
        Find::Line(line) => {
            lines.push(line)?;
            Ok(None)
        }
        Find::Row => {
            let row = row_of(alloc, search)?;
            Ok(Some(Outcome::Found(row)))
        }
        Find::End(word) => {
            let all = mem::replace(lines, Vec::new(alloc));
            let outcome = outcome_of(all, word)?;
            Ok(Some(outcome))
        }
    }
}

/// The least row that meets the clauses of a form, whose place it takes; or the lines of a section which shows that there is none;
/// or those of one that spent its budget of derived lines, at most 2,000,000, before either was known. The lines have no heading, and
/// end with the end line. Nothing is kept of them where a row is found. An error means want of memory, and nothing else.
pub fn search_one(alloc: Global, form: Form, budget: u32) -> Result<Outcome, Fault>
    requires { budget ≤ 2000000 }
    ensures outcome { IfOk result (IsOutcome form budget) }
    ensures fault { IfErr result (λ fault. fault ≡ faults.OutOfMemory) }
{
    let mut search = Search::of(alloc, form, Some(1), budget)?;
    let mut lines = Vec::new(alloc);
    loop {
        if let Some(outcome) = follow(alloc, &mut search, &mut lines)? {
            return Ok(outcome);
        }
    }
}
