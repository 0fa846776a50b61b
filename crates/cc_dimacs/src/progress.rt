//! Clauses taken word by word.
ghost use Rattle.std.specs.Prelude.{◌≡◌, ◌<◌, ◌≤◌, IsTrue, MatchOption, IfOk, OnOk};
ghost use Rattle.cc_defs.specs.Limits.{most_cnf_variables};
ghost use Rattle.cc_dimacs.specs.CnfTexts.{IsHeading, words_in};
ghost use Rattle.cc_dimacs.specs.Reading.{IsNoHeading, IsRead, clause_ended, is_kept as are_kept, line_read, literal_taken, nothing_taken, word_read};

use crate::words::{Named, behind_number, behind_word, is_blank, named_in, next_word};
use cc_clauses::ClauseArena;
use cc_defs::{LimitAt, Lit, OutOfMemory};
use std::alloc::Global;
use std::marker::Model;

/// What the first line says: how many variables and clauses there are, each of at most nine digits.
#[derive(Clone, Copy)]
pub(crate) struct Heading {
    pub(crate) variables: u32,
    pub(crate) count: u32,
}

/// The heading that a line is: `p cnf` and two numbers.
pub(crate) fn heading_in(line: &[u8]) -> Option<Heading>
    ensures { MatchOption result (IsNoHeading line.now) (λ heading.
        IsHeading (words_in line.now) heading.variables heading.count) }
{
    let name = behind_word(line, b"p")?;
    let numbers = behind_word(name, b"cnf")?;
    let (variables, second) = behind_number(numbers)?;
    let (count, rest) = behind_number(second)?;
    if is_blank(rest) {
        Some(Heading { variables, count })
    } else {
        None
    }
}

/// How far the clauses of a text have been taken. Those of a text with more variables than their limit are counted and not
/// kept.
#[derive(Drop)]
pub(crate) struct Progress {
    // How many clauses have ended.
    done: u32,
    // Whether a literal stands behind them.
    is_open: bool,
    clauses: ClauseArena,
    // The literals behind them.
    rest: Vec<Lit>,
}

impl Model for Progress {
    ghost use Rattle.cc_dimacs.specs.Reading.{Taken};

    ghost Value = { Taken };

    ghost view = { λ progress. record {
      done = progress.done;
      is_open = progress.is_open;
      clauses = progress.clauses;
      rest = progress.rest.items;
    } };
}

/// Whether the clauses of so many variables are kept.
pub(crate) fn is_kept(variables: u32) -> bool
    ensures { result ≡ are_kept variables }
{
    variables <= LimitAt::CnfVariables.number()
}

fn literal_of(named: Named) -> Lit
    requires some { 0 < named.variable }
    requires most { named.variable ≤ most_cnf_variables }
    ensures { result ≡ named }
{
    if named.is_positive() {
        Lit::positive(named.variable())
    } else {
        Lit::negative(named.variable())
    }
}

impl Progress {
    /// Nothing is taken.
    pub(crate) fn new(alloc: Global) -> Progress
        ensures { result ≡ nothing_taken }
    {
        Progress {
            done: 0,
            is_open: false,
            clauses: ClauseArena::new(alloc),
            rest: Vec::new(alloc),
        }
    }

    /// How many clauses have ended.
    pub(crate) fn done(&self) -> u32
        ensures { result ≡ self.now.done }
    {
        self.done
    }

    /// Whether a clause has begun and not ended.
    pub(crate) fn is_open(&self) -> bool
        ensures { result ≡ self.now.is_open }
    {
        self.is_open
    }

    /// The clauses that were kept.
    pub(crate) fn into_clauses(self) -> ClauseArena
        ensures { result ≡ self.clauses }
    {
        self.clauses
    }

    fn end_clause(&mut self, is_kept: bool) -> Result<(), OutOfMemory>
        requires { self.old.done < 999999999 }
        ensures { OnOk result (self.new ≡ clause_ended is_kept self.old) }
    {
        if is_kept {
            self.clauses.push(&self.rest)?;
        }
        self.rest.clear();
        self.done += 1;
        self.is_open = false;
        Ok(())
    }

    fn add(&mut self, is_kept: bool, named: Named) -> Result<(), OutOfMemory>
        requires some { 0 < named.variable }
        requires most { IsTrue is_kept → named.variable ≤ most_cnf_variables }
        ensures { OnOk result (self.new ≡ literal_taken is_kept self.old named) }
    {
        if is_kept {
            self.rest.push(literal_of(named))?;
        }
        self.is_open = true;
        Ok(())
    }

    /// Takes a word; false where no text can go on with it.
    fn take(&mut self, heading: Heading, word: &[u8]) -> Result<bool, OutOfMemory>
        requires { heading.count ≤ 999999999 }
        ensures { IfOk result
            (IsRead (word_read heading.variables heading.count self.old word.now) self.new) }
    {
        let Some(named) = named_in(word) else {
            return Ok(false);
        };
        if heading.count <= self.done {
            return Ok(false);
        }
        if named.variable() == 0 {
            self.end_clause(is_kept(heading.variables))?;
            return Ok(true);
        }
        if heading.variables < named.variable() {
            return Ok(false);
        }
        self.add(is_kept(heading.variables), named)?;
        Ok(true)
    }

    /// Takes the words of a line; false where one is wrong.
    pub(crate) fn take_line(&mut self, heading: Heading, line: &[u8]) -> Result<bool, OutOfMemory>
        requires { heading.count ≤ 999999999 }
        ensures { IfOk result
            (IsRead (line_read heading.variables heading.count self.old line.now) self.new) }
    {
        let mut rest = line;
        while let Some((word, behind)) = next_word(rest) {
            if !self.take(heading, word)? {
                return Ok(false);
            }
            rest = behind;
        }
        Ok(true)
    }
}
