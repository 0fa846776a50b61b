//! The checker of a section.
ghost use Rattle.std.specs.Prelude.{◌≡◌, ◌==◌, ◌||◌, ◌↔◌, Bool, false, true, ℕ, ◌+◌, ◌<◌, ◌≤◌, ◌++◌, ◌∷◌, [], List, length, IfOk, IsTrue, MatchOption, OnOk};
ghost use Rattle.std.specs.Bool.{MatchBool};
ghost use Rattle.cc_defs.specs.declared.log.EndWord.TheVariants as words;
ghost use Rattle.cc_defs.specs.declared.log.LogLine.TheVariants as lines;
ghost use Rattle.cc_defs.specs.Clauses.{IsClause, IsOver};
ghost use Rattle.cc_defs.specs.Limits.{most_log_bytes};
ghost use Rattle.cc_defs.specs.LogBytes.{IsSpelled};
ghost use Rattle.cc_defs.specs.Sections.{EndsRightly, Finding as PlainFinding, HasNoForm, row_denial};
ghost use Rattle.cc_check.specs.Clauses.{AreSound, HasLineBehind, IsClauseOver, IsEndedInBytes, IsFoundInBytes, IsLeft, IsPassed, IsPassedAt, IsVerdictOf, IsWrongDerived, IsRightDerived, plain_finding, reading_as};
ghost use Rattle.cc_check.specs.Readers.{chain_of, literals_of, numbers_of};
ghost use Rattle.cc_check.specs.Reading.{IsLineRead};
ghost use Rattle.cc_check.specs.SectionTexts.{IsFoundOf};

use crate::clauses::{
    Stage, are_named, has_empty, is_clause_over, is_row, is_same_clause, reach, write_denial,
};
use crate::front::read_text;
use crate::line::{Kind, LineParts};
use crate::reader::{ChainReader, LiteralReader, NumberReader};
use crate::sections::Section;
use cc_clauses::ClauseArena;
use cc_defs::{Cause, EndWord, Lit, OutOfMemory, Version};
use cc_form::Form;
use std::alloc::Global;

/// What the lines of a section are found to be.
#[derive(Clone, Copy, PartialEq, Eq)]
pub enum Finding {
    /// Each line is right: how the section ends, how many blocks it has, and the line of its end.
    Right {
        ending: EndWord,
        blocks: u32,
        line: u32,
    },
    /// Each line is right up to this one, which ends the section; the line behind it is wrong, and its first cause.
    Trailed {
        ending: EndWord,
        line: u32,
        cause: Cause,
    },
    /// The first line that is not right, before any end, and the first cause that it has.
    Wrong {
        line: u32,
        cause: Cause,
    },
}

/// What a section is judged to be by itself.
#[derive(Clone, Copy, PartialEq, Eq)]
pub enum Verdict {
    /// Each line is right: how the section ends, how many blocks it has, and the line of its end.
    Right {
        ending: EndWord,
        blocks: u32,
        line: u32,
    },
    /// The first line that is not right, and the first cause that it has.
    Refused {
        line: u32,
        cause: Cause,
    },
}

/// What a line does.
#[derive(Clone, Copy)]
pub(crate) enum Pass {
    Goes,
    Ends(EndWord),
    Wrong(Cause),
}

// The clauses of a section behind those of its form, and room for what one line after another reaches.
#[derive(Drop)]
struct Checker {
    own: ClauseArena,
    blocks: u32,
    /// Whether a clause is empty.
    refuted: bool,
    stage: Stage,
}

// The first cause of a derived line that is not right. What it reaches is in the stage.
fn derived_cause(
    form: &Form,
    own: &ClauseArena,
    refuted: bool,
    clause: &LiteralReader<'_>,
    chain: &ChainReader<'_>,
    stage: &mut Stage,
) -> Result<Option<Cause>, OutOfMemory>
    requires { AreSound form.now own.now refuted }
    ensures { IfOk result (λ cause. MatchOption cause
        (IsRightDerived form.now (form.now.clauses ++ own.now) (literals_of clause.now)
        (chain_of chain.now) × (stage.new.clause.items ≡ literals_of clause.now))
        (IsWrongDerived form.now (form.now.clauses ++ own.now) (literals_of clause.now)
        (chain_of chain.now))) }
{
    if refuted {
        return Ok(Some(Cause::Section));
    }
    if !is_clause_over(form.variables(), clause) {
        return Ok(Some(Cause::Literal));
    }
    if !are_named(form.count(), own.count(), chain) {
        return Ok(Some(Cause::Number));
    }
    if !reach(form, own, chain, stage)? {
        return Ok(Some(Cause::Pivot));
    }
    if !is_same_clause(&stage.clause, clause) {
        return Ok(Some(Cause::Clause));
    }
    Ok(None)
}

fn says_empty(word: EndWord) -> bool
    ensures { IsTrue result ↔ (word ≡ words.Empty) }
{
    match word {
        EndWord::Empty => true,
        EndWord::Found | EndWord::Spent => false,
    }
}

// Whether a clause is empty, once there is one more.
fn is_refuted_with(refuted: bool, clause: &[Lit]) -> bool
    ensures { result ≡ (refuted || (length clause.now == 0)) }
{
    refuted || clause.is_empty()
}

// The number that the next clause has, behind those of the form and the section's own.
fn own_number(form: &Form, own: &ClauseArena) -> u32
    requires { length own.now ≤ most_log_bytes }
    ensures { result ≡ length (form.now.clauses ++ own.now) + 1 }
{
    form.count() + own.count() as u32 + 1
}

impl Checker {
    fn new(alloc: Global, form: &Form) -> Checker
        ensures own { result.own ≡ [] }
        ensures counted { result.blocks ≡ 0 }
        ensures sound { AreSound form.now result.own result.refuted }
    {
        Checker {
            own: ClauseArena::new(alloc),
            blocks: 0,
            refuted: has_empty(form),
            stage: Stage::new(alloc),
        }
    }

    // Puts the staged clause behind the others.
    fn add(&mut self, form: &Form) -> Result<(), OutOfMemory>
        requires sound { AreSound form.now self.old.own self.old.refuted }
        requires clause { IsClauseOver form.now.variables self.old.stage.clause.items }
        ensures own { OnOk result
            (self.new.own ≡ self.old.own ++ self.old.stage.clause.items ∷ []) }
        ensures counted { self.new.blocks ≡ self.old.blocks }
        ensures grown { OnOk result (length self.new.own ≡ length self.old.own + 1) }
        ensures sound { OnOk result (AreSound form.now self.new.own self.new.refuted) }
    {
        // The proof alone speaks of the form.
        let _ = form;
        self.own.push(&self.stage.clause)?;
        self.refuted = is_refuted_with(self.refuted, &self.stage.clause);
        Ok(())
    }

    // A derived line, as its version writes it.
    fn derived(
        &mut self,
        form: &Form,
        version: Version,
        line: &LineParts<'_>,
    ) -> Result<Pass, OutOfMemory>
        requires sound { AreSound form.now self.old.own self.old.refuted }
        requires few { length self.old.own ≤ most_log_bytes }
        ensures passed { IfOk result (λ pass. (may : Bool) (text : List ℕ) → IsSpelled version text
            (lines.Derived (literals_of line.now.literals) (numbers_of line.now.numbers)) →
            IsPassed (reading_as version may)
            form.now self.old.own self.old.blocks text pass self.new.own self.new.blocks) }
        ensures left { OnOk result (IsLeft form.now self.old.own
            self.old.blocks self.new.own self.new.blocks self.new.refuted) }
    {
        let own = own_number(form, &self.own);
        let chain = ChainReader::of(version, own, line.numbers);
        match derived_cause(
            form,
            &self.own,
            self.refuted,
            &line.literals,
            &chain,
            &mut self.stage,
        )? {
            Some(cause) => Ok(Pass::Wrong(cause)),
            None => {
                self.add(form)?;
                Ok(Pass::Goes)
            }
        }
    }

    // A block of a row: one may be there or not.
    fn block(&mut self, form: &Form, may: bool, row: &NumberReader<'_>) -> Result<Pass, OutOfMemory>
        requires sound { AreSound form.now self.old.own self.old.refuted }
        requires few { self.old.blocks ≤ most_log_bytes }
        ensures passed { IfOk result (λ pass. (version : _) (text : List ℕ) → IsSpelled version text
            (lines.Block (numbers_of row.now)) → IsPassed (reading_as version may)
            form.now self.old.own self.old.blocks text pass self.new.own self.new.blocks) }
        ensures left { OnOk result (IsLeft form.now self.old.own
            self.old.blocks self.new.own self.new.blocks self.new.refuted) }
    {
        if !may {
            return Ok(Pass::Wrong(Cause::Section));
        }
        if self.refuted {
            return Ok(Pass::Wrong(Cause::Section));
        }
        if !is_row(form, row) {
            return Ok(Pass::Wrong(Cause::Row));
        }
        write_denial(form, row, &mut self.stage.clause)?;
        self.add(form)?;
        self.blocks += 1;
        Ok(Pass::Goes)
    }

    // The end of the section. The word says that a clause is empty, where one is.
    fn end(&self, form: &Form, word: EndWord) -> Pass
        requires sound { AreSound form.now self.now.own self.now.refuted }
        ensures { (version : _) (may : Bool) (text : List ℕ) →
            IsSpelled version text (lines.End word) → IsPassed (reading_as version may)
            form.now self.now.own self.now.blocks text result self.now.own self.now.blocks }
    {
        // The proof alone speaks of the form.
        let _ = form;
        if self.refuted == says_empty(word) {
            Pass::Ends(word)
        } else {
            Pass::Wrong(Cause::Section)
        }
    }

    // A line that was read, or what is no line.
    fn line(
        &mut self,
        form: &Form,
        version: Version,
        may: bool,
        line: Option<LineParts<'_>>,
    ) -> Result<Pass, OutOfMemory>
        requires sound { AreSound form.now self.old.own self.old.refuted }
        requires few { self.old.blocks ≤ most_log_bytes }
        requires own { length self.old.own ≤ most_log_bytes }
        ensures passed { IfOk result (λ pass. (text : List ℕ) → IsLineRead version text line.entry →
            IsPassed (reading_as version may)
            form.now self.old.own self.old.blocks text pass self.new.own self.new.blocks) }
        ensures left { OnOk result (IsLeft form.now self.old.own
            self.old.blocks self.new.own self.new.blocks self.new.refuted) }
    {
        let Some(line) = line else {
            return Ok(Pass::Wrong(Cause::Form));
        };
        match line.kind {
            Kind::Heading => Ok(Pass::Wrong(Cause::Section)),
            Kind::End(word) => Ok(self.end(form, word)),
            Kind::Derived => self.derived(form, version, &line),
            Kind::Block => self.block(form, may, &line.numbers),
        }
    }

    // The line at the front of bytes, and what stands behind it.
    fn pass<'b>(
        &mut self,
        form: &Form,
        version: Version,
        may: bool,
        bytes: &'b [u8],
    ) -> Result<(Pass, &'b [u8]), OutOfMemory>
        requires some { 0 < length bytes.now }
        requires sound { AreSound form.now self.old.own self.old.refuted }
        requires few { self.old.blocks ≤ most_log_bytes }
        requires own { length self.old.own ≤ most_log_bytes }
        ensures passed { IfOk result (λ passed.
            IsPassedAt (reading_as version may) form.now self.old.own
            self.old.blocks bytes.now passed.0 passed.1.now self.new.own self.new.blocks) }
        ensures left { OnOk result (IsLeft form.now self.old.own
            self.old.blocks self.new.own self.new.blocks self.new.refuted) }
    {
        let (line, rest) = read_text(version, bytes);
        let pass = self.line(form, version, may, line)?;
        Ok((pass, rest))
    }

    // Goes through lines, of which the first has this number, where nothing was read yet.
    fn find(
        &mut self,
        form: &Form,
        version: Version,
        may: bool,
        first: u32,
        bytes: &[u8],
    ) -> Result<Finding, OutOfMemory>
        requires own { self.old.own ≡ [] }
        requires counted { self.old.blocks ≡ 0 }
        requires sound { AreSound form.now self.old.own self.old.refuted }
        requires few { length bytes.now ≤ most_log_bytes }
        requires line { first ≤ most_log_bytes + 2 }
        ensures found { IfOk result (λ finding. IsFoundInBytes
            (reading_as version may) form.now first bytes.now (plain_finding finding)) }
        ensures few { IfOk result (λ finding. HasLineBehind finding) }
    {
        let mut rest = bytes;
        let mut line = first;
        while !rest.is_empty() {
            let (pass, behind) = self.pass(form, version, may, rest)?;
            match pass {
                Pass::Goes => {}
                Pass::Ends(word) => return Ok(self.behind_end(version, word, line, behind)),
                Pass::Wrong(cause) => return Ok(Finding::Wrong { line, cause }),
            }
            rest = behind;
            line += 1;
        }
        Ok(Finding::Wrong {
            line,
            cause: Cause::Section,
        })
    }

    // What stands behind the end of a section, whose line is given.
    fn behind_end(&self, version: Version, word: EndWord, line: u32, rest: &[u8]) -> Finding
        requires { line ≤ 4000000000 }
        ensures ended { IsEndedInBytes
            version word self.now.blocks line rest.now (plain_finding result) }
        ensures few { HasLineBehind result }
    {
        if rest.is_empty() {
            return Finding::Right {
                ending: word,
                blocks: self.blocks,
                line,
            };
        }
        let (read, _) = read_text(version, rest);
        match read {
            None => Finding::Trailed {
                ending: word,
                line,
                cause: Cause::Form,
            },
            Some(_) => Finding::Trailed {
                ending: word,
                line,
                cause: Cause::Section,
            },
        }
    }
}

/// Goes through the lines of a section, of which the first has this number, where a row may be blocked or not.
pub(crate) fn find_lines(
    alloc: Global,
    form: &Form,
    version: Version,
    may: bool,
    first: u32,
    bytes: &[u8],
) -> Result<Finding, OutOfMemory>
    requires few { length bytes.now ≤ most_log_bytes }
    requires line { first ≤ most_log_bytes + 2 }
    ensures found { IfOk result (λ finding.
        IsFoundInBytes (reading_as version may) form.now first bytes.now (plain_finding finding)) }
    ensures few { IfOk result (λ finding. HasLineBehind finding) }
{
    let mut checker = Checker::new(alloc, form);
    checker.find(form, version, may, first, bytes)
}

// What is found of the lines of a section.
fn found_in(alloc: Global, form: &Form, section: &Section<'_>) -> Result<Finding, OutOfMemory>
    requires few { length section.now.bytes.now ≤ most_log_bytes }
    requires line { section.now.line ≤ most_log_bytes + 1 }
    ensures found { IfOk result (λ finding.
        IsFoundOf true form.now section.now (plain_finding finding)) }
    ensures few { IfOk result (λ finding. HasLineBehind finding) }
{
    let line = section.line + 1;
    find_lines(alloc, form, section.version, true, line, section.bytes)
}

/// Goes through the lines of a section, as its version writes them, over the clauses of a form, those of its horizon and its search:
/// each is right up to the one that ends the section, or it finds the first that is not.
pub fn find(alloc: Global, form: &Form, section: &Section<'_>) -> Result<Finding, OutOfMemory>
    requires few { length section.now.bytes.now ≤ most_log_bytes }
    requires line { section.now.line ≤ most_log_bytes + 1 }
    ensures { IfOk result (λ finding. IsFoundOf true form.now section.now (plain_finding finding)) }
{
    found_in(alloc, form, section)
}

// A section is right by itself, or its first line that is not: behind an end that is the line there.
fn verdict_of(finding: Finding) -> Verdict
    requires { HasLineBehind finding }
    ensures { IsVerdictOf (plain_finding finding) result }
{
    match finding {
        Finding::Right {
            ending,
            blocks,
            line,
        } => Verdict::Right {
            ending,
            blocks,
            line,
        },
        Finding::Trailed { line, cause, .. } => Verdict::Refused {
            line: line + 1,
            cause,
        },
        Finding::Wrong { line, cause } => Verdict::Refused { line, cause },
    }
}

/// Checks a section over the clauses of a form, those of its horizon and its search: each line is right, and the last one ends the
/// section; or the first that is not. Whether the log may go on after such an end is not looked at.
pub fn check(alloc: Global, form: &Form, section: &Section<'_>) -> Result<Verdict, OutOfMemory>
    requires few { length section.now.bytes.now ≤ most_log_bytes }
    requires line { section.now.line ≤ most_log_bytes + 1 }
    ensures { IfOk result (λ verdict. (finding : PlainFinding)
        × IsFoundOf true form.now section.now finding × IsVerdictOf finding verdict) }
{
    Ok(verdict_of(found_in(alloc, form, section)?))
}
