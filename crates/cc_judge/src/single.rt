//! What a checker says of a log of one section.
ghost use Rattle.std.specs.Prelude.{◌↔◌, ◌+◌, ◌≤◌, List, IfOk, IsTrue, length};
ghost use Rattle.cc_check.specs.SectionTexts.{AreAhead, IsTextOf};
ghost use Rattle.cc_clauses.specs.RowsOf.{IsRowOf};
ghost use Rattle.cc_defs.specs.Limits.{most_log_bytes};
ghost use Rattle.cc_defs.specs.Logs.{IsVerdict, SectionText};
ghost use Rattle.cc_judge.specs.Single.{BlocksAll, subject_over};
ghost use Rattle.cc_judge.specs.Standings.{AreFew, AreFewIn, IsEarly, IsEarlyIn, IsForward, IsJudgedTo, IsOnly, IsVerdictOn, scope_over, seen};

use crate::standing::{Next, Standing, closing, follow};
use cc_check::theorems::{misreads_are_verdicts, sections_give_verdicts};
use cc_check::{CheckFault, Section, Sections, find};
use cc_clauses::theorems::{denial_leaves_others, resolvents_are_sound};
use cc_defs::{Cause, LogVerdict, OutOfMemory};
use cc_form::Form;
use std::alloc::Global;

// Whether a section is the only one: no other stands before it, and it is headed by horizon 0.
fn is_only(standing: &Standing, section: &Section<'_>) -> bool
    ensures { IsTrue result
        ↔ IsOnly (seen standing.now) section.now.conditions section.now.horizon }
{
    !section.conditions && section.horizon == 0 && standing.horizon == 0
}

// What is behind a section, which is judged over the form where it is the only one.
fn judge_only(
    alloc: Global,
    form: &Form,
    standing: &Standing,
    section: &Section<'_>,
) -> Result<Next, OutOfMemory>
    requires early { IsEarlyIn standing.now.blocked section.now }
    requires few { length section.now.bytes.now ≤ most_log_bytes }
    requires line { section.now.line ≤ most_log_bytes + 1 }
    ensures judged { (text : SectionText) → IsTextOf section.now text →
        IfOk result (IsJudgedTo (scope_over form.now) (seen standing.now) text) }
    ensures forward { (text : SectionText) → IsTextOf section.now text →
        IsEarly standing.now.blocked text → IfOk result (IsForward (seen standing.now) text) }
{
    resolvents_are_sound();
    denial_leaves_others();
    if !is_only(standing, section) {
        return Ok(Next::Wrong {
            line: section.line,
            cause: Cause::Section,
        });
    }
    let finding = find(alloc, form, section)?;
    Ok(follow(standing, section.conditions, finding))
}

// The verdict of a log that is split into its sections.
fn judge_each(
    alloc: Global,
    form: &Form,
    sections: &mut Sections<'_>,
) -> Result<LogVerdict, OutOfMemory>
    requires { AreFewIn sections.old }
    ensures { (all : List SectionText) → AreAhead sections.old all → AreFew all →
        IfOk result (IsVerdictOn (scope_over form.now) all) }
{
    let mut standing = Standing {
        middle: false,
        horizon: 0,
        blocked: 0,
        line: 2,
    };
    while let Some(section) = sections.next() {
        match judge_only(alloc, form, &standing, &section)? {
            Next::Goes(next) => standing = next,
            Next::Wrong { line, cause } => return Ok(LogVerdict::Refused { line, cause }),
        }
    }
    Ok(closing(0, &standing))
}

/// What a checker says of the bytes of a log of one section over a form: that of horizon 0, without a claim. The first eight
/// bytes tell the version that it is written in. Any further section is refused at its heading. Where the log is accepted, each
/// row of the form is blocked in it. Fails where memory is wanting.
pub fn judge_over(alloc: Global, form: &Form, bytes: &[u8]) -> Result<LogVerdict, OutOfMemory>
    requires few { length bytes.now ≤ most_log_bytes }
    ensures verdict { IfOk result (IsVerdict (subject_over form.now) bytes.now) }
    ensures blocks { IfOk result (BlocksAll (IsRowOf form.now.sizes form.now.clauses) bytes.now) }
{
    misreads_are_verdicts();
    sections_give_verdicts();
    let mut sections = match Sections::read(alloc, bytes) {
        Ok(sections) => sections,
        Err(CheckFault::Refused { line, cause }) => return Ok(LogVerdict::Refused { line, cause }),
        Err(CheckFault::OutOfMemory) => return Err(OutOfMemory),
    };
    judge_each(alloc, form, &mut sections)
}
