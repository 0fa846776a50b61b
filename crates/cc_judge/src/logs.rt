//! What a checker says of a log of a query.
ghost use Rattle.std.specs.Prelude.{◌≡◌, ℕ, ◌+◌, ◌≤◌, List, IfErr, IfOk, IfSome, length, option_map};
ghost use Rattle.cc_arena.specs.GroundViews.{plain_ground_query};
ghost use Rattle.cc_defs.specs.Description.{Description};
ghost use Rattle.cc_defs.specs.GroundLaws.{StandsForQuery};
ghost use Rattle.cc_defs.specs.Limits.{most_log_bytes, most_steps};
ghost use Rattle.cc_check.specs.SectionTexts.{AreAhead, IsTextOf};
ghost use Rattle.cc_defs.specs.Logs.{IsVerdict, SectionText};
ghost use Rattle.cc_defs.specs.Resolved.{Query};
ghost use Rattle.cc_form.specs.Queries.{IsQueryAt};
ghost use Rattle.cc_judge.specs.Judging.{BlocksHistories, IsJudgeFault, IsVerdictWithin};
ghost use Rattle.cc_judge.specs.Standings.{AreFew, AreFewIn, IsEarly, IsEarlyIn, IsFaultOn, IsForward, IsJudgedTo, IsSectionFault, IsVerdictOn, scope_of, seen};
ghost use Rattle.cc_lists.specs.Horizons.{Fits, first_at};
ghost use Rattle.cc_lists.specs.Subjects.{subject_of};
ghost use Rattle.cc_theory.specs.Theories.{AreLawsFor, AreLawsOf};

use crate::standing::{Next, Standing, closing, first_of, follow, is_next};
use cc_arena::{GroundQuery, Laws};
use cc_check::theorems::{misreads_are_verdicts, sections_give_verdicts};
use cc_check::{CheckFault, Section, Sections, find};
use cc_clauses::theorems::{denial_leaves_others, resolvents_are_sound};
use cc_defs::{Cause, Fault, Key, LogVerdict, Sig};
use cc_lists::form_at;
use std::alloc::Global;

// What is behind a section, which is judged over the clause list of its horizon where it is the one that comes next.
fn judge_section(
    alloc: Global,
    sig: &Sig,
    laws: &Laws<'_>,
    query: &GroundQuery<'_>,
    after: Option<&Key>,
    standing: &Standing,
    section: &Section<'_>,
) -> Result<Next, Fault>
    requires laws { AreLawsFor sig.now laws.now }
    requires most { query.now.hi ≤ most_steps }
    requires steps { (horizon : ℕ) → query.now.lo ≤ horizon →
        horizon ≤ query.now.hi → IsQueryAt sig.now horizon (plain_ground_query query.now) }
    requires key { IfSome after (λ key. Fits sig.now (plain_ground_query query.now) key.now) }
    requires first { first_at
        (plain_ground_query query.now) (option_map (λ key. key.now) after) ≤ standing.now.horizon }
    requires early { IsEarlyIn standing.now.blocked section.now }
    requires few { length section.now.bytes.now ≤ most_log_bytes }
    requires line { section.now.line ≤ most_log_bytes + 1 }
    ensures judged { (d : Description) (q : Query) →
        AreLawsOf sig.now laws.now d → StandsForQuery (plain_ground_query query.now) d q →
        (text : SectionText) → IsTextOf section.now text → IfOk result (IsJudgedTo
        (scope_of d q (option_map (λ key. key.now) after.entry)) (seen standing.now) text) }
    ensures forward { (text : SectionText) → IsTextOf section.now text →
        IsEarly standing.now.blocked text → IfOk result (IsForward (seen standing.now) text) }
    ensures refused { (d : Description) (q : Query) →
        AreLawsOf sig.now laws.now d → StandsForQuery (plain_ground_query query.now) d q →
        (text : SectionText) → IsTextOf section.now text → IfErr result (IsSectionFault
        (scope_of d q (option_map (λ key. key.now) after.entry)) (seen standing.now) text) }
{
    resolvents_are_sound();
    denial_leaves_others();
    if !is_next(query, after, standing, section) {
        return Ok(Next::Wrong {
            line: section.line,
            cause: Cause::Section,
        });
    }
    let form = form_at(
        alloc,
        sig,
        laws,
        query,
        after,
        section.horizon,
        !section.conditions,
    )?;
    let finding = find(alloc, &form, section)?;
    Ok(follow(standing, section.conditions, finding))
}

// The verdict of a log that is split into its sections.
fn judge_sections(
    alloc: Global,
    sig: &Sig,
    laws: &Laws<'_>,
    query: &GroundQuery<'_>,
    after: Option<&Key>,
    sections: &mut Sections<'_>,
) -> Result<LogVerdict, Fault>
    requires laws { AreLawsFor sig.now laws.now }
    requires most { query.now.hi ≤ most_steps }
    requires steps { (horizon : ℕ) → query.now.lo ≤ horizon →
        horizon ≤ query.now.hi → IsQueryAt sig.now horizon (plain_ground_query query.now) }
    requires key { IfSome after (λ key. Fits sig.now (plain_ground_query query.now) key.now) }
    requires few { AreFewIn sections.old }
    ensures judged { (d : Description) (q : Query) →
        AreLawsOf sig.now laws.now d → StandsForQuery (plain_ground_query query.now) d q →
        (all : List SectionText) → AreAhead sections.old all → AreFew all →
        IfOk result (IsVerdictOn (scope_of d q (option_map (λ key. key.now) after.entry)) all) }
    ensures refused { (d : Description) (q : Query) →
        AreLawsOf sig.now laws.now d → StandsForQuery (plain_ground_query query.now) d q →
        (all : List SectionText) → AreAhead sections.old all → AreFew all →
        IfErr result (IsFaultOn (scope_of d q (option_map (λ key. key.now) after.entry)) all) }
{
    let first = first_of(query, after);
    let mut standing = Standing {
        middle: false,
        horizon: first,
        blocked: 0,
        line: 2,
    };
    while let Some(section) = sections.next() {
        match judge_section(alloc, sig, laws, query, after, &standing, &section)? {
            Next::Goes(next) => standing = next,
            Next::Wrong { line, cause } => return Ok(LogVerdict::Refused { line, cause }),
        }
    }
    Ok(closing(first, &standing))
}

/// What a checker says of the bytes of a log: that of a query over its horizons, or after a key over the key's alone. The first
/// eight bytes tell the version that it is written in. A section is a part of the bytes; its clause list is made when it is come
/// to, and gone before the next. Refuses the first limit that the rules or clauses of a section pass which stands in its place,
/// with right sections before it (14).
pub fn judge(
    alloc: Global,
    sig: &Sig,
    laws: &Laws<'_>,
    query: &GroundQuery<'_>,
    after: Option<&Key>,
    bytes: &[u8],
) -> Result<LogVerdict, Fault>
    requires laws { AreLawsFor sig.now laws.now }
    requires ordered { query.now.lo ≤ query.now.hi }
    requires most { query.now.hi ≤ most_steps }
    requires steps { (horizon : ℕ) → query.now.lo ≤ horizon →
        horizon ≤ query.now.hi → IsQueryAt sig.now horizon (plain_ground_query query.now) }
    requires key { IfSome after (λ key. Fits sig.now (plain_ground_query query.now) key.now) }
    requires few { length bytes.now ≤ most_log_bytes }
    // It is the verdict of the log, and where that is accepted, each history of the log's horizons is blocked in it.
    ensures verdict { (d : Description) (q : Query) → AreLawsOf sig.now laws.now d →
        StandsForQuery (plain_ground_query query.now) d q → IfOk result
        (IsVerdict (subject_of d q (option_map (λ key. key.now) after.entry)) bytes.now) }
    ensures whole { (d : Description) (q : Query) →
        AreLawsOf sig.now laws.now d → StandsForQuery (plain_ground_query query.now) d q →
        IfOk result (BlocksHistories d q (option_map (λ key. key.now) after.entry) bytes.now) }
    // No section that is judged for it passes a limit.
    ensures within { (d : Description) (q : Query) →
        AreLawsOf sig.now laws.now d → StandsForQuery (plain_ground_query query.now) d q →
        IfOk result (IsVerdictWithin d q (option_map (λ key. key.now) after.entry) bytes.now) }
    ensures refused { (d : Description) (q : Query) →
        AreLawsOf sig.now laws.now d → StandsForQuery (plain_ground_query query.now) d q →
        IfErr result (IsJudgeFault d q (option_map (λ key. key.now) after.entry) bytes.now) }
{
    misreads_are_verdicts();
    sections_give_verdicts();
    let mut sections = match Sections::read(alloc, bytes) {
        Ok(sections) => sections,
        Err(CheckFault::Refused { line, cause }) => return Ok(LogVerdict::Refused { line, cause }),
        Err(CheckFault::OutOfMemory) => return Err(Fault::OutOfMemory),
    };
    judge_sections(alloc, sig, laws, query, after, &mut sections)
}
