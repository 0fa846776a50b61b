//! Logs of sections without blocks, each ended by `empty`, under headings of any form, each right in its place.
ghost use Rattle.std.specs.Prelude.{◌≡◌, ◌↔◌, ℕ, ◌+◌, ◌≤◌, ◌∷◌, false, length, IfErr, IfOk, IsTrue, List, MatchOption, None, OnOk};
ghost use Rattle.std.specs.Bool.{MatchBool};
ghost use Rattle.cc_check.specs.declared.silent.SilentVerdict.TheVariants as verdicts;
ghost use Rattle.cc_check.specs.Clauses.{HasLineBehind, IsFoundInBytes, plain_finding, reading_as};
ghost use Rattle.cc_check.specs.Silent.{IsRightAt, IsSilentFault, IsSilentVerdict, IsSilentVerdictBehind, IsSilentVerdictWithin, IsUnread, PassesNoLimit, SilentSubject, ended_at as ended_in, refused_for};
ghost use Rattle.cc_check.specs.SilentParts.{IsBehindFault, IsPassFault, IsPassedFrom, IsShorter, IsSilentInside};
ghost use Rattle.cc_defs.specs.declared.log.Version.TheVariants as versions;
ghost use Rattle.cc_defs.specs.Limits.{most_log_bytes};
ghost use Rattle.cc_defs.specs.LogTexts.{lines_in};
ghost use Rattle.cc_defs.specs.Refusals.{IsRefusedBy};

use crate::judge::{Finding, find_lines};
use crate::sections::{ahead, second_cause};
use crate::text::first_line;
use cc_defs::{Cause, EndWord, Fault, OutOfMemory, Version};
use cc_form::Form;
use std::alloc::Global;

/// A kind of log: a header, then sections under headings, each right, without blocks, and ended by `empty`.
pub trait Silent {
    /// What a heading says.
    type Heading: Drop;

    /// What a log may be about; which of these this one is about; and what it is read as then. It may be about several at once.
    ghost Of: { Type 0 };

    ghost Is: { Self → Of → Type 0 };

    ghost subject: { Of → SilentSubject Self.Heading };

    /// Under which headings a form can be made.
    ghost can_form: { Self → Self.Heading → Type 0 };

    /// The first line, with its line feed.
    fn header(&self) -> &[u8]
        ensures { (of : Of) → Is self.now of → result.now ≡ (subject of).header };

    /// What the text of a line, with its line feed, says as a heading.
    fn read(&self, alloc: Global, text: &[u8]) -> Result<Option<Self::Heading>, OutOfMemory>
        ensures { (of : Of) → Is self.now of → IfOk result (λ heading.
            MatchOption heading (IsUnread (subject of) text.now) ((subject of).Reads text.now)) };

    /// Whether a section under this heading may stand behind so many, none of which closed the log.
    fn is_right(&self, before: u32, heading: &Self::Heading) -> bool
        ensures right { (of : Of) →
            Is self.now of → IsTrue result ↔ (subject of).Right before heading.now }
        ensures can { IsTrue result → can_form self.now heading.now };

    /// Whether nothing may stand behind the section under this heading.
    fn closes(&self, heading: &Self::Heading) -> bool
        ensures { (of : Of) → Is self.now of → result ≡ (subject of).closes heading.now };

    /// Whether a log may end though no section closed it.
    fn may_stay_open(&self) -> bool
        ensures { (of : Of) → Is self.now of → result ≡ (subject of).may_stay_open };

    /// The axioms of the section under a heading that is right in some place. Refuses exactly the limit that they pass.
    fn form(&self, alloc: Global, heading: &Self::Heading) -> Result<Form, Fault>
        requires can { can_form self.now heading.now }
        requires right { (of : Of) →
            Is self.now of → (before : ℕ) × (subject of).Right before heading.now }
        ensures made { (of : Of) →
            Is self.now of → IfOk result (λ form. form ≡ (subject of).axioms heading.now) }
        ensures within { (of : Of) →
            Is self.now of → OnOk result ((subject of).limit heading.now ≡ None) }
        ensures refused { (of : Of) →
            Is self.now of → IfErr result (IsRefusedBy ((subject of).limit heading.now)) };
}

/// What a checker says of a log of silent sections.
#[derive(Clone, Copy, PartialEq, Eq)]
pub enum SilentVerdict {
    /// Each line is right, and so many sections are refuted.
    Accepted { sections: u32 },
    /// The first wrong line, from 1, and the first cause that it has.
    Refused { line: u32, cause: Cause },
}

/// Where a section stands: behind so many others, and whether the last of them closed the log.
#[derive(Clone, Copy)]
pub struct Place {
    pub before: u32,
    pub is_closed: bool,
}

// A right section: whether it closes the log, how many lines it has, and what stands behind them; or the log stops at it.
#[derive(Clone, Copy)]
enum Passed<'b> {
    Goes {
        closes: bool,
        count: u32,
        rest: &'b [u8],
    },
    Stops(SilentVerdict),
}

// The lines of a section, how many they are, and what stands behind them.
#[derive(Clone, Copy)]
struct SilentInside<'b> {
    bytes: &'b [u8],
    count: u32,
    rest: &'b [u8],
}

fn refused(line: u32, cause: Cause) -> SilentVerdict
    ensures { result ≡ verdicts.Refused line cause }
{
    SilentVerdict::Refused { line, cause }
}

fn is_header<S: Silent>(kind: &S, text: &[u8]) -> bool
    ensures { (of : S.Of) → S.Is kind.now of → IsTrue result ↔ (text.now ≡ (S.subject of).header) }
{
    text == kind.header()
}

// Whether a text is that of a heading.
fn is_read<S: Silent>(alloc: Global, kind: &S, text: &[u8]) -> Result<bool, OutOfMemory>
    ensures { (of : S.Of) → S.Is kind.now of → IfOk result (λ read. MatchBool read
        ((heading : S.Heading) × (S.subject of).Reads text.now heading)
        (IsUnread (S.subject of) text.now)) }
{
    match kind.read(alloc, text)? {
        Some(_) => Ok(true),
        None => Ok(false),
    }
}

// The lines up to the next heading.
fn inside_of<'b, S: Silent>(
    alloc: Global,
    kind: &S,
    all: &'b [u8],
) -> Result<SilentInside<'b>, OutOfMemory>
    requires { length all.now ≤ most_log_bytes }
    ensures inside { (of : S.Of) → S.Is kind.now of → IfOk result (λ inside.
        IsSilentInside (S.subject of) all.now inside.bytes.now inside.count inside.rest.now) }
    ensures few { IfOk result (λ inside. length inside.bytes.now ≤ length all.now) }
    ensures fewer { IfOk result (λ inside.
        inside.count + length inside.rest.now ≤ length all.now) }
{
    let mut rest = all;
    let mut count = 0;
    while !rest.is_empty() {
        let (text, behind) = first_line(rest);
        if is_read(alloc, kind, text)? {
            let bytes = ahead(all, rest.len());
            return Ok(SilentInside { bytes, count, rest });
        }
        count += 1;
        rest = behind;
    }
    Ok(SilentInside {
        bytes: all,
        count,
        rest,
    })
}

// What refuses a section, by what its lines are found to be.
fn refusal_of(finding: Finding) -> Option<SilentVerdict>
    requires { HasLineBehind finding }
    ensures { result ≡ refused_for (plain_finding finding) }
{
    match finding {
        Finding::Wrong { line, cause } => Some(refused(line, cause)),
        Finding::Trailed {
            ending,
            line,
            cause,
        } => match ending {
            EndWord::Empty => Some(refused(line + 1, cause)),
            EndWord::Found | EndWord::Spent => Some(refused(line, Cause::NotRefuted)),
        },
        Finding::Right { ending, line, .. } => match ending {
            EndWord::Empty => None,
            EndWord::Found | EndWord::Spent => Some(refused(line, Cause::NotRefuted)),
        },
    }
}

// What the lines of a section are found to be, of which the first has this number, over the axioms under its heading.
fn find_under<S: Silent>(
    alloc: Global,
    kind: &S,
    heading: &S::Heading,
    first: u32,
    bytes: &[u8],
) -> Result<Finding, Fault>
    requires few { length bytes.now ≤ most_log_bytes }
    requires line { first ≤ most_log_bytes + 2 }
    requires can { S.can_form kind.now heading.now }
    requires right { (of : S.Of) →
        S.Is kind.now of → (before : ℕ) × (S.subject of).Right before heading.now }
    ensures found { (of : S.Of) → S.Is kind.now of → IfOk result (λ finding.
        IsFoundInBytes (reading_as versions.First false) ((S.subject of).axioms heading.now) first
        bytes.now (plain_finding finding)) }
    ensures few { IfOk result (λ finding. HasLineBehind finding) }
    ensures within { (of : S.Of) →
        S.Is kind.now of → OnOk result ((S.subject of).limit heading.now ≡ None) }
    ensures refused { (of : S.Of) →
        S.Is kind.now of → IfErr result (IsRefusedBy ((S.subject of).limit heading.now)) }
{
    let form = kind.form(alloc, heading)?;
    let finding = find_lines(alloc, &form, Version::First, false, first, bytes);
    drop(form);
    Ok(finding?)
}

// Whether a heading is right in a place.
fn is_right_at<S: Silent>(kind: &S, place: Place, heading: &S::Heading) -> bool
    ensures right { (of : S.Of) →
        S.Is kind.now of → IsTrue result ↔ IsRightAt (S.subject of) place heading.now }
    ensures can { IsTrue result → S.can_form kind.now heading.now }
{
    !place.is_closed && kind.is_right(place.before, heading)
}

// The section under the heading at a line: a right one is passed.
fn pass_under<'b, S: Silent>(
    alloc: Global,
    kind: &S,
    heading: &S::Heading,
    place: Place,
    line: u32,
    behind: &'b [u8],
) -> Result<Passed<'b>, Fault>
    requires few { length behind.now ≤ most_log_bytes }
    requires line { line ≤ most_log_bytes + 1 }
    ensures passed { (of : S.Of) (text : List ℕ) → S.Is kind.now of →
        (S.subject of).Reads text heading.now →
        IfOk result (IsPassedFrom (S.subject of) place line (text ∷ lines_in behind.now)) }
    ensures shorter { IfOk result (IsShorter (length behind.now)) }
    ensures refused { (of : S.Of) (text : List ℕ) → S.Is kind.now of →
        (S.subject of).Reads text heading.now →
        IfErr result (IsPassFault (S.subject of) place line (text ∷ lines_in behind.now)) }
{
    let inside = inside_of(alloc, kind, behind)?;
    if !is_right_at(kind, place, heading) {
        return Ok(Passed::Stops(refused(line, Cause::Section)));
    }
    let finding = find_under(alloc, kind, heading, line + 1, inside.bytes)?;
    match refusal_of(finding) {
        Some(verdict) => Ok(Passed::Stops(verdict)),
        None => Ok(Passed::Goes {
            closes: kind.closes(heading),
            count: inside.count,
            rest: inside.rest,
        }),
    }
}

// The section whose heading is the text at a line: a right one is passed.
fn pass_section<'b, S: Silent>(
    alloc: Global,
    kind: &S,
    place: Place,
    line: u32,
    text: &[u8],
    behind: &'b [u8],
) -> Result<Passed<'b>, Fault>
    requires few { length behind.now ≤ most_log_bytes }
    requires line { line ≤ most_log_bytes + 1 }
    ensures passed { (of : S.Of) → S.Is kind.now of →
        IfOk result (IsPassedFrom (S.subject of) place line (text.now ∷ lines_in behind.now)) }
    ensures shorter { IfOk result (IsShorter (length behind.now)) }
    ensures refused { (of : S.Of) → S.Is kind.now of →
        IfErr result (IsPassFault (S.subject of) place line (text.now ∷ lines_in behind.now)) }
{
    let Some(heading) = kind.read(alloc, text)? else {
        let cause = second_cause(text);
        return Ok(Passed::Stops(refused(line, cause)));
    };
    pass_under(alloc, kind, &heading, place, line, behind)
}

// What is said of a log that ends in a place, at this line.
fn ended_at<S: Silent>(kind: &S, place: Place, line: u32) -> SilentVerdict
    ensures { (of : S.Of) → S.Is kind.now of → result ≡ ended_in (S.subject of) place line }
{
    if place.is_closed || kind.may_stay_open() {
        SilentVerdict::Accepted {
            sections: place.before,
        }
    } else {
        refused(line, Cause::Section)
    }
}

// The verdict of the sections behind the header.
fn judge_behind<S: Silent>(alloc: Global, kind: &S, body: &[u8]) -> Result<SilentVerdict, Fault>
    requires { length body.now ≤ most_log_bytes }
    ensures within { (of : S.Of) → S.Is kind.now of → IfOk result
        (IsSilentVerdictBehind (S.subject of) (PassesNoLimit (S.subject of)) (lines_in body.now)) }
    ensures refused { (of : S.Of) →
        S.Is kind.now of → IfErr result (IsBehindFault (S.subject of) (lines_in body.now)) }
{
    let mut rest = body;
    let mut line = 2;
    let mut place = Place {
        before: 0,
        is_closed: false,
    };
    while !rest.is_empty() {
        let (text, behind) = first_line(rest);
        match pass_section(alloc, kind, place, line, text, behind)? {
            Passed::Goes {
                closes,
                count,
                rest: others,
            } => {
                line = line + 1 + count;
                place = Place {
                    before: place.before + 1,
                    is_closed: closes,
                };
                rest = others;
            }
            Passed::Stops(verdict) => return Ok(verdict),
        }
    }
    Ok(ended_at(kind, place, line))
}

/// What a checker says of the bytes of a log of silent sections. The axioms of a section are made when it is come to, and gone
/// before the next; a section is a part of the bytes. Which heading may stand where, and whether the log may have no section, the kind
/// says. Refuses the first limit that the axioms under a right heading pass which has right sections before it.
pub fn judge_silent<S: Silent>(
    alloc: Global,
    kind: &S,
    bytes: &[u8],
) -> Result<SilentVerdict, Fault>
    requires { length bytes.now ≤ most_log_bytes }
    ensures verdict { (of : S.Of) →
        S.Is kind.now of → IfOk result (IsSilentVerdict (S.subject of) bytes.now) }
    // No section that is looked at for it passes a limit.
    ensures within { (of : S.Of) →
        S.Is kind.now of → IfOk result (IsSilentVerdictWithin (S.subject of) bytes.now) }
    ensures refused { (of : S.Of) →
        S.Is kind.now of → IfErr result (IsSilentFault (S.subject of) bytes.now) }
{
    if bytes.is_empty() {
        return Ok(refused(1, Cause::Header));
    }
    let (text, body) = first_line(bytes);
    if !is_header(kind, text) {
        return Ok(refused(1, Cause::Header));
    }
    judge_behind(alloc, kind, body)
}
