//! Convert mode: a log that words name is judged, and where it is accepted, written in its other version.
ghost use Rattle.std.specs.Prelude.{◌≡◌, ◌<◌, ◌≤◌, List, [], ◌∷◌, true, IfOk, IfSome, Some, length};
ghost use Rattle.cc_arena.specs.GroundViews.{plain_ground_query};
ghost use Rattle.cc_list.specs.Descriptions.{IsDescriptionOf};
ghost use Rattle.cc_convert.specs.Laws.{SaysLines};
ghost use Rattle.cc_defs.specs.declared.event.Event.TheVariants as events;
ghost use Rattle.cc_defs.specs.declared.log.LogLine.{LogLine as Line};
ghost use Rattle.cc_defs.specs.declared.log.LogLine.TheVariants as lines;
ghost use Rattle.cc_defs.specs.Description.{Description};
ghost use Rattle.cc_defs.specs.declared.refusal.LimitAt.TheVariants as limits;
ghost use Rattle.cc_defs.specs.Limits.{limit_number, most_clauses, most_log_bytes};
ghost use Rattle.cc_defs.specs.LogVersions as log_versions;
ghost use Rattle.cc_defs.specs.LogVersions.{line_bytes, lines_bytes, own_behind};
ghost use Rattle.cc_defs.specs.Resolved.{Query};
ghost use Rattle.cc_judge.specs.Judging.{IsVerdictWithin};
ghost use Rattle.cc_ports.specs.declared.desk.To.TheVariants as outputs;
ghost use Rattle.cc_run.specs.Converted.{AreLeft, HasLeft, HasOpened, IsJudged, converted_by, other_said};
ghost use Rattle.cc_run.specs.Modes.Checking as checks;
ghost use Rattle.cc_run.specs.Modes.Checking.{NamesLogOf};
ghost use Rattle.cc_run.specs.Modes.Converting.{converting_promise};
ghost use Rattle.cc_list.specs.Preparing.{IsSearchable, StandsFor};
ghost use Rattle.cc_list.specs.Stops.{Prints};
ghost use Rattle.cc_list.specs.Tasks.{IsTask};
ghost use Rattle.cc_run.specs.Naming.{checked_by, named_in};
ghost use Rattle.cc_list.specs.Telling.{counts_of, task_to_check};
ghost use Rattle.cc_tell.specs.Steps.{Step};
ghost use Rattle.cc_tell.specs.Givens.{given_to};
ghost use Rattle.cc_tell.specs.Tellers.{IsCounted};
ghost use Rattle.cc_words.specs.Requests.{Converting, ToConvert};
ghost use Rattle.cc_words.specs.declared.asked.Asked.TheVariants as requests;
ghost use Rattle.cc_describe.specs.declared.heads.Heads.TheVariants as heads;
ghost use Rattle.cc_words.specs.Views.{converting_by, plain_request};

use crate::mode::{Mode, refuse_fault};
use crate::modes::check::tell_verdict;
use bumpalo::Bump;
use cc_arena::Terms;
use cc_convert::theorems::accepted_logs_say_lines;
use cc_convert::{behind_header, said_line, version_of};
use cc_defs::{Fault, LimitAt, LogLine, LogVerdict, OutOfMemory, Refusal, Version};
use cc_describe::{Described, DescribedWide, Heads};
use cc_judge::judge;
use cc_list::{Prepared, prepare};
use cc_log::theorems::other_versions_are_judged_alike;
use cc_ports::{Desk, ReadStop, read_all};
use cc_query::form_at;
use cc_tell::{
    Status, Stop, Teller, begin_log, give_header, own_behind_line, refuse, tell_line_in,
};
use cc_words::ConvertAsked;
use std::alloc::Global;

/// The version that a log of this one is written in.
fn other_version(version: Version) -> Version
    ensures { result ≡ log_versions.other_version version }
{
    match version {
        Version::First => Version::Second,
        Version::Second => Version::First,
    }
}

/// How many axioms a section has which was judged, so that it passes no limit.
fn section_axioms(
    alloc: Global,
    described: &Described,
    prepared: &Prepared<'_>,
    conditions: bool,
    horizon: u32,
) -> Result<u32, OutOfMemory>
    requires searchable { IsSearchable described.now prepared.now prepared.now.key }
    requires opened { HasOpened described.now.sig prepared.now.laws
        (plain_ground_query prepared.now.query) prepared.now.key
        (lines.Section conditions horizon) }
    ensures counted { (d : Description) (q : Query) →
        StandsFor described.now prepared.now d q →
        IfOk result (λ axioms. axioms ≡ counts_of d q prepared.now.key conditions horizon) }
    ensures few { IfOk result (λ axioms. axioms ≤ most_clauses) }
{
    match form_at(
        alloc,
        &described.sig,
        &prepared.laws,
        &prepared.query,
        prepared.key.as_ref(),
        horizon,
        !conditions,
    ) {
        Ok(form) => Ok(form.count()),
        Err(Fault::Refused(_)) => unreachable!(),
        Err(Fault::OutOfMemory) => Err(OutOfMemory),
    }
}

/// How many axioms the section has whose heading a line is; 0 of another line.
fn axioms_behind(
    alloc: Global,
    described: &Described,
    prepared: &Prepared<'_>,
    line: &LogLine,
) -> Result<u32, OutOfMemory>
    requires searchable { IsSearchable described.now prepared.now prepared.now.key }
    requires opened { HasOpened described.now.sig prepared.now.laws
        (plain_ground_query prepared.now.query) prepared.now.key line.now }
    ensures counted { (d : Description) (q : Query) →
        StandsFor described.now prepared.now d q →
        IfOk result (IsCounted (counts_of d q prepared.now.key) (events.Log line.now)) }
    ensures few { IfOk result (λ axioms. axioms ≤ most_clauses) }
{
    match line {
        LogLine::Section {
            conditions,
            horizon,
        } => section_axioms(alloc, described, prepared, *conditions, *horizon),
        LogLine::Derived { .. } => Ok(0),
        LogLine::Block { .. } => Ok(0),
        LogLine::End(_) => Ok(0),
    }
}

/// Gives the first of the lines that are left to Log, in the other version. Answers the number of the next clause, and what is left
/// behind the line.
fn give_line<'b, D: Desk>(
    alloc: Global,
    desk: &mut D,
    described: &Described,
    prepared: &Prepared<'_>,
    version: Version,
    own: u32,
    bytes: &'b [u8],
) -> Result<(u32, &'b [u8]), Stop>
    requires searchable { IsSearchable described.now prepared.now prepared.now.key }
    requires some { 0 < length bytes.now }
    requires left { HasLeft described.now.sig prepared.now.laws
        (plain_ground_query prepared.now.query) prepared.now.key version own bytes.now }
    ensures told { (d : Description) (q : Query) (line : Line) (others : List Line) →
        StandsFor described.now prepared.now d q →
        AreLeft d q prepared.now.key version own bytes.now (line ∷ others) →
        Step (given_to outputs.Log (line_bytes (log_versions.other_version version) own line))
        (D.seen desk.old) (D.seen desk.new) result }
    ensures left { IfOk result (λ next. (d : Description)
        (q : Query) (line : Line) (others : List Line) → StandsFor described.now prepared.now d q →
        AreLeft d q prepared.now.key version own bytes.now (line ∷ others) →
        (next.0 ≡ own_behind (counts_of d q prepared.now.key) own line)
        × AreLeft d q prepared.now.key version next.0 next.1.now others) }
    ensures shorter { IfOk result (λ next. length next.1.now < length bytes.now) }
{
    let (line, rest) = said_line(alloc, version, own, bytes)?;
    let axioms = axioms_behind(alloc, described, prepared, &line)?;
    tell_line_in(alloc, desk, other_version(version), own, &line)?;
    Ok((own_behind_line(own, axioms, &line), rest))
}

/// Gives the lines of a log of this version to Log, in the other version.
fn give_lines<D: Desk>(
    alloc: Global,
    desk: &mut D,
    described: &Described,
    prepared: &Prepared<'_>,
    version: Version,
    bytes: &[u8],
) -> Result<(), Stop>
    requires searchable { IsSearchable described.now prepared.now prepared.now.key }
    requires left { HasLeft described.now.sig prepared.now.laws
        (plain_ground_query prepared.now.query) prepared.now.key version 1 bytes.now }
    ensures { (d : Description) (q : Query) (said : List Line) →
        StandsFor described.now prepared.now d q →
        AreLeft d q prepared.now.key version 1 bytes.now said →
        Step (given_to outputs.Log (lines_bytes (log_versions.other_version version)
        (counts_of d q prepared.now.key) 1 said)) (D.seen desk.old) (D.seen desk.new) result }
{
    let mut own = 1;
    let mut rest = bytes;
    while !rest.is_empty() {
        let (next, behind) = give_line(alloc, desk, described, prepared, version, own, rest)?;
        own = next;
        rest = behind;
    }
    Ok(())
}

/// Gives the other version of an accepted log to Log.
fn give_other<D: Desk>(
    alloc: Global,
    desk: &mut D,
    described: &Described,
    prepared: &Prepared<'_>,
    bytes: &[u8],
) -> Result<(), Stop>
    requires searchable { IsSearchable described.now prepared.now prepared.now.key }
    requires few { length bytes.now ≤ most_log_bytes }
    requires says { (d : Description) × (q : Query) × StandsFor described.now prepared.now d q
        × SaysLines d q prepared.now.key bytes.now }
    ensures { (d : Description) (q : Query) → StandsFor described.now prepared.now d q →
        (says : SaysLines d q prepared.now.key bytes.now) →
        Step (given_to outputs.Log (other_said d q prepared.now.key bytes.now says))
        (D.seen desk.old) (D.seen desk.new) result }
{
    let version = version_of(bytes);
    let teller = Teller::OneByOne {
        version: other_version(version),
        own: 1,
    };
    give_header(desk, &teller)?;
    give_lines(
        alloc,
        desk,
        described,
        prepared,
        version,
        behind_header(version, bytes),
    )
}

/// Tells the verdict of an accepted log, and gives its other version to Log.
fn give_accepted<D: Desk>(
    alloc: Global,
    desk: &mut D,
    described: &Described,
    prepared: &Prepared<'_>,
    bytes: &[u8],
    verdict: &LogVerdict,
) -> Result<Status, Stop>
    requires searchable { IsSearchable described.now prepared.now prepared.now.key }
    requires few { length bytes.now ≤ most_log_bytes }
    requires says { (d : Description) × (q : Query) × StandsFor described.now prepared.now d q
        × SaysLines d q prepared.now.key bytes.now }
    ensures told { (d : Description) (q : Query) →
        StandsFor described.now prepared.now d q →
        (says : SaysLines d q prepared.now.key bytes.now) →
        Step (converted_by verdict.now (other_said d q prepared.now.key bytes.now says))
        (D.seen desk.old) (D.seen desk.new) result }
    ensures status { IfOk result (λ status. status ≡ checks.verdict_status verdict.now) }
{
    let status = tell_verdict(alloc, desk, verdict)?;
    give_other(alloc, desk, described, prepared, bytes)?;
    Ok(status)
}

/// Tells the verdict of a log; where that is accepted, begins the file of its other version before, and gives that behind.
fn convert_judged<D: Desk>(
    alloc: Global,
    desk: &mut D,
    described: &Described,
    to: &str,
    prepared: &Prepared<'_>,
    bytes: &[u8],
    verdict: &LogVerdict,
) -> Result<Status, Stop>
    requires searchable { IsSearchable described.now prepared.now prepared.now.key }
    requires few { length bytes.now ≤ most_log_bytes }
    requires within { (d : Description) × (q : Query)
        × StandsFor described.now prepared.now d q
        × IsVerdictWithin d q prepared.now.key bytes.now verdict.now }
    ensures { (converting : Converting) (d : Description) (q : Query) →
        to.now ≡ converting.to →
        StandsFor described.now prepared.now d q →
        IfSome (D.seen desk.old).told (λ before. NamesLogOf before.files (checked_by converting)
        (task_to_check d q prepared.now.key) bytes.now) →
        IsJudged d q prepared.now.key bytes.now verdict.now →
        Prints (converting_promise converting) true [] (D.seen desk.old) (D.seen desk.new) result }
{
    match verdict {
        LogVerdict::Refused { .. } => tell_verdict(alloc, desk, verdict),
        LogVerdict::Accepted { .. } => {
            accepted_logs_say_lines();
            other_versions_are_judged_alike();
            begin_log(desk, Some(to))?;
            give_accepted(alloc, desk, described, prepared, bytes, verdict)
        }
    }
}

/// Judges the bytes of a log, and tells what is found.
fn convert_log<D: Desk>(
    alloc: Global,
    desk: &mut D,
    described: &Described,
    to: &str,
    prepared: &Prepared<'_>,
    bytes: &[u8],
) -> Result<Status, Stop>
    requires searchable { IsSearchable described.now prepared.now prepared.now.key }
    requires few { length bytes.now ≤ limit_number limits.LogBytes }
    requires of { (d : Description) × (q : Query) × IsDescriptionOf described.now d
        × StandsFor described.now prepared.now d q }
    ensures { (converting : Converting) (d : Description) (q : Query) →
        to.now ≡ converting.to →
        StandsFor described.now prepared.now d q →
        IfSome (D.seen desk.old).told (λ before. NamesLogOf before.files (checked_by converting)
        (task_to_check d q prepared.now.key) bytes.now) →
        Prints (converting_promise converting) true [] (D.seen desk.old) (D.seen desk.new) result }
{
    match judge(
        alloc,
        &described.sig,
        &prepared.laws,
        &prepared.query,
        prepared.key.as_ref(),
        bytes,
    ) {
        Ok(verdict) => convert_judged(alloc, desk, described, to, prepared, bytes, &verdict),
        Err(Fault::Refused(refusal)) => refuse(alloc, desk, &refusal, ""),
        Err(Fault::OutOfMemory) => Err(Stop::OutOfMemory),
    }
}

/// Reads the log and judges it; where it is accepted, begins the file of its other version, tells the verdict, and gives the other
/// version to Log, line by line.
fn convert_over<D: Desk>(
    alloc: Global,
    desk: &mut D,
    described: &Described,
    asked: &ConvertAsked<'_>,
    prepared: &Prepared<'_>,
) -> Result<Status, Stop>
    requires searchable { IsSearchable described.now prepared.now prepared.now.key }
    requires of { (d : Description) × (q : Query) × IsDescriptionOf described.now d
        × StandsFor described.now prepared.now d q }
    ensures { (converting : Converting) (d : Description) (q : Query) →
        plain_request (requests.Convert asked.now) ≡ ToConvert converting →
        StandsFor described.now prepared.now d q →
        IfSome (D.seen desk.old).told (λ before. IsTask before.files
        (named_in (checked_by converting)) (task_to_check d q prepared.now.key)) →
        Prints (converting_promise converting) true (asked.now.log.now ∷ []) (D.seen desk.old) (D.seen desk.new) result }
{
    match read_all(alloc, desk, asked.log, LimitAt::LogBytes.number() as usize) {
        Ok(bytes) => convert_log(alloc, desk, described, asked.to, prepared, bytes.items()),
        Err(ReadStop::Limit) => refuse(alloc, desk, &Refusal::past(LimitAt::LogBytes), ""),
        Err(ReadStop::Failed) => Err(Stop::ReadFault),
        Err(ReadStop::OutOfMemory) => Err(Stop::OutOfMemory),
    }
}

impl<'a> Mode for ConvertAsked<'a> {
    ghost promise = { λ asked. converting_promise (converting_by asked) };

    ghost which = { λ asked. heads.Definite };

    ghost file = { λ asked. asked.file.now };

    ghost behind = { λ asked. asked.log.now ∷ [] };

    ghost within = { λ asked. Unit {0} };

    fn heads(&self) -> Heads {
        Heads::Definite
    }

    fn file(&self) -> &str {
        self.file
    }

    // Judges a log of a query, and writes it in its other version.
    fn answer<D: Desk>(
        &self,
        alloc: Global,
        desk: &mut D,
        said: &DescribedWide,
    ) -> Result<Status, Stop> {
        let described = &said.described;
        let arena = Bump::new(alloc);
        let terms = Terms::new(&arena);
        match prepare(alloc, described, self.query, self.after, &terms) {
            Ok(prepared) => convert_over(alloc, desk, described, self, &prepared),
            Err(fault) => refuse_fault(alloc, desk, described, &fault),
        }
    }
}
