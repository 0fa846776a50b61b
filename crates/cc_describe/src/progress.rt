//! What was read of a description, statement by statement. What takes a statement up is lent it first: cc_laws says why.
ghost use Rattle.std.specs.Prelude.{◌≡◌, ◌++◌, ◌∷◌, ◌<◌, ◌≤◌, ◌+◌, ◌-◌, [], List as Items, None, false, length, map, flat_map, take, option_copied, IfOk, IfErr, IfSome, OnOk, OnErr, IsTrue};
ghost use Rattle.std.specs.List.{list_any};
ghost use Rattle.cc_defs.specs.Declarations.{Declaration};
ghost use Rattle.cc_defs.specs.DeclarationFaults.{declaration_refusal};
ghost use Rattle.cc_defs.specs.Refusals.{IsRefusedBy};
ghost use Rattle.cc_defs.specs.Refusals as words;
ghost use Rattle.cc_defs.specs.Resolved.{plain_base_law, plain_query};
ghost use Rattle.cc_defs.specs.Tokens.{AreTokens};
ghost use Rattle.cc_defs.specs.Limits.{limit_number};
ghost use Rattle.cc_defs.specs.declared.refusal.LimitAt.TheVariants as limits;
ghost use Rattle.cc_defs.specs.Trees.{Query as asks, plain_part, plain_query_item, plain_statement};
ghost use Rattle.cc_laws.specs.Expansion.{base_laws};
ghost use Rattle.cc_laws.specs.FreeVariables.{optional};
ghost use Rattle.cc_laws.specs.LawFaults.{law_refusal};
ghost use Rattle.cc_laws.specs.Questions.{labels_in};
ghost use Rattle.cc_laws.specs.Vocabulary.{vocabulary};
ghost use Rattle.cc_laws.specs.Widening.{wide_laws, wide_refusal};
ghost use Rattle.cc_sorts.specs.Tables.{IsTable};
ghost use Rattle.cc_text.specs.Views.{token_views};
ghost use Rattle.cc_wide.specs.WideLaws.{plain_wide_base};
ghost use Rattle.cc_describe.specs.FirstRefusal.{declared_in, is_among, asking_refusal, include_refusal, law_refusal_of, statement_refusal};
ghost use Rattle.cc_describe.specs.Places.{Place, included};
ghost use Rattle.cc_describe.specs.declared.heads.Heads.{Heads as Which};
ghost use Rattle.cc_describe.specs.ProgressViews.{Adds, IsProgress, IsRefusedStatement, IsTaken, Says, declares};

use crate::heads::Heads;
use crate::labels::Labels;
use cc_defs::{
    BaseLaw, Fault, LimitAt, Name, OutOfMemory, Part, Query, QueryItem, Refusal, Statement, Token,
};
use cc_laws::{expand, expand_wide, question};
use cc_sorts::Table;
use cc_syntax::parse;
use cc_wide::WideBase;
use std::alloc::Global;

/// What the statements that were read so far say.
#[derive(Drop)]
pub(crate) struct Progress {
    heads: Heads,
    pub(crate) table: Table,
    pub(crate) laws: Vec<BaseLaw>,
    pub(crate) wide: Vec<WideBase>,
    pub(crate) queries: Vec<Query>,
    labels: Labels,
    /// The names of the files that were opened; a file's number is its place here.
    pub(crate) names: Vec<Name>,
    /// The bytes of these files.
    pub(crate) bytes: usize,
    /// The names of the files that are being read, each included by the one before it.
    pub(crate) around: Vec<Name>,
}

/// Whether one of the names is this one.
fn has_name(names: &[Name], name: &str) -> bool
    ensures { result ≡ is_among names.now name.now }
{
    names.iter().any(|other| name == other.text())
}

/// Whether the part of a query gives a label that is there.
fn has_taken_label(item: &QueryItem<'_>, labels: &Labels) -> bool
    ensures { result ≡ list_any (is_among labels.now) (labels_in (plain_query_item item.now)) }
{
    match item {
        QueryItem::Label(label) => labels.has(label),
        QueryItem::Range(..) | QueryItem::Condition { .. } => false,
    }
}

/// Whether a query gives a label that is there.
fn gives_taken_label(items: &[QueryItem<'_>], labels: &Labels) -> bool
    ensures { result
        ≡ list_any (is_among labels.now) (flat_map labels_in (map plain_query_item items.now)) }
{
    items.iter().any(|item| has_taken_label(item, labels))
}

/// Puts a name behind the others of a list.
fn add_name(alloc: Global, names: &mut Vec<Name>, name: &str) -> Result<(), OutOfMemory>
    ensures added { OnOk result (names.new.items ≡ names.old.items ++ name.now ∷ []) }
    ensures unchanged { OnErr result (names.new.items ≡ names.old.items) }
{
    names.push(Name::of(String::from_str(alloc, name)?))?;
    Ok(())
}

impl Progress {
    /// Nothing was read.
    pub(crate) fn new(alloc: Global, heads: Heads) -> Result<Progress, OutOfMemory>
        ensures begun { IfOk result (λ progress. IsProgress heads progress []) }
        ensures outside { IfOk result (λ progress. progress.around.items ≡ []) }
    {
        Ok(Progress {
            heads,
            table: Table::new(alloc)?,
            laws: Vec::new(alloc),
            wide: Vec::new(alloc),
            queries: Vec::new(alloc),
            labels: Labels::new(alloc),
            names: Vec::new(alloc),
            bytes: 0,
            around: Vec::new(alloc),
        })
    }

    /// Keeps a label, if there is one and it is not kept.
    fn label(&mut self, alloc: Global, label: &Option<Name>) -> Result<(), OutOfMemory>
        ensures labelled { IfSome label.now (λ label. is_among self.old.labels label ≡ false) →
            OnOk result (self.new.labels ≡ self.old.labels ++ optional label.now) }
        ensures rest { self.new ≡ record self.old { labels = self.new.labels } }
    {
        match label {
            Some(label) => self.labels.add(alloc, label.text()),
            None => Ok(()),
        }
    }

    /// Keeps a query, and its label if that is not there.
    fn keep(&mut self, alloc: Global, query: Query) -> Result<(), OutOfMemory>
        ensures kept { OnOk result (map plain_query self.new.queries.items
            ≡ map plain_query self.old.queries.items ++ plain_query query ∷ []) }
        ensures labelled { IfSome query.label (λ label. is_among self.old.labels label ≡ false) →
            OnOk result (self.new.labels ≡ self.old.labels ++ optional query.label) }
        ensures rest { self.new
            ≡ record self.old { queries = self.new.queries; labels = self.new.labels } }
    {
        self.label(alloc, &query.label)?;
        self.queries.push(query)?;
        Ok(())
    }

    /// Whether a file may be included where it is named.
    fn include(&self, file: u32, line: u32, name: &str) -> Result<(), Fault>
        ensures included { OnOk result
            (include_refusal file self.now.around.items line name.now ≡ None) }
        ensures refused { IfErr result
            (IsRefusedBy (include_refusal file self.now.around.items line name.now)) }
    {
        let around: &[Name] = &self.around;
        if has_name(around, name) {
            return Err(Fault::Refused(Refusal::at(17, file, line)));
        }
        if around.len() > LimitAt::IncludeDepth.number() as usize {
            return Err(Fault::Refused(Refusal::past_at(LimitAt::IncludeDepth, file, line)));
        }
        Ok(())
    }

    /// Notes the name of a file that is opened, and answers its number.
    pub(crate) fn enter(&mut self, alloc: Global, name: &str) -> Result<u32, OutOfMemory>
        ensures number { IfOk result (λ file. file ≡ length self.old.names.items) }
        ensures names { OnOk result (self.new.names.items ≡ self.old.names.items ++ name.now ∷ []) }
        ensures unnamed { OnErr result (self.new.names.items ≡ self.old.names.items) }
        ensures around { OnOk result
            (self.new.around.items ≡ self.old.around.items ++ name.now ∷ []) }
        ensures rest { self.new
            ≡ record self.old { names = self.new.names; around = self.new.around } }
    {
        let number = self.names.len();
        if number >= 4_000_000_000 {
            return Err(OutOfMemory);
        }
        add_name(alloc, &mut self.around, name)?;
        add_name(alloc, &mut self.names, name)?;
        Ok(number as u32)
    }

    /// Notes that a file was read to its end.
    pub(crate) fn leave(&mut self)
        ensures around { self.new.around.items
            ≡ take (length self.old.around.items - 1) self.old.around.items }
        ensures rest { self.new ≡ record self.old { around = self.new.around } }
    {
        self.around.pop();
    }

    /// Adds to the bytes of all files, as far as the limit goes.
    pub(crate) fn count(&mut self, file: u32, bytes: usize) -> Result<(), Fault>
        requires { bytes ≤ limit_number limits.FileBytes }
        ensures counted { OnOk result ((self.new.bytes ≡ self.old.bytes + bytes)
            × (self.old.bytes + bytes ≤ limit_number limits.TotalBytes)) }
        ensures refused { IfErr result (λ fault.
            (fault ≡ Fault.Refused (words.past_at limits.TotalBytes file 1))
            × (limit_number limits.TotalBytes < self.old.bytes + bytes)) }
        ensures rest { self.new ≡ record self.old { bytes = self.new.bytes } }
    {
        let all = self.bytes.saturating_add(bytes);
        if all > LimitAt::TotalBytes.number() as usize {
            return Err(Fault::Refused(Refusal::past_at(LimitAt::TotalBytes, file, 1)));
        }
        self.bytes = all;
        Ok(())
    }
}

/// Adds the base laws of a statement whose declarations are in the table.
fn add_definite(
    alloc: Global,
    statement: &Statement<'_>,
    file: u32,
    progress: &mut Progress,
) -> Result<(), Fault>
    ensures expanded { (left : Items Declaration) → IsTable progress.old.table left →
        OnOk result ((law_refusal file (vocabulary left) (plain_statement statement.now) ≡ None)
        × (map plain_base_law progress.new.laws.items
        ≡ map plain_base_law progress.old.laws.items ++ base_laws file (vocabulary left)
        (plain_statement statement.now).line (plain_statement statement.now).part)) }
    ensures refused { (left : Items Declaration) → IsTable progress.old.table left → IfErr result
        (IsRefusedBy (law_refusal file (vocabulary left) (plain_statement statement.now))) }
    ensures rest { progress.new ≡ record progress.old { laws = progress.new.laws } }
{
    let laws = expand(alloc, file, &progress.table, statement)?;
    progress.laws.append(&mut laws.into_items())?;
    Ok(())
}

/// Adds the laws of such a statement, with heads of any form.
fn add_wide(
    alloc: Global,
    statement: &Statement<'_>,
    file: u32,
    progress: &mut Progress,
) -> Result<(), Fault>
    ensures expanded { (left : Items Declaration) → IsTable progress.old.table left → OnOk result
        ((wide_refusal file (vocabulary left) (plain_statement statement.now) ≡ None)
        × (map plain_wide_base progress.new.wide.items
        ≡ map plain_wide_base progress.old.wide.items ++ wide_laws file (vocabulary left)
        (plain_statement statement.now).line (plain_statement statement.now).part)) }
    ensures refused { (left : Items Declaration) → IsTable progress.old.table left → IfErr result
        (IsRefusedBy (wide_refusal file (vocabulary left) (plain_statement statement.now))) }
    ensures rest { progress.new ≡ record progress.old { wide = progress.new.wide } }
{
    let laws = expand_wide(alloc, file, &progress.table, statement)?;
    progress.wide.append(&mut laws.into_items())?;
    Ok(())
}

/// Adds the laws of a statement whose declarations are in the table, in the form that they are to have.
fn add_laws(
    alloc: Global,
    statement: &Statement<'_>,
    file: u32,
    progress: &mut Progress,
) -> Result<(), Fault>
    ensures expanded { (left : Items Declaration) → IsTable progress.old.table left → OnOk result
        ((law_refusal_of progress.old.heads file (vocabulary left) (plain_statement statement.now)
        ≡ None) × Adds progress.old.heads file left (plain_statement statement.now)
        progress.old progress.new) }
    ensures refused { (left : Items Declaration) → IsTable progress.old.table left → IfErr result
        (IsRefusedBy (law_refusal_of progress.old.heads file (vocabulary left)
        (plain_statement statement.now))) }
    ensures rest { progress.new
        ≡ record progress.old { laws = progress.new.laws; wide = progress.new.wide } }
{
    match progress.heads {
        Heads::Definite => add_definite(alloc, statement, file, progress),
        Heads::Any => add_wide(alloc, statement, file, progress),
    }
}

/// Takes up a statement of declarations.
fn declare(
    alloc: Global,
    statement: &Statement<'_>,
    file: u32,
    progress: &mut Progress,
) -> Result<(), Fault>
    requires { IsTrue (declares (plain_statement statement.now).part) }
    ensures said { (which : Which) (before : Items Place) →
        IsProgress which progress.old before → OnOk result (Says which before file
        progress.old.around.items (plain_statement statement.now) progress.new) }
    ensures refused { (which : Which) (before : Items Place) →
        IsProgress which progress.old before → IfErr result (IsRefusedBy
        (declaration_refusal file (declared_in before) (plain_statement statement.now))) }
    ensures around { progress.new.around ≡ progress.old.around }
    ensures names { progress.new.names ≡ progress.old.names }
{
    progress.table.declare(file, statement)?;
    add_laws(alloc, statement, file, progress)
}

/// Takes up a query.
fn ask<'t, 's>(
    alloc: Global,
    statement: &'t Statement<'s>,
    items: &'t [QueryItem<'s>],
    file: u32,
    progress: &mut Progress,
) -> Result<(), Fault>
    requires { (plain_statement statement.now).part ≡ asks (map plain_query_item items.now) }
    ensures said { (which : Which) (before : Items Place) →
        IsProgress which progress.old before → OnOk result (Says which before file
        progress.old.around.items (plain_statement statement.now) progress.new) }
    ensures refused { (which : Which) (before : Items Place) →
        IsProgress which progress.old before → IfErr result
        (IsRefusedBy (asking_refusal before file (plain_statement statement.now))) }
    ensures around { progress.new.around ≡ progress.old.around }
    ensures names { progress.new.names ≡ progress.old.names }
{
    if gives_taken_label(items, &progress.labels) {
        return Err(Fault::Refused(Refusal::at(4, file, statement.line)));
    }
    let query = question(alloc, file, &progress.table, statement)?;
    progress.keep(alloc, query)?;
    Ok(())
}

/// Takes up a statement, whose tree this is.
fn say(
    alloc: Global,
    statement: &Statement<'_>,
    file: u32,
    progress: &mut Progress,
) -> Result<(), Fault>
    ensures said { (which : Which) (before : Items Place) →
        IsProgress which progress.old before → OnOk result (Says which before file
        progress.old.around.items (plain_statement statement.now) progress.new) }
    ensures refused { (which : Which) (before : Items Place) →
        IsProgress which progress.old before → IfErr result
        (IsRefusedBy (statement_refusal which before file progress.old.around.items
        (plain_statement statement.now) (plain_statement statement.now).part)) }
    ensures around { progress.new.around ≡ progress.old.around }
    ensures names { progress.new.names ≡ progress.old.names }
{
    match &*statement.part {
        Part::Sorts(_) | Part::Objects(_) | Part::Variables(_) | Part::Constants(_) => {
            declare(alloc, statement, file, progress)
        }
        Part::Law(..) => add_laws(alloc, statement, file, progress),
        Part::Query(items) => ask(alloc, statement, items.items(), file, progress),
        Part::Include(name) => progress.include(file, statement.line, name),
    }
}

/// Takes up a statement, whose tree this is, and answers the name of the file that it includes, if it does.
fn take_tree<'s>(
    alloc: Global,
    statement: &Statement<'s>,
    file: u32,
    progress: &mut Progress,
) -> Result<Option<&'s str>, Fault>
    ensures said { (which : Which) (before : Items Place) →
        IsProgress which progress.old before → OnOk result (Says which before file
        progress.old.around.items (plain_statement statement.now) progress.new) }
    ensures name { IfOk result (λ name.
        option_copied name ≡ included (plain_statement statement.now).part) }
    ensures refused { (which : Which) (before : Items Place) →
        IsProgress which progress.old before → IfErr result
        (IsRefusedBy (statement_refusal which before file progress.old.around.items
        (plain_statement statement.now) (plain_statement statement.now).part)) }
    ensures around { progress.new.around ≡ progress.old.around }
    ensures names { progress.new.names ≡ progress.old.names }
{
    say(alloc, statement, file, progress)?;
    Ok(included_by(&statement.part))
}

/// Takes up a statement, and answers the name of the file that it includes, if it does. Refuses it at its place.
pub(crate) fn take_up<'s>(
    alloc: Global,
    tokens: &[Token<'s>],
    file: u32,
    progress: &mut Progress,
) -> Result<Option<&'s str>, Fault>
    requires some { 0 < length tokens.now }
    requires are { AreTokens (token_views tokens.now) }
    ensures taken { (which : Which) (before : Items Place) → IsProgress which progress.old before →
        IfOk result (λ name. IsTaken which before file progress.old.around.items
        (token_views tokens.now) (option_copied name) progress.new) }
    ensures refused { (which : Which) (before : Items Place) →
        IsProgress which progress.old before → IfErr result
        (IsRefusedStatement which before file progress.old.around.items (token_views tokens.now)) }
    ensures around { progress.new.around ≡ progress.old.around }
    ensures names { progress.new.names ≡ progress.old.names }
{
    let statement = parse(alloc, file, tokens)?;
    take_tree(alloc, &statement, file, progress)
}

/// The name of the file that a statement includes, if it does.
fn included_by<'s>(part: &Part<'s>) -> Option<&'s str>
    ensures { option_copied result ≡ included (plain_part part.now) }
{
    match part {
        Part::Include(name) => Some(name),
        Part::Sorts(_)
        | Part::Objects(_)
        | Part::Variables(_)
        | Part::Constants(_)
        | Part::Query(_)
        | Part::Law(..) => None,
    }
}
