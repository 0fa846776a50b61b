//! What words name of a description that was read.
ghost use Rattle.std.specs.Prelude.{◌≡◌, ℕ, ◌≤◌, IfOk, IfErr, IfSome, None, Some, find, map, option_map};
ghost use Rattle.cc_arena.specs.GroundViews.{plain_ground_query};
ghost use Rattle.cc_list.specs.Descriptions.{IsDescriptionOf};
ghost use Rattle.cc_defs.specs.Limits.{most_steps};
ghost use Rattle.cc_defs.specs.Conditions.{IsSignatureOfDescription};
ghost use Rattle.cc_defs.specs.Description.{Description};
ghost use Rattle.cc_defs.specs.GroundLaws.{StandsForQuery};
ghost use Rattle.cc_defs.specs.Refusals.{IsRefusedBy};
ghost use Rattle.cc_defs.specs.Resolved.{Query as QueryAsked, plain_query};
ghost use Rattle.cc_describe.specs.Describing.{AsksFormulas, HasForms};
ghost use Rattle.cc_form.specs.Queries.{IsQueryAt};
ghost use Rattle.cc_laws.specs.Questions.{steps_refusal};
ghost use Rattle.cc_laws.specs.Vocabulary.{vocabulary_of};
ghost use Rattle.cc_print.specs.Keys.{IsKeyText};
ghost use Rattle.cc_lists.specs.Horizons.{Fits};
ghost use Rattle.cc_list.specs.Asking.{AreNamed, IsAskedAs, IsFaultNamed, IsKeyFault, found_refusal};
ghost use Rattle.cc_list.specs.Preparing.{IsSearchable, StandsFor};
ghost use Rattle.cc_list.specs.Tasks as tasks;
ghost use Rattle.cc_sorts.specs.Tables.{IsSignatureFor};
ghost use Rattle.cc_words.specs.Views.{plain_text};
ghost use Rattle.cc_words.specs.Words.{Text};

use crate::asked::{laws_of, query_of};
use cc_arena::{GroundQuery, Laws, Terms};
use cc_defs::{Fault, Key, Query, Refusal, Sig};
use cc_describe::Described;
use cc_laws::query_steps;
use cc_lists::fits;
use cc_print::read_key;
use cc_print::theorems::one_key;
use std::alloc::Global;

/// What a search works on.
#[derive(Drop)]
pub struct Prepared<'a> {
    pub laws: Laws<'a>,
    pub query: GroundQuery<'a>,
    /// The key that the histories come after.
    pub key: Option<Key>,
}

fn has_label(query: &Query, label: &str) -> bool
    ensures { result ≡ tasks.has_label label.now (plain_query query.now) }
{
    match &query.label {
        Some(name) => label == name.text(),
        None => false,
    }
}

/// The first query with the label.
fn labelled<'q>(queries: &'q [Query], label: &str) -> Option<&'q Query>
    ensures { option_map (λ query. plain_query query.now) result
        ≡ find (tasks.has_label label.now) (map plain_query queries.now) }
{
    for query in queries {
        if has_label(query, label) {
            return Some(query);
        }
    }
    None
}

/// The first query with the label; without a label, the first one.
pub fn query_named<'q>(queries: &'q [Query], label: Option<&str>) -> Option<&'q Query>
    ensures { option_map (λ query. plain_query query.now) result
        ≡ tasks.query_named (plain_text label.entry) (map plain_query queries.now) }
{
    match label {
        Some(label) => labelled(queries, label),
        None => queries.first(),
    }
}

/// The query that is named. Refuses an absent query (15), a step that does not fit (16), and a horizon that is too great (14).
fn query_found<'q>(described: &'q Described, label: Option<&str>) -> Result<&'q Query, Fault>
    ensures named { IfOk result (λ query. tasks.query_named (plain_text label.entry)
        (map plain_query described.now.queries) ≡ Some (plain_query query.now)) }
    ensures steps { IfOk result (λ query.
        steps_refusal (vocabulary_of described.now.table).symbols (plain_query query.now) ≡ None) }
    ensures refused { IfErr result
        (IsRefusedBy (found_refusal (vocabulary_of described.now.table).symbols
        (tasks.query_named (plain_text label.entry) (map plain_query described.now.queries)))) }
{
    let Some(query) = query_named(described.queries.items(), label) else {
        return Err(Fault::Refused(Refusal::at(15, 0, 0)));
    };
    match query_steps(&described.table, query) {
        Some(refusal) => Err(Fault::Refused(refusal)),
        None => Ok(query),
    }
}

/// The query that is named, ground. Refuses what `query_found` does, and then too many nodes (14).
pub fn query_asked<'a>(
    alloc: Global,
    described: &Described,
    label: Option<&str>,
    terms: &Terms<'a>,
) -> Result<GroundQuery<'a>, Fault>
    requires signature { IsSignatureFor described.now.table described.now.sig }
    requires formulas { AsksFormulas described.now }
    ensures range { IfOk result (λ made. (made.lo ≤ made.hi) × (made.hi ≤ most_steps)) }
    ensures steps { IfOk result (λ made. (horizon : ℕ) → made.lo ≤ horizon →
        horizon ≤ made.hi → IsQueryAt described.now.sig horizon (plain_ground_query made)) }
    ensures named { (d : Description) → IsDescriptionOf described.now d →
        IfOk result (λ made. IsAskedAs d (map plain_query described.now.queries)
        (plain_text label.entry) (plain_ground_query made)) }
    ensures refused { (d : Description) →
        IsDescriptionOf described.now d → IfErr result (IsRefusedBy (tasks.query_refusal d
        (tasks.query_named (plain_text label.entry) (map plain_query described.now.queries)))) }
{
    let query = query_found(described, label)?;
    query_of(alloc, described, query, terms)
}

/// A key, where it is one of a query; refuses another (18).
fn fitting(sig: &Sig, query: &GroundQuery<'_>, key: Key) -> Result<Key, Fault>
    ensures fits { IfOk result (Fits sig.now (plain_ground_query query.now)) }
    ensures is { (text : Text) (d : Description) (q : QueryAsked) →
        IsKeyText text key → IsSignatureOfDescription d sig.now →
        StandsForQuery (plain_ground_query query.now) d q → IfOk result (tasks.IsKeyOf d q text) }
    ensures refused { (text : Text) (d : Description) (q : QueryAsked) → IsKeyText text key →
        IsSignatureOfDescription d sig.now → StandsForQuery (plain_ground_query query.now) d q →
        IfErr result (IsKeyFault d q (Some text)) }
{
    one_key();
    if fits(sig, query, &key) {
        return Ok(key);
    }
    Err(Fault::Refused(Refusal::at(18, 0, 0)))
}

/// The key of a query that a text is; refuses another text (18).
fn key_of(alloc: Global, sig: &Sig, query: &GroundQuery<'_>, text: &str) -> Result<Key, Fault>
    ensures fits { IfOk result (Fits sig.now (plain_ground_query query.now)) }
    ensures is { (d : Description) (q : QueryAsked) →
        IsSignatureOfDescription d sig.now → StandsForQuery (plain_ground_query query.now) d q →
        IfOk result (tasks.IsKeyOf d q text.now) }
    ensures refused { (d : Description) (q : QueryAsked) →
        IsSignatureOfDescription d sig.now → StandsForQuery (plain_ground_query query.now) d q →
        IfErr result (IsKeyFault d q (Some text.now)) }
{
    match read_key(alloc, text)? {
        Some(key) => fitting(sig, query, key),
        None => Err(Fault::Refused(Refusal::at(18, 0, 0))),
    }
}

/// The key that is named, if one is.
fn key_named(
    alloc: Global,
    sig: &Sig,
    query: &GroundQuery<'_>,
    after: Option<&str>,
) -> Result<Option<Key>, Fault>
    ensures fits { IfOk result (λ key. IfSome key (Fits sig.now (plain_ground_query query.now))) }
    ensures is { (d : Description) (q : QueryAsked) →
        IsSignatureOfDescription d sig.now → StandsForQuery (plain_ground_query query.now) d q →
        IfOk result (tasks.IsKeyNamed d q (plain_text after.entry)) }
    ensures refused { (d : Description) (q : QueryAsked) →
        IsSignatureOfDescription d sig.now → StandsForQuery (plain_ground_query query.now) d q →
        IfErr result (IsKeyFault d q (plain_text after.entry)) }
{
    match after {
        Some(text) => Ok(Some(key_of(alloc, sig, query, text)?)),
        None => Ok(None),
    }
}

/// What a search works on: the laws of a description, one of its queries, and a key of that. Refuses too many instances or nodes
/// of the laws (14), an absent query (15), a step of the query that does not fit (16), a horizon that is too great or too many
/// nodes of the query (14), and a text that is no key of it (18), in this order.
pub fn prepare<'a>(
    alloc: Global,
    described: &Described,
    label: Option<&str>,
    after: Option<&str>,
    terms: &Terms<'a>,
) -> Result<Prepared<'a>, Fault>
    requires signature { IsSignatureFor described.now.table described.now.sig }
    requires forms { HasForms described.now }
    requires formulas { AsksFormulas described.now }
    ensures searchable { IfOk result (λ made.
        IsSearchable described.now made made.key) }
    ensures named { (d : Description) → IsDescriptionOf described.now d →
        IfOk result (λ made. (q : QueryAsked) × StandsFor described.now made d q
        × AreNamed d (map plain_query described.now.queries)
        (plain_text label.entry) (plain_text after.entry) q made.key) }
    ensures refused { (d : Description) →
        IsDescriptionOf described.now d → IfErr result (IsFaultNamed d
        (map plain_query described.now.queries) (plain_text label.entry) (plain_text after.entry)) }
{
    let laws = laws_of(alloc, described, terms)?;
    let query = query_asked(alloc, described, label, terms)?;
    let key = key_named(alloc, &described.sig, &query, after)?;
    Ok(Prepared { laws, query, key })
}
