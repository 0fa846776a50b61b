//! What words name of a description that was read, where a query with a claim is refused.
ghost use Rattle.std.specs.Prelude.{◌≡◌, IfErr, IfOk, IsNone, None, map};
ghost use Rattle.cc_arena.specs.GroundViews.{plain_ground_query};
ghost use Rattle.cc_list.specs.Descriptions.{IsDescriptionOf};
ghost use Rattle.cc_defs.specs.Description.{Description};
ghost use Rattle.cc_defs.specs.Resolved.{Query as QueryAsked, plain_query};
ghost use Rattle.cc_describe.specs.Describing.{AsksFormulas, HasForms};
ghost use Rattle.cc_list.specs.Preparing.{IsSearchable, StandsFor};
ghost use Rattle.cc_run.specs.Sures.{IsClaimFault, IsUnclaimed, claimed, claimed_named};
ghost use Rattle.cc_list.specs.Tasks as tasks;
ghost use Rattle.cc_sorts.specs.Tables.{IsSignatureFor};
ghost use Rattle.cc_words.specs.Views.{plain_text};

use cc_arena::Terms;
use cc_defs::{Fault, Query, Refusal};
use cc_describe::Described;
use cc_list::{Prepared, prepare, query_named};
use std::alloc::Global;

/// The refusal of a query with a claim.
fn claim_of(query: &Query) -> Option<Refusal>
    ensures { result ≡ claimed (plain_query query.now) }
{
    match query.claim {
        Some(_) => Some(Refusal::at(20, query.file, query.line)),
        None => None,
    }
}

/// The refusal of the query that is named, where it has a claim.
pub(crate) fn claim_named(queries: &[Query], label: Option<&str>) -> Option<Refusal>
    ensures { result
        ≡ claimed_named (tasks.query_named (plain_text label.entry) (map plain_query queries.now)) }
{
    match query_named(queries, label) {
        Some(query) => claim_of(query),
        None => None,
    }
}

/// What a search works on that asks for no claim and no key. Refuses what `prepare` does, and behind that a query with a claim (20), at
/// its place.
pub(crate) fn prepare_unclaimed<'a>(
    alloc: Global,
    described: &Described,
    label: Option<&str>,
    terms: &Terms<'a>,
) -> Result<Prepared<'a>, Fault>
    requires signature { IsSignatureFor described.now.table described.now.sig }
    requires forms { HasForms described.now }
    requires formulas { AsksFormulas described.now }
    requires of { (d : Description) × IsDescriptionOf described.now d }
    ensures searchable { IfOk result (λ made.
        IsSearchable described.now made None) }
    ensures claim { IfOk result (λ made. IsNone made.query.claim) }
    ensures named { (d : Description) → IsDescriptionOf described.now d → IfOk result (λ made.
        (q : QueryAsked) × StandsFor described.now made d q
        × IsUnclaimed d (map plain_query described.now.queries) (plain_text label.entry) q) }
    ensures refused { (d : Description) → IsDescriptionOf described.now d → IfErr result
        (IsClaimFault d (map plain_query described.now.queries) (plain_text label.entry)) }
{
    let prepared = prepare(alloc, described, label, None, terms)?;
    match claim_named(described.queries.items(), label) {
        Some(refusal) => Err(Fault::Refused(refusal)),
        None => Ok(prepared),
    }
}
