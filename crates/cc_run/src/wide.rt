//! What words name of a description that was read, where heads may be of any form.
ghost use Rattle.std.specs.Prelude.{◌≡◌, IfErr, IfOk, map};
ghost use Rattle.cc_arena.specs.GroundViews.{plain_ground_query};
ghost use Rattle.cc_list.specs.Descriptions.{IsWideDescriptionOf};
ghost use Rattle.cc_defs.specs.Resolved.{Query as QueryAsked, plain_query};
ghost use Rattle.cc_describe.specs.Describing.{AsksFormulas, HasWideForms};
ghost use Rattle.cc_run.specs.Generals.{IsWideFault, IsWideUnclaimed};
ghost use Rattle.cc_run.specs.Generals.{IsSearchableWide, StandsForWide};
ghost use Rattle.cc_sorts.specs.Tables.{IsSignatureFor};
ghost use Rattle.cc_wide.specs.WideLaws.{WideDescription};
ghost use Rattle.cc_words.specs.Views.{plain_text};

use crate::unclaimed::claim_named;
use crate::wide_laws::wide_laws_of;
use cc_arena::{GroundQuery, Terms};
use cc_defs::Fault;
use cc_describe::DescribedWide;
use cc_list::query_asked;
use cc_wide::WideGround;
use std::alloc::Global;

/// What a search works on whose laws have heads of any form.
#[derive(Drop)]
pub(crate) struct PreparedWide<'a> {
    pub(crate) laws: WideGround<'a>,
    pub(crate) query: GroundQuery<'a>,
}

/// What a search works on that asks for no claim and no key, where heads may be of any form. Refuses too many instances or nodes of
/// the laws (14), an absent query (15), a step of the query that does not fit (16), a horizon that is too great or too many nodes
/// of the query (14), and a query with a claim (20), in this order.
pub(crate) fn prepare_wide<'a>(
    alloc: Global,
    said: &DescribedWide,
    label: Option<&str>,
    terms: &Terms<'a>,
) -> Result<PreparedWide<'a>, Fault>
    requires signature { IsSignatureFor said.now.described.table said.now.described.sig }
    requires forms { HasWideForms said.now }
    requires formulas { AsksFormulas said.now.described }
    requires of { (w : WideDescription) × IsWideDescriptionOf said.now w }
    ensures searchable { IfOk result (λ made.
        IsSearchableWide said.now.described made) }
    ensures named { (w : WideDescription) → IsWideDescriptionOf said.now w →
        IfOk result (λ made. (q : QueryAsked) × StandsForWide said.now.described made w q
        × IsWideUnclaimed w
        (map plain_query said.now.described.queries) (plain_text label.entry) q) }
    ensures refused { (w : WideDescription) → IsWideDescriptionOf said.now w → IfErr result
        (IsWideFault w (map plain_query said.now.described.queries) (plain_text label.entry)) }
{
    let laws = wide_laws_of(alloc, said, terms)?;
    let query = query_asked(alloc, &said.described, label, terms)?;
    match claim_named(said.described.queries.items(), label) {
        Some(refusal) => Err(Fault::Refused(refusal)),
        None => Ok(PreparedWide { laws, query }),
    }
}
