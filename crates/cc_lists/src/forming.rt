//! The clause list of a section at a horizon.
ghost use Rattle.std.specs.Prelude.{◌≡◌, ℕ, ◌≤◌, Bool, IfOk, IfErr, IfSome, OnOk, None};
ghost use Rattle.std.specs.Option.{option_map, option_or};
ghost use Rattle.cc_arena.specs.GroundViews.{plain_ground_query};
ghost use Rattle.cc_defs.specs.ClauseLists.{clause_list};
ghost use Rattle.cc_defs.specs.Description.{Description};
ghost use Rattle.cc_defs.specs.GroundLaws.{StandsForQuery};
ghost use Rattle.cc_defs.specs.Limits.{most_steps};
ghost use Rattle.cc_defs.specs.Refusals.{IsRefusedBy};
ghost use Rattle.cc_defs.specs.Resolved.{Query};
ghost use Rattle.cc_form.specs.Forms.{TellsHistories, asked, form_of, form_refusal};
ghost use Rattle.cc_form.specs.Queries.{IsKeyAt, IsQueryAt};
ghost use Rattle.cc_lists.specs.Horizons.{refusal_at};
ghost use Rattle.cc_theory.specs.Theories.{AreLawsFor, AreLawsOf};

use cc_arena::{GroundQuery, Laws};
use cc_defs::{Fault, Key, Sig};
use cc_form::{Form, clauses};
use cc_theory::Theory;
use std::alloc::Global;

/// The clauses of a section at a horizon. Refuses the first limit that its rules or clauses pass.
pub fn form_at(
    alloc: Global,
    sig: &Sig,
    laws: &Laws<'_>,
    query: &GroundQuery<'_>,
    after: Option<&Key>,
    horizon: u32,
    with_claim: bool,
) -> Result<Form, Fault>
    requires laws { AreLawsFor sig.now laws.now }
    requires horizon { horizon ≤ most_steps }
    requires query { IsQueryAt sig.now horizon (plain_ground_query query.now) }
    requires key { IfSome after (λ key. IsKeyAt sig.now horizon key.now) }
    ensures made { (d : Description) (q : Query) → AreLawsOf sig.now laws.now d →
        StandsForQuery (plain_ground_query query.now) d q → IfOk result (λ form.
        form ≡ form_of d q horizon with_claim (option_map (λ key. key.now) after.entry)) }
    ensures tells { (d : Description) (q : Query) → AreLawsOf sig.now laws.now d →
        StandsForQuery (plain_ground_query query.now) d q → OnOk result
        (TellsHistories d (asked with_claim q) horizon (option_map (λ key. key.now.row) after.entry)
        (form_of d q horizon with_claim (option_map (λ key. key.now) after.entry))) }
    ensures within { (d : Description) (q : Query) → AreLawsOf sig.now laws.now d →
        StandsForQuery (plain_ground_query query.now) d q → OnOk result
        (refusal_at d q horizon with_claim (option_map (λ key. key.now) after.entry) ≡ None) }
    ensures refused { (d : Description) (q : Query) → AreLawsOf sig.now laws.now d →
        StandsForQuery (plain_ground_query query.now) d q → IfErr result (IsRefusedBy
        (refusal_at d q horizon with_claim (option_map (λ key. key.now) after.entry))) }
{
    let theory = Theory::at(alloc, sig, laws, horizon)?;
    clauses(alloc, &theory, query, with_claim, after)
}
