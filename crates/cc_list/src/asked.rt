//! What is asked of a description: its laws and one of its queries, ground, with what the theory of a horizon and the clause
//! list of a section ask of them.
ghost use Rattle.std.specs.Prelude.{◌≡◌, ℕ, ◌≤◌, List as Items, IfOk, IfErr, OnOk, None};
ghost use Rattle.cc_arena.specs.GroundViews.{plain_ground_query};
ghost use Rattle.cc_defs.specs.Limits.{most_steps};
ghost use Rattle.cc_defs.specs.Declarations.{Declaration, symbols};
ghost use Rattle.cc_defs.specs.Description.{Description};
ghost use Rattle.cc_defs.specs.GroundLaws.{StandsForQuery};
ghost use Rattle.cc_defs.specs.Refusals.{IsRefusedBy};
ghost use Rattle.cc_defs.specs.Resolved.{plain_query};
ghost use Rattle.cc_form.specs.Queries.{IsQueryAt};
ghost use Rattle.cc_laws.specs.Laws.{HasFormulas};
ghost use Rattle.cc_laws.specs.Questions.{steps_refusal};
ghost use Rattle.cc_laws.specs.Vocabulary.{vocabulary_of};
ghost use Rattle.cc_sorts.specs.Tables.{IsSignatureFor, IsTable};
ghost use Rattle.cc_list.specs.Descriptions.{IsDescriptionOf, ground_refusal};
ghost use Rattle.cc_describe.specs.Describing.{HasForms};
ghost use Rattle.cc_ground.specs.Counting.{laws_refusal};
ghost use Rattle.cc_theory.specs.Theories.{AreLawsFor, AreLawsOf};

use cc_arena::theorems::{fluent_terms_fit, ground_queries_fit};
use cc_arena::{GroundQuery, Laws, Terms};
use cc_defs::{Fault, Query};
use cc_describe::Described;
use cc_ground::theorems::{declared_have_own_values, declared_have_their_kinds};
use cc_ground::{ground, ground_query};
use cc_laws::theorems::steps_fit;
use std::alloc::Global;

/// The ground laws of a description, as the theory of a horizon asks for them: one for each instance of its base laws, in
/// order. Refuses more instances, then more nodes, than their limits (14, law instances, ground nodes).
pub fn laws_of<'a>(
    alloc: Global,
    described: &Described,
    terms: &Terms<'a>,
) -> Result<Laws<'a>, Fault>
    requires signature { IsSignatureFor described.now.table described.now.sig }
    requires forms { HasForms described.now }
    ensures fit { IfOk result (λ laws. AreLawsFor described.now.sig laws) }
    ensures of { (d : Description) →
        IsDescriptionOf described.now d → IfOk result (λ laws. AreLawsOf described.now.sig laws d) }
    ensures unrefused { (d : Description) →
        IsDescriptionOf described.now d → OnOk result (laws_refusal d.universe d.laws ≡ None) }
    ensures refused { (d : Description) → IsDescriptionOf described.now d →
        IfErr result (IsRefusedBy (laws_refusal d.universe d.laws)) }
{
    declared_have_own_values();
    ground(
        alloc,
        &described.table,
        &described.sig,
        &described.laws,
        terms,
    )
}

/// A query of a description whose steps are not refused, ground, as the clause lists of its horizons ask for it. Refuses more
/// nodes than their limit (14, ground nodes).
pub fn query_of<'a>(
    alloc: Global,
    described: &Described,
    query: &Query,
    terms: &Terms<'a>,
) -> Result<GroundQuery<'a>, Fault>
    requires signature { IsSignatureFor described.now.table described.now.sig }
    requires formulas { (declarations : Items Declaration) → IsTable described.now.table
        declarations → HasFormulas (symbols declarations) (plain_query query.now) }
    requires steps { steps_refusal
        (vocabulary_of described.now.table).symbols (plain_query query.now) ≡ None }
    ensures range { IfOk result (λ made. (made.lo ≤ made.hi) × (made.hi ≤ most_steps)) }
    ensures asked { IfOk result (λ made. (horizon : ℕ) → made.lo ≤ horizon →
        horizon ≤ made.hi → IsQueryAt described.now.sig horizon (plain_ground_query made)) }
    ensures stands { (d : Description) → IsDescriptionOf described.now d →
        IfOk result (λ made. StandsForQuery (plain_ground_query made) d (plain_query query.now)) }
    ensures unrefused { (d : Description) → IsDescriptionOf described.now d →
        OnOk result (ground_refusal d (plain_query query.now) ≡ None) }
    ensures refused { (d : Description) → IsDescriptionOf described.now d →
        IfErr result (IsRefusedBy (ground_refusal d (plain_query query.now))) }
{
    steps_fit();
    fluent_terms_fit();
    ground_queries_fit();
    declared_have_their_kinds();
    ground_query(alloc, &described.table, &described.sig, query, terms)
}
