//! The clause list of candidates: the rows that satisfy their own reduct, and the query.
ghost use Rattle.std.specs.Prelude.{◌≡◌, ◌≤◌, None, IfOk, IfErr, OnOk};
ghost use Rattle.cc_arena.specs.GroundViews.{plain_ground_query};
ghost use Rattle.cc_clauses.specs.Tells.{Tells};
ghost use Rattle.cc_defs.specs.GroundLaws.{StandsForQuery};
ghost use Rattle.cc_defs.specs.Limits.{most_steps};
ghost use Rattle.cc_defs.specs.Refusals.{IsRefusedBy};
ghost use Rattle.cc_defs.specs.Resolved.{Query};
ghost use Rattle.cc_form.specs.Places.{position_sizes};
ghost use Rattle.cc_form.specs.Queries.{IsQueryAt};
ghost use Rattle.cc_wide.specs.WideLaws.{WideDescription, frame};
ghost use Rattle.cc_wide.specs.WideLists.{candidate_axioms};
ghost use Rattle.cc_wide.specs.WideRules.{IsCandidate};
ghost use Rattle.cc_rivals.specs.Wides.{AreWideLawsFor, AreWideLawsOf, candidates_refusal};

use crate::draft::{begun, deny_claim, put_conditions};
use crate::positions::stride;
use cc_arena::GroundQuery;
use cc_arena::theorems::terms_mean_formulas;
use cc_defs::{Fault, Sig};
use cc_form::Form;
use cc_wide::WideGround;
use std::alloc::Global;

/// The clause list of the candidates of a query at a horizon: behind the clauses of positions, for each rule in order the
/// clauses of its parts and of its head, and that where the parts are true so is the head; then the query's conditions, and that
/// its claim does not hold. Its rows are the candidates. Refuses the first limit that the rules or clauses pass (14, rules,
/// variables, axiom clauses or axiom literals).
pub fn candidates(
    alloc: Global,
    sig: &Sig,
    laws: &WideGround<'_>,
    query: &GroundQuery<'_>,
    horizon: u32,
) -> Result<Form, Fault>
    requires laws { AreWideLawsFor sig.now laws.now }
    requires horizon { horizon ≤ most_steps }
    requires query { IsQueryAt sig.now horizon (plain_ground_query query.now) }
    ensures made { (w : WideDescription) (q : Query) → AreWideLawsOf sig.now laws.now w →
        StandsForQuery (plain_ground_query query.now) (frame w) q →
        IfOk result (λ form. form ≡ candidate_axioms w q horizon) }
    ensures sizes { IfOk result (λ form. form.sizes ≡ position_sizes sig.now horizon) }
    ensures tells { (w : WideDescription) (q : Query) → AreWideLawsOf sig.now laws.now w →
        StandsForQuery (plain_ground_query query.now) (frame w) q →
        OnOk result (Tells (candidate_axioms w q horizon) (IsCandidate w q horizon)) }
    ensures within { (w : WideDescription) (q : Query) → AreWideLawsOf sig.now laws.now w →
        StandsForQuery (plain_ground_query query.now) (frame w) q →
        OnOk result (candidates_refusal w q horizon ≡ None) }
    ensures refused { (w : WideDescription) (q : Query) → AreWideLawsOf sig.now laws.now w →
        StandsForQuery (plain_ground_query query.now) (frame w) q →
        IfErr result (IsRefusedBy (candidates_refusal w q horizon)) }
{
    terms_mean_formulas();
    let mut draft = begun(alloc, sig, laws.laws(), horizon, None)?;
    let stride = stride(sig);
    put_conditions(&mut draft, query.conditions.items(), stride, horizon)?;
    deny_claim(&mut draft, query.claim, stride, horizon)?;
    draft.close()
}
