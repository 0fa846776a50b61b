//! The clause list of the rivals of a row: the other rows that satisfy its reduct.
ghost use Rattle.std.specs.Prelude.{◌≡◌, ◌≤◌, None, IfOk, IfErr, OnOk};
ghost use Rattle.cc_clauses.specs.Tells.{Tells};
ghost use Rattle.cc_defs.specs.Limits.{most_steps};
ghost use Rattle.cc_defs.specs.Refusals.{IsRefusedBy};
ghost use Rattle.cc_defs.specs.Rows.{IsRow};
ghost use Rattle.cc_form.specs.Places.{position_sizes};
ghost use Rattle.cc_wide.specs.WideLaws.{WideDescription};
ghost use Rattle.cc_wide.specs.WideLists.{rival_axioms};
ghost use Rattle.cc_wide.specs.WideRules.{IsRival};
ghost use Rattle.cc_rivals.specs.Wides.{AreWideLawsFor, AreWideLawsOf, rivals_refusal};

use crate::draft::{begun, deny_row};
use crate::positions::sizes_of;
use cc_arena::theorems::terms_mean_formulas;
use cc_defs::{Fault, Sig};
use cc_form::Form;
use cc_wide::WideGround;
use std::alloc::Global;

/// The clause list of the rivals of a row at a horizon: behind the clauses of positions, for each rule in order whose parts are
/// true in the row, the clauses of its head, and that it is true; then the clause that denies the row. Its rows are the rivals.
/// Refuses the first limit that the rules or clauses pass (14, rules, variables, axiom clauses or axiom literals).
pub fn rivals(
    alloc: Global,
    sig: &Sig,
    laws: &WideGround<'_>,
    horizon: u32,
    row: &[u32],
) -> Result<Form, Fault>
    requires laws { AreWideLawsFor sig.now laws.now }
    requires horizon { horizon ≤ most_steps }
    requires row { IsRow (position_sizes sig.now horizon) row.now }
    ensures made { (w : WideDescription) → AreWideLawsOf sig.now laws.now w →
        IfOk result (λ form. form ≡ rival_axioms w horizon row.now) }
    ensures sizes { IfOk result (λ form. form.sizes ≡ position_sizes sig.now horizon) }
    ensures tells { (w : WideDescription) → AreWideLawsOf sig.now laws.now w →
        OnOk result (Tells (rival_axioms w horizon row.now) (IsRival w horizon row.now)) }
    ensures within { (w : WideDescription) → AreWideLawsOf sig.now laws.now w →
        OnOk result (rivals_refusal w horizon row.now ≡ None) }
    ensures refused { (w : WideDescription) → AreWideLawsOf sig.now laws.now w →
        IfErr result (IsRefusedBy (rivals_refusal w horizon row.now)) }
{
    terms_mean_formulas();
    let mut draft = begun(alloc, sig, laws.laws(), horizon, Some(row))?;
    let sizes = sizes_of(alloc, sig, horizon)?;
    deny_row(alloc, &mut draft, &sizes, row)?;
    draft.close()
}
