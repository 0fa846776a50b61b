//! What a section needs when it opens: whether it denies the claim, and the search over its clauses.
ghost use Rattle.std.specs.Prelude.{◌≡◌, ◌≤◌, not, IfOk, OnOk, length};
ghost use Rattle.cc_cdcl.specs.Solvers.{Ready};
ghost use Rattle.cc_defs.specs.Limits.{most_clauses, most_variables};
ghost use Rattle.cc_kernel.specs.Kernels.{axioms_of};
ghost use Rattle.cc_lists.specs.Subjects.{AreGoodAxioms};
ghost use Rattle.cc_query.specs.Parts.{is_conditions};

use crate::phase::Part;
use cc_cdcl::Solver;
use cc_defs::OutOfMemory;
use cc_form::Form;
use cc_kernel::Kernel;
use std::alloc::Global;

/// Whether a part denies the query's claim, where there is one.
pub(crate) fn denies_claim(part: Part) -> bool
    ensures { result ≡ not (is_conditions part) }
{
    match part {
        Part::Histories | Part::Claim => true,
        Part::Conditions => false,
    }
}

/// The search over clauses. It takes the place of the clauses.
pub fn solver_of(alloc: Global, form: Form) -> Result<Solver, OutOfMemory>
    ensures sizes { IfOk result (λ solver. solver.sizes ≡ form.sizes) }
    ensures variables { IfOk result (λ solver. solver.kernel.variables ≡ form.variables) }
    ensures few { OnOk result (form.variables ≤ most_variables) }
    ensures entries { IfOk result (λ solver. solver.kernel.entries ≡ axioms_of form.clauses) }
    ensures count { OnOk result (length form.clauses ≤ most_clauses) }
    ensures good { OnOk result (AreGoodAxioms form) }
    ensures ready { IfOk result (λ solver. solver.standing ≡ Ready) }
{
    let variables = form.variables();
    let sizes = Vec::from_slice(alloc, form.sizes())?;
    let kernel = Kernel::of(alloc, variables, form.into_clauses());
    Solver::new(alloc, kernel, &sizes)
}
