//! What no clause says of templates: that they give a list while there is memory, and the same as rule by rule.
ghost use Rattle.std.specs.Prelude.{◌≤◌};
ghost use Rattle.cc_arena.specs.GroundViews.{plain_ground_query};
ghost use Rattle.cc_defs.specs.Limits.{most_steps};
ghost use Rattle.cc_form.specs.Queries.{IsQueryAt};
ghost use Rattle.cc_theory.specs.Theories.{AreLawsFor};

use crate::check::{no_laws, no_query, no_signature};
use cc_arena::{GroundQuery, Laws};
use cc_defs::{Fault, Sig};
use cc_form::{Form, Template, clauses};
use cc_theory::Theory;
use std::alloc::Global;

// Whether two clause lists are the same, clause by clause.
pub(crate) fn is_same(form: &Form, other: &Form) -> bool {
    if form.variables() != other.variables() || form.count() != other.count() {
        return false;
    }
    for index in 0..form.count() {
        if form.clause(index + 1) != other.clause(index + 1) {
            return false;
        }
    }
    true
}

// Whether both ways give the same list at a horizon.
fn agree_at(
    alloc: Global,
    sig: &Sig,
    laws: &Laws<'_>,
    query: &GroundQuery<'_>,
    horizon: u32,
) -> Result<bool, Fault>
    requires laws { AreLawsFor sig.now laws.now }
    requires horizon { horizon ≤ most_steps }
    requires query { IsQueryAt sig.now horizon (plain_ground_query query.now) }
{
    let theory = Theory::at(alloc, sig, laws, horizon)?;
    let form = clauses(alloc, &theory, query, false, None)?;
    let template = Template::new(alloc, sig, laws)?;
    let other = template.clauses(horizon, query, false, None)?;
    Ok(is_same(&form, &other))
}

// The same of a description without constants.
fn agree(alloc: Global, horizon: u32) -> Result<bool, Fault>
    requires { horizon ≤ most_steps }
{
    let sig = no_signature(alloc)?;
    let laws = no_laws(alloc);
    let query = no_query(alloc);
    agree_at(alloc, &sig, &laws, &query, horizon)
}

#[test]
fn templates_give_the_lists_of_theories(rt: HostRuntime) {
    for horizon in 0..7 {
        match agree(rt.alloc(), horizon) {
            Ok(same) => assert!(rt; same),
            Err(_) => assert!(rt; false),
        }
    }
}
