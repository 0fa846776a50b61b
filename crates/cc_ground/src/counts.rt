//! How many lists of values grounding walks, for who grounds the laws of one description in parts.
ghost use Rattle.std.specs.Prelude.{◌≡◌, List as Items, min, map, IfOk};
ghost use Rattle.cc_defs.specs.Declarations.{Declaration};
ghost use Rattle.cc_defs.specs.Resolved.{plain_base_law};
ghost use Rattle.cc_defs.specs.Universe.{universe};
ghost use Rattle.cc_ground.specs.Counting.{choices_of_all, instances_of_all};
ghost use Rattle.cc_sorts.specs.Tables.{IsTable, IsSignatureFor, IsSignatureOf};

use crate::choosing::choices_of_laws;
use crate::counting::count_all;
use crate::pairs::boolean_actions_of;
use cc_defs::{BaseLaws, OutOfMemory, Sig};
use cc_sorts::Table;
use std::alloc::Global;

/// How many instances base laws have before their tests, counted up to one more than the limit, 1,000,001.
pub fn count_instances(
    alloc: Global,
    table: &Table,
    sig: &Sig,
    laws: &BaseLaws,
) -> Result<usize, OutOfMemory>
    requires { IsSignatureFor table.now sig.now }
    ensures { (declarations : Items Declaration) → IsTable table.now declarations →
        IsSignatureOf declarations sig.now → IfOk result (λ count. count ≡ min
        (instances_of_all (universe declarations) (map plain_base_law laws.now)) 1000001) }
{
    let actions = boolean_actions_of(alloc, table, sig)?;
    Ok(count_all(table, sig, &actions, laws.items()))
}

/// How many lists of values are walked for the equations with sums and the comparisons of base laws, counted up to one more than
/// the limit, 16,000,001.
pub fn count_choices(
    alloc: Global,
    table: &Table,
    sig: &Sig,
    laws: &BaseLaws,
) -> Result<usize, OutOfMemory>
    requires { IsSignatureFor table.now sig.now }
    ensures { (declarations : Items Declaration) → IsTable table.now declarations →
        IsSignatureOf declarations sig.now → IfOk result (λ count. count ≡ min
        (choices_of_all (universe declarations) (map plain_base_law laws.now)) 16000001) }
{
    choices_of_laws(alloc, table, sig, laws.items())
}
