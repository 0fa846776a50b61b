//! Theorems on the parts of a query, each the contract of a function that calls those that it rests on.
ghost use Rattle.cc_whynot.specs.Parts.{PartsMakeHistories};

use cc_defs::theorems::positions_have_sizes;
use cc_theory::theorems::{heads_name_atoms, models_are_paths, models_meet_completion};
use cc_why::theorems::sourced_are_rules;

/// A row is a history exactly where it meets each condition, each law as an implication, and each of its values has a cause.
pub fn parts_make_histories()
    ensures { PartsMakeHistories }
{
    positions_have_sizes();
    models_meet_completion();
    models_are_paths();
    heads_name_atoms();
    sourced_are_rules();
}
