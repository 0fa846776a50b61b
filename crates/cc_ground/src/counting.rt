//! How many instances laws have, counted up to one more than the limit.
ghost use Rattle.std.specs.Prelude.{◌≡◌, ◌≤◌, ◌*◌, ℕ, List as Items, min, length, map};
ghost use Rattle.cc_defs.specs.Resolved.{plain_base_law};
ghost use Rattle.cc_ground.specs.Counting.{instance_count, instances_of_all};
ghost use Rattle.cc_defs.specs.Environments.{choices, range_values, pairs_of};
ghost use Rattle.cc_defs.specs.Universe.{boolean_actions};
ghost use Rattle.cc_ground.specs.Views.{universe_of};

use crate::values::values_in_range;
use cc_defs::{BaseLaw, Range, Sig};
use cc_sorts::Table;

/// What counts stop at: one more than the limit of law instances.
pub(crate) const MANY: usize = 1_000_001;

/// The product of a count and another number; counting stops at MANY.
fn times(count: usize, number: usize) -> usize
    requires { count ≤ 1000001 }
    ensures { result ≡ min (count * number) 1000001 }
{
    count.saturating_mul(number.min(MANY)).min(MANY)
}

/// How many lists of values of their ranges there are.
pub(crate) fn choice_count(table: &Table, sig: &Sig, ranges: &[Range]) -> usize
    ensures { result ≡ min
        (length (choices (map (range_values (universe_of table.now sig.now)) ranges.now))) 1000001 }
{
    let mut count = 1;
    for range in ranges {
        count = times(count, values_in_range(table, sig, *range).len());
    }
    count
}

/// How many pairs so many things make.
fn pair_count(number: usize) -> usize
    ensures { (xs : Items ℕ) → length xs ≡ number → result ≡ min (length (pairs_of xs)) 1000001 }
{
    // Two thousand have 1,999,000 pairs.
    let number = number.min(2000);
    (number * number.saturating_sub(1) / 2).min(MANY)
}

/// How many instances a base law has before its test.
fn count_of(table: &Table, sig: &Sig, actions: &[u32], law: &BaseLaw) -> usize
    requires { actions.now ≡ boolean_actions (universe_of table.now sig.now) }
    ensures { result
        ≡ min (instance_count (universe_of table.now sig.now) (plain_base_law law.now)) 1000001 }
{
    match law {
        BaseLaw::One(law) => choice_count(table, sig, law.ranges.items()),
        BaseLaw::NoConcurrency { .. } => pair_count(actions.len()),
    }
}

/// How many instances base laws have before their tests; the actions are the Boolean ones.
pub(crate) fn count_all(table: &Table, sig: &Sig, actions: &[u32], laws: &[BaseLaw]) -> usize
    requires { actions.now ≡ boolean_actions (universe_of table.now sig.now) }
    ensures { result ≡ min
        (instances_of_all (universe_of table.now sig.now) (map plain_base_law laws.now)) 1000001 }
{
    let mut count = 0;
    for law in laws {
        count = count_of(table, sig, actions, law)
            .saturating_add(count)
            .min(MANY);
    }
    count
}
