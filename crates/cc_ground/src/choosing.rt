//! How many lists of values are walked for equations with sums and for comparisons, counted up to one more than the limit.
ghost use Rattle.std.specs.Prelude.{◌≡◌, ◌≤◌, ◌+◌, ◌*◌, ◌++◌, ◌∷◌, [], IfOk, OnOk, map, min};
ghost use Rattle.std.specs.Option.{option_map};
ghost use Rattle.cc_defs.specs.Judged.{choices_of, constants_of, lists_of, product_of};
ghost use Rattle.cc_defs.specs.Resolved.{plain_base_law, plain_condition, plain_formula, plain_law, plain_query, plain_term};
ghost use Rattle.cc_defs.specs.Resolved as resolved;
ghost use Rattle.cc_defs.specs.Universe.{objects_of as objects_in};
ghost use Rattle.cc_ground.specs.Bindings.{environment_of, no_bindings};
ghost use Rattle.cc_ground.specs.Choices.{base_choices, bracket_choices, choices_behind, choices_under, conditions_choices, has_any, has_lists as has_lists_of, has_lists_part};
ghost use Rattle.cc_ground.specs.Counting.{choices_of_all, choices_of_query, part_choices};
ghost use Rattle.cc_ground.specs.Views.{universe_of};

use crate::bindings::Bindings;
use crate::conditions::passes;
use crate::counting::choice_count;
use crate::heads::head_under;
use crate::judged::size_of;
use crate::pieces::{gather_both, has_sum};
use crate::values::{objects_of, values_in_range};
use cc_arena::theorems::heads_there_are_ground;
use cc_defs::{BaseLaw, Condition, Formula, Law, OutOfMemory, Query, Range, Sig, Term};
use cc_sorts::Table;
use std::alloc::Global;

/// What counts stop at: one more than the limit of choices.
pub(crate) const MANY_CHOICES: usize = 16_000_001;

/// The product of a count and another number; counting stops at MANY_CHOICES.
fn times(count: usize, number: u32) -> usize
    ensures { result ≡ min (count * number) 16000001 }
{
    count.saturating_mul(number as usize).min(MANY_CHOICES)
}

/// The sum of two counts.
fn with(count: usize, more: usize) -> usize
    ensures { result ≡ min (count + more) 16000001 }
{
    count.saturating_add(more).min(MANY_CHOICES)
}

/// Whether a constant is a piece of a term.
#[tactic(auto, using(crate::proofs::Counted::any_both))]
fn has_constant(term: &Term) -> bool
    ensures { result ≡ has_any (constants_of (plain_term term.now)) }
{
    match term {
        Term::Constant { .. } => true,
        Term::Plus(left, right) | Term::Minus(left, right) => {
            has_constant(left) || has_constant(right)
        }
        Term::Object(_) | Term::Variable(_) | Term::Nothing | Term::Number(_) => false,
    }
}

/// Whether one is of one of two terms.
#[tactic(auto, using(crate::proofs::Counted::any_both))]
fn have_constant(left: &Term, right: &Term) -> bool
    ensures { result
        ≡ has_any (constants_of (plain_term left.now) ++ constants_of (plain_term right.now)) }
{
    has_constant(left) || has_constant(right)
}

/// Whether a formula has an equation or comparison whose lists of values are walked.
pub(crate) fn has_lists(formula: &Formula) -> bool
    ensures { result ≡ has_lists_of (plain_formula formula.now) }
{
    match formula {
        Formula::True | Formula::False => false,
        Formula::Equal(left, right) => has_sum(left, right) && have_constant(left, right),
        Formula::Less(left, right) | Formula::AtMost(left, right) => have_constant(left, right),
        Formula::Not(inner) => has_lists(inner),
        Formula::Both(left, right)
        | Formula::Either(left, right)
        | Formula::Implies(left, right)
        | Formula::Same(left, right) => has_lists(left) || has_lists(right),
        Formula::ForAll(_, _, inner) | Formula::Exists(_, _, inner) => has_lists(inner),
    }
}

/// How many lists of values these constants have.
fn product(table: &Table, sig: &Sig, constants: &[u32]) -> Result<usize, OutOfMemory>
    ensures { IfOk result (λ count.
        count ≡ min (product_of (universe_of table.now sig.now) constants.now) 16000001) }
{
    let mut count = 1;
    for constant in constants {
        count = times(count, size_of(table, sig, *constant)?);
    }
    Ok(count)
}

/// How many lists are walked for an equation or comparison of two terms.
fn lists_between(
    alloc: Global,
    table: &Table,
    sig: &Sig,
    env: &Bindings,
    left: &Term,
    right: &Term,
) -> Result<usize, OutOfMemory>
    ensures { IfOk result (λ count.
        count ≡ min (lists_of (universe_of table.now sig.now) (environment_of env.now)
        (constants_of (plain_term left.now) ++ constants_of (plain_term right.now))) 16000001) }
{
    if !have_constant(left, right) {
        return Ok(0);
    }
    let mut constants = Vec::new(alloc);
    gather_both(alloc, table, sig, env, left, right, &mut constants)?;
    product(table, sig, &constants)
}

/// A count with the lists of an equation or comparison.
fn with_lists(
    alloc: Global,
    table: &Table,
    sig: &Sig,
    env: &Bindings,
    count: usize,
    left: &Term,
    right: &Term,
) -> Result<usize, OutOfMemory>
    ensures { IfOk result (λ new.
        new ≡ min (count + lists_of (universe_of table.now sig.now) (environment_of env.now)
        (constants_of (plain_term left.now) ++ constants_of (plain_term right.now))) 16000001) }
{
    Ok(with(count, lists_between(alloc, table, sig, env, left, right)?))
}

/// A count with those of an equation, if it is judged.
fn with_equation(
    alloc: Global,
    table: &Table,
    sig: &Sig,
    env: &Bindings,
    count: usize,
    left: &Term,
    right: &Term,
) -> Result<usize, OutOfMemory>
    requires { count ≤ 16000001 }
    ensures { IfOk result (λ new.
        new ≡ min (count + choices_of (universe_of table.now sig.now) (environment_of env.now)
        (resolved.Equal (plain_term left.now) (plain_term right.now))) 16000001) }
{
    if !has_sum(left, right) {
        return Ok(count);
    }
    with_lists(alloc, table, sig, env, count, left, right)
}

/// A count with those of a formula, for each object of a sort.
#[cycle(choosing)]
fn with_instances(
    alloc: Global,
    table: &Table,
    sig: &Sig,
    env: &mut Bindings,
    count: usize,
    variable: u32,
    sort: u32,
    formula: &Formula,
) -> Result<usize, OutOfMemory>
    requires { count ≤ 16000001 }
    ensures count { IfOk result (λ new. new ≡ min
        (count + bracket_choices (universe_of table.now sig.now) (environment_of env.old) variable
        (plain_formula formula.now) (objects_in (universe_of table.now sig.now) sort)) 16000001) }
    ensures env { OnOk result (env.new ≡ env.old) }
{
    if !has_lists(formula) {
        return Ok(count);
    }
    let mut total = count;
    for object in objects_of(table, sort) {
        env.bind(variable, *object)?;
        total = with_formula(alloc, table, sig, env, total, formula)?;
        env.unbind();
    }
    Ok(total)
}

/// A count with those of a formula. Where the count is full it goes no further.
#[cycle(choosing)]
fn with_formula(
    alloc: Global,
    table: &Table,
    sig: &Sig,
    env: &mut Bindings,
    count: usize,
    formula: &Formula,
) -> Result<usize, OutOfMemory>
    requires { count ≤ 16000001 }
    ensures count { IfOk result (λ new.
        new ≡ min (count + choices_of (universe_of table.now sig.now)
        (environment_of env.old) (plain_formula formula.now)) 16000001) }
    ensures env { OnOk result (env.new ≡ env.old) }
{
    if count >= MANY_CHOICES {
        return Ok(count);
    }
    match formula {
        Formula::True | Formula::False => Ok(count),
        Formula::Equal(left, right) => with_equation(alloc, table, sig, env, count, left, right),
        Formula::Less(left, right) | Formula::AtMost(left, right) => {
            with_lists(alloc, table, sig, env, count, left, right)
        }
        Formula::Not(inner) => with_formula(alloc, table, sig, env, count, inner),
        Formula::Both(left, right)
        | Formula::Either(left, right)
        | Formula::Implies(left, right)
        | Formula::Same(left, right) => {
            let count = with_formula(alloc, table, sig, env, count, left)?;
            with_formula(alloc, table, sig, env, count, right)
        }
        Formula::ForAll(variable, sort, inner) | Formula::Exists(variable, sort, inner) => {
            with_instances(alloc, table, sig, env, count, *variable, *sort, inner)
        }
    }
}

/// A count with those of a part that may be missing.
fn with_part(
    alloc: Global,
    table: &Table,
    sig: &Sig,
    env: &mut Bindings,
    count: usize,
    part: &Option<Formula>,
) -> Result<usize, OutOfMemory>
    requires { count ≤ 16000001 }
    ensures count { IfOk result (λ new.
        new ≡ min (count + part_choices (universe_of table.now sig.now)
        (environment_of env.old) (option_map plain_formula part.now)) 16000001) }
    ensures env { OnOk result (env.new ≡ env.old) }
{
    match part {
        Some(formula) => with_formula(alloc, table, sig, env, count, formula),
        None => Ok(count),
    }
}

/// A count with those of a law for these values of its variables, if they make an instance.
fn with_instance(
    alloc: Global,
    table: &Table,
    sig: &Sig,
    env: &mut Bindings,
    count: usize,
    law: &Law,
) -> Result<usize, OutOfMemory>
    requires few { count ≤ 16000001 }
    requires unbound { env.now.bound ≡ [] }
    ensures count { IfOk result (λ new. new ≡ min (count + choices_under
        (universe_of table.now sig.now) (plain_law law.now) (env.old.values ∷ [])) 16000001) }
    ensures env { OnOk result (env.new ≡ env.old) }
{
    heads_there_are_ground();
    if !passes(table, env, &law.test)? {
        return Ok(count);
    }
    if head_under(alloc, table, sig, env, &law.head)?.is_none() {
        return Ok(count);
    }
    let count = with_formula(alloc, table, sig, env, count, &law.body)?;
    with_part(alloc, table, sig, env, count, &law.after)
}

/// A count with those of the instances of a law for all values of the ranges that are left, behind those that are given.
fn with_choices(
    alloc: Global,
    table: &Table,
    sig: &Sig,
    env: &mut Bindings,
    count: usize,
    law: &Law,
    ranges: &[Range],
) -> Result<usize, OutOfMemory>
    requires few { count ≤ 16000001 }
    requires unbound { env.now.bound ≡ [] }
    ensures count { IfOk result (λ new. new ≡ min (count + choices_behind
        (universe_of table.now sig.now) (plain_law law.now) env.old.values ranges.now) 16000001) }
    ensures env { OnOk result (env.new ≡ env.old) }
{
    if count >= MANY_CHOICES {
        return Ok(count);
    }
    let Some((range, others)) = ranges.split_first() else {
        return with_instance(alloc, table, sig, env, count, law);
    };
    let values = values_in_range(table, sig, *range);
    let mut total = count;
    for index in 0..values.len() {
        env.give(values.at(index))?;
        total = with_choices(alloc, table, sig, env, total, law, others)?;
        env.take_back();
    }
    Ok(total)
}

/// Whether a part that may be missing has lists.
fn part_has_lists(part: &Option<Formula>) -> bool
    ensures { result ≡ has_lists_part (option_map plain_formula part.now) }
{
    match part {
        Some(formula) => has_lists(formula),
        None => false,
    }
}

/// A count with those of a base law.
fn with_base_law(
    alloc: Global,
    table: &Table,
    sig: &Sig,
    env: &mut Bindings,
    count: usize,
    law: &BaseLaw,
) -> Result<usize, OutOfMemory>
    requires few { count ≤ 16000001 }
    requires empty { env.now ≡ no_bindings }
    ensures count { IfOk result (λ new. new ≡ min
        (count + base_choices (universe_of table.now sig.now) (plain_base_law law.now)) 16000001) }
    ensures env { OnOk result (env.new ≡ env.old) }
{
    match law {
        BaseLaw::One(law) => with_law(alloc, table, sig, env, count, law),
        BaseLaw::NoConcurrency { .. } => Ok(count),
    }
}

/// A count with those of a law, which is passed over where it has no lists, or no list of values.
fn with_law(
    alloc: Global,
    table: &Table,
    sig: &Sig,
    env: &mut Bindings,
    count: usize,
    law: &Law,
) -> Result<usize, OutOfMemory>
    requires few { count ≤ 16000001 }
    requires empty { env.now ≡ no_bindings }
    ensures count { IfOk result (λ new. new ≡ min (count + choices_behind
        (universe_of table.now sig.now) (plain_law law.now) [] law.now.ranges) 16000001) }
    ensures env { OnOk result (env.new ≡ env.old) }
{
    if !has_lists(&law.body) && !part_has_lists(&law.after) {
        return Ok(count);
    }
    if choice_count(table, sig, law.ranges.items()) == 0 {
        return Ok(count);
    }
    with_choices(alloc, table, sig, env, count, law, law.ranges.items())
}

/// How many lists are walked for the instances of base laws.
pub(crate) fn choices_of_laws(
    alloc: Global,
    table: &Table,
    sig: &Sig,
    laws: &[BaseLaw],
) -> Result<usize, OutOfMemory>
    ensures { IfOk result (λ count. count ≡ min
        (choices_of_all (universe_of table.now sig.now) (map plain_base_law laws.now)) 16000001) }
{
    let mut env = Bindings::new(alloc);
    let mut count = 0;
    for law in laws {
        count = with_base_law(alloc, table, sig, &mut env, count, law)?;
    }
    Ok(count)
}

/// How many lists are walked for conditions, each of which counts once, whatever its step.
fn choices_of_conditions(
    alloc: Global,
    table: &Table,
    sig: &Sig,
    env: &mut Bindings,
    conditions: &[Condition],
) -> Result<usize, OutOfMemory>
    requires { env.now ≡ no_bindings }
    ensures count { IfOk result (λ count. count ≡ min (conditions_choices
        (universe_of table.now sig.now) (map plain_condition conditions.now)) 16000001) }
    ensures env { OnOk result (env.new ≡ env.old) }
{
    let mut count = 0;
    for condition in conditions {
        count = with_formula(alloc, table, sig, env, count, &condition.formula)?;
    }
    Ok(count)
}

/// How many lists are walked for a query.
pub(crate) fn choices_of_asked(
    alloc: Global,
    table: &Table,
    sig: &Sig,
    query: &Query,
) -> Result<usize, OutOfMemory>
    ensures { IfOk result (λ count. count
        ≡ min (choices_of_query (universe_of table.now sig.now) (plain_query query.now)) 16000001) }
{
    let mut env = Bindings::new(alloc);
    let count = choices_of_conditions(alloc, table, sig, &mut env, query.conditions.items())?;
    match &query.claim {
        Some(claim) => with_formula(alloc, table, sig, &mut env, count, &claim.formula),
        None => Ok(count),
    }
}
