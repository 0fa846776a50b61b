//! Whether the test of a law is true for values of its variables. No constant has a value in it.
ghost use Rattle.std.specs.Prelude.{◌≡◌, ◌+◌, IfOk, Ok, OnOk, not, option_map, Some};
ghost use Rattle.cc_defs.specs.Satisfaction.{Thing, bind, satisfied};
ghost use Rattle.cc_defs.specs.Resolved.{plain_formula, plain_term};
ghost use Rattle.cc_defs.specs.Universe.{objects_of as objects_in};
ghost use Rattle.cc_ground.specs.Bindings.{environment_of};
ghost use Rattle.cc_ground.specs.Outermost.{bracket_truth, joined_truth, stand_values};
ghost use Rattle.cc_ground.specs.Pieces.{formula_of, stands};
ghost use Rattle.cc_ground.specs.Views.{bare_universe, plain_value};

use crate::bindings::Bindings;
use crate::judged::compares;
use crate::outermost::{Joint, is_for_all, joint_in, sign_in};
use crate::pieces::Sign;
use crate::sums::{Value, given_value, sum_of};
use crate::values::objects_of;
use cc_defs::{Formula, OutOfMemory, Term};
use cc_sorts::Table;

/// How two things stand to one another, which are no numbers.
fn things_stand(sign: Sign, one: u32, other: u32) -> bool
    ensures { result ≡ stand_values sign (Some (Thing one)) (Some (Thing other)) }
{
    match sign {
        Sign::Equal => one == other,
        Sign::Less | Sign::AtMost => false,
    }
}

/// How the sum of two numbers stands to that of two others.
fn sums_stand(
    sign: Sign,
    one: u64,
    more: u64,
    other: u64,
    another: u64,
) -> Result<bool, OutOfMemory>
    ensures { IfOk result (λ so. so ≡ stands sign (one + more) (other + another)) }
{
    Ok(compares(sign, sum_of(one, more)?, sum_of(other, another)?))
}

/// Whether there are both values, and they stand so to one another.
fn stand(sign: Sign, one: Option<Value>, other: Option<Value>) -> Result<bool, OutOfMemory>
    ensures { IfOk result (λ so. so
        ≡ stand_values sign (option_map plain_value one) (option_map plain_value other)) }
{
    match (one, other) {
        (Some(Value::Thing(one)), Some(Value::Thing(other))) => Ok(things_stand(sign, one, other)),
        (Some(Value::Whole(plus, minus)), Some(Value::Whole(other, another))) => {
            sums_stand(sign, plus, another, other, minus)
        }
        _ => Ok(false),
    }
}

/// Whether both terms have a value, and these stand so to one another.
fn are_so(
    table: &Table,
    env: &Bindings,
    sign: Sign,
    left: &Term,
    right: &Term,
) -> Result<bool, OutOfMemory>
    ensures { IfOk result (λ passed. passed
        ≡ satisfied (bare_universe table.now) (λ number. 0) (environment_of env.now)
        (formula_of sign (plain_term left.now) (plain_term right.now))) }
{
    let left = given_value(table, env, left)?;
    let right = given_value(table, env, right)?;
    stand(sign, left, right)
}

/// Whether a formula is true for each object of a sort, or, where that is asked, for one.
#[cycle(passing)]
fn bracket_passes(
    table: &Table,
    env: &mut Bindings,
    all: bool,
    variable: u32,
    sort: u32,
    formula: &Formula,
) -> Result<bool, OutOfMemory>
    ensures passed { IfOk result (λ passed. passed ≡ bracket_truth all (λ object. satisfied
        (bare_universe table.now) (λ number. 0) (bind variable object (environment_of env.old))
        (plain_formula formula.now)) (objects_in (bare_universe table.now) sort)) }
    ensures env { OnOk result (env.new ≡ env.old) }
{
    for object in objects_of(table, sort) {
        env.bind(variable, *object)?;
        let passed = passes(table, env, formula)?;
        env.unbind();
        if passed != all {
            return Ok(passed);
        }
    }
    Ok(all)
}

/// Whether a formula of two parts is true whose first part has this truth. Where that decides, the second one is not looked at.
#[cycle(passing)]
fn second_passes(
    table: &Table,
    env: &mut Bindings,
    joint: Joint,
    first: bool,
    second: &Formula,
) -> Result<bool, OutOfMemory>
    ensures passed { IfOk result (λ passed. passed ≡ joined_truth joint first (satisfied
        (bare_universe table.now) (λ number. 0) (environment_of env.old) (plain_formula second.now))) }
    ensures env { OnOk result (env.new ≡ env.old) }
{
    match (joint, first) {
        (Joint::Both, false) => Ok(false),
        (Joint::Either, true) | (Joint::Implies, false) => Ok(true),
        (Joint::Same, false) => Ok(!passes(table, env, second)?),
        (Joint::Both | Joint::Implies | Joint::Same, true) | (Joint::Either, false) => {
            passes(table, env, second)
        }
    }
}

/// Whether a formula without constants is true under an environment, which is as before afterwards.
#[cycle(passing)]
pub(crate) fn passes(
    table: &Table,
    env: &mut Bindings,
    formula: &Formula,
) -> Result<bool, OutOfMemory>
    ensures passed { IfOk result (λ passed. passed ≡ satisfied (bare_universe table.now)
        (λ number. 0) (environment_of env.old) (plain_formula formula.now)) }
    ensures env { OnOk result (env.new ≡ env.old) }
{
    match formula {
        Formula::True => Ok(true),
        Formula::False => Ok(false),
        Formula::Equal(left, right) | Formula::Less(left, right) | Formula::AtMost(left, right) =>
            are_so(table, env, sign_in(formula), left, right),
        Formula::Not(inner) => Ok(!passes(table, env, inner)?),
        Formula::Both(left, right)
        | Formula::Either(left, right)
        | Formula::Implies(left, right)
        | Formula::Same(left, right) => {
            let first = passes(table, env, left)?;
            second_passes(table, env, joint_in(formula), first, right)
        }
        Formula::ForAll(variable, sort, inner) | Formula::Exists(variable, sort, inner) => {
            bracket_passes(table, env, is_for_all(formula), *variable, *sort, inner)
        }
    }
}
