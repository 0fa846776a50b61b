//! Values of terms that have no constant, and the objects that they are.
ghost use Rattle.std.specs.Prelude.{◌≡◌, ◌+◌, IfOk, Some, option_and_then, option_map, position};
ghost use Rattle.cc_defs.specs.Resolved.{plain_term};
ghost use Rattle.cc_defs.specs.Satisfaction.{Whole, is_number};
ghost use Rattle.cc_defs.specs.Satisfaction as words;
ghost use Rattle.cc_defs.specs.Signatures.{number_at};
ghost use Rattle.cc_ground.specs.Bindings.{environment_of};
ghost use Rattle.cc_ground.specs.Pieces.{joined};
ghost use Rattle.cc_ground.specs.Views.{bare_universe, plain_value};

use crate::bindings::Bindings;
use crate::maker::narrow;
use crate::outermost::is_minus;
use crate::values::NONE;
use cc_defs::{OutOfMemory, Term};
use cc_sorts::Table;

/// What a term may have.
#[derive(Clone, Copy)]
pub(crate) enum Value {
    /// An object that is no number, or what stands for `none`.
    Thing(u32),
    /// A whole number, as the first less the second.
    Whole(u64, u64),
}

/// The sum of two numbers. What would be larger has more pieces than fit in memory.
pub(crate) fn sum_of(one: u64, other: u64) -> Result<u64, OutOfMemory>
    ensures { IfOk result (λ sum. sum ≡ one + other) }
{
    one.checked_add(other).ok_or(OutOfMemory)
}

/// The whole number that the first two numbers are less the other two.
fn whole_of(one: u64, more: u64, other: u64, another: u64) -> Result<Option<Value>, OutOfMemory>
    ensures { IfOk result (λ whole.
        option_map plain_value whole ≡ Some (Whole (one + more) (other + another))) }
{
    Ok(Some(Value::Whole(sum_of(one, more)?, sum_of(other, another)?)))
}

/// The sum of two values, or the first less the second, where both are whole numbers.
fn join(
    minus: bool,
    first: Option<Value>,
    second: Option<Value>,
) -> Result<Option<Value>, OutOfMemory>
    ensures { IfOk result (λ whole. option_map plain_value whole
        ≡ joined minus (option_map plain_value first) (option_map plain_value second)) }
{
    match (first, second) {
        (Some(Value::Whole(one, other)), Some(Value::Whole(more, another))) => {
            if minus {
                whole_of(one, another, other, more)
            } else {
                whole_of(one, more, other, another)
            }
        }
        _ => Ok(None),
    }
}

/// An object is its number where it is one.
fn meant(table: &Table, object: u32) -> Value
    ensures { plain_value result ≡ words.meant (bare_universe table.now) object }
{
    match table.number_of(object) {
        Some(number) => Value::Whole(u64::from(number), 0),
        None => Value::Thing(object),
    }
}

/// What an object is, if there is one.
fn meant_if(table: &Table, object: Option<u32>) -> Option<Value>
    ensures { option_map plain_value result
        ≡ option_map (words.meant (bare_universe table.now)) object }
{
    match object {
        Some(object) => Some(meant(table, object)),
        None => None,
    }
}

/// The value of a term that has no constant.
pub(crate) fn given_value(
    table: &Table,
    env: &Bindings,
    term: &Term,
) -> Result<Option<Value>, OutOfMemory>
    ensures { IfOk result (λ found. option_map plain_value found ≡ words.given_value
        (bare_universe table.now) (environment_of env.now) (plain_term term.now)) }
{
    match term {
        Term::Constant { .. } => Ok(None),
        Term::Object(object) => Ok(Some(meant(table, *object))),
        Term::Variable(variable) => Ok(meant_if(table, env.value(*variable))),
        Term::Nothing => Ok(Some(Value::Thing(NONE))),
        Term::Number(number) => Ok(Some(Value::Whole(u64::from(*number), 0))),
        Term::Plus(left, right) | Term::Minus(left, right) => {
            let first = given_value(table, env, left)?;
            let second = given_value(table, env, right)?;
            join(is_minus(term), first, second)
        }
    }
}

/// The first object that is the number which one is less another, looked for in turn.
fn object_in_turn(table: &Table, plus: u64, minus: u64) -> Result<Option<u32>, OutOfMemory>
    ensures { IfOk result (λ found. found ≡ position (is_number plus minus) table.now.numbers) }
{
    table.has_declarations();
    for place in 0..table.object_count() {
        let object = narrow(place)?;
        if is_number_at(table, object, plus, minus)? {
            return Ok(Some(object));
        }
    }
    Ok(None)
}

/// Whether an object is the number which one is less another.
fn is_number_at(table: &Table, object: u32, plus: u64, minus: u64) -> Result<bool, OutOfMemory>
    ensures { IfOk result (λ is. is ≡ is_number plus minus (number_at table.now.numbers object)) }
{
    match table.number_of(object) {
        Some(number) => Ok(plus == sum_of(u64::from(number), minus)?),
        None => Ok(false),
    }
}

/// The object that is the number which one is less another. Numbers of the text are short.
fn object_of_whole(table: &Table, plus: u64, minus: u64) -> Result<Option<u32>, OutOfMemory>
    ensures { IfOk result (λ found. found ≡ position (is_number plus minus) table.now.numbers) }
{
    let Some(number) = plus.checked_sub(minus) else {
        return Ok(None);
    };
    match u32::try_from(number) {
        Ok(number) => Ok(table.numbered(number)),
        Err(_) => object_in_turn(table, plus, minus),
    }
}

/// The object that a value is.
fn object_of(table: &Table, value: Value) -> Result<Option<u32>, OutOfMemory>
    ensures { IfOk result (λ found.
        found ≡ words.object_of_value (bare_universe table.now) (plain_value value)) }
{
    match value {
        Value::Thing(object) => Ok(Some(object)),
        Value::Whole(plus, minus) => object_of_whole(table, plus, minus),
    }
}

/// The object that the value of a term is.
pub(crate) fn object_given(
    table: &Table,
    env: &Bindings,
    term: &Term,
) -> Result<Option<u32>, OutOfMemory>
    ensures { IfOk result (λ found.
        found ≡ option_and_then (words.object_of_value (bare_universe table.now)) (words.given_value
        (bare_universe table.now) (environment_of env.now) (plain_term term.now))) }
{
    match given_value(table, env, term)? {
        Some(value) => object_of(table, value),
        None => Ok(None),
    }
}
