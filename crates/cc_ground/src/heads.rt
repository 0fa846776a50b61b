//! The heads of laws under an environment.
ghost use Rattle.std.specs.Prelude.{◌≡◌, IfOk};
ghost use Rattle.cc_defs.specs.GroundLaws as words;
ghost use Rattle.cc_defs.specs.Resolved.{plain_head};
ghost use Rattle.cc_ground.specs.Bindings.{environment_of};
ghost use Rattle.cc_ground.specs.Views.{plain_side, universe_of};

use crate::bindings::Bindings;
use crate::maker::narrow;
use crate::sides::{Side, constant_side, term_side};
use crate::values::index_in;
use cc_defs::{GroundHead, Head, OutOfMemory, Sig};
use cc_sorts::Table;
use std::alloc::Global;

/// The head that a constant has a value.
fn head_of_sides(left: Side<'_>, right: Side<'_>) -> Result<Option<GroundHead>, OutOfMemory>
    ensures { IfOk result (λ head.
        head ≡ words.head_of_sides (plain_side left.entry) (plain_side right.entry)) }
{
    let (Side::Constant { number, values }, Side::Value(value)) = (left, right) else {
        return Ok(None);
    };
    let Some(index) = index_in(values, value) else {
        return Ok(None);
    };
    Ok(Some(GroundHead::Atom {
        constant: number,
        value: narrow(index)?,
    }))
}

/// The head of a law under an environment, if there is one.
pub(crate) fn head_under(
    alloc: Global,
    table: &Table,
    sig: &Sig,
    env: &Bindings,
    head: &Head,
) -> Result<Option<GroundHead>, OutOfMemory>
    ensures { IfOk result (λ found. found ≡ words.ground_head
        (universe_of table.now sig.now) (environment_of env.now) (plain_head head.now)) }
{
    let Head::Atom {
        symbol,
        args,
        value,
    } = head
    else {
        return Ok(Some(GroundHead::Falsity));
    };
    let left = constant_side(alloc, table, sig, env, *symbol, args.items())?;
    let right = term_side(alloc, table, sig, env, value)?;
    head_of_sides(left, right)
}
