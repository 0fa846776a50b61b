//! Ground laws of parts and of heads, put together one by one.
ghost use Rattle.std.specs.Prelude.{◌≡◌, map, IfOk};
ghost use Rattle.std.specs.Option.{option_map};
ghost use Rattle.cc_arena.specs.GroundViews.{plain_ground_law, plain_ground_laws};
ghost use Rattle.cc_defs.specs.Terms.{postfix};
ghost use Rattle.cc_defs.specs.Terms as ground_terms;
ghost use Rattle.cc_wide.specs.WideGrounds.{plain_wide_ground};
ghost use Rattle.cc_wide_ground.specs.Joining as words;

use cc_arena::{GroundLaw, Terms};
use cc_defs::{Node, OutOfMemory};
use cc_wide::WideGroundLaw;
use std::alloc::Global;

/// The term of `false`.
pub(crate) fn falsehood<'a>(alloc: Global, terms: &Terms<'a>) -> Result<&'a [Node], OutOfMemory>
    ensures { IfOk result (λ term. term.now ≡ postfix ground_terms.Falsehood) }
{
    let mut nodes = Vec::new(alloc);
    nodes.push(Node::False)?;
    terms.place(&nodes)
}

/// The term of a head: of laws that were grounded by their heads only those of `noconcurrency` have an `after` part.
fn head_term<'a>(told: &GroundLaw<'a>, falsehood: &'a [Node]) -> &'a [Node]
    ensures { result.now ≡ words.head_term falsehood.now told.now.body.now
        (option_map (λ nodes. nodes.now) told.now.after) }
{
    match told.after {
        Some(_) => falsehood,
        None => told.body,
    }
}

/// The law with these parts and this head.
fn joined_law<'a>(
    parts: &GroundLaw<'a>,
    told: &GroundLaw<'a>,
    falsehood: &'a [Node],
) -> WideGroundLaw<'a>
    ensures { plain_wide_ground result ≡ words.joined_law falsehood.now
        (plain_ground_law parts.now) (plain_ground_law told.now) }
{
    WideGroundLaw {
        head: head_term(told, falsehood),
        body: parts.body,
        after: parts.after,
        kind: parts.kind,
        base: parts.base,
    }
}

/// The laws of these parts and these heads, in order.
pub(crate) fn joined<'a>(
    alloc: Global,
    laws: &[GroundLaw<'a>],
    heads: &[GroundLaw<'a>],
    falsehood: &'a [Node],
) -> Result<Vec<WideGroundLaw<'a>>, OutOfMemory>
    ensures { IfOk result (λ made. map plain_wide_ground made.items
        ≡ words.joined falsehood.now (plain_ground_laws laws.now) (plain_ground_laws heads.now)) }
{
    let mut made = Vec::new(alloc);
    let count = laws.len().min(heads.len());
    for index in 0..count {
        made.push(joined_law(&laws[index], &heads[index], falsehood))?;
    }
    Ok(made)
}
