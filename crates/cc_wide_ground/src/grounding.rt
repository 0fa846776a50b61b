//! The ground laws of laws with heads of any form: their parts and their heads are grounded one after the other, over the same
//! instances.
ghost use Rattle.std.specs.Prelude.{◌≡◌, ◌+◌, List as Items, None, length, map, min, IfOk, IfErr, OnOk};
ghost use Rattle.std.specs.Option.{option_map};
ghost use Rattle.cc_defs.specs.Declarations.{Declaration, symbols};
ghost use Rattle.cc_defs.specs.Refusals.{IsRefusedBy};
ghost use Rattle.cc_defs.specs.Resolved.{plain_base_law};
ghost use Rattle.cc_defs.specs.Universe.{universe};
ghost use Rattle.cc_ground.specs.Counting.{length_of_part};
ghost use Rattle.cc_sorts.specs.Tables.{IsSignatureFor, IsSignatureOf, IsTable};
ghost use Rattle.cc_wide.specs.WideForms.{AreWideGroundLaws, HaveWideForms};
ghost use Rattle.cc_wide.specs.WideGrounds.{plain_wide_ground, wide_ground_of};
ghost use Rattle.cc_wide.specs.WideLaws.{plain_wide_base};
ghost use Rattle.cc_wide.specs.WideRules.{wide_instances_from};
ghost use Rattle.cc_wide_ground.specs.WideGrounding.{counts_refusal, wide_laws_refusal, wide_nodes_in};

use crate::bases::{Share, bases_of_share};
use crate::joining::{falsehood, joined};
use cc_arena::Terms;
use cc_arena::theorems::{fluent_terms_fit, ground_laws_fit, heads_there_are_ground};
use cc_defs::{BaseLaws, Fault, LimitAt, Node, Refusal, Sig};
use cc_ground::theorems::{declared_have_their_kinds, declared_have_their_values};
use cc_ground::{count_choices, count_instances, ground_within};
use cc_sorts::Table;
use cc_wide::{WideGround, WideGroundLaw, WideLaws};
use std::alloc::Global;

/// What counts stop at: one more than the limits of choices and of ground nodes.
const MANY: usize = 16_000_001;

/// The sum of two counts.
fn with(count: usize, more: usize) -> usize
    ensures { result ≡ min (count + more) 16000001 }
{
    count.saturating_add(more).min(MANY)
}

/// Refuses too many instances, and then too many lists of values of the parts and of the heads together.
fn within_counts(
    alloc: Global,
    table: &Table,
    sig: &Sig,
    frames: &BaseLaws,
    heads: &BaseLaws,
) -> Result<(), Fault>
    requires { IsSignatureFor table.now sig.now }
    ensures unrefused { (declarations : Items Declaration) → IsTable table.now declarations →
        IsSignatureOf declarations sig.now → OnOk result (counts_refusal (universe declarations)
        (map plain_base_law frames.now) (map plain_base_law heads.now) ≡ None) }
    ensures refused { (declarations : Items Declaration) → IsTable table.now declarations →
        IsSignatureOf declarations sig.now → IfErr result (IsRefusedBy (counts_refusal
        (universe declarations) (map plain_base_law frames.now) (map plain_base_law heads.now))) }
{
    if count_instances(alloc, table, sig, frames)? > LimitAt::LawInstances.number() as usize {
        return Err(Fault::Refused(Refusal::past(LimitAt::LawInstances)));
    }
    let of_parts = count_choices(alloc, table, sig, frames)?;
    let of_heads = count_choices(alloc, table, sig, heads)?;
    if with(of_parts, of_heads) > LimitAt::Choices.number() as usize {
        return Err(Fault::Refused(Refusal::past(LimitAt::Choices)));
    }
    Ok(())
}

/// How many nodes a part has that may be missing.
fn part_nodes(part: Option<&[Node]>) -> usize
    ensures { result ≡ length_of_part (option_map (λ nodes. nodes.now) part.entry) }
{
    match part {
        Some(nodes) => nodes.len(),
        None => 0,
    }
}

/// A count with the nodes of a law: of its head and of its parts.
fn with_law(count: usize, law: &WideGroundLaw<'_>) -> usize
    ensures { result ≡ min (count + length law.now.head.now + length law.now.body.now
        + length_of_part (option_map (λ nodes. nodes.now) law.now.after)) 16000001 }
{
    with(
        with(with(count, law.head.len()), law.body.len()),
        part_nodes(law.after),
    )
}

/// How many nodes the terms of laws have, counted up to one more than the limit.
fn node_count(laws: &[WideGroundLaw<'_>]) -> usize
    ensures { result ≡ min (wide_nodes_in (map plain_wide_ground laws.now)) 16000001 }
{
    let mut count = 0;
    for law in laws {
        count = with_law(count, law);
    }
    count
}

/// The ground laws of laws with heads of any form: for each law in order, and each instance of it in order, the instance's law,
/// with the term of its head beside those of its parts. Which instances a law has is said of `ground`; its head has to be there
/// only where it is one definite atom. `noconcurrency` has one for each two Boolean actions, with the head `false`. Terms are placed
/// in the arena. Ground laws of laws that have the forms of their kinds have these forms too. Refuses as `ground` does, where heads
/// count beside the parts: more than 1,000,000 lists of values before the tests (14, law instances), then more than 16,000,000 lists
/// of values of the constants of equations with sums and of comparisons (14, choices), then more than 16,000,000 nodes (14, ground
/// nodes).
pub fn ground_wide<'a>(
    alloc: Global,
    table: &Table,
    sig: &Sig,
    laws: &WideLaws,
    terms: &Terms<'a>,
) -> Result<WideGround<'a>, Fault>
    requires { IsSignatureFor table.now sig.now }
    ensures made { (declarations : Items Declaration) → IsTable table.now declarations →
        IsSignatureOf declarations sig.now → IfOk result (λ made. map plain_wide_ground made
        ≡ map (wide_ground_of (universe declarations))
        (wide_instances_from (universe declarations) 0 (map plain_wide_base laws.now))) }
    ensures unrefused { (declarations : Items Declaration) → IsTable table.now declarations →
        IsSignatureOf declarations sig.now → OnOk result
        (wide_laws_refusal (universe declarations) (map plain_wide_base laws.now) ≡ None) }
    ensures refused { (declarations : Items Declaration) → IsTable table.now declarations →
        IsSignatureOf declarations sig.now → IfErr result (IsRefusedBy
        (wide_laws_refusal (universe declarations) (map plain_wide_base laws.now))) }
    ensures fits { (declarations : Items Declaration) → IsTable table.now declarations →
        IsSignatureOf declarations sig.now →
        HaveWideForms (symbols declarations) (map plain_wide_base laws.now) →
        IfOk result (λ made.
        AreWideGroundLaws (universe declarations) (map plain_wide_ground made)) }
{
    declared_have_their_kinds();
    declared_have_their_values();
    fluent_terms_fit();
    ground_laws_fit();
    heads_there_are_ground();
    let frames = bases_of_share(alloc, Share::Parts, laws.items())?;
    let told = bases_of_share(alloc, Share::Head, laws.items())?;
    within_counts(alloc, table, sig, &frames, &told)?;
    let parts = ground_within(alloc, table, sig, &frames, terms)?;
    let heads = ground_within(alloc, table, sig, &told, terms)?;
    let falsehood = falsehood(alloc, terms)?;
    let made = joined(alloc, parts.laws(), heads.laws(), falsehood)?;
    if node_count(&made) > LimitAt::GroundNodes.number() as usize {
        return Err(Fault::Refused(Refusal::past(LimitAt::GroundNodes)));
    }
    Ok(WideGround::of(made))
}
