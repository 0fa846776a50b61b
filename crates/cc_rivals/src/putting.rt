//! Terms and rules, put into a draft.
ghost use Rattle.std.specs.Prelude.{◌≡◌, ◌≤◌, ℕ, List, [], ◌∷◌, drop, length, IfOk, IfErr, OnOk, IfSome};
ghost use Rattle.std.specs.Option.{option_map};
ghost use Rattle.cc_defs.specs.ClauseForms.{made_of};
ghost use Rattle.cc_defs.specs.ClauseLists.{Asserted};
ghost use Rattle.cc_defs.specs.Clauses.{IsLiteralOver, opposite};
ghost use Rattle.cc_defs.specs.Rows.{IsRow};
ghost use Rattle.cc_form.specs.Drafts.{IsDraft, with_clause};
ghost use Rattle.cc_form.specs.Machine.{IsPast};
ghost use Rattle.cc_form.specs.Parts.{joined_parts};
ghost use Rattle.cc_wide.specs.WideLists.{holds_in, implied, part_holds_in, test_holds};
ghost use Rattle.cc_rivals.specs.Making.{IsPlacedOver, IsRuleOver, term_at, timed_of};
ghost use Rattle.cc_rivals.specs.Putting.{Puts, put_claim, put_denied, put_rule, put_term, with_term};

use crate::timed::{Placed, PlacedRule};
use cc_arena::value;
use cc_defs::{Fault, Lit};
use cc_form::Draft;

/// The literal of a term, whose clauses come behind the others.
fn literal(draft: &mut Draft, term: Placed<'_>) -> Result<Lit, Fault>
    requires { IsPlacedOver draft.old.places term }
    ensures literal { (sizes : List ℕ) (made : Asserted) → IsDraft sizes draft.old made →
        IfOk result (λ literal. literal ≡ (made_of sizes made.last (term_at term.entry)).literal) }
    ensures draft { (sizes : List ℕ) (made : Asserted) → IsDraft sizes draft.old made →
        OnOk result (IsDraft sizes draft.new (with_term sizes made (term_at term.entry))) }
    ensures refused { (sizes : List ℕ) (made : Asserted) → IsDraft sizes draft.old made →
        IfErr result (IsPast (with_term sizes made (term_at term.entry)).last) }
    ensures over { IfOk result (λ literal. IsLiteralOver draft.new.last literal) }
    ensures rises { OnOk result (draft.old.last ≤ draft.new.last) }
    ensures places { OnOk result (draft.new.places ≡ draft.old.places) }
{
    draft.literal(term.nodes, term.first)
}

/// Puts there that a head is true where a literal is.
fn imply_by(draft: &mut Draft, body: Lit, head: Placed<'_>) -> Result<(), Fault>
    requires body { IsLiteralOver draft.old.last body }
    requires head { IsPlacedOver draft.old.places head }
    ensures { Puts draft.old draft.new result (λ sizes made.
        with_clause (with_term sizes made (term_at head.entry)) (opposite body
        ∷ (made_of sizes made.last (term_at head.entry)).literal ∷ [])) }
{
    let told = literal(draft, head)?;
    draft.clause(&[body.opposite(), told])?;
    Ok(())
}

/// Puts there that a head is true where two literals are.
fn imply_by_both(draft: &mut Draft, body: Lit, before: Lit, head: Placed<'_>) -> Result<(), Fault>
    requires body { IsLiteralOver draft.old.last body }
    requires before { IsLiteralOver draft.old.last before }
    requires head { IsPlacedOver draft.old.places head }
    ensures { Puts draft.old draft.new result (λ sizes made.
        with_clause (with_term sizes made (term_at head.entry)) (opposite body ∷ opposite before
        ∷ (made_of sizes made.last (term_at head.entry)).literal ∷ [])) }
{
    let told = literal(draft, head)?;
    draft.clause(&[body.opposite(), before.opposite(), told])?;
    Ok(())
}

/// Puts there that a head is true where a literal is, and an `after` part.
fn imply_after(
    draft: &mut Draft,
    body: Lit,
    after: Placed<'_>,
    head: Placed<'_>,
) -> Result<(), Fault>
    requires body { IsLiteralOver draft.old.last body }
    requires after { IsPlacedOver draft.old.places after }
    requires head { IsPlacedOver draft.old.places head }
    ensures { Puts draft.old draft.new result (λ sizes made.
        with_clause (with_term sizes (with_term sizes made (term_at after.entry))
        (term_at head.entry))
        (opposite body ∷ opposite (made_of sizes made.last (term_at after.entry)).literal
        ∷ (made_of sizes (made_of sizes made.last (term_at after.entry)).last
        (term_at head.entry)).literal ∷ [])) }
{
    let before = literal(draft, after)?;
    imply_by_both(draft, body, before, head)
}

/// Puts there that the head of a rule is true where its parts are.
fn imply(draft: &mut Draft, rule: PlacedRule<'_>) -> Result<(), Fault>
    requires { IsRuleOver draft.old.places rule }
    ensures { Puts draft.old draft.new result (λ sizes made.
        joined_parts made (implied sizes made.last (timed_of rule.entry))) }
{
    let body = literal(draft, rule.body)?;
    match rule.after {
        Some(after) => imply_after(draft, body, after, rule.head),
        None => imply_by(draft, body, rule.head),
    }
}

/// Puts there that a term is true.
pub(crate) fn put(draft: &mut Draft, term: Placed<'_>) -> Result<(), Fault>
    requires { IsPlacedOver draft.old.places term }
    ensures { Puts draft.old draft.new result (λ sizes made.
        put_term sizes made (term_at term.entry)) }
{
    let literal = literal(draft, term)?;
    draft.clause(&[literal])?;
    Ok(())
}

/// Puts there that a term is not true.
pub(crate) fn put_opposite(draft: &mut Draft, term: Placed<'_>) -> Result<(), Fault>
    requires { IsPlacedOver draft.old.places term }
    ensures { Puts draft.old draft.new result (λ sizes made.
        put_denied sizes made (term_at term.entry)) }
{
    let literal = literal(draft, term)?;
    draft.clause(&[literal.opposite()])?;
    Ok(())
}

/// A row from a position on.
fn behind(row: &[u32], first: usize) -> &[u32]
    requires { first ≤ length row.now }
    ensures { result.now ≡ drop first row.now }
{
    &row[first..]
}

/// Whether a term is true in a row.
pub(crate) fn is_true(row: &[u32], term: Placed<'_>) -> bool
    requires { (sizes : List ℕ) × IsRow sizes row.now × IsPlacedOver sizes term }
    ensures { result ≡ holds_in row.now (term_at term.entry) }
{
    value(term.nodes, behind(row, term.first as usize))
}

/// Whether a part that may be missing is true in a row.
fn is_part_true(row: &[u32], part: Option<Placed<'_>>) -> bool
    requires { (sizes : List ℕ) × IsRow sizes row.now × IfSome part (IsPlacedOver sizes) }
    ensures { result ≡ part_holds_in row.now (option_map term_at part.entry) }
{
    match part {
        Some(term) => is_true(row, term),
        None => true,
    }
}

/// Whether a row meets the parts of a rule.
pub(crate) fn meets_parts(row: &[u32], rule: PlacedRule<'_>) -> bool
    requires { (sizes : List ℕ) × IsRow sizes row.now × IsRuleOver sizes rule }
    ensures { result ≡ test_holds row.now (timed_of rule.entry) }
{
    is_true(row, rule.body) && is_part_true(row, rule.after)
}

/// Puts a rule there: without a row that its head is true where its parts are; for a row that its head is, where the row meets
/// its parts.
pub(crate) fn put_rule_of(
    draft: &mut Draft,
    row: Option<&[u32]>,
    rule: PlacedRule<'_>,
) -> Result<(), Fault>
    requires rule { IsRuleOver draft.old.places rule }
    requires row { IfSome row (λ row. IsRow draft.old.places row.now) }
    ensures { Puts draft.old draft.new result (λ sizes made.
        put_rule (option_map (λ row. row.now) row.entry) sizes made (timed_of rule.entry)) }
{
    match row {
        None => imply(draft, rule),
        Some(row) => {
            if meets_parts(row, rule) {
                put(draft, rule.head)
            } else {
                Ok(())
            }
        }
    }
}
