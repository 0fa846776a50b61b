//! Readers of the parts of a query.
ghost use Rattle.std.specs.Prelude.{◌≡◌, drop, map};
ghost use Rattle.cc_defs.specs.declared.token.Mark.TheVariants as marks;
ghost use Rattle.cc_defs.specs.Trees.{PlainQueryItem, plain_tree, plain_query_item};
ghost use Rattle.cc_syntax.specs.Formulas.{formula_at};
ghost use Rattle.cc_syntax.specs.Queries.{condition_at, step_at, stepped_at, range_at, last_at, labelled_at, query_item_at};
ghost use Rattle.cc_syntax.specs.Readers.{listed_at};
ghost use Rattle.cc_syntax.specs.Views.{AreReadable, seen, Reads};
ghost use Rattle.cc_text.specs.Views.{token_views};

use crate::formulas::formula;
use crate::items::{Item, listed};
use crate::stop::Stop;
use crate::tokens::{label, numeral, sign, word};
use cc_defs::{At, List, Mark, QueryItem, Token, Tree};
use std::alloc::Global;

/// Formulas with commas between them.
#[tactic(auto, using(crate::proofs::Lists::listed_steps))]
fn formulas<'s>(
    alloc: Global,
    tokens: &[Token<'s>],
    at: usize,
) -> Result<(Vec<Tree<'s>>, usize), Stop>
    requires { AreReadable (token_views tokens.now) }
    ensures { Reads (λ formulas. map plain_tree formulas.items) tokens.now result
        (listed_at formula_at marks.Comma (drop at (seen tokens.now))) }
{
    let mut formulas = Vec::new(alloc);
    let mut next = at;
    for _ in at..tokens.len() {
        let (item, after) = formula(alloc, tokens, next)?;
        formulas.push(Box::into_inner(item))?;
        match sign(tokens, after, Mark::Comma) {
            Ok(behind) => next = behind,
            Err(_) => return Ok((formulas, after)),
        }
    }
    Err(Stop::NoTree)
}

/// What holds at the step, behind it.
fn condition<'s>(
    alloc: Global,
    tokens: &[Token<'s>],
    at: usize,
    claim: bool,
    step: At,
) -> Result<(QueryItem<'s>, usize), Stop>
    requires { AreReadable (token_views tokens.now) }
    ensures { Reads plain_query_item tokens.now result
        (condition_at claim step (drop at (seen tokens.now))) }
{
    let next = sign(tokens, at, Mark::Colon)?;
    let (parts, next) = formulas(alloc, tokens, next)?;
    let parts = List::of(parts);
    let at = step;
    Ok((QueryItem::Condition { claim, at, parts }, next))
}

/// A step: its number, or the last one.
fn step(tokens: &[Token], at: usize) -> Result<(At, usize), Stop>
    requires { AreReadable (token_views tokens.now) }
    ensures { Reads (λ step. step) tokens.now result (step_at (drop at (seen tokens.now))) }
{
    if let Ok(next) = word(tokens, at, "maxstep") {
        return Ok((At::Last, next));
    }
    let (number, next) = numeral(tokens, at)?;
    Ok((At::Number(number), next))
}

/// A step, and what holds at it.
#[tactic(auto, unfolding(crate::specs::Queries::stepped_at))]
fn stepped<'s>(
    alloc: Global,
    tokens: &[Token<'s>],
    at: usize,
    claim: bool,
) -> Result<(QueryItem<'s>, usize), Stop>
    requires { AreReadable (token_views tokens.now) }
    ensures { Reads plain_query_item tokens.now result
        (stepped_at claim (drop at (seen tokens.now))) }
{
    let (step, next) = step(tokens, at)?;
    condition(alloc, tokens, next, claim, step)
}

/// The least and the greatest horizon: a number for both, or two.
#[tactic(auto, unfolding(crate::specs::Queries::range_at))]
fn range<'s>(tokens: &[Token<'s>], at: usize) -> Result<(QueryItem<'s>, usize), Stop>
    requires { AreReadable (token_views tokens.now) }
    ensures { Reads plain_query_item tokens.now result (range_at (drop at (seen tokens.now))) }
{
    let (lo, next) = numeral(tokens, at)?;
    let Ok(behind) = sign(tokens, next, Mark::DotDot) else {
        return Ok((QueryItem::Range(lo, lo), next));
    };
    let (hi, next) = numeral(tokens, behind)?;
    Ok((QueryItem::Range(lo, hi), next))
}

/// Behind `maxstep`: the horizons, or what holds at the last step.
fn last<'s>(alloc: Global, tokens: &[Token<'s>], at: usize) -> Result<(QueryItem<'s>, usize), Stop>
    requires { AreReadable (token_views tokens.now) }
    ensures { Reads plain_query_item tokens.now result (last_at (drop at (seen tokens.now))) }
{
    if let Ok(next) = sign(tokens, at, Mark::DoubleColon) {
        return range(tokens, next);
    }
    condition(alloc, tokens, at, false, At::Last)
}

/// Behind `label`: the query's name.
fn labelled<'s>(tokens: &[Token<'s>], at: usize) -> Result<(QueryItem<'s>, usize), Stop>
    ensures { Reads plain_query_item tokens.now result (labelled_at (drop at (seen tokens.now))) }
{
    let next = sign(tokens, at, Mark::DoubleColon)?;
    let (text, next) = label(tokens, next)?;
    Ok((QueryItem::Label(text), next))
}

/// A part of a query.
impl<'s> Item<'s> for QueryItem<'s> {
    ghost Plain = { PlainQueryItem };

    ghost plain = { plain_query_item };

    ghost item_at = { query_item_at };

    ghost IsReadOf = { λ tokens. AreReadable (token_views tokens) };

    #[tactic(auto, unfolding(crate::specs::Queries::query_item_at))]
    fn read(alloc: Global, tokens: &[Token<'s>], at: usize) -> Result<(Self, usize), Stop> {
        if let Ok(next) = word(tokens, at, "label") {
            return labelled(tokens, next);
        }
        if let Ok(next) = word(tokens, at, "claim") {
            let next = sign(tokens, next, Mark::DoubleColon)?;
            return stepped(alloc, tokens, next, true);
        }
        if let Ok(next) = word(tokens, at, "maxstep") {
            return last(alloc, tokens, next);
        }
        stepped(alloc, tokens, at, false)
    }
}

/// The parts of a query, with semicolons between them.
pub(crate) fn query_items<'s>(
    alloc: Global,
    tokens: &[Token<'s>],
    at: usize,
) -> Result<(Vec<QueryItem<'s>>, usize), Stop>
    requires { AreReadable (token_views tokens.now) }
    ensures { Reads (λ items. map plain_query_item items.items) tokens.now result
        (listed_at query_item_at marks.Semicolon (drop at (seen tokens.now))) }
{
    listed(alloc, tokens, at, Mark::Semicolon)
}
