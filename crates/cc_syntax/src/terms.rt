//! Readers of terms and sums.
ghost use Rattle.std.specs.Prelude.{◌≡◌, drop, map, option_map};
ghost use Rattle.cc_defs.specs.Trees.{Summed, plain_piece, plain_sum, plain_term};
ghost use Rattle.cc_syntax.specs.Terms.{plain_addend, addends_of, call_at, leaf_at, additive_at, piece_by, addends_by, sum_by, term_from, term_at, sum_at};
ghost use Rattle.cc_syntax.specs.Views.{AreReadable, seen, Reads};
ghost use Rattle.cc_text.specs.Views.{token_views};

use crate::stop::Stop;
use crate::tokens::{name, next_token, numeral, sign, sign_after};
use crate::words::{is_reserved_word, is_word_of_value};
use cc_defs::{Addend, Mark, Piece, SumTree, TermTree, Token, TokenKind};
use std::alloc::Global;

/// A name and the bracket behind it.
fn call<'s>(tokens: &[Token<'s>], at: usize) -> Result<(&'s str, usize), Stop>
    ensures { Reads (λ text. text.now) tokens.now result (call_at (drop at (seen tokens.now))) }
{
    sign_after(tokens, name(tokens, at), Mark::LeftParen)
}

/// A term without arguments.
#[tactic(auto, using(crate::proofs::Trees::plain_made))]
fn leaf<'s>(alloc: Global, tokens: &[Token<'s>], at: usize) -> Result<(TermTree<'s>, usize), Stop>
    ensures { Reads plain_term tokens.now result (leaf_at (drop at (seen tokens.now))) }
{
    let Some((token, next)) = next_token(tokens, at) else {
        return Err(Stop::NoTree);
    };
    match token.kind {
        TokenKind::Word if !is_reserved_word(token.text) || is_word_of_value(token.text) => Ok((
            TermTree {
                name: token.text,
                args: Vec::new(alloc),
            },
            next,
        )),
        _ => Err(Stop::NoTree),
    }
}

/// The sign before a piece: whether it takes the piece away, and the place behind it.
fn additive(tokens: &[Token], at: usize) -> Option<(bool, usize)>
    ensures { option_map (λ read. (read.0, drop read.1 (seen tokens.now))) result
        ≡ additive_at (drop at (seen tokens.now)) }
{
    let (token, next) = next_token(tokens, at)?;
    match token.kind {
        TokenKind::Mark(Mark::Plus) => Some((false, next)),
        TokenKind::Mark(Mark::Minus) => Some((true, next)),
        _ => None,
    }
}

/// A number, or a term in so many steps.
#[cycle(terms)]
fn piece_within<'s>(
    alloc: Global,
    tokens: &[Token<'s>],
    at: usize,
    steps: usize,
) -> Result<(Piece<'s>, usize), Stop>
    requires { AreReadable (token_views tokens.now) }
    ensures { Reads plain_piece tokens.now result
        (piece_by (term_from steps) (drop at (seen tokens.now))) }
{
    match numeral(tokens, at) {
        Ok((number, next)) => Ok((Piece::Number(number), next)),
        Err(Stop::NoTree) => {
            let (term, next) = term_within(alloc, tokens, at, steps)?;
            Ok((Piece::Name(term), next))
        }
        Err(Stop::OutOfMemory) => Err(Stop::OutOfMemory),
    }
}

/// Pieces behind the first, each with its sign, and terms in so many steps.
#[cycle(terms)]
fn addends_within<'s>(
    alloc: Global,
    tokens: &[Token<'s>],
    at: usize,
    steps: usize,
) -> Result<(Vec<Addend<'s>>, usize), Stop>
    requires { AreReadable (token_views tokens.now) }
    ensures { Reads (λ addends. map plain_addend addends.items) tokens.now result
        (addends_by (term_from steps) (drop at (seen tokens.now))) }
{
    let mut addends = Vec::new(alloc);
    let mut next = at;
    for _ in at..tokens.len() {
        let Some((minus, behind)) = additive(tokens, next) else {
            return Ok((addends, next));
        };
        let (piece, after) = piece_within(alloc, tokens, behind, steps)?;
        addends.push(Addend { minus, piece })?;
        next = after;
    }
    Ok((addends, next))
}

/// A sum, with terms in so many steps.
#[cycle(terms)]
#[tactic(auto, using(crate::proofs::Trees::sum_made))]
fn sum_within<'s>(
    alloc: Global,
    tokens: &[Token<'s>],
    at: usize,
    steps: usize,
) -> Result<(SumTree<'s>, usize), Stop>
    requires { AreReadable (token_views tokens.now) }
    ensures { Reads plain_sum tokens.now result
        (sum_by (term_from steps) (drop at (seen tokens.now))) }
{
    let (first, next) = piece_within(alloc, tokens, at, steps)?;
    let (rest, next) = addends_within(alloc, tokens, next, steps)?;
    Ok((SumTree { first, rest }, next))
}

/// A term, in at most so many steps down into its arguments and on to the next one. A step takes a token, so that as many
/// as there are tokens always do.
#[cycle(terms)]
#[tactic(auto, unfolding(crate::specs::Terms::term_from, crate::specs::Terms::args_from))]
fn term_within<'s>(
    alloc: Global,
    tokens: &[Token<'s>],
    at: usize,
    steps: usize,
) -> Result<(TermTree<'s>, usize), Stop>
    requires { AreReadable (token_views tokens.now) }
    ensures { Reads plain_term tokens.now result (term_from steps (drop at (seen tokens.now))) }
{
    if steps == 0 {
        return Err(Stop::NoTree);
    }
    let (name, mut next) = match call(tokens, at) {
        Ok(call) => call,
        Err(Stop::NoTree) => return leaf(alloc, tokens, at),
        Err(Stop::OutOfMemory) => return Err(Stop::OutOfMemory),
    };
    let mut args = Vec::new(alloc);
    for left in (0..steps - 1).rev() {
        let (arg, after) = sum_within(alloc, tokens, next, left)?;
        args.push(arg)?;
        match sign(tokens, after, Mark::Comma) {
            Ok(behind) => next = behind,
            Err(_) => {
                let end = sign(tokens, after, Mark::RightParen)?;
                return Ok((TermTree { name, args }, end));
            }
        }
    }
    Err(Stop::NoTree)
}

/// A term. An argument's bracket costs nested calls.
pub(crate) fn term<'s>(
    alloc: Global,
    tokens: &[Token<'s>],
    at: usize,
) -> Result<(TermTree<'s>, usize), Stop>
    requires { AreReadable (token_views tokens.now) }
    ensures { Reads plain_term tokens.now result (term_at (drop at (seen tokens.now))) }
{
    term_within(alloc, tokens, at, tokens.len().saturating_sub(at))
}

/// A sum.
pub(crate) fn sum<'s>(
    alloc: Global,
    tokens: &[Token<'s>],
    at: usize,
) -> Result<(SumTree<'s>, usize), Stop>
    requires { AreReadable (token_views tokens.now) }
    ensures { Reads plain_sum tokens.now result (sum_at (drop at (seen tokens.now))) }
{
    sum_within(alloc, tokens, at, tokens.len().saturating_sub(at))
}
