//! A statement's tree.
ghost use Rattle.std.specs.Prelude.{◌≡◌, ◌<◌, ℕ, List as Items, Some, None, Err, codes, drop, false, length, map, IfOk, IfErr, IsFalse};
ghost use Rattle.std.specs.Bool.{then_some};
ghost use Rattle.std.specs.List.{list_any};
ghost use Rattle.cc_defs.specs.declared.refusal.Fault.TheVariants as faults;
ghost use Rattle.cc_defs.specs.declared.token.Mark.TheVariants as marks;
ghost use Rattle.cc_defs.specs.Grammar.{same_text, Spells};
ghost use Rattle.cc_defs.specs.Statements.{IsParsed, begins_directive, is_too_long, token_limit as limit_of, refusal_at};
ghost use Rattle.cc_defs.specs.Trees.{PlainPart, PlainStatement, plain_part, plain_statement, plain_sort_item, plain_obj_item, plain_list_item, plain_const_item, plain_query_item};
ghost use Rattle.cc_defs.specs.Trees as trees;
ghost use Rattle.cc_syntax.specs.Parsing.{HasRefused, directive_at, part_at, nothing_left, statement_at};
ghost use Rattle.cc_syntax.specs.Readers.{given, sign_at, word_at, quoted_at};
ghost use Rattle.cc_syntax.specs.Views.{AreReadable, seen, Reads};
ghost use Rattle.cc_syntax.specs.declared.stop.Stop.TheVariants as stops;
ghost use Rattle.cc_text.specs.Views.{token_views};

use crate::causal_laws::tested_law;
use crate::declarations::{const_items, list_items, obj_items, sort_items};
use crate::queries::query_items;
use crate::reading::made_boxed;
use crate::stop::Stop;
use crate::tokens::{next_token, quoted, sign, word};
use cc_defs::{
    ConstItem, Fault, LimitAt, List, ListItem, Mark, ObjItem, Part, QueryItem, Refusal, SortItem,
    Statement, Token, TokenKind,
};
use std::alloc::Global;

/// Sorts that are declared.
fn sorts_part<'s>(items: Vec<SortItem<'s>>) -> Part<'s>
    ensures { plain_part result ≡ trees.Sorts (map plain_sort_item items.entry.items) }
{
    Part::Sorts(List::of(items))
}

/// Objects that are declared.
fn objects_part<'s>(items: Vec<ObjItem<'s>>) -> Part<'s>
    ensures { plain_part result ≡ trees.Objects (map plain_obj_item items.entry.items) }
{
    Part::Objects(List::of(items))
}

/// Variables that are declared.
fn variables_part<'s>(items: Vec<ListItem<'s>>) -> Part<'s>
    ensures { plain_part result ≡ trees.Variables (map plain_list_item items.entry.items) }
{
    Part::Variables(List::of(items))
}

/// Constants that are declared.
fn constants_part<'s>(items: Vec<ConstItem<'s>>) -> Part<'s>
    ensures { plain_part result ≡ trees.Constants (map plain_const_item items.entry.items) }
{
    Part::Constants(List::of(items))
}

/// A query.
fn query_part<'s>(items: Vec<QueryItem<'s>>) -> Part<'s>
    ensures { plain_part result ≡ trees.Query (map plain_query_item items.entry.items) }
{
    Part::Query(List::of(items))
}

/// `include`, and the name of the file behind it.
fn include<'s>(tokens: &[Token<'s>], at: usize) -> Result<(&'s str, usize), Stop>
    requires { AreReadable (token_views tokens.now) }
    ensures { Reads (λ text. text.now) tokens.now result
        (given (word_at (codes "include") (drop at (seen tokens.now))) None quoted_at) }
{
    let next = word(tokens, at, "include")?;
    quoted(tokens, next)
}

/// What a directive says, behind its `:-`.
#[tactic(auto, unfolding(crate::specs::Parsing::directive_at))]
fn directive<'s>(
    alloc: Global,
    tokens: &[Token<'s>],
    at: usize,
) -> Result<(Box<Part<'s>>, usize), Stop>
    requires { AreReadable (token_views tokens.now) }
    ensures { Reads (λ part. plain_part part.value) tokens.now result (directive_at (drop at (seen tokens.now))) }
{
    if let Ok(next) = word(tokens, at, "sorts") {
        return made_boxed(alloc, sort_items(alloc, tokens, next), sorts_part);
    }
    if let Ok(next) = word(tokens, at, "objects") {
        return made_boxed(alloc, obj_items(alloc, tokens, next), objects_part);
    }
    if let Ok(next) = word(tokens, at, "variables") {
        return made_boxed(alloc, list_items(alloc, tokens, next), variables_part);
    }
    if let Ok(next) = word(tokens, at, "constants") {
        return made_boxed(alloc, const_items(alloc, tokens, next), constants_part);
    }
    if let Ok(next) = word(tokens, at, "query") {
        return made_boxed(alloc, query_items(alloc, tokens, next), query_part);
    }
    made_boxed(alloc, include(tokens, at), Part::Include)
}

/// What a statement says, before its dot.
#[tactic(auto, unfolding(crate::specs::Parsing::part_at))]
fn part<'s>(alloc: Global, tokens: &[Token<'s>], at: usize) -> Result<(Box<Part<'s>>, usize), Stop>
    requires { AreReadable (token_views tokens.now) }
    ensures { Reads (λ part. plain_part part.value) tokens.now result (part_at (drop at (seen tokens.now))) }
{
    if let Ok(next) = sign(tokens, at, Mark::Turn) {
        return directive(alloc, tokens, next);
    }
    tested_law(alloc, tokens, at)
}

/// Whether only the dot of a statement is left.
fn ends(tokens: &[Token], at: usize) -> bool
    ensures { (part : PlainPart) → given (given (sign_at marks.Dot (drop at (seen tokens.now))) None
        (λ rest. Some (part, rest))) None nothing_left ≡ then_some result part }
{
    let Ok(next) = sign(tokens, at, Mark::Dot) else {
        return false;
    };
    next_token(tokens, next).is_none()
}

/// What a whole statement says.
fn whole<'s>(alloc: Global, tokens: &[Token<'s>]) -> Result<Box<Part<'s>>, Stop>
    requires { AreReadable (token_views tokens.now) }
    ensures read { IfOk result (λ part.
        statement_at (seen tokens.now) ≡ Some (plain_part part.value)) }
    ensures none { result ≡ Err stops.NoTree → statement_at (seen tokens.now) ≡ None }
{
    let (part, next) = part(alloc, tokens, 0)?;
    ends(tokens, next).then_some(part).ok_or(Stop::NoTree)
}

/// The word of a directive.
fn directive_word<'s>(tokens: &[Token<'s>]) -> Option<&'s str>
    ensures { (words : Items (Items ℕ)) → begins_directive words (seen tokens.now)
        ≡ given result false (λ text. list_any (same_text text.now) words) }
{
    let Ok(next) = sign(tokens, 0, Mark::Turn) else {
        return None;
    };
    let Some((token, _)) = next_token(tokens, next) else {
        return None;
    };
    match token.kind {
        TokenKind::Word => Some(token.text),
        _ => None,
    }
}

fn token_limit(tokens: &[Token]) -> LimitAt
    ensures { result ≡ limit_of (seen tokens.now) }
{
    match directive_word(tokens) {
        Some("sorts" | "objects" | "variables" | "constants") => LimitAt::DeclarationTokens,
        _ => LimitAt::StatementTokens,
    }
}

/// A refusal without a limit, at the line of the first token.
fn refusal(number: u8, file: u32, tokens: &[Token]) -> Fault
    requires { 0 < length tokens.now }
    ensures { result ≡ faults.Refused (refusal_at number file None (token_views tokens.now)) }
{
    Fault::Refused(Refusal::at(number, file, tokens[0].line))
}

/// More tokens than their limit, at the line of the first.
fn too_long(limit: LimitAt, file: u32, tokens: &[Token]) -> Fault
    requires { 0 < length tokens.now }
    ensures { result ≡ faults.Refused (refusal_at 14 file (Some limit) (token_views tokens.now)) }
{
    Fault::Refused(Refusal::past_at(limit, file, tokens[0].line))
}

/// What a statement says, or why it is refused. It is in a box, since each exit with a large value is dear to prove.
fn said<'s>(alloc: Global, file: u32, tokens: &[Token<'s>]) -> Result<Box<Part<'s>>, Fault>
    requires some { 0 < length tokens.now }
    requires are { AreReadable (token_views tokens.now) }
    ensures read { IfOk result (λ part. IsFalse (is_too_long (seen tokens.now))
        × (statement_at (seen tokens.now) ≡ Some (plain_part part.value))) }
    ensures refused { IfErr result (HasRefused file (token_views tokens.now)) }
{
    let limit = token_limit(tokens);
    if tokens.len() > limit.number() as usize {
        return Err(too_long(limit, file, tokens));
    }
    match whole(alloc, tokens) {
        Ok(part) => Ok(part),
        Err(Stop::NoTree) => Err(refusal(3, file, tokens)),
        Err(Stop::OutOfMemory) => Err(Fault::OutOfMemory),
    }
}

/// The one tree that spells the tokens of a statement, its dot among them; its names are slices of the source. Refuses, at
/// the statement's first line and in this order, what has too many tokens (14, with the limit declaration tokens or
/// statement tokens), and what no tree spells (3). `file` is the number of the file in refusals.
pub fn parse<'s>(alloc: Global, file: u32, tokens: &[Token<'s>]) -> Result<Statement<'s>, Fault>
    requires some { 0 < length tokens.now }
    requires are { AreReadable (token_views tokens.now) }
    ensures parsed { IfOk result (λ tree.
        IsParsed (token_views tokens.now) (plain_statement tree)) }
    ensures one { (other : PlainStatement) →
        Spells other (token_views tokens.now) → IfOk result (λ tree. plain_statement tree ≡ other) }
    ensures refused { IfErr result (HasRefused file (token_views tokens.now)) }
{
    let line = tokens[0].line;
    let part = said(alloc, file, tokens)?;
    Ok(Statement { part, line })
}

/// Lets a statement go.
pub fn discard(_statement: Statement<'_>) {}
