//! Readers of laws.
ghost use Rattle.std.specs.Prelude.{◌≡◌, Err, drop, codes, IfOk, List, None, Option, Some};
ghost use Rattle.std.specs.Option.{option_map};
ghost use Rattle.std.specs.Result.{MatchResult};
ghost use Rattle.cc_defs.specs.declared.token.Token as token;
ghost use Rattle.cc_defs.specs.Trees.{PlainTree, PlainLaw, boxed_tree, plain_law, plain_part, plain_term};
ghost use Rattle.cc_defs.specs.Trees as trees;
ghost use Rattle.cc_syntax.specs.Formulas.{formula_at};
ghost use Rattle.cc_syntax.specs.Laws.{caused_at, effect_at, worded_at, acted_at, acting_at, opens_formula as opening, law_at, tested_law_at};
ghost use Rattle.cc_syntax.specs.Readers.{given, word_at, optional_at};
ghost use Rattle.cc_syntax.specs.Terms.{term_at};
ghost use Rattle.cc_syntax.specs.Views.{AreReadable, seen, Reads, Passes};
ghost use Rattle.cc_text.specs.Views.{token_views};

use crate::formulas::formula;
use crate::reading::{beside, made, made_boxed};
use crate::stop::Stop;
use crate::terms::term;
use crate::tokens::{next_token, word};
use crate::words::{is_reserved_word, is_word_of_value};
use cc_defs::{LawTree, Mark, Part, TermTree, Token, TokenKind, Tree};
use std::alloc::Global;

/// `F if G`
type Effect<'s> = (Box<Tree<'s>>, Option<Box<Tree<'s>>>);

/// `F if G after H`
type Caused<'s> = (Effect<'s>, Option<Box<Tree<'s>>>);

/// A law, and its `where` test.
type Tested<'s> = (Box<LawTree<'s>>, Option<Box<Tree<'s>>>);

/// A formula that is there.
fn some_formula<'s>(formula: Box<Tree<'s>>) -> Option<Box<Tree<'s>>>
    ensures { option_map boxed_tree result ≡ Some (boxed_tree formula.entry) }
{
    Some(formula)
}

/// A formula behind the word, if the word is there.
fn optional<'s>(
    alloc: Global,
    tokens: &[Token<'s>],
    at: usize,
    text: &str,
) -> Result<(Option<Box<Tree<'s>>>, usize), Stop>
    requires { AreReadable (token_views tokens.now) }
    ensures { Reads (λ read. option_map boxed_tree read) tokens.now result
        (optional_at formula_at text.now (drop at (seen tokens.now))) }
{
    let Ok(next) = word(tokens, at, text) else {
        return Ok((None, at));
    };
    made(formula(alloc, tokens, next), some_formula)
}

/// What was read, and a formula behind the word, if the word is there. What was read is of any type, so that its drop is one
/// call.
fn optional_behind<'s, K: Drop>(
    alloc: Global,
    tokens: &[Token<'s>],
    read: Result<(K, usize), Stop>,
    text: &str,
) -> Result<((K, Option<Box<Tree<'s>>>), usize), Stop>
    requires { AreReadable (token_views tokens.now) }
    ensures { MatchResult read (λ r. IfOk result (λ both. both.0.0 ≡ r.0)
        × Reads (λ both. option_map boxed_tree both.1) tokens.now result (optional_at
        formula_at text.now (drop r.1 (seen tokens.now)))) (λ stop. result ≡ Err stop) }
{
    let (kept, next) = read?;
    beside(kept, optional(alloc, tokens, next, text))
}

/// `F if G`, for any law that has it behind its word.
#[tactic(auto, unfolding(crate::specs::Laws::effect_at))]
fn effect<'s>(alloc: Global, tokens: &[Token<'s>], at: usize) -> Result<(Effect<'s>, usize), Stop>
    requires { AreReadable (token_views tokens.now) }
    ensures { (make : PlainTree → Option PlainTree → PlainLaw) →
        Reads (λ read. make (boxed_tree read.0) (option_map boxed_tree read.1))
        tokens.now result (effect_at make (drop at (seen tokens.now))) }
{
    optional_behind(alloc, tokens, formula(alloc, tokens, at), "if")
}

/// `F if G after H`, for any law that has it behind its word.
#[tactic(auto, unfolding(crate::specs::Laws::caused_at))]
fn caused<'s>(alloc: Global, tokens: &[Token<'s>], at: usize) -> Result<(Caused<'s>, usize), Stop>
    requires { AreReadable (token_views tokens.now) }
    ensures { (make : PlainTree → Option PlainTree → Option PlainTree → PlainLaw) → Reads (λ read.
        make (boxed_tree read.0.0) (option_map boxed_tree read.0.1) (option_map boxed_tree read.1))
        tokens.now result (caused_at make (drop at (seen tokens.now))) }
{
    let formula = formula(alloc, tokens, at);
    let effect = optional_behind(alloc, tokens, formula, "if");
    optional_behind(alloc, tokens, effect, "after")
}

/// `caused`, with what is behind it.
fn caused_tree<'s>(parts: Caused<'s>) -> LawTree<'s>
    ensures { plain_law result ≡ trees.Caused (boxed_tree parts.entry.0.0)
        (option_map boxed_tree parts.entry.0.1) (option_map boxed_tree parts.entry.1) }
{
    let ((formula, condition), after) = parts;
    LawTree::Caused(formula, condition, after)
}

/// `default`, with what is behind it.
fn default_tree<'s>(parts: Caused<'s>) -> LawTree<'s>
    ensures { plain_law result ≡ trees.Default (boxed_tree parts.entry.0.0)
        (option_map boxed_tree parts.entry.0.1) (option_map boxed_tree parts.entry.1) }
{
    let ((formula, condition), before) = parts;
    LawTree::Default(formula, condition, before)
}

/// `nonexecutable`, with what is behind it.
fn nonexecutable_tree<'s>(parts: Effect<'s>) -> LawTree<'s>
    ensures { plain_law result ≡ trees.Nonexecutable (boxed_tree parts.entry.0)
        (option_map boxed_tree parts.entry.1) }
{
    let (formula, condition) = parts;
    LawTree::Nonexecutable(formula, condition)
}

/// `inertial`, and the constant behind it.
fn inertial<'s>(
    alloc: Global,
    tokens: &[Token<'s>],
    at: usize,
) -> Result<(TermTree<'s>, usize), Stop>
    requires { AreReadable (token_views tokens.now) }
    ensures { Reads plain_term tokens.now result
        (given (word_at (codes "inertial") (drop at (seen tokens.now))) None term_at) }
{
    let next = word(tokens, at, "inertial")?;
    term(alloc, tokens, next)
}

/// A law that begins with its word.
#[tactic(auto, unfolding(crate::specs::Laws::worded_at, crate::specs::Laws::alone_at, crate::specs::Laws::of_term_at))]
fn worded<'s>(
    alloc: Global,
    tokens: &[Token<'s>],
    at: usize,
) -> Result<(Box<LawTree<'s>>, usize), Stop>
    requires { AreReadable (token_views tokens.now) }
    ensures { Reads (λ law. plain_law law.value) tokens.now result (worded_at (drop at (seen tokens.now))) }
{
    if let Ok(next) = word(tokens, at, "caused") {
        return made_boxed(alloc, caused(alloc, tokens, next), caused_tree);
    }
    if let Ok(next) = word(tokens, at, "constraint") {
        return made_boxed(alloc, formula(alloc, tokens, next), LawTree::Constraint);
    }
    if let Ok(next) = word(tokens, at, "always") {
        return made_boxed(alloc, formula(alloc, tokens, next), LawTree::Always);
    }
    if let Ok(next) = word(tokens, at, "nonexecutable") {
        return made_boxed(alloc, effect(alloc, tokens, next), nonexecutable_tree);
    }
    if let Ok(next) = word(tokens, at, "default") {
        return made_boxed(alloc, caused(alloc, tokens, next), default_tree);
    }
    if let Ok(next) = word(tokens, at, "exogenous") {
        return made_boxed(alloc, term(alloc, tokens, next), LawTree::Exogenous);
    }
    made_boxed(alloc, inertial(alloc, tokens, at), LawTree::Inertial)
}

/// `causes`, between an action and its effect.
fn causes_tree<'s>(read: (Box<Tree<'s>>, Effect<'s>)) -> LawTree<'s>
    ensures { plain_law result ≡ trees.Causes (boxed_tree read.entry.0)
        (boxed_tree read.entry.1.0) (option_map boxed_tree read.entry.1.1) }
{
    let (action, (formula, condition)) = read;
    LawTree::Causes(action, formula, condition)
}

/// `may cause`, between an action and its effect.
fn may_cause_tree<'s>(read: (Box<Tree<'s>>, Effect<'s>)) -> LawTree<'s>
    ensures { plain_law result ≡ trees.MayCause (boxed_tree read.entry.0)
        (boxed_tree read.entry.1.0) (option_map boxed_tree read.entry.1.1) }
{
    let (action, (formula, condition)) = read;
    LawTree::MayCause(action, formula, condition)
}

/// `may cause`
fn may_cause_words(tokens: &[Token], at: usize) -> Result<usize, Stop>
    ensures { Passes tokens.now result
        (given (word_at (codes "may") (drop at (seen tokens.now))) None (word_at (codes "cause"))) }
{
    let next = word(tokens, at, "may")?;
    word(tokens, next, "cause")
}

/// What an action does, behind it.
fn acted<'s>(
    alloc: Global,
    tokens: &[Token<'s>],
    at: usize,
    action: Box<Tree<'s>>,
) -> Result<(Box<LawTree<'s>>, usize), Stop>
    requires { AreReadable (token_views tokens.now) }
    ensures { Reads (λ law. plain_law law.value) tokens.now result
        (acted_at (boxed_tree action.entry) (drop at (seen tokens.now))) }
{
    if let Ok(next) = word(tokens, at, "causes") {
        let read = beside(action, effect(alloc, tokens, next));
        return made_boxed(alloc, read, causes_tree);
    }
    if let Ok(next) = may_cause_words(tokens, at) {
        let read = beside(action, effect(alloc, tokens, next));
        return made_boxed(alloc, read, may_cause_tree);
    }
    Err(Stop::NoTree)
}

/// A law that begins with a formula.
#[tactic(auto, unfolding(crate::specs::Laws::acting_at))]
fn acting<'s>(
    alloc: Global,
    tokens: &[Token<'s>],
    at: usize,
) -> Result<(Box<LawTree<'s>>, usize), Stop>
    requires { AreReadable (token_views tokens.now) }
    ensures { Reads (λ law. plain_law law.value) tokens.now result (acting_at (drop at (seen tokens.now))) }
{
    let (action, next) = formula(alloc, tokens, at)?;
    acted(alloc, tokens, next, action)
}

/// Whether a formula may begin here: no law's own word is a name.
fn opens_formula(tokens: &[Token], at: usize) -> bool
    ensures { result ≡ opening (drop at (seen tokens.now)) }
{
    let Some((token, _)) = next_token(tokens, at) else {
        return false;
    };
    match token.kind {
        TokenKind::Mark(Mark::Minus | Mark::LeftParen | Mark::LeftBracket) => true,
        TokenKind::Number => true,
        TokenKind::Word => !is_reserved_word(token.text) || is_word_of_value(token.text),
        _ => false,
    }
}

/// A law, apart from its test; not `noconcurrency`.
fn law<'s>(
    alloc: Global,
    tokens: &[Token<'s>],
    at: usize,
) -> Result<(Box<LawTree<'s>>, usize), Stop>
    requires { AreReadable (token_views tokens.now) }
    ensures { Reads (λ law. plain_law law.value) tokens.now result (law_at (drop at (seen tokens.now))) }
{
    if opens_formula(tokens, at) {
        return acting(alloc, tokens, at);
    }
    worded(alloc, tokens, at)
}

/// `noconcurrency`, read up to the place. It has no test.
fn no_concurrency<'s>(alloc: Global, next: usize) -> Result<(Tested<'s>, usize), Stop>
    ensures { (all : List token.Token) → Reads
        (λ read. trees.Law (plain_law read.0.value) (option_map boxed_tree read.1))
        all result (Some (trees.Law trees.NoConcurrency None, drop next (seen all))) }
{
    let law = Box::new(alloc, LawTree::NoConcurrency)?;
    Ok(((law, None), next))
}

/// A law and its test; `noconcurrency` has none.
#[tactic(auto, unfolding(crate::specs::Laws::tested_law_at))]
fn tested<'s>(alloc: Global, tokens: &[Token<'s>], at: usize) -> Result<(Tested<'s>, usize), Stop>
    requires { AreReadable (token_views tokens.now) }
    ensures { Reads
        (λ read. trees.Law (plain_law read.0.value) (option_map boxed_tree read.1))
        tokens.now result (tested_law_at (drop at (seen tokens.now))) }
{
    if let Ok(next) = word(tokens, at, "noconcurrency") {
        return no_concurrency(alloc, next);
    }
    optional_behind(alloc, tokens, law(alloc, tokens, at), "where")
}

/// A law with its test, as a part.
fn law_part<'s>(read: Tested<'s>) -> Part<'s>
    ensures { plain_part result
        ≡ trees.Law (plain_law read.entry.0.value) (option_map boxed_tree read.entry.1) }
{
    let (law, test) = read;
    Part::Law(law, test)
}

/// A law with its test.
pub(crate) fn tested_law<'s>(
    alloc: Global,
    tokens: &[Token<'s>],
    at: usize,
) -> Result<(Box<Part<'s>>, usize), Stop>
    requires { AreReadable (token_views tokens.now) }
    ensures { Reads (λ part. plain_part part.value) tokens.now result
        (tested_law_at (drop at (seen tokens.now))) }
{
    made_boxed(alloc, tested(alloc, tokens, at), law_part)
}
