//! Readers of single tokens. A reader is passed the tokens and the place where it begins, and answers the place behind
//! what it read.
ghost use Rattle.std.specs.Prelude.{◌≡◌, IsTrue, drop, Err, IfOk};
ghost use Rattle.std.specs.Result.{MatchResult};
ghost use Rattle.cc_defs.specs.Tokens.{is_quoted};
ghost use Rattle.cc_text.specs.Views.{token_views};
ghost use Rattle.cc_syntax.specs.Marks.{same_mark};
ghost use Rattle.cc_syntax.specs.Readers.{sign_at, word_at, name_at, numeral_at, label_at, quoted_at, unquoted};
ghost use Rattle.cc_syntax.specs.Views.{AreReadable, seen, Stands, Reads, Passes, PassesBehind};

use crate::stop::Stop;
use crate::words::is_reserved_word;
use cc_defs::{Mark, Token, TokenKind, number_of_digits};

fn is_mark(mark: Mark, other: Mark) -> bool
    ensures { result ≡ same_mark mark other }
{
    mark == other
}

/// The token at the place, if there is one, and the place behind it.
#[tactic(auto, using(crate::proofs::Places::token_seen, crate::proofs::Places::nothing_seen))]
pub(crate) fn next_token<'s>(tokens: &[Token<'s>], at: usize) -> Option<(Token<'s>, usize)>
    ensures { Stands tokens.now at result }
{
    if at < tokens.len() {
        Some((tokens[at], at + 1))
    } else {
        None
    }
}

/// The mark.
pub(crate) fn sign(tokens: &[Token], at: usize, mark: Mark) -> Result<usize, Stop>
    ensures { Passes tokens.now result (sign_at mark (drop at (seen tokens.now))) }
{
    let Some((token, next)) = next_token(tokens, at) else {
        return Err(Stop::NoTree);
    };
    match token.kind {
        TokenKind::Mark(other) if is_mark(mark, other) => Ok(next),
        _ => Err(Stop::NoTree),
    }
}

/// The mark, while something else is kept: of any type, so that its drop is one call.
pub(crate) fn sign_behind<K: Drop>(
    tokens: &[Token],
    at: usize,
    mark: Mark,
    kept: K,
) -> Result<(K, usize), Stop>
    ensures kept { IfOk result (λ passed. passed.0 ≡ kept) }
    ensures read { PassesBehind tokens.now result (sign_at mark (drop at (seen tokens.now))) }
{
    let next = sign(tokens, at, mark)?;
    Ok((kept, next))
}

/// What was read, and the mark behind it.
pub(crate) fn sign_after<K: Drop>(
    tokens: &[Token],
    read: Result<(K, usize), Stop>,
    mark: Mark,
) -> Result<(K, usize), Stop>
    ensures { MatchResult read (λ r. IfOk result (λ passed. passed.0 ≡ r.0)
        × PassesBehind tokens.now result (sign_at mark (drop r.1 (seen tokens.now))))
        (λ stop. result ≡ Err stop) }
{
    let (kept, next) = read?;
    sign_behind(tokens, next, mark, kept)
}

/// The word.
pub(crate) fn word(tokens: &[Token], at: usize, text: &str) -> Result<usize, Stop>
    ensures { Passes tokens.now result (word_at text.now (drop at (seen tokens.now))) }
{
    let Some((token, next)) = next_token(tokens, at) else {
        return Err(Stop::NoTree);
    };
    match token.kind {
        TokenKind::Word if token.text == text => Ok(next),
        _ => Err(Stop::NoTree),
    }
}

/// A name.
pub(crate) fn name<'s>(tokens: &[Token<'s>], at: usize) -> Result<(&'s str, usize), Stop>
    ensures { Reads (λ text. text.now) tokens.now result (name_at (drop at (seen tokens.now))) }
{
    let Some((token, next)) = next_token(tokens, at) else {
        return Err(Stop::NoTree);
    };
    match token.kind {
        TokenKind::Word if !is_reserved_word(token.text) => Ok((token.text, next)),
        _ => Err(Stop::NoTree),
    }
}

/// A number.
pub(crate) fn numeral(tokens: &[Token], at: usize) -> Result<(u32, usize), Stop>
    requires { AreReadable (token_views tokens.now) }
    ensures { Reads (λ n. n) tokens.now result (numeral_at (drop at (seen tokens.now))) }
{
    let Some((token, next)) = next_token(tokens, at) else {
        return Err(Stop::NoTree);
    };
    match token.kind {
        TokenKind::Number => Ok((number_of_digits(token.text), next)),
        _ => Err(Stop::NoTree),
    }
}

/// A label: a name or a number.
pub(crate) fn label<'s>(tokens: &[Token<'s>], at: usize) -> Result<(&'s str, usize), Stop>
    ensures { Reads (λ text. text.now) tokens.now result (label_at (drop at (seen tokens.now))) }
{
    let Some((token, next)) = next_token(tokens, at) else {
        return Err(Stop::NoTree);
    };
    match token.kind {
        TokenKind::Word if !is_reserved_word(token.text) => Ok((token.text, next)),
        TokenKind::Number => Ok((token.text, next)),
        _ => Err(Stop::NoTree),
    }
}

/// What stands between the quotes.
fn between_quotes<'s>(text: &'s str) -> &'s str
    requires { IsTrue (is_quoted text.now) }
    ensures { result.now ≡ unquoted text.now }
{
    &text[1..text.len() - 1]
}

/// A name in quotes, without them.
pub(crate) fn quoted<'s>(tokens: &[Token<'s>], at: usize) -> Result<(&'s str, usize), Stop>
    requires { AreReadable (token_views tokens.now) }
    ensures { Reads (λ text. text.now) tokens.now result (quoted_at (drop at (seen tokens.now))) }
{
    let Some((token, next)) = next_token(tokens, at) else {
        return Err(Stop::NoTree);
    };
    match token.kind {
        TokenKind::Quoted => Ok((between_quotes(token.text), next)),
        _ => Err(Stop::NoTree),
    }
}
