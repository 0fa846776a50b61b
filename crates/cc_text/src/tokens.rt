//! The tokens of a text, cut into statements.
ghost use Rattle.std.specs.Prelude.{◌≡◌, List, ℕ, ◌≤◌, ◌<◌, [], ◌∷◌, ◌-◌, length, take, drop, slice_index, map, IfOk, IfErr, slice_index_or};
ghost use Rattle.cc_defs.specs.Tokens.{is_dot, first_line, AreTokens, IsCut, IsShort, statements};
ghost use Rattle.cc_text.specs.Views.{token_view, token_views, cut_at, AreEnds};
ghost use Rattle.cc_text.specs.Reading.{HasRead, HasStopped, HasTokens};

use crate::scanner::{Step, behind, step_of};
use cc_defs::{Fault, Token};
use std::alloc::{AllocError, Global};
use std::marker::Model;

/// The tokens of a text, in order, and where each statement ends.
#[derive(Drop)]
pub struct Tokens<'s> {
    tokens: Vec<Token<'s>>,
    /// For each statement the place behind its last token.
    ends: Vec<usize>,
}

impl<'s> Model for Tokens<'s> {
    ghost use Rattle.std.specs.Prelude.{List, length};
    ghost use Rattle.cc_defs.specs.Tokens.{TokenView};

    ghost Value = { List (List TokenView) };

    ghost use Rattle.cc_text.specs.Views.{token_views, cut_at, AreEnds};

    ghost view = { λ a. cut_at 0 a.ends.items (token_views a.tokens.items) };

    ghost invariant = { λ a. AreEnds 0 a.ends.items (length a.tokens.items) };
}

fn is_dot_token(token: &Token) -> bool
    ensures { result ≡ is_dot (token_view token.now) }
{
    token.text == "."
}

/// The tokens of a text.
fn tokens_of<'s>(alloc: Global, file: u32, bytes: &'s [u8]) -> Result<Vec<Token<'s>>, Fault>
    requires { length bytes.now ≤ 268435456 }
    ensures read { IfOk result (λ tokens. HasTokens bytes.now (token_views tokens.items)) }
    ensures refused { IfErr result (HasStopped file bytes.now) }
{
    let mut tokens = Vec::new(alloc);
    let mut line = 1;
    let mut rest = bytes;
    loop {
        match step_of(file, line, rest) {
            Step::End => return Ok(tokens),
            Step::Stops(refusal) => return Err(Fault::Refused(refusal)),
            Step::Goes(token, count) => {
                tokens.push(token)?;
                line = token.line;
                rest = behind(rest, count);
            }
        }
    }
}

/// The place behind the last token of each statement.
fn ends_of(alloc: Global, tokens: &[Token]) -> Result<Vec<usize>, AllocError>
    requires { length tokens.now ≤ 268435456 }
    ensures cut { IfOk result (λ ends.
        cut_at 0 ends.items (token_views tokens.now) ≡ statements (token_views tokens.now)) }
    ensures within { IfOk result (λ ends. AreEnds 0 ends.items (length tokens.now)) }
{
    let mut ends = Vec::new(alloc);
    let mut begun = 0;
    for (i, token) in tokens.iter().enumerate() {
        if !is_dot_token(token) {
            continue;
        }
        begun = i + 1;
        ends.push(begun)?;
    }
    if begun < tokens.len() {
        ends.push(tokens.len())?;
    }
    Ok(ends)
}

/// The tokens from one place to before the other.
fn between<'a, 's>(tokens: &'a [Token<'s>], from: usize, to: usize) -> &'a [Token<'s>]
    requires ordered { from ≤ to }
    requires within { to ≤ length tokens.now }
    ensures { result.now ≡ take (to - from) (drop from tokens.now) }
{
    &tokens[from..to]
}

/// The place where a statement begins.
fn begin_of(ends: &[usize], i: usize) -> usize
    requires { i < length ends.now }
    ensures { result ≡ slice_index (0 ∷ ends.now) i }
{
    if i == 0 { 0 } else { ends[i - 1] }
}

/// The tokens of a statement, of which there is one at least.
fn part<'a, 's>(tokens: &'a [Token<'s>], ends: &[usize], i: usize) -> &'a [Token<'s>]
    requires ordered { AreEnds 0 ends.now (length tokens.now) }
    requires within { i < length ends.now }
    ensures tokens { token_views result.now
        ≡ slice_index_or (cut_at 0 ends.now (token_views tokens.now)) i [] }
    ensures some { 0 < length result.now }
{
    between(tokens, begin_of(ends, i), ends[i])
}

impl<'s> Tokens<'s> {
    /// The tokens of a text: each is the longest at its place, and only space and comments stand between them.
    /// Refuses the first place where no token begins (2), or the first token that is too long (14, with the limit token
    /// bytes or number digits), whichever comes first, with its line. `file` is the number of the file in refusals.
    pub fn read(alloc: Global, file: u32, bytes: &'s [u8]) -> Result<Tokens<'s>, Fault>
        requires { length bytes.now ≤ 268435456 }
        ensures read { IfOk result (HasRead bytes.now) }
        ensures refused { IfErr result (HasStopped file bytes.now) }
    {
        let tokens = tokens_of(alloc, file, bytes)?;
        let ends = ends_of(alloc, &tokens)?;
        Ok(Tokens { tokens, ends })
    }

    /// How many statements there are. A statement is the tokens up to and with a `.`; what follows the last one is a
    /// last statement.
    pub fn count(&self) -> usize
        ensures { result ≡ length self.now }
    {
        let ends: &[usize] = &self.ends;
        ends.len()
    }

    /// The tokens of a statement. Each has one at least, and those of a text that was read are of their kinds and short.
    pub fn statement(&self, i: usize) -> &[Token<'s>]
        requires { i < length self.now }
        ensures tokens { token_views result.now ≡ slice_index_or self.now i [] }
        ensures some { 0 < length result.now }
        ensures are { (text : List ℕ) → HasRead text self.now → AreTokens (token_views result.now) }
    {
        part(&self.tokens, &self.ends, i)
    }

    /// The line of a statement's first token.
    pub fn line(&self, i: usize) -> u32
        requires { i < length self.now }
        ensures { result ≡ first_line (slice_index_or self.now i []) }
    {
        self.statement(i)[0].line
    }
}
