//! The operators of formulas, a table of their strengths, and the signs of comparisons.
ghost use Rattle.std.specs.Prelude.{◌≡◌, drop, option_map};
ghost use Rattle.cc_defs.specs.Trees.{plain_sum, plain_tree};
ghost use Rattle.cc_defs.specs.Trees as trees;
ghost use Rattle.cc_syntax.specs.Operators.{operator_at, strength, left_strength, joined, compared_as, comparison_at};
ghost use Rattle.cc_syntax.specs.Views.{seen};

use crate::tokens::next_token;
use cc_defs::{Mark, SumTree, Token, TokenKind, Tree};

/// An operator between two formulas. The strength of one that binds less is greater: `&` groups first, `<->` last.
#[derive(Clone, Copy)]
pub(crate) enum Operator {
    /// `&`
    Both,
    /// `++`
    Either,
    /// `->>`
    Implies,
    /// `<->`
    Same,
}

impl Operator {
    /// The strength of the formula that the operator makes.
    pub(crate) fn strength(self) -> u8
        ensures { result ≡ strength self }
    {
        match self {
            Operator::Both => 1,
            Operator::Either => 2,
            Operator::Implies => 3,
            Operator::Same => 4,
        }
    }

    /// The greatest strength of its left operand. All but `->>` group to the left.
    pub(crate) fn left_strength(self) -> u8
        ensures { result ≡ left_strength self }
    {
        match self {
            Operator::Both => 1,
            Operator::Either | Operator::Implies => 2,
            Operator::Same => 4,
        }
    }

    /// The formula that it makes of its operands.
    pub(crate) fn joined<'s>(self, left: Box<Tree<'s>>, right: Box<Tree<'s>>) -> Tree<'s>
        ensures { plain_tree result
            ≡ joined self (plain_tree left.entry.value) (plain_tree right.entry.value) }
    {
        match self {
            Operator::Both => return Tree::Both(left, right),
            Operator::Either => return Tree::Either(left, right),
            Operator::Implies => return Tree::Implies(left, right),
            Operator::Same => return Tree::Same(left, right),
        }
    }
}

/// The operator at the place, and the place behind it.
pub(crate) fn next_operator(tokens: &[Token], at: usize) -> Option<(Operator, usize)>
    ensures { option_map (λ read. (read.0, drop read.1 (seen tokens.now))) result
        ≡ operator_at (drop at (seen tokens.now)) }
{
    let (token, next) = next_token(tokens, at)?;
    match token.kind {
        TokenKind::Mark(Mark::And) => Some((Operator::Both, next)),
        TokenKind::Mark(Mark::Or) => Some((Operator::Either, next)),
        TokenKind::Mark(Mark::Arrow) => Some((Operator::Implies, next)),
        TokenKind::Mark(Mark::DoubleArrow) => Some((Operator::Same, next)),
        _ => None,
    }
}

/// The sign of a comparison.
#[derive(Clone, Copy)]
pub(crate) enum Comparing {
    /// `=`
    Equal,
    /// `\=`
    Differ,
    /// `<`
    Less,
    /// `=<`
    AtMost,
    /// `>`
    More,
    /// `>=`
    AtLeast,
}

impl Comparing {
    /// The formula that it makes of its sums.
    pub(crate) fn compared<'s>(self, left: Box<SumTree<'s>>, right: Box<SumTree<'s>>) -> Tree<'s>
        ensures { plain_tree result ≡ trees.Compared
            (compared_as self) (plain_sum left.entry.value) (plain_sum right.entry.value) }
    {
        match self {
            Comparing::Equal => return Tree::Equal(left, right),
            Comparing::Differ => return Tree::Differ(left, right),
            Comparing::Less => return Tree::Less(left, right),
            Comparing::AtMost => return Tree::AtMost(left, right),
            Comparing::More => return Tree::More(left, right),
            Comparing::AtLeast => return Tree::AtLeast(left, right),
        }
    }
}

/// The sign of a comparison at the place, and the place behind it.
pub(crate) fn next_comparison(tokens: &[Token], at: usize) -> Option<(Comparing, usize)>
    ensures { option_map (λ read. (compared_as read.0, drop read.1 (seen tokens.now))) result
        ≡ comparison_at (drop at (seen tokens.now)) }
{
    let (token, next) = next_token(tokens, at)?;
    match token.kind {
        TokenKind::Mark(Mark::Equal) => Some((Comparing::Equal, next)),
        TokenKind::Mark(Mark::NotEqual) => Some((Comparing::Differ, next)),
        TokenKind::Mark(Mark::Less) => Some((Comparing::Less, next)),
        TokenKind::Mark(Mark::AtMost) => Some((Comparing::AtMost, next)),
        TokenKind::Mark(Mark::More) => Some((Comparing::More, next)),
        TokenKind::Mark(Mark::AtLeast) => Some((Comparing::AtLeast, next)),
        _ => None,
    }
}
