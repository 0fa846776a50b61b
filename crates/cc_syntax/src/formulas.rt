//! Readers of formulas. What is open is held in a list, so that no sign, bracket or operator costs a nested call.
ghost use Rattle.std.specs.Prelude.{◌≡◌, suc, List, ◌∷◌, length, drop, map, option_map, Some};
ghost use Rattle.cc_defs.specs.declared.token.Token as token;
ghost use Rattle.cc_syntax.specs.declared.frames.Frame.{Frame};
ghost use Rattle.cc_defs.specs.Trees.{Summed, plain_piece, plain_sum, plain_term, plain_tree};
ghost use Rattle.cc_defs.specs.declared.token.Mark.TheVariants as marks;
ghost use Rattle.cc_defs.specs.Trees as trees;
ghost use Rattle.cc_syntax.specs.Formulas.{plain_frame, plain_opening, stack, filled, closed, frame_at, bound_of, has_more as HasMore, alone_of, side_at, bare_at, atom_at, begun, shut, gone_on, run_from, Wants, formula_at};
ghost use Rattle.cc_syntax.specs.Operators.{compared_as};
ghost use Rattle.cc_syntax.specs.Readers.{name_at, sign_at, ◌◁◌};
ghost use Rattle.cc_syntax.specs.Terms.{plain_addend, addends_of, sum_at};
ghost use Rattle.cc_syntax.specs.Turns.{Turns, plain_turn, turn_of};
ghost use Rattle.cc_syntax.specs.Views.{AreReadable, seen, Reads};
ghost use Rattle.cc_text.specs.Views.{token_views};

use crate::frames::{Frame, Frames, Opening, close};
use crate::operators::{Comparing, Operator, next_comparison, next_operator};
use crate::reading::made;
use crate::stop::Stop;
use crate::terms::sum;
use crate::tokens::{name, sign, sign_after};
use cc_defs::{Addend, Mark, Piece, SumTree, TermTree, Token, Tree};
use smallvec::SmallVec;
use std::alloc::Global;

/// The strength of a whole formula: no operator's is greater.
const WHOLE: u8 = 4;

/// Where the reading of a formula is.
#[derive(Drop)]
enum Turn<'s> {
    /// An operand is wanted at the place.
    Wants(usize),
    /// An operand was read up to the place.
    Has(Box<Tree<'s>>, usize),
    /// The formula was read up to the place.
    Ends(Box<Tree<'s>>, usize),
}

/// A variable and the bar behind it.
fn variable<'s>(tokens: &[Token<'s>], at: usize) -> Result<(&'s str, usize), Stop>
    ensures { Reads (λ text. text.now) tokens.now result
        ((name_at ◁ sign_at marks.Bar) (drop at (seen tokens.now))) }
{
    sign_after(tokens, name(tokens, at), Mark::Bar)
}

/// A sign or a bracket before an operand.
fn opening<'s>(tokens: &[Token<'s>], at: usize) -> Result<(Opening<'s>, usize), Stop>
    ensures { Reads plain_opening tokens.now result (frame_at (drop at (seen tokens.now))) }
{
    if let Ok(next) = sign(tokens, at, Mark::Minus) {
        return Ok((Opening::Not, next));
    }
    if let Ok(next) = sign(tokens, at, Mark::LeftParen) {
        return Ok((Opening::Paren, next));
    }
    let next = sign(tokens, at, Mark::LeftBracket)?;
    if let Ok(next) = sign(tokens, next, Mark::AllSign) {
        return made(variable(tokens, next), Opening::ForAll);
    }
    let next = sign(tokens, next, Mark::AnySign)?;
    made(variable(tokens, next), Opening::Exists)
}

/// Whether a sum has pieces behind its first.
#[tactic(auto, using(crate::proofs::Trees::more_seen))]
fn has_more(rest: &[Addend]) -> bool
    ensures { result ≡ HasMore (addends_of (map plain_addend rest.now)) }
{
    !rest.is_empty()
}

/// The term that a sum is, where it has one piece and this is no number.
#[tactic(auto, using(crate::proofs::Trees::sum_parts))]
fn alone<'s>(sum: SumTree<'s>) -> Option<TermTree<'s>>
    ensures { option_map plain_term result ≡ alone_of (plain_sum sum.entry) }
{
    let SumTree { first, rest } = sum;
    if has_more(&rest) {
        return None;
    }
    match first {
        Piece::Name(term) => Some(term),
        Piece::Number(_) => None,
    }
}

/// A term alone, that was read as a sum.
fn bare<'s>(tokens: &[Token<'s>], sum: SumTree<'s>, at: usize) -> Result<(Tree<'s>, usize), Stop>
    ensures { Reads plain_tree tokens.now result
        (bare_at (plain_sum sum.entry) (drop at (seen tokens.now))) }
{
    match alone(sum) {
        Some(term) => Ok((Tree::Bare(term), at)),
        None => Err(Stop::NoTree),
    }
}

/// A comparison, behind its sign.
fn compared<'s>(
    alloc: Global,
    tokens: &[Token<'s>],
    at: usize,
    comparing: Comparing,
    left: SumTree<'s>,
) -> Result<(Tree<'s>, usize), Stop>
    requires { AreReadable (token_views tokens.now) }
    ensures { Reads plain_tree tokens.now result
        (side_at (compared_as comparing) (plain_sum left.entry) (drop at (seen tokens.now))) }
{
    let left = Box::new(alloc, left)?;
    let (right, next) = sum(alloc, tokens, at)?;
    let right = Box::new(alloc, right)?;
    Ok((comparing.compared(left, right), next))
}

/// Two sums with the sign of a comparison between them, or a term alone.
#[tactic(auto, unfolding(crate::specs::Formulas::atom_at))]
fn atom<'s>(alloc: Global, tokens: &[Token<'s>], at: usize) -> Result<(Tree<'s>, usize), Stop>
    requires { AreReadable (token_views tokens.now) }
    ensures { Reads plain_tree tokens.now result (atom_at (drop at (seen tokens.now))) }
{
    let (left, next) = sum(alloc, tokens, at)?;
    match next_comparison(tokens, next) {
        Some((comparing, behind)) => compared(alloc, tokens, behind, comparing, left),
        None => bare(tokens, left, next),
    }
}

/// Opens a frame before the place, where its operand is wanted.
fn opened<'s>(frames: &mut Frames<'s>, frame: Frame<'s>, next: usize) -> Result<Turn<'s>, Stop>
    ensures { (all : List token.Token) → Turns all frames.new.items result
        (Some (plain_frame frame.entry ∷ stack frames.old.items, Wants (drop next (seen all)))) }
{
    frames.push(frame)?;
    Ok(Turn::Wants(next))
}

/// An operand is wanted: opens a frame, or reads an atom.
#[tactic(auto, unfolding(crate::specs::Formulas::begun))]
fn begin<'s>(
    alloc: Global,
    tokens: &[Token<'s>],
    frames: &mut Frames<'s>,
    at: usize,
) -> Result<Turn<'s>, Stop>
    requires { AreReadable (token_views tokens.now) }
    ensures { Turns tokens.now frames.new.items result
        (begun (stack frames.old.items) (drop at (seen tokens.now))) }
{
    match opening(tokens, at) {
        Ok((opening, next)) => opened(frames, Frame::Opened(opening), next),
        Err(Stop::NoTree) => {
            let (tree, next) = atom(alloc, tokens, at)?;
            let tree = Box::new(alloc, tree)?;
            Ok(Turn::Has(tree, next))
        }
        Err(Stop::OutOfMemory) => Err(Stop::OutOfMemory),
    }
}

/// The bracket that closes a frame, and the frame with its operand.
fn shut_frame<'s>(
    alloc: Global,
    tokens: &[Token<'s>],
    frame: Frame<'s>,
    tree: Box<Tree<'s>>,
    at: usize,
) -> Result<Turn<'s>, Stop>
    ensures { (frames : List Frame) → Turns tokens.now frames result (shut (
      plain_frame frame.entry
          ∷ stack frames,
      plain_tree tree.entry.value,
    ) (drop at (seen tokens.now))) }
{
    let next = sign(tokens, at, frame.closing())?;
    let tree = frame.filled(alloc, tree)?;
    Ok(Turn::Has(tree, next))
}

/// No operator follows an operand: it is the formula, or its bracket closes the innermost frame.
fn shut_innermost<'s>(
    alloc: Global,
    tokens: &[Token<'s>],
    frames: &mut Frames<'s>,
    tree: Box<Tree<'s>>,
    at: usize,
) -> Result<Turn<'s>, Stop>
    ensures { Turns tokens.now frames.new.items result
        (shut (stack frames.old.items, plain_tree tree.entry.value) (drop at (seen tokens.now))) }
{
    match frames.pop() {
        None => Ok(Turn::Ends(tree, at)),
        Some(frame) => shut_frame(alloc, tokens, frame, tree, at),
    }
}

/// The greatest strength of an operand before the operator, or before no operator.
fn bound(operator: Option<(Operator, usize)>) -> u8
    ensures { result ≡ bound_of (option_map (λ read. read.0) operator) }
{
    match operator {
        Some((operator, _)) => operator.left_strength(),
        None => WHOLE,
    }
}

/// An operand was read: it is the left operand of the operator that follows, or no operator follows.
#[tactic(auto, unfolding(crate::specs::Formulas::gone_on))]
fn go_on<'s>(
    alloc: Global,
    tokens: &[Token<'s>],
    frames: &mut Frames<'s>,
    tree: Box<Tree<'s>>,
    at: usize,
) -> Result<Turn<'s>, Stop>
    ensures { Turns tokens.now frames.new.items result
        (gone_on (stack frames.old.items) (plain_tree tree.entry.value) (drop at (seen tokens.now))) }
{
    let operator = next_operator(tokens, at);
    let whole = close(alloc, frames, tree, bound(operator))?;
    match operator {
        Some((operator, next)) => opened(frames, Frame::Left(operator, whole), next),
        None => shut_innermost(alloc, tokens, frames, whole, at),
    }
}

/// The next turn; there is none where the formula ended.
fn turned<'s>(
    alloc: Global,
    tokens: &[Token<'s>],
    frames: &mut Frames<'s>,
    turn: Turn<'s>,
) -> Result<Turn<'s>, Stop>
    requires { AreReadable (token_views tokens.now) }
    ensures { Turns tokens.now frames.new.items result
        (turn_of (stack frames.old.items, plain_turn tokens.now turn.entry)) }
{
    match turn {
        Turn::Wants(next) => begin(alloc, tokens, frames, next),
        Turn::Has(tree, next) => go_on(alloc, tokens, frames, tree, next),
        Turn::Ends(tree, next) => Ok(Turn::Ends(tree, next)),
    }
}

/// The formula that the turns come to.
#[tactic(auto, using(crate::proofs::Turning::turned_out, crate::proofs::Turning::ended))]
fn run<'s>(
    alloc: Global,
    tokens: &[Token<'s>],
    frames: &mut Frames<'s>,
    at: usize,
) -> Result<(Box<Tree<'s>>, usize), Stop>
    requires { AreReadable (token_views tokens.now) }
    ensures { Reads (λ tree. plain_tree tree.value) tokens.now result
        (run_from (suc (length (drop at (seen tokens.now))))
        (stack frames.old.items, Wants (drop at (seen tokens.now)))) }
{
    let mut turn = Turn::Wants(at);
    // A turn takes a token, but for the last, which finds that the formula ends.
    let turns = tokens.len().saturating_sub(at) + 1;
    for _ in 0..turns {
        turn = match turn {
            Turn::Ends(tree, next) => return Ok((tree, next)),
            open => turned(alloc, tokens, frames, open)?,
        };
    }
    match turn {
        Turn::Ends(tree, next) => Ok((tree, next)),
        _ => Err(Stop::NoTree),
    }
}

/// A formula, in a box.
pub(crate) fn formula<'s>(
    alloc: Global,
    tokens: &[Token<'s>],
    at: usize,
) -> Result<(Box<Tree<'s>>, usize), Stop>
    requires { AreReadable (token_views tokens.now) }
    ensures { Reads (λ tree. plain_tree tree.value) tokens.now result
        (formula_at (drop at (seen tokens.now))) }
{
    let mut frames = SmallVec::new(alloc);
    run(alloc, tokens, &mut frames, at)
}
