//! What is open while a formula is read.
ghost use Rattle.std.specs.Prelude.{◌≡◌, IfOk};
ghost use Rattle.cc_defs.specs.Trees.{plain_tree};
ghost use Rattle.cc_syntax.specs.Formulas.{plain_frame, stack, filled, ends_before, closed, closing};
ghost use Rattle.cc_syntax.specs.Turns.{Popped};

use crate::operators::Operator;
use cc_defs::{Mark, Tree};
use smallvec::SmallVec;
use std::alloc::{AllocError, Global};

/// A sign or a bracket before an operand.
#[derive(Clone, Copy)]
pub(crate) enum Opening<'s> {
    /// `-`
    Not,
    /// `(`
    Paren,
    /// `[/\X |`
    ForAll(&'s str),
    /// `[\/X |`
    Exists(&'s str),
}

/// A sign or a bracket that waits for its operand, or an operator with its left operand.
#[derive(Drop)]
pub(crate) enum Frame<'s> {
    Opened(Opening<'s>),
    Left(Operator, Box<Tree<'s>>),
}

/// The frame that stands in the free places of a list.
impl<'s> Default for Frame<'s> {
    fn default() -> Frame<'s> {
        Frame::Opened(Opening::Not)
    }
}

/// What is open, the innermost last. Few formulas are nested deeper than fits without an allocation.
pub(crate) type Frames<'s> = SmallVec<Frame<'s>, 8>;

impl<'s> Frame<'s> {
    /// The frame with its operand.
    pub(crate) fn whole(self, tree: Box<Tree<'s>>) -> Tree<'s>
        ensures { plain_tree result
            ≡ filled (plain_frame self.entry) (plain_tree tree.entry.value) }
    {
        match self {
            Frame::Opened(Opening::Not) => return Tree::Not(tree),
            Frame::Opened(Opening::Paren) => return Tree::Paren(tree),
            Frame::Opened(Opening::ForAll(variable)) => return Tree::ForAll(variable, tree),
            Frame::Opened(Opening::Exists(variable)) => return Tree::Exists(variable, tree),
            Frame::Left(operator, left) => return operator.joined(left, tree),
        }
    }

    /// The frame with its operand, in a box.
    pub(crate) fn filled(
        self,
        alloc: Global,
        tree: Box<Tree<'s>>,
    ) -> Result<Box<Tree<'s>>, AllocError>
        ensures { IfOk result (λ whole.
            plain_tree whole.value ≡ filled (plain_frame self.entry) (plain_tree tree.entry.value)) }
    {
        Ok(Box::new(alloc, self.whole(tree))?)
    }

    /// Whether its operand ends before an operator whose left operand has at most the strength.
    fn ends_before(&self, bound: u8) -> bool
        ensures { result ≡ ends_before bound (plain_frame self.now) }
    {
        match self {
            Frame::Opened(opening) => matches!(opening, Opening::Not),
            Frame::Left(operator, _) => operator.strength() <= bound,
        }
    }

    /// The bracket that closes it.
    pub(crate) fn closing(&self) -> Mark
        ensures { result ≡ closing (plain_frame self.now) }
    {
        match self {
            Frame::Opened(Opening::Paren) => Mark::RightParen,
            _ => Mark::RightBracket,
        }
    }
}

/// Takes the innermost frame off where its operand ends before such an operator.
fn pop_ending<'s>(frames: &mut Frames<'s>, bound: u8) -> Option<Frame<'s>>
    ensures { Popped bound (stack frames.old.items) result (stack frames.new.items) }
{
    match frames.as_slice() {
        [.., frame] if frame.ends_before(bound) => frames.pop(),
        _ => None,
    }
}

/// Takes off the frames whose operand ends before such an operator, and gives what they make of the operand.
pub(crate) fn close<'s>(
    alloc: Global,
    frames: &mut Frames<'s>,
    tree: Box<Tree<'s>>,
    bound: u8,
) -> Result<Box<Tree<'s>>, AllocError>
    ensures { IfOk result (λ whole.
        closed bound (stack frames.old.items) (plain_tree tree.entry.value)
        ≡ (stack frames.new.items, plain_tree whole.value)) }
{
    let mut whole = tree;
    while let Some(frame) = pop_ending(frames, bound) {
        whole = frame.filled(alloc, whole)?;
    }
    Ok(whole)
}
