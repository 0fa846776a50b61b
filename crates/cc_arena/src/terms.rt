//! Ground terms in an arena, and their truth.
ghost use Rattle.std.specs.Prelude.{◌≡◌, ◌≤◌, length, slice_index, IfOk};
ghost use Rattle.std.specs.List.{AllByRecursion};
ghost use Rattle.cc_arena.specs.Walks.{arity, decision, EndsOperand, IsWalked, OneFormula};
ghost use Rattle.cc_defs.specs.Terms.{IsTerm, HasTruth, NamesBelow};

use bumpalo::Bump;
use cc_defs::{Node, OutOfMemory};

/// Places terms in an arena, which outlives them.
#[derive(Clone, Copy)]
pub struct Terms<'a> {
    arena: &'a Bump,
}

impl<'a> Terms<'a> {
    /// Places terms in this arena.
    pub fn new(arena: &'a Bump) -> Terms<'a> {
        Terms { arena }
    }

    /// A copy of the nodes in the arena.
    pub fn place(&self, nodes: &[Node]) -> Result<&'a [Node], OutOfMemory>
        ensures { IfOk result (λ placed. placed.now ≡ nodes.now) }
    {
        Ok(self.arena.try_alloc_slice_copy(nodes)?)
    }
}

/// The truth of a term where each ground constant has the value of the index at its number. It takes no memory but the
/// stack, as deep as the term is nested: it walks from the term's last node to its first.
pub fn value(term: &[Node], constants: &[u32]) -> bool
    requires { IsTerm (length constants.now) term.now }
    ensures { HasTruth term.now (λ number. slice_index constants.now number) result }
{
    walk(term, term.len(), constants).0
}

// The truth of the formula whose nodes end before `end`, and where they begin. Each operand is walked, also where the
// first of them decide, since only a walk finds where an operand begins.
fn walk(term: &[Node], end: usize, constants: &[u32]) -> (bool, usize)
    requires ends { EndsOperand term.now end }
    requires within { end ≤ length term.now }
    requires names { AllByRecursion (NamesBelow (length constants.now)) term.now }
    ensures { IsWalked term.now (λ number. slice_index constants.now number) end result.0 result.1 }
{
    let mut begin = end - 1;
    let node = term[begin];
    let mut trues: u32 = 0;
    for _done in 0..operands_of(node) {
        let (holds, start) = walk(term, begin, constants);
        begin = start;
        trues += u32::from(holds);
    }
    (decides(node, trues, constants), begin)
}

// How many operands stand before a node.
fn operands_of(node: Node) -> u32
    ensures { result ≡ arity node }
{
    match node {
        Node::True | Node::False | Node::Atom { .. } => 0,
        Node::Not => 1,
        Node::Same => 2,
        Node::All(count) | Node::Any(count) => count,
    }
}

// The truth of a node so many of whose operands are true.
fn decides(node: Node, trues: u32, constants: &[u32]) -> bool
    requires { NamesBelow (length constants.now) node }
    ensures { result ≡ decision (λ number. slice_index constants.now number) node trues }
{
    match node {
        Node::True => true,
        Node::False => false,
        Node::Atom { constant, value } => constants[constant as usize] == value,
        Node::Not => trues == 0,
        Node::All(count) => trues == count,
        Node::Any(_) => trues != 0,
        Node::Same => trues != 1,
    }
}

/// A law: a term is written of one formula.
pub fn one_formula()
    ensures { OneFormula }
{}
