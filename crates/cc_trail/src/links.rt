//! Watch links: for each literal the chain of the nodes that watch it.
ghost use Rattle.std.specs.Prelude.{◌≡◌, ◌≢◌, ℕ, ◌+◌, ◌-◌, ◌*◌, ◌<◌, ◌≤◌, ◌++◌, [], ◌∷◌, length, set, take, drop, Contains, IfOk, IfSome, IfNone, OnOk, OnErr, Ok};
ghost use Rattle.cc_defs.specs.Clauses.{Literal, IsIn, IsLiteralOver};
ghost use Rattle.cc_defs.specs.Limits.{most_variables};
ghost use Rattle.cc_trail.specs.Links.{LinksView, NodesView, AreAhead, BeginsWith, code_of, watched_at};
ghost use Rattle.cc_trail.specs.LinkParts.{link_at, heads_relinked, next_relinked};

use crate::nodes::Nodes;
use cc_defs::{Lit, OutOfMemory};
use std::alloc::Global;
use std::marker::Model;

// Nodes are numbered below this, so that a link fits.
const MOST_NODES: usize = 4294966000;

// So far from the first node of its chain a node is near.
const NEAR: u32 = 16;

/// The watched literals of clauses, and for each literal the chain of the nodes that watch it. A head and a link are 0
/// at a chain's end, and else one more than the next node.
#[derive(Drop)]
pub struct Links {
    variables: u32,
    // By the code of a literal.
    heads: Vec<u32>,
    nodes: Nodes,
    // The walk that goes on: the code of the literal whose chain it goes along, and one more than the node that it went past
    // last; 0 where the head of the chain comes next. At rest both are 0.
    walked: usize,
    before: u32,
}

impl Model for Links {
    ghost use Rattle.cc_trail.specs.Links.{LinksView};

    ghost Value = { LinksView };

    ghost use Rattle.cc_trail.specs.LinkParts.{view_of, IsLinks};

    ghost view = { view_of };

    ghost invariant = { IsLinks };
}

/// A literal as a number: twice its variable, and one more where it is positive.
pub fn code(lit: Lit) -> usize
    ensures { result ≡ code_of lit }
{
    2 * lit.variable() as usize + usize::from(lit.is_positive())
}

// The link that a walk has come to: the head of its chain, or what is next of the node before.
fn link_of(heads: &[u32], nodes: &Nodes, walked: usize, before: u32) -> u32
    requires walked { walked < length heads.now }
    requires before { before ≤ length nodes.now.next }
    ensures { result ≡ link_at heads.now nodes.now.next walked before }
{
    match before.checked_sub(1) {
        Some(node) => nodes.next(node as usize),
        None => heads[walked],
    }
}

// Changes this link.
fn relink(heads: &mut Vec<u32>, nodes: &mut Nodes, walked: usize, before: u32, link: u32)
    requires walked { walked < length heads.old.items }
    requires before { before ≤ length nodes.old.next }
    ensures heads { heads.new.items ≡ heads_relinked heads.old.items walked before link }
    ensures nodes { nodes.new
        ≡ record nodes.old { next = next_relinked nodes.old.next before link } }
{
    match before.checked_sub(1) {
        Some(node) => nodes.link(node as usize, link),
        None => heads[walked] = link,
    }
}

impl Links {
    /// Links of no clause.
    pub fn new(alloc: Global, variables: u32) -> Result<Links, OutOfMemory>
        requires { variables ≤ most_variables }
        ensures { IfOk result (λ links.
            links ≡ record { variables = variables; watched = []; ahead = [] }) }
    {
        let heads = vec![in alloc; 0u32; 2 * variables as usize + 2]?;
        Ok(Links {
            variables,
            heads,
            nodes: Nodes::new(alloc),
            walked: 0,
            before: 0,
        })
    }

    /// How many nodes there are.
    pub fn count(&self) -> usize
        ensures count { result ≡ length self.now.watched }
        ensures few { result ≤ 4294967000 }
    {
        self.nodes.count()
    }

    /// The literal that a node watches.
    pub fn watched(&self, node: u32) -> Lit
        requires { node < length self.now.watched }
        ensures watched { result ≡ watched_at self.now.watched node }
        ensures over { IsLiteralOver self.now.variables result }
    {
        self.nodes.watched(node as usize)
    }

    /// Begins a walk to all nodes that watch a literal.
    pub fn begin(&mut self, lit: Lit)
        requires { IsLiteralOver self.old.variables lit }
        ensures { AreAhead self.old self.new lit }
    {
        self.walked = code(lit);
        self.before = 0;
    }

    /// The node that the walk has come to.
    #[inline(always)]
    pub fn current(&self) -> Option<u32>
        ensures some { IfSome result (λ node. BeginsWith self.now.ahead node) }
        ensures within { IfSome result (λ node. node < length self.now.watched) }
        ensures once { IfSome result (λ node. IsIn (drop 1 self.now.ahead) node → ⊥) }
        ensures none { IfNone result (self.now.ahead ≡ []) }
    {
        link_of(&self.heads, &self.nodes, self.walked, self.before).checked_sub(1)
    }

    /// Goes on, and leaves the node that the walk has come to where it is.
    pub fn pass(&mut self, node: u32)
        requires { BeginsWith self.old.ahead node }
        ensures { self.new ≡ record self.old { ahead = drop 1 self.old.ahead } }
    {
        // Opens the invariant of the links for the proof.
        let _walked = self.walked;
        self.before = node + 1;
    }

    // Goes on, and moves the node that the walk has come to into the chain of another literal, which it watches then.
    fn transfer(&mut self, node: u32, lit: Lit)
        requires first { BeginsWith self.old.ahead node }
        requires over { IsLiteralOver self.old.variables lit }
        requires apart { watched_at self.old.watched node ≢ lit }
        ensures { self.new ≡ record self.old {
          watched = set self.old.watched node lit;
          ahead = drop 1 self.old.ahead;
        } }
    {
        let code = code(lit);
        let place = node as usize;
        let link = self.nodes.next(place);
        relink(
            &mut self.heads,
            &mut self.nodes,
            self.walked,
            self.before,
            link,
        );
        let first = self.heads[code];
        self.nodes.put(place, first, lit);
        self.heads[code] = node + 1;
    }

    /// Goes on, and lets the node that the walk has come to watch this literal.
    pub fn put(&mut self, node: u32, lit: Lit)
        requires first { BeginsWith self.old.ahead node }
        requires within { node < length self.old.watched }
        requires over { IsLiteralOver self.old.variables lit }
        ensures { self.new ≡ record self.old {
          watched = set self.old.watched node lit;
          ahead = drop 1 self.old.ahead;
        } }
    {
        if self.watched(node) == lit {
            self.pass(node);
        } else {
            self.transfer(node, lit);
        }
    }

    /// Ends a walk.
    pub fn end(&mut self)
        ensures { self.new ≡ record self.old { ahead = [] } }
    {
        self.walked = 0;
        self.before = 0;
    }

    /// Whether a node is one of the first of its chain. Nothing is claimed of it: where one that is far from the first is taken
    /// out, that takes long.
    pub fn is_near(&self, node: u32) -> bool
        requires { node < length self.now.watched }
    {
        let mut link = self.heads[code(self.watched(node))];
        for _ in 0..NEAR {
            match link.checked_sub(1) {
                Some(other) => if other == node {
                    return true;
                } else if (other as usize) < self.nodes.count() {
                    link = self.nodes.next(other as usize);
                },
                None => return false,
            }
        }
        false
    }

    // Walks to a node.
    fn walk_to(&mut self, node: u32)
        requires { node < length self.old.watched }
        ensures watched { self.new.watched ≡ self.old.watched }
        ensures variables { self.new.variables ≡ self.old.variables }
        ensures first { BeginsWith self.new.ahead node }
    {
        self.begin(self.watched(node));
        while let Some(other) = self.current() {
            if other == node {
                return;
            }
            self.pass(other);
        }
    }

    /// Takes the last node out of its chain. No walk goes on then.
    pub fn remove_last(&mut self)
        requires none { self.old.ahead ≡ [] }
        requires some { 0 < length self.old.watched }
        ensures { self.new ≡ record self.old {
          watched = take (length self.old.watched - 1) self.old.watched;
        } }
    {
        let last = self.nodes.count() - 1;
        self.walk_to(last as u32);
        let link = self.nodes.next(last);
        relink(
            &mut self.heads,
            &mut self.nodes,
            self.walked,
            self.before,
            link,
        );
        self.nodes.remove_last();
        self.walked = 0;
        self.before = 0;
    }

    /// Adds two nodes that watch these literals. No walk goes on then.
    pub fn add_two(&mut self, a: Lit, b: Lit) -> Result<(), OutOfMemory>
        requires none { self.old.ahead ≡ [] }
        requires a_over { IsLiteralOver self.old.variables a }
        requires b_over { IsLiteralOver self.old.variables b }
        requires apart { a ≢ b }
        ensures added { OnOk result
            (self.new ≡ record self.old { watched = self.old.watched ++ a ∷ b ∷ [] }) }
        ensures kept { OnErr result (self.new ≡ self.old) }
    {
        let count = self.nodes.count();
        if count >= MOST_NODES {
            return Err(OutOfMemory);
        }
        let first = code(a);
        let second = code(b);
        let one = self.heads[first];
        let two = self.heads[second];
        self.nodes.add_two(one, a, two, b)?;
        self.heads[first] = count as u32 + 1;
        self.heads[second] = count as u32 + 2;
        self.walked = 0;
        self.before = 0;
        Ok(())
    }
}
