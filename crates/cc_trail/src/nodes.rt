//! The nodes of chains: for each the link to the next one, and the literal that it watches.
ghost use Rattle.std.specs.Prelude.{◌≡◌, ℕ, ◌-◌, ◌<◌, ◌++◌, [], ◌∷◌, length, set, take, get_or, OnOk, OnErr};
ghost use Rattle.cc_defs.specs.Clauses.{Literal};
ghost use Rattle.cc_trail.specs.Links.{NodesView, watched_at};

use cc_defs::{Lit, OutOfMemory};
use std::alloc::Global;
use std::marker::Model;

// A node. The two nodes of a clause stand side by side, so that a visit finds the link and the other literal in one place.
#[derive(Clone, Copy)]
struct Node {
    next: u32,
    lit: Lit,
}

/// The nodes of chains.
#[derive(Drop)]
pub struct Nodes {
    nodes: Vec<Node>,
}

impl Model for Nodes {
    ghost use Rattle.cc_trail.specs.Links.{NodesView};

    ghost Value = { NodesView };

    ghost use Rattle.cc_trail.specs.NodeParts.{view_of};

    ghost view = { view_of };
}

impl Nodes {
    /// No nodes, which take no memory.
    pub fn new(alloc: Global) -> Nodes
        ensures { result ≡ record { next = []; watched = [] } }
    {
        Nodes {
            nodes: Vec::new(alloc),
        }
    }

    /// How many nodes there are.
    pub fn count(&self) -> usize
        ensures { result ≡ length self.now.watched }
    {
        self.nodes.len()
    }

    /// The link to the next of a node.
    pub fn next(&self, node: usize) -> u32
        requires { node < length self.now.next }
        ensures { result ≡ get_or self.now.next node 0 }
    {
        self.nodes[node].next
    }

    /// The literal that a node watches.
    pub fn watched(&self, node: usize) -> Lit
        requires { node < length self.now.watched }
        ensures { result ≡ watched_at self.now.watched node }
    {
        self.nodes[node].lit
    }

    /// Changes the link to the next of a node.
    pub fn link(&mut self, node: usize, next: u32)
        requires { node < length self.old.next }
        ensures { self.new ≡ record self.old { next = set self.old.next node next } }
    {
        self.nodes[node].next = next;
    }

    /// Changes a node.
    pub fn put(&mut self, node: usize, next: u32, lit: Lit)
        requires { node < length self.old.next }
        ensures { self.new ≡ record {
          next = set self.old.next node next;
          watched = set self.old.watched node lit;
        } }
    {
        self.nodes[node] = Node { next, lit };
    }

    /// Takes the last node away.
    pub fn remove_last(&mut self)
        ensures { self.new ≡ record {
          next = take (length self.old.next - 1) self.old.next;
          watched = take (length self.old.watched - 1) self.old.watched;
        } }
    {
        let _ = self.nodes.pop();
    }

    /// Adds two nodes, with the links to what is next of them and the literals that they watch.
    pub fn add_two(&mut self, one: u32, a: Lit, two: u32, b: Lit) -> Result<(), OutOfMemory>
        ensures added { OnOk result (self.new ≡ record {
          next = self.old.next ++ one ∷ two ∷ [];
          watched = self.old.watched ++ a ∷ b ∷ [];
        }) }
        ensures kept { OnErr result (self.new ≡ self.old) }
    {
        let first = Node { next: one, lit: a };
        let second = Node { next: two, lit: b };
        self.nodes.extend_from_slice(&[first, second])?;
        Ok(())
    }
}
