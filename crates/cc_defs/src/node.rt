//! Nodes of ground terms, and the heads of ground laws.

/// A node of a ground term. A term is a list of nodes in which each node stands behind its operands.
#[derive(Clone, Copy, PartialEq, Eq)]
pub enum Node {
    True,
    False,
    /// A ground constant, by its number, has the value of this index in its domain.
    Atom { constant: u32, value: u32 },
    /// Its one operand is false.
    Not,
    /// All of so many operands are true.
    All(u32),
    /// Some of so many operands is true.
    Any(u32),
    /// Both of its operands are true, or both are false.
    Same,
}

/// The head of a ground law.
#[derive(Clone, Copy)]
pub enum GroundHead {
    /// The ground constant of this number has the value of this index in its domain.
    Atom { constant: u32, value: u32 },
    Falsity,
}
