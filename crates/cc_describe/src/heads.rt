//! Which heads the causal laws of a description may have.

/// Which heads the causal laws of a description may have.
#[derive(Clone, Copy)]
pub enum Heads {
    /// Conjunctions of atoms, or `false`. A law with another head is refused (11); any other is split into base laws.
    Definite,
    /// Formulas of any form. A law whose head is not definite is kept whole; any other is split.
    Any,
}
