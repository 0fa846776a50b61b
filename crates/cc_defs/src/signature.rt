//! The constants of a description.
use crate::{Name, Nums};

/// What a constant is.
#[derive(Clone, Copy)]
pub enum Kind {
    /// A simple fluent: in a first state any value of it is a cause of itself.
    Simple,
    /// A statically determined fluent.
    Determined,
    /// An action.
    Action,
}

/// The three forms of a causal law.
#[derive(Clone, Copy, PartialEq, Eq)]
pub enum LawKind {
    /// `caused F if G`, of fluents: at every step.
    Static,
    /// `caused F if G` with an action in F: at every step but the last.
    ActionDynamic,
    /// `caused F if G after H`: F and G at a step, H at the step before.
    FluentDynamic,
}

/// The step of a condition.
#[derive(Clone, Copy)]
pub enum At {
    Number(u32),
    /// The last step, `maxstep`.
    Last,
}

/// A declared constant: its name, the sorts of its arguments, its kind, the sort of its values, and for an attribute
/// the symbol of its action (the values are then `none` and the sort's objects).
#[derive(Drop)]
pub struct Symbol {
    pub name: Name,
    pub sorts: Nums,
    pub kind: Kind,
    pub domain: u32,
    pub attribute: Option<u32>,
}

/// A ground constant: a symbol with objects for its arguments, its kind, and its values in order. A value is the number
/// of an object (`false` is 0, `true` is 1), or 4294967295 for `none`.
#[derive(Drop)]
pub struct Const {
    pub symbol: u32,
    pub args: Nums,
    pub kind: Kind,
    pub domain: Nums,
}
