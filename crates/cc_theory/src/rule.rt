//! Rules in time.
use cc_defs::Node;

/// A term at a step: each ground constant in it is meant at this step.
#[derive(Clone, Copy)]
pub struct Timed<'a> {
    pub step: u32,
    pub nodes: &'a [Node],
}

/// The head of a rule.
#[derive(Clone, Copy)]
pub enum TimedHead {
    /// The position has the value of this index in its domain.
    Atom { position: u64, value: u32 },
    Falsity,
}

/// A causal rule of a horizon. `now` is the `if` part of its law, and `before` the `after` part where there is one. Where
/// both are missing the body is the atom of the head: any value that a simple fluent has at step 0 is a cause of itself.
#[derive(Clone, Copy)]
pub struct TimedRule<'a> {
    pub head: TimedHead,
    pub now: Option<Timed<'a>>,
    pub before: Option<Timed<'a>>,
}
