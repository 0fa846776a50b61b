//! What comes next in a run on every horizon.

/// What comes next.
#[derive(Drop)]
pub(crate) enum Phase {
    /// The next horizon is looked at, if there is one more.
    Looking,
    /// The step over as many horizons as have no history.
    Inducing,
    /// Nothing: the ending was told, or a call failed.
    Ended,
}
