//! What comes next in a run on certain and possible atoms.
use cc_form::Form;

/// What comes next.
#[derive(Drop)]
pub(crate) enum Phase {
    /// A horizon is looked at, if there is one more.
    Looking,
    /// The next value of a position that no example has. The axioms are those of the histories.
    Asking(Form),
    /// Nothing: the ending was told, or a call failed.
    Ended,
}
