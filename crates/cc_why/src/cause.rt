//! Why a position has its value.
use cc_defs::List;

/// Why a position has its value.
#[derive(Clone, Copy, Debug, PartialEq, Eq)]
pub enum Cause {
    /// Its constant has no other value.
    OneValue,
    /// It is the value of a simple fluent at step 0, which is a cause of itself.
    Initial,
    /// The number of the base law, from 0, that causes it.
    Law(u32),
}

/// The causes of positions, in order.
pub type Causes = List<Cause>;
