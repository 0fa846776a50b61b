//! Theorems over the definitions, each the contract of a function with no body.
ghost use Rattle.cc_defs.specs.Laws.{OneListing, FirstAreFront, SplitsAtKey, PositionsHaveSizes};

/// A query has one listing at a horizon.
pub fn one_listing()
    ensures { OneListing }
{}

/// The first histories are a front of the listing.
pub fn first_are_front()
    ensures { FirstAreFront }
{}

/// A listing is its rows up to a key, followed by the listing after the key.
pub fn splits_at_key()
    ensures { SplitsAtKey }
{}

/// The positions of a horizon have the domain sizes of its constants.
pub fn positions_have_sizes()
    ensures { PositionsHaveSizes }
{}
