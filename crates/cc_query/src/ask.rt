//! What is asked of a search.
use cc_defs::Key;
use std::marker::Model;

/// How much of a listing is asked for.
#[derive(Drop)]
pub struct Ask {
    /// At most so many histories; at least 1. For a query with a claim it has no effect.
    pub count: Option<u32>,
    /// At most so many derived clauses in a section; at most 2,000,000.
    pub budget: u32,
    /// Only the histories after this key, of the key's horizon alone.
    pub after: Option<Key>,
}

impl Model for Ask {
    ghost use Rattle.cc_defs.specs.Runs.{Ask as Asked};

    ghost Value = { Asked };

    ghost view = { λ ask. record { count = ask.count; budget = ask.budget; after = ask.after } };
}
