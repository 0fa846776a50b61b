//! Clauses over numbered variables.
ghost use Rattle.std.specs.Prelude.{◌≡◌};

use cc_clauses::ClauseArena;

/// A list of clauses, each a slice of literals, all of them in one allocation.
pub type Clauses = ClauseArena;

/// Clauses in conjunctive normal form. A literal names a variable from 1 to `variables`, or its negation; a clause has its
/// literals as the text has them, in the text's order.
#[derive(Drop)]
pub struct Cnf {
    pub variables: u32,
    pub clauses: Clauses,
}
