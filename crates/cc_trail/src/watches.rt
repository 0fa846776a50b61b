//! Which literals of a clause are watched.
ghost use Rattle.std.specs.Prelude.{◌≡◌, ℕ, ◌+◌, ◌<◌, ◌≤◌, All, length, take};
ghost use Rattle.cc_defs.specs.Clauses.{IsClause, IsLiteralOver};
ghost use Rattle.cc_trail.specs.Watches.{AreTwoOf};

use crate::entries::Entries;
use cc_defs::Lit;

/// Two literals of a clause.
#[derive(Clone, Copy)]
pub struct Pair {
    pub first: Lit,
    pub second: Lit,
}

// A literal, and how good it is to watch it.
#[derive(Clone, Copy)]
struct Ranked {
    lit: Lit,
    rank: usize,
}

// How good it is to watch a literal: best where it is not false, and else the better the later it became so. What watches a
// literal that became false late is looked at again only from there on.
#[inline(always)]
fn rank_of(entries: &Entries, lit: Lit) -> Ranked
    requires { lit.variable ≤ entries.now.variables }
    ensures { result.lit ≡ lit }
{
    let place = entries.place(lit.variable());
    let rank = if place < entries.count() && entries.step(place).lit != lit {
        place
    } else {
        usize::MAX
    };
    Ranked { lit, rank }
}

// The best two of some literals, the better one first.
#[derive(Clone, Copy)]
struct Best {
    first: Ranked,
    second: Ranked,
}

// The first two literals of a clause.
fn first_two(entries: &Entries, clause: &[Lit]) -> Best
    requires over { All (λ literal. IsLiteralOver entries.now.variables literal) clause.now }
    requires clause { IsClause clause.now }
    requires long { 2 ≤ length clause.now }
    ensures { AreTwoOf (take 2 clause.now) result.first.lit result.second.lit }
{
    let one = rank_of(entries, clause[0]);
    let two = rank_of(entries, clause[1]);
    if one.rank < two.rank {
        Best {
            first: two,
            second: one,
        }
    } else {
        Best {
            first: one,
            second: two,
        }
    }
}

// The best two of those before an index, and of the literal there.
#[inline(always)]
fn best_with(entries: &Entries, clause: &[Lit], index: usize, best: Best) -> Best
    requires over { All (λ literal. IsLiteralOver entries.now.variables literal) clause.now }
    requires clause { IsClause clause.now }
    requires within { index < length clause.now }
    requires two { AreTwoOf (take index clause.now) best.first.lit best.second.lit }
    ensures { AreTwoOf (take (index + 1) clause.now) result.first.lit result.second.lit }
{
    let other = rank_of(entries, clause[index]);
    if best.first.rank < other.rank {
        Best {
            first: other,
            second: best.first,
        }
    } else if best.second.rank < other.rank {
        Best {
            first: best.first,
            second: other,
        }
    } else {
        best
    }
}

/// The two literals of a clause that are best to watch: those that are not false, and then those that became false last.
pub fn best_two(entries: &Entries, clause: &[Lit]) -> Pair
    requires over { All (λ literal. IsLiteralOver entries.now.variables literal) clause.now }
    requires clause { IsClause clause.now }
    requires long { 2 ≤ length clause.now }
    ensures { AreTwoOf clause.now result.first result.second }
{
    let mut best = first_two(entries, clause);
    for index in 2..clause.len() {
        if best.second.rank == usize::MAX {
            break;
        }
        best = best_with(entries, clause, index, best);
    }
    Pair {
        first: best.first.lit,
        second: best.second.lit,
    }
}
