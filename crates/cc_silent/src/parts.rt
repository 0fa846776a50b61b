//! What the judges ask of headings.
ghost use Rattle.std.specs.Prelude.{◌≡◌, ◌↔◌, ◌≤◌, ◌∷◌, [], ℕ, IsTrue, MatchOption};
ghost use Rattle.cc_silent.specs.SureParts.{IsLastPart};

use cc_arena::GroundQuery;
use cc_check::number_at;

pub(crate) fn is_line_feed(text: &[u8]) -> bool
    ensures { IsTrue result ↔ (text.now ≡ 10 ∷ []) }
{
    text == b"\n".as_slice()
}

/// Whether a horizon is one of a query's.
pub(crate) fn is_tried(query: &GroundQuery<'_>, horizon: u32) -> bool
    ensures { IsTrue result ↔ ((query.now.lo ≤ horizon) × (horizon ≤ query.now.hi)) }
{
    query.lo <= horizon && horizon <= query.hi
}

/// The number that is all of a text but its line feed.
pub(crate) fn last_number(text: &[u8]) -> Option<u32>
    ensures { MatchOption result
        ((number : ℕ) → IsLastPart text.now number → ⊥) (IsLastPart text.now) }
{
    let Some((number, rest)) = number_at(text) else {
        return None;
    };
    if is_line_feed(rest) {
        return Some(number);
    }
    None
}
