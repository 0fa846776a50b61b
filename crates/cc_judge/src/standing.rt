//! How far a log is judged, and what follows a section.
ghost use Rattle.std.specs.Prelude.{◌≡◌, ◌↔◌, ◌&&◌, ◌+◌, ◌<◌, ◌≤◌, not, is_some, IsTrue};
ghost use Rattle.std.specs.Option.{option_map};
ghost use Rattle.cc_arena.specs.GroundViews.{plain_ground_query};
ghost use Rattle.cc_check.specs.Clauses.{plain_finding};
ghost use Rattle.cc_defs.specs.Limits.{most_steps};
ghost use Rattle.cc_lists.specs.Horizons.{first_at, last_at};
ghost use Rattle.cc_judge.specs.Standings.{HasRoom, IsBehind, IsBehindFinding, IsBehindTrail, IsClosedAt, IsPlaced, seen};

use cc_arena::GroundQuery;
use cc_check::{Finding, Section};
use cc_defs::{Cause, EndWord, Key, LogVerdict};

/// How far a log is right: the horizon of the next section, whether its conditions are met and its claim is asked next, and
/// how many rows were blocked.
#[derive(Clone, Copy)]
pub(crate) struct Standing {
    pub(crate) middle: bool,
    pub(crate) horizon: u32,
    pub(crate) blocked: u64,
    pub(crate) line: u32,
}

/// What is behind a section: more of the log, or it is the first that is wrong, at this line.
#[derive(Clone, Copy)]
pub(crate) enum Next {
    Goes(Standing),
    Wrong { line: u32, cause: Cause },
}

/// The first horizon of a log of a query, or of its listing after a key.
pub(crate) fn first_of(query: &GroundQuery<'_>, after: Option<&Key>) -> u32
    ensures { result
        ≡ first_at (plain_ground_query query.now) (option_map (λ key. key.now) after.entry) }
{
    match after {
        None => query.lo,
        Some(key) => key.horizon,
    }
}

/// The last one.
pub(crate) fn last_of(query: &GroundQuery<'_>, after: Option<&Key>) -> u32
    ensures { result
        ≡ last_at (plain_ground_query query.now) (option_map (λ key. key.now) after.entry) }
{
    match after {
        None => query.hi,
        Some(key) => key.horizon,
    }
}

// Whether a query has a claim.
fn has_claim(query: &GroundQuery<'_>) -> bool
    ensures { result ≡ is_some (plain_ground_query query.now).claim }
{
    match &query.claim {
        Some(_) => true,
        None => false,
    }
}

// Whether the next section is on the conditions of a query with a claim.
fn asks_conditions(query: &GroundQuery<'_>, standing: &Standing) -> bool
    ensures { result ≡ (is_some (plain_ground_query query.now).claim && not standing.now.middle) }
{
    has_claim(query) && !standing.middle
}

/// Whether a section is the one that comes next.
pub(crate) fn is_next(
    query: &GroundQuery<'_>,
    after: Option<&Key>,
    standing: &Standing,
    section: &Section<'_>,
) -> bool
    ensures { IsTrue result
        ↔ IsPlaced (plain_ground_query query.now) (option_map (λ key. key.now) after.entry)
        (seen standing.now) section.now.conditions section.now.horizon }
{
    section.conditions == asks_conditions(query, standing)
        && section.horizon == standing.horizon
        && standing.horizon <= last_of(query, after)
}

// What is behind a right section.
fn behind(standing: &Standing, conditions: bool, ending: EndWord, blocks: u32, line: u32) -> Next
    requires horizon { standing.now.horizon ≤ most_steps }
    requires blocked { standing.now.blocked + blocks ≤ 4294967295 }
    requires line { line < 4294967295 }
    ensures { IsBehind (seen standing.now) conditions ending blocks line result }
{
    match ending {
        EndWord::Empty => Next::Goes(Standing {
            middle: false,
            horizon: standing.horizon + 1,
            blocked: standing.blocked + blocks as u64,
            line: line + 1,
        }),
        EndWord::Found => {
            if conditions {
                return Next::Goes(Standing {
                    middle: true,
                    horizon: standing.horizon,
                    blocked: standing.blocked + blocks as u64,
                    line: line + 1,
                });
            }
            Next::Wrong {
                line,
                cause: Cause::NotRefuted,
            }
        }
        EndWord::Spent => Next::Wrong {
            line,
            cause: Cause::NotRefuted,
        },
    }
}

// What is wrong where a wrong line stands behind the end of a section. An end word behind which nothing may follow is wrong before it.
fn behind_trail(conditions: bool, ending: EndWord, line: u32, cause: Cause) -> Next
    requires { line < 4294967295 }
    ensures { IsBehindTrail conditions ending line cause result }
{
    match ending {
        EndWord::Empty => Next::Wrong {
            line: line + 1,
            cause,
        },
        EndWord::Found => {
            if conditions {
                return Next::Wrong {
                    line: line + 1,
                    cause,
                };
            }
            Next::Wrong {
                line,
                cause: Cause::NotRefuted,
            }
        }
        EndWord::Spent => Next::Wrong {
            line,
            cause: Cause::NotRefuted,
        },
    }
}

/// What is behind a section in its place, by what its lines are found to be.
pub(crate) fn follow(standing: &Standing, conditions: bool, finding: Finding) -> Next
    requires horizon { standing.now.horizon ≤ most_steps }
    requires room { HasRoom standing.now.blocked finding }
    ensures { IsBehindFinding (seen standing.now) conditions (plain_finding finding) result }
{
    match finding {
        Finding::Right {
            ending,
            blocks,
            line,
        } => behind(standing, conditions, ending, blocks, line),
        Finding::Trailed {
            ending,
            line,
            cause,
        } => behind_trail(conditions, ending, line, cause),
        Finding::Wrong { line, cause } => Next::Wrong { line, cause },
    }
}

/// The verdict of a log that ends here.
pub(crate) fn closing(first: u32, standing: &Standing) -> LogVerdict
    requires { first ≤ standing.now.horizon }
    ensures { IsClosedAt first (seen standing.now) result }
{
    if standing.middle || standing.horizon == first {
        return LogVerdict::Refused {
            line: standing.line,
            cause: Cause::Section,
        };
    }
    LogVerdict::Accepted {
        from: first,
        to: standing.horizon - 1,
        blocked: standing.blocked,
    }
}
