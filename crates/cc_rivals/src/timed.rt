//! Terms of positions, and the rules of ground laws at their steps.
ghost use Rattle.std.specs.Prelude.{◌≡◌, ◌≤◌, ◌*◌};
ghost use Rattle.cc_defs.specs.Histories.{step_of as step_meant};
ghost use Rattle.cc_defs.specs.Limits.{most_steps};
ghost use Rattle.cc_rivals.specs.Making.{placed_at, placed_condition as condition_placed, placed_rule};

use cc_arena::GroundCondition;
use cc_defs::{At, LawKind, Node};
use cc_wide::WideGroundLaw;

/// A term each of whose constants is meant so many positions behind its number.
#[derive(Clone, Copy)]
pub(crate) struct Placed<'a> {
    pub(crate) first: u64,
    pub(crate) nodes: &'a [Node],
}

/// A rule of a horizon. `after` is there exactly where the law has such a part.
#[derive(Clone, Copy)]
pub(crate) struct PlacedRule<'a> {
    pub(crate) head: Placed<'a>,
    pub(crate) body: Placed<'a>,
    pub(crate) after: Option<Placed<'a>>,
}

/// How many positions a step stands behind the first one.
fn offset(stride: u64, step: u32) -> u64
    requires step { step ≤ 1001 }
    requires stride { stride ≤ 8589934592 }
    ensures { result ≡ step * stride }
{
    u64::from(step) * stride
}

/// The rule of a law whose head and `if` part are at one step, and whose `after` part is at another.
fn rule_of<'a>(law: &WideGroundLaw<'a>, stride: u64, now: u32, before: u32) -> PlacedRule<'a>
    requires now { now ≤ 1001 }
    requires before { before ≤ 1001 }
    requires stride { stride ≤ 8589934592 }
    ensures { result ≡ placed_rule stride law.now now before }
{
    let first = offset(stride, now);
    PlacedRule {
        head: Placed {
            first,
            nodes: law.head,
        },
        body: Placed {
            first,
            nodes: law.body,
        },
        after: match law.after {
            Some(nodes) => Some(Placed {
                first: offset(stride, before),
                nodes,
            }),
            None => None,
        },
    }
}

/// The rule of a law at a step: a static law has one at each step, a dynamic one at each step but the last.
pub(crate) fn rule_at<'a>(
    law: &WideGroundLaw<'a>,
    stride: u64,
    horizon: u32,
    step: u32,
) -> Option<PlacedRule<'a>>
    requires step { step ≤ horizon }
    requires horizon { horizon ≤ most_steps }
    requires stride { stride ≤ 8589934592 }
    ensures { result ≡ placed_at stride horizon step law.now }
{
    match law.kind {
        LawKind::Static => Some(rule_of(law, stride, step, step)),
        LawKind::ActionDynamic if step < horizon => Some(rule_of(law, stride, step, step)),
        LawKind::FluentDynamic if step < horizon => Some(rule_of(law, stride, step + 1, step)),
        LawKind::ActionDynamic | LawKind::FluentDynamic => None,
    }
}

/// The step that a condition speaks of.
fn step_of(at: At, horizon: u32) -> u32
    ensures { result ≡ step_meant at horizon }
{
    match at {
        At::Number(step) => step,
        At::Last => horizon,
    }
}

/// A condition at its step.
pub(crate) fn placed_condition<'a>(
    condition: GroundCondition<'a>,
    stride: u64,
    horizon: u32,
) -> Placed<'a>
    requires step { step_meant condition.at horizon ≤ most_steps }
    requires stride { stride ≤ 8589934592 }
    ensures { result ≡ condition_placed stride horizon condition.entry }
{
    Placed {
        first: offset(stride, step_of(condition.at, horizon)),
        nodes: condition.nodes,
    }
}
