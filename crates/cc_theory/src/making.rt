//! The rules of a horizon, in order.
ghost use Rattle.std.specs.Prelude.{◌≡◌, ◌≤◌, ◌+◌, ◌*◌, ◌++◌, IfOk, OnOk, map};
ghost use Rattle.cc_defs.specs.Limits.{most_steps};
ghost use Rattle.cc_defs.specs.Rules.{upto};
ghost use Rattle.cc_theory.specs.Making as words;

use crate::rule::{Timed, TimedHead, TimedRule};
use cc_arena::{GroundLaw, Laws};
use cc_defs::{GroundHead, Kind, LawKind, OutOfMemory, Sig};
use std::alloc::Global;

/// The number of ground constants: so many positions lie between a constant at a step and the same one at the next.
pub(crate) fn stride(sig: &Sig) -> u64
    ensures value { result ≡ words.stride_of sig.now }
    ensures bound { result ≤ 8589934592 }
{
    u64::from(sig.fluents()) + u64::from(sig.actions())
}

/// The initial rules of a simple fluent with so many values.
fn add_values<'a>(number: u32, size: u32, rules: &mut Vec<TimedRule<'a>>) -> Result<(), OutOfMemory>
    ensures { OnOk result
        (rules.new.items ≡ rules.old.items ++ map (words.initial_rule number) (upto size)) }
{
    for value in 0..size {
        rules.push(TimedRule {
            head: TimedHead::Atom {
                position: u64::from(number),
                value,
            },
            now: None,
            before: None,
        })?;
    }
    Ok(())
}

/// The initial rules of a constant with so many values.
fn add_initial<'a>(
    kind: Kind,
    number: u32,
    size: u32,
    rules: &mut Vec<TimedRule<'a>>,
) -> Result<(), OutOfMemory>
    ensures { OnOk result (rules.new.items ≡ rules.old.items ++ words.initial_of kind number size) }
{
    match kind {
        Kind::Simple => add_values(number, size, rules),
        Kind::Determined | Kind::Action => Ok(()),
    }
}

/// The initial rules.
fn add_all_initial<'a>(sig: &Sig, rules: &mut Vec<TimedRule<'a>>) -> Result<(), OutOfMemory>
    ensures { OnOk result
        (rules.new.items ≡ rules.old.items ++ words.all_initial 0 sig.now.fluents) }
{
    for number in 0..sig.fluents() {
        let size = sig.domain_size(u64::from(number));
        add_initial(sig.constant(number).kind, number, size, rules)?;
    }
    Ok(())
}

/// A head at a step.
fn head_at(head: GroundHead, stride: u64, step: u32) -> TimedHead
    requires step { step ≤ 1001 }
    requires stride { stride ≤ 8589934592 }
    ensures { result ≡ words.head_at stride step head }
{
    match head {
        GroundHead::Atom { constant, value } => TimedHead::Atom {
            position: u64::from(step) * stride + u64::from(constant),
            value,
        },
        GroundHead::Falsity => TimedHead::Falsity,
    }
}

/// The rule of a law whose head and `if` part are at one step, and whose `after` part is at another.
fn rule_of<'a>(law: &GroundLaw<'a>, stride: u64, now: u32, before: u32) -> TimedRule<'a>
    requires step { now ≤ 1001 }
    requires stride { stride ≤ 8589934592 }
    ensures { result ≡ words.rule_of stride law.now now before }
{
    TimedRule {
        head: head_at(law.head, stride, now),
        now: Some(Timed {
            step: now,
            nodes: law.body,
        }),
        before: match law.after {
            Some(nodes) => Some(Timed {
                step: before,
                nodes,
            }),
            None => None,
        },
    }
}

/// The rule of a law at a step: a static law has one at each step, a dynamic one at each step but the last.
fn rule_at<'a>(law: &GroundLaw<'a>, stride: u64, horizon: u32, step: u32) -> Option<TimedRule<'a>>
    requires step { step ≤ horizon }
    requires horizon { horizon ≤ most_steps }
    requires stride { stride ≤ 8589934592 }
    ensures { result ≡ words.rule_at stride horizon step law.now }
{
    match law.kind {
        LawKind::Static => Some(rule_of(law, stride, step, step)),
        LawKind::ActionDynamic if step < horizon => Some(rule_of(law, stride, step, step)),
        LawKind::FluentDynamic if step < horizon => Some(rule_of(law, stride, step + 1, step)),
        LawKind::ActionDynamic | LawKind::FluentDynamic => None,
    }
}

/// The rules of laws at a step.
fn add_step<'a>(
    laws: &[GroundLaw<'a>],
    stride: u64,
    horizon: u32,
    step: u32,
    rules: &mut Vec<TimedRule<'a>>,
) -> Result<(), OutOfMemory>
    requires step { step ≤ horizon }
    requires horizon { horizon ≤ most_steps }
    requires stride { stride ≤ 8589934592 }
    ensures { OnOk result
        (rules.new.items ≡ rules.old.items ++ words.rules_at_step stride laws.now horizon step) }
{
    for law in laws {
        if let Some(rule) = rule_at(law, stride, horizon, step) {
            rules.push(rule)?;
        }
    }
    Ok(())
}

/// The rules of a horizon, with room for so many.
pub(crate) fn all_rules<'a>(
    alloc: Global,
    sig: &Sig,
    laws: &[GroundLaw<'a>],
    horizon: u32,
    room: usize,
) -> Result<Vec<TimedRule<'a>>, OutOfMemory>
    requires { horizon ≤ most_steps }
    ensures { IfOk result (λ rules. rules.items ≡ words.rules_for sig.now laws.now horizon) }
{
    let mut rules = Vec::with_capacity(alloc, room)?;
    add_all_initial(sig, &mut rules)?;
    let stride = stride(sig);
    for step in 0..horizon + 1 {
        add_step(laws, stride, horizon, step, &mut rules)?;
    }
    Ok(rules)
}

/// The initial rules of each horizon: for each simple fluent and each value of it in order, that at step 0 the value is a
/// cause of itself.
pub fn initial_rules<'a>(alloc: Global, sig: &Sig) -> Result<Vec<TimedRule<'a>>, OutOfMemory>
    ensures { IfOk result (λ rules. rules.items ≡ words.all_initial 0 sig.now.fluents) }
{
    let mut rules = Vec::new(alloc);
    add_all_initial(sig, &mut rules)?;
    Ok(rules)
}

/// The rules of laws at a step of a horizon, in order of the laws.
pub fn step_rules<'a>(
    alloc: Global,
    sig: &Sig,
    laws: &Laws<'a>,
    horizon: u32,
    step: u32,
) -> Result<Vec<TimedRule<'a>>, OutOfMemory>
    requires step { step ≤ horizon }
    requires horizon { horizon ≤ most_steps }
    ensures { IfOk result (λ rules.
        rules.items ≡ words.rules_at_step (words.stride_of sig.now) laws.now horizon step) }
{
    let mut rules = Vec::new(alloc);
    let stride = stride(sig);
    add_step(laws.laws(), stride, horizon, step, &mut rules)?;
    Ok(rules)
}
