//! The causal theory of a horizon.
ghost use Rattle.std.specs.Prelude.{◌≡◌, ◌≤◌, IfOk, IfErr, OnOk, length, nat_eq, nat_lt, if◌then◌else◌, Some, None};
ghost use Rattle.std.specs.List.{AllByRecursion, AllZip};
ghost use Rattle.cc_defs.specs.Limits.{most_steps, most_rules};
ghost use Rattle.cc_defs.specs.declared.refusal.LimitAt.TheVariants as limits;
ghost use Rattle.cc_defs.specs.Description.{Description, stride as stride_between};
ghost use Rattle.cc_defs.specs.Refusals.{IsRefusedBy, past as refusal_past};
ghost use Rattle.cc_defs.specs.TimedRules.{timed_rules};
ghost use Rattle.cc_defs.specs.Declarations.{numbers_where};
ghost use Rattle.cc_theory.specs.Groups.{place_keys, place_of, sizes_of, HasPlace};
ghost use Rattle.cc_theory.specs.Making.{rules_for};
ghost use Rattle.cc_theory.specs.Theories.{AreLawsOf, AreLawsFor, AreRulesAt, IsAtom, IsRuleOf, IsTheoryOf, ModelsArePathsOf, ModelsMeetCompletionOf, causes_of, denials_of, rules_refusal};

use crate::counting::rule_count;
use crate::groups::group;
use crate::index::{Index, index_of, place};
use crate::making::all_rules;
use crate::rule::{TimedHead, TimedRule};
use crate::theorems::{models_are_paths, models_meet_completion};
use cc_arena::{GroundLaw, Laws};
use cc_defs::{Fault, LimitAt, Refusal, Sig};
use std::alloc::Global;
use std::marker::Model;

/// The rules, where they are not more than their limit.
fn rules_within<'a>(
    alloc: Global,
    sig: &Sig,
    laws: &[GroundLaw<'a>],
    horizon: u32,
) -> Result<Vec<TimedRule<'a>>, Fault>
    requires { horizon ≤ most_steps }
    ensures made { IfOk result (λ rules. rules.items ≡ rules_for sig.now laws.now horizon) }
    ensures few { OnOk result (length (rules_for sig.now laws.now horizon) ≤ most_rules) }
    ensures refused { IfErr result
        (IsRefusedBy (if nat_lt most_rules (length (rules_for sig.now laws.now horizon)) then Some
        (refusal_past limits.Rules) else None)) }
{
    let count = rule_count(sig, laws, horizon);
    if count > LimitAt::Rules.number() as usize {
        return Err(Fault::Refused(Refusal::past(LimitAt::Rules)));
    }
    Ok(all_rules(alloc, sig, laws, horizon, count)?)
}

/// The rules of a horizon, by what they mean.
fn rules_meant<'a>(
    alloc: Global,
    sig: &Sig,
    laws: &[GroundLaw<'a>],
    horizon: u32,
) -> Result<Vec<TimedRule<'a>>, Fault>
    requires horizon { horizon ≤ most_steps }
    requires laws { AreLawsFor sig.now laws.now }
    ensures short { IfOk result (λ rules. length rules.items ≤ most_rules) }
    ensures pinned { IfOk result (λ rules. rules.items ≡ rules_for sig.now laws.now horizon) }
    ensures heads { IfOk result (λ rules.
        AllByRecursion (λ rule. HasPlace (sizes_of sig.now) horizon rule.head) rules.items) }
    ensures fit { IfOk result (λ rules. AreRulesAt sig.now horizon rules.items) }
    ensures rules { (d : Description) → AreLawsOf sig.now laws.now d → IfOk result (λ rules.
        AllZip (IsRuleOf (stride_between d)) rules.items (timed_rules d horizon)) }
    ensures few { (d : Description) →
        AreLawsOf sig.now laws.now d → OnOk result (length (timed_rules d horizon) ≤ most_rules) }
    ensures refused { (d : Description) →
        AreLawsOf sig.now laws.now d → IfErr result (IsRefusedBy (rules_refusal d horizon)) }
{
    rules_within(alloc, sig, laws, horizon)
}

/// The causal theory of a horizon: its rules in order, and which of them have an atom, or falsity, for their head. A rule has
/// the number at which it stands, from 0.
pub struct Theory<'a> {
    sig: &'a Sig,
    horizon: u32,
    rules: Vec<TimedRule<'a>>,
    index: Index,
}

impl<'a> Model for Theory<'a> {
    ghost use Rattle.std.specs.Prelude.{◌≤◌};
    ghost use Rattle.cc_defs.specs.Limits.{most_steps};
    ghost use Rattle.cc_theory.specs.Groups.{AreIndexed};
    ghost use Rattle.cc_theory.specs.Theories.{AreRulesAt, PlainTheory};

    ghost Value = { PlainTheory };

    ghost view = { λ theory. record {
      signature = theory.sig.now;
      horizon = theory.horizon;
      rules = theory.rules.items;
    } };

    ghost invariant = { λ theory. AreIndexed theory.sig.now theory.horizon theory.rules.items
        theory.index.firsts.items theory.index.begins.items theory.index.numbers.items × AreRulesAt
        theory.sig.now theory.horizon theory.rules.items × (theory.horizon ≤ most_steps) };
}

// By hand, so that whoever lets a theory go has one call there, and not a drop for each field.
impl<'a> Drop for Theory<'a> {
    fn drop(self) {
        let Theory {
            sig: _,
            horizon: _,
            rules,
            index: _,
        } = self;
        drop(rules);
    }
}

impl<'a> Theory<'a> {
    /// The theory of a horizon: first, for each simple fluent and each value of it in order, the rule that at step 0 the value
    /// is a cause of itself; then step by step, for each ground law in order, its rule at this step. A static law has one at
    /// each step, a dynamic one at each step but the last; head and `if` part of a fluent dynamic law stand one step later than
    /// its `after` part. Refuses more than 8,000,000 rules (14, rules) before any is made.
    /// The models of the theory are the rows that meet the completion of its rules, and the paths of so many transitions.
    pub fn at(
        alloc: Global,
        sig: &'a Sig,
        laws: &'a Laws<'a>,
        horizon: u32,
    ) -> Result<Theory<'a>, Fault>
        requires horizon { horizon ≤ most_steps }
        requires laws { AreLawsFor sig.now laws.now }
        ensures signature { IfOk result (λ theory. theory.signature ≡ sig.now) }
        ensures horizon { IfOk result (λ theory. theory.horizon ≡ horizon) }
        ensures pinned { IfOk result (λ theory. theory.rules ≡ rules_for sig.now laws.now horizon) }
        ensures rules { (d : Description) → AreLawsOf sig.now laws.now d → IfOk result (λ theory.
            AllZip (IsRuleOf (stride_between d)) theory.rules (timed_rules d horizon)) }
        ensures few { (d : Description) → AreLawsOf sig.now laws.now d →
            OnOk result (length (timed_rules d horizon) ≤ most_rules) }
        ensures refused { (d : Description) →
            AreLawsOf sig.now laws.now d → IfErr result (IsRefusedBy (rules_refusal d horizon)) }
        ensures of { (d : Description) →
            AreLawsOf sig.now laws.now d → IfOk result (λ theory. IsTheoryOf theory d) }
        ensures completed { (d : Description) →
            AreLawsOf sig.now laws.now d → ModelsMeetCompletionOf d horizon }
        ensures paths { (d : Description) →
            AreLawsOf sig.now laws.now d → ModelsArePathsOf d horizon }
    {
        models_meet_completion();
        models_are_paths();
        Theory::made(alloc, sig, laws, horizon)
    }

    fn made(
        alloc: Global,
        sig: &'a Sig,
        laws: &'a Laws<'a>,
        horizon: u32,
    ) -> Result<Theory<'a>, Fault>
        requires horizon { horizon ≤ most_steps }
        requires laws { AreLawsFor sig.now laws.now }
        ensures signature { IfOk result (λ theory. theory.signature ≡ sig.now) }
        ensures horizon { IfOk result (λ theory. theory.horizon ≡ horizon) }
        ensures pinned { IfOk result (λ theory. theory.rules ≡ rules_for sig.now laws.now horizon) }
        ensures rules { (d : Description) → AreLawsOf sig.now laws.now d → IfOk result (λ theory.
            AllZip (IsRuleOf (stride_between d)) theory.rules (timed_rules d horizon)) }
        ensures few { (d : Description) → AreLawsOf sig.now laws.now d →
            OnOk result (length (timed_rules d horizon) ≤ most_rules) }
        ensures refused { (d : Description) →
            AreLawsOf sig.now laws.now d → IfErr result (IsRefusedBy (rules_refusal d horizon)) }
    {
        let rules = rules_meant(alloc, sig, laws.laws(), horizon)?;
        let index = index_of(alloc, sig, horizon, &rules)?;
        Ok(Theory {
            sig,
            horizon,
            rules,
            index,
        })
    }

    /// The rules, in order.
    pub fn rules(&self) -> &[TimedRule<'a>]
        ensures rules { result.now ≡ self.now.rules }
        ensures fit { AreRulesAt self.now.signature self.now.horizon result.now }
    {
        self.rules.as_slice()
    }

    /// The numbers of the rules whose head is that the position has the value of this index, ascending.
    pub fn completion(&self, position: u64, value: u32) -> &[u32]
        requires { IsAtom self.now.signature self.now.horizon position value }
        ensures { result.now ≡ causes_of self.now.rules position value }
    {
        self.with_head(TimedHead::Atom { position, value })
    }

    /// The numbers of the rules whose head is falsity, ascending.
    pub fn denials(&self) -> &[u32]
        ensures { result.now ≡ denials_of self.now.rules }
    {
        self.with_head(TimedHead::Falsity)
    }

    fn with_head(&self, head: TimedHead) -> &[u32]
        requires { HasPlace (sizes_of self.now.signature) self.now.horizon head }
        ensures numbers { result.now
            ≡ numbers_where (nat_eq (place_of (sizes_of self.now.signature) self.now.horizon head))
            0 (place_keys (sizes_of self.now.signature) self.now.horizon self.now.rules) }
        ensures heads { AllByRecursion (λ rule.
            HasPlace (sizes_of self.now.signature) self.now.horizon rule.head) self.now.rules }
    {
        let key = place(self.sig, &self.index.firsts, self.horizon, head);
        group(&self.index.begins, &self.index.numbers, key)
    }

    /// The signature that it was made of.
    pub fn sig(&self) -> &'a Sig
        ensures { result.now ≡ self.now.signature }
    {
        self.sig
    }

    /// The horizon that it was made of.
    pub fn horizon(&self) -> u32
        ensures value { result ≡ self.now.horizon }
        ensures most { result ≤ most_steps }
    {
        self.horizon
    }
}
