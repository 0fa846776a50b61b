//! The clauses of the steps of a horizon of two, from which those of longer horizons are put together.
ghost use Rattle.std.specs.Prelude.{◌≡◌, ℕ, ◌+◌, ◌-◌, ◌*◌, ◌<◌, ◌≤◌, ◌++◌, [], ◌∷◌, List, length, map, sum, drop, take, IfOk, OnOk};
ghost use Rattle.std.specs.List.{AllByRecursion};
ghost use Rattle.cc_defs.specs.ClauseForms.{all_written};
ghost use Rattle.cc_defs.specs.ClauseLists.{completion_from, denials_of};
ghost use Rattle.cc_defs.specs.Clauses.{Literal};
ghost use Rattle.cc_defs.specs.Description.{domain_sizes};
ghost use Rattle.cc_defs.specs.Limits.{most_variables};
ghost use Rattle.cc_defs.specs.Signatures.{ground_constants};
ghost use Rattle.cc_theory.specs.Making.{all_initial, stride_of};
ghost use Rattle.cc_theory.specs.Theories.{AreLawsFor, plain_head, sizes_of_step};
ghost use Rattle.cc_form.specs.Making.{IsBodyOver, bodied, made_bodies};
ghost use Rattle.cc_form.specs.Places.{position_sizes};
ghost use Rattle.cc_form.specs.Steps.{AreSteps, IsRuled, bodies_at, bodies_of_step, completion_of_step, denials_of_step, own_variables, step_bodies as bodies_in, truth_at};
ghost use Rattle.cc_form.specs.Store.{Gives, Holds};

use crate::groups::{complete_between, deny_each};
use crate::places::value_count_of;
use crate::rules::bodies;
use crate::store::Store;
use crate::writer::Writer;
use cc_arena::Laws;
use cc_clauses::ClauseArena;
use cc_defs::{Fault, Lit, Sig};
use cc_theory::theorems::laws_give_rules;
use cc_theory::{Theory, TimedRule, initial_rules, step_rules};
use std::alloc::Global;
use std::mem::replace;

/// The clauses of a step: those of the bodies of its rules, of the completion of its atoms, and of its denials.
#[derive(Drop)]
pub(crate) struct Step {
    pub(crate) bodies: ClauseArena,
    pub(crate) completion: ClauseArena,
    pub(crate) denials: ClauseArena,
}

/// The clauses of the three steps of a horizon of two, with how many variables its atoms have, those of one step, how many
/// are made at each step before the last, and the last variable.
#[derive(Drop)]
pub(crate) struct Steps {
    pub(crate) first: Step,
    pub(crate) later: Step,
    pub(crate) last: Step,
    pub(crate) atoms: u32,
    pub(crate) values: u32,
    pub(crate) own: u32,
    pub(crate) ends: u32,
}

/// The clauses of a step's rules alone.
#[derive(Drop)]
struct RuledStep {
    bodies: ClauseArena,
    denials: ClauseArena,
}

/// Those of three steps, and how many variables are made at the first.
#[derive(Drop)]
struct ThreeRuled {
    first: RuledStep,
    later: RuledStep,
    last: RuledStep,
    own: u32,
}

/// The completion of three steps.
#[derive(Drop)]
struct ThreeComplete {
    first: ClauseArena,
    later: ClauseArena,
    last: ClauseArena,
}

/// Takes the clauses out, where they are within their limits.
fn taken(alloc: Global, writer: &mut Writer) -> Result<ClauseArena, Fault>
    ensures arena { (clauses : List (List Literal)) →
        Holds writer.old.store.kept clauses → IfOk result (λ arena. arena ≡ clauses) }
    ensures none { OnOk result (Holds writer.new.store.kept []) }
    ensures places { writer.new.places ≡ writer.old.places }
    ensures last { writer.new.last ≡ writer.old.last }
{
    writer.fits()?;
    let store = replace(&mut writer.store, Store::new(alloc));
    Ok(store.close())
}

/// The denials of rules, behind the clauses that are there.
fn denied(
    alloc: Global,
    writer: &mut Writer,
    rules: &[TimedRule<'_>],
    bodies: &[Lit],
) -> Result<ClauseArena, Fault>
    requires { length bodies.now ≡ length rules.now }
    ensures denials { (clauses : List (List Literal)) → Holds writer.old.store.kept clauses →
        IfOk result (λ arena.
        arena ≡ clauses ++ all_written (denials_of (bodied rules.now bodies.now))) }
    ensures none { OnOk result (Holds writer.new.store.kept []) }
    ensures places { writer.new.places ≡ writer.old.places }
    ensures last { writer.new.last ≡ writer.old.last }
{
    deny_each(&mut writer.store, rules, bodies)?;
    taken(alloc, writer)
}

/// The clauses of rules, and the literals of their bodies behind those of others.
fn ruled(
    alloc: Global,
    writer: &mut Writer,
    stride: u64,
    rules: &[TimedRule<'_>],
    literals: &mut Vec<Lit>,
) -> Result<RuledStep, Fault>
    requires within { writer.old.last ≤ most_variables }
    requires bound { stride ≤ 8589934592 }
    requires fits { AllByRecursion (IsBodyOver writer.old.places stride) rules.now }
    requires none { Holds writer.old.store.kept [] }
    ensures bodies { IfOk result (λ ruled.
        ruled.bodies ≡ (made_bodies writer.old.places stride writer.old.last rules.now).clauses) }
    ensures denials { IfOk result (λ ruled. ruled.denials ≡ all_written
        (denials_of (made_bodies writer.old.places stride writer.old.last rules.now).rules)) }
    ensures literals { OnOk result (literals.new.items ≡ literals.old.items ++ map (λ rule.
        rule.body) (made_bodies writer.old.places stride writer.old.last rules.now).rules) }
    ensures last { OnOk result
        (writer.new.last ≡ (made_bodies writer.old.places stride writer.old.last rules.now).last) }
    ensures most { OnOk result (writer.new.last ≤ most_variables) }
    ensures places { OnOk result (writer.new.places ≡ writer.old.places) }
    ensures empty { OnOk result (Holds writer.new.store.kept []) }
{
    let made = bodies(alloc, writer, stride, rules)?;
    literals.extend_from_slice(&made)?;
    let bodies = taken(alloc, writer)?;
    let denials = denied(alloc, writer, rules, &made)?;
    Ok(RuledStep { bodies, denials })
}

/// The literals of the bodies of initial rules.
fn begin(
    alloc: Global,
    writer: &mut Writer,
    sig: &Sig,
    laws: &Laws<'_>,
    literals: &mut Vec<Lit>,
) -> Result<(), Fault>
    requires laws { AreLawsFor sig.now laws.now }
    requires places { writer.old.places ≡ position_sizes sig.now 2 }
    requires last { writer.old.last ≡ truth_at sig.now 2 }
    requires within { writer.old.last ≤ most_variables }
    requires none { Holds writer.old.store.kept [] }
    ensures literals { OnOk result (literals.new.items
        ≡ literals.old.items ++ map (λ rule. rule.body) (made_bodies (position_sizes sig.now 2)
        (stride_of sig.now) (truth_at sig.now 2) (all_initial 0 sig.now.fluents)).rules) }
    ensures last { OnOk result (writer.new.last ≡ writer.old.last) }
    ensures places { OnOk result (writer.new.places ≡ writer.old.places) }
    ensures empty { OnOk result (Holds writer.new.store.kept []) }
{
    laws_give_rules();
    let stride = u64::from(sig.fluents()) + u64::from(sig.actions());
    let rules = initial_rules(alloc, sig)?;
    ruled(alloc, writer, stride, &rules, literals)?;
    Ok(())
}

/// The clauses of the rules of a step, and the literals of their bodies behind those of the steps before.
fn go_on(
    alloc: Global,
    writer: &mut Writer,
    sig: &Sig,
    laws: &Laws<'_>,
    step: u32,
    literals: &mut Vec<Lit>,
) -> Result<RuledStep, Fault>
    requires laws { AreLawsFor sig.now laws.now }
    requires step { step ≤ 2 }
    requires places { writer.old.places ≡ position_sizes sig.now 2 }
    requires last { writer.old.last ≡ truth_at sig.now 2 + step * own_variables sig.now laws.now }
    requires within { writer.old.last ≤ most_variables }
    requires none { Holds writer.old.store.kept [] }
    ensures bodies { IfOk result (λ ruled. ruled.bodies ≡ bodies_of_step sig.now laws.now 2 step) }
    ensures denials { IfOk result (λ ruled.
        ruled.denials ≡ denials_of_step sig.now laws.now 2 step) }
    ensures literals { OnOk result (literals.new.items ≡ literals.old.items ++ map (λ rule.
        rule.body) (bodies_in sig.now laws.now (own_variables sig.now laws.now) 2 step).rules) }
    ensures last { OnOk result (writer.new.last
        ≡ (bodies_in sig.now laws.now (own_variables sig.now laws.now) 2 step).last) }
    ensures next { step < 2 → OnOk result
        (writer.new.last ≡ truth_at sig.now 2 + (step + 1) * own_variables sig.now laws.now) }
    ensures most { OnOk result (writer.new.last ≤ most_variables) }
    ensures places { OnOk result (writer.new.places ≡ writer.old.places) }
    ensures empty { OnOk result (Holds writer.new.store.kept []) }
{
    laws_give_rules();
    let stride = u64::from(sig.fluents()) + u64::from(sig.actions());
    let rules = step_rules(alloc, sig, laws, 2, step)?;
    ruled(alloc, writer, stride, &rules, literals)
}

/// The clauses of the rules of all three steps, and the literals of the bodies of all rules.
fn three_ruled(
    alloc: Global,
    writer: &mut Writer,
    sig: &Sig,
    laws: &Laws<'_>,
    literals: &mut Vec<Lit>,
) -> Result<ThreeRuled, Fault>
    requires laws { AreLawsFor sig.now laws.now }
    requires places { writer.old.places ≡ position_sizes sig.now 2 }
    requires last { writer.old.last ≡ truth_at sig.now 2 }
    requires within { writer.old.last ≤ most_variables }
    requires none { Holds writer.old.store.kept [] }
    requires begins { literals.old.items ≡ [] }
    ensures first { IfOk result (λ three. IsRuled sig.now laws.now 0 three.first) }
    ensures later { IfOk result (λ three. IsRuled sig.now laws.now 1 three.later) }
    ensures last { IfOk result (λ three. IsRuled sig.now laws.now 2 three.last) }
    ensures own { IfOk result (λ three. three.own ≡ own_variables sig.now laws.now) }
    ensures literals { OnOk result
        (literals.new.items ≡ map (λ rule. rule.body) (bodies_at sig.now laws.now 2).rules) }
    ensures ends { OnOk result (writer.new.last ≡ (bodies_at sig.now laws.now 2).last) }
    ensures most { OnOk result (writer.new.last ≤ most_variables) }
    ensures places { OnOk result (writer.new.places ≡ writer.old.places) }
    ensures empty { OnOk result (Holds writer.new.store.kept []) }
{
    laws_give_rules();
    let start = writer.last;
    begin(alloc, writer, sig, laws, literals)?;
    let first = go_on(alloc, writer, sig, laws, 0, literals)?;
    let own = writer.last - start;
    let later = go_on(alloc, writer, sig, laws, 1, literals)?;
    let last = go_on(alloc, writer, sig, laws, 2, literals)?;
    Ok(ThreeRuled {
        first,
        later,
        last,
        own,
    })
}

/// The completion of the positions from one to before another, behind the clauses that are there.
fn completed(
    alloc: Global,
    writer: &mut Writer,
    theory: &Theory<'_>,
    literals: &[Lit],
    start: usize,
    end: usize,
) -> Result<ClauseArena, Fault>
    requires places { writer.old.places ≡ position_sizes theory.now.signature theory.now.horizon }
    requires literals { length literals.now ≡ length theory.now.rules }
    requires ordered { start ≤ end }
    requires within { end ≤ length writer.old.places }
    ensures completion { (clauses : List (List Literal)) → Holds writer.old.store.kept clauses →
        IfOk result (λ arena. arena ≡ clauses
        ++ all_written (completion_from writer.old.places (bodied theory.now.rules literals.now)
        start (take (end - start) (drop start writer.old.places)))) }
    ensures last { writer.new.last ≡ writer.old.last }
    ensures places { writer.new.places ≡ writer.old.places }
    ensures empty { OnOk result (Holds writer.new.store.kept []) }
{
    let mut causes = Vec::new(alloc);
    complete_between(
        &mut writer.store,
        &writer.places,
        theory,
        literals,
        &mut causes,
        start,
        end,
    )?;
    taken(alloc, writer)
}

/// The completion of all three steps.
fn three_complete(
    alloc: Global,
    writer: &mut Writer,
    sig: &Sig,
    laws: &Laws<'_>,
    literals: &[Lit],
) -> Result<ThreeComplete, Fault>
    requires laws { AreLawsFor sig.now laws.now }
    requires places { writer.old.places ≡ position_sizes sig.now 2 }
    requires literals { literals.now
        ≡ map (λ rule. rule.body) (bodies_at sig.now laws.now 2).rules }
    requires none { Holds writer.old.store.kept [] }
    ensures first { IfOk result (λ three. three.first ≡ completion_of_step sig.now laws.now 2 0) }
    ensures later { IfOk result (λ three. three.later ≡ completion_of_step sig.now laws.now 2 1) }
    ensures last { IfOk result (λ three. three.last ≡ completion_of_step sig.now laws.now 2 2) }
    ensures ends { OnOk result (writer.new.last ≡ writer.old.last) }
{
    let theory = Theory::at(alloc, sig, laws, 2)?;
    let stride = sig.fluents() as usize + sig.actions() as usize;
    let end = writer.places.sizes().len();
    let first = completed(alloc, writer, &theory, literals, 0, stride)?;
    let later = completed(alloc, writer, &theory, literals, stride, 2 * stride)?;
    let last = completed(alloc, writer, &theory, literals, 2 * stride, end)?;
    Ok(ThreeComplete { first, later, last })
}

/// The clauses of a step, put together.
fn step_of(ruled: RuledStep, completion: ClauseArena) -> Step
    ensures bodies { result.bodies ≡ ruled.bodies }
    ensures completion { result.completion ≡ completion }
    ensures denials { result.denials ≡ ruled.denials }
{
    Step {
        bodies: ruled.bodies,
        completion,
        denials: ruled.denials,
    }
}

/// The clauses of the steps of a horizon of two, by a writer over its positions, where a step has so many values.
fn steps_by(
    alloc: Global,
    writer: &mut Writer,
    sig: &Sig,
    laws: &Laws<'_>,
    values: u32,
) -> Result<Steps, Fault>
    requires laws { AreLawsFor sig.now laws.now }
    requires places { writer.old.places ≡ position_sizes sig.now 2 }
    requires last { writer.old.last ≡ truth_at sig.now 2 }
    requires within { writer.old.last ≤ most_variables }
    requires none { Holds writer.old.store.kept [] }
    requires values { values ≡ sum (domain_sizes (ground_constants sig.now)) }
    ensures { IfOk result (AreSteps sig.now laws.now) }
{
    let atoms = writer.last - 1;
    let mut literals = Vec::new(alloc);
    let ruled = three_ruled(alloc, writer, sig, laws, &mut literals)?;
    let completion = three_complete(alloc, writer, sig, laws, &literals)?;
    let ends = writer.last;
    let ThreeRuled {
        first,
        later,
        last,
        own,
    } = ruled;
    Ok(Steps {
        first: step_of(first, completion.first),
        later: step_of(later, completion.later),
        last: step_of(last, completion.last),
        atoms,
        values,
        own,
        ends,
    })
}

/// The clauses of the steps of a horizon of two, where it passes no limit.
pub(crate) fn steps_of(alloc: Global, sig: &Sig, laws: &Laws<'_>) -> Result<Steps, Fault>
    requires { AreLawsFor sig.now laws.now }
    ensures { IfOk result (AreSteps sig.now laws.now) }
{
    let values = value_count_of(alloc, sig)?;
    let mut writer = Writer::over(alloc, sig, 2)?;
    steps_by(alloc, &mut writer, sig, laws, values)
}
