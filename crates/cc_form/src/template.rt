//! Clause lists put together from the clauses of the steps of a horizon of two.
ghost use Rattle.std.specs.Prelude.{◌≡◌, ℕ, ◌+◌, ◌-◌, ◌*◌, ◌≤◌, Bool, IfOk, IfErr, IfSome, OnOk, None, [], length};
ghost use Rattle.std.specs.Option.{option_map};
ghost use Rattle.cc_arena.specs.GroundViews.{plain_ground_query};
ghost use Rattle.cc_defs.specs.ClauseForms.{true_variable};
ghost use Rattle.cc_defs.specs.Description.{Description};
ghost use Rattle.cc_defs.specs.GroundLaws.{StandsForQuery};
ghost use Rattle.cc_defs.specs.Limits.{most_rules, most_steps, most_variables};
ghost use Rattle.cc_defs.specs.Refusals.{IsRefusedBy};
ghost use Rattle.cc_defs.specs.Resolved.{Query};
ghost use Rattle.cc_theory.specs.Making.{rules_for, stride_of};
ghost use Rattle.cc_theory.specs.Theories.{AreLawsFor, AreLawsOf};
ghost use Rattle.cc_form.specs.Building.{IsBuiltForm, IsSection};
ghost use Rattle.cc_form.specs.Forms.{TellsHistories, asked, form_of, section_refusal};
ghost use Rattle.cc_form.specs.Machine.{Adds, IsPast};
ghost use Rattle.cc_form.specs.Making.{rules_list};
ghost use Rattle.cc_form.specs.Places.{position_sizes};
ghost use Rattle.cc_form.specs.Queries.{IsKeyAt, IsQueryAt, section_list};
ghost use Rattle.cc_form.specs.Store.{Gives, Holds};
ghost use Rattle.cc_form.specs.Steps.{AreOverSteps, AreSteps, CanPlace, IsFormAt, placed_steps};

use crate::draft::write_first;
use crate::form::{Form, add_query, clauses, close};
use crate::moving::{Way, place};
use crate::steps::{Steps, steps_of};
use crate::store::Store;
use crate::theorems::clauses_tell_rows;
use crate::writer::Writer;
use cc_arena::theorems::terms_mean_formulas;
use cc_arena::{GroundQuery, Laws, one_formula};
use cc_defs::{Fault, Key, LimitAt, OutOfMemory, Refusal, Sig};
use cc_theory::theorems::{laws_give_rules, models_are_paths, models_meet_completion};
use cc_theory::{Theory, are_rules_few};
use std::alloc::Global;
use std::marker::Model;

/// The clauses of one step of each kind, the first, one behind it and the last, from which the clause list of each horizon of
/// two steps or more is put together: the variables of a step are those of another, each moved by the same number.
pub struct Template<'a> {
    alloc: Global,
    sig: &'a Sig,
    laws: &'a Laws<'a>,
    // Those of a horizon of two, where it passes no limit.
    steps: Option<Steps>,
}

impl<'a> Model for Template<'a> {
    ghost use Rattle.std.specs.Prelude.{IfSome};
    ghost use Rattle.cc_theory.specs.Theories.{AreLawsFor};
    ghost use Rattle.cc_form.specs.Steps.{AreSteps, TemplateView};

    ghost Value = { TemplateView };

    ghost view = { λ template. record { signature = template.sig.now; laws = template.laws.now } };

    ghost invariant = { λ template. AreLawsFor template.sig.now template.laws.now
        × IfSome template.steps (AreSteps template.sig.now template.laws.now) };
}

// By hand, so that whoever lets a template go has one call there, and not a drop for each field.
impl<'a> Drop for Template<'a> {
    fn drop(self) {
        let Template {
            alloc: _,
            sig: _,
            laws: _,
            steps,
        } = self;
        drop(steps);
    }
}

/// The clauses of a horizon of two, where it passes no limit.
fn steps_within(alloc: Global, sig: &Sig, laws: &Laws<'_>) -> Result<Option<Steps>, OutOfMemory>
    requires { AreLawsFor sig.now laws.now }
    ensures { IfOk result (λ steps. IfSome steps (AreSteps sig.now laws.now)) }
{
    match steps_of(alloc, sig, laws) {
        Ok(steps) => Ok(Some(steps)),
        Err(Fault::Refused(_)) => Ok(None),
        Err(Fault::OutOfMemory) => Err(OutOfMemory),
    }
}

/// The steps, where a horizon has two or more and its rules are not more than their limit.
fn steps_at<'t>(
    sig: &Sig,
    laws: &Laws<'_>,
    steps: &'t Option<Steps>,
    horizon: u32,
) -> Option<&'t Steps>
    requires most { horizon ≤ most_steps }
    requires steps { IfSome steps.now (AreSteps sig.now laws.now) }
    ensures steps { IfSome result (λ steps. AreSteps sig.now laws.now steps.now) }
    ensures some { IfSome result (λ steps. 2 ≤ horizon) }
    ensures few { IfSome result (λ steps.
        length (rules_for sig.now laws.now horizon) ≤ most_rules) }
{
    if horizon < 2 || !are_rules_few(sig, laws, horizon) {
        return None;
    }
    steps.as_ref()
}

/// How the clauses of steps move to a horizon whose variable that is true is this one.
fn way_to(steps: &Steps, truth: u32) -> Way
    requires { steps.now.atoms + 1 ≤ truth }
    ensures { result ≡ record {
      atoms = steps.now.atoms;
      values = steps.now.values;
      middle = truth - (steps.now.atoms + 1);
      own = steps.now.own;
    } }
{
    Way {
        atoms: steps.atoms,
        values: steps.values,
        middle: truth - (steps.atoms + 1),
        own: steps.own,
    }
}

/// The last variable of the clauses of a horizon.
fn last_variable(way: &Way, ends: u32, horizon: u32) -> Result<u32, Fault>
    requires some { 2 ≤ horizon }
    requires most { horizon ≤ most_steps }
    ensures last { IfOk result (λ last.
        last ≡ ends + (way.now.middle + (horizon - 2) * way.now.own)) }
    ensures within { OnOk result
        (ends + (way.now.middle + (horizon - 2) * way.now.own) ≤ most_variables) }
    ensures refused { IfErr result
        (IsPast (ends + (way.now.middle + (horizon - 2) * way.now.own))) }
{
    let own = u64::from(horizon - 2) * u64::from(way.own);
    let last = u64::from(ends) + (u64::from(way.middle) + own);
    if last > u64::from(LimitAt::Variables.number()) {
        return Err(Fault::Refused(Refusal::past(LimitAt::Variables)));
    }
    Ok(last as u32)
}

/// The clauses of positions, rules, completion and denials, put together.
fn place_steps(
    writer: &mut Writer,
    sig: &Sig,
    laws: &Laws<'_>,
    steps: &Steps,
    horizon: u32,
) -> Result<(), Fault>
    requires laws { AreLawsFor sig.now laws.now }
    requires steps { AreSteps sig.now laws.now steps.now }
    requires some { 2 ≤ horizon }
    requires most { horizon ≤ most_steps }
    requires places { writer.old.places ≡ position_sizes sig.now horizon }
    requires last { writer.old.last ≡ true_variable writer.old.places }
    requires within { writer.old.last ≤ most_variables }
    ensures { Adds writer.old writer.new result
        (rules_list writer.old.places (stride_of sig.now) (rules_for sig.now laws.now horizon)) }
{
    laws_give_rules();
    let way = way_to(steps, writer.last);
    let last = last_variable(&way, steps.ends, horizon)?;
    write_first(writer)?;
    place_groups(&mut writer.store, steps, &way, horizon)?;
    writer.last = last;
    Ok(())
}

/// The bodies, completion and denials of all steps.
fn place_groups(
    store: &mut Store,
    steps: &Steps,
    way: &Way,
    horizon: u32,
) -> Result<(), OutOfMemory>
    requires { (top : ℕ) × AreOverSteps top steps.now × CanPlace way.now horizon top }
    ensures { OnOk result
        (Gives store.old.kept store.new.kept (placed_steps way.now horizon steps.now)) }
{
    place(
        store,
        way,
        horizon,
        &steps.first.bodies,
        &steps.later.bodies,
        &steps.last.bodies,
    )?;
    place(
        store,
        way,
        horizon,
        &steps.first.completion,
        &steps.later.completion,
        &steps.last.completion,
    )?;
    place(
        store,
        way,
        horizon,
        &steps.first.denials,
        &steps.later.denials,
        &steps.last.denials,
    )
}

/// The clauses of a section, put together by a writer over its positions.
fn fill(
    writer: &mut Writer,
    sig: &Sig,
    laws: &Laws<'_>,
    steps: &Steps,
    horizon: u32,
    query: &GroundQuery<'_>,
    with_claim: bool,
    after: Option<&Key>,
) -> Result<(), Fault>
    requires laws { AreLawsFor sig.now laws.now }
    requires steps { AreSteps sig.now laws.now steps.now }
    requires some { 2 ≤ horizon }
    requires most { horizon ≤ most_steps }
    requires query { IsQueryAt sig.now horizon (plain_ground_query query.now) }
    requires key { IfSome after (λ key. IsKeyAt sig.now horizon key.now) }
    requires places { writer.old.places ≡ position_sizes sig.now horizon }
    requires last { writer.old.last ≡ true_variable writer.old.places }
    requires within { writer.old.last ≤ most_variables }
    requires none { Holds writer.old.store.kept [] }
    ensures built { OnOk result (IsSection (position_sizes sig.now horizon) (section_list (record
        { signature = sig.now; horizon = horizon; rules = rules_for sig.now laws.now horizon })
        (plain_ground_query query.now) with_claim (option_map (λ key. key.now) after.entry))
        writer.new) }
    ensures refused { IfErr result (IsPast (section_list (record {
      signature = sig.now;
      horizon
          = horizon;
      rules = rules_for sig.now laws.now horizon;
    }) (plain_ground_query query.now)
        with_claim (option_map (λ key. key.now) after.entry)).variables) }
    ensures ready { OnOk result (IsBuiltForm writer.new) }
{
    laws_give_rules();
    let stride = u64::from(sig.fluents()) + u64::from(sig.actions());
    place_steps(writer, sig, laws, steps, horizon)?;
    add_query(writer, stride, horizon, query, with_claim, after)
}

/// The clauses of a section, put together.
fn build(
    alloc: Global,
    sig: &Sig,
    laws: &Laws<'_>,
    steps: &Steps,
    horizon: u32,
    query: &GroundQuery<'_>,
    with_claim: bool,
    after: Option<&Key>,
) -> Result<Writer, Fault>
    requires laws { AreLawsFor sig.now laws.now }
    requires steps { AreSteps sig.now laws.now steps.now }
    requires some { 2 ≤ horizon }
    requires most { horizon ≤ most_steps }
    requires query { IsQueryAt sig.now horizon (plain_ground_query query.now) }
    requires key { IfSome after (λ key. IsKeyAt sig.now horizon key.now) }
    ensures built { IfOk result (IsSection (position_sizes sig.now horizon) (section_list (record
        { signature = sig.now; horizon = horizon; rules = rules_for sig.now laws.now horizon })
        (plain_ground_query query.now) with_claim (option_map (λ key. key.now) after.entry))) }
    ensures refused { IfErr result (IsPast (section_list (record {
      signature = sig.now;
      horizon
          = horizon;
      rules = rules_for sig.now laws.now horizon;
    }) (plain_ground_query query.now)
        with_claim (option_map (λ key. key.now) after.entry)).variables) }
    ensures ready { IfOk result IsBuiltForm }
{
    let mut writer = Writer::over(alloc, sig, horizon)?;
    fill(
        &mut writer,
        sig,
        laws,
        steps,
        horizon,
        query,
        with_claim,
        after,
    )?;
    Ok(writer)
}

/// The clause list of a section, put together.
fn put_together(
    alloc: Global,
    sig: &Sig,
    laws: &Laws<'_>,
    steps: &Steps,
    horizon: u32,
    query: &GroundQuery<'_>,
    with_claim: bool,
    after: Option<&Key>,
) -> Result<Form, Fault>
    requires laws { AreLawsFor sig.now laws.now }
    requires steps { AreSteps sig.now laws.now steps.now }
    requires some { 2 ≤ horizon }
    requires most { horizon ≤ most_steps }
    requires few { length (rules_for sig.now laws.now horizon) ≤ most_rules }
    requires query { IsQueryAt sig.now horizon (plain_ground_query query.now) }
    requires key { IfSome after (λ key. IsKeyAt sig.now horizon key.now) }
    ensures { IsFormAt sig.now laws.now horizon
        (plain_ground_query query.now) with_claim (option_map (λ key. key.now) after.entry)
        (option_map (λ key. key.now.row) after.entry) result }
{
    laws_give_rules();
    clauses_tell_rows();
    models_meet_completion();
    models_are_paths();
    terms_mean_formulas();
    one_formula();
    let writer = build(alloc, sig, laws, steps, horizon, query, with_claim, after)?;
    close(writer)
}

/// The clause list of a section, made rule by rule.
fn made(
    alloc: Global,
    sig: &Sig,
    laws: &Laws<'_>,
    horizon: u32,
    query: &GroundQuery<'_>,
    with_claim: bool,
    after: Option<&Key>,
) -> Result<Form, Fault>
    requires laws { AreLawsFor sig.now laws.now }
    requires horizon { horizon ≤ most_steps }
    requires query { IsQueryAt sig.now horizon (plain_ground_query query.now) }
    requires key { IfSome after (λ key. IsKeyAt sig.now horizon key.now) }
    ensures { IsFormAt sig.now laws.now horizon
        (plain_ground_query query.now) with_claim (option_map (λ key. key.now) after.entry)
        (option_map (λ key. key.now.row) after.entry) result }
{
    let theory = Theory::at(alloc, sig, laws, horizon)?;
    clauses(alloc, &theory, query, with_claim, after)
}

impl<'a> Template<'a> {
    /// The clauses of the steps of a horizon of two. Where it passes a limit none are kept, and each list is made rule by rule.
    pub fn new(alloc: Global, sig: &'a Sig, laws: &'a Laws<'a>) -> Result<Template<'a>, OutOfMemory>
        requires laws { AreLawsFor sig.now laws.now }
        ensures { IfOk result (λ template.
            template ≡ record { signature = sig.now; laws = laws.now }) }
    {
        let steps = steps_within(alloc, sig, laws)?;
        Ok(Template {
            alloc,
            sig,
            laws,
            steps,
        })
    }

    /// The clause list of a section at a horizon, the same as that of its theory: put together where the horizon has two steps
    /// or more. Refuses the first limit that its rules or clauses pass (14, rules, variables, axiom clauses or axiom literals).
    pub fn clauses(
        &self,
        horizon: u32,
        query: &GroundQuery<'_>,
        with_claim: bool,
        after: Option<&Key>,
    ) -> Result<Form, Fault>
        requires horizon { horizon ≤ most_steps }
        requires query { IsQueryAt self.now.signature horizon (plain_ground_query query.now) }
        requires key { IfSome after (λ key. IsKeyAt self.now.signature horizon key.now) }
        ensures made { (d : Description) (q : Query) → AreLawsOf self.now.signature self.now.laws
            d → StandsForQuery (plain_ground_query query.now) d q → IfOk result (λ form.
            form ≡ form_of d q horizon with_claim (option_map (λ key. key.now) after.entry)) }
        ensures tells { (d : Description) (q : Query) → AreLawsOf self.now.signature self.now.laws
            d → StandsForQuery (plain_ground_query query.now) d q → OnOk result (TellsHistories d
            (asked with_claim q) horizon (option_map (λ key. key.now.row) after.entry)
            (form_of d q horizon with_claim (option_map (λ key. key.now) after.entry))) }
        ensures within { (d : Description) (q : Query) → AreLawsOf self.now.signature self.now.laws
            d → StandsForQuery (plain_ground_query query.now) d q → OnOk result (section_refusal
            d q horizon with_claim (option_map (λ key. key.now) after.entry) ≡ None) }
        ensures refused { (d : Description) (q : Query) → AreLawsOf self.now.signature self.now.laws
            d → StandsForQuery (plain_ground_query query.now) d q → IfErr result (IsRefusedBy
            (section_refusal d q horizon with_claim (option_map (λ key. key.now) after.entry))) }
    {
        match steps_at(self.sig, self.laws, &self.steps, horizon) {
            Some(steps) => put_together(
                self.alloc, self.sig, self.laws, steps, horizon, query, with_claim, after,
            ),
            None => made(
                self.alloc, self.sig, self.laws, horizon, query, with_claim, after,
            ),
        }
    }
}
