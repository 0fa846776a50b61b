//! The clause list of a section.
ghost use Rattle.std.specs.Prelude.{◌≡◌, [], map, ℕ, ◌+◌, ◌≤◌, ◌<◌, ◌↔◌, List, Bool, Some, None, IfOk, IfErr, IfSome, OnOk, IsTrue, All, Contains, length, slice_get, sum};
ghost use Rattle.std.specs.Option.{option_map};
ghost use Rattle.cc_arena.specs.GroundViews.{plain_ground_condition, plain_ground_query};
ghost use Rattle.cc_defs.specs.ClauseForms.{atom_variable, positive, true_variable};
ghost use Rattle.cc_defs.specs.ClauseLists.{clause_list, key_terms, positions_from};
ghost use Rattle.cc_defs.specs.Clauses.{Literal, IsClause, IsNumbered, IsOver};
ghost use Rattle.cc_defs.specs.Description.{Description};
ghost use Rattle.cc_defs.specs.GroundLaws.{StandsForQuery};
ghost use Rattle.cc_defs.specs.Limits.{most_clauses, most_variables, most_steps};
ghost use Rattle.cc_defs.specs.Refusals.{IsRefusedBy};
ghost use Rattle.cc_defs.specs.Resolved.{Query};
ghost use Rattle.cc_defs.specs.Rows.{IsRow};
ghost use Rattle.cc_defs.specs.Terms.{postfix};
ghost use Rattle.cc_theory.specs.Making.{stride_of};
ghost use Rattle.cc_theory.specs.Theories.{AreRulesAt, IsTheoryOf};
ghost use Rattle.cc_form.specs.Drafts.{IsWhole};
ghost use Rattle.cc_form.specs.Forms.{IsForm, TellsHistories, asked, form_of, form_refusal, with_atom};
ghost use Rattle.cc_form.specs.Machine.{Adds, IsPast};
ghost use Rattle.cc_form.specs.Making.{asserted_nodes, denied_nodes, nodes_if, query_list, rules_list};
ghost use Rattle.cc_form.specs.Places.{position_sizes};
ghost use Rattle.cc_form.specs.Queries.{IsKeyAt, IsOverPlaces, IsQueryAt, condition_nodes, section_list};
ghost use Rattle.cc_form.specs.Building.{IsBuiltForm, IsSection, count_refusal};
ghost use Rattle.cc_form.specs.Store.{AreFew, Holds};
ghost use Rattle.std.specs.List.{AllByRecursion};

use crate::copies::{copy_of, copy_with, fits_one};
use crate::draft::write_first;
use crate::groups::{complete, deny_falsity};
use crate::places::Places;
use crate::rules::bodies_within;
use crate::section::{assert_all, deny, follow};
use crate::theorems::clauses_tell_rows;
use crate::writer::Writer;
use cc_arena::theorems::terms_mean_formulas;
use cc_arena::{GroundCondition, GroundQuery, one_formula};
use cc_clauses::ClauseArena;
use cc_defs::{Fault, Key, Lit, OutOfMemory};
use cc_theory::Theory;
use cc_theory::theorems::{models_are_paths, models_meet_completion};
use std::alloc::Global;
use std::marker::Model;

/// The axioms of a section: clauses over the atoms of the positions of a horizon, over a variable that is true, and over one
/// for each conjunction, disjunction and equivalence. The variables of the atoms come first, from 1: for each position in
/// order one for each of its values in order.
#[derive(Drop)]
pub struct Form {
    places: Places,
    variables: u32,
    clauses: ClauseArena,
}

impl Model for Form {
    ghost use Rattle.cc_defs.specs.Sections.{Axioms};
    ghost use Rattle.cc_form.specs.Forms.{IsForm};

    ghost Value = { Axioms };

    ghost view = { λ form.
        record { sizes = form.places; variables = form.variables; clauses = form.clauses } };

    ghost invariant = { λ form. IsForm
        (record { sizes = form.places; variables = form.variables; clauses = form.clauses }) };
}

impl Form {
    /// How many clauses there are.
    pub fn count(&self) -> u32
        ensures value { result ≡ length self.now.clauses }
        ensures most { result ≤ most_clauses }
        ensures form { IsForm self.now }
    {
        self.clauses.count() as u32
    }

    /// How many variables there are: those of the atoms, the one that is true, and those of the terms behind it.
    pub fn variables(&self) -> u32
        ensures value { result ≡ self.now.variables }
        ensures most { result ≤ most_variables }
        ensures least { sum self.now.sizes + 1 ≤ result }
    {
        self.variables
    }

    /// The clause of a number, from 1.
    pub fn clause(&self, id: u32) -> &[Lit]
        requires some { 0 < id }
        requires most { id ≤ length self.now.clauses }
        ensures numbered { IsNumbered self.now.clauses id result.now }
        ensures clause { IsClause result.now }
        ensures over { IsOver self.now.variables result.now }
    {
        self.clauses.clause(id as usize - 1)
    }

    /// How many values each position has. That each has exactly one of them is said by clauses of the list.
    pub fn sizes(&self) -> &[u32]
        ensures sizes { result.now ≡ self.now.sizes }
        ensures choices { (clause : List Literal) →
            Contains (positions_from 1 self.now.sizes) clause → Contains self.now.clauses clause }
    {
        self.places.sizes()
    }

    /// Whether a row has an index for each position, below the number of its values. It takes no memory.
    pub fn is_row(&self, row: &[u32]) -> bool
        ensures { IsTrue result ↔ IsRow self.now.sizes row.now }
    {
        self.places.is_row(row)
    }

    /// The literal that a position has the value of this index. It takes no memory.
    pub fn atom(&self, position: u64, value: u32) -> Lit
        requires { (size : ℕ) × (slice_get self.now.sizes position ≡ Some size) × (value < size) }
        ensures { result ≡ positive (atom_variable self.now.sizes position value) }
    {
        self.places.atom(position, value)
    }

    /// An equal form.
    pub fn copy(&self, alloc: Global) -> Result<Form, OutOfMemory>
        ensures { IfOk result (λ copy. copy ≡ self.now) }
    {
        let places = self.places.copy(alloc)?;
        let clauses = copy_of(alloc, &self.clauses)?;
        Ok(Form {
            places,
            variables: self.variables,
            clauses,
        })
    }

    /// The same clauses, and behind them one that says that a position has the value of this index. Refuses exactly the limit that
    /// they pass (14, axiom clauses or axiom literals).
    pub fn with_atom(&self, alloc: Global, position: u64, value: u32) -> Result<Form, Fault>
        requires atom { (size : ℕ)
            × (slice_get self.now.sizes position ≡ Some size) × (value < size) }
        ensures made { IfOk result (λ form. form ≡ with_atom self.now position value) }
        ensures within { OnOk result
            (count_refusal (with_atom self.now position value).clauses ≡ None) }
        ensures refused { IfErr result
            (IsRefusedBy (count_refusal (with_atom self.now position value).clauses)) }
    {
        fits_one(&self.clauses)?;
        let places = self.places.copy(alloc)?;
        let clauses = copy_with(alloc, &self.clauses, &[self.places.atom(position, value)])?;
        Ok(Form {
            places,
            variables: self.variables,
            clauses,
        })
    }

    /// The clauses, in order.
    pub fn into_clauses(self) -> ClauseArena
        ensures clauses { result ≡ self.clauses }
        ensures count { length result ≤ most_clauses }
        ensures each { All IsClause result }
        ensures over { All (IsOver self.variables) result }
    {
        self.clauses
    }
}

/// The clauses of positions, rules, completion and denials.
fn add_rules(
    alloc: Global,
    writer: &mut Writer,
    stride: u64,
    theory: &Theory<'_>,
) -> Result<(), Fault>
    requires last { writer.old.last ≡ true_variable writer.old.places }
    requires within { writer.old.last ≤ most_variables }
    requires bound { stride ≤ 8589934592 }
    requires stride { stride ≡ stride_of theory.now.signature }
    requires places { writer.old.places ≡ position_sizes theory.now.signature theory.now.horizon }
    ensures { Adds writer.old writer.new result
        (rules_list writer.old.places stride theory.now.rules) }
{
    write_first(writer)?;
    let horizon = theory.horizon();
    let bodies = bodies_within(alloc, writer, stride, horizon, theory.rules())?;
    let mut causes = Vec::new(alloc);
    complete(
        &mut writer.store,
        &writer.places,
        theory,
        &bodies,
        &mut causes,
    )?;
    deny_falsity(&mut writer.store, theory, &bodies)?;
    Ok(())
}

/// The claim does not hold, where it is asked for and there is one.
fn deny_if(
    writer: &mut Writer,
    stride: u64,
    horizon: u32,
    claim: Option<GroundCondition<'_>>,
    with_claim: bool,
) -> Result<(), Fault>
    requires last { writer.old.last ≤ most_variables }
    requires bound { stride ≤ 8589934592 }
    requires claim { IfSome claim (λ claim.
        IsOverPlaces writer.old.places stride horizon (plain_ground_condition claim)) }
    ensures { Adds writer.old writer.new result
        (denied_nodes writer.old.places writer.old.last (nodes_if with_claim (option_map (λ claim.
        condition_nodes stride horizon (plain_ground_condition claim)) claim.entry))) }
{
    if with_claim {
        return match claim {
            Some(claim) => deny(writer, stride, horizon, claim),
            None => Ok(()),
        };
    }
    Ok(())
}

/// The row lies after a key, where there is one.
fn follow_if(writer: &mut Writer, after: Option<&Key>) -> Result<(), Fault>
    requires last { writer.old.last ≤ most_variables }
    requires key { IfSome after (λ key. IsRow writer.old.places key.now.row) }
    ensures { Adds writer.old writer.new result (asserted_nodes writer.old.places writer.old.last
        (map postfix (key_terms writer.old.places (option_map (λ key. key.now) after.entry)))) }
{
    match after {
        Some(key) => follow(writer, key.row.items()),
        None => Ok(()),
    }
}

/// The clauses of conditions, of a claim where it is asked for, and of a key.
pub(crate) fn add_query(
    writer: &mut Writer,
    stride: u64,
    horizon: u32,
    query: &GroundQuery<'_>,
    with_claim: bool,
    after: Option<&Key>,
) -> Result<(), Fault>
    requires last { writer.old.last ≤ most_variables }
    requires bound { stride ≤ 8589934592 }
    requires conditions { AllByRecursion (λ condition. IsOverPlaces writer.old.places stride horizon
        (plain_ground_condition condition)) query.now.conditions }
    requires claim { IfSome query.now.claim (λ claim.
        IsOverPlaces writer.old.places stride horizon (plain_ground_condition claim)) }
    requires key { IfSome after (λ key. IsRow writer.old.places key.now.row) }
    ensures { Adds writer.old writer.new result (query_list writer.old.places writer.old.last
        (map (λ condition. condition_nodes stride horizon (plain_ground_condition condition))
        query.now.conditions) (nodes_if with_claim (option_map (λ claim.
        condition_nodes stride horizon (plain_ground_condition claim)) query.now.claim))
        (map postfix (key_terms writer.old.places (option_map (λ key. key.now) after.entry)))) }
{
    assert_all(writer, stride, horizon, query.conditions.items())?;
    deny_if(writer, stride, horizon, query.claim, with_claim)?;
    follow_if(writer, after)
}

/// The form of what was built, all of whose clauses are kept.
pub(crate) fn form_of_whole(writer: Writer) -> Form
    requires { IsWhole writer }
    ensures { result ≡ record {
      sizes = writer.places;
      variables = writer.last;
      clauses = writer.store.kept.arena;
    } }
{
    let (places, variables, clauses) = writer.close();
    Form {
        places,
        variables,
        clauses,
    }
}

/// The form of what was built, where it is within its limits.
pub(crate) fn close(writer: Writer) -> Result<Form, Fault>
    requires { IsBuiltForm writer }
    ensures form { (kept : List (List Literal)) → Holds writer.store.kept kept → IfOk result
        (λ form. form ≡ record { sizes = writer.places; variables = writer.last; clauses = kept }) }
    ensures few { (kept : List (List Literal)) →
        Holds writer.store.kept kept → OnOk result (AreFew kept) }
    ensures refused { (kept : List (List Literal)) →
        Holds writer.store.kept kept → IfErr result (IsRefusedBy (count_refusal kept)) }
{
    writer.fits()?;
    Ok(form_of_whole(writer))
}

/// The clauses of a section, written by a writer over its positions.
fn fill(
    alloc: Global,
    writer: &mut Writer,
    theory: &Theory<'_>,
    query: &GroundQuery<'_>,
    with_claim: bool,
    after: Option<&Key>,
) -> Result<(), Fault>
    requires query { IsQueryAt theory.now.signature theory.now.horizon
        (plain_ground_query query.now) }
    requires key { IfSome after (λ key. IsKeyAt theory.now.signature theory.now.horizon key.now) }
    requires places { writer.old.places ≡ position_sizes theory.now.signature theory.now.horizon }
    requires last { writer.old.last ≡ true_variable writer.old.places }
    requires within { writer.old.last ≤ most_variables }
    requires none { Holds writer.old.store.kept [] }
    ensures built { OnOk result (IsSection
        (position_sizes theory.now.signature theory.now.horizon) (section_list theory.now
        (plain_ground_query query.now) with_claim (option_map (λ key. key.now) after.entry))
        writer.new) }
    ensures refused { IfErr result (IsPast (section_list theory.now (plain_ground_query query.now)
        with_claim (option_map (λ key. key.now) after.entry)).variables) }
    ensures ready { OnOk result (IsBuiltForm writer.new) }
    ensures horizon { theory.now.horizon ≤ most_steps }
    ensures rules { AreRulesAt theory.now.signature theory.now.horizon theory.now.rules }
{
    let horizon = theory.horizon();
    let _rules = theory.rules();
    let sig = theory.sig();
    let stride = u64::from(sig.fluents()) + u64::from(sig.actions());
    add_rules(alloc, writer, stride, theory)?;
    add_query(writer, stride, horizon, query, with_claim, after)
}

/// The clauses of a section, built.
fn build(
    alloc: Global,
    theory: &Theory<'_>,
    query: &GroundQuery<'_>,
    with_claim: bool,
    after: Option<&Key>,
) -> Result<Writer, Fault>
    requires query { IsQueryAt theory.now.signature theory.now.horizon
        (plain_ground_query query.now) }
    requires key { IfSome after (λ key. IsKeyAt theory.now.signature theory.now.horizon key.now) }
    ensures built { IfOk result
        (IsSection (position_sizes theory.now.signature theory.now.horizon) (section_list theory.now
        (plain_ground_query query.now) with_claim (option_map (λ key. key.now) after.entry))) }
    ensures refused { IfErr result (IsPast (section_list theory.now (plain_ground_query query.now)
        with_claim (option_map (λ key. key.now) after.entry)).variables) }
    ensures ready { IfOk result IsBuiltForm }
    ensures horizon { theory.now.horizon ≤ most_steps }
    ensures rules { AreRulesAt theory.now.signature theory.now.horizon theory.now.rules }
{
    let _rules = theory.rules();
    let mut writer = Writer::over(alloc, theory.sig(), theory.horizon())?;
    fill(alloc, &mut writer, theory, query, with_claim, after)?;
    Ok(writer)
}

/// The clause list of a section: the axioms of the search for the histories of a query at the horizon of a theory. In order:
/// a variable is true; each position has exactly one value; the clauses of the bodies of rules; the completion of each atom of
/// a position with two values or more; the denials of rules with head falsity; the conditions; where `with_claim` is true and
/// the query has a claim, that it does not hold; and where `after` is a key, that the row lies after it.
/// Refuses, in this order, more than 4,000,000 variables, 8,000,000 clauses and 40,000,000 literals (14, with the limit).
pub fn clauses(
    alloc: Global,
    theory: &Theory<'_>,
    query: &GroundQuery<'_>,
    with_claim: bool,
    after: Option<&Key>,
) -> Result<Form, Fault>
    requires query { IsQueryAt theory.now.signature theory.now.horizon
        (plain_ground_query query.now) }
    requires key { IfSome after (λ key. IsKeyAt theory.now.signature theory.now.horizon key.now) }
    ensures list { (d : Description) (q : Query) → IsTheoryOf theory.now d →
        StandsForQuery (plain_ground_query query.now) d q → IfOk result (λ form. form
        ≡ form_of d q theory.now.horizon with_claim (option_map (λ key. key.now) after.entry)) }
    ensures refused { (d : Description) (q : Query) → IsTheoryOf theory.now d → StandsForQuery
        (plain_ground_query query.now) d q → IfErr result (IsRefusedBy (form_refusal (clause_list
        d q theory.now.horizon with_claim (option_map (λ key. key.now) after.entry)))) }
    ensures within { (d : Description) (q : Query) → IsTheoryOf theory.now d →
        StandsForQuery (plain_ground_query query.now) d q → OnOk result (form_refusal (clause_list
        d q theory.now.horizon with_claim (option_map (λ key. key.now) after.entry)) ≡ None) }
    ensures tells { (d : Description) (q : Query) →
        IsTheoryOf theory.now d → StandsForQuery (plain_ground_query query.now) d q →
        IfOk result (λ form. TellsHistories d (asked with_claim q) theory.now.horizon
        (option_map (λ key. key.now.row) after.entry) form) }
{
    clauses_tell_rows();
    models_meet_completion();
    models_are_paths();
    terms_mean_formulas();
    one_formula();
    let writer = build(alloc, theory, query, with_claim, after)?;
    close(writer)
}
