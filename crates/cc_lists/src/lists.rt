//! The clause lists of the sections of a search.
ghost use Rattle.std.specs.Prelude.{◌≡◌, ◌≤◌, ℕ, Bool, IfOk, IfErr, IfSome, OnOk, None};
ghost use Rattle.std.specs.Option.{option_map};
ghost use Rattle.cc_arena.specs.GroundViews.{plain_ground_query};
ghost use Rattle.cc_defs.specs.Description.{Description};
ghost use Rattle.cc_defs.specs.GroundLaws.{StandsForQuery};
ghost use Rattle.cc_defs.specs.Limits.{most_steps};
ghost use Rattle.cc_defs.specs.Refusals.{IsRefusedBy};
ghost use Rattle.cc_defs.specs.Resolved.{Query};
ghost use Rattle.cc_form.specs.Forms.{TellsHistories, asked, form_of};
ghost use Rattle.cc_form.specs.Queries.{IsKeyAt, IsQueryAt};
ghost use Rattle.cc_lists.specs.Horizons.{refusal_at};
ghost use Rattle.cc_theory.specs.Theories.{AreLawsFor, AreLawsOf};

use crate::forming::form_at;
use cc_arena::{GroundQuery, Laws};
use cc_defs::{Fault, Key, OutOfMemory, Sig};
use cc_form::{Form, Template};
use std::alloc::Global;
use std::marker::Model;

/// What the clause lists of sections are made of: a signature, its laws, and the template of both once a section with a
/// horizon of two steps or more opens.
#[derive(Drop)]
pub struct Lists<'a> {
    sig: &'a Sig,
    laws: &'a Laws<'a>,
    template: Option<Template<'a>>,
}

impl<'a> Model for Lists<'a> {
    ghost use Rattle.std.specs.Prelude.{◌≡◌, IfSome};
    ghost use Rattle.cc_form.specs.Steps.{TemplateView};
    ghost use Rattle.cc_theory.specs.Theories.{AreLawsFor};

    ghost Value = { TemplateView };

    ghost view = { λ lists. record { signature = lists.sig.now; laws = lists.laws.now } };

    ghost invariant = { λ lists. AreLawsFor lists.sig.now lists.laws.now × IfSome lists.template
        (λ template. template ≡ record { signature = lists.sig.now; laws = lists.laws.now }) };
}

impl<'a> Lists<'a> {
    /// The lists of these laws: no template is made yet.
    pub fn new(sig: &'a Sig, laws: &'a Laws<'a>) -> Lists<'a>
        requires { AreLawsFor sig.now laws.now }
        ensures { result ≡ record { signature = sig.now; laws = laws.now } }
    {
        Lists {
            sig,
            laws,
            template: None,
        }
    }

    /// Makes the template, where a horizon wants it and there is none.
    pub fn prepare(&mut self, alloc: Global, horizon: u32) -> Result<(), OutOfMemory>
        ensures { self.new ≡ self.old }
    {
        if horizon >= 2 && self.template.is_none() {
            let template = Template::new(alloc, self.sig, self.laws)?;
            self.template = Some(template);
        }
        Ok(())
    }

    /// The clauses of a section at a horizon. Refuses the first limit that its rules or clauses pass.
    pub fn form(
        &self,
        alloc: Global,
        query: &GroundQuery<'_>,
        after: Option<&Key>,
        horizon: u32,
        with_claim: bool,
    ) -> Result<Form, Fault>
        requires horizon { horizon ≤ most_steps }
        requires query { IsQueryAt self.now.signature horizon (plain_ground_query query.now) }
        requires key { IfSome after (λ key. IsKeyAt self.now.signature horizon key.now) }
        ensures made { (d : Description) (q : Query) → AreLawsOf self.now.signature self.now.laws
            d → StandsForQuery (plain_ground_query query.now) d q → IfOk result (λ form.
            form ≡ form_of d q horizon with_claim (option_map (λ key. key.now) after.entry)) }
        ensures tells { (d : Description) (q : Query) → AreLawsOf self.now.signature self.now.laws
            d → StandsForQuery (plain_ground_query query.now) d q → OnOk result (TellsHistories d
            (asked with_claim q) horizon (option_map (λ key. key.now.row) after.entry)
            (form_of d q horizon with_claim (option_map (λ key. key.now) after.entry))) }
        ensures within { (d : Description) (q : Query) → AreLawsOf self.now.signature
            self.now.laws d → StandsForQuery (plain_ground_query query.now) d q → OnOk result
            (refusal_at d q horizon with_claim (option_map (λ key. key.now) after.entry) ≡ None) }
        ensures refused { (d : Description) (q : Query) → AreLawsOf self.now.signature self.now.laws
            d → StandsForQuery (plain_ground_query query.now) d q → IfErr result (IsRefusedBy
            (refusal_at d q horizon with_claim (option_map (λ key. key.now) after.entry))) }
    {
        match &self.template {
            Some(template) => template.clauses(horizon, query, with_claim, after),
            None => form_at(
                alloc, self.sig, self.laws, query, after, horizon, with_claim,
            ),
        }
    }
}
