//! Theorems on models, each the contract of a function that does nothing, or calls those that it rests on.
ghost use Rattle.cc_theory.specs.Laws.{HeadsNameAtoms, ModelsArePaths, ModelsMeetCompletion, PathsHaveParts, TermsRestOnTheirConstants};
ghost use Rattle.cc_theory.specs.Theories.{LawsGiveRules};

use cc_arena::one_formula;
use cc_arena::theorems::{heads_mean_heads, heads_there_are_ground, terms_mean_formulas};

/// The completion theorem: a row is a model of a horizon exactly where it meets the completion of its rules.
pub fn models_meet_completion()
    ensures { ModelsMeetCompletion }
{
    terms_mean_formulas();
    one_formula();
    heads_mean_heads();
    heads_there_are_ground();
}

/// The path theorem: the models of a horizon are exactly the paths.
pub fn models_are_paths()
    ensures { ModelsArePaths }
{
    terms_mean_formulas();
    one_formula();
    heads_mean_heads();
    heads_there_are_ground();
}

/// The head of each rule of a horizon is an atom of it, or falsity.
pub fn heads_name_atoms()
    ensures { HeadsNameAtoms }
{}

/// Each run of consecutive states of a path, with the actions between them, is a path.
pub fn paths_have_parts()
    ensures { PathsHaveParts }
{
    terms_mean_formulas();
    one_formula();
    heads_mean_heads();
    heads_there_are_ground();
}

/// A term is worth the same under two valuations that agree on its constants.
pub fn terms_rest_on_their_constants()
    ensures { TermsRestOnTheirConstants }
{}

/// The rules that are made from ground laws are rules of their horizon, and those of each description with these laws.
pub fn laws_give_rules()
    ensures { LawsGiveRules }
{}
