//! The forms of laws, and what their heads may have.
ghost use Rattle.std.specs.Prelude.{◌≡◌};
ghost use Rattle.std.specs.List.{list_all};
ghost use Rattle.std.specs.Option.{option_map};
ghost use Rattle.cc_defs.specs.Trees.{boxed_tree, plain_law, plain_term, plain_tree};
ghost use Rattle.cc_laws.specs.FormulaFaults as formulas;
ghost use Rattle.cc_laws.specs.LawFaults as faults;
ghost use Rattle.cc_laws.specs.FreeVariables.{optional};
ghost use Rattle.cc_laws.specs.Views.{asks};
ghost use Rattle.cc_laws.specs.Vocabulary.{is_action_constant, is_determined_constant, vocabulary_of};

use crate::heads::is_definite;
use crate::meaning::meaning_of_term;
use crate::mention::Property;
use crate::walk::{Check, formula_fails};
use cc_defs::{LawTree, TermTree, Tree};
use cc_sorts::Table;

pub(crate) fn has(formula: &Tree<'_>, table: &Table, property: Property) -> bool
    ensures { result
        ≡ formulas.formula_has (vocabulary_of table.now) (asks property) (plain_tree formula.now) }
{
    formula_fails(formula, table, Check::Mentions(property))
}

pub(crate) fn is_fluent_formula(formula: &Tree<'_>, table: &Table) -> bool
    ensures { result
        ≡ formulas.is_fluent_formula (vocabulary_of table.now) (plain_tree formula.now) }
{
    !has(formula, table, Property::Action)
}

fn is_action_formula(formula: &Tree<'_>, table: &Table) -> bool
    ensures { result
        ≡ formulas.is_action_formula (vocabulary_of table.now) (plain_tree formula.now) }
{
    has(formula, table, Property::Action) && !has(formula, table, Property::Fluent)
}

/// Whether a part that may be missing has no action.
fn is_fluent_part(part: &Option<Box<Tree<'_>>>, table: &Table) -> bool
    ensures { result ≡ list_all (formulas.is_fluent_formula (vocabulary_of table.now))
        (optional (option_map boxed_tree part.now)) }
{
    match part {
        Some(formula) => is_fluent_formula(formula, table),
        None => true,
    }
}

/// Whether `caused F if G after H` has one of the three forms.
fn has_form<'t, 's>(
    head: &'t Tree<'s>,
    body: &'t Option<Box<Tree<'s>>>,
    after: &'t Option<Box<Tree<'s>>>,
    table: &Table,
) -> bool
    ensures { result ≡ faults.has_form (vocabulary_of table.now) (plain_tree head.now)
        (optional (option_map boxed_tree body.now)) (option_map boxed_tree after.now) }
{
    let of_fluents = is_fluent_formula(head, table) && is_fluent_part(body, table);
    match after {
        Some(_) => of_fluents,
        None => of_fluents || is_action_formula(head, table),
    }
}

/// Whether a term is an action constant.
fn is_action_term(term: &TermTree<'_>, table: &Table) -> bool
    ensures { result
        ≡ is_action_constant (formulas.term_meaning (vocabulary_of table.now) (plain_term term.now)) }
{
    meaning_of_term(term, table).is_action_constant()
}

/// Whether a term is a statically determined fluent.
fn is_determined_term(term: &TermTree<'_>, table: &Table) -> bool
    ensures { result ≡ is_determined_constant
        (formulas.term_meaning (vocabulary_of table.now) (plain_term term.now)) }
{
    meaning_of_term(term, table).is_determined_constant()
}

/// Whether a law has none of the three forms, or a part of an abbreviation is of the wrong kind.
pub(crate) fn lacks_form(law: &LawTree<'_>, table: &Table) -> bool
    ensures { result ≡ faults.lacks_form (vocabulary_of table.now) (plain_law law.now) }
{
    match law {
        LawTree::Caused(head, body, after) | LawTree::Default(head, body, after) => {
            !has_form(head, body, after, table)
        }
        LawTree::Constraint(formula) => has(formula, table, Property::Action),
        LawTree::Nonexecutable(actions, _) => !is_action_formula(actions, table),
        LawTree::Inertial(constant) => is_action_term(constant, table),
        LawTree::Causes(actions, head, _) => {
            !is_action_formula(actions, table)
                || !(is_fluent_formula(head, table) || is_action_formula(head, table))
        }
        LawTree::MayCause(actions, head, _) => {
            !is_action_formula(actions, table) || !is_fluent_formula(head, table)
        }
        _ => false,
    }
}

/// Whether the head of a law with an `after` part has a statically determined fluent.
fn has_determined_after<'t, 's>(
    head: &'t Tree<'s>,
    after: &'t Option<Box<Tree<'s>>>,
    table: &Table,
) -> bool
    ensures { result ≡ faults.has_determined_after
        (vocabulary_of table.now) (plain_tree head.now) (option_map boxed_tree after.now) }
{
    match after {
        Some(_) => has(head, table, Property::Determined),
        None => false,
    }
}

/// Whether the head of a fluent dynamic law has a statically determined fluent.
pub(crate) fn has_determined_head(law: &LawTree<'_>, table: &Table) -> bool
    ensures { result ≡ faults.has_determined_head (vocabulary_of table.now) (plain_law law.now) }
{
    match law {
        LawTree::Caused(head, _, after) | LawTree::Default(head, _, after) => {
            has_determined_after(head, after, table)
        }
        LawTree::Inertial(constant) => is_determined_term(constant, table),
        LawTree::Causes(_, head, _) | LawTree::MayCause(_, head, _) => {
            has(head, table, Property::Determined)
        }
        _ => false,
    }
}

/// Whether a law's head is no conjunction of definite heads.
pub(crate) fn has_indefinite_head(law: &LawTree<'_>, table: &Table) -> bool
    ensures { result ≡ faults.has_indefinite_head (vocabulary_of table.now) (plain_law law.now) }
{
    match law {
        LawTree::Caused(head, _, _)
        | LawTree::Default(head, _, _)
        | LawTree::Causes(_, head, _)
        | LawTree::MayCause(_, head, _) => !is_definite(head, table),
        _ => false,
    }
}
