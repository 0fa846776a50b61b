//! The faults of laws.
ghost use Rattle.std.specs.Prelude.{◌≡◌, ◌++◌, ◌∷◌, ℕ, Option, None, flat_map, IfOk, IfErr, OnOk};
ghost use Rattle.std.specs.List.{list_any};
ghost use Rattle.std.specs.Option.{option_map};
ghost use Rattle.cc_defs.specs.Trees.{boxed_tree, plain_law, plain_term, plain_tree};
ghost use Rattle.cc_defs.specs.Refusals as refusals;
ghost use Rattle.cc_defs.specs.Refusals.{IsRefusedBy, least};
ghost use Rattle.cc_laws.specs.LawFaults as faults;
ghost use Rattle.cc_laws.specs.FormulaFaults.{term_has};
ghost use Rattle.cc_laws.specs.FreeVariables.{free, optional, unbound};
ghost use Rattle.cc_laws.specs.Views.{asks, fails};
ghost use Rattle.cc_laws.specs.Vocabulary.{vocabulary_of};
ghost use Rattle.cc_laws.specs.Widening.{wide_faults};

use crate::forms::{has_determined_head, has_indefinite_head, lacks_form};
use crate::meaning::meaning_of_term;
use crate::mention::{Property, term_has as has};
use crate::misfits::term_misfits;
use crate::variables::{add_free, add_unbound, firsts, free as free_in, some_is_new};
use crate::walk::{Check, formula_fails};
use cc_defs::{Fault, LawTree, OutOfMemory, Refusal, TermTree, Tree};
use cc_sorts::Table;
use std::alloc::Global;

/// Whether a part that may be missing fails the check.
fn part_fails(part: &Option<Box<Tree<'_>>>, table: &Table, check: Check) -> bool
    ensures { result ≡ list_any
        (fails (vocabulary_of table.now) check) (optional (option_map boxed_tree part.now)) }
{
    match part {
        Some(formula) => formula_fails(formula, table, check),
        None => false,
    }
}

/// Whether a formula of a law before `where` fails the check.
fn formulas_fail(law: &LawTree<'_>, table: &Table, check: Check) -> bool
    ensures { result
        ≡ list_any (fails (vocabulary_of table.now) check) (faults.formulas (plain_law law.now)) }
{
    match law {
        LawTree::Caused(first, body, after) | LawTree::Default(first, body, after) => {
            formula_fails(first, table, check)
                || (part_fails(body, table, check) || part_fails(after, table, check))
        }
        LawTree::Constraint(first) | LawTree::Always(first) => formula_fails(first, table, check),
        LawTree::Nonexecutable(first, body) => {
            formula_fails(first, table, check) || part_fails(body, table, check)
        }
        LawTree::Causes(actions, effect, body) | LawTree::MayCause(actions, effect, body) => {
            formula_fails(actions, table, check)
                || (formula_fails(effect, table, check) || part_fails(body, table, check))
        }
        _ => false,
    }
}

/// Whether a formula of a law or its test fails the check.
fn law_fails<'t, 's>(
    law: &'t LawTree<'s>,
    test: &'t Option<Box<Tree<'s>>>,
    table: &Table,
    check: Check,
) -> bool
    ensures { result ≡ list_any (fails (vocabulary_of table.now) check)
        (faults.formulas (plain_law law.now) ++ optional (option_map boxed_tree test.now)) }
{
    formulas_fail(law, table, check) || part_fails(test, table, check)
}

/// Whether what is exogenous or inertial has a name with the property.
fn subject_has(law: &LawTree<'_>, table: &Table, property: Property) -> bool
    ensures { result ≡ faults.subject_satisfies
        (term_has (vocabulary_of table.now) (asks property)) (faults.subject (plain_law law.now)) }
{
    match law {
        LawTree::Exogenous(constant) | LawTree::Inertial(constant) => {
            has(constant, table, property)
        }
        _ => false,
    }
}

#[tactic(auto, using(crate::proofs::Failing::some_unknown))]
fn law_has_unknown<'t, 's>(
    law: &'t LawTree<'s>,
    test: &'t Option<Box<Tree<'s>>>,
    table: &Table,
) -> bool
    ensures { result ≡ faults.law_has_unknown
        (vocabulary_of table.now) (plain_law law.now) (optional (option_map boxed_tree test.now)) }
{
    law_fails(law, test, table, Check::Unknown) || subject_has(law, table, Property::Unknown)
}

fn law_has_miscounted<'t, 's>(
    law: &'t LawTree<'s>,
    test: &'t Option<Box<Tree<'s>>>,
    table: &Table,
) -> bool
    ensures { result ≡ faults.law_has_miscounted
        (vocabulary_of table.now) (plain_law law.now) (optional (option_map boxed_tree test.now)) }
{
    law_fails(law, test, table, Check::Mentions(Property::Miscounted))
        || subject_has(law, table, Property::Miscounted)
}

/// Whether a term is no constant, or has an argument that does not fit.
fn constant_misfits(constant: &TermTree<'_>, table: &Table) -> bool
    ensures { result ≡ faults.subject_misfits (vocabulary_of table.now) (plain_term constant.now) }
{
    !meaning_of_term(constant, table).is_constant() || term_misfits(constant, table)
}

/// Whether what is exogenous or inertial is no constant, or has an argument that does not fit.
fn subject_misfits(law: &LawTree<'_>, table: &Table) -> bool
    ensures { result ≡ faults.subject_satisfies
        (faults.subject_misfits (vocabulary_of table.now)) (faults.subject (plain_law law.now)) }
{
    match law {
        LawTree::Exogenous(constant) | LawTree::Inertial(constant) => {
            constant_misfits(constant, table)
        }
        _ => false,
    }
}

/// Whether something in a law or its test does not fit.
fn law_misfits<'t, 's>(law: &'t LawTree<'s>, test: &'t Option<Box<Tree<'s>>>, table: &Table) -> bool
    ensures { result ≡ faults.law_misfits
        (vocabulary_of table.now) (plain_law law.now) (optional (option_map boxed_tree test.now)) }
{
    (law_fails(law, test, table, Check::Misfits) || subject_misfits(law, table))
        || part_fails(test, table, Check::Mentions(Property::Constant))
}

/// Adds the free occurrences of variables in a part that may be missing.
fn add_part(
    part: &Option<Box<Tree<'_>>>,
    table: &Table,
    bound: &mut Vec<u32>,
    found: &mut Vec<u32>,
) -> Result<(), OutOfMemory>
    ensures added { OnOk result (found.new.items ≡ found.old.items ++ flat_map (free
        (vocabulary_of table.now) bound.old.items) (optional (option_map boxed_tree part.now))) }
    ensures closed { OnOk result (bound.new.items ≡ bound.old.items) }
{
    match part {
        Some(formula) => add_free(formula, table, bound, found),
        None => Ok(()),
    }
}

/// Adds the free occurrences of variables in a formula and a part that may be missing.
fn add_two<'t, 's>(
    first: &'t Tree<'s>,
    part: &'t Option<Box<Tree<'s>>>,
    table: &Table,
    bound: &mut Vec<u32>,
    found: &mut Vec<u32>,
) -> Result<(), OutOfMemory>
    ensures added { OnOk result
        (found.new.items ≡ found.old.items ++ flat_map (free (vocabulary_of table.now)
        bound.old.items) (plain_tree first.now ∷ optional (option_map boxed_tree part.now))) }
    ensures closed { OnOk result (bound.new.items ≡ bound.old.items) }
{
    add_free(first, table, bound, found)?;
    add_part(part, table, bound, found)
}

/// Adds those in a formula and two parts that may be missing.
fn add_three<'t, 's>(
    first: &'t Tree<'s>,
    body: &'t Option<Box<Tree<'s>>>,
    after: &'t Option<Box<Tree<'s>>>,
    table: &Table,
    bound: &mut Vec<u32>,
    found: &mut Vec<u32>,
) -> Result<(), OutOfMemory>
    ensures { OnOk result (found.new.items ≡ found.old.items ++ flat_map
        (free (vocabulary_of table.now) bound.old.items)
        (plain_tree first.now ∷ optional (option_map boxed_tree body.now)
        ++ optional (option_map boxed_tree after.now))) }
{
    add_two(first, body, table, bound, found)?;
    add_part(after, table, bound, found)
}

/// Adds those in actions, their effect and a part that may be missing.
fn add_effect<'t, 's>(
    actions: &'t Tree<'s>,
    effect: &'t Tree<'s>,
    part: &'t Option<Box<Tree<'s>>>,
    table: &Table,
    bound: &mut Vec<u32>,
    found: &mut Vec<u32>,
) -> Result<(), OutOfMemory>
    ensures { OnOk result (found.new.items ≡ found.old.items ++ flat_map
        (free (vocabulary_of table.now) bound.old.items)
        (plain_tree actions.now ∷ plain_tree effect.now ∷ optional (option_map boxed_tree part.now))) }
{
    add_free(actions, table, bound, found)?;
    add_two(effect, part, table, bound, found)
}

/// Adds the free occurrences of variables in a law before `where`.
fn add_law(
    law: &LawTree<'_>,
    table: &Table,
    bound: &mut Vec<u32>,
    found: &mut Vec<u32>,
) -> Result<(), OutOfMemory>
    ensures { OnOk result (found.new.items
        ≡ found.old.items ++ (flat_map (free (vocabulary_of table.now) bound.old.items)
        (faults.formulas (plain_law law.now)) ++ unbound bound.old.items (faults.subject_variables
        (vocabulary_of table.now) (faults.subject (plain_law law.now))))) }
{
    match law {
        LawTree::Caused(first, body, after) | LawTree::Default(first, body, after) => {
            add_three(first, body, after, table, bound, found)
        }
        LawTree::Constraint(first) | LawTree::Always(first) => {
            add_free(first, table, bound, found)
        }
        LawTree::Nonexecutable(first, body) => add_two(first, body, table, bound, found),
        LawTree::Causes(actions, effect, body) | LawTree::MayCause(actions, effect, body) => {
            add_effect(actions, effect, body, table, bound, found)
        }
        LawTree::Exogenous(constant) | LawTree::Inertial(constant) => {
            add_unbound(constant, table, bound, found)
        }
        LawTree::NoConcurrency => Ok(()),
    }
}

#[tactic(auto, using(crate::proofs::Unbound::unbound_none))]
/// The variables of a law, by their numbers in the table: those that are free in it, in the order of their first free
/// occurrences before `where`.
pub(crate) fn law_variables(
    alloc: Global,
    law: &LawTree<'_>,
    table: &Table,
) -> Result<Vec<u32>, OutOfMemory>
    ensures { IfOk result (λ variables.
        variables.items ≡ faults.law_variables (vocabulary_of table.now) (plain_law law.now)) }
{
    let mut found = Vec::new(alloc);
    let mut bound = Vec::new(alloc);
    add_law(law, table, &mut bound, &mut found)?;
    firsts(alloc, &found)
}

/// Whether a `where` test, which may be missing, has a variable that is not free in the law before it.
fn has_unbound<'t, 's>(
    alloc: Global,
    law: &'t LawTree<'s>,
    test: &'t Option<Box<Tree<'s>>>,
    table: &Table,
) -> Result<bool, OutOfMemory>
    ensures { IfOk result (λ unbound. unbound ≡ list_any (faults.has_unbound
        (vocabulary_of table.now) (faults.law_variables (vocabulary_of table.now)
        (plain_law law.now))) (optional (option_map boxed_tree test.now))) }
{
    let Some(test) = test else {
        return Ok(false);
    };
    let variables = law_variables(alloc, law, table)?;
    let used = free_in(alloc, test, table)?;
    Ok(some_is_new(&used, &variables))
}

/// The least number of a fault of a law but that its head is not definite, if it has one: an unknown name (5), another number
/// of arguments (6), a term where its sort or kind does not fit (7), a `where` test with a variable that is not free in the
/// law before it (8), a law of none of the three forms or a part of the wrong kind (9), a statically determined fluent in the
/// head of a fluent dynamic law (10).
pub(crate) fn wide_fault<'t, 's>(
    alloc: Global,
    law: &'t LawTree<'s>,
    test: &'t Option<Box<Tree<'s>>>,
    table: &Table,
) -> Result<Option<u8>, OutOfMemory>
    ensures { IfOk result (λ fault. fault ≡ least (wide_faults (vocabulary_of table.now)
        (plain_law law.now) (optional (option_map boxed_tree test.now)))) }
{
    if law_has_unknown(law, test, table) {
        return Ok(Some(5));
    }
    if law_has_miscounted(law, test, table) {
        return Ok(Some(6));
    }
    if law_misfits(law, test, table) {
        return Ok(Some(7));
    }
    if has_unbound(alloc, law, test, table)? {
        return Ok(Some(8));
    }
    if lacks_form(law, table) {
        return Ok(Some(9));
    }
    if has_determined_head(law, table) {
        return Ok(Some(10));
    }
    Ok(None)
}

/// The least number of a fault of a law, if it has one; a head that is not definite has the greatest (11).
pub(crate) fn law_fault<'t, 's>(
    alloc: Global,
    law: &'t LawTree<'s>,
    test: &'t Option<Box<Tree<'s>>>,
    table: &Table,
) -> Result<Option<u8>, OutOfMemory>
    ensures { IfOk result (λ fault. fault ≡ least (faults.law_faults (vocabulary_of table.now)
        (plain_law law.now) (optional (option_map boxed_tree test.now)))) }
{
    if let Some(number) = wide_fault(alloc, law, test, table)? {
        return Ok(Some(number));
    }
    if has_indefinite_head(law, table) {
        return Ok(Some(11));
    }
    Ok(None)
}

/// Goes on where no fault was found; else refuses its number, at a line of a file.
pub(crate) fn passed(
    fault: Result<Option<u8>, OutOfMemory>,
    file: u32,
    line: u32,
) -> Result<(), Fault>
    ensures passed { (number : Option ℕ) → IfOk fault (λ found. found ≡ number) →
        IfOk result (λ nothing. number ≡ None) }
    ensures refused { (number : Option ℕ) → IfOk fault (λ found. found ≡ number) →
        IfErr result (IsRefusedBy (refusals.refused_if file line number)) }
{
    match fault? {
        Some(number) => Err(Fault::Refused(Refusal::at(number, file, line))),
        None => Ok(()),
    }
}
