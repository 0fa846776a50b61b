//! The steps of a query.
ghost use Rattle.std.specs.Prelude.{◌≡◌, map};
ghost use Rattle.std.specs.List.{list_any};
ghost use Rattle.std.specs.Option.{option_map};
ghost use Rattle.cc_defs.specs.Resolved.{plain_condition, plain_formula, plain_query, plain_term};
ghost use Rattle.cc_defs.specs.Forms as forms;
ghost use Rattle.cc_laws.specs.Questions as words;
ghost use Rattle.cc_laws.specs.Vocabulary.{vocabulary_of};

use crate::meaning::is_action;
use cc_defs::{At, Condition, Formula, LimitAt, Query, Refusal, Term};
use cc_sorts::Table;

/// Whether a symbol is that of an action; one that is not there is none.
pub(crate) fn is_action_symbol(table: &Table, symbol: u32) -> bool
    ensures { result ≡ forms.is_action_symbol (vocabulary_of table.now).symbols symbol }
{
    if (symbol as usize) < table.symbol_count() {
        is_action(table.symbol_of(symbol).kind)
    } else {
        false
    }
}

/// Whether a term has an action.
fn term_names_action(term: &Term, table: &Table) -> bool
    ensures { result ≡ list_any (forms.is_action_symbol (vocabulary_of table.now).symbols)
        (forms.term_symbols (plain_term term.now)) }
{
    match term {
        Term::Constant { symbol, args } => {
            if is_action_symbol(table, *symbol) {
                return true;
            }
            for argument in args {
                if term_names_action(argument, table) {
                    return true;
                }
            }
            false
        }
        Term::Plus(first, second) | Term::Minus(first, second) => {
            term_names_action(first, table) || term_names_action(second, table)
        }
        _ => false,
    }
}

/// Whether a formula has an action.
fn names_action(formula: &Formula, table: &Table) -> bool
    ensures { result
        ≡ forms.names_action (vocabulary_of table.now).symbols (plain_formula formula.now) }
{
    match formula {
        Formula::True | Formula::False => false,
        Formula::Equal(left, right) | Formula::Less(left, right) | Formula::AtMost(left, right) => {
            term_names_action(left, table) || term_names_action(right, table)
        }
        Formula::Not(inner) => names_action(inner, table),
        Formula::Both(first, second)
        | Formula::Either(first, second)
        | Formula::Implies(first, second)
        | Formula::Same(first, second) => {
            names_action(first, table) || names_action(second, table)
        }
        Formula::ForAll(_, _, inner) | Formula::Exists(_, _, inner) => names_action(inner, table),
    }
}

/// Whether the formula of a condition may not stand at its step in a query with this least horizon.
fn condition_fails(condition: &Condition, table: &Table, lo: u32) -> bool
    ensures { result ≡ words.condition_fails
        (vocabulary_of table.now).symbols lo (plain_condition condition.now) }
{
    let formula = &condition.formula;
    match condition.at {
        At::Number(step) => step > lo || (step == lo && names_action(formula, table)),
        At::Last => names_action(formula, table),
    }
}

fn some_condition_fails(conditions: &[Condition], table: &Table, lo: u32) -> bool
    ensures { result ≡ list_any (words.condition_fails (vocabulary_of table.now).symbols lo)
        (map plain_condition conditions.now) }
{
    for condition in conditions {
        if condition_fails(condition, table, lo) {
            return true;
        }
    }
    false
}

fn claim_fails(claim: &Option<Condition>, table: &Table, lo: u32) -> bool
    ensures { result ≡ words.claim_fails
        (vocabulary_of table.now).symbols lo (option_map plain_condition claim.now) }
{
    match claim {
        Some(claim) => condition_fails(claim, table, lo),
        None => false,
    }
}

fn step_refusal(query: &Query) -> Refusal
    ensures { result ≡ words.step_refusal (plain_query query.now) }
{
    Refusal::at(16, query.file, query.line)
}

fn range_refusal(table: &Table, query: &Query, lo: u32, hi: u32) -> Option<Refusal>
    ensures { result
        ≡ words.range_refusal (vocabulary_of table.now).symbols (plain_query query.now) lo hi }
{
    if lo > hi
        || (some_condition_fails(query.conditions.items(), table, lo)
            || claim_fails(&query.claim, table, lo))
    {
        return Some(step_refusal(query));
    }
    if hi > LimitAt::Horizon.number() {
        return Some(Refusal::past(LimitAt::Horizon));
    }
    None
}

/// The refusal of a query's steps, if there is one: 16 at the query's place where it has no range of horizons, its least
/// horizon is above its greatest, a condition or the claim stands at a step above the least horizon, or a formula with an
/// action stands at the last step or may; else 14 where its greatest horizon passes the limit horizon. It takes no memory.
pub fn query_steps(table: &Table, query: &Query) -> Option<Refusal>
    ensures { result
        ≡ words.steps_refusal (vocabulary_of table.now).symbols (plain_query query.now) }
{
    match query.range {
        Some((lo, hi)) => range_refusal(table, query, lo, hi),
        None => Some(step_refusal(query)),
    }
}
