//! The law `caused F if G after H` that a law is short for. Where actions of the law have an effect, `later` says whether it
//! comes a step later.
ghost use Rattle.std.specs.Prelude.{◌≡◌, ◌+◌, is_none, IfOk, OnOk};
ghost use Rattle.std.specs.Option.{option_map};
ghost use Rattle.cc_defs.specs.Resolved.{plain_formula};
ghost use Rattle.cc_defs.specs.Trees.{boxed_tree, plain_law, plain_tree};
ghost use Rattle.cc_laws.specs.Expansion as words;
ghost use Rattle.cc_laws.specs.Resolving as resolving;
ghost use Rattle.cc_laws.specs.Shortened as short;
ghost use Rattle.cc_laws.specs.Views.{plain_caused, scope_of};
ghost use Rattle.cc_laws.specs.Vocabulary.{vocabulary_of};

use crate::forms::is_fluent_formula;
use crate::made::some;
use crate::names::Names;
use crate::resolving::{Joint, resolve, resolve_not, resolve_two};
use cc_defs::{Formula, LawTree, OutOfMemory, Tree};
use cc_sorts::Table;
use std::alloc::Global;

/// Whether a law is short for another one.
pub(crate) fn is_short(law: &LawTree<'_>) -> bool
    ensures { result ≡ short.is_short (plain_law law.now) }
{
    match law {
        LawTree::Exogenous(_) | LawTree::Inertial(_) | LawTree::NoConcurrency => false,
        _ => true,
    }
}

/// Whether the effect of the actions of a law comes a step later.
pub(crate) fn is_later(law: &LawTree<'_>, table: &Table) -> bool
    ensures { result ≡ short.is_later (vocabulary_of table.now) (plain_law law.now) }
{
    match law {
        LawTree::Causes(_, head, _) => is_fluent_formula(head, table),
        _ => false,
    }
}

/// Whether the law that a law is short for has no `after` part.
pub(crate) fn lacks_after(law: &LawTree<'_>, later: bool) -> bool
    ensures { result ≡ is_none (plain_caused law.now later).after }
{
    match law {
        LawTree::Caused(_, _, after) | LawTree::Default(_, _, after) => after.is_none(),
        LawTree::Always(_) | LawTree::Nonexecutable(..) | LawTree::MayCause(..) => false,
        LawTree::Causes(..) => !later,
        _ => true,
    }
}

/// `F & G`, where G may be missing, with numbers in place of names.
fn resolve_both<'t, 's>(
    alloc: Global,
    first: &'t Tree<'s>,
    second: &'t Option<Box<Tree<'s>>>,
    table: &Table,
    names: &mut Names,
) -> Result<Formula, OutOfMemory>
    ensures made { IfOk result (λ made.
        plain_formula made ≡ resolving.resolve (vocabulary_of table.now) (scope_of names.old)
        names.old.next (words.both (plain_tree first.now) (option_map boxed_tree second.now))) }
    ensures kept { OnOk result (names.new.bindings.items ≡ names.old.bindings.items) }
    ensures next { OnOk result (names.new.next ≡ names.old.next + resolving.brackets
        (words.both (plain_tree first.now) (option_map boxed_tree second.now))) }
{
    match second {
        Some(second) => resolve_two(alloc, first, second, table, names, Joint::Both),
        None => resolve(alloc, first, table, names),
    }
}

/// A part with numbers in place of names; nothing where it is missing.
pub(crate) fn resolve_part(
    alloc: Global,
    part: &Option<Box<Tree<'_>>>,
    table: &Table,
    names: &mut Names,
) -> Result<Option<Formula>, OutOfMemory>
    ensures made { IfOk result (λ made. option_map plain_formula made
        ≡ option_map (resolving.resolve (vocabulary_of table.now) (scope_of names.old)
        names.old.next) (option_map boxed_tree part.now)) }
    ensures kept { OnOk result (names.new.bindings.items ≡ names.old.bindings.items) }
    ensures next { OnOk result (names.new.next
        ≡ names.old.next + words.part_brackets (option_map boxed_tree part.now)) }
{
    match part {
        Some(formula) => some(resolve(alloc, formula, table, names)),
        None => Ok(None),
    }
}

/// The `if` part of the law that a law is short for, with numbers in place of names; nothing where it is missing.
pub(crate) fn resolve_body(
    alloc: Global,
    law: &LawTree<'_>,
    table: &Table,
    names: &mut Names,
    later: bool,
) -> Result<Option<Formula>, OutOfMemory>
    ensures made { IfOk result (λ made. option_map plain_formula made ≡ option_map
        (resolving.resolve (vocabulary_of table.now) (scope_of names.old) names.old.next)
        (plain_caused law.now later).body) }
    ensures kept { OnOk result (names.new.bindings.items ≡ names.old.bindings.items) }
    ensures next { OnOk result
        (names.new.next ≡ names.old.next + words.part_brackets (plain_caused law.now later).body) }
{
    match law {
        LawTree::Caused(_, body, _) => resolve_part(alloc, body, table, names),
        LawTree::Constraint(formula) => some(resolve_not(alloc, formula, table, names)),
        LawTree::Default(head, body, _) => some(resolve_both(alloc, head, body, table, names)),
        LawTree::MayCause(_, head, _) => some(resolve(alloc, head, table, names)),
        LawTree::Causes(actions, _, body) => {
            if later {
                return Ok(None);
            }
            some(resolve_both(alloc, actions, body, table, names))
        }
        _ => Ok(None),
    }
}

/// Its `after` part.
pub(crate) fn resolve_after(
    alloc: Global,
    law: &LawTree<'_>,
    table: &Table,
    names: &mut Names,
    later: bool,
) -> Result<Option<Formula>, OutOfMemory>
    ensures made { IfOk result (λ made. option_map plain_formula made ≡ option_map
        (resolving.resolve (vocabulary_of table.now) (scope_of names.old) names.old.next)
        (plain_caused law.now later).after) }
    ensures kept { OnOk result (names.new.bindings.items ≡ names.old.bindings.items) }
    ensures next { OnOk result
        (names.new.next ≡ names.old.next + words.part_brackets (plain_caused law.now later).after) }
{
    match law {
        LawTree::Caused(_, _, after) | LawTree::Default(_, _, after) => {
            resolve_part(alloc, after, table, names)
        }
        LawTree::Always(formula) => some(resolve_not(alloc, formula, table, names)),
        LawTree::Nonexecutable(actions, body) | LawTree::MayCause(actions, _, body) => {
            some(resolve_both(alloc, actions, body, table, names))
        }
        LawTree::Causes(actions, _, body) => {
            if !later {
                return Ok(None);
            }
            some(resolve_both(alloc, actions, body, table, names))
        }
        _ => Ok(None),
    }
}
