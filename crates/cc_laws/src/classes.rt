//! The classes of causal laws.
ghost use Rattle.std.specs.Prelude.{◌≡◌};
ghost use Rattle.cc_defs.specs.Resolved.{plain_base_law, plain_formula, plain_head, plain_law, plain_term};
ghost use Rattle.std.specs.Option.{option_map};
ghost use Rattle.cc_defs.specs.declared.signature.LawKind.{LawKind as Kind};
ghost use Rattle.cc_defs.specs.Forms.{IsOfKind, is_definite_law, is_value as is_no_constant};
ghost use Rattle.cc_laws.specs.Expansion.{class_of};
ghost use Rattle.cc_laws.specs.Vocabulary.{vocabulary_of};

use crate::steps::is_action_symbol;
use cc_defs::{BaseLaw, Formula, Head, Law, LawKind, Term};
use cc_sorts::Table;

/// The class of a law with this head and this `after` part.
pub(crate) fn class(after: &Option<Formula>, table: &Table, head: &Head) -> LawKind
    ensures { result ≡ class_of (vocabulary_of table.now).symbols
        (plain_head head.now) (option_map plain_formula after.now) }
{
    if after.is_some() {
        return LawKind::FluentDynamic;
    }
    match head {
        Head::Atom { symbol, .. } if is_action_symbol(table, *symbol) => LawKind::ActionDynamic,
        Head::Atom { .. } | Head::Falsity => LawKind::Static,
    }
}

/// The class of a law of one of the three forms: fluent dynamic with an `after` part; else action dynamic where its head
/// has an action, and static where it has not. It takes no memory.
pub fn classify(table: &Table, law: &Law) -> LawKind
    ensures { (kind : Kind) →
        IsOfKind kind (vocabulary_of table.now).symbols (plain_law law.now) → result ≡ kind }
{
    class(&law.after, table, &law.head)
}

/// Whether a term has no constant.
fn is_value(term: &Term) -> bool
    ensures { result ≡ is_no_constant (plain_term term.now) }
{
    match term {
        Term::Constant { .. } => false,
        Term::Plus(first, second) | Term::Minus(first, second) => {
            is_value(first) && is_value(second)
        }
        _ => true,
    }
}

/// Whether a law is definite: its head is an atom whose value is no constant, or falsity. It takes no memory.
pub fn definite(law: &BaseLaw) -> bool
    ensures { result ≡ is_definite_law (plain_base_law law.now) }
{
    match law {
        BaseLaw::One(law) => match &law.head {
            Head::Atom { value, .. } => is_value(value),
            Head::Falsity => true,
        },
        BaseLaw::NoConcurrency { .. } => true,
    }
}
