//! What a name means.
ghost use Rattle.std.specs.Prelude.{◌≡◌};
ghost use Rattle.cc_defs.specs.Declarations as declared;
ghost use Rattle.cc_defs.specs.Trees.{plain_term};
ghost use Rattle.cc_laws.specs.FormulaFaults.{is_miscounted as has_other_count, stands_alone as may_stand_alone, term_meaning};
ghost use Rattle.cc_laws.specs.Views.{asks, plain_meaning};
ghost use Rattle.cc_laws.specs.Vocabulary as words;
ghost use Rattle.cc_laws.specs.Vocabulary.{vocabulary_of};

use crate::mention::Property;
use cc_defs::{Kind, Symbol, TermTree};
use cc_sorts::Table;

/// What a name means: nothing that is declared; `none`; an object or a variable, with its number and the number of its
/// sort; a constant, with the number of its symbol.
#[derive(Clone, Copy)]
pub(crate) enum Meaning<'t> {
    Unknown,
    Nothing,
    Object(u32, u32),
    Variable(u32, u32),
    Constant(u32, &'t Symbol),
}

/// The meaning of a name by a table.
pub(crate) fn meaning_of<'t>(table: &'t Table, name: &str) -> Meaning<'t>
    ensures { plain_meaning result ≡ words.meaning (vocabulary_of table.now) name.now }
{
    if name == "none" {
        return Meaning::Nothing;
    }
    if let Some(object) = table.object(name) {
        return Meaning::Object(object, table.object_sort(object));
    }
    if let Some(variable) = table.variable(name) {
        return Meaning::Variable(variable, table.sort_of(variable));
    }
    match table.symbol(name) {
        Some(symbol) => Meaning::Constant(symbol, table.symbol_of(symbol)),
        None => Meaning::Unknown,
    }
}

/// The meaning of a term's name by a table.
pub(crate) fn meaning_of_term<'t>(term: &TermTree<'_>, table: &'t Table) -> Meaning<'t>
    ensures { plain_meaning result ≡ term_meaning (vocabulary_of table.now) (plain_term term.now) }
{
    meaning_of(table, term.name)
}

pub(crate) fn is_action(kind: Kind) -> bool
    ensures { result ≡ declared.is_action kind }
{
    match kind {
        Kind::Action => true,
        _ => false,
    }
}

impl<'t> Meaning<'t> {
    pub(crate) fn is_unknown(&self) -> bool
        ensures { result ≡ words.is_unknown (plain_meaning self.now) }
    {
        match self {
            Meaning::Unknown => true,
            _ => false,
        }
    }

    /// Whether a name with this meaning may not have so many arguments.
    fn is_miscounted(&self, count: usize) -> bool
        ensures { result ≡ has_other_count (plain_meaning self.now) count }
    {
        match self {
            Meaning::Unknown => false,
            Meaning::Nothing | Meaning::Object(..) | Meaning::Variable(..) => count != 0,
            Meaning::Constant(_, symbol) => count != symbol.sorts.items().len(),
        }
    }

    pub(crate) fn is_constant(&self) -> bool
        ensures { result ≡ words.is_constant (plain_meaning self.now) }
    {
        match self {
            Meaning::Constant(..) => true,
            _ => false,
        }
    }

    pub(crate) fn is_action_constant(&self) -> bool
        ensures { result ≡ words.is_action_constant (plain_meaning self.now) }
    {
        match self {
            Meaning::Constant(_, symbol) => is_action(symbol.kind),
            _ => false,
        }
    }

    fn is_fluent_constant(&self) -> bool
        ensures { result ≡ words.is_fluent_constant (plain_meaning self.now) }
    {
        match self {
            Meaning::Constant(_, symbol) => !is_action(symbol.kind),
            _ => false,
        }
    }

    pub(crate) fn is_determined_constant(&self) -> bool
        ensures { result ≡ words.is_determined_constant (plain_meaning self.now) }
    {
        match self {
            Meaning::Constant(_, symbol) => match symbol.kind {
                Kind::Determined => true,
                _ => false,
            },
            _ => false,
        }
    }

    /// Whether it is a constant with the values `false` and `true` alone.
    pub(crate) fn is_boolean_constant(&self) -> bool
        ensures { result ≡ words.is_boolean_constant (plain_meaning self.now) }
    {
        match self {
            Meaning::Constant(_, symbol) => symbol.attribute.is_none() && symbol.domain == 0,
            _ => false,
        }
    }

    /// Whether it is `true` or `false`.
    pub(crate) fn is_truth_value(&self) -> bool
        ensures { result ≡ words.is_truth_value (plain_meaning self.now) }
    {
        match self {
            Meaning::Object(number, _) => *number == 0 || *number == 1,
            _ => false,
        }
    }

    /// Whether it is `false`.
    pub(crate) fn is_falsity(&self) -> bool
        ensures { result ≡ words.is_falsity (plain_meaning self.now) }
    {
        match self {
            Meaning::Object(number, _) => *number == 0,
            _ => false,
        }
    }

    /// Whether a term with this meaning may stand alone as a formula.
    pub(crate) fn stands_alone(&self) -> bool
        ensures { result ≡ may_stand_alone (plain_meaning self.now) }
    {
        self.is_boolean_constant() || self.is_truth_value()
    }

    /// Whether a name with this meaning and so many arguments has the property.
    pub(crate) fn has(&self, property: Property, count: usize) -> bool
        ensures { result ≡ asks property (plain_meaning self.now) count }
    {
        match property {
            Property::Unknown => self.is_unknown(),
            Property::Miscounted => self.is_miscounted(count),
            Property::Constant => self.is_constant(),
            Property::Action => self.is_action_constant(),
            Property::Fluent => self.is_fluent_constant(),
            Property::Determined => self.is_determined_constant(),
        }
    }
}
