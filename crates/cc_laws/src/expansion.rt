//! The base laws that a statement stands for.
ghost use Rattle.std.specs.Prelude.{◌≡◌, ◌+◌, ◌++◌, ◌∷◌, ◌<◌, ◌&&◌, if◌then◌else◌, List as Items, [], length, map, flat_map, Some, None, is_none, IfOk, IfErr, OnOk};
ghost use Rattle.std.specs.Option.{option_map};
ghost use Rattle.cc_defs.specs.declared.law.Range.TheVariants as variants;
ghost use Rattle.cc_defs.specs.Declarations.{Declaration as Declared};
ghost use Rattle.cc_defs.specs.Refusals.{IsRefusedBy, least, refused_if};
ghost use Rattle.cc_defs.specs.Resolved.{plain_base_law, plain_formula, plain_head};
ghost use Rattle.cc_defs.specs.Resolved as resolved;
ghost use Rattle.cc_defs.specs.Trees.{boxed_tree, plain_const_item, plain_kind, plain_law, plain_part, plain_statement, plain_term};
ghost use Rattle.cc_laws.specs.Expansion as words;
ghost use Rattle.cc_laws.specs.Expansion.{Expands};
ghost use Rattle.cc_laws.specs.FreeVariables.{optional};
ghost use Rattle.cc_laws.specs.LawFaults.{law_faults, law_refusal, part_fault};
ghost use Rattle.cc_laws.specs.Resolving.{alone, numbered_from, resolve};
ghost use Rattle.cc_laws.specs.Shortened.{other_laws as laws_of_others};
ghost use Rattle.cc_laws.specs.Shortened as short;
ghost use Rattle.cc_laws.specs.Views.{frame_from, frame_of, persistence_of, plain_caused, row_terms, scope_of};
ghost use Rattle.cc_laws.specs.Vocabulary as vocabulary_words;
ghost use Rattle.cc_laws.specs.Vocabulary.{vocabulary, vocabulary_of};
ghost use Rattle.cc_sorts.specs.Tables.{IsTable};

use crate::checks::{law_fault, law_variables, passed};
use crate::forms::has;
use crate::head_parts::heads_of;
use crate::made::{given, listed, only, some_or};
use crate::meaning::{Meaning, meaning_of};
use crate::mention::Property;
use crate::names::{Names, names_of};
use crate::pieces::{is_later, is_short, lacks_after, resolve_after, resolve_body, resolve_part};
use crate::resolving::{negated, resolve_term};
use crate::values::{Frame, Parts, Persistence, base_law, equation_of, value_law};
use cc_defs::{
    BaseLaw, BaseLaws, ConstItem, Fault, Formula, Head, KindTree, KindWord, LawTree, OutOfMemory,
    Part, Range, Statement, Term, TermTree, Tree,
};
use cc_sorts::Table;
use std::alloc::Global;

/// What the base laws of a law are made from: where it stands, its variables by their numbers in the table, and its test.
#[derive(Clone, Copy)]
pub(crate) struct Source<'t, 's> {
    pub(crate) file: u32,
    pub(crate) line: u32,
    pub(crate) variables: &'t [u32],
    pub(crate) test: &'t Option<Box<Tree<'s>>>,
}

/// The sort of a variable; 0 where there is none.
fn sort_of(table: &Table, variable: u32) -> u32
    ensures { result ≡ Rattle.cc_laws.specs.Vocabulary.sort_of_entry
        (vocabulary_of table.now).variables variable }
{
    if (variable as usize) < table.variable_count() {
        table.sort_of(variable)
    } else {
        0
    }
}

fn sort_ranges(alloc: Global, table: &Table, variables: &[u32]) -> Result<Vec<Range>, OutOfMemory>
    ensures { IfOk result (λ ranges.
        ranges.items ≡ words.sort_ranges (vocabulary_of table.now) variables.now) }
{
    let mut ranges = Vec::with_capacity(alloc, variables.len())?;
    for variable in variables {
        ranges.push(Range::Sort(sort_of(table, *variable)))?;
    }
    Ok(ranges)
}

/// The test of a law, true where it is missing.
fn written_test(
    alloc: Global,
    test: &Option<Box<Tree<'_>>>,
    table: &Table,
    names: &mut Names,
) -> Result<Formula, OutOfMemory>
    ensures made { IfOk result (λ made.
        plain_formula made ≡ words.part (vocabulary_of table.now)
        (scope_of names.old) names.old.next (option_map boxed_tree test.now)) }
    ensures kept { OnOk result (names.new.bindings.items ≡ names.old.bindings.items) }
    ensures next { OnOk result (names.new.next
        ≡ names.old.next + words.part_brackets (option_map boxed_tree test.now)) }
{
    some_or(resolve_part(alloc, test, table, names), Formula::True)
}

/// The `if` part of a law, true where it is missing.
pub(crate) fn written_body(
    alloc: Global,
    law: &LawTree<'_>,
    table: &Table,
    names: &mut Names,
    later: bool,
) -> Result<Formula, OutOfMemory>
    ensures made { IfOk result (λ made. plain_formula made ≡ words.part (vocabulary_of table.now)
        (scope_of names.old) names.old.next (plain_caused law.now later).body) }
    ensures kept { OnOk result (names.new.bindings.items ≡ names.old.bindings.items) }
    ensures next { OnOk result
        (names.new.next ≡ names.old.next + words.part_brackets (plain_caused law.now later).body) }
{
    some_or(resolve_body(alloc, law, table, names, later), Formula::True)
}

/// What the base laws of a law have in common.
pub(crate) fn law_frame(
    alloc: Global,
    table: &Table,
    source: &Source<'_, '_>,
) -> Result<Frame, OutOfMemory>
    ensures { IfOk result (λ made.
        frame_of made ≡ frame_from (vocabulary_of table.now) source.now) }
{
    let mut names = names_of(alloc, source.variables)?;
    let test = written_test(alloc, source.test, table, &mut names)?;
    let ranges = sort_ranges(alloc, table, source.variables)?;
    Ok(Frame {
        ranges,
        test,
        names,
        file: source.file,
        line: source.line,
    })
}

/// Whether the head of a law has an action.
fn head_acts(law: &LawTree<'_>, table: &Table) -> bool
    ensures { result
        ≡ words.part_acts (vocabulary_of table.now) (short.head_of (plain_law law.now)) }
{
    match law {
        LawTree::Caused(head, _, _)
        | LawTree::Default(head, _, _)
        | LawTree::Causes(_, head, _)
        | LawTree::MayCause(_, head, _) => has(head, table, Property::Action),
        _ => false,
    }
}

/// Whether a law denies a step where a part of its head is `false`. It goes through the whole head: asked once for a law.
fn denies(law: &LawTree<'_>, table: &Table, later: bool) -> bool
    ensures { result ≡ is_none (plain_caused law.now later).after
        && words.part_acts (vocabulary_of table.now) (plain_caused law.now later).head }
{
    lacks_after(law, later) && head_acts(law, table)
}

/// Whether a part of a head denies a step, where the law denies steps.
fn denies_step(denying: bool, head: &Head) -> bool
    ensures { result ≡ denying && words.is_falsity_head (plain_head head.now) }
{
    match head {
        Head::Falsity => denying,
        Head::Atom { .. } => false,
    }
}

/// The parts of a base law that denies a step or not.
fn law_parts(
    alloc: Global,
    law: &LawTree<'_>,
    table: &Table,
    names: &mut Names,
    later: bool,
    denied: bool,
) -> Result<Parts, OutOfMemory>
    ensures body { IfOk result (λ made. plain_formula made.body
        ≡ (if denied then resolved.Truth else words.part (vocabulary_of table.now)
        (scope_of names.old) names.old.next (plain_caused law.now later).body)) }
    ensures after { IfOk result (λ made. option_map plain_formula made.after ≡ (if denied then Some
        (words.part (vocabulary_of table.now) (scope_of names.old) names.old.next
        (plain_caused law.now later).body) else option_map (resolve (vocabulary_of table.now)
        (scope_of names.old)
        (names.old.next + words.part_brackets (plain_caused law.now later).body))
        (plain_caused law.now later).after)) }
{
    let body = written_body(alloc, law, table, names, later)?;
    if denied {
        return Ok(Parts {
            body: Formula::True,
            after: Some(body),
        });
    }
    let after = resolve_after(alloc, law, table, names, later)?;
    Ok(Parts { body, after })
}

/// The base law of a part of a head.
fn law_for(
    alloc: Global,
    law: &LawTree<'_>,
    table: &Table,
    source: &Source<'_, '_>,
    later: bool,
    denying: bool,
    head: Head,
) -> Result<BaseLaw, OutOfMemory>
    requires { denying ≡ is_none (plain_caused law.now later).after
        && words.part_acts (vocabulary_of table.now) (plain_caused law.now later).head }
    ensures { IfOk result (λ made.
        plain_base_law made ≡ words.law_for (vocabulary_of table.now) (frame_from
        (vocabulary_of table.now) source.now) (plain_caused law.now later) (plain_head head)) }
{
    let denied = denies_step(denying, &head);
    let mut frame = law_frame(alloc, table, source)?;
    let parts = law_parts(alloc, law, table, &mut frame.names, later, denied)?;
    Ok(base_law(table, frame, head, parts))
}

/// The parts of the head of a law with these variables.
fn head_parts(
    alloc: Global,
    law: &LawTree<'_>,
    table: &Table,
    variables: &[u32],
) -> Result<Vec<Head>, OutOfMemory>
    ensures { IfOk result (λ found.
        map plain_head found.items ≡ words.head_parts (vocabulary_of table.now)
        (numbered_from 0 variables.now) (short.head_of (plain_law law.now))) }
{
    match law {
        LawTree::Caused(head, _, _)
        | LawTree::Default(head, _, _)
        | LawTree::Causes(_, head, _)
        | LawTree::MayCause(_, head, _) => {
            let names = names_of(alloc, variables)?;
            heads_of(alloc, head, table, &names)
        }
        _ => only(alloc, Head::Falsity),
    }
}

/// The base laws of a law that is short for another one: one for each part of the head.
fn split(
    alloc: Global,
    law: &LawTree<'_>,
    table: &Table,
    source: &Source<'_, '_>,
    later: bool,
) -> Result<Vec<BaseLaw>, OutOfMemory>
    ensures { IfOk result (λ made.
        map plain_base_law made.items ≡ words.split (vocabulary_of table.now)
        (frame_from (vocabulary_of table.now) source.now) (plain_caused law.now later)) }
{
    let heads = head_parts(alloc, law, table, source.variables)?;
    let denying = denies(law, table, later);
    let mut made = Vec::with_capacity(alloc, heads.len())?;
    for head in heads {
        made.push(law_for(alloc, law, table, source, later, denying, head)?)?;
    }
    Ok(made)
}

/// The base law of what is exogenous or inertial.
fn subject_laws(
    alloc: Global,
    constant: &TermTree<'_>,
    table: &Table,
    source: &Source<'_, '_>,
    persistence: Persistence,
) -> Result<Vec<BaseLaw>, OutOfMemory>
    ensures { IfOk result (λ made. map plain_base_law made.items ≡ words.subject_laws
        (vocabulary_of table.now) (frame_from (vocabulary_of table.now) source.now)
        (persistence_of persistence) (plain_term constant.now)) }
{
    let frame = law_frame(alloc, table, source)?;
    match resolve_term(alloc, constant, table, &frame.names)? {
        Term::Constant { symbol, args } => {
            let law = value_law(alloc, table, frame, persistence, symbol, args)?;
            only(alloc, law)
        }
        _ => Ok(Vec::new(alloc)),
    }
}

/// The base laws of a law that is short for none.
fn other_laws(
    alloc: Global,
    law: &LawTree<'_>,
    table: &Table,
    source: &Source<'_, '_>,
) -> Result<Vec<BaseLaw>, OutOfMemory>
    ensures { IfOk result (λ made.
        map plain_base_law made.items ≡ laws_of_others (vocabulary_of table.now)
        (frame_from (vocabulary_of table.now) source.now) (plain_law law.now)) }
{
    match law {
        LawTree::Exogenous(constant) => {
            subject_laws(alloc, constant, table, source, Persistence::Exogenous)
        }
        LawTree::Inertial(constant) => {
            subject_laws(alloc, constant, table, source, Persistence::Inertial)
        }
        LawTree::NoConcurrency => {
            let (file, line) = (source.file, source.line);
            only(alloc, BaseLaw::NoConcurrency { file, line })
        }
        _ => Ok(Vec::new(alloc)),
    }
}

/// The base laws of a law.
fn laws_with(
    alloc: Global,
    law: &LawTree<'_>,
    table: &Table,
    source: &Source<'_, '_>,
) -> Result<Vec<BaseLaw>, OutOfMemory>
    ensures { IfOk result (λ made.
        map plain_base_law made.items ≡ words.laws_with (vocabulary_of table.now)
        (frame_from (vocabulary_of table.now) source.now) (plain_law law.now)) }
{
    if is_short(law) {
        let later = is_later(law, table);
        return split(alloc, law, table, source, later);
    }
    other_laws(alloc, law, table, source)
}

/// The base laws of a law and its test.
pub(crate) fn laws_in<'t, 's>(
    alloc: Global,
    law: &'t LawTree<'s>,
    test: &'t Option<Box<Tree<'s>>>,
    file: u32,
    table: &Table,
    line: u32,
) -> Result<Vec<BaseLaw>, OutOfMemory>
    ensures { IfOk result (λ made. map plain_base_law made.items ≡ words.laws_in file
        (vocabulary_of table.now) line (plain_law law.now) (option_map boxed_tree test.now)) }
{
    let variables = law_variables(alloc, law, table)?;
    let source = Source {
        file,
        line,
        variables: &variables,
        test,
    };
    laws_with(alloc, law, table, &source)
}

/// Variables by their places from 0 on, one for each sort.
fn places(alloc: Global, sorts: &[u32]) -> Result<Vec<Term>, OutOfMemory>
    requires { length sorts.now < 4000000000 }
    ensures { IfOk result (λ made. row_terms made.items ≡ words.places 0 sorts.now) }
{
    let mut made = Vec::with_capacity(alloc, sorts.len())?;
    for place in 0..sorts.len() {
        made.push(Term::Variable(place as u32))?;
    }
    Ok(made)
}

/// What variables go over, one for each sort.
fn ranges_over(alloc: Global, sorts: &[u32]) -> Result<Vec<Range>, OutOfMemory>
    ensures { IfOk result (λ ranges. ranges.items ≡ map variants.Sort sorts.now) }
{
    let mut ranges = Vec::with_capacity(alloc, sorts.len())?;
    for sort in sorts {
        ranges.push(Range::Sort(*sort))?;
    }
    Ok(ranges)
}

/// What the base laws of a constant have in common.
fn shape_frame(alloc: Global, file: u32, line: u32, sorts: &[u32]) -> Result<Frame, OutOfMemory>
    requires { length sorts.now < 4000000000 }
    ensures { IfOk result (λ made. frame_of made ≡ words.shape_frame file line sorts.now) }
{
    let ranges = ranges_over(alloc, sorts)?;
    let names = Names {
        bindings: Vec::new(alloc),
        next: sorts.len() as u32 + 1,
    };
    Ok(Frame {
        ranges,
        test: Formula::True,
        names,
        file,
        line,
    })
}

/// The law about each value of a constant with arguments of these sorts.
fn shape_law(
    alloc: Global,
    file: u32,
    table: &Table,
    line: u32,
    persistence: Persistence,
    number: u32,
    sorts: &[u32],
) -> Result<BaseLaw, OutOfMemory>
    requires { length sorts.now < 4000000000 }
    ensures { IfOk result (λ made. plain_base_law made
        ≡ words.value_law (vocabulary_of table.now) (words.shape_frame file line sorts.now)
        (persistence_of persistence) number (words.places 0 sorts.now)) }
{
    let args = places(alloc, sorts)?;
    let frame = shape_frame(alloc, file, line, sorts)?;
    value_law(alloc, table, frame, persistence, number, args)
}

/// That a constant with a variable for each argument has a value.
fn equation(alloc: Global, symbol: u32, sorts: &[u32], value: Term) -> Result<Formula, OutOfMemory>
    requires { length sorts.now < 4000000000 }
    ensures { IfOk result (λ made. plain_formula made ≡ resolved.Equal
        (resolved.Constant symbol (words.places 0 sorts.now)) (resolved.plain_term value)) }
{
    let args = places(alloc, sorts)?;
    Ok(equation_of(symbol, args, value))
}

/// The denial that an attribute is `none` exactly where its action is not done.
fn denied_attribute(
    alloc: Global,
    number: u32,
    action: u32,
    sorts: &[u32],
) -> Result<Formula, OutOfMemory>
    requires { length sorts.now < 4000000000 }
    ensures { IfOk result (λ made. plain_formula made ≡ resolved.Not (resolved.Same
        (resolved.Equal (resolved.Constant number (words.places 0 sorts.now)) resolved.Nothing)
        (resolved.Not (alone (resolved.Constant action (words.places 0 sorts.now)))))) }
{
    let done = equation(alloc, action, sorts, Term::Object(1))?;
    let denied = Box::new(alloc, negated(alloc, done)?)?;
    let none = Box::new(alloc, equation(alloc, number, sorts, Term::Nothing)?)?;
    negated(alloc, Formula::Same(none, denied))
}

/// The law that denies a step where an attribute is not `none` exactly where its action is not done.
fn attribute_law(
    alloc: Global,
    file: u32,
    table: &Table,
    line: u32,
    number: u32,
    action: u32,
    sorts: &[u32],
) -> Result<BaseLaw, OutOfMemory>
    requires { length sorts.now < 4000000000 }
    ensures { IfOk result (λ made.
        plain_base_law made ≡ words.attribute_law (vocabulary_of table.now)
        (words.shape_frame file line sorts.now) number action (words.places 0 sorts.now)) }
{
    let differ = denied_attribute(alloc, number, action, sorts)?;
    let frame = shape_frame(alloc, file, line, sorts)?;
    let parts = Parts {
        body: Formula::True,
        after: Some(differ),
    };
    Ok(base_law(table, frame, Head::Falsity, parts))
}

/// Which law the word of a kind stands for.
fn persistence_for(word: KindWord) -> Option<Persistence>
    ensures { option_map persistence_of result ≡ words.persistence_for word }
{
    match word {
        KindWord::Inertial => Some(Persistence::Inertial),
        KindWord::ExogenousAction => Some(Persistence::Exogenous),
        KindWord::Rigid => Some(Persistence::Rigid),
        _ => None,
    }
}

/// Adds the base laws of a constant whose kind is a word.
fn add_word_laws(
    alloc: Global,
    file: u32,
    table: &Table,
    line: u32,
    word: KindWord,
    number: u32,
    sorts: &[u32],
    laws: &mut Vec<BaseLaw>,
) -> Result<(), OutOfMemory>
    requires { length sorts.now < 4000000000 }
    ensures { OnOk result (map plain_base_law laws.new.items ≡ map plain_base_law laws.old.items
        ++ words.word_laws (vocabulary_of table.now) (words.shape_frame file line sorts.now) word
        number (words.places 0 sorts.now)) }
{
    match persistence_for(word) {
        Some(persistence) => {
            let law = shape_law(alloc, file, table, line, persistence, number, sorts)?;
            laws.push(law)?;
            Ok(())
        }
        None => Ok(()),
    }
}

/// Adds the base laws of an attribute.
fn add_attribute_laws(
    alloc: Global,
    file: u32,
    table: &Table,
    line: u32,
    number: u32,
    action: Option<u32>,
    sorts: &[u32],
    laws: &mut Vec<BaseLaw>,
) -> Result<(), OutOfMemory>
    requires { length sorts.now < 4000000000 }
    ensures { OnOk result (map plain_base_law laws.new.items ≡ map plain_base_law laws.old.items
        ++ words.attribute_laws (vocabulary_of table.now) (words.shape_frame file line sorts.now)
        number action (words.places 0 sorts.now)) }
{
    let Some(action) = action else {
        return Ok(());
    };
    let persistence = Persistence::Exogenous;
    laws.push(shape_law(alloc, file, table, line, persistence, number, sorts)?)?;
    laws.push(attribute_law(alloc, file, table, line, number, action, sorts)?)?;
    Ok(())
}

/// Adds the base laws of a constant of a kind, by its name.
fn add_constant_laws(
    alloc: Global,
    kind: &KindTree<'_>,
    file: u32,
    table: &Table,
    line: u32,
    name: &str,
    laws: &mut Vec<BaseLaw>,
) -> Result<(), OutOfMemory>
    ensures { OnOk result (map plain_base_law laws.new.items ≡ map plain_base_law laws.old.items
        ++ words.constant_laws file (vocabulary_of table.now) line (plain_kind kind.now)
        (vocabulary_words.meaning (vocabulary_of table.now) name.now)) }
{
    let Meaning::Constant(number, symbol) = meaning_of(table, name) else {
        return Ok(());
    };
    let sorts = symbol.sorts.items();
    if sorts.len() >= 4_000_000_000 {
        return Err(OutOfMemory);
    }
    match kind {
        KindTree::Plain(word, _) => {
            add_word_laws(alloc, file, table, line, *word, number, sorts, laws)
        }
        KindTree::Attribute(..) => {
            let action = symbol.attribute;
            add_attribute_laws(alloc, file, table, line, number, action, sorts, laws)
        }
    }
}

/// Adds the base laws of the constants of one kind.
fn add_item(
    alloc: Global,
    item: &ConstItem<'_>,
    file: u32,
    table: &Table,
    line: u32,
    laws: &mut Vec<BaseLaw>,
) -> Result<(), OutOfMemory>
    ensures { OnOk result (map plain_base_law laws.new.items ≡ map plain_base_law laws.old.items
        ++ words.item_laws file (vocabulary_of table.now) line (plain_const_item item.now)) }
{
    let shapes = item.shapes.items();
    for shape in shapes {
        add_constant_laws(alloc, &item.kind, file, table, line, shape.name, laws)?;
    }
    Ok(())
}

/// The base laws of a statement of constants.
pub(crate) fn declared_laws(
    alloc: Global,
    items: &[ConstItem<'_>],
    file: u32,
    table: &Table,
    line: u32,
) -> Result<Vec<BaseLaw>, OutOfMemory>
    ensures { IfOk result (λ made. map plain_base_law made.items ≡ flat_map
        (words.item_laws file (vocabulary_of table.now) line) (map plain_const_item items.now)) }
{
    let mut made = Vec::new(alloc);
    for item in items {
        add_item(alloc, item, file, table, line, &mut made)?;
    }
    Ok(made)
}

/// The base laws of a law and its test, where it has no fault.
fn expand_law<'t, 's>(
    alloc: Global,
    law: &'t LawTree<'s>,
    test: &'t Option<Box<Tree<'s>>>,
    file: u32,
    table: &Table,
    line: u32,
) -> Result<Vec<BaseLaw>, Fault>
    ensures checked { IfOk result (λ made. least (law_faults (vocabulary_of table.now)
        (plain_law law.now) (optional (option_map boxed_tree test.now))) ≡ None) }
    ensures expanded { IfOk result (λ made. map plain_base_law made.items ≡ words.laws_in file
        (vocabulary_of table.now) line (plain_law law.now) (option_map boxed_tree test.now)) }
    ensures refused { IfErr result (IsRefusedBy (refused_if file line (least (law_faults
        (vocabulary_of table.now) (plain_law law.now) (optional (option_map boxed_tree test.now)))))) }
{
    passed(law_fault(alloc, law, test, table), file, line)?;
    given(laws_in(alloc, law, test, file, table, line))
}

/// The base laws of a statement's part, where it has no fault: a law alone may have one.
fn expand_part(
    alloc: Global,
    part: &Part<'_>,
    file: u32,
    table: &Table,
    line: u32,
) -> Result<Vec<BaseLaw>, Fault>
    ensures checked { IfOk result (λ made.
        part_fault (vocabulary_of table.now) (plain_part part.now) ≡ None) }
    ensures expanded { IfOk result (λ made. map plain_base_law made.items
        ≡ words.base_laws file (vocabulary_of table.now) line (plain_part part.now)) }
    ensures refused { IfErr result (IsRefusedBy (refused_if file line
        (part_fault (vocabulary_of table.now) (plain_part part.now)))) }
{
    match part {
        Part::Law(law, test) => expand_law(alloc, law, test, file, table, line),
        Part::Constants(items) => given(declared_laws(alloc, items.items(), file, table, line)),
        _ => Ok(Vec::new(alloc)),
    }
}

/// The base laws that a law, or a statement of constants that was declared, stands for, in order, at the table as it
/// stands. Another statement stands for none. Refuses, at the statement's line, the least number of a fault of the
/// law: an unknown name (5), another number of arguments (6), a term where its sort or kind does not fit (7), a `where` test
/// with a variable that is not free in the law before it (8), a law of none of the three forms or a part of the wrong kind
/// (9), a statically determined fluent in the head of a fluent dynamic law (10), a head that is not definite (11). A
/// statement that is no law has no such fault. `file` is the number of the file in refusals.
pub fn expand(
    alloc: Global,
    file: u32,
    table: &Table,
    statement: &Statement<'_>,
) -> Result<BaseLaws, Fault>
    ensures expanded { (left : Items Declared) → IsTable table.now left → IfOk result (λ laws.
        Expands file left (plain_statement statement.now) (map plain_base_law laws)) }
    ensures refused { (left : Items Declared) → IsTable table.now left → IfErr result
        (IsRefusedBy (law_refusal file (vocabulary left) (plain_statement statement.now))) }
{
    listed(expand_part(alloc, &statement.part, file, table, statement.line))
}
