//! The laws that a statement stands for where heads may be formulas of any form.
ghost use Rattle.std.specs.Prelude.{◌≡◌, ◌+◌, ◌∷◌, List as Items, [], map, flat_map, None, IfOk, IfErr};
ghost use Rattle.std.specs.Option.{option_map};
ghost use Rattle.cc_defs.specs.Declarations.{Declaration as Declared};
ghost use Rattle.cc_defs.specs.Refusals.{IsRefusedBy, least, refused_if};
ghost use Rattle.cc_defs.specs.Resolved.{plain_base_law, plain_formula, plain_head};
ghost use Rattle.cc_defs.specs.Trees.{boxed_tree, plain_const_item, plain_law, plain_part, plain_statement, plain_tree};
ghost use Rattle.cc_defs.specs.Trees as tree_words;
ghost use Rattle.cc_laws.specs.Expansion.{law_frame as law_frame_of};
ghost use Rattle.cc_laws.specs.Expansion as words_of;
ghost use Rattle.cc_laws.specs.FreeVariables.{optional};
ghost use Rattle.cc_laws.specs.LawFaults.{law_variables as law_variables_of};
ghost use Rattle.cc_laws.specs.Resolving.{resolve as resolve_of};
ghost use Rattle.cc_laws.specs.Shortened.{law_short_for};
ghost use Rattle.cc_laws.specs.Views.{frame_from, plain_caused, scope_of};
ghost use Rattle.cc_laws.specs.Vocabulary.{vocabulary, vocabulary_of};
ghost use Rattle.cc_laws.specs.Widening as words;
ghost use Rattle.cc_laws.specs.Widening.{ExpandsWide, wide_faults, wide_part_fault, wide_refusal};
ghost use Rattle.cc_sorts.specs.Tables.{IsTable};
ghost use Rattle.cc_wide.specs.WideLaws.{plain_wide_base};

use crate::checks::{law_variables, passed, wide_fault};
use crate::expansion::{Source, declared_laws, law_frame, laws_in, written_body};
use crate::forms::{has, has_indefinite_head};
use crate::made::{given, listed, only};
use crate::mention::Property;
use crate::names::Names;
use crate::pieces::{is_later, lacks_after, resolve_after};
use crate::resolving::resolve;
use crate::values::equation_of;
use cc_defs::{
    BaseLaw, ConstItem, Fault, Formula, Head, LawKind, LawTree, List, OutOfMemory, Part, Statement,
    Tree,
};
use cc_sorts::Table;
use cc_wide::{WideBase, WideLaw, WideLaws};
use std::alloc::Global;

/// A definite head as a formula: the equation of its atom, or `false`.
fn head_formula(head: Head) -> Formula
    ensures { plain_formula result ≡ words.head_formula (plain_head head) }
{
    match head {
        Head::Atom {
            symbol,
            args,
            value,
        } => equation_of(symbol, args.into_items(), value),
        Head::Falsity => Formula::False,
    }
}

/// The same law, with its head as a formula.
fn widened(law: BaseLaw) -> WideBase
    ensures { plain_wide_base result ≡ words.widened (plain_base_law law) }
{
    match law {
        BaseLaw::One(law) => WideBase::One(WideLaw {
            ranges: law.ranges,
            head: head_formula(law.head),
            body: law.body,
            after: law.after,
            test: law.test,
            kind: law.kind,
            file: law.file,
            line: law.line,
        }),
        BaseLaw::NoConcurrency { file, line } => WideBase::NoConcurrency { file, line },
    }
}

/// The same laws, with their heads as formulas.
fn all_widened(alloc: Global, laws: Vec<BaseLaw>) -> Result<Vec<WideBase>, OutOfMemory>
    ensures { IfOk result (λ made.
        map plain_wide_base made.items ≡ map words.widened (map plain_base_law laws.items)) }
{
    let mut made = Vec::with_capacity(alloc, laws.len())?;
    for law in laws {
        made.push(widened(law))?;
    }
    Ok(made)
}

/// The class of a law with the `after` part of this one and this head.
fn class_of<'t, 's>(law: &'t LawTree<'s>, head: &'t Tree<'s>, table: &Table, later: bool) -> LawKind
    ensures { result ≡ words.wide_class (vocabulary_of table.now)
        (plain_caused law.now later).after (plain_tree head.now) }
{
    if !lacks_after(law, later) {
        return LawKind::FluentDynamic;
    }
    if has(head, table, Property::Action) {
        LawKind::ActionDynamic
    } else {
        LawKind::Static
    }
}

/// The parts of a law whose head is kept whole.
#[derive(Drop)]
struct WholeParts {
    head: Formula,
    body: Formula,
    after: Option<Formula>,
}

/// The parts of a law whose head is kept whole. The brackets of the head have their numbers last.
fn whole_parts<'t, 's>(
    alloc: Global,
    law: &'t LawTree<'s>,
    head: &'t Tree<'s>,
    table: &Table,
    names: &mut Names,
    later: bool,
) -> Result<WholeParts, OutOfMemory>
    ensures body { IfOk result (λ made.
        plain_formula made.body ≡ words_of.part (vocabulary_of table.now)
        (scope_of names.old) names.old.next (plain_caused law.now later).body) }
    ensures after { IfOk result (λ made. option_map plain_formula made.after
        ≡ option_map (resolve_of (vocabulary_of table.now) (scope_of names.old)
        (names.old.next + words_of.part_brackets (plain_caused law.now later).body))
        (plain_caused law.now later).after) }
    ensures head { IfOk result (λ made. plain_formula made.head
        ≡ resolve_of (vocabulary_of table.now) (scope_of names.old)
        (names.old.next + words_of.part_brackets (plain_caused law.now later).body
        + words_of.part_brackets (plain_caused law.now later).after) (plain_tree head.now)) }
{
    let body = written_body(alloc, law, table, names, later)?;
    let after = resolve_after(alloc, law, table, names, later)?;
    let head = resolve(alloc, head, table, names)?;
    Ok(WholeParts { head, body, after })
}

/// The law whose head is kept whole.
fn whole_law<'t, 's>(
    alloc: Global,
    law: &'t LawTree<'s>,
    head: &'t Tree<'s>,
    table: &Table,
    source: &Source<'_, '_>,
    later: bool,
) -> Result<WideBase, OutOfMemory>
    ensures { IfOk result (λ made. plain_wide_base made ≡ words.whole_law (vocabulary_of table.now)
        (frame_from (vocabulary_of table.now) source.now) (plain_caused law.now later)
        (plain_tree head.now)) }
{
    let mut frame = law_frame(alloc, table, source)?;
    let parts = whole_parts(alloc, law, head, table, &mut frame.names, later)?;
    Ok(WideBase::One(WideLaw {
        ranges: List::of(frame.ranges),
        head: parts.head,
        body: parts.body,
        after: parts.after,
        test: frame.test,
        kind: class_of(law, head, table, later),
        file: frame.file,
        line: frame.line,
    }))
}

/// The law of a law that is short for another one, where its head is kept whole.
fn whole_laws(
    alloc: Global,
    law: &LawTree<'_>,
    table: &Table,
    source: &Source<'_, '_>,
) -> Result<Vec<WideBase>, OutOfMemory>
    ensures { IfOk result (λ made.
        map plain_wide_base made.items ≡ words.whole_short (vocabulary_of table.now)
        (frame_from (vocabulary_of table.now) source.now)
        (law_short_for (vocabulary_of table.now) (plain_law law.now))) }
{
    let later = is_later(law, table);
    match law {
        LawTree::Caused(head, _, _)
        | LawTree::Default(head, _, _)
        | LawTree::Causes(_, head, _)
        | LawTree::MayCause(_, head, _) => {
            let whole = whole_law(alloc, law, head, table, source, later)?;
            only(alloc, whole)
        }
        _ => Ok(Vec::new(alloc)),
    }
}

/// The laws of a law whose head is not definite.
fn whole_in<'t, 's>(
    alloc: Global,
    law: &'t LawTree<'s>,
    test: &'t Option<Box<Tree<'s>>>,
    file: u32,
    table: &Table,
    line: u32,
) -> Result<Vec<WideBase>, OutOfMemory>
    ensures { IfOk result (λ made. map plain_wide_base made.items
        ≡ words.whole_short (vocabulary_of table.now) (law_frame_of file (vocabulary_of table.now)
        line (law_variables_of (vocabulary_of table.now) (plain_law law.now))
        (option_map boxed_tree test.now))
        (law_short_for (vocabulary_of table.now) (plain_law law.now))) }
{
    let variables = law_variables(alloc, law, table)?;
    let source = Source {
        file,
        line,
        variables: &variables,
        test,
    };
    whole_laws(alloc, law, table, &source)
}

/// The laws of a law and its test: of one with a definite head its base laws.
fn wide_in<'t, 's>(
    alloc: Global,
    law: &'t LawTree<'s>,
    test: &'t Option<Box<Tree<'s>>>,
    file: u32,
    table: &Table,
    line: u32,
) -> Result<Vec<WideBase>, OutOfMemory>
    ensures { IfOk result (λ made. map plain_wide_base made.items
        ≡ words.wide_laws file (vocabulary_of table.now) line
        (tree_words.Law (plain_law law.now) (option_map boxed_tree test.now))) }
{
    if has_indefinite_head(law, table) {
        return whole_in(alloc, law, test, file, table, line);
    }
    let laws = laws_in(alloc, law, test, file, table, line)?;
    all_widened(alloc, laws)
}

/// The laws of a law and its test, where it has no fault but perhaps that its head is not definite.
fn expand_wide_law<'t, 's>(
    alloc: Global,
    law: &'t LawTree<'s>,
    test: &'t Option<Box<Tree<'s>>>,
    file: u32,
    table: &Table,
    line: u32,
) -> Result<Vec<WideBase>, Fault>
    ensures checked { IfOk result (λ made. least (wide_faults (vocabulary_of table.now)
        (plain_law law.now) (optional (option_map boxed_tree test.now))) ≡ None) }
    ensures expanded { IfOk result (λ made. map plain_wide_base made.items
        ≡ words.wide_laws file (vocabulary_of table.now) line
        (tree_words.Law (plain_law law.now) (option_map boxed_tree test.now))) }
    ensures refused { IfErr result (IsRefusedBy (refused_if file line (least (wide_faults
        (vocabulary_of table.now) (plain_law law.now) (optional (option_map boxed_tree test.now)))))) }
{
    passed(wide_fault(alloc, law, test, table), file, line)?;
    given(wide_in(alloc, law, test, file, table, line))
}

/// The laws of a statement of constants.
fn declared_wide(
    alloc: Global,
    items: &[ConstItem<'_>],
    file: u32,
    table: &Table,
    line: u32,
) -> Result<Vec<WideBase>, OutOfMemory>
    ensures { IfOk result (λ made. map plain_wide_base made.items ≡ map words.widened (flat_map
        (words_of.item_laws file (vocabulary_of table.now) line)
        (map plain_const_item items.now))) }
{
    let laws = declared_laws(alloc, items, file, table, line)?;
    all_widened(alloc, laws)
}

/// The laws of a statement's part, where it has no such fault.
fn expand_wide_part(
    alloc: Global,
    part: &Part<'_>,
    file: u32,
    table: &Table,
    line: u32,
) -> Result<Vec<WideBase>, Fault>
    ensures checked { IfOk result (λ made.
        wide_part_fault (vocabulary_of table.now) (plain_part part.now) ≡ None) }
    ensures expanded { IfOk result (λ made. map plain_wide_base made.items
        ≡ words.wide_laws file (vocabulary_of table.now) line (plain_part part.now)) }
    ensures refused { IfErr result (IsRefusedBy (refused_if file line
        (wide_part_fault (vocabulary_of table.now) (plain_part part.now)))) }
{
    match part {
        Part::Law(law, test) => expand_wide_law(alloc, law, test, file, table, line),
        Part::Constants(items) => given(declared_wide(alloc, items.items(), file, table, line)),
        _ => Ok(Vec::new(alloc)),
    }
}

/// The laws that a law, or a statement of constants that was declared, stands for, in order, where heads may be formulas of
/// any form: of a law with a definite head its base laws, with their atoms as equations; of another law one, whose head is
/// kept whole. Refuses, at the statement's line, the least number from 5 to 10 of a fault of the law, as `expand` does; a head
/// that is not definite is none. `file` is the number of the file in refusals.
pub fn expand_wide(
    alloc: Global,
    file: u32,
    table: &Table,
    statement: &Statement<'_>,
) -> Result<WideLaws, Fault>
    ensures expanded { (left : Items Declared) → IsTable table.now left → IfOk result (λ laws.
        ExpandsWide file left (plain_statement statement.now) (map plain_wide_base laws)) }
    ensures refused { (left : Items Declared) → IsTable table.now left → IfErr result
        (IsRefusedBy (wide_refusal file (vocabulary left) (plain_statement statement.now))) }
{
    listed(expand_wide_part(alloc, &statement.part, file, table, statement.line))
}
