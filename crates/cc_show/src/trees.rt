//! The trees of statements. A tree is shown with all of its groups: an operator stands before its operands, in parentheses.
ghost use Rattle.std.specs.Prelude.{List as Items, ℕ};
ghost use Rattle.cc_text.specs.Reading.{HasRead};

use cc_defs::{
    Addend, At, ConstItem, Fault, KindTree, KindWord, LawTree, List, ListItem, Member, ObjItem,
    OutOfMemory, Part, Piece, QueryItem, Shape, SortItem, Statement, SumTree, TermTree, Tree,
};
use cc_syntax::{discard, parse};
use cc_text::Tokens;
use std::alloc::Global;
use std::fmt::Write;

fn show_names(
    out: &mut String,
    open: &str,
    names: &List<&str>,
    close: &str,
) -> Result<(), OutOfMemory> {
    out.push_str(open)?;
    for (i, name) in names.items().iter().enumerate() {
        if i > 0 {
            out.push_str(" ")?;
        }
        out.push_str(name)?;
    }
    out.push_str(close)?;
    Ok(())
}

#[cycle(shown)]
fn show_term(out: &mut String, term: &TermTree) -> Result<(), OutOfMemory> {
    out.push_str(term.name)?;
    for arg in term.args.iter() {
        out.push_str("(")?;
        show_sum(out, arg)?;
        out.push_str(")")?;
    }
    Ok(())
}

#[cycle(shown)]
fn show_piece(out: &mut String, piece: &Piece) -> Result<(), OutOfMemory> {
    match piece {
        Piece::Number(number) => {
            write!(out, "{number}")?;
            Ok(())
        }
        Piece::Name(term) => show_term(out, term),
    }
}

/// The signs of a sum, each before its group, the last one first.
fn show_signs(out: &mut String, addends: &[Addend]) -> Result<(), OutOfMemory> {
    for addend in addends.iter().rev() {
        out.push_str(if addend.minus { "(- " } else { "(+ " })?;
    }
    Ok(())
}

#[cycle(shown)]
fn show_sum(out: &mut String, sum: &SumTree) -> Result<(), OutOfMemory> {
    show_signs(out, &sum.rest)?;
    show_piece(out, &sum.first)?;
    for addend in sum.rest.iter() {
        out.push_str(" ")?;
        show_piece(out, &addend.piece)?;
        out.push_str(")")?;
    }
    Ok(())
}

fn show_sides(
    out: &mut String,
    sign: &str,
    left: &SumTree,
    right: &SumTree,
) -> Result<(), OutOfMemory> {
    out.push_str(sign)?;
    show_sum(out, left)?;
    out.push_str(" ")?;
    show_sum(out, right)?;
    out.push_str(")")?;
    Ok(())
}

/// What stands before the operands of a formula.
fn sign_of(tree: &Tree) -> &'static str {
    match tree {
        Tree::Paren(_) => "(paren ",
        Tree::Not(_) => "(- ",
        Tree::Both(..) => "(& ",
        Tree::Either(..) => "(++ ",
        Tree::Implies(..) => "(->> ",
        Tree::Same(..) => "(<-> ",
        Tree::ForAll(..) => "(all ",
        Tree::Exists(..) => "(some ",
        _ => "",
    }
}

fn show_tree(out: &mut String, tree: &Tree) -> Result<(), OutOfMemory> {
    match tree {
        Tree::Bare(term) => show_term(out, term)?,
        Tree::Equal(left, right) => show_sides(out, "(= ", left, right)?,
        Tree::Differ(left, right) => show_sides(out, "(\\= ", left, right)?,
        Tree::Less(left, right) => show_sides(out, "(< ", left, right)?,
        Tree::AtMost(left, right) => show_sides(out, "(=< ", left, right)?,
        Tree::More(left, right) => show_sides(out, "(> ", left, right)?,
        Tree::AtLeast(left, right) => show_sides(out, "(>= ", left, right)?,
        Tree::Paren(inner) | Tree::Not(inner) => {
            out.push_str(sign_of(tree))?;
            show_tree(out, inner)?;
            out.push_str(")")?;
        }
        Tree::Both(left, right)
        | Tree::Either(left, right)
        | Tree::Implies(left, right)
        | Tree::Same(left, right) => {
            out.push_str(sign_of(tree))?;
            show_tree(out, left)?;
            out.push_str(" ")?;
            show_tree(out, right)?;
            out.push_str(")")?;
        }
        Tree::ForAll(variable, inner) | Tree::Exists(variable, inner) => {
            out.push_str(sign_of(tree))?;
            out.push_str(variable)?;
            out.push_str(" ")?;
            show_tree(out, inner)?;
            out.push_str(")")?;
        }
    }
    Ok(())
}

fn show_part(out: &mut String, word: &str, part: &Option<Box<Tree>>) -> Result<(), OutOfMemory> {
    match part {
        None => Ok(()),
        Some(tree) => {
            out.push_str(word)?;
            show_tree(out, tree)
        }
    }
}

fn show_shape(out: &mut String, shape: &Shape) -> Result<(), OutOfMemory> {
    out.push_str(shape.name)?;
    show_names(out, "<", &shape.sorts, ">")
}

fn show_sort_item(out: &mut String, item: &SortItem) -> Result<(), OutOfMemory> {
    match item {
        SortItem::Names(names) => show_names(out, " [", names, "]"),
        SortItem::Chain(names) => show_names(out, " [>> ", names, "]"),
    }
}

fn show_member(out: &mut String, member: &Member) -> Result<(), OutOfMemory> {
    match member {
        Member::Name(name) => out.push_str(name)?,
        Member::Numbers(low, high) => write!(out, "{low}..{high}")?,
    }
    Ok(())
}

fn show_obj_item(out: &mut String, item: &ObjItem) -> Result<(), OutOfMemory> {
    out.push_str(" [")?;
    for (i, member) in item.members.items().iter().enumerate() {
        if i > 0 {
            out.push_str(" ")?;
        }
        show_member(out, member)?;
    }
    out.push_str(" :: ")?;
    out.push_str(item.sort)?;
    out.push_str("]")?;
    Ok(())
}

fn show_list_item(out: &mut String, item: &ListItem) -> Result<(), OutOfMemory> {
    show_names(out, " [", &item.names, " :: ")?;
    out.push_str(item.sort)?;
    out.push_str("]")?;
    Ok(())
}

fn kind_text(word: KindWord) -> &'static str {
    match word {
        KindWord::Simple => "simple",
        KindWord::Inertial => "inertial",
        KindWord::Determined => "determined",
        KindWord::Rigid => "rigid",
        KindWord::Action => "action",
        KindWord::ExogenousAction => "exogenous",
    }
}

fn show_kind(out: &mut String, kind: &KindTree) -> Result<(), OutOfMemory> {
    match kind {
        KindTree::Plain(word, sort) => {
            out.push_str(kind_text(*word))?;
            if let Some(sort) = sort {
                out.push_str(" ")?;
                out.push_str(sort)?;
            }
            Ok(())
        }
        KindTree::Attribute(sort, action) => {
            out.push_str("attribute ")?;
            out.push_str(sort)?;
            out.push_str(" of ")?;
            show_shape(out, action)
        }
    }
}

fn show_const_item(out: &mut String, item: &ConstItem) -> Result<(), OutOfMemory> {
    out.push_str(" [")?;
    for shape in item.shapes.items() {
        show_shape(out, shape)?;
        out.push_str(" ")?;
    }
    show_kind(out, &item.kind)?;
    out.push_str("]")?;
    Ok(())
}

fn show_query_item(alloc: Global, out: &mut String, item: &QueryItem) -> Result<(), OutOfMemory> {
    match item {
        QueryItem::Label(label) => {
            out.push_str(" label ")?;
            out.push_str(label)?;
            Ok(())
        }
        QueryItem::Range(lo, hi) => {
            out.push_str(&format!(in alloc; " range {lo} {hi}")?)?;
            Ok(())
        }
        QueryItem::Condition { claim, at, parts } => {
            out.push_str(if *claim { " claim" } else { " condition" })?;
            match at {
                At::Number(n) => out.push_str(&format!(in alloc; " {n}")?)?,
                At::Last => out.push_str(" last")?,
            }
            for tree in parts.items() {
                out.push_str(" ")?;
                show_tree(out, tree)?;
            }
            Ok(())
        }
    }
}

/// The word of a law.
fn word_of(law: &LawTree) -> &'static str {
    match law {
        LawTree::Caused(..) => "caused ",
        LawTree::Constraint(_) => "constraint ",
        LawTree::Always(_) => "always ",
        LawTree::Nonexecutable(..) => "nonexecutable ",
        LawTree::Default(..) => "default ",
        LawTree::Exogenous(_) => "exogenous ",
        LawTree::Inertial(_) => "inertial ",
        LawTree::Causes(..) => " causes ",
        LawTree::MayCause(..) => " may cause ",
        LawTree::NoConcurrency => "noconcurrency",
    }
}

fn show_law(out: &mut String, law: &LawTree) -> Result<(), OutOfMemory> {
    match law {
        LawTree::Caused(head, body, after) | LawTree::Default(head, body, after) => {
            out.push_str(word_of(law))?;
            show_tree(out, head)?;
            show_part(out, " if ", body)?;
            show_part(out, " after ", after)
        }
        LawTree::Constraint(formula) | LawTree::Always(formula) => {
            out.push_str(word_of(law))?;
            show_tree(out, formula)
        }
        LawTree::Nonexecutable(formula, body) => {
            out.push_str(word_of(law))?;
            show_tree(out, formula)?;
            show_part(out, " if ", body)
        }
        LawTree::Exogenous(term) | LawTree::Inertial(term) => {
            out.push_str(word_of(law))?;
            show_term(out, term)
        }
        LawTree::Causes(action, effect, body) | LawTree::MayCause(action, effect, body) => {
            show_tree(out, action)?;
            out.push_str(word_of(law))?;
            show_tree(out, effect)?;
            show_part(out, " if ", body)
        }
        LawTree::NoConcurrency => {
            out.push_str(word_of(law))?;
            Ok(())
        }
    }
}

fn show_sorts(out: &mut String, items: &[SortItem]) -> Result<(), OutOfMemory> {
    out.push_str("sorts")?;
    for item in items {
        show_sort_item(out, item)?;
    }
    Ok(())
}

fn show_objects(out: &mut String, items: &[ObjItem]) -> Result<(), OutOfMemory> {
    out.push_str("objects")?;
    for item in items {
        show_obj_item(out, item)?;
    }
    Ok(())
}

fn show_lists(out: &mut String, word: &str, items: &[ListItem]) -> Result<(), OutOfMemory> {
    out.push_str(word)?;
    for item in items {
        show_list_item(out, item)?;
    }
    Ok(())
}

fn show_constants(out: &mut String, items: &[ConstItem]) -> Result<(), OutOfMemory> {
    out.push_str("constants")?;
    for item in items {
        show_const_item(out, item)?;
    }
    Ok(())
}

fn show_query(alloc: Global, out: &mut String, items: &[QueryItem]) -> Result<(), OutOfMemory> {
    out.push_str("query")?;
    for item in items {
        show_query_item(alloc, out, item)?;
    }
    Ok(())
}

fn show_statement(
    alloc: Global,
    out: &mut String,
    statement: &Statement,
) -> Result<(), OutOfMemory> {
    match &*statement.part {
        Part::Sorts(items) => show_sorts(out, items.items()),
        Part::Objects(items) => show_objects(out, items.items()),
        Part::Variables(items) => show_lists(out, "variables", items.items()),
        Part::Constants(items) => show_constants(out, items.items()),
        Part::Query(items) => show_query(alloc, out, items.items()),
        Part::Include(file) => {
            out.push_str("include ")?;
            out.push_str(file)?;
            Ok(())
        }
        Part::Law(law, test) => {
            show_law(out, law)?;
            show_part(out, " where ", test)
        }
    }
}

/// The tree of a statement, with its line, in a line.
fn show_whole(alloc: Global, out: &mut String, statement: &Statement) -> Result<(), OutOfMemory> {
    out.push_str(&format!(in alloc; "tree {} ", statement.line)?)?;
    show_statement(alloc, out, statement)?;
    out.push_str("\n")?;
    Ok(())
}

/// The tree of the statement of a number. Whether there is one.
fn show_numbered(
    alloc: Global,
    out: &mut String,
    tokens: &Tokens,
    number: usize,
) -> Result<bool, OutOfMemory>
    requires { (text : Items ℕ) × HasRead text tokens.now }
{
    if number >= tokens.count() {
        return Ok(false);
    }
    match parse(alloc, 0, tokens.statement(number)) {
        Ok(statement) => {
            let shown = show_whole(alloc, out, &statement);
            discard(statement);
            shown.map(|()| true)
        }
        Err(Fault::Refused(_)) => Ok(false),
        Err(Fault::OutOfMemory) => Err(OutOfMemory),
    }
}

/// The trees of statements, up to the first that has none.
fn show_each(alloc: Global, out: &mut String, tokens: &Tokens) -> Result<(), OutOfMemory>
    requires { (text : Items ℕ) × HasRead text tokens.now }
{
    for number in 0..tokens.count() {
        if !show_numbered(alloc, out, tokens, number)? {
            return Ok(());
        }
    }
    Ok(())
}

/// The trees of a text's statements, up to the first that has none.
pub(crate) fn show_trees(alloc: Global, out: &mut String, text: &[u8]) -> Result<(), OutOfMemory> {
    if text.len() > 268_435_456 {
        return Ok(());
    }
    match Tokens::read(alloc, 0, text) {
        Ok(tokens) => {
            let shown = show_each(alloc, out, &tokens);
            drop(tokens);
            shown
        }
        Err(Fault::Refused(_)) => Ok(()),
        Err(Fault::OutOfMemory) => Err(OutOfMemory),
    }
}
