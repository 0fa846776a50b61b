//! The single declarations of a statement.
ghost use Rattle.std.specs.Prelude.{◌≡◌, ℕ, OnOk, map, flat_map, ◌++◌, ◌∷◌, []};
ghost use Rattle.cc_defs.specs.Declarations.{declarations_of, chain_behind, sort_declarations, member_declarations, object_declarations, variable_declarations, constant_declarations, Sort, Link, Subsort, Object, Variable, Constant};
ghost use Rattle.cc_defs.specs.Trees.{plain_statement, plain_sort_item, plain_member, plain_obj_item, plain_list_item, plain_const_item, plain_shape, plain_kind, Chain};
ghost use Rattle.cc_sorts.specs.Declaring.{plain_declarations};

use cc_defs::{
    ConstItem, KindTree, List, ListItem, Member, ObjItem, OutOfMemory, Part, Shape, SortItem,
    Statement,
};

/// One declaration, in the order of the text. The kind of constants stands behind their shapes.
#[derive(Clone, Copy)]
pub(crate) enum Declaration<'t, 's> {
    /// A sort of a list.
    Sort(&'s str),
    /// A sort of a chain, which may be there already.
    Link(&'s str),
    /// An upper and a lower sort.
    Subsort(&'s str, &'s str),
    /// An object and its sort.
    Object(&'s str, &'s str),
    /// The numbers from one to another, and their sort: one entry, however many they are.
    Numbers(u32, u32, &'s str),
    /// A variable and its sort.
    Variable(&'s str, &'s str),
    Constant(&'t Shape<'s>, &'t KindTree<'s>),
    Kinds(&'t List<Shape<'s>>, &'t KindTree<'s>),
}

/// Adds the declarations of a statement, in the order of its text; none of a query, an include or a law.
pub(crate) fn add_declarations<'t, 's>(
    statement: &'t Statement<'s>,
    found: &mut Vec<Declaration<'t, 's>>,
) -> Result<(), OutOfMemory>
    ensures { (file : ℕ) → OnOk result (plain_declarations file statement.now.line found.new.items
        ≡ plain_declarations file statement.now.line found.old.items
        ++ declarations_of file (plain_statement statement.now)) }
{
    match &*statement.part {
        Part::Sorts(items) => add_sort_items(items, found),
        Part::Objects(items) => add_object_items(items, found),
        Part::Variables(items) => add_variable_items(items, found),
        Part::Constants(items) => add_const_items(items, found),
        _ => Ok(()),
    }
}

fn add_sort_items<'t, 's>(
    list: &'t List<SortItem<'s>>,
    found: &mut Vec<Declaration<'t, 's>>,
) -> Result<(), OutOfMemory>
    ensures { (file line : ℕ) →
        OnOk result (plain_declarations file line found.new.items ≡ plain_declarations
        file line found.old.items ++ flat_map sort_declarations (map plain_sort_item list.now)) }
{
    let items = list.items();
    for item in items {
        add_sort_item(item, found)?;
    }
    Ok(())
}

fn add_object_items<'t, 's>(
    list: &'t List<ObjItem<'s>>,
    found: &mut Vec<Declaration<'t, 's>>,
) -> Result<(), OutOfMemory>
    ensures { (file line : ℕ) →
        OnOk result (plain_declarations file line found.new.items ≡ plain_declarations
        file line found.old.items ++ flat_map object_declarations (map plain_obj_item list.now)) }
{
    let items = list.items();
    for item in items {
        add_members(item.members.items(), item.sort, found)?;
    }
    Ok(())
}

fn add_variable_items<'t, 's>(
    list: &'t List<ListItem<'s>>,
    found: &mut Vec<Declaration<'t, 's>>,
) -> Result<(), OutOfMemory>
    ensures { (file line : ℕ) →
        OnOk result (plain_declarations file line found.new.items ≡ plain_declarations file
        line found.old.items ++ flat_map variable_declarations (map plain_list_item list.now)) }
{
    let items = list.items();
    for item in items {
        add_variables(item.names.items(), item.sort, found)?;
    }
    Ok(())
}

fn add_const_items<'t, 's>(
    list: &'t List<ConstItem<'s>>,
    found: &mut Vec<Declaration<'t, 's>>,
) -> Result<(), OutOfMemory>
    ensures { (file line : ℕ) → OnOk result
        (plain_declarations file line found.new.items ≡ plain_declarations file line found.old.items
        ++ flat_map (constant_declarations file line) (map plain_const_item list.now)) }
{
    let items = list.items();
    for item in items {
        add_const_item(item, found)?;
    }
    Ok(())
}

fn add_const_item<'t, 's>(
    item: &'t ConstItem<'s>,
    found: &mut Vec<Declaration<'t, 's>>,
) -> Result<(), OutOfMemory>
    ensures { (file line : ℕ) →
        OnOk result (plain_declarations file line found.new.items ≡ plain_declarations
        file line found.old.items ++ constant_declarations file line (plain_const_item item.now)) }
{
    add_constants(item.shapes.items(), &item.kind, found)?;
    found.push(Declaration::Kinds(&item.shapes, &item.kind))?;
    Ok(())
}

fn add_sort_item<'t, 's>(
    item: &SortItem<'s>,
    found: &mut Vec<Declaration<'t, 's>>,
) -> Result<(), OutOfMemory>
    ensures { (file line : ℕ) →
        OnOk result (plain_declarations file line found.new.items ≡ plain_declarations
        file line found.old.items ++ sort_declarations (plain_sort_item item.now)) }
{
    match item {
        SortItem::Names(names) => add_sorts(names.items(), found),
        SortItem::Chain(names) => add_chain(names.items(), found),
    }
}

fn add_sorts<'t, 's>(
    names: &[&'s str],
    found: &mut Vec<Declaration<'t, 's>>,
) -> Result<(), OutOfMemory>
    ensures { (file line : ℕ) →
        OnOk result (plain_declarations file line found.new.items ≡ plain_declarations
        file line found.old.items ++ map Sort (map (λ name. name.now) names.now)) }
{
    for name in names {
        found.push(Declaration::Sort(name))?;
    }
    Ok(())
}

/// Each link of a chain is below the one before it.
fn add_chain<'t, 's>(
    names: &[&'s str],
    found: &mut Vec<Declaration<'t, 's>>,
) -> Result<(), OutOfMemory>
    ensures { (file line : ℕ) →
        OnOk result (plain_declarations file line found.new.items ≡ plain_declarations
        file line found.old.items ++ sort_declarations (Chain (map (λ name. name.now) names.now))) }
{
    let Some((first, lower)) = names.split_first() else {
        return Ok(());
    };
    found.push(Declaration::Link(first))?;
    let mut upper: &'s str = first;
    for name in lower {
        add_link(upper, name, found)?;
        upper = name;
    }
    Ok(())
}

fn add_link<'t, 's>(
    upper: &'s str,
    name: &'s str,
    found: &mut Vec<Declaration<'t, 's>>,
) -> Result<(), OutOfMemory>
    ensures { (file line : ℕ) →
        OnOk result (plain_declarations file line found.new.items ≡ plain_declarations
        file line found.old.items ++ Link name.now ∷ Subsort upper.now name.now ∷ []) }
{
    found.push(Declaration::Link(name))?;
    found.push(Declaration::Subsort(upper, name))?;
    Ok(())
}

fn add_members<'t, 's>(
    members: &[Member<'s>],
    sort: &'s str,
    found: &mut Vec<Declaration<'t, 's>>,
) -> Result<(), OutOfMemory>
    ensures { (file line : ℕ) →
        OnOk result (plain_declarations file line found.new.items ≡ plain_declarations file line
        found.old.items ++ flat_map (member_declarations sort.now) (map plain_member members.now)) }
{
    for member in members {
        add_member(member, sort, found)?;
    }
    Ok(())
}

fn add_member<'t, 's>(
    member: &Member<'s>,
    sort: &'s str,
    found: &mut Vec<Declaration<'t, 's>>,
) -> Result<(), OutOfMemory>
    ensures { (file line : ℕ) →
        OnOk result (plain_declarations file line found.new.items ≡ plain_declarations
        file line found.old.items ++ member_declarations sort.now (plain_member member.now)) }
{
    match member {
        Member::Name(name) => found.push(Declaration::Object(name, sort))?,
        Member::Numbers(low, high) => found.push(Declaration::Numbers(*low, *high, sort))?,
    }
    Ok(())
}

fn add_variables<'t, 's>(
    names: &[&'s str],
    sort: &'s str,
    found: &mut Vec<Declaration<'t, 's>>,
) -> Result<(), OutOfMemory>
    ensures { (file line : ℕ) → OnOk result
        (plain_declarations file line found.new.items ≡ plain_declarations file line found.old.items
        ++ map (λ name. Variable name sort.now) (map (λ name. name.now) names.now)) }
{
    for name in names {
        found.push(Declaration::Variable(name, sort))?;
    }
    Ok(())
}

fn add_constants<'t, 's>(
    shapes: &'t [Shape<'s>],
    kind: &'t KindTree<'s>,
    found: &mut Vec<Declaration<'t, 's>>,
) -> Result<(), OutOfMemory>
    ensures { (file line : ℕ) → OnOk result (plain_declarations file line found.new.items
        ≡ plain_declarations file line found.old.items ++ map (λ shape.
        Constant shape (plain_kind kind.now) file line) (map plain_shape shapes.now)) }
{
    for shape in shapes {
        found.push(Declaration::Constant(shape, kind))?;
    }
    Ok(())
}
