//! Readers of declarations.
ghost use Rattle.std.specs.Prelude.{◌≡◌, ℕ, ⊤, List as Items, ◌∷◌, Err, IfOk, drop, map};
ghost use Rattle.std.specs.Result.{MatchResult};
ghost use Rattle.cc_syntax.specs.declared.stop.Stop.TheVariants as stops;
ghost use Rattle.std.specs.Option.{option_map};
ghost use Rattle.cc_defs.specs.declared.token.Mark.TheVariants as marks;
ghost use Rattle.cc_defs.specs.Trees.{PlainShape, PlainSortItem, PlainMember, PlainObjItem, PlainListItem, PlainConstItem, plain_shape, plain_sort_item, plain_member, plain_obj_item, plain_list_item, plain_kind, plain_const_item};
ghost use Rattle.cc_syntax.specs.Declarations.{names_at, sort_item_at, numbers_at, member_at, obj_item_at, list_item_at, sorts_at, shape_at, kind_word_at, sort_at, attribute_at, kind_at, const_item_at};
ghost use Rattle.cc_syntax.specs.Readers.{name_at, sign_at, listed_at, parenthesized_at, ◌▷◌};
ghost use Rattle.cc_syntax.specs.Views.{AreReadable, seen, Reads};
ghost use Rattle.cc_text.specs.Views.{token_views};

use crate::items::{Item, listed};
use crate::reading::beside;
use crate::stop::Stop;
use crate::tokens::{name, numeral, sign, sign_after, word};
use cc_defs::{
    ConstItem, KindTree, KindWord, List, ListItem, Mark, Member, ObjItem, Shape, SortItem, Token,
};
use std::alloc::Global;

/// A name.
impl<'s> Item<'s> for &'s str {
    ghost Plain = { Items ℕ };

    ghost plain = { λ text. text.now };

    ghost item_at = { name_at };

    ghost IsReadOf = { λ tokens. ⊤ };

    fn read(_: Global, tokens: &[Token<'s>], at: usize) -> Result<(Self, usize), Stop> {
        name(tokens, at)
    }
}

/// Names with the mark between them.
pub(crate) fn names<'s>(
    alloc: Global,
    tokens: &[Token<'s>],
    at: usize,
    mark: Mark,
) -> Result<(Vec<&'s str>, usize), Stop>
    ensures { Reads (λ names. map (λ text. text.now) names.items) tokens.now result
        (listed_at name_at mark (drop at (seen tokens.now))) }
{
    listed(alloc, tokens, at, mark)
}

/// Items that were read, behind their first. They are of any type, so that the drop of the list is one call.
fn with_first<X: Drop>(
    first: X,
    read: Result<(Vec<X>, usize), Stop>,
) -> Result<(Vec<X>, usize), Stop>
    ensures { MatchResult read (λ r. MatchResult result
        (λ w. (w.0.items ≡ first ∷ r.0.items) × (w.1 ≡ r.1)) (λ stop. stop ≡ stops.OutOfMemory))
        (λ stop. result ≡ Err stop) }
{
    let (mut items, next) = read?;
    items.insert(0, first)?;
    Ok((items, next))
}

/// Sorts beside each other, or each above the next.
impl<'s> Item<'s> for SortItem<'s> {
    ghost Plain = { PlainSortItem };

    ghost plain = { plain_sort_item };

    ghost item_at = { sort_item_at };

    ghost IsReadOf = { λ tokens. ⊤ };

    #[tactic(auto, unfolding(crate::specs::Declarations::sort_item_at))]
    fn read(alloc: Global, tokens: &[Token<'s>], at: usize) -> Result<(Self, usize), Stop> {
        let (first, next) = name(tokens, at)?;
        if let Ok(behind) = sign(tokens, next, Mark::Above) {
            let lower = names(alloc, tokens, behind, Mark::Above);
            let (chain, next) = with_first(first, lower)?;
            return Ok((SortItem::Chain(List::of(chain)), next));
        }
        let (names, next) = names(alloc, tokens, at, Mark::Comma)?;
        Ok((SortItem::Names(List::of(names)), next))
    }
}

/// The numbers from one that was read to another, or that one alone.
fn numbers<'s>(tokens: &[Token<'s>], at: usize, low: u32) -> Result<(Member<'s>, usize), Stop>
    requires { AreReadable (token_views tokens.now) }
    ensures { Reads plain_member tokens.now result (numbers_at low (drop at (seen tokens.now))) }
{
    let Ok(next) = sign(tokens, at, Mark::DotDot) else {
        return Ok((Member::Numbers(low, low), at));
    };
    let (high, next) = numeral(tokens, next)?;
    Ok((Member::Numbers(low, high), next))
}

/// An object by its name, or numbers.
impl<'s> Item<'s> for Member<'s> {
    ghost Plain = { PlainMember };

    ghost plain = { plain_member };

    ghost item_at = { member_at };

    ghost IsReadOf = { λ tokens. AreReadable (token_views tokens) };

    #[tactic(auto, unfolding(crate::specs::Declarations::member_at))]
    fn read(_: Global, tokens: &[Token<'s>], at: usize) -> Result<(Self, usize), Stop> {
        match numeral(tokens, at) {
            Ok((low, next)) => numbers(tokens, next, low),
            Err(Stop::NoTree) => {
                let (text, next) = name(tokens, at)?;
                Ok((Member::Name(text), next))
            }
            Err(Stop::OutOfMemory) => Err(Stop::OutOfMemory),
        }
    }
}

/// Members with commas between them.
fn members<'s>(
    alloc: Global,
    tokens: &[Token<'s>],
    at: usize,
) -> Result<(Vec<Member<'s>>, usize), Stop>
    requires { AreReadable (token_views tokens.now) }
    ensures { Reads (λ members. map plain_member members.items) tokens.now result
        (listed_at member_at marks.Comma (drop at (seen tokens.now))) }
{
    listed(alloc, tokens, at, Mark::Comma)
}

/// What was read, and the sort that stands behind it and two colons.
fn of_sort<'s, K: Drop>(
    tokens: &[Token<'s>],
    read: Result<(K, usize), Stop>,
) -> Result<((K, &'s str), usize), Stop>
    ensures { MatchResult read (λ r. IfOk result (λ both. both.0.0 ≡ r.0)
        × Reads (λ both. both.1.now) tokens.now result
        ((sign_at marks.DoubleColon ▷ name_at) (drop r.1 (seen tokens.now)))) (λ stop. result ≡ Err stop) }
{
    let (kept, next) = sign_after(tokens, read, Mark::DoubleColon)?;
    beside(kept, name(tokens, next))
}

/// Objects of a sort.
impl<'s> Item<'s> for ObjItem<'s> {
    ghost Plain = { PlainObjItem };

    ghost plain = { plain_obj_item };

    ghost item_at = { obj_item_at };

    ghost IsReadOf = { λ tokens. AreReadable (token_views tokens) };

    #[tactic(auto, unfolding(crate::specs::Declarations::obj_item_at))]
    fn read(alloc: Global, tokens: &[Token<'s>], at: usize) -> Result<(Self, usize), Stop> {
        let ((members, sort), next) = of_sort(tokens, members(alloc, tokens, at))?;
        let members = List::of(members);
        Ok((ObjItem { members, sort }, next))
    }
}

/// Variables of a sort.
impl<'s> Item<'s> for ListItem<'s> {
    ghost Plain = { PlainListItem };

    ghost plain = { plain_list_item };

    ghost item_at = { list_item_at };

    ghost IsReadOf = { λ tokens. ⊤ };

    #[tactic(auto, unfolding(crate::specs::Declarations::list_item_at))]
    fn read(alloc: Global, tokens: &[Token<'s>], at: usize) -> Result<(Self, usize), Stop> {
        let ((names, sort), next) = of_sort(tokens, names(alloc, tokens, at, Mark::Comma))?;
        let names = List::of(names);
        Ok((ListItem { names, sort }, next))
    }
}

/// The sorts of a shape's arguments, none without a bracket.
fn sorts<'s>(alloc: Global, tokens: &[Token<'s>], at: usize) -> Result<(Vec<&'s str>, usize), Stop>
    ensures { Reads (λ sorts. map (λ sort. sort.now) sorts.items) tokens.now result
        (sorts_at (drop at (seen tokens.now))) }
{
    let Ok(next) = sign(tokens, at, Mark::LeftParen) else {
        return Ok((Vec::new(alloc), at));
    };
    let sorts = names(alloc, tokens, next, Mark::Comma);
    sign_after(tokens, sorts, Mark::RightParen)
}

/// A constant's name and the sorts of its arguments.
impl<'s> Item<'s> for Shape<'s> {
    ghost Plain = { PlainShape };

    ghost plain = { plain_shape };

    ghost item_at = { shape_at };

    ghost IsReadOf = { λ tokens. ⊤ };

    #[tactic(auto, unfolding(crate::specs::Declarations::shape_at))]
    fn read(alloc: Global, tokens: &[Token<'s>], at: usize) -> Result<(Self, usize), Stop> {
        let (name, next) = name(tokens, at)?;
        let (sorts, next) = sorts(alloc, tokens, next)?;
        let sorts = List::of(sorts);
        Ok((Shape { name, sorts }, next))
    }
}

/// Shapes with commas between them.
fn shapes<'s>(
    alloc: Global,
    tokens: &[Token<'s>],
    at: usize,
) -> Result<(Vec<Shape<'s>>, usize), Stop>
    ensures { Reads (λ shapes. map plain_shape shapes.items) tokens.now result
        (listed_at shape_at marks.Comma (drop at (seen tokens.now))) }
{
    listed(alloc, tokens, at, Mark::Comma)
}

/// A word for a kind.
fn kind_word(tokens: &[Token], at: usize) -> Result<(KindWord, usize), Stop>
    ensures { Reads (λ word. word) tokens.now result (kind_word_at (drop at (seen tokens.now))) }
{
    if let Ok(next) = word(tokens, at, "simpleFluent") {
        return Ok((KindWord::Simple, next));
    }
    if let Ok(next) = word(tokens, at, "inertialFluent") {
        return Ok((KindWord::Inertial, next));
    }
    if let Ok(next) = word(tokens, at, "sdFluent") {
        return Ok((KindWord::Determined, next));
    }
    if let Ok(next) = word(tokens, at, "rigid") {
        return Ok((KindWord::Rigid, next));
    }
    if let Ok(next) = word(tokens, at, "action") {
        return Ok((KindWord::Action, next));
    }
    if let Ok(next) = word(tokens, at, "exogenousAction") {
        return Ok((KindWord::ExogenousAction, next));
    }
    Err(Stop::NoTree)
}

/// The sort of a constant's values, none without a bracket.
fn value_sort<'s>(tokens: &[Token<'s>], at: usize) -> Result<(Option<&'s str>, usize), Stop>
    ensures { Reads (λ sort. option_map (λ name. name.now) sort) tokens.now result
        (sort_at (drop at (seen tokens.now))) }
{
    let Ok(next) = sign(tokens, at, Mark::LeftParen) else {
        return Ok((None, at));
    };
    let (sort, next) = sign_after(tokens, name(tokens, next), Mark::RightParen)?;
    Ok((Some(sort), next))
}

/// A name in parentheses.
fn parenthesized<'s>(tokens: &[Token<'s>], at: usize) -> Result<(&'s str, usize), Stop>
    ensures { Reads (λ text. text.now) tokens.now result
        (parenthesized_at name_at (drop at (seen tokens.now))) }
{
    let next = sign(tokens, at, Mark::LeftParen)?;
    sign_after(tokens, name(tokens, next), Mark::RightParen)
}

/// The sort of an attribute's values, and the shape of its action.
#[tactic(auto, unfolding(crate::specs::Declarations::attribute_at))]
fn attribute<'s>(
    alloc: Global,
    tokens: &[Token<'s>],
    at: usize,
) -> Result<(KindTree<'s>, usize), Stop>
    ensures { Reads plain_kind tokens.now result (attribute_at (drop at (seen tokens.now))) }
{
    let (sort, next) = parenthesized(tokens, at)?;
    let next = word(tokens, next, "of")?;
    let (action, next) = Shape::read(alloc, tokens, next)?;
    Ok((KindTree::Attribute(sort, action), next))
}

/// The kind of constants.
#[tactic(auto, unfolding(crate::specs::Declarations::kind_at))]
fn kind<'s>(alloc: Global, tokens: &[Token<'s>], at: usize) -> Result<(KindTree<'s>, usize), Stop>
    ensures { Reads plain_kind tokens.now result (kind_at (drop at (seen tokens.now))) }
{
    if let Ok(next) = word(tokens, at, "attribute") {
        return attribute(alloc, tokens, next);
    }
    let (kind, next) = kind_word(tokens, at)?;
    let (sort, next) = value_sort(tokens, next)?;
    Ok((KindTree::Plain(kind, sort), next))
}

/// Constants of a kind.
impl<'s> Item<'s> for ConstItem<'s> {
    ghost Plain = { PlainConstItem };

    ghost plain = { plain_const_item };

    ghost item_at = { const_item_at };

    ghost IsReadOf = { λ tokens. ⊤ };

    #[tactic(auto, unfolding(crate::specs::Declarations::const_item_at))]
    fn read(alloc: Global, tokens: &[Token<'s>], at: usize) -> Result<(Self, usize), Stop> {
        let (shapes, next) = sign_after(tokens, shapes(alloc, tokens, at), Mark::DoubleColon)?;
        let (kind, next) = kind(alloc, tokens, next)?;
        let shapes = List::of(shapes);
        Ok((ConstItem { shapes, kind }, next))
    }
}

/// Sorts with semicolons between the items.
pub(crate) fn sort_items<'s>(
    alloc: Global,
    tokens: &[Token<'s>],
    at: usize,
) -> Result<(Vec<SortItem<'s>>, usize), Stop>
    ensures { Reads (λ items. map plain_sort_item items.items) tokens.now result
        (listed_at sort_item_at marks.Semicolon (drop at (seen tokens.now))) }
{
    listed(alloc, tokens, at, Mark::Semicolon)
}

/// Objects with semicolons between the items.
pub(crate) fn obj_items<'s>(
    alloc: Global,
    tokens: &[Token<'s>],
    at: usize,
) -> Result<(Vec<ObjItem<'s>>, usize), Stop>
    requires { AreReadable (token_views tokens.now) }
    ensures { Reads (λ items. map plain_obj_item items.items) tokens.now result
        (listed_at obj_item_at marks.Semicolon (drop at (seen tokens.now))) }
{
    listed(alloc, tokens, at, Mark::Semicolon)
}

/// Variables with semicolons between the items.
pub(crate) fn list_items<'s>(
    alloc: Global,
    tokens: &[Token<'s>],
    at: usize,
) -> Result<(Vec<ListItem<'s>>, usize), Stop>
    ensures { Reads (λ items. map plain_list_item items.items) tokens.now result
        (listed_at list_item_at marks.Semicolon (drop at (seen tokens.now))) }
{
    listed(alloc, tokens, at, Mark::Semicolon)
}

/// Constants with semicolons between the items.
pub(crate) fn const_items<'s>(
    alloc: Global,
    tokens: &[Token<'s>],
    at: usize,
) -> Result<(Vec<ConstItem<'s>>, usize), Stop>
    ensures { Reads (λ items. map plain_const_item items.items) tokens.now result
        (listed_at const_item_at marks.Semicolon (drop at (seen tokens.now))) }
{
    listed(alloc, tokens, at, Mark::Semicolon)
}
