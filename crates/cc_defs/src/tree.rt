//! The tree of a statement, as the grammar has it. Names are slices of the source.
use crate::{At, List};

/// A constant, an object or a variable, with arguments or without; also `true`, `false` and `none`.
#[cycle(terms)]
#[derive(Drop)]
pub struct TermTree<'s> {
    pub name: &'s str,
    pub args: Vec<SumTree<'s>>,
}

/// A piece alone, or a sum or difference of pieces, grouped to the left.
#[cycle(terms)]
#[derive(Drop)]
pub struct SumTree<'s> {
    pub first: Piece<'s>,
    pub rest: Vec<Addend<'s>>,
}

/// A piece that is added, or taken away.
#[cycle(terms)]
#[derive(Drop)]
pub struct Addend<'s> {
    pub minus: bool,
    pub piece: Piece<'s>,
}

/// A number, or a term.
#[cycle(terms)]
#[derive(Drop)]
pub enum Piece<'s> {
    Number(u32),
    Name(TermTree<'s>),
}

/// A formula.
pub enum Tree<'s> {
    /// A term alone.
    Bare(TermTree<'s>),
    /// `s=t`
    Equal(Box<SumTree<'s>>, Box<SumTree<'s>>),
    /// `s\=t`
    Differ(Box<SumTree<'s>>, Box<SumTree<'s>>),
    /// `s<t`
    Less(Box<SumTree<'s>>, Box<SumTree<'s>>),
    /// `s=<t`
    AtMost(Box<SumTree<'s>>, Box<SumTree<'s>>),
    /// `s>t`
    More(Box<SumTree<'s>>, Box<SumTree<'s>>),
    /// `s>=t`
    AtLeast(Box<SumTree<'s>>, Box<SumTree<'s>>),
    /// `(F)`
    Paren(Box<Tree<'s>>),
    /// `-F`
    Not(Box<Tree<'s>>),
    /// `F & G`
    Both(Box<Tree<'s>>, Box<Tree<'s>>),
    /// `F ++ G`
    Either(Box<Tree<'s>>, Box<Tree<'s>>),
    /// `F ->> G`
    Implies(Box<Tree<'s>>, Box<Tree<'s>>),
    /// `F <-> G`
    Same(Box<Tree<'s>>, Box<Tree<'s>>),
    /// `[/\X | F]`
    ForAll(&'s str, Box<Tree<'s>>),
    /// `[\/X | F]`
    Exists(&'s str, Box<Tree<'s>>),
}

// By hand, so that whoever lets a formula go has one call there, and not a drop for each variant.
impl<'s> Drop for Tree<'s> {
    fn drop(self) {
        match self {
            Tree::Bare(_) => {}
            Tree::Equal(_, _) | Tree::Differ(_, _) => {}
            Tree::Less(_, _) | Tree::AtMost(_, _) => {}
            Tree::More(_, _) | Tree::AtLeast(_, _) => {}
            Tree::Paren(_) | Tree::Not(_) => {}
            Tree::Both(_, _) | Tree::Either(_, _) => {}
            Tree::Implies(_, _) | Tree::Same(_, _) => {}
            Tree::ForAll(_, _) | Tree::Exists(_, _) => {}
        }
    }
}

/// A declared constant and the sorts of its arguments.
#[derive(Drop)]
pub struct Shape<'s> {
    pub name: &'s str,
    pub sorts: List<&'s str>,
}

/// Sorts beside each other, or each a subsort of the one before it.
#[derive(Drop)]
pub enum SortItem<'s> {
    Names(List<&'s str>),
    Chain(List<&'s str>),
}

/// An object by its name; or the numbers from one to another, which may be the same.
#[derive(Drop)]
pub enum Member<'s> {
    Name(&'s str),
    Numbers(u32, u32),
}

/// Objects of a sort.
#[derive(Drop)]
pub struct ObjItem<'s> {
    pub members: List<Member<'s>>,
    pub sort: &'s str,
}

/// Variables of a sort.
#[derive(Drop)]
pub struct ListItem<'s> {
    pub names: List<&'s str>,
    pub sort: &'s str,
}

/// The kind of a constant, with the sort of its values where one is written; or an attribute of an action, with the
/// sort of its values and the action's shape.
#[derive(Drop)]
pub enum KindTree<'s> {
    Plain(KindWord, Option<&'s str>),
    Attribute(&'s str, Shape<'s>),
}

/// The words for kinds.
#[derive(Clone, Copy)]
pub enum KindWord {
    /// `simpleFluent`
    Simple,
    /// `inertialFluent`
    Inertial,
    /// `sdFluent`
    Determined,
    /// `rigid`
    Rigid,
    /// `action`
    Action,
    /// `exogenousAction`
    ExogenousAction,
}

/// Constants of one kind.
#[derive(Drop)]
pub struct ConstItem<'s> {
    pub shapes: List<Shape<'s>>,
    pub kind: KindTree<'s>,
}

/// A part of a query.
#[derive(Drop)]
pub enum QueryItem<'s> {
    /// `label :: NAME`, a word or a number
    Label(&'s str),
    /// `maxstep :: lo..hi`
    Range(u32, u32),
    /// `at: F, G, ..`, behind `claim ::` or not
    Condition {
        claim: bool,
        at: At,
        parts: List<Tree<'s>>,
    },
}

/// A law without its `where` test. The optional parts are those behind `if` and `after`, in this order.
pub enum LawTree<'s> {
    /// `caused F if G after H`
    Caused(Box<Tree<'s>>, Option<Box<Tree<'s>>>, Option<Box<Tree<'s>>>),
    /// `constraint F`
    Constraint(Box<Tree<'s>>),
    /// `always F`
    Always(Box<Tree<'s>>),
    /// `nonexecutable F if G`
    Nonexecutable(Box<Tree<'s>>, Option<Box<Tree<'s>>>),
    /// `default F if G after H`
    Default(Box<Tree<'s>>, Option<Box<Tree<'s>>>, Option<Box<Tree<'s>>>),
    /// `exogenous c`
    Exogenous(TermTree<'s>),
    /// `inertial c`
    Inertial(TermTree<'s>),
    /// `A causes F if G`
    Causes(Box<Tree<'s>>, Box<Tree<'s>>, Option<Box<Tree<'s>>>),
    /// `A may cause F if G`
    MayCause(Box<Tree<'s>>, Box<Tree<'s>>, Option<Box<Tree<'s>>>),
    /// `noconcurrency`
    NoConcurrency,
}

// By hand, as for a formula.
impl<'s> Drop for LawTree<'s> {
    fn drop(self) {
        match self {
            LawTree::Caused(_, _, _) | LawTree::Default(_, _, _) => {}
            LawTree::Constraint(_) | LawTree::Always(_) => {}
            LawTree::Nonexecutable(_, _) => {}
            LawTree::Exogenous(_) | LawTree::Inertial(_) => {}
            LawTree::Causes(_, _, _) | LawTree::MayCause(_, _, _) => {}
            LawTree::NoConcurrency => {}
        }
    }
}

/// What a statement says.
pub enum Part<'s> {
    /// `:- sorts ..`
    Sorts(List<SortItem<'s>>),
    /// `:- objects ..`
    Objects(List<ObjItem<'s>>),
    /// `:- variables ..`
    Variables(List<ListItem<'s>>),
    /// `:- constants ..`
    Constants(List<ConstItem<'s>>),
    /// `:- query ..`
    Query(List<QueryItem<'s>>),
    /// `:- include '..'`, the file's name without its quotes
    Include(&'s str),
    /// A law, with its `where` test.
    Law(Box<LawTree<'s>>, Option<Box<Tree<'s>>>),
}

// By hand, as for a formula.
impl<'s> Drop for Part<'s> {
    fn drop(self) {
        match self {
            Part::Sorts(_) => {}
            Part::Objects(_) => {}
            Part::Variables(_) => {}
            Part::Constants(_) => {}
            Part::Query(_) => {}
            Part::Include(_) => {}
            Part::Law(_, _) => {}
        }
    }
}

/// A statement, and the line of its first token, from 1.
pub struct Statement<'s> {
    pub part: Box<Part<'s>>,
    pub line: u32,
}

// By hand, as for a formula.
impl<'s> Drop for Statement<'s> {
    fn drop(self) {
        let Statement { part: _, line: _ } = self;
    }
}
