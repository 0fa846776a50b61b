//! Formulas whose names are resolved: numbers of symbols, objects, variables and sorts in place of names.

/// A constant, an object, a variable, `none`, a number, or a sum or difference. An argument of a constant has no constant.
#[derive(Drop)]
pub enum Term {
    /// A constant's symbol and its arguments.
    Constant { symbol: u32, args: Vec<Term> },
    /// The number of an object.
    Object(u32),
    /// A variable: the law's own come first, in their order, and a bracket's stands behind those around it.
    Variable(u32),
    /// `none`, the value of an attribute whose action is not done.
    Nothing,
    /// A number of the text, which need not be an object.
    Number(u32),
    /// `s+t`
    Plus(Box<Term>, Box<Term>),
    /// `s-t`
    Minus(Box<Term>, Box<Term>),
}

/// A formula. A bracket has the number of its variable and the sort that it goes over.
pub enum Formula {
    True,
    False,
    /// Both terms have the same value.
    Equal(Term, Term),
    /// Both terms are numbers, and the first is less.
    Less(Term, Term),
    /// Both terms are numbers, and the first is not greater.
    AtMost(Term, Term),
    Not(Box<Formula>),
    Both(Box<Formula>, Box<Formula>),
    Either(Box<Formula>, Box<Formula>),
    /// The first implies the second.
    Implies(Box<Formula>, Box<Formula>),
    /// Both are true or both are false.
    Same(Box<Formula>, Box<Formula>),
    ForAll(u32, u32, Box<Formula>),
    Exists(u32, u32, Box<Formula>),
}

// By hand, so that whoever lets a formula go has one call there, and not a drop for each variant.
impl Drop for Formula {
    fn drop(self) {
        match self {
            Formula::True | Formula::False => {}
            Formula::Equal(_, _) | Formula::Less(_, _) | Formula::AtMost(_, _) => {}
            Formula::Not(_) => {}
            Formula::Both(_, _) | Formula::Either(_, _) => {}
            Formula::Implies(_, _) | Formula::Same(_, _) => {}
            Formula::ForAll(_, _, _) | Formula::Exists(_, _, _) => {}
        }
    }
}
