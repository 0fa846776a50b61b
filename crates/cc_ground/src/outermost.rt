//! What formulas and terms are at their outermost, for walks that treat several forms alike.
ghost use Rattle.std.specs.Prelude.{◌≡◌};
ghost use Rattle.cc_defs.specs.Resolved.{plain_formula, plain_term};
ghost use Rattle.cc_ground.specs.Outermost.{is_for_all as is_over_all, is_minus as is_difference, joint_of, joining_node as node_over, sign_of};

use crate::pieces::Sign;
use cc_defs::{Formula, Node, Term};

/// How two parts are joined.
#[derive(Clone, Copy)]
pub(crate) enum Joint {
    Both,
    Either,
    Implies,
    Same,
}

/// What stands between the sides of an equation or comparison; of another formula nothing is said.
pub(crate) fn sign_in(formula: &Formula) -> Sign
    ensures { result ≡ sign_of (plain_formula formula.now) }
{
    match formula {
        Formula::Equal(..) => Sign::Equal,
        Formula::Less(..) => Sign::Less,
        _ => Sign::AtMost,
    }
}

/// How the parts of a formula are joined; of one that is not joined nothing is said.
pub(crate) fn joint_in(formula: &Formula) -> Joint
    ensures { result ≡ joint_of (plain_formula formula.now) }
{
    match formula {
        Formula::Both(..) => Joint::Both,
        Formula::Either(..) => Joint::Either,
        Formula::Implies(..) => Joint::Implies,
        _ => Joint::Same,
    }
}

/// Whether a bracket is over all objects; another one is over some.
pub(crate) fn is_for_all(formula: &Formula) -> bool
    ensures { result ≡ is_over_all (plain_formula formula.now) }
{
    matches!(formula, Formula::ForAll(..))
}

/// Whether a sum is a difference.
pub(crate) fn is_minus(term: &Term) -> bool
    ensures { result ≡ is_difference (plain_term term.now) }
{
    matches!(term, Term::Minus(..))
}

/// The node of a formula that joins so many operands, none of which is denied.
pub(crate) fn joining_node(formula: &Formula, count: u32) -> Node
    ensures { result ≡ node_over (plain_formula formula.now) count }
{
    match formula {
        Formula::Both(..) | Formula::ForAll(..) => Node::All(count),
        Formula::Either(..) | Formula::Exists(..) => Node::Any(count),
        _ => Node::Same,
    }
}
