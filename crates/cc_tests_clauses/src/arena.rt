//! What no clause says: that the truth of each kind of node is the one that is meant, and that long and deep terms run.
ghost use Rattle.std.specs.Prelude.{IfOk};
ghost use Rattle.cc_defs.specs.Terms.{IsTerm};

use bumpalo::Bump;
use cc_arena::{GroundCondition, GroundLaw, GroundQuery, Laws, Terms, value};
use cc_defs::{At, GroundHead, LawKind, List, Node};
use std::alloc::{AllocError, Global};
use std::test::Fail;

#[test]
fn nodes_without_operands_are_evaluated(rt: HostRuntime) {
    let truth = value(&[Node::True], &[]);
    assert!(rt; truth);
    let falsehood = value(&[Node::False], &[]);
    assert!(rt; !falsehood);
    let other = Node::Atom {
        constant: 1,
        value: 0,
    };
    let has = value(&[other], &[1, 0]);
    assert!(rt; has);
    let has_not = value(&[other], &[0, 1]);
    assert!(rt; !has_not);
}

#[test]
fn nodes_with_operands_are_evaluated(rt: HostRuntime) {
    let negation = value(&[Node::True, Node::Not], &[]);
    assert!(rt; !negation);
    let all_of_none = value(&[Node::All(0)], &[]);
    assert!(rt; all_of_none);
    let any_of_none = value(&[Node::Any(0)], &[]);
    assert!(rt; !any_of_none);
    let all_but_one = value(&[Node::True, Node::False, Node::All(2)], &[]);
    assert!(rt; !all_but_one);
    let all_of_two = value(&[Node::True, Node::True, Node::All(2)], &[]);
    assert!(rt; all_of_two);
    let one_of_two = value(&[Node::False, Node::True, Node::Any(2)], &[]);
    assert!(rt; one_of_two);
    let none_of_two = value(&[Node::False, Node::False, Node::Any(2)], &[]);
    assert!(rt; !none_of_two);
}

#[test]
fn same_is_evaluated_in_its_four_cases(rt: HostRuntime) {
    let both = value(&[Node::True, Node::True, Node::Same], &[]);
    assert!(rt; both);
    let first = value(&[Node::True, Node::False, Node::Same], &[]);
    assert!(rt; !first);
    let second = value(&[Node::False, Node::True, Node::Same], &[]);
    assert!(rt; !second);
    let neither = value(&[Node::False, Node::False, Node::Same], &[]);
    assert!(rt; neither);
}

// All of so many atoms, each of which says that the one constant has the value 1, but for the one at `odd`, which says 2.
fn flat(alloc: Global, count: u32, odd: u32) -> Result<Vec<Node>, AllocError>
    ensures { IfOk result (λ nodes. IsTerm 1 nodes.items) }
{
    let mut nodes = Vec::new(alloc);
    for place in 0..count {
        let value = if place == odd { 2 } else { 1 };
        nodes.push(Node::Atom { constant: 0, value })?;
    }
    nodes.push(Node::All(count))?;
    Ok(nodes)
}

#[test]
fn flat_terms_are_evaluated(rt: HostRuntime) -> Result<(), Fail> {
    for (odd, want) in [(16_000, true), (8_000, false), (0, false), (15_998, false)] {
        let term = flat(rt.alloc(), 15_999, odd)?;
        assert!(rt; value(&term, &[1]) == want, "odd at {odd}");
    }
    Ok(())
}

// So many nodes of one operand round the truth.
fn nested(alloc: Global, depth: u32, negated: bool) -> Result<Vec<Node>, AllocError>
    ensures { IfOk result (λ nodes. IsTerm 0 nodes.items) }
{
    let mut nodes = vec![in alloc; Node::True]?;
    for _level in 0..depth {
        if negated {
            nodes.push(Node::Not)?;
        } else {
            nodes.push(Node::All(1))?;
        }
    }
    Ok(nodes)
}

#[test]
fn nested_terms_are_evaluated(rt: HostRuntime) -> Result<(), Fail> {
    for (depth, negated, want) in [
        (2_000, true, true),
        (2_001, true, false),
        (2_000, false, true),
    ] {
        let term = nested(rt.alloc(), depth, negated)?;
        assert!(rt;
            value(&term, &[]) == want,
            "{depth} deep, negated: {negated}"
        );
    }
    Ok(())
}

#[test]
fn placed_terms_outlive_their_source(rt: HostRuntime) -> Result<(), Fail> {
    let arena = Bump::new(rt.alloc());
    let terms = Terms::new(&arena);
    let body = {
        let source = vec![in rt.alloc(); Node::True, Node::Not]?;
        terms.place(&source)?
    };
    let after = terms.place(&[])?;
    assert!(rt; body == [Node::True, Node::Not].as_slice());
    let law = GroundLaw {
        head: GroundHead::Falsity,
        body,
        after: Some(after),
        kind: LawKind::FluentDynamic,
        base: 3,
    };
    let laws = Laws::of(vec![in rt.alloc(); law]?);
    assert!(rt; laws.laws().len() == 1);
    let condition = GroundCondition {
        at: At::Number(2),
        nodes: body,
    };
    let query = GroundQuery {
        lo: 0,
        hi: 2,
        conditions: List::of(vec![in rt.alloc(); condition]?),
        claim: None,
    };
    assert!(rt; query.conditions.items().len() == 1);
    Ok(())
}
