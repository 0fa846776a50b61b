//! The ground query of the step of an induction.
ghost use Rattle.std.specs.Prelude.{◌≡◌, ◌++◌, None, map, IfOk, OnOk};
ghost use Rattle.std.specs.Option.{option_map};
ghost use Rattle.cc_arena.specs.GroundViews.{plain_ground_condition, plain_ground_query};
ghost use Rattle.cc_defs.specs.Description.{Description};
ghost use Rattle.cc_defs.specs.GroundLaws.{StandsForQuery};
ghost use Rattle.cc_defs.specs.Resolved.{Query};
ghost use Rattle.cc_defs.specs.Signatures.{Signature};
ghost use Rattle.cc_form.specs.Queries.{IsQueryAt};
ghost use Rattle.cc_induction.specs.Induction.{is_at_last, step_query};
ghost use Rattle.cc_induction.specs.Steps.{earlier_conditions, ground_at_last, ground_step, joined_nodes, joined_with, later_conditions, nodes_at_last, none_sought_in, none_sought_nodes};

use cc_arena::{GroundCondition, GroundQuery, Terms};
use cc_defs::{At, List, Node, OutOfMemory};
use std::alloc::Global;
use std::marker::Model;

fn stands_last(at: At) -> bool
    ensures { result ≡ is_at_last at }
{
    match at {
        At::Last => true,
        At::Number(_) => false,
    }
}

// The nodes of formulas that are joined, and of one more.
fn join(alloc: Global, before: Option<Vec<Node>>, nodes: &[Node]) -> Result<Vec<Node>, OutOfMemory>
    ensures { IfOk result (λ joined. joined.items
        ≡ joined_with (option_map (λ before. before.items) before) nodes.now) }
{
    match before {
        Some(mut joined) => {
            joined.extend_from_slice(nodes)?;
            joined.push(Node::All(2))?;
            Ok(joined)
        }
        None => Ok(Vec::from_slice(alloc, nodes)?),
    }
}

// The nodes of the conditions at the last step, joined; none where there is no such condition.
fn join_last<'a>(
    alloc: Global,
    conditions: &[GroundCondition<'a>],
) -> Result<Option<Vec<Node>>, OutOfMemory>
    ensures { IfOk result (λ joined. option_map (λ joined. joined.items) joined
        ≡ joined_nodes None (map plain_ground_condition conditions.now)) }
{
    let mut joined = None;
    for condition in conditions {
        if stands_last(condition.at) {
            joined = Some(join(alloc, joined, condition.nodes)?);
        }
    }
    Ok(joined)
}

// The claim, where it stands at the last step.
fn claim_at_last<'a>(claim: Option<GroundCondition<'a>>) -> Option<GroundCondition<'a>>
    ensures { option_map plain_ground_condition result
        ≡ ground_at_last (option_map plain_ground_condition claim.entry) }
{
    match claim {
        Some(claim) => {
            if stands_last(claim.at) {
                Some(claim)
            } else {
                None
            }
        }
        None => None,
    }
}

fn claim_nodes<'a>(claim: Option<GroundCondition<'a>>) -> Option<&'a [Node]>
    ensures { option_map (λ nodes. nodes.now) result
        ≡ nodes_at_last (option_map plain_ground_condition claim.entry) }
{
    match claim {
        Some(claim) => {
            if stands_last(claim.at) {
                Some(claim.nodes)
            } else {
                None
            }
        }
        None => None,
    }
}

// The nodes of the formula that a state is none that is looked for.
fn none_sought(
    alloc: Global,
    conditions: Option<Vec<Node>>,
    claim: Option<&[Node]>,
) -> Result<Vec<Node>, OutOfMemory>
    ensures { IfOk result (λ made. made.items
        ≡ none_sought_nodes (option_map (λ conditions. conditions.items) conditions)
        (option_map (λ claim. claim.now) claim.entry)) }
{
    match conditions {
        Some(mut nodes) => {
            nodes.push(Node::Not)?;
            match claim {
                Some(claim) => {
                    nodes.extend_from_slice(claim)?;
                    nodes.push(Node::Any(2))?;
                    Ok(nodes)
                }
                None => Ok(nodes),
            }
        }
        None => match claim {
            Some(claim) => Ok(Vec::from_slice(alloc, claim)?),
            None => {
                let mut nodes = Vec::new(alloc);
                nodes.push(Node::False)?;
                Ok(nodes)
            }
        },
    }
}

// These nodes at each of so many steps, as conditions.
fn add_earlier<'a>(
    made: &mut Vec<GroundCondition<'a>>,
    nodes: &'a [Node],
    count: u32,
) -> Result<(), OutOfMemory>
    ensures { OnOk result (map plain_ground_condition made.new.items
        ≡ map plain_ground_condition made.old.items ++ earlier_conditions nodes.now count) }
{
    for step in 0..count {
        made.push(GroundCondition {
            at: At::Number(step),
            nodes,
        })?;
    }
    Ok(())
}

// The conditions at the last step.
fn add_later<'a>(
    made: &mut Vec<GroundCondition<'a>>,
    conditions: &[GroundCondition<'a>],
) -> Result<(), OutOfMemory>
    ensures { OnOk result (map plain_ground_condition made.new.items
        ≡ map plain_ground_condition made.old.items ++ later_conditions (map plain_ground_condition conditions.now)) }
{
    for condition in conditions {
        if stands_last(condition.at) {
            made.push(*condition)?;
        }
    }
    Ok(())
}

/// Makes the queries whose histories refute an induction: over so many steps, each state but the last is none that a query looks for,
/// and the last one is. It is seen as the query that it was made of.
#[derive(Drop)]
pub struct Induction<'a> {
    query: GroundQuery<'a>,
    none_sought: &'a [Node],
}

impl<'a> Model for Induction<'a> {
    ghost use Rattle.std.specs.Prelude.{◌≡◌};
    ghost use Rattle.cc_arena.specs.GroundViews.{plain_ground_query};
    ghost use Rattle.cc_defs.specs.GroundLaws.{PlainGroundQuery};
    ghost use Rattle.cc_induction.specs.Steps.{none_sought_in};

    ghost Value = { PlainGroundQuery };

    ghost view = { λ value. plain_ground_query value.query };

    ghost invariant = { λ value. value.none_sought.now
        ≡ none_sought_in (plain_ground_query value.query) };
}

impl<'a> Induction<'a> {
    /// Of a query. The nodes that all its steps share are placed once.
    pub fn of(
        alloc: Global,
        query: &GroundQuery<'a>,
        terms: &Terms<'a>,
    ) -> Result<Induction<'a>, OutOfMemory>
        ensures { IfOk result (λ induction. induction ≡ plain_ground_query query.now) }
    {
        let joined = join_last(alloc, query.conditions.items())?;
        let nodes = none_sought(alloc, joined, claim_nodes(query.claim))?;
        Ok(Induction {
            query: query.copy(alloc)?,
            none_sought: terms.place(&nodes)?,
        })
    }

    // The query over so many steps, as it is made of the ground query.
    fn made(&self, alloc: Global, count: u32) -> Result<GroundQuery<'a>, OutOfMemory>
        ensures { IfOk result (λ made. plain_ground_query made ≡ ground_step self.now count) }
    {
        let mut conditions = Vec::new(alloc);
        add_earlier(&mut conditions, self.none_sought, count)?;
        add_later(&mut conditions, self.query.conditions.items())?;
        Ok(GroundQuery {
            lo: count,
            hi: count,
            conditions: List::of(conditions),
            claim: claim_at_last(self.query.claim),
        })
    }

    /// The query over so many steps.
    pub fn step(&self, alloc: Global, count: u32) -> Result<GroundQuery<'a>, OutOfMemory>
        ensures stands { (d : Description) (q : Query) → StandsForQuery self.now d q →
            IfOk result (λ made. StandsForQuery (plain_ground_query made) d (step_query q count)) }
        ensures asked { (signature : Signature) → IsQueryAt signature self.now.lo self.now →
            IfOk result (λ made. IsQueryAt signature count (plain_ground_query made)) }
    {
        self.made(alloc, count)
    }
}
