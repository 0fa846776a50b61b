//! Equations with sums, and comparisons: judged by their truth under each list of values of their constants.
ghost use Rattle.std.specs.Prelude.{◌≡◌, ◌+◌, ◌++◌, IfErr, IfOk, OnOk, Some, length, option_and_then, slice_get};
ghost use Rattle.cc_defs.specs.Judged.{chosen as chosen_in, constants_of, judged, size_of as size_in, truth_of};
ghost use Rattle.cc_defs.specs.Resolved.{Term as PlainTerm, plain_term};
ghost use Rattle.cc_defs.specs.Satisfaction.{Environment, Whole};
ghost use Rattle.cc_defs.specs.Signatures.{ground_constants, number_at};
ghost use Rattle.cc_defs.specs.Terms.{postfix};
ghost use Rattle.cc_ground.specs.Bindings.{environment_of};
ghost use Rattle.cc_ground.specs.Pieces.{IsJudged, IsOfPieces, atom_nodes, count_behind, formula_of, holds_at, joined, list_count, list_nodes, nodes_behind, nodes_over, number_in, stands, universe_at};
ghost use Rattle.cc_ground.specs.Views.{HasPut, LacksRoom, universe_in, universe_of};

use crate::maker::{Halt, Maker, narrow};
use crate::pieces::{Piece, Sign, Signed, add_both, gather_both};
use crate::sides::is_constant;
use crate::sums::sum_of;
use cc_defs::{Node, OutOfMemory, Sig, Term};
use cc_sorts::Table;
use std::alloc::Global;

/// An equation or comparison by the pieces of its sides, and its different constants in the order in which they stand.
#[derive(Clone, Copy)]
pub(crate) struct Equation<'e> {
    pub(crate) table: &'e Table,
    pub(crate) sig: &'e Sig,
    pub(crate) sign: Sign,
    pub(crate) pieces: &'e [Signed],
    pub(crate) constants: &'e [u32],
}

/// How many values a ground constant has.
pub(crate) fn size_of(table: &Table, sig: &Sig, constant: u32) -> Result<u32, OutOfMemory>
    ensures { IfOk result (λ size. size ≡ size_in (universe_of table.now sig.now) constant) }
{
    if !is_constant(sig, constant) {
        return Ok(0);
    }
    narrow(sig.constant(constant).domain.items().len())
}

/// The index of a constant's value among those that stand beside the constants.
fn chosen(constants: &[u32], indexes: &[u32], number: u32) -> u32
    ensures { result ≡ chosen_in constants.now indexes.now number }
{
    let Some((constant, others)) = constants.split_first() else {
        return 0;
    };
    let Some((index, more)) = indexes.split_first() else {
        return 0;
    };
    if number == *constant {
        return *index;
    }
    chosen(others, more, number)
}

/// The number that the value of this index of a constant is.
fn number_at_index(table: &Table, sig: &Sig, constant: u32, index: u32) -> Option<u32>
    ensures { result ≡ option_and_then (number_at table.now.numbers) (option_and_then (λ constant.
        slice_get constant.domain index) (slice_get (ground_constants sig.now) constant)) }
{
    if !is_constant(sig, constant) {
        return None;
    }
    match sig.constant(constant).domain.items().get(index as usize) {
        Some(value) => table.number_of(*value),
        None => None,
    }
}

/// The number that a piece is.
fn number_of(equation: &Equation<'_>, indexes: &[u32], piece: Piece) -> Option<u32>
    ensures { result ≡ number_in
        (universe_at equation.now) (chosen_in equation.now.constants.now indexes.now) piece }
{
    match piece {
        Piece::Nothing => None,
        Piece::Number(number) => Some(number),
        Piece::Constant(constant) => number_at_index(
            equation.table,
            equation.sig,
            constant,
            chosen(equation.constants, indexes, constant),
        ),
    }
}

/// What was added, and what was taken.
#[derive(Clone, Copy)]
struct Total {
    plus: u64,
    minus: u64,
}

/// A number more, which is added or taken.
fn counted(total: Total, minus: bool, number: u32) -> Result<Total, OutOfMemory>
    ensures { IfOk result (λ new. Some (Whole new.plus new.minus)
        ≡ joined minus (Some (Whole total.plus total.minus)) (Some (Whole number 0))) }
{
    let number = u64::from(number);
    if minus {
        Ok(Total {
            plus: total.plus,
            minus: sum_of(total.minus, number)?,
        })
    } else {
        Ok(Total {
            plus: sum_of(total.plus, number)?,
            minus: total.minus,
        })
    }
}

pub(crate) fn compares(sign: Sign, plus: u64, minus: u64) -> bool
    ensures { result ≡ stands sign plus minus }
{
    match sign {
        Sign::Equal => plus == minus,
        Sign::Less => plus < minus,
        Sign::AtMost => plus <= minus,
    }
}

/// Whether an equation is true where its constants have the values of these indexes.
fn holds(equation: &Equation<'_>, indexes: &[u32]) -> Result<bool, OutOfMemory>
    ensures { IfOk result (λ true_there. true_there ≡ holds_at equation.now indexes.now) }
{
    let mut total = Total { plus: 0, minus: 0 };
    for signed in equation.pieces {
        let Some(number) = number_of(equation, indexes, signed.piece) else {
            return Ok(false);
        };
        total = counted(total, signed.minus, number)?;
    }
    Ok(compares(equation.sign, total.plus, total.minus))
}

/// How many lists there are with more of them.
fn with_more(count: u32, more: u32) -> Result<u32, OutOfMemory>
    ensures { IfOk result (λ sum. sum ≡ count + more) }
{
    count.checked_add(more).ok_or(OutOfMemory)
}

impl<'t> Maker<'t> {
    /// That each constant has the value of the index beside it. Answers how many these are.
    fn put_atoms(&mut self, constants: &[u32], indexes: &[u32]) -> Result<u32, Halt>
        ensures put { OnOk result
            (HasPut (atom_nodes constants.now indexes.now) self.old self.new) }
        ensures count { IfOk result (λ count.
            count ≡ length (atom_nodes constants.now indexes.now)) }
        ensures full { IfErr result
            (LacksRoom (length (atom_nodes constants.now indexes.now)) self.old.room) }
    {
        let Some((constant, others)) = constants.split_first() else {
            return Ok(0);
        };
        let Some((index, more)) = indexes.split_first() else {
            return Ok(0);
        };
        self.push(Node::Atom {
            constant: *constant,
            value: *index,
        })?;
        let count = self.put_atoms(others, more)?;
        Ok(with_more(count, 1)?)
    }

    /// A list of value indexes, where it makes the equation true. Answers how many lists these are.
    fn put_list(&mut self, equation: &Equation<'_>, indexes: &[u32]) -> Result<u32, Halt>
        ensures put { OnOk result (HasPut (list_nodes equation.now indexes.now) self.old self.new) }
        ensures count { IfOk result (λ count. count ≡ list_count equation.now indexes.now) }
        ensures full { IfErr result
            (LacksRoom (length (list_nodes equation.now indexes.now)) self.old.room) }
    {
        if !holds(equation, indexes)? {
            return Ok(0);
        }
        let count = self.put_atoms(equation.constants, indexes)?;
        self.push(Node::All(count))?;
        Ok(1)
    }

    /// The lists that begin with these indexes, for all indexes of the constants that are left. Answers how many of them make
    /// the equation true.
    fn put_lists(
        &mut self,
        equation: &Equation<'_>,
        indexes: &mut Vec<u32>,
        left: &[u32],
    ) -> Result<u32, Halt>
        ensures put { OnOk result
            (HasPut (nodes_behind equation.now indexes.old.items left.now) self.old self.new) }
        ensures count { IfOk result (λ count.
            count ≡ count_behind equation.now indexes.old.items left.now) }
        ensures indexes { OnOk result (indexes.new.items ≡ indexes.old.items) }
        ensures full { IfErr result (LacksRoom
            (length (nodes_behind equation.now indexes.old.items left.now)) self.old.room) }
    {
        let Some((constant, others)) = left.split_first() else {
            return self.put_list(equation, indexes);
        };
        let size = size_of(equation.table, equation.sig, *constant)?;
        let mut count = 0;
        for index in 0..size {
            indexes.push(index)?;
            let more = self.put_lists(equation, indexes, others)?;
            indexes.pop();
            count = with_more(count, more)?;
        }
        Ok(count)
    }

    pub(crate) fn put_truth(&mut self, holds: bool) -> Result<(), Halt>
        ensures put { OnOk result (HasPut (postfix (truth_of holds)) self.old self.new) }
        ensures full { IfErr result (LacksRoom (length (postfix (truth_of holds))) self.old.room) }
    {
        self.push(if holds { Node::True } else { Node::False })
    }

    /// All lists of value indexes of an equation's constants that make it true; without a constant, whether it is true.
    fn put_all_lists(&mut self, alloc: Global, equation: &Equation<'_>) -> Result<(), Halt>
        ensures put { OnOk result
            (HasPut (nodes_over equation.now equation.now.constants.now) self.old self.new) }
        ensures full { IfErr result (LacksRoom
            (length (nodes_over equation.now equation.now.constants.now)) self.old.room) }
    {
        if equation.constants.is_empty() {
            return self.put_truth(holds(equation, &[])?);
        }
        let mut indexes = Vec::new(alloc);
        let count = self.put_lists(equation, &mut indexes, equation.constants)?;
        self.push(Node::Any(count))
    }

    /// An equation with a sum, or a comparison, of these pieces, and with these different constants, all of which are there.
    fn put_pieces(
        &mut self,
        alloc: Global,
        sign: Sign,
        pieces: &[Signed],
        constants: &[u32],
    ) -> Result<(), Halt>
        ensures put { (env : Environment) (s t : PlainTerm) →
            IsOfPieces (universe_in self.old) env sign s t pieces.now constants.now →
            OnOk result (HasPut (postfix (judged (universe_in self.old) env
            (formula_of sign s t) (constants_of s ++ constants_of t))) self.old self.new) }
        ensures full { (env : Environment) (s t : PlainTerm) →
            IsOfPieces (universe_in self.old) env sign s t pieces.now constants.now →
            IfErr result (LacksRoom (length (postfix (judged (universe_in self.old) env
            (formula_of sign s t) (constants_of s ++ constants_of t)))) self.old.room) }
    {
        let equation = Equation {
            table: self.table,
            sig: self.sig,
            sign,
            pieces,
            constants,
        };
        self.put_all_lists(alloc, &equation)
    }

    /// An equation with a sum, or a comparison. It is false where one of its constants is not there.
    pub(crate) fn put_judged(
        &mut self,
        alloc: Global,
        sign: Sign,
        left: &Term,
        right: &Term,
    ) -> Result<(), Halt>
        requires { IsJudged sign (plain_term left.now) (plain_term right.now) }
        ensures put { OnOk result
            (HasPut (postfix (judged (universe_in self.old) (environment_of self.old.env)
            (formula_of sign (plain_term left.now) (plain_term right.now)) (constants_of
            (plain_term left.now) ++ constants_of (plain_term right.now)))) self.old self.new) }
        ensures full { IfErr result
            (LacksRoom (length (postfix (judged (universe_in self.old) (environment_of self.old.env)
            (formula_of sign (plain_term left.now) (plain_term right.now)) (constants_of
            (plain_term left.now) ++ constants_of (plain_term right.now))))) self.old.room) }
    {
        let mut constants = Vec::new(alloc);
        let there = gather_both(
            alloc,
            self.table,
            self.sig,
            &self.env,
            left,
            right,
            &mut constants,
        )?;
        if !there {
            return self.push(Node::False);
        }
        let mut pieces = Vec::new(alloc);
        add_both(
            alloc,
            self.table,
            self.sig,
            &self.env,
            left,
            right,
            &mut pieces,
        )?;
        self.put_pieces(alloc, sign, &pieces, &constants)
    }
}
