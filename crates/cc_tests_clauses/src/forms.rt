//! What no clause says of clause lists that are made clause by clause, and of those of CNF texts: that they are given while there is
//! memory, and what they look like.
ghost use Rattle.std.specs.Prelude.{◌≡◌, ◌≤◌, ◌∷◌, [], length};
ghost use Rattle.cc_defs.specs.declared.node.Node.TheVariants as nodes;

use crate::template::is_same;
use cc_defs::{Fault, Lit, Node, Refusal};
use cc_dimacs::{cnf_form, export_text, read_cnf};
use cc_form::{Builder, Draft, Form};
use std::alloc::Global;
use std::test::Fail;

// That one of two positions has the value 1.
fn either() -> [Node; 3]
    ensures { result ≡ nodes.Atom 0 1 ∷ nodes.Atom 1 1 ∷ nodes.Any 2 ∷ [] }
{
    let first = Node::Atom {
        constant: 0,
        value: 1,
    };
    let second = Node::Atom {
        constant: 1,
        value: 1,
    };
    [first, second, Node::Any(2)]
}

// Two positions of two values, of which one has the value 1.
fn built(alloc: Global) -> Result<Form, Fault> {
    let mut builder = Builder::new(alloc, &[2, 2])?;
    let literal = builder.literal(&either(), 0)?;
    builder.clause(&[literal])?;
    Ok(builder.close())
}

// The same, by a draft.
fn drafted(alloc: Global) -> Result<Form, Fault> {
    let sizes = Vec::from_slice(alloc, &[2, 2])?;
    let mut draft = Draft::new(alloc, sizes)?;
    let literal = draft.literal(&either(), 0)?;
    draft.clause(&[literal])?;
    draft.close()
}

const BUILT: &str =
    "c ccalc horizon 0\np cnf 6 9\n5 0\n1 2 0\n-1 -2 0\n3 4 0\n-3 -4 0\n2 4 -6 0\n-2 6 0\n-4 6 0\n6 0\n";

#[test]
fn builders_and_drafts_make_one_list(rt: HostRuntime) -> Result<(), Fail> {
    let alloc = rt.alloc();
    match (built(alloc), drafted(alloc)) {
        (Ok(form), Ok(other)) => {
            assert!(rt; is_same(&form, &other));
            assert!(rt; export_text(alloc, &form, 0)?.text() == BUILT);
        }
        _ => assert!(rt; false),
    }
    Ok(())
}

#[test]
fn rows_have_an_index_for_each_position(rt: HostRuntime) {
    match built(rt.alloc()) {
        Ok(form) => {
            assert!(rt; form.is_row(&[0, 0]));
            assert!(rt; form.is_row(&[1, 1]));
            assert!(rt; !form.is_row(&[0, 2]));
            assert!(rt; !form.is_row(&[0]));
            assert!(rt; !form.is_row(&[0, 1, 0]));
        }
        Err(_) => assert!(rt; false),
    }
}

const CNF: &[u8] = b"c two variables\np cnf 2 2\n1 2 0 -2\n1 -1 0\n";

// Each variable is that of value 1 of its position, and a clause with a variable in both signs is left out.
const EXPORTED: &str = "c ccalc horizon 7\np cnf 5 6\n5 0\n1 2 0\n-1 -2 0\n3 4 0\n-3 -4 0\n2 4 0\n";

fn exported(alloc: Global, bytes: &[u8]) -> Result<Form, Fault>
    requires { length bytes.now ≤ 1000 }
{
    let cnf = read_cnf(alloc, bytes)?;
    cnf_form(alloc, &cnf)
}

#[test]
fn clauses_are_exported(rt: HostRuntime) -> Result<(), Fail> {
    if CNF.len() <= 1000 {
        match exported(rt.alloc(), CNF) {
            Ok(form) => assert!(rt; export_text(rt.alloc(), &form, 7)?.text() == EXPORTED),
            Err(_) => assert!(rt; false),
        }
    }
    Ok(())
}

// The third line has a literal past the last variable.
const WRONG: &[u8] = b"c two variables\np cnf 2 2\n1 3 0\n";

// The refusal of a text; none where it has no such fault.
fn refused(alloc: Global, bytes: &[u8]) -> Option<Refusal>
    requires { length bytes.now ≤ 1000 }
{
    match read_cnf(alloc, bytes) {
        Err(Fault::Refused(refusal)) => Some(refusal),
        Err(Fault::OutOfMemory) | Ok(_) => None,
    }
}

// Whether a text of two variables has these two clauses.
fn reads(alloc: Global, bytes: &[u8]) -> Result<bool, Fault>
    requires { length bytes.now ≤ 1000 }
{
    let cnf = read_cnf(alloc, bytes)?;
    if cnf.clauses.count() != 2 {
        return Ok(false);
    }
    let first = [Lit::positive(1), Lit::positive(2)];
    let second = [Lit::negative(2), Lit::positive(1), Lit::negative(1)];
    Ok(
        cnf.variables == 2
            && cnf.clauses.clause(0) == first.as_slice()
            && cnf.clauses.clause(1) == second.as_slice(),
    )
}

#[test]
fn cnf_texts_are_read(rt: HostRuntime) -> Result<(), Fail> {
    if CNF.len() <= 1000 && WRONG.len() <= 1000 {
        assert!(rt; reads(rt.alloc(), CNF)?);
        assert!(rt; refused(rt.alloc(), WRONG) == Some(Refusal::at(19, 0, 3)));
    }
    Ok(())
}
