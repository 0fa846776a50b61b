//! What no clause says: that calls succeed while there is memory, and that names and numbers are those that were meant.
ghost use Rattle.std.specs.Prelude.{◌<◌, ◌^◌, length, IfOk};
ghost use Rattle.cc_defs.specs.Signatures.{ground_constants};

use cc_defs::{
    Bytes, Const, Key, Kind, LimitAt, List, Lit, Lits, Mark, Name, Nums, OutOfMemory, Row, Sig,
    Text, Token, TokenKind, compare_rows,
};
use std::alloc::Global;
use std::cmp::Ordering;
use std::test::Fail;

fn keeps_numbers(alloc: Global) -> Result<bool, OutOfMemory> {
    let nums = Nums::of(vec![in alloc; 3, 1]?);
    Ok(nums.items() == [3, 1].as_slice())
}

fn keeps_bytes(alloc: Global) -> Result<bool, OutOfMemory> {
    let bytes = Bytes::of(vec![in alloc; 104, 105]?);
    Ok(bytes.items() == [104, 105].as_slice())
}

fn keeps_names(alloc: Global) -> Result<bool, OutOfMemory> {
    let name = Name::of(String::from_str(alloc, "on")?);
    Ok(name.text() == "on")
}

fn keeps_texts(alloc: Global) -> Result<bool, OutOfMemory> {
    let text = Text::of(String::from_str(alloc, "key 0:\n")?);
    Ok(text.text() == "key 0:\n")
}

fn keeps_items(alloc: Global) -> Result<bool, OutOfMemory> {
    let names = List::of(vec![in alloc; "on", "flip"]?);
    Ok(names.items() == ["on", "flip"].as_slice())
}

fn keeps_literals(alloc: Global) -> Result<bool, OutOfMemory> {
    let literals = Lits::of([Lit::positive(7)].to_vec(alloc)?);
    Ok(literals.items() == [Lit::positive(7)].as_slice())
}

#[test]
fn lists_and_texts_are_kept(rt: HostRuntime) -> Result<(), Fail> {
    assert!(rt; keeps_numbers(rt.alloc())?);
    assert!(rt; keeps_bytes(rt.alloc())?);
    assert!(rt; keeps_names(rt.alloc())?);
    assert!(rt; keeps_texts(rt.alloc())?);
    assert!(rt; keeps_items(rt.alloc())?);
    assert!(rt; keeps_literals(rt.alloc())?);
    Ok(())
}

fn copies_rows(alloc: Global) -> Result<bool, OutOfMemory> {
    let row = Row::of(vec![in alloc; 0, 1, 1]?);
    let copy = row.copy(alloc)?;
    Ok(copy.items() == row.items())
}

fn copies_keys(alloc: Global) -> Result<bool, OutOfMemory> {
    let key = Key {
        horizon: 1,
        row: Row::of(vec![in alloc; 0, 1, 1]?),
    };
    let copy = key.copy(alloc)?;
    Ok(copy.horizon == 1 && copy.row.items() == [0, 1, 1].as_slice())
}

#[test]
fn rows_and_keys_are_copied(rt: HostRuntime) -> Result<(), Fail> {
    assert!(rt; copies_rows(rt.alloc())?);
    assert!(rt; copies_keys(rt.alloc())?);
    Ok(())
}

#[test]
fn the_first_difference_decides(rt: HostRuntime) {
    for (a, b, order) in [
        ([0, 0, 0], [0, 0, 0], Ordering::Equal),
        ([0, 0, 1], [0, 1, 0], Ordering::Less),
        ([1, 0, 0], [0, 9, 9], Ordering::Greater),
        ([2, 0, 0], [10, 0, 0], Ordering::Less),
    ] {
        assert!(rt; compare_rows(&a, &b) == order, "{a:?} and {b:?}");
    }
    assert!(rt; compare_rows(&[], &[]) == Ordering::Equal);
}

fn is_limit(limit: LimitAt, name: &str, number: u32) -> bool {
    limit.name() == name && limit.number() == number
}

#[test]
fn limits_are_those_of_the_table(rt: HostRuntime) {
    for (limit, name, number) in [
        (LimitAt::FileBytes, "file bytes", 1_048_576),
        (LimitAt::TotalBytes, "total bytes", 4_194_304),
        (LimitAt::IncludeDepth, "include depth", 8),
        (LimitAt::TokenBytes, "token bytes", 255),
        (LimitAt::NumberDigits, "number digits", 9),
        (LimitAt::DeclarationTokens, "declaration tokens", 20_000),
        (LimitAt::StatementTokens, "statement tokens", 2_000),
        (LimitAt::Objects, "objects", 4_096),
        (LimitAt::DomainValues, "domain values", 1_000),
        (LimitAt::GroundConstants, "ground constants", 20_000),
        (LimitAt::LawInstances, "law instances", 1_000_000),
        (LimitAt::GroundNodes, "ground nodes", 16_000_000),
        (LimitAt::Horizon, "horizon", 1_000),
        (LimitAt::Rules, "rules", 8_000_000),
        (LimitAt::Variables, "variables", 4_000_000),
        (LimitAt::AxiomClauses, "axiom clauses", 8_000_000),
        (LimitAt::AxiomLiterals, "axiom literals", 40_000_000),
        (LimitAt::Histories, "histories", 100_000_000),
        (LimitAt::LogBytes, "log bytes", 268_435_456),
    ] {
        assert!(rt; is_limit(limit, name, number), "{name}");
    }
}

#[test]
fn literals_and_tokens(rt: HostRuntime) {
    let literal = Lit::positive(7);
    assert!(rt; literal.variable() == 7);
    assert!(rt; literal.is_positive());
    assert!(rt; literal.opposite() == Lit::negative(7));
    assert!(rt; Lit::negative(7) < literal && literal < Lit::negative(8));
    let token = Token {
        kind: TokenKind::Mark(Mark::Arrow),
        text: "->>",
        line: 3,
    };
    assert!(rt; token.text() == "->>");
    assert!(rt; token.kind() == TokenKind::Mark(Mark::Arrow));
}

fn constant(alloc: Global, symbol: u32, kind: Kind, domain: &[u32]) -> Result<Const, OutOfMemory>
    requires { length domain.now < 2 ^ 32 }
    ensures { IfOk result (λ made. length made.domain < 2 ^ 32) }
{
    Ok(Const {
        symbol,
        args: Nums::of(Vec::new(alloc)),
        kind,
        domain: Nums::of(Vec::from_slice(alloc, domain)?),
    })
}

/// One fluent of three values and one action of two.
fn place_and_go(alloc: Global) -> Result<Sig, OutOfMemory>
    ensures { IfOk result (λ sig. 0 < length (ground_constants sig)) }
{
    let place = constant(alloc, 0, Kind::Simple, [5, 6, 7].as_slice())?;
    let go = constant(alloc, 1, Kind::Action, [0, 1].as_slice())?;
    let sig = Sig::of(
        alloc,
        vec![in alloc; place]?,
        vec![in alloc; go]?,
        vec![in alloc; None, Some(7)]?,
    )?;
    Ok(sig)
}

/// How many fluents and actions there are, and positions at horizons 0 and 2.
fn counts_of(sig: &Sig) -> (u32, u32, u64, u64) {
    (
        sig.fluents(),
        sig.actions(),
        sig.positions(0),
        sig.positions(2),
    )
}

/// How many values the positions 4 and 3 have.
fn sizes_of(sig: &Sig) -> (u32, u32)
    requires { 0 < length (ground_constants sig.now) }
{
    (sig.domain_size(4), sig.domain_size(3))
}

/// The numbers of both symbols, and of one with an argument that it has not.
fn numbers_of(sig: &Sig) -> (Option<u32>, Option<u32>, Option<u32>) {
    (
        sig.ground_number(0, [].as_slice()),
        sig.ground_number(1, [].as_slice()),
        sig.ground_number(1, [6].as_slice()),
    )
}

#[test]
fn constants_have_numbers_and_positions(rt: HostRuntime) -> Result<(), Fail> {
    let sig = place_and_go(rt.alloc())?;
    assert!(rt; counts_of(&sig) == (1, 1, 1, 5));
    assert!(rt; sizes_of(&sig) == (3, 2));
    assert!(rt; numbers_of(&sig) == (Some(0), Some(1), None));
    Ok(())
}
