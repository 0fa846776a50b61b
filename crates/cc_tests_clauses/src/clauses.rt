//! What no clause says: that calls succeed while there is memory.
use cc_clauses::{ClauseArena, clash_on, resolve_into};
use cc_defs::Lit;
use std::test::Fail;

#[test]
fn clauses_are_kept_in_order(rt: HostRuntime) -> Result<(), Fail> {
    let mut arena = ClauseArena::new(rt.alloc());
    arena.reserve(3, 3)?;
    arena.push(&[Lit::positive(1), Lit::negative(2)])?;
    arena.push(&[])?;
    arena.push(&[Lit::positive(3)])?;
    assert!(rt; arena.count() == 3);
    assert!(rt; arena.literals() == 3);
    assert!(rt; arena.clause(0) == [Lit::positive(1), Lit::negative(2)].as_slice());
    assert!(rt; arena.clause(1).is_empty());
    assert!(rt; arena.clause(2) == [Lit::positive(3)].as_slice());
    Ok(())
}

#[test]
fn resolvents_have_the_literals_of_both(rt: HostRuntime) -> Result<(), Fail> {
    let long = [
        Lit::positive(1),
        Lit::negative(2),
        Lit::positive(4),
        Lit::positive(6),
        Lit::negative(7),
    ];
    let short = [Lit::negative(3), Lit::negative(4), Lit::positive(6)];
    assert!(rt; clash_on(&long, &short, 4));
    assert!(rt; !clash_on(&long, &short, 6), "6 stands in one sign");
    let mut out = Vec::new(rt.alloc());
    out.push(Lit::positive(5))?;
    resolve_into(&long, &short, 4, &mut out)?;
    let want = [
        Lit::positive(1),
        Lit::negative(2),
        Lit::negative(3),
        Lit::positive(6),
        Lit::negative(7),
    ];
    assert!(rt; out.as_slice() == want.as_slice());
    Ok(())
}
