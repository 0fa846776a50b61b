//! The texts of small descriptions, and a desk that is read to its end.
use cc_make::{TextDesk, make_text};
use cc_ports::{Desk, Failed, To, read_all};
use std::test::Fail;

const ONE: &str = ":- sorts lock.
:- objects k1 :: lock.
:- variables L :: lock.
:- constants unlocked(lock) :: inertialFluent; turn(lock) :: exogenousAction.
turn(L) causes unlocked(L).
nonexecutable turn(L) if unlocked(L).
:- query maxstep :: 0..1; 0: [/\\L | -unlocked(L)]; maxstep: unlocked(k1).
";

const THREE: &str = ":- sorts lock.
:- objects k1, k2, k3 :: lock.
:- variables L :: lock.
:- constants unlocked(lock) :: inertialFluent; turn(lock) :: exogenousAction.
turn(L) causes unlocked(L).
nonexecutable turn(L) if unlocked(L).
nonexecutable turn(k2) if -unlocked(k1).
nonexecutable turn(k3) if -unlocked(k2).
:- query maxstep :: 0..3; 0: [/\\L | -unlocked(L)]; maxstep: unlocked(k3).
";

#[test]
fn texts_are_made(rt: HostRuntime) -> Result<(), Fail> {
    let alloc = rt.alloc();
    let one = make_text(alloc, 1)?;
    assert!(rt; one.text() == ONE);
    let three = make_text(alloc, 3)?;
    assert!(rt; three.text() == THREE);
    Ok(())
}

#[test]
fn desks_are_read(rt: HostRuntime) -> Result<(), Fail> {
    let alloc = rt.alloc();
    let text = make_text(alloc, 100)?;
    let length = text.text().len();
    assert!(rt; length > 4096);
    let mut desk = TextDesk::of(text.text().as_bytes());
    let bytes = read_all(alloc, &mut desk, "locks", length);
    assert!(rt; bytes.is_ok_and(|bytes| bytes.items() == text.text().as_bytes()));
    let again = read_all(alloc, &mut desk, "another name", length);
    assert!(rt; again.is_ok_and(|bytes| bytes.items() == text.text().as_bytes()));
    Ok(())
}

#[test]
fn desks_take_nothing(rt: HostRuntime) {
    let mut desk = TextDesk::of(ONE.as_bytes());
    assert!(rt; desk.give(To::Out, b"out") == Err(Failed));
    assert!(rt; desk.create_file("log") == Err(Failed));
}
