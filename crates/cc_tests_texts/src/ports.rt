//! Each public call once, with memory enough.
ghost use Rattle.std.specs.Prelude.{◌<◌, length};

use cc_defs::{Bytes, Name, Nums};
use cc_ports::{
    Desk, DroppingDesk, Failed, Files, MemoryDesk, ReadStop, RealDesk, StandardStreams, StillDesk,
    To, give_all, read_all,
};
use std::alloc::{AllocError, Global};
use std::test::Fail;

fn file(alloc: Global, name: &str, text: &[u8]) -> Result<(Name, Bytes), AllocError> {
    let name = Name::of(String::from_str(alloc, name)?);
    Ok((name, Bytes::of(Vec::from_slice(alloc, text)?)))
}

fn some_files(alloc: Global) -> Result<Files, AllocError> {
    let mut files = Vec::new(alloc);
    files.push(file(alloc, "a", b"one")?)?;
    files.push(file(alloc, "b", b"three")?)?;
    files.push(file(alloc, "a", b"two")?)?;
    Ok(Files::of(files))
}

fn desk(alloc: Global, fails: &[u32], room: [usize; 3]) -> Result<MemoryDesk, Fail> {
    let fails = Nums::of(Vec::from_slice(alloc, fails)?);
    Ok(MemoryDesk::new(alloc, some_files(alloc)?, fails, 1, room)?)
}

/// What a read of at most four bytes gives: their number and the first of them, or the fault.
fn read_four(desk: &mut MemoryDesk) -> Result<(usize, u8), Failed> {
    let mut buffer = [0u8; 4];
    let count = desk.read(&mut buffer)?;
    Ok((count, buffer[0]))
}

fn open(desk: &mut MemoryDesk, name: &str) -> Result<(), Failed> {
    desk.open_file(name)
}

#[test]
fn reads_the_first_file_of_a_name_in_pieces(rt: HostRuntime) -> Result<(), Fail> {
    let mut desk = desk(rt.alloc(), &[3], [9, 9, 9])?;
    assert!(rt; open(&mut desk, "a").is_ok());
    assert!(rt; read_four(&mut desk) == Ok((1, b'o')));
    assert!(rt; read_four(&mut desk) == Err(Failed));
    assert!(rt; read_four(&mut desk) == Ok((1, b'n')));
    assert!(rt; open(&mut desk, "c").is_err());
    assert!(rt; read_four(&mut desk) == Ok((1, b'e')));
    assert!(rt; read_four(&mut desk) == Ok((0, 0)));
    Ok(())
}

fn give(desk: &mut MemoryDesk, to: To, bytes: &[u8]) -> Result<usize, Failed>
    requires { 0 < length bytes.now }
{
    desk.give(to, bytes)
}

fn has_written(desk: &MemoryDesk, to: To, bytes: &[u8]) -> bool {
    desk.written(to) == bytes
}

#[test]
fn gives_as_much_as_there_is_room_for(rt: HostRuntime) -> Result<(), Fail> {
    let mut desk = desk(rt.alloc(), &[], [9, 9, 2])?;
    assert!(rt; desk.create_file("log").is_ok());
    assert!(rt; give(&mut desk, To::Log, b"abc") == Ok(2));
    assert!(rt; give(&mut desk, To::Log, b"c") == Err(Failed));
    assert!(rt; give(&mut desk, To::Out, b"out") == Ok(3));
    assert!(rt; give(&mut desk, To::Err, b"err") == Ok(3));
    assert!(rt; has_written(&desk, To::Log, b"ab"));
    assert!(rt; has_written(&desk, To::Out, b"out"));
    assert!(rt; has_written(&desk, To::Err, b"err"));
    Ok(())
}

#[test]
fn reads_whole(rt: HostRuntime) -> Result<(), Fail> {
    let alloc = rt.alloc();
    let mut desk = desk(alloc, &[8], [0, 0, 0])?;
    let bytes = read_all(alloc, &mut desk, "b", 5);
    assert!(rt; bytes.is_ok_and(|bytes| bytes.items() == b"three".as_slice()));
    let failed = read_all(alloc, &mut desk, "a", 5);
    assert!(rt; matches!(failed, Err(ReadStop::Failed)));
    let long = read_all(alloc, &mut desk, "b", 4);
    assert!(rt; matches!(long, Err(ReadStop::Limit)));
    Ok(())
}

#[test]
fn gives_whole(rt: HostRuntime) -> Result<(), Fail> {
    let mut desk = desk(rt.alloc(), &[], [5, 4, 0])?;
    assert!(rt; give_all(&mut desk, To::Out, b"three") == Ok(()));
    assert!(rt; give_all(&mut desk, To::Err, b"three") == Err(Failed));
    assert!(rt; desk.written(To::Err) == b"thre".as_slice());
    Ok(())
}

#[test]
fn stands_still(rt: HostRuntime) -> Result<(), Fail> {
    let alloc = rt.alloc();
    let files = some_files(alloc)?;
    let count = files.items().len();
    assert!(rt; count == 3);
    let mut desk = StillDesk::new(files);
    let bytes = read_all(alloc, &mut desk, "a", 5);
    assert!(rt; bytes.is_ok_and(|bytes| bytes.items() == b"one".as_slice()));
    let absent = read_all(alloc, &mut desk, "c", 5);
    assert!(rt; absent.is_ok_and(|bytes| bytes.items() == b"".as_slice()));
    assert!(rt; give_all(&mut desk, To::Log, b"three") == Ok(()));
    Ok(())
}

#[test]
fn reaches_the_machine(rt: HostRuntime) {
    let alloc = rt.alloc();
    let mut desk = RealDesk::new(rt);
    let absent = read_all(alloc, &mut desk, "there is no such file", 5);
    let failed = matches!(absent, Err(ReadStop::Failed));
    let given = give_all(&mut desk, To::Err, b"to the error stream\n");
    let dropped = give_all(&mut desk, To::Log, b"to no log");
    let is_dropped = desk.drops_log();
    assert!(rt; is_dropped);
    assert!(rt; failed);
    assert!(rt; given == Ok(()));
    assert!(rt; dropped == Ok(()));
}

// What is given to Log before a log was begun is dropped, and what comes after is kept.
#[test]
fn drops_lines_of_no_log(rt: HostRuntime) -> Result<(), Fail> {
    let kept = desk(rt.alloc(), &[], [9, 9, 9])?;
    assert!(rt; !kept.drops_log());
    let mut desk = DroppingDesk::of(kept);
    assert!(rt; desk.drops_log());
    assert!(rt; give_all(&mut desk, To::Log, b"before") == Ok(()));
    assert!(rt; has_written(desk.desk(), To::Log, b""));
    assert!(rt; desk.create_file("log").is_ok());
    assert!(rt; !desk.drops_log());
    assert!(rt; give_all(&mut desk, To::Log, b"after") == Ok(()));
    assert!(rt; has_written(desk.desk(), To::Log, b"after"));
    Ok(())
}

#[test]
fn holds_the_standard_streams(rt: HostRuntime) {
    assert!(rt; StandardStreams::hold(&rt).is_ok());
}
