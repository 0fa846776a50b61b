//! A case: what a run over its files gives.
use crate::digits::{bytes_in_hex, show_hex};
use crate::setting::Setting;
use cc_books::{body, bytes_named, head, parts};
use cc_defs::{Bytes, Name, Nums, OutOfMemory};
use cc_ports::{DroppingDesk, Files, MemoryDesk, To};
use cc_run::run;
use std::alloc::Global;
use std::fmt::Write;

/// What a log of version 2 begins with.
const BINARY: &[u8] = b"ccalclg2";

/// The text of the file of this name; an empty one where it is not there.
fn text_of<'b>(parts: &[&'b [u8]], name: &str) -> &'b str {
    std::str::from_utf8(bytes_named(parts, name)).unwrap_or("")
}

/// The lines of a text.
fn words_of(alloc: Global, text: &str) -> Result<Vec<String>, OutOfMemory> {
    let mut words = Vec::new(alloc);
    for line in text.lines() {
        words.push(String::from_str(alloc, line)?)?;
    }
    Ok(words)
}

/// A file of the desk, of this name and these bytes.
fn file(
    alloc: Global,
    name: &str,
    bytes: &[u8],
    setting: &Setting,
) -> Result<(Name, Bytes), OutOfMemory> {
    let bytes = Vec::from_slice(alloc, setting.kept(name, bytes))?;
    let name = String::from_str(alloc, name)?;
    Ok((Name::of(name), Bytes::of(bytes)))
}

/// A file of the desk, whose bytes may stand in hex.
fn file_of(alloc: Global, part: &[u8], setting: &Setting) -> Result<(Name, Bytes), OutOfMemory> {
    match head(part).strip_prefix("hex ") {
        Some(name) => {
            let bytes = bytes_in_hex(alloc, body(part))?;
            file(alloc, name, &bytes, setting)
        }
        None => file(alloc, head(part), body(part), setting),
    }
}

/// The files of the desk.
fn files_of(alloc: Global, parts: &[&[u8]], setting: &Setting) -> Result<Files, OutOfMemory> {
    let mut files = Vec::new(alloc);
    for part in parts {
        let name = head(part);
        if name != "words" && name != "desk" {
            files.push(file_of(alloc, part, setting)?)?;
        }
    }
    Ok(Files::of(files))
}

/// The desk of a case.
fn desk_of(alloc: Global, parts: &[&[u8]], setting: Setting) -> Result<MemoryDesk, OutOfMemory> {
    let files = files_of(alloc, parts, &setting)?;
    let most = setting.most();
    let room = setting.room;
    MemoryDesk::new(alloc, files, Nums::of(setting.fails), most, room)
}

/// The lines of an output, each behind its name.
fn show_lines(out: &mut String, name: &str, text: &str) -> Result<(), OutOfMemory> {
    for line in text.split_inclusive('\n') {
        out.push_str(name)?;
        out.push_str(": ")?;
        out.push_str(line)?;
    }
    if !text.is_empty() && !text.ends_with('\n') {
        out.push_str("\n")?;
        out.push_str(name)?;
        out.push_str(" has no line feed at its end\n")?;
    }
    Ok(())
}

fn show_output(out: &mut String, name: &str, bytes: &[u8]) -> Result<(), OutOfMemory> {
    match std::str::from_utf8(bytes) {
        Ok(text) => show_lines(out, name, text),
        Err(_) => {
            out.push_str(name)?;
            out.push_str(" is no text\n")?;
            Ok(())
        }
    }
}

/// How many lines a log has, or bytes where it is of version 2.
fn show_count(out: &mut String, log: &[u8]) -> Result<(), OutOfMemory> {
    if log.starts_with(BINARY) {
        let bytes = log.len();
        write!(out, "log has {bytes} bytes\n")?;
    } else {
        let lines = log.iter().filter(|byte| **byte == b'\n').count();
        write!(out, "log has {lines} lines\n")?;
    }
    Ok(())
}

/// A log: its lines or bytes, or how many it has.
fn show_log(out: &mut String, log: &[u8], counted: bool) -> Result<(), OutOfMemory> {
    if counted {
        show_count(out, log)
    } else if log.starts_with(BINARY) {
        show_hex(out, "log", log)
    } else {
        show_output(out, "log", log)
    }
}

/// What a desk has, and a code.
fn show_desk(
    out: &mut String,
    desk: &MemoryDesk,
    counted: bool,
    code: u8,
) -> Result<(), OutOfMemory> {
    show_output(out, "out", desk.written(To::Out))?;
    show_output(out, "err", desk.written(To::Err))?;
    if desk.has_begun() {
        out.push_str("log begun\n")?;
    }
    show_log(out, desk.written(To::Log), counted)?;
    write!(out, "code {code}\n")?;
    Ok(())
}

/// What is printed of the part of a book that is a case.
pub(crate) fn shown(alloc: Global, case: &[u8]) -> Result<String, OutOfMemory> {
    let mut out = String::from_str(alloc, "=== ")?;
    out.push_str(head(case))?;
    out.push_str("\n")?;
    let parts = parts(alloc, case)?;
    let words = words_of(alloc, text_of(&parts, "words"))?;
    let setting = Setting::read(alloc, text_of(&parts, "desk"))?;
    let counted = setting.counted;
    let drops = setting.drops;
    let mut desk = desk_of(alloc, &parts, setting)?;
    if drops {
        let mut desk = DroppingDesk::of(desk);
        let status = run(alloc, &words, &mut desk);
        show_desk(&mut out, desk.desk(), counted, status.code())?;
    } else {
        let status = run(alloc, &words, &mut desk);
        show_desk(&mut out, &desk, counted, status.code())?;
    }
    Ok(out)
}
