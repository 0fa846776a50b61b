//! The cases of a book, and the files of a case.
use cc_defs::{Bytes, Name, OutOfMemory};
use cc_ports::Files;
use std::alloc::Global;

/// What a line that begins a case begins with.
const CASE: &[u8] = b"=== ";

/// What a line that begins a file begins with.
const FILE: &[u8] = b"--- ";

/// The places where a line begins with the mark.
fn places(alloc: Global, bytes: &[u8], mark: &[u8]) -> Result<Vec<usize>, OutOfMemory> {
    let mut places = Vec::new(alloc);
    let mut begins = true;
    for (place, byte) in bytes.iter().enumerate() {
        if begins && bytes[place..].starts_with(mark) {
            places.push(place)?;
        }
        begins = *byte == b'\n';
    }
    Ok(places)
}

/// The parts that begin with a line that begins with the mark, each up to the next.
fn parts_at<'b>(alloc: Global, bytes: &'b [u8], mark: &[u8]) -> Result<Vec<&'b [u8]>, OutOfMemory> {
    let mut parts = Vec::new(alloc);
    let mut end = bytes.len();
    let places = places(alloc, bytes, mark)?;
    for place in places.iter().rev() {
        if let Some(part) = bytes.get(*place..end) {
            parts.push(part)?;
        }
        end = *place;
    }
    parts.reverse();
    Ok(parts)
}

/// The cases of a book.
pub fn cases(alloc: Global, book: &[u8]) -> Result<Vec<&[u8]>, OutOfMemory> {
    parts_at(alloc, book, CASE)
}

/// The files of a case, each with the line of its name.
pub fn parts(alloc: Global, case: &[u8]) -> Result<Vec<&[u8]>, OutOfMemory> {
    parts_at(alloc, case, FILE)
}

/// The title of a case, or the name of a file: its first line without the mark; empty where it is no text.
pub fn head(part: &[u8]) -> &str {
    let line = match part.split(|byte| *byte == b'\n').next() {
        Some(line) => line,
        None => part,
    };
    match line.get(4..) {
        Some(rest) => std::str::from_utf8(rest).unwrap_or(""),
        None => "",
    }
}

/// The lines of a case or a file behind its first.
pub fn body(part: &[u8]) -> &[u8] {
    match part.iter().position(|byte| *byte == b'\n') {
        Some(place) => part.get(place + 1..).unwrap_or(&[]),
        None => &[],
    }
}

/// The bytes of the file of this name; none where it is not there.
pub fn bytes_named<'b>(parts: &[&'b [u8]], name: &str) -> &'b [u8] {
    for part in parts {
        if head(part) == name {
            return body(part);
        }
    }
    &[]
}

/// The files of a case, for a desk.
pub fn files(alloc: Global, parts: &[&[u8]]) -> Result<Files, OutOfMemory> {
    let mut files = Vec::new(alloc);
    for part in parts {
        let name = Name::of(String::from_str(alloc, head(part))?);
        let bytes = Bytes::of(Vec::from_slice(alloc, body(part))?);
        files.push((name, bytes))?;
    }
    Ok(Files::of(files))
}
