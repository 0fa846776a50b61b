//! Bytes as hex digits, since books are texts.
use cc_defs::OutOfMemory;
use std::alloc::Global;
use std::fmt::Write;

/// How many bytes stand in a line that is printed, at most.
const WIDTH: usize = 32;

/// The value of a hex digit.
fn digit_of(byte: u8) -> Option<u8> {
    match byte {
        b'0'..=b'9' => Some(byte - b'0'),
        b'A'..=b'F' => Some(byte - b'A' + 10),
        b'a'..=b'f' => Some(byte - b'a' + 10),
        _ => None,
    }
}

/// The bytes whose digits stand in a text, two each; what is no digit is left out, and so is a last digit alone.
pub(crate) fn bytes_in_hex(alloc: Global, text: &[u8]) -> Result<Vec<u8>, OutOfMemory> {
    let mut bytes = Vec::new(alloc);
    let mut high: Option<u8> = None;
    for byte in text {
        high = match (high, digit_of(*byte)) {
            (Some(first), Some(second)) => {
                bytes.push(first.wrapping_mul(16).wrapping_add(second))?;
                None
            }
            (None, digit) => digit,
            (first, None) => first,
        };
    }
    Ok(bytes)
}

/// The bytes of a line, each behind a space.
fn show_bytes(out: &mut String, bytes: &[u8]) -> Result<(), OutOfMemory> {
    for byte in bytes {
        let byte = *byte;
        write!(out, " {byte:02X}")?;
    }
    Ok(())
}

/// Bytes in lines, each behind this name.
pub(crate) fn show_hex(out: &mut String, name: &str, bytes: &[u8]) -> Result<(), OutOfMemory> {
    for line in bytes.chunks(WIDTH) {
        out.push_str(name)?;
        out.push_str(" in hex:")?;
        show_bytes(out, line)?;
        out.push_str("\n")?;
    }
    Ok(())
}
