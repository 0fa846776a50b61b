//! The lines of a text that are no comments.
ghost use Rattle.std.specs.Prelude.{◌≡◌, ◌+◌, ◌<◌, ◌≤◌, ◌∷◌, length};
ghost use Rattle.cc_defs.specs.Limits.{most_log_bytes};
ghost use Rattle.cc_defs.specs.LogTexts.{lines_in};
ghost use Rattle.cc_dimacs.specs.CnfTexts.{begins_with as begins_with_byte};
ghost use Rattle.cc_dimacs.specs.Reading.{IsNextTold};

/// The next line of a text that is no comment, or that there is none.
pub(crate) enum Told<'t> {
    /// A line with its number, and what stands behind it.
    Line {
        number: u32,
        line: &'t [u8],
        behind: &'t [u8],
    },
    /// The text ends with the line of this number.
    End {
        last: u32,
    },
}

/// The first line of a text, its line feed included, and what stands behind it.
fn next_line(text: &[u8]) -> (&[u8], &[u8])
    requires { 0 < length text.now }
    ensures lines { lines_in text.now ≡ result.0.now ∷ lines_in result.1.now }
    ensures shorter { length result.1.now < length text.now }
{
    for (i, byte) in text.iter().enumerate() {
        if *byte == b'\n' {
            return text.split_at(i + 1);
        }
    }
    text.split_at(text.len())
}

fn begins_with(line: &[u8], byte: u8) -> bool
    ensures { result ≡ begins_with_byte byte line.now }
{
    match line {
        [] => false,
        [first, ..] => *first == byte,
    }
}

/// The next line that is no comment, of a text whose first line has this number. A line that begins with `%` ends the text.
pub(crate) fn next_told(text: &[u8], first: u32) -> Told<'_>
    requires some { 0 < first }
    requires most { first + length text.now ≤ most_log_bytes + 1 }
    ensures { IsNextTold first text.now result }
{
    let mut rest = text;
    let mut number = first;
    while !rest.is_empty() {
        let (line, behind) = next_line(rest);
        if begins_with(line, b'%') {
            return Told::End { last: number };
        }
        if !begins_with(line, b'c') {
            return Told::Line {
                number,
                line,
                behind,
            };
        }
        rest = behind;
        number += 1;
    }
    Told::End { last: number - 1 }
}
