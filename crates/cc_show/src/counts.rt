//! Counts in place of lines.
use cc_defs::OutOfMemory;
use std::alloc::Global;
use std::fmt::Write;

/// The first word of a line.
fn first_word(line: &str) -> &str {
    match line.split(' ').next() {
        Some(word) => word,
        None => "",
    }
}

/// Whether a line is a refusal: of all, or of the part that its first word names.
fn is_refusal(line: &str) -> bool {
    line.split(' ').take(2).any(|word| word == "refused")
}

fn show_count(out: &mut String, word: &str, count: u64) -> Result<(), OutOfMemory> {
    if count > 0 {
        write!(out, "count {word} {count}\n")?;
    }
    Ok(())
}

/// A text in which lines that follow each other and begin with the same word are counted; refusals stand as they are.
pub(crate) fn counted(alloc: Global, text: &str) -> Result<String, OutOfMemory> {
    let mut out = String::new(alloc);
    let mut word = String::new(alloc);
    let mut count = 0u64;
    for line in text.lines() {
        let refused = is_refusal(line);
        let first = first_word(line);
        if refused || word.as_str() != first {
            show_count(&mut out, &word, count)?;
            word.clear();
            word.push_str(first)?;
            count = 0;
        }
        if refused {
            out.push_str(line)?;
            out.push_str("\n")?;
        } else {
            count = count.saturating_add(1);
        }
    }
    show_count(&mut out, &word, count)?;
    Ok(out)
}
