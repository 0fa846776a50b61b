//! What is asked of a case.
use cc_defs::OutOfMemory;
use std::alloc::Global;

/// A thing that is shown.
#[derive(Clone, Copy)]
pub(crate) enum Show {
    Rules,
    Causes,
    Rows,
    Clauses,
    Size,
    Log,
}

/// What is asked of a case.
#[derive(Drop)]
pub(crate) struct Ask {
    pub(crate) horizon: u32,
    pub(crate) query: u32,
    pub(crate) cut: u32,
    /// Whether the clause list denies the claim.
    pub(crate) claim: bool,
    /// The row that the histories come after, where there is a key.
    pub(crate) after: Option<Vec<u32>>,
    pub(crate) show: Vec<Show>,
}

/// The numbers of a text, between commas.
fn numbers(alloc: Global, text: &str) -> Result<Vec<u32>, OutOfMemory> {
    let mut numbers = Vec::new(alloc);
    for part in text.split(',') {
        if let Ok(number) = part.trim().parse::<u32>() {
            numbers.push(number)?;
        }
    }
    Ok(numbers)
}

fn show_of(word: &str) -> Option<Show> {
    match word {
        "rules" => Some(Show::Rules),
        "causes" => Some(Show::Causes),
        "rows" => Some(Show::Rows),
        "clauses" => Some(Show::Clauses),
        "size" => Some(Show::Size),
        "log" => Some(Show::Log),
        _ => None,
    }
}

impl Ask {
    fn new(alloc: Global) -> Ask {
        Ask {
            horizon: 0,
            query: 0,
            cut: 0,
            claim: false,
            after: None,
            show: Vec::new(alloc),
        }
    }

    /// Takes in the words of what is shown.
    fn read_show(&mut self, words: &str) -> Result<(), OutOfMemory> {
        for word in words.split_whitespace() {
            if let Some(show) = show_of(word) {
                self.show.push(show)?;
            }
        }
        Ok(())
    }

    /// Takes in a number that a word names.
    fn read_number(&mut self, word: &str, number: u32) {
        match word {
            "horizon" => self.horizon = number,
            "query" => self.query = number,
            "cut" => self.cut = number,
            _ => {}
        }
    }

    /// Takes in what a line says: a word and what stands behind it.
    fn read_line(&mut self, alloc: Global, word: &str, rest: &str) -> Result<(), OutOfMemory> {
        match word {
            "claim" => self.claim = true,
            "show" => self.read_show(rest)?,
            "after" => self.after = Some(numbers(alloc, rest)?),
            _ => {
                if let Ok(number) = rest.trim().parse::<u32>() {
                    self.read_number(word, number);
                }
            }
        }
        Ok(())
    }

    /// What a text asks.
    pub(crate) fn read(alloc: Global, text: &str) -> Result<Ask, OutOfMemory> {
        let mut ask = Ask::new(alloc);
        for line in text.lines() {
            match line.split_once(' ') {
                Some((word, rest)) => ask.read_line(alloc, word, rest)?,
                None => ask.read_line(alloc, line, "")?,
            }
        }
        Ok(ask)
    }
}
