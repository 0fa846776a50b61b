//! Tells the models of a CNF, each line of an output by one call of the desk.
ghost use Rattle.std.specs.Prelude.{◌≡◌, ◌≤◌, ◌+◌, ℕ, [], length, ◌++◌, ◌∷◌, codes, decimal, IfOk, None, false, OnOk, Some, string_bytes};
ghost use Rattle.cc_defs.specs.declared.log.LogLine.TheVariants as lines;
ghost use Rattle.cc_defs.specs.LogTexts.{IsFormed};
ghost use Rattle.cc_defs.specs.LogVersions.{header_of as header_in, line_bytes};
ghost use Rattle.cc_ports.specs.declared.desk.To.TheVariants as outputs;
ghost use Rattle.cc_print.specs.Models.{model_line};
ghost use Rattle.cc_tell.specs.Givens.{given_to, nothing};
ghost use Rattle.cc_tell_modes.specs.ModelTexts.{models_end, models_status};
ghost use Rattle.cc_tell.specs.Steps.{Step};
ghost use Rattle.cc_tell.specs.Tellers.{IsWritable};

use cc_defs::{EndWord, LogLine, OutOfMemory, Version};
use cc_ports::{Desk, To};
use cc_print::model_text;
use cc_tell::{Status, Stop, give, give_made, tell_line_in};
use itoa::Buffer;
use std::alloc::Global;

/// How far the models are listed: the log is in this version, the next clause has the number `own` in its section, and so many
/// were listed.
#[derive(Clone, Copy)]
pub struct Lister {
    pub version: Version,
    pub own: u32,
    pub listed: u32,
}

/// The first bytes of a log in a version.
fn header_of(version: Version) -> &'static [u8]
    ensures { result.now ≡ header_in version }
{
    match version {
        Version::First => b"ccalc log 1\n",
        Version::Second => b"ccalclg2",
    }
}

/// The status of a run whose listing ends so.
fn status_of(listed: u32, word: EndWord) -> Status
    ensures { result ≡ models_status listed word }
{
    match word {
        EndWord::Empty => {
            if listed == 0 {
                Status::Not
            } else {
                Status::Right
            }
        }
        EndWord::Found => Status::Asked,
        EndWord::Spent => Status::Spent,
    }
}

/// What the line of an end begins with, where some number behind it says how many were listed.
fn end_words(word: EndWord) -> &'static str
    ensures { (listed : ℕ) → (listed ≡ 0 → word ≡ EndWord.Empty → ⊥) →
        models_end listed word ≡ result.now ++ decimal listed ++ codes " listed" ++ 10 ∷ [] }
{
    match word {
        EndWord::Empty => "complete, ",
        EndWord::Found => "asked number reached, ",
        EndWord::Spent => "budget spent, ",
    }
}

/// A text, a number, and that it was listed.
fn listed_text(alloc: Global, words: &str, listed: u32) -> Result<String, OutOfMemory>
    ensures { IfOk result (λ text.
        string_bytes text ≡ words.now ++ decimal listed ++ codes " listed" ++ 10 ∷ []) }
{
    let mut text = String::from_str(alloc, words)?;
    let mut digits = Buffer::new();
    text.push_str(digits.format(listed))?;
    text.push_str(" listed\n")?;
    Ok(text)
}

/// The line of an end.
fn end_text(alloc: Global, listed: u32, word: EndWord) -> Result<String, OutOfMemory>
    ensures { IfOk result (λ text. string_bytes text ≡ models_end listed word) }
{
    if listed == 0 && word == EndWord::Empty {
        return Ok(String::from_str(alloc, "no model\n")?);
    }
    listed_text(alloc, end_words(word), listed)
}

/// Gives a line that adds a clause to Log, and counts the clause.
pub fn tell_clause<D: Desk>(
    alloc: Global,
    desk: &mut D,
    lister: &mut Lister,
    line: &LogLine,
) -> Result<Option<Status>, Stop>
    requires formed { IsFormed line.now }
    requires writable { IsWritable lister.old.own line.now }
    ensures told { Step
        (given_to outputs.Log (line_bytes lister.old.version lister.old.own line.now))
        (D.seen desk.old) (D.seen desk.new) result }
    ensures behind { OnOk result (lister.new ≡ record lister.old { own = lister.old.own + 1 }) }
    ensures version { lister.new.version ≡ lister.old.version }
    ensures goes_on { IfOk result (λ status. status ≡ None) }
{
    tell_line_in(alloc, desk, lister.version, lister.own, line)?;
    lister.own += 1;
    Ok(None)
}

/// Gives the line of a model to Out, and counts the model.
pub fn tell_model<D: Desk>(
    alloc: Global,
    desk: &mut D,
    lister: &mut Lister,
    row: &[u32],
) -> Result<Option<Status>, Stop>
    requires short { length row.now ≤ 1000000 }
    requires few { lister.old.listed ≤ 100000000 }
    ensures told { Step (given_to outputs.Out (model_line (lister.old.listed + 1) row.now))
        (D.seen desk.old) (D.seen desk.new) result }
    ensures behind { OnOk result
        (lister.new ≡ record lister.old { listed = lister.old.listed + 1 }) }
    ensures version { lister.new.version ≡ lister.old.version }
    ensures goes_on { IfOk result (λ status. status ≡ None) }
{
    let number = lister.listed + 1;
    give_made(desk, To::Out, model_text(alloc, number, row))?;
    lister.listed = number;
    Ok(None)
}

/// Gives the line of an end word to Log, and that of the end to Out.
pub fn tell_end<D: Desk>(
    alloc: Global,
    desk: &mut D,
    lister: Lister,
    word: EndWord,
) -> Result<Option<Status>, Stop>
    requires { lister.own ≤ 999999999 }
    ensures told { Step (record nothing {
      out = models_end lister.listed word;
      log = line_bytes
          lister.version lister.own (lines.End word);
    }) (D.seen desk.old) (D.seen desk.new) result }
    ensures status { IfOk result (λ status. status ≡ Some (models_status lister.listed word)) }
{
    tell_line_in(alloc, desk, lister.version, lister.own, &LogLine::End(word))?;
    let text = end_text(alloc, lister.listed, word)?;
    give(desk, To::Out, text.as_bytes())?;
    Ok(Some(status_of(lister.listed, word)))
}

/// Gives the header of the log and the heading of its section.
pub fn give_heading<D: Desk>(alloc: Global, desk: &mut D, version: Version) -> Result<(), Stop>
    ensures { Step (given_to outputs.Log (header_in version
        ++ line_bytes version 1 (lines.Section false 0))) (D.seen desk.old) (D.seen desk.new)
        result }
{
    let heading = LogLine::Section {
        conditions: false,
        horizon: 0,
    };
    give(desk, To::Log, header_of(version))?;
    tell_line_in(alloc, desk, version, 1, &heading)
}
