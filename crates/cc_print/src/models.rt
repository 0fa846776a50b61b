//! Models of a CNF, and the verdict of a log of models.
ghost use Rattle.std.specs.Prelude.{◌≡◌, ◌≤◌, ◌∷◌, [], IfOk, OnOk, ◌++◌, length, string_bytes};
ghost use Rattle.cc_print.specs.Models.{model_line, model_words, models_verdict_line};
ghost use Rattle.cc_defs.specs.declared.log.LogVerdict.TheVariants.{Accepted};

use crate::texts::{push_line_feed, push_number, written};
use crate::verdicts::verdict_text;
use cc_defs::{LogVerdict, OutOfMemory, Text};
use std::alloc::Global;

/// A variable with a hyphen before it where its value is not 1.
fn push_literal(text: &mut String, variable: u32, value: u32) -> Result<(), OutOfMemory>
    ensures { OnOk result
        (string_bytes text.new ≡ string_bytes text.old ++ model_words variable (value ∷ [])) }
{
    text.push_str(" ")?;
    if value != 1 {
        text.push_str("-")?;
    }
    push_number(text, variable)
}

/// The literals of a model.
fn push_literals(text: &mut String, row: &[u32]) -> Result<(), OutOfMemory>
    requires { length row.now ≤ 1000000 }
    ensures { OnOk result (string_bytes text.new ≡ string_bytes text.old ++ model_words 1 row.now) }
{
    let mut variable = 1;
    for value in row {
        push_literal(text, variable, *value)?;
        variable += 1;
    }
    Ok(())
}

/// The line of a model: its number, from 1, and a literal for each variable, with a hyphen where it is false. The row has a truth
/// value for each of at most 1,000,000 variables, 0 for false and 1 for true.
pub fn model_text(alloc: Global, number: u32, row: &[u32]) -> Result<Text, OutOfMemory>
    requires { length row.now ≤ 1000000 }
    ensures { IfOk result (λ text. text ≡ model_line number row.now) }
{
    let mut text = format!(in alloc; "model {number}:")?;
    let pushed = push_model(&mut text, row);
    written(text, pushed)
}

/// The literals of a model, and a line feed.
fn push_model(text: &mut String, row: &[u32]) -> Result<(), OutOfMemory>
    requires { length row.now ≤ 1000000 }
    ensures { OnOk result
        (string_bytes text.new ≡ string_bytes text.old ++ model_words 1 row.now ++ 10 ∷ []) }
{
    push_literals(text, row)?;
    push_line_feed(text)
}

fn accepted(alloc: Global, blocked: u64) -> Result<Text, OutOfMemory>
    ensures { IfOk result (λ text. text ≡ models_verdict_line (Accepted 0 0 blocked)) }
{
    let text = format!(in alloc; "log accepted: blocked {blocked}\n")?;
    Ok(Text::of(text))
}

/// What a checker says of a log of models, as a line with its line feed: how many models are blocked, and that there is no other one,
/// or the first wrong line and what is wrong with it.
pub fn models_verdict_text(alloc: Global, verdict: &LogVerdict) -> Result<Text, OutOfMemory>
    ensures { IfOk result (λ text. text ≡ models_verdict_line verdict.now) }
{
    match verdict {
        LogVerdict::Accepted { blocked, .. } => accepted(alloc, *blocked),
        LogVerdict::Refused { .. } => verdict_text(alloc, verdict),
    }
}
