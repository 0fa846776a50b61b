//! The printed texts of keys, histories, events, refusals, verdicts and summaries, and keys as they are read.
#![tactic(auto)]

mod atoms;
mod histories;
mod keys;
mod models;
mod summaries;
mod texts;
pub mod theorems;
mod verdicts;

pub use atoms::atom_text;
pub use histories::history_text;
pub use keys::read_key;
pub use models::{model_text, models_verdict_text};
pub use summaries::summary_text;
pub use texts::{event_text, example_text, key_line, key_text, refusal_text};
pub use verdicts::verdict_text;
