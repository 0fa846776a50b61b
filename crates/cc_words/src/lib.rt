//! What the words of the program ask for.
//!
//! | Option | Value | Default | Goes with mode |
//! |---|---|---|---|
//! | `--mode` | `list`, `check`, `make`, `convert`, `why`, `export`, `models`, `modelscheck`, `sure`, `surecheck`, `general`, `generalcheck`, `forever` or `forevercheck` | `list` | |
//! | `--query` | a label | the first query | list, check, convert, export, sure, surecheck, general, generalcheck, forever, forevercheck |
//! | `--count` | 1 to 1000000 | all | list, models, general |
//! | `--budget` | 1 to 2000000 | 200000 | list, make, models, sure, general, forever |
//! | `--after` | a key | none | list, check, convert |
//! | `--log` | a file name | none | list, models, sure, general, forever (written); check, convert, modelscheck, surecheck, generalcheck, forevercheck (read, required) |
//! | `--form` | `1` or `2` | `1` | list, models |
//! | `--to` | a file name | none | convert (required) |
//! | `--key` | a key | none | why (required) |
//! | `--horizon` | a number | none | export (required) |
//! | `--size` | 1 to 100 | none | make (required) |
//! | FILE | a file name | none | all but make (required) |
//!
//! Numbers have one to seven decimal digits. Words of the plain form are options with their values, no option twice and no
//! value with a first `-`, and then at most one FILE. Other words mean what they mean to clap. A FILE with a control character
//! is not taken: no such character reaches an output by it.
#![tactic(auto)]

mod asked;
mod given;
mod modes;
mod names;
mod numbers;
mod parse;
pub mod theorems;
mod words;

pub use asked::{
    Asked, CheckAsked, CheckForeverAsked, CheckGeneralAsked, CheckModelsAsked, CheckSureAsked,
    ConvertAsked, ExportAsked, ForeverAsked, GeneralAsked, ListAsked, ModelsAsked, SureAsked,
    WhyAsked,
};
pub use modes::{Item, Mode};
pub use words::read;
