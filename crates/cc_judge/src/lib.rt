//! The verdict of the log of a query: its sections one after another, each over the clause list that is made for it; and that of a
//! log of one section over a form. One section is checked in cc_check, and there logs of silent sections are judged too.
#![tactic(auto)]

mod logs;
mod single;
mod standing;

pub use logs::judge;
pub use single::judge_over;
