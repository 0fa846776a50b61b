//! What a run gives to its desk: steps, stops, and what is told of each event, each line of an output by one call.
#![tactic(auto)]

mod ending;
mod logs;
mod refusing;
mod status;
mod summing;
mod telling;
mod words;

pub use ending::end_run;
pub use logs::begin_log;
pub use refusing::{file_named, give, give_made, refuse, tell_limit, tell_stop};
pub use status::{Status, Stop, status_of};
pub use telling::{
    Teller, give_header, give_lines, own_behind_line, tell_by, tell_event, tell_history, tell_line,
    tell_line_in, tell_row,
};
pub use words::words_of;
