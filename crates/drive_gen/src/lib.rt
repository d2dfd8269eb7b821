//! Generated work: a list of commands that a number gives, and the summary of the replies to it.
#![tactic(auto)]

mod generator;
mod hexadecimal;
mod kind;
mod line;
mod running_tally;
mod tally;
mod transaction;
mod words;
mod work;

pub use line::summary;
pub use running_tally::RunningTally;
pub use work::{Work, commands};
