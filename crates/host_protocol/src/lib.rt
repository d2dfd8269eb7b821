//! The commands of a command file and the replies to them, as text.
#![tactic(auto)]

mod command;
mod digit_lanes;
mod entry;
mod error;
mod feed_lanes;
mod file;
mod hexadecimal;
mod leading;
mod line;
mod lines;
mod numbers;
mod numbers_line;
mod operands;
mod page_line;
mod reply;
mod theorems;
mod verb;
mod words;

pub use command::Command;
pub use entry::around_equals;
pub use error::{LineError, TextError};
pub use file::{
    MAX_COMMANDS, MAX_ENTRIES, MAX_FILE_BYTES, entry_count, no_commands, parse, parse_line,
};
pub use line::line_command;
pub use lines::first_line;
pub use numbers::number;
pub use numbers_line::add_line;
pub use operands::{arm, no_word};
pub use reply::{Reply, reply_text};
pub use theorems::{files_tell_commands, lines_are_short, lines_tell_replies};
pub use words::first_word;
