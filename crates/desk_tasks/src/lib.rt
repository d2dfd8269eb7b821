//! What is done for each word that the program knows: the files that it loads, the work on their bytes, what is
//! saved and said then, or why nothing is.
#![tactic(auto)]

mod checking;
mod comparing;
mod devices;
mod difference;
mod driving;
mod kept;
mod keying;
mod loading;
mod numbers;
mod output;
mod reading;
mod refusal;
mod retiring;
mod serving;
mod tasks;

pub use checking::do_check;
pub use comparing::do_compare;
pub use devices::{blank_flash, default_config};
pub use kept::KeptReplies;
pub use keying::do_keys;
pub use numbers::{MAX_TRANSACTIONS, transaction_count, wide_number};
pub use output::{Failure, File, Output, Text};
pub use refusal::Refusal;
pub use retiring::do_retire;
pub use tasks::{do_drive, do_explain, do_format, do_run, do_try};
