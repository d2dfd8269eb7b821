//! The command line: which work the words of a call ask for, how what it gives is saved and said, and with which
//! status the call ends.
#![tactic(auto)]

mod call;
pub mod theorems;
mod words;

pub use call::top;
pub use desk_tasks::KeptReplies;
