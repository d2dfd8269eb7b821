//! Image files in their live format, which a file has only while a session has it open.
#![tactic(auto)]

mod error;
mod header;
mod reading;
mod theorems;
mod writing;

pub use error::LiveError;
pub use reading::take_live;
pub use theorems::live_files;
pub use writing::write_live;
