//! A desk: files that are loaded and saved by their names, and a place where bytes are said.
#![tactic(auto)]

mod desk;
mod findings;
mod memory;
mod real;
mod real_folder;
mod through;

pub use desk::{Desk, LoadError, MAX_FILE_BYTES, SinkError};
pub use memory::{MemDesk, Memory};
pub use real::RealDesk;
pub use real_folder::{LockFile, RealFolder};
