//! The numbers, shapes and batches that every other crate speaks of.
#![tactic(auto)]

mod batch;
mod bytes;
mod config;
mod memory;
mod record;
mod stats;
mod target;

pub use batch::Batch;
pub use bytes::Bytes;
pub use config::{Block, BlockState, Config, ConfigError, Protocol, Shape, Slot};
pub use memory::Memory;
pub use record::{Link, MAX_VERSION, Rec};
pub use stats::Stats;
