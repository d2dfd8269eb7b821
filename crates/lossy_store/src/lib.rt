//! An open file in memory of which calls fail and writes are lost. It tells what a loss of power may leave of it.
#![tactic(auto)]

mod store;
mod write;

pub use store::{Failure, LossyStore};
