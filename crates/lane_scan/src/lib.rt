//! Scans of bytes, 32 of them at a time.
#![tactic(auto)]

mod lanes;
mod scans;

pub use scans::{all_equal, first_difference};
