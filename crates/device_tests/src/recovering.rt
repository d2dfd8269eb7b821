//! Recovery of flashes with a few records.

pub mod flashes;
pub mod lists;
pub mod tables;
