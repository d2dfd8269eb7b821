//! Tables of slots with a few records.

mod changing;
pub mod lines;
pub mod rows;
pub mod tables;
