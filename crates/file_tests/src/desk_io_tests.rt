//! What desks answer, in memory and over the files of the system.
pub mod desks;
pub mod memory;
mod recording;
pub mod saves;
mod steps;
