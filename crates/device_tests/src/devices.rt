//! Devices over small flashes: lines of calls and their answers.

pub mod batches;
mod calls;
pub mod doubts;
pub mod full;
pub mod lines;
pub mod mounting;
pub mod retired;
pub mod rows;
mod telling;
