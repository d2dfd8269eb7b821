//! Collections on small flashes, as tables of steps.

pub mod flashes;
mod pictures;
mod rows;
mod steps;
