//! A flash in memory, which breaks where it is told to.
#![tactic(auto)]

mod armed;
mod cells;
mod firing;
mod memory;
mod registers;
mod slots;

pub use memory::MemFlash;
