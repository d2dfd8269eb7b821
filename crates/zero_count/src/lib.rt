//! Slots that hold the number of zero bits of their own bytes, so that a torn write of one is found with certainty.
#![tactic(auto)]

mod count;
mod slots;
mod theorems;

pub use count::count_zeros;
pub use slots::{is_whole, number_of, write_number};
pub use theorems::{torn_slots, whole_slots, worked_examples};
