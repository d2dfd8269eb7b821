//! The live format of an image file: no slot has a state byte. Each has the number of its zero bits, so that a slot is
//! written by one write and is complete only when all of it is there.
#![tactic(auto)]

mod slots;
mod theorems;

pub use slots::{is_counted, live_seen};
pub use theorems::torn_slots_read;
