//! The collector: it changes blocks for the sake of room, and finds out what a broken operation
//! left. Whatever breaks, the image stays sound and stands for the same array.
#![tactic(auto)]

mod block_buffer;
mod block_settling;
mod broken_operation;
mod choosing;
mod cleaning;
mod collecting;
mod copying;
mod erasing;
mod making_room;
mod reading;
mod retiring;
mod settling;
mod swapping;
pub mod theorems;
mod unsure;

pub use block_buffer::BlockBuffer;
pub use broken_operation::settle;
pub use choosing::victim;
pub use cleaning::clean_spare;
pub use collecting::collect;
pub use making_room::{allocate_slot, collect_victim, evict_blocks_to_go};
pub use retiring::retire_block;
pub use unsure::{Settled, Unsure};
