//! The blocks of a flash: what each is kept for, and the slot that is programmed next.
#![tactic(auto)]

mod block_use;
mod blocks;
mod die_ranks;
mod ranks;

pub use block_use::BlockUse;
pub use blocks::Blocks;
