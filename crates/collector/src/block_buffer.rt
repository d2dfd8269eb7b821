ghost use Rattle.std.specs.Prelude.{◌≤◌, vec_capacity};
ghost use Rattle.collector.specs.declared.block_buffer.TheConstants.{MOST_SLOTS};

use std::alloc::{AllocError, Global};
use tx_types::Block;

/// The most slots that a device has.
const MOST_SLOTS: usize = 65536;

/// Room for a block of each slot, so that no call but `new` takes memory.
#[derive(Drop)]
pub struct BlockBuffer {
    pub(crate) blocks: Vec<Block>,
    ghost enough: { MOST_SLOTS ≤ vec_capacity blocks },
}

impl BlockBuffer {
    /// Takes the memory, a quarter of a MiB.
    pub fn new(alloc: Global) -> Result<BlockBuffer, AllocError> {
        Ok(BlockBuffer {
            blocks: Vec::with_capacity(alloc, MOST_SLOTS)?,
        })
    }
}
