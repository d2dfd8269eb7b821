use tx_types::BlockState;

/// What is kept of a block.
#[derive(Clone, Copy, PartialEq, Eq)]
pub struct BlockUse {
    pub state: BlockState,
    /// How many of its first slots are used.
    pub used: u32,
}

impl BlockUse {
    /// All blank.
    pub const CLEAN: BlockUse = BlockUse {
        state: BlockState::Clean,
        used: 0,
    };

    /// Kept for the collector.
    pub const SPARE: BlockUse = BlockUse {
        state: BlockState::Spare,
        used: 0,
    };
}
