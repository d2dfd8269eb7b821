ghost use Rattle.std.specs.Prelude.{◌≡◌, ◌*◌, ◌/◌, ◌^◌, ◌<◌, IfOk, OnOk};
ghost use Rattle.std.specs.Option.{option_map};
ghost use Rattle.tx_types.specs.Config.{checked, IsConfig, IsShape, slots_of, blocks_of};
ghost use Rattle.tx_types.specs.Slots.{lower};

use thiserror::Error;

/// The two protocols: Simple Cyclic Commit and Back Pointer Cyclic Commit.
#[derive(Clone, Copy, PartialEq, Eq)]
pub enum Protocol {
    Scc,
    Bpcc,
}

/// A place on the flash that holds one page of contents and its spare area, numbered from 0.
#[derive(Clone, Copy, PartialEq, Eq, PartialOrd, Ord)]
pub struct Slot(pub u32);

impl Slot {
    /// The lower one of two slots, if there are any.
    pub fn lower(at: Option<Slot>, other: Option<Slot>) -> Option<Slot>
        ensures { option_map (λ s. s.0) result
            ≡ lower (option_map (λ s. s.0) at) (option_map (λ s. s.0) other) }
    {
        match (at, other) {
            (None, _) => other,
            (Some(_), None) => at,
            (Some(a), Some(b)) => Some(Slot(a.0.min(b.0))),
        }
    }
}

/// The slots that are erased together, numbered from 0.
#[derive(Clone, Copy, PartialEq, Eq, PartialOrd, Ord)]
pub struct Block(pub u32);

/// What a block is kept for.
#[derive(Clone, Copy, PartialEq, Eq)]
pub enum BlockState {
    /// Kept for the collector.
    Spare,
    /// All blank.
    Clean,
    /// Programmed in this session, with a blank tail.
    Part,
    /// No more programs go there.
    Shut,
}

/// The numbers of a device.
#[derive(Clone, Copy, PartialEq, Eq)]
pub struct Config {
    pub protocol: Protocol,
    /// Bytes of contents of a page.
    pub page_bytes: u32,
    /// Slots of a block.
    pub pages_per_block: u32,
    /// Blocks of a die.
    pub blocks_per_die: u32,
    /// Dies of the flash.
    pub dies: u32,
    /// Logical pages.
    pub logical: u32,
    /// Pages that may be pending in open transactions at once.
    pub pending: u32,
}

/// The numbers of a flash.
#[derive(Clone, Copy, PartialEq, Eq)]
pub struct Shape {
    /// Bytes of contents of a slot.
    pub page_bytes: u32,
    /// Slots of a block.
    pub pages_per_block: u32,
    /// Blocks of a die.
    pub blocks_per_die: u32,
    /// Dies of the flash.
    pub dies: u32,
}

/// The first rule that a configuration breaks.
#[derive(Clone, Copy, Debug, PartialEq, Eq, Error)]
pub enum ConfigError {
    /// The bytes of a page are a multiple of 16, from 16 to 4096.
    #[error("page")]
    Page,
    /// A block has from 2 to 256 slots.
    #[error("pages")]
    Pages,
    /// A die has from 1 to 32768 blocks.
    #[error("blocks")]
    Blocks,
    /// There are from 1 to 16 dies.
    #[error("dies")]
    Dies,
    /// There are at most 65536 slots, and an image file has at most 134217728 bytes.
    #[error("slots")]
    Slots,
    /// There is a logical page.
    #[error("logical")]
    Logical,
    /// From 1 to 256 pages may be pending.
    #[error("pending")]
    Pending,
    /// The blocks but one have more slots than there are logical and pending pages.
    #[error("space")]
    Space,
}

/// The most slots of a flash.
const MAX_SLOTS: u64 = 65536;

/// The most bytes of an image file.
const MAX_IMAGE_BYTES: u64 = 134217728;

impl Config {
    /// The shape of the flash, or the first rule that the numbers break, in the order of `ConfigError`.
    pub fn check(self) -> Result<Shape, ConfigError>
        ensures exact { result ≡ checked self }
        ensures shape { IfOk result IsShape }
        ensures bounds { OnOk result (IsConfig self) }
    {
        if self.page_bytes < 16 || self.page_bytes > 4096 || !self.page_bytes.is_multiple_of(16) {
            return Err(ConfigError::Page);
        }
        if self.pages_per_block < 2 || self.pages_per_block > 256 {
            return Err(ConfigError::Pages);
        }
        if self.blocks_per_die < 1 || self.blocks_per_die > 32768 {
            return Err(ConfigError::Blocks);
        }
        if self.dies < 1 || self.dies > 16 {
            return Err(ConfigError::Dies);
        }
        let blocks = u64::from(self.blocks_per_die) * u64::from(self.dies);
        let slots = u64::from(self.pages_per_block) * blocks;
        if slots > MAX_SLOTS || 64 + slots * (65 + u64::from(self.page_bytes)) > MAX_IMAGE_BYTES {
            return Err(ConfigError::Slots);
        }
        if self.logical < 1 {
            return Err(ConfigError::Logical);
        }
        if self.pending < 1 || self.pending > 256 {
            return Err(ConfigError::Pending);
        }
        let wanted = u64::from(self.logical) + u64::from(self.pending) + 1;
        if wanted > (blocks - 1) * u64::from(self.pages_per_block) {
            return Err(ConfigError::Space);
        }
        Ok(Shape {
            page_bytes: self.page_bytes,
            pages_per_block: self.pages_per_block,
            blocks_per_die: self.blocks_per_die,
            dies: self.dies,
        })
    }
}

impl Shape {
    /// The number of slots of the whole flash.
    pub fn slots(self) -> u32
        requires { IsShape self }
        ensures { result ≡ slots_of self }
    {
        self.pages_per_block * self.blocks()
    }

    /// The number of blocks of the whole flash.
    pub fn blocks(self) -> u32
        requires { IsShape self }
        ensures { result ≡ blocks_of self }
    {
        self.blocks_per_die * self.dies
    }

    /// The block that a slot lies in.
    #[inline]
    pub fn block_of(self, slot: Slot) -> Block
        requires { 0 < self.pages_per_block }
        ensures { result.0 ≡ slot.0 / self.pages_per_block }
    {
        Block(slot.0 / self.pages_per_block)
    }

    /// The first slot of a block.
    #[inline]
    pub fn first_slot(self, block: Block) -> Slot
        requires { block.0 * self.pages_per_block < 2 ^ 32 }
        ensures { result.0 ≡ block.0 * self.pages_per_block }
    {
        Slot(block.0 * self.pages_per_block)
    }
}
