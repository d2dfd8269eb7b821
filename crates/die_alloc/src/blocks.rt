ghost use Rattle.std.specs.Prelude.{◌≡◌, ◌≢◌, ◌-◌, ◌*◌, ◌/◌, ◌%◌, ◌<◌, ◌≤◌, ◌↔◌, IfOk, IfSome, IfNone, IsNone};
ghost use Rattle.std.specs.List.{range_with_len};
ghost use Rattle.tx_types.specs.Config.{IsShape, slots_of, blocks_of};
ghost use Rattle.flash_model.specs.Operations.{die_of};
ghost use Rattle.die_alloc.specs.BlocksState.{IsBlocksState, MayHave, block_state, used_of, fresh_table, table_of_uses, with_slot, with_use, table_with_spare, HasRoom, IsFree, IsFirstFree, IsFull, IsFullIn};
ghost use Rattle.die_alloc.specs.NextSlot.{next_slot, next_slot_in, first_unused, next_block, open_block, die_after, after_next_slot, first_answer};

use crate::block_use::BlockUse;
use crate::die_ranks::DieRanks;
use crate::ranks::{keep, ranks};
use dense_tables::Reciprocal;
use std::alloc::Global;
use std::marker::Model;
use tx_types::{Block, BlockState, Memory, Shape, Slot};

/// What a device keeps of the blocks of its flash.
#[derive(Drop)]
pub struct Blocks {
    shape: Shape,
    /// The pages of a block, and the blocks of a die.
    pages: Reciprocal,
    die_blocks: Reciprocal,
    blocks: Vec<BlockUse>,
    spare: Block,
    /// The die at which the search for a slot begins.
    cursor: u32,
    /// Of each die the ranks of its blocks.
    ranks: Vec<DieRanks>,
}

impl Model for Blocks {
    ghost use Rattle.die_alloc.specs.BlocksState.{BlocksState};

    ghost Value = { BlocksState };

    ghost use Rattle.die_alloc.specs.Blocks.{table_of, BlocksInvariant};

    ghost view = { table_of };

    ghost invariant = { BlocksInvariant };
}

impl Blocks {
    /// All blocks of a flash of this shape are clean, and the last one is the spare. It is there for who builds
    /// on this crate: no program calls it.
    pub fn new(alloc: Global, shape: Shape) -> Result<Blocks, Memory>
        requires { IsShape shape }
        ensures fresh { IfOk result (λ b. b ≡ fresh_table shape) }
        ensures table { IfOk result IsBlocksState }
    {
        let last = shape.blocks() - 1;
        let mut blocks = vec![in alloc; BlockUse::CLEAN; shape.blocks() as usize]?;
        blocks[last as usize] = BlockUse::SPARE;
        Blocks::from_uses(alloc, shape, blocks, Block(last))
    }

    /// The blocks of a flash of this shape, by what is kept of each, with this spare. The search for a slot begins at
    /// the first die.
    pub fn from_uses(
        alloc: Global,
        shape: Shape,
        blocks: Vec<BlockUse>,
        spare: Block,
    ) -> Result<Blocks, Memory>
        requires { IsBlocksState (table_of_uses shape blocks.items spare.0) }
        ensures these { IfOk result (λ b. b ≡ table_of_uses shape blocks.items spare.0) }
        ensures table { IfOk result IsBlocksState }
    {
        let ranks = ranks(alloc, shape, &blocks)?;
        Ok(Blocks {
            shape,
            pages: Reciprocal::new(shape.pages_per_block),
            die_blocks: Reciprocal::new(shape.blocks_per_die),
            blocks,
            spare,
            cursor: 0,
            ranks,
        })
    }

    /// The slot that is programmed next. The search for the one after it begins at the next die. Where
    /// each block but the spare is shut there is none, and nothing changes.
    #[inline(always)]
    #[tactic(auto, using(crate::proofs::NextSlots::is_first_free_moved), unfolding(crate::specs::NextSlot::next_slot))]
    pub fn next_slot(&mut self) -> Option<Slot>
        ensures slot { result ≡ next_slot self.old }
        ensures cursor { self.new ≡ after_next_slot self.old }
        ensures free { IfSome result (λ at. IsFirstFree self.new at.0) }
        ensures full { IsNone result ↔ IsFull self.old }
        ensures unchanged { IfNone result (self.new ≡ self.old) }
        ensures table { IsBlocksState self.new }
    {
        let block = self.next_block()?;
        let at = self.first_unused(block);
        self.cursor = self.die_after(block);
        Some(at)
    }

    /// The slot of this die that is programmed next. Where each block of the die but the spare is shut there is
    /// none. The cursor stays, as all else.
    #[tactic(auto, unfolding(crate::specs::NextSlot::next_slot_in))]
    pub fn next_slot_in(&mut self, die: u32) -> Option<Slot>
        requires { die < self.old.shape.dies }
        ensures slot { result ≡ next_slot_in self.old die }
        ensures stays { self.new ≡ self.old }
        ensures free { IfSome result (λ at. IsFirstFree self.new at.0) }
        ensures die { IfSome result (λ at. die_of self.old.shape at.0 ≡ die) }
        ensures full { IsNone result ↔ IsFullIn self.old die }
        ensures table { IsBlocksState self.new }
    {
        let block = self.open_block(die)?;
        Some(self.first_unused(block))
    }

    /// The die after that of a block, in cyclic order.
    fn die_after(&self, block: u32) -> u32
        requires { block < blocks_of self.now.shape }
        ensures { result ≡ die_after self.now.shape block }
    {
        let next = self.die_blocks.quotient(block) + 1;
        if next < self.shape.dies { next } else { 0 }
    }

    /// The first slot of a block after its used ones.
    #[tactic(auto, using(crate::proofs::NextSlots::first_unused_is_free))]
    fn first_unused(&self, block: u32) -> Slot
        requires within { block < blocks_of self.now.shape }
        requires room { HasRoom self.now block }
        ensures slot { result ≡ first_unused self.now block }
        ensures free { IsFirstFree self.now result.0 }
    {
        let used = self.blocks[block as usize].used;
        Slot(self.shape.first_slot(Block(block)).0 + used)
    }

    /// The block that is programmed next.
    #[tactic(auto, using(crate::proofs::NextSlots::next_blocks))]
    fn next_block(&self) -> Option<u32>
        ensures block { result ≡ next_block self.now }
        ensures room { IfSome result (λ block.
            (block < blocks_of self.now.shape) × HasRoom self.now block) }
        ensures full { IsNone result ↔ IsFull self.now }
    {
        match self.first_open(self.cursor, self.shape.dies) {
            Some(block) => Some(block),
            None => self.first_open(0, self.cursor),
        }
    }

    /// The block with room in the first of these dies that has one.
    #[tactic(auto, using(crate::proofs::FirstAnswers::first_range))]
    fn first_open(&self, from: u32, to: u32) -> Option<u32>
        requires { to ≤ self.now.shape.dies }
        ensures { result ≡ first_answer (open_block self.now) (range_with_len from (to - from)) }
    {
        for die in from..to {
            if let Some(block) = self.open_block(die) {
                return Some(block);
            }
        }
        None
    }

    /// The block of a die that has room: the lowest of the greatest rank.
    fn open_block(&self, die: u32) -> Option<u32>
        requires { die < self.now.shape.dies }
        ensures block { result ≡ open_block self.now die }
        ensures table { IsBlocksState self.now }
    {
        let place = self.ranks[die as usize].first_greatest()?;
        Some(die * self.shape.blocks_per_die + place as u32)
    }

    /// What a block is kept for.
    pub fn state(&self, block: Block) -> BlockState
        requires { block.0 < blocks_of self.now.shape }
        ensures state { result ≡ block_state self.now block.0 }
        ensures table { IsBlocksState self.now }
    {
        self.blocks[block.0 as usize].state
    }

    /// How many of a block's first slots are used.
    pub fn used(&self, block: Block) -> u32
        requires { block.0 < blocks_of self.now.shape }
        ensures used { result ≡ used_of self.now block.0 }
        ensures table { IsBlocksState self.now }
    {
        self.blocks[block.0 as usize].used
    }

    /// The block that is kept for the collector.
    pub fn spare(&self) -> Block
        ensures spare { result.0 ≡ self.now.spare }
        ensures table { IsBlocksState self.now }
    {
        self.spare
    }

    /// The slots of a block up to this one are used. The block is shut where this is its last slot.
    pub fn note_used(&mut self, at: Slot)
        requires { IsFree self.old at.0 }
        ensures used { self.new ≡ with_slot self.old at.0 }
        ensures table { IsBlocksState self.new }
    {
        let block = self.pages.quotient(at.0);
        let used = at.0 - self.shape.first_slot(Block(block)).0 + 1;
        let state = if used == self.shape.pages_per_block {
            BlockState::Shut
        } else {
            BlockState::Part
        };
        let now = BlockUse { state, used };
        keep(
            self.shape,
            &self.die_blocks,
            &mut self.blocks,
            &mut self.ranks,
            block,
            now,
        );
    }

    /// Gives a block that is not the spare this state and this number of used slots. It is there for who builds
    /// on this crate: no program calls it.
    pub fn set(&mut self, block: Block, state: BlockState, used: u32)
        requires exists { block.0 < blocks_of self.old.shape }
        requires not_the_spare { block.0 ≢ self.old.spare }
        requires no_spare { state ≢ BlockState.Spare }
        requires fits { MayHave self.old.shape.pages_per_block state used }
        ensures set { self.new ≡ with_use self.old block.0 state used }
        ensures table { IsBlocksState self.new }
    {
        let now = BlockUse { state, used };
        keep(
            self.shape,
            &self.die_blocks,
            &mut self.blocks,
            &mut self.ranks,
            block.0,
            now,
        );
    }

    /// Makes a block the spare. The one that was it before, where it is another block, is clean. The spare has no used
    /// slots. It is there for who builds on this crate: no program calls it.
    pub fn make_spare(&mut self, block: Block)
        requires { block.0 < blocks_of self.old.shape }
        ensures spare { self.new ≡ table_with_spare self.old block.0 }
        ensures table { IsBlocksState self.new }
    {
        let (shape, old) = (self.shape, self.spare.0);
        keep(
            shape,
            &self.die_blocks,
            &mut self.blocks,
            &mut self.ranks,
            old,
            BlockUse::CLEAN,
        );
        keep(
            shape,
            &self.die_blocks,
            &mut self.blocks,
            &mut self.ranks,
            block.0,
            BlockUse::SPARE,
        );
        self.spare = block;
    }

    /// Makes a block the spare that is not, and gives the one that was it this state and this number of used slots.
    pub fn swap_spare(&mut self, block: Block, state: BlockState, used: u32)
        requires exists { block.0 < blocks_of self.old.shape }
        requires not_the_spare { block.0 ≢ self.old.spare }
        requires no_spare { state ≢ BlockState.Spare }
        requires fits { MayHave self.old.shape.pages_per_block state used }
        ensures exchanged { self.new
            ≡ with_use (table_with_spare self.old block.0) self.old.spare state used }
        ensures between { IsBlocksState (table_with_spare self.old block.0) }
        ensures table { IsBlocksState self.new }
    {
        let (shape, old) = (self.shape, self.spare.0);
        keep(
            shape,
            &self.die_blocks,
            &mut self.blocks,
            &mut self.ranks,
            old,
            BlockUse { state, used },
        );
        keep(
            shape,
            &self.die_blocks,
            &mut self.blocks,
            &mut self.ranks,
            block.0,
            BlockUse::SPARE,
        );
        self.spare = block;
    }
}
