ghost use Rattle.std.specs.Prelude.{◌≡◌, ◌+◌, ◌<◌, ◌≤◌, ◌^◌, ◌↔◌, length, replicate, slice_index, slice_set, sum, IfOk, IfSome, IsNone};
ghost use Rattle.std.specs.List.{All};
ghost use Rattle.dense_tables.specs.Greatest.{IsFirstGreatest};

use dense_tables::MaxTree;
use std::alloc::{AllocError, Global};
use std::marker::Model;
use tx_types::Block;

/// A number for each block, of which the greatest and the sum are known.
#[derive(Drop)]
pub struct BlockNumbers {
    numbers: MaxTree,
    sum: u32,
}

impl Model for BlockNumbers {
    ghost use Rattle.std.specs.Prelude.{ℕ, List};

    ghost Value = { List ℕ };

    ghost use Rattle.slot_tables.specs.BlockNumbers.{numbers_of, BlockNumbersInvariant};

    ghost view = { numbers_of };

    ghost invariant = { BlockNumbersInvariant };
}

impl BlockNumbers {
    /// All numbers are 0.
    pub fn new(alloc: Global, blocks: u32) -> Result<BlockNumbers, AllocError>
        ensures { IfOk result (λ t. t ≡ replicate blocks 0) }
    {
        Ok(BlockNumbers {
            numbers: MaxTree::for_changes(alloc, blocks as usize)?,
            sum: 0,
        })
    }

    /// The number of a block.
    pub fn get(&self, block: u32) -> u32
        requires { block < length self.now }
        ensures { result ≡ slice_index self.now block }
    {
        self.numbers.get(block as usize)
    }

    /// Gives a block another number.
    pub fn set(&mut self, block: u32, to: u32)
        requires block { block < length self.old }
        requires few { sum self.old + to < 2 ^ 32 }
        ensures numbers { self.new ≡ slice_set self.old block to }
        ensures few { sum self.new ≤ sum self.old + to }
    {
        let was = self.numbers.get(block as usize);
        if was == to {
            return;
        }
        self.sum = self.sum + to - was;
        self.numbers.set(block as usize, to);
    }

    /// The sum of all numbers.
    pub fn sum(&self) -> u32
        ensures { result ≡ sum self.now }
    {
        self.sum
    }

    /// The first block with the greatest number. Where all are 0 there is none.
    pub fn first_greatest(&self) -> Option<Block>
        ensures none { IsNone result ↔ All (λ x. x ≡ 0) self.now }
        ensures first { IfSome result (λ block. IsFirstGreatest self.now block.0) }
    {
        match self.numbers.first_greatest() {
            None => None,
            Some(block) => Some(Block(block as u32)),
        }
    }
}
