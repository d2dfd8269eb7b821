ghost use Rattle.std.specs.Prelude.{◌≡◌, ◌<◌, ◌^◌, ◌/◌, ◌%◌, [], IfOk, length, slice_set, slice_index_or};
ghost use Rattle.tx_types.specs.Config.{IsShape, blocks_of};
ghost use Rattle.die_alloc.specs.Ranks.{rank_of, AreRanksOf, AreRanks};

use crate::block_use::BlockUse;
use crate::die_ranks::DieRanks;
use dense_tables::{MaxTree, Reciprocal};
use std::alloc::Global;
use tx_types::{BlockState, Memory, Shape};

/// The rank of a block of this state in the order in which the blocks of a die are taken: first one
/// with a blank tail, then a clean one. A block without room has rank 0. So the next block is the first of the greatest
/// rank, which is found without looking at all of them.
fn rank(state: BlockState) -> u32
    ensures { result ≡ rank_of state }
{
    match state {
        BlockState::Part => 2,
        BlockState::Clean => 1,
        BlockState::Spare | BlockState::Shut => 0,
    }
}

/// The ranks of the blocks of each die.
pub fn ranks(alloc: Global, shape: Shape, blocks: &[BlockUse]) -> Result<Vec<DieRanks>, Memory>
    requires shape { IsShape shape }
    requires blocks { length blocks.now ≡ blocks_of shape }
    ensures { IfOk result (λ ranks. AreRanks shape blocks.now ranks.items) }
{
    let size = shape.blocks_per_die as usize;
    let mut all = Vec::new(alloc);
    for die in 0..shape.dies as usize {
        let first = die * size;
        all.push(die_ranks(alloc, &blocks[first..first + size])?)?;
    }
    Ok(all)
}

/// The ranks of the blocks of a die.
fn die_ranks(alloc: Global, blocks: &[BlockUse]) -> Result<DieRanks, Memory>
    requires { length blocks.now < 2 ^ 32 }
    ensures { IfOk result (AreRanksOf blocks.now) }
{
    let mut ranks = MaxTree::new(alloc, blocks.len())?;
    for (place, block) in blocks.iter().enumerate() {
        let rank = rank(block.state);
        if rank > 0 {
            ranks.set(place, rank);
        }
    }
    Ok(DieRanks::new(ranks))
}

/// Keeps this of a block, and its rank where that is another one. Mostly it is the same.
#[inline(always)]
pub fn keep(
    shape: Shape,
    die_blocks: &Reciprocal,
    blocks: &mut Vec<BlockUse>,
    ranks: &mut Vec<DieRanks>,
    block: u32,
    now: BlockUse,
)
    requires shape { IsShape shape }
    requires divisor { die_blocks.now ≡ shape.blocks_per_die }
    requires within { block < blocks_of shape }
    requires blocks { length blocks.old.items ≡ blocks_of shape }
    requires ranks { AreRanks shape blocks.old.items ranks.old.items }
    ensures blocks { blocks.new.items ≡ slice_set blocks.old.items block now }
    ensures ranks { AreRanks shape blocks.new.items ranks.new.items }
{
    let before = rank(blocks[block as usize].state);
    let after = rank(now.state);
    if after != before {
        let die = die_blocks.quotient(block);
        let place = block - die * shape.blocks_per_die;
        set_rank(ranks, die as usize, place as usize, after);
    }
    blocks[block as usize] = now;
}

/// Gives a block of a die another rank.
#[inline(never)]
fn set_rank(ranks: &mut Vec<DieRanks>, die: usize, place: usize, rank: u32)
    requires die { die < length ranks.old.items }
    requires place { place < length (slice_index_or ranks.old.items die []) }
    ensures { ranks.new.items
        ≡ slice_set ranks.old.items die (slice_set (slice_index_or ranks.old.items die []) place rank) }
{
    ranks[die].set(place, rank);
}
