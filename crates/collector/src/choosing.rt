ghost use Rattle.std.specs.Prelude.{◌≡◌, ◌<◌, ◌≤◌, Some};
ghost use Rattle.tx_types.specs.Config.{shape_of, blocks_of};
ghost use Rattle.collector.specs.Best.{IsBest, FindsAbove};
ghost use Rattle.collector.specs.Victim.{FindsVictim, garbage_in, is_shut};

use die_alloc::Blocks;
use record_list::CommitRule;
use tx_types::{Block, BlockState};
use version_index::Index;

/// The block outside the spare with the most garbage slots, the lowest of such blocks; None where
/// no slot outside the spare is garbage. This looks at each block, and is there for who builds on this crate: a
/// collection asks the index, which knows the block where the tables match.
pub fn victim<R: CommitRule>(index: &Index<R>, blocks: &Blocks) -> Option<Block>
    requires shape { blocks.now.shape ≡ shape_of index.now.config }
    requires spare { index.now.spare ≡ Some blocks.now.spare }
    ensures { FindsVictim index.now blocks.now result }
{
    let Ok(shape) = index.config().check() else {
        unreachable!();
    };
    let none = Best {
        block: None,
        garbage: 0,
    };
    best_from(index, blocks, none, 0, shape.blocks()).block
}

/// The block with the most garbage of those that were looked at, the lowest of such blocks, and how
/// much that is: no block where it is 0.
#[derive(Clone, Copy)]
struct Best {
    block: Option<Block>,
    garbage: u32,
}

/// The best of the blocks below `first` and those from there to `end`.
fn best_from<R: CommitRule>(
    index: &Index<R>,
    blocks: &Blocks,
    before: Best,
    first: u32,
    end: u32,
) -> Best
    requires shape { blocks.now.shape ≡ shape_of index.now.config }
    requires exist { end ≤ blocks_of (shape_of index.now.config) }
    requires order { first ≤ end }
    requires before { IsBest index.now blocks.now first before }
    ensures { IsBest index.now blocks.now end result }
{
    let mut best = before;
    let mut from = first;
    while let Some(block) = first_above(index, blocks, from, end, best.garbage) {
        best = Best {
            block: Some(block),
            garbage: garbage_in(index, blocks, block),
        };
        from = block.0 + 1;
    }
    best
}

/// The first of the blocks from `first` to `end` that has more garbage than so much.
fn first_above<R: CommitRule>(
    index: &Index<R>,
    blocks: &Blocks,
    first: u32,
    end: u32,
    garbage: u32,
) -> Option<Block>
    requires shape { blocks.now.shape ≡ shape_of index.now.config }
    requires exist { end ≤ blocks_of (shape_of index.now.config) }
    ensures { FindsAbove index.now blocks.now first end garbage result }
{
    for block in first..end {
        if garbage_in(index, blocks, Block(block)) > garbage {
            return Some(Block(block));
        }
    }
    None
}

/// The number of garbage slots of a block, among them its blank ones where no more programs go
/// there.
fn garbage_in<R: CommitRule>(index: &Index<R>, blocks: &Blocks, block: Block) -> u32
    requires shape { blocks.now.shape ≡ shape_of index.now.config }
    requires exists { block.0 < blocks_of (shape_of index.now.config) }
    ensures { result ≡ garbage_in index.now blocks.now block.0 }
{
    index.garbage(block, is_shut(blocks.state(block)))
}

/// Whether no more programs go to a block of this state.
fn is_shut(state: BlockState) -> bool
    ensures { result ≡ is_shut state }
{
    match state {
        BlockState::Shut => true,
        BlockState::Spare | BlockState::Clean | BlockState::Part => false,
    }
}
