ghost use Rattle.std.specs.Prelude.{◌≡◌, ◌≢◌, ◌<◌, ◌≤◌};
ghost use Rattle.tx_types.specs.Config.{shape_of, blocks_of};
ghost use Rattle.judged_records.specs.IndexState.{with_spare};
ghost use Rattle.die_alloc.specs.BlocksState.{IsBlocksState, MayHave, table_with_spare};
ghost use Rattle.collector.specs.Collecting.{swapped, open_state};

use die_alloc::Blocks;
use record_list::CommitRule;
use tx_types::{Block, BlockState};
use version_index::Index;

/// Makes a block the spare. The first `used` slots of the old spare are used, and more programs may go there where some
/// are not.
#[inline(always)]
pub(crate) fn swap_spare<R: CommitRule>(
    index: &mut Index<R>,
    blocks: &mut Blocks,
    block: Block,
    used: u32,
)
    requires shape { blocks.old.shape ≡ shape_of index.old.config }
    requires exists { block.0 < blocks_of (shape_of index.old.config) }
    requires not_spare { block.0 ≢ blocks.old.spare }
    requires within { used ≤ index.old.config.pages_per_block }
    ensures noted { index.new ≡ with_spare index.old block.0 }
    ensures blocks { blocks.new ≡ swapped blocks.old block.0 used }
    ensures between { IsBlocksState (table_with_spare blocks.old block.0) }
    ensures table { IsBlocksState blocks.new }
{
    let pages = index.config().pages_per_block;
    index.set_spare(block);
    blocks.swap_spare(block, open_state(pages, used), used);
}

/// The state of a block with this many slots of which this many first ones are used.
fn open_state(pages: u32, used: u32) -> BlockState
    requires { used ≤ pages }
    ensures state { result ≡ open_state pages used }
    ensures fits { MayHave pages result used }
    ensures no_spare { result ≢ BlockState.Spare }
{
    if used == 0 {
        BlockState::Clean
    } else if used == pages {
        BlockState::Shut
    } else {
        BlockState::Part
    }
}
