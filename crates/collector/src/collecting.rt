ghost use Rattle.std.specs.Prelude.{◌≡◌, ◌≢◌, ◌*◌, ◌<◌, length};
ghost use Rattle.tx_types.specs.Config.{shape_of, blocks_of};
ghost use Rattle.collector.specs.Calls.{CanCollect, Collects, CollectsClean, CopiesNeeded};
ghost use Rattle.collector.specs.Matches.{IsNextOfSpare};
ghost use Rattle.collector.specs.StoreParts.{IsSure, store_parts};

use crate::Unsure;
use crate::cleaning::clean_spare;
use crate::copying::copy_record;
use crate::erasing::erase_victim;
use die_alloc::Blocks;
use flash_model::{Broken, Flash};
use record_list::CommitRule;
use tx_types::{Block, Slot};
use version_index::Index;

/// Collects a block: makes the spare blank, copies there what is needed in the block, in the order
/// of slots, and erases the block, which becomes the spare. A copy reads its source directly before
/// its program, and nothing else is read.
pub fn collect<F: Flash, R: CommitRule>(
    flash: &mut F,
    index: &mut Index<R>,
    blocks: &mut Blocks,
    unsure: &mut Unsure,
    room: &mut [u8],
    block: Block,
) -> Result<(), Broken>
    requires sure { IsSure R.protocol (store_parts (F.state flash.old) index.old blocks.old unsure.old) }
    requires can { CanCollect index.old blocks.old block.0 }
    requires room { length room.old ≡ index.old.config.page_bytes }
    ensures { Collects R.protocol (store_parts (F.state flash.old) index.old blocks.old unsure.old)
        (store_parts (F.state flash.new) index.new blocks.new unsure.new) block.0 result }
{
    clean_spare(flash, index, blocks, unsure)?;
    collect_clean(flash, index, blocks, unsure, room, block)
}

/// Collects a block where the spare is blank. A collection of a given block and one of the victim both go on here, so
/// that nothing is cleaned twice.
pub(crate) fn collect_clean<F: Flash, R: CommitRule>(
    flash: &mut F,
    index: &mut Index<R>,
    blocks: &mut Blocks,
    unsure: &mut Unsure,
    room: &mut [u8],
    block: Block,
) -> Result<(), Broken>
    requires sure { IsSure R.protocol (store_parts (F.state flash.old) index.old blocks.old unsure.old) }
    requires exists { block.0 < blocks_of (shape_of index.old.config) }
    requires not_spare { block.0 ≢ blocks.old.spare }
    requires blank { IsNextOfSpare index.old blocks.old.spare
        (blocks.old.spare * index.old.config.pages_per_block) }
    requires room { length room.old ≡ index.old.config.page_bytes }
    ensures { CollectsClean R.protocol (store_parts (F.state flash.old) index.old blocks.old unsure.old)
        (store_parts (F.state flash.new) index.new blocks.new unsure.new) block result }
{
    let used = copy_needed(flash, index, blocks, unsure, room, block)?;
    erase_victim(flash, index, blocks, unsure, block, used)
}

/// Copies what is needed in a block to the blank spare, from its first slot on and in the order of slots, and returns
/// how many slots that takes.
#[inline(always)]
pub(crate) fn copy_needed<F: Flash, R: CommitRule>(
    flash: &mut F,
    index: &mut Index<R>,
    blocks: &Blocks,
    unsure: &mut Unsure,
    room: &mut [u8],
    block: Block,
) -> Result<u32, Broken>
    requires sure { IsSure R.protocol (store_parts (F.state flash.old) index.old blocks.now unsure.old) }
    requires exists { block.0 < blocks_of (shape_of index.old.config) }
    requires not_spare { block.0 ≢ blocks.now.spare }
    requires blank { IsNextOfSpare index.old blocks.now.spare
        (blocks.now.spare * index.old.config.pages_per_block) }
    requires room { length room.old ≡ index.old.config.page_bytes }
    ensures { CopiesNeeded R.protocol (store_parts (F.state flash.old) index.old blocks.now unsure.old)
        (store_parts (F.state flash.new) index.new blocks.now unsure.new) block.0 result }
{
    let pages = index.config().pages_per_block;
    let first = block.0 * pages;
    let start = blocks.spare().0 * pages;
    let mut used = 0;
    for at in first..first + pages {
        if index.needed(Slot(at)) {
            copy_record(
                flash,
                index,
                blocks,
                unsure,
                room,
                Slot(at),
                Slot(start + used),
            )?;
            used += 1;
        }
    }
    Ok(used)
}
