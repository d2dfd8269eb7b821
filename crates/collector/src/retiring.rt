ghost use Rattle.std.specs.Prelude.{◌≡◌, ◌<◌, length};
ghost use Rattle.tx_types.specs.Config.{shape_of, blocks_of};
ghost use Rattle.flash_model.specs.Retiring.{MayRetire};
ghost use Rattle.collector.specs.Calls.{CanErase};
ghost use Rattle.collector.specs.Retiring.{RetiresBlock, RetiresSpare, RetiresVictim};
ghost use Rattle.collector.specs.StoreParts.{IsSure, store_parts};

use crate::Unsure;
use crate::cleaning::clean_spare;
use crate::collecting::copy_needed;
use crate::swapping::swap_spare;
use die_alloc::Blocks;
use flash_model::{Broken, Retire};
use record_list::CommitRule;
use tx_types::Block;
use version_index::Index;

/// Replaces a block by a fresh one: makes the spare blank, copies there what is needed in the block,
/// in the order of slots, and retires the block, which becomes the spare. The spare is retired at
/// once.
pub fn retire_block<F: Retire, R: CommitRule>(
    flash: &mut F,
    index: &mut Index<R>,
    blocks: &mut Blocks,
    unsure: &mut Unsure,
    room: &mut [u8],
    block: Block,
) -> Result<(), Broken>
    requires sure { IsSure R.protocol (store_parts (F.state flash.old) index.old blocks.old unsure.old) }
    requires exists { block.0 < blocks_of (shape_of index.old.config) }
    requires left { MayRetire (F.state flash.old) }
    requires room { length room.old ≡ index.old.config.page_bytes }
    ensures { RetiresBlock R.protocol
        (store_parts (F.state flash.old) index.old blocks.old unsure.old)
        (store_parts (F.state flash.new) index.new blocks.new unsure.new) block.0 result }
{
    if block.0 == blocks.spare().0 {
        return retire_spare(flash, index, blocks, unsure);
    }
    clean_spare(flash, index, blocks, unsure)?;
    let used = copy_needed(flash, index, blocks, unsure, room, block)?;
    retire_victim(flash, index, blocks, unsure, block, used)
}

/// Retires the spare: it is all blank then. After a broken call it is not known what it holds.
fn retire_spare<F: Retire, R: CommitRule>(
    flash: &mut F,
    index: &mut Index<R>,
    blocks: &Blocks,
    unsure: &mut Unsure,
) -> Result<(), Broken>
    requires sure { IsSure R.protocol (store_parts (F.state flash.old) index.old blocks.now unsure.old) }
    requires left { MayRetire (F.state flash.old) }
    ensures { RetiresSpare R.protocol
        (store_parts (F.state flash.old) index.old blocks.now unsure.old)
        (store_parts (F.state flash.new) index.new blocks.now unsure.new) result }
{
    let spare = blocks.spare();
    if let Err(broken) = flash.retire(spare) {
        *unsure = Unsure::SpareErase;
        return Err(broken);
    }
    index.note_erased(spare);
    Ok(())
}

/// Retires a block whose needed records were copied to the spare, of which this many slots are used: the block is the
/// spare then, and more programs may go to the old one where it has room.
fn retire_victim<F: Retire, R: CommitRule>(
    flash: &mut F,
    index: &mut Index<R>,
    blocks: &mut Blocks,
    unsure: &mut Unsure,
    block: Block,
    used: u32,
) -> Result<(), Broken>
    requires sure { IsSure R.protocol (store_parts (F.state flash.old) index.old blocks.old unsure.old) }
    requires can { CanErase index.old blocks.old block.0 used }
    requires left { MayRetire (F.state flash.old) }
    ensures { RetiresVictim R.protocol
        (store_parts (F.state flash.old) index.old blocks.old unsure.old)
        (store_parts (F.state flash.new) index.new blocks.new unsure.new) block used result }
{
    if let Err(broken) = flash.retire(block) {
        *unsure = Unsure::VictimErase { block };
        return Err(broken);
    }
    index.note_erased(block);
    swap_spare(index, blocks, block, used);
    Ok(())
}
