ghost use Rattle.collector.specs.Calls.{CanErase, ErasesVictim};
ghost use Rattle.collector.specs.StoreParts.{IsSure, store_parts};

use crate::Unsure;
use crate::swapping::swap_spare;
use die_alloc::Blocks;
use flash_model::{Broken, Flash};
use record_list::CommitRule;
use tx_types::Block;
use version_index::Index;

/// Erases a block whose needed records were copied to the spare, of which this many slots are used: the block is the
/// spare then, and more programs may go to the old one.
pub(crate) fn erase_victim<F: Flash, R: CommitRule>(
    flash: &mut F,
    index: &mut Index<R>,
    blocks: &mut Blocks,
    unsure: &mut Unsure,
    block: Block,
    used: u32,
) -> Result<(), Broken>
    requires sure { IsSure R.protocol (store_parts (F.state flash.old) index.old blocks.old unsure.old) }
    requires can { CanErase index.old blocks.old block.0 used }
    ensures { ErasesVictim R.protocol
        (store_parts (F.state flash.old) index.old blocks.old unsure.old)
        (store_parts (F.state flash.new) index.new blocks.new unsure.new) block used result }
{
    if let Err(broken) = flash.erase(block) {
        *unsure = Unsure::VictimErase { block };
        return Err(broken);
    }
    index.note_erased(block);
    swap_spare(index, blocks, block, used);
    Ok(())
}
