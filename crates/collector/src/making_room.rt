ghost use Rattle.std.specs.Prelude.{◌≡◌, ◌≢◌, ◌<◌, List, Some, None, Ok, IfOk, length, false};
ghost use Rattle.std.specs.Result.{is_err};
ghost use Rattle.tx_types.specs.Config.{shape_of, blocks_of};
ghost use Rattle.tx_types.specs.declared.record.Link.{Link};
ghost use Rattle.judged_records.specs.IndexState.{block_to_go};
ghost use Rattle.die_alloc.specs.BlocksState.{IsFull};
ghost use Rattle.die_alloc.specs.NextSlot.{next_slot, after_next_slot};
ghost use Rattle.collector.specs.Calls.{EvictsBlocksToGo, CollectsVictim, AllocatesSlot, Evicts};
ghost use Rattle.collector.specs.Collecting.{HasUnneeded};
ghost use Rattle.collector.specs.Going.{IsNextName};
ghost use Rattle.collector.specs.StoreParts.{IsSure, store_parts};

use crate::cleaning::clean_spare;
use crate::collecting::{collect, collect_clean};
use crate::{BlockBuffer, Unsure};
use die_alloc::Blocks;
use flash_model::{Broken, Flash};
use record_list::CommitRule;
use tx_types::{Block, Slot};
use version_index::Index;

/// Evicts each block that holds a record which must go before the version `below` of a page is programmed, the lowest
/// first: erases it where it is the spare, and else collects it. Then there is none.
pub fn evict_blocks_to_go<F: Flash, R: CommitRule>(
    flash: &mut F,
    index: &mut Index<R>,
    blocks: &mut Blocks,
    unsure: &mut Unsure,
    room: &mut [u8],
    going: &mut BlockBuffer,
    page: u32,
    below: u64,
) -> Result<(), Broken>
    requires sure { IsSure R.protocol (store_parts (F.state flash.old) index.old blocks.old unsure.old) }
    requires next { (names : List Link) × IsNextName index.old names
        (record { page = page; version = below }) }
    requires room { length room.old ≡ index.old.config.page_bytes }
    ensures clears { EvictsBlocksToGo R.protocol
        (store_parts (F.state flash.old) index.old blocks.old unsure.old)
        (store_parts (F.state flash.new) index.new blocks.new unsure.new) page below result }
    // Where nothing must go, nothing is done.
    ensures idle { block_to_go index.old page below ≡ None →
        (result ≡ Ok tt) × (flash.new ≡ flash.old)
        × (index.new ≡ index.old) × (blocks.new ≡ blocks.old) × (unsure.new ≡ unsure.old) }
{
    if index.must_go(page, below).is_none() {
        return Ok(());
    }
    index.blocks_to_go(page, below, &mut going.blocks);
    for block in going.blocks.iter() {
        // The spare may have been made blank meanwhile.
        if index.is_going(page, below, *block) {
            evict_block(flash, index, blocks, unsure, room, *block)?;
        }
    }
    Ok(())
}

/// Treats a block that holds a record which must go: erases it where it is the spare, and else
/// collects it.
fn evict_block<F: Flash, R: CommitRule>(
    flash: &mut F,
    index: &mut Index<R>,
    blocks: &mut Blocks,
    unsure: &mut Unsure,
    room: &mut [u8],
    block: Block,
) -> Result<(), Broken>
    requires sure { IsSure R.protocol (store_parts (F.state flash.old) index.old blocks.old unsure.old) }
    requires exists { block.0 < blocks_of (shape_of index.old.config) }
    requires unneeded { block.0 ≢ blocks.old.spare → HasUnneeded index.old block.0 }
    requires room { length room.old ≡ index.old.config.page_bytes }
    ensures { Evicts R.protocol (store_parts (F.state flash.old) index.old blocks.old unsure.old)
        (store_parts (F.state flash.new) index.new blocks.new unsure.new) block.0 result }
{
    if block.0 == blocks.spare().0 {
        clean_spare(flash, index, blocks, unsure)
    } else {
        collect(flash, index, blocks, unsure, room, block)
    }
}

/// The slot that is programmed next. Where no block has room the spare is made blank and the block
/// with the most garbage is collected first: so there is such a slot.
pub fn allocate_slot<F: Flash, R: CommitRule>(
    flash: &mut F,
    index: &mut Index<R>,
    blocks: &mut Blocks,
    unsure: &mut Unsure,
    room: &mut [u8],
) -> Result<Slot, Broken>
    requires sure { IsSure R.protocol (store_parts (F.state flash.old) index.old blocks.old unsure.old) }
    requires next { (names : List Link) × (name : Link) × IsNextName index.old names name }
    requires room { length room.old ≡ index.old.config.page_bytes }
    ensures finds { AllocatesSlot R.protocol
        (store_parts (F.state flash.old) index.old blocks.old unsure.old)
        (store_parts (F.state flash.new) index.new blocks.new unsure.new) result }
    // A block that has room serves at once, and only the cursor moves.
    ensures direct { (IsFull blocks.old → ⊥) → IfOk result (λ at. Some at ≡ next_slot blocks.old)
        × (blocks.new ≡ after_next_slot blocks.old) × (is_err result ≡ false)
        × (flash.new ≡ flash.old) × (index.new ≡ index.old) × (unsure.new ≡ unsure.old) }
{
    if let Some(at) = blocks.next_slot() {
        return Ok(at);
    }
    // There is garbage where no block has room.
    let _collected = collect_victim(flash, index, blocks, unsure, room)?;
    let Some(at) = blocks.next_slot() else {
        unreachable!();
    };
    Ok(at)
}

/// Makes the spare blank, and collects the block with the most garbage: whether there is any. The block is chosen once
/// the spare is blank: a loose record that stands in the spare alone may hold others, which are garbage once it is
/// gone.
pub fn collect_victim<F: Flash, R: CommitRule>(
    flash: &mut F,
    index: &mut Index<R>,
    blocks: &mut Blocks,
    unsure: &mut Unsure,
    room: &mut [u8],
) -> Result<bool, Broken>
    requires sure { IsSure R.protocol (store_parts (F.state flash.old) index.old blocks.old unsure.old) }
    requires room { length room.old ≡ index.old.config.page_bytes }
    ensures { CollectsVictim R.protocol (store_parts (F.state flash.old) index.old blocks.old unsure.old)
        (store_parts (F.state flash.new) index.new blocks.new unsure.new) result }
{
    clean_spare(flash, index, blocks, unsure)?;
    let Some(chosen) = index.most_garbage_now() else {
        return Ok(false);
    };
    collect_clean(flash, index, blocks, unsure, room, chosen)?;
    Ok(true)
}
