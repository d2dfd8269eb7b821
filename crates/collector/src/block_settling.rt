ghost use Rattle.std.specs.Prelude.{◌≡◌, ◌<◌, if◌then◌else◌};
ghost use Rattle.tx_types.specs.Config.{shape_of, blocks_of};
ghost use Rattle.judged_records.specs.IndexState.{erased, lost};
ghost use Rattle.collector.specs.Matches.{CanSpare};
ghost use Rattle.collector.specs.Settling.{CanSettle, Finds, count_records};
ghost use Rattle.collector.specs.StoreParts.{store_parts};

use crate::reading::{read_block, reads_alike};
use crate::swapping::swap_spare;
use crate::{Settled, Unsure};
use die_alloc::Blocks;
use flash_model::{Broken, Flash, Seen};
use record_list::CommitRule;
use tx_types::{Block, Slot};
use version_index::Index;

/// Finds out whether the spare was erased: it is as before, or all its slots are blank, or all are
/// damaged. Each slot is read, even if the first one tells enough: so the number of reads is a function of the place.
pub(crate) fn settle_spare<F: Flash, R: CommitRule>(
    flash: &mut F,
    index: &mut Index<R>,
    blocks: &Blocks,
    room: &mut [u8],
) -> Result<Settled, Broken>
    requires { CanSettle R.protocol (store_parts (F.state flash.old) index.old blocks.now
        Unsure.SpareErase) room.old }
    ensures { Finds (store_parts (F.state flash.old) index.old blocks.now Unsure.SpareErase)
        (F.state flash.new) index.new blocks.now result }
{
    let spare = blocks.spare();
    let reading = read_block(flash, index, room, spare)?;
    if !reading.as_noted {
        note_change(index, spare, reading.blank);
    }
    Ok(Settled::Other)
}

/// Finds out whether a collected block was erased: it is as before, or all its slots are blank, or
/// all are damaged. Where it is not as before it is the spare, and more programs may go to the old
/// one.
pub(crate) fn settle_victim<F: Flash, R: CommitRule>(
    flash: &mut F,
    index: &mut Index<R>,
    blocks: &mut Blocks,
    room: &mut [u8],
    block: Block,
) -> Result<Settled, Broken>
    requires { CanSettle R.protocol (store_parts (F.state flash.old) index.old blocks.old
        (Unsure.VictimErase block)) room.old }
    ensures { Finds (store_parts (F.state flash.old) index.old blocks.old (Unsure.VictimErase block))
        (F.state flash.new) index.new blocks.new result }
{
    let reading = read_block(flash, index, room, block)?;
    if !reading.as_noted {
        let used = count_records(index, blocks.spare());
        note_change(index, block, reading.blank);
        swap_spare(index, blocks, block, used);
    }
    Ok(Settled::Other)
}

/// Notes of a block whose erase changed it that it is blank, or else lost.
fn note_change<R: CommitRule>(index: &mut Index<R>, block: Block, blank: bool)
    requires exists { block.0 < blocks_of (shape_of index.old.config) }
    requires spared { CanSpare index.old block.0 }
    ensures { index.new ≡ (if blank then erased index.old block.0 else lost index.old block.0) }
{
    if blank {
        index.note_erased(block);
    } else {
        index.note_lost(block);
    }
}

/// How many slots of a block hold records.
fn count_records<R: CommitRule>(index: &Index<R>, block: Block) -> u32
    requires exists { block.0 < blocks_of (shape_of index.now.config) }
    ensures { result ≡ count_records index.now block.0 }
{
    let pages = index.config().pages_per_block;
    let first = block.0 * pages;
    let mut count = 0;
    for at in first..first + pages {
        if reads_alike(index.seen(Slot(at)), Seen::Complete) {
            count += 1;
        }
    }
    count
}
