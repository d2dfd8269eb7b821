ghost use Rattle.std.specs.Prelude.{◌≡◌, length};
ghost use Rattle.collector.specs.Calls.{CanCopy, CopiesRecord};
ghost use Rattle.collector.specs.StoreParts.{IsSure, store_parts};

use crate::Unsure;
use die_alloc::Blocks;
use flash_model::{Broken, Flash};
use record_list::CommitRule;
use tx_types::Slot;
use version_index::Index;

/// Copies the record of a slot to the next blank slot of the spare: reads it, and programs the same
/// bytes. A failed read changes nothing; after a broken program it is not known what the slot of
/// the copy holds.
#[inline(always)]
pub(crate) fn copy_record<F: Flash, R: CommitRule>(
    flash: &mut F,
    index: &mut Index<R>,
    blocks: &Blocks,
    unsure: &mut Unsure,
    room: &mut [u8],
    from: Slot,
    to: Slot,
) -> Result<(), Broken>
    requires sure { IsSure R.protocol (store_parts (F.state flash.old) index.old blocks.now unsure.old) }
    requires can { CanCopy index.old blocks.now from.0 to.0 }
    requires room { length room.old ≡ index.old.config.page_bytes }
    ensures { CopiesRecord R.protocol (store_parts (F.state flash.old) index.old blocks.now unsure.old)
        (store_parts (F.state flash.new) index.new blocks.now unsure.new) from to result }
{
    let mut spare_area = [0; 64];
    flash.read(from, room, &mut spare_area)?;
    if let Err(broken) = flash.program(to, room, &spare_area) {
        *unsure = Unsure::Copy { from, to };
        return Err(broken);
    }
    index.note_copy(from, to);
    Ok(())
}
