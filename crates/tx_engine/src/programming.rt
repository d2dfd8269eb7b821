ghost use Rattle.collector.specs.StoreParts.{IsSure, store_parts};
ghost use Rattle.tx_engine.specs.StoreState.{CanWrite, WritesOwn};

use collector::Unsure;
use die_alloc::Blocks;
use flash_model::{Broken, Flash};
use page_record::write_spare;
use record_list::CommitRule;
use tx_types::{Rec, Slot};
use version_index::Index;

/// Programs a record with its page's bytes in the first free slot of a block, and notes it. After a
/// broken program it is not known what the slot holds.
pub(crate) fn write_record<F: Flash, R: CommitRule>(
    flash: &mut F,
    index: &mut Index<R>,
    blocks: &mut Blocks,
    unsure: &mut Unsure,
    at: Slot,
    rec: Rec,
    bytes: &[u8],
) -> Result<(), Broken>
    requires sure { IsSure R.protocol (store_parts (F.state flash.old) index.old blocks.old unsure.old) }
    requires can { CanWrite (store_parts (F.state flash.old) index.old blocks.old unsure.old)
        at rec bytes.now }
    ensures { WritesOwn (store_parts (F.state flash.old) index.old blocks.old unsure.old)
        (store_parts (F.state flash.new) index.new blocks.new unsure.new) at rec bytes.now result }
{
    let mut spare_area = [0; 64];
    write_spare(rec, index.config().protocol, &mut spare_area);
    if let Err(broken) = flash.program(at, bytes, &spare_area) {
        *unsure = Unsure::Own { at, rec };
        return Err(broken);
    }
    index.note_program(at, rec);
    blocks.note_used(at);
    Ok(())
}
