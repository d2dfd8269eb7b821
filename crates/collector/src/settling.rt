ghost use Rattle.collector.specs.Settling.{CanSettle, Finds};
ghost use Rattle.collector.specs.StoreParts.{store_parts};

use crate::{Settled, Unsure};
use die_alloc::Blocks;
use flash_model::{Broken, Flash, Seen};
use record_list::CommitRule;
use tx_types::{Rec, Slot};
use version_index::Index;

/// Finds out whether the record of an open transaction is in its slot.
pub(crate) fn settle_own<F: Flash, R: CommitRule>(
    flash: &mut F,
    index: &mut Index<R>,
    blocks: &mut Blocks,
    room: &mut [u8],
    at: Slot,
    rec: Rec,
) -> Result<Settled, Broken>
    requires { CanSettle R.protocol (store_parts (F.state flash.old) index.old blocks.old
        (Unsure.Own at rec)) room.old }
    ensures { Finds (store_parts (F.state flash.old) index.old blocks.old (Unsure.Own at rec))
        (F.state flash.new) index.new blocks.new result }
{
    let mut spare_area = [0; 64];
    match flash.read(at, room, &mut spare_area)? {
        Seen::Blank => Ok(Settled::Missing),
        Seen::Damaged => {
            index.note_damaged(at);
            blocks.note_used(at);
            Ok(Settled::Missing)
        }
        Seen::Complete => {
            index.note_program(at, rec);
            blocks.note_used(at);
            Ok(Settled::Present)
        }
    }
}

/// Finds out whether a copy is in its slot of the spare.
pub(crate) fn settle_copy<F: Flash, R: CommitRule>(
    flash: &mut F,
    index: &mut Index<R>,
    blocks: &Blocks,
    room: &mut [u8],
    from: Slot,
    to: Slot,
) -> Result<Settled, Broken>
    requires { CanSettle R.protocol (store_parts (F.state flash.old) index.old blocks.now
        (Unsure.Copy from to)) room.old }
    ensures { Finds (store_parts (F.state flash.old) index.old blocks.now (Unsure.Copy from to))
        (F.state flash.new) index.new blocks.now result }
{
    let mut spare_area = [0; 64];
    match flash.read(to, room, &mut spare_area)? {
        Seen::Blank => {}
        Seen::Damaged => index.note_damaged(to),
        Seen::Complete => index.note_copy(from, to),
    }
    Ok(Settled::Other)
}
