ghost use Rattle.collector.specs.Settling.{CanSettle, Finds, Settles};
ghost use Rattle.collector.specs.StoreParts.{store_parts};

use crate::block_settling::{settle_spare, settle_victim};
use crate::settling::{settle_copy, settle_own};
use crate::{Settled, Unsure};
use die_alloc::Blocks;
use flash_model::{Broken, Flash};
use record_list::CommitRule;
use version_index::Index;

/// Finds out what a broken operation left, if there was one: reads the place and notes what it
/// holds. The image stays. After a failed read all is as before.
pub fn settle<F: Flash, R: CommitRule>(
    flash: &mut F,
    index: &mut Index<R>,
    blocks: &mut Blocks,
    unsure: &mut Unsure,
    room: &mut [u8],
) -> Result<Settled, Broken>
    requires { CanSettle R.protocol (store_parts (F.state flash.old) index.old blocks.old unsure.old)
        room.old }
    ensures { Settles (store_parts (F.state flash.old) index.old blocks.old unsure.old)
        (store_parts (F.state flash.new) index.new blocks.new unsure.new) result }
{
    let found = settle_place(flash, index, blocks, *unsure, room)?;
    *unsure = Unsure::Nothing;
    Ok(found)
}

/// Reads the place whose contents are not known, if there is one, and notes what it holds.
fn settle_place<F: Flash, R: CommitRule>(
    flash: &mut F,
    index: &mut Index<R>,
    blocks: &mut Blocks,
    unsure: Unsure,
    room: &mut [u8],
) -> Result<Settled, Broken>
    requires { CanSettle R.protocol (store_parts (F.state flash.old) index.old blocks.old unsure)
        room.old }
    ensures { Finds (store_parts (F.state flash.old) index.old blocks.old unsure)
        (F.state flash.new) index.new blocks.new result }
{
    match unsure {
        Unsure::Nothing => Ok(Settled::Other),
        Unsure::Own { at, rec } => settle_own(flash, index, blocks, room, at, rec),
        Unsure::Copy { from, to } => settle_copy(flash, index, blocks, room, from, to),
        Unsure::SpareErase => settle_spare(flash, index, blocks, room),
        Unsure::VictimErase { block } => settle_victim(flash, index, blocks, room, block),
    }
}
