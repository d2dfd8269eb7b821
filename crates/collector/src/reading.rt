ghost use Rattle.std.specs.Prelude.{◌≡◌, IfOk};
ghost use Rattle.std.specs.Result.{is_err};
ghost use Rattle.collector.specs.Looking.{Looks};
ghost use Rattle.collector.specs.Settling.{CanReadBlock, ReadsBlock, reads_alike};

use flash_model::{Broken, Flash, Seen};
use record_list::CommitRule;
use tx_types::{Block, Slot};
use version_index::Index;

/// What a block shows once all its slots were read.
#[derive(Clone, Copy)]
pub(crate) struct BlockReading {
    /// Each slot reads as it is noted.
    pub as_noted: bool,
    /// Each slot reads blank.
    pub blank: bool,
}

/// Reads each slot of a block. After a failed read nothing is known.
pub(crate) fn read_block<F: Flash, R: CommitRule>(
    flash: &mut F,
    index: &Index<R>,
    room: &mut [u8],
    block: Block,
) -> Result<BlockReading, Broken>
    requires { CanReadBlock R.protocol (F.state flash.old) index.now block.0 room.old }
    ensures read { IfOk result (ReadsBlock index.now (F.state flash.old).image block.0) }
    ensures looks { Looks (F.state flash.old) (F.state flash.new)
        index.now.config.pages_per_block (is_err result) }
{
    let pages = index.config().pages_per_block;
    let first = block.0 * pages;
    let mut spare_area = [0; 64];
    let mut as_noted = true;
    let mut blank = true;
    for at in first..first + pages {
        let how = flash.read(Slot(at), room, &mut spare_area)?;
        as_noted &= reads_alike(how, index.seen(Slot(at)));
        blank &= how.is_blank();
    }
    Ok(BlockReading { as_noted, blank })
}

/// Whether two slots read alike.
pub(crate) fn reads_alike(how: Seen, noted: Seen) -> bool
    ensures { result ≡ reads_alike how noted }
{
    match how {
        Seen::Blank => matches!(noted, Seen::Blank),
        Seen::Damaged => matches!(noted, Seen::Damaged),
        Seen::Complete => matches!(noted, Seen::Complete),
    }
}
