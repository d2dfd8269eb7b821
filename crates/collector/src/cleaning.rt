ghost use Rattle.std.specs.Prelude.{◌≡◌, ◌<◌};
ghost use Rattle.tx_types.specs.Config.{shape_of, blocks_of};
ghost use Rattle.collector.specs.Calls.{Cleans};
ghost use Rattle.collector.specs.Collecting.{is_noted_blank};
ghost use Rattle.collector.specs.StoreParts.{IsSure, store_parts};

use crate::Unsure;
use die_alloc::Blocks;
use flash_model::{Broken, Flash};
use record_list::CommitRule;
use tx_types::Block;
use version_index::Index;

/// Makes the spare all blank: erases it where it is not. After a broken erase it is not known what
/// the spare holds.
pub fn clean_spare<F: Flash, R: CommitRule>(
    flash: &mut F,
    index: &mut Index<R>,
    blocks: &mut Blocks,
    unsure: &mut Unsure,
) -> Result<(), Broken>
    requires { IsSure R.protocol (store_parts (F.state flash.old) index.old blocks.old unsure.old) }
    ensures { Cleans R.protocol (store_parts (F.state flash.old) index.old blocks.old unsure.old)
        (store_parts (F.state flash.new) index.new blocks.new unsure.new) result }
{
    let spare = blocks.spare();
    if is_noted_blank(index, spare) {
        return Ok(());
    }
    if let Err(broken) = flash.erase(spare) {
        *unsure = Unsure::SpareErase;
        return Err(broken);
    }
    index.note_erased(spare);
    Ok(())
}

/// Whether each slot of a block is noted as blank.
fn is_noted_blank<R: CommitRule>(index: &Index<R>, block: Block) -> bool
    requires { block.0 < blocks_of (shape_of index.now.config) }
    ensures { result ≡ is_noted_blank index.now block.0 }
{
    index.blanks(block) == index.config().pages_per_block
}
