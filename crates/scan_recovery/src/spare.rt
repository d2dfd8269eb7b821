ghost use Rattle.std.specs.Prelude.{◌≡◌, ◌+◌, ◌*◌, ◌<◌, ◌≤◌, All, IfOk, map, length};
ghost use Rattle.std.specs.List.{list_all};
ghost use Rattle.tx_types.specs.Config.{IsShape, slots_of, blocks_of};
ghost use Rattle.flash_model.specs.Readings.{reads_blank, seen_in_block};
ghost use Rattle.record_list.specs.Records.{IsScanned};
ghost use Rattle.record_list.specs.SoundList.{CopiesAgree};
ghost use Rattle.sorted_records.specs.SortedRecords.{Sorts};
ghost use Rattle.judged_records.specs.Notes.{complete_slots};
ghost use Rattle.judged_records.specs.Opening.{IsBlankBlock};
ghost use Rattle.scan_recovery.specs.Opening.{FindsHighest, FindsSpare};

use crate::removable::highest_removable;
use flash_model::Seen;
use record_list::Found;
use sorted_records::CurrentVersions;
use std::alloc::{AllocError, Global};
use tx_types::{Block, Shape};

/// The block that becomes the spare: the highest one that is all blank, or, where there is none,
/// the highest removable one. Nothing where no block is removable.
pub fn chosen_spare(
    alloc: Global,
    seen: &[Seen],
    list: &[Found],
    standing: &CurrentVersions,
    shape: Shape,
) -> Result<Option<Block>, AllocError>
    requires scanned { IsScanned list.now }
    requires copies { All (CopiesAgree list.now) list.now }
    requires sorts { Sorts list.now standing.now.list }
    requires shape { IsShape shape }
    requires seen { length seen.now ≡ slots_of shape }
    requires complete { map (λ f. f.slot.0) list.now ≡ complete_slots seen.now }
    ensures { let s = standing.now in
        IfOk result (FindsSpare s.protocol s.logical shape seen.now list.now) }
{
    match highest_blank(seen, shape) {
        Some(block) => Ok(Some(block)),
        None => highest_removable(alloc, standing, shape),
    }
}

/// The highest block that is all blank, if there is one.
fn highest_blank(seen: &[Seen], shape: Shape) -> Option<Block>
    requires shape { IsShape shape }
    requires seen { length seen.now ≡ slots_of shape }
    ensures { FindsHighest (IsBlankBlock shape seen.now) (blocks_of shape) result }
{
    let mut block = shape.blocks();
    while block > 0 {
        block -= 1;
        if are_blank(slots_in(seen, shape, Block(block))) {
            return Some(Block(block));
        }
    }
    None
}

/// How the slots of a block read.
pub fn slots_in(seen: &[Seen], shape: Shape, block: Block) -> &[Seen]
    requires exists { block.0 < blocks_of shape }
    requires seen { length seen.now ≡ slots_of shape }
    ensures slots { result.now ≡ seen_in_block shape seen.now block.0 }
    ensures count { length result.now ≡ shape.pages_per_block }
{
    let slots = shape.pages_per_block as usize;
    let first = block.0 as usize * slots;
    &seen[first..first + slots]
}

/// Whether all these slots are blank.
fn are_blank(slots: &[Seen]) -> bool
    ensures { result ≡ list_all reads_blank slots.now }
{
    slots.iter().all(|how| how.is_blank())
}
