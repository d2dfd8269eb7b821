ghost use Rattle.std.specs.Prelude.{◌≡◌, ◌<◌, false, All, IfOk, length, slice_index_or};
ghost use Rattle.std.specs.List.{list_any};
ghost use Rattle.tx_types.specs.Config.{IsShape, slots_of, blocks_of};
ghost use Rattle.record_list.specs.Records.{record_at, nothing};
ghost use Rattle.record_list.specs.Written.{IsRemovable, is_outside};
ghost use Rattle.scan_recovery.specs.Opening.{FindsHighest};
ghost use Rattle.scan_recovery.specs.Removable.{AreCopies, AreHeld, AreFixed, is_counted, stands_outside, is_fixed};

use crate::held::{held_places, is_held, mark};
use record_list::Found;
use sorted_records::CurrentVersions;
use std::alloc::{AllocError, Global};
use tx_types::{Block, Rec, Shape, Slot};

/// The highest removable block, if there is one. Records of one name are equal.
pub fn highest_removable(
    alloc: Global,
    standing: &CurrentVersions,
    shape: Shape,
) -> Result<Option<Block>, AllocError>
    requires copies { AreCopies standing.now.list }
    requires exists { All (λ f. f.slot.0 < slots_of shape) standing.now.list }
    requires shape { IsShape shape }
    ensures { let s = standing.now in
        IfOk result (FindsHighest (IsRemovable s.protocol s.list s.logical shape)
        (blocks_of shape)) }
{
    let fixed = fixed_blocks(alloc, standing, shape)?;
    Ok(highest_unmarked(&fixed, shape))
}

/// For each block whether a record is current or held and stands in this block alone.
fn fixed_blocks(
    alloc: Global,
    standing: &CurrentVersions,
    shape: Shape,
) -> Result<Vec<bool>, AllocError>
    requires copies { AreCopies standing.now.list }
    requires exists { All (λ f. f.slot.0 < slots_of shape) standing.now.list }
    requires shape { IsShape shape }
    ensures { IfOk result (λ fixed. AreFixed standing.now shape standing.now.list fixed.items) }
{
    let held = held_places(alloc, standing)?;
    let mut fixed = vec![in alloc; false; shape.blocks() as usize]?;
    let records = standing.sorted_records().records();
    for at in 0..records.len() {
        let block = shape.block_of(records[at].slot);
        if is_fixed(standing, &held, shape, at, block) {
            mark(&mut fixed, block.0);
        }
    }
    Ok(fixed)
}

/// Whether the record at an index is current or held and stands in a block alone.
fn is_fixed(
    standing: &CurrentVersions,
    held: &[bool],
    shape: Shape,
    at: usize,
    block: Block,
) -> bool
    requires copies { AreCopies standing.now.list }
    requires held { AreHeld standing.now standing.now.list held.now }
    requires within { at < length standing.now.list }
    requires shape { 0 < shape.pages_per_block }
    ensures { result ≡ is_fixed standing.now shape
        (slice_index_or standing.now.list at nothing) block.0 }
{
    let rec = standing.sorted_records().records()[at].rec;
    is_counted(standing, held, at) && !stands_outside(standing, shape, block, rec)
}

/// Whether the record at an index is current or held.
fn is_counted(standing: &CurrentVersions, held: &[bool], at: usize) -> bool
    requires copies { AreCopies standing.now.list }
    requires held { AreHeld standing.now standing.now.list held.now }
    requires within { at < length standing.now.list }
    ensures { result ≡ is_counted standing.now (record_at standing.now.list at) }
{
    let rec = standing.sorted_records().records()[at].rec;
    rec.version == standing.current(rec.page) || is_held(standing, held, at)
}

/// Whether a slot outside a block holds a record of this record's name.
fn stands_outside(standing: &CurrentVersions, shape: Shape, block: Block, rec: Rec) -> bool
    requires { 0 < shape.pages_per_block }
    ensures { result ≡ stands_outside standing.now shape block.0 rec }
{
    any_outside(
        standing.sorted_records().with_name(rec.name()),
        shape,
        block,
    )
}

/// Whether one of these records stands outside a block.
fn any_outside(records: &[Found], shape: Shape, block: Block) -> bool
    requires { 0 < shape.pages_per_block }
    ensures { result ≡ list_any (λ f. is_outside shape block.0 f.slot.0) records.now }
{
    records
        .iter()
        .any(|found| is_outside(shape, block, found.slot))
}

/// Whether a slot lies outside a block.
fn is_outside(shape: Shape, block: Block, slot: Slot) -> bool
    requires { 0 < shape.pages_per_block }
    ensures { result ≡ is_outside shape block.0 slot.0 }
{
    shape.block_of(slot) != block
}

/// The highest block that is not marked, if there is one.
fn highest_unmarked(marks: &[bool], shape: Shape) -> Option<Block>
    requires size { length marks.now ≡ blocks_of shape }
    requires shape { IsShape shape }
    ensures { FindsHighest (λ block. slice_index_or marks.now block false ≡ false)
        (blocks_of shape) result }
{
    let mut block = shape.blocks();
    while block > 0 {
        block -= 1;
        if !marks[block as usize] {
            return Some(Block(block));
        }
    }
    None
}
