ghost use Rattle.std.specs.Prelude.{◌≡◌, ℕ, ◌<◌, ◌≤◌, false, All, List, length, map, replicate, slice_index_or, slice_set, IfOk, OnOk};
ghost use Rattle.std.specs.List.{range_with_len};
ghost use Rattle.tx_types.specs.Config.{IsShape, slots_of, blocks_of};
ghost use Rattle.flash_model.specs.Readings.{reads_blank_block};
ghost use Rattle.record_list.specs.Records.{mention, record_at};
ghost use Rattle.record_list.specs.SoundList.{PagesExist};
ghost use Rattle.record_list.specs.declared.found.Found.{Found};
ghost use Rattle.sorted_records.specs.SortedRecords.{Sorts};
ghost use Rattle.slot_tables.specs.TablesState.{blank_tables};
ghost use Rattle.judged_records.specs.IndexState.{is_used_block, used_blocks};
ghost use Rattle.judged_records.specs.Notes.{seen_as, found_in};
ghost use Rattle.version_index.specs.Filling.{AreFilled};
ghost use Rattle.version_index.specs.Scanned.{CanFill};
ghost use Rattle.version_index.specs.Tables.{notes_in};

use crate::deciding::place_and_decide;
use crate::numbering::{Numbering, number_records};
use crate::placing::place_damaged;
use flash_model::Seen;
use record_list::Found;
use slot_tables::{Tables, TablesBuilder};
use sorted_records::{CurrentVersions, SortedRecords};
use std::alloc::{AllocError, Global};
use tx_types::{Block, Memory, Protocol, Shape};

/// Tables that are filled, the greatest version at which the records mention each page, and whether one of them may
/// discard its page.
#[derive(Drop)]
pub struct Filled {
    pub tables: TablesBuilder,
    pub mentions: Vec<u64>,
    pub discards: bool,
}

/// Tables of slots that read so and hold the records of a list, in the order of their slots. Of the records it is known
/// where their pages stand.
pub fn build_tables(
    alloc: Global,
    shape: Shape,
    logical: u32,
    seen: &[Seen],
    standing: &CurrentVersions,
) -> Result<Filled, Memory>
    requires shape { IsShape shape }
    requires pages { logical ≤ slots_of shape }
    requires fills { (list : List Found) ×
        CanFill logical seen.now list standing.now.list (blank_tables shape logical) }
    requires logical { standing.now.logical ≡ logical }
    requires exist { All (PagesExist logical) standing.now.list }
    requires few { length standing.now.list ≤ slots_of shape }
    ensures reads { IfOk result (λ f. map seen_as (notes_in f.tables) ≡ seen.now) }
    ensures found { (list : List Found) →
        CanFill logical seen.now list standing.now.list (blank_tables shape logical) →
        IfOk result (λ f. found_in (notes_in f.tables) ≡ list) }
    ensures filled { IfOk result (λ f.
        AreFilled standing.now.protocol standing.now.list shape logical f.tables) }
    ensures mentions { IfOk result (λ f.
        f.mentions.items ≡ map (mention standing.now.list) (range_with_len 0 logical)) }
    ensures discards { IfOk result (λ f. f.discards ≡ false →
        (j : ℕ) → j < length standing.now.list → (record_at standing.now.list j).discard ≡ false) }
    ensures none_closed { IfOk result (λ f. f.tables.closed ≡ replicate (blocks_of shape) false) }
{
    let mut tables = TablesBuilder::new(alloc, shape, logical)?;
    match fill(alloc, &mut tables, logical, seen, standing) {
        Ok(numbered) => Ok(Filled {
            tables,
            mentions: numbered.mentions,
            discards: numbered.discards,
        }),
        Err(error) => {
            drop(tables);
            Err(error)
        }
    }
}

/// Fills tables of blank slots with slots that read so and hold the records of a list, in the order of their slots.
/// Of the records it is known where their pages stand. Their numbers and what they mention are told.
fn fill(
    alloc: Global,
    tables: &mut TablesBuilder,
    logical: u32,
    seen: &[Seen],
    standing: &CurrentVersions,
) -> Result<Numbering, Memory>
    requires fills { (list : List Found) × CanFill logical seen.now list standing.now.list tables.old }
    requires logical { standing.now.logical ≡ logical }
    requires exist { All (PagesExist logical) standing.now.list }
    requires few { length standing.now.list ≤ slots_of tables.old.shape }
    ensures reads { OnOk result (map seen_as (notes_in tables.new) ≡ seen.now) }
    ensures found { (list : List Found) → CanFill logical seen.now list standing.now.list tables.old →
        OnOk result (found_in (notes_in tables.new) ≡ list) }
    ensures filled { OnOk result
        (AreFilled standing.now.protocol standing.now.list tables.old.shape logical tables.new) }
    ensures mentions { IfOk result (λ n.
        n.mentions.items ≡ map (mention standing.now.list) (range_with_len 0 logical)) }
    ensures discards { IfOk result (λ n. n.discards ≡ false →
        (j : ℕ) → j < length standing.now.list → (record_at standing.now.list j).discard ≡ false) }
    ensures none_closed { OnOk result (tables.new.closed ≡ replicate (blocks_of tables.old.shape) false) }
{
    let records = standing.sorted_records().records();
    let numbered = number_records(alloc, tables, logical, records)?;
    place_damaged(tables, seen);
    place_and_decide(tables, logical, standing, &numbered.numbers);
    Ok(numbered)
}

/// Closes each block with a slot that is not blank, where none is closed.
pub fn close_used(tables: &mut Tables, seen: &[Seen])
    requires seen { length seen.now ≡ slots_of tables.old.shape }
    requires none_closed { tables.old.closed ≡ replicate (blocks_of tables.old.shape) false }
    ensures { tables.new ≡ record tables.old { closed = used_blocks tables.old.shape seen.now } }
{
    let shape = tables.shape();
    for block in 0..shape.blocks() {
        close_if_used(tables, seen, shape, block);
    }
}

/// Closes a block that is not closed, if it has a slot that is not blank.
#[inline(always)]
fn close_if_used(tables: &mut Tables, seen: &[Seen], shape: Shape, block: u32)
    requires shape { shape ≡ tables.old.shape }
    requires exists { block < blocks_of tables.old.shape }
    requires seen { length seen.now ≡ slots_of tables.old.shape }
    requires not_closed { slice_index_or tables.old.closed block false ≡ false }
    ensures { tables.new ≡ record tables.old {
      closed = slice_set tables.old.closed block (is_used_block tables.old.shape seen.now block);
    } }
{
    if are_blank(seen, shape, block) {
        return;
    }
    tables.set_closed(Block(block), true);
}

/// Whether each slot of a block is blank.
fn are_blank(seen: &[Seen], shape: Shape, block: u32) -> bool
    requires exists { block < blocks_of shape }
    requires seen { length seen.now ≡ slots_of shape }
    ensures { result ≡ reads_blank_block shape seen.now block }
{
    let slots = shape.pages_per_block as usize;
    let first = block as usize * slots;
    seen[first..first + slots].iter().all(|how| how.is_blank())
}

/// The records of a list in the order of their names, and where their pages stand.
pub fn current_versions_of(
    alloc: Global,
    list: &[Found],
    protocol: Protocol,
    logical: u32,
) -> Result<CurrentVersions, AllocError>
    ensures sorts { IfOk result (λ s. Sorts list.now s.list) }
    ensures protocol { IfOk result (λ s. s.protocol ≡ protocol) }
    ensures logical { IfOk result (λ s. s.logical ≡ logical) }
{
    let chart = SortedRecords::of(alloc, list)?;
    CurrentVersions::new(alloc, chart, protocol, logical)
}
