ghost use Rattle.std.specs.Prelude.{◌≡◌, ◌+◌, ◌*◌, ◌<◌, ◌≤◌, All, List, map, length, Ok, OnOk, IfOk, IfErr, IsNone, true, false};
ghost use Rattle.std.specs.List.{range_with_len};
ghost use Rattle.tx_types.specs.Config.{IsShape, checked, shape_of, slots_of, blocks_of};
ghost use Rattle.record_list.specs.Counts.{HasCounts, IsFirstMiscount};
ghost use Rattle.record_list.specs.Records.{IsScanned};
ghost use Rattle.record_list.specs.SoundList.{PagesExist, CopiesAgree, IsSoundList};
ghost use Rattle.record_list.specs.Written.{HasRemovable};
ghost use Rattle.record_list.specs.declared.found.Found.{Found};
ghost use Rattle.sorted_records.specs.SortedRecords.{Sorts, list_of};
ghost use Rattle.judged_records.specs.Notes.{complete_slots};
ghost use Rattle.judged_records.specs.Opening.{IsChosenFrom};
ghost use Rattle.version_index.specs.Scanned.{AreScanned};
ghost use Rattle.die_alloc.specs.Opening.{used_in, use_if, use_in, opening_table};
ghost use Rattle.scan_recovery.specs.Opening.{IsOpenedFrom, IsBroken};
ghost use Rattle.scan_recovery.specs.Recovered.{IfUnsound, is_read_failure};
ghost use Rattle.scan_recovery.specs.Searches.{KnowsOrbits, AreLawful};

use crate::RecoverError;
use crate::audit::{first_breach, keep_laws};
use crate::spare::{chosen_spare, slots_in};
use die_alloc::{BlockUse, Blocks};
use flash_model::Seen;
use record_list::{Breach, CommitRule, Found};
use sorted_records::{CurrentVersions, Orbits, SortedWithList, counts, has_count, name_orbits};
use std::alloc::{AllocError, Global};
use std::mem::drop;
use tx_types::{Block, BlockState, Config, Memory, Protocol, Shape, Slot};
use version_index::Index;

/// The tables of slots that read so and hold these records, or the first of laws 3 to 9 that the
/// records break, and the slot that it names. They keep laws 1 and 2.
pub fn open_tables<R: CommitRule>(
    alloc: Global,
    config: Config,
    shape: Shape,
    seen: Vec<Seen>,
    charted: SortedWithList,
) -> Result<(Index<R>, Blocks), RecoverError>
    requires check { checked config ≡ Ok shape }
    requires rule { config.protocol ≡ R.protocol }
    requires seen { length seen.items ≡ slots_of shape }
    requires complete { map (λ f. f.slot.0) (list_of charted.list charted.chart)
        ≡ complete_slots seen.items }
    requires scanned { IsScanned (list_of charted.list charted.chart) }
    requires pages { All (PagesExist config.logical) (list_of charted.list charted.chart) }
    requires copies { let its = list_of charted.list charted.chart in All (CopiesAgree its) its }
    requires sorts { Sorts (list_of charted.list charted.chart) charted.chart }
    ensures sound { let its = list_of charted.list charted.chart in
        OnOk result
        (IsSoundList R.protocol its config.logical × HasRemovable R.protocol its config.logical shape
        × HasCounts its) }
    ensures tables { IfOk result (λ opened.
        IsOpenedFrom config seen.items (list_of charted.list charted.chart) opened.0 opened.1) }
    ensures unsound { IfErr result (λ e. IfUnsound e
        (IsBroken R.protocol (list_of charted.list charted.chart) config.logical shape)) }
    ensures no_fault { is_read_failure result ≡ false }
{
    let SortedWithList { chart, list } = charted;
    let standing = CurrentVersions::new(alloc, chart, config.protocol, config.logical)?;
    open_current_versions(alloc, config, shape, seen, list, &standing)
}

/// The tables of slots and their records, or the first of laws 3 to 9 that the records break, where the current
/// versions are known. A list that the sorted records do not have is given back before the tables are made, which may
/// take its memory.
fn open_current_versions<R: CommitRule>(
    alloc: Global,
    config: Config,
    shape: Shape,
    seen: Vec<Seen>,
    list: Option<Vec<Found>>,
    standing: &CurrentVersions,
) -> Result<(Index<R>, Blocks), RecoverError>
    requires check { checked config ≡ Ok shape }
    requires rule { config.protocol ≡ R.protocol }
    requires seen { length seen.items ≡ slots_of shape }
    requires complete { map (λ f. f.slot.0) (list_of list standing.now.list)
        ≡ complete_slots seen.items }
    requires scanned { IsScanned (list_of list standing.now.list) }
    requires pages { All (PagesExist config.logical) (list_of list standing.now.list) }
    requires copies { let its = list_of list standing.now.list in All (CopiesAgree its) its }
    requires sorts { Sorts (list_of list standing.now.list) standing.now.list }
    requires protocol { standing.now.protocol ≡ R.protocol }
    requires logical { standing.now.logical ≡ config.logical }
    ensures sound { let its = list_of list standing.now.list in
        OnOk result
        (IsSoundList R.protocol its config.logical × HasRemovable R.protocol its config.logical shape
        × HasCounts its) }
    ensures tables { IfOk result (λ opened.
        IsOpenedFrom config seen.items (list_of list standing.now.list) opened.0 opened.1) }
    ensures unsound { IfErr result (λ e. IfUnsound e
        (IsBroken R.protocol (list_of list standing.now.list) config.logical shape)) }
    ensures no_fault { is_read_failure result ≡ false }
{
    let by_slot = standing.sorted_records().list_of(&list);
    let spare = lawful_spare(alloc, shape, &seen, by_slot, standing)?;
    drop(list);
    let opened = tables_with_spare(alloc, config, shape, &seen, standing, spare)?;
    Ok(opened)
}

/// The tables of slots that read so and hold the records of a sound list, of which it is known how they stand, with
/// this spare.
fn tables_with_spare<R: CommitRule>(
    alloc: Global,
    config: Config,
    shape: Shape,
    seen: &[Seen],
    standing: &CurrentVersions,
    spare: Block,
) -> Result<(Index<R>, Blocks), Memory>
    requires check { checked config ≡ Ok shape }
    requires rule { config.protocol ≡ R.protocol }
    requires seen { length seen.now ≡ slots_of shape }
    requires scan { (list : List Found) × AreScanned R.protocol config seen.now list standing.now }
    requires protocol { standing.now.protocol ≡ config.protocol }
    requires logical { standing.now.logical ≡ config.logical }
    requires spare { spare.0 < blocks_of shape }
    ensures { (list : List Found) → AreScanned R.protocol config seen.now list standing.now →
        IsChosenFrom config.protocol config.logical shape seen.now list spare.0 →
        IfOk result (λ opened. IsOpenedFrom config seen.now list opened.0 opened.1) }
{
    let blocks = block_table(alloc, shape, seen, spare)?;
    let mut index = Index::from_current_versions(alloc, config, seen, standing)?;
    index.set_spare(spare);
    Ok((index, blocks))
}

/// The block that becomes the spare, where the records keep laws 3 to 9, else the first that they break, and
/// the slot that it names. They keep laws 1 and 2.
fn lawful_spare(
    alloc: Global,
    shape: Shape,
    seen: &[Seen],
    list: &[Found],
    standing: &CurrentVersions,
) -> Result<Block, RecoverError>
    requires shape { IsShape shape }
    requires seen { length seen.now ≡ slots_of shape }
    requires complete { map (λ f. f.slot.0) list.now ≡ complete_slots seen.now }
    requires scanned { IsScanned list.now }
    requires pages { All (PagesExist standing.now.logical) list.now }
    requires copies { All (CopiesAgree list.now) list.now }
    requires sorts { Sorts list.now standing.now.list }
    ensures sound { let s = standing.now in
        OnOk result
        (IsSoundList s.protocol list.now s.logical × HasRemovable s.protocol list.now s.logical shape
        × HasCounts list.now) }
    ensures spare { let s = standing.now in
        IfOk result (λ spare. IsChosenFrom s.protocol s.logical shape seen.now list.now spare.0) }
    ensures unsound { let s = standing.now in
        IfErr result (λ e. IfUnsound e (IsBroken s.protocol list.now s.logical shape)) }
    ensures no_fault { is_read_failure result ≡ false }
{
    let orbits = orbits_if_asked(alloc, standing, list)?;
    spare_by_orbits(alloc, shape, seen, list, standing, &orbits)
}

/// The block that becomes the spare, or the first of laws 3 to 9 that the records break, where the places to which all
/// links lead are known, if laws 7 and 9 ask for them.
fn spare_by_orbits(
    alloc: Global,
    shape: Shape,
    seen: &[Seen],
    list: &[Found],
    standing: &CurrentVersions,
    orbits: &Option<Orbits>,
) -> Result<Block, RecoverError>
    requires shape { IsShape shape }
    requires seen { length seen.now ≡ slots_of shape }
    requires complete { map (λ f. f.slot.0) list.now ≡ complete_slots seen.now }
    requires scanned { IsScanned list.now }
    requires pages { All (PagesExist standing.now.logical) list.now }
    requires copies { All (CopiesAgree list.now) list.now }
    requires sorts { Sorts list.now standing.now.list }
    requires known { KnowsOrbits standing.now orbits.now }
    requires counted { IsNone orbits.now → All (λ f. f.rec.count ≡ 0) list.now }
    ensures sound { let s = standing.now in
        OnOk result
        (IsSoundList s.protocol list.now s.logical × HasRemovable s.protocol list.now s.logical shape
        × HasCounts list.now) }
    ensures spare { let s = standing.now in
        IfOk result (λ spare. IsChosenFrom s.protocol s.logical shape seen.now list.now spare.0) }
    ensures unsound { let s = standing.now in
        IfErr result (λ e. IfUnsound e (IsBroken s.protocol list.now s.logical shape)) }
    ensures no_fault { is_read_failure result ≡ false }
{
    let kept = keep_laws(alloc, standing, orbits)?;
    if let Some(Breach { law, slot }) = first_breach(alloc, standing, orbits, list, kept)? {
        return Err(RecoverError::Unsound { law, slot });
    }
    let Some(spare) = chosen_spare(alloc, seen, list, standing, shape)? else {
        return Err(RecoverError::Unsound {
            law: 8,
            slot: Slot(0),
        });
    };
    match miscount(standing, orbits, list, kept) {
        None => Ok(spare),
        Some(Breach { law, slot }) => Err(RecoverError::Unsound { law, slot }),
    }
}

/// Where the links of all records lead, if laws 7 and 9 ask for it: the one speaks of Back Pointer Cyclic
/// Commit alone, the other of records that have a count.
fn orbits_if_asked(
    alloc: Global,
    standing: &CurrentVersions,
    list: &[Found],
) -> Result<Option<Orbits>, AllocError>
    ensures known { IfOk result (KnowsOrbits standing.now) }
    ensures counted { IfOk result (λ orbits.
        IsNone orbits → All (λ f. f.rec.count ≡ 0) list.now) }
{
    if standing.protocol() == Protocol::Scc && !has_count(list) {
        return Ok(None);
    }
    Ok(Some(name_orbits(alloc, standing.sorted_records())?))
}

/// The slot that law 9 names, where it is broken, of a list that keeps law 2. It is looked for only where it was not
/// found before that the records keep all these laws.
fn miscount(
    standing: &CurrentVersions,
    orbits: &Option<Orbits>,
    list: &[Found],
    kept: bool,
) -> Option<Breach>
    requires scanned { IsScanned list.now }
    requires sorts { Sorts list.now standing.now.list }
    requires copies { All (CopiesAgree list.now) list.now }
    requires known { KnowsOrbits standing.now orbits.now }
    requires counted { IsNone orbits.now → All (λ f. f.rec.count ≡ 0) list.now }
    requires kept { kept ≡ true → AreLawful standing.now orbits.now }
    ensures { IsFirstMiscount list.now result }
{
    if kept {
        return None;
    }
    match orbits {
        None => None,
        Some(orbits) => counts(standing.sorted_records(), orbits, list),
    }
}

/// The block table of slots that read so, with this spare.
fn block_table(alloc: Global, shape: Shape, seen: &[Seen], spare: Block) -> Result<Blocks, Memory>
    requires shape { IsShape shape }
    requires seen { length seen.now ≡ slots_of shape }
    requires spare { spare.0 < blocks_of shape }
    ensures { IfOk result (λ blocks. blocks ≡ opening_table shape seen.now spare.0) }
{
    let uses = block_uses(alloc, shape, seen, spare)?;
    Blocks::from_uses(alloc, shape, uses, spare)
}

/// What is kept of each block of slots that read so, with this spare.
fn block_uses(
    alloc: Global,
    shape: Shape,
    seen: &[Seen],
    spare: Block,
) -> Result<Vec<BlockUse>, Memory>
    requires shape { IsShape shape }
    requires seen { length seen.now ≡ slots_of shape }
    ensures { IfOk result (λ uses. uses.items
        ≡ map (use_in shape seen.now spare.0) (range_with_len 0 (blocks_of shape))) }
{
    let mut uses = vec![in alloc; BlockUse::CLEAN; shape.blocks() as usize]?;
    for block in 0..shape.blocks() {
        let slots = slots_in(seen, shape, Block(block));
        uses[block as usize] = block_use(slots, block == spare.0);
    }
    Ok(uses)
}

/// What is kept of a block whose slots read so, as the spare or as another one.
fn block_use(slots: &[Seen], is_spare: bool) -> BlockUse
    requires { length slots.now ≤ 256 }
    ensures { result ≡ use_if is_spare slots.now }
{
    if is_spare {
        return BlockUse::SPARE;
    }
    let used = count_used(slots);
    if used == 0 {
        BlockUse::CLEAN
    } else {
        BlockUse {
            state: BlockState::Shut,
            used,
        }
    }
}

/// How many of the first slots are used: those up to the last one that is not blank.
fn count_used(slots: &[Seen]) -> u32
    requires { length slots.now ≤ 256 }
    ensures used { result ≡ used_in slots.now }
    ensures within { result ≤ length slots.now }
{
    let mut used = slots.len();
    while used > 0 && slots[used - 1].is_blank() {
        used -= 1;
    }
    used as u32
}
