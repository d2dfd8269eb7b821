//! Recovery beside the plain audit of its records, on flashes with a few records as they come.
ghost use Rattle.std.specs.Prelude.{◌≡◌, ◌<◌, All, IsTrue, Ok};
ghost use Rattle.tx_types.specs.Config.{checked, shape_of};
ghost use Rattle.record_list.specs.Records.{IsScanned};
ghost use Rattle.record_list.specs.SoundList.{OwnPageExists};

use super::flashes::refused;
use crate::building::{BACK_POINTER, SIMPLE, blank_flash, found, is_scanned, put_record, rec};
use bpcc_commit::Bpcc;
use mem_flash::MemFlash;
use record_list::{Breach, CommitRule, Found};
use scan_recovery::RecoverError;
use scc_commit::Scc;
use std::alloc::{AllocError, Global};
use tx_types::{Config, Link, Protocol, Rec, Slot};

/// The number of logical pages of the flashes.
const LOGICAL: u32 = 20;

/// A record in a slot, and the byte of which its page is full.
#[derive(Clone, Copy)]
struct Placed {
    slot: u32,
    rec: Rec,
    fill: u8,
}

/// The next number below a bound.
fn draw(seed: &mut u64, below: u32) -> u32
    requires { 0 < below }
    ensures { result < below }
{
    *seed = seed
        .wrapping_mul(6364136223846793005)
        .wrapping_add(1442695040888963407);
    ((*seed >> 33) % u64::from(below)) as u32
}

/// A name of one of three pages, at one of four versions.
fn any_name(seed: &mut u64) -> Link
    ensures { 0 < result.version }
{
    Link {
        page: draw(seed, 3),
        version: u64::from(draw(seed, 4)) + 1,
    }
}

/// A record in this slot, often one with the name of an earlier one.
fn any_placed(seed: &mut u64, protocol: Protocol, slot: u32, last: Option<&Placed>) -> Placed {
    if let Some(Placed { rec, fill, .. }) = last
        && draw(seed, 3) == 0
    {
        let fill = if draw(seed, 8) == 0 { 9 } else { *fill };
        return Placed {
            slot,
            rec: *rec,
            fill,
        };
    }
    let name = any_name(seed);
    let next = any_name(seed);
    let back = match protocol {
        Protocol::Scc => 0,
        Protocol::Bpcc => u64::from(draw(seed, 4)) % name.version,
    };
    let rec = rec(name, next, back);
    Placed { slot, rec, fill: 0 }
}

/// A current record of a page of its own.
fn current(slot: u32, page: u32) -> Placed {
    let name = Link { page, version: 1 };
    Placed {
        slot,
        rec: rec(name, name, 0),
        fill: 0,
    }
}

/// Up to eight records, in slots of all blocks but the last.
fn place_any(
    seed: &mut u64,
    protocol: Protocol,
    items: &mut Vec<Placed>,
) -> Result<(), AllocError> {
    for slot in 0..28 {
        if items.len() < 8 && draw(seed, 4) == 0 {
            let item = any_placed(seed, protocol, slot, items.last());
            items.push(item)?;
        }
    }
    Ok(())
}

/// In most blocks a current record of a page of its own, now and then in two slots, and a few records as
/// they come.
fn place_full(
    seed: &mut u64,
    protocol: Protocol,
    items: &mut Vec<Placed>,
) -> Result<(), AllocError> {
    for block in 0..8 {
        if draw(seed, 24) != 0 {
            items.push(current(4 * block, block + 3))?;
        }
        let second = match draw(seed, 48) {
            0 => current(4 * block + 1, 3),
            1 => any_placed(seed, protocol, 4 * block + 1, items.last()),
            _ => continue,
        };
        items.push(second)?;
    }
    Ok(())
}

/// Whether the pages of all records exist.
fn have_pages(list: &[Found]) -> bool
    ensures { IsTrue result → All (OwnPageExists LOGICAL) list.now }
{
    list.iter().all(|found| found.rec.page < LOGICAL)
}

/// Whether two records have one name.
fn is_one_name(one: Rec, other: Rec) -> bool {
    one.page == other.page && one.version == other.version
}

/// Whether a slot outside a block holds a record of this record's name.
fn stands_outside(list: &[Found], block: u32, rec: Rec) -> bool {
    for found in list {
        if found.slot.0 / 4 != block && is_one_name(found.rec, rec) {
            return true;
        }
    }
    false
}

/// Whether each current and each held record has a slot outside a block.
fn is_removable<R: CommitRule>(list: &[Found], block: u32) -> bool
    requires scanned { IsScanned list.now }
    requires pages { All (OwnPageExists LOGICAL) list.now }
{
    for at in 0..list.len() {
        let rec = list[at].rec;
        let is_current = rec.version == R::current(list, LOGICAL, rec.page);
        if (is_current || R::held(list, LOGICAL, at)) && !stands_outside(list, block, rec) {
            return false;
        }
    }
    true
}

/// Whether some block is removable.
fn has_removable<R: CommitRule>(list: &[Found]) -> bool
    requires scanned { IsScanned list.now }
    requires pages { All (OwnPageExists LOGICAL) list.now }
{
    for block in 0..8 {
        if is_removable::<R>(list, block) {
            return true;
        }
    }
    false
}

/// Whether an item has the name of one in a lower slot and another record, or other bytes.
fn differs(items: &[Placed], item: &Placed) -> bool {
    for lower in items {
        let is_double = lower.slot < item.slot && is_one_name(lower.rec, item.rec);
        if is_double && (lower.rec != item.rec || lower.fill != item.fill) {
            return true;
        }
    }
    false
}

/// The lowest slot that has the name of a lower one and another record, or other bytes.
fn first_other(items: &[Placed]) -> Option<Slot> {
    for item in items {
        if differs(items, item) {
            return Some(Slot(item.slot));
        }
    }
    None
}

/// The records of items, one by one.
fn list_of(alloc: Global, items: &[Placed]) -> Result<Vec<Found>, AllocError> {
    let mut list = Vec::new(alloc);
    for item in items {
        list.push(found(item.slot, item.rec))?;
    }
    Ok(list)
}

/// The law that a flash with these records breaks, if it breaks one: law 2 with the bytes, else by the plain audit,
/// else law 8 block by block.
fn breach<R: CommitRule>(list: &[Found], other: Option<Slot>) -> Option<Breach>
    requires scanned { IsScanned list.now }
    requires pages { All (OwnPageExists LOGICAL) list.now }
{
    if let Some(slot) = other {
        return Some(Breach { law: 2, slot });
    }
    match R::audit(list, LOGICAL) {
        None if !has_removable::<R>(list) => Some(Breach {
            law: 8,
            slot: Slot(0),
        }),
        breach => breach,
    }
}

/// Whether a flash with these records is refused for this law and slot, or is not refused.
fn is_right<R: CommitRule>(
    list: &[Found],
    other: Option<Slot>,
    refusal: Option<RecoverError>,
) -> bool {
    if !is_scanned(list) || !have_pages(list) {
        return false;
    }
    match breach::<R>(list, other) {
        Some(Breach { law, slot }) => refusal == Some(RecoverError::Unsound { law, slot }),
        None => refusal.is_none(),
    }
}

/// Programs items. Returns whether that could be done.
fn are_put(flash: &mut MemFlash, protocol: Protocol, items: &[Placed]) -> bool
    requires { flash.old.shape.page_bytes ≡ 16 }
    ensures { flash.new.shape ≡ flash.old.shape }
{
    for item in items {
        if !put_record(flash, protocol, Slot(item.slot), item.rec, item.fill) {
            return false;
        }
    }
    true
}

/// How many flashes were refused, and how many of them by law 8.
#[derive(Clone, Copy)]
struct Refusals {
    all: u32,
    full: u32,
}

impl Refusals {
    /// Whether there were sound flashes, flashes without a removable block, and others.
    fn are_varied(&self) -> bool {
        50 < self.full && self.full.saturating_add(50) < self.all && self.all < 390
    }

    /// Counts one more flash.
    fn count(&mut self, refusal: Option<RecoverError>) {
        if refusal.is_some() {
            self.all = self.all.saturating_add(1);
        }
        if matches!(refusal, Some(RecoverError::Unsound { law: 8, .. })) {
            self.full = self.full.saturating_add(1);
        }
    }
}

/// Whether a flash with these records is refused where it has to be, and for the right law and slot.
fn agrees(alloc: Global, config: Config, items: &[Placed], refusal: Option<RecoverError>) -> bool {
    let Ok(list) = list_of(alloc, items) else {
        return false;
    };
    let other = first_other(items);
    match config.protocol {
        Protocol::Scc => is_right::<Scc>(&list, other, refusal),
        Protocol::Bpcc => is_right::<Bpcc>(&list, other, refusal),
    }
}

/// Whether recovery of a new flash agrees with the plain audit of these records.
fn is_judged(
    alloc: Global,
    flash: &mut MemFlash,
    config: Config,
    items: &[Placed],
    refusals: &mut Refusals,
) -> bool
    requires check { checked config ≡ Ok flash.old.shape }
    requires page { flash.old.shape.page_bytes ≡ 16 }
{
    if !are_put(flash, config.protocol, items) {
        return false;
    }
    let refusal = refused(alloc, flash, config);
    refusals.count(refusal);
    agrees(alloc, config, items, refusal)
}

/// Whether recovery agrees with the plain audit in a round: of records as they come, or of blocks that are mostly
/// full.
fn is_round_right(
    alloc: Global,
    config: Config,
    is_full: bool,
    seed: &mut u64,
    refusals: &mut Refusals,
) -> bool
    requires check { checked config ≡ Ok (shape_of config) }
    requires page { config.page_bytes ≡ 16 }
{
    let mut items = Vec::new(alloc);
    let placed = if is_full {
        place_full(seed, config.protocol, &mut items)
    } else {
        place_any(seed, config.protocol, &mut items)
    };
    if placed.is_err() {
        return false;
    }
    match blank_flash(alloc, config) {
        Some(mut flash) => {
            let is_so = is_judged(alloc, &mut flash, config, &items, refusals);
            drop(flash);
            is_so
        }
        None => false,
    }
}

/// In how many of 200 rounds recovery agrees with the plain audit, before the first in which it does not.
fn right_rounds(alloc: Global, refusals: &mut Refusals) -> u32 {
    let mut seed = 1;
    for round in 0..200 {
        let is_full = round % 2 != 0;
        if !is_round_right(alloc, SIMPLE, is_full, &mut seed, refusals)
            || !is_round_right(alloc, BACK_POINTER, is_full, &mut seed, refusals)
        {
            return round;
        }
    }
    200
}

/// Whether recovery agrees with the plain audit in each round, over flashes of all kinds.
pub fn is_audited(alloc: Global) -> bool {
    let mut refusals = Refusals { all: 0, full: 0 };
    right_rounds(alloc, &mut refusals) == 200 && refusals.are_varied()
}
