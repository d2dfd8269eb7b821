//! After random changes the tables tell what plain loops over what they are given tell.

ghost use Rattle.std.specs.Prelude.{ℕ, ◌≡◌, ◌<◌, [], length, IsTrue, IfSome, Some};
ghost use Rattle.tx_types.specs.Config.{slots_of, blocks_of};
ghost use Rattle.slot_tables.specs.TablesState.{record_at, copies_of, IsNewest};
ghost use Rattle.slot_tables.specs.Versions.{HasFree};

use slot_tables::{SlotUse, Tables};
use std::alloc::Global;
use tx_types::{Block, Link, Rec, Shape, Slot};

/// Two dies of three blocks of four slots.
const SHAPE: Shape = Shape {
    page_bytes: 16,
    pages_per_block: 4,
    blocks_per_die: 3,
    dies: 2,
};

const SLOTS: u32 = 24;

const BLOCKS: u32 = 6;

const PAGES: u32 = 4;

/// How many numbers are used.
const NUMBERS: u32 = 9;

/// A number without a record.
fn free_number(tables: &Tables) -> Option<u32>
    ensures { IfSome result (λ number. HasFree tables.now.records) }
{
    for number in 0..tables.shape().slots() {
        if tables.record(number).is_none() {
            return Some(number);
        }
    }
    None
}

/// Whether a record is newer than those of its page.
fn is_newest(tables: &Tables, rec: Rec) -> bool
    ensures { IsTrue result → IsNewest tables.now.records rec }
{
    for number in 0..tables.shape().slots() {
        if !is_older(tables.record(number), rec) {
            return false;
        }
    }
    true
}

/// Whether a record, if there is one, is of another page, or older.
fn is_older(other: Option<Rec>, rec: Rec) -> bool
    ensures { IsTrue result → IfSome other (λ r. r.page ≡ rec.page → r.version < rec.version) }
{
    match other {
        None => true,
        Some(other) => other.page != rec.page || other.version < rec.version,
    }
}

/// Whether each record has a version above 0.
fn are_above(tables: &Tables) -> bool
    ensures { IsTrue result → (number : ℕ) → IfSome (record_at tables.now.records number) (λ r. 0 < r.version) }
{
    for number in 0..tables.shape().slots() {
        if !is_above(tables.record(number)) {
            return false;
        }
    }
    true
}

/// Whether a record, if there is one, has a version above 0.
fn is_above(rec: Option<Rec>) -> bool
    ensures { IsTrue result → IfSome rec (λ r. 0 < r.version) }
{
    match rec {
        None => true,
        Some(rec) => rec.version > 0,
    }
}

/// Whether no slot holds the record of a number, which is of this page.
fn may_give_up(tables: &Tables, page: u32, number: u32) -> bool
    requires { number < slots_of tables.now.shape }
    ensures { IsTrue result → (copies_of tables.now.slots number ≡ [])
        × IfSome (record_at tables.now.records number) (λ r. r.page ≡ page) }
{
    let is_of = match tables.record(number) {
        None => true,
        Some(rec) => rec.page == page,
    };
    is_of && tables.first_copy(number).is_none()
}

/// The home of the record of a number: its lowest slot outside the spare, or else in it.
fn home(tables: &Tables, number: u32) -> Option<u32> {
    let shape = tables.shape();
    let mut inside = None;
    for at in 0..shape.slots() {
        if tables.slot(Slot(at)) == SlotUse::Holds(number) {
            if tables.spare() != Some(Block(at / shape.pages_per_block)) {
                return Some(at);
            }
            if inside.is_none() {
                inside = Some(at);
            }
        }
    }
    inside
}

/// Whether a record has this one as its answerer.
fn is_answerer(tables: &Tables, number: u32) -> bool {
    for other in 0..tables.shape().slots() {
        if tables.answerer(other) == Some(number) {
            return true;
        }
    }
    false
}

/// Whether the record of a number is current, answers for another one, or is pinned.
fn is_wanted(tables: &Tables, number: u32) -> bool
    requires shape { tables.now.shape ≡ SHAPE }
    requires pages { length tables.now.pages ≡ PAGES }
{
    if number >= SLOTS {
        return false;
    }
    let Some(rec) = tables.record(number) else {
        return false;
    };
    rec.page < PAGES
        && (tables.current(rec.page) == Some(number)
            || tables.pinned_version(rec.page) == rec.version
            || is_answerer(tables, number))
}

/// Whether a slot is the home of a record that is wanted.
fn is_needed(tables: &Tables, at: u32) -> bool
    requires shape { tables.now.shape ≡ SHAPE }
    requires pages { length tables.now.pages ≡ PAGES }
    requires slot { at < SLOTS }
{
    match tables.slot(Slot(at)) {
        SlotUse::Blank | SlotUse::Damaged => false,
        SlotUse::Holds(number) => home(tables, number) == Some(at) && is_wanted(tables, number),
    }
}

/// Whether the tables say of a block, and of each slot of it, what is counted slot by slot.
fn is_counted(tables: &Tables, block: u32) -> bool
    requires shape { tables.now.shape ≡ SHAPE }
    requires pages { length tables.now.pages ≡ PAGES }
    requires block { block < BLOCKS }
{
    let is_spare = tables.spare() == Some(Block(block));
    let mut blanks: u32 = 0;
    let mut part: u32 = 0;
    let mut shut: u32 = 0;
    for at in 0..SLOTS {
        if at / SHAPE.pages_per_block == block {
            let is_blank = tables.slot(Slot(at)) == SlotUse::Blank;
            let is_needed = is_needed(tables, at);
            if tables.needed(Slot(at)) != is_needed {
                return false;
            }
            let is_garbage = !is_needed && !is_spare;
            blanks = blanks.wrapping_add(u32::from(is_blank));
            shut = shut.wrapping_add(u32::from(is_garbage));
            part = part.wrapping_add(u32::from(is_garbage && !is_blank));
        }
    }
    blanks == tables.blanks(Block(block))
        && part == tables.garbage(Block(block), false)
        && shut == tables.garbage(Block(block), true)
}

/// Whether the tables say of the blocks as they are, shut or not, what they say of each.
fn is_recounted_now(tables: &Tables) -> bool
    requires shape { tables.now.shape ≡ SHAPE }
{
    let mut most = 0;
    let mut place = None;
    let mut all: u32 = 0;
    for block in 0..BLOCKS {
        let block = Block(block);
        let garbage = tables.garbage(block, tables.is_shut(block));
        all = all.wrapping_add(garbage);
        if garbage > most {
            most = garbage;
            place = Some(block);
        }
    }
    tables.most_garbage_now() == place && tables.all_garbage() == all
}

/// Whether the tables say of each block, and of the block with the greatest number, what the slots say.
fn is_recounted(tables: &Tables) -> bool
    requires shape { tables.now.shape ≡ SHAPE }
    requires pages { length tables.now.pages ≡ PAGES }
{
    let mut most = 0;
    let mut place = None;
    for block in 0..BLOCKS {
        if !is_counted(tables, block) {
            return false;
        }
        let shut = tables.garbage(Block(block), true);
        if shut > most {
            most = shut;
            place = Some(Block(block));
        }
    }
    tables.most_garbage() == place
        && tables.most_garbage_among(0) == most
        && is_recounted_now(tables)
}

/// Gives a page a record that is newer than those it has, where a number is free. Returns whether it is kept.
fn is_added(tables: &mut Tables, page: u32, version: u64) -> bool
    requires shape { tables.old.shape ≡ SHAPE }
    requires pages { length tables.old.pages ≡ PAGES }
    requires page { page < PAGES }
    ensures shape { tables.new.shape ≡ SHAPE }
    ensures pages { length tables.new.pages ≡ PAGES }
{
    let rec = Rec {
        page,
        version,
        next: Link { page, version },
        back: 0,
        count: 0,
        discard: false,
    };
    if free_number(tables).is_none() || !is_newest(tables, rec) {
        return true;
    }
    let number = tables.add(&rec);
    tables.record(number) == Some(rec)
}

/// Changes what a slot holds, or which record answers for the one of a number.
fn change_slot(tables: &mut Tables, kind: u32, at: u32, number: u32)
    requires shape { tables.old.shape ≡ SHAPE }
    requires slot { at < SLOTS }
    requires number { number < NUMBERS }
    ensures shape { tables.new.shape ≡ SHAPE }
    ensures pages { tables.new.pages ≡ tables.old.pages }
{
    match kind {
        0 | 1 => tables.set_slot(Slot(at), SlotUse::Holds(number)),
        2 => tables.set_slot(Slot(at), SlotUse::Blank),
        3 => tables.set_slot(Slot(at), SlotUse::Damaged),
        6 => tables.set_answerer(at, Some(number)),
        7 => tables.set_answerer(at, None),
        _ => tables.set_spare(Block(at % BLOCKS)),
    }
}

/// Changes what is known of a page, as far as it may be changed.
fn change_page(tables: &mut Tables, kind: u32, number: u32, page: u32)
    requires shape { tables.old.shape ≡ SHAPE }
    requires pages { length tables.old.pages ≡ PAGES }
    requires number { number < NUMBERS }
    requires page { page < PAGES }
    ensures shape { tables.new.shape ≡ SHAPE }
    ensures pages { length tables.new.pages ≡ PAGES }
{
    match kind {
        4 => tables.set_current(page, Some(number)),
        5 => tables.set_current(page, None),
        9 => tables.set_waits(number, Some(page)),
        8 => {
            if are_above(tables) {
                tables.pin(page, u64::from(number));
            }
        }
        _ => {
            if tables.record(number).is_some() && may_give_up(tables, page, number) {
                tables.give_up(page, number);
            }
        }
    }
}

/// Makes one change, as far as it may be made. Returns whether the tables are right before and after it.
fn is_changed(tables: &mut Tables, kind: u32, at: u32, number: u32, page: u32) -> bool
    requires shape { tables.old.shape ≡ SHAPE }
    requires pages { length tables.old.pages ≡ PAGES }
    requires slot { at < SLOTS }
    requires number { number < NUMBERS }
    requires page { page < PAGES }
    ensures shape { tables.new.shape ≡ SHAPE }
    ensures pages { length tables.new.pages ≡ PAGES }
{
    let was_above = are_above(tables);
    if kind > 11 {
        return is_added(tables, page, u64::from(number) + 1) && is_recounted(tables);
    }
    if matches!(kind, 4 | 5 | 8 | 9 | 11) {
        change_page(tables, kind, number, page);
    } else {
        change_slot(tables, kind, at, number);
    }
    was_above && is_recounted(tables)
}

/// Whether 200 changes, and as many of closed blocks, leave tables that are right.
fn are_changed(tables: &mut Tables) -> bool
    requires shape { tables.old.shape ≡ SHAPE }
    requires pages { length tables.old.pages ≡ PAGES }
{
    let mut random: u32 = 5;
    for _ in 0..200 {
        random = random.wrapping_mul(1664525).wrapping_add(1013904223);
        let (kind, at) = ((random >> 27) % 16, (random >> 8) % SLOTS);
        let (number, page) = ((random >> 13) % NUMBERS, (random >> 20) % PAGES);
        tables.set_closed(Block((random >> 3) % BLOCKS), random & 64 == 0);
        if !is_changed(tables, kind, at, number, page) {
            return false;
        }
    }
    true
}

/// Whether new tables are right.
pub fn is_history(alloc: Global) -> bool {
    match Tables::new(alloc, SHAPE, PAGES) {
        Ok(mut tables) => {
            let is_so = are_changed(&mut tables);
            drop(tables);
            is_so
        }
        Err(_) => false,
    }
}
