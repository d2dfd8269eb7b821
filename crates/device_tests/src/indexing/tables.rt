//! Tables of a few slots and records, and what they hold.

ghost use Rattle.std.specs.Prelude.{◌≡◌, ◌<◌, [], ◌∷◌, length, map, IsTrue, IfOk, Ok};
ghost use Rattle.tx_types.specs.Config.{checked, shape_of, slots_of};
ghost use Rattle.judged_records.specs.IndexState.{IsNextRecord, IsCompleteCycle};
ghost use Rattle.judged_records.specs.Notes.{note_at, found_in, complete_slots};
ghost use Rattle.judged_records.specs.declared.note.Note.TheVariants as note;

use super::lines::is_right;
use crate::building::{BACK_POINTER, found, has_slot, is_scanned, rec, slot_count};
use bpcc_commit::Bpcc;
use flash_model::Seen;
use flash_model::Seen::{Blank, Complete, Damaged};
use record_list::{CommitRule, Found, link_of, newest, present};
use scc_commit::Scc;
use std::alloc::Global;
use tx_types::{Config, Link, MAX_VERSION, Memory, Protocol, Rec, Slot};
use version_index::Index;

/// Two dies of two blocks of three slots.
const CONFIG: Config = Config {
    protocol: Protocol::Scc,
    page_bytes: 16,
    pages_per_block: 3,
    blocks_per_die: 2,
    dies: 2,
    logical: 4,
    pending: 1,
};

/// The tables of slots that read so and hold these records, which keep the laws.
fn opened<R: CommitRule>(
    alloc: Global,
    config: Config,
    seen: &[Seen],
    list: &[Found],
) -> Option<Index<R>>
    requires check { checked config ≡ Ok (shape_of config) }
    requires rule { config.protocol ≡ R.protocol }
    requires seen { length seen.now ≡ slots_of (shape_of config) }
    requires complete { map (λ f. f.slot.0) list.now ≡ complete_slots seen.now }
{
    if !is_scanned(list) {
        return None;
    }
    match R::audit(list, config.logical) {
        None => Index::from_scan(alloc, config, seen, list).ok(),
        Some(_) => None,
    }
}

/// Whether tables, which end then, are right at each part of a line.
pub fn are_right<R: CommitRule>(alloc: Global, tables: Option<Index<R>>, line: &str) -> bool {
    match tables {
        Some(mut index) => {
            let is_so = is_right(alloc, &mut index, line);
            drop(index);
            is_so
        }
        None => false,
    }
}

/// Whether a slot exists and is blank.
pub fn is_blank<R: CommitRule>(index: &Index<R>, at: Slot) -> bool
    ensures { IsTrue result → (at.0 < slots_of (shape_of index.now.config))
        × (note_at index.now.notes at.0 ≡ note.Blank) }
{
    has_slot(index, at) && index.seen(at) == Blank
}

/// The noted records, in the order of their slots.
fn records<R: CommitRule>(alloc: Global, index: &Index<R>) -> Result<Vec<Found>, Memory>
    ensures { IfOk result (λ list. list.items ≡ found_in index.now.notes) }
{
    let mut list = Vec::new(alloc);
    for at in 0..slot_count(index) {
        if let Some(rec) = index.rec(Slot(at)) {
            list.push(found(at, rec))?;
        }
    }
    Ok(list)
}

/// Whether no slot holds a record.
pub fn has_no_record<R: CommitRule>(index: &Index<R>) -> bool
    ensures { IsTrue result → found_in index.now.notes ≡ [] }
{
    for at in 0..slot_count(index) {
        if index.rec(Slot(at)).is_some() {
            return false;
        }
    }
    true
}

/// Whether a record is one that a transaction of one page asks for where there is no record yet.
fn is_first_record(index: &Index<Scc>, rec: Rec) -> bool
    ensures { IsTrue result → IsNextRecord index.now rec }
{
    let config = index.config();
    if !has_no_record(index) {
        return false;
    }
    if rec.page >= config.logical {
        return false;
    }
    if rec.version < 1 {
        return false;
    }
    if rec.version > MAX_VERSION {
        return false;
    }
    if rec.next.page != rec.page {
        return false;
    }
    if rec.next.version != rec.version {
        return false;
    }
    if rec.count != 1 {
        return false;
    }
    rec.back == 0
}

/// Whether a record that links to itself is the newest of its page.
fn is_cycle_of_one<R: CommitRule>(index: &Index<R>, list: &[Found], name: Link) -> bool
    requires { list.now ≡ found_in index.now.notes }
    ensures { IsTrue result → IsCompleteCycle index.now (name ∷ []) }
{
    let _ = index;
    present(list, name) && newest(list, name.page) == name.version && link_of(list, name) == name
}

/// A link to a page at a version.
fn link(page: u32, version: u64) -> Link {
    Link { page, version }
}

/// A record in a slot: its page and its version, those of its link, and its back version.
fn placed(slot: u32, name: (u32, u64), next: (u32, u64), back: u64) -> Found
    ensures { result.slot.0 ≡ slot }
{
    found(slot, rec(link(name.0, name.1), link(next.0, next.1), back))
}

/// A record of page 0 with a copy in each of the blocks 0 to 2, a damaged slot, and an aborted record.
fn doubled(alloc: Global) -> Option<Index<Scc>> {
    let seen = [
        Blank, Complete, Blank, Damaged, Complete, Blank, Complete, Complete, Blank, Blank, Blank,
        Blank,
    ];
    let list = [
        placed(1, (0, 1), (0, 1), 0),
        placed(4, (0, 1), (0, 1), 0),
        placed(6, (1, 3), (2, 7), 0),
        placed(7, (0, 1), (0, 1), 0),
    ];
    opened::<Scc>(alloc, CONFIG, &seen, &list)
}

/// Takes a record into the array that is the only one. Returns whether that could be.
fn is_taken(index: &mut Index<Scc>, list: &[Found], name: Link) -> bool
    requires { list.now ≡ found_in index.old.notes }
{
    if !is_cycle_of_one(index, list, name) {
        return false;
    }
    index.commit(&[name]);
    true
}

/// Programs a first record, of page 2 at version 5, which discards its page or not, and takes it into the array.
/// Returns whether that could be.
fn is_written(alloc: Global, index: &mut Index<Scc>, discard: bool) -> bool {
    let name = link(2, 5);
    let first = Rec {
        count: 1,
        discard,
        ..rec(name, name, 0)
    };
    if !is_blank(index, Slot(9)) || !is_first_record(index, first) {
        return false;
    }
    index.note_program(Slot(9), first);
    match records(alloc, index) {
        Ok(list) => is_taken(index, &list, name),
        Err(_) => false,
    }
}

/// A block of a blank flash that is lost and erased.
const CLEARED: &str = "lost 3; garbage 2 0 3; garbage 3 3 3; erased 3; garbage 3 0 3";

/// The tables of a blank flash of which a block is lost and erased, and into which a first record is written then.
fn first(alloc: Global, discard: bool) -> Option<Index<Scc>> {
    let mut index = opened::<Scc>(alloc, CONFIG, &[Blank; 12], &[])?;
    if is_right(alloc, &mut index, CLEARED) && is_written(alloc, &mut index, discard) {
        return Some(index);
    }
    drop(index);
    None
}

/// Under Back Pointer Cyclic Commit: an aborted record of page 0, a superseded one of page 1 that
/// straddles its link, and pages that were written since.
fn held(alloc: Global) -> Option<Index<Bpcc>> {
    let seen = [
        Complete, Complete, Complete, Complete, Blank, Blank, Blank, Blank, Blank, Blank, Blank,
        Blank, Blank, Blank, Blank, Blank, Complete, Complete, Complete, Complete, Blank, Blank,
        Blank, Blank, Blank, Blank, Blank, Blank, Blank, Blank, Blank, Blank,
    ];
    let list = [
        placed(0, (0, 1), (1, 1), 0),
        placed(1, (1, 3), (1, 3), 2),
        placed(2, (3, 1), (3, 1), 0),
        placed(3, (4, 1), (4, 1), 0),
        placed(16, (1, 2), (1, 2), 0),
        placed(17, (2, 1), (2, 1), 0),
        placed(18, (2, 2), (2, 2), 1),
        placed(19, (2, 3), (2, 3), 2),
    ];
    opened::<Bpcc>(alloc, BACK_POINTER, &seen, &list)
}

/// Seventeen blocks: one of them is alone in the second sixteen.
const SEVENTEEN: Config = Config {
    protocol: Protocol::Scc,
    page_bytes: 16,
    pages_per_block: 2,
    blocks_per_die: 17,
    dies: 1,
    logical: 4,
    pending: 1,
};

/// The tables of seventeen blank blocks.
fn seventeen(alloc: Global) -> Option<Index<Scc>> {
    opened::<Scc>(alloc, SEVENTEEN, &[Blank; 34], &[])
}

/// Whether the tables of a name are right at each part of a line.
pub fn is_table_right(alloc: Global, name: &str, line: &str) -> bool {
    match name {
        "doubled" => are_right(alloc, doubled(alloc), line),
        "first" => are_right(alloc, first(alloc, false), line),
        "discard" => are_right(alloc, first(alloc, true), line),
        "held" => are_right(alloc, held(alloc), line),
        "seventeen" => are_right(alloc, seventeen(alloc), line),
        _ => false,
    }
}
