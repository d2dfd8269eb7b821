//! Configurations, records, and flashes that hold them.

ghost use Rattle.std.specs.Prelude.{◌≡◌, ◌<◌, IfSome, IsTrue, Ok, length};
ghost use Rattle.tx_types.specs.Config.{checked, shape_of, slots_of, blocks_of};
ghost use Rattle.flash_model.specs.Operations.{CanProgram};
ghost use Rattle.page_record.specs.Spelling.{CanBeSpelled, IsBack};
ghost use Rattle.record_list.specs.Records.{IsScanned};

use crate::texts::{link, number_of, number_or_zero, outcome, word};
use flash_model::{Arms, Flash, Outcome, SPARE_BYTES};
use mem_flash::MemFlash;
use page_record::write_spare;
use record_list::{CommitRule, Found};
use std::alloc::Global;
use tx_types::{Block, Config, Link, MAX_VERSION, Protocol, Rec, Slot};
use version_index::Index;

/// Two dies of four blocks of four slots, and twenty pages.
pub const SIMPLE: Config = Config {
    protocol: Protocol::Scc,
    page_bytes: 16,
    pages_per_block: 4,
    blocks_per_die: 4,
    dies: 2,
    logical: 20,
    pending: 7,
};

/// Two dies of four blocks of four slots, and twenty pages, under Back Pointer Cyclic Commit.
pub const BACK_POINTER: Config = Config {
    protocol: Protocol::Bpcc,
    page_bytes: 16,
    pages_per_block: 4,
    blocks_per_die: 4,
    dies: 2,
    logical: 20,
    pending: 7,
};

/// Three blocks of two slots, and two pages.
pub const SMALL: Config = Config {
    protocol: Protocol::Scc,
    page_bytes: 16,
    pages_per_block: 2,
    blocks_per_die: 3,
    dies: 1,
    logical: 2,
    pending: 1,
};

/// The record of a name, with its link and its back version.
pub fn rec(name: Link, next: Link, back: u64) -> Rec {
    Rec {
        page: name.page,
        version: name.version,
        next,
        back,
        count: 0,
        discard: false,
    }
}

/// A record in a slot.
pub fn found(slot: u32, rec: Rec) -> Found
    ensures slot { result.slot.0 ≡ slot }
    ensures rec { result.rec ≡ rec }
{
    Found {
        slot: Slot(slot),
        rec,
    }
}

/// Whether a list stands in ascending order of slots and has no version 0.
pub fn is_scanned(list: &[Found]) -> bool
    ensures { IsTrue result → IsScanned list.now }
{
    let mut low = 0;
    for found in list {
        if u64::from(found.slot.0) < low || found.rec.version == 0 || found.rec.next.version == 0 {
            return false;
        }
        low = u64::from(found.slot.0) + 1;
    }
    true
}

/// Whether a page exists.
pub fn has_page<R: CommitRule>(index: &Index<R>, page: u32) -> bool
    ensures { IsTrue result → page < index.now.config.logical }
{
    page < index.config().logical
}

/// Whether a block exists.
pub fn has_block<R: CommitRule>(index: &Index<R>, block: Block) -> bool
    ensures { IsTrue result → block.0 < blocks_of (shape_of index.now.config) }
{
    let config = index.config();
    block.0 < config.blocks_per_die * config.dies
}

/// The number of slots of a device.
pub fn slot_count<R: CommitRule>(index: &Index<R>) -> u32
    ensures slots { result ≡ slots_of (shape_of index.now.config) }
    ensures notes { result ≡ length index.now.notes }
{
    let config = index.config();
    config.pages_per_block * (config.blocks_per_die * config.dies)
}

/// Whether a slot exists.
pub fn has_slot<R: CommitRule>(index: &Index<R>, at: Slot) -> bool
    ensures { IsTrue result → at.0 < slots_of (shape_of index.now.config) }
{
    at.0 < slot_count(index)
}

/// The record that a text says behind its slot: its name and its link, and then, as far as they are not 0, its back
/// version, its byte and its count, and `discard`.
fn rec_of(text: &str) -> Rec {
    Rec {
        count: number_or_zero(text, 5),
        discard: word(text, 6) == "discard",
        ..rec(
            link(text, 1),
            link(text, 2),
            u64::from(number_or_zero(text, 3)),
        )
    }
}

/// Whether a record has a back version that its protocol allows.
fn is_back_right(protocol: Protocol, rec: Rec) -> bool
    ensures { IsTrue result → IsBack protocol rec.version rec.back }
{
    match protocol {
        Protocol::Scc => rec.back == 0,
        Protocol::Bpcc => rec.back < rec.version,
    }
}

/// Whether a record has a spare area.
fn has_spare_area(protocol: Protocol, rec: Rec) -> bool
    ensures { IsTrue result → CanBeSpelled protocol rec }
{
    is_back_right(protocol, rec)
        && rec.version >= 1
        && rec.version <= MAX_VERSION
        && rec.next.version >= 1
        && rec.next.version <= MAX_VERSION
        && rec.count <= 256
        && (rec.count > 0 || !rec.discard)
}

/// Whether a slot may be programmed: it and all later slots of its block are blank.
fn may_program(flash: &MemFlash, at: Slot) -> bool
    ensures { IsTrue result → CanProgram flash.now.shape flash.now.image at.0 }
{
    let shape = flash.shape();
    if at.0 >= shape.slots() {
        return false;
    }
    let end = (at.0 / shape.pages_per_block + 1) * shape.pages_per_block;
    for slot in at.0..end {
        if !flash.seen(Slot(slot)).is_blank() {
            return false;
        }
    }
    true
}

/// Programs a slot, where it may be. Returns whether that was not broken.
fn program(flash: &mut MemFlash, at: Slot, fill: u8, spare_area: &[u8; SPARE_BYTES]) -> Option<bool>
    requires { flash.old.shape.page_bytes ≡ 16 }
    ensures { flash.new.shape ≡ flash.old.shape }
{
    if may_program(flash, at) {
        Some(flash.program(at, &[fill; 16], spare_area).is_ok())
    } else {
        None
    }
}

/// Programs a record. Returns whether that could be done and was not broken.
pub fn put_record(flash: &mut MemFlash, protocol: Protocol, at: Slot, rec: Rec, fill: u8) -> bool
    requires { flash.old.shape.page_bytes ≡ 16 }
    ensures { flash.new.shape ≡ flash.old.shape }
{
    if !has_spare_area(protocol, rec) {
        return false;
    }
    let mut spare_area = [0; SPARE_BYTES];
    write_spare(rec, protocol, &mut spare_area);
    program(flash, at, fill, &spare_area) == Some(true)
}

/// Sets the arm that a text says, with its count from 1: `cut 1 bad`, `fault 2 all`, `badread 1`. Returns whether it
/// says one.
pub fn is_armed(flash: &mut MemFlash, text: &str) -> bool
    ensures shape { flash.new.shape ≡ flash.old.shape }
    ensures image { flash.new.image ≡ flash.old.image }
{
    let count = number_or_zero(text, 1);
    if count == 0 {
        return false;
    }
    match word(text, 0) {
        "cut" => flash.arm_cut(count, outcome(text, 2)),
        "fault" => flash.arm_fault(count, outcome(text, 2)),
        "badread" => flash.arm_bad_read(count),
        _ => return false,
    }
    true
}

/// Does to a slot what a text says behind it: `4 damaged`, `4 zeros`, or the record of which it is, with a page that is
/// full of a byte. Returns whether that could be done.
fn put_slot(flash: &mut MemFlash, protocol: Protocol, at: Slot, text: &str) -> bool
    requires { flash.old.shape.page_bytes ≡ 16 }
    ensures { flash.new.shape ≡ flash.old.shape }
{
    match word(text, 1) {
        "damaged" => {
            flash.arm_fault(1, Outcome::Bad);
            program(flash, at, 0, &[0; SPARE_BYTES]) == Some(false)
        }
        "zeros" => program(flash, at, 0, &[0; SPARE_BYTES]) == Some(true),
        _ => {
            let fill = word(text, 4).parse().unwrap_or(0);
            put_record(flash, protocol, at, rec_of(text), fill)
        }
    }
}

/// Does the item that a text says to a flash: `nothing`, `badread 2`, or what is done to a slot. Returns whether that
/// could be done.
fn put(flash: &mut MemFlash, protocol: Protocol, text: &str) -> bool
    requires { flash.old.shape.page_bytes ≡ 16 }
    ensures { flash.new.shape ≡ flash.old.shape }
{
    match word(text, 0) {
        "nothing" => true,
        "badread" => is_armed(flash, text),
        slot => put_slot(flash, protocol, Slot(number_of(slot)), text),
    }
}

/// Does the items of a text to a flash. Returns whether that could be done.
pub fn put_all(flash: &mut MemFlash, protocol: Protocol, items: &str) -> bool
    requires { flash.old.shape.page_bytes ≡ 16 }
    ensures { flash.new.shape ≡ flash.old.shape }
{
    for item in items.split(", ") {
        if !put(flash, protocol, item) {
            return false;
        }
    }
    true
}

/// A new flash of a configuration.
pub fn blank_flash(alloc: Global, config: Config) -> Option<MemFlash>
    requires { checked config ≡ Ok (shape_of config) }
    ensures { IfSome result (λ flash. flash.shape ≡ shape_of config) }
{
    let Ok(shape) = config.check() else {
        return None;
    };
    MemFlash::new(alloc, shape).ok()
}

/// A flash to which these items were done, where that could be.
pub fn written(alloc: Global, config: Config, items: &str) -> Option<MemFlash>
    requires check { checked config ≡ Ok (shape_of config) }
    requires page { config.page_bytes ≡ 16 }
    ensures { IfSome result (λ flash. flash.shape ≡ shape_of config) }
{
    let mut flash = blank_flash(alloc, config)?;
    if put_all(&mut flash, config.protocol, items) {
        return Some(flash);
    }
    drop(flash);
    None
}
