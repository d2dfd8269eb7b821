ghost use Rattle.std.specs.Prelude.{◌≡◌, ◌+◌, ◌*◌, ◌<◌, ◌≤◌, ◌↔◌, map, IsNone, IfSome, count_by, sum_by, vec_capacity};
ghost use Rattle.std.specs.List.{range_with_len};
ghost use Rattle.std.specs.Option.{option_map};
ghost use Rattle.tx_types.specs.Config.{shape_of, slots_of, blocks_of};
ghost use Rattle.judged_records.specs.IndexState.{mention_of, current_of, current_name_of, discarded_of, place_of, IsBlank, slot_off, needed_of, block_to_go, garbage_of, shut_or_part, is_garbage_at, blanks_of, garbage_now, is_going, going_blocks, FindsMostGarbage, FindsMostGarbageNow, IsMostAmong, HoldsName};
ghost use Rattle.judged_records.specs.Notes.{note_at, seen_as, rec_of};
ghost use Rattle.version_index.specs.Written.{written_of};

use crate::Index;
use crate::clearing::{block_must_go, lowest_to_go, order_blocks, put_blocks_to_go};
use crate::committing::{current_version, discards_now};
use flash_model::Seen;
use record_list::CommitRule;
use slot_tables::SlotUse;
use tx_types::{Block, Protocol, Rec, Slot};

impl<R: CommitRule> Index<R> {
    /// How a slot reads, as it was noted.
    pub fn seen(&self, at: Slot) -> Seen
        requires { at.0 < slots_of (shape_of self.now.config) }
        ensures { result ≡ seen_as (note_at self.now.notes at.0) }
    {
        match self.tables.slot(at) {
            SlotUse::Blank => Seen::Blank,
            SlotUse::Damaged => Seen::Damaged,
            SlotUse::Holds(_) => Seen::Complete,
        }
    }

    /// The record that a slot holds, if it holds one.
    pub fn rec(&self, at: Slot) -> Option<Rec>
        requires { at.0 < slots_of (shape_of self.now.config) }
        ensures { result ≡ rec_of (note_at self.now.notes at.0) }
    {
        match self.tables.slot(at) {
            SlotUse::Blank | SlotUse::Damaged => None,
            SlotUse::Holds(number) => self.tables.record(number),
        }
    }

    /// The current version of a page, 0 for none.
    pub fn current(&self, page: u32) -> u64
        requires { page < self.now.config.logical }
        ensures { result ≡ current_of self.now page }
    {
        current_version(&self.tables, page)
    }

    /// The greatest version at which a page was mentioned by a record that was ever noted, 0 for
    /// none.
    pub fn mention(&self, page: u32) -> u64
        requires { page < self.now.config.logical }
        ensures { result ≡ mention_of self.now page }
    {
        self.mentions[page as usize]
    }

    /// Whether the current record of a page discards it.
    pub fn discards(&self, page: u32) -> bool
        requires { page < self.now.config.logical }
        ensures { result ≡ discarded_of self.now page }
    {
        discards_now(&self.tables, page)
    }

    /// How many pages are not blank: each has a current record, which does not discard it. No page is looked at.
    pub fn count_written(&self) -> u32
        ensures { result ≡ written_of self.now }
    {
        // For the proof: the sizes of the tables.
        let _ = self.tables.shape();
        self.written
    }

    /// Where the current record of a page is read: its lowest slot outside the spare, or its lowest
    /// slot where it has none outside. Nothing where the page has no current record, or that discards
    /// it. A read asks first whether the page is discarded, and so never comes to a slot of zeros.
    pub fn locate(&self, page: u32) -> Option<Slot>
        requires { page < self.now.config.logical }
        ensures home { option_map (λ at. at.0) result ≡ place_of self.now page }
        ensures none { IsNone result ↔ IsBlank self.now page }
        ensures holds { IfSome result (λ at.
            HoldsName self.now at.0 (current_name_of self.now page)) }
    {
        if self.discards(page) {
            return None;
        }
        self.tables.locate(page)
    }

    /// The lowest slot outside a block that holds the current record of a page, in the spare or not,
    /// if there is one. It returns the slot of a discard too.
    pub fn locate_off(&self, page: u32, block: Block) -> Option<Slot>
        requires page { page < self.now.config.logical }
        requires block { block.0 < blocks_of (shape_of self.now.config) }
        ensures lowest { option_map (λ at. at.0) result
            ≡ slot_off self.now block.0 (current_name_of self.now page) }
        ensures holds { IfSome result (λ at.
            HoldsName self.now at.0 (current_name_of self.now page)) }
    {
        self.tables.locate_off(page, block)
    }

    /// Whether a slot is the home of a record that is current, or held, or pinned.
    pub fn needed(&self, at: Slot) -> bool
        requires { at.0 < slots_of (shape_of self.now.config) }
        ensures { result ≡ needed_of self.now at.0 }
    {
        self.tables.needed(at)
    }

    /// The lowest block that holds a record which must go before the version `below` of a page is
    /// programmed, if there is one.
    pub fn must_go(&self, page: u32, below: u64) -> Option<Block>
        requires { page < self.now.config.logical }
        ensures { option_map (λ block. block.0) result ≡ block_to_go self.now page below }
    {
        let shape = self.tables.shape();
        match lowest_to_go(&self.tables, self.config.protocol, page, below) {
            None => None,
            Some(at) => Some(shape.block_of(at)),
        }
    }

    /// Whether a block holds a record that must go before the version `below` of a page is programmed.
    pub fn is_going(&self, page: u32, below: u64, block: Block) -> bool
        requires page { page < self.now.config.logical }
        requires block { block.0 < blocks_of (shape_of self.now.config) }
        ensures { result ≡ is_going self.now page below block.0 }
    {
        match self.config.protocol {
            Protocol::Scc => block_must_go(&self.tables, page, below, block),
            Protocol::Bpcc => false,
        }
    }

    /// The blocks that hold a record which must go before the version `below` of a page is programmed,
    /// in their order. They replace what the caller's room has.
    pub fn blocks_to_go(&self, page: u32, below: u64, into: &mut Vec<Block>)
        requires page { page < self.now.config.logical }
        requires room { slots_of (shape_of self.now.config) ≤ vec_capacity into.old }
        ensures blocks { map (λ block. block.0) into.new.items ≡ going_blocks self.now page below }
        ensures room { vec_capacity into.new ≡ vec_capacity into.old }
    {
        into.clear();
        match self.config.protocol {
            Protocol::Scc => {
                put_blocks_to_go(&self.tables, page, below, into);
                order_blocks(into);
            }
            Protocol::Bpcc => {}
        }
    }

    /// The number of garbage slots of a block: those that are not needed, without its blank ones where
    /// it is not shut. The spare has none.
    pub fn garbage(&self, block: Block, shut: bool) -> u32
        requires { block.0 < blocks_of (shape_of self.now.config) }
        ensures { result ≡ garbage_of self.now block.0 shut }
    {
        self.tables.garbage(block, shut)
    }

    /// The number of blank slots of a block.
    pub fn blanks(&self, block: Block) -> u32
        requires { block.0 < blocks_of (shape_of self.now.config) }
        ensures { result ≡ blanks_of self.now block.0 }
    {
        self.tables.blanks(block)
    }

    /// The lowest of the blocks that have the most garbage if all blocks are shut. Where there is no
    /// garbage at all there is no such block. It looks at each block, and is there for who builds on this crate: no
    /// program calls it.
    pub fn most_garbage(&self) -> Option<Block>
        ensures { FindsMostGarbage self.now result }
    {
        self.tables.most_garbage()
    }

    /// The most garbage that one of sixteen blocks which follow one another has if all blocks are shut. It is there for
    /// who builds on this crate: no program calls it.
    pub fn most_garbage_among(&self, sixteen: u32) -> u32
        requires { 16 * sixteen < blocks_of (shape_of self.now.config) }
        ensures { IsMostAmong self.now 16 sixteen result }
    {
        self.tables.most_garbage_among(sixteen)
    }

    /// The most garbage that one of 256 blocks which follow one another has if all blocks are shut. It is there for who
    /// builds on this crate: no program calls it.
    pub fn most_garbage_among_256(&self, group: u32) -> u32
        requires { 256 * group < blocks_of (shape_of self.now.config) }
        ensures { IsMostAmong self.now 256 group result }
    {
        self.tables.most_garbage_among_256(group)
    }

    /// The lowest of the blocks that have the most garbage as they are: the blank slots of a block are among it where
    /// the block is closed or its last slot is used. Where there is no garbage at all there is no such block.
    pub fn most_garbage_now(&self) -> Option<Block>
        ensures { FindsMostGarbageNow self.now result }
    {
        self.tables.most_garbage_now()
    }

    /// The number of garbage slots of all blocks as they are. No block is looked at.
    pub fn all_garbage(&self) -> u32
        ensures { result ≡ sum_by (garbage_now self.now) (range_with_len 0 (blocks_of (shape_of self.now.config))) }
    {
        self.tables.all_garbage()
    }
}
