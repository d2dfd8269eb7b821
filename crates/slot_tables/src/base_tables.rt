ghost use Rattle.std.specs.Prelude.{◌≡◌, ℕ, ◌<◌, ◌↔◌, length, replicate, slice_index, slice_set, find, Option, Some, None, true, false, IfOk, IfSome, IsSomeAnd};
ghost use Rattle.std.specs.Option.{option_map, option_and_then};
ghost use Rattle.tx_types.specs.Config.{blocks_of};
ghost use Rattle.tx_types.specs.declared.record.Rec.{Rec};
ghost use Rattle.record_list.specs.Written.{is_slot, is_outside_spare};
ghost use Rattle.slot_tables.specs.BaseTables.{tables_state, refreshed, is_same_slot, marked, home_marked, moved_refreshed, block_refreshed, IsSized, IsRefreshedFrom};
ghost use Rattle.slot_tables.specs.Counts.{is_marked};
ghost use Rattle.slot_tables.specs.Tables.{AreBlanks, AreMarked};
ghost use Rattle.slot_tables.specs.TablesState.{use_at, copies_of, number_in, home, home_in, is_wanted, is_needed, first_below, links_below, record_at};
ghost use Rattle.slot_tables.specs.Versions.{Names};

use crate::block_counts::BlockCounts;
use crate::current::Current;
use crate::live_slots::LiveSlots;
use crate::records::Records;
use crate::responsibilities::Responsibilities;
use crate::slots::{Slots, is_outside, number_in};
use crate::wait_list::WaitList;
use std::alloc::{AllocError, Global};
use tx_types::{Block, Shape, Slot};

/// What the tables are given.
#[derive(Drop)]
pub struct BaseTables {
    pub shape: Shape,
    pub slots: Slots,
    pub records: Records,
    pub current: Current,
    pub answers: Responsibilities,
    pub waits: WaitList,
    pub pins: Vec<u64>,
    pub spare: Option<Block>,
    /// The blocks to which no program goes before they were the spare.
    pub closed: Vec<bool>,
}

impl BaseTables {
    /// The home of the record of a number, if there is one.
    pub fn home_of(&self, number: Option<u32>) -> Option<u32>
        requires sized { IsSized self.now }
        requires number { IfSome number (λ number. number < length self.now.slots) }
        ensures { result ≡ option_and_then (home (tables_state self.now)) number }
    {
        self.home_by(self.spare, number)
    }

    /// The home of the record of a number where this is the spare.
    fn home_by(&self, spare: Option<Block>, number: Option<u32>) -> Option<u32>
        requires sized { IsSized self.now }
        requires number { IfSome number (λ number. number < length self.now.slots) }
        ensures { result ≡ option_and_then
            (home_in self.now.shape (option_map (λ b. b.0) spare) self.now.slots) number }
    {
        match number {
            None => None,
            Some(number) => self.slots.home(self.shape, spare, number),
        }
    }

    /// The number of the record at which a page is pinned, if there is one. None of its records has
    /// version 0, which pins none.
    pub fn pinned_number(&self, page: u32) -> Option<u32>
        requires sized { IsSized self.now }
        requires page { page < length self.now.records.pages }
        requires above { (number : ℕ) (r : Rec) → record_at self.now.records.records number ≡ Some r →
            r.page ≡ page → 0 < r.version }
        ensures found { IfSome result (λ number.
            IsSomeAnd (record_at self.now.records.records number)
            (Names page (slice_index self.now.pins.items page))) }
        ensures names { (number : ℕ) (r : Rec) → record_at self.now.records.records number ≡ Some r →
            Names page (slice_index self.now.pins.items page) r ↔ (result ≡ Some number) }
    {
        match self.pins[page as usize] {
            0 => None,
            version => self.records.number_of(page, version),
        }
    }

    /// Whether the record of a number is current, answers for another one, or is pinned.
    pub fn is_wanted(&self, number: u32) -> bool
        requires sized { IsSized self.now }
        requires number { number < length self.now.slots }
        ensures { result ≡ is_wanted (tables_state self.now) number }
    {
        match self.records.get(number) {
            None => false,
            Some(rec) => {
                self.current.get(rec.page) == Some(number)
                    || self.answers.has(number)
                    || rec.version == self.pins[rec.page as usize]
            }
        }
    }

    /// Whether a slot is the home of a record that is wanted.
    #[inline(never)]
    pub fn is_needed(&self, at: u32) -> bool
        requires sized { IsSized self.now }
        requires slot { at < length self.now.slots }
        ensures { result ≡ is_needed (tables_state self.now) at }
    {
        let held = number_in(self.slots.get(at));
        match held {
            None => false,
            Some(number) => is_at(self.home_of(held), at) && self.is_wanted(number),
        }
    }

    /// The lowest slot of the record of a number where its link's version is below this one.
    pub fn first_below(&self, number: u32, below: u64) -> Option<Slot>
        requires sized { IsSized self.now }
        requires number { number < length self.now.slots }
        ensures { option_map (λ at. at.0) result ≡ first_below (tables_state self.now) below number }
    {
        if self.links_below(number, below) {
            self.slots.first(number).map(Slot)
        } else {
            None
        }
    }

    /// Whether the version of the link of the record of a number is below this one.
    pub fn links_below(&self, number: u32, below: u64) -> bool
        requires sized { IsSized self.now }
        requires number { number < length self.now.slots }
        ensures { result ≡ links_below below (record_at (tables_state self.now).records number) }
    {
        match self.records.get(number) {
            Some(rec) => rec.next.version < below,
            None => false,
        }
    }

    /// Refreshes whether the home of the record of a number is needed.
    #[inline(always)]
    pub fn refresh_home(&self, live: &mut LiveSlots, number: Option<u32>)
        requires sized { IsSized self.now }
        requires number { IfSome number (λ number. number < length self.now.slots) }
        requires live { length live.old.needed ≡ length self.now.slots }
        ensures { let at = option_and_then (home (tables_state self.now)) number in
            live.new ≡ record live.old { needed = refreshed (tables_state self.now) live.old.needed at } }
    {
        if let Some(number) = number {
            self.refresh_number(live, number);
        }
    }

    /// Refreshes whether the home of the record of a number is needed, if it has one.
    #[inline(always)]
    fn refresh_number(&self, live: &mut LiveSlots, number: u32)
        requires sized { IsSized self.now }
        requires number { number < length self.now.slots }
        requires live { length live.old.needed ≡ length self.now.slots }
        ensures { let at = home (tables_state self.now) number in
            live.new ≡ record live.old { needed = refreshed (tables_state self.now) live.old.needed at } }
    {
        self.refresh_wanted(live, number, self.home_of(Some(number)));
    }

    /// Refreshes whether the home of the record of a number is needed, where the home is known: it is needed where the
    /// record is wanted.
    #[inline(always)]
    fn refresh_wanted(&self, live: &mut LiveSlots, number: u32, at: Option<u32>)
        requires sized { IsSized self.now }
        requires number { number < length self.now.slots }
        requires home { at ≡ home (tables_state self.now) number }
        requires live { length live.old.needed ≡ length self.now.slots }
        ensures { live.new ≡ record live.old {
          needed = refreshed (tables_state self.now) live.old.needed at;
        } }
    {
        if let Some(at) = at {
            live.set(at, self.is_wanted(number));
        }
    }

    /// Where the home of the record of a number is another slot than before, refreshes whether each of the two is
    /// needed.
    #[inline(always)]
    pub fn refresh_moved(&self, live: &mut LiveSlots, before: Option<u32>, number: Option<u32>)
        requires sized { IsSized self.now }
        requires before { IfSome before (λ at. at < length self.now.slots) }
        requires number { IfSome number (λ number. number < length self.now.slots) }
        requires live { length live.old.needed ≡ length self.now.slots }
        ensures { let after = option_and_then (home (tables_state self.now)) number in
            live.new ≡ record live.old {
              needed = moved_refreshed (tables_state self.now) live.old.needed before after;
            } }
    {
        if before.is_none() && number.is_none() {
            return;
        }
        let home = self.home_of(number);
        if !is_same(before, home) {
            self.refresh_both(live, before, number, home);
        }
    }

    /// Refreshes whether the home of a record before and the one now are needed.
    #[inline(always)]
    fn refresh_both(
        &self,
        live: &mut LiveSlots,
        before: Option<u32>,
        number: Option<u32>,
        now: Option<u32>,
    )
        requires sized { IsSized self.now }
        requires before { IfSome before (λ at. at < length self.now.slots) }
        requires number { IfSome number (λ number. number < length self.now.slots) }
        requires now { now ≡ option_and_then (home (tables_state self.now)) number }
        requires live { length live.old.needed ≡ length self.now.slots }
        ensures { live.new ≡ record live.old {
          needed = refreshed (tables_state self.now) (refreshed (tables_state self.now) live.old.needed before) now;
        } }
    {
        self.refresh(live, before);
        if let Some(number) = number {
            self.refresh_wanted(live, number, now);
        }
    }

    /// Marks the home of this record as needed, if it has one.
    #[inline(always)]
    pub fn need_home(&self, live: &mut LiveSlots, number: Option<u32>)
        requires sized { IsSized self.now }
        requires number { IfSome number (λ number. number < length self.now.slots) }
        requires live { length live.old.needed ≡ length self.now.slots }
        ensures { let home = option_and_then (home (tables_state self.now)) number in
            live.new ≡ record live.old { needed = marked live.old.needed home } }
    {
        if let Some(home) = self.home_of(number) {
            live.set(home, true);
        }
    }

    /// Whether a slot lies in the spare, and a copy of the record of a number outside it.
    #[inline(always)]
    pub fn is_aside(&self, at: u32, number: u32) -> bool
        requires sized { IsSized self.now }
        requires number { number < length self.now.slots }
        ensures inside { let spare = option_map (λ b. b.0) self.now.spare in
            result ≡ true → is_outside_spare self.now.shape spare at ≡ false }
        ensures copy { let spare = option_map (λ b. b.0) self.now.spare in
            result ≡ true →
            find (is_outside_spare self.now.shape spare) (copies_of self.now.slots number) ≡ None → ⊥ }
    {
        if is_outside(self.shape, self.spare, at) {
            return false;
        }
        match self.slots.first_off(self.shape, self.spare, number) {
            None => false,
            Some(_) => true,
        }
    }

    /// Refreshes whether a slot is needed, if there is one.
    #[inline(always)]
    pub fn refresh(&self, live: &mut LiveSlots, at: Option<u32>)
        requires sized { IsSized self.now }
        requires slot { IfSome at (λ at. at < length self.now.slots) }
        requires live { length live.old.needed ≡ length self.now.slots }
        ensures { live.new ≡ record live.old {
          needed = refreshed (tables_state self.now) live.old.needed at;
        } }
    {
        if let Some(at) = at {
            live.set(at, self.is_needed(at));
        }
    }

    /// Finds which slots are needed, where no spare is chosen and no block is closed. The marks of the blank slots
    /// become a part of what is found.
    pub fn find_needs(&self, alloc: Global, blanks: BlockCounts) -> Result<LiveSlots, AllocError>
        requires sized { IsSized self.now }
        requires spare { self.now.spare ≡ None }
        requires closed { self.now.closed.items ≡ replicate (blocks_of self.now.shape) false }
        requires blanks { AreBlanks (tables_state self.now) blanks }
        ensures marked { IfOk result (λ live. AreMarked (tables_state self.now) live) }
        ensures blanks { IfOk result (λ live. live.blanks ≡ blanks.marks) }
    {
        let blocks = self.shape.blocks();
        match BlockCounts::new(alloc, blocks, self.shape.pages_per_block, false) {
            Ok(mut marks) => {
                self.mark_needed(&mut marks);
                LiveSlots::new(alloc, blocks, marks, blanks)
            }
            Err(error) => {
                drop(blanks);
                Err(error)
            }
        }
    }

    /// Marks each slot that is needed where there is no spare: the home of each record that is wanted. No slot is
    /// marked before, and numbers that never had a record are left out.
    fn mark_needed(&self, marks: &mut BlockCounts)
        requires sized { IsSized self.now }
        requires spare { self.now.spare ≡ None }
        requires slots { length marks.old.marks ≡ length self.now.slots }
        requires none { (at : ℕ) → is_marked marks.old.marks at ≡ false }
        ensures size { marks.new.size ≡ marks.old.size }
        ensures slots { length marks.new.marks ≡ length self.now.slots }
        ensures needed { (at : ℕ) → is_marked marks.new.marks at ≡ is_needed (tables_state self.now) at }
    {
        for number in 0..self.records.end() {
            self.mark_home(marks, number);
        }
    }

    /// Marks the home of the record of a number, where it is wanted.
    fn mark_home(&self, marks: &mut BlockCounts, number: u32)
        requires sized { IsSized self.now }
        requires spare { self.now.spare ≡ None }
        requires number { number < length self.now.slots }
        requires slots { length marks.old.marks ≡ length self.now.slots }
        ensures { marks.new
            ≡ record marks.old { marks = home_marked (tables_state self.now) marks.old.marks number } }
    {
        if self.is_wanted(number) {
            if let Some(at) = self.lone_home(number) {
                marks.set(at, true);
            }
        }
    }

    /// The home of the record of a number where there is no spare: its lowest slot.
    #[inline(always)]
    fn lone_home(&self, number: u32) -> Option<u32>
        requires sized { IsSized self.now }
        requires spare { self.now.spare ≡ None }
        requires number { number < length self.now.slots }
        ensures { result ≡ home (tables_state self.now) number }
    {
        self.slots.first(number)
    }

    /// Where another slot than by an older spare is the home of a record with a slot in this block, refreshes whether
    /// each of the two is needed.
    pub fn refresh_block(&self, live: &mut LiveSlots, older: Option<Block>, block: Block)
        requires sized { IsSized self.now }
        requires block { block.0 < blocks_of self.now.shape }
        requires live { length live.old.needed ≡ length self.now.slots }
        ensures { IsRefreshedFrom (tables_state self.now) (option_map (λ b. b.0) older) block.0
            live.old live.new }
    {
        let first = block.0 * self.shape.pages_per_block;
        for at in first..first + self.shape.pages_per_block {
            self.refresh_slot(live, older, at);
        }
    }

    /// Where another slot than by an older spare is the home of the record of a slot, refreshes whether each of the two
    /// is needed.
    #[inline(always)]
    fn refresh_slot(&self, live: &mut LiveSlots, older: Option<Block>, at: u32)
        requires sized { IsSized self.now }
        requires slot { at < length self.now.slots }
        requires live { length live.old.needed ≡ length self.now.slots }
        ensures { live.new ≡ record live.old {
          needed = block_refreshed (tables_state self.now) (option_map (λ b. b.0) older)
              live.old.needed (number_in (use_at self.now.slots at));
        } }
    {
        let number = number_in(self.slots.get(at));
        if self.stands_once(number) {
            return;
        }
        self.refresh_moved(live, self.home_by(older, number), number);
    }

    /// Whether the record of a number, if there is one, has one copy at most: then its home is the same by any spare.
    #[inline(always)]
    fn stands_once(&self, number: Option<u32>) -> bool
        requires sized { IsSized self.now }
        requires number { IfSome number (λ number. number < length self.now.slots) }
        ensures { result ≡ true → (older : Option ℕ) →
            option_and_then (home_in self.now.shape older self.now.slots) number
            ≡ option_and_then (home (tables_state self.now)) number }
    {
        match number {
            None => true,
            Some(number) => self.slots.is_single(number),
        }
    }
}

/// Whether a slot is this one, if there is one.
fn is_at(slot: Option<u32>, at: u32) -> bool
    ensures { result ≡ is_slot at slot }
{
    match slot {
        None => false,
        Some(slot) => slot == at,
    }
}

/// Whether two slots are the same, or neither is there.
fn is_same(slot: Option<u32>, other: Option<u32>) -> bool
    ensures { result ≡ is_same_slot slot other }
{
    match (slot, other) {
        (None, None) => true,
        (Some(slot), Some(other)) => slot == other,
        (None, Some(_)) | (Some(_), None) => false,
    }
}
