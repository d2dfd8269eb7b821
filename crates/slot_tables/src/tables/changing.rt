ghost use Rattle.std.specs.Prelude.{◌≡◌, ℕ, ◌<◌, [], length, slice_set, Some, None, IfSome, IsSomeAnd};
ghost use Rattle.tx_types.specs.Config.{slots_of, blocks_of};
ghost use Rattle.tx_types.specs.declared.record.Rec.{Rec};
ghost use Rattle.slot_tables.specs.Copies.{HoldsNone, NumbersBelow};
ghost use Rattle.std.specs.List.{slice_get};
ghost use Rattle.slot_tables.specs.TablesState.{record_at, use_at, number_in, added, given_up, with_closed, with_spare, IsNewest, copies_of};
ghost use Rattle.slot_tables.specs.declared.slots.SlotUse.TheVariants as slot;
ghost use Rattle.slot_tables.specs.Versions.{HasFree};

use crate::Tables;
use crate::slots::{SlotUse, number_in};
use tx_types::{Block, Rec, Slot};

impl Tables {
    /// Gives a record, newer than those of its page, a number that has none.
    #[inline(always)]
    pub fn add(&mut self, rec: &Rec) -> u32
        requires page { rec.now.page < length self.old.pages }
        requires free { HasFree self.old.records }
        requires newest { IsNewest self.old.records rec.now }
        ensures free { record_at self.old.records result ≡ None }
        ensures within { result < slots_of self.old.shape }
        ensures added { self.new ≡ added self.old result rec.now }
    {
        let number = self.base.records.add(rec);
        self.base.refresh_home(&mut self.live, Some(number));
        number
    }

    /// Takes away the record of a number, which no slot holds.
    pub fn give_up(&mut self, page: u32, number: u32)
        requires within { number < slots_of self.old.shape }
        requires record { IsSomeAnd (record_at self.old.records number) (λ r. r.page ≡ page) }
        requires copies { copies_of self.old.slots number ≡ [] }
        ensures { self.new ≡ given_up self.old page number }
    {
        self.base.records.give_up(page, number);
    }

    /// Sets what a slot holds. Where it is a record this goes through its copies below the slot.
    #[inline(always)]
    pub fn set_slot(&mut self, at: Slot, to: SlotUse)
        requires slot { at.0 < slots_of self.old.shape }
        requires number { NumbersBelow (slots_of self.old.shape) to }
        ensures { self.new ≡ record self.old { slots = slice_set self.old.slots at.0 to } }
    {
        match to {
            SlotUse::Blank | SlotUse::Damaged => self.empty_slot(at, to),
            SlotUse::Holds(number) => self.fill_slot(at, number),
        }
    }

    /// A slot comes to hold no record. Where it was needed, another copy is now, if there is one. It is a function of
    /// its own beside the filling of a slot, since the need of an emptied slot goes to another copy of its record or to
    /// none: no record, pin or current version is looked up for that.
    #[inline(always)]
    fn empty_slot(&mut self, at: Slot, to: SlotUse)
        requires slot { at.0 < slots_of self.old.shape }
        requires none { HoldsNone to }
        ensures { self.new ≡ record self.old { slots = slice_set self.old.slots at.0 to } }
    {
        let left = number_in(self.base.slots.get(at.0));
        self.base.slots.set(at.0, to);
        if !self.live.is_needed(at.0) {
            self.live.set_blank(at.0, to.is_blank());
            return;
        }
        self.live.mark(at.0, false, to.is_blank());
        self.base.need_home(&mut self.live, left);
    }

    /// Sets that a slot holds the record of a number.
    fn fill_slot(&mut self, at: Slot, number: u32)
        requires slot { at.0 < slots_of self.old.shape }
        requires number { number < slots_of self.old.shape }
        ensures { self.new ≡ record self.old { slots = slice_set self.old.slots at.0 (slot.Holds number) } }
    {
        let held = number_in(self.base.slots.get(at.0));
        let copy = self.base.slots.first(number);
        match (held, copy) {
            (None, None) => self.fill_first(at, number),
            (None, Some(_)) => self.fill_copy(at, number),
            (Some(_), None) | (Some(_), Some(_)) => self.refill(at, SlotUse::Holds(number)),
        }
    }

    /// A slot without a record comes to hold another copy of one. In the spare it is not the home where a copy stands
    /// outside: then each slot is needed as it was.
    #[inline(always)]
    fn fill_copy(&mut self, at: Slot, number: u32)
        requires slot { at.0 < slots_of self.old.shape }
        requires number { number < slots_of self.old.shape }
        requires held { number_in (use_at self.old.slots at.0) ≡ None }
        ensures { self.new ≡ record self.old { slots = slice_set self.old.slots at.0 (slot.Holds number) } }
    {
        if self.base.is_aside(at.0, number) {
            self.base.slots.set(at.0, SlotUse::Holds(number));
            self.live.set_blank(at.0, false);
        } else {
            self.refill(at, SlotUse::Holds(number));
        }
    }

    /// A slot without a record comes to hold one that no slot holds: it is the home of that record, and so needed where
    /// the record is wanted.
    #[inline(always)]
    fn fill_first(&mut self, at: Slot, number: u32)
        requires slot { at.0 < slots_of self.old.shape }
        requires number { number < slots_of self.old.shape }
        requires held { number_in (use_at self.old.slots at.0) ≡ None }
        requires copy { slice_get (copies_of self.old.slots number) 0 ≡ None }
        ensures { self.new ≡ record self.old { slots = slice_set self.old.slots at.0 (slot.Holds number) } }
    {
        self.base.slots.set(at.0, SlotUse::Holds(number));
        let wanted = self.base.is_wanted(number);
        self.live.mark(at.0, wanted, false);
    }

    /// Sets what a slot holds, and looks at the homes of the record that leaves it and of the one that comes. The slot
    /// is needed before it stops to be blank, so that in most blocks the number of garbage slots does not change.
    fn refill(&mut self, at: Slot, to: SlotUse)
        requires slot { at.0 < slots_of self.old.shape }
        requires number { NumbersBelow (slots_of self.old.shape) to }
        ensures { self.new ≡ record self.old { slots = slice_set self.old.slots at.0 to } }
    {
        let left = number_in(self.base.slots.get(at.0));
        let joined = number_in(to);
        let old = self.base.home_of(left);
        let other = self.base.home_of(joined);
        self.base.slots.set(at.0, to);
        self.base.refresh_moved(&mut self.live, old, left);
        self.base.refresh_moved(&mut self.live, other, joined);
        self.live.set_blank(at.0, to.is_blank());
    }

    /// Sets which record of a page is current.
    pub fn set_current(&mut self, page: u32, to: Option<u32>)
        requires page { page < length self.old.pages }
        requires number { IfSome to (λ number. number < slots_of self.old.shape) }
        ensures { self.new ≡ record self.old { current = slice_set self.old.current page to } }
    {
        let before = self.base.current.get(page);
        self.base.current.set(page, to);
        self.base.refresh_home(&mut self.live, before);
        self.base.refresh_home(&mut self.live, to);
    }

    /// Sets which record answers for a record.
    #[inline(always)]
    pub fn set_answerer(&mut self, number: u32, to: Option<u32>)
        requires number { number < slots_of self.old.shape }
        requires answerer { IfSome to (λ other. other < slots_of self.old.shape) }
        ensures { self.new
            ≡ record self.old { answerers = slice_set self.old.answerers number to } }
    {
        let before = self.base.answers.get(number);
        if before.is_none() && to.is_none() {
            return;
        }
        self.base.answers.set(number, to);
        self.base.refresh_home(&mut self.live, before);
        self.base.refresh_home(&mut self.live, to);
    }

    /// Sets for which page a record waits.
    #[inline(always)]
    pub fn set_waits(&mut self, number: u32, to: Option<u32>)
        requires number { number < slots_of self.old.shape }
        requires page { IfSome to (λ page. page < length self.old.pages) }
        ensures { self.new ≡ record self.old { waits = slice_set self.old.waits number to } }
    {
        self.base.waits.set(number, to);
    }

    /// Pins a page at a version, in place of an older one. Version 0 pins none, and no record of the page
    /// has it. This goes through the records of the page that are above the lower one of the two versions.
    #[inline(always)]
    pub fn pin(&mut self, page: u32, version: u64)
        requires page { page < length self.old.pages }
        requires above { (number : ℕ) (r : Rec) → record_at self.old.records number ≡ Some r →
            r.page ≡ page → 0 < r.version }
        ensures { self.new ≡ record self.old { pins = slice_set self.old.pins page version } }
    {
        let before = self.base.pinned_number(page);
        let now = self.base.records.number_of(page, version);
        self.base.pins[page as usize] = version;
        self.base.refresh_home(&mut self.live, before);
        self.base.refresh_home(&mut self.live, now);
    }

    /// Pins a page at no version. None of its records has version 0. A record that is current is wanted without the
    /// pin.
    #[inline(always)]
    pub fn unpin(&mut self, page: u32)
        requires page { page < length self.old.pages }
        requires above { (number : ℕ) (r : Rec) → record_at self.old.records number ≡ Some r →
            r.page ≡ page → 0 < r.version }
        ensures { self.new ≡ record self.old { pins = slice_set self.old.pins page 0 } }
    {
        let before = self.base.pinned_number(page);
        let current = self.base.current.get(page);
        self.base.pins[page as usize] = 0;
        if before != current {
            self.base.refresh_home(&mut self.live, before);
        }
    }

    /// Sets whether a block is closed: no program goes there before it was the spare.
    pub fn set_closed(&mut self, block: Block, closed: bool)
        requires { block.0 < blocks_of self.old.shape }
        ensures { self.new ≡ with_closed self.old block.0 closed }
    {
        self.base.closed[block.0 as usize] = closed;
        self.live.set_closed(block, closed);
    }

    /// Makes a block the spare, which is not closed. This goes through the slots of the old and the new spare.
    pub fn set_spare(&mut self, block: Block)
        requires { block.0 < blocks_of self.old.shape }
        ensures { self.new ≡ with_spare self.old block.0 }
    {
        let before = self.base.spare;
        self.base.spare = Some(block);
        self.base.closed[block.0 as usize] = false;
        self.live.set_spare(block);
        if let Some(old) = before {
            self.base.refresh_block(&mut self.live, before, old);
        }
        self.base.refresh_block(&mut self.live, before, block);
    }
}
