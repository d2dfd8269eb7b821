ghost use Rattle.std.specs.Prelude.{◌≡◌, ℕ, ◌+◌, ◌*◌, ◌<◌, ◌≤◌, ◌↔◌, length, slice_index, sum, Some, None, IsNone, IfSome, IfNone, IsSomeAnd};
ghost use Rattle.std.specs.List.{All, slice_get};
ghost use Rattle.std.specs.Option.{option_map, option_and_then};
ghost use Rattle.tx_types.specs.Config.{slots_of, blocks_of};
ghost use Rattle.tx_types.specs.declared.record.Rec.{Rec};
ghost use Rattle.dense_tables.specs.Greatest.{greatest, group_of, IsFirstGreatest};
ghost use Rattle.dense_tables.specs.LinkedLists.{next_in};
ghost use Rattle.slot_tables.specs.Copies.{NumbersBelow};
ghost use Rattle.slot_tables.specs.TablesState.{use_at, copies_of, record_at, numbers_at, number_at, home, copy_off, is_answerer, is_wanted, is_needed, is_shut, garbage_of, garbage_numbers, garbage_now_numbers, blanks_of, written_of, WaitsBelow, IsLowestToGo, IsTablesState};
ghost use Rattle.slot_tables.specs.Versions.{Names};
ghost use Rattle.slot_tables.specs.declared.slots.SlotUse.TheVariants as slot;

use crate::Tables;
use crate::slots::SlotUse;
use tx_types::{Block, Rec, Shape, Slot};

impl Tables {
    /// The shape of the flash.
    pub fn shape(&self) -> Shape
        ensures shape { result ≡ self.now.shape }
        ensures kept { IsTablesState self.now }
    {
        self.base.shape
    }

    /// What a slot holds.
    pub fn slot(&self, at: Slot) -> SlotUse
        requires { at.0 < slots_of self.now.shape }
        ensures slot { result ≡ use_at self.now.slots at.0 }
        ensures within { NumbersBelow (slots_of self.now.shape) result }
    {
        self.base.slots.get(at.0)
    }

    /// The record of a number.
    pub fn record(&self, number: u32) -> Option<Rec>
        requires { number < slots_of self.now.shape }
        ensures { result ≡ record_at self.now.records number }
    {
        self.base.records.get(number)
    }

    /// The number of the newest record of a page.
    pub fn newest(&self, page: u32) -> Option<u32>
        requires { page < length self.now.pages }
        ensures newest { result ≡ slice_get (numbers_at self.now.pages page) 0 }
        ensures within { IfSome result (λ number. number < slots_of self.now.shape) }
    {
        self.base.records.newest(page)
    }

    /// The number of the next older record of the page of this one.
    pub fn older(&self, number: u32) -> Option<u32>
        requires { number < slots_of self.now.shape }
        ensures next { IfSome (record_at self.now.records number) (λ r.
            result ≡ next_in (numbers_at self.now.pages r.page) number) }
        ensures none { record_at self.now.records number ≡ None → result ≡ None }
    {
        self.base.records.older(number)
    }

    /// The number of the record of a page with this version. This goes through the records of the page
    /// that are above it.
    pub fn number_of(&self, page: u32, version: u64) -> Option<u32>
        requires { page < length self.now.pages }
        ensures found { IfSome result (λ number.
            IsSomeAnd (record_at self.now.records number) (Names page version)) }
        ensures names { (number : ℕ) (r : Rec) → record_at self.now.records number ≡ Some r →
            Names page version r ↔ (result ≡ Some number) }
    {
        self.base.records.number_of(page, version)
    }

    /// The number of the current record of a page.
    pub fn current(&self, page: u32) -> Option<u32>
        requires { page < length self.now.pages }
        ensures current { result ≡ number_at self.now.current page }
        ensures within { IfSome result (λ number. number < slots_of self.now.shape) }
    {
        self.base.current.get(page)
    }

    /// How many pages have a current record.
    pub fn count_written(&self) -> usize
        ensures { result ≡ written_of self.now }
    {
        self.base.current.count_written()
    }

    /// The number of the record that answers for this one.
    pub fn answerer(&self, number: u32) -> Option<u32>
        requires { number < slots_of self.now.shape }
        ensures { result ≡ number_at self.now.answerers number }
    {
        self.base.answers.get(number)
    }

    /// Whether a record answers for another one. It is there for who builds on this crate: no program calls it.
    pub fn is_answerer(&self, number: u32) -> bool
        requires { number < slots_of self.now.shape }
        ensures { result ≡ is_answerer self.now.answerers number }
    {
        self.base.answers.has(number)
    }

    /// The page that a record waits for.
    pub fn waits(&self, number: u32) -> Option<u32>
        requires { number < slots_of self.now.shape }
        ensures { result ≡ number_at self.now.waits number }
    {
        self.base.waits.get(number)
    }

    /// The number of some record that waits for a page.
    pub fn waiting(&self, page: u32) -> Option<u32>
        requires { page < length self.now.pages }
        ensures some { IfSome result (λ number. number_at self.now.waits number ≡ Some page) }
        ensures none { IfNone result ((number : ℕ) → number_at self.now.waits number ≡ Some page → ⊥) }
        ensures within { IfSome result (λ number. number < slots_of self.now.shape) }
    {
        if self.base.waits.is_idle() {
            return None;
        }
        self.base.waits.by_page().first(page)
    }

    /// The lowest slot of a record that waits for a page at a version below this one.
    pub fn lowest_waiting(&self, page: u32, below: u64) -> Option<Slot>
        requires { page < length self.now.pages }
        ensures some { IfSome result (λ at. IsLowestToGo self.now page below at.0) }
        ensures none { IfNone result ((at number : ℕ) →
            use_at self.now.slots at ≡ slot.Holds number → WaitsBelow self.now page below number → ⊥) }
    {
        if self.base.waits.is_idle() {
            return None;
        }
        let waiting = self.base.waits.by_page();
        let mut lowest = None;
        let mut next = waiting.first(page);
        while let Some(number) = next {
            lowest = Slot::lower(lowest, self.base.first_below(number, below));
            next = waiting.next(number);
        }
        lowest
    }

    /// The version at which a page is pinned, 0 for none. It is there for who builds on this crate: no program calls
    /// it.
    pub fn pinned_version(&self, page: u32) -> u64
        requires { page < length self.now.pages }
        ensures { result ≡ slice_index self.now.pins page }
    {
        self.base.pins[page as usize]
    }

    /// The spare block, once it is chosen.
    pub fn spare(&self) -> Option<Block>
        ensures { option_map (λ block. block.0) result ≡ self.now.spare }
    {
        self.base.spare
    }

    /// The lowest slot that holds the record of a number.
    pub fn first_copy(&self, number: u32) -> Option<Slot>
        requires { number < slots_of self.now.shape }
        ensures { option_map (λ at. at.0) result ≡ slice_get (copies_of self.now.slots number) 0 }
    {
        self.base.slots.first(number).map(Slot)
    }

    /// Where the record of a number is read: its lowest slot outside the spare, or its lowest slot where it
    /// has none outside. This goes through its copies in the spare.
    pub fn home(&self, number: u32) -> Option<Slot>
        requires { number < slots_of self.now.shape }
        ensures { option_map (λ at. at.0) result ≡ home self.now number }
    {
        self.base.home_of(Some(number)).map(Slot)
    }

    /// The lowest slot outside a block that holds the record of a number. This goes through its copies in
    /// the block.
    pub fn copy_off(&self, number: u32, block: Block) -> Option<Slot>
        requires { number < slots_of self.now.shape }
        ensures { option_map (λ at. at.0) result ≡ copy_off self.now block.0 number }
    {
        self.base
            .slots
            .first_off(self.base.shape, Some(block), number)
            .map(Slot)
    }

    /// Where the current record of a page is read.
    pub fn locate(&self, page: u32) -> Option<Slot>
        requires { page < length self.now.pages }
        ensures { option_map (λ at. at.0) result
            ≡ option_and_then (home self.now) (number_at self.now.current page) }
    {
        self.base.home_of(self.base.current.get(page)).map(Slot)
    }

    /// The lowest slot outside a block that holds the current record of a page.
    pub fn locate_off(&self, page: u32, block: Block) -> Option<Slot>
        requires { page < length self.now.pages }
        ensures { option_map (λ at. at.0) result
            ≡ option_and_then (copy_off self.now block.0) (number_at self.now.current page) }
    {
        match self.base.current.get(page) {
            None => None,
            Some(number) => self
                .base
                .slots
                .first_off(self.base.shape, Some(block), number)
                .map(Slot),
        }
    }

    /// Whether the record of a number is current, answers for another one, or is pinned.
    pub fn is_wanted(&self, number: u32) -> bool
        requires { number < slots_of self.now.shape }
        ensures { result ≡ is_wanted self.now number }
    {
        self.base.is_wanted(number)
    }

    /// Whether a slot is the home of a record that is current, answers for another one, or is pinned.
    pub fn needed(&self, at: Slot) -> bool
        requires { at.0 < slots_of self.now.shape }
        ensures { result ≡ is_needed self.now at.0 }
    {
        self.live.is_needed(at.0)
    }

    /// The number of blank slots of a block.
    pub fn blanks(&self, block: Block) -> u32
        requires { block.0 < blocks_of self.now.shape }
        ensures { result ≡ blanks_of self.now block.0 }
    {
        self.live.blanks(block)
    }

    /// Whether no program goes to a block: it is closed, or its last slot is used. It is there for who builds on this
    /// crate: no program calls it.
    pub fn is_shut(&self, block: Block) -> bool
        requires { block.0 < blocks_of self.now.shape }
        ensures { result ≡ is_shut self.now block.0 }
    {
        let size = self.base.shape.pages_per_block;
        self.base.closed[block.0 as usize]
            || !self.base.slots.get(block.0 * size + (size - 1)).is_blank()
    }

    /// The number of garbage slots of a block: those that are not needed, without its blank ones where it
    /// is not shut. The spare has none.
    pub fn garbage(&self, block: Block, shut: bool) -> u32
        requires { block.0 < blocks_of self.now.shape }
        ensures { result ≡ garbage_of self.now shut block.0 }
    {
        let unneeded = self.live.unneeded(block);
        if shut {
            return unneeded;
        }
        unneeded.saturating_sub(self.live.blanks(block))
    }

    /// The first block with the most garbage if all blocks are shut. Where there is none at all there is
    /// no such block. It looks at each block, and is there for who builds on this crate: no program calls it.
    pub fn most_garbage(&self) -> Option<Block>
        ensures none { IsNone result ↔ All (λ x. x ≡ 0) (garbage_numbers self.now) }
        ensures first { IfSome result (λ block. IsFirstGreatest (garbage_numbers self.now) block.0) }
    {
        self.live.most_unneeded()
    }

    /// The most garbage that one of sixteen blocks has if all are shut. It looks at each of them, and is there for who
    /// builds on this crate: no program calls it.
    pub fn most_garbage_among(&self, sixteen: u32) -> u32
        requires { 16 * sixteen < blocks_of self.now.shape }
        ensures { result ≡ greatest (group_of 16 (garbage_numbers self.now) sixteen) }
    {
        self.live.most_unneeded_among(16, sixteen)
    }

    /// The most garbage that one of 256 blocks has if all are shut. It looks at each of them, and is there for who
    /// builds on this crate: no program calls it.
    pub fn most_garbage_among_256(&self, group: u32) -> u32
        requires { 256 * group < blocks_of self.now.shape }
        ensures { result ≡ greatest (group_of 256 (garbage_numbers self.now) group) }
    {
        self.live.most_unneeded_among(256, group)
    }

    /// The first block with the most garbage as it is: its blank slots are among it where the block is closed or its
    /// last slot is used. Where there is none at all there is no such block.
    pub fn most_garbage_now(&self) -> Option<Block>
        ensures none { IsNone result ↔ All (λ x. x ≡ 0) (garbage_now_numbers self.now) }
        ensures first { IfSome result (λ block. IsFirstGreatest (garbage_now_numbers self.now) block.0) }
    {
        self.live.most_garbage()
    }

    /// The number of garbage slots of all blocks as they are.
    pub fn all_garbage(&self) -> u32
        ensures { result ≡ sum (garbage_now_numbers self.now) }
    {
        self.live.all_garbage()
    }
}
