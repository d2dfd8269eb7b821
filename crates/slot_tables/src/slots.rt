ghost use Rattle.std.specs.Prelude.{◌≡◌, ℕ, ◌+◌, ◌*◌, ◌/◌, ◌<◌, ◌≤◌, ◌++◌, nat_eq, length, map, replicate, slice_set, find, vec_len, vec_capacity, Some, true, IfOk};
ghost use Rattle.std.specs.List.{insert, remove, position_or_len, slice_get};
ghost use Rattle.std.specs.Option.{option_map};
ghost use Rattle.tx_types.specs.Config.{IsShape};
ghost use Rattle.dense_tables.specs.LinkedLists.{AreDisjoint, list_of, with_list, index_in, IsListed};
ghost use Rattle.record_list.specs.Written.{is_outside_spare};
ghost use Rattle.slot_tables.specs.Copies.{is_above, last_of, HoldsNone, NumbersBelow, Rises};
ghost use Rattle.slot_tables.specs.Gathered.{block_at};
ghost use Rattle.slot_tables.specs.TablesState.{use_at, copies_of, home_in, number_in, is_blank};
ghost use Rattle.slot_tables.specs.declared.slots.SlotUse.TheVariants as slot;

use dense_tables::LinkedLists;
use std::alloc::{AllocError, Global};
use std::marker::Model;
use tx_types::{Block, Shape};

/// What a slot holds.
#[derive(Clone, Copy, PartialEq, Eq)]
pub enum SlotUse {
    Blank,
    Damaged,
    /// The record of this number.
    Holds(u32),
}

impl SlotUse {
    /// Whether the slot is blank.
    pub fn is_blank(self) -> bool
        ensures { result ≡ is_blank self }
    {
        match self {
            SlotUse::Blank => true,
            SlotUse::Damaged | SlotUse::Holds(_) => false,
        }
    }
}

/// What each slot holds, and of each record the slots that hold it, in their order.
#[derive(Drop)]
pub struct Slots {
    uses: Vec<SlotUse>,
    copies: LinkedLists,
}

impl Model for Slots {
    ghost use Rattle.std.specs.Prelude.{List};
    ghost use Rattle.slot_tables.specs.declared.slots.SlotUse.{SlotUse};

    ghost Value = { List SlotUse };

    ghost use Rattle.slot_tables.specs.Slots.{uses_of, SlotsInvariant};

    ghost view = { uses_of };

    ghost invariant = { SlotsInvariant };
}

impl Slots {
    /// All slots are blank.
    pub fn new(alloc: Global, count: u32) -> Result<Slots, AllocError>
        requires { count ≤ 65536 }
        ensures { IfOk result (λ s. s ≡ replicate count slot.Blank) }
    {
        Ok(Slots {
            uses: vec![in alloc; SlotUse::Blank; count as usize]?,
            copies: LinkedLists::new(alloc, count, count)?,
        })
    }

    /// What a slot holds.
    pub fn get(&self, at: u32) -> SlotUse
        requires { at < length self.now }
        ensures { result ≡ use_at self.now at }
    {
        self.uses[at as usize]
    }

    /// The lowest slot that holds the record of a number.
    pub fn first(&self, number: u32) -> Option<u32>
        requires { number < length self.now }
        ensures { result ≡ slice_get (copies_of self.now number) 0 }
    {
        self.copies.first(number)
    }

    /// The lowest slot outside a block that holds the record of a number. This goes through the copies in
    /// the block.
    pub fn first_off(&self, shape: Shape, block: Option<Block>, number: u32) -> Option<u32>
        requires shape { IsShape shape }
        requires number { number < length self.now }
        ensures { result ≡ find (is_outside_spare shape (option_map (λ b. b.0) block))
            (copies_of self.now number) }
    {
        let mut slot = self.copies.first(number);
        while let Some(at) = slot {
            if is_outside(shape, block, at) {
                return slot;
            }
            slot = self.copies.next(at);
        }
        None
    }

    /// Whether one slot at most holds the record of a number.
    #[inline(always)]
    pub fn is_single(&self, number: u32) -> bool
        requires { number < length self.now }
        ensures { result ≡ true → length (copies_of self.now number) ≤ 1 }
    {
        match self.copies.first(number) {
            None => true,
            Some(at) => self.copies.next(at).is_none(),
        }
    }

    /// Appends the block of each slot that holds the record of a number, where a block has this many slots.
    pub fn put_blocks(&self, size: u32, number: u32, into: &mut Vec<Block>)
        requires size { 0 < size }
        requires number { number < length self.now }
        requires room { vec_len into.old + length (copies_of self.now number) ≤ vec_capacity into.old }
        ensures put { into.new.items ≡ into.old.items ++ map (block_at size) (copies_of self.now number) }
        ensures len { vec_len into.new ≡ vec_len into.old + length (copies_of self.now number) }
        ensures room { vec_capacity into.new ≡ vec_capacity into.old }
    {
        let mut slot = self.copies.first(number);
        while let Some(at) = slot {
            into.push_reserved(Block(at / size));
            slot = self.copies.next(at);
        }
    }

    /// The home of the record of a number, where this is the spare: the only copy, where there is but one. Else this
    /// goes through the copies in the spare.
    #[inline]
    pub fn home(&self, shape: Shape, spare: Option<Block>, number: u32) -> Option<u32>
        requires shape { IsShape shape }
        requires number { number < length self.now }
        ensures { result ≡ home_in shape (option_map (λ b. b.0) spare) self.now number }
    {
        if self.is_single(number) {
            return self.first(number);
        }
        match self.first_off(shape, spare, number) {
            Some(at) => Some(at),
            None => self.first(number),
        }
    }

    /// Sets what a slot holds. Where it is a record this goes through the copies below the slot.
    #[inline(always)]
    pub fn set(&mut self, at: u32, to: SlotUse)
        requires slot { at < length self.old }
        requires number { NumbersBelow (length self.old) to }
        ensures { self.new ≡ slice_set self.old at to }
    {
        self.forget(at);
        match to {
            SlotUse::Blank | SlotUse::Damaged => self.uses[at as usize] = to,
            SlotUse::Holds(number) => {
                put_in_order(&mut self.copies, number, at);
                self.uses[at as usize] = to;
            }
        }
    }

    /// Makes a slot blank that holds a record.
    fn forget(&mut self, at: u32)
        requires { at < length self.old }
        ensures none { HoldsNone (use_at self.new at) }
        ensures others { self.new ≡ slice_set self.old at (use_at self.new at) }
    {
        if let SlotUse::Holds(number) = self.uses[at as usize] {
            self.copies.remove(number, at);
            self.uses[at as usize] = SlotUse::Blank;
        }
    }
}

/// Whether a slot lies outside a block, if there is one.
#[inline(always)]
pub fn is_outside(shape: Shape, block: Option<Block>, at: u32) -> bool
    requires { IsShape shape }
    ensures { result ≡ is_outside_spare shape (option_map (λ b. b.0) block) at }
{
    match block {
        None => true,
        Some(block) => !is_in_block(shape.pages_per_block, block, at),
    }
}

/// Whether a slot lies in a block, where a block has this many slots.
#[inline(always)]
fn is_in_block(size: u32, block: Block, at: u32) -> bool
    requires { 0 < size }
    ensures { result ≡ nat_eq (at / size) block.0 }
{
    let size = u64::from(size);
    let first = u64::from(block.0) * size;
    let at = u64::from(at);
    first <= at && at - first < size
}

/// Puts a place into the rising list of a key, where it is not.
fn put_in_order(lists: &mut LinkedLists, key: u32, at: u32)
    requires key { key < length lists.old.lists }
    requires place { at < lists.old.places }
    requires rises { Rises (list_of lists.old key) }
    requires free { IsListed lists.old at → ⊥ }
    ensures { lists.new ≡ with_list lists.old key (insert (list_of lists.old key)
        (position_or_len (is_above at) (list_of lists.old key)) at) }
{
    match last_below(lists, key, at) {
        None => lists.push(key, at),
        Some(below) => lists.insert_after(key, below, at),
    }
}

/// The last place of a rising list that is below another one.
fn last_below(lists: &LinkedLists, key: u32, at: u32) -> Option<u32>
    requires key { key < length lists.now.lists }
    requires rises { Rises (list_of lists.now key) }
    ensures { result ≡ last_of (list_of lists.now key)
        (position_or_len (is_above at) (list_of lists.now key)) }
{
    let mut below = None;
    let mut slot = lists.first(key);
    while let Some(other) = slot {
        if other > at {
            return below;
        }
        below = slot;
        slot = lists.next(other);
    }
    below
}

/// The number of the record that a slot holds, if it holds one.
pub fn number_in(held: SlotUse) -> Option<u32>
    ensures { result ≡ number_in held }
{
    match held {
        SlotUse::Blank | SlotUse::Damaged => None,
        SlotUse::Holds(number) => Some(number),
    }
}
