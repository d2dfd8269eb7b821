ghost use Rattle.std.specs.Prelude.{◌≡◌, ℕ, ◌+◌, ◌-◌, ◌*◌, ◌/◌, ◌<◌, ◌≤◌, ◌==◌, ◌&&◌, ◌↔◌, not, Bool, length, map, replicate, slice_index, slice_set, sum, Some, None, true, false, IfOk, IfSome, IsNone};
ghost use Rattle.std.specs.List.{All, range_with_len};
ghost use Rattle.std.specs.Option.{option_map};
ghost use Rattle.dense_tables.specs.Greatest.{greatest, group_of, IsFirstGreatest};
ghost use Rattle.record_list.specs.Written.{is_slot};
ghost use Rattle.slot_tables.specs.Counts.{is_marked, is_shut_in, marked_in, unmarked_in, unmarked_numbers, garbage_counts};
ghost use Rattle.slot_tables.specs.SlotMarks.{garbage_by, marked_so, AreSized};

use crate::block_counts::BlockCounts;
use crate::block_numbers::BlockNumbers;
use std::alloc::{AllocError, Global};
use std::marker::Model;
use tx_types::Block;

/// Which slots are needed and which are blank, which blocks are closed, and the spare. From these it follows how many
/// slots of a block are garbage.
#[derive(Drop)]
struct SlotMarks {
    needed: BlockCounts,
    blanks: BlockCounts,
    closed: Vec<bool>,
    spare: Option<Block>,
}

/// Which slots are needed and which are blank, and of each block but the spare how many slots are garbage.
#[derive(Drop)]
pub struct LiveSlots {
    marks: SlotMarks,
    garbage: BlockNumbers,
}

impl Model for LiveSlots {
    ghost use Rattle.slot_tables.specs.Counts.{LiveSlotsState};

    ghost Value = { LiveSlotsState };

    ghost use Rattle.slot_tables.specs.LiveSlots.{live_of, LiveSlotsInvariant};

    ghost view = { live_of };

    ghost invariant = { LiveSlotsInvariant };
}

impl LiveSlots {
    /// The slots that are marked are needed and blank, no block is closed, and there is no spare.
    pub fn new(
        alloc: Global,
        blocks: u32,
        needed: BlockCounts,
        blanks: BlockCounts,
    ) -> Result<LiveSlots, AllocError>
        requires size { blanks.size ≡ needed.size }
        requires needed { length needed.marks ≡ blocks * needed.size }
        requires blanks { length blanks.marks ≡ blocks * needed.size }
        ensures { IfOk result (λ n. n ≡ record {
          needed = needed.marks;
          blanks = blanks.marks;
          closed = replicate blocks false;
          size = needed.size;
          blocks = blocks;
          spare = None;
        }) }
    {
        // For the proof: there are few slots.
        let _ = needed.size();
        match open_blocks(alloc, blocks) {
            Ok((closed, mut garbage)) => {
                let marks = SlotMarks {
                    needed,
                    blanks,
                    closed,
                    spare: None,
                };
                count_all(&mut garbage, &marks, blocks);
                Ok(LiveSlots { marks, garbage })
            }
            Err(error) => {
                drop(needed);
                drop(blanks);
                Err(error)
            }
        }
    }

    /// Whether a slot is needed.
    pub fn is_needed(&self, at: u32) -> bool
        requires { at < length self.now.needed }
        ensures { result ≡ is_marked self.now.needed at }
    {
        self.marks.needed.get(at)
    }

    /// How many slots of a block are blank.
    pub fn blanks(&self, block: Block) -> u32
        requires { block.0 < self.now.blocks }
        ensures { result ≡ marked_in self.now.blanks self.now.size block.0 }
    {
        self.marks.blanks.count(block.0)
    }

    /// How many slots of a block are not needed, none where it is the spare.
    pub fn unneeded(&self, block: Block) -> u32
        requires { block.0 < self.now.blocks }
        ensures { result ≡ unmarked_in self.now block.0 }
    {
        if self.marks.is_spare(block.0) {
            return 0;
        }
        self.marks.needed.size() - self.marks.needed.count(block.0)
    }

    /// How many blocks there are.
    fn blocks(&self) -> u32
        ensures blocks { result ≡ self.now.blocks }
        ensures few { result ≤ 65536 }
    {
        self.marks.closed.len() as u32
    }

    /// The first block of which the most slots are not needed. It looks at each block.
    pub fn most_unneeded(&self) -> Option<Block>
        ensures none { IsNone result ↔ All (λ x. x ≡ 0) (unmarked_numbers self.now) }
        ensures first { IfSome result (λ block. IsFirstGreatest (unmarked_numbers self.now) block.0) }
    {
        let mut most = 0;
        let mut found = None;
        for block in 0..self.blocks() {
            let unneeded = self.unneeded(Block(block));
            if unneeded > most {
                most = unneeded;
                found = Some(Block(block));
            }
        }
        found
    }

    /// The most slots that are not needed in one of a group of so many blocks that follow one another. It looks at each
    /// of them.
    pub fn most_unneeded_among(&self, count: u32, group: u32) -> u32
        requires exists { count * group < self.now.blocks }
        requires few { count ≤ 256 }
        ensures { result ≡ greatest (group_of count (unmarked_numbers self.now) group) }
    {
        let blocks = self.blocks();
        let first = count * group;
        let end = (first + count).min(blocks);
        let mut most = 0;
        for block in first..end {
            let unneeded = self.unneeded(Block(block));
            if unneeded > most {
                most = unneeded;
            }
        }
        most
    }

    /// The first block with the most garbage. Where there is none at all there is no such block.
    pub fn most_garbage(&self) -> Option<Block>
        ensures none { IsNone result ↔ All (λ x. x ≡ 0) (garbage_counts self.now) }
        ensures first { IfSome result (λ block. IsFirstGreatest (garbage_counts self.now) block.0) }
    {
        self.garbage.first_greatest()
    }

    /// The number of garbage slots of all blocks.
    pub fn all_garbage(&self) -> u32
        ensures { result ≡ sum (garbage_counts self.now) }
    {
        self.garbage.sum()
    }

    /// Sets whether a slot is needed.
    pub fn set(&mut self, at: u32, needed: bool)
        requires { at < length self.old.needed }
        ensures { self.new ≡ record self.old { needed = slice_set self.old.needed at needed } }
    {
        if self.marks.needed.get(at) == needed {
            return;
        }
        let block = self.marks.needed.group(at);
        self.marks.needed.set_in(block, at, needed);
        if needed {
            recount(&mut self.garbage, &self.marks, block);
            return;
        }
        recount_more(&mut self.garbage, &self.marks, block);
    }

    /// Sets whether a slot is blank. The garbage of its block is not counted anew where no program goes there, but at
    /// its last slot.
    #[inline(always)]
    pub fn set_blank(&mut self, at: u32, blank: bool)
        requires { at < length self.old.blanks }
        ensures { self.new ≡ record self.old { blanks = slice_set self.old.blanks at blank } }
    {
        if self.marks.blanks.get(at) == blank {
            return;
        }
        let block = self.marks.blanks.group(at);
        let stays = self.marks.stays_shut(block, at);
        self.marks.blanks.set_in(block, at, blank);
        if stays {
            return;
        }
        recount(&mut self.garbage, &self.marks, block);
    }

    /// Sets whether a slot is needed and whether it is blank. The garbage of its block is counted once for both, and
    /// not at all where it is known to stay.
    #[inline(always)]
    pub fn mark(&mut self, at: u32, needed: bool, blank: bool)
        requires { at < length self.old.needed }
        ensures { self.new ≡ record self.old {
          needed = slice_set self.old.needed at needed;
          blanks = slice_set self.old.blanks at blank;
        } }
    {
        let block = self.marks.needed.group(at);
        let stays = self.marks.keeps_garbage(block, at, needed, blank);
        self.marks.needed.set_in(block, at, needed);
        self.marks.blanks.set_in(block, at, blank);
        if stays {
            return;
        }
        recount(&mut self.garbage, &self.marks, block);
    }

    /// Sets whether a block is closed.
    pub fn set_closed(&mut self, block: Block, closed: bool)
        requires { block.0 < self.old.blocks }
        ensures { self.new ≡ record self.old { closed = slice_set self.old.closed block.0 closed } }
    {
        self.marks.closed[block.0 as usize] = closed;
        recount(&mut self.garbage, &self.marks, block.0);
    }

    /// Makes a block the spare, which is not closed.
    pub fn set_spare(&mut self, block: Block)
        requires { block.0 < self.old.blocks }
        ensures { self.new ≡ record self.old {
          spare = Some block.0;
          closed = slice_set self.old.closed block.0 false;
        } }
    {
        let before = self.marks.spare;
        self.marks.spare = Some(block);
        self.marks.closed[block.0 as usize] = false;
        if let Some(old) = before {
            recount(&mut self.garbage, &self.marks, old.0);
        }
        recount(&mut self.garbage, &self.marks, block.0);
    }
}

impl SlotMarks {
    /// Whether a block is the spare.
    fn is_spare(&self, block: u32) -> bool
        ensures { result ≡ is_slot block (option_map (λ b. b.0) self.now.spare) }
    {
        match self.spare {
            None => false,
            Some(spare) => spare.0 == block,
        }
    }

    /// How many slots of a block are garbage: those that are not needed, without its blank ones where programs go to
    /// it. The spare has none.
    fn garbage(&self, block: u32) -> u32
        requires sized { (blocks : ℕ) × AreSized self.now blocks × (block < blocks) }
        ensures garbage { result ≡ garbage_by self.now block }
        ensures few { result ≤ self.now.needed.size }
    {
        if self.is_spare(block) {
            return 0;
        }
        let unneeded = self.needed.size() - self.needed.count(block);
        if self.is_shut(block) {
            return unneeded;
        }
        unneeded.saturating_sub(self.blanks.count(block))
    }

    /// Whether no program goes to a block: it is closed, or its last slot is not blank.
    #[inline(always)]
    fn is_shut(&self, block: u32) -> bool
        requires sized { (blocks : ℕ) × AreSized self.now blocks × (block < blocks) }
        ensures { result ≡ is_shut_in self.now.blanks.marks self.now.closed.items self.now.needed.size block }
    {
        let size = self.needed.size();
        self.closed[block as usize] || !self.blanks.get(block * size + (size - 1))
    }

    /// Whether it is known that a block has as much garbage once one of its slots is marked so: programs go there, and
    /// the slot, which was blank, is needed in place of that.
    #[inline(always)]
    fn keeps_garbage(&self, block: u32, at: u32, needed: bool, blank: bool) -> bool
        requires sized { (blocks : ℕ) × AreSized self.now blocks × (block < blocks) }
        requires block { block ≡ at / self.now.needed.size }
        requires slot { at < length self.now.needed.marks }
        ensures { result ≡ true → garbage_by (marked_so self.now at needed blank) block ≡ garbage_by self.now block }
    {
        if !self.is_filled(at, needed, blank) {
            return false;
        }
        if self.is_last(block, at) {
            return self.has_one_blank(block);
        }
        !self.is_shut(block)
    }

    /// Whether a slot that is marked so was blank, and is needed in place of that.
    #[inline(always)]
    fn is_filled(&self, at: u32, needed: bool, blank: bool) -> bool
        requires needed { at < length self.now.needed.marks }
        requires blanks { at < length self.now.blanks.marks }
        ensures { result ≡ (needed && not blank
            && not (is_marked self.now.needed.marks at)
            && is_marked self.now.blanks.marks at) }
    {
        needed && !blank && !self.needed.get(at) && self.blanks.get(at)
    }

    /// Whether it is known that a block has as much garbage whether one of its slots is blank or not: no program goes
    /// there.
    #[inline(always)]
    fn stays_shut(&self, block: u32, at: u32) -> bool
        requires sized { (blocks : ℕ) × AreSized self.now blocks × (block < blocks) }
        requires block { block ≡ at / self.now.needed.size }
        requires slot { at < length self.now.needed.marks }
        ensures { result ≡ true → (blank : Bool) →
            garbage_by (marked_so self.now at (is_marked self.now.needed.marks at) blank) block
            ≡ garbage_by self.now block }
    {
        if self.is_last(block, at) {
            return false;
        }
        self.is_shut(block)
    }

    /// Whether a slot is the last one of a block.
    #[inline(always)]
    fn is_last(&self, block: u32, at: u32) -> bool
        requires sized { (blocks : ℕ) × AreSized self.now blocks × (block < blocks) }
        ensures { result ≡ (at == block * self.now.needed.size + (self.now.needed.size - 1)) }
    {
        let size = self.needed.size();
        at == block * size + (size - 1)
    }

    /// Whether a block is not closed, and just one of its slots is blank. Nothing but speed rests on it where it says
    /// no.
    fn has_one_blank(&self, block: u32) -> bool
        requires sized { (blocks : ℕ) × AreSized self.now blocks × (block < blocks) }
        ensures unclosed { result ≡ true → is_marked self.now.closed.items block ≡ false }
        ensures blank { result ≡ true → marked_in self.now.blanks.marks self.now.needed.size block ≡ 1 }
    {
        if self.closed[block as usize] {
            return false;
        }
        self.blanks.count(block) == 1
    }
}

/// Blocks none of which is closed or has garbage.
fn open_blocks(alloc: Global, blocks: u32) -> Result<(Vec<bool>, BlockNumbers), AllocError>
    ensures closed { IfOk result (λ t. t.0.items ≡ replicate blocks false) }
    ensures garbage { IfOk result (λ t. t.1 ≡ replicate blocks 0) }
{
    Ok((
        vec![in alloc; false; blocks as usize]?,
        BlockNumbers::new(alloc, blocks)?,
    ))
}

/// Counts the garbage of each block.
fn count_all(garbage: &mut BlockNumbers, marks: &SlotMarks, blocks: u32)
    requires zero { garbage.old ≡ replicate blocks 0 }
    requires sized { AreSized marks.now blocks }
    ensures { garbage.new ≡ map (garbage_by marks.now) (range_with_len 0 blocks) }
{
    // For the proof: there are few slots.
    let _ = marks.needed.size();
    for block in 0..blocks {
        recount(garbage, marks, block);
    }
}

/// Counts the garbage of a block anew.
fn recount(garbage: &mut BlockNumbers, marks: &SlotMarks, block: u32)
    requires sized { AreSized marks.now (length garbage.old) }
    requires block { block < length garbage.old }
    requires few { sum garbage.old ≤ 131072 }
    ensures garbage { garbage.new ≡ slice_set garbage.old block (garbage_by marks.now block) }
    ensures few { sum garbage.new ≤ sum garbage.old + marks.now.needed.size }
{
    // For the proof: there are few slots.
    let _ = marks.needed.size();
    let count = marks.garbage(block);
    garbage.set(block, count);
}

/// Counts the garbage of a block anew, one of whose slots is needed no more: where there was some, there is one more.
#[inline(always)]
fn recount_more(garbage: &mut BlockNumbers, marks: &SlotMarks, block: u32)
    requires sized { AreSized marks.now (length garbage.old) }
    requires block { block < length garbage.old }
    requires few { sum garbage.old ≤ 131072 }
    requires more { 0 < slice_index garbage.old block →
        garbage_by marks.now block ≡ slice_index garbage.old block + 1 }
    ensures { garbage.new ≡ slice_set garbage.old block (garbage_by marks.now block) }
{
    // For the proof: there are few slots.
    let _ = marks.needed.size();
    let count = garbage.get(block);
    if count == 0 {
        recount(garbage, marks, block);
        return;
    }
    let more = count + 1;
    garbage.set(block, more);
}
