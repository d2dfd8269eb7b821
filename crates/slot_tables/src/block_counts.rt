ghost use Rattle.std.specs.Prelude.{◌≡◌, ℕ, ◌+◌, ◌*◌, ◌/◌, ◌<◌, ◌≤◌, length, replicate, slice_index_or, slice_set, IfOk, if◌then◌else◌};
ghost use Rattle.slot_tables.specs.Counts.{is_marked, marked_in};

use dense_tables::Reciprocal;
use std::alloc::{AllocError, Global};
use std::marker::Model;

/// Marks of places that stand in groups of one size, and how many are set in each group.
#[derive(Drop)]
pub struct BlockCounts {
    marks: Vec<bool>,
    counts: Vec<u32>,
    size: Reciprocal,
}

impl Model for BlockCounts {
    ghost use Rattle.slot_tables.specs.Counts.{BlockCountsState};

    ghost Value = { BlockCountsState };

    ghost use Rattle.slot_tables.specs.BlockCounts.{marks_of, BlockCountsInvariant};

    ghost view = { marks_of };

    ghost invariant = { BlockCountsInvariant };
}

impl BlockCounts {
    /// All marks are the same.
    pub fn new(alloc: Global, groups: u32, size: u32, mark: bool) -> Result<BlockCounts, AllocError>
        requires size { 0 < size }
        requires small { groups * size ≤ 65536 }
        ensures { IfOk result (λ t.
            t ≡ record { marks = replicate (groups * size) mark; size = size }) }
    {
        let count = if mark { size } else { 0 };
        Ok(BlockCounts {
            marks: vec![in alloc; mark; (groups * size) as usize]?,
            counts: vec![in alloc; count; groups as usize]?,
            size: Reciprocal::new(size),
        })
    }

    /// How many places each group has.
    pub fn size(&self) -> u32
        ensures size { result ≡ self.now.size }
        ensures some { 0 < result }
        ensures small { length self.now.marks ≤ 65536 }
    {
        self.size.get()
    }

    /// The group of a place.
    #[inline(always)]
    pub fn group(&self, at: u32) -> u32
        requires { at < length self.now.marks }
        ensures { result ≡ at / self.now.size }
    {
        self.size.quotient(at)
    }

    /// The mark of a place.
    pub fn get(&self, at: u32) -> bool
        requires { at < length self.now.marks }
        ensures { result ≡ is_marked self.now.marks at }
    {
        self.marks[at as usize]
    }

    /// How many marks are set in a group.
    pub fn count(&self, group: u32) -> u32
        requires { group * self.now.size + self.now.size ≤ length self.now.marks }
        ensures count { result ≡ marked_in self.now.marks self.now.size group }
        ensures most { result ≤ self.now.size }
    {
        self.counts[group as usize]
    }

    /// Sets or takes away a mark.
    pub fn set(&mut self, at: u32, mark: bool)
        requires { at < length self.old.marks }
        ensures { self.new ≡ record self.old { marks = slice_set self.old.marks at mark } }
    {
        let group = self.group(at);
        self.set_in(group, at, mark);
    }

    /// Sets or takes away the mark of a place of this group.
    #[inline(always)]
    pub fn set_in(&mut self, group: u32, at: u32, mark: bool)
        requires place { at < length self.old.marks }
        requires group { group ≡ at / self.old.size }
        ensures { self.new ≡ record self.old { marks = slice_set self.old.marks at mark } }
    {
        if self.marks[at as usize] == mark {
            return;
        }
        self.marks[at as usize] = mark;
        if mark {
            self.counts[group as usize] += 1;
        } else {
            self.counts[group as usize] -= 1;
        }
    }
}
