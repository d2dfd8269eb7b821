//! How the slots that wait are written: those that follow each other by one call, up to as many as a block has.
ghost use Rattle.std.specs.Prelude.{◌≡◌, ◌≤◌, ◌<◌, ◌+◌, [], ℕ, List, length, take, drop, slice_index_or, vec_capacity, OnOk, IfSome, IsTrue};
ghost use Rattle.tx_types.specs.Config.{slots_of};
ghost use Rattle.tx_types.specs.declared.config.Slot.{Slot};
ghost use Rattle.file_flash.specs.Files.{faults_after};
ghost use Rattle.file_flash.specs.Following.{AreProgrammed};
ghost use Rattle.live_flash.specs.Following.{IsOpened, IsLiveFile, Follows};
ghost use Rattle.live_flash.specs.Losing.{LosesOnly};
ghost use Rattle.live_flash.specs.Waiting.{HasRoom, AreOnce, AreInRun, no_slot, room_bytes};

use crate::Follower;
use file_flash::{Store, StoreError};
use flash_model::Flash;
use mem_flash::MemFlash;
use tx_types::Slot;

/// Whether a number is so many above another one.
fn is_above(number: u32, first: u32, count: u32) -> bool
    ensures { IsTrue result → number ≡ first + count }
{
    u64::from(number) == u64::from(first) + u64::from(count)
}

/// Whether the slot at so many places behind another one is the slot so many behind that.
fn is_in_run(slots: &[Slot], from: usize, count: u32) -> bool
    requires { from < length slots.now }
    ensures within { IsTrue result → from + count < length slots.now }
    ensures number { IsTrue result → (slice_index_or slots.now (from + count) no_slot).0
        ≡ (slice_index_or slots.now from no_slot).0 + count }
{
    match slots.get(from + count as usize) {
        Some(at) => is_above(at.0, slots[from].0, count),
        None => false,
    }
}

/// How many slots follow each other from this one of a list on, with it, up to so many.
fn run_at(slots: &[Slot], from: usize, most: u32) -> u32
    requires from { from < length slots.now }
    requires some { 1 ≤ most }
    ensures some { 1 ≤ result }
    ensures few { result ≤ most }
    ensures within { from + result ≤ length slots.now }
    ensures run { AreInRun slots.now from result }
{
    for count in 1..most {
        if !is_in_run(slots, from, count) {
            return count;
        }
    }
    most
}

impl<S: Store + Drop> Follower<S> {
    /// Writes the slots that wait, in any order.
    pub(crate) fn write_waiting(&mut self, memory: &MemFlash) -> Result<(), StoreError>
        requires room { length self.old.room.items ≡ room_bytes memory.now.shape }
        requires opened { IfSome (S.told self.old.store) (IsOpened memory.now.shape) }
        requires programmed { AreProgrammed memory.now.image self.old.waiting.items }
        requires places { HasRoom memory.now.shape (vec_capacity self.old.waiting) self.old.waiting.items }
        requires follows { IfSome (S.told self.old.store)
            (Follows memory.now.shape memory.now.image [] self.old.waiting.items) }
        ensures room { length self.new.room.items ≡ length self.old.room.items }
        ensures capacity { vec_capacity self.new.waiting ≡ vec_capacity self.old.waiting }
        ensures opened { IfSome (S.told self.new.store) (IsOpened memory.now.shape) }
        ensures kept { (head : List ℕ) → IfSome (S.told self.old.store) (IsLiveFile memory.now.shape head) →
            IfSome (S.told self.new.store) (IsLiveFile memory.now.shape head) }
        ensures follows { OnOk result (IfSome (S.told self.new.store)
            (Follows memory.now.shape memory.now.image self.old.waiting.items [])) }
        ensures loses { IfSome (S.told self.new.store)
            (LosesOnly memory.now.shape memory.now.image self.old.waiting.items) }
        ensures counts { S.faults self.new.store ≡ faults_after result (S.faults self.old.store) }
    {
        let _ = memory.shape();
        self.waiting.sort_unstable();
        self.write_runs(memory)
    }

    /// Writes the slots that wait, none of which waits twice, run by run.
    fn write_runs(&mut self, memory: &MemFlash) -> Result<(), StoreError>
        requires room { length self.old.room.items ≡ room_bytes memory.now.shape }
        requires opened { IfSome (S.told self.old.store) (IsOpened memory.now.shape) }
        requires programmed { AreProgrammed memory.now.image self.old.waiting.items }
        requires once { AreOnce self.old.waiting.items }
        requires follows { IfSome (S.told self.old.store)
            (Follows memory.now.shape memory.now.image [] self.old.waiting.items) }
        ensures waits { self.new.waiting ≡ self.old.waiting }
        ensures room { length self.new.room.items ≡ length self.old.room.items }
        ensures opened { IfSome (S.told self.new.store) (IsOpened memory.now.shape) }
        ensures kept { (head : List ℕ) → IfSome (S.told self.old.store) (IsLiveFile memory.now.shape head) →
            IfSome (S.told self.new.store) (IsLiveFile memory.now.shape head) }
        ensures follows { OnOk result (IfSome (S.told self.new.store)
            (Follows memory.now.shape memory.now.image self.old.waiting.items [])) }
        ensures loses { IfSome (S.told self.new.store)
            (LosesOnly memory.now.shape memory.now.image self.old.waiting.items) }
        ensures counts { S.faults self.new.store ≡ faults_after result (S.faults self.old.store) }
    {
        let shape = memory.shape();
        let mut next = 0;
        while next < self.waiting.len() {
            let count = run_at(&self.waiting, next, shape.pages_per_block);
            self.write_run(memory, next, count)?;
            next += count as usize;
        }
        Ok(())
    }

    /// Writes slots that wait and follow each other, behind those that are written already.
    fn write_run(&mut self, memory: &MemFlash, from: usize, count: u32) -> Result<(), StoreError>
        requires within { from + count ≤ length self.old.waiting.items }
        requires some { 1 ≤ count }
        requires few { count ≤ memory.now.shape.pages_per_block }
        requires run { AreInRun self.old.waiting.items from count }
        requires room { length self.old.room.items ≡ room_bytes memory.now.shape }
        requires opened { IfSome (S.told self.old.store) (IsOpened memory.now.shape) }
        requires programmed { AreProgrammed memory.now.image self.old.waiting.items }
        requires once { AreOnce self.old.waiting.items }
        requires follows { IfSome (S.told self.old.store) (Follows memory.now.shape memory.now.image
            (take from self.old.waiting.items) (drop from self.old.waiting.items)) }
        ensures waits { self.new.waiting ≡ self.old.waiting }
        ensures room { length self.new.room.items ≡ length self.old.room.items }
        ensures opened { IfSome (S.told self.new.store) (IsOpened memory.now.shape) }
        ensures kept { (head : List ℕ) → IfSome (S.told self.old.store) (IsLiveFile memory.now.shape head) →
            IfSome (S.told self.new.store) (IsLiveFile memory.now.shape head) }
        ensures follows { OnOk result (IfSome (S.told self.new.store)
            (Follows memory.now.shape memory.now.image (take (from + count) self.old.waiting.items)
            (drop (from + count) self.old.waiting.items))) }
        ensures loses { IfSome (S.told self.new.store)
            (LosesOnly memory.now.shape memory.now.image self.old.waiting.items) }
        ensures counts { S.faults self.new.store ≡ faults_after result (S.faults self.old.store) }
    {
        let _ = memory.shape();
        let first = self.waiting[from];
        self.program_slots(memory, first, count)
    }
}
