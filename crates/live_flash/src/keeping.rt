//! How the file follows the calls of the flash in memory.
ghost use Rattle.std.specs.Prelude.{◌≡◌, ◌≤◌, ◌<◌, ◌+◌, ◌⊎◌, ◌∷◌, ◌++◌, [], ℕ, List, length, vec_capacity, OnOk, IfSome, IsTrue, true, false};
ghost use Rattle.tx_types.specs.Config.{slots_of};
ghost use Rattle.tx_types.specs.declared.config.Slot.{Slot};
ghost use Rattle.flash_model.specs.Flash.{Contents, blank, slot_at, IsImage};
ghost use Rattle.flash_model.specs.Calls.{seen_of};
ghost use Rattle.flash_model.specs.Readings.{reads_blank};
ghost use Rattle.file_flash.specs.Clearing.{IsCleared};
ghost use Rattle.file_flash.specs.Files.{faults_after};
ghost use Rattle.file_flash.specs.Following.{AreProgrammed, slots_in};
ghost use Rattle.live_flash.specs.Following.{IsOpened, IsLiveFile, Follows};
ghost use Rattle.live_flash.specs.Losing.{LosesOnly, LosesBetween, AreWrittenAnew};
ghost use Rattle.live_flash.specs.Waiting.{HasRoom, room_bytes};

use crate::Follower;
use file_flash::{Store, StoreError};
use flash_model::{Flash, Seen};
use mem_flash::MemFlash;
use tx_types::Slot;

/// Whether a slot is blank in memory.
fn is_blank(memory: &MemFlash, at: Slot) -> bool
    requires { at.0 < slots_of memory.now.shape }
    ensures { result ≡ reads_blank (seen_of (slot_at memory.now.image at.0)) }
{
    match memory.seen(at) {
        Seen::Blank => true,
        Seen::Complete | Seen::Damaged => false,
    }
}

/// Whether slots that follow each other are blank in memory, each of them.
fn are_blank(memory: &MemFlash, first: u32, count: u32) -> bool
    requires { first + count ≤ slots_of memory.now.shape }
    ensures { IsTrue result → (k : ℕ) → first ≤ k → k < first + count → slot_at memory.now.image k ≡ blank }
{
    let _ = memory.shape();
    for number in first..first + count {
        if !is_blank(memory, Slot(number)) {
            return false;
        }
    }
    true
}

impl<S: Store + Drop> Follower<S> {
    /// Follows a program of a slot in memory that does not wait yet: where it is not blank it waits from now on, and is
    /// blank in the file still. Others that were programmed with it may wait.
    pub fn put(&mut self, memory: &MemFlash, at: Slot)
        requires exists { at.0 < slots_of memory.now.shape }
        requires programmed { AreProgrammed memory.now.image self.old.waiting.items }
        requires places { HasRoom memory.now.shape (vec_capacity self.old.waiting) self.old.waiting.items }
        requires fresh { slots_in self.old.waiting.items at.0 ≡ false }
        ensures store { self.new.store ≡ self.old.store }
        ensures room { self.new.room ≡ self.old.room }
        ensures places { HasRoom memory.now.shape (vec_capacity self.new.waiting) self.new.waiting.items }
        ensures programmed { AreProgrammed memory.now.image self.new.waiting.items }
        ensures waits { (self.new.waiting.items ≡ self.old.waiting.items)
            ⊎ (self.new.waiting.items ≡ self.old.waiting.items ++ at ∷ []) }
        ensures follows { (due : List Slot) → IfSome (S.told self.old.store)
            (Follows memory.now.shape memory.now.image [] (self.old.waiting.items ++ at ∷ due)) →
            IfSome (S.told self.new.store)
            (Follows memory.now.shape memory.now.image [] (self.new.waiting.items ++ due)) }
    {
        let _ = memory.shape();
        if is_blank(memory, at) {
            return;
        }
        self.note(memory, at);
    }

    /// Notes that a slot waits which did not. There is room for it, since none waits twice.
    fn note(&mut self, memory: &MemFlash, at: Slot)
        requires exists { at.0 < slots_of memory.now.shape }
        requires programmed { AreProgrammed memory.now.image self.old.waiting.items }
        requires places { HasRoom memory.now.shape (vec_capacity self.old.waiting) self.old.waiting.items }
        requires fresh { slots_in self.old.waiting.items at.0 ≡ false }
        ensures waits { self.new.waiting.items ≡ self.old.waiting.items ++ at ∷ [] }
        ensures places { HasRoom memory.now.shape (vec_capacity self.new.waiting) self.new.waiting.items }
        ensures room { self.new.room ≡ self.old.room }
        ensures store { self.new.store ≡ self.old.store }
    {
        let _ = memory.shape();
        let _ = self.waiting.push(at);
    }

    /// Writes the slots that wait, those that follow each other by one call, up to a block's, and makes them durable by
    /// one sync.
    pub fn flush(&mut self, memory: &MemFlash) -> Result<(), StoreError>
        requires room { length self.old.room.items ≡ room_bytes memory.now.shape }
        requires opened { IfSome (S.told self.old.store) (IsOpened memory.now.shape) }
        requires programmed { AreProgrammed memory.now.image self.old.waiting.items }
        requires places { HasRoom memory.now.shape (vec_capacity self.old.waiting) self.old.waiting.items }
        requires follows { IfSome (S.told self.old.store)
            (Follows memory.now.shape memory.now.image [] self.old.waiting.items) }
        ensures none { OnOk result (self.new.waiting.items ≡ []) }
        ensures room { length self.new.room.items ≡ length self.old.room.items }
        ensures places { OnOk result
            (HasRoom memory.now.shape (vec_capacity self.new.waiting) self.new.waiting.items) }
        ensures opened { OnOk result (IfSome (S.told self.new.store) (IsOpened memory.now.shape)) }
        ensures kept { (head : List ℕ) → IfSome (S.told self.old.store) (IsLiveFile memory.now.shape head) →
            IfSome (S.told self.new.store) (IsLiveFile memory.now.shape head) }
        ensures follows { OnOk result (IfSome (S.told self.new.store)
            (Follows memory.now.shape memory.now.image [] [])) }
        ensures loses { IfSome (S.told self.new.store)
            (LosesOnly memory.now.shape memory.now.image self.old.waiting.items) }
        ensures counts { S.faults self.new.store ≡ faults_after result (S.faults self.old.store) }
    {
        let _ = memory.shape();
        if self.waiting.is_empty() {
            return Ok(());
        }
        self.write_waiting(memory)?;
        self.store.sync()?;
        self.waiting.clear();
        Ok(())
    }

    /// Writes anew slots that follow each other, of which an erase took what they held, and makes them durable. No slot
    /// waits.
    pub fn rewrite(&mut self, memory: &MemFlash, first: u32, count: u32) -> Result<(), StoreError>
        requires exist { first + count ≤ slots_of memory.now.shape }
        requires some { 1 ≤ count }
        requires few { count ≤ memory.now.shape.pages_per_block }
        requires room { length self.old.room.items ≡ room_bytes memory.now.shape }
        requires opened { IfSome (S.told self.old.store) (IsOpened memory.now.shape) }
        ensures same { self.new.waiting ≡ self.old.waiting }
        ensures room { length self.new.room.items ≡ length self.old.room.items }
        ensures opened { OnOk result (IfSome (S.told self.new.store) (IsOpened memory.now.shape)) }
        ensures kept { (head : List ℕ) → IfSome (S.told self.old.store) (IsLiveFile memory.now.shape head) →
            IfSome (S.told self.new.store) (IsLiveFile memory.now.shape head) }
        ensures follows { (old : List Contents) → IsCleared old memory.now.image first count →
            IfSome (S.told self.old.store) (Follows memory.now.shape old [] []) →
            OnOk result (IfSome (S.told self.new.store) (Follows memory.now.shape memory.now.image [] [])) }
        ensures loses { (old : List Contents) → IsImage memory.now.shape old →
            IsCleared old memory.now.image first count →
            IfSome (S.told self.old.store) (Follows memory.now.shape old [] []) →
            IfSome (S.told self.new.store) (LosesBetween memory.now.shape old memory.now.image) }
        ensures counts { S.faults self.new.store ≡ faults_after result (S.faults self.old.store) }
    {
        let _ = memory.shape();
        self.write_anew(memory, first, count)?;
        self.store.sync()
    }

    /// Writes them anew, by one call where they are blank.
    fn write_anew(&mut self, memory: &MemFlash, first: u32, count: u32) -> Result<(), StoreError>
        requires exist { first + count ≤ slots_of memory.now.shape }
        requires some { 1 ≤ count }
        requires few { count ≤ memory.now.shape.pages_per_block }
        requires room { length self.old.room.items ≡ room_bytes memory.now.shape }
        requires opened { IfSome (S.told self.old.store) (IsOpened memory.now.shape) }
        ensures same { self.new.waiting ≡ self.old.waiting }
        ensures room { length self.new.room.items ≡ length self.old.room.items }
        ensures opened { IfSome (S.told self.new.store) (IsOpened memory.now.shape) }
        ensures kept { (head : List ℕ) → IfSome (S.told self.old.store) (IsLiveFile memory.now.shape head) →
            IfSome (S.told self.new.store) (IsLiveFile memory.now.shape head) }
        ensures tears { (old : List Contents) → IsCleared old memory.now.image first count →
            IfSome (S.told self.old.store) (Follows memory.now.shape old [] []) →
            OnOk result (IfSome (S.told self.new.store)
            (AreWrittenAnew memory.now.shape old memory.now.image first (first + count))) }
        ensures loses { (old : List Contents) → IsImage memory.now.shape old →
            IsCleared old memory.now.image first count →
            IfSome (S.told self.old.store) (Follows memory.now.shape old [] []) →
            IfSome (S.told self.new.store) (LosesBetween memory.now.shape old memory.now.image) }
        ensures counts { S.faults self.new.store ≡ faults_after result (S.faults self.old.store) }
    {
        let shape = memory.shape();
        if are_blank(memory, first, count) {
            return self.erase_slots(shape, Slot(first), count);
        }
        self.write_each_anew(memory, first, count)
    }

    /// Writes them anew one by one.
    fn write_each_anew(
        &mut self,
        memory: &MemFlash,
        first: u32,
        count: u32,
    ) -> Result<(), StoreError>
        requires exist { first + count ≤ slots_of memory.now.shape }
        requires room { length self.old.room.items ≡ room_bytes memory.now.shape }
        requires opened { IfSome (S.told self.old.store) (IsOpened memory.now.shape) }
        ensures same { self.new.waiting ≡ self.old.waiting }
        ensures room { length self.new.room.items ≡ length self.old.room.items }
        ensures opened { IfSome (S.told self.new.store) (IsOpened memory.now.shape) }
        ensures kept { (head : List ℕ) → IfSome (S.told self.old.store) (IsLiveFile memory.now.shape head) →
            IfSome (S.told self.new.store) (IsLiveFile memory.now.shape head) }
        ensures tears { (old : List Contents) → IsCleared old memory.now.image first count →
            IfSome (S.told self.old.store) (Follows memory.now.shape old [] []) →
            OnOk result (IfSome (S.told self.new.store)
            (AreWrittenAnew memory.now.shape old memory.now.image first (first + count))) }
        ensures loses { (old : List Contents) → IsImage memory.now.shape old →
            IsCleared old memory.now.image first count →
            IfSome (S.told self.old.store) (Follows memory.now.shape old [] []) →
            IfSome (S.told self.new.store) (LosesBetween memory.now.shape old memory.now.image) }
        ensures counts { S.faults self.new.store ≡ faults_after result (S.faults self.old.store) }
    {
        let _ = memory.shape();
        for number in first..first + count {
            self.clear_slot(memory, Slot(number))?;
        }
        Ok(())
    }
}
