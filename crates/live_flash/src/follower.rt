//! The file of a flash in memory: which bytes stand for its slots, and how they are written.
ghost use Rattle.std.specs.Prelude.{◌≡◌, ◌≤◌, ◌<◌, ◌+◌, ◌-◌, ◌*◌, ◌⊎◌, ◌∷◌, [], ℕ, length, slice_set, All, IfSome};
ghost use Rattle.std.specs.Fork.{slice_chunk};
ghost use Rattle.tx_types.specs.Config.{slots_of, IsShape};
ghost use Rattle.flash_model.specs.Flash.{Contents, blank, slot_at};
ghost use Rattle.mem_flash.specs.Slots.{cell_bytes};
ghost use Rattle.file_flash.specs.Clearing.{IsBare};
ghost use Rattle.file_flash.specs.Files.{BothTell, WritesFile, faults_after};
ghost use Rattle.zero_count.specs.Zeros.{counted, erased};
ghost use Rattle.live_image.specs.Slots.{slot_bytes, damage_byte};
ghost use Rattle.live_image.specs.Layout.{slot_offset};
ghost use Rattle.live_flash.specs.Following.{IsOpened, IsSlot, TurnsSlot, TurnsSlots};
ghost use Rattle.live_flash.specs.Waiting.{room_bytes};

use file_flash::{Store, StoreError};
use flash_model::{Flash, SPARE_BYTES, Seen};
use mem_flash::MemFlash;
use tx_types::{Shape, Slot};
use zero_count::write_number;

/// The bytes of an image file's header.
const HEADER_BYTES: u64 = 64;

/// The bytes of a number of zero bits.
const NUMBER_BYTES: u64 = 4;

/// The last byte of a damaged slot.
const DAMAGE_BYTE: u8 = 0x80;

/// The file of a flash in memory, and the slots that wait for a flush.
#[derive(Drop)]
pub struct Follower<S: Store + Drop> {
    pub store: S,
    pub waiting: Vec<Slot>,
    /// Room for the bytes of the slots of a block.
    pub room: Vec<u8>,
}

/// The bytes of a slot.
fn slot_bytes(shape: Shape) -> u64
    requires { IsShape shape }
    ensures { result ≡ slot_bytes shape.page_bytes }
{
    u64::from(shape.page_bytes) + SPARE_BYTES as u64 + NUMBER_BYTES
}

/// Where the bytes of a slot begin.
fn slot_offset(shape: Shape, at: Slot) -> u64
    requires shape { IsShape shape }
    requires exists { at.0 < slots_of shape }
    ensures { result ≡ slot_offset shape at.0 }
{
    HEADER_BYTES + u64::from(at.0) * slot_bytes(shape)
}

/// Writes bytes into the front of a room, and behind them the number of their zero bits.
fn fill_counted(room: &mut [u8], own: &[u8])
    requires room { length room.old ≡ length own.now + 4 }
    requires few { length own.now ≤ 4160 }
    ensures fills { room.new ≡ counted own.now }
    ensures bytes { All (λ b. b < 256) own.now }
{
    room[..own.len()].copy_from_slice(own);
    write_number(room);
}

/// Writes the bytes of erased slots.
fn fill_erased(places: &mut [u8])
    ensures { places.new ≡ erased (length places.old) }
{
    places.fill(0xff);
}

/// Writes the bytes of a damaged slot.
fn fill_damaged(place: &mut [u8])
    requires { 1 ≤ length place.old }
    ensures { place.new ≡ slice_set (erased (length place.old)) (length place.old - 1) damage_byte }
{
    fill_erased(place);
    let last = place.len() - 1;
    place[last] = DAMAGE_BYTE;
}

/// Writes bytes that stand for a slot of the flash in memory.
fn fill_slot(place: &mut [u8], memory: &MemFlash, at: Slot)
    requires exists { at.0 < slots_of memory.now.shape }
    requires place { length place.old ≡ slot_bytes memory.now.shape.page_bytes }
    ensures { IsSlot memory.now.shape.page_bytes (slot_at memory.now.image at.0) place.new }
{
    let _ = memory.shape();
    match memory.seen(at) {
        Seen::Complete => fill_counted(place, memory.cell(at)),
        Seen::Damaged => fill_damaged(place),
        Seen::Blank => fill_erased(place),
    }
}

/// Writes bytes that stand for slots of the flash in memory that follow each other, of `size` bytes each.
fn fill_slots(places: &mut [u8], memory: &MemFlash, first: Slot, count: u32, size: usize)
    requires exist { first.0 + count ≤ slots_of memory.now.shape }
    requires size { size ≡ slot_bytes memory.now.shape.page_bytes }
    requires places { length places.old ≡ count * size }
    ensures long { length places.new ≡ length places.old }
    ensures slots { (k : ℕ) → k < count → IsSlot memory.now.shape.page_bytes
        (slot_at memory.now.image (first.0 + k)) (slice_chunk places.new size k) }
{
    let _ = memory.shape();
    for at in 0..count {
        let from = at as usize * size;
        fill_slot(&mut places[from..from + size], memory, Slot(first.0 + at));
    }
}

/// Writes slots of the flash in memory that follow each other over erased ones of a file, by one call.
fn write_slots<S: Store>(
    store: &mut S,
    room: &mut [u8],
    memory: &MemFlash,
    first: Slot,
    count: u32,
) -> Result<(), StoreError>
    requires exist { first.0 + count ≤ slots_of memory.now.shape }
    requires some { 1 ≤ count }
    requires few { count ≤ memory.now.shape.pages_per_block }
    requires room { length room.old ≡ room_bytes memory.now.shape }
    requires opened { IfSome (S.told store.old) (IsOpened memory.now.shape) }
    ensures turns { BothTell (TurnsSlots memory.now.shape first.0 count (λ k. blank)
        (λ k. slot_at memory.now.image k) result) (S.told store.old) (S.told store.new) }
    ensures counts { S.faults store.new ≡ faults_after result (S.faults store.old) }
{
    let shape = memory.shape();
    let size = slot_bytes(shape) as usize;
    let places = &mut room[..count as usize * size];
    fill_slots(places, memory, first, count, size);
    store.write_at(slot_offset(shape, first), places)
}

/// Erases so many bytes of a file, by one call.
fn write_erased<S: Store>(
    store: &mut S,
    room: &mut [u8],
    offset: u64,
    bytes: usize,
) -> Result<(), StoreError>
    requires few { bytes ≤ length room.old }
    requires within { IfSome (S.told store.old) (λ file. offset + bytes ≤ length file.values) }
    ensures writes { BothTell (WritesFile offset (erased bytes) result) (S.told store.old) (S.told store.new) }
    ensures counts { S.faults store.new ≡ faults_after result (S.faults store.old) }
{
    let places = &mut room[..bytes];
    fill_erased(places);
    store.write_at(offset, places)
}

impl<S: Store + Drop> Follower<S> {
    /// Writes what slots of the flash in memory that follow each other were programmed to, over erased ones, by one
    /// call.
    pub(crate) fn program_slots(
        &mut self,
        memory: &MemFlash,
        first: Slot,
        count: u32,
    ) -> Result<(), StoreError>
        requires exist { first.0 + count ≤ slots_of memory.now.shape }
        requires some { 1 ≤ count }
        requires few { count ≤ memory.now.shape.pages_per_block }
        requires room { length self.old.room.items ≡ room_bytes memory.now.shape }
        requires opened { IfSome (S.told self.old.store) (IsOpened memory.now.shape) }
        ensures waits { self.new.waiting ≡ self.old.waiting }
        ensures room { length self.new.room.items ≡ length self.old.room.items }
        ensures turns { BothTell (TurnsSlots memory.now.shape first.0 count (λ k. blank)
            (λ k. slot_at memory.now.image k) result) (S.told self.old.store) (S.told self.new.store) }
        ensures counts { S.faults self.new.store ≡ faults_after result (S.faults self.old.store) }
    {
        write_slots(&mut self.store, &mut self.room, memory, first, count)
    }

    /// Erases slots that follow each other, by one call.
    pub(crate) fn erase_slots(
        &mut self,
        shape: Shape,
        first: Slot,
        count: u32,
    ) -> Result<(), StoreError>
        requires shape { IsShape shape }
        requires exist { first.0 + count ≤ slots_of shape }
        requires some { 1 ≤ count }
        requires few { count ≤ shape.pages_per_block }
        requires room { length self.old.room.items ≡ room_bytes shape }
        requires opened { IfSome (S.told self.old.store) (IsOpened shape) }
        ensures waits { self.new.waiting ≡ self.old.waiting }
        ensures room { length self.new.room.items ≡ length self.old.room.items }
        ensures writes { BothTell (WritesFile (slot_offset shape first.0)
            (erased (count * slot_bytes shape.page_bytes)) result)
            (S.told self.old.store) (S.told self.new.store) }
        ensures counts { S.faults self.new.store ≡ faults_after result (S.faults self.old.store) }
    {
        let offset = slot_offset(shape, first);
        let bytes = count as usize * slot_bytes(shape) as usize;
        write_erased(&mut self.store, &mut self.room, offset, bytes)
    }

    /// Marks a slot as damaged.
    fn mark_slot(&mut self, shape: Shape, at: Slot) -> Result<(), StoreError>
        requires shape { IsShape shape }
        requires exists { at.0 < slots_of shape }
        requires opened { IfSome (S.told self.old.store) (IsOpened shape) }
        ensures waits { self.new.waiting ≡ self.old.waiting }
        ensures room { self.new.room ≡ self.old.room }
        ensures writes { BothTell (WritesFile (slot_offset shape at.0 + (cell_bytes shape.page_bytes + 3))
            (damage_byte ∷ []) result) (S.told self.old.store) (S.told self.new.store) }
        ensures counts { S.faults self.new.store ≡ faults_after result (S.faults self.old.store) }
    {
        let last = slot_offset(shape, at) + slot_bytes(shape) - 1;
        self.store.write_at(last, &[DAMAGE_BYTE])
    }

    /// Writes what an erase made of a slot of the flash in memory: it has lost what it held, or holds it still.
    pub(crate) fn clear_slot(&mut self, memory: &MemFlash, at: Slot) -> Result<(), StoreError>
        requires exists { at.0 < slots_of memory.now.shape }
        requires room { length self.old.room.items ≡ room_bytes memory.now.shape }
        requires opened { IfSome (S.told self.old.store) (IsOpened memory.now.shape) }
        ensures waits { self.new.waiting ≡ self.old.waiting }
        ensures room { length self.new.room.items ≡ length self.old.room.items }
        ensures turns { (old : Contents) →
            (slot_at memory.now.image at.0 ≡ old) ⊎ IsBare (slot_at memory.now.image at.0) →
            BothTell (TurnsSlot memory.now.shape at.0 old (slot_at memory.now.image at.0) result)
            (S.told self.old.store) (S.told self.new.store) }
        ensures counts { S.faults self.new.store ≡ faults_after result (S.faults self.old.store) }
    {
        let shape = memory.shape();
        match memory.seen(at) {
            Seen::Complete => Ok(()),
            Seen::Damaged => self.mark_slot(shape, at),
            Seen::Blank => self.erase_slots(shape, at, 1),
        }
    }
}
