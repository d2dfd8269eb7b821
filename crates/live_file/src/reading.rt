//! A live file is read as the image file in use that has the same slots.
ghost use Rattle.std.specs.Prelude.{◌≡◌, ◌⊎◌, ◌≤◌, ◌<◌, ◌+◌, ◌*◌, ◌++◌, ℕ, List, length, map, drop, MatchResult, None, Some, Ok, Err, IfOk, IfErr, IfSome, OnOk};
ghost use Rattle.std.specs.Result.{IsOkUnless};
ghost use Rattle.std.specs.List.{flat_map, range_with_len};
ghost use Rattle.std.specs.Fork.{slice_chunk};
ghost use Rattle.tx_types.specs.Config.{checked, shape_of};
ghost use Rattle.tx_types.specs.Limits.{header_bytes, max_slots};
ghost use Rattle.tx_types.specs.declared.config.Config.{Config};
ghost use Rattle.flash_model.specs.Flash.{Contents, Extras};
ghost use Rattle.mem_flash.specs.MemFlashState.{loaded};
ghost use Rattle.image_file.specs.Rules.{number_at};
ghost use Rattle.image_file.specs.Spelling.{state_byte};
ghost use Rattle.image_file.specs.declared.error.ImageError.TheVariants as image;
ghost use Rattle.zero_count.specs.Zeros.{own_of};
ghost use Rattle.live_image.specs.Slots.{live_seen, slot_bytes, IsCounted};
ghost use Rattle.live_file.specs.Spelling.{IsLive};
ghost use Rattle.live_file.specs.Reading.{as_image, broken_magic, image_header, size_in, CountsSlots, RefusesLive};

use crate::LiveError;
use crate::header::{HEADER_BYTES, MAGIC};
use flash_model::{SPARE_BYTES, Seen};
use image_file::{ImageError, take_image_in_use};
use live_image::{is_counted, live_seen};
use mem_flash::MemFlash;
use std::alloc::{AllocError, Global};
use tx_types::{Config, Slot};

/// The bytes of a number of zero bits.
const NUMBER_BYTES: usize = 4;

/// The most bytes of a page.
const MAX_PAGE_BYTES: u32 = 4096;

/// The most slots of a flash.
const MAX_SLOTS: usize = 65536;

/// The configuration and the flash of a live file, or the first rule that its bytes break. A slot that a loss tore is
/// blank. Power is on, nothing is armed and nothing was counted.
pub fn take_live(alloc: Global, bytes: &[u8]) -> Result<(Config, MemFlash), LiveError>
    ensures live { IfOk result (λ r. IsLive bytes.now r.0 r.1.image r.1.extras) }
    ensures flash { IfOk result (λ r. r.1 ≡ loaded (shape_of r.0) r.1.image r.1.extras) }
    ensures check { IfOk result (λ r. checked r.0 ≡ Ok r.1.shape) }
    ensures only { (config : Config) (image : List Contents) (extras : Extras) →
        IsLive bytes.now config image extras → IsOkUnless result (LiveError.Image ImageError.Memory)
        × IfOk result (λ r. (r.0 ≡ config) × (r.1 ≡ loaded (shape_of config) image extras)) }
    ensures error { IfErr result (RefusesLive bytes.now) }
{
    check_magic(bytes)?;
    let size = slot_size(bytes);
    let count = count_slots(bytes, size);
    let uncounted = first_uncounted(&bytes[HEADER_BYTES..], size, count);
    let image = as_image(alloc, bytes, size, count)?;
    let (config, memory) = take_image_in_use(alloc, image)?;
    match uncounted {
        None => Ok((config, memory)),
        Some(at) => {
            drop(memory);
            Err(LiveError::Count(Slot(at)))
        }
    }
}

/// Whether a file begins as a live one.
fn check_magic(bytes: &[u8]) -> Result<(), ImageError>
    ensures answer { MatchResult result (λ _. broken_magic bytes.now ≡ None) (λ e. broken_magic bytes.now ≡ Some e) }
    ensures long { OnOk result (header_bytes ≤ length bytes.now) }
{
    if bytes.len() < HEADER_BYTES {
        return Err(ImageError::Short);
    }
    if !bytes.starts_with(&MAGIC) {
        return Err(ImageError::Magic);
    }
    Ok(())
}

/// The number in the four bytes at an offset.
#[tactic(auto, unfolding(image_file::specs::Rules::number_at))]
fn number_at(bytes: &[u8], offset: usize) -> u32
    requires { offset + 4 ≤ length bytes.now }
    ensures { result ≡ number_at offset bytes.now }
{
    let number = &bytes[offset..offset + 4];
    u32::from_le_bytes([number[0], number[1], number[2], number[3]])
}

/// The bytes of a slot.
fn slot_size(bytes: &[u8]) -> usize
    requires { header_bytes ≤ length bytes.now }
    ensures { result ≡ size_in bytes.now }
{
    number_at(bytes, 12) as usize + SPARE_BYTES + NUMBER_BYTES
}

/// How many whole slots of so many bytes stand behind the header, where a device may have them; or none.
fn count_slots(bytes: &[u8], size: usize) -> u32
    requires long { header_bytes ≤ length bytes.now }
    requires size { size ≡ size_in bytes.now }
    ensures counts { CountsSlots bytes.now result }
    ensures within { header_bytes + result * size ≤ length bytes.now }
    ensures most { 0 < result → size ≤ 4164 }
{
    let behind = bytes.len() - HEADER_BYTES;
    let count = behind / size;
    if size > MAX_PAGE_BYTES as usize + SPARE_BYTES + NUMBER_BYTES
        || count > MAX_SLOTS
        || count * size != behind
    {
        return 0;
    }
    count as u32
}

/// The image file in use that has these slots.
fn as_image(alloc: Global, bytes: &[u8], size: usize, count: u32) -> Result<Vec<u8>, AllocError>
    requires within { header_bytes + count * size ≤ length bytes.now }
    requires size { size ≡ size_in bytes.now }
    requires most { 0 < count → size ≤ 4164 }
    ensures { IfOk result (λ image. image.items ≡ as_image bytes.now count) }
{
    let slots = &bytes[HEADER_BYTES..];
    let mut image = Vec::with_capacity(alloc, bytes.len())?;
    add_header(bytes, &mut image)?;
    add_states(slots, size, count, &mut image)?;
    add_cells(slots, size, count, &mut image)?;
    Ok(image)
}

/// Adds the header of an image file with the same numbers.
fn add_header(bytes: &[u8], image: &mut Vec<u8>) -> Result<(), AllocError>
    requires { header_bytes ≤ length bytes.now }
    ensures { OnOk result (image.new.items ≡ image.old.items ++ image_header bytes.now) }
{
    let magic = if number_at(bytes, 36) == 0 {
        b"TXFLASH1"
    } else {
        b"TXFLASH2"
    };
    image.extend_from_slice(magic)?;
    image.extend_from_slice(&bytes[8..HEADER_BYTES])
}

/// Adds the byte of how each slot reads.
fn add_states(slots: &[u8], size: usize, count: u32, image: &mut Vec<u8>) -> Result<(), AllocError>
    requires within { count * size ≤ length slots.now }
    requires least { 4 ≤ size }
    requires most { 0 < count → size ≤ 4164 }
    ensures { OnOk result (image.new.items ≡ image.old.items
        ++ map (λ k. state_byte (live_seen (slice_chunk slots.now size k))) (range_with_len 0 count)) }
{
    for at in 0..count as usize {
        let how = live_seen(slot_in(slots, size, at));
        image.push(state(how))?;
    }
    Ok(())
}

/// Adds the own bytes of each slot.
fn add_cells(slots: &[u8], size: usize, count: u32, image: &mut Vec<u8>) -> Result<(), AllocError>
    requires within { count * size ≤ length slots.now }
    requires least { 4 ≤ size }
    ensures { OnOk result (image.new.items ≡ image.old.items
        ++ flat_map (λ k. own_of (slice_chunk slots.now size k)) (range_with_len 0 count)) }
{
    for at in 0..count as usize {
        let slot = slot_in(slots, size, at);
        image.extend_from_slice(&slot[..size - NUMBER_BYTES])?;
    }
    Ok(())
}

/// The least slot that has more zero bits than its number says.
fn first_uncounted(slots: &[u8], size: usize, count: u32) -> Option<u32>
    requires within { count * size ≤ length slots.now }
    requires least { 4 ≤ size }
    requires most { 0 < count → size ≤ 4164 }
    ensures none { result ≡ None → (k : ℕ) → k < count → IsCounted (slice_chunk slots.now size k) }
    ensures first { IfSome result (λ at. (at < count)
        × ((k : ℕ) → k < at → IsCounted (slice_chunk slots.now size k))
        × (IsCounted (slice_chunk slots.now size at) → ⊥)) }
{
    for at in 0..count {
        if !is_counted(slot_in(slots, size, at as usize)) {
            return Some(at);
        }
    }
    None
}

/// The bytes of a slot.
fn slot_in(slots: &[u8], size: usize, at: usize) -> &[u8]
    requires { at * size + size ≤ length slots.now }
    ensures slot { result.now ≡ slice_chunk slots.now size at }
    ensures long { length result.now ≡ size }
{
    &slots[at * size..at * size + size]
}

/// The byte that stands for how a slot reads in an image file.
fn state(seen: Seen) -> u8
    ensures { result ≡ state_byte seen }
{
    match seen {
        Seen::Blank => 0,
        Seen::Complete => 1,
        Seen::Damaged => 2,
    }
}
