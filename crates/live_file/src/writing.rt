ghost use Rattle.std.specs.Prelude.{◌≡◌, ◌<◌, ◌≤◌, ◌+◌, ◌++◌, ◌∷◌, [], length, replicate, Ok, IfOk, OnOk};
ghost use Rattle.std.specs.List.{flat_map};
ghost use Rattle.tx_types.specs.Config.{checked, slots_of};
ghost use Rattle.flash_model.specs.Flash.{slot_at};
ghost use Rattle.zero_count.specs.Zeros.{counted};
ghost use Rattle.live_image.specs.Slots.{live_slot, slot_bytes, damage_byte};
ghost use Rattle.live_file.specs.Spelling.{live_spelling};

use crate::header::{HEADER_BYTES, live_header};
use flash_model::{Flash, Retire, SPARE_BYTES, Seen};
use mem_flash::MemFlash;
use std::alloc::{AllocError, Global};
use tx_types::{Config, Memory, Slot};
use zero_count::count_zeros;

/// The bytes of a number of zero bits.
const NUMBER_BYTES: usize = 4;

/// The last byte of a damaged slot.
const DAMAGE_BYTE: u8 = 0x80;

/// The live file of a device: the spelling of its configuration, of what its flash holds, and of what it tells of
/// retired blocks.
#[tactic(auto, unfolding(crate::specs::Spelling::live_spelling))]
pub fn write_live(alloc: Global, config: &Config, flash: &MemFlash) -> Result<Vec<u8>, Memory>
    requires { checked config.now ≡ Ok flash.now.shape }
    ensures { IfOk result (λ bytes.
        bytes.items ≡ live_spelling config.now flash.now.image flash.now.extras) }
{
    let shape = flash.shape();
    let size = shape.page_bytes as usize + SPARE_BYTES + NUMBER_BYTES;
    let mut bytes = Vec::with_capacity(alloc, HEADER_BYTES + shape.slots() as usize * size)?;
    bytes.extend_from_slice(&live_header(config, flash.allowance(), flash.retired()))?;
    add_slots(flash, &mut bytes)?;
    Ok(bytes)
}

/// Adds the slots of a flash.
fn add_slots(flash: &MemFlash, bytes: &mut Vec<u8>) -> Result<(), AllocError>
    ensures { OnOk result (bytes.new.items ≡
        bytes.old.items ++ flat_map (live_slot flash.now.shape.page_bytes) flash.now.image) }
{
    for slot in 0..flash.shape().slots() {
        add_slot(flash, Slot(slot), bytes)?;
    }
    Ok(())
}

/// Adds a slot.
fn add_slot(flash: &MemFlash, at: Slot, bytes: &mut Vec<u8>) -> Result<(), AllocError>
    requires { at.0 < slots_of flash.now.shape }
    ensures { OnOk result (bytes.new.items ≡
        bytes.old.items ++ live_slot flash.now.shape.page_bytes (slot_at flash.now.image at.0)) }
{
    let own_bytes = flash.shape().page_bytes as usize + SPARE_BYTES;
    match flash.seen(at) {
        Seen::Blank => add_set(bytes, own_bytes + NUMBER_BYTES),
        Seen::Damaged => {
            add_set(bytes, own_bytes + NUMBER_BYTES - 1)?;
            Ok(bytes.push(DAMAGE_BYTE)?)
        }
        Seen::Complete => add_counted(bytes, flash.cell(at)),
    }
}

/// Adds so many bytes of which each bit is set.
fn add_set(bytes: &mut Vec<u8>, count: usize) -> Result<(), AllocError>
    requires { count ≤ 4164 }
    ensures { OnOk result (bytes.new.items ≡ bytes.old.items ++ replicate count 255) }
{
    bytes.extend_from_slice(&[0xff; 4164][..count])
}

/// Adds bytes, and behind them the number of their zero bits.
fn add_counted(bytes: &mut Vec<u8>, own: &[u8]) -> Result<(), AllocError>
    requires { length own.now ≤ 4160 }
    ensures { OnOk result (bytes.new.items ≡ bytes.old.items ++ counted own.now) }
{
    bytes.extend_from_slice(own)?;
    bytes.extend_from_slice(&count_zeros(own).to_le_bytes())
}
