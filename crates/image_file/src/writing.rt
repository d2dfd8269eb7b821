ghost use Rattle.std.specs.Prelude.{◌≡◌, ◌≤◌, ◌++◌, length, map, drop, replicate, Ok, IfOk, OnOk};
ghost use Rattle.std.specs.List.{flat_map};
ghost use Rattle.tx_types.specs.Config.{checked, shape_of, slots_of};
ghost use Rattle.flash_model.specs.Calls.{seen_of};
ghost use Rattle.flash_model.specs.Flash.{blank, IsImage};
ghost use Rattle.flash_model.specs.Retiring.{max_allowance};
ghost use Rattle.mem_flash.specs.Slots.{cell_of};
ghost use Rattle.image_file.specs.Spelling.{header_of, state_byte, Spells};

use crate::header::header_of;
use crate::sizes::{head_bytes, image_bytes};
use crate::slots::state;
use flash_model::{Flash, Retire, Seen};
use mem_flash::MemFlash;
use std::alloc::{AllocError, Global};
use tx_types::{Config, Memory, Shape, Slot};

/// The image file of a device: the one spelling of its configuration, of what its flash holds, and of what it
/// tells of retired blocks. It is there for who builds on this crate: the programs call `into_image`.
pub fn write_image(alloc: Global, config: &Config, flash: &MemFlash) -> Result<Vec<u8>, Memory>
    requires { checked config.now ≡ Ok flash.now.shape }
    ensures { IfOk result (λ bytes.
        Spells bytes.items config.now flash.now.image flash.now.extras) }
{
    let mut bytes = Vec::with_capacity(alloc, image_bytes(flash.shape()))?;
    bytes.extend_from_slice(&header_of(config, flash.allowance(), flash.retired()))?;
    add_states(flash, &mut bytes)?;
    add_cells(flash, &mut bytes)?;
    Ok(bytes)
}

/// The image file of a device whose flash is handed over. Its bytes become those of the file. They are not copied where
/// the flash was taken from an image file.
pub fn into_image(alloc: Global, config: &Config, flash: MemFlash) -> Result<Vec<u8>, Memory>
    requires { checked config.now ≡ Ok flash.shape }
    ensures { IfOk result (λ bytes. Spells bytes.items config.now flash.image flash.extras) }
{
    let head = head_of(alloc, config, &flash)?;
    let mut bytes = flash.into_bytes(alloc, head.len())?;
    write_head(&mut bytes, &head);
    Ok(bytes)
}

/// What stands in front of the bytes of the slots: the header, and the states of all slots.
fn head_of(alloc: Global, config: &Config, flash: &MemFlash) -> Result<Vec<u8>, Memory>
    ensures head { IfOk result (λ head. head.items ≡ header_of config.now flash.now.extras
        ++ map (λ slot. state_byte (seen_of slot)) flash.now.image) }
    ensures bounds { IfOk result (λ _. (IsImage flash.now.shape flash.now.image)
        × (flash.now.extras.retired ≤ flash.now.extras.allowance)
        × (flash.now.extras.allowance ≤ max_allowance)) }
{
    let mut head = Vec::with_capacity(alloc, head_bytes(flash.shape()))?;
    head.extend_from_slice(&header_of(config, flash.allowance(), flash.retired()))?;
    add_states(flash, &mut head)?;
    Ok(head)
}

/// Writes over the first bytes.
fn write_head(bytes: &mut [u8], head: &[u8])
    requires { length head.now ≤ length bytes.old }
    ensures { bytes.new ≡ head.now ++ drop (length head.now) bytes.old }
{
    bytes[..head.len()].copy_from_slice(head);
}

/// The image file of a device whose slots are all blank, with this many blocks that may be retired and none that is.
pub fn blank_image(
    alloc: Global,
    config: &Config,
    shape: Shape,
    allowance: u32,
) -> Result<Vec<u8>, Memory>
    requires checks { checked config.now ≡ Ok shape }
    requires few { allowance ≤ max_allowance }
    ensures { IfOk result (λ bytes. Spells bytes.items config.now
        (replicate (slots_of shape) blank) (record { allowance = allowance; retired = 0 })) }
{
    let mut bytes = Vec::with_capacity(alloc, image_bytes(shape))?;
    bytes.extend_from_slice(&header_of(config, allowance, 0))?;
    bytes.resize(head_bytes(shape), state(Seen::Blank))?;
    bytes.resize(image_bytes(shape), 0xff)?;
    Ok(bytes)
}

/// Adds the states of all slots.
fn add_states(flash: &MemFlash, bytes: &mut Vec<u8>) -> Result<(), AllocError>
    ensures { OnOk result (bytes.new.items ≡
        bytes.old.items ++ map (λ slot. state_byte (seen_of slot)) flash.now.image) }
{
    for slot in 0..flash.shape().slots() {
        bytes.push(state(flash.seen(Slot(slot))))?;
    }
    Ok(())
}

/// Adds the contents and the spare area of each slot.
fn add_cells(flash: &MemFlash, bytes: &mut Vec<u8>) -> Result<(), AllocError>
    ensures { OnOk result (bytes.new.items ≡
        bytes.old.items ++ flat_map (cell_of flash.now.shape.page_bytes) flash.now.image) }
{
    for slot in 0..flash.shape().slots() {
        bytes.extend_from_slice(flash.cell(Slot(slot)))?;
    }
    Ok(())
}
