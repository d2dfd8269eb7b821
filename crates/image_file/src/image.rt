ghost use Rattle.std.specs.Prelude.{◌≡◌, length, None, List, Ok, IfOk, IfErr};
ghost use Rattle.std.specs.Result.{IsOkUnless};
ghost use Rattle.tx_types.specs.Config.{checked, shape_of, IsShape};
ghost use Rattle.tx_types.specs.declared.config.Config.{Config};
ghost use Rattle.flash_model.specs.Flash.{Contents, Extras};
ghost use Rattle.mem_flash.specs.MemFlashState.{loaded, fresh};
ghost use Rattle.image_file.specs.Rules.{shape_in, image_in, broken_slots, first_broken, reading, IsRefusal};
ghost use Rattle.image_file.specs.Spelling.{Spells};
ghost use Rattle.image_file.specs.States.{AreSlotsOf};

use crate::ImageError;
use crate::header::{HEADER_BYTES, read_header};
use crate::sizes::{head_bytes, image_bytes};
use crate::slots::{read_states, wrong_bytes};
use flash_model::{SPARE_BYTES, Seen};
use mem_flash::MemFlash;
use std::alloc::Global;
use tx_types::{Config, Shape, Slot};

/// The configuration and the flash that an image file spells, or the first rule that its bytes break.
/// Power is on, nothing is armed and nothing was counted. The flash is told of retired blocks what the file tells.
/// It is there for who builds on this crate: the programs call `take_image`.
pub fn read_image(alloc: Global, bytes: &[u8]) -> Result<(Config, MemFlash), ImageError>
    // What is read is spelled so.
    ensures spelled { IfOk result (λ r. Spells bytes.now r.0 r.1.image r.1.extras) }
    ensures flash { IfOk result (λ r. r.1 ≡ loaded (shape_of r.0) r.1.image r.1.extras) }
    ensures check { IfOk result (λ r. checked r.0 ≡ Ok r.1.shape) }
    // What is spelled so is read, unless there is no memory.
    ensures only { (config : Config) (image : List Contents) (extras : Extras) →
        Spells bytes.now config image extras → IsOkUnless result ImageError.Memory
        × IfOk result (λ r. (r.0 ≡ config) × (r.1 ≡ loaded (shape_of config) image extras)) }

    // Both answers as functions of the bytes: the error is the first rule that is broken.
    ensures found { IfOk result (λ r. reading bytes.now ≡ Ok (r.0, r.1.image, r.1.extras)) }
    ensures error { IfErr result (IsRefusal (first_broken bytes.now)) }
{
    take_image(alloc, Vec::from_slice(alloc, bytes)?)
}

/// The configuration and the flash that the bytes of an image file spell, or the first rule that they break. The flash
/// takes the bytes over, and they are not copied. Blank and damaged slots are checked before.
pub fn take_image(alloc: Global, bytes: Vec<u8>) -> Result<(Config, MemFlash), ImageError>
    ensures spelled { IfOk result (λ r. Spells bytes.items r.0 r.1.image r.1.extras) }
    ensures flash { IfOk result (λ r. r.1 ≡ loaded (shape_of r.0) r.1.image r.1.extras) }
    ensures check { IfOk result (λ r. checked r.0 ≡ Ok r.1.shape) }
    ensures only { (config : Config) (image : List Contents) (extras : Extras) →
        Spells bytes.items config image extras → IsOkUnless result ImageError.Memory
        × IfOk result (λ r. (r.0 ≡ config) × (r.1 ≡ loaded (shape_of config) image extras)) }
    ensures found { IfOk result (λ r. reading bytes.items ≡ Ok (r.0, r.1.image, r.1.extras)) }
    ensures error { IfErr result (IsRefusal (first_broken bytes.items)) }
{
    let header = read_header(&bytes)?;
    let mut flash = take_slots(alloc, bytes, header.shape)?;
    flash.set_extras(header.allowance, header.retired);
    Ok((header.config, flash))
}

/// The flash whose states and bytes stand behind the header of an image file.
fn take_slots(alloc: Global, bytes: Vec<u8>, shape: Shape) -> Result<MemFlash, ImageError>
    requires bounds { IsShape shape }
    requires shape { shape ≡ shape_in bytes.items }
    ensures ok { IfOk result (λ flash.
        (broken_slots bytes.items ≡ None) × (flash ≡ fresh shape (image_in bytes.items))) }
    ensures error { IfErr result (IsRefusal (broken_slots bytes.items)) }
{
    let seen = read_slots(alloc, &bytes, shape)?;
    let flash = MemFlash::from_bytes(alloc, shape, seen, bytes, head_bytes(shape))?;
    Ok(flash)
}

/// How each slot reads whose state and bytes stand behind the header of an image file, or the first rule that
/// they break.
fn read_slots(alloc: Global, bytes: &[u8], shape: Shape) -> Result<Vec<Seen>, ImageError>
    requires bounds { IsShape shape }
    requires shape { shape ≡ shape_in bytes.now }
    ensures ok { IfOk result (λ seen. AreSlotsOf bytes.now shape seen.items) }
    ensures error { IfErr result (IsRefusal (broken_slots bytes.now)) }
{
    if bytes.len() != image_bytes(shape) {
        return Err(ImageError::Length);
    }
    let head = head_bytes(shape);
    let seen = read_states(alloc, &bytes[HEADER_BYTES..head])?;
    let size = shape.page_bytes as usize + SPARE_BYTES;
    if let Some(at) = wrong_bytes(&seen, &bytes[head..], size) {
        return Err(ImageError::SlotBytes(Slot(at as u32)));
    }
    Ok(seen)
}
