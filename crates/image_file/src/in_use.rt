ghost use Rattle.std.specs.Prelude.{◌≡◌, ℕ, ◌*◌, ◌<◌, slice_index_or, length, List, Ok, IfOk, IfErr};
ghost use Rattle.std.specs.Fork.{slice_chunk};
ghost use Rattle.std.specs.Result.{IsOkUnless};
ghost use Rattle.tx_types.specs.Config.{checked, shape_of, IsShape};
ghost use Rattle.tx_types.specs.declared.config.Config.{Config};
ghost use Rattle.flash_model.specs.Flash.{Contents, Extras};
ghost use Rattle.mem_flash.specs.MemFlashState.{loaded};
ghost use Rattle.image_file.specs.Rules.{shape_in, IsRefusal};
ghost use Rattle.image_file.specs.InUse.{broken_slots_in_use, broken_in_use, filled_as, IsInUse, AreFilledSlotsOf};

use crate::ImageError;
use crate::header::{HEADER_BYTES, read_header};
use crate::sizes::{head_bytes, image_bytes};
use crate::slots::read_states;
use flash_model::{SPARE_BYTES, Seen};
use mem_flash::MemFlash;
use std::alloc::Global;
use tx_types::{Config, Shape};

/// The configuration and the flash of an image file that is in use, or the first rule that its bytes break. The own
/// bytes of a slot without contents may be any; all else is as `take_image` has it.
pub fn take_image_in_use(alloc: Global, bytes: Vec<u8>) -> Result<(Config, MemFlash), ImageError>
    ensures said { IfOk result (λ r. IsInUse bytes.items r.0 r.1.image r.1.extras) }
    ensures flash { IfOk result (λ r. r.1 ≡ loaded (shape_of r.0) r.1.image r.1.extras) }
    ensures check { IfOk result (λ r. checked r.0 ≡ Ok r.1.shape) }
    ensures only { (config : Config) (image : List Contents) (extras : Extras) →
        IsInUse bytes.items config image extras → IsOkUnless result ImageError.Memory
        × IfOk result (λ r. (r.0 ≡ config) × (r.1 ≡ loaded (shape_of config) image extras)) }
    ensures error { IfErr result (IsRefusal (broken_in_use bytes.items)) }
{
    let mut bytes = bytes;
    let header = read_header(&bytes)?;
    let seen = fill_slots(alloc, &mut bytes, header.shape)?;
    let head = head_bytes(header.shape);
    let mut flash = MemFlash::from_bytes(alloc, header.shape, seen, bytes, head)?;
    flash.set_extras(header.allowance, header.retired);
    Ok((header.config, flash))
}

/// How each slot reads whose state stands behind the header of an image file, or the first rule that the states break.
/// Each slot without contents is filled.
fn fill_slots(alloc: Global, bytes: &mut [u8], shape: Shape) -> Result<Vec<Seen>, ImageError>
    requires bounds { IsShape shape }
    requires shape { shape ≡ shape_in bytes.old }
    ensures ok { IfOk result (λ seen. AreFilledSlotsOf bytes.old bytes.new shape seen.items) }
    ensures error { IfErr result (IsRefusal (broken_slots_in_use bytes.old)) }
{
    if bytes.len() != image_bytes(shape) {
        return Err(ImageError::Length);
    }
    let head = head_bytes(shape);
    let seen = read_states(alloc, &bytes[HEADER_BYTES..head])?;
    let size = shape.page_bytes as usize + SPARE_BYTES;
    fill_bare(&seen, &mut bytes[head..], size);
    Ok(seen)
}

/// Fills the slots, of `size` bytes each, that have no contents.
fn fill_bare(seen: &[Seen], cells: &mut [u8], size: usize)
    requires { length cells.old ≡ length seen.now * size }
    ensures { (k : ℕ) → k < length seen.now → slice_chunk cells.new size k
        ≡ filled_as size (slice_index_or seen.now k Seen.Blank) (slice_chunk cells.old size k) }
{
    for (at, how) in seen.iter().enumerate() {
        let from = at * size;
        fill_cell(*how, &mut cells[from..from + size]);
    }
}

/// Fills the bytes of a slot that reads this way, where it has no contents.
fn fill_cell(how: Seen, cell: &mut [u8])
    ensures { cell.new ≡ filled_as (length cell.old) how cell.old }
{
    match how {
        Seen::Blank => cell.fill(0xff),
        Seen::Damaged => cell.fill(0x00),
        Seen::Complete => {}
    }
}
