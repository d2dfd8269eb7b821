//! Pictures of a flash: of each slot a sign for how it reads, its contents and its spare area.
ghost use Rattle.std.specs.Prelude.{◌≡◌, ◌<◌};

use flash_model::{Flash, Seen};
use mem_flash::MemFlash;
use std::alloc::Global;
use tx_types::{Config, Protocol, Shape, Slot};

/// A device of two dies of two blocks of two slots.
pub const CONFIG: Config = Config {
    protocol: Protocol::Scc,
    page_bytes: 16,
    pages_per_block: 2,
    blocks_per_die: 2,
    dies: 2,
    logical: 4,
    pending: 1,
};

/// The shape of its flash.
pub const SHAPE: Shape = Shape {
    page_bytes: 16,
    pages_per_block: 2,
    blocks_per_die: 2,
    dies: 2,
};

/// How many bytes a slot has in a picture.
const SLOT_BYTES: usize = 81;

/// How many bytes a picture has.
pub const PICTURE_BYTES: usize = 648;

/// The sign for how a slot reads.
fn sign(seen: Seen) -> u8 {
    match seen {
        Seen::Blank => b'.',
        Seen::Complete => b'C',
        Seen::Damaged => b'X',
    }
}

/// Adds a slot as it is read. Returns whether it could be read and added.
fn add_read<F: Flash>(picture: &mut Vec<u8>, flash: &mut F, at: u32) -> bool
    requires shape { (F.state flash.old).shape ≡ SHAPE }
    requires exists { at < 8 }
    ensures { (F.state flash.new).shape ≡ SHAPE }
{
    let mut page = [0; 16];
    let mut spare_area = [0; 64];
    match flash.read(Slot(at), &mut page, &mut spare_area) {
        Ok(seen) => add(picture, sign(seen), &page, &spare_area),
        Err(_) => false,
    }
}

/// Adds the sign of a slot and its bytes, which stand in two parts.
fn add(picture: &mut Vec<u8>, sign: u8, front: &[u8], back: &[u8]) -> bool {
    picture.push(sign).is_ok()
        && picture.extend_from_slice(front).is_ok()
        && picture.extend_from_slice(back).is_ok()
}

/// The picture of a flash, each slot of which is read; none where a read is broken.
pub fn read_picture<F: Flash>(alloc: Global, flash: &mut F) -> Option<Vec<u8>>
    requires { (F.state flash.old).shape ≡ SHAPE }
    ensures { (F.state flash.new).shape ≡ SHAPE }
{
    let mut picture = Vec::new(alloc);
    for at in 0..8 {
        if !add_read(&mut picture, flash, at) {
            return None;
        }
    }
    Some(picture)
}

/// The picture of a flash in memory, with power or without.
pub fn picture_of(alloc: Global, flash: &MemFlash) -> Option<Vec<u8>>
    requires { flash.now.shape ≡ SHAPE }
{
    let mut picture = Vec::new(alloc);
    for at in 0..8 {
        let sign = sign(flash.seen(Slot(at)));
        if !add(&mut picture, sign, flash.cell(Slot(at)), b"") {
            return None;
        }
    }
    Some(picture)
}

/// A slot of a picture.
pub fn slot_of(picture: &[u8], at: usize) -> &[u8] {
    let first = at.saturating_mul(SLOT_BYTES);
    let end = first.saturating_add(SLOT_BYTES);
    picture.get(first..end).unwrap_or(b"")
}

/// Whether a slot of a picture is blank.
pub fn is_blank(slot: &[u8]) -> bool {
    slot.starts_with(b".")
}
