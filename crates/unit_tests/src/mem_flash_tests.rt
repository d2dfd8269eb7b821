ghost use Rattle.std.specs.Prelude.{◌≡◌, ◌≤◌, ◌<◌, length, replicate, IfOk, OnErr};
ghost use Rattle.tx_types.specs.Config.{IsShape, slots_of, blocks_of};
ghost use Rattle.flash_model.specs.Operations.{CanProgram, die_of};
ghost use Rattle.mem_flash.specs.MemFlashState.{blank_flash};

use flash_model::{Arms, Flash, Outcome, Power, Retire, Seen, Wide, loads_come_in_order};
use mem_flash::MemFlash;
use std::alloc::Global;
use tx_types::{Block, Memory, Shape, Slot};

/// Four blocks of two slots, two in each die.
pub const SHAPE: Shape = Shape {
    page_bytes: 16,
    pages_per_block: 2,
    blocks_per_die: 2,
    dies: 2,
};

pub const PAGE: [u8; 16] = *b"0123456789abcdef";

pub const SPARE_AREA: [u8; 64] = [0x54; 64];

/// Whether slot 3 reads so, with these bytes.
fn reads(flash: &mut MemFlash, seen: Seen, page: [u8; 16], spare_area: [u8; 64]) -> bool
    requires { flash.old.shape ≡ SHAPE }
    ensures { flash.new.shape ≡ SHAPE }
{
    let mut room = [0; 16];
    let mut rest = [0; 64];
    flash.read(Slot(3), &mut room, &mut rest) == Ok(seen) && room == page && rest == spare_area
}

/// Whether slot 3 reads as it is programmed, as a broken erase leaves it, and as an erase does.
fn reads_back(flash: &mut MemFlash) -> bool
    requires { flash.old ≡ blank_flash SHAPE }
{
    flash.program(Slot(3), &PAGE, &SPARE_AREA).is_ok()
        && reads(flash, Seen::Complete, PAGE, SPARE_AREA)
        && breaks_erase(flash)
        && reads(flash, Seen::Damaged, [0; 16], [0; 64])
        && flash.erase(Block(1)).is_ok()
        && reads(flash, Seen::Blank, [0xff; 16], [0xff; 64])
}

/// Whether an erase of block 1 meets a fault that damages it.
fn breaks_erase(flash: &mut MemFlash) -> bool
    requires { flash.old.shape ≡ SHAPE }
    ensures { flash.new.shape ≡ SHAPE }
{
    flash.arm_fault(1, Outcome::Bad);
    flash.erase(Block(1)).is_err()
}

/// Cells of this size, each of whose bytes is the cell's number.
fn number_cells(cells: &mut [u8], size: usize)
    requires { 0 < size }
{
    for i in 0..cells.len() {
        cells[i] = (i / size % 256) as u8;
    }
}

/// A flash of complete slots, each of whose bytes is the slot's number.
fn numbered(alloc: Global, shape: Shape) -> Result<MemFlash, Memory>
    requires { IsShape shape }
    ensures { IfOk result (λ f. f.shape ≡ shape) }
{
    let slots = shape.slots() as usize;
    let size = shape.page_bytes as usize + 64;
    let mut cells = vec![in alloc; 0; slots * size]?;
    number_cells(&mut cells, size);
    MemFlash::from_slots(alloc, shape, vec![in alloc; Seen::Complete; slots]?, cells)
}

/// Whether each of some bytes is this number.
fn are_all(bytes: &[u8], number: u32) -> bool {
    for byte in bytes {
        if u32::from(*byte) != number {
            return false;
        }
    }
    true
}

/// Whether the last slot has bytes of its own number, and this many of them.
fn has_last(flash: &MemFlash, last: u32, size: usize) -> bool
    requires { last < slots_of flash.now.shape }
{
    let cell = flash.cell(Slot(last));
    flash.seen(Slot(last)) == Seen::Complete && cell.len() == size && are_all(cell, last)
}

/// Whether the last slot came back as it was given, and block 0 is blank when it is erased.
fn is_back(flash: &mut MemFlash, shape: Shape) -> bool
    requires shape { IsShape shape }
    requires flash { flash.old.shape ≡ shape }
{
    has_last(flash, shape.slots() - 1, shape.page_bytes as usize + 64)
        && flash.erase(Block(0)).is_ok()
        && flash.seen(Slot(0)) == Seen::Blank
        && flash.live()
        && flash.erases() == 1
        && flash.faults() == 0
}

/// Whether the slots of a flash of this shape come back.
fn comes_back(alloc: Global, shape: Shape) -> bool
    requires { IsShape shape }
{
    match numbered(alloc, shape) {
        Ok(mut flash) => {
            let is_so = is_back(&mut flash, shape);
            drop(flash);
            is_so
        }
        Err(_) => false,
    }
}

/// A shape with the largest pages.
const LARGEST: Shape = Shape {
    page_bytes: 4096,
    pages_per_block: 2,
    blocks_per_die: 1,
    dies: 2,
};

/// On any flash: retires a block if it may, and tells how many may be retired and how many are.
fn retire_one<F: Retire>(flash: &mut F, block: Block) -> (u32, u32)
    requires { block.0 < blocks_of (F.state flash.old).shape }
    ensures { (F.state flash.new).shape ≡ (F.state flash.old).shape }
{
    if flash.retired() < flash.allowance() {
        let _ = flash.retire(block);
    }
    (flash.allowance(), flash.retired())
}

/// On any flash: an erase that is cut, and one when power is on again.
fn erase_twice<F: Arms + Power>(flash: &mut F, block: Block) -> (bool, bool)
    requires { block.0 < blocks_of (F.state flash.old).shape }
{
    flash.arm_cut(1, Outcome::Bad);
    let cut = flash.erase(block).is_err() && !flash.live();
    flash.power_on();
    (cut, flash.erase(block).is_ok() && flash.live())
}

/// On any flash: a program that is started alone.
fn fire_alone<F: Wide>(flash: &mut F, at: Slot, bytes: &[u8], spare_area: &[u8; 64]) -> bool
    requires blank { CanProgram (F.state flash.old).shape (F.state flash.old).image at.0 }
    requires page { length bytes.now ≡ (F.state flash.old).shape.page_bytes }
    requires die { die_of (F.state flash.old).shape at.0 < (F.state flash.old).shape.dies }
    ensures { (F.state flash.new).shape ≡ (F.state flash.old).shape }
{
    loads_come_in_order();
    flash.clear();
    flash.load(at, bytes, spare_area);
    flash.fire().is_ok()
}

/// Whether a flash in memory answers as any flash.
fn answers(flash: &mut MemFlash) -> bool
    requires { flash.old ≡ blank_flash SHAPE }
{
    fire_alone(flash, Slot(6), &PAGE, &SPARE_AREA) && erase_twice(flash, Block(3)) == (true, true)
}

/// Whether no more blocks are retired than may be.
fn keeps_allowance(flash: &mut MemFlash) -> bool
    requires { flash.old.shape ≡ SHAPE }
{
    if retire_one(flash, Block(3)) != (0, 0) {
        return false;
    }
    flash.set_extras(1024, 1023);
    retire_one(flash, Block(3)) == (1024, 1024) && retire_one(flash, Block(3)) == (1024, 1024)
}

/// Whether a new flash reads back, answers as any flash, or keeps its allowance.
fn is_new_right(alloc: Global, kind: &str) -> bool {
    match MemFlash::new(alloc, SHAPE) {
        Ok(mut flash) => {
            let is_so = match kind {
                "reads" => reads_back(&mut flash),
                "answers" => answers(&mut flash),
                _ => keeps_allowance(&mut flash),
            };
            drop(flash);
            is_so
        }
        Err(_) => false,
    }
}

/// What a new flash does, and flashes whose slots come back as they were given.
pub const FLASHES: &str = "\
    flash reads\n\
    flash answers\n\
    flash keeps\n\
    slots small\n\
    slots large";

/// Whether a line is right of flashes in memory.
pub fn is_flash_right(alloc: Global, kind: &str, line: &str) -> bool {
    if kind == "flash" {
        return is_new_right(alloc, line);
    }
    comes_back(alloc, if line == "small" { SHAPE } else { LARGEST })
}
