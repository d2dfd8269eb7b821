ghost use Rattle.std.specs.Prelude.{◌≡◌, ◌+◌, ◌-◌, ◌*◌, ◌≤◌, ◌++◌, length, take, drop, replicate, IfOk};
ghost use Rattle.std.specs.Fork.{slice_chunk};
ghost use Rattle.mem_flash.specs.Slots.{cell_bytes, filler, overwritten};
ghost use Rattle.tx_types.specs.Config.{IsShape};
ghost use Rattle.tx_types.specs.Limits.{spare_bytes};

use flash_model::{SPARE_BYTES, Seen};
use std::alloc::Global;
use tx_types::{Memory, Shape};

/// The bytes of a slot: a page of contents and its spare area.
pub fn cell_bytes(shape: Shape) -> usize
    requires { IsShape shape }
    ensures { result ≡ cell_bytes shape.page_bytes }
{
    shape.page_bytes as usize + SPARE_BYTES
}

/// The byte that fills a slot without contents.
pub fn filler(how: Seen) -> u8
    ensures { result ≡ filler how }
{
    match how {
        Seen::Blank => 0xff,
        Seen::Damaged | Seen::Complete => 0x00,
    }
}

/// The bytes of the slot at this index, where each slot has `size` bytes and the first stands behind a head.
pub fn cell_at(bytes: &[u8], head: usize, size: usize, at: usize) -> &[u8]
    requires { head + at * size + size ≤ length bytes.now }
    ensures cell { result.now ≡ slice_chunk (drop head bytes.now) size at }
    ensures whole { length result.now ≡ size }
{
    let from = head + at * size;
    &bytes[from..from + size]
}

/// A copy of the bytes of slots behind a head of this many bytes.
pub fn behind(alloc: Global, cells: &[u8], head: usize) -> Result<Vec<u8>, Memory>
    ensures cells { IfOk result (λ bytes. drop head bytes.items ≡ cells.now) }
    ensures whole { IfOk result (λ bytes. head ≤ length bytes.items) }
{
    let mut bytes = vec![in alloc; 0; head]?;
    bytes.extend_from_slice(cells)?;
    Ok(bytes)
}

/// Copies a slot's contents and its spare area out of its bytes.
pub fn read_cell(cell: &[u8], into: &mut [u8], spare_area: &mut [u8; 64])
    requires { length cell.now ≡ length into.old + spare_bytes }
    ensures page { into.new ≡ take (length into.old) cell.now }
    ensures spare_area { spare_area.new ≡ drop (length into.old) cell.now }
{
    let (page, rest) = cell.split_at(into.len());
    into.copy_from_slice(page);
    spare_area.copy_from_slice(rest);
}

/// Copies a slot's spare area out of its bytes, of which a page of so many comes first.
pub fn read_spare_area(cell: &[u8], page_bytes: usize, spare_area: &mut [u8; 64])
    requires { length cell.now ≡ page_bytes + spare_bytes }
    ensures { spare_area.new ≡ drop page_bytes cell.now }
{
    spare_area.copy_from_slice(&cell[page_bytes..]);
}

/// Writes a page of contents and its spare area, from an index of the bytes on.
pub fn write_cell(cells: &mut [u8], from: usize, bytes: &[u8], spare_area: &[u8; 64])
    requires { from + length bytes.now + spare_bytes ≤ length cells.old }
    ensures { cells.new ≡ overwritten cells.old from (bytes.now ++ spare_area.now) }
{
    let middle = from + bytes.len();
    cells[from..middle].copy_from_slice(bytes);
    cells[middle..middle + spare_area.len()].copy_from_slice(spare_area);
}

/// Writes a byte this many times, from an index on.
pub fn fill_cells(cells: &mut [u8], from: usize, count: usize, byte: u8)
    requires { from + count ≤ length cells.old }
    ensures { cells.new ≡ overwritten cells.old from (replicate count byte) }
{
    cells[from..from + count].fill(byte);
}

/// Marks this many slots as reading this way, from an index on.
pub fn mark(states: &mut [Seen], from: usize, count: usize, how: Seen)
    requires { from + count ≤ length states.old }
    ensures { states.new ≡ overwritten states.old from (replicate count how) }
{
    states[from..from + count].fill(how);
}
