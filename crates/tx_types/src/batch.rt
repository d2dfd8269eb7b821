ghost use Rattle.std.specs.Prelude.{◌≡◌, true, ◌<◌, ◌+◌, ◌*◌, ◌≤◌, ◌↔◌, [], ◌++◌, length, replicate, is_none, IsTrue, IfOk, OnOk, OnErr};
ghost use Rattle.std.specs.Fork.{slice_chunk};
ghost use Rattle.tx_types.specs.Batch.{with_entry, with_discard, entry_at, bytes_in};
ghost use Rattle.tx_types.specs.Entries.{head_of, cell_of, with_write};

use crate::Memory;
use crate::target::Target;
use byteorder::{ByteOrder, LittleEndian};
use std::alloc::Global;
use std::marker::Model;

/// The pages that one transaction writes or discards, seen as the size of a page and the list of the writes.
#[derive(Drop)]
pub struct Batch {
    page_bytes: u32,
    /// The number of entries.
    count: u32,
    /// The entries one behind another, in one piece of memory: each has a head, and behind it the bytes of a whole
    /// page, which are zeros where the page is discarded.
    cells: Vec<u8>,
}

impl Model for Batch {
    ghost use Rattle.tx_types.specs.Batch.{Writes};

    ghost Value = { Writes };

    ghost use Rattle.tx_types.specs.Entries.{writes_of, BatchInvariant};

    ghost view = { λ b. writes_of b.page_bytes b.count b.cells.items };

    ghost invariant = { λ b. BatchInvariant b.page_bytes b.count b.cells.items };
}

impl Batch {
    /// A batch without entries, for pages of this many bytes.
    pub fn new(alloc: Global, page_bytes: u32) -> Batch
        ensures { result ≡ record { page_bytes = page_bytes; entries = [] } }
    {
        Batch {
            page_bytes,
            count: 0,
            cells: Vec::new(alloc),
        }
    }

    /// A batch without entries, for pages of this many bytes, with room for this many entries.
    pub fn with_room(alloc: Global, page_bytes: u32, entries: usize) -> Result<Batch, Memory>
        ensures { IfOk result (λ b. b ≡ record { page_bytes = page_bytes; entries = [] }) }
    {
        let bytes = entries.checked_mul(cell_bytes(page_bytes)).ok_or(Memory)?;
        Ok(Batch {
            page_bytes,
            count: 0,
            cells: Vec::with_capacity(alloc, bytes)?,
        })
    }

    /// Adds an entry at the end, with zeros for the bytes that are missing to a page. Where there is no
    /// memory the batch stays as it was.
    pub fn add(&mut self, page: u32, bytes: &[u8]) -> Result<(), Memory>
        requires { length bytes.now ≤ self.old.page_bytes }
        ensures ok { OnOk result (self.new ≡ with_entry self.old page bytes.now) }
        ensures err { OnErr result (self.new ≡ self.old) }
    {
        self.push(page, false, bytes)
    }

    /// Adds an entry at the end that discards a page. Where there is no memory the batch stays as it
    /// was.
    pub fn add_discard(&mut self, page: u32) -> Result<(), Memory>
        ensures ok { OnOk result (self.new ≡ with_discard self.old page) }
        ensures err { OnErr result (self.new ≡ self.old) }
    {
        self.push(page, true, &[])
    }

    /// Adds an entry at the end, with zeros for the bytes that are missing to a page. A discard has no bytes. Where
    /// there is no memory, or there are as many entries as can be counted, the batch stays as it was.
    fn push(&mut self, page: u32, discard: bool, bytes: &[u8]) -> Result<(), Memory>
        requires few { length bytes.now ≤ self.old.page_bytes }
        requires none { discard ≡ true → bytes.now ≡ [] }
        ensures ok { OnOk result (self.new ≡ with_write self.old page discard bytes.now) }
        ensures err { OnErr result (self.new ≡ self.old) }
    {
        let count = one_more(self.count)?;
        let target = Target { page, discard };
        add_cell(&mut self.cells, target, bytes, self.page_bytes)?;
        self.count = count;
        Ok(())
    }

    /// The number of entries.
    pub fn len(&self) -> usize
        ensures { result ≡ length self.now.entries }
    {
        self.count as usize
    }

    /// Whether there is no entry.
    pub fn is_empty(&self) -> bool
        ensures { IsTrue result ↔ (self.now.entries ≡ []) }
    {
        self.count == 0
    }

    /// The bytes of a page.
    pub fn page_bytes(&self) -> u32
        ensures { result ≡ self.now.page_bytes }
    {
        self.page_bytes
    }

    /// The logical page of the entry at this index.
    pub fn page(&self, i: usize) -> u32
        requires { i < length self.now.entries }
        ensures { result ≡ (entry_at self.now i).page }
    {
        LittleEndian::read_u32(cell_at(&self.cells, self.page_bytes, i))
    }

    /// Whether the entry at this index discards its page.
    pub fn discards(&self, i: usize) -> bool
        requires { i < length self.now.entries }
        ensures { result ≡ is_none (entry_at self.now i).value }
    {
        cell_at(&self.cells, self.page_bytes, i)[PAGE_BYTES] != 0
    }

    /// The bytes of the entry at this index, as many as a page has: zeros where it discards its page. What is lent is
    /// one piece: the given bytes and the zeros behind them.
    pub fn bytes(&self, i: usize) -> &[u8]
        requires { i < length self.now.entries }
        ensures bytes { result.now ≡ bytes_in self.now.page_bytes (entry_at self.now i) }
        ensures whole { length result.now ≡ self.now.page_bytes }
    {
        &cell_at(&self.cells, self.page_bytes, i)[HEAD_BYTES..]
    }
}

/// The bytes of the number of a page.
const PAGE_BYTES: usize = 4;

/// The bytes before those of the page: its number, the lowest byte first, and one that is 0 unless it is discarded.
const HEAD_BYTES: usize = PAGE_BYTES + 1;

/// The bytes of an entry, for pages of this many.
fn cell_bytes(page_bytes: u32) -> usize
    ensures { result ≡ HEAD_BYTES + page_bytes }
{
    HEAD_BYTES + page_bytes as usize
}

/// One more than a count, unless it is the greatest.
fn one_more(count: u32) -> Result<u32, Memory>
    ensures { IfOk result (λ more. more ≡ count + 1) }
{
    count.checked_add(1).ok_or(Memory)
}

/// The most bytes of a page that is small: all of it is filled with zeros at once, before its bytes are written.
const SMALL_PAGE_BYTES: u32 = 128;

/// Adds an entry at the end, with zeros behind its bytes up to a whole page, or nothing where there is no memory.
#[inline(always)]
fn add_cell(
    cells: &mut Vec<u8>,
    target: Target,
    bytes: &[u8],
    page_bytes: u32,
) -> Result<(), Memory>
    requires { length bytes.now ≤ page_bytes }
    ensures ok { OnOk result (cells.new.items ≡ cells.old.items ++ cell_of target page_bytes bytes.now) }
    ensures err { OnErr result (cells.new.items ≡ cells.old.items) }
{
    if page_bytes <= SMALL_PAGE_BYTES {
        add_small_cell(cells, target, bytes, page_bytes)
    } else {
        add_large_cell(cells, target, bytes, page_bytes)
    }
}

/// Adds an entry as `add_cell` does, for a small page.
#[inline(always)]
fn add_small_cell(
    cells: &mut Vec<u8>,
    target: Target,
    bytes: &[u8],
    page_bytes: u32,
) -> Result<(), Memory>
    requires { length bytes.now ≤ page_bytes }
    ensures ok { OnOk result (cells.new.items ≡ cells.old.items ++ cell_of target page_bytes bytes.now) }
    ensures err { OnErr result (cells.new.items ≡ cells.old.items) }
{
    let start = cells.len();
    cells.resize(start + cell_bytes(page_bytes), 0)?;
    fill_cell(target, bytes, page_bytes, &mut cells[start..]);
    Ok(())
}

/// Writes the head of an entry and its bytes over zeros.
#[inline(always)]
fn fill_cell(target: Target, bytes: &[u8], page_bytes: u32, cell: &mut [u8])
    requires few { length bytes.now ≤ page_bytes }
    requires zeros { cell.old ≡ replicate (HEAD_BYTES + page_bytes) 0 }
    ensures { cell.new ≡ cell_of target page_bytes bytes.now }
{
    cell[..HEAD_BYTES].copy_from_slice(&head_of(target));
    cell[HEAD_BYTES..HEAD_BYTES + bytes.len()].copy_from_slice(bytes);
}

/// Adds an entry as `add_cell` does, for a page of any size.
fn add_large_cell(
    cells: &mut Vec<u8>,
    target: Target,
    bytes: &[u8],
    page_bytes: u32,
) -> Result<(), Memory>
    requires { length bytes.now ≤ page_bytes }
    ensures ok { OnOk result (cells.new.items ≡ cells.old.items ++ cell_of target page_bytes bytes.now) }
    ensures err { OnErr result (cells.new.items ≡ cells.old.items) }
{
    let size = cell_bytes(page_bytes);
    let end = cells.len() + size;
    cells.reserve(size)?;
    cells.extend_from_slice(&head_of(target)).unwrap();
    cells.extend_from_slice(bytes).unwrap();
    cells.resize(end, 0).unwrap();
    Ok(())
}

/// The head of an entry.
fn head_of(target: Target) -> [u8; HEAD_BYTES]
    ensures { result ≡ head_of target }
{
    let mut head = [0; HEAD_BYTES];
    LittleEndian::write_u32(&mut head, target.page);
    head[PAGE_BYTES] = u8::from(target.discard);
    head
}

/// The entry at this index, for pages of this many bytes.
fn cell_at(cells: &[u8], page_bytes: u32, i: usize) -> &[u8]
    requires { i * (HEAD_BYTES + page_bytes) + (HEAD_BYTES + page_bytes) ≤ length cells.now }
    ensures cell { result.now ≡ slice_chunk cells.now (HEAD_BYTES + page_bytes) i }
    ensures whole { length result.now ≡ HEAD_BYTES + page_bytes }
{
    let size = cell_bytes(page_bytes);
    let from = i * size;
    &cells[from..from + size]
}
