ghost use Rattle.std.specs.Prelude.{◌≡◌, ◌<◌, ◌≤◌, [], ◌∷◌, length, IfOk, MatchOption, if◌then◌else◌};
ghost use Rattle.flash_model.specs.Flash.{IsWhole, blank};
ghost use Rattle.flash_model.specs.Operations.{program};
ghost use Rattle.flash_model.specs.Calls.{Shows};
ghost use Rattle.list_flash.specs.Entries.{operation_of, sets, leaves, contents_in, Grows};

use flash_model::{SPARE_BYTES, Seen};
use std::alloc::{AllocError, Global};
use tx_types::{Block, Shape, Slot};

/// A page of contents and its spare area.
#[derive(Drop)]
pub struct Page {
    pub bytes: Vec<u8>,
    pub spare_area: [u8; SPARE_BYTES],
}

/// An operation that was done: a program of a slot, or an erase of a block.
#[derive(Drop)]
pub enum Entry {
    Program(Slot, Page),
    Erase(Block),
}

/// Shows a blank slot.
fn show_blank(into: &mut [u8], spare_area: &mut [u8; 64]) -> Seen
    ensures { Shows (length into.old) blank result into.new spare_area.new }
{
    into.fill(0xff);
    spare_area.fill(0xff);
    Seen::Blank
}

impl Entry {
    /// Whether it set this slot.
    fn is_at(&self, shape: Shape, at: Slot) -> bool
        requires { 0 < shape.pages_per_block }
        ensures { result ≡ sets shape at.0 self.now }
    {
        match self {
            Entry::Program(slot, _) => slot.0 == at.0,
            Entry::Erase(block) => block.0 == shape.block_of(at).0,
        }
    }

    /// Shows what it left of a slot that it set.
    fn show(&self, into: &mut [u8], spare_area: &mut [u8; 64]) -> Seen
        requires { IsWhole (length into.old) (leaves self.now) }
        ensures { Shows (length into.old) (leaves self.now) result into.new spare_area.new }
    {
        match self {
            Entry::Program(_, page) => {
                into.copy_from_slice(&page.bytes);
                *spare_area = page.spare_area;
                Seen::Complete
            }
            Entry::Erase(_) => show_blank(into, spare_area),
        }
    }
}

/// The last entry that set a slot, if one did.
fn last_at(list: &[Entry], shape: Shape, at: Slot) -> Option<&Entry>
    requires { 0 < shape.pages_per_block }
    ensures { MatchOption result (contents_in shape list.now at.0 ≡ blank)
        (λ entry. contents_in shape list.now at.0 ≡ leaves entry.now) }
{
    let mut last = None;
    for entry in list {
        if entry.is_at(shape, at) {
            last = Some(entry);
        }
    }
    last
}

/// Shows a slot as the last entry left it that set it.
pub fn show_at(
    list: &[Entry],
    shape: Shape,
    at: Slot,
    into: &mut [u8],
    spare_area: &mut [u8; 64],
) -> Seen
    requires shape { 0 < shape.pages_per_block }
    requires whole { IsWhole (length into.old) (contents_in shape list.now at.0) }
    ensures { Shows (length into.old) (contents_in shape list.now at.0) result into.new spare_area.new }
{
    match last_at(list, shape, at) {
        Some(entry) => entry.show(into, spare_area),
        None => show_blank(into, spare_area),
    }
}

/// Puts an entry at the end of a list that bears so many. Returns whether it could: the list was not full, and there
/// was memory.
pub fn append(list: &mut Vec<Entry>, limit: usize, entry: Entry) -> bool
    requires { length list.old.items ≤ limit }
    ensures grows { Grows list.old.items (if result then operation_of entry ∷ [] else []) list.new.items }
    ensures within { length list.new.items ≤ limit }
{
    if list.len() >= limit {
        return false;
    }
    list.push(entry).is_ok()
}

/// A copy of a page and its spare area.
fn copy_page(alloc: Global, bytes: &[u8], spare_area: &[u8; 64]) -> Result<Page, AllocError>
    ensures bytes { IfOk result (λ page. page.bytes.items ≡ bytes.now) }
    ensures spare_area { IfOk result (λ page. page.spare_area ≡ spare_area.now) }
{
    Ok(Page {
        bytes: bytes.to_vec(alloc)?,
        spare_area: *spare_area,
    })
}

/// Puts a program at the end of a list that bears so many entries. Returns whether it could.
pub fn append_program(
    list: &mut Vec<Entry>,
    limit: usize,
    at: Slot,
    bytes: &[u8],
    spare_area: &[u8; 64],
) -> bool
    requires { length list.old.items ≤ limit }
    ensures grows { Grows list.old.items
        (if result then program at.0 bytes.now spare_area.now ∷ [] else []) list.new.items }
    ensures within { length list.new.items ≤ limit }
{
    match copy_page(*list.allocator(), bytes, spare_area) {
        Ok(page) => append(list, limit, Entry::Program(at, page)),
        Err(_) => false,
    }
}
