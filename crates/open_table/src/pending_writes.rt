ghost use Rattle.std.specs.Prelude.{◌≡◌, ◌+◌, ◌<◌, ◌≤◌, ◌==◌, List, length, position, All, IfOk, vec_capacity};
ghost use Rattle.tx_types.specs.Config.{IsConfig};
ghost use Rattle.array_machine.specs.ArrayState.{is_doubted};
ghost use Rattle.open_table.specs.PendingWrites.{CanStore, HasLists, HasRooms, StoresPages, FreesPages, with_owner};
ghost use Rattle.open_table.specs.declared.pending_writes.PendingWrite.{PendingWrite};

use array_machine::Mark;
use record_list::CommitRule;
use std::alloc::Global;
use tx_types::{Batch, Config, Link, Memory};
use version_index::Index;

/// An open transaction, with the pages that it writes.
#[derive(Drop)]
pub struct Transaction {
    pub tag: u32,
    /// How many of its pages are written.
    pub done: u32,
    /// How many of its records are noted.
    pub noted_count: u32,
    pub mark: Mark,
    pub pages: Vec<PendingWrite>,
}

/// A page that an open transaction writes or discards.
#[derive(Drop)]
pub struct PendingWrite {
    /// Zeros where it is discarded.
    pub bytes: Vec<u8>,
    /// The page, and the version at which it is written.
    pub name: Link,
    pub discard: bool,
}

/// A page of room for each page that may be pending, and for each transaction that may be open a list.
pub fn buffers_and_lists(
    alloc: Global,
    config: Config,
) -> Result<(Vec<Vec<u8>>, Vec<Vec<PendingWrite>>), Memory>
    requires { IsConfig config }
    ensures rooms { IfOk result (λ r. HasRooms config r.0) }
    ensures lists { IfOk result (λ r. HasLists config r.1) }
{
    let rooms = page_buffers(alloc, config)?;
    let lists = page_lists(alloc, config)?;
    Ok((rooms, lists))
}

/// A page of room for each page that may be pending.
fn page_buffers(alloc: Global, config: Config) -> Result<Vec<Vec<u8>>, Memory>
    requires { IsConfig config }
    ensures { IfOk result (HasRooms config) }
{
    let mut rooms = Vec::with_capacity(alloc, config.pending as usize)?;
    for _ in 0..config.pending {
        rooms.push(vec![in alloc; 0; config.page_bytes as usize]?)?;
    }
    Ok(rooms)
}

/// For each transaction that may be open, a list in which there is room for the pages of all.
fn page_lists(alloc: Global, config: Config) -> Result<Vec<Vec<PendingWrite>>, Memory>
    requires { IsConfig config }
    ensures { IfOk result (HasLists config) }
{
    let most = config.pending as usize;
    let mut lists = Vec::with_capacity(alloc, most)?;
    for _ in 0..config.pending {
        lists.push(Vec::with_capacity(alloc, most)?)?;
    }
    Ok(lists)
}

/// Sets the transaction to which each of these pages belongs, or none.
pub fn set_owner(owners: &mut [Option<u32>], pages: &[PendingWrite], owner: Option<u32>)
    requires { All (λ p. p.name.page < length owners.old) pages.now }
    ensures { owners.new ≡ with_owner owners.old owner pages.now }
{
    for p in pages {
        owners[p.name.page as usize] = owner;
    }
}

/// The index of the first transaction with this tag.
pub fn place_of_tag(all: &[Transaction], tag: u32) -> Option<usize>
    ensures { result ≡ position (λ o. o.tag == tag) all.now }
{
    all.iter().position(|o| o.tag == tag)
}

/// The index of the first transaction in doubt.
pub fn first_in_doubt(all: &[Transaction]) -> Option<usize>
    ensures { result ≡ position (λ o. is_doubted o.mark) all.now }
{
    all.iter().position(|o| matches!(o.mark, Mark::Doubt))
}

/// Writes a page into the room that is kept for it.
fn fill(room: &mut Vec<u8>, bytes: &[u8])
    requires { length room.old.items ≡ length bytes.now }
    ensures { room.new.items ≡ bytes.now }
{
    room.copy_from_slice(bytes);
}

/// Takes the pages of a batch in, each in the room that is kept for it, and named one version above its greatest
/// mention.
pub fn store_pages<R: CommitRule>(
    pages: &mut Vec<PendingWrite>,
    rooms: &mut Vec<Vec<u8>>,
    batch: &Batch,
    index: &Index<R>,
)
    requires { CanStore index.now pages.old rooms.old batch.now }
    ensures { (held : List PendingWrite)
        × StoresPages index.now pages.old pages.new rooms.old rooms.new batch.now held }
{
    for i in 0..batch.len() {
        let mut bytes = rooms.pop().unwrap();
        fill(&mut bytes, batch.bytes(i));
        let page = batch.page(i);
        let discard = batch.discards(i);
        let version = index.mention(page) + 1;
        pages.push_reserved(PendingWrite {
            name: Link { page, version },
            discard,
            bytes,
        });
    }
}

/// Takes all pages of a transaction away. Their rooms are free again.
pub fn free_pages(pages: &mut Vec<PendingWrite>, rooms: &mut Vec<Vec<u8>>)
    requires { length pages.old.items + length rooms.old.items ≤ vec_capacity rooms.old }
    ensures { FreesPages pages.old pages.new rooms.old rooms.new }
{
    for _ in 0..pages.len() {
        let PendingWrite { bytes, .. } = pages.pop().unwrap();
        rooms.push_reserved(bytes);
    }
}
