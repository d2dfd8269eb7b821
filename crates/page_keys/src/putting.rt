ghost use Rattle.std.specs.List.{AllByRecursion};
ghost use Rattle.std.specs.Prelude.{◌≡◌, List, ◌<◌, ◌≤◌, ◌+◌, ◌^◌, [], None, Some, true, false, length, IfOk, IfErr, OnOk};
ghost use Rattle.array_machine.specs.ArrayState.{page_at};
ghost use Rattle.page_keys.specs.Buckets.{EncodesMap};
ghost use Rattle.page_keys.specs.Groups.{changes_of};
ghost use Rattle.page_keys.specs.KeyMaps.{KeyMap, of_page, pages_of};
ghost use Rattle.page_keys.specs.Puts.{IsKeyChange, repeated};
ghost use Rattle.page_keys.specs.Putting.{is_put_fault, is_failed, HasNewBytes, IsTooMuch, HasWrites, IsFull};
ghost use Rattle.page_keys.specs.Stores.{HasKeys, OnlyReads};
ghost use Rattle.page_keys.specs.declared.changes.Change.{Change};

use crate::answers::PutError;
use crate::changes::Change;
use crate::entries::{Entry, merge, write};
use crate::grouping::{Placed, by_page, count_values, of_page};
use crate::pages::read_page;
use crate::reading::{ENTRY_BYTES, entries_in};
use flash_model::Flash;
use record_list::CommitRule;
use std::alloc::Global;
use tx_engine::{Device, device_facts};
use tx_types::Batch;

/// Room for the entries of a page and for their bytes, which each page of a put uses in turn.
#[derive(Drop)]
pub(crate) struct Scratch {
    entries: Vec<Entry>,
    bytes: Vec<u8>,
}

impl Scratch {
    /// Without memory of its own yet.
    pub fn new(alloc: Global) -> Scratch {
        Scratch {
            entries: Vec::new(alloc),
            bytes: Vec::new(alloc),
        }
    }
}

/// Writes to the scratch the bytes of the entries of a page after its changes of a put, whose keys differ. The page is
/// read once, unless the values that are put alone do not fit in it.
fn rewrite<F: Flash, R: CommitRule>(
    device: &mut Device<F, R>,
    room: &mut [u8],
    scratch: &mut Scratch,
    page: u32,
    changes: &[Placed<'_>],
) -> Result<(), PutError>
    requires kept { device.old.dropped ≡ false }
    requires keys { HasKeys device.old }
    requires valid { AllByRecursion IsKeyChange (changes_of changes.now) }
    requires room { length room.old ≡ device.old.config.page_bytes }
    requires exists { page < device.old.config.logical }
    ensures bytes { OnOk result ((m : KeyMap) (cs : List Change) →
        of_page device.old.config.logical page cs ≡ changes_of changes.now →
        EncodesMap device.old.config device.old.machine.pages m →
        HasNewBytes device.old.config m cs page scratch.new.bytes.items) }
    ensures within { OnOk result (length scratch.new.bytes.items ≤ device.old.config.page_bytes) }
    ensures refused { IfErr result (λ e. (m : KeyMap) (cs : List Change) →
        of_page device.old.config.logical page cs ≡ changes_of changes.now →
        repeated [] cs ≡ None → EncodesMap device.old.config device.old.machine.pages m →
        IsTooMuch device.old.config m cs page e) }
    ensures reads { OnlyReads F.state device.old device.new (is_failed result) }
    ensures once { (F.state device.new.flash).reads ≤ (F.state device.old.flash).reads + 1 }
{
    let Scratch { entries, bytes } = scratch;
    let config = device_facts(device);
    let most = config.page_bytes as usize / ENTRY_BYTES;
    if count_values(changes) > most {
        return Err(PutError::Bucket(page));
    }
    read_page(device, room, page)?;
    entries.clear();
    entries_in(room, entries)?;
    merge(entries, changes)?;
    if entries.len() > most {
        return Err(PutError::Bucket(page));
    }
    bytes.clear();
    write(entries, bytes)?;
    Ok(())
}

/// What a put writes of the pages of its keys, which differ. Each of them is read, once.
pub(crate) fn rewrite_all<F: Flash, R: CommitRule>(
    alloc: Global,
    device: &mut Device<F, R>,
    room: &mut [u8],
    scratch: &mut Scratch,
    pages: &[u32],
    changes: &[Change],
) -> Result<Batch, PutError>
    requires kept { device.old.dropped ≡ false }
    requires keys { HasKeys device.old }
    requires valid { AllByRecursion IsKeyChange changes.now }
    requires differ { repeated [] changes.now ≡ None }
    requires room { length room.old ≡ device.old.config.page_bytes }
    requires pages { pages.now ≡ pages_of device.old.config.logical changes.now }
    ensures size { IfOk result (λ b. b.page_bytes ≡ device.old.config.page_bytes) }
    ensures writes { IfOk result (λ b. (m : KeyMap) →
        EncodesMap device.old.config device.old.machine.pages m →
        HasWrites device.old.config m changes.now b.entries) }
    ensures refused { IfErr result (λ e. (m : KeyMap) →
        EncodesMap device.old.config device.old.machine.pages m →
        IsFull device.old.config m changes.now e) }
    ensures reads { OnlyReads F.state device.old device.new (is_failed result) }
    ensures count { (F.state device.new.flash).reads
        ≤ (F.state device.old.flash).reads + length pages.now }
{
    let config = device_facts(device);
    let placed = by_page(alloc, config.logical, changes)?;
    let mut batch = Batch::with_room(alloc, config.page_bytes, pages.len())?;
    for page in pages {
        rewrite(device, room, scratch, *page, of_page(&placed, *page))?;
        batch.add(*page, &scratch.bytes)?;
    }
    Ok(batch)
}
