//! What was saved is there after a loss of power.
ghost use Rattle.std.specs.Prelude.{◌≡◌, None, IfOk, OnOk};
ghost use Rattle.durable_folder.specs.FolderState.{IsDurable, file_of};
ghost use Rattle.mem_folder.specs.Changes.{state_of};

use crate::change::Left;
use crate::folder::MemFolder;
use durable_folder::{load, save};
use std::alloc::Global;
use std::io;
use std::io::{Error, ErrorKind};

/// Saves bytes at a name. It is an error if a folder could not be synced, now or before.
pub fn save_durably(
    folder: &mut MemFolder,
    alloc: Global,
    name: &str,
    bytes: &[u8],
) -> io::Result<()>
    ensures { file_of (state_of folder.old.changes.items) name.now ≡ None →
        OnOk result (IsDurable (state_of folder.new.changes.items) name.now bytes.now) }
{
    save(folder, alloc, name, bytes)?;
    if folder.has_noted() {
        return Err(Error::from(ErrorKind::Other));
    }
    Ok(())
}

/// Saves bytes at a name where there is nothing, loses power, and loads what is left there.
pub fn load_after_loss(
    folder: &mut MemFolder,
    alloc: Global,
    name: &str,
    bytes: &[u8],
    left_names: Left,
    left_bytes: Left,
) -> io::Result<Vec<u8>>
    ensures { file_of (state_of folder.old.changes.items) name.now ≡ None →
        IfOk result (λ loaded. loaded.items ≡ bytes.now) }
{
    save_durably(folder, alloc, name, bytes)?;
    folder.lose_power(left_names, left_bytes)?;
    let most = bytes.len().saturating_add(1);
    let loaded = load(folder, name, most)?;
    Ok(loaded.bytes)
}
