//! How the bytes of a save come to a name.
ghost use Rattle.std.specs.Prelude.{◌≡◌, ◌≢◌, ℕ, List, None, Some, Ok};
ghost use Rattle.durable_folder.specs.Calls.{Opens};
ghost use Rattle.durable_folder.specs.Causes.{AllTaken, AtNow, HasCause, HasFault, IsLater};
ghost use Rattle.durable_folder.specs.FolderState.{IsFree, target};
ghost use Rattle.durable_folder.specs.Locking.{WhereFirst};
ghost use Rattle.durable_folder.specs.Saving.{SavesAnew};
ghost use Rattle.durable_folder.specs.Ways.{LeadsTo, ReplacesFound, SavesAt, SavesKnowing, Looks, WasFound, WritesNew, SyncsFolderOf, MakesThrough, Saves, is_link};

use crate::answers::{Replaced, as_fault};
use crate::in_place::write_through;
use crate::replacing::{owner_of, replace};
use crate::syncing::sync_names;
use crate::temporary_names::folder_of;
use crate::{Folder, Found};
use std::alloc::Global;
use std::io;
use std::io::ErrorKind;

/// What stands at a name, if anything does.
pub fn stat<F: Folder>(folder: &mut F, name: &str) -> io::Result<Option<Found>>
    ensures looks { Looks name.now result (F.told folder.old) (F.told folder.new) }
    ensures fault { HasFault result (F.told folder.old) (F.told folder.new) }
{
    match folder.find(name) {
        Ok(found) => Ok(Some(found)),
        Err(error) if error.kind() == ErrorKind::NotFound => Ok(None),
        Err(error) => Err(error),
    }
}

/// Whether it is a link.
fn is_link(found: &Option<Found>) -> bool
    ensures { result ≡ is_link found.now }
{
    match found {
        Some(found) => found.is_link,
        None => false,
    }
}

/// Makes these the bytes of the file of this name, or of the one that a link of this name leads to.
/// After Ok they are in the system's store, as far as it tells. Where nothing was at the name, a new file
/// replaces nothing that came there meanwhile, as far as the system knows second names.
pub fn save<F: Folder>(folder: &mut F, alloc: Global, name: &str, bytes: &[u8]) -> io::Result<()>
    ensures saves { Saves name.now bytes.now result (F.told folder.old) (F.told folder.new) }
    ensures anew { result ≡ Ok tt → WhereFirst (λ s. IsFree s name.now) (SavesAnew name.now (F.told folder.old) (F.told folder.new)) (F.told folder.old) }
    ensures cause { HasCause (AtNow (λ s. AllTaken (target s name.now) s) (F.told folder.old)) result (F.told folder.old) (F.told folder.new) }
{
    let found = stat(folder, name)?;
    if is_link(&found) {
        return save_through(folder, alloc, name, bytes);
    }
    save_at(folder, alloc, name, found, bytes)
}

/// Saves at the end of a link. Who may not write through it may not replace what it leads to. The link is followed,
/// since a rename would put a plain file in its place. It is opened before it is asked where it leads: systems refuse
/// to open some links in sticky folders, and to tell where one leads they ask no leave.
fn save_through<F: Folder>(
    folder: &mut F,
    alloc: Global,
    name: &str,
    bytes: &[u8],
) -> io::Result<()>
    ensures saves { SavesKnowing (λ s. target s name.now ≢ name.now) name.now bytes.now result (F.told folder.old) (F.told folder.new) }
    ensures cause { HasCause (AtNow (λ s. AllTaken (target s name.now) s) (F.told folder.old)) result (F.told folder.old) (F.told folder.new) }
{
    match folder.open(name) {
        Ok(file) => save_opened(folder, alloc, name, file, bytes),
        Err(error) if error.kind() == ErrorKind::NotFound => make_through(folder, name, bytes),
        Err(error) => Err(error),
    }
}

/// Saves at the end of a link that was opened. Where that can't be told, it is written to what is open.
fn save_opened<F: Folder>(
    folder: &mut F,
    alloc: Global,
    name: &str,
    file: F::File,
    bytes: &[u8],
) -> io::Result<()>
    ensures saves { (F.handle file).offset ≡ 0 →
        SavesKnowing (λ s. Opens F.handle name.now (Ok file) s s) name.now bytes.now result (F.told folder.old) (F.told folder.new) }
    ensures cause { HasCause (AtNow (λ s. AllTaken (target s name.now) s) (F.told folder.old)) result (F.told folder.old) (F.told folder.new) }
{
    match folder.resolve(name) {
        Ok(target) => save_target(folder, alloc, target.as_str(), bytes),
        Err(error) if error.kind() == ErrorKind::OutOfMemory => Err(error),
        Err(_) => write_through(folder, file, bytes),
    }
}

/// Saves at the name to which a link leads.
fn save_target<F: Folder>(folder: &mut F, alloc: Global, at: &str, bytes: &[u8]) -> io::Result<()>
    ensures saves { (name : List ℕ) → SavesKnowing (LeadsTo name at.now) name bytes.now result (F.told folder.old) (F.told folder.new) }
    ensures cause { HasCause (AtNow (AllTaken at.now) (F.told folder.old)) result (F.told folder.old) (F.told folder.new) }
{
    let found = stat(folder, at)?;
    save_at(folder, alloc, at, found, bytes)
}

/// Writes to the file of this name, or to the one that a link of this name leads to. Where there is none
/// it is made.
fn write_new<F: Folder>(folder: &mut F, name: &str, bytes: &[u8]) -> io::Result<()>
    ensures writes { WritesNew name.now bytes.now result (F.told folder.old) (F.told folder.new) }
    ensures fault { HasFault result (F.told folder.old) (F.told folder.new) }
{
    let file = folder.open_or_create(name)?;
    write_through(folder, file, bytes)
}

/// Makes the file that a link leads to.
fn make_through<F: Folder>(folder: &mut F, name: &str, bytes: &[u8]) -> io::Result<()>
    ensures makes { MakesThrough name.now bytes.now result (F.told folder.old) (F.told folder.new) }
    ensures later { IsLater (F.told folder.old) (F.told folder.new) }
{
    write_new(folder, name, bytes)?;
    match folder.resolve(name) {
        Ok(target) => sync_folder_of(folder, target.as_str()),
        Err(error) => as_fault(Err(error)),
    }
}

/// Waits until the name of a file that was made is in the system's store. A folder that may not be
/// read can't be synced.
fn sync_folder_of<F: Folder>(folder: &mut F, name: &str) -> io::Result<()>
    ensures syncs { SyncsFolderOf name.now result (F.told folder.old) (F.told folder.new) }
    ensures fault { HasFault result (F.told folder.old) (F.told folder.new) }
{
    match folder.open_folder(folder_of(name)) {
        Ok(place) => sync_names(folder, &place),
        Err(error) if error.kind() == ErrorKind::PermissionDenied => Ok(()),
        Err(error) => as_fault(Err(error)),
    }
}

/// Saves at a name that is no link, by what was found there.
fn save_at<F: Folder>(
    folder: &mut F,
    alloc: Global,
    name: &str,
    found: Option<Found>,
    bytes: &[u8],
) -> io::Result<()>
    ensures saves { SavesAt (WasFound name.now found) name.now bytes.now result (F.told folder.old) (F.told folder.new) }
    ensures anew { found ≡ None → result ≡ Ok tt → SavesAnew name.now (F.told folder.old) (F.told folder.new) }
    ensures cause { HasCause (AtNow (AllTaken name.now) (F.told folder.old)) result (F.told folder.old) (F.told folder.new) }
{
    match found {
        Some(old) => save_over(folder, alloc, name, old, bytes),
        None => make(folder, alloc, name, bytes),
    }
}

/// Saves at a name that is no link, where this was found. A rename needs leave from the folder and not from the file.
fn save_over<F: Folder>(
    folder: &mut F,
    alloc: Global,
    name: &str,
    old: Found,
    bytes: &[u8],
) -> io::Result<()>
    ensures saves { SavesAt (WasFound name.now (Some old)) name.now bytes.now result (F.told folder.old) (F.told folder.new) }
    ensures cause { HasCause (AtNow (AllTaken name.now) (F.told folder.old)) result (F.told folder.old) (F.told folder.new) }
{
    // Who may not write a file may not replace it.
    let file = folder.open(name)?;
    match replace_found(folder, alloc, name, old, bytes) {
        Ok(Replaced::Done) => Ok(()),
        Ok(Replaced::Refused) => write_through(folder, file, bytes),
        Err(error) => Err(error),
    }
}

/// Replaces a plain file with one name, by a new file of its owner and mode. All else is refused: a file with
/// several names, and what is no plain file.
fn replace_found<F: Folder>(
    folder: &mut F,
    alloc: Global,
    name: &str,
    found: Found,
    bytes: &[u8],
) -> io::Result<Replaced>
    ensures replaces { ReplacesFound name.now found bytes.now result (F.told folder.old) (F.told folder.new) }
    ensures cause { HasCause (AtNow (AllTaken name.now) (F.told folder.old)) result (F.told folder.old) (F.told folder.new) }
{
    match owner_of(found) {
        Some(owner) => replace(folder, alloc, name, Some(owner), bytes),
        None => Ok(Replaced::Refused),
    }
}

/// Makes a file where there is none.
fn make<F: Folder>(folder: &mut F, alloc: Global, name: &str, bytes: &[u8]) -> io::Result<()>
    ensures saves { SavesAt (λ s. IsFree s name.now) name.now bytes.now result (F.told folder.old) (F.told folder.new) }
    ensures anew { result ≡ Ok tt → SavesAnew name.now (F.told folder.old) (F.told folder.new) }
    ensures cause { HasCause (AtNow (AllTaken name.now) (F.told folder.old)) result (F.told folder.old) (F.told folder.new) }
{
    match replace(folder, alloc, name, None, bytes)? {
        Replaced::Done => Ok(()),
        Replaced::Refused => {
            write_new(folder, name, bytes)?;
            sync_folder_of(folder, name)
        }
    }
}
