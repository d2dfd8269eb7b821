//! A save that keeps a lock: a new file, whose lock is held, comes to the name of one whose lock is held.
ghost use Rattle.std.specs.Prelude.{◌≡◌, ◌≢◌, ◌⊎◌, Option, Some, true, Ok, IfOk, IsErr};
ghost use Rattle.durable_folder.specs.Answers.{refusal_of};
ghost use Rattle.durable_folder.specs.Causes.{AllTaken, AtNow, HasCause, HasFailed, IsLater, IsNamed};
ghost use Rattle.durable_folder.specs.Histories.{History, IsPlaceOf, Rests};
ghost use Rattle.durable_folder.specs.Locking.{WhereFirst};
ghost use Rattle.durable_folder.specs.NewFiles.{beside_of, handle_of};
ghost use Rattle.durable_folder.specs.Renewing.{AtLast, Compared, HasSame, IsLocking, KeepsLock, SavesLocked, replaced_of};
ghost use Rattle.durable_folder.specs.Saving.{Fills, MakesNew, ReplacesBy, ReplacesOrNot};

use crate::Folder;
use crate::answers::{Replaced, refusal_of};
use crate::locking::lock;
use crate::new_file::{NewFile, new_file};
use crate::replacing::{Owner, fill, finish, has_name, owner_of};
use crate::temporary_names::folder_of;
use std::alloc::Global;
use std::io;
use std::io::{Error, ErrorKind};

/// Fills a new file, sees that the name still has the old one, and takes the lock of the new one.
fn fill_locked<F: Folder>(
    folder: &mut F,
    file: &mut F::File,
    beside: &str,
    name: &str,
    held: &F::File,
    owner: Owner,
    bytes: &[u8],
) -> io::Result<Replaced>
    ensures same { AtLast (λ k. (F.handle file.new).file ≡ (F.handle file.old).file) (F.told folder.new) }
    ensures fills { Fills (F.handle file.old) beside.now (Some owner) bytes.now result (F.told folder.old) (F.told folder.new) }
    ensures locks { IfOk result (λ done. AtLast (IsLocking (F.handle held.now) (F.handle file.new)) (F.told folder.new)) }
    ensures later { IsLater (F.told folder.old) (F.told folder.new) }
    ensures fault { AtNow (IsNamed (F.handle held.now).file name.now) (F.told folder.old) → IsErr result → HasFailed (F.told folder.old) (F.told folder.new) }
{
    let filled = fill(folder, file, beside, Some(owner), bytes)?;
    if !has_name(folder, held, name)? {
        return Err(Error::from(ErrorKind::Other));
    }
    lock(folder, file)?;
    Ok(filled)
}

/// Gives a file that came to a name, if it is still there.
fn look_again<F: Folder>(folder: &mut F, name: &str, file: F::File) -> io::Result<Option<F::File>>
    ensures rests { Rests (F.told folder.old) (F.told folder.new) }
    ensures later { IsLater (F.told folder.old) (F.told folder.new) }
    ensures given { IfOk result (λ given. given ≡ Some file) }
    ensures looks { IsErr result ⊎ Compared (F.handle file) name.now true (F.told folder.old) (F.told folder.new) }
    ensures fault { AtNow (IsNamed (F.handle file).file name.now) (F.told folder.old) → IsErr result → HasFailed (F.told folder.old) (F.told folder.new) }
{
    if has_name(folder, &file, name)? {
        Ok(Some(file))
    } else {
        Err(Error::from(ErrorKind::Other))
    }
}

/// Fills a new file, puts it in the place of the one of this name, and keeps it open and locked.
fn renew_by<F: Folder>(
    folder: &mut F,
    place: &F::Place,
    new: NewFile<F::File>,
    name: &str,
    held: &F::File,
    owner: Owner,
    bytes: &[u8],
) -> io::Result<Option<F::File>>
    ensures replaces { beside_of new ≢ name.now → IsPlaceOf (F.place place.now) name.now (F.told folder.old) →
        ReplacesBy (handle_of F.handle new) (beside_of new) name.now (Some owner) bytes.now (replaced_of result) (F.told folder.old) (F.told folder.new) }
    ensures keeps { beside_of new ≢ name.now → IsPlaceOf (F.place place.now) name.now (F.told folder.old) →
        (first : Option History) → MakesNew (handle_of F.handle) beside_of name.now (Ok new) first (F.told folder.old) →
        KeepsLock F.handle name.now bytes.now (F.handle held.now) result first (F.told folder.new) }
    ensures later { IsLater (F.told folder.old) (F.told folder.new) }
    ensures fault { beside_of new ≢ name.now → IsPlaceOf (F.place place.now) name.now (F.told folder.old) →
        (first : Option History) → MakesNew (handle_of F.handle) beside_of name.now (Ok new) first (F.told folder.old) →
        AtNow (IsNamed (F.handle held.now).file name.now) first → IsErr result → HasFailed (F.told folder.old) (F.told folder.new) }
{
    let NewFile { file, name: beside } = new;
    let mut file = file;
    let filled = fill_locked(folder, &mut file, beside.as_str(), name, held, owner, bytes);
    match finish(folder, place, &file, beside.as_str(), name, filled, false) {
        Ok(Replaced::Done) => look_again(folder, name, file),
        Ok(Replaced::Refused) => Ok(None),
        Err(error) => Err(error),
    }
}

/// No file is given where the system gives no leave for a new one.
fn none_made<F: Folder>(error: Error) -> io::Result<Option<F::File>>
    ensures { replaced_of result ≡ refusal_of error }
{
    match refusal_of(error) {
        Ok(_) => Ok(None),
        Err(error) => Err(error),
    }
}

/// Makes a new file in this folder, and puts it in the place of the one of this name.
fn renew_in<F: Folder>(
    folder: &mut F,
    alloc: Global,
    place: &F::Place,
    name: &str,
    held: &F::File,
    owner: Owner,
    bytes: &[u8],
) -> io::Result<Option<F::File>>
    ensures replaces { IsPlaceOf (F.place place.now) name.now (F.told folder.old) → ReplacesOrNot name.now (Some owner) bytes.now (replaced_of result) (F.told folder.old) (F.told folder.new) }
    ensures keeps { IsPlaceOf (F.place place.now) name.now (F.told folder.old) → KeepsLock F.handle name.now bytes.now (F.handle held.now) result (F.told folder.old) (F.told folder.new) }
    ensures later { IsLater (F.told folder.old) (F.told folder.new) }
    ensures cause { IsPlaceOf (F.place place.now) name.now (F.told folder.old) → AtNow (IsNamed (F.handle held.now).file name.now) (F.told folder.old) →
        HasCause (AtNow (AllTaken name.now) (F.told folder.old)) result (F.told folder.old) (F.told folder.new) }
{
    match new_file(folder, alloc, name, true) {
        Ok(new) => renew_by(folder, place, new, name, held, owner, bytes),
        Err(error) => none_made::<F>(error),
    }
}

/// Puts a new file of this owner and mode in the place of the one of this name.
fn renew<F: Folder>(
    folder: &mut F,
    alloc: Global,
    name: &str,
    held: &F::File,
    owner: Owner,
    bytes: &[u8],
) -> io::Result<Option<F::File>>
    ensures replaces { ReplacesOrNot name.now (Some owner) bytes.now (replaced_of result) (F.told folder.old) (F.told folder.new) }
    ensures keeps { KeepsLock F.handle name.now bytes.now (F.handle held.now) result (F.told folder.old) (F.told folder.new) }
    ensures later { IsLater (F.told folder.old) (F.told folder.new) }
    ensures cause { AtNow (IsNamed (F.handle held.now).file name.now) (F.told folder.old) →
        HasCause (AtNow (AllTaken name.now) (F.told folder.old)) result (F.told folder.old) (F.told folder.new) }
{
    match folder.open_folder(folder_of(name)) {
        Ok(place) => renew_in(folder, alloc, &place, name, held, owner, bytes),
        Err(closed) => none_made::<F>(closed),
    }
}

/// Makes these the bytes of the file of this name, which is open and whose lock is held, by a new file alone. Its lock
/// is taken before it gets the name, and it is given, open for writing. The name has to have the file that is held: it
/// is looked at before anything is made, before the new file gets the name, and after it. None is given, and nothing
/// has changed, where the system gives no leave for a new file, or a file has several names or is no plain one.
pub fn save_locked<F: Folder>(
    folder: &mut F,
    alloc: Global,
    name: &str,
    held: &F::File,
    bytes: &[u8],
) -> io::Result<Option<F::File>>
    ensures saves { SavesLocked name.now bytes.now result (F.told folder.old) (F.told folder.new) }
    ensures keeps { KeepsLock F.handle name.now bytes.now (F.handle held.now) result (F.told folder.old) (F.told folder.new) }
    ensures refuses { WhereFirst (λ s. HasSame (F.handle held.now).file name.now s → ⊥) (IsErr result × Rests (F.told folder.old) (F.told folder.new)) (F.told folder.old) }
    ensures later { IsLater (F.told folder.old) (F.told folder.new) }
    ensures cause { AtNow (IsNamed (F.handle held.now).file name.now) (F.told folder.old) →
        HasCause (AtNow (AllTaken name.now) (F.told folder.old)) result (F.told folder.old) (F.told folder.new) }
{
    if !has_name(folder, held, name)? {
        return Err(Error::from(ErrorKind::Other));
    }
    let found = folder.find(name)?;
    match owner_of(found) {
        Some(owner) => renew(folder, alloc, name, held, owner, bytes),
        None => Ok(None),
    }
}
