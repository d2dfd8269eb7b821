//! A file is replaced by a new one that was written beside it.
ghost use Rattle.std.specs.Prelude.{◌≡◌, ◌≢◌, ◌⊎◌, ◌↔◌, IsTrue, true, None, Ok, IfOk, IsErr};
ghost use Rattle.durable_folder.specs.NewFiles.{beside_of, handle_of};
ghost use Rattle.durable_folder.specs.Causes.{AllTaken, AtNow, HasCause, HasFailed, HasFault, IsLater, IsNamed};
ghost use Rattle.durable_folder.specs.Histories.{IsPlaceOf, Rests};
ghost use Rattle.durable_folder.specs.Renewing.{Compared, Owns};
ghost use Rattle.durable_folder.specs.Saving.{Gives, WritesWhole, Fills, Puts, PutsAnew, Ends, ReplacesBy, Mounted, ReplacesOrNot};

use crate::answers::{Replaced, as_fault, is_unlinkable, refusal_of};
use crate::new_file::{NewFile, new_file};
use crate::syncing::sync_names;
use crate::temporary_names::folder_of;
use crate::{Folder, Found};
use std::alloc::Global;
use std::fs::Permissions;
use std::io;
use std::io::{Error, ErrorKind};
use std::path::PathBuf;

/// Whose a file is, who may do what with it, and the device that it stands on.
#[derive(Drop)]
pub struct Owner {
    pub user: u32,
    pub group: u32,
    pub permissions: Permissions,
    pub device: u64,
}

/// Whose a new file has to be in the place of what was found, which may be replaced if it is a plain file with one
/// name. Another hard link would keep the old bytes.
pub fn owner_of(found: Found) -> Option<Owner>
    ensures { Owns found result }
{
    if found.is_file && found.names <= 1 {
        Some(Owner {
            user: found.user,
            group: found.group,
            permissions: found.permissions,
            device: found.device,
        })
    } else {
        None
    }
}

/// Gives a new file its owner and mode, if it is to have them. Answers whether the system gave leave. The owner is set
/// by the name, since an open file has no call for it: in a folder that others may write another file may stand there
/// by then.
fn give<F: Folder>(folder: &mut F, file: &F::File, beside: &str, owner: Option<Owner>) -> bool
    ensures gives { Gives beside.now (F.handle file.now).file owner result (F.told folder.old) (F.told folder.new) }
    ensures later { IsLater (F.told folder.old) (F.told folder.new) }
{
    let Some(owner) = owner else {
        return true;
    };
    if folder.set_owner(beside, owner.user, owner.group).is_err() {
        return false;
    }
    folder.set_permissions(file, owner.permissions).is_ok()
}

/// Writes the bytes of a new file, up to the system's store.
#[tactic(auto, using(crate::proofs::Causing::turn_later, crate::proofs::Causing::turn_failed, crate::proofs::Filling::whole_failed, crate::proofs::Filling::whole_done))]
fn write_whole<F: Folder>(folder: &mut F, file: &mut F::File, bytes: &[u8]) -> io::Result<()>
    ensures same { (F.handle file.new).file ≡ (F.handle file.old).file }
    ensures writes { WritesWhole (F.handle file.old) bytes.now result (F.told folder.old) (F.told folder.new) }
    ensures fault { HasFault result (F.told folder.old) (F.told folder.new) }
{
    folder.write(file, bytes)?;
    folder.sync(file)
}

/// Gives a new file its owner and mode, and then its bytes. So the bytes never stand under a mode that is wider than
/// that of the old file.
pub fn fill<F: Folder>(
    folder: &mut F,
    file: &mut F::File,
    beside: &str,
    owner: Option<Owner>,
    bytes: &[u8],
) -> io::Result<Replaced>
    ensures same { (F.handle file.new).file ≡ (F.handle file.old).file }
    ensures fills { Fills (F.handle file.old) beside.now owner bytes.now result (F.told folder.old) (F.told folder.new) }
    ensures fault { HasFault result (F.told folder.old) (F.told folder.new) }
{
    if !give(folder, file, beside, owner) {
        return Ok(Replaced::Refused);
    }
    write_whole(folder, file, bytes)?;
    Ok(Replaced::Done)
}

/// Whether two findings are of one file.
pub fn is_same(one: &Found, other: &Found) -> bool
    ensures { IsTrue result ↔ ((one.now.device ≡ other.now.device) × (one.now.inode ≡ other.now.inode)) }
{
    one.device == other.device && one.inode == other.inode
}

/// Whether a name still leads to the open file. A link is not followed.
pub fn has_name<F: Folder>(folder: &mut F, file: &F::File, beside: &str) -> io::Result<bool>
    ensures rests { Rests (F.told folder.old) (F.told folder.new) }
    ensures later { IsLater (F.told folder.old) (F.told folder.new) }
    ensures named { AtNow (IsNamed (F.handle file.now).file beside.now) (F.told folder.old) → (result ≡ Ok true) ⊎ HasFailed (F.told folder.old) (F.told folder.new) }
    ensures looks { IfOk result (λ is. Compared (F.handle file.now) beside.now is (F.told folder.old) (F.told folder.new)) }
{
    let named = folder.find(beside)?;
    let made = folder.find_open(file)?;
    Ok(is_same(&made, &named))
}

/// Puts a new file in the place of the one of this name. Where that is refused, it is removed.
#[tactic(auto, using(crate::proofs::Causing::turn_later, crate::proofs::Causing::turn_failed))]
fn put_over<F: Folder>(
    folder: &mut F,
    place: &F::Place,
    beside: &str,
    name: &str,
) -> io::Result<Replaced>
    ensures puts { beside.now ≢ name.now → IsPlaceOf (F.place place.now) name.now (F.told folder.old) → Puts beside.now name.now result (F.told folder.old) (F.told folder.new) }
    ensures fault { HasFault result (F.told folder.old) (F.told folder.new) }
{
    match folder.rename(beside, name) {
        Ok(()) => {
            sync_names(folder, place)?;
            Ok(Replaced::Done)
        }
        Err(error) => {
            folder.remove(beside)?;
            refusal_of(error)
        }
    }
}

/// Puts a new file at a name at which nothing was. What came there meanwhile is not replaced, and is a
/// fault. Where the system knows no second names, the new file replaces it.
#[tactic(auto, using(crate::proofs::Causing::turn_later, crate::proofs::Causing::turn_failed))]
fn put_anew<F: Folder>(
    folder: &mut F,
    place: &F::Place,
    beside: &str,
    name: &str,
) -> io::Result<Replaced>
    ensures puts { beside.now ≢ name.now → IsPlaceOf (F.place place.now) name.now (F.told folder.old) → Puts beside.now name.now result (F.told folder.old) (F.told folder.new) }
    ensures anew { beside.now ≢ name.now → IsPlaceOf (F.place place.now) name.now (F.told folder.old) → result ≡ Ok Replaced.Done → PutsAnew name.now (F.told folder.old) (F.told folder.new) }
    ensures fault { HasFault result (F.told folder.old) (F.told folder.new) }
{
    match folder.link(beside, name) {
        Ok(()) => {
            as_fault(folder.remove(beside))?;
            sync_names(folder, place)?;
            Ok(Replaced::Done)
        }
        Err(error) if is_unlinkable(error.kind()) => put_over(folder, place, beside, name),
        Err(error) => {
            folder.remove(beside)?;
            Err(error)
        }
    }
}

/// Puts a new file at a name, where nothing was or in the place of what was there.
fn put<F: Folder>(
    folder: &mut F,
    place: &F::Place,
    beside: &str,
    name: &str,
    is_new: bool,
) -> io::Result<Replaced>
    ensures puts { beside.now ≢ name.now → IsPlaceOf (F.place place.now) name.now (F.told folder.old) → Puts beside.now name.now result (F.told folder.old) (F.told folder.new) }
    ensures anew { beside.now ≢ name.now → IsPlaceOf (F.place place.now) name.now (F.told folder.old) → is_new ≡ true → result ≡ Ok Replaced.Done → PutsAnew name.now (F.told folder.old) (F.told folder.new) }
    ensures fault { HasFault result (F.told folder.old) (F.told folder.new) }
{
    if is_new {
        put_anew(folder, place, beside, name)
    } else {
        put_over(folder, place, beside, name)
    }
}

/// Puts a new file in its place once it was filled, and else removes it. If it cannot be removed the save fails: else
/// each save would leave one, unnoticed.
fn put_or_remove<F: Folder>(
    folder: &mut F,
    place: &F::Place,
    beside: &str,
    name: &str,
    filled: io::Result<Replaced>,
    is_new: bool,
) -> io::Result<Replaced>
    ensures anew { beside.now ≢ name.now → IsPlaceOf (F.place place.now) name.now (F.told folder.old) → is_new ≡ true → result ≡ Ok Replaced.Done → PutsAnew name.now (F.told folder.old) (F.told folder.new) }
    ensures ends { beside.now ≢ name.now → IsPlaceOf (F.place place.now) name.now (F.told folder.old) → Ends beside.now name.now filled result (F.told folder.old) (F.told folder.new) }
    ensures done { result ≡ Ok Replaced.Done → filled ≡ Ok Replaced.Done }
    ensures later { IsLater (F.told folder.old) (F.told folder.new) }
    ensures fault { IsErr result → IsErr filled ⊎ HasFailed (F.told folder.old) (F.told folder.new) }
{
    let answer = match filled {
        Ok(answer) => answer,
        Err(error) => {
            folder.remove(beside)?;
            return Err(error);
        }
    };
    match answer {
        Replaced::Done => put(folder, place, beside, name, is_new),
        Replaced::Refused => {
            folder.remove(beside)?;
            Ok(Replaced::Refused)
        }
    }
}

/// Puts a new file in its place or removes it, if its name still leads to it. What somebody else put
/// there is neither renamed nor removed.
pub fn finish<F: Folder>(
    folder: &mut F,
    place: &F::Place,
    file: &F::File,
    beside: &str,
    name: &str,
    filled: io::Result<Replaced>,
    is_new: bool,
) -> io::Result<Replaced>
    ensures anew { beside.now ≢ name.now → IsPlaceOf (F.place place.now) name.now (F.told folder.old) → is_new ≡ true → result ≡ Ok Replaced.Done → PutsAnew name.now (F.told folder.old) (F.told folder.new) }
    ensures ends { beside.now ≢ name.now → IsPlaceOf (F.place place.now) name.now (F.told folder.old) → Ends beside.now name.now filled result (F.told folder.old) (F.told folder.new) }
    ensures done { result ≡ Ok Replaced.Done → filled ≡ Ok Replaced.Done }
    ensures later { IsLater (F.told folder.old) (F.told folder.new) }
    ensures fault { AtNow (IsNamed (F.handle file.now).file beside.now) (F.told folder.old) → IsErr result → IsErr filled ⊎ HasFailed (F.told folder.old) (F.told folder.new) }
{
    if !has_name(folder, file, beside)? {
        return Err(Error::from(ErrorKind::Other));
    }
    put_or_remove(folder, place, beside, name, filled, is_new)
}

/// Fills a new file and puts it in the place of the one of this name.
fn replace_by<F: Folder>(
    folder: &mut F,
    place: &F::Place,
    new: NewFile<F::File>,
    name: &str,
    owner: Option<Owner>,
    bytes: &[u8],
) -> io::Result<Replaced>
    ensures replaces { beside_of new ≢ name.now → IsPlaceOf (F.place place.now) name.now (F.told folder.old) →
        ReplacesBy (handle_of F.handle new) (beside_of new) name.now owner bytes.now result (F.told folder.old) (F.told folder.new) }
    ensures anew { beside_of new ≢ name.now → IsPlaceOf (F.place place.now) name.now (F.told folder.old) → owner ≡ None → result ≡ Ok Replaced.Done → PutsAnew name.now (F.told folder.old) (F.told folder.new) }
    ensures later { IsLater (F.told folder.old) (F.told folder.new) }
    ensures fault { AtNow (IsNamed (handle_of F.handle new).file (beside_of new)) (F.told folder.old) → IsErr result → HasFailed (F.told folder.old) (F.told folder.new) }
{
    let NewFile { file, name: beside } = new;
    let mut file = file;
    let is_new = owner.is_none();
    let filled = fill(folder, &mut file, beside.as_str(), owner, bytes);
    finish(folder, place, &file, beside.as_str(), name, filled, is_new)
}

/// Makes a new file in this folder, and puts it in the place of the one of this name. A mount point is not replaced.
fn replace_in<F: Folder>(
    folder: &mut F,
    alloc: Global,
    place: &F::Place,
    name: &str,
    owner: Option<Owner>,
    bytes: &[u8],
) -> io::Result<Replaced>
    ensures replaces { IsPlaceOf (F.place place.now) name.now (F.told folder.old) → ReplacesOrNot name.now owner bytes.now result (F.told folder.old) (F.told folder.new) }
    ensures anew { IsPlaceOf (F.place place.now) name.now (F.told folder.old) → owner ≡ None → result ≡ Ok Replaced.Done → PutsAnew name.now (F.told folder.old) (F.told folder.new) }
    ensures cause { HasCause (AtNow (AllTaken name.now) (F.told folder.old)) result (F.told folder.old) (F.told folder.new) }
{
    if is_mounted(folder, place, &owner)? {
        return Ok(Replaced::Refused);
    }
    match new_file(folder, alloc, name, owner.is_some()) {
        Ok(new) => replace_by(folder, place, new, name, owner, bytes),
        Err(error) => refusal_of(error),
    }
}

/// Whether a file that is given an owner stands on another device than its folder. Then it is a
/// mount point, which can't be replaced.
fn is_mounted<F: Folder>(
    folder: &mut F,
    place: &F::Place,
    owner: &Option<Owner>,
) -> io::Result<bool>
    ensures mounted { Mounted (F.place place.now) owner.now result (F.told folder.old) (F.told folder.new) }
    ensures fault { HasFault result (F.told folder.old) (F.told folder.new) }
{
    let Some(old) = owner else {
        return Ok(false);
    };
    let found = folder.find_folder(place)?;
    Ok(found.device != old.device)
}

/// Puts a new file in the place of the one of this name. It has its owner and mode before its first
/// byte, and comes to the name once it is whole and in the system's store.
pub fn replace<F: Folder>(
    folder: &mut F,
    alloc: Global,
    name: &str,
    owner: Option<Owner>,
    bytes: &[u8],
) -> io::Result<Replaced>
    ensures replaces { ReplacesOrNot name.now owner bytes.now result (F.told folder.old) (F.told folder.new) }
    ensures anew { owner ≡ None → result ≡ Ok Replaced.Done → PutsAnew name.now (F.told folder.old) (F.told folder.new) }
    ensures cause { HasCause (AtNow (AllTaken name.now) (F.told folder.old)) result (F.told folder.old) (F.told folder.new) }
{
    match folder.open_folder(folder_of(name)) {
        Ok(place) => replace_in(folder, alloc, &place, name, owner, bytes),
        Err(closed) => refusal_of(closed),
    }
}
