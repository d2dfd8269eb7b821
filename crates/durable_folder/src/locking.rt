//! The lock of a file that is saved, which the program holds until it ends.
ghost use Rattle.std.specs.Prelude.{◌≡◌, ◌⊎◌, ◌↔◌, IsTrue, IsErr, Ok};
ghost use Rattle.std.specs.Option.{option_map};
ghost use Rattle.durable_folder.specs.Calls.{is_elsewhere};
ghost use Rattle.durable_folder.specs.Causes.{AllTaken, AtNow, HasCause, HasFault};
ghost use Rattle.durable_folder.specs.FolderState.{IsFree, target};
ghost use Rattle.durable_folder.specs.Saving.{SavesAnew};
ghost use Rattle.durable_folder.specs.Histories.{Held, Rests};
ghost use Rattle.durable_folder.specs.Locking.{AsksLock, Claims, Compares, HasClaimCause, HasSaveCause, Holds, IsAsLoaded, IsClaimed, IsFoundSo, IsNoPlain, IsNothing, IsOpenAt, IsSameFinding, IsStale, IsTaken, WhereFirst};
ghost use Rattle.durable_folder.specs.Renewing.{AtLast};
ghost use Rattle.durable_folder.specs.Sights.{SavesSeen, Sees, SeesBoth, SeesClaimed, SeesHeld};
ghost use Rattle.durable_folder.specs.Ways.{Saves};

use crate::replacing::is_same;
use crate::saving::{save, stat};
use crate::{Folder, Found, Lock};
use std::alloc::Global;
use std::io;
use std::io::{Error, ErrorKind};

/// Whether another program holds the lock that was asked for.
fn is_elsewhere(answer: &io::Result<Lock>) -> bool
    ensures { result ≡ is_elsewhere answer.now }
{
    matches!(answer, Ok(Lock::Elsewhere))
}

/// Takes the lock of an open file. Where the system knows no locks there is none to be taken.
pub fn lock<F: Folder>(folder: &mut F, file: &mut F::File) -> io::Result<()>
    ensures asks { AsksLock (F.handle file.old) (F.handle file.new) result (F.told folder.old) (F.told folder.new) }
    ensures same { AtLast (λ k. (F.handle file.new).file ≡ (F.handle file.old).file) (F.told folder.new) }
    ensures order { Sees (λ done. Held (F.handle file.old).file) result (F.told folder.old) (F.told folder.new) }
    ensures fault { HasFault result (F.told folder.old) (F.told folder.new) }
{
    if is_elsewhere(&folder.try_lock(file)) {
        return Err(Error::from(ErrorKind::WouldBlock));
    }
    Ok(())
}

/// Whether two findings are of one file that was not written in between.
fn is_same_finding(one: &Found, other: &Found) -> bool
    ensures { IsTrue result ↔ IsSameFinding one.now other.now }
{
    is_same(one, other)
        && one.size == other.size
        && one.seconds == other.seconds
        && one.billionths == other.billionths
}

/// Whether a file is found as it was loaded, if it was.
fn is_as_loaded(found: &Found, loaded: &Option<Found>) -> bool
    ensures { IsTrue result ↔ IsAsLoaded found.now loaded.now }
{
    match loaded {
        Some(loaded) => is_same_finding(found, loaded),
        None => true,
    }
}

/// Whether the file of a name is found to be the open one, and this as it was loaded.
fn is_found_so(found: &Found, named: &Found, loaded: &Option<Found>) -> bool
    ensures { IsTrue result ↔ IsFoundSo found.now named.now loaded.now }
{
    is_same(found, named) && is_as_loaded(found, loaded)
}

/// Whether the name still leads to the open file, and this is as it was loaded.
fn is_current<F: Folder>(
    folder: &mut F,
    name: &str,
    file: &F::File,
    loaded: &Option<Found>,
) -> io::Result<bool>
    ensures compares { Compares (F.handle file.now) loaded.now name.now result (F.told folder.old) (F.told folder.new) }
    ensures order { SeesBoth (F.handle file.now) name.now result (F.told folder.old) (F.told folder.new) }
    ensures fault { HasFault result (F.told folder.old) (F.told folder.new) }
{
    let again = folder.open(name)?;
    let named = folder.find_open(&again)?;
    let found = folder.find_open(file)?;
    Ok(is_found_so(&found, &named, loaded))
}

/// The answer where what is to be claimed is no plain file: an error, where a plain one was loaded.
fn no_plain(loaded: &Option<Found>) -> io::Result<()>
    ensures { IsNoPlain loaded.now result }
{
    match loaded {
        Some(loaded) if loaded.is_file => Err(Error::from(ErrorKind::Other)),
        _ => Ok(()),
    }
}

/// Takes the lock of an open file, if it is a plain one, and then sees that it is as it was loaded, since
/// another program may have saved until it let go of the lock. What is no plain file is not locked.
fn hold<F: Folder>(
    folder: &mut F,
    name: &str,
    file: &mut F::File,
    loaded: &Option<Found>,
) -> io::Result<()>
    ensures holds { Holds (F.handle file.old) (F.handle file.new) loaded.now name.now result (F.told folder.old) (F.told folder.new) }
    ensures order { SeesHeld (F.handle file.old) name.now result (F.told folder.old) (F.told folder.new) }
    ensures cause { HasClaimCause (λ s. IsOpenAt (F.handle file.old) name.now s → IsStale loaded.now name.now s) result (F.told folder.old) (F.told folder.new) }
{
    if !folder.find_open(file)?.is_file {
        return no_plain(loaded);
    }
    lock(folder, file)?;
    if is_current(folder, name, file, loaded)? {
        Ok(())
    } else {
        Err(Error::from(ErrorKind::Other))
    }
}

/// The answer where there is no file to be claimed: an error, where one was loaded.
fn nothing_there<F: Folder>(loaded: &Option<Found>) -> io::Result<Option<F::File>>
    ensures { IsNothing loaded.now result }
{
    match loaded {
        Some(_) => Err(Error::from(ErrorKind::Other)),
        None => Ok(None),
    }
}

/// Claims the file to which a name leads, where there is something of that name.
fn claim_there<F: Folder>(
    folder: &mut F,
    name: &str,
    loaded: &Option<Found>,
) -> io::Result<Option<F::File>>
    ensures claims { Claims F.handle loaded.now name.now result (F.told folder.old) (F.told folder.new) }
    ensures order { SeesClaimed name.now result (F.told folder.old) (F.told folder.new) }
    ensures cause { HasClaimCause (IsStale loaded.now name.now) result (F.told folder.old) (F.told folder.new) }
{
    match folder.open(name) {
        Ok(file) => {
            let mut file = file;
            hold(folder, name, &mut file, loaded)?;
            Ok(Some(file))
        }
        Err(error) if error.kind() == ErrorKind::NotFound => nothing_there::<F>(loaded),
        Err(error) => Err(error),
    }
}

/// Takes the lock of the plain file to which a name leads, if there is one, and sees that it is as it was
/// loaded, if it was. The lock is held as long as the file that is given stays open.
pub fn claim<F: Folder>(
    folder: &mut F,
    name: &str,
    loaded: &Option<Found>,
) -> io::Result<Option<F::File>>
    ensures claims { Claims F.handle loaded.now name.now result (F.told folder.old) (F.told folder.new) }
    ensures order { SeesClaimed name.now result (F.told folder.old) (F.told folder.new) }
    ensures cause { HasClaimCause (IsStale loaded.now name.now) result (F.told folder.old) (F.told folder.new) }
{
    match stat(folder, name) {
        Ok(Some(_)) => claim_there(folder, name, loaded),
        Ok(None) => nothing_there::<F>(loaded),
        Err(error) => Err(error),
    }
}

/// Saves at a name that is claimed, and keeps the file by which its lock is held.
fn save_claimed<F: Folder>(
    folder: &mut F,
    alloc: Global,
    name: &str,
    bytes: &[u8],
    file: Option<F::File>,
    held: &mut Option<F::File>,
) -> io::Result<()>
    ensures saves { Saves name.now bytes.now result (F.told folder.old) (F.told folder.new) }
    ensures anew { result ≡ Ok tt → WhereFirst (λ s. IsFree s name.now) (SavesAnew name.now (F.told folder.old) (F.told folder.new)) (F.told folder.old) }
    ensures cause { HasCause (AtNow (λ s. AllTaken (target s name.now) s) (F.told folder.old)) result (F.told folder.old) (F.told folder.new) }
    ensures keeps { result ≡ Ok tt → held.new ≡ file }
{
    save(folder, alloc, name, bytes)?;
    *held = file;
    Ok(())
}

/// Makes these the bytes of the file to which a name leads, as `save` does. It changes nothing where
/// another program holds the lock of that file, or where the file was loaded and another one is there now,
/// or what is no plain file, or it was written since. After Ok the open file is kept by which its lock is held.
pub fn save_held<F: Folder>(
    folder: &mut F,
    alloc: Global,
    name: &str,
    bytes: &[u8],
    loaded: &Option<Found>,
    held: &mut Option<F::File>,
) -> io::Result<()>
    ensures saves { Saves name.now bytes.now result (F.told folder.old) (F.told folder.new) }
    ensures anew { result ≡ Ok tt → WhereFirst (λ s. IsFree s name.now) (SavesAnew name.now (F.told folder.old) (F.told folder.new)) (F.told folder.old) }
    ensures claims { result ≡ Ok tt → AtNow (IsClaimed loaded.now name.now (option_map F.handle held.new)) (F.told folder.old) }
    ensures order { result ≡ Ok tt → SavesSeen name.now bytes.now held.new (F.told folder.old) (F.told folder.new) }
    ensures refuses { WhereFirst (λ s. IsTaken name.now s ⊎ IsStale loaded.now name.now s) (IsErr result × Rests (F.told folder.old) (F.told folder.new)) (F.told folder.old) }
    ensures cause { HasSaveCause (AtNow (λ s. AllTaken (target s name.now) s) (F.told folder.old)) (IsStale loaded.now name.now) result (F.told folder.old) (F.told folder.new) }
{
    match claim(folder, name, loaded) {
        Ok(file) => save_claimed(folder, alloc, name, bytes, file, held),
        Err(error) => Err(error),
    }
}
