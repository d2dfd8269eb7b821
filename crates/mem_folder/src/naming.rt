//! What changes the names of a folder.
ghost use Rattle.std.specs.Prelude.{◌≡◌, ℕ, ◌++◌, List, [], ◌∷◌, IfErr, IfOk, IfSome, OnOk, string_bytes};
ghost use Rattle.durable_folder.specs.Calls.{Creates, Links, OpensOrCreates, Removes, Renames, SyncsFolder};
ghost use Rattle.mem_folder.specs.Changes.{IsAbove, IsFresh, number_of, state_of};
ghost use Rattle.mem_folder.specs.Telling.{IsFault, IsStarved, handle_of};

use crate::change::Change;
use crate::files::MemFile;
use crate::finding::open;
use crate::reading::file_of;
use std::alloc::Global;
use std::io;
use std::io::{Error, ErrorKind};

/// Notes a change.
pub fn add(changes: &mut Vec<Change>, change: Change) -> io::Result<()>
    ensures ok { OnOk result (changes.new.items ≡ changes.old.items ++ change ∷ []) }
    ensures err { IfErr result (λ error. (changes.new.items ≡ changes.old.items) × IsStarved error) }
{
    match changes.push(change) {
        Ok(()) => Ok(()),
        Err(_) => Err(Error::from(ErrorKind::OutOfMemory)),
    }
}

/// A copy of a text.
pub fn copy(alloc: Global, text: &str) -> io::Result<String>
    ensures ok { IfOk result (λ copy. string_bytes copy ≡ text.now) }
    ensures err { IfErr result IsStarved }
{
    match String::from_str(alloc, text) {
        Ok(copy) => Ok(copy),
        Err(_) => Err(Error::from(ErrorKind::OutOfMemory)),
    }
}

/// The number that a change gives to a file, or with which it puts a file at another name.
fn number_of(change: &Change) -> Option<u64>
    ensures { result ≡ number_of change.now }
{
    match change {
        Change::Made(_, file) | Change::Moved(_, _, file) | Change::Linked(_, file) => Some(*file),
        _ => None,
    }
}

/// A number that is no less than this one, and above the other one.
fn above(next: u64, number: Option<u64>) -> Option<u64>
    ensures { IfSome result (IsAbove next number) }
{
    match number {
        Some(file) if file >= next => file.checked_add(1),
        _ => Some(next),
    }
}

/// A number that no file has had.
fn next_number(changes: &[Change]) -> Option<u64>
    ensures { IfSome result (λ number. IsFresh changes.now number) }
{
    let mut next = 0;
    for change in changes {
        next = above(next, number_of(change))?;
    }
    Some(next)
}

/// Makes a file where there is none of its name.
pub fn create(
    fault: io::Result<()>,
    alloc: Global,
    changes: &mut Vec<Change>,
    name: &str,
) -> io::Result<MemFile>
    requires { IfErr fault IsFault }
    ensures start { IfOk result (λ file. (handle_of file).offset ≡ 0) }
    ensures creates { Creates handle_of name.now result (state_of changes.old.items) (state_of changes.new.items) }
{
    if let Err(error) = fault {
        return Err(error);
    }
    if file_of(changes.as_slice(), name).is_some() {
        return Err(Error::from(ErrorKind::AlreadyExists));
    }
    let Some(number) = next_number(changes.as_slice()) else {
        return Err(Error::from(ErrorKind::Other));
    };
    let own = match copy(alloc, name) {
        Ok(own) => own,
        Err(error) => return Err(error),
    };
    match add(changes, Change::Made(own, number)) {
        Ok(()) => Ok(MemFile {
            number,
            offset: 0,
            is_held: false,
        }),
        Err(error) => Err(error),
    }
}

/// Opens the file of a name, or makes it.
pub fn open_or_create(
    fault: io::Result<()>,
    alloc: Global,
    changes: &mut Vec<Change>,
    name: &str,
) -> io::Result<MemFile>
    requires { IfErr fault IsFault }
    ensures start { IfOk result (λ file. (handle_of file).offset ≡ 0) }
    ensures opens { OpensOrCreates handle_of name.now result (state_of changes.old.items) (state_of changes.new.items) }
{
    if file_of(changes.as_slice(), name).is_some() {
        return open(fault, changes.as_slice(), name);
    }
    create(fault, alloc, changes, name)
}

/// Puts a file at another name.
pub fn rename(
    fault: io::Result<()>,
    alloc: Global,
    changes: &mut Vec<Change>,
    from: &str,
    to: &str,
) -> io::Result<()>
    ensures { Renames from.now to.now result (state_of changes.old.items) (state_of changes.new.items) }
{
    if let Err(error) = fault {
        return Err(error);
    }
    let Some(file) = file_of(changes.as_slice(), from) else {
        return Err(Error::from(ErrorKind::NotFound));
    };
    if file_of(changes.as_slice(), to) == Some(file) {
        return Ok(());
    }
    let (from, to) = match (copy(alloc, from), copy(alloc, to)) {
        (Ok(from), Ok(to)) => (from, to),
        _ => return Err(Error::from(ErrorKind::OutOfMemory)),
    };
    add(changes, Change::Moved(from, to, file))
}

/// Gives the file of a name another one, where there is none of that name.
pub fn link(
    fault: io::Result<()>,
    alloc: Global,
    changes: &mut Vec<Change>,
    from: &str,
    to: &str,
) -> io::Result<()>
    ensures { Links from.now to.now result (state_of changes.old.items) (state_of changes.new.items) }
{
    if let Err(error) = fault {
        return Err(error);
    }
    let Some(file) = file_of(changes.as_slice(), from) else {
        return Err(Error::from(ErrorKind::NotFound));
    };
    if file_of(changes.as_slice(), to).is_some() {
        return Err(Error::from(ErrorKind::AlreadyExists));
    }
    match copy(alloc, to) {
        Ok(own) => add(changes, Change::Linked(own, file)),
        Err(error) => Err(error),
    }
}

/// Removes a name.
pub fn remove(
    fault: io::Result<()>,
    alloc: Global,
    changes: &mut Vec<Change>,
    name: &str,
) -> io::Result<()>
    ensures { Removes name.now result (state_of changes.old.items) (state_of changes.new.items) }
{
    if let Err(error) = fault {
        return Err(error);
    }
    if file_of(changes.as_slice(), name).is_none() {
        return Err(Error::from(ErrorKind::NotFound));
    }
    match copy(alloc, name) {
        Ok(own) => add(changes, Change::Removed(own)),
        Err(error) => Err(error),
    }
}

/// Syncs the names.
pub fn sync_names(fault: io::Result<()>, changes: &mut Vec<Change>) -> io::Result<()>
    ensures syncs { (place : List ℕ) → SyncsFolder place result (state_of changes.old.items)
        (state_of changes.new.items) }
    ensures err { IfErr result (λ _. changes.new.items ≡ changes.old.items) }
{
    if let Err(error) = fault {
        return Err(error);
    }
    add(changes, Change::SyncedNames)
}
