//! What the calls tell that change nothing.
ghost use Rattle.std.specs.Prelude.{◌≡◌, ℕ, IfErr, IfOk, List};
ghost use Rattle.std.specs.Path.{path_buf_bytes};
ghost use Rattle.durable_folder.specs.Calls.{Finds, FindsFolder, FindsOpen, Locks, Opens, Reads, Resolves, Seeks};
ghost use Rattle.durable_folder.specs.FolderState.{FolderState};
ghost use Rattle.mem_folder.specs.Changes.{state_of};
ghost use Rattle.mem_folder.specs.Found.{IsOf};
ghost use Rattle.mem_folder.specs.Telling.{IsFault, handle_of};
ghost use Rattle.mem_folder.specs.declared.change.Change.{Change};

use crate::change::Change;
use crate::files::MemFile;
use crate::reading::{bytes_of, file_of};
use durable_folder::{Found, Lock};
use std::alloc::Global;
use std::fs::Permissions;
use std::io;
use std::io::{Error, ErrorKind};
use std::os::unix::fs::PermissionsExt;
use std::path::PathBuf;

/// The mode of each file.
const MODE: u32 = 0o644;

/// What is told of a file.
fn facts_of(changes: &[Change], file: u64) -> Found
    ensures { IsOf changes.now file result }
{
    Found {
        is_file: true,
        is_link: false,
        names: 1,
        device: 0,
        inode: file,
        user: 0,
        group: 0,
        permissions: Permissions::from_mode(MODE),
        size: bytes_of(changes, file).len() as u64,
        seconds: 0,
        billionths: 0,
    }
}

/// What stands at a name.
pub fn find(fault: io::Result<()>, changes: &[Change], name: &str) -> io::Result<Found>
    requires { IfErr fault IsFault }
    ensures { Finds name.now result (state_of changes.now) (state_of changes.now) }
{
    if let Err(error) = fault {
        return Err(error);
    }
    match file_of(changes, name) {
        Some(file) => Ok(facts_of(changes, file)),
        None => Err(Error::from(ErrorKind::NotFound)),
    }
}

/// Opens the file of a name, at its start.
pub fn open(fault: io::Result<()>, changes: &[Change], name: &str) -> io::Result<MemFile>
    requires { IfErr fault IsFault }
    ensures start { IfOk result (λ file. (handle_of file).offset ≡ 0) }
    ensures opens { Opens handle_of name.now result (state_of changes.now) (state_of changes.now) }
{
    if let Err(error) = fault {
        return Err(error);
    }
    match file_of(changes, name) {
        Some(number) => Ok(MemFile {
            number,
            offset: 0,
            is_held: false,
        }),
        None => Err(Error::from(ErrorKind::NotFound)),
    }
}

/// Reads as many bytes from where the next ones come, or those that there are.
pub fn read(
    fault: io::Result<()>,
    alloc: Global,
    changes: &[Change],
    file: &mut MemFile,
    most: usize,
) -> io::Result<Vec<u8>>
    ensures { Reads (handle_of file.old) most result (state_of changes.now) (state_of changes.now) }
{
    if let Err(error) = fault {
        return Err(error);
    }
    let bytes = bytes_of(changes, file.number);
    if file.offset > bytes.len() as u64 {
        return Ok(Vec::new(alloc));
    }
    let start = file.offset as usize;
    let size = (bytes.len() - start).min(most);
    match Vec::from_slice(alloc, &bytes[start..start + size]) {
        Ok(read) => {
            file.offset = (start + size) as u64;
            Ok(read)
        }
        Err(_) => Err(Error::from(ErrorKind::OutOfMemory)),
    }
}

/// What is told of an open file.
pub fn find_open(fault: io::Result<()>, changes: &[Change], file: &MemFile) -> io::Result<Found>
    ensures { FindsOpen (handle_of file.now) result (state_of changes.now) (state_of changes.now) }
{
    if let Err(error) = fault {
        return Err(error);
    }
    Ok(facts_of(changes, file.number))
}

/// What is told of an open folder.
pub fn find_folder(fault: io::Result<()>) -> io::Result<Found>
    ensures { (folder : List ℕ) (changes : List Change) →
        FindsFolder folder result (state_of changes) (state_of changes) }
{
    if let Err(error) = fault {
        return Err(error);
    }
    Ok(facts_of(&[], 0))
}

/// Where a name leads: to itself.
pub fn resolve(fault: io::Result<()>, alloc: Global, name: &str) -> io::Result<PathBuf>
    ensures { (changes : List Change) → Resolves path_buf_bytes name.now result (state_of changes) (state_of changes) }
{
    if let Err(error) = fault {
        return Err(error);
    }
    match PathBuf::from_str(alloc, name) {
        Ok(path) => Ok(path),
        Err(_) => Err(Error::from(ErrorKind::OutOfMemory)),
    }
}

/// Takes the lock of an open file, or finds that there are no locks.
pub fn lock(fault: io::Result<()>, file: &mut MemFile) -> io::Result<Lock>
    ensures { (changes : List Change) → Locks (handle_of file.old) (handle_of file.new) result (state_of changes)
        (state_of changes) }
{
    file.is_held = true;
    match fault {
        Ok(()) => Ok(Lock::Held),
        Err(error) => Err(error),
    }
}

/// Has the next bytes of an open file go to an offset.
pub fn seek(fault: io::Result<()>, file: &mut MemFile, offset: u64) -> io::Result<()>
    ensures same { (handle_of file.new).file ≡ (handle_of file.old).file }
    ensures seeks { (s : FolderState) → Seeks (handle_of file.new) offset result s s }
{
    if let Err(error) = fault {
        return Err(error);
    }
    file.offset = offset;
    Ok(())
}
