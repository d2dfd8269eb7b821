//! What changes the bytes of a file.
ghost use Rattle.std.specs.Prelude.{◌≡◌, ℕ, List, Some, IfErr, IfOk, MatchResult};
ghost use Rattle.durable_folder.specs.Calls.{OfFile, ResizesFile, SyncsFile, Writes, Written};
ghost use Rattle.mem_folder.specs.Bytes.{filled, overlay};
ghost use Rattle.mem_folder.specs.Changes.{state_of};
ghost use Rattle.mem_folder.specs.Telling.{handle_of};

use crate::change::Change;
use crate::files::MemFile;
use crate::naming::add;
use crate::reading::bytes_of;
use std::alloc::{AllocError, Global};
use std::io;
use std::io::{Error, ErrorKind};

/// This many bytes of these, with zeros behind their end.
fn fill(alloc: Global, bytes: &[u8], size: usize) -> Result<Vec<u8>, AllocError>
    ensures { IfOk result (λ v. v.items ≡ filled size bytes.now) }
{
    let mut kept = Vec::from_slice(alloc, &bytes[..size.min(bytes.len())])?;
    kept.resize(size, 0)?;
    Ok(kept)
}

/// The bytes of a file once others are written at an offset.
fn lay_over(alloc: Global, old: &[u8], offset: usize, bytes: &[u8]) -> Result<Vec<u8>, AllocError>
    ensures { IfOk result (λ v. v.items ≡ overlay offset bytes.now old.now) }
{
    let mut written = fill(alloc, old, offset)?;
    written.extend_from_slice(bytes)?;
    let end = written.len();
    if end < old.len() {
        written.extend_from_slice(&old[end..])?;
    }
    Ok(written)
}

/// Writes bytes where the next ones go.
pub fn write(
    fault: io::Result<()>,
    alloc: Global,
    changes: &mut Vec<Change>,
    file: &mut MemFile,
    bytes: &[u8],
) -> io::Result<()>
    ensures same { (handle_of file.new).file ≡ (handle_of file.old).file }
    ensures writes { Writes (handle_of file.old) bytes.now result (state_of changes.old.items)
        (state_of changes.new.items) }
{
    if let Err(error) = fault {
        return Err(error);
    }
    let Some(end) = file.offset.checked_add(bytes.len() as u64) else {
        return Err(Error::from(ErrorKind::Other));
    };
    let old = bytes_of(changes.as_slice(), file.number);
    let Ok(written) = lay_over(alloc, old, file.offset as usize, bytes) else {
        return Err(Error::from(ErrorKind::OutOfMemory));
    };
    file.offset = end;
    add(changes, Change::Wrote(file.number, written))
}

/// Gives a file a length in bytes.
pub fn resize(
    fault: io::Result<()>,
    alloc: Global,
    changes: &mut Vec<Change>,
    file: &MemFile,
    length: u64,
) -> io::Result<()>
    ensures { ResizesFile (handle_of file.now).file length result (state_of changes.old.items)
        (state_of changes.new.items) }
{
    if let Err(error) = fault {
        return Err(error);
    }
    let old = bytes_of(changes.as_slice(), file.number);
    let Ok(resized) = fill(alloc, old, length as usize) else {
        return Err(Error::from(ErrorKind::OutOfMemory));
    };
    add(changes, Change::Wrote(file.number, resized))
}

/// Syncs the bytes of a file.
pub fn sync(fault: io::Result<()>, changes: &mut Vec<Change>, file: &MemFile) -> io::Result<()>
    ensures { SyncsFile (handle_of file.now).file result (state_of changes.old.items) (state_of changes.new.items) }
{
    if let Err(error) = fault {
        return Err(error);
    }
    add(changes, Change::Synced(file.number))
}
