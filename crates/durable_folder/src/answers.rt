//! Answers of the system, and what a save makes of them.
ghost use Rattle.std.specs.Prelude.{◌≡◌};
ghost use Rattle.durable_folder.specs.Counting.{is_unlinkable};
ghost use Rattle.durable_folder.specs.Answers.{IsLate, IsNamesSyncAnswer, refusal_of, sync_answer};

use std::io;
use std::io::{Error, ErrorKind};

/// What came of putting a new file in a place.
#[derive(Clone, Copy, PartialEq, Eq)]
pub enum Replaced {
    Done,
    /// The system gives no leave for it there. All is as before.
    Refused,
}

/// An answer that comes when the file may have changed. Then it is no want of memory, after which
/// nothing has.
pub fn as_fault(done: io::Result<()>) -> io::Result<()>
    ensures { IsLate done result }
{
    match done {
        Err(error) if error.kind() == ErrorKind::OutOfMemory => Err(Error::from(ErrorKind::Other)),
        _ => done,
    }
}

/// Whether the system gives no leave for a new file in this folder or of this name, or to put one in
/// the place of what is there, or met another error.
pub fn refusal_of(error: Error) -> io::Result<Replaced>
    ensures { result ≡ refusal_of error }
{
    match error.kind() {
        ErrorKind::PermissionDenied
        | ErrorKind::ReadOnlyFilesystem
        | ErrorKind::InvalidFilename
        | ErrorKind::ResourceBusy
        | ErrorKind::CrossesDevices => Ok(Replaced::Refused),
        _ => Err(error),
    }
}

/// Whether an error of giving a file a second name is taken to say that files have none there.
pub fn is_unlinkable(kind: ErrorKind) -> bool
    ensures { result ≡ is_unlinkable kind }
{
    match kind {
        ErrorKind::AlreadyExists | ErrorKind::OutOfMemory => false,
        _ => true,
    }
}

/// The answer of syncing a folder or a device. Some systems can't do that, and say so.
pub fn sync_answer(done: io::Result<()>) -> io::Result<()>
    ensures { result ≡ sync_answer done }
{
    match done {
        Err(error) if error.kind() == ErrorKind::InvalidInput => Ok(()),
        _ => done,
    }
}

/// The answer of syncing a folder whose names may have changed.
pub fn names_sync_answer(done: io::Result<()>) -> io::Result<()>
    ensures { IsNamesSyncAnswer done result }
{
    as_fault(sync_answer(done))
}
