//! The files of the system, as a folder. This is what is trusted of a save: each method is one call of
//! the system, but for a write, which is one for each 64 KB.
ghost use Rattle.std.specs.Prelude.{◌≡◌, [], None, true, take, IfOk, IfSome, OnOk};
ghost use Rattle.std.specs.Io.KnownBytes.{Appends};

use durable_folder::{Folder, Found, Lock};
use std::alloc::Global;
use std::fs::{File, Metadata, OpenFile, OpenOptions, Permissions, TryLockError};
use std::io::{Read, Seek, SeekFrom, Write};
use std::os::unix::fs::{MetadataExt, OpenOptionsExt, lchown};
use std::path::PathBuf;
use std::rt::Files;
use std::{fs, io};

/// An open file, whose lock a program can ask for.
pub trait LockFile {
    /// Takes the lock of the file, which is held while the file is open, and does not wait for it.
    fn take_lock(&self) -> io::Result<Lock>;
}

impl LockFile for File {
    fn take_lock(&self) -> io::Result<Lock> {
        match self.try_lock() {
            Ok(()) => Ok(Lock::Held),
            Err(TryLockError::WouldBlock) => Ok(Lock::Elsewhere),
            Err(TryLockError::Error(error)) => Err(error),
        }
    }
}

/// The most bytes that one call writes. The system keeps what one call wrote in one piece of memory, and each later
/// sync of a few of its bytes looks at all of it.
const PIECE_BYTES: usize = 65536;

/// The files of the system.
#[derive(Drop)]
pub struct RealFolder<'a, R: Files + AllocGlobal> {
    pub rt: &'a R,
}

/// The first bytes of a reader, up to so many; in one buffer, where they are as many as expected.
fn first_bytes<F: Read>(
    alloc: Global,
    file: &mut F,
    most: usize,
    expected: u64,
) -> io::Result<Vec<u8>>
    ensures { IfOk result (λ bytes. IfSome (F.remaining file.old) (λ all. bytes.items ≡ take most all)) }
{
    let room = expected.min(most as u64) as usize;
    let mut bytes = Vec::with_capacity(alloc, room.saturating_add(1))?;
    file.take(most as u64).read_to_end(&mut bytes)?;
    Ok(bytes)
}

/// What the system tells of a file, field by field.
fn as_found(metadata: Metadata) -> Found {
    Found {
        is_file: metadata.is_file(),
        is_link: metadata.is_symlink(),
        names: metadata.nlink(),
        device: metadata.dev(),
        inode: metadata.ino(),
        user: metadata.uid(),
        group: metadata.gid(),
        permissions: metadata.permissions(),
        size: metadata.len(),
        seconds: metadata.mtime(),
        billionths: metadata.mtime_nsec(),
    }
}

/// Writes bytes where the next ones go, piece by piece.
fn write_pieces<F: Write>(file: &mut F, bytes: &[u8]) -> io::Result<()>
    ensures { OnOk result (Appends (F.contents file.old) (F.contents file.new) bytes.now) }
{
    for piece in bytes.chunks(PIECE_BYTES) {
        file.write_all(piece)?;
    }
    Ok(())
}

impl<'a, R: Files + AllocGlobal> Folder for RealFolder<'a, R>
where
    R::File: LockFile,
{
    type File = R::File;

    type Place = R::File;

    ghost told = { λ _. None };

    ghost handle = { λ _. record { file = None; offset = 0; is_held = true } };

    ghost place = { λ _. [] };

    fn find(&mut self, name: &str) -> io::Result<Found> {
        fs::symlink_metadata(self.rt, name).map(as_found)
    }

    fn find_open(&mut self, file: &R::File) -> io::Result<Found> {
        file.metadata().map(as_found)
    }

    fn find_folder(&mut self, folder: &R::File) -> io::Result<Found> {
        folder.metadata().map(as_found)
    }

    fn resolve(&mut self, name: &str) -> io::Result<PathBuf> {
        fs::canonicalize(self.rt, name)
    }

    fn open(&mut self, name: &str) -> io::Result<R::File> {
        OpenOptions::new().write(true).open(self.rt, name)
    }

    fn open_to_read(&mut self, name: &str) -> io::Result<R::File> {
        fs::open(self.rt, name)
    }

    fn read(&mut self, file: &mut R::File, most: usize) -> io::Result<Vec<u8>> {
        let length = file.metadata()?.len();
        first_bytes(self.rt.alloc(), file, most, length)
    }

    fn try_lock(&mut self, file: &mut R::File) -> io::Result<Lock> {
        file.take_lock()
    }

    fn open_or_create(&mut self, name: &str) -> io::Result<R::File> {
        OpenOptions::new()
            .write(true)
            .create(true)
            .open(self.rt, name)
    }

    fn create_new(&mut self, name: &str, mode: u32) -> io::Result<R::File> {
        OpenOptions::new()
            .write(true)
            .create_new(true)
            .mode(mode)
            .open(self.rt, name)
    }

    fn open_folder(&mut self, folder: &str) -> io::Result<R::File> {
        File::open(self.rt, folder)
    }

    fn set_owner(&mut self, name: &str, user: u32, group: u32) -> io::Result<()> {
        lchown(self.rt, name, Some(user), Some(group))
    }

    fn set_permissions(&mut self, file: &R::File, permissions: Permissions) -> io::Result<()> {
        file.set_permissions(permissions)
    }

    fn write(&mut self, file: &mut R::File, bytes: &[u8]) -> io::Result<()> {
        write_pieces(file, bytes)
    }

    fn seek(&mut self, file: &mut R::File, offset: u64) -> io::Result<()> {
        file.seek(SeekFrom::Start(offset)).map(|_| ())
    }

    fn set_length(&mut self, file: &R::File, length: u64) -> io::Result<()> {
        file.set_len(length)
    }

    fn sync(&mut self, file: &R::File) -> io::Result<()> {
        file.sync_all()
    }

    fn rename(&mut self, from: &str, to: &str) -> io::Result<()> {
        fs::rename(self.rt, from, to)
    }

    fn link(&mut self, from: &str, to: &str) -> io::Result<()> {
        fs::hard_link(self.rt, from, to)
    }

    fn sync_folder(&mut self, folder: &R::File) -> io::Result<()> {
        folder.sync_all()
    }

    fn remove(&mut self, name: &str) -> io::Result<()> {
        fs::remove_file(self.rt, name)
    }
}
