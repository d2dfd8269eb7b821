//! A file of the system, as a store. This is what is trusted of a file in use: each method is one call of the library,
//! but for a reading, which asks for the length first.
ghost use Rattle.std.specs.Prelude.{◌≡◌, None};
ghost use Rattle.std.specs.Result.{is_err};
ghost use Rattle.file_flash.specs.Files.{faults_after};

use crate::{Store, StoreError};
use std::alloc::Global;
use std::fs::File;
use std::io;
use std::os::unix::fs::FileExt;

/// A file of the system that is open for reading and writing. It tells nothing but how many of its calls failed.
#[derive(Drop)]
pub struct RealStore {
    file: File,
    faults: u64,
}

impl RealStore {
    /// The store that is this file, of which no call has failed. It is read and written at offsets, wherever the file's
    /// own position is.
    pub fn new(file: File) -> RealStore
        ensures { result.faults ≡ 0 }
    {
        RealStore { file, faults: 0 }
    }
}

/// Reads as many bytes as a file has, from its beginning.
fn read_whole(file: &File, bytes: &mut Vec<u8>) -> io::Result<()> {
    let length = file.metadata()?.len();
    bytes.resize(length as usize, 0)?;
    file.read_exact_at(bytes, 0)
}

/// The answer of a call. A failure is counted.
fn answer(done: io::Result<()>, faults: &mut u64) -> Result<(), StoreError>
    ensures done { is_err result ≡ is_err done }
    ensures counts { faults.new ≡ faults_after result faults.old }
{
    if done.is_err() {
        *faults = faults.saturating_add(1);
        return Err(StoreError);
    }
    Ok(())
}

impl Store for RealStore {
    ghost told = { λ _. None };

    ghost faults = { λ s. s.faults };

    fn read_all(&mut self, alloc: Global) -> Result<Vec<u8>, StoreError> {
        let mut bytes = Vec::new(alloc);
        let read = read_whole(&self.file, &mut bytes);
        if answer(read, &mut self.faults).is_err() {
            drop(bytes);
            return Err(StoreError);
        }
        Ok(bytes)
    }

    fn write_at(&mut self, offset: u64, bytes: &[u8]) -> Result<(), StoreError> {
        answer(self.file.write_all_at(bytes, offset), &mut self.faults)
    }

    fn sync(&mut self) -> Result<(), StoreError> {
        answer(self.file.sync_data(), &mut self.faults)
    }
}
