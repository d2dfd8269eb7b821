ghost use Rattle.std.specs.Prelude.{◌≡◌, if◌then◌else◌, IfOk, OnOk, OnErr, None, Ok, Err};
ghost use Rattle.std.specs.Option.{option_copied};
ghost use Rattle.durable_folder.specs.Histories.{Rests};
ghost use Rattle.desk_io.specs.Desk.{Loads, Saves, Says, counted, file_at, as_before, with_file};
ghost use Rattle.desk_io.specs.Disk.{LoadsOnDisk, SavesOnDisk};
ghost use Rattle.desk_io.specs.InMemory.{open_desk, empty_desk, fails_next, after_put, after_call, after_starving, kept_of, LoadsInMemory, SavesInMemory, SaysInMemory};

use crate::{Desk, LoadError, MAX_FILE_BYTES, SinkError};
use std::alloc::{AllocError, AllocFailed, Global};
use std::collections::BTreeMap;
use std::marker::Model;

/// There was no memory for what was asked. It is a type of this crate, which stands on no other one here but
/// durable_folder.
#[derive(Clone, Copy, PartialEq, Eq)]
pub struct Memory;

impl From<AllocError> for Memory {
    fn from(_: AllocError) -> Self {
        Memory
    }
}

impl<T: Drop> From<AllocFailed<T>> for Memory {
    fn from(_: AllocFailed<T>) -> Self {
        Memory
    }
}

/// A desk in memory, on which chosen calls fail.
#[derive(Drop)]
pub struct MemDesk {
    alloc: Global,
    files: BTreeMap<String, Vec<u8>>,
    said: Vec<u8>,
    /// The numbers of the calls that are to fail, from 1.
    fails: Vec<u32>,
    /// How many calls were asked for.
    asked: u64,
    /// How many calls were made.
    calls: u64,
    /// How many of them failed.
    faults: u64,
}

impl Model for MemDesk {
    ghost use Rattle.desk_io.specs.InMemory.{MemDeskState, memory_desk_code};

    ghost Value = { MemDeskState };

    ghost coded = { memory_desk_code };

    ghost use Rattle.desk_io.specs.Kept.{desk_of};

    ghost view = { desk_of };
}

impl MemDesk {
    /// A desk without files, on which the calls of these numbers fail, the first of which is 1.
    pub fn new(alloc: Global, fails: Vec<u32>) -> MemDesk
        ensures { result ≡ empty_desk fails.items }
    {
        MemDesk {
            alloc,
            files: BTreeMap::new(alloc),
            said: Vec::new(alloc),
            fails,
            asked: 0,
            calls: 0,
            faults: 0,
        }
    }

    /// Puts a file there, in place of one of its name. This is no call of the desk. It answers
    /// `Memory` where there is no memory for a copy of the name and of the bytes; then nothing has
    /// changed.
    pub fn put_file(&mut self, name: &str, bytes: &[u8]) -> Result<(), Memory>
        ensures ok { OnOk result (self.new ≡ after_put name.now bytes.now self.old) }
        ensures err { OnErr result (self.new ≡ self.old) }
    {
        let key = String::from_str(self.alloc, name)?;
        let copy = copy(self.alloc, bytes)?;
        self.files.insert(key, copy)?;
        Ok(())
    }

    /// The bytes of the file of this name, if there is one.
    pub fn file(&self, name: &str) -> Option<&[u8]>
        ensures { option_copied result ≡ file_at self.now.contents.files name.now }
    {
        let bytes = self.files.get(name)?;
        Some(bytes.as_slice())
    }

    /// All bytes that were said.
    pub fn said(&self) -> &[u8]
        ensures { result.now ≡ self.now.contents.said }
    {
        self.said.as_slice()
    }

    /// Whether the next call is to fail.
    fn fails_next(&self) -> bool
        ensures { result ≡ fails_next self.now }
    {
        let number = self.calls.saturating_add(1);
        self.fails.iter().any(|n| u64::from(*n) == number)
    }

    /// Counts a call, and a fault where it failed.
    fn count(&mut self, fails: bool)
        ensures { self.new ≡ after_call as_before fails self.old }
    {
        self.asked = self.asked.saturating_add(1);
        self.calls = self.calls.saturating_add(1);
        if fails {
            self.faults = self.faults.saturating_add(1);
        }
    }

    /// Counts a call that was asked for and ran out of memory.
    fn starve(&mut self)
        ensures { self.new ≡ after_starving self.old }
    {
        self.asked = self.asked.saturating_add(1);
    }

    /// The answer of a save or a say that kept what it was to keep, which counts as a call.
    fn answer(&mut self, fails: bool) -> Result<(), SinkError>
        ensures state { self.new ≡ after_call as_before fails self.old }
        ensures answer { result ≡ (if fails then Err SinkError.Failed else Ok tt) }
    {
        self.count(fails);
        if fails {
            Err(SinkError::Failed)
        } else {
            Ok(())
        }
    }
}

/// A copy of the bytes.
fn copy(alloc: Global, bytes: &[u8]) -> Result<Vec<u8>, Memory>
    ensures { IfOk result (λ copy. copy.items ≡ bytes.now) }
{
    let mut copy = Vec::new(alloc);
    copy.extend_from_slice(bytes)?;
    Ok(copy)
}

/// The bytes that a call keeps: the first half, rounded down, where it fails, else all.
fn kept_part(bytes: &[u8], fails: bool) -> &[u8]
    ensures { result.now ≡ kept_of bytes.now fails }
{
    if fails {
        &bytes[..bytes.len() / 2]
    } else {
        bytes
    }
}

impl Desk for MemDesk {
    ghost state = { open_desk };

    ghost disk = { λ _. None };

    fn load(&mut self, name: &str) -> Result<Vec<u8>, LoadError>
        ensures loads { Loads (open_desk self.old) (open_desk self.new) name.now result }
        ensures exact { LoadsInMemory self.old self.new result }
        ensures disk { LoadsOnDisk name.now result None None }
    {
        if self.fails_next() {
            self.count(true);
            return Err(LoadError::Failed);
        }
        let Some(bytes) = self.file(name) else {
            self.count(false);
            return Err(LoadError::Missing);
        };
        if bytes.len() > MAX_FILE_BYTES {
            self.count(false);
            return Err(LoadError::TooLong);
        }
        let Ok(loaded) = copy(self.alloc, bytes) else {
            self.starve();
            return Err(LoadError::Memory);
        };
        self.count(false);
        Ok(loaded)
    }

    fn save(&mut self, name: &str, bytes: &[u8]) -> Result<(), SinkError>
        ensures saves { Saves (open_desk self.old) (open_desk self.new) name.now bytes.now result }
        ensures exact { SavesInMemory self.old self.new name.now bytes.now result }
        ensures disk { SavesOnDisk name.now bytes.now result None None }
    {
        let fails = self.fails_next();
        let Ok(()) = self.put_file(name, kept_part(bytes, fails)) else {
            self.starve();
            return Err(SinkError::Memory);
        };
        self.answer(fails)
    }

    fn say(&mut self, bytes: &[u8]) -> Result<(), SinkError>
        ensures says { Says (open_desk self.old) (open_desk self.new) bytes.now result }
        ensures exact { SaysInMemory self.old self.new bytes.now result }
        ensures disk { Rests None None }
    {
        let fails = self.fails_next();
        let Ok(()) = self.said.extend_from_slice(kept_part(bytes, fails)) else {
            self.starve();
            return Err(SinkError::Memory);
        };
        self.answer(fails)
    }
}
