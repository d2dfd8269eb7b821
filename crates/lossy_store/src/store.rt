ghost use Rattle.std.specs.Prelude.{◌≡◌, [], length, true, false, Err};
ghost use Rattle.file_flash.specs.Files.{LeavesBytes, faults_after};
ghost use Rattle.file_flash.specs.Opening.{IsDurable};
ghost use Rattle.lossy_store.specs.Writes.{file_of, bytes_in};

use crate::write::{Write, lay_all, note};
use file_flash::{Store, StoreError};
use std::alloc::Global;

/// Which call of a store fails, counted from 1, and how many bytes it has written then at most, if it is a write.
#[derive(Clone, Copy)]
pub struct Failure {
    pub call: u64,
    pub bytes: usize,
}

/// A file in memory. A write is durable once a sync is answered Ok; but as long as the system may hold copies no sync
/// makes anything durable. It may at first, and from a sync on that fails, until all bytes are written.
#[derive(Drop)]
pub struct LossyStore {
    alloc: Global,
    /// The bytes that are durable.
    durable: Vec<u8>,
    /// What was written since, the last of it last.
    writes: Vec<Write>,
    /// Whether the system may hold copies.
    copies: bool,
    /// How many calls were made, and how many of them failed.
    calls: u64,
    faults: u64,
    failure: Option<Failure>,
}

/// Whether the system may hold copies once so many bytes of a file of this length are written.
fn may_hold(copies: bool, written: usize, long: usize) -> bool
    ensures none { copies ≡ false → result ≡ false }
    ensures all { written ≡ long → result ≡ false }
{
    copies && written != long
}

impl LossyStore {
    /// A file of these bytes, which are durable.
    pub fn new(alloc: Global, bytes: Vec<u8>, failure: Option<Failure>) -> LossyStore
        ensures durable { result.durable ≡ bytes }
        ensures writes { result.writes.items ≡ [] }
        ensures copies { result.copies ≡ true }
    {
        LossyStore {
            alloc,
            durable: bytes,
            writes: Vec::new(alloc),
            copies: true,
            calls: 0,
            faults: 0,
            failure,
        }
    }

    /// A new file of these bytes, which are durable, and of which the system holds no copies.
    pub fn new_durable(alloc: Global, bytes: Vec<u8>, failure: Option<Failure>) -> LossyStore
        ensures { IsDurable bytes.items (file_of result.durable.items result.writes.items result.copies) }
    {
        LossyStore {
            alloc,
            durable: bytes,
            writes: Vec::new(alloc),
            copies: false,
            calls: 0,
            faults: 0,
            failure,
        }
    }

    /// How many calls were made of the file.
    pub fn calls(&self) -> u64
        ensures { result ≡ self.now.calls }
    {
        self.calls
    }

    /// How many writes are not durable.
    pub fn write_count(&self) -> usize
        ensures { result ≡ length self.now.writes.items }
    {
        self.writes.len()
    }

    /// How many bytes one of them has, and 0 where there is none.
    pub fn write_bytes(&self, number: usize) -> usize
        ensures { result ≡ bytes_in self.now.writes.items number }
    {
        match self.writes.get(number) {
            Some(write) => write.bytes.len(),
            None => 0,
        }
    }

    /// The bytes that are durable, which a loss of power may leave.
    pub fn durable(&self) -> &[u8]
        ensures durable { result.now ≡ self.now.durable.items }
        ensures left { LeavesBytes (file_of self.now.durable.items self.now.writes.items self.now.copies) result.now }
    {
        self.durable.as_slice()
    }

    /// Puts bytes of a write, from one of its bytes up to another, over bytes that a loss of power may leave. Then it
    /// may leave the outcome, too.
    pub fn keep(&self, left: &mut [u8], number: usize, from: usize, upto: usize)
        ensures { LeavesBytes (file_of self.now.durable.items self.now.writes.items self.now.copies) left.old →
            LeavesBytes (file_of self.now.durable.items self.now.writes.items self.now.copies) left.new }
    {
        let Some(write) = self.writes.get(number) else {
            return;
        };
        let first = write.offset.saturating_add(from).min(left.len());
        let end = write.offset.saturating_add(upto).min(left.len());
        for at in first..end {
            left[at] = write.over(at, left[at]);
        }
    }

    /// Counts a call. Tells how many bytes it writes at most, if it fails.
    fn begin(&mut self) -> Option<usize>
        ensures durable { self.new.durable ≡ self.old.durable }
        ensures writes { self.new.writes ≡ self.old.writes }
        ensures copies { self.new.copies ≡ self.old.copies }
        ensures faults { self.new.faults ≡ self.old.faults }
    {
        self.calls = self.calls.saturating_add(1);
        match self.failure {
            Some(failure) if failure.call == self.calls => Some(failure.bytes),
            _ => None,
        }
    }

    /// The answer of a call that fails, which is counted.
    fn fail<T>(&mut self) -> Result<T, StoreError>
        ensures answer { result ≡ Err (record {}) }
        ensures counts { self.new ≡ record self.old { faults = faults_after result self.old.faults } }
    {
        self.faults = self.faults.saturating_add(1);
        Err(StoreError)
    }
}

impl Store for LossyStore {
    ghost use Rattle.std.specs.Prelude.{Some};
    ghost use Rattle.lossy_store.specs.Writes.{file_of};

    ghost told = { λ s. Some (file_of s.durable.items s.writes.items s.copies) };

    ghost faults = { λ s. s.faults };

    fn read_all(&mut self, alloc: Global) -> Result<Vec<u8>, StoreError> {
        if self.begin().is_some() {
            return self.fail();
        }
        let Ok(mut bytes) = Vec::from_slice(alloc, self.durable.as_slice()) else {
            return self.fail();
        };
        lay_all(&mut bytes, self.writes.as_slice());
        Ok(bytes)
    }

    fn write_at(&mut self, offset: u64, bytes: &[u8]) -> Result<(), StoreError> {
        if let Some(most) = self.begin() {
            let part = &bytes[..most.min(bytes.len())];
            let _ = note(self.alloc, &mut self.writes, offset as usize, part);
            return self.fail();
        }
        let Ok(()) = note(self.alloc, &mut self.writes, offset as usize, bytes) else {
            return self.fail();
        };
        self.copies = may_hold(self.copies, bytes.len(), self.durable.len());
        Ok(())
    }

    fn sync(&mut self) -> Result<(), StoreError> {
        if self.begin().is_some() {
            self.copies = true;
            return self.fail();
        }
        if self.copies {
            return Ok(());
        }
        lay_all(&mut self.durable, self.writes.as_slice());
        self.writes.clear();
        Ok(())
    }
}
