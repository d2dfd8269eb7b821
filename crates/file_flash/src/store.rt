ghost use Rattle.std.specs.Prelude.{◌≡◌, ℕ, ◌+◌, ◌≤◌, length, Option, IfOk, IfSome};
ghost use Rattle.file_flash.specs.Files.{FileState, WritesFile, SyncsFile, ReadsFile, BothTell, faults_after};

use std::alloc::Global;

/// A call of the file failed.
#[derive(Clone, Copy, PartialEq, Eq)]
pub struct StoreError;

/// An open file of fixed length, and what a loss of power may leave of it. Nobody else writes the file.
pub trait Store {
    /// What a loss of power may leave of the file, if the store tells.
    ghost told: { Self → Option FileState };

    /// How many of its calls failed.
    ghost faults: { Self → ℕ };

    /// Reads all bytes.
    fn read_all(&mut self, alloc: Global) -> Result<Vec<u8>, StoreError>
        ensures same { told self.new ≡ told self.old }
        ensures reads { IfOk result (λ bytes. IfSome (told self.old) (ReadsFile bytes.items)) }
        ensures counts { faults self.new ≡ faults_after result (faults self.old) };

    /// Writes bytes from an offset on, all of them within the file. A write that fails may have written any of them.
    fn write_at(&mut self, offset: u64, bytes: &[u8]) -> Result<(), StoreError>
        requires within { IfSome (told self.old) (λ file. offset + length bytes.now ≤ length file.values) }
        ensures writes { BothTell (WritesFile offset bytes.now result) (told self.old) (told self.new) }
        ensures counts { faults self.new ≡ faults_after result (faults self.old) };

    /// Makes durable what was written. A sync that fails makes nothing durable, and no later one need, until all bytes
    /// are written again.
    fn sync(&mut self) -> Result<(), StoreError>
        ensures syncs { BothTell (SyncsFile result) (told self.old) (told self.new) }
        ensures counts { faults self.new ≡ faults_after result (faults self.old) };
}
