ghost use Rattle.std.specs.Prelude.{Option};
ghost use Rattle.durable_folder.specs.Histories.{History, Rests};
ghost use Rattle.desk_io.specs.Desk.{DeskState, Loads, Saves, Says};
ghost use Rattle.desk_io.specs.Disk.{LoadsOnDisk, SavesOnDisk};

/// The most bytes of a file that a desk loads.
pub const MAX_FILE_BYTES: usize = 134217728;

/// Why a file was not loaded.
#[derive(Clone, Copy, PartialEq, Eq)]
pub enum LoadError {
    /// There is no file of this name.
    Missing,
    /// The file has more than `MAX_FILE_BYTES` bytes.
    TooLong,
    /// The desk met a fault.
    Failed,
    /// There was no memory for the bytes.
    Memory,
}

/// Why bytes were not saved, or not all of them were said.
#[derive(Clone, Copy, PartialEq, Eq)]
pub enum SinkError {
    /// The desk met a fault. The file that was to be saved is not known, or any first part of the
    /// bytes was said.
    Failed,
    /// There was no memory. No file and no text has changed.
    Memory,
}

/// Files that are loaded and saved by their names, and a place where bytes are said.
pub trait Desk {
    /// What the desk is: what it tells of its files, of what was said on it and of the calls that it
    /// was asked for, if it does, and how many of its calls failed.
    ghost state: { Self → DeskState };

    /// The states through which the files went that a loss of power leaves, if the desk tells them.
    ghost disk: { Self → Option History };

    /// The bytes of a file, of which there are at most `MAX_FILE_BYTES`.
    fn load(&mut self, name: &str) -> Result<Vec<u8>, LoadError>
        ensures loads { Loads (state self.old) (state self.new) name.now result }
        ensures disk { LoadsOnDisk name.now result (disk self.old) (disk self.new) };

    /// Makes these the bytes of the file of this name, whether or not there was one.
    fn save(&mut self, name: &str, bytes: &[u8]) -> Result<(), SinkError>
        ensures saves { Saves (state self.old) (state self.new) name.now bytes.now result }
        ensures disk { SavesOnDisk name.now bytes.now result (disk self.old) (disk self.new) };

    /// Says bytes, after all that was said before.
    fn say(&mut self, bytes: &[u8]) -> Result<(), SinkError>
        ensures says { Says (state self.old) (state self.new) bytes.now result }
        ensures disk { Rests (disk self.old) (disk self.new) };
}
