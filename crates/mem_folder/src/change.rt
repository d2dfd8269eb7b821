//! What can be done to a folder.

/// Which of the versions a loss of power leaves that there were since the last sync.
#[derive(Clone, Copy)]
pub enum Left {
    /// The newest of them.
    Newest,
    /// The one that was synced.
    Synced,
}

/// One change of a folder. Files are numbered, and a number is never used again.
#[derive(Drop)]
pub enum Change {
    /// A new file of this number came to a name, empty.
    Made(String, u64),
    /// A name has no file any more.
    Removed(String),
    /// The file of this number went from the first name to the second.
    Moved(String, String, u64),
    /// A name got the file of this number, which keeps its other names.
    Linked(String, u64),
    /// A file got these bytes.
    Wrote(u64, Vec<u8>),
    /// The bytes of a file were synced.
    Synced(u64),
    /// The names were synced.
    SyncedNames,
    /// Power was lost. This is left of the names, and that of the bytes.
    Lost(Left, Left),
}
