//! What is open in a folder.

/// An open file.
#[derive(Drop)]
pub struct MemFile {
    /// Which file it is.
    pub(crate) number: u64,
    /// Where the next bytes go or come from.
    pub(crate) offset: u64,
    /// Whether it holds the lock of the file.
    pub(crate) is_held: bool,
}

/// An open folder.
#[derive(Drop)]
pub struct MemPlace {
    pub(crate) name: String,
}
