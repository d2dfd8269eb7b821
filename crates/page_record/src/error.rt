use thiserror::Error;

/// The first rule that the bytes of a spare area break.
#[derive(Clone, Copy, Debug, PartialEq, Eq, Error)]
pub enum SpareError {
    /// The area begins with `TXFR`.
    #[error("mark")]
    Mark,
    /// The format is 1 or 2.
    #[error("format")]
    Format,
    /// The protocol is the one that is read for.
    #[error("protocol")]
    Protocol,
    /// The flags are 0, or in format 2 1 for a discard.
    #[error("flags")]
    Flags,
    /// The version and the link version are from 1 to `tx_types::MAX_VERSION`.
    #[error("version")]
    Version,
    /// The back version is 0 under Simple Cyclic Commit, and below the version under Back Pointer
    /// Cyclic Commit.
    #[error("back")]
    Back,
    /// In format 2 the count is from 1 to `tx_types::MAX_PENDING`.
    #[error("count")]
    Count,
    /// The rest of the bytes is 0, in format 1 those of the count too.
    #[error("rest")]
    Rest,
}
