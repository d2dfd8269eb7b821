//! How a call fails by itself.
ghost use Rattle.mem_folder.specs.Telling.{IsFault};

use std::io::{Error, ErrorKind};

/// How a call fails, whatever is there.
#[derive(Clone, Copy)]
pub enum Fault {
    /// The disk is broken.
    Broken,
    /// Nothing may be written.
    ReadOnly,
    /// There is no leave for the call.
    Denied,
    /// This cannot be done at all.
    Unable,
}

impl Fault {
    /// The error that it gives.
    pub fn error(self) -> Error
        ensures { IsFault result }
    {
        Error::from(match self {
            Fault::Broken => ErrorKind::Other,
            Fault::ReadOnly => ErrorKind::ReadOnlyFilesystem,
            Fault::Denied => ErrorKind::PermissionDenied,
            Fault::Unable => ErrorKind::InvalidInput,
        })
    }
}
