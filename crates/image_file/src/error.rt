ghost use Rattle.std.specs.Prelude.{◌≡◌};
ghost use Rattle.image_file.specs.declared.error.ImageError.TheVariants as error;

use std::alloc::{AllocError, AllocFailed};
use tx_types::{ConfigError, Memory, Slot};

/// The first rule that the bytes of an image file break, or want of memory.
#[derive(Clone, Copy, PartialEq, Eq)]
pub enum ImageError {
    /// There are at least 64 bytes.
    Short,
    /// The file begins with `TXFLASH1` or `TXFLASH2`.
    Magic,
    /// The protocol is 1 or 2.
    Protocol,
    /// The reserved bytes of the header are 0.
    Reserved,
    /// A file that begins with `TXFLASH2` allows from 1 to 1024 blocks to be retired, and no more are.
    Allowance,
    /// The numbers of the header are those of a device.
    Config(ConfigError),
    /// The file has as many bytes as the header says.
    Length,
    /// The state of each slot is 0, 1 or 2. This is the least slot where it is not.
    SlotState(Slot),
    /// The bytes of a blank slot are all 0xff, and those of a damaged one all 0x00. This is the least
    /// slot where they are not.
    SlotBytes(Slot),
    /// There was no memory.
    Memory,
}

impl From<ConfigError> for ImageError {
    ghost from_gives = { λ rule e. e ≡ error.Config rule };

    fn from(rule: ConfigError) -> Self {
        ImageError::Config(rule)
    }
}

impl From<Memory> for ImageError {
    ghost from_gives = { λ _ e. e ≡ error.Memory };

    fn from(_: Memory) -> Self {
        ImageError::Memory
    }
}

impl From<AllocError> for ImageError {
    ghost from_gives = { λ _ e. e ≡ error.Memory };

    fn from(_: AllocError) -> Self {
        ImageError::Memory
    }
}

impl<T: Drop> From<AllocFailed<T>> for ImageError {
    ghost from_gives = { λ _ e. e ≡ error.Memory };

    fn from(_: AllocFailed<T>) -> Self {
        ImageError::Memory
    }
}
