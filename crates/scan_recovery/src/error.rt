ghost use Rattle.std.specs.Prelude.{◌≡◌};
ghost use Rattle.scan_recovery.specs.declared.error.RecoverError.TheVariants as error;

use flash_model::Broken;
use std::alloc::AllocError;
use tx_types::{Memory, Slot};

/// Why a device was not opened.
#[derive(Clone, Copy, PartialEq, Eq)]
pub enum RecoverError {
    /// A read met a fault, or power was off.
    Fault,
    /// The flash does not hold a sound image: the first law that is broken, by its number, and the
    /// slot that it names.
    Unsound { law: u8, slot: Slot },
    /// There was no memory.
    Memory,
}

impl From<Broken> for RecoverError {
    ghost from_gives = { λ _ e. e ≡ error.Fault };

    fn from(_: Broken) -> Self {
        RecoverError::Fault
    }
}

impl From<Memory> for RecoverError {
    ghost from_gives = { λ _ e. e ≡ error.Memory };

    fn from(_: Memory) -> Self {
        RecoverError::Memory
    }
}

impl From<AllocError> for RecoverError {
    ghost from_gives = { λ _ e. e ≡ error.Memory };

    fn from(_: AllocError) -> Self {
        RecoverError::Memory
    }
}
