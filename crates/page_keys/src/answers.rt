ghost use Rattle.std.specs.Prelude.{◌≡◌};
ghost use Rattle.page_keys.specs.Putting.{is_put_fault};
ghost use Rattle.page_keys.specs.declared.answers.KeyError.TheVariants as failed;
ghost use Rattle.page_keys.specs.declared.answers.PutError.TheVariants as refused;

use tx_engine::Fault;
use tx_types::Memory;

/// Why a store was not opened.
#[derive(Clone, Copy, PartialEq, Eq)]
pub enum KeyError {
    /// The bytes of this page are no bucket. It is the least such page.
    Bucket(u32),
    /// The flash met a fault.
    Fault,
    /// There was no memory.
    Memory,
}

/// Why a put was not done.
#[derive(Clone, Copy, PartialEq, Eq)]
pub enum PutError {
    /// There is no change.
    Empty,
    /// The first index, from 0, of a change whose key stood earlier.
    Repeated(u32),
    /// The keys fall in this many pages, more than may be pending.
    Wide(u32),
    /// The least page that would not hold its entries.
    Bucket(u32),
    /// The least page of the keys that has no version left.
    Spent(u32),
    /// The flash met a fault.
    Fault,
    /// There was no memory.
    Memory,
}

impl PutError {
    /// Whether the flash met a fault.
    pub fn is_fault(self) -> bool
        ensures { result ≡ is_put_fault self }
    {
        matches!(self, PutError::Fault)
    }
}

impl From<Fault> for KeyError {
    ghost from_gives = { λ _ e. e ≡ failed.Fault };

    fn from(_: Fault) -> Self {
        KeyError::Fault
    }
}

impl From<Memory> for KeyError {
    ghost from_gives = { λ _ e. e ≡ failed.Memory };

    fn from(_: Memory) -> Self {
        KeyError::Memory
    }
}

impl From<Fault> for PutError {
    ghost from_gives = { λ _ e. e ≡ refused.Fault };

    fn from(_: Fault) -> Self {
        PutError::Fault
    }
}

impl From<Memory> for PutError {
    ghost from_gives = { λ _ e. e ≡ refused.Memory };

    fn from(_: Memory) -> Self {
        PutError::Memory
    }
}
