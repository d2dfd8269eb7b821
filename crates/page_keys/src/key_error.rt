ghost use Rattle.std.specs.Prelude.{◌≡◌};
ghost use Rattle.page_keys.specs.declared.key_error.KeyServeError.TheVariants as failed;

use tx_types::Slot;

/// Why the commands of a key script were not all served.
#[derive(Clone, Copy, PartialEq, Eq)]
pub enum KeyServeError {
    /// The image that was handed in is not sound: the first law that it breaks, and the slot that the law names.
    Unsound { law: u8, slot: Slot },
    /// The bytes of this page of the image that was handed in are no bucket. It is the least such page.
    Bucket(u32),
    /// There was no memory. The last command may have been done and its reply not told: the flash is as that command
    /// left it.
    Memory,
}

impl From<tx_types::Memory> for KeyServeError {
    ghost from_gives = { λ _ e. e ≡ failed.Memory };

    fn from(_: tx_types::Memory) -> Self {
        KeyServeError::Memory
    }
}
