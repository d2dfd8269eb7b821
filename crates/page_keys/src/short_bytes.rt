ghost use Rattle.std.specs.Prelude.{◌≡◌, ◌≤◌, ◌++◌, ◌≢◌, ℕ, List, length, OnOk, OnErr, IfSome, IfNone, IsTrue, ◌↔◌, replicate};
ghost use Rattle.page_keys.specs.Buckets.{padded_short};

use std::marker::Model;
use tx_types::Memory;

/// The most bytes of a key, and of a value.
pub const MAX_SHORT: usize = 15;

/// The bytes of a short field of an entry: the number of its bytes, and room for all that it may have.
pub const FIELD_BYTES: usize = MAX_SHORT + 1;

/// Up to 15 bytes, seen as a list.
#[derive(Drop)]
pub struct ShortBytes {
    len: u8,
    /// Zeros behind the first `len` bytes.
    room: [u8; 15],
}

impl Model for ShortBytes {
    ghost use Rattle.std.specs.Prelude.{ℕ, List};

    ghost Value = { List ℕ };

    ghost use Rattle.page_keys.specs.ShortBytes.{short_of, ShortBytesInvariant};

    ghost view = { short_of };

    ghost invariant = { ShortBytesInvariant };
}

impl ShortBytes {
    /// These bytes.
    pub fn new(bytes: &[u8]) -> ShortBytes
        requires { length bytes.now ≤ MAX_SHORT }
        ensures { result ≡ bytes.now }
    {
        let mut room = [0; 15];
        let len = bytes.len();
        room[..len].copy_from_slice(bytes);
        ShortBytes {
            len: len as u8,
            room,
        }
    }

    /// What a field of an entry holds, where its bytes behind are zeros.
    pub(crate) fn read(field: &[u8]) -> Option<ShortBytes>
        requires { length field.now ≡ FIELD_BYTES }
        ensures some { IfSome result (λ s. field.now ≡ padded_short s) }
        ensures none { IfNone result ((s : List ℕ) → length s ≤ MAX_SHORT → field.now ≢ padded_short s) }
    {
        let len = field[0] as usize;
        if len > MAX_SHORT {
            return None;
        }
        let (used, behind) = field[1..].split_at(len);
        if !all_zero(behind) {
            return None;
        }
        Some(ShortBytes::new(used))
    }

    /// What a field of an entry holds that holds something.
    pub(crate) fn of_field(field: &[u8]) -> ShortBytes
        requires { (s : List ℕ) × (length s ≤ MAX_SHORT) × (field.now ≡ padded_short s) }
        ensures { (s : List ℕ) → length s ≤ MAX_SHORT → field.now ≡ padded_short s → result ≡ s }
    {
        let mut room = [0; 15];
        room.copy_from_slice(&field[1..]);
        ShortBytes {
            len: field[0],
            room,
        }
    }

    /// A copy of the bytes.
    pub(crate) fn copy(&self) -> ShortBytes
        ensures { result ≡ self.now }
    {
        ShortBytes {
            len: self.len,
            room: self.room,
        }
    }

    /// Appends the field of an entry that holds it.
    pub(crate) fn write(&self, out: &mut Vec<u8>) -> Result<(), Memory>
        ensures ok { OnOk result (out.new.items ≡ out.old.items ++ padded_short self.now) }
        ensures err { OnErr result (out.new.items ≡ out.old.items) }
    {
        let mut field = [0; FIELD_BYTES];
        field[0] = self.len;
        field[1..].copy_from_slice(&self.room);
        out.extend_from_slice(&field)?;
        Ok(())
    }

    /// All bytes.
    pub fn as_slice(&self) -> &[u8]
        ensures bytes { result.now ≡ self.now }
        ensures few { length result.now ≤ MAX_SHORT }
    {
        &self.room[..self.len as usize]
    }
}

/// Whether all bytes are zero. Each of them is looked at, which takes less time than to stop at the first other one.
pub(crate) fn all_zero(bytes: &[u8]) -> bool
    ensures { IsTrue result ↔ (bytes.now ≡ replicate (length bytes.now) 0) }
{
    let mut zero = true;
    for byte in bytes {
        zero &= *byte == 0;
    }
    zero
}
