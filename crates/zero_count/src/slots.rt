ghost use Rattle.std.specs.Prelude.{◌≡◌, ◌+◌, ◌≤◌, ◌<◌, ◌-◌, length, take};
ghost use Rattle.zero_count.specs.Zeros.{counted, number_of, is_whole, number_bytes, max_own_bytes};

use crate::count_zeros;

/// The bytes of a number.
const NUMBER_BYTES: usize = 4;

/// The number in the last four bytes of a slot.
pub fn number_of(slot: &[u8]) -> u32
    requires { number_bytes ≤ length slot.now }
    ensures { result ≡ number_of slot.now }
{
    let number = &slot[slot.len() - NUMBER_BYTES..];
    u32::from_le_bytes([number[0], number[1], number[2], number[3]])
}

/// Whether the number of a slot is that of the zero bits of its own bytes.
pub fn is_whole(slot: &[u8]) -> bool
    requires least { number_bytes ≤ length slot.now }
    requires most { length slot.now ≤ max_own_bytes + number_bytes }
    ensures { result ≡ is_whole slot.now }
{
    number_of(slot) == count_zeros(&slot[..slot.len() - NUMBER_BYTES])
}

/// Writes the number of zero bits of its own bytes into a slot.
pub fn write_number(slot: &mut [u8])
    requires least { number_bytes ≤ length slot.old }
    requires most { length slot.old ≤ max_own_bytes + number_bytes }
    ensures { slot.new ≡ counted (take (length slot.old - number_bytes) slot.old) }
{
    let own_bytes = slot.len() - NUMBER_BYTES;
    let number = count_zeros(&slot[..own_bytes]);
    slot[own_bytes..].copy_from_slice(&number.to_le_bytes());
}
