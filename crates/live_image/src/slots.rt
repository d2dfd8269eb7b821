ghost use Rattle.std.specs.Prelude.{◌≡◌, ◌↔◌, ◌≤◌, ◌+◌, length, IsTrue};
ghost use Rattle.zero_count.specs.Zeros.{number_bytes, max_own_bytes};
ghost use Rattle.live_image.specs.Slots.{live_seen, IsCounted};

use flash_model::Seen;
use zero_count::{count_zeros, number_of};

/// The bytes of a number of zero bits.
const NUMBER_BYTES: usize = 4;

/// The last byte of a damaged slot.
const DAMAGE_BYTE: u8 = 0x80;

/// How a slot reads.
pub fn live_seen(slot: &[u8]) -> Seen
    requires least { number_bytes ≤ length slot.now }
    requires most { length slot.now ≤ max_own_bytes + number_bytes }
    ensures { result ≡ live_seen slot.now }
{
    if count_zeros(&slot[..slot.len() - NUMBER_BYTES]) >= number_of(slot) {
        Seen::Complete
    } else if slot[slot.len() - 1] == DAMAGE_BYTE {
        Seen::Damaged
    } else {
        Seen::Blank
    }
}

/// Whether a slot has no more zero bits than its number says.
pub fn is_counted(slot: &[u8]) -> bool
    requires least { number_bytes ≤ length slot.now }
    requires most { length slot.now ≤ max_own_bytes + number_bytes }
    ensures { IsTrue result ↔ IsCounted slot.now }
{
    count_zeros(&slot[..slot.len() - NUMBER_BYTES]) <= number_of(slot)
}
