//! Hexadecimal digits, 32 at a time.
ghost use Rattle.std.specs.Prelude.{◌≡◌, ◌+◌, ◌*◌, ◌≤◌, ◌<◌, true, false, ℕ, length, map};
ghost use Rattle.host_protocol.specs.Digits.{digit_of, ReadsPair, HasOther};

use std::simd::prelude::*;

/// The bytes that are read at once, from twice as many digits.
pub const LANES: usize = 16;

/// The values of digits, lane by lane, and 16 for any other byte. Of a byte that is no numeral `number` is 16 at least,
/// and of one that is no letter of a digit `letter` is 16.
#[inline(always)]
fn digit_values(digits: u8x16) -> u8x16
    ensures { result ≡ map digit_of digits }
{
    let past_nine = digits - u8x16::splat(b'9' + 1);
    let number = past_nine.simd_max(u8x16::splat(6)) + u8x16::splat(10);
    let past_a = (digits | u8x16::splat(0x20)) - u8x16::splat(b'a');
    let letter = past_a.simd_min(u8x16::splat(6)) + u8x16::splat(10);
    number.simd_min(letter)
}

/// Reads the digits of the 16 bytes from an index on, and says whether they are all digits. The bytes before the index
/// are read already.
#[inline(always)]
pub fn decode_lanes(text: &[u8], at: usize, bytes: &mut [u8]) -> bool
    requires text { 2 * at + 32 ≤ length text.now }
    requires bytes { at + LANES ≤ length bytes.old }
    requires before { (k : ℕ) → k < at → ReadsPair text.now bytes.old k }
    ensures digits { result ≡ true → (k : ℕ) → k < at + LANES → ReadsPair text.now bytes.new k }
    ensures others { result ≡ false → HasOther text.now }
    ensures length { length bytes.new ≡ length bytes.old }
{
    let first = u8x16::from_slice(&text[2 * at..]);
    let second = u8x16::from_slice(&text[2 * at + LANES..]);
    let (high, low) = first.deinterleave(second);
    let high = digit_values(high);
    let low = digit_values(low);
    let pairs = high * u8x16::splat(16) + low;
    pairs.copy_to_slice(&mut bytes[at..]);
    let others = high.simd_max(low).simd_ge(u8x16::splat(16));
    others.to_bitmask() == 0
}
