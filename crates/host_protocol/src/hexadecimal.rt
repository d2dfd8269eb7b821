//! Hexadecimal digits, of which many are read before the first that is none is found out.
ghost use Rattle.std.specs.Prelude.{◌≡◌, ◌*◌, ◌≤◌, ◌<◌, true, false, ℕ, Ok, IsErr, OnOk, length};
ghost use Rattle.std.specs.Result.{result_ok};
ghost use Rattle.hex.specs.Hex.{decode_of, decode_pairs};
ghost use Rattle.host_protocol.specs.Digits.{digit_of, ReadsPair};
ghost use Rattle.host_protocol.specs.Reading.{AnswersAs};

use crate::digit_lanes::{LANES, decode_lanes};
use crate::error::LineError;
use tx_types::Memory;

/// What stands for the value of a byte that is no digit. The values of digits are below it.
const NO_DIGIT: u8 = 16;

/// The bytes that a text of digits tells, two digits for each. They are written into the room. A byte that is no digit
/// becomes a number past those of digits, and only the greatest number of many is looked at: so there is no branch for
/// a digit.
pub fn decode<'a>(text: &[u8], room: &'a mut Vec<u8>) -> Result<&'a [u8], LineError>
    ensures { AnswersAs (λ v. v.now) result (result_ok (decode_of text.now)) }
{
    if text.len() % 2 != 0 {
        return Err(LineError::Bad);
    }
    make_long(room, text.len() / 2)?;
    if decode_into(text, room) {
        Ok(room)
    } else {
        Err(LineError::Bad)
    }
}

/// Reads a text of digits into the room, and says whether it is one, and there is memory for the bytes that it tells.
#[inline(always)]
pub fn decode_digits(text: &[u8], room: &mut Vec<u8>) -> bool
    ensures { result ≡ true → decode_of text.now ≡ Ok room.new.items }
{
    if text.len() % 2 != 0 || make_long(room, text.len() / 2).is_err() {
        return false;
    }
    decode_into(text, room)
}

/// Makes the room as long as this.
#[inline(always)]
fn make_long(room: &mut Vec<u8>, count: usize) -> Result<(), Memory>
    ensures { OnOk result (length room.new.items ≡ count) }
{
    room.resize(count, 0)?;
    Ok(())
}

/// Reads a text twice as long as `bytes`, and says whether it is all digits. Where it is not, the bytes are no matter.
#[inline(always)]
fn decode_into(text: &[u8], bytes: &mut [u8]) -> bool
    requires { length text.now ≡ 2 * length bytes.old }
    ensures digits { result ≡ true → decode_pairs 0 text.now ≡ Ok bytes.new }
    ensures others { result ≡ false → IsErr (decode_pairs 0 text.now) }
{
    let blocks = bytes.len() / LANES;
    for block in 0..blocks {
        if !decode_lanes(text, block * LANES, bytes) {
            return false;
        }
    }
    decode_rest(text, blocks * LANES, bytes)
}

/// Reads what is left of the text, from the digits of the byte at an index on.
#[inline(always)]
fn decode_rest(text: &[u8], from: usize, bytes: &mut [u8]) -> bool
    requires length { length text.now ≡ 2 * length bytes.old }
    requires within { from ≤ length bytes.old }
    requires before { (k : ℕ) → k < from → ReadsPair text.now bytes.old k }
    ensures digits { result ≡ true → decode_pairs 0 text.now ≡ Ok bytes.new }
    ensures others { result ≡ false → IsErr (decode_pairs 0 text.now) }
{
    let mut greatest: u8 = 0;
    for i in from..bytes.len() {
        let high = digit_value(text[2 * i]);
        let low = digit_value(text[2 * i + 1]);
        greatest = greatest.max(high).max(low);
        bytes[i] = high.wrapping_mul(16).wrapping_add(low);
    }
    greatest < NO_DIGIT
}

/// The value of a digit, and `NO_DIGIT` for any other byte.
fn digit_value(byte: u8) -> u8
    ensures { result ≡ digit_of byte }
{
    match byte {
        b'0'..=b'9' => byte - b'0',
        b'a'..=b'f' => byte - b'a' + 10,
        b'A'..=b'F' => byte - b'A' + 10,
        _ => NO_DIGIT,
    }
}
