//! Lines of a few numbers behind some words.
ghost use Rattle.std.specs.Prelude.{◌≡◌, ◌+◌, ◌*◌, ◌<◌, ◌≤◌, ◌∷◌, ◌++◌, [], length, map, vec_len, vec_capacity, OnOk, OnErr};
ghost use Rattle.std.specs.Fmt.{decimal};
ghost use Rattle.host_protocol.specs.Replies.{line_of, moved_words};

use itoa::Buffer;
use tx_types::Memory;

/// The most bytes of a number of 32 bits with a space before it.
pub(crate) const NUMBER_BYTES: usize = 11;

/// Appends the line of these words and of the numbers behind them, or nothing where there is no memory.
#[inline(always)]
pub fn add_line(words: &[u8], numbers: &[u32], out: &mut Vec<u8>) -> Result<(), Memory>
    requires { length words.now + NUMBER_BYTES * length numbers.now < 100 }
    ensures ok { OnOk result
        (out.new.items ≡ out.old.items ++ line_of (words.now ∷ map decimal numbers.now)) }
    ensures err { OnErr result (out.new.items ≡ out.old.items) }
{
    out.reserve(words.len() + NUMBER_BYTES * numbers.len() + 1)?;
    add_words(words, out);
    for number in numbers {
        add_number(*number, out);
    }
    out.push_reserved(b'\n');
    Ok(())
}

/// Appends the line of these words and of a number, or nothing where there is no memory.
#[inline(always)]
pub fn add_line_of_one(words: &[u8], number: u32, out: &mut Vec<u8>) -> Result<(), Memory>
    requires { length words.now < 60 }
    ensures ok { OnOk result
        (out.new.items ≡ out.old.items ++ line_of (words.now ∷ decimal number ∷ [])) }
    ensures err { OnErr result (out.new.items ≡ out.old.items) }
{
    add_line(words, &[number], out)
}

/// Appends the line of these words and of two numbers, or nothing where there is no memory.
#[inline(always)]
pub fn add_line_of_two(
    words: &[u8],
    first: u32,
    second: u32,
    out: &mut Vec<u8>,
) -> Result<(), Memory>
    requires { length words.now < 60 }
    ensures ok { OnOk result
        (out.new.items ≡ out.old.items ++ line_of (words.now ∷ decimal first ∷ decimal second ∷ [])) }
    ensures err { OnErr result (out.new.items ≡ out.old.items) }
{
    add_line(words, &[first, second], out)
}

/// Appends the line of these words and of three numbers, or nothing where there is no memory.
#[inline(always)]
pub fn add_line_of_three(
    words: &[u8],
    first: u32,
    second: u32,
    third: u32,
    out: &mut Vec<u8>,
) -> Result<(), Memory>
    requires { length words.now < 60 }
    ensures ok { OnOk result (out.new.items ≡ out.old.items
        ++ line_of (words.now ∷ decimal first ∷ decimal second ∷ decimal third ∷ [])) }
    ensures err { OnErr result (out.new.items ≡ out.old.items) }
{
    add_line(words, &[first, second, third], out)
}

/// The most bytes of the line of how many transactions went on, and how many went, but for the numbers.
const MOVED_BYTES: usize = 15;

/// Appends the line of how many transactions went on, and how many went, or nothing where there is no memory.
pub fn add_moved(moved: u32, finished: u32, out: &mut Vec<u8>) -> Result<(), Memory>
    ensures ok { OnOk result (out.new.items ≡ out.old.items ++ line_of (moved_words moved finished)) }
    ensures err { OnErr result (out.new.items ≡ out.old.items) }
{
    out.reserve(MOVED_BYTES + 2 * NUMBER_BYTES)?;
    out.extend_from_slice(b"moved").unwrap();
    add_number(moved, out);
    out.extend_from_slice(b" finished").unwrap();
    add_number(finished, out);
    out.push_reserved(b'\n');
    Ok(())
}

/// Appends words, for which there is room. They are so few bytes that each is appended by itself.
#[inline(always)]
fn add_words(words: &[u8], out: &mut Vec<u8>)
    requires { vec_len out.old + length words.now ≤ vec_capacity out.old }
    ensures items { out.new.items ≡ out.old.items ++ words.now }
    ensures len { vec_len out.new ≡ vec_len out.old + length words.now }
    ensures capacity { vec_capacity out.new ≡ vec_capacity out.old }
{
    for byte in words {
        out.push_reserved(*byte);
    }
}

/// Appends a space and a number, for which there is room.
#[inline(always)]
pub fn add_number(number: u32, out: &mut Vec<u8>)
    requires { vec_len out.old + NUMBER_BYTES ≤ vec_capacity out.old }
    ensures items { out.new.items ≡ out.old.items ++ 32 ∷ decimal number }
    ensures len { vec_len out.new ≤ vec_len out.old + NUMBER_BYTES }
    ensures capacity { vec_capacity out.old ≤ vec_capacity out.new }
{
    out.push_reserved(b' ');
    if number < 10 {
        out.push_reserved(b'0' + number as u8);
        return;
    }
    let mut digits = Buffer::new();
    out.extend_from_slice(digits.format(number).as_bytes())
        .unwrap();
}
