//! The line of a page with its contents.
ghost use Rattle.std.specs.Prelude.{◌≡◌, ◌+◌, ◌*◌, ◌≤◌, ◌∷◌, ◌++◌, length, vec_len, vec_capacity, OnOk, OnErr, IfSome};
ghost use Rattle.hex.specs.Hex.{encode_lower};
ghost use Rattle.host_protocol.specs.Replies.{line_of, page_words};

use crate::numbers_line::{NUMBER_BYTES, add_number};
use tx_types::Memory;

/// The bytes of the line but for the number and the digits.
const OTHER_BYTES: usize = 6;

/// Appends the line of a page with its contents, or nothing where there is no memory.
pub fn add_page(page: u32, bytes: &[u8], out: &mut Vec<u8>) -> Result<(), Memory>
    ensures ok { OnOk result
        (out.new.items ≡ out.old.items ++ line_of (page_words page bytes.now)) }
    ensures err { OnErr result (out.new.items ≡ out.old.items) }
{
    let room = line_bytes(bytes.len()).ok_or(Memory)?;
    out.reserve(room)?;
    out.extend_from_slice(b"page").unwrap();
    add_number(page, out);
    out.push_reserved(b' ');
    add_digits(bytes, out);
    out.push_reserved(b'\n');
    Ok(())
}

/// The most bytes of the line of a page of this many bytes.
fn line_bytes(count: usize) -> Option<usize>
    ensures { IfSome result (λ room. room ≡ 2 * count + NUMBER_BYTES + OTHER_BYTES) }
{
    count
        .checked_mul(2)?
        .checked_add(NUMBER_BYTES + OTHER_BYTES)
}

/// Appends the digits of bytes, for which there is room.
fn add_digits(bytes: &[u8], out: &mut Vec<u8>)
    requires { vec_len out.old + 2 * length bytes.now ≤ vec_capacity out.old }
    ensures items { out.new.items ≡ out.old.items ++ encode_lower bytes.now }
    ensures len { vec_len out.new ≡ vec_len out.old + 2 * length bytes.now }
    ensures capacity { vec_capacity out.old ≤ vec_capacity out.new }
{
    let start = out.len();
    out.resize(start + 2 * bytes.len(), 0).unwrap();
    hex::encode_to_slice(bytes, &mut out[start..]).unwrap();
}
