ghost use Rattle.std.specs.Prelude.{◌≡◌, ◌<◌, ◌≤◌, ◌+◌, ◌++◌, ◌∷◌, [], length, vec_len, vec_capacity, OnOk, OnErr};
ghost use Rattle.hex.specs.Hex.{encode_lower};
ghost use Rattle.host_protocol.specs.Replies.{line_of};
ghost use Rattle.page_keys.specs.KeyReplies.{key_text};

use crate::short_bytes::{MAX_SHORT, ShortBytes};
use host_protocol::add_line;
use tx_types::Memory;

/// The answer to a command of a key script.
#[derive(Drop)]
pub enum KeyReply {
    /// All changes of a put were made, this many.
    Stored(u32),
    /// The key and its value.
    Value(ShortBytes, ShortBytes),
    /// The key, which is absent.
    Absent(ShortBytes),
    /// The cut is to come.
    Armed,
    /// Power was cut.
    Cut,
    /// The flash failed.
    Fault,
    /// A put without changes.
    RefusedEmpty,
    /// The key stood in the put before.
    RefusedRepeated(ShortBytes),
    /// The put has keys in this many pages, more than may be pending.
    RefusedWide(u32),
    /// The page would not hold its entries.
    RefusedBucket(u32),
    /// The page has no version left.
    RefusedSpent(u32),
}

/// The most bytes of a key or a value in digits, with a space before it.
const WORD_BYTES: usize = 1 + 2 * MAX_SHORT;

/// Appends the line of the reply with its line feed. After `Memory` the bytes are as before.
pub fn key_reply_text(reply: &KeyReply, out: &mut Vec<u8>) -> Result<(), Memory>
    ensures ok { OnOk result (out.new.items ≡ out.old.items ++ key_text reply.now) }
    ensures err { OnErr result (out.new.items ≡ out.old.items) }
{
    match reply {
        KeyReply::Value(key, value) => add_value(key, value, out),
        KeyReply::Absent(key) => add_key(b"absent", key, out),
        KeyReply::RefusedRepeated(key) => add_key(b"refused repeated", key, out),
        KeyReply::Stored(changes) => add_line(b"stored", &[*changes], out),
        KeyReply::RefusedWide(pages) => add_line(b"refused wide", &[*pages], out),
        KeyReply::RefusedBucket(page) => add_line(b"refused bucket", &[*page], out),
        KeyReply::RefusedSpent(page) => add_line(b"refused spent", &[*page], out),
        KeyReply::Armed => append(b"armed\n", out),
        KeyReply::Cut => append(b"cut\n", out),
        KeyReply::Fault => append(b"fault\n", out),
        KeyReply::RefusedEmpty => append(b"refused empty\n", out),
    }
}

/// Appends bytes.
fn append(bytes: &[u8], out: &mut Vec<u8>) -> Result<(), Memory>
    ensures ok { OnOk result (out.new.items ≡ out.old.items ++ bytes.now) }
    ensures err { OnErr result (out.new.items ≡ out.old.items) }
{
    out.extend_from_slice(bytes)?;
    Ok(())
}

/// Appends the line of a key and its value.
fn add_value(key: &ShortBytes, value: &ShortBytes, out: &mut Vec<u8>) -> Result<(), Memory>
    ensures ok { OnOk result
        (out.new.items ≡ out.old.items ++ key_text (KeyReply.Value key.now value.now)) }
    ensures err { OnErr result (out.new.items ≡ out.old.items) }
{
    out.reserve(b"value".len() + 2 * WORD_BYTES + 1)?;
    out.extend_from_slice(b"value").unwrap();
    add_digits(key.as_slice(), out);
    if value.as_slice().is_empty() {
        out.extend_from_slice(b" -").unwrap();
    } else {
        add_digits(value.as_slice(), out);
    }
    out.push_reserved(b'\n');
    Ok(())
}

/// Appends the line of some words and a key.
fn add_key(words: &[u8], key: &ShortBytes, out: &mut Vec<u8>) -> Result<(), Memory>
    requires { length words.now < 100 }
    ensures ok { OnOk result
        (out.new.items ≡ out.old.items ++ line_of (words.now ∷ encode_lower key.now ∷ [])) }
    ensures err { OnErr result (out.new.items ≡ out.old.items) }
{
    out.reserve(words.len() + WORD_BYTES + 1)?;
    out.extend_from_slice(words).unwrap();
    add_digits(key.as_slice(), out);
    out.push_reserved(b'\n');
    Ok(())
}

/// Appends a space and the digits of a key or a value, for which there is room.
fn add_digits(bytes: &[u8], out: &mut Vec<u8>)
    requires few { length bytes.now ≤ MAX_SHORT }
    requires room { vec_len out.old + WORD_BYTES ≤ vec_capacity out.old }
    ensures items { out.new.items ≡ out.old.items ++ 32 ∷ encode_lower bytes.now }
    ensures len { vec_len out.new ≤ vec_len out.old + WORD_BYTES }
    ensures capacity { vec_capacity out.old ≤ vec_capacity out.new }
{
    let mut room = [0; 2 * MAX_SHORT];
    let digits = &mut room[..2 * bytes.len()];
    hex::encode_to_slice(bytes, digits).unwrap();
    out.push_reserved(b' ');
    out.extend_from_slice(digits).unwrap();
}
