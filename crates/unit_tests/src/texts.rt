//! Texts in which single characters stand for bytes that a line of a text can't have.
use std::alloc::{AllocError, Global};

/// The byte that a byte of a text stands for.
fn meant(byte: u8) -> u8 {
    match byte {
        b';' => b'\n',
        b'^' => b'\r',
        b'`' => b'\t',
        b'%' => 0xb2,
        b'?' => 0xff,
        _ => byte,
    }
}

/// The bytes of a text in which `;` stands for a line feed, `^` for a carriage return, a grave accent for a tab,
/// `%` for the byte b2 and `?` for the byte ff.
pub fn bytes_of(alloc: Global, text: &str) -> Result<Vec<u8>, AllocError> {
    let mut bytes = Vec::new(alloc);
    for byte in text.bytes() {
        bytes.push(meant(byte))?;
    }
    Ok(bytes)
}

/// Whether some bytes begin with those of the text.
fn begin(text: &str, bytes: &[u8]) -> bool {
    let mut at = 0;
    for byte in text.bytes() {
        if at >= bytes.len() || bytes[at] != meant(byte) {
            return false;
        }
        at += 1;
    }
    true
}

/// Whether some bytes end with those of the text.
pub fn end(text: &str, bytes: &[u8]) -> bool {
    text.len() <= bytes.len() && begin(text, &bytes[bytes.len() - text.len()..])
}

/// Whether these are the bytes of the text, or those before and behind a `..` in it are the first and the last ones.
pub fn are_bytes_of(text: &str, bytes: &[u8]) -> bool {
    match text.split_once(" .. ") {
        Some((first, last)) => begin(first, bytes) && end(last, bytes),
        None => text.len() == bytes.len() && begin(text, bytes),
    }
}

/// At how many places of some bytes those of the text stand.
pub fn times(text: &str, bytes: &[u8]) -> u64 {
    let mut count: u64 = 0;
    for at in 0..bytes.len() {
        count = count.wrapping_add(u64::from(begin(text, &bytes[at..])));
    }
    count
}
