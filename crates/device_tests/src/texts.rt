//! The words of the lines that tests are written in.

use flash_model::Outcome;
use std::alloc::{AllocError, Global};
use tx_types::{Link, Slot};

/// What is read where a word is no number, as `-`: no page, slot or block has it.
const NO_NUMBER: u32 = u32::MAX;

/// The text before the first place of a sign and the one behind it, which is empty where the sign is not there.
pub fn halves<'a>(text: &'a str, sign: &str) -> (&'a str, &'a str) {
    text.split_once(sign).unwrap_or((text, ""))
}

/// The word of a text at a place, counted from 0, or an empty one.
pub fn word(text: &str, at: usize) -> &str {
    text.split(' ').nth(at).unwrap_or("")
}

/// The number that a word says.
pub fn number_of(word: &str) -> u32 {
    word.parse().unwrap_or(NO_NUMBER)
}

/// The number that the word at a place says.
pub fn number(text: &str, at: usize) -> u32 {
    number_of(word(text, at))
}

/// The number that the word at a place says, 0 where there is none.
pub fn number_or_zero(text: &str, at: usize) -> u32 {
    word(text, at).parse().unwrap_or(0)
}

/// The page and the version that the word at a place says, as `3.1` does.
pub fn link(text: &str, at: usize) -> Link {
    let (page, version) = word(text, at).split_once('.').unwrap_or(("", ""));
    Link {
        page: number_of(page),
        version: u64::from(number_of(version)),
    }
}

/// Whether a slot is the one that the word at a place says, or there is none, as `-` says.
pub fn is_slot(slot: Option<Slot>, text: &str, at: usize) -> bool {
    let wanted = number(text, at);
    match slot {
        Some(slot) => slot.0 == wanted,
        None => wanted == NO_NUMBER,
    }
}

/// What a broken operation leaves, as the word at a place says it: `none`, `all`, or else `bad`.
pub fn outcome(text: &str, at: usize) -> Outcome {
    match word(text, at) {
        "none" => Outcome::None,
        "all" => Outcome::All,
        _ => Outcome::Bad,
    }
}

/// Whether a text is the one that is wanted, or begins like it where it ends in two dots.
pub fn is_like(text: &str, wanted: &str) -> bool {
    match wanted.strip_suffix("..") {
        Some(front) => text.starts_with(front),
        None => text == wanted,
    }
}

/// The bytes of a text in which `;` stands for a line feed.
pub fn bytes_of(alloc: Global, text: &str) -> Result<Vec<u8>, AllocError> {
    let mut bytes = Vec::new(alloc);
    for byte in text.bytes() {
        bytes.push(if byte == b';' { b'\n' } else { byte })?;
    }
    Ok(bytes)
}
