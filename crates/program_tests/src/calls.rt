//! Calls of txflash that the tests share.
use command_line::top;
use desk_io::Desk;
use std::alloc::{AllocError, Global};

/// The words of a text, which have at least one byte.
pub fn words_of(alloc: Global, text: &str) -> Result<Vec<String>, AllocError> {
    let mut words = Vec::new(alloc);
    for word in text.split(' ') {
        if !word.is_empty() {
            words.push(String::from_str(alloc, word)?)?;
        }
    }
    Ok(words)
}

/// The status of a call of txflash with the words of a text, and 255 where there is no memory for them.
pub fn status_of<D: Desk>(alloc: Global, text: &str, desk: &mut D) -> u8 {
    match words_of(alloc, text) {
        Ok(words) => top(alloc, &words, desk),
        Err(_) => 255,
    }
}

/// Whether such a call is done.
pub fn is_done<D: Desk>(alloc: Global, text: &str, desk: &mut D) -> bool {
    status_of(alloc, text, desk) == 0
}
