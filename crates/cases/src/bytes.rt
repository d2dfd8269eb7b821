//! Words, numbers and bytes of a line.
use crate::stop::Stop;
use std::alloc::Global;

/// The first word of a text, and what stands behind it.
pub fn parted(text: &str) -> Result<(&str, &str), Stop> {
    if text.is_empty() {
        Err(Stop::BadLine)
    } else {
        Ok(text.split_once(' ').unwrap_or((text, "")))
    }
}

/// The number that a word is.
pub fn number(word: &str) -> Result<usize, Stop> {
    word.parse::<usize>().map_err(|_| Stop::BadLine)
}

/// The first word of a text, the number that the second is, and what stands behind them.
pub fn placed(text: &str) -> Result<(&str, usize, &str), Stop> {
    let (first, rest) = parted(text)?;
    let (second, rest) = parted(rest)?;
    Ok((first, number(second)?, rest))
}

/// The bytes of a text: each word is hexadecimal digits, or one byte and how often it stands there, as in `ff*16`.
pub fn bytes_of(alloc: Global, text: &str) -> Result<Vec<u8>, Stop> {
    let mut bytes = Vec::new(alloc);
    add_words(text, &mut bytes)?;
    Ok(bytes)
}

/// Adds them.
fn add_words(text: &str, bytes: &mut Vec<u8>) -> Result<(), Stop> {
    for word in text.split(' ') {
        match word.split_once('*') {
            Some((digits, times)) => add_often(digits, number(times)?, bytes)?,
            None => add_bytes(word, bytes)?,
        }
    }
    Ok(())
}

/// Adds a byte this many times.
fn add_often(digits: &str, times: usize, bytes: &mut Vec<u8>) -> Result<(), Stop> {
    let mut byte = [0];
    hex::decode_to_slice(digits, &mut byte).map_err(|_| Stop::BadLine)?;
    bytes.resize(bytes.len().saturating_add(times), byte[0])?;
    Ok(())
}

/// Adds the bytes of hexadecimal digits.
fn add_bytes(digits: &str, bytes: &mut Vec<u8>) -> Result<(), Stop> {
    for pair in digits.as_bytes().chunks(2) {
        let mut byte = [0];
        hex::decode_to_slice(pair, &mut byte).map_err(|_| Stop::BadLine)?;
        bytes.push(byte[0])?;
    }
    Ok(())
}
