//! Lines that tests are written in, and their words.
use std::alloc::Global;
use std::process::Abort;

/// What is asked of each line of a text.
pub trait LineTest {
    /// Whether a line is right.
    fn is_right(alloc: Global, line: &str) -> bool;
}

/// Asserts that each line of a text is right.
pub fn assert_lines<T: LineTest>(rt: &impl Abort, alloc: Global, text: &str) {
    for line in text.split('\n') {
        assert_line(rt, line, T::is_right(alloc, line));
    }
}

/// Asserts that a line is right.
fn assert_line(rt: &impl Abort, line: &str, is_right: bool) {
    assert!(rt; is_right, "{line}");
}

/// The two sides of a line.
pub fn sides(line: &str) -> (&str, &str) {
    line.split_once(" => ").unwrap_or((line, ""))
}

/// How many words a text has.
pub fn word_count(text: &str) -> usize {
    text.split(' ').count()
}

/// The word at a place of a text.
pub fn word(text: &str, at: usize) -> &str {
    text.split(' ').nth(at).unwrap_or("")
}

/// The number at a place of a text, and the largest one where there is none.
pub fn number_at(text: &str, at: usize) -> u32 {
    word(text, at).parse::<u32>().unwrap_or(u32::MAX)
}

/// The byte at a place of a text.
pub fn byte_at(text: &str, at: usize) -> u8 {
    word(text, at).parse::<u8>().unwrap_or(0)
}

/// Whether the text is this number.
pub fn is_count(text: &str, count: u64) -> bool {
    text.parse::<u64>().ok() == Some(count)
}
