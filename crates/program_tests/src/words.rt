//! The words of the lines that tests are written in.

/// The text before the first place of a sign and the one behind it, which is empty where the sign is not there.
pub fn halves<'a>(text: &'a str, sign: &str) -> (&'a str, &'a str) {
    text.split_once(sign).unwrap_or((text, ""))
}

/// The line of a text at a place, counted from 0, or an empty one.
pub fn line_at(text: &str, at: usize) -> &str {
    text.split('\n').nth(at).unwrap_or("")
}

/// The word of a text at a place, counted from 0, or an empty one.
pub fn word(text: &str, at: usize) -> &str {
    text.split(' ').nth(at).unwrap_or("")
}

/// Whether a text begins with these words.
pub fn begins_with(text: &str, words: &[&str]) -> bool {
    let mut at: usize = 0;
    for wanted in words {
        if word(text, at) != *wanted {
            return false;
        }
        at = at.saturating_add(1);
    }
    true
}

/// Whether a text has these words and no more.
pub fn has_words(text: &str, words: &[&str]) -> bool {
    begins_with(text, words) && text.split(' ').count() == words.len()
}

/// A number of one digit.
pub fn digit(number: usize) -> &'static str {
    "0123456789"
        .get(number..number.saturating_add(1))
        .unwrap_or("")
}

/// The number of a text, and the largest one where it is none.
pub fn number_of(text: &str) -> usize {
    text.parse::<usize>().unwrap_or(usize::MAX)
}
