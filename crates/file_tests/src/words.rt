//! The words of the lines that tests are written in.

/// The text before the first place of a sign and the one behind it, which is empty where the sign is not there.
pub fn halves<'a>(text: &'a str, sign: &str) -> (&'a str, &'a str) {
    text.split_once(sign).unwrap_or((text, ""))
}

/// The word of a text at a place, counted from 0, or an empty one.
pub fn word(text: &str, at: usize) -> &str {
    text.split(' ').nth(at).unwrap_or("")
}

/// Whether a text has a word.
pub fn has_word(text: &str, wanted: &str) -> bool {
    for found in text.split(' ') {
        if found == wanted {
            return true;
        }
    }
    false
}
