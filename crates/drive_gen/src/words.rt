ghost use Rattle.std.specs.Prelude.{◌≡◌, ◌||◌, [], slice_index_or, codes};
ghost use Rattle.std.specs.Str.{bytes_eq};
ghost use Rattle.host_protocol.specs.Lines.{words_of};
ghost use Rattle.drive_gen.specs.Summary.{word_or};

use host_protocol::first_word;

/// The word of a line at this place, counted from 0, or `other` where the line has no such word.
pub fn word_at<'a>(line: &'a [u8], place: usize, other: &'a [u8]) -> &'a [u8]
    ensures { result.now ≡ slice_index_or (words_of line.now) place other.now }
{
    let mut rest = line;
    for _passed in 0..place {
        match first_word(rest) {
            Some((_, behind)) => rest = behind,
            None => return other,
        }
    }
    match first_word(rest) {
        Some((word, _)) => word,
        None => other,
    }
}

/// The first word of a line, empty where the line has none. The words that come most often are known by their first
/// bytes.
pub fn leading_word(line: &[u8]) -> &[u8]
    ensures { result.now ≡ word_or line.now 0 [] }
{
    if line.len() > 5 && line[4] == b' ' && is_frequent(&line[..4]) {
        &line[..4]
    } else {
        word_at(line, 0, b"")
    }
}

/// Whether a word is one of the two that come most often.
#[inline(always)]
fn is_frequent(word: &[u8]) -> bool
    ensures { result ≡ (bytes_eq word.now (codes "open") || bytes_eq word.now (codes "done")) }
{
    word == b"open".as_slice() || word == b"done".as_slice()
}
