ghost use Rattle.std.specs.Prelude.{◌≡◌, ◌≤◌, ◌<◌, true, [], ◌∷◌, length, not, position, slice_index, IfSome, IfNone};
ghost use Rattle.std.specs.Str.{bytes_eq};
ghost use Rattle.host_protocol.specs.Lines.{words_of, is_space_or_tab};

use memchr::memchr2;

/// The first word of a line, and what is behind it.
#[inline(always)]
pub fn first_word(line: &[u8]) -> Option<(&[u8], &[u8])>
    ensures word { let words = words_of line.now in
        IfSome result (λ found. words ≡ found.0.now ∷ words_of found.1.now) }
    ensures shorter { IfSome result (λ found. length found.1.now < length line.now) }
    ensures none { IfNone result (words_of line.now ≡ []) }
{
    let start = first_filled(line)?;
    let line = &line[start..];
    let end = first_blank(line).unwrap_or(line.len());
    Some(line.split_at(end))
}

/// Where the first byte stands that is neither a space nor a tab. Most often one space is before it.
#[inline(always)]
pub fn first_filled(line: &[u8]) -> Option<usize>
    ensures { result ≡ position (λ b. not (is_space_or_tab b)) line.now }
{
    if line.len() > 1 && line[0] == b' ' && is_filled(line[1]) {
        return Some(1);
    }
    line.iter().position(|b| *b != b' ' && *b != b'\t')
}

/// Whether a byte is neither a space nor a tab.
#[inline(always)]
fn is_filled(byte: u8) -> bool
    ensures { result ≡ not (is_space_or_tab byte) }
{
    byte != b' ' && byte != b'\t'
}

/// Whether a word is this one.
#[inline(always)]
pub fn is_word(word: &[u8], text: &[u8]) -> bool
    ensures { result ≡ bytes_eq word.now text.now }
{
    word == text
}

/// The bytes in which the end of a word is looked for one by one.
const NEAR_BYTES: usize = 16;

/// Where the first space or tab stands.
#[inline(always)]
pub fn first_blank(line: &[u8]) -> Option<usize>
    ensures { result ≡ position is_space_or_tab line.now }
{
    let near = &line[..line.len().min(NEAR_BYTES)];
    let found = near_blank(near);
    if found.is_some() || near.len() == line.len() {
        return found;
    }
    far_blank(line)
}

/// Whether a space or a tab stands at this place of a line, or the line ends there.
#[inline(always)]
pub fn ends_at(line: &[u8], place: usize) -> bool
    ensures inside { result ≡ true → place ≤ length line.now }
    ensures blank { result ≡ true → place < length line.now →
        is_space_or_tab (slice_index line.now place) ≡ true }
{
    if place < line.len() {
        return line[place] == b' ' || line[place] == b'\t';
    }
    place == line.len()
}

/// Where the first space or tab stands, byte by byte.
#[inline(always)]
fn near_blank(line: &[u8]) -> Option<usize>
    ensures { result ≡ position is_space_or_tab line.now }
{
    line.iter().position(|b| *b == b' ' || *b == b'\t')
}

/// Where the first space or tab stands, which is far behind.
#[inline(never)]
#[tactic(auto, using(crate::proofs::SearchLemmas::found_first))]
fn far_blank(line: &[u8]) -> Option<usize>
    ensures { result ≡ position is_space_or_tab line.now }
{
    memchr2(b' ', b'\t', line)
}
