ghost use Rattle.std.specs.Prelude.{◌≡◌, ◌≢◌, ◌≤◌, ◌<◌, ◌*◌, ◌∷◌, [], true, ℕ, List, length, take, slice_index, position, IfOk, IfSome, IfNone, IsErr};
ghost use Rattle.std.specs.List.{slice_split};
ghost use Rattle.std.specs.Option.{option_map, unwrap_or};
ghost use Rattle.tx_types.specs.Batch.{padded};
ghost use Rattle.host_protocol.specs.Commands.{page_contents, page_value, is_equals};
ghost use Rattle.host_protocol.specs.Lines.{is_space_or_tab, words_of};
ghost use Rattle.host_protocol.specs.Numbers.{number_of};
ghost use Rattle.host_protocol.specs.Reading.{AnswersAs, AreDigits, BeginsWithEntry, BeginsWithOther, BeginsWithPage};

use crate::error::LineError;
use crate::hexadecimal::{decode, decode_digits};
use crate::numbers::leading_number;
use crate::words::{ends_at, first_blank, first_filled};
use memchr::memchr;

/// The first entry of a line: its page, the text of what the page is to hold, what is behind it on the line, and
/// whether the text is digits, whose bytes are in the room then. None where the line has no word, and an error where
/// its first word is no entry. No digit is a blank, so the end of the word is searched for only where no digits of a
/// whole page, or of one byte, lead to it.
#[inline(always)]
pub fn first_entry<'a>(
    line: &'a [u8],
    page_bytes: u32,
    room: &mut Vec<u8>,
) -> Result<Option<(u32, &'a [u8], &'a [u8], bool)>, LineError>
    ensures entry { IfOk result (λ found. IfSome found (λ e.
        BeginsWithEntry line.now e.0 e.1.now e.2.now)) }
    ensures shorter { IfOk result (λ found. IfSome found (λ e. length e.2.now < length line.now)) }
    ensures digits { IfOk result (λ found. IfSome found (λ e.
        e.3 ≡ true → AreDigits page_bytes e.1.now room.new.items)) }
    ensures none { IfOk result (λ found. IfNone found (words_of line.now ≡ [])) }
    ensures bad { IsErr result → BeginsWithOther line.now }
{
    let Some(start) = first_filled(line) else {
        return Ok(None);
    };
    let line = &line[start..];
    let (page, behind) = leading_page(line).ok_or(LineError::Bad)?;
    let (end, is_read) = find_end(behind, page_bytes, room);
    let (text, behind) = behind.split_at(end);
    Ok(Some((page, text, behind, is_read)))
}

/// Where the text behind an equals sign ends, and whether it is digits, whose bytes are in the room then. The end of
/// the digits of a whole page, or of one byte, is not searched for.
#[inline(always)]
fn find_end(behind: &[u8], page_bytes: u32, room: &mut Vec<u8>) -> (usize, bool)
    ensures end { result.0 ≡ unwrap_or (position is_space_or_tab behind.now) (length behind.now) }
    ensures digits { result.1 ≡ true →
        AreDigits page_bytes (take result.0 behind.now) room.new.items }
{
    if read_digits(behind, 1, page_bytes, room) {
        return (2, true);
    }
    if read_digits(behind, page_bytes, page_bytes, room) {
        return (2 * page_bytes as usize, true);
    }
    (first_blank(behind).unwrap_or(behind.len()), false)
}

/// Reads the text behind an equals sign into the room, and says whether it is the digits of this many bytes, of at
/// least one byte, and of at most all of a page.
#[inline(always)]
fn read_digits(behind: &[u8], count: u32, page_bytes: u32, room: &mut Vec<u8>) -> bool
    ensures digits { result ≡ true →
        AreDigits page_bytes (take (2 * count) behind.now) room.new.items }
    ensures end { result ≡ true →
        unwrap_or (position is_space_or_tab behind.now) (length behind.now) ≡ 2 * count }
{
    let end = 2 * count as usize;
    if count == 0 || count > page_bytes || !ends_at(behind, end) {
        return false;
    }
    decode_digits(&behind[..end], room)
}

/// The page before an equals sign at the beginning of a line, and what is behind the sign.
#[inline(always)]
fn leading_page(line: &[u8]) -> Option<(u32, &[u8])>
    ensures some { IfSome result (λ found. BeginsWithPage line.now found.0 found.1.now) }
    ensures none { IfNone result ((place : ℕ) → place < length line.now →
        slice_index line.now place ≡ 61 → number_of (take place line.now) ≡ None) }
{
    let (page, place) = leading_number(line)?;
    if place == line.len() || line[place] != b'=' {
        return None;
    }
    Some((page, &line[place + 1..]))
}

/// The two parts of a word around its one equals sign.
pub fn around_equals(word: &[u8]) -> Option<(&[u8], &[u8])>
    ensures some { IfSome result (λ parts.
        slice_split is_equals word.now ≡ parts.0.now ∷ parts.1.now ∷ []) }
    ensures none { IfNone result ((first second : List ℕ) →
        slice_split is_equals word.now ≢ first ∷ second ∷ []) }
{
    let place = first_equals(word)?;
    let (page, text) = (&word[..place], &word[place + 1..]);
    match first_equals(text) {
        None => Some((page, text)),
        Some(_) => None,
    }
}

/// Where the first equals sign stands.
#[tactic(auto, using(crate::proofs::SearchLemmas::found_first))]
fn first_equals(word: &[u8]) -> Option<usize>
    ensures { result ≡ position is_equals word.now }
{
    memchr(b'=', word)
}

/// What a page is to hold, by its text: nothing for a tilde, else the bytes.
pub fn value<'a>(
    text: &[u8],
    page_bytes: u32,
    room: &'a mut Vec<u8>,
) -> Result<Option<&'a [u8]>, LineError>
    ensures value { AnswersAs (λ o. option_map (λ v. padded page_bytes v.now) o)
        result (page_value page_bytes text.now) }
    ensures within { IfOk result (λ o. IfSome o (λ v. length v.now ≤ page_bytes)) }
{
    if text == b"~".as_slice() {
        return Ok(None);
    }
    Ok(Some(contents(text, page_bytes, room)?))
}

/// The same, by a text whose bytes are in the room already where it is digits that were read.
pub fn value_by_room<'a>(
    text: &[u8],
    is_read: bool,
    page_bytes: u32,
    room: &'a mut Vec<u8>,
) -> Result<Option<&'a [u8]>, LineError>
    requires { is_read ≡ true → AreDigits page_bytes text.now room.old.items }
    ensures value { AnswersAs (λ o. option_map (λ v. padded page_bytes v.now) o)
        result (page_value page_bytes text.now) }
    ensures within { IfOk result (λ o. IfSome o (λ v. length v.now ≤ page_bytes)) }
{
    if is_read {
        return Ok(Some(room));
    }
    value(text, page_bytes, room)
}

/// The bytes of a page, by their text: none for a dash, else one to all of them by hexadecimal digits.
fn contents<'a>(text: &[u8], page_bytes: u32, room: &'a mut Vec<u8>) -> Result<&'a [u8], LineError>
    ensures contents { AnswersAs (λ v. padded page_bytes v.now)
        result (page_contents page_bytes text.now) }
    ensures within { IfOk result (λ v. length v.now ≤ page_bytes) }
{
    if text == b"-".as_slice() {
        return Ok(&[]);
    }
    if text.is_empty() || text.len() / 2 > page_bytes as usize {
        return Err(LineError::Bad);
    }
    decode(text, room)
}
