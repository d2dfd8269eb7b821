ghost use Rattle.std.specs.Prelude.{◌≡◌, ◌≢◌, ◌≤◌, ◌/◌, ◌∷◌, [], ℕ, List, true, false, map, length, Ok, Some, None, IsErr, IsErrOf, IfOk};
ghost use Rattle.hex.specs.Hex.{decode_of};
ghost use Rattle.host_protocol.specs.Lines.{words_of};
ghost use Rattle.page_keys.specs.Scripts.{key_of, new_value_of, change_of, change_of_texts, IsKeyWord};
ghost use Rattle.page_keys.specs.declared.changes.Change.{Change};

use crate::changes::{Change, Changes};
use crate::short_bytes::{MAX_SHORT, ShortBytes};
use host_protocol::{LineError, around_equals, first_word, no_word};
use std::alloc::Global;

/// The one to fifteen bytes that digits tell, two digits for each.
fn short(digits: &[u8]) -> Option<ShortBytes>
    ensures { result ≡ key_of digits.now }
{
    let len = digits.len() / 2;
    if len == 0 || len > MAX_SHORT {
        return None;
    }
    let mut room = [0; MAX_SHORT];
    if !decode(digits, &mut room[..len]) {
        return None;
    }
    Some(ShortBytes::new(&room[..len]))
}

/// Reads digits into room for half as many bytes, and says whether they are all digits, two for each byte.
fn decode(digits: &[u8], into: &mut [u8]) -> bool
    requires { length into.old ≡ length digits.now / 2 }
    ensures read { result ≡ true → decode_of digits.now ≡ Ok into.new }
    ensures other { result ≡ false → IsErr (decode_of digits.now) }
{
    hex::decode_to_slice(digits, into).is_ok()
}

/// The key that is the only word.
pub(crate) fn only_key(words: &[u8]) -> Result<ShortBytes, LineError>
    ensures ok { IfOk result (IsKeyWord (words_of words.now)) }
    ensures bad { IsErrOf result LineError.Bad → (key : List ℕ) → ¬ IsKeyWord (words_of words.now) key }
{
    let (word, behind) = first_word(words).ok_or(LineError::Bad)?;
    no_word(behind).ok_or(LineError::Bad)?;
    short(word).ok_or(LineError::Bad)
}

/// The changes of a put, by its words.
pub(crate) fn changes(alloc: Global, words: &[u8]) -> Result<Changes, LineError>
    ensures ok { IfOk result (λ cs. map change_of (words_of words.now) ≡ map Some cs) }
    ensures few { IfOk result (λ cs. length cs ≤ length words.now) }
    ensures bad { IsErrOf result LineError.Bad →
        (cs : List Change) → map change_of (words_of words.now) ≢ map Some cs }
{
    let mut all = Changes::new(alloc);
    let mut rest = words;
    while let Some((word, behind)) = first_word(rest) {
        let change = change(word).ok_or(LineError::Bad)?;
        all.push(change)?;
        rest = behind;
    }
    Ok(all)
}

/// The change that a word is.
#[tactic(auto, using(crate::proofs::OfParse::KeyWordLemmas::change_parts, crate::proofs::OfParse::KeyWordLemmas::change_none))]
fn change(word: &[u8]) -> Option<Change>
    ensures { result ≡ change_of word.now }
{
    match around_equals(word) {
        Some((key, text)) => change_of_texts(key, text),
        None => None,
    }
}

/// The change of a key to a new value, by their texts.
fn change_of_texts(key: &[u8], text: &[u8]) -> Option<Change>
    ensures { result ≡ change_of_texts key.now text.now }
{
    let key = short(key)?;
    let value = new_value(text)?;
    Some(Change { key, value })
}

/// The new value that a text tells, which is none for a removal.
#[tactic(auto, unfolding(crate::specs::Scripts::new_value_of))]
fn new_value(text: &[u8]) -> Option<Option<ShortBytes>>
    ensures { result ≡ new_value_of text.now }
{
    if text == b"~".as_slice() {
        return Some(None);
    }
    if text == b"-".as_slice() {
        return Some(Some(ShortBytes::new(b"")));
    }
    Some(Some(short(text)?))
}
