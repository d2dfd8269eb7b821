ghost use Rattle.std.specs.Prelude.{◌≡◌, ◌≢◌, ◌∷◌, [], ℕ, List, Some, IfSome, IfNone, IsSome, ◌↔◌};
ghost use Rattle.host_protocol.specs.Commands.{alone, IsArm, outcome_word};
ghost use Rattle.host_protocol.specs.Lines.{words_of};
ghost use Rattle.host_protocol.specs.Numbers.{number_of, count_of};
ghost use Rattle.host_protocol.specs.Reading.{BeginsWithNumber};
ghost use Rattle.flash_model.specs.declared.outcome.Outcome.{Outcome};

use crate::numbers::{count, leading_number, number};
use crate::words::{ends_at, first_word, is_word};
use flash_model::Outcome;

/// Some where there is no word.
pub fn no_word(words: &[u8]) -> Option<()>
    ensures { IsSome result ↔ (words_of words.now ≡ []) }
{
    match first_word(words) {
        None => Some(()),
        Some(_) => None,
    }
}

/// The only word.
fn only_word(words: &[u8]) -> Option<&[u8]>
    ensures some { IfSome result (λ word. words_of words.now ≡ word.now ∷ []) }
    ensures none { IfNone result ((word : List ℕ) → words_of words.now ≢ word ∷ []) }
{
    let (word, behind) = first_word(words)?;
    no_word(behind)?;
    Some(word)
}

/// The number that is the only word. Most often nothing else is there.
#[inline(always)]
pub fn lone_number(words: &[u8]) -> Option<u32>
    ensures { result ≡ alone number_of (words_of words.now) }
{
    let whole = whole_number(words);
    if whole.is_some() {
        return whole;
    }
    number(only_word(words)?)
}

/// The number that all bytes are.
#[inline(always)]
fn whole_number(bytes: &[u8]) -> Option<u32>
    ensures { IfSome result (λ n. alone number_of (words_of bytes.now) ≡ Some n) }
{
    let (number, digits) = leading_number(bytes)?;
    if digits == bytes.len() {
        Some(number)
    } else {
        None
    }
}

/// The number that the first word is, and what is behind it.
#[inline(always)]
pub fn first_number(words: &[u8]) -> Option<(u32, &[u8])>
    ensures some { IfSome result (λ found. BeginsWithNumber words.now found.0 found.1.now) }
    ensures none { IfNone result ((word : List ℕ) (others : List (List ℕ)) →
        words_of words.now ≡ word ∷ others → number_of word ≡ None) }
{
    let found = number_at_start(words);
    if found.is_some() {
        return found;
    }
    let (word, behind) = first_word(words)?;
    Some((number(word)?, behind))
}

/// The number that the first word is, and what is behind it, where nothing stands before it.
#[inline(always)]
fn number_at_start(words: &[u8]) -> Option<(u32, &[u8])>
    ensures { IfSome result (λ found. BeginsWithNumber words.now found.0 found.1.now) }
{
    let (number, digits) = leading_number(words)?;
    if ends_at(words, digits) {
        Some((number, &words[digits..]))
    } else {
        None
    }
}

/// The count that is the only word.
pub fn lone_count(words: &[u8]) -> Option<u32>
    ensures { result ≡ alone count_of (words_of words.now) }
{
    count(only_word(words)?)
}

/// A count, and what the broken operation leaves.
pub fn arm(words: &[u8]) -> Option<(u32, Outcome)>
    ensures some { IfSome result (λ a. IsArm (words_of words.now) a.0 a.1) }
    ensures none { IfNone result ((n : ℕ) (what : Outcome) → ¬ IsArm (words_of words.now) n what) }
{
    let (first, behind) = first_word(words)?;
    let count = count(first)?;
    let outcome = outcome(only_word(behind)?)?;
    Some((count, outcome))
}

/// What a broken operation leaves, by its word.
fn outcome(word: &[u8]) -> Option<Outcome>
    ensures some { IfSome result (λ what. word.now ≡ outcome_word what) }
    ensures none { IfNone result ((what : Outcome) → word.now ≢ outcome_word what) }
{
    if is_word(word, b"none") {
        Some(Outcome::None)
    } else if is_word(word, b"all") {
        Some(Outcome::All)
    } else if is_word(word, b"bad") {
        Some(Outcome::Bad)
    } else {
        None
    }
}
