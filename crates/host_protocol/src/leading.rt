//! The verb of a line.
ghost use Rattle.std.specs.Prelude.{◌≡◌, ◌∷◌, ◌++◌, false, [], IfOk, IfSome, IfNone, IsErr};
ghost use Rattle.host_protocol.specs.Files.{is_command_line};
ghost use Rattle.host_protocol.specs.Reading.{BeginsWithVerb, BeginsWithNoVerb};
ghost use Rattle.host_protocol.specs.Verbs.{word_of};

use crate::error::LineError;
use crate::verb::Verb;
use crate::words::first_word;

/// The verb that a line begins with, and what is behind it. There is none on a blank line, and in a comment.
pub fn leading_verb(line: &[u8]) -> Result<Option<(Verb, &[u8])>, LineError>
    ensures verb { IfOk result (λ found. IfSome found (λ f. BeginsWithVerb line.now f.0 f.1.now)) }
    ensures idle { IfOk result (λ found. IfNone found (is_command_line line.now ≡ false)) }
    ensures bad { IsErr result → BeginsWithNoVerb line.now }
{
    if let Some(found) = frequent_verb(line) {
        return Ok(Some(found));
    }
    let Some((word, words)) = first_word(line) else {
        return Ok(None);
    };
    if word.starts_with(b"#") {
        return Ok(None);
    }
    let verb = Verb::from_word(word).ok_or(LineError::Bad)?;
    Ok(Some((verb, words)))
}

/// The verb that a line begins with, and what is behind it, where that is one of the verbs of most lines and a space is
/// behind it. Such a verb is known by all its bytes at once.
#[inline(always)]
fn frequent_verb(line: &[u8]) -> Option<(Verb, &[u8])>
    ensures { IfSome result (λ found. BeginsWithVerb line.now found.0 found.1.now) }
{
    match line.first() {
        Some(b'w') => behind_verb(line, b"write ", Verb::Write),
        Some(b's') => behind_verb(line, b"step ", Verb::Step),
        Some(b'f') => behind_verb(line, b"finish ", Verb::Finish),
        Some(b'a') => behind_verb(line, b"abort ", Verb::Abort),
        Some(b'r') => behind_verb(line, b"read ", Verb::Read),
        _ => None,
    }
}

/// The verb, and what is behind it and a space, where a line begins with these.
#[inline(always)]
fn behind_verb<'a>(line: &'a [u8], text: &[u8], verb: Verb) -> Option<(Verb, &'a [u8])>
    requires { text.now ≡ word_of verb ++ 32 ∷ [] }
    ensures { IfSome result (λ found. BeginsWithVerb line.now found.0 found.1.now) }
{
    let behind = line.strip_prefix(text)?;
    Some((verb, behind))
}
