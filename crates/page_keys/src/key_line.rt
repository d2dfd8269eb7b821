ghost use Rattle.std.specs.Prelude.{◌≡◌, ◌≤◌, ◌<◌, ◌^◌, false, length, IfOk, IfNone, IfSome, IsErrOf};
ghost use Rattle.host_protocol.specs.Files.{is_command_line};
ghost use Rattle.host_protocol.specs.Lines.{words_of};
ghost use Rattle.page_keys.specs.ScriptReading.{AddsKeyCommand, AddsNoKeyCommand, HasFewChanges, MakesKeyCommand, MakesNoKeyCommand};

use crate::command::KeyCommand;
use crate::key_verb::KeyVerb;
use crate::key_words::{changes, only_key};
use host_protocol::{LineError, MAX_COMMANDS, arm, first_word};
use std::alloc::Global;

/// The command of a line, none for a blank line or a comment. There are `before` commands before it.
pub(crate) fn key_line(
    alloc: Global,
    line: &[u8],
    before: usize,
) -> Result<Option<KeyCommand>, LineError>
    ensures idle { IfOk result (λ found. IfNone found (is_command_line line.now ≡ false)) }
    ensures command { IfOk result (λ found. IfSome found (AddsKeyCommand line.now before)) }
    ensures few { IfOk result (λ found. IfSome found (HasFewChanges (length line.now))) }
    ensures bad { IsErrOf result LineError.Bad → AddsNoKeyCommand line.now before }
{
    let Some((word, words)) = first_word(line) else {
        return Ok(None);
    };
    if word.starts_with(b"#") {
        return Ok(None);
    }
    if before >= MAX_COMMANDS {
        return Err(LineError::Bad);
    }
    let verb = KeyVerb::from_word(word).ok_or(LineError::Bad)?;
    Ok(Some(command(alloc, verb, words)?))
}

/// The command of a verb and the words behind it.
fn command(alloc: Global, verb: KeyVerb, words: &[u8]) -> Result<KeyCommand, LineError>
    ensures ok { IfOk result (MakesKeyCommand verb (words_of words.now)) }
    ensures few { IfOk result (HasFewChanges (length words.now)) }
    ensures bad { IsErrOf result LineError.Bad → MakesNoKeyCommand verb (words_of words.now) }
{
    Ok(match verb {
        KeyVerb::Put => KeyCommand::Put {
            changes: changes(alloc, words)?,
        },
        KeyVerb::Get => KeyCommand::Get {
            key: only_key(words)?,
        },
        KeyVerb::Cut => {
            let (count, outcome) = arm(words).ok_or(LineError::Bad)?;
            KeyCommand::Cut { count, outcome }
        }
    })
}
