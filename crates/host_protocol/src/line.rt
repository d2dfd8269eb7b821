ghost use Rattle.std.specs.Prelude.{◌≡◌, ◌≢◌, ◌≤◌, ◌+◌, [], false, length, IfOk, IfNone, IfSome, OnOk, IsErrOf};
ghost use Rattle.host_protocol.specs.Files.{is_command_line};
ghost use Rattle.host_protocol.specs.Lines.{words_of};
ghost use Rattle.host_protocol.specs.Reading.{AddsCommand, AddsNone, HasEntries, HasNoEntries, IsWritePast, IsWriteWithin, MakesCommand, MakesNone, MakesPlain};

use crate::command::Command;
use crate::entry::{first_entry, value_by_room};
use crate::error::LineError;
use crate::file::MAX_COMMANDS;
use crate::leading::leading_verb;
use crate::operands::{arm, first_number, lone_count, lone_number, no_word};
use crate::verb::Verb;
use std::alloc::Global;
use tx_types::Batch;

/// The command of a line, none for a blank line or a comment. There are `before` commands before
/// it, and a write may have at most `entries_left` entries. The room is used for the bytes of a page.
pub fn line_command(
    alloc: Global,
    line: &[u8],
    page_bytes: u32,
    before: usize,
    entries_left: usize,
    room: &mut Vec<u8>,
) -> Result<Option<Command>, LineError>
    ensures idle { IfOk result (λ found. IfNone found (is_command_line line.now ≡ false)) }
    ensures command { IfOk result
        (λ found. IfSome found (AddsCommand page_bytes line.now before entries_left)) }
    ensures bad { IsErrOf result LineError.Bad → AddsNone page_bytes line.now before entries_left }
{
    let Some((verb, words)) = leading_verb(line)? else {
        return Ok(None);
    };
    if before >= MAX_COMMANDS {
        return Err(LineError::Bad);
    }
    let command = command(alloc, verb, words, page_bytes, entries_left, room)?;
    Ok(Some(command))
}

/// The command of a verb and the words behind it. A write may have at most `entries_left` entries.
fn command(
    alloc: Global,
    verb: Verb,
    words: &[u8],
    page_bytes: u32,
    entries_left: usize,
    room: &mut Vec<u8>,
) -> Result<Command, LineError>
    ensures ok { IfOk result (MakesCommand page_bytes verb (words_of words.now) entries_left) }
    ensures bad { IsErrOf result LineError.Bad →
        MakesNone page_bytes verb (words_of words.now) entries_left }
{
    match verb {
        Verb::Write => {
            let (tag, batch) = write(alloc, words, page_bytes, entries_left, room)?;
            Ok(Command::Write { tag, batch })
        }
        _ => plain(verb, words).ok_or(LineError::Bad),
    }
}

/// The command of a verb and the words behind it, where it is no write.
fn plain(verb: Verb, words: &[u8]) -> Option<Command>
    ensures { MakesPlain verb (words_of words.now) result }
{
    match verb {
        Verb::Read => Some(Command::Read {
            page: lone_number(words)?,
        }),
        Verb::Write => None,
        Verb::Step => Some(Command::Step {
            tag: lone_number(words)?,
        }),
        Verb::Finish => Some(Command::Finish {
            tag: lone_number(words)?,
        }),
        Verb::Abort => Some(Command::Abort {
            tag: lone_number(words)?,
        }),
        Verb::StepAll => bare(words, Command::StepAll),
        Verb::Collect => bare(words, Command::Collect),
        Verb::Stats => bare(words, Command::Stats),
        Verb::Explain => bare(words, Command::Explain),
        Verb::Cut => {
            let (count, outcome) = arm(words)?;
            Some(Command::Cut { count, outcome })
        }
        Verb::Fault => {
            let (count, outcome) = arm(words)?;
            Some(Command::Fault { count, outcome })
        }
        Verb::BadRead => Some(Command::BadRead {
            count: lone_count(words)?,
        }),
    }
}

/// The command, where no word is behind its verb.
fn bare(words: &[u8], command: Command) -> Option<Command>
    ensures some { IfSome result (λ c. (c ≡ command) × (words_of words.now ≡ [])) }
    ensures none { IfNone result (words_of words.now ≢ []) }
{
    no_word(words)?;
    Some(command)
}

/// The tag and the pages of a write, which may have at most `entries_left` entries.
fn write(
    alloc: Global,
    words: &[u8],
    page_bytes: u32,
    entries_left: usize,
    room: &mut Vec<u8>,
) -> Result<(u32, Batch), LineError>
    ensures ok { IfOk result
        (λ w. IsWriteWithin page_bytes (words_of words.now) entries_left w.0 w.1) }
    ensures bad { IsErrOf result LineError.Bad →
        IsWritePast page_bytes (words_of words.now) entries_left }
{
    let (tag, behind) = first_number(words).ok_or(LineError::Bad)?;
    let batch = entries(alloc, behind, page_bytes, entries_left, room)?;
    Ok((tag, batch))
}

/// The pages of a write, by its entries, of which there may be at most `entries_left`.
fn entries(
    alloc: Global,
    words: &[u8],
    page_bytes: u32,
    entries_left: usize,
    room: &mut Vec<u8>,
) -> Result<Batch, LineError>
    ensures ok { IfOk result (HasEntries page_bytes (words_of words.now) entries_left) }
    ensures bad { IsErrOf result LineError.Bad →
        HasNoEntries page_bytes (words_of words.now) entries_left }
{
    let mut batch = Batch::with_room(alloc, page_bytes, likely_entries(words, page_bytes))?;
    add_entries(words, page_bytes, entries_left, room, &mut batch)?;
    Ok(batch)
}

/// Adds the pages of a write to a batch that has none, by its entries.
fn add_entries(
    words: &[u8],
    page_bytes: u32,
    entries_left: usize,
    room: &mut Vec<u8>,
    batch: &mut Batch,
) -> Result<(), LineError>
    requires { batch.old ≡ record { page_bytes = page_bytes; entries = [] } }
    ensures ok { OnOk result
        (HasEntries page_bytes (words_of words.now) entries_left batch.new) }
    ensures bad { IsErrOf result LineError.Bad →
        HasNoEntries page_bytes (words_of words.now) entries_left }
{
    let mut rest = words;
    while let Some((page, text, behind, is_read)) = first_entry(rest, page_bytes, room)? {
        if batch.len() >= entries_left {
            return Err(LineError::Bad);
        }
        match value_by_room(text, is_read, page_bytes, room)? {
            Some(bytes) => batch.add(page, bytes)?,
            None => batch.add_discard(page)?,
        }
        rest = behind;
    }
    Ok(())
}

/// The bytes of words that are so few that their entries are not counted.
const FEW_BYTES: usize = 32;

/// The bytes of a short entry, and of the space before it.
const SHORT_BYTES: usize = 8;

/// For how many entries room is taken at once.
#[inline(always)]
fn likely_entries(words: &[u8], page_bytes: u32) -> usize
    ensures { result ≤ length words.now + NEAR_BYTES }
{
    if words.len() <= FEW_BYTES {
        return words.len() / SHORT_BYTES + 1;
    }
    near_entries(words).max(whole_entries(words, page_bytes))
}

/// The fewest bytes of an entry of a whole page but for its digits: a space, a digit and an equals sign.
const FEWEST_OTHERS: usize = 3;

/// How many entries there are at most if each is of a whole page: room for this many is taken at once, too.
fn whole_entries(words: &[u8], page_bytes: u32) -> usize
    ensures { result ≤ length words.now }
{
    words.len() / (2 * page_bytes as usize + FEWEST_OTHERS)
}

/// The bytes behind a tag in which entries are counted beforehand.
const NEAR_BYTES: usize = 64;

/// How many equals signs stand near the beginning: room for at least this many entries is taken at once.
fn near_entries(words: &[u8]) -> usize
    ensures { result ≤ NEAR_BYTES }
{
    let mut count: u8 = 0;
    for byte in &words[..words.len().min(NEAR_BYTES)] {
        count += u8::from(*byte == b'=');
    }
    count as usize
}
