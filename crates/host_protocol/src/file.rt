ghost use Rattle.std.specs.Prelude.{◌≡◌, ◌+◌, ◌≤◌, ◌++◌, ◌⊎◌, [], ℕ, List, length, sum_by, IfOk, IfErr, IfSome, OnOk, MatchResult, All};
ghost use Rattle.std.specs.Option.{option_to_list};
ghost use Rattle.host_protocol.specs.Commands.{Suits};
ghost use Rattle.host_protocol.specs.Files.{entries_in, IsFile, IsFirstBad};
ghost use Rattle.host_protocol.specs.Lines.{HasNoFeed};
ghost use Rattle.host_protocol.specs.Reading.{EndsAt};
ghost use Rattle.host_protocol.specs.declared.command.Command.{Command};

use crate::command::Command;
use crate::error::TextError;
use crate::line::line_command;
use crate::lines::{first_line, without_return};
use std::alloc::Global;
use tx_types::Memory;

/// The most commands of a file.
pub const MAX_COMMANDS: usize = 65536;

/// The most entries that all writes of a file may have.
pub const MAX_ENTRIES: usize = 262144;

/// The most bytes of a file.
pub const MAX_FILE_BYTES: usize = 134217728;

/// The commands of a file, for pages of this many bytes. The digits of all entries are read into one buffer, from which
/// each batch copies its bytes.
pub fn parse(alloc: Global, bytes: &[u8], page_bytes: u32) -> Result<Vec<Command>, TextError>
    requires { length bytes.now ≤ MAX_FILE_BYTES }

    // What is read is the file.
    ensures file { IfOk result (λ list. IsFile page_bytes bytes.now list.items) }
    ensures suits { IfOk result (λ list. All (Suits page_bytes) list.items) }
    ensures line { IfErr result (EndsAt page_bytes bytes.now) }

    // What is in the grammar is read, and the first line that is not is named, unless memory runs
    // out.
    ensures only { (commands : List Command) → IsFile page_bytes bytes.now commands
        → MatchResult result (λ list. list.items ≡ commands) (λ e. e ≡ TextError.Memory) }
    ensures first { (n : ℕ) → IsFirstBad page_bytes bytes.now n
        → MatchResult result (λ list. ⊥) (λ e. (e ≡ TextError.Line n) ⊎ (e ≡ TextError.Memory)) }
{
    let mut commands = no_commands(alloc, bytes)?;
    let mut room = Vec::new(alloc);
    add_commands(alloc, bytes, page_bytes, &mut room, &mut commands)?;
    Ok(commands)
}

/// The command of a file that is one line without a line feed, for pages of this many bytes; none for a blank line or a
/// comment. The room is used for the bytes of a page.
pub fn parse_line(
    alloc: Global,
    bytes: &[u8],
    page_bytes: u32,
    room: &mut Vec<u8>,
) -> Result<Option<Command>, TextError>
    requires { HasNoFeed bytes.now }

    // What is read is the file.
    ensures file { IfOk result (λ found. IsFile page_bytes bytes.now (option_to_list found)) }
    ensures suits { IfOk result (λ found. IfSome found (Suits page_bytes)) }
    ensures line { IfErr result (EndsAt page_bytes bytes.now) }

    // What is in the grammar is read, and a line that is not is named, unless memory runs out.
    ensures only { (commands : List Command) → IsFile page_bytes bytes.now commands
        → MatchResult result (λ found. option_to_list found ≡ commands) (λ e. e ≡ TextError.Memory) }
    ensures first { (n : ℕ) → IsFirstBad page_bytes bytes.now n
        → MatchResult result (λ found. ⊥) (λ e. (e ≡ TextError.Line n) ⊎ (e ≡ TextError.Memory)) }
{
    let line = without_return(bytes);
    match line_command(alloc, line, page_bytes, 0, MAX_ENTRIES, room) {
        Ok(found) => Ok(found),
        Err(e) => Err(e.at(1)),
    }
}

/// Adds the commands of a file to a list that has none. The room is used for the bytes of a page.
fn add_commands(
    alloc: Global,
    bytes: &[u8],
    page_bytes: u32,
    room: &mut Vec<u8>,
    commands: &mut Vec<Command>,
) -> Result<(), TextError>
    requires length { length bytes.now ≤ MAX_FILE_BYTES }
    requires empty { commands.old.items ≡ [] }
    ensures file { OnOk result (IsFile page_bytes bytes.now commands.new.items) }
    ensures line { IfErr result (EndsAt page_bytes bytes.now) }
{
    let mut entries_left = MAX_ENTRIES;
    let mut number = 0;
    let mut rest = bytes;
    while let Some((line, behind)) = first_line(rest) {
        number += 1;
        let before = commands.len();
        match line_command(alloc, line, page_bytes, before, entries_left, room) {
            Ok(found) => keep(commands, &mut entries_left, found)?,
            Err(e) => return Err(e.at(number)),
        }
        rest = behind;
    }
    Ok(())
}

/// The fewest bytes of a line with a command, and of its line feed.
const MIN_LINE_BYTES: usize = 6;

/// No commands, with room for as many as a file of this many bytes may have.
pub fn no_commands<T>(alloc: Global, bytes: &[u8]) -> Result<Vec<T>, Memory>
    ensures { IfOk result (λ list. list.items ≡ []) }
{
    let most = bytes.len() / MIN_LINE_BYTES + 1;
    Ok(Vec::with_capacity(alloc, MAX_COMMANDS.min(most))?)
}

/// Keeps the command of a line, if it has one, and takes its entries from those that are left.
fn keep(
    commands: &mut Vec<Command>,
    entries_left: &mut usize,
    found: Option<Command>,
) -> Result<(), Memory>
    requires { sum_by entries_in (option_to_list found) ≤ entries_left.old }
    ensures commands { OnOk result
        (commands.new.items ≡ commands.old.items ++ option_to_list found) }
    ensures entries_left { OnOk result
        (entries_left.new + sum_by entries_in (option_to_list found) ≡ entries_left.old) }
{
    if let Some(command) = found {
        *entries_left -= entry_count(&command);
        commands.push(command)?;
    }
    Ok(())
}

/// How many entries a command has.
pub fn entry_count(command: &Command) -> usize
    ensures { result ≡ entries_in command.now }
{
    match command {
        Command::Write { batch, .. } => batch.len(),
        _ => 0,
    }
}
