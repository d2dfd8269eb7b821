ghost use Rattle.std.specs.Prelude.{◌≡◌, ◌≤◌, ◌++◌, ◌⊎◌, ℕ, List, length, IfOk, IfErr, OnOk, MatchResult, All};
ghost use Rattle.std.specs.Option.{option_to_list};
ghost use Rattle.page_keys.specs.ScriptReading.{EndsAt};
ghost use Rattle.page_keys.specs.Scripts.{IsScript, IsFirstBadScriptLine, SuitsKeys};
ghost use Rattle.page_keys.specs.declared.command.KeyCommand.{KeyCommand};

use crate::command::KeyCommand;
use crate::key_line::key_line;
use host_protocol::{MAX_FILE_BYTES, TextError, first_line, no_commands};
use std::alloc::Global;
use tx_types::Memory;

/// The commands of a key script.
pub fn parse_keys(alloc: Global, bytes: &[u8]) -> Result<Vec<KeyCommand>, TextError>
    requires { length bytes.now ≤ MAX_FILE_BYTES }

    // What is read is the script.
    ensures script { IfOk result (λ list. IsScript bytes.now list.items) }
    ensures suits { IfOk result (λ list. All SuitsKeys list.items) }
    ensures line { IfErr result (EndsAt bytes.now) }

    // What is in the grammar is read, and the first line that is not is named, unless memory runs out.
    ensures only { (commands : List KeyCommand) → IsScript bytes.now commands
        → MatchResult result (λ list. list.items ≡ commands) (λ e. e ≡ TextError.Memory) }
    ensures first { (n : ℕ) → IsFirstBadScriptLine bytes.now n → MatchResult result
        (λ list. ⊥) (λ e. (e ≡ TextError.Line n) ⊎ (e ≡ TextError.Memory)) }
{
    let mut commands = no_commands(alloc, bytes)?;
    let mut number = 0;
    let mut rest = bytes;
    while let Some((line, behind)) = first_line(rest) {
        number += 1;
        match key_line(alloc, line, commands.len()) {
            Ok(found) => keep(&mut commands, found)?,
            Err(e) => return Err(e.at(number)),
        }
        rest = behind;
    }
    Ok(commands)
}

/// Keeps the command of a line, if it has one.
fn keep(commands: &mut Vec<KeyCommand>, found: Option<KeyCommand>) -> Result<(), Memory>
    ensures { OnOk result (commands.new.items ≡ commands.old.items ++ option_to_list found) }
{
    if let Some(command) = found {
        commands.push(command)?;
    }
    Ok(())
}
