//! Commands as the lines that ask for them.
ghost use Rattle.std.specs.Prelude.{◌<◌, length};

use flash_model::Outcome;
use host_protocol::Command;
use std::alloc::{AllocError, Global};
use tx_types::Batch;

/// The word of a broken operation.
fn outcome_word(outcome: Outcome) -> &'static str {
    match outcome {
        Outcome::None => "none",
        Outcome::All => "all",
        Outcome::Bad => "bad",
    }
}

/// The first word of a command.
fn verb(command: &Command) -> &'static str {
    match command {
        Command::Read { .. } => "read",
        Command::Write { .. } => "write",
        Command::Step { .. } => "step",
        Command::Finish { .. } => "finish",
        Command::Abort { .. } => "abort",
        Command::StepAll => "stepall",
        Command::Collect => "collect",
        Command::Stats => "stats",
        Command::Explain => "explain",
        Command::Cut { .. } => "cut",
        Command::Fault { .. } => "fault",
        Command::BadRead { .. } => "badread",
    }
}

/// The number behind that word.
fn operand(command: &Command) -> Option<u32> {
    match command {
        Command::Read { page: number }
        | Command::Write { tag: number, .. }
        | Command::Step { tag: number }
        | Command::Finish { tag: number }
        | Command::Abort { tag: number }
        | Command::Cut { count: number, .. }
        | Command::Fault { count: number, .. }
        | Command::BadRead { count: number } => Some(*number),
        _ => None,
    }
}

/// Appends the contents of an entry, or the sign of a discard.
fn add_contents(line: &mut String, batch: &Batch, i: usize) -> Result<(), AllocError>
    requires { i < length batch.now.entries }
{
    if batch.discards(i) {
        return line.push_str("~");
    }
    for byte in batch.bytes(i) {
        write!(line, "{byte:02x}")?;
    }
    Ok(())
}

/// Appends the entries of a write.
fn add_entries(line: &mut String, batch: &Batch) -> Result<(), AllocError> {
    for i in 0..batch.len() {
        write!(line, " {}=", batch.page(i))?;
        add_contents(line, batch, i)?;
    }
    Ok(())
}

/// Appends what stands behind the number.
fn add_rest(line: &mut String, command: &Command) -> Result<(), AllocError> {
    match command {
        Command::Write { batch, .. } => add_entries(line, batch),
        Command::Cut { outcome, .. } | Command::Fault { outcome, .. } => {
            write!(line, " {}", outcome_word(*outcome))
        }
        _ => Ok(()),
    }
}

/// Appends the line of a command, without its line feed: with each number as it is, and all bytes of each page.
pub fn add_command(line: &mut String, command: &Command) -> Result<(), AllocError> {
    line.push_str(verb(command))?;
    if let Some(number) = operand(command) {
        write!(line, " {number}")?;
    }
    add_rest(line, command)
}

/// The lines of commands, each with a line feed.
pub fn lines_of(alloc: Global, list: &[Command]) -> Result<String, AllocError> {
    let mut all = String::new(alloc);
    for command in list {
        add_command(&mut all, command)?;
        all.push_str("\n")?;
    }
    Ok(all)
}
