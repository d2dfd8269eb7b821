ghost use Rattle.std.specs.Prelude.{◌≡◌, ◌+◌, ◌<◌, ◌≤◌, ◌∷◌, [], ℕ, List, length, IfOk, IfSome, IfErr, OnOk};
ghost use Rattle.host_protocol.specs.Commands.{Suits};
ghost use Rattle.host_protocol.specs.Files.{IsFile};
ghost use Rattle.host_protocol.specs.Lines.{lines_of};
ghost use Rattle.host_protocol.specs.Reading.{EndsAt};
ghost use Rattle.host_protocol.specs.declared.command.Command.{Command};
ghost use Rattle.host_protocol.specs.declared.file.TheConstants.{MAX_FILE_BYTES};
ghost use Rattle.desk_tasks.specs.CommandReading.{HasRead, ReadsLine, ReadsOn, length_of};
ghost use Rattle.desk_tasks.specs.Stops.{RefusesLine, StopsBy};

use crate::output::Failure;
use host_protocol::{Command, MAX_ENTRIES, TextError, entry_count, first_line, line_command};
use std::alloc::Global;

/// Reads the commands of a file one at a time, and keeps none.
#[derive(Drop)]
pub struct CommandReader<'a> {
    /// The bytes behind the lines that were read.
    pub rest: &'a [u8],
    /// How many lines were read.
    pub lines: u32,
    pub page_bytes: u32,
    /// How many commands those lines had.
    pub commands: usize,
    /// How many entries the writes behind them may have.
    pub entries_left: usize,
    /// Room for the bytes of a page.
    room: Vec<u8>,
}

impl<'a> CommandReader<'a> {
    /// A reader at the beginning of a file, for pages of this many bytes.
    pub fn new(alloc: Global, bytes: &'a [u8], page_bytes: u32) -> CommandReader<'a>
        ensures read { HasRead bytes.now [] result }
        ensures length { length_of result ≡ length bytes.now }
        ensures size { result.page_bytes ≡ page_bytes }
    {
        CommandReader {
            rest: bytes,
            lines: 0,
            page_bytes,
            commands: 0,
            entries_left: MAX_ENTRIES,
            room: Vec::new(alloc),
        }
    }

    /// The next command, none behind the last one.
    #[inline(always)]
    pub fn next(&mut self, alloc: Global) -> Result<Option<Command>, TextError>
        requires { length_of self.old ≤ MAX_FILE_BYTES }
        ensures reads { (bytes : List ℕ) → (commands : List Command) → HasRead bytes commands self.old →
            ReadsOn self.old.page_bytes bytes commands result self.new }
        ensures suits { IfOk result (λ found. IfSome found (Suits self.old.page_bytes)) }
        ensures shorter { IfOk result (λ found. IfSome found (λ c.
            length self.new.rest.now < length self.old.rest.now)) }
        ensures length { length_of self.new ≤ length_of self.old }
        ensures size { self.new.page_bytes ≡ self.old.page_bytes }
    {
        while let Some((line, behind)) = first_line(self.rest) {
            match self.read_line(alloc, line, behind)? {
                Some(command) => return Ok(Some(command)),
                None => {}
            }
        }
        Ok(None)
    }

    /// The command of the next line, which is this one, none for a blank line or a comment.
    #[inline(always)]
    fn read_line(
        &mut self,
        alloc: Global,
        line: &[u8],
        behind: &'a [u8],
    ) -> Result<Option<Command>, TextError>
        requires length { length_of self.old ≤ MAX_FILE_BYTES }
        requires line { lines_of self.old.rest.now ≡ line.now ∷ lines_of behind.now }
        requires shorter { length behind.now < length self.old.rest.now }
        ensures reads { (bytes : List ℕ) → (commands : List Command) → HasRead bytes commands self.old →
            ReadsLine self.old.page_bytes bytes commands result self.new }
        ensures suits { IfOk result (λ found. IfSome found (Suits self.old.page_bytes)) }
        ensures rest { self.new.rest.now ≡ behind.now }
        ensures lines { self.new.lines ≡ self.old.lines + 1 }
        ensures size { self.new.page_bytes ≡ self.old.page_bytes }
    {
        self.rest = behind;
        self.lines += 1;
        match line_command(
            alloc,
            line,
            self.page_bytes,
            self.commands,
            self.entries_left,
            &mut self.room,
        ) {
            Ok(Some(command)) => {
                self.commands += 1;
                self.entries_left -= entry_count(&command);
                Ok(Some(command))
            }
            Ok(None) => Ok(None),
            Err(error) => Err(error.at(self.lines)),
        }
    }

    /// Reads the commands that are left.
    pub fn read_all(&mut self, alloc: Global) -> Result<(), TextError>
        requires { length_of self.old ≤ MAX_FILE_BYTES }
        ensures file { (bytes : List ℕ) → (commands : List Command) → HasRead bytes commands self.old →
            OnOk result ((all : List Command) × IsFile self.old.page_bytes bytes all) }
        ensures line { (bytes : List ℕ) → (commands : List Command) → HasRead bytes commands self.old →
            IfErr result (EndsAt self.old.page_bytes bytes) }
    {
        while let Some(command) = self.next(alloc)? {
            drop(command);
        }
        Ok(())
    }
}

/// Finds whether bytes are a file of commands, which are not kept.
pub fn check_commands(alloc: Global, bytes: &[u8], page_bytes: u32) -> Result<(), Failure<'static>>
    requires { length bytes.now ≤ MAX_FILE_BYTES }
    ensures file { OnOk result ((commands : List Command) × IsFile page_bytes bytes.now commands) }
    ensures err { IfErr result (StopsBy (RefusesLine page_bytes bytes.now)) }
{
    let mut reader = CommandReader::new(alloc, bytes, page_bytes);
    let outcome = reader.read_all(alloc);
    drop(reader);
    Ok(outcome?)
}
