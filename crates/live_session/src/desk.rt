ghost use Rattle.std.specs.Prelude.{◌≡◌, ◌≤◌, length, IfOk, OnOk, Some, None};
ghost use Rattle.file_flash.specs.FileFlashState.{FileFlashState};
ghost use Rattle.host_protocol.specs.Lines.{HasNoFeed};
ghost use Rattle.live_session.specs.LineDesk.{LineDeskState, Claims, Closes, ReadsLine, Replaces, Says};
ghost use Rattle.live_session.specs.LineDesk.{after, with_left};
ghost use Rattle.live_session.specs.declared.lines.TheConstants.{MAX_LINE_BYTES};

use file_flash::Store;
use live_flash::LiveFlash;

/// Why a call of a desk was not done.
#[derive(Clone, Copy, PartialEq, Eq)]
pub enum CallError {
    /// The desk met a fault.
    Failed,
    /// There was no memory.
    Memory,
}

/// Why a file was not opened.
#[derive(Clone, Copy, PartialEq, Eq)]
pub enum ClaimError {
    /// There is no file of this name.
    Missing,
    /// The file has more bytes than a desk loads.
    TooLong,
    /// Another program holds the file.
    InUse,
    /// The desk met a fault.
    Failed,
    /// There was no memory.
    Memory,
}

/// What comes next of an input.
#[derive(Clone, Copy, PartialEq, Eq)]
pub enum Next {
    /// A line, which ended with a line feed.
    Line,
    /// A line with too many bytes, which are read over.
    LongLine,
    /// The bytes behind the last line feed.
    Part,
    /// The end.
    End,
}

/// A flash that is a file.
pub trait Shown {
    /// What it is: the flash in memory, and what a loss of power may leave of the file.
    ghost seen: { Self → FileFlashState };
}

impl<S: Store + Drop> Shown for LiveFlash<S> {
    ghost seen = { λ f. f };
}

/// A file that is held while it is served, as a store of this type, by a flash of that; lines that come in; and a place
/// where bytes are said.
pub trait LineDesk<S: Store + Drop, F: Shown + Drop> {
    /// What the desk is: what it tells, if it does, and how many of its calls failed.
    ghost state: { Self → LineDeskState };

    /// Opens the file of this name for reading and writing, as it stands, and holds it against other programs until it
    /// is closed. No call of it has failed then.
    fn claim(&mut self, name: &str) -> Result<S, ClaimError>
        ensures claims { Claims S.told (state self.old) (state self.new) name.now result }
        ensures fresh { IfOk result (λ file. S.faults file ≡ 0) };

    /// Waits for the next line of the input, and puts its bytes there, without its line feed.
    fn next_line(&mut self, line: &mut Vec<u8>) -> Result<Next, CallError>
        ensures reads { ReadsLine (state self.old) (state self.new) line.new.items result }
        ensures most { OnOk result (length line.new.items ≤ MAX_LINE_BYTES) }
        ensures feeds { OnOk result (HasNoFeed line.new.items) };

    /// Says bytes that claim nothing of what was done, after all that was said before.
    fn say(&mut self, bytes: &[u8]) -> Result<(), CallError>
        ensures { Says None (state self.old) (state self.new) bytes.now result };

    /// Says the reply of a command, and is lent the flash as it stands when this is said: what holds at every moment of
    /// a session is thus a clause on the list of what was said.
    fn answer(&mut self, flash: &F, bytes: &[u8]) -> Result<(), CallError>
        ensures { Says (Some (F.seen flash.now)) (state self.old) (state self.new) bytes.now result };

    /// Puts a new file with these bytes at the name of the one that is held, and holds it in the other's stead, without
    /// letting go in between. Once this is done the bytes are durable, and so is that they are at the name, and no call
    /// of the new file has failed.
    fn replace(&mut self, file: &mut S, bytes: &[u8]) -> Result<(), CallError>
        ensures replaces { Replaces (S.told file.old) (S.told file.new) (state self.old) (state self.new)
            bytes.now result }
        ensures fresh { OnOk result (S.faults file.new ≡ 0) };

    /// Puts a new file with these bytes at the name of that of a flash, in the same way, and closes it.
    fn close(&mut self, flash: F, bytes: &[u8]) -> Result<(), CallError>
        ensures { Closes (F.seen flash) (state self.old) (state self.new) bytes.now result };

    /// Closes a file, whose flash the session leaves as it stands.
    fn release(&mut self, flash: F)
        ensures { state self.new ≡ after (with_left (F.seen flash)) (state self.old) };
}
