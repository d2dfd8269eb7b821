ghost use Rattle.std.specs.Prelude.{◌≡◌, codes, IfOk, string_bytes};
ghost use Rattle.program_base.specs.Refusals.{line};
ghost use Rattle.live_session.specs.Endings.{EndsSo, FaultTold, MemoryTold, Refuses, Speaks, count_line, ending_of};
ghost use Rattle.live_session.specs.Saying.{SaidDurably};

use crate::{CallError, LineDesk};
use file_flash::Store;
use live_flash::LiveFlash;
use program_base::{ImageRefusal, Status};
use std::alloc::{AllocError, Global};
use tx_types::Slot;

/// How a call of the program ends.
#[derive(Clone, Copy)]
pub enum Ending<'a> {
    /// The input ended, no line was bad, and the file is closed.
    Closed,
    /// The same, but a line was bad.
    BadLine,
    /// The file is refused.
    Refused(ImageRefusal<'a>),
    /// The file is a live one, of which this slot has more zero bits than its number says.
    BadCount(Slot),
    /// Another program holds the file.
    InUse,
    /// A call of the desk or of the file failed.
    Fault,
    /// There was no memory.
    Memory,
}

/// The status where another program holds the file.
pub const IN_USE: u8 = 15;

/// Says how a call ends, and returns the status.
pub fn end<S: Store + Drop, D: LineDesk<S, LiveFlash<S>>>(
    alloc: Global,
    desk: &mut D,
    ending: Ending,
) -> u8
    ensures ends { EndsSo (ending_of ending.entry) (D.state desk.old) (D.state desk.new) result }
{
    match ending {
        Ending::Closed => Status::Done.code(),
        Ending::BadLine => Status::BadLine.code(),
        Ending::Refused(why) => refuse(desk, why.line(alloc), why.status().code()),
        Ending::BadCount(at) => refuse(desk, count_line(alloc, at), Status::BadImage.code()),
        Ending::InUse => tell(desk, b"in use\n", IN_USE),
        Ending::Fault => desk_fault(desk),
        Ending::Memory => no_memory(desk),
    }
}

/// The line for a live file of which this slot has more zero bits than its number says.
fn count_line(alloc: Global, at: Slot) -> Result<String, AllocError>
    ensures { IfOk result (λ text. string_bytes text ≡ count_line at.0) }
{
    let number = at.0;
    format!(in alloc; "bad image: count {number}\n")
}

/// Says the line of a refusal, where there was memory for it, and returns the status.
fn refuse<S: Store + Drop, D: LineDesk<S, LiveFlash<S>>>(
    desk: &mut D,
    line: Result<String, AllocError>,
    status: u8,
) -> u8
    ensures { Refuses (D.state desk.old) (D.state desk.new) line status result }
{
    match line {
        Ok(line) => tell(desk, line.as_bytes(), status),
        Err(_) => no_memory(desk),
    }
}

/// Says a line, and returns the status.
fn tell<S: Store + Drop, D: LineDesk<S, LiveFlash<S>>>(desk: &mut D, line: &[u8], status: u8) -> u8
    ensures { Speaks (D.state desk.old) (D.state desk.new) line.now status result }
{
    match desk.say(line) {
        Ok(()) => status,
        Err(CallError::Failed) => desk_fault(desk),
        Err(CallError::Memory) => no_memory(desk),
    }
}

/// Attempts to say that a call failed.
fn desk_fault<S: Store + Drop, D: LineDesk<S, LiveFlash<S>>>(desk: &mut D) -> u8
    ensures { FaultTold (D.state desk.old) (D.state desk.new) result }
{
    let _ = desk.say(b"desk fault\n");
    Status::DeskFault.code()
}

/// Attempts to say that there was no memory.
fn no_memory<S: Store + Drop, D: LineDesk<S, LiveFlash<S>>>(desk: &mut D) -> u8
    ensures { MemoryTold (D.state desk.old) (D.state desk.new) result }
{
    let _ = desk.say(b"no memory\n");
    Status::NoMemory.code()
}
