ghost use Rattle.durable_folder.specs.Histories.{Rests};
ghost use Rattle.program_base.specs.Saying.{FaultTold, MemoryTold, Refuses, Speaks};
ghost use Rattle.program_base.specs.Statuses.{code};

use crate::status::Status;
use desk_io::{Desk, SinkError};
use std::alloc::AllocError;

/// Prints a text, if there is one, and returns the status.
pub fn say<D: Desk>(desk: &mut D, text: &[u8], status: Status) -> Status
    ensures speaks { Speaks (D.state desk.old) (D.state desk.new) text.now (code status) (code result) }
    ensures disk { Rests (D.disk desk.old) (D.disk desk.new) }
{
    if text.is_empty() {
        return status;
    }
    match desk.say(text) {
        Ok(()) => status,
        Err(SinkError::Failed) => desk_fault(desk),
        Err(SinkError::Memory) => no_memory(desk),
    }
}

/// Prints the line of a refusal, where there was memory for it, and returns the status.
pub fn refuse<D: Desk>(desk: &mut D, line: Result<String, AllocError>, status: Status) -> Status
    ensures refuses { Refuses (D.state desk.old) (D.state desk.new) line (code status) (code result) }
    ensures disk { Rests (D.disk desk.old) (D.disk desk.new) }
{
    match line {
        Ok(line) => say(desk, line.as_bytes(), status),
        Err(_) => no_memory(desk),
    }
}

/// Attempts to print that the desk met a fault.
pub fn desk_fault<D: Desk>(desk: &mut D) -> Status
    ensures told { FaultTold (D.state desk.old) (D.state desk.new) (code result) }
    ensures disk { Rests (D.disk desk.old) (D.disk desk.new) }
{
    let _ = desk.say(b"desk fault\n");
    Status::DeskFault
}

/// Attempts to print that there was no memory.
pub fn no_memory<D: Desk>(desk: &mut D) -> Status
    ensures told { MemoryTold (D.state desk.old) (D.state desk.new) (code result) }
    ensures disk { Rests (D.disk desk.old) (D.disk desk.new) }
{
    let _ = desk.say(b"no memory\n");
    Status::NoMemory
}
