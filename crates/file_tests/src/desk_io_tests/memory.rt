//! A desk in memory on which chosen calls fail.
use super::steps::is_answered;
use crate::words::word;
use desk_io::{Desk, MemDesk, SinkError};
use std::alloc::Global;

/// Steps on a desk whose calls 2, 4 and 6 fail: a load, a call that says the first half of its bytes, and a save that
/// saves the first half of them. Those between them do not.
pub const CHOSEN: &str = "\
    memory gone a; put a one; put b; put a three; holds a three; holds b; load a three; broken a; missing c; \
    unsaid three; said th; say ree; said three; unsaved a seven77; holds a sev; save a eight; save c nine; \
    holds a eight; holds b; load c nine; long c nine";

/// Whether a step is done: a call of the desk, or `put` and `holds` with bytes, `gone`, `unsaid`, which meets a fault,
/// and `said` with all that was said.
fn is_done(desk: &mut MemDesk, step: &str) -> bool {
    let (name, bytes) = (word(step, 1), word(step, 2));
    match word(step, 0) {
        "put" => desk.put_file(name, bytes.as_bytes()).is_ok(),
        "holds" => desk.file(name) == Some(bytes.as_bytes()),
        "gone" => desk.file(name).is_none(),
        "unsaid" => matches!(desk.say(name.as_bytes()), Err(SinkError::Failed)),
        "said" => desk.said() == name.as_bytes(),
        verb => is_answered(desk, verb, name, bytes),
    }
}

/// Whether the steps of a line are done, one after the other.
fn are_done(desk: &mut MemDesk, line: &str) -> bool {
    for step in line.split("; ") {
        if !is_done(desk, step) {
            return false;
        }
    }
    true
}

/// The same of a new desk on which the chosen calls fail.
pub fn are_chosen_calls_right(alloc: Global, line: &str) -> bool {
    match vec![in alloc; 2, 4, 6] {
        Ok(fails) => {
            let mut desk = MemDesk::new(alloc, fails);
            let are_right = are_done(&mut desk, line);
            drop(desk);
            are_right
        }
        Err(_) => false,
    }
}
