//! Tries the cases of a file on desks in memory, and prints which of them differ.
//!
//! The file is `cases.txt`, and its head tells what the lines of a case do. A paragraph is a case. What differs is
//! said with the number of its line, and last the number of cases. The status is 0, or 1 where a line is none of
//! these, 2 where there is no such file, 5 where nothing can be said, and 6 for want of memory.
#![tactic(auto)]

mod bytes;
mod calls;
mod checks;
mod files;
mod kinds;
mod record;
mod report;
mod stage;
mod stop;
mod trying;

use crate::report::Report;
use crate::stop::Stop;
use crate::trying::try_cases;
use desk_io::{Desk, LoadError, RealDesk, RealFolder};
use std::io;
use std::process::ExitCode;
use std::rt::Files;

/// The file of the cases.
const CASES: &str = "cases.txt";

fn main(rt: HostRuntime) -> ExitCode {
    let mut desk = RealDesk::new(&rt, RealFolder { rt: &rt });
    let loaded = desk.load(CASES);
    drop(desk);
    ExitCode::from(match loaded {
        Ok(bytes) => status_of(&rt, &bytes),
        Err(LoadError::Memory) => 6,
        Err(_) => 2,
    })
}

/// Tries the cases of a file, prints what differs and how many there are, and returns the status.
fn status_of<R: Files + Print + AllocGlobal>(rt: &R, bytes: &[u8]) -> u8 {
    let mut report = Report::new(rt.alloc());
    match str::from_utf8(bytes) {
        Ok(text) => {
            let tried = try_cases(rt.alloc(), text, &mut report);
            told(rt, tried, &report)
        }
        Err(_) => 1,
    }
}

/// Prints how trying the cases ended, and returns the status.
fn told<R: Print + AllocGlobal>(rt: &R, tried: Result<(), Stop>, report: &Report) -> u8 {
    match tried {
        Ok(()) => after(said(rt, report), 0),
        Err(Stop::BadLine) => after(println!(rt; "bad line {}", report.line), 1),
        Err(Stop::Memory) => 6,
    }
}

/// Prints what differs, and how many cases there are.
fn said<R: Print + AllocGlobal>(rt: &R, report: &Report) -> io::Result<()> {
    print!(rt; "{}", report.text.as_str())?;
    println!(rt; "{} cases", report.cases)
}

/// The status where this was said.
fn after(said: io::Result<()>, status: u8) -> u8 {
    if said.is_ok() { status } else { 5 }
}
