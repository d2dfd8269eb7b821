//! The program: it draws the flash of an image file, as text or in SVG.
#![tactic(auto)]

use desk_io::{RealDesk, RealFolder};
use program_base::{Status, status_of_bad_args};
use std::env;
use std::process::ExitCode;
pub use view_command_line::top;

fn main(rt: HostRuntime) -> ExitCode {
    let args = match env::args(&rt) {
        Ok(args) => args,
        Err(error) => return ExitCode::from(status_of_bad_args(error.kind()).code()),
    };
    let mut words = Vec::new(rt.alloc());
    for word in args.skip(1) {
        if words.push(word).is_err() {
            return ExitCode::from(Status::NoMemory.code());
        }
    }
    let mut desk = RealDesk::new(&rt, RealFolder { rt: &rt });
    let status = top(rt.alloc(), &words, &mut desk);
    drop(desk);
    ExitCode::from(status)
}
