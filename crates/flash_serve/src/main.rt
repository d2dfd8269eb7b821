//! The program: it serves the lines of its input, one by one, on a device whose flash is an image file that it holds.
#![tactic(auto)]

use file_flash::RealStore;
use live_session::RealLineDesk;
pub use live_session::top;
use program_base::{Status, status_of_bad_args};
use std::fs::File;
use std::io::{BufReader, BufWriter};
use std::process::ExitCode;
use std::{env, fs, io};

fn main(rt: HostRuntime) -> ExitCode {
    let standard = open_standard(&rt);
    let status = serve(&rt);
    drop(standard);
    status
}

/// Files that take the places of input, output and messages where the program was started without them. Else the image
/// would be opened there, and the replies would be written into it.
fn open_standard(rt: &HostRuntime) -> [io::Result<File>; 3] {
    [
        fs::open(rt, "/dev/null"),
        fs::open(rt, "/dev/null"),
        fs::open(rt, "/dev/null"),
    ]
}

/// The most bytes that are read of the input at once: as many as a pipe holds.
const INPUT_BYTES: usize = 65536;

/// The most bytes of replies that are kept while the next line has come already: a few short replies.
const REPLY_BYTES: usize = 64;

/// Serves the image that the words name.
fn serve(rt: &HostRuntime) -> ExitCode {
    let args = match env::args(rt) {
        Ok(args) => args,
        Err(error) => return ExitCode::from(status_of_bad_args(error.kind()).code()),
    };
    let mut words = Vec::new(rt.alloc());
    for word in args.skip(1) {
        if words.push(word).is_err() {
            return ExitCode::from(Status::NoMemory.code());
        }
    }
    let Ok(input) = BufReader::with_capacity(rt.alloc(), INPUT_BYTES, rt.reader()) else {
        return ExitCode::from(Status::NoMemory.code());
    };
    let Ok(output) = BufWriter::with_capacity(rt.alloc(), REPLY_BYTES, rt.stdout()) else {
        return ExitCode::from(Status::NoMemory.code());
    };
    let mut desk = RealLineDesk::new(rt, input, output);
    let status = top::<RealStore, _>(rt.alloc(), &words, &mut desk);
    drop(desk);
    ExitCode::from(status)
}
