//! The program: it serves files of commands on devices whose flash is a file or in memory, and prints the replies.
#![tactic(auto)]

pub use command_line::{KeptReplies, top};
use desk_io::{RealDesk, RealFolder};
use program_base::{Status, status_of_bad_args};
use std::alloc::Global;
use std::fs::File;
use std::process::ExitCode;
use std::{env, fs, io};

/// Bytes of a piece of memory that is taken and given back untouched. It is the greatest that counts for the C
/// library, its own notes included.
const FREED_BYTES: usize = (1 << 25) - (1 << 16);

fn main(rt: HostRuntime) -> ExitCode {
    keep_heap(rt.alloc());
    let standard = open_standard(&rt);
    let status = serve(&rt);
    drop(standard);
    status
}

/// Files that take the places of input, output and messages where the program was started without them. Else an image
/// would be opened there, and the replies would be written into it.
fn open_standard(rt: &HostRuntime) -> [io::Result<File>; 3] {
    [
        fs::open(rt, "/dev/null"),
        fs::open(rt, "/dev/null"),
        fs::open(rt, "/dev/null"),
    ]
}

/// Does what the words ask for, on real files.
fn serve(rt: &HostRuntime) -> ExitCode {
    let args = match env::args(rt) {
        Ok(args) => args,
        Err(error) => return ExitCode::from(status_of_bad_args(error.kind()).code()),
    };
    let mut words = Vec::new(rt.alloc());
    for word in args.skip(1) {
        if words.push(word).is_err() {
            return ExitCode::from(Status::NoMemory.code());
        }
    }
    let mut desk = RealDesk::new(rt, RealFolder { rt });
    let status = top(rt.alloc(), &words, &mut desk);
    drop(desk);
    ExitCode::from(status)
}

/// Lets the C library keep memory that is freed: it gives back to the system what is free beyond twice the largest
/// piece that ever was. A device that is mounted again takes the same tables once more. So does the allocator of glibc.
/// The piece that is taken here is never written, so it costs no memory of the machine.
#[inline(never)]
fn keep_heap(alloc: Global) {
    let _ = Vec::<u8>::with_capacity(alloc, FREED_BYTES);
}
