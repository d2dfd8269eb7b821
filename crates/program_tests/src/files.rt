//! The program on real files, in a folder of the test's own. What it says is written to a file there.
use crate::calls::status_of;
use crate::words::{halves, line_at};
use desk_io::{RealDesk, RealFolder};
use std::alloc::Global;
use std::fmt::Display;
use std::fs::OpenOptions;
use std::io::{Error, ErrorKind, Write};
use std::{fs, io};

/// A runtime whose standard output is a file, for bytes, which are all that a desk says.
#[derive(Drop)]
struct Printing<'a> {
    rt: &'a HostRuntime,
    output: &'a str,
}

impl Alloc for Printing<'_> {
    type A = Global;

    fn alloc(&self) -> Global {
        self.rt.alloc()
    }
}

impl Print for Printing<'_> {
    fn print<D: Display + Drop>(&self, _value: D) -> io::Result<()> {
        Err(Error::from(ErrorKind::Unsupported))
    }

    fn println<D: Display + Drop>(&self, _value: D) -> io::Result<()> {
        Err(Error::from(ErrorKind::Unsupported))
    }

    fn write_all(&self, bytes: &[u8]) -> io::Result<()> {
        let mut how = OpenOptions::new();
        let how = how.append(true).create(true);
        how.open(self.rt, self.output)?.write_all(bytes)
    }
}

/// The file of what is said.
const SAID: &str = "test_files/said.txt";

/// The status of a call of txflash on the files of the system, with what it says at the end of a file.
fn ended(rt: &HostRuntime, output: &str, text: &str) -> u8 {
    let printing = Printing { rt, output };
    let mut desk = RealDesk::new(&printing, RealFolder { rt });
    let status = status_of(rt.alloc(), text, &mut desk);
    drop(desk);
    status
}

/// A line for each call, one after the other: the status, the lines that are said, and the words. First a device is
/// made and used; then a folder stands in place of a file, or there is no such file or folder.
const CALLS: &str = "\
    0|formatted test_files/d.img 32|format test_files/d.img scc 16 4 4 2 20 7\n\
    0|blank 0|run test_files/d.img test_files/read.txt\n\
    0|open 1 1;done 1|run test_files/d.img test_files/write.txt\n\
    0|page 0 41000000000000000000000000000000|run test_files/d.img test_files/read.txt\n\
    0|verdict 0 newest 1 committed cycle current 1 walk 0:1;explained 1|explain test_files/d.img\n\
    0|blank 0|try test_files/read.txt\n\
    5|desk fault|run test_files test_files/read.txt\n\
    5|desk fault|run test_files/d.img test_files\n\
    5|desk fault|try test_files\n\
    5|desk fault|explain test_files\n\
    5|desk fault|format test_files scc 16 4 4 2 20 7\n\
    5|desk fault|format test_files/no/d.img scc 16 4 4 2 20 7\n\
    2|no file test_files/no.txt|run test_files/d.img test_files/no.txt\n\
    2|no file test_files/no/d.img|run test_files/no/d.img test_files/no.txt\n\
    3|bad image: short|explain test_files/read.txt\n\
    1|bad words|run test_files/d.img\n\
    0|page 0 41000000000000000000000000000000|run test_files/d.img test_files/read.txt";

/// What is read of the image that was saved where nothing could be said.
const UNSAID: &str = "\
    0|page 0 42000000000000000000000000000000|run test_files/d.img test_files/read.txt";

/// Whether a text has these lines, with a `;` between them.
fn are_lines(text: &str, lines: &str) -> bool {
    let mut at: usize = 0;
    for line in lines.split(';') {
        if line_at(text, at) != line {
            return false;
        }
        at = at.saturating_add(1);
    }
    text.ends_with('\n') && text.split('\n').count() == at.saturating_add(1)
}

/// Whether these lines and no more were said.
fn are_said(rt: &HostRuntime, lines: &str) -> bool {
    match fs::read(rt, SAID) {
        Ok(said) => are_lines(str::from_utf8(said.as_slice()).unwrap_or(""), lines),
        Err(_) => false,
    }
}

/// Whether a call is answered as its line says.
fn is_answered(rt: &HostRuntime, line: &str) -> bool {
    let (status, rest) = halves(line, "|");
    let (lines, text) = halves(rest, "|");
    fs::write(rt, SAID, b"").is_ok()
        && status.parse() == Ok(ended(rt, SAID, text))
        && are_said(rt, lines)
}

/// Whether an image is saved before replies that cannot be said, and the folder of the test could be removed then.
fn is_saved_unsaid(rt: &HostRuntime) -> bool {
    ended(rt, "/dev/full", "run test_files/d.img test_files/other.txt") == 5
        && is_answered(rt, UNSAID)
        && fs::remove_dir_all(rt, "test_files").is_ok()
}

/// Whether the folder of the test could be made, with files of commands.
fn is_folder_made(rt: &HostRuntime) -> bool {
    let _ = fs::remove_dir_all(rt, "test_files");
    fs::create_dir(rt, "test_files").is_ok()
        && fs::write(rt, "test_files/read.txt", "read 0\n").is_ok()
        && fs::write(rt, "test_files/write.txt", "write 1 0=41\nfinish 1\n").is_ok()
        && fs::write(rt, "test_files/other.txt", "write 1 0=42\nfinish 1\n").is_ok()
}

#[test]
fn files_of_the_system_are_served(rt: HostRuntime) {
    assert!(rt; is_folder_made(&rt));
    for line in CALLS.split('\n') {
        assert!(rt; is_answered(&rt, line), "{line}");
    }
    assert!(rt; is_saved_unsaid(&rt));
}
