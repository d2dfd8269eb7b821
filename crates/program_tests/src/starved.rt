//! The status where there is no memory.
ghost use Rattle.std.specs.Prelude.{◌≡◌, None};
ghost use Rattle.desk_io.specs.System.{closed_desk};

use crate::calls::{is_done, status_of, words_of};
use crate::words::halves;
use desk_io::{Desk, LoadError, MemDesk, SinkError};
use std::alloc::{AllocError, Global};

/// A desk in memory that answers `Memory` at its call of one number, from 1, which changes nothing.
#[derive(Drop)]
struct StarvedDesk {
    desk: MemDesk,
    calls: u32,
    starved: u32,
}

impl StarvedDesk {
    /// Whether there is no memory for the next call.
    fn is_starved(&mut self) -> bool
        ensures { self.new.desk ≡ self.old.desk }
    {
        self.calls = self.calls.saturating_add(1);
        self.calls == self.starved
    }
}

impl Desk for StarvedDesk {
    ghost state = { λ d. closed_desk d.desk.faults };

    ghost disk = { λ _. None };

    fn load(&mut self, name: &str) -> Result<Vec<u8>, LoadError> {
        if self.is_starved() {
            return Err(LoadError::Memory);
        }
        self.desk.load(name)
    }

    fn save(&mut self, name: &str, bytes: &[u8]) -> Result<(), SinkError> {
        if self.is_starved() {
            return Err(SinkError::Memory);
        }
        self.desk.save(name, bytes)
    }

    fn say(&mut self, bytes: &[u8]) -> Result<(), SinkError> {
        if self.is_starved() {
            return Err(SinkError::Memory);
        }
        self.desk.say(bytes)
    }
}

/// A line for each call: the program, the number of the call of the desk for which there is no memory, the image that
/// `d.img` is then, and the words. `old.img` is what it was, `new.img` what a run leaves. A run loads twice, saves and
/// says. The line of a refusal is said as any text. flash_view loads an image, and says a picture or such a line.
const STARVED: &str = "\
    txflash 1 old.img run d.img c.txt\n\
    txflash 2 old.img run d.img c.txt\n\
    txflash 3 old.img run d.img c.txt\n\
    txflash 4 new.img run d.img c.txt\n\
    txflash 2 old.img try c.txt\n\
    txflash 2 old.img try no.txt\n\
    txflash 1 old.img drive 1 0 both\n\
    flash_view 1 old.img new.img\n\
    flash_view 2 old.img new.img\n\
    flash_view 2 old.img --svg --unsound unsound.img\n\
    flash_view 2 old.img unsound.img\n\
    flash_view 2 old.img no.img\n\
    flash_view 1 old.img ";

/// Makes the images of the lines, and commands. In `unsound.img` the record is that of a page which is not there.
fn is_filled(alloc: Global, desk: &mut MemDesk) -> bool {
    desk.put_file("c.txt", b"write 1 0=41\nfinish 1\nread 0\n")
        .is_ok()
        && is_done(alloc, "format old.img scc 16 4 4 2 20 7", desk)
        && is_done(alloc, "format d.img scc 16 4 4 2 20 7", desk)
        && is_done(alloc, "format new.img scc 16 4 4 2 20 7", desk)
        && is_done(alloc, "run new.img c.txt", desk)
        && is_unsound_put(alloc, desk)
        && desk.file("new.img") != desk.file("old.img")
}

/// Whether the image that is not sound could be put.
fn is_unsound_put(alloc: Global, desk: &mut MemDesk) -> bool {
    match unsound_image(alloc, desk) {
        Ok(image) => desk.put_file("unsound.img", &image).is_ok(),
        Err(_) => false,
    }
}

/// The new image where its record in slot 0 is one of page 20.
fn unsound_image(alloc: Global, desk: &MemDesk) -> Result<Vec<u8>, AllocError> {
    let mut image = desk.file("new.img").unwrap_or(b"").to_vec(alloc)?;
    if let Some(byte) = image.get_mut(120) {
        *byte = 20;
    }
    Ok(image)
}

/// The status of a call of flash_view with the words of a text, and 255 where there is no memory for them.
fn view_status(alloc: Global, text: &str, desk: &mut StarvedDesk) -> u8 {
    match words_of(alloc, text) {
        Ok(words) => view_command_line::top(alloc, &words, desk),
        Err(_) => 255,
    }
}

/// The status of a call of a program with the words of a text.
fn ended(alloc: Global, program: &str, text: &str, desk: &mut StarvedDesk) -> u8 {
    if program == "txflash" {
        status_of(alloc, text, desk)
    } else {
        view_status(alloc, text, desk)
    }
}

/// Whether a call is starved as its line says.
fn is_starved(alloc: Global, line: &str) -> bool {
    let mut desk = StarvedDesk {
        desk: MemDesk::new(alloc, Vec::new(alloc)),
        calls: 0,
        starved: 0,
    };
    let is_starved = is_filled(alloc, &mut desk.desk) && is_answered(alloc, line, &mut desk);
    drop(desk);
    is_starved
}

/// Whether a call on a desk that has its files is starved as its line says.
fn is_answered(alloc: Global, line: &str, desk: &mut StarvedDesk) -> bool {
    let (program, rest) = halves(line, " ");
    let (number, rest) = halves(rest, " ");
    let (left, text) = halves(rest, " ");
    desk.starved = number.parse().unwrap_or(0);
    let before = desk.desk.said().len();
    ended(alloc, program, text, desk) == 6
        && desk.desk.said().get(before..) == Some(b"no memory\n".as_slice())
        && desk.desk.file("d.img") == desk.desk.file(left)
}

#[test]
fn each_call_of_the_desk_may_find_no_memory(rt: HostRuntime) {
    for line in STARVED.split('\n') {
        assert!(rt; is_starved(rt.alloc(), line), "{line}");
    }
}
