//! A desk of a file of the system, a reader and a writer. This is what is trusted of a session beside its file.

ghost use Rattle.std.specs.Prelude.{◌≡◌, [], Ok, Err, IfOk, OnOk};
ghost use Rattle.std.specs.Io.Buffered.{reader_buffer, writer_buffer};
ghost use Rattle.std.specs.Result.{is_err};
ghost use Rattle.host_protocol.specs.Lines.{HasNoFeed};
ghost use Rattle.live_session.specs.LineDesk.{after, closed_desk, with_left};
ghost use Rattle.live_session.specs.RealDesk.{claim_faults, call_faults};

use crate::lines::next_line;
use crate::{CallError, ClaimError, LineDesk, Next, Shown};
use desk_io::{LockFile, RealFolder};
use durable_folder::{Lock, save_locked};
use file_flash::RealStore;
use memchr::memchr;
use std::fs::{File, OpenOptions};
use std::io::{BufReader, BufWriter, Error, ErrorKind, Read, Write};
use std::os::unix::fs::MetadataExt;
use std::rt::HostRuntime;
use std::{fs, io};

/// The most bytes of a file that is served: as many as a live file has at most.
const MAX_LIVE_BYTES: u64 = 134414336;

/// The file that is held: its name, at the end of any link, and the file once more, which shares its lock.
#[derive(Drop)]
struct Held {
    name: String,
    file: File,
}

/// A desk whose lines come from a reader, and whose bytes go to a writer. It tells nothing but how many of its calls
/// failed. The reply of a command may be kept while the next line has come already: no input is waited for before all
/// that was said is written.
#[derive(Drop)]
pub struct RealLineDesk<'a, I: Read + Drop, O: Write + Drop> {
    rt: &'a HostRuntime,
    input: BufReader<I>,
    output: BufWriter<O>,
    held: Option<Held>,
    faults: u64,
}

impl<'a, I: Read + Drop, O: Write + Drop> RealLineDesk<'a, I, O> {
    /// A desk that has met no fault.
    pub fn new(
        rt: &'a HostRuntime,
        input: BufReader<I>,
        output: BufWriter<O>,
    ) -> RealLineDesk<'a, I, O>
        ensures { result.faults ≡ 0 }
    {
        RealLineDesk {
            rt,
            input,
            output,
            held: None,
            faults: 0,
        }
    }
}

impl<'a, F: Shown + Drop, I: Read + Drop, O: Write + Drop> LineDesk<RealStore, F>
    for RealLineDesk<'a, I, O> {
    ghost state = { λ d. closed_desk d.faults };

    fn claim(&mut self, name: &str) -> Result<RealStore, ClaimError> {
        answer_claim(claim(self.rt, name, &mut self.held), &mut self.faults)
    }

    fn next_line(&mut self, line: &mut Vec<u8>) -> Result<Next, CallError> {
        let written = write_before_waiting(&self.input, &mut self.output);
        answer_say(written, &mut self.faults)?;
        answer_line(next_line(&mut self.input, line), &mut self.faults)
    }

    fn say(&mut self, bytes: &[u8]) -> Result<(), CallError> {
        answer_say(write_through(&mut self.output, bytes), &mut self.faults)
    }

    /// The reply is kept, if it is short.
    fn answer(&mut self, _flash: &F, bytes: &[u8]) -> Result<(), CallError> {
        answer_say(self.output.write_all(bytes), &mut self.faults)
    }

    /// The new file is open for writing alone: a session reads its file once, when it is opened.
    fn replace(&mut self, file: &mut RealStore, bytes: &[u8]) -> Result<(), CallError> {
        match renew(self.rt, &mut self.held, bytes) {
            Ok(new) => {
                *file = RealStore::new(new);
                Ok(())
            }
            Err(_) => Err(CallError::Failed),
        }
    }

    /// What is kept and cannot be written is attempted once more with what is said last.
    fn close(&mut self, flash: F, bytes: &[u8]) -> Result<(), CallError> {
        let _ = self.output.flush();
        let renewed = renew(self.rt, &mut self.held, bytes);
        drop(flash);
        self.held = None;
        answer_close(renewed)
    }

    fn release(&mut self, flash: F)
        ensures { closed_desk self.new.faults ≡ after (with_left (F.seen flash)) (closed_desk self.old.faults) }
    {
        let _ = self.output.flush();
        drop(flash);
        self.held = None;
    }
}

/// Writes what is kept of an output, unless the next line of the input has come already.
fn write_before_waiting<I: Read + Drop, O: Write + Drop>(
    input: &BufReader<I>,
    output: &mut BufWriter<O>,
) -> io::Result<()>
    ensures { HasNoFeed (reader_buffer input.now) → OnOk result (writer_buffer output.new ≡ []) }
{
    if output.buffer().is_empty() || memchr(b'\n', input.buffer()).is_some() {
        return Ok(());
    }
    output.flush()
}

/// Writes bytes behind what is kept of an output, and keeps nothing.
fn write_through<O: Write + Drop>(output: &mut BufWriter<O>, bytes: &[u8]) -> io::Result<()>
    ensures { OnOk result (writer_buffer output.new ≡ []) }
{
    output.write_all(bytes)?;
    output.flush()
}

/// The answer of a claim. A fault is counted.
fn answer_claim<S>(claimed: Result<S, ClaimError>, faults: &mut u64) -> Result<S, ClaimError>
    ensures answer { result ≡ claimed }
    ensures faults { faults.new ≡ claim_faults claimed faults.old }
{
    if let Err(ClaimError::Failed) = claimed {
        *faults = faults.saturating_add(1);
    }
    claimed
}

/// The answer to a line that was read, or was not. A fault is counted.
fn answer_line(read: io::Result<Next>, faults: &mut u64) -> Result<Next, CallError>
    ensures ok { IfOk result (λ next. read ≡ Ok next) }
    ensures faults { faults.new ≡ call_faults result faults.old }
{
    match read {
        Ok(next) => Ok(next),
        Err(error) if error.kind() == ErrorKind::OutOfMemory => Err(CallError::Memory),
        Err(_) => {
            *faults = faults.saturating_add(1);
            Err(CallError::Failed)
        }
    }
}

/// The answer of a say, after writing to the output. Any error is a fault, since a part may have been written.
fn answer_say(done: io::Result<()>, faults: &mut u64) -> Result<(), CallError>
    ensures done { is_err result ≡ is_err done }
    ensures memory { result ≡ Err CallError.Memory → ⊥ }
    ensures faults { faults.new ≡ call_faults result faults.old }
{
    if done.is_err() {
        *faults = faults.saturating_add(1);
        return Err(CallError::Failed);
    }
    Ok(())
}

/// The answer to a closing, whose new file is let go.
fn answer_close(renewed: io::Result<File>) -> Result<(), CallError>
    ensures { result ≡ Err CallError.Memory → ⊥ }
{
    match renewed {
        Ok(new) => {
            drop(new);
            Ok(())
        }
        Err(_) => Err(CallError::Failed),
    }
}

/// Opens the file to which a name leads, and takes its lock, as a save does. A file that another one took the place of
/// in between is in use by who put that there.
fn claim(rt: &HostRuntime, name: &str, held: &mut Option<Held>) -> Result<RealStore, ClaimError>
    ensures { IfOk result (λ store. store.faults ≡ 0) }
{
    let file = open(rt, name).map_err(claim_error)?;
    if matches!(file.take_lock(), Ok(Lock::Elsewhere)) {
        return Err(ClaimError::InUse);
    }
    let name = end_of(rt, name).map_err(claim_error)?;
    if !leads_to(rt, &name, &file).map_err(claim_error)? {
        return Err(ClaimError::InUse);
    }
    let length = file.metadata().map_err(claim_error)?.len();
    if length > MAX_LIVE_BYTES {
        return Err(ClaimError::TooLong);
    }
    let again = file.try_clone().map_err(claim_error)?;
    *held = Some(Held { name, file: again });
    Ok(RealStore::new(file))
}

/// Opens a file for reading and writing that is there. It is not truncated, and links are followed.
fn open(rt: &HostRuntime, name: &str) -> io::Result<File> {
    OpenOptions::new().read(true).write(true).open(rt, name)
}

/// The name at the end of a link, or this name where it is none.
fn end_of(rt: &HostRuntime, name: &str) -> io::Result<String> {
    if !fs::symlink_metadata(rt, name)?.is_symlink() {
        return Ok(format!(in rt.alloc(); "{name}")?);
    }
    let end = fs::canonicalize(rt, name)?;
    let name = end.as_str();
    Ok(format!(in rt.alloc(); "{name}")?)
}

/// Whether a name leads to this open file.
fn leads_to(rt: &HostRuntime, name: &str, file: &File) -> io::Result<bool> {
    let named = fs::metadata(rt, name)?;
    let opened = file.metadata()?;
    Ok(named.dev() == opened.dev() && named.ino() == opened.ino())
}

/// Puts a new file with these bytes at the name of the one that is held, and holds it in the other's stead.
fn renew(rt: &HostRuntime, held: &mut Option<Held>, bytes: &[u8]) -> io::Result<File> {
    let Some(held) = held else {
        return Err(Error::from(ErrorKind::NotFound));
    };
    let new = save(rt, held, bytes)?;
    held.file = new.try_clone()?;
    Ok(new)
}

/// Puts a new file with these bytes at the name of the one that is held, as a save does. It is locked. Where the system
/// gives no leave for a new file, or the old one has several names, this is an error: nothing is written in place.
fn save(rt: &HostRuntime, held: &Held, bytes: &[u8]) -> io::Result<File> {
    let mut folder = RealFolder { rt };
    let saved = save_locked(&mut folder, rt.alloc(), &held.name, &held.file, bytes)?;
    saved.ok_or(Error::from(ErrorKind::Other))
}

/// Why a file was not opened, by the kind of the error.
fn claim_error(error: io::Error) -> ClaimError {
    match error.kind() {
        ErrorKind::NotFound => ClaimError::Missing,
        ErrorKind::OutOfMemory => ClaimError::Memory,
        _ => ClaimError::Failed,
    }
}
