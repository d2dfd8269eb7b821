//! Steps that are taken on desks, on a folder and on the files of the system: a verb, a name, and bytes or another
//! word.
ghost use Rattle.std.specs.Prelude.{◌≡◌, Err, IfSome, OnOk, IsSome};
ghost use Rattle.desk_io.specs.Desk.{after_fault, as_before, file_at};

use crate::words::{halves, word};
use desk_io::{Desk, LoadError, SinkError};
use durable_folder::{Folder, Lock, save_locked};
use std::alloc::Global;
use std::fs;
use std::fs::{OpenOptions, Permissions};
use std::os::unix::fs::{MetadataExt, PermissionsExt, symlink};

/// The length of a file, on any desk.
fn length_on<D: Desk>(desk: &mut D, name: &str) -> Result<usize, LoadError>
    ensures there { OnOk result (IfSome (D.state desk.old).told (λ c. IsSome (file_at c.files name.now))) }
    ensures fault { result ≡ Err LoadError.Failed → D.state desk.new ≡ after_fault as_before (D.state desk.old) }
{
    Ok(desk.load(name)?.len())
}

/// What is told of an error of a load.
fn error_word(error: LoadError) -> &'static str {
    match error {
        LoadError::Missing => "missing",
        LoadError::TooLong => "endless",
        LoadError::Failed => "broken",
        LoadError::Memory => "memory",
    }
}

/// Whether a load ends as its verb says: `load` with these bytes, and any other with its error.
fn is_loaded<D: Desk>(desk: &mut D, verb: &str, name: &str, bytes: &[u8]) -> bool {
    match desk.load(name) {
        Ok(found) => verb == "load" && found.as_slice() == bytes,
        Err(error) => verb == error_word(error),
    }
}

/// Whether a call of a desk ends as it should: `save` and `unsaved` with bytes, `keep`, a save and a load of bytes,
/// `long` with as many as are there, `say`, or else a load.
pub fn is_answered<D: Desk>(desk: &mut D, verb: &str, name: &str, text: &str) -> bool {
    let bytes = text.as_bytes();
    match verb {
        "save" => desk.save(name, bytes).is_ok(),
        "unsaved" => matches!(desk.save(name, bytes), Err(SinkError::Failed)),
        "keep" => desk.save(name, bytes).is_ok() && is_loaded(desk, "load", name, bytes),
        "long" => matches!(length_on(desk, name), Ok(length) if length == bytes.len()),
        "say" => desk.say(name.as_bytes()).is_ok(),
        _ => is_loaded(desk, verb, name, bytes),
    }
}

/// Whether the file has these bytes.
pub fn has(rt: &HostRuntime, name: &str, bytes: &[u8]) -> bool {
    match fs::read(rt, name) {
        Ok(found) => found.as_slice() == bytes,
        Err(_) => false,
    }
}

/// Whether nothing stands at a name.
pub fn is_absent(rt: &HostRuntime, name: &str) -> bool {
    matches!(fs::exists(rt, name), Ok(false))
}

/// Whether what is known of a file is so: `mode` with that of those who may read and write it, and else `names` with
/// how many it has.
fn is_known(rt: &HostRuntime, verb: &str, name: &str, number: u32) -> bool {
    match fs::metadata(rt, name) {
        Ok(found) => {
            if verb == "mode" {
                found.permissions().mode() & 0o777 == number
            } else {
                found.nlink() == u64::from(number)
            }
        }
        Err(_) => false,
    }
}

/// Whether a folder of the tests' own is there, empty.
pub fn is_made(rt: &HostRuntime, name: &str) -> bool {
    let _ = fs::remove_dir_all(rt, name);
    fs::create_dir(rt, name).is_ok()
}

/// Whether a file is left at one of the names that a new file may have.
fn is_left(rt: &HostRuntime, name: &str, number: u32) -> bool {
    match format!(in rt.alloc(); "{name}.saving{number}") {
        Ok(name) => fs::write(rt, &name, b"left").is_ok(),
        Err(_) => false,
    }
}

/// Whether files are left at all names that a new file may have but the first.
fn are_left(rt: &HostRuntime, name: &str) -> bool {
    for number in 2..100 {
        if !is_left(rt, name, number) {
            return false;
        }
    }
    true
}

/// Whether what is done to the files of the system is done, or is so: `write` and `has` with bytes, `twin` with a
/// second name, `link` with the name that leads there, `mode` and `chmod` with a mode, `names` with how many there are,
/// `absent`, `folder`, which is made empty, `left` at all names but the first, and `removed`, a folder.
pub fn is_done_to_files(rt: &HostRuntime, step: &str) -> bool {
    let (name, other) = (word(step, 1), word(step, 2));
    let number = u32::from_str_radix(other, 8).unwrap_or(0);
    match word(step, 0) {
        "write" => fs::write(rt, name, other.as_bytes()).is_ok(),
        "has" => has(rt, name, other.as_bytes()),
        "twin" => fs::hard_link(rt, name, other).is_ok(),
        "link" => symlink(rt, name, other).is_ok(),
        "chmod" => fs::set_permissions(rt, name, Permissions::from_mode(number)).is_ok(),
        "absent" => is_absent(rt, name),
        "folder" => is_made(rt, name),
        "left" => are_left(rt, name),
        "removed" => fs::remove_dir_all(rt, name).is_ok(),
        verb => is_known(rt, verb, name, number),
    }
}

/// Whether a call of a desk that has not ended ends as it should.
fn is_asked<D: Desk>(desk: &mut Option<D>, call: &str) -> bool {
    match desk {
        Some(desk) => is_answered(desk, word(call, 0), word(call, 1), word(call, 2)),
        None => false,
    }
}

/// Whether a file that is read only may be opened for writing, as the superuser may.
fn may_write(rt: &HostRuntime) -> bool {
    OpenOptions::new().write(true).open(rt, "leave/f").is_ok()
}

/// Whether another opening of a file finds that its lock is held.
fn is_locked<F: Folder>(folder: &mut F, name: &str) -> bool {
    match folder.open(name) {
        Ok(file) => {
            let mut file = file;
            matches!(folder.try_lock(&mut file), Ok(Lock::Elsewhere))
        }
        Err(_) => false,
    }
}

/// Whether a save of a file that is held gives the new one, with its lock.
fn is_renewed<F: Folder>(
    folder: &mut F,
    alloc: Global,
    name: &str,
    held: &F::File,
    bytes: &[u8],
) -> bool {
    match save_locked(folder, alloc, name, held, bytes) {
        Ok(Some(new)) => {
            let is_locked = is_locked(folder, name);
            drop(new);
            is_locked
        }
        _ => false,
    }
}

/// The same of a file that is opened first.
fn is_held_and_renewed<F: Folder>(folder: &mut F, alloc: Global, name: &str, bytes: &str) -> bool {
    match folder.open(name) {
        Ok(held) => is_renewed(folder, alloc, name, &held, bytes.as_bytes()),
        Err(_) => false,
    }
}

/// Whether a step is done: behind the word `desk` a call of the first desk, which `end` ends, behind `other` one of the
/// second, behind `renew` a save of a file that is held, and else what is done to files. `superuser` and `user` call
/// the first desk where they run this.
fn is_done<F: Folder, D: Desk + Drop>(
    rt: &HostRuntime,
    folder: &mut F,
    first: &mut Option<D>,
    second: &mut Option<D>,
    step: &str,
) -> bool {
    let (actor, call) = halves(step, " ");
    match actor {
        "desk" => is_asked(first, call),
        "other" => is_asked(second, call),
        "superuser" => !may_write(rt) || is_asked(first, call),
        "user" => may_write(rt) || is_asked(first, call),
        "end" => {
            *first = None;
            true
        }
        "renew" => is_held_and_renewed(folder, rt.alloc(), word(call, 0), word(call, 1)),
        _ => is_done_to_files(rt, step),
    }
}

/// Whether the steps of a text are done by a folder and two desks, one after the other.
pub fn are_done<F: Folder, D: Desk + Drop>(
    rt: &HostRuntime,
    folder: &mut F,
    first: &mut Option<D>,
    second: &mut Option<D>,
    text: &str,
) -> bool {
    for step in text.split("; ") {
        if !is_done(rt, folder, first, second, step) {
            return false;
        }
    }
    true
}
