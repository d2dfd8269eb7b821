//! Steps on a folder of any kind: a verb, a name, and bytes or another name.
use crate::words::word;
use durable_folder::{Folder, Found, load, save, save_held, save_locked};
use std::alloc::Global;
use std::io::ErrorKind;

/// A hundred bytes, which take two blocks.
pub const OLD: &str = "\
    oooooooooooooooooooooooooooooooooooooooooooooooooooooooooooooooooooooooooooooooooooooooooooooooooooo";

/// Ninety others.
pub const NEW: &str = "\
    nnnnnnnnnnnnnnnnnnnnnnnnnnnnnnnnnnnnnnnnnnnnnnnnnnnnnnnnnnnnnnnnnnnnnnnnnnnnnnnnnnnnnnnnnn";

/// The bytes that a word stands for: `OLD` and `NEW` for those of two blocks, and any other for its own.
pub fn bytes_of(word: &str) -> &[u8] {
    match word {
        "OLD" => OLD.as_bytes(),
        "NEW" => NEW.as_bytes(),
        _ => word.as_bytes(),
    }
}

/// Whether a step is done to an open file: `write` with bytes, `sync`, or else `resize` with as many.
fn is_done_to<F: Folder>(folder: &mut F, file: &mut F::File, verb: &str, bytes: &str) -> bool {
    match verb {
        "write" => folder.write(file, bytes.as_bytes()).is_ok(),
        "sync" => folder.sync(file).is_ok(),
        _ => folder.set_length(file, bytes.len() as u64).is_ok(),
    }
}

/// The same of a file that is opened first, or made where it is to be written.
fn is_changed<F: Folder>(folder: &mut F, verb: &str, name: &str, bytes: &str) -> bool {
    let opened = if verb == "write" {
        folder.open_or_create(name)
    } else {
        folder.open(name)
    };
    match opened {
        Ok(file) => {
            let mut file = file;
            is_done_to(folder, &mut file, verb, bytes)
        }
        Err(_) => false,
    }
}

/// Whether the names are synced.
fn is_settled<F: Folder>(folder: &mut F) -> bool {
    match folder.open_folder(".") {
        Ok(place) => folder.sync_folder(&place).is_ok(),
        Err(_) => false,
    }
}

/// Whether a file is read as the verb says: `has` with its bytes, or `none` of this name. What is found of it is noted.
fn is_read<F: Folder>(
    folder: &mut F,
    noted: &mut Option<Found>,
    verb: &str,
    name: &str,
    bytes: &[u8],
) -> bool {
    match load(folder, name, usize::MAX) {
        Ok(loaded) => {
            let is_so = verb == "has" && loaded.bytes.as_slice() == bytes;
            *noted = Some(loaded.found);
            is_so
        }
        Err(error) => verb == "none" && error.kind() == ErrorKind::NotFound,
    }
}

/// Whether a step is done that changes names, or one that reads.
fn is_named<F: Folder>(
    folder: &mut F,
    noted: &mut Option<Found>,
    verb: &str,
    name: &str,
    other: &str,
) -> bool {
    match verb {
        "move" => folder.rename(name, other).is_ok(),
        "link" => folder.link(name, other).is_ok(),
        "cannot-link" => folder.link(name, other).is_err(),
        "remove" => folder.remove(name).is_ok(),
        "settle" => is_settled(folder),
        _ => is_read(folder, noted, verb, name, bytes_of(other)),
    }
}

/// What comes of a save at a name, where the file of another name is held.
fn renewal<F: Folder>(
    folder: &mut F,
    alloc: Global,
    name: &str,
    held: &str,
    bytes: &[u8],
) -> &'static str {
    let Ok(file) = folder.open(held) else {
        return "missing";
    };
    match save_locked(folder, alloc, name, &file, bytes) {
        Ok(Some(_)) => "renewed",
        Ok(None) => "refused",
        Err(error) if error.kind() == ErrorKind::Other => "moved",
        Err(_) => "failed",
    }
}

/// Whether a save that claims the file first returns Ok and keeps it open. Of the file this was noted.
fn is_claimed<F: Folder>(
    folder: &mut F,
    alloc: Global,
    noted: &Option<Found>,
    name: &str,
    bytes: &[u8],
) -> bool {
    let mut held = None;
    save_held(folder, alloc, name, bytes, noted, &mut held).is_ok() && held.is_some()
}

/// Whether a step is done: its verb, a name, and bytes or another name. A step whose verb tells what comes of a save of
/// a file that is held has the name that is saved, that of the file, and bytes.
pub fn is_done<F: Folder>(
    folder: &mut F,
    alloc: Global,
    noted: &mut Option<Found>,
    step: &str,
) -> bool {
    let (verb, name, other) = (word(step, 0), word(step, 1), word(step, 2));
    match verb {
        "save" => save(folder, alloc, name, bytes_of(other)).is_ok(),
        "unsaved" => save(folder, alloc, name, bytes_of(other)).is_err(),
        "claimed" => is_claimed(folder, alloc, noted, name, bytes_of(other)),
        "unclaimed" => !is_claimed(folder, alloc, noted, name, bytes_of(other)),
        "write" | "sync" | "resize" => is_changed(folder, verb, name, other),
        "renewed" | "refused" | "moved" | "failed" => {
            renewal(folder, alloc, name, other, bytes_of(word(step, 3))) == verb
        }
        _ => is_named(folder, noted, verb, name, other),
    }
}
