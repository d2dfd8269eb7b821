//! What lines make: desks and files.
use crate::bytes::{bytes_of, number, parted, placed};
use crate::stage::Stage;
use crate::stop::Stop;
use desk_io::MemDesk;

/// Takes a desk without files, on which the calls of these numbers fail.
pub fn make_desk(text: &str, stage: &mut Stage) -> Result<(), Stop> {
    let mut fails = Vec::new(stage.alloc);
    add_calls(text, &mut fails)?;
    stage.take_desk(MemDesk::new(stage.alloc, fails));
    Ok(())
}

/// Adds the numbers of a text.
fn add_calls(text: &str, fails: &mut Vec<u32>) -> Result<(), Stop> {
    for word in text.split(' ') {
        if !word.is_empty() {
            fails.push(word.parse::<u32>().map_err(|_| Stop::BadLine)?)?;
        }
    }
    Ok(())
}

/// Makes a file without a byte, which the lines of text behind it are added to.
pub fn make_file<'a>(name: &'a str, stage: &mut Stage<'a>) -> Result<(), Stop> {
    stage.file = name;
    stage.put(name, b"")
}

/// Adds a line to the file that was made last.
pub fn add_line(text: &str, stage: &mut Stage) -> Result<(), Stop> {
    let mut bytes = stage.copy(stage.file)?;
    push_line(text, &mut bytes)?;
    stage.put(stage.file, &bytes)
}

/// Adds a line to bytes.
fn push_line(text: &str, bytes: &mut Vec<u8>) -> Result<(), Stop> {
    bytes.extend_from_slice(text.as_bytes())?;
    bytes.push(b'\n')?;
    Ok(())
}

/// Makes a file of bytes.
pub fn make_bytes(text: &str, stage: &mut Stage) -> Result<(), Stop> {
    let (name, bytes) = parted(text)?;
    let bytes = bytes_of(stage.alloc, bytes)?;
    stage.put(name, &bytes)
}

/// Makes a file that is a copy of another.
pub fn make_copy(text: &str, stage: &mut Stage) -> Result<(), Stop> {
    let (name, other) = parted(text)?;
    let bytes = stage.copy(other)?;
    stage.put(name, &bytes)
}

/// Leaves only the first bytes of a file.
pub fn cut(text: &str, stage: &mut Stage) -> Result<(), Stop> {
    let (name, length) = parted(text)?;
    let length = number(length)?;
    let mut bytes = stage.copy(name)?;
    bytes.truncate(length);
    stage.put(name, &bytes)
}

/// Puts bytes in the place of others of a file.
pub fn patch(text: &str, stage: &mut Stage) -> Result<(), Stop> {
    let (name, at, bytes) = placed(text)?;
    let new = bytes_of(stage.alloc, bytes)?;
    overwrite(name, at, &new, stage)
}

/// Puts these bytes in the place of others of a file.
pub fn overwrite(name: &str, at: usize, new: &[u8], stage: &mut Stage) -> Result<(), Stop> {
    let mut bytes = stage.copy(name)?;
    replace(&mut bytes, at, new);
    stage.put(name, &bytes)
}

/// Puts new bytes in the place of others, as far as there are some.
fn replace(bytes: &mut [u8], at: usize, new: &[u8]) {
    for (byte, new) in bytes.iter_mut().skip(at).zip(new) {
        *byte = *new;
    }
}
