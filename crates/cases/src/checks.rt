//! What lines tell of the last call, and of files.
use crate::bytes::{bytes_of, number, parted, placed};
use crate::stage::Stage;
use crate::stop::Stop;
use std::alloc::{AllocError, Global};

/// Whether a text is said next, which ends its line or does not.
pub fn is_said(text: &str, ends: bool, stage: &mut Stage) -> Result<bool, Stop> {
    let line = line_of(stage.alloc, text, ends)?;
    let is_so = stage.unheard().starts_with(&line);
    if is_so {
        stage.hear(line.len());
    }
    Ok(is_so)
}

/// The bytes of a line. `..` at its end stands for the zeros behind the first byte of a page.
fn line_of(alloc: Global, text: &str, ends: bool) -> Result<Vec<u8>, AllocError> {
    let mut line = Vec::new(alloc);
    add_text(text, &mut line)?;
    if ends {
        line.push(b'\n')?;
    }
    Ok(line)
}

/// Adds the bytes of a text.
fn add_text(text: &str, line: &mut Vec<u8>) -> Result<(), AllocError> {
    match text.strip_suffix("..") {
        Some(front) => {
            line.extend_from_slice(front.as_bytes())?;
            line.extend_from_slice(&[b'0'; 30])
        }
        None => line.extend_from_slice(text.as_bytes()),
    }
}

/// Whether lines are said next of which the last ends so, and none before has that text.
pub fn goes_on_to(text: &str, stage: &mut Stage) -> bool {
    let unheard = str::from_utf8(stage.unheard()).unwrap_or("");
    let told = match unheard.split_once(text) {
        Some((_, behind)) if behind.starts_with('\n') => unheard
            .len()
            .saturating_sub(behind.len())
            .saturating_add(1),
        _ => 0,
    };
    stage.hear(told);
    told > 0
}

/// Whether two files hold the same.
pub fn is_same(text: &str, stage: &Stage) -> Result<bool, Stop> {
    let (name, other) = parted(text)?;
    Ok(stage.bytes(name)? == stage.bytes(other)?)
}

/// Whether a file holds the first half of another.
pub fn is_half(text: &str, stage: &Stage) -> Result<bool, Stop> {
    let (name, other) = parted(text)?;
    let whole = stage.bytes(other)?;
    Ok(stage.bytes(name)? == &whole[..whole.len() / 2])
}

/// Whether a file has these bytes from a place on.
pub fn has_bytes(text: &str, stage: &Stage) -> Result<bool, Stop> {
    let (name, at, bytes) = placed(text)?;
    let behind = stage.bytes(name)?.get(at..).unwrap_or(b"");
    let wanted = bytes_of(stage.alloc, bytes)?;
    Ok(behind.starts_with(&wanted))
}

/// Whether a file has this many bytes.
pub fn has_length(text: &str, stage: &Stage) -> Result<bool, Stop> {
    let (name, length) = parted(text)?;
    Ok(stage.bytes(name)?.len() == number(length)?)
}
