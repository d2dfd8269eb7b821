//! What each kind of line does, or tells.
use crate::calls::{call, view};
use crate::checks::{goes_on_to, has_bytes, has_length, is_half, is_said, is_same};
use crate::files::{add_line, cut, make_bytes, make_copy, make_desk, make_file, patch};
use crate::record::put_record;
use crate::stage::Stage;
use crate::stop::Stop;

/// Does what a line says, and returns whether what it tells is so.
pub fn holds<'a>(line: &'a str, stage: &mut Stage<'a>) -> Result<bool, Stop> {
    let (kind, rest) = line.split_once(' ').unwrap_or((line, ""));
    match kind {
        "" | "#" | "each" => Ok(true),
        "case" => {
            stage.title = rest;
            Ok(true)
        }
        "call" => call(rest, stage),
        "view" => view(rest, stage),
        _ => holds_of_answer(kind, rest, stage),
    }
}

/// Does what a line on the output of the last call says, and returns whether what it claims is so.
fn holds_of_answer<'a>(kind: &'a str, rest: &'a str, stage: &mut Stage<'a>) -> Result<bool, Stop> {
    match kind {
        "<" => is_said(rest, true, stage),
        "<-" => is_said(rest.strip_suffix('|').ok_or(Stop::BadLine)?, false, stage),
        "<.." => Ok(goes_on_to(rest, stage)),
        _ => holds_of_files(kind, rest, stage),
    }
}

/// Does what a line on the contents of files says, and returns whether what it claims is so.
fn holds_of_files<'a>(kind: &'a str, rest: &'a str, stage: &mut Stage<'a>) -> Result<bool, Stop> {
    match kind {
        "same" => is_same(rest, stage),
        "half" => is_half(rest, stage),
        "gone" => Ok(stage.desk.file(rest).is_none()),
        "at" => has_bytes(rest, stage),
        "length" => has_length(rest, stage),
        _ => {
            make(kind, rest, stage)?;
            Ok(true)
        }
    }
}

/// Does what a line says that makes or changes a file or the desk.
fn make<'a>(kind: &'a str, rest: &'a str, stage: &mut Stage<'a>) -> Result<(), Stop> {
    match kind {
        "desk" => make_desk(rest, stage),
        "file" => make_file(rest, stage),
        ">" => add_line(rest, stage),
        "bytes" => make_bytes(rest, stage),
        "put" => patch(rest, stage),
        "cut" => cut(rest, stage),
        "copy" => make_copy(rest, stage),
        "record" => put_record(rest, stage),
        _ => Err(Stop::BadLine),
    }
}
