//! How files are saved, and what is left where a call of the system fails.
use super::desks::are_done_over;
use super::recording::{Log, Recorder};
use super::steps::{has, is_absent, is_done_to_files, is_made};
use crate::words::{halves, has_word};
use std::fs;
use std::io::ErrorKind;

/// What stands in the folder before a save, the name that is saved, and the calls that the save makes: first those by
/// which the file is claimed. Before a save there may be a file f, a link to it, other as its second name, and
/// f.saving, which a killed run left beside it. At the name held the file f is saved while it is open, and then another
/// opening asks for its lock.
pub const SAVES: &str = "\
    save nothing | f | stat f; stat f; open saves; create f.saving; write f.saving; sync f.saving; stat f.saving; \
    link f.saving; remove f.saving; sync saves;\n\
    save f | f | stat f; open f; lock f; open f; stat f; open f; open saves; create f.saving; chown f.saving; chmod \
    f.saving; write f.saving; sync f.saving; stat f.saving; rename f.saving; sync saves;\n\
    save link f | link | stat link; open link; lock link; open link; stat link; open link; resolve link; stat f; open \
    f; open saves; create f.saving; chown f.saving; chmod f.saving; write f.saving; sync f.saving; stat f.saving; \
    rename f.saving; sync saves;\n\
    save link | link | stat link; open link; stat link; open link; open link; write link; sync link; length link; \
    sync link; write link; sync link; resolve link; open saves; sync saves;";

/// Saves of a file that has a second name, beside one that is left, and of a file that is held.
pub const SAVES_BESIDE: &str = "\
    save f other | f | stat f; open f; lock f; open f; stat f; open f; write f; sync f; length f; sync f; write f; \
    sync f;\n\
    save f f.saving | f | stat f; open f; lock f; open f; stat f; open f; open saves; create f.saving; create \
    f.saving2; chown f.saving2; chmod f.saving2; write f.saving2; sync f.saving2; stat f.saving2; rename f.saving2; \
    sync saves;\n\
    save f | held | open f; stat f; stat f; open saves; create f.saving; chown f.saving; chmod f.saving; write \
    f.saving; sync f.saving; stat f; lock f.saving; stat f.saving; rename f.saving; sync saves; stat f; open f; lock \
    f;\n\
    save f f.saving | held | open f; stat f; stat f; open saves; create f.saving; create f.saving2; chown f.saving2; \
    chmod f.saving2; write f.saving2; sync f.saving2; stat f; lock f.saving2; stat f.saving2; rename f.saving2; sync \
    saves; stat f; open f; lock f;";

const OLD: &[u8] = b"the-old-bytes";

const NEW: &[u8] = b"new";

/// A save: what stands there before, the name that is saved, and the calls that it makes.
#[derive(Drop)]
struct Case<'a> {
    before: &'a str,
    name: &'a str,
    calls: &'a str,
}

/// The save of a line.
fn case_of(line: &str) -> Case<'_> {
    let (before, rest) = halves(line, " | ");
    let (name, calls) = halves(rest, " | ");
    Case {
        before,
        name,
        calls,
    }
}

/// Whether that is made which a word says stands there before a save.
fn is_there(rt: &HostRuntime, word: &str) -> bool {
    match word {
        "f" => {
            is_done_to_files(rt, "write saves/f the-old-bytes")
                && is_done_to_files(rt, "chmod saves/f 640")
        }
        "other" => is_done_to_files(rt, "twin saves/f saves/other"),
        "link" => is_done_to_files(rt, "link f saves/link"),
        "f.saving" => is_done_to_files(rt, "write saves/f.saving left"),
        _ => word == "nothing",
    }
}

/// Whether all is made that stands there before a save.
fn is_prepared(rt: &HostRuntime, before: &str) -> bool {
    let mut is_prepared = is_made(rt, "saves");
    for word in before.split(' ') {
        is_prepared = is_prepared && is_there(rt, word);
    }
    is_prepared
}

/// Whether a save answers Ok whose calls are noted.
fn is_saved(rt: &HostRuntime, name: &str, log: &Log) -> bool {
    let system = Recorder { rt, log };
    let step = match name {
        "held" => "renew saves/f new",
        "link" => "desk save saves/link new",
        _ => "desk save saves/f new",
    };
    are_done_over(rt, &system, step)
}

/// Whether there is a link.
fn is_linked(rt: &HostRuntime) -> bool {
    match fs::symlink_metadata(rt, "saves/link") {
        Ok(found) => found.is_symlink(),
        Err(_) => false,
    }
}

/// Whether that stays as it is which no save changes: links, second names, and what a killed run left.
fn stay_others(rt: &HostRuntime, before: &str) -> bool {
    is_linked(rt) == has_word(before, "link")
        && (!has_word(before, "f.saving") || is_done_to_files(rt, "has saves/f.saving left"))
        && (!has_word(before, "other") || is_done_to_files(rt, "names saves/f 2"))
}

/// Whether the new file is there or gone, as it should be. One of which it can't be told whose it is stays, and so does
/// the name of one that can't be removed.
fn is_new_file_gone(rt: &HostRuntime, before: &str, calls: &str) -> bool {
    let stays = calls.ends_with("stat f.saving; ")
        || calls.ends_with("stat f.saving2; ")
        || calls.ends_with("link f.saving; remove f.saving; ");
    let is_first_gone = is_absent(rt, "saves/f.saving");
    (has_word(before, "f.saving") || is_first_gone != stays)
        && (stays || is_absent(rt, "saves/f.saving2"))
}

/// Whether a save was in place.
fn is_in_place(calls: &str) -> bool {
    calls.contains("write f; ") || calls.contains("write link; ")
}

/// Whether a save that was not in place left the old file or the new one, and the new one where it answered Ok.
fn is_file_whole(rt: &HostRuntime, before: &str, is_ok: bool, calls: &str) -> bool {
    has(rt, "saves/f", NEW)
        || (!is_ok && (is_in_place(calls) || !has_word(before, "f") || has(rt, "saves/f", OLD)))
}

/// Whether a save of which no call fails answers Ok, makes the calls that it should, and leaves the new bytes with the
/// mode of the old file.
fn is_right(rt: &HostRuntime, it: &Case, is_ok: bool, calls: &str) -> bool {
    is_ok
        && calls.trim_ascii_end() == it.calls
        && has(rt, "saves/f", NEW)
        && (!has_word(it.before, "f") || is_done_to_files(rt, "mode saves/f 640"))
}

/// Whether all is well with the files after a save that made these calls, of which the one of this number failed.
fn is_well(rt: &HostRuntime, it: &Case, fails: u32, is_ok: bool, calls: &str) -> bool {
    stay_others(rt, it.before)
        && is_file_whole(rt, it.before, is_ok, calls)
        && is_new_file_gone(rt, it.before, calls)
        && (fails > 0 || is_right(rt, it, is_ok, calls))
}

/// The same, where the calls are noted; nothing, where the save has fewer calls.
fn is_well_after(rt: &HostRuntime, it: &Case, fails: u32, is_ok: bool, log: &Log) -> Option<bool> {
    if !log.has_failed() {
        return None;
    }
    match log.text.try_borrow() {
        Ok(calls) => Some(is_well(rt, it, fails, is_ok, calls.as_str())),
        Err(_) => Some(false),
    }
}

/// Whether the call of a save of this number may fail in this way, or none, where it is 0.
fn may_fail(rt: &HostRuntime, it: &Case, fails: u32, kind: ErrorKind) -> Option<bool> {
    let log = Log::new(rt.alloc(), fails, kind);
    let is_prepared = is_prepared(rt, it.before);
    let is_ok = is_prepared && is_saved(rt, it.name, &log);
    let is_well = is_well_after(rt, it, fails, is_ok, &log);
    drop(log);
    if is_prepared { is_well } else { Some(false) }
}

/// Whether each call of a save may fail in this way, and all is well where none does.
fn may_each_call_fail(rt: &HostRuntime, it: &Case, kind: ErrorKind) -> bool {
    for fails in 0..30 {
        match may_fail(rt, it, fails, kind) {
            Some(true) => {}
            Some(false) => return false,
            None => return true,
        }
    }
    false
}

/// Whether all is well with the save of a line, and where its calls fail in turn, in two ways.
pub fn is_save_right(rt: &HostRuntime, line: &str) -> bool {
    let it = case_of(line);
    may_each_call_fail(rt, &it, ErrorKind::Other)
        && may_each_call_fail(rt, &it, ErrorKind::PermissionDenied)
        && is_done_to_files(rt, "removed saves")
}
