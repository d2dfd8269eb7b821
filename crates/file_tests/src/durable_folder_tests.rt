//! What a loss of power leaves of a save, in a folder in memory.
use crate::folder_steps;
use crate::folder_steps::{NEW, OLD, bytes_of};
use crate::words::{halves, word};
use durable_folder::Found;
use std::alloc::Global;
use std::io::ErrorKind;

mod losing;

use losing::{CrashingFolder, Wanted};

/// Saves and steps in new folders, in which the file f may be there.
pub const CRASHES: &str = "\
    # A save at a name is whole, where each of its calls fails or loses power, in a folder of each kind, whether or \
    not the file f is there, which the name link leads to, or where it is held.\n\
    each plain absent save f NEW\n\
    each plain there save f NEW\n\
    each plain absent save link NEW\n\
    each plain there save link NEW\n\
    each plain held renewed f f NEW\n\
    each two-names absent save f NEW\n\
    each two-names there save f NEW\n\
    each two-names absent save link NEW\n\
    each two-names there save link NEW\n\
    each two-names held renewed f f NEW\n\
    each mount-point absent save f NEW\n\
    each mount-point there save f NEW\n\
    each mount-point absent save link NEW\n\
    each mount-point there save link NEW\n\
    each mount-point held renewed f f NEW\n\
    each closed-folder absent save f NEW\n\
    each closed-folder there save f NEW\n\
    each closed-folder absent save link NEW\n\
    each closed-folder there save link NEW\n\
    each closed-folder held renewed f f NEW\n\
    each owner-refused absent save f NEW\n\
    each owner-refused there save f NEW\n\
    each owner-refused absent save link NEW\n\
    each owner-refused there save link NEW\n\
    each owner-refused held renewed f f NEW\n\
    each no-folder-sync absent save f NEW\n\
    each no-folder-sync there save f NEW\n\
    each no-folder-sync absent save link NEW\n\
    each no-folder-sync there save link NEW\n\
    each no-folder-sync held renewed f f NEW\n\
    each unresolved absent save f NEW\n\
    each unresolved there save f NEW\n\
    each unresolved absent save link NEW\n\
    each unresolved there save link NEW\n\
    each unresolved held renewed f f NEW\n\
    each no-links absent save f NEW\n\
    each no-links there save f NEW\n\
    each no-links absent save link NEW\n\
    each no-links there save link NEW\n\
    each no-links held renewed f f NEW\n\
    # What another program holds is not saved.\n\
    crash locked-elsewhere there; unclaimed f NEW; failed f f NEW; stays f OLD\n\
    crash locked-elsewhere there; unclaimed link NEW; refused link link NEW; stays f OLD\n\
    # What comes to a name meanwhile is not replaced.\n\
    crash overtaken absent; unsaved f NEW; stays f meanwhile\n\
    crash overtaken-in-filling there; moved f f NEW; stays f meanwhile\n\
    crash overtaken-in-syncing there; moved f f NEW; stays f meanwhile\n\
    # A file that was loaded is saved where nothing was done to it since, also one that is not a plain one, and only \
    there.\n\
    crash plain there; has f OLD; claimed f NEW\n\
    crash plain there; has link OLD; claimed link NEW\n\
    crash plain there; has f OLD; replace f OLD; unclaimed f NEW\n\
    crash plain there; has link OLD; replace f OLD; unclaimed link NEW\n\
    crash plain there; has f OLD; special; replace f OLD; unclaimed f NEW\n\
    crash plain there; has link OLD; special; replace f OLD; unclaimed link NEW\n\
    crash plain there; has f OLD; rewrite f since; unclaimed f NEW\n\
    crash plain there; has link OLD; rewrite f since; unclaimed link NEW\n\
    crash special there; has f OLD; claimed f NEW\n\
    crash special there; has link OLD; claimed link NEW";

/// A save: the kind of folder, what stands at `f` before, and the step.
#[derive(Drop)]
struct Case {
    setting: &'static str,
    before: &'static str,
    step: &'static str,
}

impl Case {
    /// Whether the file is there.
    fn is_there(&self) -> bool {
        self.before != "absent"
    }

    /// Whether the save is by a new file alone, of a file that is held.
    fn is_held(&self) -> bool {
        self.before == "held"
    }

    /// Whether it goes through the link.
    fn is_by_link(&self) -> bool {
        word(self.step, 1) == "link"
    }

    /// Whether a save that goes well has to be in place, or can't be by a new file.
    fn is_in_place(&self) -> bool {
        let must_be = match self.setting {
            "plain" | "no-folder-sync" | "no-links" => false,
            "closed-folder" => true,
            "unresolved" => self.is_by_link(),
            "mount-point" => self.before == "there",
            _ => self.is_there(),
        };
        must_be || (self.is_by_link() && !self.is_there())
    }
}

/// Fills a folder in which a save begins: with `f`, if it is there, another file, and one that a killed run left.
fn prepare(folder: &mut CrashingFolder, is_there: bool) {
    if is_there {
        folder.replace("f", OLD.as_bytes());
    }
    folder.replace("other", b"other");
    folder.replace("f.saving", b"left");
    folder.keep_names();
}

/// Whether all that a loss of power may leave of `f` may be so: the new bytes alone, where a save that could sync
/// answered Ok, else also the old ones, or none, and a torn file where it was in place.
fn is_left_whole(folder: &CrashingFolder, is_there: bool, is_ok: bool) -> bool {
    let must_be_new = is_ok && !folder.is_unsynced;
    let before = if is_there && !must_be_new { OLD } else { NEW };
    folder.may_be_left(
        "f",
        &Wanted {
            one: NEW.as_bytes(),
            other: before.as_bytes(),
            is_none: !is_there && !must_be_new,
            is_torn: folder.is_in_place && !must_be_new,
        },
    )
}

/// Whether a file stays as it is, whatever a loss of power leaves.
fn stays(folder: &CrashingFolder, name: &str, bytes: &[u8]) -> bool {
    folder.may_be_left(
        name,
        &Wanted {
            one: bytes,
            other: bytes,
            is_none: false,
            is_torn: false,
        },
    )
}

/// Whether a save of which no call fails is in place only where it has to be, and returns Ok. A file that was made
/// through a link has no folder to be synced, where that can't be told. A file that is held is not saved where it would
/// have to be in place.
fn is_saved(folder: &CrashingFolder, it: &Case, is_ok: bool) -> bool {
    let is_in_place = it.is_in_place();
    if it.is_held() {
        return is_ok == !is_in_place;
    }
    let is_lost = it.setting == "unresolved" && it.is_by_link() && !it.is_there();
    folder.is_in_place == is_in_place && is_ok == !is_lost
}

/// Whether this folder may be what a save has come to, where the call of a number fails, or none where it is 0.
fn is_sound(folder: &CrashingFolder, it: &Case, fails: u32, is_ok: bool) -> bool {
    is_left_whole(folder, it.is_there(), is_ok)
        && stays(folder, "f.saving", b"left")
        && stays(folder, "other", b"other")
        && !(it.is_held() && folder.is_in_place)
        && (fails > 0 || is_saved(folder, it, is_ok))
}

/// Whether a step is done: `stays`, `replace` and `rewrite` with bytes of a file, `special`, after which no file is a
/// plain one, or a step on any folder.
fn is_done(
    folder: &mut CrashingFolder,
    alloc: Global,
    noted: &mut Option<Found>,
    step: &str,
) -> bool {
    let (name, bytes) = (word(step, 1), bytes_of(word(step, 2)));
    match word(step, 0) {
        "stays" => return stays(folder, name, bytes),
        "replace" => _ = folder.replace(name, bytes),
        "rewrite" => folder.rewrite(name, bytes),
        "special" => folder.setting = "special",
        _ => return folder_steps::is_done(folder, alloc, noted, step),
    }
    true
}

/// The number of calls of a save, where all that a loss of power may leave is as it should be.
fn save_over(folder: &mut CrashingFolder, alloc: Global, it: &Case, fails: u32) -> Option<u32> {
    prepare(folder, it.is_there());
    let is_ok = is_done(folder, alloc, &mut None, it.step);
    if is_sound(folder, it, fails, is_ok) {
        Some(folder.calls)
    } else {
        None
    }
}

/// The number of calls of a save in a folder of its own, where all that a loss of power may leave is as it should be.
fn save_counting_calls(
    alloc: Global,
    it: &Case,
    fails: u32,
    kind: ErrorKind,
    is_cut: bool,
) -> Option<u32> {
    let mut folder = CrashingFolder::new(alloc, it.setting, fails, kind, is_cut);
    let calls = save_over(&mut folder, alloc, it, fails);
    drop(folder);
    calls
}

/// Whether all is well where a call of a save fails, or loses power.
fn may_call_fail(alloc: Global, it: &Case, fails: u32, kind: ErrorKind) -> bool {
    save_counting_calls(alloc, it, fails, kind, false).is_some()
        && save_counting_calls(alloc, it, fails, kind, true).is_some()
}

/// Whether all is well without a failing call, of which there are more than seven, or three where the file is held, and
/// then where each fails or loses power.
fn may_each_call_fail(alloc: Global, it: &Case) -> bool {
    let calls = save_counting_calls(alloc, it, 0, ErrorKind::Other, false).unwrap_or(0);
    for fails in 1..calls.saturating_add(1) {
        let may_fail = may_call_fail(alloc, it, fails, ErrorKind::Other)
            && may_call_fail(alloc, it, fails, ErrorKind::PermissionDenied);
        if !may_fail {
            return false;
        }
    }
    calls > 7 || (it.is_held() && calls > 3)
}

/// Whether all is well with the save of a line.
pub fn is_save_right(alloc: Global, line: &'static str) -> bool {
    let (setting, rest) = halves(line, " ");
    let (before, step) = halves(rest, " ");
    let it = Case {
        setting,
        before,
        step,
    };
    may_each_call_fail(alloc, &it)
}

/// Whether the steps of a text are done, one after the other.
fn are_done(folder: &mut CrashingFolder, alloc: Global, text: &str) -> bool {
    let mut noted = None;
    let mut are_done = true;
    for step in text.split("; ") {
        are_done = are_done && is_done(folder, alloc, &mut noted, step);
    }
    are_done
}

/// Whether the steps of a line are done in a new folder.
pub fn are_steps_right(alloc: Global, line: &'static str) -> bool {
    let (start, steps) = halves(line, "; ");
    let (setting, before) = halves(start, " ");
    let mut folder = CrashingFolder::new(alloc, setting, 0, ErrorKind::Other, false);
    prepare(&mut folder, before == "there");
    let are_right = are_done(&mut folder, alloc, steps);
    drop(folder);
    are_right
}
