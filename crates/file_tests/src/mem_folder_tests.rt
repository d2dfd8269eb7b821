//! What a loss of power leaves of a folder in memory.
use crate::folder_steps;
use crate::words::{halves, word};
use mem_folder::{Fault, Left, MemFolder, load_after_loss};
use std::alloc::{AllocError, Global};

/// Steps in a new folder.
pub const LOSSES: &str = "\
    # What is lost is what was not synced: of the bytes of a file, and of the names. `lose` says of the names, and \
    then of the bytes, whether the newest are left.\n\
    lost save f one; lose old old; has f one\n\
    lost save f one; save f two; lose old old; has f two; none f.saving\n\
    lost save f one; save g two; lose old old; has f one; has g two\n\
    lost write f one; has f one\n\
    lost write f one; lose new new; has f one\n\
    lost write f one; lose new old; has f\n\
    lost write f one; lose old new; none f\n\
    lost write f one; sync f; lose old old; none f\n\
    lost write f one; sync f; settle; lose old old; has f one\n\
    lost write f one; settle; lose old old; has f\n\
    lost write f one; sync f; settle; write f longer; lose old old; has f one\n\
    lost write f one; sync f; settle; write f longer; lose old new; has f longer\n\
    lost write f longer; sync f; settle; write f one; has f oneger\n\
    lost write f longer; resize f ...; has f lon; lose new old; has f\n\
    lost save f old; write g new; move g f; has f new; none g\n\
    lost save f old; write g new; move g f; lose new old; has f; none g\n\
    lost save f old; write g new; move g f; lose old new; has f old; none g\n\
    lost save f old; write g new; sync g; move g f; lose old old; has f old; none g\n\
    lost save f old; write g new; sync g; move g f; settle; lose old old; has f new; none g\n\
    lost save f old; remove f; lose old old; has f old\n\
    lost save f old; remove f; lose new old; none f\n\
    lost save f old; remove f; settle; lose old old; none f\n\
    lost save f old; move f f; has f old\n\
    lost save f old; link f g; has f old; has g old; lose old old; has f old; none g\n\
    lost save f old; link f g; settle; lose old old; has f old; has g old\n\
    lost save f old; link f g; remove f; settle; none f; has g old\n\
    lost save f old; save g new; cannot-link f g; cannot-link h g; has f old; has g new\n\
    lost none f; save f one; remove f; save f two; lose old old; has f two\n\
    lost save f old; renewed f f new; has f new; none f.saving; lose old old; has f new; none f.saving\n\
    lost save f old; renewed f f new; renewed f f new; lose new old; has f new; none f.saving\n\
    lost save f old; save f.saving left; save f.saving2 more; renewed f f new; has f new; has f.saving left; has \
    f.saving2 more\n\
    lost save f old; write f.saving left; renewed f f new; lose old old; has f new; none f.saving2\n\
    lost save f old; save g other; moved f g new; has f old; has g other; none f.saving; lose old old; has f old; has \
    g other\n\
    lost save f old; save g other; failed h g new; has f old; has g other; none h; none h.saving\n\
    lost save f old; link f g; settle; renewed f g new; has f new; has g old; lose old old; has f new; has g old; \
    none f.saving\n\
    lost save f old; link f g; remove f; settle; renewed g g new; lose old old; has g new; none f\n\
    # What is saved is loaded after a loss of power: what is left of names and bytes, and what is saved.\n\
    saved new new\n\
    saved old old\n\
    saved new new bytes\n\
    saved new old bytes\n\
    saved old new bytes\n\
    saved old old bytes\n\
    saved old old bytes-of-more-than-one-block-that-are-there-whole-after-any-loss-of-power-once-they-were-saved\n\
    # How a call fails, how many calls of two saves fail in turn, which are all but a few, and the second save.\n\
    fails broken 20 save f new\n\
    fails read-only 20 save f new\n\
    fails denied 20 save f new\n\
    fails unable 20 save f new\n\
    fails broken 28 renewed f f new\n\
    fails read-only 28 renewed f f new\n\
    fails denied 28 renewed f f new\n\
    fails unable 28 renewed f f new";

/// What a word says is left.
fn left_of(word: &str) -> Left {
    if word == "new" {
        Left::Newest
    } else {
        Left::Synced
    }
}

/// Whether a step is done: a loss of power, or a step on any folder.
fn is_done(folder: &mut MemFolder, alloc: Global, step: &str) -> bool {
    if word(step, 0) == "lose" {
        let (names, bytes) = (left_of(word(step, 1)), left_of(word(step, 2)));
        folder.lose_power(names, bytes).is_ok()
    } else {
        folder_steps::is_done(folder, alloc, &mut None, step)
    }
}

/// Whether all steps of a line are done, one after the other.
fn are_done(folder: &mut MemFolder, alloc: Global, line: &str) -> bool {
    for step in line.split("; ") {
        if !is_done(folder, alloc, step) {
            return false;
        }
    }
    true
}

/// The same in a new folder.
pub fn are_losses_right(alloc: Global, line: &str) -> bool {
    let mut folder = MemFolder::new(alloc, Vec::new(alloc));
    let are_right = are_done(&mut folder, alloc, line);
    drop(folder);
    are_right
}

/// Whether the bytes of a line are loaded after a loss of power, where they were saved. First it has what is left.
pub fn is_loaded(alloc: Global, line: &str) -> bool {
    let mut folder = MemFolder::new(alloc, Vec::new(alloc));
    let bytes = word(line, 2).as_bytes();
    let (names, held) = (left_of(word(line, 0)), left_of(word(line, 1)));
    let loaded = load_after_loss(&mut folder, alloc, "image", bytes, names, held);
    drop(folder);
    matches!(loaded, Ok(loaded) if loaded.as_slice() == bytes)
}

/// How the calls of a folder fail of which one fails, after this many others.
fn one_fault(alloc: Global, name: &str, calls: usize) -> Result<Vec<Option<Fault>>, AllocError> {
    let fault = match name {
        "read-only" => Fault::ReadOnly,
        "denied" => Fault::Denied,
        "unable" => Fault::Unable,
        _ => Fault::Broken,
    };
    let mut faults = vec![in alloc; Some(fault)]?;
    faults.resize(calls.saturating_add(1), None)?;
    Ok(faults)
}

/// Whether a loss of power leaves the new bytes after two saves if the second one was answered Ok, and else those of
/// the first one if this was. Of a folder that could not be synced nothing is said.
fn is_whole(folder: &mut MemFolder, alloc: Global, again: &str) -> bool {
    let is_old = is_done(folder, alloc, "save f old");
    let is_new = is_done(folder, alloc, again);
    if folder.has_noted() {
        return true;
    }
    is_done(folder, alloc, "lose old old")
        && (is_done(folder, alloc, "has f new")
            || (!is_new && is_done(folder, alloc, "has f old"))
            || !(is_old || is_new))
}

/// Whether two saves are whole, of which the call after this many others fails.
fn is_whole_at(alloc: Global, name: &str, again: &str, calls: usize) -> bool {
    match one_fault(alloc, name, calls) {
        Ok(faults) => {
            let mut folder = MemFolder::new(alloc, faults);
            let is_whole = is_whole(&mut folder, alloc, again);
            drop(folder);
            is_whole
        }
        Err(_) => false,
    }
}

/// Whether two saves are whole where each call fails in turn, as many as a line says.
pub fn may_each_call_fail(alloc: Global, line: &str) -> bool {
    let (name, rest) = halves(line, " ");
    let (count, again) = halves(rest, " ");
    let count = count.parse::<usize>().unwrap_or(0);
    for calls in 0..count {
        if !is_whole_at(alloc, name, again, calls) {
            return false;
        }
    }
    count > 0
}
