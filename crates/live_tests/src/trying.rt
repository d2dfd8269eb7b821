//! All runs of a script: of its first steps, of which there are none, one and so on, and where each call of the file
//! fails. After each run losses of power are tried, of which one loses nothing.
use crate::course::Course;
use crate::losing::{Tally, are_cuts_right, are_losses_right};
use crate::opening::open_new;
use crate::pictures::{CONFIG, SHAPE, picture_of};
use crate::running::{Script, store_after};
use lossy_store::{Failure, LossyStore};
use mem_flash::MemFlash;
use std::alloc::Global;

/// How many of its bytes a write has written that fails, at most: half of those of a slot.
const TORN_BYTES: usize = 40;

/// The course of a new device.
fn new_course(alloc: Global) -> Option<Course> {
    match MemFlash::new(alloc, SHAPE) {
        Ok(twin) => {
            let picture = picture_of(alloc, &twin);
            drop(twin);
            course_from(alloc, picture)
        }
        Err(_) => None,
    }
}

/// The course of a flash that has this picture, if there is one.
fn course_from(alloc: Global, picture: Option<Vec<u8>>) -> Option<Course> {
    match picture {
        Some(picture) => Some(Course::new(alloc, picture)),
        None => None,
    }
}

/// The file of a new device, once a script was run on its flash; none where something is wrong.
fn run(
    alloc: Global,
    course: &mut Course,
    script: Script,
    failure: Option<Failure>,
) -> Option<LossyStore> {
    match open_new(alloc, CONFIG, failure) {
        Some(flash) => store_after(alloc, course, flash, script),
        None => None,
    }
}

/// Whether no call of a file was made behind the one that failed, if one did.
fn is_last_call(store: &LossyStore, failure: Option<Failure>) -> bool {
    match failure {
        Some(failure) => store.calls() == failure.call,
        None => true,
    }
}

/// Whether a run of a script is right that has this course. Returns how many calls of the file it made.
fn calls_of_course(
    alloc: Global,
    course: &mut Course,
    script: Script,
    failure: Option<Failure>,
    tally: &mut Tally,
) -> Option<u64> {
    match run(alloc, course, script, failure) {
        Some(store) => {
            let is_right = is_last_call(&store, failure)
                && are_cuts_right(alloc, course, &store, tally)
                && are_losses_right(alloc, course, &store, tally);
            let calls = store.calls();
            drop(store);
            if is_right { Some(calls) } else { None }
        }
        None => None,
    }
}

/// Whether a run of a script is right. Returns how many calls of the file it made.
fn calls_of_run(
    alloc: Global,
    script: Script,
    failure: Option<Failure>,
    tally: &mut Tally,
) -> Option<u64> {
    match new_course(alloc) {
        Some(course) => {
            let mut course = course;
            let calls = calls_of_course(alloc, &mut course, script, failure, tally);
            drop(course);
            calls
        }
        None => None,
    }
}

/// Whether the runs of a script are right in which one of so many calls fails.
fn are_failures_right(alloc: Global, script: Script, calls: u64, tally: &mut Tally) -> bool {
    for call in 1..calls.saturating_add(1) {
        let failure = Failure {
            call,
            bytes: TORN_BYTES,
        };
        if calls_of_run(alloc, script, Some(failure), tally).is_none() {
            return false;
        }
    }
    true
}

/// Whether the runs of the first steps of a script are right, of no step, of one, and so on. Returns how many calls of
/// the file the last one made.
fn calls_of_steps(alloc: Global, script: Script, tally: &mut Tally) -> Option<u64> {
    let mut calls = None;
    for steps in 0..script.steps.saturating_add(1) {
        let first = Script { steps, ..script };
        calls = calls_of_run(alloc, first, None, tally);
        if calls.is_none() {
            return None;
        }
    }
    calls
}

/// Whether all runs of a script are right.
pub fn are_runs_right(alloc: Global, script: Script, tally: &mut Tally) -> bool {
    match calls_of_steps(alloc, script, tally) {
        Some(calls) => are_failures_right(alloc, script, calls, tally),
        None => false,
    }
}
