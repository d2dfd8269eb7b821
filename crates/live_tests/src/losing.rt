//! Losses of power: each subset of the writes that are not durable, and cuts of one of them at each of its bytes.
ghost use Rattle.std.specs.Prelude.{◌≡◌};

use crate::course::Course;
use crate::opening::open_file;
use crate::pictures::{CONFIG, read_picture};
use live_flash::LiveFlash;
use lossy_store::LossyStore;
use std::alloc::Global;

/// The most writes of which each subset is tried. A script never has more that are not durable.
const MOST_WRITES: usize = 10;

/// What was tried of a script.
#[derive(Clone, Copy)]
pub struct Tally {
    /// How many losses.
    pub losses: u64,
    /// How many losses left what the command in hand was to write.
    pub whole: u64,
}

impl Tally {
    /// Nothing was tried.
    pub fn new() -> Tally {
        Tally {
            losses: 0,
            whole: 0,
        }
    }
}

/// What a loss of power may leave of a file.
pub trait Judge {
    /// Whether a loss may leave a file with these bytes.
    fn is_left_right(&self, alloc: Global, left: &[u8], tally: &mut Tally) -> bool;
}

/// A cut of a write at one of its bytes: this byte alone is kept of all writes, or it alone is lost.
#[derive(Clone, Copy)]
struct Cut {
    number: usize,
    at: usize,
    is_alone: bool,
}

/// Keeps some of the writes: those whose bits are set.
fn keep_some(store: &LossyStore, left: &mut [u8], kept: u32) {
    let mut rest = kept;
    for number in 0..store.write_count() {
        if rest % 2 == 1 {
            store.keep(left, number, 0, usize::MAX);
        }
        rest /= 2;
    }
}

/// Keeps the part of a write that a cut leaves.
fn keep_part(store: &LossyStore, left: &mut [u8], cut: Cut) {
    let next = cut.at.saturating_add(1);
    if cut.is_alone {
        store.keep(left, cut.number, cut.at, next);
    } else {
        store.keep(left, cut.number, 0, cut.at);
        store.keep(left, cut.number, next, usize::MAX);
    }
}

/// Keeps what a cut leaves.
fn keep_cut(store: &LossyStore, left: &mut [u8], cut: Cut) {
    for number in 0..store.write_count() {
        if number == cut.number {
            keep_part(store, left, cut);
        } else if !cut.is_alone {
            store.keep(left, number, 0, usize::MAX);
        }
    }
}

/// The picture of a flash, if it is one of the device.
fn picture_if_right(alloc: Global, flash: &mut LiveFlash<LossyStore>) -> Option<Vec<u8>> {
    if flash.config() != CONFIG {
        return None;
    }
    read_picture(alloc, flash)
}

/// Whether a flash may be left so.
fn may_be_left(alloc: Global, course: &Course, flash: &mut LiveFlash<LossyStore>) -> bool {
    match picture_if_right(alloc, flash) {
        Some(picture) => course.may_leave(&picture),
        None => false,
    }
}

/// A file with these bytes is opened, and its flash may be left so.
impl Judge for Course {
    fn is_left_right(&self, alloc: Global, left: &[u8], _: &mut Tally) -> bool {
        match open_file(alloc, left, None) {
            Some(flash) => {
                let mut flash = flash;
                let is_right = may_be_left(alloc, self, &mut flash);
                drop(flash);
                is_right
            }
            None => false,
        }
    }
}

/// Whether a loss is right that keeps some of the writes.
fn is_loss_right<J: Judge>(
    alloc: Global,
    judge: &J,
    store: &LossyStore,
    kept: u32,
    tally: &mut Tally,
) -> bool {
    match Vec::from_slice(alloc, store.durable()) {
        Ok(mut left) => {
            keep_some(store, &mut left, kept);
            let is_right = judge.is_left_right(alloc, &left, tally);
            drop(left);
            is_right
        }
        Err(_) => false,
    }
}

/// Whether a cut is right.
fn is_cut_right(
    alloc: Global,
    course: &Course,
    store: &LossyStore,
    cut: Cut,
    tally: &mut Tally,
) -> bool {
    match Vec::from_slice(alloc, store.durable()) {
        Ok(mut left) => {
            keep_cut(store, &mut left, cut);
            let is_right = course.is_left_right(alloc, &left, tally);
            drop(left);
            is_right
        }
        Err(_) => false,
    }
}

/// Whether each loss of whole writes is right. They are counted.
pub fn are_losses_right<J: Judge>(
    alloc: Global,
    judge: &J,
    store: &LossyStore,
    tally: &mut Tally,
) -> bool {
    let count = store.write_count();
    if count > MOST_WRITES {
        return false;
    }
    for kept in 0..1u32 << count {
        if !is_loss_right(alloc, judge, store, kept, tally) {
            return false;
        }
        tally.losses = tally.losses.saturating_add(1);
    }
    true
}

/// Whether both cuts at a byte of a write are right.
fn is_byte_right(
    alloc: Global,
    course: &Course,
    store: &LossyStore,
    number: usize,
    at: usize,
    tally: &mut Tally,
) -> bool {
    for is_alone in [true, false] {
        let cut = Cut {
            number,
            at,
            is_alone,
        };
        if !is_cut_right(alloc, course, store, cut, tally) {
            return false;
        }
    }
    true
}

/// Whether each cut of a write is right.
fn is_write_right(
    alloc: Global,
    course: &Course,
    store: &LossyStore,
    number: usize,
    tally: &mut Tally,
) -> bool {
    for at in 0..store.write_bytes(number) {
        if !is_byte_right(alloc, course, store, number, at, tally) {
            return false;
        }
        tally.losses = tally.losses.saturating_add(2);
    }
    true
}

/// Whether each cut is right of each write that is not durable. They are counted.
pub fn are_cuts_right(
    alloc: Global,
    course: &Course,
    store: &LossyStore,
    tally: &mut Tally,
) -> bool {
    for number in 0..store.write_count() {
        if !is_write_right(alloc, course, store, number, tally) {
            return false;
        }
    }
    true
}
