//! What the steps on a flash that is a file come to, as its twin in memory shows it, and what a loss of power may
//! leave.
use crate::pictures::{PICTURE_BYTES, is_blank, slot_of};
use std::alloc::Global;
use std::mem;

/// The pictures of the twin before the last step and after it, and what may be left.
#[derive(Drop)]
pub struct Course {
    before: Vec<u8>,
    after: Vec<u8>,
    /// Of each slot whether it was programmed since all was durable, so that it may be left blank.
    waits: [bool; 8],
    /// Whether a call of the file failed in an erase.
    is_torn: bool,
}

/// Whether each slot is as in a picture, or is blank and waits.
fn is_without(left: &[u8], picture: &[u8], waits: &[bool]) -> bool {
    for at in 0..waits.len() {
        let slot = slot_of(left, at);
        if slot != slot_of(picture, at) && !(waits[at] && is_blank(slot)) {
            return false;
        }
    }
    true
}

/// Whether each slot is as in one or the other of two pictures.
fn is_between(left: &[u8], before: &[u8], after: &[u8]) -> bool {
    for at in 0..8 {
        let slot = slot_of(left, at);
        if slot != slot_of(before, at) && slot != slot_of(after, at) {
            return false;
        }
    }
    true
}

/// Notes the slots that differ in two pictures.
fn add_changed(waits: &mut [bool], before: &[u8], after: &[u8]) {
    for at in 0..waits.len() {
        if slot_of(before, at) != slot_of(after, at) {
            waits[at] = true;
        }
    }
}

/// Whether all is durable once a step with this verb is done.
fn makes_durable(verb: &str) -> bool {
    verb == "flush" || verb == "erase"
}

impl Course {
    /// The course of a flash that has this picture, all of which is durable.
    pub fn new(alloc: Global, picture: Vec<u8>) -> Course {
        Course {
            before: Vec::new(alloc),
            after: picture,
            waits: [false; 8],
            is_torn: false,
        }
    }

    /// A step with this verb was taken, which leaves this picture. A call of the file may have failed in it.
    pub fn advance(&mut self, verb: &str, picture: Vec<u8>, has_failed: bool) {
        self.before = mem::replace(&mut self.after, picture);
        self.is_torn = has_failed && verb == "erase";
        if self.is_torn {
            return;
        }
        if !has_failed && makes_durable(verb) {
            self.waits = [false; 8];
        } else {
            add_changed(&mut self.waits, &self.before, &self.after);
        }
    }

    /// Whether a loss of power may leave a flash with this picture.
    pub fn may_leave(&self, left: &[u8]) -> bool {
        if left.len() != PICTURE_BYTES {
            return false;
        }
        if self.is_torn {
            is_without(left, &self.before, &self.waits)
                || is_between(left, &self.before, &self.after)
        } else {
            is_without(left, &self.after, &self.waits)
        }
    }
}
