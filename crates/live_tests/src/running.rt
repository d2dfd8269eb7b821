//! Scripts that are run on a new flash that is a file, of which a call may fail, and on its twin in memory.
ghost use Rattle.std.specs.Prelude.{◌≡◌, ◌<◌};
ghost use Rattle.flash_model.specs.Operations.{CanProgram};

use crate::course::Course;
use crate::lines::word;
use crate::pictures::{CONFIG, SHAPE, picture_of};
use crate::steps::{fire_none, may_program, take};
use flash_model::{Cached, Flash, Power};
use live_flash::LiveFlash;
use lossy_store::LossyStore;
use mem_flash::MemFlash;
use std::alloc::Global;
use tx_types::{Block, Slot};

/// The steps of a script.
#[derive(Clone, Copy)]
pub struct Script<'a> {
    pub text: &'a str,
    /// How many of them are taken.
    pub steps: usize,
}

/// Makes all durable. Returns whether it is answered.
fn is_settled(flash: &mut LiveFlash<LossyStore>) -> bool
    ensures { flash.new.memory ≡ flash.old.memory }
{
    flash.flush().is_ok()
}

/// Whether the last slot is programmed, or power stays on.
fn is_programmed(flash: &mut LiveFlash<LossyStore>) -> bool
    requires shape { flash.old.memory.shape ≡ SHAPE }
    requires may { CanProgram SHAPE flash.old.memory.image 7 }
    ensures { flash.new.memory.shape ≡ SHAPE }
{
    flash.program(Slot(7), &[7; 16], &[7; 64]).is_ok() || flash.live()
}

/// Makes all durable. Returns whether it is answered. Where it is not, no slot may be programmed.
fn settle(flash: &mut LiveFlash<LossyStore>) -> Option<bool>
    requires { flash.old.memory.shape ≡ SHAPE }
    ensures { flash.new.memory.shape ≡ SHAPE }
{
    let may_program = may_program(flash, 7);
    let is_settled = is_settled(flash);
    if !is_settled && may_program && is_programmed(flash) {
        return None;
    }
    Some(is_settled)
}

/// Takes a step on a flash that is a file.
fn take_in_file(flash: &mut LiveFlash<LossyStore>, step: &str) -> Option<bool>
    requires { flash.old.memory.shape ≡ SHAPE }
    ensures { flash.new.memory.shape ≡ SHAPE }
{
    match step {
        "flush" => settle(flash),
        _ => take(flash, step),
    }
}

/// Takes a step on its twin, of which all is durable at any time.
fn take_in_memory(twin: &mut MemFlash, step: &str) -> Option<bool>
    requires { twin.old.shape ≡ SHAPE }
    ensures { twin.new.shape ≡ SHAPE }
{
    match step {
        "flush" => Some(true),
        _ => take(twin, step),
    }
}

/// Takes a step on both. Returns whether both may take it and answer alike, unless a call of the file fails.
fn take_both(flash: &mut LiveFlash<LossyStore>, twin: &mut MemFlash, step: &str) -> bool
    requires shape { flash.old.memory.shape ≡ SHAPE }
    requires twin { twin.old.shape ≡ SHAPE }
    ensures shape { flash.new.memory.shape ≡ SHAPE }
    ensures twin { twin.new.shape ≡ SHAPE }
{
    let done = take_in_file(flash, step);
    let wanted = take_in_memory(twin, step);
    done.is_some() && wanted.is_some() && (done == wanted || flash.has_failed())
}

/// Takes a step on both, and notes what it comes to.
fn advance(
    alloc: Global,
    course: &mut Course,
    flash: &mut LiveFlash<LossyStore>,
    twin: &mut MemFlash,
    step: &str,
) -> bool
    requires shape { flash.old.memory.shape ≡ SHAPE }
    requires twin { twin.old.shape ≡ SHAPE }
    ensures shape { flash.new.memory.shape ≡ SHAPE }
    ensures twin { twin.new.shape ≡ SHAPE }
{
    let is_alike = take_both(flash, twin, step);
    let Some(picture) = picture_of(alloc, twin) else {
        return false;
    };
    course.advance(word(step, 0), picture, flash.has_failed());
    is_alike
}

/// Whether a slot is read.
fn is_read(flash: &mut LiveFlash<LossyStore>) -> bool
    requires { flash.old.memory.shape ≡ SHAPE }
    ensures { flash.new.memory.shape ≡ SHAPE }
{
    flash.read(Slot(0), &mut [0; 16], &mut [0; 64]).is_ok()
}

/// Whether an erase is answered, or leaves power on.
fn is_alive(flash: &mut LiveFlash<LossyStore>, block: Block) -> bool
    requires shape { flash.old.memory.shape ≡ SHAPE }
    requires exists { block.0 < 4 }
    ensures { flash.new.memory.shape ≡ SHAPE }
{
    flash.erase(block).is_ok() || flash.live()
}

/// Whether each call of a flash is broken and power is off, and is so again where it is turned on.
fn is_dead(flash: &mut LiveFlash<LossyStore>) -> bool
    requires { flash.old.memory.shape ≡ SHAPE }
{
    if flash.flush().is_ok() || is_alive(flash, Block(0)) {
        return false;
    }
    flash.power_on();
    !is_read(flash) && !fire_none(flash) && !flash.live() && !is_alive(flash, Block(3))
}

/// Takes the steps of a script, up to one in which a call of the file fails. Then each call must be broken.
fn are_taken(
    alloc: Global,
    course: &mut Course,
    flash: &mut LiveFlash<LossyStore>,
    twin: &mut MemFlash,
    script: Script,
) -> bool
    requires shape { flash.old.memory.shape ≡ SHAPE }
    requires twin { twin.old.shape ≡ SHAPE }
{
    for step in script.text.split("; ").take(script.steps) {
        if !advance(alloc, course, flash, twin, step) {
            return false;
        }
        if flash.has_failed() {
            return is_dead(flash);
        }
    }
    true
}

/// Takes the steps of a script on the flash of a new device and on a twin.
fn runs(
    alloc: Global,
    course: &mut Course,
    flash: &mut LiveFlash<LossyStore>,
    script: Script,
) -> bool {
    if flash.config() != CONFIG {
        return false;
    }
    match MemFlash::new(alloc, SHAPE) {
        Ok(mut twin) => {
            let is_right = are_taken(alloc, course, flash, &mut twin, script);
            drop(twin);
            is_right
        }
        Err(_) => false,
    }
}

/// The file of a flash on which a script was run, if all was right.
pub fn store_after(
    alloc: Global,
    course: &mut Course,
    flash: LiveFlash<LossyStore>,
    script: Script,
) -> Option<LossyStore> {
    let mut flash = flash;
    let is_right = runs(alloc, course, &mut flash, script);
    let store = flash.into_store();
    if is_right { Some(store) } else { None }
}
