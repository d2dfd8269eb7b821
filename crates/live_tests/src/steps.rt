//! Steps that are taken on any flash, in memory or in a file.
ghost use Rattle.std.specs.Prelude.{◌≡◌, ◌<◌, ◌≤◌, IsTrue, length};
ghost use Rattle.flash_model.specs.Flash.{blank, slot_at};
ghost use Rattle.flash_model.specs.Operations.{CanProgram};

use crate::lines::{byte_at, number_at, word, word_count};
use crate::pictures::SHAPE;
use flash_model::{Arms, Flash, Outcome, Power, Wide};
use tx_types::{Block, Slot};

/// A page for a byte, which can be told from others by its end.
fn page(byte: u8) -> [u8; 16] {
    let mut page = [byte; 16];
    page[15] = byte.wrapping_add(1);
    page
}

/// A spare area for a byte, which can be told from others by both ends.
fn spare_area(byte: u8) -> [u8; 64] {
    let mut spare_area = [byte; 64];
    spare_area[0] = byte.wrapping_add(2);
    spare_area[63] = byte.wrapping_add(3);
    spare_area
}

/// Whether a slot is read and is blank.
fn reads_blank<F: Flash>(flash: &mut F, at: u32) -> bool
    requires shape { (F.state flash.old).shape ≡ SHAPE }
    requires exists { at < 8 }
    ensures shape { (F.state flash.new).shape ≡ SHAPE }
    ensures image { (F.state flash.new).image ≡ (F.state flash.old).image }
    ensures blank { IsTrue result → slot_at (F.state flash.old).image at ≡ blank }
{
    match flash.read(Slot(at), &mut [0; 16], &mut [0; 64]) {
        Ok(seen) => seen.is_blank(),
        Err(_) => false,
    }
}

/// Whether a slot may be programmed.
pub fn may_program<F: Flash>(flash: &mut F, at: u32) -> bool
    requires { (F.state flash.old).shape ≡ SHAPE }
    ensures shape { (F.state flash.new).shape ≡ SHAPE }
    ensures image { (F.state flash.new).image ≡ (F.state flash.old).image }
    ensures may { IsTrue result → CanProgram SHAPE (F.state flash.old).image at }
{
    if at >= 8 || !reads_blank(flash, at) {
        return false;
    }
    at % 2 == 1 || reads_blank(flash, at + 1)
}

/// Programs a slot, if it may be programmed.
fn program<F: Flash>(flash: &mut F, at: u32, byte: u8) -> Option<bool>
    requires { (F.state flash.old).shape ≡ SHAPE }
    ensures { (F.state flash.new).shape ≡ SHAPE }
{
    if !may_program(flash, at) {
        return None;
    }
    Some(
        flash
            .program(Slot(at), &page(byte), &spare_area(byte))
            .is_ok(),
    )
}

/// Erases a block, if there is one.
fn erase<F: Flash>(flash: &mut F, block: u32) -> Option<bool>
    requires { (F.state flash.old).shape ≡ SHAPE }
    ensures { (F.state flash.new).shape ≡ SHAPE }
{
    if block >= 4 {
        return None;
    }
    Some(flash.erase(Block(block)).is_ok())
}

/// Starts nothing.
pub fn fire_none<F: Wide>(flash: &mut F) -> bool
    requires { (F.state flash.old).shape ≡ SHAPE }
    ensures { (F.state flash.new).shape ≡ SHAPE }
{
    flash.clear();
    flash.fire().is_ok()
}

/// Starts the program of a slot alone.
fn fire_one<F: Wide>(flash: &mut F, at: Slot, bytes: &[u8], spare_area: &[u8; 64]) -> bool
    requires shape { (F.state flash.old).shape ≡ SHAPE }
    requires may { CanProgram SHAPE (F.state flash.old).image at.0 }
    requires page { length bytes.now ≡ 16 }
    ensures { (F.state flash.new).shape ≡ SHAPE }
{
    flash.clear();
    flash.load(at, bytes, spare_area);
    flash.fire().is_ok()
}

/// Starts the programs of a slot of the first die and of one of the second together.
fn fire_two<F: Wide>(
    flash: &mut F,
    at: Slot,
    bytes: &[u8],
    other_at: Slot,
    other_bytes: &[u8],
    spare_area: &[u8; 64],
) -> bool
    requires shape { (F.state flash.old).shape ≡ SHAPE }
    requires may { CanProgram SHAPE (F.state flash.old).image at.0 }
    requires other_may { CanProgram SHAPE (F.state flash.old).image other_at.0 }
    requires page { length bytes.now ≡ 16 }
    requires other_page { length other_bytes.now ≡ 16 }
    requires first { at.0 < 4 }
    requires second { 4 ≤ other_at.0 }
    ensures { (F.state flash.new).shape ≡ SHAPE }
{
    flash.clear();
    flash.load(at, bytes, spare_area);
    flash.load(other_at, other_bytes, spare_area);
    flash.fire().is_ok()
}

/// Starts the program of a slot alone, if it may be programmed.
fn fire_if_one<F: Wide>(flash: &mut F, at: u32, byte: u8) -> Option<bool>
    requires { (F.state flash.old).shape ≡ SHAPE }
    ensures { (F.state flash.new).shape ≡ SHAPE }
{
    if !may_program(flash, at) {
        return None;
    }
    Some(fire_one(flash, Slot(at), &page(byte), &spare_area(byte)))
}

/// Starts the programs of a slot of the first die and of one of the second, if they may be programmed.
fn fire_if_two<F: Wide>(
    flash: &mut F,
    at: u32,
    byte: u8,
    other_at: u32,
    other_byte: u8,
) -> Option<bool>
    requires { (F.state flash.old).shape ≡ SHAPE }
    ensures { (F.state flash.new).shape ≡ SHAPE }
{
    if at >= 4 || other_at < 4 || !may_program(flash, at) || !may_program(flash, other_at) {
        return None;
    }
    Some(fire_two(
        flash,
        Slot(at),
        &page(byte),
        Slot(other_at),
        &page(other_byte),
        &spare_area(byte),
    ))
}

/// Starts together what a step says: nothing, a slot, or a slot of the first die and one of the second.
fn fire<F: Wide>(flash: &mut F, step: &str) -> Option<bool>
    requires { (F.state flash.old).shape ≡ SHAPE }
    ensures { (F.state flash.new).shape ≡ SHAPE }
{
    let (at, byte) = (number_at(step, 1), byte_at(step, 2));
    match word_count(step) {
        1 => Some(fire_none(flash)),
        3 => fire_if_one(flash, at, byte),
        5 => fire_if_two(flash, at, byte, number_at(step, 3), byte_at(step, 4)),
        _ => None,
    }
}

/// The outcome of a name.
fn outcome(name: &str) -> Outcome {
    match name {
        "none" => Outcome::None,
        "all" => Outcome::All,
        _ => Outcome::Bad,
    }
}

/// Arms a flash, or turns its power on. Returns whether the step is one of these.
fn arms<F: Arms + Power>(flash: &mut F, step: &str) -> bool
    requires { (F.state flash.old).shape ≡ SHAPE }
    ensures { (F.state flash.new).shape ≡ SHAPE }
{
    let count = number_at(step, 1);
    let outcome = outcome(word(step, 2));
    match word(step, 0) {
        "on" => flash.power_on(),
        "cut" if count > 0 => flash.arm_cut(count, outcome),
        "fault" if count > 0 => flash.arm_fault(count, outcome),
        _ => return false,
    }
    true
}

/// Takes a step, if it may be taken. Returns whether it was answered.
pub fn take<F: Wide + Arms + Power>(flash: &mut F, step: &str) -> Option<bool>
    requires { (F.state flash.old).shape ≡ SHAPE }
    ensures { (F.state flash.new).shape ≡ SHAPE }
{
    if arms(flash, step) {
        return Some(true);
    }
    match word(step, 0) {
        "program" => program(flash, number_at(step, 1), byte_at(step, 2)),
        "erase" => erase(flash, number_at(step, 1)),
        "fire" => fire(flash, step),
        _ => None,
    }
}
