//! Calls of a flash in memory that break where an arm comes due.

ghost use Rattle.std.specs.Prelude.{◌≡◌};
ghost use Rattle.flash_model.specs.Firing.{no_loads};

use crate::mem_flash_tests::{PAGE, SHAPE, SPARE_AREA};
use crate::samples::{has_number, has_version, has_word, number_at, sides, word};
use flash_model::{Arms, Flash, Outcome, Power, Retire, Seen, Wide};
use mem_flash::MemFlash;
use std::alloc::Global;
use tx_types::{Block, Slot};

/// Steps on a flash of which two blocks may be retired and whose slots 0, 2 and 3 were programmed. Then for each call
/// whether it was answered (`+`) or broken (`-`), each slot (`.` blank, `C` complete, `X` damaged), whether power is
/// on, the counts of programs, erases, reads and faults, the blocks retired, and all that was started, with the three
/// from before. `fire` starts nothing together, or slot 4 alone, or the slots 1 and 4, which lie in the two dies.
pub const ROWS: &str = "\
    steps => none C.CC.... on 3 0 0 0 0 3\n\
    steps program 1 => + CCCC.... on 4 0 0 0 0 4\n\
    steps erase 1 => + C....... on 3 1 0 0 0 4\n\
    steps read 0 => + C.CC.... on 3 0 1 0 0 3\n\
    steps cut 1 none, program 1 => - C.CC.... off 3 0 0 1 0 4 -- each outcome of each operation\n\
    steps cut 1 all, program 1 => - CCCC.... off 3 0 0 1 0 4\n\
    steps cut 1 bad, program 1 => - CXCC.... off 3 0 0 1 0 4\n\
    steps cut 1 none, erase 1 => - C.CC.... off 3 0 0 1 0 4\n\
    steps cut 1 all, erase 1 => - C....... off 3 0 0 1 0 4\n\
    steps cut 1 bad, erase 1 => - C.XX.... off 3 0 0 1 0 4\n\
    steps fault 1 none, program 1 => - C.CC.... on 3 0 0 1 0 4\n\
    steps fault 1 all, program 1 => - CCCC.... on 3 0 0 1 0 4\n\
    steps fault 1 bad, program 1 => - CXCC.... on 3 0 0 1 0 4\n\
    steps fault 1 none, erase 1 => - C.CC.... on 3 0 0 1 0 4\n\
    steps fault 1 all, erase 1 => - C....... on 3 0 0 1 0 4\n\
    steps fault 1 bad, erase 1 => - C.XX.... on 3 0 0 1 0 4\n\
    steps badread 2, read 0, program 1, read 0, read 0 => ++-+ CCCC.... on 4 0 3 1 0 4 \
    -- reads, and what each arm counts\n\
    steps fault 2 bad, program 1, read 0, program 4, program 5 => ++-+ CCCCXC.. on 5 0 1 1 0 6\n\
    steps fault 1 bad, fault 2 none, program 1, program 4 => +- CCCC.... on 4 0 0 1 0 5 \
    -- a newer arm replaces an older one\n\
    steps cut 1 none, fault 1 bad, program 1, on, program 1 => -+ CCCC.... on 4 0 0 1 0 5 \
    -- where both come due the cut decides, and both are spent\n\
    steps fault 1 none, cut 2 bad, program 1, program 1, on, program 4 => --+ CXCCC... on 4 0 0 2 0 6 \
    -- the cut counts the call in which the fault comes due,\n\
    steps cut 1 none, fault 2 all, program 1, erase 0, read 0, on, program 1 => ---- CCCC.... on 3 0 0 4 0 5 \
    -- and the fault that of the cut. It counts no call without power, and is armed still when power is on \
    again\n\
    steps badread 1, cut 1 none, program 1, read 0, on, read 0, read 0 => ---+ C.CC.... on 3 0 2 3 0 4\n\
    steps cut 3 all, erase 0, program 0, erase 1, read 2 => ++-- C....... off 4 1 0 2 0 6\n\
    steps cut 3 bad, program 1, read 0, program 4, program 5 => +++- CCCCCX.. off 5 0 1 1 0 6 \
    -- the third of these operations is cut\n\
    steps retire 1 => + C....... on 3 0 0 0 1 4 \
    -- a block is retired whole or not at all, and is counted for the arms alone\n\
    steps cut 1 none, retire 1 => - C.CC.... off 3 0 0 1 0 4\n\
    steps cut 1 all, retire 1 => - C....... off 3 0 0 1 1 4\n\
    steps cut 1 bad, retire 1 => - C....... off 3 0 0 1 1 4\n\
    steps fault 1 none, retire 1 => - C.CC.... on 3 0 0 1 0 4\n\
    steps fault 1 all, retire 1 => - C....... on 3 0 0 1 1 4\n\
    steps fault 1 bad, retire 1 => - C....... on 3 0 0 1 1 4\n\
    steps fault 2 bad, retire 1, retire 0 => +- ........ on 3 0 0 1 2 5\n\
    steps cut 1 none, program 1, retire 1, on, retire 0, erase 1 => --++ ........ on 3 1 0 2 1 6\n\
    steps fire both => + CCCCC... on 5 0 0 0 0 4 \
    -- programs that are started together are one call for the arms, and each is counted. The one of the \
    lowest die is damaged\n\
    steps fire one => + C.CCC... on 4 0 0 0 0 4\n\
    steps cut 1 none, fire both => - C.CC.... off 3 0 0 1 0 4\n\
    steps cut 1 all, fire both => - CCCCC... off 3 0 0 1 0 4\n\
    steps cut 1 bad, fire both => - CXCCC... off 3 0 0 1 0 4\n\
    steps fault 1 none, fire both => - C.CC.... on 3 0 0 1 0 4\n\
    steps fault 1 all, fire both => - CCCCC... on 3 0 0 1 0 4\n\
    steps fault 1 bad, fire both => - CXCCC... on 3 0 0 1 0 4\n\
    steps fault 1 bad, fire one => - C.CCX... on 3 0 0 1 0 4\n\
    steps fault 2 bad, fire both, program 5 => +- CCCCCX.. on 5 0 0 1 0 5\n\
    steps fault 1 bad, fire none, program 1 => +- CXCC.... on 3 0 0 1 0 4 \
    -- where nothing is loaded no arm counts the call, and after a broken one nothing is loaded\n\
    steps fault 1 none, fire both, fire none => -+ C.CC.... on 3 0 0 1 0 4\n\
    steps cut 1 none, fire none, program 1, fire both, fire none, on, fire both => +---+ CCCCC... on 5 0 0 3 0 5";

/// The outcome of a name.
fn outcome(name: &str) -> Outcome {
    match name {
        "none" => Outcome::None,
        "all" => Outcome::All,
        _ => Outcome::Bad,
    }
}

/// Arms a flash, or turns power on. Returns whether the step is one of these.
fn arms(flash: &mut MemFlash, step: &str) -> bool
    requires shape { flash.old.shape ≡ SHAPE }
    requires loads { flash.old.registers ≡ no_loads SHAPE }
    ensures shape { flash.new.shape ≡ SHAPE }
    ensures loads { flash.new.registers ≡ no_loads SHAPE }
{
    let count = number_at(step, 1).unwrap_or(0);
    let outcome = outcome(word(step, 2));
    match word(step, 0) {
        "on" => flash.power_on(),
        "cut" if count > 0 => flash.arm_cut(count, outcome),
        "fault" if count > 0 => flash.arm_fault(count, outcome),
        "badread" if count > 0 => flash.arm_bad_read(count),
        _ => return false,
    }
    true
}

/// Programs a slot, if it may be programmed.
fn program(flash: &mut MemFlash, at: u32) -> Option<bool>
    requires { flash.old.shape ≡ SHAPE }
    ensures shape { flash.new.shape ≡ SHAPE }
    ensures loads { flash.new.registers ≡ flash.old.registers }
{
    if at >= 8 || flash.seen(Slot(at)) != Seen::Blank {
        return None;
    }
    if at % 2 == 0 && flash.seen(Slot(at + 1)) != Seen::Blank {
        return None;
    }
    Some(flash.program(Slot(at), &PAGE, &SPARE_AREA).is_ok())
}

/// Starts slot 4 alone, if it is blank.
fn fire_one(flash: &mut MemFlash) -> Option<bool>
    requires shape { flash.old.shape ≡ SHAPE }
    requires loads { flash.old.registers ≡ no_loads SHAPE }
    ensures shape { flash.new.shape ≡ SHAPE }
    ensures loads { flash.new.registers ≡ no_loads SHAPE }
{
    if flash.seen(Slot(4)) != Seen::Blank || flash.seen(Slot(5)) != Seen::Blank {
        return None;
    }
    flash.load(Slot(4), &PAGE, &SPARE_AREA);
    Some(flash.fire().is_ok())
}

/// Starts the slots 1 and 4 together, if they are blank.
fn fire_both(flash: &mut MemFlash) -> Option<bool>
    requires shape { flash.old.shape ≡ SHAPE }
    requires loads { flash.old.registers ≡ no_loads SHAPE }
    ensures shape { flash.new.shape ≡ SHAPE }
    ensures loads { flash.new.registers ≡ no_loads SHAPE }
{
    if flash.seen(Slot(1)) != Seen::Blank
        || flash.seen(Slot(4)) != Seen::Blank
        || flash.seen(Slot(5)) != Seen::Blank
    {
        return None;
    }
    flash.load(Slot(1), &PAGE, &SPARE_AREA);
    flash.load(Slot(4), &PAGE, &SPARE_AREA);
    Some(flash.fire().is_ok())
}

/// Starts nothing together, or slot 4 alone, or the slots 1 and 4.
fn fire(flash: &mut MemFlash, slots: &str) -> Option<bool>
    requires shape { flash.old.shape ≡ SHAPE }
    requires loads { flash.old.registers ≡ no_loads SHAPE }
    ensures shape { flash.new.shape ≡ SHAPE }
    ensures loads { flash.new.registers ≡ no_loads SHAPE }
{
    match slots {
        "none" => Some(flash.fire().is_ok()),
        "one" => fire_one(flash),
        "both" => fire_both(flash),
        _ => None,
    }
}

/// Erases or retires a block, if it is there.
fn clear(flash: &mut MemFlash, retires: bool, block: u32) -> Option<bool>
    requires { flash.old.shape ≡ SHAPE }
    ensures shape { flash.new.shape ≡ SHAPE }
    ensures loads { flash.new.registers ≡ flash.old.registers }
{
    if block >= 4 {
        return None;
    }
    if !retires {
        return Some(flash.erase(Block(block)).is_ok());
    }
    if flash.retired() >= flash.allowance() {
        return None;
    }
    Some(flash.retire(Block(block)).is_ok())
}

/// Reads a slot, if it is there.
fn read(flash: &mut MemFlash, at: u32) -> Option<bool>
    requires { flash.old.shape ≡ SHAPE }
    ensures shape { flash.new.shape ≡ SHAPE }
    ensures loads { flash.new.registers ≡ flash.old.registers }
{
    if at >= 8 {
        return None;
    }
    Some(flash.read(Slot(at), &mut [0; 16], &mut [0; 64]).is_ok())
}

/// Whether a call is answered, if it is one that may be made.
fn call(flash: &mut MemFlash, step: &str) -> Option<bool>
    requires shape { flash.old.shape ≡ SHAPE }
    requires loads { flash.old.registers ≡ no_loads SHAPE }
    ensures shape { flash.new.shape ≡ SHAPE }
    ensures loads { flash.new.registers ≡ no_loads SHAPE }
{
    let at = number_at(step, 1).unwrap_or(u32::MAX);
    match word(step, 0) {
        "program" => program(flash, at),
        "erase" => clear(flash, false, at),
        "retire" => clear(flash, true, at),
        "read" => read(flash, at),
        "fire" => fire(flash, word(step, 1)),
        _ => None,
    }
}

/// What is told of a step: nothing of one that arms, and `?` of one that may not be taken.
fn told(flash: &mut MemFlash, step: &str) -> &'static str
    requires shape { flash.old.shape ≡ SHAPE }
    requires loads { flash.old.registers ≡ no_loads SHAPE }
    ensures shape { flash.new.shape ≡ SHAPE }
    ensures loads { flash.new.registers ≡ no_loads SHAPE }
{
    if step.is_empty() {
        return "none";
    }
    if arms(flash, step) {
        return "";
    }
    match call(flash, step) {
        Some(true) => "+",
        Some(false) => "-",
        None => "?",
    }
}

/// Whether this is told of the steps of a text, with nothing behind it.
fn are_told(flash: &mut MemFlash, steps: &str, want: &[u8]) -> bool
    requires shape { flash.old.shape ≡ SHAPE }
    requires loads { flash.old.registers ≡ no_loads SHAPE }
    ensures { flash.new.shape ≡ SHAPE }
{
    let mut rest = want;
    for step in steps.split(", ") {
        match rest.strip_prefix(told(flash, step).as_bytes()) {
            Some(behind) => rest = behind,
            None => return false,
        }
    }
    rest.is_empty()
}

/// The sign of how a slot reads, and the byte that such a slot begins with.
fn sign(seen: Seen) -> (u8, u8) {
    match seen {
        Seen::Blank => (b'.', 0xff),
        Seen::Complete => (b'C', b'0'),
        Seen::Damaged => (b'X', 0x00),
    }
}

/// Whether each slot reads as its sign says.
fn are_seen(flash: &MemFlash, signs: &[u8]) -> bool
    requires { flash.now.shape ≡ SHAPE }
{
    if signs.len() != 8 {
        return false;
    }
    for at in 0..8 {
        let (sign, first) = sign(flash.seen(Slot(at)));
        if signs[at as usize] != sign || !flash.cell(Slot(at)).starts_with(&[first]) {
            return false;
        }
    }
    true
}

/// The word for whether power is on.
fn power(flash: &MemFlash) -> &'static str {
    if flash.live() { "on" } else { "off" }
}

/// Whether the counts of a flash are those of the text.
fn counts(flash: &MemFlash, want: &str) -> bool {
    has_word(want, 2, power(flash))
        && has_version(want, 3, flash.programs())
        && has_version(want, 4, flash.erases())
        && has_version(want, 5, flash.reads())
        && has_version(want, 6, flash.faults())
        && has_number(want, 7, flash.retired())
        && has_version(want, 8, flash.started())
}

/// Whether three slots of a new flash are programmed.
fn is_ready(flash: &mut MemFlash) -> bool
    requires { flash.old.shape ≡ SHAPE }
    ensures shape { flash.new.shape ≡ SHAPE }
    ensures loads { flash.new.registers ≡ flash.old.registers }
{
    program(flash, 0) == Some(true)
        && program(flash, 2) == Some(true)
        && program(flash, 3) == Some(true)
}

/// Whether the steps come to what the text says, on a flash with three slots that are programmed before.
fn comes_to(flash: &mut MemFlash, steps: &str, want: &str) -> bool
    requires shape { flash.old.shape ≡ SHAPE }
    requires loads { flash.old.registers ≡ no_loads SHAPE }
{
    is_ready(flash)
        && are_told(flash, steps, word(want, 0).as_bytes())
        && are_seen(flash, word(want, 1).as_bytes())
        && counts(flash, want)
}

/// Whether steps on a new flash, of which two blocks may be retired, come to what the line says.
pub fn is_row_right(alloc: Global, line: &str) -> bool {
    let (steps, want) = sides(line);
    match MemFlash::new(alloc, SHAPE) {
        Ok(mut flash) => {
            flash.set_extras(2, 0);
            let is_so = comes_to(&mut flash, steps, want);
            drop(flash);
            is_so
        }
        Err(_) => false,
    }
}
