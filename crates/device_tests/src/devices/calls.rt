//! Calls of a device over a flash that is told to break, and what they answer.

ghost use Rattle.std.specs.Prelude.{◌≡◌, false};

use super::telling::{
    Answers, say_aborted, say_collected, say_found, say_page, say_refusal, say_retired, say_stats,
    say_step,
};
use crate::texts::{number_of, number_or_zero, outcome};
use array_machine::{Progress, ReadAnswer, ReadError, StepError};
use flash_model::{Arms, Flash, Retire};
use record_list::CommitRule;
use std::alloc::Global;
use tx_engine::Device;
use tx_types::{Batch, Block};

/// What is said of a call that can't be made.
const IMPOSSIBLE: &str = "?";

/// How a fault is told: as the power cut that it was, if it was one.
fn fault_word<F: Flash, R: CommitRule>(device: &Device<F, R>) -> &'static str {
    if device.live() { "fault" } else { "cut" }
}

/// Adds to a batch the page and the first byte that a word says, as `3=255` does. The rest of the page is zeros.
/// Returns whether it could.
fn is_added(batch: &mut Batch, word: &str) -> bool {
    let (page, byte) = word.split_once('=').unwrap_or((word, ""));
    match byte.parse::<u8>() {
        Ok(byte) => batch.page_bytes() >= 1 && batch.add(number_of(page), &[byte]).is_ok(),
        Err(_) => false,
    }
}

/// Adds to a batch the pages that a text says. Returns whether it could.
fn are_added(batch: &mut Batch, pages: &str) -> bool {
    if pages.is_empty() {
        return true;
    }
    for word in pages.split(' ') {
        if !is_added(batch, word) {
            return false;
        }
    }
    true
}

/// Opens a transaction with the tag and the pages that a text says.
fn submit<F: Flash, R: CommitRule>(
    device: &mut Device<F, R>,
    batch: &mut Batch,
    words: &str,
    answers: &mut Answers,
)
    requires kept { device.old.dropped ≡ false }
    ensures kept { device.new.dropped ≡ false }
{
    let (tag, pages) = words.split_once(' ').unwrap_or((words, ""));
    if !are_added(batch, pages) || batch.page_bytes() != device.config().page_bytes {
        return answers.say(IMPOSSIBLE);
    }
    match device.submit(number_of(tag), batch) {
        Ok(()) => answers.say("open"),
        Err(refusal) => say_refusal(answers, refusal),
    }
}

/// Opens a transaction.
fn write<F: Flash, R: CommitRule>(
    alloc: Global,
    device: &mut Device<F, R>,
    words: &str,
    answers: &mut Answers,
)
    requires kept { device.old.dropped ≡ false }
    ensures kept { device.new.dropped ≡ false }
{
    let mut batch = Batch::new(alloc, device.config().page_bytes);
    submit(device, &mut batch, words, answers);
}

/// Steps until one does not answer that a page more was written.
fn finish<F: Flash, R: CommitRule>(
    device: &mut Device<F, R>,
    tag: u32,
) -> Result<Progress, StepError>
    requires kept { device.old.dropped ≡ false }
    ensures kept { device.new.dropped ≡ false }
{
    'steps: for _ in 0..device.stats().pending {
        match device.step(tag) {
            Ok(Progress::Wrote { .. }) => {}
            answer => return answer,
        }
    }
    device.step(tag)
}

/// Reads a page of 16 bytes. Its first byte is said, and its other bytes must be zeros.
fn read<F: Flash, R: CommitRule>(device: &mut Device<F, R>, page: u32, answers: &mut Answers)
    requires kept { device.old.dropped ≡ false }
    ensures kept { device.new.dropped ≡ false }
{
    if device.config().page_bytes != 16 {
        return answers.say(IMPOSSIBLE);
    }
    let mut room = [0xee; 16];
    match device.read(page, &mut room) {
        Ok(ReadAnswer::Blank) => answers.say("blank"),
        Ok(ReadAnswer::Page) => say_page(answers, &room),
        Err(ReadError::Range) => answers.say("range"),
        Err(ReadError::Fault) => answers.say(fault_word(device)),
    }
}

/// Tells the records that a device knows.
fn tell_found<F: Flash, R: CommitRule>(device: &Device<F, R>, answers: &mut Answers)
    requires kept { device.now.dropped ≡ false }
{
    match device.noted_records() {
        Ok(list) => say_found(answers, &list),
        Err(_) => answers.miss(),
    }
}

/// Makes a call with the number of a transaction, of a block or of a page.
fn answer_with<F: Retire, R: CommitRule>(
    device: &mut Device<F, R>,
    name: &str,
    number: u32,
    answers: &mut Answers,
)
    requires kept { device.old.dropped ≡ false }
    ensures kept { device.new.dropped ≡ false }
{
    match name {
        "step" => {
            let answer = device.step(number);
            say_step(answers, answer, fault_word(device));
        }
        "finish" => {
            let answer = finish(device, number);
            say_step(answers, answer, fault_word(device));
        }
        "abort" => {
            let answer = device.abort(number);
            say_aborted(answers, answer, fault_word(device));
        }
        "retire" => {
            let answer = device.retire(Block(number));
            say_retired(answers, answer, fault_word(device));
        }
        "read" => read(device, number, answers),
        _ => answers.say(IMPOSSIBLE),
    }
}

/// Sets an arm with its count from 1, where the call is one. Returns whether it is.
fn is_armed<F: Arms, R: CommitRule>(device: &mut Device<F, R>, name: &str, words: &str) -> bool
    requires kept { device.old.dropped ≡ false }
    ensures kept { device.new.dropped ≡ false }
{
    let count = number_or_zero(words, 0);
    if count == 0 {
        return false;
    }
    match name {
        "cut" => device.arm_cut(count, outcome(words, 1)),
        "fault" => device.arm_fault(count, outcome(words, 1)),
        "badread" => device.arm_bad_read(count),
        _ => return false,
    }
    true
}

/// Makes a call of a device, and says what it answers.
///
/// `write 1 0=7 3=9` opens transaction 1. `step 1` writes its next page, `finish 1` all its pages, and `abort 1`
/// gives it up. `read 0` reads a page, `retire 2` retires a block, and `collect` collects one. `stats` tells the
/// numbers of the device, and `found` its records. `cut 1 bad`, `fault 1 all` and `badread 1` set arms, and have no
/// answer.
pub fn answer<F: Arms + Retire, R: CommitRule>(
    alloc: Global,
    device: &mut Device<F, R>,
    call: &str,
    answers: &mut Answers,
)
    requires kept { device.old.dropped ≡ false }
    ensures kept { device.new.dropped ≡ false }
{
    let (name, words) = call.split_once(' ').unwrap_or((call, ""));
    match name {
        "write" => write(alloc, device, words, answers),
        "collect" => {
            let answer = device.collect();
            say_collected(answers, answer, fault_word(device));
        }
        "stats" => say_stats(answers, device.stats()),
        "found" => tell_found(device, answers),
        _ => {
            if !is_armed(device, name, words) {
                answer_with(device, name, number_of(words), answers);
            }
        }
    }
}
