//! The answers of a device, said one behind the other.

use crate::texts::is_like;
use array_machine::{Aborted, Collected, Fault, Moved, Progress, StepError, SubmitError};
use record_list::Found;
use std::alloc::Global;
use tx_engine::RetireError;
use tx_types::Stats;

/// Answers, and whether there was memory for all of them.
#[derive(Drop)]
pub struct Answers {
    text: String,
    is_whole: bool,
}

impl Answers {
    /// No answer.
    pub fn new(alloc: Global) -> Answers {
        Answers {
            text: String::new(alloc),
            is_whole: true,
        }
    }

    /// Whether these are the answers that are wanted.
    pub fn are(&self, wanted: &str) -> bool {
        self.is_whole && is_like(self.text.as_str(), wanted)
    }

    /// There was no memory for an answer.
    pub fn miss(&mut self) {
        self.is_whole = false;
    }

    /// Goes on with an answer.
    fn push(&mut self, text: &str) {
        if self.text.push_str(text).is_err() {
            self.is_whole = false;
        }
    }

    /// Appends an answer, or the first word of it.
    pub fn say(&mut self, answer: &str) {
        if !self.text.is_empty() {
            self.push("; ");
        }
        self.push(answer);
    }

    /// Goes on with a text and a number.
    pub fn put(&mut self, text: &str, number: u64) {
        if write!(self.text, "{text}{number}").is_err() {
            self.is_whole = false;
        }
    }
}

/// Appends why a transaction was not opened.
pub fn say_refusal(answers: &mut Answers, refusal: SubmitError) {
    match refusal {
        SubmitError::Empty => answers.say("empty"),
        SubmitError::Tag => answers.say("tag"),
        SubmitError::Range(page) => say_number(answers, "range", page),
        SubmitError::Repeated(page) => say_number(answers, "repeated", page),
        SubmitError::Spent(page) => say_number(answers, "spent", page),
        SubmitError::Full { free } => say_number(answers, "full", free),
        SubmitError::Overlap { page, tag } => {
            say_number(answers, "overlap", page);
            answers.put(" ", u64::from(tag));
        }
    }
}

/// Appends a word and a number.
fn say_number(answers: &mut Answers, word: &str, number: u32) {
    answers.say(word);
    answers.put(" ", u64::from(number));
}

/// Appends what a step answered. A fault is told by the word given.
pub fn say_step(answers: &mut Answers, answer: Result<Progress, StepError>, fault: &str) {
    match answer {
        Ok(Progress::Wrote { done, all }) => {
            say_number(answers, "wrote", done);
            answers.put(" ", u64::from(all));
        }
        Ok(Progress::Done) => answers.say("done"),
        Err(StepError::Unknown) => answers.say("unknown"),
        Err(StepError::Fault) => answers.say(fault),
    }
}

/// Appends what an abort answered.
pub fn say_aborted(answers: &mut Answers, answer: Result<Aborted, StepError>, fault: &str) {
    answers.say(match answer {
        Ok(Aborted::Gone) => "gone",
        Ok(Aborted::Late) => "late",
        Err(StepError::Unknown) => "unknown",
        Err(StepError::Fault) => fault,
    });
}

/// Appends what a collection answered.
pub fn say_collected(answers: &mut Answers, answer: Result<Collected, Fault>, fault: &str) {
    answers.say(match answer {
        Ok(Collected::One) => "collected",
        Ok(Collected::Nothing) => "nothing",
        Err(Fault) => fault,
    });
}

/// Appends what retiring a block answered.
pub fn say_retired(answers: &mut Answers, answer: Result<(), RetireError>, fault: &str) {
    match answer {
        Ok(()) => answers.say("retired"),
        Err(RetireError::Range) => answers.say("range"),
        Err(RetireError::Worn(allowance)) => say_number(answers, "worn", allowance),
        Err(RetireError::Fault) => answers.say(fault),
    }
}

/// Appends how many transactions went on and were finished.
pub fn say_moved(answers: &mut Answers, moved: Moved) {
    say_number(answers, "moved", moved.moved);
    answers.put(" finished ", u64::from(moved.finished));
}

/// Appends the first byte of a page whose other bytes are zeros.
pub fn say_page(answers: &mut Answers, page: &[u8; 16]) {
    if page[1..] == [0; 15] {
        say_number(answers, "page", u32::from(page[0]));
    } else {
        answers.say("other");
    }
}

/// Appends the numbers of a device.
pub fn say_stats(answers: &mut Answers, stats: Stats) {
    answers.say("stats");
    answers.put(" written ", u64::from(stats.written));
    answers.put(" open ", u64::from(stats.tags));
    answers.put(" pending ", u64::from(stats.pending));
    answers.put(" programs ", stats.programs);
    answers.put(" erases ", stats.erases);
    answers.put(" garbage ", u64::from(stats.garbage));
}

/// Appends the records that a device knows: their slots, pages and versions.
pub fn say_found(answers: &mut Answers, list: &[Found]) {
    answers.say("records");
    for found in list {
        answers.put(" ", u64::from(found.slot.0));
        answers.put(":", u64::from(found.rec.page));
        answers.put(".", found.rec.version);
    }
}
