ghost use Rattle.std.specs.Prelude.{◌≡◌, ◌≢◌, ◌<◌, length, IfSome, IfNone};
ghost use Rattle.host_protocol.specs.Verbs.{word_of};

use crate::words::is_word;

/// The word that a command line begins with.
#[derive(Clone, Copy)]
pub enum Verb {
    Read,
    Write,
    Step,
    Finish,
    Abort,
    StepAll,
    Collect,
    Stats,
    Explain,
    Cut,
    Fault,
    BadRead,
}

impl Verb {
    /// The verb that a word is.
    pub fn from_word(word: &[u8]) -> Option<Verb>
        ensures some { IfSome result (λ verb. word.now ≡ word_of verb) }
        ensures none { IfNone result ((verb : Verb) → word.now ≢ word_of verb) }
    {
        match word.len() {
            5 => Verb::of_five(word),
            0..5 => Verb::of_few(word),
            _ => Verb::of_many(word),
        }
    }

    /// The verb that a word of five bytes is.
    fn of_five(word: &[u8]) -> Option<Verb>
        ensures some { IfSome result (λ verb. word.now ≡ word_of verb) }
        ensures none { IfNone result
            ((verb : Verb) → length (word_of verb) ≡ 5 → word.now ≢ word_of verb) }
    {
        if is_word(word, b"write") {
            Some(Verb::Write)
        } else if is_word(word, b"abort") {
            Some(Verb::Abort)
        } else if is_word(word, b"stats") {
            Some(Verb::Stats)
        } else if is_word(word, b"fault") {
            Some(Verb::Fault)
        } else {
            None
        }
    }

    /// The verb that a word of fewer bytes is.
    fn of_few(word: &[u8]) -> Option<Verb>
        ensures some { IfSome result (λ verb. word.now ≡ word_of verb) }
        ensures none { IfNone result
            ((verb : Verb) → length (word_of verb) < 5 → word.now ≢ word_of verb) }
    {
        if is_word(word, b"read") {
            Some(Verb::Read)
        } else if is_word(word, b"step") {
            Some(Verb::Step)
        } else if is_word(word, b"cut") {
            Some(Verb::Cut)
        } else {
            None
        }
    }

    /// The verb that a word of more bytes is.
    fn of_many(word: &[u8]) -> Option<Verb>
        ensures some { IfSome result (λ verb. word.now ≡ word_of verb) }
        ensures none { IfNone result
            ((verb : Verb) → 5 < length (word_of verb) → word.now ≢ word_of verb) }
    {
        if is_word(word, b"finish") {
            Some(Verb::Finish)
        } else if is_word(word, b"stepall") {
            Some(Verb::StepAll)
        } else if is_word(word, b"collect") {
            Some(Verb::Collect)
        } else if is_word(word, b"explain") {
            Some(Verb::Explain)
        } else if is_word(word, b"badread") {
            Some(Verb::BadRead)
        } else {
            None
        }
    }
}
