ghost use Rattle.std.specs.Prelude.{◌≡◌};
ghost use Rattle.desk_tasks.specs.Stops.{breach_failure, bytes_of, failure_of, key_serving_failure, lines_failure, serving_failure};
ghost use Rattle.desk_tasks.specs.declared.output.Failure.TheVariants as stop;

use crate::refusal::Refusal;
use cut_replay::{Lines, ServeError};
use host_protocol::TextError;
use page_keys::KeyServeError;
use program_base::{ImageRefusal, ImageStop};
use record_list::Breach;
use std::alloc::AllocError;
use tx_types::Memory;

/// What is said.
#[derive(Drop)]
pub enum Text {
    /// The lines of replies.
    Replies(Lines),
    /// Another text.
    Other(Vec<u8>),
}

impl Text {
    /// All bytes.
    pub fn as_slice(&self) -> &[u8]
        ensures { result.now ≡ bytes_of self.now }
    {
        match self {
            Text::Replies(lines) => lines.as_slice(),
            Text::Other(bytes) => bytes,
        }
    }
}

/// A file that is saved.
#[derive(Drop)]
pub struct File<'a> {
    pub name: &'a str,
    pub bytes: Vec<u8>,
}

/// What the work gives: a file that is saved, if there is one, and what is said then.
#[derive(Drop)]
pub struct Output<'a> {
    pub saved: Option<File<'a>>,
    pub text: Text,
}

/// Why the work gives nothing.
#[derive(Clone, Copy)]
pub enum Failure<'a> {
    Refused(Refusal<'a>),
    /// The desk met a fault.
    Fault,
    Memory,
}

impl<'a> From<ImageStop<'a>> for Failure<'a> {
    ghost from_gives = { λ stopped e. e ≡ failure_of stopped };

    fn from(stopped: ImageStop<'a>) -> Self {
        match stopped {
            ImageStop::Refused(refusal) => Failure::Refused(Refusal::Image(refusal)),
            ImageStop::Fault => Failure::Fault,
            ImageStop::Memory => Failure::Memory,
        }
    }
}

impl From<TextError> for Failure<'_> {
    ghost from_gives = { λ error e. e ≡ lines_failure error };

    fn from(error: TextError) -> Self {
        match error {
            TextError::Line(n) => Failure::Refused(Refusal::BadLine(n)),
            TextError::Memory => Failure::Memory,
        }
    }
}

impl From<Breach> for Failure<'_> {
    ghost from_gives = { λ breach e. e ≡ breach_failure breach };

    fn from(breach: Breach) -> Self {
        Failure::Refused(Refusal::Image(ImageRefusal::Unsound(breach)))
    }
}

impl From<ServeError> for Failure<'_> {
    ghost from_gives = { λ error e. e ≡ serving_failure error };

    fn from(error: ServeError) -> Self {
        match error {
            ServeError::Unsound { law, slot } => Failure::from(Breach { law, slot }),
            ServeError::Memory => Failure::Memory,
        }
    }
}

impl From<KeyServeError> for Failure<'_> {
    ghost from_gives = { λ error e. e ≡ key_serving_failure error };

    fn from(error: KeyServeError) -> Self {
        match error {
            KeyServeError::Unsound { law, slot } => Failure::from(Breach { law, slot }),
            KeyServeError::Bucket(page) => Failure::Refused(Refusal::BadBucket(page)),
            KeyServeError::Memory => Failure::Memory,
        }
    }
}

impl From<Memory> for Failure<'_> {
    ghost from_gives = { λ _ e. e ≡ stop.Memory };

    fn from(_: Memory) -> Self {
        Failure::Memory
    }
}

impl From<AllocError> for Failure<'_> {
    ghost from_gives = { λ _ e. e ≡ stop.Memory };

    fn from(_: AllocError) -> Self {
        Failure::Memory
    }
}
