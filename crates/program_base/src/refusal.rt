ghost use Rattle.std.specs.Prelude.{◌≡◌, ◌∷◌, ◌++◌, IfOk, codes};
ghost use Rattle.std.specs.Fmt.{decimal};
ghost use Rattle.std.specs.String.{string_bytes};
ghost use Rattle.program_base.specs.Refusals.{image_line, image_refused, image_status, image_words, line, with_slot};
ghost use Rattle.program_base.specs.Statuses.{code};

use crate::status::Status;
use image_file::ImageError;
use record_list::Breach;
use std::alloc::{AllocError, Global};
use tx_types::Slot;

/// Why a call for an image file is refused: its program says one line, and returns a status.
#[derive(Clone, Copy)]
pub enum ImageRefusal<'a> {
    /// The words are not those of the program.
    BadWords,
    /// There is no file of this name.
    Missing(&'a str),
    /// The file of this name is too long.
    TooLong(&'a str),
    /// The bytes of the image file break this rule first.
    BadImage(ImageError),
    /// The image is not sound: the first law that it breaks, and the slot that the law names.
    Unsound(Breach),
}

impl ImageRefusal<'_> {
    /// The status that the program returns.
    pub fn status(&self) -> Status
        ensures { code result ≡ image_status (image_refused self.now) }
    {
        match self {
            ImageRefusal::BadWords => Status::BadWords,
            ImageRefusal::Missing(_) => Status::NoFile,
            ImageRefusal::BadImage(_) => Status::BadImage,
            ImageRefusal::Unsound(_) => Status::Unsound,
            ImageRefusal::TooLong(_) => Status::TooLong,
        }
    }

    /// The line that it prints. It returns `AllocError` where there is no memory for it.
    pub fn line(&self, alloc: Global) -> Result<String, AllocError>
        ensures { IfOk result (λ line. string_bytes line ≡ image_line (image_refused self.now)) }
    {
        match self {
            ImageRefusal::BadWords => String::from_str(alloc, "bad words\n"),
            ImageRefusal::Missing(name) => line_of(alloc, "no file", name),
            ImageRefusal::TooLong(name) => line_of(alloc, "file too long", name),
            ImageRefusal::BadImage(rule) => bad_image_line(alloc, *rule),
            ImageRefusal::Unsound(breach) => unsound_line(alloc, breach.law, breach.slot.0),
        }
    }
}

/// The line of some words, and of what stands behind them.
fn line_of(alloc: Global, words: &str, behind: &str) -> Result<String, AllocError>
    ensures { IfOk result (λ said. string_bytes said ≡ line (words.now ++ 32 ∷ behind.now)) }
{
    format!(in alloc; "{words} {behind}\n")
}

/// The line for bytes that break this rule of an image file.
fn bad_image_line(alloc: Global, rule: ImageError) -> Result<String, AllocError>
    ensures { IfOk result (λ words. string_bytes words ≡ line (codes "bad image: " ++ image_words rule)) }
{
    let (word, slot) = image_word(rule);
    match slot {
        None => line_of(alloc, "bad image:", word),
        Some(slot) => format!(in alloc; "bad image: {word} {}\n", slot.0),
    }
}

/// The line for an image that breaks this law, which names this slot.
fn unsound_line(alloc: Global, law: u8, slot: u32) -> Result<String, AllocError>
    ensures { IfOk result (λ words. string_bytes words ≡
        line (codes "unsound law " ++ decimal law ++ codes " slot " ++ decimal slot)) }
{
    format!(in alloc; "unsound law {law} slot {slot}\n")
}

/// The word for a rule of an image file, and the slot that stands behind it.
fn image_word(rule: ImageError) -> (&'static str, Option<Slot>)
    ensures { image_words rule ≡ with_slot result.0.now result.1 }
{
    match rule {
        ImageError::Short => ("short", None),
        ImageError::Magic => ("magic", None),
        ImageError::Protocol => ("protocol", None),
        ImageError::Reserved => ("reserved", None),
        ImageError::Allowance => ("allowance", None),
        ImageError::Config(_) => ("config", None),
        ImageError::Length => ("length", None),
        ImageError::SlotState(slot) => ("state", Some(slot)),
        ImageError::SlotBytes(slot) => ("bytes", Some(slot)),
        ImageError::Memory => ("memory", None),
    }
}
