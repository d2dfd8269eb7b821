//! What the answers of a folder count as.
ghost use Rattle.std.specs.Prelude.{◌≡◌, ℕ, List, None, string_bytes};
ghost use Rattle.std.specs.Result.{IsErrAnd};
ghost use Rattle.durable_folder.specs.Counting.{answer_to, answer_to_create, answer_to_find, answer_to_give, answer_to_link, answer_to_lock, answer_to_open_folder, answer_to_rename, answer_to_sync_folder, is_denied, is_refusal, is_unable, is_unlinkable, refused_if};
ghost use Rattle.mem_folder.specs.Telling.{IsCountOf, IsNoteOf, IsStarved, refusal_of, refused_by};

use durable_folder::Lock;
use std::io;
use std::io::ErrorKind;

/// What was refused.
#[derive(Drop)]
pub enum Denied {
    /// To give this file to a user and a group.
    Giving(Option<u64>, u32, u32),
    /// To say who may do what with this file.
    Setting(u64),
    /// To make a file of this name.
    Making(String),
    /// To put the file of the first name at the second.
    Moving(String, String),
    /// To open this folder.
    Opening(String),
    /// To tell where a link ends that leads to this file.
    Leading(Option<u64>),
    /// To put anything in the place of what is at this name.
    Replacing(String),
    /// To give this name to a file only where nothing is.
    Linking(String),
}

/// What an answer counts as.
#[derive(Drop)]
pub struct Note {
    /// What it refuses.
    pub refused: Option<Denied>,
    /// Whether it is no fault.
    pub is_excused: bool,
}

/// What an answer counts as that refuses nothing, by whether it is no fault.
fn plain_note(is_excused: bool) -> Note
    ensures { (result.refused ≡ None) × (result.is_excused ≡ is_excused) }
{
    Note {
        refused: None,
        is_excused,
    }
}

/// What is refused, if it is.
fn denied_if(is_so: bool, denied: Denied) -> Option<Denied>
    ensures { refused_by result ≡ refused_if is_so (refusal_of denied) }
{
    if is_so { Some(denied) } else { None }
}

/// Whether an error of this kind gives no leave for a call.
fn is_refusal(kind: ErrorKind) -> bool
    ensures { result ≡ is_refusal kind }
{
    match kind {
        ErrorKind::PermissionDenied
        | ErrorKind::ReadOnlyFilesystem
        | ErrorKind::InvalidFilename
        | ErrorKind::ResourceBusy
        | ErrorKind::CrossesDevices => true,
        _ => false,
    }
}

/// What an answer counts as where each error is a fault.
pub fn note_of<T>(answer: &io::Result<T>) -> Note
    ensures { IsNoteOf (answer_to answer.now) result }
{
    match answer {
        Ok(_) => plain_note(true),
        Err(_) => plain_note(false),
    }
}

/// What an answer counts as where it may say that there is nothing of a name.
pub fn note_of_find<T>(answer: &io::Result<T>) -> Note
    ensures { IsNoteOf (answer_to_find answer.now) result }
{
    match answer {
        Ok(_) => plain_note(true),
        Err(error) => match error.kind() {
            ErrorKind::NotFound => plain_note(true),
            _ => plain_note(false),
        },
    }
}

/// What the answer of making a new file counts as.
pub fn note_of_create<T>(answer: &io::Result<T>, name: String) -> Note
    ensures { IsNoteOf (answer_to_create (string_bytes name) answer.now) result }
{
    match answer {
        Ok(_) => plain_note(true),
        Err(error) => match error.kind() {
            ErrorKind::AlreadyExists => plain_note(true),
            kind => Note {
                refused: denied_if(is_refusal(kind), Denied::Making(name)),
                is_excused: is_refusal(kind),
            },
        },
    }
}

/// What the answer of putting a file at another name counts as.
pub fn note_of_rename<T>(answer: &io::Result<T>, from: String, to: String) -> Note
    ensures { IsNoteOf (answer_to_rename (string_bytes from) (string_bytes to) answer.now) result }
{
    match answer {
        Ok(_) => plain_note(true),
        Err(error) => Note {
            refused: denied_if(is_refusal(error.kind()), Denied::Moving(from, to)),
            is_excused: is_refusal(error.kind()),
        },
    }
}

/// Whether an error of this kind is taken to say that files have no second names.
fn is_unlinkable(kind: ErrorKind) -> bool
    ensures { result ≡ is_unlinkable kind }
{
    match kind {
        ErrorKind::AlreadyExists | ErrorKind::OutOfMemory => false,
        _ => true,
    }
}

/// What the answer of giving a file a second name counts as.
pub fn note_of_link<T>(answer: &io::Result<T>, name: String) -> Note
    ensures { IsNoteOf (answer_to_link (string_bytes name) answer.now) result }
{
    match answer {
        Ok(_) => Note {
            refused: Some(Denied::Replacing(name)),
            is_excused: true,
        },
        Err(error) if is_unlinkable(error.kind()) => Note {
            refused: Some(Denied::Linking(name)),
            is_excused: true,
        },
        Err(_) => plain_note(false),
    }
}

/// What the answer of a call counts as that only makes a file what it is to be, or tells where a link
/// leads.
pub fn note_of_give<T>(answer: &io::Result<T>, denied: Denied) -> Note
    ensures { IsNoteOf (answer_to_give (refusal_of denied) answer.now) result }
{
    match answer {
        Ok(_) => plain_note(true),
        Err(_) => Note {
            refused: Some(denied),
            is_excused: true,
        },
    }
}

/// What the answer of asking for a lock counts as.
pub fn note_of_lock(answer: &io::Result<Lock>) -> Note
    ensures { IsNoteOf (answer_to_lock answer.now) result }
{
    match answer {
        Ok(Lock::Elsewhere) => plain_note(false),
        _ => plain_note(true),
    }
}

/// Whether an error of this kind gives no leave to open a folder.
pub fn is_denied(kind: ErrorKind) -> bool
    ensures { result ≡ is_denied kind }
{
    match kind {
        ErrorKind::PermissionDenied => true,
        _ => false,
    }
}

/// Whether an error of this kind says that a folder cannot be synced.
pub fn is_unable(kind: ErrorKind) -> bool
    ensures { result ≡ is_unable kind }
{
    match kind {
        ErrorKind::InvalidInput => true,
        _ => false,
    }
}

/// What the answer of opening a folder counts as.
pub fn note_of_open_folder<T>(answer: &io::Result<T>, folder: String) -> Note
    ensures { IsCountOf (answer_to_open_folder (string_bytes folder) answer.now) result }
{
    match answer {
        Ok(_) => plain_note(true),
        Err(error) => Note {
            refused: denied_if(is_refusal(error.kind()), Denied::Opening(folder)),
            is_excused: is_denied(error.kind()),
        },
    }
}

/// What the answer of syncing a folder counts as.
pub fn note_of_sync_folder<T>(answer: &io::Result<T>) -> Note
    ensures { (folder : List ℕ) → IsCountOf (answer_to_sync_folder folder answer.now) result }
{
    match answer {
        Ok(_) => plain_note(true),
        Err(error) => plain_note(is_unable(error.kind())),
    }
}

/// What the answer of a call counts as that there is no memory to note.
pub fn note_of_starving<T>(answer: &io::Result<T>) -> Note
    requires { IsErrAnd answer.now IsStarved }
    ensures create { (name : List ℕ) → IsNoteOf (answer_to_create name answer.now) result }
    ensures rename { (from to : List ℕ) → IsNoteOf (answer_to_rename from to answer.now) result }
    ensures link { (name : List ℕ) → IsNoteOf (answer_to_link name answer.now) result }
    ensures open { (folder : List ℕ) → IsNoteOf (answer_to_open_folder folder answer.now) result }
{
    plain_note(answer.is_ok())
}
