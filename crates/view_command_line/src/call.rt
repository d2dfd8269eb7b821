ghost use Rattle.std.specs.Prelude.{◌≡◌, Some};
ghost use Rattle.durable_folder.specs.Histories.{Rests};
ghost use Rattle.desk_io.specs.Desk.{Rose};
ghost use Rattle.program_base.specs.Saying.{files_in};
ghost use Rattle.program_base.specs.Statuses.{code};
ghost use Rattle.view_command_line.specs.Request.{request_by, request_of};
ghost use Rattle.view_command_line.specs.Top.{EndsCall, Works};

use crate::drawing::draw_image;
use crate::words::{View, parse_words};
use desk_io::Desk;
use program_base::{
    ImageRefusal, ImageStop, Status, desk_fault, load_file, no_memory, refuse, say,
};
use std::alloc::Global;

/// Prints the picture that the words ask for, and returns the status: 0 where that is done, 1 for words that are not in
/// the table, 2 for a file that is missing, 3 for bytes that are no image file, 5 for a fault of the desk, 6 for want
/// of memory, 7 for an image that is not sound, and 9 for a file that is too long. No file changes.
pub fn top<D: Desk>(alloc: Global, words: &[String], desk: &mut D) -> u8
    ensures ends { EndsCall (request_by words.now) (D.state desk.old) (D.state desk.new) result }
    ensures fault { result ≡ 5 → Rose (D.state desk.old).faults (D.state desk.new).faults }
    ensures files { files_in (D.state desk.new) ≡ files_in (D.state desk.old) }
    ensures disk { Rests (D.disk desk.old) (D.disk desk.new) }
{
    run(alloc, words, desk).code()
}

/// Does what the words ask for, and returns the status. Its clause is how the call ends.
fn run<D: Desk>(alloc: Global, words: &[String], desk: &mut D) -> Status
    ensures ends { EndsCall (request_by words.now) (D.state desk.old) (D.state desk.new) (code result) }
    ensures disk { Rests (D.disk desk.old) (D.disk desk.new) }
{
    match work(alloc, words, desk) {
        Ok(text) => say(desk, &text, Status::Done),
        Err(ImageStop::Refused(refusal)) => refuse(desk, refusal.line(alloc), refusal.status()),
        Err(ImageStop::Fault) => desk_fault(desk),
        Err(ImageStop::Memory) => no_memory(desk),
    }
}

/// The text of the picture that the words ask for.
fn work<'a, D: Desk>(
    alloc: Global,
    words: &'a [String],
    desk: &mut D,
) -> Result<Vec<u8>, ImageStop<'a>>
    ensures works { Works (request_by words.now) (D.state desk.old) (D.state desk.new) result }
    ensures disk { Rests (D.disk desk.old) (D.disk desk.new) }
{
    match parse_words(words) {
        Some(view) => view_image(alloc, view, desk),
        None => Err(ImageStop::Refused(ImageRefusal::BadWords)),
    }
}

/// The text of a picture.
fn view_image<'a, D: Desk>(
    alloc: Global,
    view: View<'a>,
    desk: &mut D,
) -> Result<Vec<u8>, ImageStop<'a>>
    ensures works { Works (Some (request_of view.entry)) (D.state desk.old) (D.state desk.new) result }
    ensures disk { Rests (D.disk desk.old) (D.disk desk.new) }
{
    let bytes = load_file(view.image, desk)?;
    draw_image(alloc, bytes, view.form, view.unsound)
}
