//! Folders that are opened and synced.
ghost use Rattle.durable_folder.specs.Calls.{OpensFolder, SyncsFolder};
ghost use Rattle.durable_folder.specs.Counting.{answer_to_open_folder, answer_to_sync_folder};
ghost use Rattle.durable_folder.specs.FolderState.{FolderState};
ghost use Rattle.mem_folder.specs.Changes.{state_of};
ghost use Rattle.mem_folder.specs.Telling.{AreNoted, Notes, place_of};

use crate::change::Change;
use crate::files::MemPlace;
use crate::naming::{copy, sync_names};
use crate::note::{is_denied, is_unable};
use std::alloc::Global;
use std::io;
use std::io::{Error, ErrorKind};

/// Notes a folder of which this error was given. If there is no memory for that, this is the error.
#[tactic(auto, using(crate::proofs::Noting::noted_more))]
fn note_place(noted: &mut Vec<MemPlace>, place: MemPlace, error: Error) -> Error
    ensures { Notes (place_of place) error result noted.old.items noted.new.items }
{
    match noted.push(place) {
        Ok(()) => error,
        Err(_) => Error::from(ErrorKind::OutOfMemory),
    }
}

/// Opens a folder. It is noted if there is no leave for that.
#[tactic(auto, using(crate::proofs::Noting::open_noted))]
pub fn open_folder(
    fault: io::Result<()>,
    alloc: Global,
    noted: &mut Vec<MemPlace>,
    folder: &str,
) -> io::Result<MemPlace>
    ensures opens { (s : FolderState) → OpensFolder place_of folder.now result s s }
    ensures notes { AreNoted (answer_to_open_folder folder.now result) noted.old.items noted.new.items }
{
    let place = match copy(alloc, folder) {
        Ok(name) => MemPlace { name },
        Err(error) => return Err(error),
    };
    match fault {
        Ok(()) => Ok(place),
        Err(error) if is_denied(error.kind()) => Err(note_place(noted, place, error)),
        Err(error) => Err(error),
    }
}

/// Syncs a folder. It is noted if that cannot be done.
#[tactic(auto, using(crate::proofs::Noting::sync_noted))]
pub fn sync_folder(
    fault: io::Result<()>,
    alloc: Global,
    changes: &mut Vec<Change>,
    noted: &mut Vec<MemPlace>,
    place: &MemPlace,
) -> io::Result<()>
    ensures syncs { SyncsFolder (place_of place.now) result (state_of changes.old.items) (state_of changes.new.items) }
    ensures notes { AreNoted (answer_to_sync_folder (place_of place.now) result) noted.old.items noted.new.items }
{
    match sync_names(fault, changes) {
        Err(error) if is_unable(error.kind()) => match copy(alloc, place.name.as_str()) {
            Ok(name) => Err(note_place(noted, MemPlace { name }, error)),
            Err(starved) => Err(starved),
        },
        done => done,
    }
}
