//! A new file that is to take the place of another one.
ghost use Rattle.std.specs.Prelude.{◌≢◌, IfOk};
ghost use Rattle.durable_folder.specs.Causes.{AllTaken, AtNow, MayPassOver};
ghost use Rattle.durable_folder.specs.NewFiles.{beside_of, handle_of};
ghost use Rattle.durable_folder.specs.Saving.{MakesNew, Tries};
ghost use Rattle.std.specs.Path.{path_buf_bytes};

use crate::Folder;
use crate::temporary_names::{MAX_TRIES, temporary_name};
use std::alloc::Global;
use std::io;
use std::io::{Error, ErrorKind};
use std::path::PathBuf;

/// A file that was made, and its name.
#[derive(Drop)]
pub struct NewFile<H> {
    pub file: H,
    pub name: PathBuf,
}

/// The mode of a file that is to get an owner: nobody else may open it before.
const OWN_MODE: u32 = 0o600;

/// The mode that is asked for where no owner is given. The system takes off what its mask says.
const ANY_MODE: u32 = 0o666;

/// Makes a file of this name, if there is nothing of that name.
#[tactic(auto, using(crate::proofs::Making::tried_made, crate::proofs::Making::tried_taken, crate::proofs::Making::tried_failed))]
fn try_name<F: Folder>(
    folder: &mut F,
    beside: PathBuf,
    mode: u32,
) -> io::Result<Option<NewFile<F::File>>>
    ensures { Tries (handle_of F.handle) beside_of (path_buf_bytes beside) result (F.told folder.old) (F.told folder.new) }
{
    match folder.create_new(beside.as_str(), mode) {
        Ok(file) => Ok(Some(NewFile { file, name: beside })),
        Err(error) if error.kind() == ErrorKind::AlreadyExists => Ok(None),
        Err(error) => Err(error),
    }
}

/// A new file beside the one of this name, of a name that nobody else has. What has such a name may be another's file,
/// so it is never touched, and the next name is tried.
pub fn new_file<F: Folder>(
    folder: &mut F,
    alloc: Global,
    name: &str,
    is_owned: bool,
) -> io::Result<NewFile<F::File>>
    ensures apart { IfOk result (λ new. beside_of new ≢ name.now) }
    ensures cause { MayPassOver (AtNow (AllTaken name.now) (F.told folder.old)) result (F.told folder.old) (F.told folder.new) }
    ensures makes { MakesNew (handle_of F.handle) beside_of name.now result (F.told folder.old) (F.told folder.new) }
{
    let mode = if is_owned { OWN_MODE } else { ANY_MODE };
    for number in 1..MAX_TRIES + 1 {
        let Ok(beside) = temporary_name(alloc, name, number) else {
            return Err(Error::from(ErrorKind::OutOfMemory));
        };
        // A long name may be the name that is tried for itself.
        if beside.as_str() == name {
            continue;
        }
        match try_name(folder, beside, mode) {
            Ok(Some(new)) => return Ok(new),
            Ok(None) => {}
            Err(error) => return Err(error),
        }
    }
    Err(Error::from(ErrorKind::AlreadyExists))
}
