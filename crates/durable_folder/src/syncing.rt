//! A folder is synced.
ghost use Rattle.durable_folder.specs.Causes.{HasFault};
ghost use Rattle.durable_folder.specs.Saving.{SyncsNamesOf};

use crate::Folder;
use crate::answers::names_sync_answer;
use std::io;

/// Waits until the names of a folder are in the system's store, as far as the system can.
pub fn sync_names<F: Folder>(folder: &mut F, place: &F::Place) -> io::Result<()>
    ensures settles { SyncsNamesOf (F.place place.now) result (F.told folder.old) (F.told folder.new) }
    ensures fault { HasFault result (F.told folder.old) (F.told folder.new) }
{
    names_sync_answer(folder.sync_folder(place))
}
