//! The bytes of a file, and what is found of it when they are read.
ghost use Rattle.std.specs.Prelude.{◌≡◌};
ghost use Rattle.durable_folder.specs.Causes.{HasFault, IsLater};
ghost use Rattle.durable_folder.specs.Locking.{HasLoadCause, IsOnceOpen, Loads, ReadsWhole};

use crate::{Folder, Found};
use std::io;
use std::io::{Error, ErrorKind};

/// The bytes of a file, and what was found of it just before they were read.
#[derive(Drop)]
pub struct Loaded {
    pub bytes: Vec<u8>,
    pub found: Found,
}

/// Looks at an open file and reads it, up to so many bytes.
fn read_whole<F: Folder>(folder: &mut F, file: &mut F::File, most: usize) -> io::Result<Loaded>
    ensures reads { (F.handle file.old).offset ≡ 0 → ReadsWhole (F.handle file.old) most result (F.told folder.old) (F.told folder.new) }
    ensures fault { HasFault result (F.told folder.old) (F.told folder.new) }
{
    let found = folder.find_open(file)?;
    let bytes = folder.read(file, most)?;
    Ok(Loaded { bytes, found })
}

/// An answer that comes once a file is open. Then it does not say that there is none.
fn once_open(read: io::Result<Loaded>) -> io::Result<Loaded>
    ensures { IsOnceOpen read result }
{
    match read {
        Err(error) if error.kind() == ErrorKind::NotFound => Err(Error::from(ErrorKind::Other)),
        _ => read,
    }
}

/// Reads the file to which a name leads, up to so many bytes. No lock is taken.
pub fn load<F: Folder>(folder: &mut F, name: &str, most: usize) -> io::Result<Loaded>
    ensures loads { Loads name.now most result (F.told folder.old) (F.told folder.new) }
    ensures later { IsLater (F.told folder.old) (F.told folder.new) }
    ensures cause { HasLoadCause name.now result (F.told folder.old) (F.told folder.new) }
{
    match folder.open_to_read(name) {
        Ok(file) => {
            let mut file = file;
            once_open(read_whole(folder, &mut file, most))
        }
        Err(error) => Err(error),
    }
}
