//! Files that are written in place: their first block is zeros until the rest is in the system's store.
ghost use Rattle.std.specs.Prelude.{◌≡◌, ℕ, List, Option, ◌+◌, ◌<◌, ◌^◌, length, take, drop};
ghost use Rattle.durable_folder.specs.Causes.{HasFault};
ghost use Rattle.durable_folder.specs.Histories.{History};
ghost use Rattle.durable_folder.specs.InPlace.{IsHead, IsNoFile, ClearsHead, WritesRest, WritesHead, WritesOver};

use crate::Folder;
use crate::answers::{as_fault, sync_answer};
use std::io;

/// How many bytes of a file that is written in place are zeros until the rest is there.
const HEAD_BYTES: usize = 64;

/// Makes the first bytes zeros.
fn clear_head<F: Folder>(folder: &mut F, file: &mut F::File) -> io::Result<()>
    ensures same { (F.handle file.new).file ≡ (F.handle file.old).file }
    ensures clears { (F.handle file.old).offset ≡ 0 → ClearsHead (F.handle file.old) result (F.told folder.old) (F.told folder.new) }
    ensures fault { HasFault result (F.told folder.old) (F.told folder.new) }
{
    folder.write(file, &[0; HEAD_BYTES])?;
    folder.sync(file)
}

/// Writes all but the first bytes, behind which the file ends.
fn write_rest<F: Folder>(
    folder: &mut F,
    file: &mut F::File,
    head: usize,
    rest: &[u8],
) -> io::Result<()>
    requires { head + length rest.now < 2 ^ 63 }
    ensures same { (F.handle file.new).file ≡ (F.handle file.old).file }
    ensures writes { (bytes : List ℕ) → IsHead head bytes → rest.now ≡ drop head bytes → WritesRest (F.handle file.old) head bytes result (F.told folder.old) (F.told folder.new) }
    ensures fault { HasFault result (F.told folder.old) (F.told folder.new) }
{
    folder.seek(file, head as u64)?;
    folder.write(file, rest)?;
    folder.set_length(file, (head + rest.len()) as u64)?;
    folder.sync(file)
}

/// Writes the first bytes.
fn write_head<F: Folder>(folder: &mut F, file: &mut F::File, head: &[u8]) -> io::Result<()>
    ensures same { (F.handle file.new).file ≡ (F.handle file.old).file }
    ensures writes { (bytes : List ℕ) → IsHead (length head.now) bytes → head.now ≡ take (length head.now) bytes → WritesHead (F.handle file.old) (length head.now) bytes result (F.told folder.old) (F.told folder.new) }
    ensures fault { HasFault result (F.told folder.old) (F.told folder.new) }
{
    folder.seek(file, 0)?;
    folder.write(file, head)?;
    folder.sync(file)
}

/// Writes to what is no plain file.
fn write_special<F: Folder>(folder: &mut F, file: &mut F::File, bytes: &[u8]) -> io::Result<()>
    ensures writes { (first : Option History) → IsNoFile (F.handle file.old).file first (F.told folder.old) → WritesOver (F.handle file.old) bytes.now result first (F.told folder.new) }
    ensures fault { HasFault result (F.told folder.old) (F.told folder.new) }
{
    folder.write(file, bytes)?;
    sync_answer(folder.sync(file))
}

/// Writes over a plain file. Its first bytes are zeros until the rest is in the system's store, so that a
/// part of a save is told from a whole one.
fn write_file<F: Folder>(folder: &mut F, file: &mut F::File, bytes: &[u8]) -> io::Result<()>
    ensures writes { (F.handle file.old).offset ≡ 0 → WritesOver (F.handle file.old) bytes.now result (F.told folder.old) (F.told folder.new) }
    ensures fault { HasFault result (F.told folder.old) (F.told folder.new) }
{
    let (head, rest) = bytes.split_at(bytes.len().min(HEAD_BYTES));
    clear_head(folder, file)?;
    write_rest(folder, file, head.len(), rest)?;
    write_head(folder, file, head)
}

/// Writes over the bytes of an open file.
fn write_over<F: Folder>(folder: &mut F, file: &mut F::File, bytes: &[u8]) -> io::Result<()>
    ensures writes { (F.handle file.old).offset ≡ 0 → WritesOver (F.handle file.old) bytes.now result (F.told folder.old) (F.told folder.new) }
    ensures fault { HasFault result (F.told folder.old) (F.told folder.new) }
{
    if folder.find_open(file)?.is_file {
        write_file(folder, file, bytes)
    } else {
        write_special(folder, file, bytes)
    }
}

/// Writes to what is there.
pub fn write_through<F: Folder>(folder: &mut F, file: F::File, bytes: &[u8]) -> io::Result<()>
    ensures writes { (F.handle file).offset ≡ 0 → WritesOver (F.handle file) bytes.now result (F.told folder.old) (F.told folder.new) }
    ensures fault { HasFault result (F.told folder.old) (F.told folder.new) }
{
    let mut file = file;
    as_fault(write_over(folder, &mut file, bytes))
}
