//! Loads and saves of a desk, through a folder.
ghost use Rattle.std.specs.Prelude.{◌≡◌, ◌≤◌, ◌⊎◌, length, IfErr, IfOk, IsErr, None, Ok, OnOk, Some};
ghost use Rattle.std.specs.Option.{option_map};
ghost use Rattle.durable_folder.specs.Causes.{AtNow, IsLater};
ghost use Rattle.durable_folder.specs.FolderState.{IsFree};
ghost use Rattle.durable_folder.specs.Histories.{Rests};
ghost use Rattle.durable_folder.specs.Locking.{IsClaimed, IsStale, IsTaken, WhereFirst};
ghost use Rattle.durable_folder.specs.Saving.{SavesAnew};
ghost use Rattle.durable_folder.specs.Sights.{SavesSeen};
ghost use Rattle.desk_io.specs.Causes.{FailsWithCause, LoadHasCause};
ghost use Rattle.desk_io.specs.Desk.{max_file_bytes};
ghost use Rattle.desk_io.specs.Disk.{LoadsOnDisk, SavesOnDisk};
ghost use Rattle.desk_io.specs.Noted.{IsNoted, KeepsNotes, noted};
ghost use Rattle.desk_io.specs.System.{load_answer, load_faults, save_answer, say_answer, sink_faults};

use crate::findings::Findings;
use crate::{LoadError, MAX_FILE_BYTES, SinkError};
use durable_folder::{Folder, Loaded, load, save_held};
use std::alloc::Global;
use std::io;
use std::io::ErrorKind;

/// The answer of a load, after reading a file. A fault is counted.
fn answer_load(read: io::Result<Loaded>, faults: &mut u64) -> Result<Loaded, LoadError>
    ensures answer { result ≡ load_answer read }
    ensures faults { faults.new ≡ load_faults result faults.old }
{
    match read {
        Ok(file) if file.bytes.len() > MAX_FILE_BYTES => Err(LoadError::TooLong),
        Ok(file) => Ok(file),
        Err(error) => Err(match error.kind() {
            ErrorKind::NotFound => LoadError::Missing,
            ErrorKind::OutOfMemory => LoadError::Memory,
            _ => {
                *faults = faults.saturating_add(1);
                LoadError::Failed
            }
        }),
    }
}

/// The answer of a save, after writing to a file. A fault is counted.
fn answer_save(done: io::Result<()>, faults: &mut u64) -> Result<(), SinkError>
    ensures answer { result ≡ save_answer done }
    ensures faults { faults.new ≡ sink_faults result faults.old }
{
    match done {
        Err(error) if error.kind() == ErrorKind::OutOfMemory => Err(SinkError::Memory),
        _ => answer_say(done, faults),
    }
}

/// The answer of a say, after writing to the output. A fault is counted.
pub fn answer_say(done: io::Result<()>, faults: &mut u64) -> Result<(), SinkError>
    ensures answer { result ≡ say_answer done }
    ensures faults { faults.new ≡ sink_faults result faults.old }
{
    if done.is_err() {
        *faults = faults.saturating_add(1);
        return Err(SinkError::Failed);
    }
    Ok(())
}

/// Notes what was found of a file that was loaded, and gives its bytes.
fn note(file: Loaded, name: &str, findings: &mut Findings) -> Result<Vec<u8>, LoadError>
    ensures bytes { IfOk result (λ bytes. bytes ≡ file.bytes) }
    ensures notes { OnOk result (noted findings.new name.now ≡ Some file.found) }
    ensures keeps { KeepsNotes name.now result findings.old findings.new }
    ensures error { IfErr result (λ error. error ≡ LoadError.Memory) }
{
    let Loaded { bytes, found } = file;
    match findings.note(name, found) {
        Ok(()) => Ok(bytes),
        Err(_) => Err(LoadError::Memory),
    }
}

/// The bytes of the file to which a name leads in a folder. What is found of it is noted, and a fault is counted.
pub fn load_through<F: Folder>(
    folder: &mut F,
    name: &str,
    findings: &mut Findings,
    faults: &mut u64,
) -> Result<Vec<u8>, LoadError>
    ensures disk { LoadsOnDisk name.now result (F.told folder.old) (F.told folder.new) }
    ensures notes { OnOk result (AtNow (IsNoted name.now findings.new) (F.told folder.new)) }
    ensures keeps { KeepsNotes name.now result findings.old findings.new }
    ensures later { IsLater (F.told folder.old) (F.told folder.new) }
    ensures cause { LoadHasCause result (F.told folder.old) (F.told folder.new) }
    ensures faults { faults.new ≡ load_faults result faults.old }
    ensures short { IfOk result (λ bytes. length bytes.items ≤ max_file_bytes) }
{
    let file = answer_load(load(folder, name, MAX_FILE_BYTES + 1), faults)?;
    note(file, name, findings)
}

/// Makes these the bytes of the file to which a name leads in a folder, by the save of durable_folder. It changes
/// nothing where another program holds that file, or where the file was loaded and is not as it was then. After Ok
/// the open file is kept by which the file is held; that of a save before it is let go. A fault is counted.
pub fn save_through<F: Folder>(
    folder: &mut F,
    alloc: Global,
    name: &str,
    bytes: &[u8],
    findings: &mut Findings,
    held: &mut Option<F::File>,
    faults: &mut u64,
) -> Result<(), SinkError>
    ensures disk { SavesOnDisk name.now bytes.now result (F.told folder.old) (F.told folder.new) }
    ensures claims { result ≡ Ok tt → AtNow (IsClaimed (noted findings.old name.now) name.now (option_map F.handle held.new)) (F.told folder.old) }
    ensures order { result ≡ Ok tt → SavesSeen name.now bytes.now held.new (F.told folder.old) (F.told folder.new) }
    ensures refuses { WhereFirst (λ s. IsTaken name.now s ⊎ IsStale (noted findings.old name.now) name.now s)
        (IsErr result × Rests (F.told folder.old) (F.told folder.new)) (F.told folder.old) }
    ensures cause { FailsWithCause findings.old name.now result (F.told folder.old) (F.told folder.new) }
    ensures anew { result ≡ Ok tt → WhereFirst (λ s. IsFree s name.now) (SavesAnew name.now (F.told folder.old) (F.told folder.new)) (F.told folder.old) }
    ensures forgets { OnOk result (noted findings.new name.now ≡ None) }
    ensures keeps { KeepsNotes name.now result findings.old findings.new }
    ensures faults { faults.new ≡ sink_faults result faults.old }
{
    *held = None;
    let done = save_held(folder, alloc, name, bytes, findings.of(name), held);
    if done.is_ok() {
        findings.forget(name);
    }
    answer_save(done, faults)
}
