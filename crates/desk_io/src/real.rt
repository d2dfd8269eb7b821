ghost use Rattle.std.specs.Prelude.{◌≡◌, ◌⊎◌, IsErr, None, Ok, OnOk};
ghost use Rattle.std.specs.Option.{option_map};
ghost use Rattle.durable_folder.specs.Causes.{AtNow, IsLater};
ghost use Rattle.durable_folder.specs.FolderState.{IsFree};
ghost use Rattle.durable_folder.specs.Histories.{Rests};
ghost use Rattle.durable_folder.specs.Locking.{IsClaimed, IsStale, IsTaken, WhereFirst};
ghost use Rattle.durable_folder.specs.Saving.{SavesAnew};
ghost use Rattle.durable_folder.specs.Sights.{SavesSeen};
ghost use Rattle.desk_io.specs.Causes.{FailsWithCause, LoadHasCause};
ghost use Rattle.desk_io.specs.Desk.{Loads, Saves, Says};
ghost use Rattle.desk_io.specs.Disk.{LoadsOnDisk, SavesOnDisk};
ghost use Rattle.desk_io.specs.Noted.{IsNoted, KeepsNotes, noted};
ghost use Rattle.desk_io.specs.System.{closed_desk};

use crate::findings::Findings;
use crate::through::{answer_say, load_through, save_through};
use crate::{Desk, LoadError, SinkError};
use durable_folder::Folder;

/// A desk of the files of a folder and of an output. What is saved on it survives a loss of power.
#[derive(Drop)]
pub struct RealDesk<'a, R: Print + AllocGlobal, F: Folder + Drop> {
    rt: &'a R,
    folder: F,
    findings: Findings,
    /// The open file by which the one is held that was saved last, until the desk ends.
    held: Option<F::File>,
    faults: u64,
}

impl<'a, R: Print + AllocGlobal, F: Folder + Drop> RealDesk<'a, R, F> {
    /// A desk that has met no fault.
    pub fn new(rt: &'a R, folder: F) -> RealDesk<'a, R, F>
        ensures faults { result.faults ≡ 0 }
        ensures folder { result.folder ≡ folder }
    {
        RealDesk {
            rt,
            folder,
            findings: Findings::new(rt.alloc()),
            held: None,
            faults: 0,
        }
    }
}

impl<'a, R: Print + AllocGlobal, F: Folder + Drop> Desk for RealDesk<'a, R, F> {
    ghost state = { λ d. closed_desk d.faults };

    ghost disk = { λ d. F.told d.folder };

    /// What is found of the file is noted, and what is noted of other files stays, as the file that is held.
    fn load(&mut self, name: &str) -> Result<Vec<u8>, LoadError>
        ensures loads { Loads (closed_desk self.old.faults) (closed_desk self.new.faults) name.now result }
        ensures disk { LoadsOnDisk name.now result (F.told self.old.folder) (F.told self.new.folder) }
        ensures notes { OnOk result (AtNow (IsNoted name.now self.new.findings) (F.told self.new.folder)) }
        ensures keeps { KeepsNotes name.now result self.old.findings self.new.findings }
        ensures holds { self.new.held ≡ self.old.held }
        ensures later { IsLater (F.told self.old.folder) (F.told self.new.folder) }
        ensures cause { LoadHasCause result (F.told self.old.folder) (F.told self.new.folder) }
    {
        load_through(&mut self.folder, name, &mut self.findings, &mut self.faults)
    }

    /// After Ok the desk holds the file. It changes nothing where another program holds it, or where it was
    /// loaded and is not as it was then. `Memory` comes only while the file of that name cannot have changed: a want of
    /// memory that comes later is a fault. The desk lets go of a file that it holds before it saves once more, since a
    /// lock belongs to one opening of a file and would refuse the next. Then it forgets what it noted of the file.
    fn save(&mut self, name: &str, bytes: &[u8]) -> Result<(), SinkError>
        ensures saves { Saves (closed_desk self.old.faults) (closed_desk self.new.faults) name.now bytes.now result }
        ensures disk { SavesOnDisk name.now bytes.now result (F.told self.old.folder) (F.told self.new.folder) }
        ensures claims { result ≡ Ok tt →
            AtNow (IsClaimed (noted self.old.findings name.now) name.now (option_map F.handle self.new.held)) (F.told self.old.folder) }
        ensures order { result ≡ Ok tt → SavesSeen name.now bytes.now self.new.held (F.told self.old.folder) (F.told self.new.folder) }
        ensures refuses { WhereFirst (λ s. IsTaken name.now s ⊎ IsStale (noted self.old.findings name.now) name.now s)
            (IsErr result × Rests (F.told self.old.folder) (F.told self.new.folder)) (F.told self.old.folder) }
        ensures cause { FailsWithCause self.old.findings name.now result (F.told self.old.folder) (F.told self.new.folder) }
        ensures anew { result ≡ Ok tt → WhereFirst (λ s. IsFree s name.now) (SavesAnew name.now (F.told self.old.folder) (F.told self.new.folder)) (F.told self.old.folder) }
        ensures forgets { OnOk result (noted self.new.findings name.now ≡ None) }
        ensures keeps { KeepsNotes name.now result self.old.findings self.new.findings }
    {
        save_through(
            &mut self.folder,
            self.rt.alloc(),
            name,
            bytes,
            &mut self.findings,
            &mut self.held,
            &mut self.faults,
        )
    }

    /// What is noted of files stays, and the file that is held. Any error is a fault, since a part may have been
    /// written.
    fn say(&mut self, bytes: &[u8]) -> Result<(), SinkError>
        ensures says { Says (closed_desk self.old.faults) (closed_desk self.new.faults) bytes.now result }
        ensures disk { Rests (F.told self.old.folder) (F.told self.new.folder) }
        ensures keeps { self.new.findings ≡ self.old.findings }
        ensures holds { self.new.held ≡ self.old.held }
    {
        answer_say(self.rt.write_all(bytes), &mut self.faults)
    }
}
