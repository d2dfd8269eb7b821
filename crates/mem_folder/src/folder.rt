//! The folder in memory.
ghost use Rattle.std.specs.Prelude.{◌≡◌, ◌≢◌, [], ◌∷◌, false, true, IfErr, OnErr, OnOk};
ghost use Rattle.mem_folder.specs.Changes.{state_of};
ghost use Rattle.mem_folder.specs.Losing.{IsLeft};
ghost use Rattle.mem_folder.specs.Telling.{IsFault, handle_of, history_of, place_of};

use crate::change::{Change, Left};
use crate::fault::Fault;
use crate::files::{MemFile, MemPlace};
use crate::glance::Glance;
use crate::log::Log;
use crate::note::{
    Denied, Note, note_of, note_of_create, note_of_find, note_of_give, note_of_link, note_of_lock,
    note_of_open_folder, note_of_rename, note_of_starving, note_of_sync_folder,
};
use crate::reading::file_of;
use crate::{finding, folders, naming, writing};
use durable_folder::{Folder, Found, Lock};
use std::alloc::Global;
use std::fs::Permissions;
use std::io;
use std::io::{Error, ErrorKind};
use std::path::PathBuf;

/// A folder in memory: all that was done to it. What is read is what these changes left.
#[derive(Drop)]
pub struct MemFolder {
    alloc: Global,
    /// What was done, the last of it last.
    changes: Vec<Change>,
    /// How the next calls fail that do: the last of these is for the next call.
    faults: Vec<Option<Fault>>,
    /// What had been done before each call.
    befores: Log<Vec<Change>>,
    /// What each answer counted as.
    notes: Log<Note>,
    /// Of which folders it was said that they cannot be synced, or may not be opened.
    noted: Vec<MemPlace>,
    /// What was told of open files.
    glances: Log<Glance>,
}

impl MemFolder {
    /// A folder in which there is nothing, and whose calls fail so.
    pub fn new(alloc: Global, faults: Vec<Option<Fault>>) -> MemFolder
        ensures changes { result.changes.items ≡ [] }
        ensures befores { result.befores.items ≡ [] }
        ensures notes { result.notes.items ≡ [] }
        ensures noted { result.noted.items ≡ [] }
        ensures glances { result.glances.items ≡ [] }
    {
        MemFolder {
            alloc,
            changes: Vec::new(alloc),
            faults,
            befores: Log::new(),
            notes: Log::new(),
            noted: Vec::new(alloc),
            glances: Log::new(),
        }
    }

    /// Whether it was said of a folder that it cannot be synced, or may not be opened.
    pub fn has_noted(&self) -> bool
        ensures some { result ≡ true → self.now.noted.items ≢ [] }
        ensures none { result ≡ false → self.now.noted.items ≡ [] }
    {
        !self.noted.is_empty()
    }

    /// Power is lost. This is left of the names, and that of the bytes.
    #[tactic(auto, using(crate::proofs::Losing::is_left))]
    pub fn lose_power(&mut self, names: Left, bytes: Left) -> io::Result<()>
        ensures left { OnOk result (IsLeft (state_of self.old.changes.items) (state_of self.new.changes.items)) }
        ensures err { OnErr result (self.new.changes.items ≡ self.old.changes.items) }
        ensures noted { self.new.noted.items ≡ self.old.noted.items }
        ensures glances { self.new.glances.items ≡ self.old.glances.items }
    {
        naming::add(&mut self.changes, Change::Lost(names, bytes))
    }

    /// A call begins, which may fail by itself.
    fn begin(&mut self) -> io::Result<()>
        ensures fault { IfErr result IsFault }
        ensures changes { self.new.changes ≡ self.old.changes }
        ensures befores { self.new.befores.items ≡ self.old.changes ∷ self.old.befores.items }
        ensures notes { self.new.notes.items ≡ self.old.notes.items }
        ensures noted { self.new.noted.items ≡ self.old.noted.items }
        ensures glances { self.new.glances.items ≡ self.old.glances.items }
    {
        self.befores = self.befores.and(&self.changes);
        match self.faults.pop() {
            Some(Some(fault)) => Err(fault.error()),
            _ => Ok(()),
        }
    }

    /// A call ends, and its answer counts so.
    fn end(&mut self, note: Note)
        ensures changes { self.new.changes ≡ self.old.changes }
        ensures befores { self.new.befores.items ≡ self.old.befores.items }
        ensures notes { self.new.notes.items ≡ note ∷ self.old.notes.items }
        ensures noted { self.new.noted.items ≡ self.old.noted.items }
        ensures glances { self.new.glances.items ≡ self.old.glances.items }
    {
        self.notes = self.notes.and(&note);
    }

    /// This is told of an open file.
    fn glance(&mut self, glance: Glance)
        ensures changes { self.new.changes ≡ self.old.changes }
        ensures befores { self.new.befores.items ≡ self.old.befores.items }
        ensures notes { self.new.notes.items ≡ self.old.notes.items }
        ensures noted { self.new.noted.items ≡ self.old.noted.items }
        ensures glances { self.new.glances.items ≡ glance ∷ self.old.glances.items }
    {
        self.glances = self.glances.and(&glance);
    }
}

#[tactic(auto, using(crate::proofs::Turning::turned))]
impl Folder for MemFolder {
    ghost use Rattle.std.specs.Prelude.{Some};

    type File = MemFile;

    type Place = MemPlace;

    ghost told = { λ f. Some (history_of f.changes.items f.befores.items f.notes.items f.noted.items f.glances.items) };

    ghost handle = { handle_of };

    ghost place = { place_of };

    fn find(&mut self, name: &str) -> io::Result<Found> {
        let fault = self.begin();
        let found = finding::find(fault, self.changes.as_slice(), name);
        self.end(note_of_find(&found));
        found
    }

    fn find_open(&mut self, file: &MemFile) -> io::Result<Found> {
        let fault = self.begin();
        let found = finding::find_open(fault, self.changes.as_slice(), file);
        self.end(note_of(&found));
        if found.is_ok() {
            self.glance(Glance::Seen(file.number));
        }
        found
    }

    fn find_folder(&mut self, _folder: &MemPlace) -> io::Result<Found> {
        let fault = self.begin();
        let found = finding::find_folder(fault);
        self.end(note_of(&found));
        found
    }

    fn resolve(&mut self, name: &str) -> io::Result<PathBuf> {
        let fault = self.begin();
        let path = finding::resolve(fault, self.alloc, name);
        let led = Denied::Leading(file_of(self.changes.as_slice(), name));
        self.end(note_of_give(&path, led));
        path
    }

    fn open(&mut self, name: &str) -> io::Result<MemFile> {
        let fault = self.begin();
        let file = finding::open(fault, self.changes.as_slice(), name);
        self.end(note_of(&file));
        if let Ok(opened) = &file {
            self.glance(Glance::Named(opened.number));
        }
        file
    }

    fn open_to_read(&mut self, name: &str) -> io::Result<MemFile> {
        let fault = self.begin();
        let file = finding::open(fault, self.changes.as_slice(), name);
        self.end(note_of_find(&file));
        file
    }

    fn read(&mut self, file: &mut MemFile, most: usize) -> io::Result<Vec<u8>> {
        let fault = self.begin();
        let read = finding::read(fault, self.alloc, self.changes.as_slice(), file, most);
        self.end(note_of(&read));
        read
    }

    fn try_lock(&mut self, file: &mut MemFile) -> io::Result<Lock> {
        let fault = self.begin();
        let number = file.number;
        let lock = finding::lock(fault, file);
        self.end(note_of_lock(&lock));
        self.glance(Glance::Held(number));
        lock
    }

    fn open_or_create(&mut self, name: &str) -> io::Result<MemFile> {
        let fault = self.begin();
        let file = naming::open_or_create(fault, self.alloc, &mut self.changes, name);
        self.end(note_of(&file));
        file
    }

    fn create_new(&mut self, name: &str, _mode: u32) -> io::Result<MemFile> {
        let fault = self.begin();
        match naming::copy(self.alloc, name) {
            Ok(own) => {
                let file = naming::create(fault, self.alloc, &mut self.changes, name);
                self.end(note_of_create(&file, own));
                file
            }
            Err(error) => {
                let starved = Err(error);
                self.end(note_of_starving(&starved));
                starved
            }
        }
    }

    fn open_folder(&mut self, folder: &str) -> io::Result<MemPlace> {
        let fault = self.begin();
        match naming::copy(self.alloc, folder) {
            Ok(name) => {
                let place = folders::open_folder(fault, self.alloc, &mut self.noted, folder);
                self.end(note_of_open_folder(&place, name));
                place
            }
            Err(error) => {
                let starved = Err(error);
                self.end(note_of_starving(&starved));
                starved
            }
        }
    }

    fn set_owner(&mut self, name: &str, user: u32, group: u32) -> io::Result<()> {
        let done = self.begin();
        let given = Denied::Giving(file_of(self.changes.as_slice(), name), user, group);
        self.end(note_of_give(&done, given));
        done
    }

    fn set_permissions(&mut self, file: &MemFile, _permissions: Permissions) -> io::Result<()> {
        let done = self.begin();
        self.end(note_of_give(&done, Denied::Setting(file.number)));
        done
    }

    fn write(&mut self, file: &mut MemFile, bytes: &[u8]) -> io::Result<()> {
        let fault = self.begin();
        let done = writing::write(fault, self.alloc, &mut self.changes, file, bytes);
        self.end(note_of(&done));
        done
    }

    fn seek(&mut self, file: &mut MemFile, offset: u64) -> io::Result<()> {
        let fault = self.begin();
        let done = finding::seek(fault, file, offset);
        self.end(note_of(&done));
        done
    }

    fn set_length(&mut self, file: &MemFile, length: u64) -> io::Result<()> {
        let fault = self.begin();
        let done = writing::resize(fault, self.alloc, &mut self.changes, file, length);
        self.end(note_of(&done));
        done
    }

    fn sync(&mut self, file: &MemFile) -> io::Result<()> {
        let fault = self.begin();
        let done = writing::sync(fault, &mut self.changes, file);
        self.end(note_of(&done));
        done
    }

    fn rename(&mut self, from: &str, to: &str) -> io::Result<()> {
        let fault = self.begin();
        match (naming::copy(self.alloc, from), naming::copy(self.alloc, to)) {
            (Ok(old), Ok(new)) => {
                let done = naming::rename(fault, self.alloc, &mut self.changes, from, to);
                self.end(note_of_rename(&done, old, new));
                done
            }
            _ => {
                let starved = Err(Error::from(ErrorKind::OutOfMemory));
                self.end(note_of_starving(&starved));
                starved
            }
        }
    }

    fn link(&mut self, from: &str, to: &str) -> io::Result<()> {
        let fault = self.begin();
        match naming::copy(self.alloc, to) {
            Ok(own) => {
                let done = naming::link(fault, self.alloc, &mut self.changes, from, to);
                self.end(note_of_link(&done, own));
                done
            }
            Err(error) => {
                let starved = Err(error);
                self.end(note_of_starving(&starved));
                starved
            }
        }
    }

    fn sync_folder(&mut self, folder: &MemPlace) -> io::Result<()> {
        let fault = self.begin();
        let done = folders::sync_folder(
            fault,
            self.alloc,
            &mut self.changes,
            &mut self.noted,
            folder,
        );
        self.end(note_of_sync_folder(&done));
        done
    }

    fn remove(&mut self, name: &str) -> io::Result<()> {
        let fault = self.begin();
        let done = naming::remove(fault, self.alloc, &mut self.changes, name);
        self.end(note_of(&done));
        done
    }
}
