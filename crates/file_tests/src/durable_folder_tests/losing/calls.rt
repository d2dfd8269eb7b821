//! The calls of a folder that loses power.
use super::mixes::add_mix;
use super::{CrashingFolder, Opened, turn_back};
use durable_folder::{Folder, Found, Lock};
use std::fs::Permissions;
use std::io;
use std::io::{Error, ErrorKind};
use std::path::PathBuf;

/// Where a name leads.
fn follow_link(name: &str) -> &str {
    if name == "link" { "f" } else { name }
}

/// Adds what a file holds once bytes were written to it at an offset. Tells whether there was memory.
fn add_overwritten(seen: &[u8], offset: usize, bytes: &[u8], written: &mut Vec<u8>) -> bool {
    let end = offset.saturating_add(bytes.len());
    add_mix(seen, seen, offset, written)
        && written.extend_from_slice(bytes).is_ok()
        && written
            .extend_from_slice(seen.get(end..).unwrap_or(&[]))
            .is_ok()
}

impl CrashingFolder {
    /// Makes what is read of a file all that it had, or after a failure an older version what is read.
    fn keep_one(&mut self, file: usize, is_synced: bool) {
        if let Some(versions) = self.files.get_mut(file) {
            turn_back(versions);
            if is_synced {
                versions.truncate(1);
            }
        }
    }

    /// Another program puts a file at a name, in such a folder.
    fn overtake_in(&mut self, setting: &str, name: &str) {
        if self.setting == setting {
            self.replace(name, b"meanwhile");
            self.keep_names();
        }
    }
}

impl Folder for CrashingFolder {
    ghost use Rattle.std.specs.Prelude.{[], None, true};

    type File = Opened;

    type Place = bool;

    ghost told = { λ _. None };

    ghost handle = { λ _. record { file = None; offset = 0; is_held = true } };

    ghost place = { λ _. [] };

    fn find(&mut self, name: &str) -> io::Result<Found> {
        let is_link = name == "link";
        let file = self.file(follow_link(name));
        let found = if is_link || file.is_some() {
            Ok(self.facts(file.unwrap_or(0), 1, is_link))
        } else {
            Err(Error::from(ErrorKind::NotFound))
        };
        self.call().and(found)
    }

    fn find_open(&mut self, file: &Opened) -> io::Result<Found> {
        self.call().and(Ok(self.facts(file.file, 1, false)))
    }

    fn find_folder(&mut self, _folder: &bool) -> io::Result<Found> {
        let device = if self.setting == "mount-point" { 2 } else { 1 };
        self.call().and(Ok(self.facts(0, device, false)))
    }

    fn resolve(&mut self, name: &str) -> io::Result<PathBuf> {
        match PathBuf::from_str(self.alloc, follow_link(name)) {
            Ok(path) => self.call_in("unresolved").and(Ok(path)),
            Err(_) => Err(Error::from(ErrorKind::OutOfMemory)),
        }
    }

    fn open(&mut self, name: &str) -> io::Result<Opened> {
        let opened = match self.file(follow_link(name)) {
            Some(file) => Ok(Opened { file, offset: 0 }),
            None => Err(Error::from(ErrorKind::NotFound)),
        };
        self.call().and(opened)
    }

    fn open_to_read(&mut self, name: &str) -> io::Result<Opened> {
        self.open(name)
    }

    fn read(&mut self, file: &mut Opened, most: usize) -> io::Result<Vec<u8>> {
        let seen = self.contents(file.file);
        let rest = seen.get(file.offset..).unwrap_or(&[]);
        match rest.get(..most).unwrap_or(rest).to_vec(self.alloc) {
            Ok(bytes) => self.call().and(Ok(bytes)),
            Err(_) => Err(Error::from(ErrorKind::OutOfMemory)),
        }
    }

    fn try_lock(&mut self, _file: &mut Opened) -> io::Result<Lock> {
        let lock = if self.setting == "locked-elsewhere" {
            Lock::Elsewhere
        } else {
            Lock::Held
        };
        self.call().and(Ok(lock))
    }

    fn open_or_create(&mut self, name: &str) -> io::Result<Opened> {
        match self.file(follow_link(name)) {
            Some(_) => self.open(name),
            None => self.create_new(follow_link(name), 0o644),
        }
    }

    fn create_new(&mut self, name: &str, _mode: u32) -> io::Result<Opened> {
        self.call()?;
        if self.file(name).is_some() {
            return Err(Error::from(ErrorKind::AlreadyExists));
        }
        let file = self.replace(name, b"");
        self.is_in_place = self.is_in_place || name == "f";
        Ok(Opened { file, offset: 0 })
    }

    fn open_folder(&mut self, _folder: &str) -> io::Result<bool> {
        let answer = self.call_in("closed-folder");
        self.is_unsynced = self.is_unsynced || answer.is_err();
        answer.and(Ok(true))
    }

    fn set_owner(&mut self, _name: &str, _user: u32, _group: u32) -> io::Result<()> {
        self.call_in("owner-refused")
    }

    fn set_permissions(&mut self, _file: &Opened, _permissions: Permissions) -> io::Result<()> {
        self.call()
    }

    fn write(&mut self, file: &mut Opened, bytes: &[u8]) -> io::Result<()> {
        let mut written = Vec::new(self.alloc);
        let seen = self.contents(file.file);
        self.is_short |= !add_overwritten(seen, file.offset, bytes, &mut written);
        let answer = self.call_and_change(file.file, &written);
        self.is_in_place = self.is_in_place || self.file("f") == Some(file.file);
        file.offset = file.offset.saturating_add(bytes.len());
        answer
    }

    fn seek(&mut self, file: &mut Opened, offset: u64) -> io::Result<()> {
        let answer = self.call();
        if answer.is_ok() {
            file.offset = usize::try_from(offset).unwrap_or(0);
        }
        answer
    }

    fn set_length(&mut self, file: &Opened, length: u64) -> io::Result<()> {
        let length = usize::try_from(length).unwrap_or(0);
        let mut resized = Vec::new(self.alloc);
        let seen = self.contents(file.file);
        self.is_short |= !add_mix(seen, seen, length, &mut resized);
        self.call_and_change(file.file, &resized)
    }

    /// A sync that fails makes nothing durable, and what is read then is an older one.
    fn sync(&mut self, file: &Opened) -> io::Result<()> {
        let answer = self.call();
        self.keep_one(file.file, answer.is_ok());
        self.overtake_in("overtaken-in-filling", "f");
        answer
    }

    fn rename(&mut self, from: &str, to: &str) -> io::Result<()> {
        let answer = self.call();
        if answer.is_ok() {
            self.set(to, self.file(from));
            self.set(from, None);
        }
        answer
    }

    fn link(&mut self, from: &str, to: &str) -> io::Result<()> {
        self.overtake_in("overtaken", to);
        let free = match self.file(to) {
            Some(_) => Err(Error::from(ErrorKind::AlreadyExists)),
            None => Ok(()),
        };
        let answer = self.call_in("no-links").and(free);
        if answer.is_ok() {
            self.set(to, self.file(from));
        }
        answer
    }

    fn sync_folder(&mut self, _folder: &bool) -> io::Result<()> {
        let answer = self.call();
        if answer.is_ok() && self.setting == "no-folder-sync" {
            self.is_unsynced = true;
            return Err(Error::from(ErrorKind::InvalidInput));
        }
        if answer.is_ok() {
            self.overtake_in("overtaken-in-syncing", "f");
            self.keep_names();
        }
        answer
    }

    fn remove(&mut self, name: &str) -> io::Result<()> {
        let answer = self.call();
        if answer.is_ok() {
            self.set(name, None);
        }
        answer
    }
}
