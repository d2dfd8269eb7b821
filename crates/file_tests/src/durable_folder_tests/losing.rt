mod calls;
mod mixes;

use durable_folder::Found;
use mixes::may_mixes_be;
use std::alloc::Global;
use std::fs::Permissions;
use std::io::{Error, ErrorKind};
use std::os::unix::fs::PermissionsExt;
use std::{io, mem};

/// What a loss of power may leave at a name.
#[derive(Drop)]
pub struct Wanted<'a> {
    /// These bytes.
    pub one: &'a [u8],
    /// Or these.
    pub other: &'a [u8],
    /// Or no file.
    pub is_none: bool,
    /// Or a file that was torn: its first block at most, or nothing in this.
    pub is_torn: bool,
}

impl Wanted<'_> {
    /// Whether these bytes may be left.
    fn may_be(&self, left: &[u8]) -> bool {
        left == self.one
            || left == self.other
            || (self.is_torn && (left.len() <= 64 || left.first() == Some(&0)))
    }
}

/// An open file.
#[derive(Drop)]
pub struct Opened {
    file: usize,
    offset: usize,
}

/// A folder in memory that loses power. It keeps what each name and each file had since they were synced. The name
/// `link` is a link to `f`.
#[derive(Drop)]
pub struct CrashingFolder {
    alloc: Global,
    /// The file that each name has now.
    names: [Option<usize>; 5],
    /// The files that names had since the folder was synced.
    lost: Vec<(usize, Option<usize>)>,
    /// The contents of each file, the newest last.
    files: Vec<Vec<Vec<u8>>>,
    /// What is special of the folder and of the file `f` in it:
    /// - `two-names`: the file has a second name elsewhere
    /// - `mount-point`: it stands on another device than its folder
    /// - `closed-folder`: the folder may not be opened
    /// - `owner-refused`: a new file may not be given to the owner of the old one
    /// - `no-folder-sync`: the system cannot sync folders
    /// - `unresolved`: where a link leads can't be told
    /// - `no-links`: a file can't have a second name
    /// - `overtaken`: another program makes a file of a name just before a new one is linked there
    /// - `overtaken-in-filling`: it puts a file in the place of `f` while a file is synced
    /// - `overtaken-in-syncing`: it does so while a folder is synced
    /// - `locked-elsewhere`: another program holds the lock of each file
    /// - `special`: no file is a plain one
    pub setting: &'static str,
    /// How many calls were made.
    pub calls: u32,
    /// The number of the call that fails.
    fails: u32,
    /// How it fails.
    kind: ErrorKind,
    /// Whether all later calls fail too, as power is lost.
    is_cut: bool,
    /// Whether `f` itself was made or written.
    pub is_in_place: bool,
    /// Whether it was said that a folder can't be synced, or may not be opened.
    pub is_unsynced: bool,
    /// Whether there was no memory for what is kept.
    is_short: bool,
}

/// Where a name stands.
fn place_of(name: &str) -> usize {
    match name {
        "f" => 0,
        "other" => 1,
        "f.saving" => 2,
        "link" => 3,
        _ => 4,
    }
}

/// Has the oldest contents read, and the newest kept in their place.
fn turn_back(versions: &mut Vec<Vec<u8>>) {
    let count = versions.len();
    if count > 0 {
        versions.swap(0, count - 1);
    }
}

impl CrashingFolder {
    /// An empty folder, in which the call of this number fails in this way, and all later ones where power
    /// is lost.
    pub fn new(
        alloc: Global,
        setting: &'static str,
        fails: u32,
        kind: ErrorKind,
        is_cut: bool,
    ) -> CrashingFolder {
        CrashingFolder {
            alloc,
            names: [None; 5],
            lost: Vec::new(alloc),
            files: Vec::new(alloc),
            setting,
            calls: 0,
            fails,
            kind,
            is_cut,
            is_in_place: false,
            is_unsynced: false,
            is_short: false,
        }
    }

    /// Gives a name a new file of these bytes. Returns its number.
    pub fn replace(&mut self, name: &str, bytes: &[u8]) -> usize {
        let file = self.files.len();
        self.is_short |= self.files.push(Vec::new(self.alloc)).is_err();
        self.change(file, bytes, true);
        self.set(name, Some(file));
        file
    }

    /// Gives the file of a name these bytes.
    pub fn rewrite(&mut self, name: &str, bytes: &[u8]) {
        match self.file(name) {
            Some(file) => self.change(file, bytes, true),
            None => self.is_short = true,
        }
    }

    /// Makes the file that each name has now the only one that it had.
    pub fn keep_names(&mut self) {
        self.lost.clear();
    }

    /// Counts a call, and fails where it is to fail.
    fn call(&mut self) -> io::Result<()> {
        self.calls = self.calls.saturating_add(1);
        if self.calls == self.fails || (self.is_cut && self.calls > self.fails) {
            return Err(Error::from(self.kind));
        }
        Ok(())
    }

    /// Makes a call that such a folder denies.
    fn call_in(&mut self, denied: &str) -> io::Result<()> {
        let answer = self.call();
        if answer.is_ok() && self.setting == denied {
            Err(Error::from(ErrorKind::PermissionDenied))
        } else {
            answer
        }
    }

    /// The file that a name has now.
    fn file(&self, name: &str) -> Option<usize> {
        match self.names.get(place_of(name)) {
            Some(file) => *file,
            None => None,
        }
    }

    /// Gives a name another file.
    fn set(&mut self, name: &str, file: Option<usize>) {
        let at = place_of(name);
        if let Some(place) = self.names.get_mut(at) {
            let before = mem::replace(place, file);
            self.is_short |= self.lost.push((at, before)).is_err();
        }
    }

    /// What is read of a file.
    fn contents(&self, file: usize) -> &[u8] {
        match self.files.get(file) {
            Some(versions) => match versions.last() {
                Some(bytes) => bytes.as_slice(),
                None => &[],
            },
            None => &[],
        }
    }

    /// Gives a file new contents, which are read from then on where the call did not fail.
    fn change(&mut self, file: usize, bytes: &[u8], is_read: bool) {
        match (self.files.get_mut(file), bytes.to_vec(self.alloc)) {
            (Some(versions), Ok(bytes)) => {
                self.is_short |= versions.push(bytes).is_err();
                if !is_read {
                    turn_back(versions);
                }
            }
            _ => self.is_short = true,
        }
    }

    /// Makes a call that gives a file new contents. One that fails gives them all the same, and so does one in which
    /// power is lost. But they are not read.
    fn call_and_change(&mut self, file: usize, bytes: &[u8]) -> io::Result<()> {
        let answer = self.call();
        if answer.is_ok() || self.calls == self.fails {
            self.change(file, bytes, answer.is_ok());
        }
        answer
    }

    /// What is told of a file of this number on a device, or of a link.
    fn facts(&self, file: usize, device: u64, is_link: bool) -> Found {
        Found {
            is_file: !is_link && self.setting != "special",
            is_link,
            names: if self.setting == "two-names" { 2 } else { 1 },
            device,
            inode: file as u64,
            user: 0,
            group: 0,
            permissions: Permissions::from_mode(0o644),
            size: self.contents(file).len() as u64,
            seconds: 0,
            billionths: 0,
        }
    }

    /// Whether all that a loss of power may leave of a file may be left, or nothing where there is none.
    fn may_file_be(&self, file: Option<usize>, wanted: &Wanted) -> bool {
        match file {
            Some(file) => match self.files.get(file) {
                Some(versions) => may_mixes_be(self.alloc, versions, wanted),
                None => false,
            },
            None => wanted.is_none,
        }
    }

    /// Whether all that a loss of power may leave at a name may be left, where files have two blocks at most.
    pub fn may_be_left(&self, name: &str, wanted: &Wanted) -> bool {
        let mut may_be = !self.is_short && self.may_file_be(self.file(name), wanted);
        for (at, file) in &self.lost {
            may_be = may_be && (*at != place_of(name) || self.may_file_be(*file, wanted));
        }
        may_be
    }
}
