use desk_io::LockFile;
use durable_folder::Lock;
use std::alloc::{Allocator, Global};
use std::cell::{Cell, RefCell};
use std::fs::{File, Metadata, OpenFile, OpenOptions, Permissions};
use std::io;
use std::io::{Error, ErrorKind, Read, Seek, SeekFrom, Write};
use std::os::unix::fs::PermissionsExt;
use std::path::{Path, PathBuf};
use std::rt::Files;

/// The folder that is saved in, and the names that a save asks for there.
const NAMES: &str = "saves f link f.saving f.saving2";

/// The last part of a path, if it is one of those names.
fn last_part(path: &str) -> &'static str {
    let file = Path::new(path).file_name().unwrap_or(path);
    for name in NAMES.split(' ') {
        if name == file {
            return name;
        }
    }
    "other"
}

/// The calls that were made of a system, one of which fails.
#[derive(Drop)]
pub struct Log {
    /// Each call with the last part of its name.
    pub text: RefCell<String>,
    /// How many calls are made until one fails; 0 where none does.
    left: Cell<u32>,
    /// How it fails.
    kind: ErrorKind,
}

impl Log {
    /// No calls so far. The one of this number fails, from 1, with an error of this kind.
    pub fn new(alloc: Global, fails: u32, kind: ErrorKind) -> Log {
        Log {
            text: RefCell::new(String::new(alloc)),
            left: Cell::new(fails),
            kind,
        }
    }

    /// Whether the call that fails was made.
    pub fn has_failed(&self) -> bool {
        self.left.get() == 0
    }

    /// Adds a call to the text, where there is memory for it.
    fn add(&self, call: &str, name: &str) -> bool {
        match self.text.try_borrow_mut() {
            Ok(mut text) => write!(text, "{call} {name}; ").is_ok(),
            Err(_) => false,
        }
    }

    /// Notes a call, and fails where it is to fail.
    fn note(&self, call: &str, name: &str) -> io::Result<()> {
        if !self.add(call, name) {
            return Err(Error::from(ErrorKind::Other));
        }
        let left = self.left.get();
        self.left.set(left.saturating_sub(1));
        if left == 1 {
            Err(Error::from(self.kind))
        } else {
            Ok(())
        }
    }
}

/// A system that notes the calls that are made of it.
#[derive(Drop)]
pub struct Recorder<'a> {
    pub rt: &'a HostRuntime,
    pub log: &'a Log,
}

/// An open file of such a system.
#[derive(Drop)]
pub struct Recorded<'a> {
    file: File,
    name: &'static str,
    log: &'a Log,
}

impl<'a> Alloc for Recorder<'a> {
    type A = Global;

    fn alloc(&self) -> Global {
        self.rt.alloc()
    }
}

impl<'a> Read for Recorded<'a> {
    fn read(&mut self, buf: &mut [u8]) -> io::Result<usize> {
        self.file.read(buf)
    }
}

impl<'a> Write for Recorded<'a> {
    fn write(&mut self, buf: &[u8]) -> io::Result<usize> {
        self.log.note("write", self.name)?;
        self.file.write(buf)
    }

    fn flush(&mut self) -> io::Result<()> {
        self.file.flush()
    }
}

impl<'a> Seek for Recorded<'a> {
    fn seek(&mut self, to: SeekFrom) -> io::Result<u64> {
        self.file.seek(to)
    }
}

impl<'a> OpenFile for Recorded<'a> {
    fn metadata(&self) -> io::Result<Metadata> {
        self.file.metadata()
    }

    fn set_len(&self, size: u64) -> io::Result<()> {
        self.log.note("length", self.name)?;
        self.file.set_len(size)
    }

    fn sync_all(&self) -> io::Result<()> {
        self.log.note("sync", self.name)?;
        self.file.sync_all()
    }

    fn sync_data(&self) -> io::Result<()> {
        self.file.sync_data()
    }

    fn set_permissions(&self, perm: Permissions) -> io::Result<()> {
        self.log.note("chmod", self.name)?;
        self.file.set_permissions(perm)
    }
}

impl<'a> LockFile for Recorded<'a> {
    fn take_lock(&self) -> io::Result<Lock> {
        self.log.note("lock", self.name)?;
        self.file.take_lock()
    }
}

/// The answer to a call that no load and no save makes.
fn refuse<T: Drop>() -> io::Result<T> {
    Err(Error::from(ErrorKind::Unsupported))
}

impl<'a> Files for Recorder<'a> {
    type File = Recorded<'a>;

    type Dir = Recorded<'a>;

    fn open_file(&self, how: &OpenOptions, path: &str) -> io::Result<Recorded<'a>> {
        let name = last_part(path);
        let call = if how.asks_create_new() {
            "create"
        } else {
            "open"
        };
        self.log.note(call, name)?;
        let file = self.rt.open_file(how, path)?;
        Ok(Recorded {
            file,
            name,
            log: self.log,
        })
    }

    fn open_dir(&self, _path: &str) -> io::Result<Recorded<'a>> {
        refuse()
    }

    fn metadata(&self, _path: &str) -> io::Result<Metadata> {
        refuse()
    }

    fn symlink_metadata(&self, path: &str) -> io::Result<Metadata> {
        self.log.note("stat", last_part(path))?;
        self.rt.symlink_metadata(path)
    }

    fn copy(&self, _from: &str, _to: &str) -> io::Result<u64> {
        refuse()
    }

    fn rename(&self, from: &str, to: &str) -> io::Result<()> {
        self.log.note("rename", last_part(from))?;
        self.rt.rename(from, to)
    }

    fn hard_link(&self, original: &str, link: &str) -> io::Result<()> {
        self.log.note("link", last_part(original))?;
        self.rt.hard_link(original, link)
    }

    fn remove_file(&self, path: &str) -> io::Result<()> {
        self.log.note("remove", last_part(path))?;
        self.rt.remove_file(path)
    }

    fn create_dir(&self, _path: &str) -> io::Result<()> {
        refuse()
    }

    fn remove_dir(&self, _path: &str) -> io::Result<()> {
        refuse()
    }

    fn remove_dir_all<B: Allocator>(&self, _alloc: B, _path: &str) -> io::Result<()> {
        refuse()
    }

    fn canonicalize<B: Allocator>(&self, alloc: B, path: &str) -> io::Result<PathBuf<B>> {
        self.log.note("resolve", last_part(path))?;
        self.rt.canonicalize(alloc, path)
    }

    /// A file that nobody else may open yet.
    fn lchown(&self, path: &str, uid: Option<u32>, gid: Option<u32>) -> io::Result<()> {
        let call = if is_private(self.rt.symlink_metadata(path)) {
            "chown"
        } else {
            "chown too open"
        };
        self.log.note(call, last_part(path))?;
        self.rt.lchown(path, uid, gid)
    }
}

/// Whether only its owner may open a file.
fn is_private(found: io::Result<Metadata>) -> bool {
    match found {
        Ok(found) => found.permissions().mode() & 0o777 == 0o600,
        Err(_) => false,
    }
}
